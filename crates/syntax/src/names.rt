// The distinct names of a body.
ghost use Rattle.std.specs.Prelude.{◌≡◌, ◌+◌, ◌-◌, ◌%◌, ◌^◌, ◌≤◌, length};
ghost use Rattle.text.specs.Memory.{bytes_of};
ghost use Rattle.nodes.specs.Trees.{span_of};
ghost use Rattle.syntax.specs.Sizes.{lone, Remains, Learns};
ghost use Rattle.syntax.specs.Parsing.{meant, LearnsTarget};

use crate::read::{Target, Variable};
use crate::source::Text;
use stack::Stack;
use text::search::first_equal;
use text::span::{Bytes, Space, Span};

// The bytes `from` up to `to` of the text itself.
pub fn own(from: u16, to: u16) -> Span
    requires { from ≤ to }
    ensures where_they_lie { result ≡ span_of 0 from to }
{
    Span {
        space: Space::Texts,
        start: from,
        len: to - from,
    }
}

impl Text<'_> {
    // Learns a name of the text, if it is not among the names. With room for one more than a body may have, a full stack has too many, whatever is not learnt: nothing is looked for then.
    pub fn learn(self, names: &mut Stack<'_, Span>, name: Span)
        ensures one_more_if_new { Learns self.entry.bytes.now names.old names.new (bytes_of (lone self.entry.bytes.now) name) }
        ensures lent { Remains names.old names.new }
    {
        if names.is_full() {
            return;
        }
        let bytes = Bytes {
            fixed: b"",
            texts: self.bytes,
            made: b"",
        };
        if first_equal(names.items(), &name, bytes).is_none() {
            let _ = names.push(name);
        }
    }

    // Learns the name of a local that is written to; a field's is none.
    pub fn learn_target(self, names: &mut Stack<'_, Span>, target: Target)
        requires { target.from ≤ target.to }
        ensures named_by_it { target.to ≤ length self.entry.bytes.now → LearnsTarget self.entry.bytes.now names.old names.new (meant self.entry.bytes.now target) }
        ensures lent { Remains names.old names.new }
    {
        match target.variable {
            Variable::Local => self.learn(names, own(target.from, target.to)),
            Variable::Field => (),
        }
    }
}
