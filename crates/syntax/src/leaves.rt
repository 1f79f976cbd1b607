// Expressions of one token.
ghost use Rattle.std.specs.Prelude.{◌≡◌, ℕ, ◌+◌, ◌<◌, ◌≤◌, length};
ghost use Rattle.syntax.specs.declared.sight.Sort.TheVariants as sort;
ghost use Rattle.stack.specs.declared.Stack.{Stack};
ghost use Rattle.text.specs.declared.span.Span.{Span};
ghost use Rattle.syntax.specs.Left.{left};
ghost use Rattle.syntax.specs.Sight.{shown};
ghost use Rattle.syntax.specs.Parsing.{Parsed, Lent, Moves};

use crate::limits::STRING;
use crate::names::own;
use crate::number::value;
use crate::read::{Got, Size};
use crate::sight::Sight;
use crate::source::Text;
use crate::table::{Table, leaf, put};
use nodes::node::{Form, Node};
use stack::Stack;
use text::span::Span;

impl Text<'_> {
    // A local, read.
    pub fn local(
        self,
        sight: Sight,
        nodes: &mut Table<'_, Node>,
        names: &mut Stack<'_, Span>,
    ) -> Got
        requires few { nodes.old.count ≤ sight.from }
        requires inside { sight.to ≤ length self.bytes.now }
        ensures moves { Moves self.entry.bytes.now sight.from nodes.old nodes.new result }
        ensures reads { (p : ℕ) → left self.entry.bytes.now p ≡ shown self.entry.bytes.now sort.Name sight.from sight.to → Parsed 1 self.entry.bytes.now self.entry.base p nodes.old nodes.new names.old names.new result }
        ensures lent { Lent nodes.old nodes.new names.old names.new }
    {
        self.learn(names, own(sight.from, sight.to));
        leaf(nodes, sight, Form::Local(self.span(sight.from, sight.to)))
    }

    pub fn integer(self, sight: Sight, nodes: &mut Table<'_, Node>) -> Got
        requires few { nodes.old.count ≤ sight.from }
        requires inside { sight.to ≤ length self.bytes.now }
        ensures moves { Moves self.entry.bytes.now sight.from nodes.old nodes.new result }
        ensures reads { (p : ℕ) (us : Stack Span) → left self.entry.bytes.now p ≡ shown self.entry.bytes.now sort.Integer sight.from sight.to → Parsed 1 self.entry.bytes.now self.entry.base p nodes.old nodes.new us us result }
        ensures lent { (us : Stack Span) → Lent nodes.old nodes.new us us }
    {
        let number = value(&self.bytes[sight.from as usize..sight.to as usize]);
        let node = Node {
            place: sight.from,
            form: Form::Int(number.unwrap_or(0)),
        };
        put(nodes, node, sight.to, Size::leaf(number.is_some()))
    }

    // A field, read.
    pub fn field(self, sight: Sight, nodes: &mut Table<'_, Node>) -> Got
        requires few { nodes.old.count ≤ sight.from }
        requires inside { sight.to ≤ length self.bytes.now }
        ensures moves { Moves self.entry.bytes.now sight.from nodes.old nodes.new result }
        ensures reads { (p : ℕ) (us : Stack Span) → left self.entry.bytes.now p ≡ shown self.entry.bytes.now sort.Field sight.from sight.to → Parsed 1 self.entry.bytes.now self.entry.base p nodes.old nodes.new us us result }
        ensures lent { (us : Stack Span) → Lent nodes.old nodes.new us us }
    {
        leaf(nodes, sight, Form::Field(self.span(sight.from, sight.to)))
    }

    // A string, without its quotes.
    pub fn string(self, sight: Sight, nodes: &mut Table<'_, Node>) -> Got
        requires few { nodes.old.count ≤ sight.from }
        requires inside { sight.to ≤ length self.bytes.now }
        requires quoted { sight.from + 2 ≤ sight.to }
        ensures moves { Moves self.entry.bytes.now sight.from nodes.old nodes.new result }
        ensures reads { (p : ℕ) (us : Stack Span) → left self.entry.bytes.now p ≡ shown self.entry.bytes.now sort.Str sight.from sight.to → Parsed 1 self.entry.bytes.now self.entry.base p nodes.old nodes.new us us result }
        ensures lent { (us : Stack Span) → Lent nodes.old nodes.new us us }
    {
        let word = self.span(sight.from + 1, sight.to - 1);
        let node = Node {
            place: sight.from,
            form: Form::Str(word),
        };
        put(nodes, node, sight.to, Size::leaf(word.len <= STRING))
    }
}
