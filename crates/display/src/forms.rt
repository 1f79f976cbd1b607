// What is printed of a form: its kind, its word and its parts.
ghost use Rattle.std.specs.Prelude.{◌≡◌, ◌+◌, ◌≤◌, ◌++◌, Some, flat_map, length};
ghost use Rattle.display.specs.Forms.{kind_of, word_of, parts_of};
ghost use Rattle.display.specs.Lines.{value_written, word_written, part_written};

use crate::bytes::Shown;
use arrayvec::ArrayVec;
use nodes::node::Form;
use std::fmt;
use text::span::Span;

// What a form is called.
pub fn kind(form: Form) -> &'static str
    ensures by_its_case { result.now ≡ kind_of form }
{
    match form {
        Form::Int(_) => "integer",
        Form::Nil => "nil",
        Form::SelfWord => "self",
        Form::Str(_) => "string",
        Form::Local(_) => "local",
        Form::SetLocal(_, _) => "write local",
        Form::Field(_) => "field",
        Form::SetField(_, _) => "write field",
        Form::If(_, _, _) => "if",
        Form::While(_, _) => "while",
        Form::Seq(_, _) => "sequence",
        Form::New(_, _) => "new",
        Form::InstanceOf(_, _) => "instanceof",
        Form::Invoke(_, _, _) => "call",
    }
}

// Its name, or the bytes of a string.
pub fn word(form: Form) -> Option<Span>
    ensures by_its_case { result ≡ word_of form }
{
    match form {
        Form::Str(word) | Form::Local(word) | Form::Field(word) => Some(word),
        Form::SetLocal(word, _) | Form::SetField(word, _) => Some(word),
        Form::New(word, _) | Form::InstanceOf(_, word) | Form::Invoke(_, word, _) => Some(word),
        Form::Int(_) | Form::Nil | Form::SelfWord => None,
        Form::If(_, _, _) | Form::While(_, _) | Form::Seq(_, _) => None,
    }
}

// A list of at most five.
fn listed(first: &[u16], others: &[u16]) -> ArrayVec<u16, 5>
    requires few { length first.now + length others.now ≤ 5 }
    ensures in_order { result.items ≡ first.now ++ others.now }
{
    let mut all = ArrayVec::new();
    for root in first {
        all.push(*root);
    }
    for root in others {
        all.push(*root);
    }
    all
}

// Where its parts stand, in the order of the text.
pub fn parts(form: &Form) -> ArrayVec<u16, 5>
    ensures in_order { result.items ≡ parts_of form.now }
{
    match form {
        Form::SetLocal(_, a) | Form::SetField(_, a) | Form::InstanceOf(a, _) => listed(&[*a], &[]),
        Form::While(a, b) | Form::Seq(a, b) => listed(&[*a, *b], &[]),
        Form::If(a, b, c) => listed(&[*a, *b, *c], &[]),
        Form::New(_, arguments) => listed(&[], arguments.kept()),
        Form::Invoke(receiver, _, arguments) => listed(&[*receiver], arguments.kept()),
        Form::Int(_) | Form::Nil | Form::SelfWord => listed(&[], &[]),
        Form::Str(_) | Form::Local(_) | Form::Field(_) => listed(&[], &[]),
    }
}

// A form on one line: its kind, its value or its word, and its parts, each behind `between`.
#[derive(Clone, Copy)]
pub struct Line<'a> {
    pub form: Form,
    pub word: Option<Shown<'a>>,
    pub between: char,
}

impl fmt::Display for Line<'_> {
    ghost output = { λ l. Some (kind_of l.form ++ (value_written l.between l.form ++ (word_written l.between l.word ++ flat_map (part_written l.between) (parts_of l.form)))) };

    fn fmt<W: fmt::Write>(&self, f: &mut fmt::Formatter<W>) -> fmt::Result {
        let between = self.between;
        let kind = kind(self.form);
        write!(f, "{kind}")?;
        if let Form::Int(value) = self.form {
            write!(f, "{between}{value}")?;
        }
        if let Some(word) = self.word {
            write!(f, "{between}{word}")?;
        }
        for root in parts(&self.form).iter() {
            write!(f, "{between}{root}")?;
        }
        Ok(())
    }
}
