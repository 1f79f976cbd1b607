// Values of a run: what registers, globals and tables hold.
ghost use Rattle.std.specs.Prelude.{◌≡◌, Decides, pos};
ghost use Rattle.text.specs.Memory.{memory_of};
ghost use Rattle.store.specs.declared.value.Value.TheVariants.{Int};
ghost use Rattle.store.specs.Val.{meaning};

use text::span::{Bytes, Span, same_span};

// A table's number; never a register's or a place's in the code.
#[derive(Clone, Copy, PartialEq, Eq, Default, Debug)]
pub struct Location(pub u16);

// A function or a global by its number.
#[derive(Clone, Copy, PartialEq, Eq, Debug)]
pub struct Identifier(pub u16);

#[derive(Clone, Copy, Debug)]
pub enum Value {
    Int(i32),
    Str(Span),
    Ident(Identifier),
    Loc(Location),
}

// By hand: a variant with a field can be no `#[default]`.
impl Default for Value {
    ghost is_default = { λ v. v ≡ Int (pos 0) };

    fn default() -> Value {
        Value::Int(0)
    }
}

// Whether two values mean the same: of one kind and of one content, strings by their bytes.
pub fn same(a: Value, b: Value, bytes: Bytes<'_, '_, '_>) -> bool
    ensures { Decides result (meaning (memory_of bytes.entry) a ≡ meaning (memory_of bytes.entry) b) }
{
    match (a, b) {
        (Value::Int(x), Value::Int(y)) => x == y,
        (Value::Str(x), Value::Str(y)) => same_span(bytes, x, y),
        (Value::Ident(x), Value::Ident(y)) => x == y,
        (Value::Loc(x), Value::Loc(y)) => x == y,
        _ => false,
    }
}
