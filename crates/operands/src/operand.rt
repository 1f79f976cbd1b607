// What an instruction can want of a register: what a value of one kind holds.
ghost use Rattle.std.specs.Prelude.{◌≡◌, ℕ, List, ℤ, IfOk};
ghost use Rattle.text.specs.Memory.{Memory, bytes_of};
ghost use Rattle.store.specs.declared.value.Value.{Value};
ghost use Rattle.store.specs.declared.value.Value.TheVariants.{Int, Str, Ident, Loc};
ghost use Rattle.store.specs.Val.{Val, meaning};
ghost use Rattle.machine.specs.Outcome.{Outcome};
ghost use Rattle.machine.specs.Builtin.{integer_in, string_in};
ghost use Rattle.machine.specs.Operands.{function_in};
ghost use Rattle.operands.specs.Slots.{taken, location_in};

use machine::ending::Ending;
use store::value::{Identifier, Location, Value};
use text::span::Span;

pub trait Operand: Copy {
    // what it means over the bytes lent, and what a value has to mean for it
    ghost Meaning: { Type 0 };

    ghost means: { Memory → Self → Meaning };

    ghost wanted: { Val → Outcome Meaning };

    // the value that holds it
    ghost holder: { Self → Value };

    // A value of another kind leaves the run stuck.
    fn of_value(value: Value) -> Result<Self, Ending>
        ensures meant { (m : Memory) → taken (means m) result ≡ wanted (meaning m value) }
        ensures held { IfOk result (λ x. value ≡ holder x) };
}

impl Operand for i32 {
    ghost Meaning = { ℤ };

    ghost means = { λ _ n. n };

    ghost wanted = { integer_in };

    ghost holder = { Int };

    fn of_value(value: Value) -> Result<i32, Ending> {
        match value {
            Value::Int(n) => Ok(n),
            _ => Err(Ending::Stuck),
        }
    }
}

impl Operand for Span {
    ghost Meaning = { List ℕ };

    ghost means = { bytes_of };

    ghost wanted = { string_in };

    ghost holder = { Str };

    fn of_value(value: Value) -> Result<Span, Ending> {
        match value {
            Value::Str(s) => Ok(s),
            _ => Err(Ending::Stuck),
        }
    }
}

impl Operand for Identifier {
    ghost Meaning = { ℕ };

    ghost means = { λ _ g. g.0 };

    ghost wanted = { function_in };

    ghost holder = { Ident };

    fn of_value(value: Value) -> Result<Identifier, Ending> {
        match value {
            Value::Ident(g) => Ok(g),
            _ => Err(Ending::Stuck),
        }
    }
}

impl Operand for Location {
    ghost Meaning = { ℕ };

    ghost means = { λ _ l. l.0 };

    ghost wanted = { location_in };

    ghost holder = { Loc };

    fn of_value(value: Value) -> Result<Location, Ending> {
        match value {
            Value::Loc(l) => Ok(l),
            _ => Err(Ending::Stuck),
        }
    }
}
