// The functions that the machine has itself, called with registers of the running frame.
ghost use Rattle.std.specs.Prelude.{◌≡◌, ℕ, ◌≤◌, length};
ghost use Rattle.text.specs.Memory.{Memory, memory_of};
ghost use Rattle.store.specs.Val.{meaning};
ghost use Rattle.machine.specs.declared.builtin.Builtin.TheVariants.{PrintValue, ToS, Concat, Length};
ghost use Rattle.machine.specs.Limits.{most_string_bytes};
ghost use Rattle.machine.specs.Effects.{Effects};
ghost use Rattle.machine.specs.Builtin.{integer_in, shown};
ghost use Rattle.effects.specs.Spending.{memory_with, effects_of, SameSlice};
ghost use Rattle.operands.specs.Slots.{registers_of, answered, Within, EndsBy};
ghost use Rattle.calls.specs.Applying.{Spells, There, Shows, Applied, SameSpace, beside, apply_at};

use crate::passed::Passed;
use effects::literals::Literals;
use effects::output::Output;
use effects::spent::Spent;
use effects::strings::Strings;
use machine::builtin::Builtin;
use machine::ending::Ending;
use operands::operand::Operand;
use store::value::Value;
use text::span::{Bytes, Span};

// An integer as a string.
fn spell(v: Value, strings: &mut Strings<'_>) -> Result<Span, Ending>
    ensures made { (m : Memory) → most_string_bytes ≤ length strings.old.bytes.now → Spells (integer_in (meaning m v)) strings.old result strings.new }
    ensures lent { SameSlice strings.old.bytes strings.new.bytes }
{
    strings.to_s(i32::of_value(v)?)
}

// What is printed of a value.
fn show(v: Value, bytes: Bytes<'_, '_, '_>, output: &mut Output<'_>) -> Result<(), Ending>
    ensures shown { Shows (shown (meaning (memory_of bytes.entry) v)) output.old result output.new }
    ensures lent { SameSlice output.old.bytes output.new.bytes }
{
    match v {
        Value::Int(n) => output.print_integer(n),
        Value::Str(s) => output.print_string(s, bytes),
        _ => Err(Ending::Stuck),
    }
}

fn print(
    registers: &[Option<Value>],
    passed: Passed,
    literals: Literals<'_, '_>,
    spent: &mut Spent<'_, '_>,
) -> Result<Value, Ending>
    ensures applied { Applied literals.entry (apply_at PrintValue (registers_of (memory_with literals.entry spent.old.strings.bytes.now) registers.now) passed.first.0 passed.last.0 (effects_of spent.old)) spent.old result spent.new }
    ensures there { There passed.first.0 (length registers.now) result }
    ensures lent { SameSpace spent.old spent.new }
{
    let v = passed.only(registers)?;
    show(v, literals.with(&spent.strings), &mut spent.output)?;
    Ok(Value::Int(0))
}

fn to_string(
    registers: &[Option<Value>],
    passed: Passed,
    literals: Literals<'_, '_>,
    spent: &mut Spent<'_, '_>,
) -> Result<Value, Ending>
    ensures applied { most_string_bytes ≤ length spent.old.strings.bytes.now → Applied literals.entry (apply_at ToS (registers_of (memory_with literals.entry spent.old.strings.bytes.now) registers.now) passed.first.0 passed.last.0 (effects_of spent.old)) spent.old result spent.new }
    ensures there { There passed.first.0 (length registers.now) result }
    ensures lent { SameSpace spent.old spent.new }
{
    let v = passed.only(registers)?;
    let s = spell(v, &mut spent.strings)?;
    Ok(Value::Str(s))
}

fn concatenate(
    registers: &[Option<Value>],
    passed: Passed,
    literals: Literals<'_, '_>,
    spent: &mut Spent<'_, '_>,
) -> Result<Value, Ending>
    ensures applied { most_string_bytes ≤ length spent.old.strings.bytes.now → Within spent.old.strings.used registers.now → Applied literals.entry (apply_at Concat (registers_of (memory_with literals.entry spent.old.strings.bytes.now) registers.now) passed.first.0 passed.last.0 (effects_of spent.old)) spent.old result spent.new }
    ensures there { There passed.first.0 (length registers.now) result }
    ensures lent { SameSpace spent.old spent.new }
{
    let (v, w) = passed.both(registers)?;
    let a = Span::of_value(v)?;
    let b = Span::of_value(w)?;
    let s = spent.strings.concat(a, b, literals)?;
    Ok(Value::Str(s))
}

fn length_of(registers: &[Option<Value>], passed: Passed) -> Result<Value, Ending>
    ensures answered { (m : Memory) (o : Effects) → beside o (answered m result) ≡ apply_at Length (registers_of m registers.now) passed.first.0 passed.last.0 o }
    ensures within { EndsBy 0 result }
    ensures there { There passed.first.0 (length registers.now) result }
{
    let v = passed.only(registers)?;
    let s = Span::of_value(v)?;
    Ok(Value::Int(s.len as i32))
}

// The answer of a function to the registers that are passed.
pub(crate) fn apply(
    builtin: Builtin,
    registers: &[Option<Value>],
    passed: Passed,
    literals: Literals<'_, '_>,
    spent: &mut Spent<'_, '_>,
) -> Result<Value, Ending>
    ensures applied { most_string_bytes ≤ length spent.old.strings.bytes.now → Within spent.old.strings.used registers.now → Applied literals.entry (apply_at builtin (registers_of (memory_with literals.entry spent.old.strings.bytes.now) registers.now) passed.first.0 passed.last.0 (effects_of spent.old)) spent.old result spent.new }
    ensures there { There passed.first.0 (length registers.now) result }
    ensures lent { SameSpace spent.old spent.new }
{
    match builtin {
        Builtin::PrintValue => print(registers, passed, literals, spent),
        Builtin::ToS => to_string(registers, passed, literals, spent),
        Builtin::Concat => concatenate(registers, passed, literals, spent),
        Builtin::Length => length_of(registers, passed),
    }
}
