// What instructions read from the registers of the running frame. They are a slice in each function: the middle of those of all frames.
ghost use Rattle.std.specs.Prelude.{◌≡◌, ℕ, ◌≤◌, None, slice_index_or};
ghost use Rattle.text.specs.Memory.{Memory, memory_of};
ghost use Rattle.store.specs.Val.{meaning, end_of};
ghost use Rattle.machine.specs.Operands.{value_at, truth, is_of, arith_at, ordered_at, same_at, kind_at};
ghost use Rattle.operands.specs.Slots.{registers_of, answered, taken, wanted_at, Within, EndsBy};

use crate::operand::Operand;
use machine::arith::{Op, Order};
use machine::ending::Ending;
use machine::instruction::{Kind, Register};
use store::value::{Value, same};
use text::span::Bytes;

// What a register holds; past the last there is none.
fn slot(registers: &[Option<Value>], a: Register) -> Option<Value>
    ensures held { result ≡ slice_index_or registers.now a.0 None }
{
    registers.get(usize::from(a.0)).copied().flatten()
}

pub fn value(registers: &[Option<Value>], a: Register) -> Result<Value, Ending>
    ensures held { (m : Memory) → answered m result ≡ value_at (registers_of m registers.now) a.0 }
    ensures within { (u : ℕ) → Within u registers.now → EndsBy u result }
{
    slot(registers, a).ok_or(Ending::Stuck)
}

// What a register holds, if its kind is the one that is wanted.
pub fn operand<T: Operand>(registers: &[Option<Value>], a: Register) -> Result<T, Ending>
    ensures held { (m : Memory) → taken (T.Operand.means m) result ≡ wanted_at T.Operand.wanted (registers_of m registers.now) a.0 }
{
    T::of_value(value(registers, a)?)
}

pub(crate) fn truth(b: bool) -> Value
    ensures said { (m : Memory) → meaning m result ≡ truth b }
    ensures within { end_of result ≡ 0 }
{
    Value::Int(i32::from(b))
}

// These three read two registers each, by two lines: a function for the pair would be longer than what it saves.
pub(crate) fn arith(
    registers: &[Option<Value>],
    op: Op,
    b: Register,
    c: Register,
) -> Result<Value, Ending>
    ensures computed { (m : Memory) → answered m result ≡ arith_at op (registers_of m registers.now) b.0 c.0 }
    ensures within { (u : ℕ) → EndsBy u result }
{
    let x = operand(registers, b)?;
    let y = operand(registers, c)?;
    Ok(Value::Int(op.compute(x, y)?))
}

pub(crate) fn ordered(
    registers: &[Option<Value>],
    order: Order,
    b: Register,
    c: Register,
) -> Result<Value, Ending>
    ensures computed { (m : Memory) → answered m result ≡ ordered_at order (registers_of m registers.now) b.0 c.0 }
    ensures within { (u : ℕ) → EndsBy u result }
{
    let x = operand(registers, b)?;
    let y = operand(registers, c)?;
    Ok(truth(order.holds(x, y)))
}

pub(crate) fn equal(
    registers: &[Option<Value>],
    b: Register,
    c: Register,
    bytes: Bytes<'_, '_, '_>,
) -> Result<Value, Ending>
    ensures computed { answered (memory_of bytes.entry) result ≡ same_at (registers_of (memory_of bytes.entry) registers.now) b.0 c.0 }
    ensures within { (u : ℕ) → EndsBy u result }
{
    let x = value(registers, b)?;
    let y = value(registers, c)?;
    Ok(truth(same(x, y, bytes)))
}

fn is_of(kind: Kind, v: Value) -> bool
    ensures { (m : Memory) → result ≡ is_of kind (meaning m v) }
{
    matches!(
        (kind, v),
        (Kind::Integer, Value::Int(_)) | (Kind::Text, Value::Str(_)) | (Kind::Table, Value::Loc(_))
    )
}

pub(crate) fn kind(registers: &[Option<Value>], kind: Kind, b: Register) -> Result<Value, Ending>
    ensures computed { (m : Memory) → answered m result ≡ kind_at kind (registers_of m registers.now) b.0 }
    ensures within { (u : ℕ) → EndsBy u result }
{
    Ok(truth(is_of(kind, value(registers, b)?)))
}
