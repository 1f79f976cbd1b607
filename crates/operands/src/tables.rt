// Instructions on tables, over any store.
ghost use Rattle.std.specs.Prelude.{◌≡◌, ℕ, ◌≤◌};
ghost use Rattle.text.specs.Memory.{memory_of};
ghost use Rattle.store.specs.Tables.{Tables};
ghost use Rattle.machine.specs.Operands.{key_at, has_key_at};
ghost use Rattle.operands.specs.Slots.{registers_of, answered, Within, EndsBy};

use crate::registers::{operand, truth, value};
use machine::ending::Ending;
use machine::instruction::Register;
use store::Store;
use store::key::Key;
use store::value::Value;
use text::span::Bytes;

// The value under a key that is there. The key is read here and in `has_key`, by the same lines: a function for it would be longer.
pub(crate) fn read_key<S: Store>(
    registers: &[Option<Value>],
    b: Register,
    c: Register,
    store: &S,
    bytes: Bytes<'_, '_, '_>,
) -> Result<Value, Ending>
    ensures read { (T : Tables) → S.Store.holds store.now (memory_of bytes.entry) T → answered (memory_of bytes.entry) result ≡ key_at T (registers_of (memory_of bytes.entry) registers.now) b.0 c.0 }
    ensures within { (u : ℕ) → S.Store.within store.now u → EndsBy u result }
{
    let key = Key {
        location: operand(registers, b)?,
        value: value(registers, c)?,
    };
    store.read(key, bytes)?.ok_or(Ending::Stuck)
}

// Whether a key is there.
pub(crate) fn has_key<S: Store>(
    registers: &[Option<Value>],
    b: Register,
    c: Register,
    store: &S,
    bytes: Bytes<'_, '_, '_>,
) -> Result<Value, Ending>
    ensures answered { (T : Tables) → S.Store.holds store.now (memory_of bytes.entry) T → answered (memory_of bytes.entry) result ≡ has_key_at T (registers_of (memory_of bytes.entry) registers.now) b.0 c.0 }
    ensures within { (u : ℕ) → EndsBy u result }
{
    let key = Key {
        location: operand(registers, b)?,
        value: value(registers, c)?,
    };
    Ok(truth(store.has(key, bytes)?))
}
