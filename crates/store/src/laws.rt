// What code may rely on at every store, proved once.
ghost use Rattle.std.specs.Prelude.{◌≡◌, ℕ, ◌≤◌, true, false, if◌then◌else◌, Some, Ok, Err};
ghost use Rattle.text.specs.Memory.{memory_of};
ghost use Rattle.store.specs.Val.{meaning, end_of, equal_val};
ghost use Rattle.store.specs.Tables.{Tables, read, takes, write};
ghost use Rattle.store.specs.Answers.{meant};

use crate::key::Key;
use crate::value::Value;
use crate::{Refusal, Store};
use text::span::Bytes;

// Writes under one key and reads another: what was written last under a key is what is read, and other keys keep theirs.
pub fn write_then_read<S: Store>(
    store: &mut S,
    key: Key,
    value: Value,
    asked: Value,
    bytes: Bytes<'_, '_, '_>,
) -> Result<Option<Value>, Refusal>
    ensures read { (T : Tables) → S.Store.holds store.old (memory_of bytes.entry) T → elim result [ Ok o ↦ meant (memory_of bytes.entry) o ≡ (if equal_val (meaning (memory_of bytes.entry) asked) (meaning (memory_of bytes.entry) key.value) then Some (meaning (memory_of bytes.entry) value) else read T key.location.0 (meaning (memory_of bytes.entry) asked)) | Err _ ↦ takes (S.Store.room store.old) T key.location.0 (meaning (memory_of bytes.entry) key.value) ≡ false ] }
    ensures holds { (T : Tables) → S.Store.holds store.old (memory_of bytes.entry) T → S.Store.holds store.new (memory_of bytes.entry) (elim result [ Ok _ ↦ write T key.location.0 (meaning (memory_of bytes.entry) key.value) (meaning (memory_of bytes.entry) value) | Err _ ↦ T ]) }
    ensures within { (u : ℕ) → S.Store.within store.old u → end_of key.value ≤ u → end_of value ≤ u → S.Store.within store.new u }
    ensures tables { S.Store.tables store.new ≡ S.Store.tables store.old }
    ensures room { S.Store.room store.new ≡ S.Store.room store.old }
{
    store.write(key, value, bytes)?;
    Ok(store.read(
        Key {
            value: asked,
            ..key
        },
        bytes,
    )?)
}
