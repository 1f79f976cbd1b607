// Values, and stores of tables that map values to values.
#![tactic(auto)]

ghost use Rattle.std.specs.Prelude.{◌≡◌, ℕ, ◌≤◌, [], length, Some, Ok, Err};
ghost use Rattle.text.specs.Memory.{Memory, memory_of};
ghost use Rattle.text.specs.Agree.{Grown};
ghost use Rattle.store.specs.declared.Refusal.TheVariants as refusal;
ghost use Rattle.store.specs.Limits.{most_tables, most_pairs};
ghost use Rattle.store.specs.Words.{refused_in};
ghost use Rattle.store.specs.Val.{meaning, end_of};
ghost use Rattle.store.specs.Tables.{Tables, pairs};
ghost use Rattle.store.specs.Answers.{Makes, Reads, ReadsWithin, Has, Writes};

use crate::key::Key;
use crate::value::{Location, Value};
use std::error::Error;
use std::fmt;
use text::span::Bytes;

pub mod capacity;
pub mod count;
pub mod key;
pub mod laws;
pub mod value;

// The location was never made.
#[derive(Clone, Copy, PartialEq, Eq, Debug)]
pub struct NoTable;

// Why a write is refused.
#[derive(Clone, Copy, PartialEq, Eq, Debug)]
pub enum Refusal {
    NoTable,
    Full,
}

impl fmt::Display for Refusal {
    ghost output = { λ r. Some (refused_in r) };

    fn fmt<W: fmt::Write>(&self, f: &mut fmt::Formatter<W>) -> fmt::Result {
        match self {
            Refusal::NoTable => write!(f, "no such table"),
            Refusal::Full => write!(f, "full"),
        }
    }
}

impl Error for Refusal {}

impl From<NoTable> for Refusal {
    ghost from_gives = { λ _ r. r ≡ refusal.NoTable };

    fn from(_: NoTable) -> Self {
        Self::NoTable
    }
}

// What code over any store may rely on. A stored string is a span, so what a store holds depends on the bytes lent with a call.
pub trait Store {
    // lent this memory, the store holds these tables
    ghost holds: { Self → Memory → Tables → Type 0 };

    // every stored value ends by this place among the strings made
    ghost within: { Self → ℕ → Type 0 };

    // how many tables it can hold, and how many pairs in all
    ghost tables: { Self → ℕ };

    ghost room: { Self → ℕ };

    // Does nothing. It tells what holds of a store at any time.
    fn lent_more(&self)
        ensures limits { (tables self.now ≤ most_tables) × (room self.now ≤ most_pairs) }
        ensures bounded { (m : Memory) (T : Tables) → holds self.now m T → (length T ≤ tables self.now) × (pairs T ≤ room self.now) }
        ensures grows { (u : ℕ) (m n : Memory) (T : Tables) → within self.now u → Grown u m n → holds self.now m T → holds self.now n T }
        ensures wider { (u v : ℕ) → u ≤ v → within self.now u → within self.now v };

    // Leaves no table, whatever was held before.
    fn clear(&mut self)
        ensures holds { (m : Memory) → holds self.new m [] }
        ensures within { (u : ℕ) → within self.new u }
        ensures tables { tables self.new ≡ tables self.old }
        ensures room { room self.new ≡ room self.old };

    // A new, empty table, unless as many stand as the store can hold.
    fn make(&mut self) -> Option<Location>
        ensures holds { (m : Memory) (T : Tables) → holds self.old m T → Makes (tables self.old) T result (holds self.new m) }
        ensures within { (u : ℕ) → within self.old u → within self.new u }
        ensures tables { tables self.new ≡ tables self.old }
        ensures room { room self.new ≡ room self.old };

    // The value under a key of a table, if there is one.
    fn read(&self, key: Key, bytes: Bytes<'_, '_, '_>) -> Result<Option<Value>, NoTable>
        ensures holds { (T : Tables) → holds self.now (memory_of bytes.entry) T → Reads (memory_of bytes.entry) T key.location.0 (meaning (memory_of bytes.entry) key.value) result }
        ensures within { (u : ℕ) → within self.now u → ReadsWithin u result };

    // Whether a table has a key.
    fn has(&self, key: Key, bytes: Bytes<'_, '_, '_>) -> Result<bool, NoTable>
        ensures { (T : Tables) → holds self.now (memory_of bytes.entry) T → Has T key.location.0 (meaning (memory_of bytes.entry) key.value) result }
    {
        Ok(self.read(key, bytes)?.is_some())
    }

    // Puts a value under a key of a table: in place where the key is there, else at the table's end.
    fn write(&mut self, key: Key, value: Value, bytes: Bytes<'_, '_, '_>) -> Result<(), Refusal>
        ensures holds { (T : Tables) → holds self.old (memory_of bytes.entry) T → Writes (room self.old) T key.location.0 (meaning (memory_of bytes.entry) key.value) (meaning (memory_of bytes.entry) value) result (holds self.new (memory_of bytes.entry)) }
        ensures within { (u : ℕ) → within self.old u → end_of key.value ≤ u → end_of value ≤ u → within self.new u }
        ensures refusal { elim result [ Ok _ ↦ Unit {0} | Err _ ↦ self.new ≡ self.old ] }
        ensures tables { tables self.new ≡ tables self.old }
        ensures room { room self.new ≡ room self.old };
}
