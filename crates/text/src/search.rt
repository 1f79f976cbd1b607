// The search for the first equal entry, for every kind of entry whose equality means the same value.
ghost use Rattle.std.specs.Prelude.{◌≡◌, ℕ, ◌<◌, Bool, List, length, IfSome, Decides};
ghost use Rattle.text.specs.Memory.{Memory, memory_of, bytes_of, equal_bytes};
ghost use Rattle.text.specs.First.{First};
ghost use Rattle.text.specs.Meanings.{decides-bytes};

use crate::span::{Bytes, Span, same_span};

pub trait Entry: Copy {
    // what entries stand for, and what an entry means over the bytes lent
    ghost Meaning: { Type 0 };

    ghost means: { Memory → Self → Meaning };

    ghost equal: { Meaning → Meaning → Bool };

    fn same(&self, other: &Self, bytes: Bytes<'_, '_, '_>) -> bool
        ensures { result ≡ equal (means (memory_of bytes.entry) self.now) (means (memory_of bytes.entry) other.now) };

    // equality means the same value
    ghost decides: { (x y : Meaning) → Decides (equal x y) (x ≡ y) };
}

// The place of the first entry that means what the key means.
pub fn first_equal<E: Entry>(entries: &[E], key: &E, bytes: Bytes<'_, '_, '_>) -> Option<usize>
    ensures within { IfSome result (λ i. i < length entries.now) }
    ensures first { First (λ e. E.Entry.means (memory_of bytes.entry) e ≡ E.Entry.means (memory_of bytes.entry) key.now) entries.now result }
{
    entries.iter().position(|entry| entry.same(key, bytes))
}

// Names are equal when their bytes are.
impl Entry for Span {
    ghost Meaning = { List ℕ };

    ghost means = { bytes_of };

    ghost equal = { equal_bytes };

    ghost decides = { decides-bytes };

    fn same(&self, other: &Span, bytes: Bytes<'_, '_, '_>) -> bool {
        same_span(bytes, *self, *other)
    }
}
