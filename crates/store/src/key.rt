// Where a pair is filed: its table and its key.
ghost use Rattle.std.specs.Prelude.{ℕ};
ghost use Rattle.store.specs.Val.{Val};
ghost use Rattle.store.specs.Filed.{place_of, same_place};
ghost use Rattle.store.specs.ValuesLemmas.{decides-place};

use crate::value::{Location, Value, same};
use text::search::Entry;
use text::span::Bytes;

#[derive(Clone, Copy, Default, Debug)]
pub struct Key {
    pub location: Location,
    pub value: Value,
}

impl Entry for Key {
    ghost Meaning = { ℕ × Val };

    ghost means = { place_of };

    ghost equal = { same_place };

    ghost decides = { decides-place };

    // inlined, so that a search tells most keys apart by their tables, without a call
    #[inline(always)]
    fn same(&self, other: &Key, bytes: Bytes<'_, '_, '_>) -> bool {
        self.location == other.location && same(self.value, other.value, bytes)
    }
}
