// The bucket store: a search looks only at the pairs whose keys have the same number.
#![tactic(auto)]

ghost use Rattle.std.specs.Prelude.{◌≡◌, ℕ, ◌<◌, ◌≤◌, min, [], length, take, IfSome, if◌then◌else◌, None, nat_eq};
ghost use Rattle.text.specs.Memory.{Memory, memory_of};
ghost use Rattle.text.specs.First.{first_place};
ghost use Rattle.store.specs.Limits.{most_pairs};
ghost use Rattle.store.specs.Val.{meaning, end_of};
ghost use Rattle.store.specs.Tables.{Tables, write};
ghost use Rattle.store.specs.Filed.{place_of, same_place};
ghost use Rattle.buckets.specs.Chains.{bucket_at, next_at, first_at, last_at, Firsts, Lasts, Nexts, Gaps};
ghost use Rattle.buckets.specs.Stored.{InPlace, Holds, Inside};

use crate::number::bucket_of;
use store::capacity::Capacity;
use store::count::TableCount;
use store::key::Key;
use store::value::{Location, Value};
use store::{NoTable, Refusal, Store};
use text::span::Bytes;

mod number;
mod walk;

// A pair, the number of its bucket, and the place of the next pair of that bucket: places in lent memory, where no link can be owned.
#[derive(Clone, Copy, Default, Debug)]
pub struct Chained {
    key: Key,
    value: Value,
    bucket: usize,
    next: usize,
}

// The places of a bucket's first and last pair.
#[derive(Clone, Copy, Default, Debug)]
pub struct Chain {
    first: usize,
    last: usize,
}

// Memory to lend, as constants, which a call of `default` is not: what it holds before does not matter.
pub const UNUSED: Chained = Chained {
    key: Key {
        location: Location(0),
        value: Value::Int(0),
    },
    value: Value::Int(0),
    bucket: 0,
    next: 0,
};

pub const UNLINKED: Chain = Chain { first: 0, last: 0 };

#[derive(Drop)]
pub struct BucketStore<'e, 'c> {
    // no `Stack`: an entry counts only once its chain names it, and the two change together
    entries: &'e mut [Chained],
    chains: &'c mut [Chain],
    len: usize,
    room: usize,
    tables: TableCount,
    ghost entered: { room ≤ length entries.now },
    ghost filled: { len ≤ room },
    ghost limit: { room ≤ most_pairs },
    ghost numbered: { 0 < room → 0 < length chains.now },
    ghost firsts: { Firsts (bucket_at entries.now) (first_at chains.now) len },
    ghost lasts: { Lasts (bucket_at entries.now) (last_at chains.now) len },
    ghost nexts: { Nexts (bucket_at entries.now) (next_at entries.now) (last_at chains.now) len },
    ghost gaps: { Gaps (bucket_at entries.now) (next_at entries.now) len },
}

impl<'e, 'c> BucketStore<'e, 'c> {
    // An empty store over lent memory: it can hold what both the capacity and the memory allow, and nothing where no chain is lent.
    pub fn new(
        entries: &'e mut [Chained],
        chains: &'c mut [Chain],
        capacity: Capacity,
    ) -> BucketStore<'e, 'c>
        ensures holds { (m : Memory) → Holds result.entries.now (length result.chains.now) result.len result.tables.made m [] }
        ensures within { (u : ℕ) → Inside result.entries.now result.len u }
        ensures tables { result.tables.most ≡ capacity.tables }
        ensures room { result.room ≡ (if nat_eq (length chains.old) 0 then 0 else min capacity.pairs (length entries.old)) }
    {
        let room = if chains.is_empty() {
            0
        } else {
            entries.len().min(usize::from(capacity.pairs()))
        };
        BucketStore {
            entries,
            chains,
            len: 0,
            room,
            tables: TableCount::new(capacity),
        }
    }

    // The place of the first pair with the key: the first of its chain is the first of all.
    fn place_of(&self, key: Key, bytes: Bytes<'_, '_, '_>) -> Option<usize>
        ensures first { InPlace (length self.now.chains.now) (memory_of bytes.entry) (take self.now.len self.now.entries.now) → result ≡ first_place (λ e. same_place (place_of (memory_of bytes.entry) e.key) (place_of (memory_of bytes.entry) key)) (take self.now.len self.now.entries.now) }
        ensures within { IfSome result (λ i. i < self.now.len) }
    {
        if self.len == 0 {
            return None;
        }
        let bucket = bucket_of(key, self.chains.len(), bytes);
        self.walk(bucket, &key, bytes)
    }

    // A new key goes behind the others, and to the end of its chain.
    fn append(&mut self, key: Key, value: Value, bytes: Bytes<'_, '_, '_>)
        requires { self.old.len < self.old.room }
        ensures holds { (T : Tables) → Holds self.old.entries.now (length self.old.chains.now) self.old.len self.old.tables.made (memory_of bytes.entry) T → None ≡ first_place (λ e. same_place (place_of (memory_of bytes.entry) e.key) (place_of (memory_of bytes.entry) key)) (take self.old.len self.old.entries.now) → key.location.0 < self.old.tables.made → Holds self.new.entries.now (length self.new.chains.now) self.new.len self.new.tables.made (memory_of bytes.entry) (write T key.location.0 (meaning (memory_of bytes.entry) key.value) (meaning (memory_of bytes.entry) value)) }
        ensures within { (u : ℕ) → Inside self.old.entries.now self.old.len u → end_of key.value ≤ u → end_of value ≤ u → Inside self.new.entries.now self.new.len u }
        ensures tables { self.new.tables.most ≡ self.old.tables.most }
        ensures room { self.new.room ≡ self.old.room }
    {
        let end = self.len;
        let bucket = bucket_of(key, self.chains.len(), bytes);
        let chain = self.chain_of(bucket).unwrap_or(Chain {
            first: end,
            last: end,
        });
        self.entries[chain.last].next = end;
        self.entries[end] = Chained {
            key,
            value,
            bucket,
            next: end,
        };
        self.chains[bucket] = Chain {
            first: chain.first,
            last: end,
        };
        self.len = end + 1;
    }
}

impl Store for BucketStore<'_, '_> {
    ghost holds = { λ s. Holds s.entries.now (length s.chains.now) s.len s.tables.made };

    ghost within = { λ s. Inside s.entries.now s.len };

    ghost tables = { λ s. s.tables.most };

    ghost room = { λ s. s.room };

    fn lent_more(&self) {}

    // what the chains then say does not matter: they count only as far as the entries do
    fn clear(&mut self) {
        self.len = 0;
        self.tables.clear();
    }

    fn make(&mut self) -> Option<Location> {
        self.tables.make()
    }

    fn read(&self, key: Key, bytes: Bytes<'_, '_, '_>) -> Result<Option<Value>, NoTable> {
        self.tables.check(key.location)?;
        // arms: of `map` with an index into the entries the check learns the result by cases only
        match self.place_of(key, bytes) {
            Some(i) => Ok(Some(self.entries[i].value)),
            None => Ok(None),
        }
    }

    fn write(&mut self, key: Key, value: Value, bytes: Bytes<'_, '_, '_>) -> Result<(), Refusal> {
        self.tables.check(key.location)?;
        match self.place_of(key, bytes) {
            Some(i) => {
                self.entries[i].value = value;
                Ok(())
            }
            None => {
                if self.len >= self.room {
                    return Err(Refusal::Full);
                }
                self.append(key, value, bytes);
                Ok(())
            }
        }
    }
}
