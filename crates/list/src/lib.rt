// The list store: all pairs in the order in which their keys came, searched from the start.
#![tactic(auto)]

ghost use Rattle.std.specs.Prelude.{◌≡◌, ℕ, ◌<◌, ◌≤◌, min, [], length, IfSome};
ghost use Rattle.text.specs.Memory.{Memory, memory_of};
ghost use Rattle.text.specs.First.{first_place};
ghost use Rattle.stack.specs.Held.{held, room};
ghost use Rattle.store.specs.Limits.{most_pairs};
ghost use Rattle.store.specs.Val.{Val};
ghost use Rattle.store.specs.Filed.{place_of, same_place};
ghost use Rattle.store.specs.ValuesLemmas.{decides-place};
ghost use Rattle.list.specs.Listed.{Holds, Inside};

use stack::Stack;
use store::capacity::Capacity;
use store::count::TableCount;
use store::key::Key;
use store::value::{Location, Value};
use store::{NoTable, Refusal, Store};
use text::search::{Entry, first_equal};
use text::span::Bytes;

#[derive(Clone, Copy, Default, Debug)]
pub struct Pair {
    key: Key,
    value: Value,
}

// Pairs are told apart by their keys.
impl Entry for Pair {
    ghost Meaning = { ℕ × Val };

    ghost means = { λ m p. place_of m p.key };

    ghost equal = { same_place };

    ghost decides = { decides-place };

    #[inline(always)]
    fn same(&self, other: &Pair, bytes: Bytes<'_, '_, '_>) -> bool {
        self.key.same(&other.key, bytes)
    }
}

#[derive(Drop)]
pub struct ListStore<'p> {
    pairs: Stack<'p, Pair>,
    tables: TableCount,
    ghost limit: { room pairs ≤ most_pairs },
}

impl<'p> ListStore<'p> {
    // An empty store over lent memory: it can hold what both the capacity and the memory allow.
    #[tactic(auto, using(crate::proofs::Listing::nothing))]
    pub fn new(pairs: &'p mut [Pair], capacity: Capacity) -> ListStore<'p>
        ensures holds { (m : Memory) → Holds (held result.pairs) result.tables.made m [] }
        ensures within { (u : ℕ) → Inside (held result.pairs) u }
        ensures tables { result.tables.most ≡ capacity.tables }
        ensures room { room result.pairs ≡ min capacity.pairs (length pairs.old) }
    {
        let room = pairs.len().min(usize::from(capacity.pairs()));
        ListStore {
            pairs: Stack::new(&mut pairs[..room]),
            tables: TableCount::new(capacity),
        }
    }

    // The place of the pair with the key.
    fn place_of(&self, key: Key, bytes: Bytes<'_, '_, '_>) -> Option<usize>
        ensures first { result ≡ first_place (λ p. same_place (place_of (memory_of bytes.entry) p.key) (place_of (memory_of bytes.entry) key)) (held self.now.pairs) }
        ensures within { IfSome result (λ i. i < length (held self.now.pairs)) }
    {
        let value = Value::default();
        first_equal(self.pairs.items(), &Pair { key, value }, bytes)
    }
}

impl Store for ListStore<'_> {
    ghost holds = { λ s. Holds (held s.pairs) s.tables.made };

    ghost within = { λ s. Inside (held s.pairs) };

    ghost tables = { λ s. s.tables.most };

    ghost room = { λ s. room s.pairs };

    fn lent_more(&self) {}

    #[tactic(auto, using(crate::proofs::Listing::nothing))]
    fn clear(&mut self) {
        self.pairs.clear();
        self.tables.clear();
    }

    fn make(&mut self) -> Option<Location> {
        self.tables.make()
    }

    fn read(&self, key: Key, bytes: Bytes<'_, '_, '_>) -> Result<Option<Value>, NoTable> {
        self.tables.check(key.location)?;
        // arms: of `map` with an index into the pairs the check learns the result by cases only
        match self.place_of(key, bytes) {
            Some(i) => Ok(Some(self.pairs.items()[i].value)),
            None => Ok(None),
        }
    }

    fn write(&mut self, key: Key, value: Value, bytes: Bytes<'_, '_, '_>) -> Result<(), Refusal> {
        self.tables.check(key.location)?;
        match self.place_of(key, bytes) {
            Some(i) => {
                let pair = self.pairs.items()[i];
                self.pairs.set(i, Pair { value, ..pair });
                Ok(())
            }
            // arms, as in `read`: of `map_err` the check learns no more
            None => match self.pairs.push(Pair { key, value }) {
                Ok(()) => Ok(()),
                Err(_) => Err(Refusal::Full),
            },
        }
    }
}
