// The chain of a bucket, and the walk along it.
ghost use Rattle.std.specs.Prelude.{◌≡◌, ◌<◌, length, take, slice_index_or, IfSome, MatchOption};
ghost use Rattle.text.specs.Memory.{memory_of};
ghost use Rattle.text.specs.First.{First};
ghost use Rattle.store.specs.Filed.{place_of};
ghost use Rattle.buckets.specs.Chains.{unlinked, Begun};

use crate::{BucketStore, Chain};
use store::key::Key;
use text::search::Entry;
use text::span::Bytes;

impl BucketStore<'_, '_> {
    // The chain of a bucket, if it begins with an entry of the bucket; one that does not has no entry.
    pub(crate) fn chain_of(&self, bucket: usize) -> Option<Chain>
        requires { bucket < length self.now.chains.now }
        ensures { MatchOption result (Begun self.now.entries.now self.now.chains.now self.now.len bucket → ⊥) (λ c. Begun self.now.entries.now self.now.chains.now self.now.len bucket × (c ≡ slice_index_or self.now.chains.now bucket unlinked)) }
    {
        let chain = self.chains[bucket];
        if chain.first < self.len && self.entries[chain.first].bucket == bucket {
            Some(chain)
        } else {
            None
        }
    }

    // The place of the first entry of a bucket that has the key.
    pub(crate) fn walk(&self, bucket: usize, key: &Key, bytes: Bytes<'_, '_, '_>) -> Option<usize>
        requires { bucket < length self.now.chains.now }
        ensures first { First (λ e. (e.bucket ≡ bucket) × (place_of (memory_of bytes.entry) e.key ≡ place_of (memory_of bytes.entry) key.now)) (take self.now.len self.now.entries.now) result }
        ensures within { IfSome result (λ i. i < self.now.len) }
    {
        let chain = self.chain_of(bucket)?;
        let mut i = chain.first;
        loop {
            let entry = self.entries[i];
            if entry.key.same(key, bytes) {
                return Some(i);
            }
            if i == chain.last {
                return None;
            }
            i = entry.next;
        }
    }
}
