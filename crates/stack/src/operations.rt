// What a stack does; the slice stays its lender's, and no item of it is lost.
ghost use Rattle.std.specs.Prelude.{◌≡◌, ◌+◌, ◌<◌, ◌≤◌, [], ◌∷◌, ◌++◌, length, take, drop, MatchOption, MatchResult, OnErr, ◌==◌, slice_index_or, slice_set};
ghost use Rattle.stack.specs.Held.{held, beyond, room, front};

use crate::Stack;

impl<'a, T: Copy> Stack<'a, T> {
    // An empty stack.
    pub fn new(items: &'a mut [T]) -> Stack<'a, T>
        ensures held { held result ≡ [] }
        ensures beyond { beyond result ≡ items.old }
        ensures room { room result ≡ length items.old }
        ensures lender { result.items.ghost_name ≡ items.entry.ghost_name }
    {
        Stack::resume(items, 0)
    }

    // A stack of the first `len` items, or of all if there are fewer.
    pub fn resume(items: &'a mut [T], len: usize) -> Stack<'a, T>
        ensures held { held result ≡ take len items.old }
        ensures beyond { beyond result ≡ drop len items.old }
        ensures room { room result ≡ length items.old }
        ensures lender { result.items.ghost_name ≡ items.entry.ghost_name }
    {
        let len = len.min(items.len());
        Stack { items, len }
    }

    // Takes all items off; they stay in the slice.
    pub fn clear(&mut self)
        ensures held { held self.new ≡ [] }
        ensures lent { self.new.items ≡ self.old.items }
    {
        self.len = 0;
    }

    pub fn len(&self) -> usize
        ensures { result ≡ length (held self.now) }
    {
        self.items().len()
    }

    // How many items the stack can hold.
    pub fn room(&self) -> usize
        ensures { result ≡ room self.now }
    {
        self.items.len()
    }

    pub fn is_empty(&self) -> bool
        ensures { result ≡ (length (held self.now) == 0) }
    {
        self.len == 0
    }

    pub fn is_full(&self) -> bool
        ensures { result ≡ (length (held self.now) == room self.now) }
    {
        self.len == self.items.len()
    }

    // The items held, oldest first.
    pub fn items(&self) -> &[T]
        ensures { result.now ≡ held self.now }
    {
        &self.items[..self.len]
    }

    // The item `i` places from the oldest.
    pub fn get(&self, i: usize) -> Option<T>
        ensures { MatchOption result (length (held self.now) ≤ i) (λ x. (i < length (held self.now)) × ((d : T) → slice_index_or (held self.now) i d ≡ x)) }
    {
        self.items().get(i).copied()
    }

    // The newest item.
    pub fn top(&self) -> Option<T>
        ensures { MatchOption result (held self.now ≡ []) (λ x. held self.now ≡ front (held self.now) ++ x ∷ []) }
    {
        self.items().last().copied()
    }

    // Adds an item; a full stack hands it back and stays as it was.
    pub fn push(&mut self, x: T) -> Result<(), T>
        ensures lender { self.new.items.ghost_name ≡ self.old.items.ghost_name }
        ensures room { room self.new ≡ room self.old }
        ensures full { MatchResult result (λ _. length (held self.old) < room self.old) (λ y. (y ≡ x) × (length (held self.old) ≡ room self.old)) }
        ensures count { MatchResult result (λ _. length (held self.new) ≡ length (held self.old) + 1) (λ _. length (held self.new) ≡ length (held self.old)) }
        ensures held { MatchResult result (λ _. held self.new ≡ held self.old ++ x ∷ []) (λ _. held self.new ≡ held self.old) }
        ensures beyond { MatchResult result (λ _. beyond self.new ≡ drop 1 (beyond self.old)) (λ _. beyond self.new ≡ beyond self.old) }
        ensures refused { OnErr result (self.new ≡ self.old) }
    {
        if self.is_full() {
            return Err(x);
        }
        self.items[self.len] = x;
        self.len += 1;
        Ok(())
    }

    // Takes the newest item off; its place in the slice keeps it until another is put there.
    pub fn pop(&mut self) -> Option<T>
        ensures lender { self.new.items.ghost_name ≡ self.old.items.ghost_name }
        ensures room { room self.new ≡ room self.old }
        ensures count { MatchOption result ((length (held self.old) ≡ 0) × (length (held self.new) ≡ 0)) (λ _. length (held self.old) ≡ length (held self.new) + 1) }
        ensures held { MatchOption result ((held self.old ≡ []) × (held self.new ≡ [])) (λ x. held self.old ≡ held self.new ++ x ∷ []) }
        ensures beyond { MatchOption result (beyond self.new ≡ beyond self.old) (λ x. beyond self.new ≡ x ∷ beyond self.old) }
    {
        if self.is_empty() {
            return None;
        }
        self.len -= 1;
        Some(self.items[self.len])
    }

    // Puts another item in the place `i` from the oldest.
    pub fn set(&mut self, i: usize, x: T)
        requires { i < length (held self.old) }
        ensures lender { self.new.items.ghost_name ≡ self.old.items.ghost_name }
        ensures room { room self.new ≡ room self.old }
        ensures held { held self.new ≡ slice_set (held self.old) i x }
        ensures beyond { beyond self.new ≡ beyond self.old }
    {
        self.items[i] = x;
    }

    // Puts another item in place of the newest; an empty stack hands it back.
    pub fn set_top(&mut self, x: T) -> Result<(), T>
        ensures lender { self.new.items.ghost_name ≡ self.old.items.ghost_name }
        ensures room { room self.new ≡ room self.old }
        ensures count { length (held self.new) ≡ length (held self.old) }
        ensures held { MatchResult result (λ _. (0 < length (held self.old)) × (held self.new ≡ front (held self.old) ++ x ∷ [])) (λ y. (y ≡ x) × (held self.old ≡ []) × (held self.new ≡ [])) }
        ensures beyond { beyond self.new ≡ beyond self.old }
    {
        if self.is_empty() {
            return Err(x);
        }
        self.items[self.len - 1] = x;
        Ok(())
    }
}
