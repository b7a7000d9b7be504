//! A list that grows and shrinks at its end, and knows its room.

ghost use Rattle.std.specs.Prelude.{◌≡◌, ℕ, ◌+◌, ◌<◌, ◌≤◌, List, [], ◌∷◌, true, length, IfOk, IfErr, OnOk, OnErr, IsOk, MatchOption, Option, drop, take, reverse, ◌-◌, slice_get, is_ok, if◌then◌else◌};
ghost use Rattle.std.specs.Option.{option_copied};
ghost use Rattle.validate_transaction.specs.TakeBack.{is_empty, items_taken_back, CanTakeBack};

use std::alloc::Global;
use std::marker::Model;
use validate_types::{OutOfMemory, Refusal, Refused};

/// A stack over a vector. Contracts see its items, the newest first, and its room.
#[derive(Drop)]
pub struct Pile<T> {
    vec: Vec<T>,
}

impl<T> Model for Pile<T> {
    ghost use Rattle.std.specs.Prelude.{reverse};
    ghost use Rattle.std.specs.Vec.{vec_capacity, vec_len};
    ghost use Rattle.validate_transaction.specs.Piled.{Piled};

    ghost Value = { Piled T };

    ghost view = { λ p. record { items = reverse p.vec.items; room = vec_capacity p.vec } };
}

impl<T> Pile<T> {
    /// An empty pile, which takes no memory.
    pub fn new(alloc: Global) -> Self
        ensures { result.items ≡ [] }
    {
        Pile {
            vec: Vec::new(alloc),
        }
    }

    /// How many items there are.
    #[inline(always)]
    pub fn len(&self) -> usize
        ensures value { result ≡ length self.now.items }
        ensures within { length self.now.items ≤ self.now.room }
    {
        self.vec.len()
    }

    /// Whether there is none.
    #[inline(always)]
    pub fn is_empty(&self) -> bool
        ensures { result ≡ is_empty self.now.items }
    {
        self.vec.is_empty()
    }

    /// The item at this depth, the newest at 0.
    #[inline(always)]
    pub fn get(&self, depth: usize) -> Option<&T>
        ensures { option_copied result ≡ slice_get self.now.items depth }
    {
        let len = self.vec.len();
        if depth < len {
            self.vec.get(len - 1 - depth)
        } else {
            None
        }
    }

    /// The newest items, so many of them, the newest last.
    #[inline(always)]
    pub fn newest(&self, count: usize) -> &[T]
        requires { count ≤ length self.now.items }
        ensures { result.now ≡ reverse (take count self.now.items) }
    {
        &self.vec[self.vec.len() - count..]
    }

    /// Room for one more item.
    #[inline(always)]
    pub fn take_room(&mut self) -> Result<(), OutOfMemory>
        ensures items { self.new.items ≡ self.old.items }
        ensures never_less { self.old.room ≤ self.new.room }
        ensures ok { OnOk result (length self.new.items < self.new.room) }
        ensures only_full { length self.old.items < self.old.room → IsOk result }
    {
        self.vec.reserve(1)?;
        Ok(())
    }

    /// Room for so many more items. Want of memory changes no item; no memory is asked for where that may not be.
    #[inline(always)]
    pub fn reserve<A: Refused>(&mut self, count: usize) -> Result<(), A>
        ensures items { self.new.items ≡ self.old.items }
        ensures never_less { self.old.room ≤ self.new.room }
        ensures ok { OnOk result (length self.new.items + count ≤ self.new.room) }
        ensures only_full { length self.old.items + count ≤ self.old.room → IsOk result }
        ensures told { IfErr result (λ e. A.tells e → ⊥) }
        ensures within { length self.old.items ≤ self.old.room }
    {
        if !A::may_allocate() && self.vec.capacity() - self.vec.len() < count {
            return Err(A::of(Refusal::OutOfMemory));
        }
        match self.vec.reserve(count) {
            Ok(()) => Ok(()),
            Err(_) => Err(A::of(Refusal::OutOfMemory)),
        }
    }

    /// Whether there is room for one more item.
    #[inline(always)]
    pub fn has_room(&self) -> bool
        ensures { result ≡ true → length self.now.items < self.now.room }
    {
        self.vec.len() < self.vec.capacity()
    }

    /// Adds an item where there is room.
    #[inline(always)]
    pub fn put(&mut self, item: T)
    where
        T: Drop,
        requires { length self.old.items < self.old.room }
        ensures items { self.new.items ≡ item ∷ self.old.items }
        ensures never_less { self.old.room ≤ self.new.room }
    {
        self.vec.push_reserved(item);
    }

    /// Takes the newest item.
    #[inline(always)]
    pub fn pop(&mut self) -> Option<T>
        ensures items { MatchOption result ((self.old.items ≡ []) × (self.new.items ≡ []))
            (λ x. self.old.items ≡ x ∷ self.new.items) }
        ensures room { self.new.room ≡ self.old.room }
    {
        self.vec.pop()
    }

    /// Takes the newest items, down to so many, and keeps the room.
    pub fn truncate(&mut self, len: usize)
    where
        T: Drop,
        ensures items { self.new.items ≡ drop (length self.old.items - len) self.old.items }
        ensures room { self.new.room ≡ self.old.room }
    {
        self.vec.truncate(len);
    }

    /// Takes all items, and keeps the room.
    pub fn clear(&mut self)
    where
        T: Drop,
        ensures items { self.new.items ≡ [] }
        ensures room { self.new.room ≡ self.old.room }
    {
        self.vec.clear();
    }

    /// Puts an item in place of the newest.
    pub fn replace_top(&mut self, item: T)
    where
        T: Drop,
        requires { 0 < length self.old.items }
        ensures items { self.new.items ≡ item ∷ drop 1 self.old.items }
        ensures room { self.new.room ≡ self.old.room }
    {
        let last = self.vec.len() - 1;
        self.vec[last] = item;
    }
}

/// Takes back what a trace recorded, the newest entry first: a push goes, and what was popped comes
/// back. It takes no memory.
pub fn take_back<T: Drop>(items: &mut Pile<T>, trace: &mut Pile<Option<T>>)
    requires { CanTakeBack items.old.room items.old.items trace.old.items }
    ensures items { items.new.items ≡ items_taken_back items.old.items trace.old.items }
    ensures never_less { items.old.room ≤ items.new.room }
    ensures trace { trace.new.items ≡ [] }
{
    while let Some(entry) = trace.pop() {
        match entry {
            Some(item) => items.put(item),
            None => {
                let _ = items.pop();
            }
        }
    }
}
