//! Which locals are set, and the order in which they were first set.

ghost use Rattle.std.specs.Prelude.{◌≡◌, ◌+◌, ◌<◌, ◌≤◌, ◌↔◌, [], ◌∷◌, ◌++◌, true, false, length, take, drop, replicate, not, IsTrue, IfErr, IfOk, OnOk, OnErr, IsOk, MatchOption};
ghost use Rattle.validate_types.specs.Types.{is_defaultable};
ghost use Rattle.validate_locals.specs.Inits.{is_local_set, order_with, AreFresh};

use std::alloc::Global;
use std::marker::Model;
use validate_types::{OutOfMemory, Refusal, Refused, ValType};

/// How many marks there is room for at the least, where there is any.
const LEAST_ROOM: usize = 8;

/// Which locals are set (wasmparser's `LocalInits`). Contracts see an `Inits` of `specs/`: which
/// locals were set when they were declared, those that were first set since, in order, and the room.
///
/// Locals before the first without a default value have no marks: they are set from the start.
#[derive(Debug, Drop)]
pub struct LocalInits {
    /// The index of the first local without a default value, or the number of locals where there is
    /// none.
    first_non_default_local: usize,
    /// Which locals are set, from that index on.
    local_inits: Vec<bool>,
    /// Those that were first set since they were declared, in order.
    inits: Vec<u32>,
}

impl Model for LocalInits {
    ghost use Rattle.std.specs.Vec.{vec_capacity};
    ghost use Rattle.validate_locals.specs.Inits.{Inits, marks_without, all_marks, IsMarkedFrom};

    ghost Value = { Inits };

    ghost view = { λ a. record {
      set_at_entry = marks_without a.inits.items (all_marks a.first_non_default_local a.local_inits.items);
      order = a.inits.items;
      room = vec_capacity a.inits;
      declared_room = vec_capacity a.local_inits;
    } };

    ghost invariant = { λ a. IsMarkedFrom a.first_non_default_local a.inits.items a.local_inits.items };
}

impl LocalInits {
    /// No locals. It takes no memory.
    pub fn new(alloc: Global) -> Self
        ensures set_at_entry { result.set_at_entry ≡ [] }
        ensures order { result.order ≡ [] }
    {
        LocalInits {
            first_non_default_local: 0,
            local_inits: Vec::new(alloc),
            inits: Vec::new(alloc),
        }
    }

    /// The allocator of the buffers.
    pub fn allocator(&self) -> Global {
        *self.inits.allocator()
    }

    /// Whether no local is declared.
    pub fn is_empty(&self) -> bool
        ensures { IsTrue result ↔ (self.now.set_at_entry ≡ []) }
    {
        self.first_non_default_local == 0 && self.local_inits.is_empty()
    }

    /// Forgets every local, and keeps the room.
    pub fn clear(&mut self)
        ensures set_at_entry { self.new.set_at_entry ≡ [] }
        ensures order { self.new.order ≡ [] }
        ensures room { self.new.room ≡ self.old.room }
        ensures declared_room { self.new.declared_room ≡ self.old.declared_room }
    {
        self.first_non_default_local = 0;
        self.local_inits.clear();
        self.inits.clear();
    }

    /// Declares `count` more locals, each of them set or not.
    #[inline(always)]
    fn declare(&mut self, count: usize, set: bool) -> Result<(), OutOfMemory>
        ensures declared { OnOk result (self.new.set_at_entry ≡ self.old.set_at_entry ++ replicate count
            set) }
        ensures order { self.new.order ≡ self.old.order }
        ensures room { self.new.room ≡ self.old.room }
        ensures declared_room { self.old.declared_room ≤ self.new.declared_room }
        ensures succeeds { length self.old.set_at_entry + count ≤ self.old.declared_room → IsOk result }
        ensures err { OnErr result (self.new ≡ self.old) }
    {
        // More than can be counted would have marks, for which there is no memory.
        if set && self.local_inits.is_empty() {
            if let Some(all) = self.first_non_default_local.checked_add(count) {
                self.first_non_default_local = all;
                return Ok(());
            }
        }
        self.mark(count, set)
    }

    /// The same, with a mark for each of them.
    #[inline(never)]
    fn mark(&mut self, count: usize, set: bool) -> Result<(), OutOfMemory>
        ensures declared { OnOk result (self.new.set_at_entry ≡ self.old.set_at_entry ++ replicate count
            set) }
        ensures order { self.new.order ≡ self.old.order }
        ensures room { self.new.room ≡ self.old.room }
        ensures declared_room { self.old.declared_room ≤ self.new.declared_room }
        ensures succeeds { length self.old.set_at_entry + count ≤ self.old.declared_room → IsOk result }
        ensures err { OnErr result (self.new ≡ self.old) }
    {
        self.local_inits.reserve(count)?;
        let len = self.local_inits.len();
        self.local_inits.resize(len + count, set).unwrap();
        Ok(())
    }

    /// Declares `count` parameters: they are set from the start, whatever their types. If there is room, it can't
    /// fail. If memory ran out, nothing has changed.
    pub fn define_params(&mut self, count: usize) -> Result<(), OutOfMemory>
        ensures declared { OnOk result (self.new.set_at_entry ≡ self.old.set_at_entry ++ replicate count
            true) }
        ensures order { self.new.order ≡ self.old.order }
        ensures room { self.new.room ≡ self.old.room }
        ensures declared_room { self.old.declared_room ≤ self.new.declared_room }
        ensures succeeds { length self.old.set_at_entry + count ≤ self.old.declared_room → IsOk result }
        ensures err { OnErr result (self.new ≡ self.old) }
    {
        self.declare(count, true)
    }

    /// Declares `count` more locals of this type: they are set from the start if it has a default value. If there is
    /// room, it can't fail. If memory ran out, nothing has changed.
    pub fn define_locals(&mut self, count: u32, ty: ValType) -> Result<(), OutOfMemory>
        ensures declared { OnOk result (self.new.set_at_entry ≡ self.old.set_at_entry ++ replicate count
            (is_defaultable ty)) }
        ensures order { self.new.order ≡ self.old.order }
        ensures room { self.new.room ≡ self.old.room }
        ensures declared_room { self.old.declared_room ≤ self.new.declared_room }
        ensures succeeds { length self.old.set_at_entry + count ≤ self.old.declared_room → IsOk result }
        ensures err { OnErr result (self.new ≡ self.old) }
    {
        self.declare(count as usize, ty.is_defaultable())
    }

    /// Makes room for `count` more declarations. If there is room already, it can't fail. If memory ran out, nothing
    /// has changed.
    pub fn reserve(&mut self, count: usize) -> Result<(), OutOfMemory>
        ensures set_at_entry { self.new.set_at_entry ≡ self.old.set_at_entry }
        ensures order { self.new.order ≡ self.old.order }
        ensures room { self.new.room ≡ self.old.room }
        ensures declared_room { self.old.declared_room ≤ self.new.declared_room }
        ensures ok { OnOk result (length self.new.set_at_entry + count ≤ self.new.declared_room) }
        ensures succeeds { length self.old.set_at_entry + count ≤ self.old.declared_room → IsOk result }
        ensures err { OnErr result (self.new ≡ self.old) }
    {
        if self.has_room(count) {
            return Ok(());
        }
        self.grow(count)
    }

    /// Whether there is room for `count` more declarations.
    #[inline(always)]
    fn has_room(&self, count: usize) -> bool
        ensures { IsTrue result ↔ (length self.now.set_at_entry + count ≤ self.now.declared_room) }
    {
        let unmarked = self.first_non_default_local;
        let room = self.local_inits.capacity() - self.local_inits.len();
        unmarked <= room && count <= room - unmarked
    }

    /// [`LocalInits::reserve`], where there is no room yet.
    #[cold]
    #[inline(never)]
    fn grow(&mut self, count: usize) -> Result<(), OutOfMemory>
        requires { self.old.declared_room < length self.old.set_at_entry + count }
        ensures set_at_entry { self.new.set_at_entry ≡ self.old.set_at_entry }
        ensures order { self.new.order ≡ self.old.order }
        ensures room { self.new.room ≡ self.old.room }
        ensures declared_room { self.old.declared_room ≤ self.new.declared_room }
        ensures ok { OnOk result (length self.new.set_at_entry + count ≤ self.new.declared_room) }
        ensures err { OnErr result (self.new ≡ self.old) }
    {
        let unmarked = self.first_non_default_local.saturating_add(count);
        if !self.local_inits.is_empty() {
            self.local_inits.reserve(unmarked)?;
            return Ok(());
        }
        // Of no marks none are moved to a larger place.
        let twice = self.local_inits.capacity().saturating_mul(2);
        let room = unmarked.max(twice).max(LEAST_ROOM);
        self.local_inits = Vec::with_capacity(self.allocator(), room)?;
        Ok(())
    }

    /// How many locals were set since they were declared: the height that a frame notes when it is
    /// opened.
    #[inline(always)]
    pub fn height(&self) -> usize
        ensures value { result ≡ length self.now.order }
        ensures within { length self.now.order ≤ self.now.room }
        ensures fresh { AreFresh self.now.set_at_entry self.now.order }
    {
        self.inits.len()
    }

    /// How many locals can be set since they were declared before memory is wanted.
    pub fn room(&self) -> usize
        ensures value { result ≡ self.now.room }
        ensures within { length self.now.order ≤ self.now.room }
    {
        self.inits.capacity()
    }

    /// Whether the local at this index is declared and isn't set.
    #[inline(always)]
    pub fn is_uninit(&self, index: u32) -> bool
        ensures declared { index < length self.now.set_at_entry
            → result ≡ not (is_local_set self.now.set_at_entry self.now.order index) }
        ensures undeclared { length self.now.set_at_entry ≤ index → result ≡ false }
    {
        let index = index as usize;
        if index < self.first_non_default_local {
            return false;
        }
        match self.local_inits.get(index - self.first_non_default_local) {
            Some(set) => !*set,
            None => false,
        }
    }

    /// Makes room to set one more local. Want of memory changes nothing; no memory is asked for where that may not be.
    pub fn take_room<A: Refused>(&mut self) -> Result<(), A>
        ensures set_at_entry { self.new.set_at_entry ≡ self.old.set_at_entry }
        ensures order { self.new.order ≡ self.old.order }
        ensures room { self.old.room ≤ self.new.room }
        ensures declared_room { self.new.declared_room ≡ self.old.declared_room }
        ensures ok { OnOk result (length self.new.order < self.new.room) }
        ensures told { IfErr result (λ e. A.tells e → ⊥) }
        ensures err { OnErr result (self.new ≡ self.old) }
    {
        if !A::may_allocate() && self.inits.len() == self.inits.capacity() {
            return Err(A::of(Refusal::OutOfMemory));
        }
        match self.inits.reserve(1) {
            Ok(()) => Ok(()),
            Err(_) => Err(A::of(Refusal::OutOfMemory)),
        }
    }

    /// Sets the local at this index: if it wasn't set, it comes last in the order. If there is room, or the local is
    /// set already, it can't fail. If memory ran out, nothing has changed.
    #[inline(always)]
    pub fn set_init(&mut self, index: u32) -> Result<(), OutOfMemory>
        requires { index < length self.old.set_at_entry }
        ensures set { OnOk result (self.new.order ≡ order_with self.old index) }
        ensures set_at_entry { self.new.set_at_entry ≡ self.old.set_at_entry }
        ensures room { self.old.room ≤ self.new.room }
        ensures declared_room { self.new.declared_room ≡ self.old.declared_room }
        ensures succeeds { length self.old.order < self.old.room → IsOk result }
        ensures already { is_local_set self.old.set_at_entry self.old.order index ≡ true → IsOk result }
        ensures err { OnErr result (self.new ≡ self.old) }
    {
        if !self.is_uninit(index) {
            return Ok(());
        }
        self.inits.reserve(1)?;
        self.inits.push(index).unwrap();
        self.local_inits[index as usize - self.first_non_default_local] = true;
        Ok(())
    }

    /// Unsets the local that was set last, and answers it.
    fn pop_one(&mut self) -> Option<u32>
        ensures order { MatchOption result ((self.old.order ≡ []) × (self.new.order ≡ []))
            (λ i. self.old.order ≡ self.new.order ++ i ∷ []) }
        ensures set_at_entry { self.new.set_at_entry ≡ self.old.set_at_entry }
        ensures room { self.new.room ≡ self.old.room }
        ensures declared_room { self.new.declared_room ≡ self.old.declared_room }
    {
        let index = self.inits.pop()?;
        self.local_inits[index as usize - self.first_non_default_local] = false;
        Some(index)
    }

    /// Unsets what was first set from this height on (wasmparser's `pop_ctrl`, without its answer). It
    /// takes no memory.
    #[inline(always)]
    pub fn drop_ctrl(&mut self, height: usize)
        ensures order { self.new.order ≡ take height self.old.order }
        ensures set_at_entry { self.new.set_at_entry ≡ self.old.set_at_entry }
        ensures room { self.new.room ≡ self.old.room }
        ensures declared_room { self.new.declared_room ≡ self.old.declared_room }
    {
        while self.height() > height {
            let _ = self.pop_one();
        }
    }

    /// What was first set from this height on, in order.
    pub fn set_since(&self, height: usize) -> &[u32]
        requires { height ≤ length self.now.order }
        ensures { result.now ≡ drop height self.now.order }
    {
        &self.inits[height..]
    }

    /// Unsets what was first set from this height on, and answers it, in order (wasmparser's
    /// `pop_ctrl`). Want of memory changes nothing.
    pub fn pop_ctrl(&mut self, height: usize) -> Result<Vec<u32>, OutOfMemory>
        requires { height ≤ length self.old.order }
        ensures answer { IfOk result (λ reset. reset.items ≡ drop height self.old.order) }
        ensures unset { OnOk result (self.new.order ≡ take height self.old.order) }
        ensures set_at_entry { self.new.set_at_entry ≡ self.old.set_at_entry }
        ensures room { self.new.room ≡ self.old.room }
        ensures declared_room { self.new.declared_room ≡ self.old.declared_room }
        ensures err { OnErr result (self.new ≡ self.old) }
    {
        let reset = Vec::from_slice(self.allocator(), self.set_since(height))?;
        self.drop_ctrl(height);
        Ok(reset)
    }

    /// Sets again what was unset, in order, within the room. It takes no memory.
    pub fn put_back(&mut self, reset: &[u32])
        requires fresh { AreFresh self.old.set_at_entry (self.old.order ++ reset.now) }
        requires room { length (self.old.order ++ reset.now) ≤ self.old.room }
        ensures order { self.new.order ≡ self.old.order ++ reset.now }
        ensures set_at_entry { self.new.set_at_entry ≡ self.old.set_at_entry }
        ensures room { self.old.room ≤ self.new.room }
    {
        for index in reset {
            self.set_init(*index).unwrap();
        }
    }
}
