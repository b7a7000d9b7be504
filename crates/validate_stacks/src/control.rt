//! The open frames. The height of the innermost stands beside them, since most operators ask for it.

ghost use Rattle.std.specs.Prelude.{◌≡◌, ◌+◌, ◌<◌, ◌≤◌, [], ◌∷◌, true, length, drop, slice_get, IfErr, OnOk, IsOk, MatchOption};
ghost use Rattle.std.specs.Option.{option_copied};
ghost use Rattle.validate_stacks.specs.Control.{innermost_height};

use std::alloc::Global;
use std::marker::Model;
use validate_transaction::Pile;
use validate_types::{OutOfMemory, Refused};
use validate_visit::Frame;

/// The open frames, the innermost on top (the standard's `ctrls`).
#[derive(Drop)]
pub struct ControlStack {
    frames: Pile<Frame>,
    /// The height of the innermost; where none is open, more than there can be operands.
    height: usize,
}

impl Model for ControlStack {
    ghost use Rattle.std.specs.Prelude.{◌≡◌};
    ghost use Rattle.validate_stacks.specs.Control.{innermost_height};
    ghost use Rattle.validate_transaction.specs.Piled.{Piled};
    ghost use Rattle.validate_visit.specs.declared.frame.Frame.{Frame};

    ghost Value = { Piled Frame };

    ghost view = { λ c. c.frames };

    ghost invariant = { λ c. c.height ≡ innermost_height c.frames.items };
}

/// The height of the innermost of these frames; where there is none, more than there can be operands.
#[inline(always)]
fn height_of(frames: &Pile<Frame>) -> usize
    ensures { result ≡ innermost_height frames.now.items }
{
    match frames.get(0) {
        Some(frame) => frame.height,
        None => usize::MAX,
    }
}

impl ControlStack {
    /// No frame. It takes no memory.
    pub(crate) fn new(alloc: Global) -> ControlStack
        ensures { result.items ≡ [] }
    {
        ControlStack {
            frames: Pile::new(alloc),
            height: usize::MAX,
        }
    }

    /// The height of the innermost frame; where none is open, more than there can be operands.
    #[inline(always)]
    pub(crate) fn innermost_height(&self) -> usize
        ensures { result ≡ innermost_height self.now.items }
    {
        self.height
    }

    /// How many frames are open.
    #[inline(always)]
    pub(crate) fn len(&self) -> usize
        ensures value { result ≡ length self.now.items }
        ensures within { length self.now.items ≤ self.now.room }
    {
        self.frames.len()
    }

    /// The frame at this depth, the innermost at 0.
    #[inline(always)]
    pub(crate) fn get(&self, depth: usize) -> Option<&Frame>
        ensures { option_copied result ≡ slice_get self.now.items depth }
    {
        self.frames.get(depth)
    }

    /// Whether there is room for one more.
    #[inline(always)]
    pub(crate) fn has_room(&self) -> bool
        ensures { result ≡ true → length self.now.items < self.now.room }
    {
        self.frames.has_room()
    }

    /// Room for one more.
    #[inline(always)]
    pub(crate) fn take_room(&mut self) -> Result<(), OutOfMemory>
        ensures items { self.new.items ≡ self.old.items }
        ensures never_less { self.old.room ≤ self.new.room }
        ensures ok { OnOk result (length self.new.items < self.new.room) }
        ensures only_full { length self.old.items < self.old.room → IsOk result }
    {
        self.frames.take_room()
    }

    /// Room for so many more. Want of memory changes no frame; no memory is asked for where that may not be.
    #[inline(always)]
    pub(crate) fn reserve<A: Refused>(&mut self, count: usize) -> Result<(), A>
        ensures items { self.new.items ≡ self.old.items }
        ensures never_less { self.old.room ≤ self.new.room }
        ensures ok { OnOk result (length self.new.items + count ≤ self.new.room) }
        ensures only_full { length self.old.items + count ≤ self.old.room → IsOk result }
        ensures told { IfErr result (λ e. A.tells e → ⊥) }
        ensures within { length self.old.items ≤ self.old.room }
    {
        self.frames.reserve(count)
    }

    /// Opens a frame where there is room.
    #[inline(always)]
    pub(crate) fn put(&mut self, frame: Frame)
        requires { length self.old.items < self.old.room }
        ensures items { self.new.items ≡ frame ∷ self.old.items }
        ensures never_less { self.old.room ≤ self.new.room }
    {
        self.height = frame.height;
        self.frames.put(frame);
    }

    /// Closes the innermost frame.
    #[inline(always)]
    pub(crate) fn pop(&mut self) -> Option<Frame>
        ensures items { MatchOption result ((self.old.items ≡ []) × (self.new.items ≡ []))
            (λ x. self.old.items ≡ x ∷ self.new.items) }
        ensures room { self.new.room ≡ self.old.room }
    {
        let closed = self.frames.pop();
        self.height = height_of(&self.frames);
        closed
    }

    /// Closes all frames, and keeps the room.
    pub(crate) fn clear(&mut self)
        ensures items { self.new.items ≡ [] }
        ensures room { self.new.room ≡ self.old.room }
    {
        self.frames.clear();
        self.height = usize::MAX;
    }

    /// Puts a frame in place of the innermost.
    #[inline(always)]
    pub(crate) fn replace_top(&mut self, frame: Frame)
        requires { 0 < length self.old.items }
        ensures items { self.new.items ≡ frame ∷ drop 1 self.old.items }
        ensures room { self.new.room ≡ self.old.room }
    {
        self.height = frame.height;
        self.frames.replace_top(frame);
    }
}
