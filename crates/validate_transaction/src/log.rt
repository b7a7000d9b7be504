//! The log of one attempt.

ghost use Rattle.std.specs.Prelude.{◌≡◌, ℕ, ◌+◌, ◌<◌, ◌≤◌, List, [], ◌∷◌, ◌++◌, length, IfOk, IfErr, OnOk, OnErr, IsOk, MatchOption, Option, true, false, None, Some};
ghost use Rattle.std.specs.Prelude.{MatchResult, map, replicate};
ghost use Rattle.validate_transaction.specs.Log.{Log, empty_log, has_changes};
ghost use Rattle.validate_transaction.specs.Recorded.{log_with_entry};

use crate::pile::Pile;
use std::alloc::Global;
use std::marker::Model;
use std::mem;
use validate_types::{MaybeType, Operand, OutOfMemory, Refusal, Refused};
use validate_visit::Frame;

/// What an attempt changed.
#[derive(Drop)]
pub struct RollbackLog {
    /// The operands, the newest change on top: a push as None, and a pop as the operand that it took.
    pub operands: Pile<Option<Operand>>,
    /// The frames, the newest change on top: an opened one as None, and a closed one as it was.
    pub frames: Pile<Option<Frame>>,
    /// The indices of the locals that closed frames unset, in order.
    pub inits: Vec<u32>,
    /// How many locals had been set since they were declared when the attempt began.
    pub init_height: usize,
    /// Whether the code of a frame became dead.
    pub unreachable: bool,
}

impl Model for RollbackLog {
    ghost use Rattle.validate_transaction.specs.Log.{Log};

    ghost Value = { Log };

    ghost view = { λ l. record {
      operands = l.operands.items;
      frames = l.frames.items;
      inits = l.inits.items;
      init_height = l.init_height;
      unreachable = l.unreachable;
    } };
}

/// Buffers for a log.
#[derive(Drop)]
pub struct RollbackLogAllocations {
    operands: Pile<Option<Operand>>,
    frames: Pile<Option<Frame>>,
    inits: Vec<u32>,
}

impl Model for RollbackLogAllocations {
    ghost use Rattle.std.specs.Prelude.{⊤, ◌≡◌, [], List};

    ghost Value = { ⊤ };

    ghost view = { λ l. tt };

    ghost invariant = { λ l. (l.operands.items ≡ []) × (l.frames.items ≡ []) × (l.inits.items ≡ []) };
}

impl RollbackLogAllocations {
    /// Empty buffers. It takes no memory.
    pub fn new(alloc: Global) -> Self {
        RollbackLogAllocations {
            operands: Pile::new(alloc),
            frames: Pile::new(alloc),
            inits: Vec::new(alloc),
        }
    }

    /// Takes the buffers, and leaves new ones.
    pub fn take(&mut self) -> RollbackLogAllocations {
        let alloc = *self.inits.allocator();
        mem::replace(self, RollbackLogAllocations::new(alloc))
    }
}

impl RollbackLog {
    /// A log with nothing in it.
    pub fn new(init_height: usize, allocs: RollbackLogAllocations) -> Self
        ensures { result ≡ empty_log init_height }
    {
        let RollbackLogAllocations {
            operands,
            frames,
            inits,
        } = allocs;
        RollbackLog {
            operands,
            frames,
            inits,
            init_height,
            unreachable: false,
        }
    }

    /// What the buffers are allocated by.
    pub fn allocator(&self) -> Global {
        *self.inits.allocator()
    }

    /// Whether there is something to undo, where so many locals are set now.
    pub fn has_changes(&self, init_height: usize) -> bool
        ensures { result ≡ has_changes init_height self.now }
    {
        if self.unreachable || self.init_height < init_height {
            return true;
        }
        !(self.operands.is_empty() && self.frames.is_empty() && self.inits.is_empty())
    }

    /// Gives the buffers back.
    pub fn into_allocations(self) -> RollbackLogAllocations {
        let RollbackLog {
            mut operands,
            mut frames,
            mut inits,
            init_height: _,
            unreachable: _,
        } = self;
        operands.clear();
        frames.clear();
        inits.clear();
        RollbackLogAllocations {
            operands,
            frames,
            inits,
        }
    }

    /// Records that an operand was pushed. Want of memory changes nothing.
    #[inline(never)]
    pub fn record_push(&mut self) -> Result<(), OutOfMemory>
        ensures { MatchResult result (λ _. self.new
            ≡ record self.old { operands = None ∷ self.old.operands }) (λ _. self.new ≡ self.old) }
    {
        self.operands.take_room()?;
        self.operands.put(None);
        Ok(())
    }

    /// Records that this operand was popped. Want of memory changes nothing.
    #[inline(never)]
    pub fn record_pop(&mut self, ty: &MaybeType) -> Result<(), OutOfMemory>
        ensures { MatchResult result (λ _. self.new
            ≡ record self.old { operands = Some ty.now ∷ self.old.operands }) (λ _. self.new ≡ self.old) }
    {
        self.operands.take_room()?;
        self.operands.put(Some(Operand::of(*ty)));
        Ok(())
    }

    /// Records that a frame was opened. Want of memory changes nothing.
    #[inline(never)]
    pub fn push_ctrl(&mut self) -> Result<(), OutOfMemory>
        ensures { MatchResult result (λ _. self.new
            ≡ record self.old { frames = None ∷ self.old.frames }) (λ _. self.new ≡ self.old) }
    {
        self.frames.take_room()?;
        self.frames.put(None);
        Ok(())
    }

    /// Records that this frame was closed, and that it unset these locals. Want of memory changes nothing.
    #[inline(never)]
    pub fn pop_ctrl(&mut self, frame: &Frame, inits: &[u32]) -> Result<(), OutOfMemory>
        ensures { MatchResult result (λ _. self.new
            ≡ record self.old {
              frames = Some frame.now ∷ self.old.frames;
              inits = self.old.inits ++
                  inits.now;
            }) (λ _. self.new ≡ self.old) }
    {
        self.frames.take_room()?;
        self.inits.extend_from_slice(inits)?;
        self.frames.put(Some(*frame));
        Ok(())
    }

    /// Records all that a call does. Want of memory changes nothing: there is room for all before anything is put.
    #[inline(never)]
    pub fn record<A: Refused>(&mut self, entry: Entry<'_>) -> Result<(), A>
        ensures exact { MatchResult result (λ _. self.new ≡ log_with_entry entry.entry self.old)
            (λ _. self.new ≡ self.old) }
        ensures told { IfErr result (λ e. A.tells e → ⊥) }
    {
        let Some(operands) = entry.popped.len().checked_add(entry.pushed) else {
            return Err(A::of(Refusal::OutOfMemory));
        };
        self.operands.reserve(operands)?;
        self.frames.reserve(2)?;
        if let Some(closed) = entry.closed {
            append(&mut self.inits, closed.unset)?;
            self.frames.put(Some(*closed.frame));
        }
        if entry.opened {
            self.frames.put(None);
        }
        put_popped(&mut self.operands, entry.popped);
        put_pushed(&mut self.operands, entry.pushed);
        Ok(())
    }

    /// Records that the code of a frame became dead. It takes no memory.
    pub fn set_unreachable(&mut self)
        ensures { self.new ≡ record self.old { unreachable = true } }
    {
        self.unreachable = true;
    }
}

/// A frame that is closed, as a log records it.
#[derive(Clone, Copy)]
pub struct Closed<'a> {
    /// The frame as it was.
    pub frame: &'a Frame,
    /// The locals that it unsets, in order.
    pub unset: &'a [u32],
}

/// What a call does to operands and frames, as a log records it.
#[derive(Clone, Copy)]
pub struct Entry<'a> {
    /// The operands that are popped, the top last.
    pub popped: &'a [Operand],
    /// The frame that is closed, if one is.
    pub closed: Option<Closed<'a>>,
    /// Whether a frame is opened.
    pub opened: bool,
    /// How many operands are pushed.
    pub pushed: usize,
}

/// Adds these indices. Want of memory adds none; no memory is asked for where that may not be.
fn append<A: Refused>(indices: &mut Vec<u32>, more: &[u32]) -> Result<(), A>
    ensures exact { MatchResult result (λ _. indices.new.items ≡ indices.old.items ++ more.now)
        (λ _. indices.new.items ≡ indices.old.items) }
    ensures told { IfErr result (λ e. A.tells e → ⊥) }
{
    if !A::may_allocate() && indices.capacity() - indices.len() < more.len() {
        return Err(A::of(Refusal::OutOfMemory));
    }
    match indices.extend_from_slice(more) {
        Ok(()) => Ok(()),
        Err(_) => Err(A::of(Refusal::OutOfMemory)),
    }
}

/// Records that these operands were popped, the last of the list first, where there is room.
fn put_popped(trace: &mut Pile<Option<Operand>>, popped: &[Operand])
    requires { length trace.old.items + length popped.now ≤ trace.old.room }
    ensures items { trace.new.items ≡ map Some popped.now ++ trace.old.items }
    ensures never_less { trace.old.room ≤ trace.new.room }
{
    let mut left = popped.len();
    while left > 0 {
        left -= 1;
        trace.put(Some(popped[left]));
    }
}

/// Records that so many operands were pushed, where there is room.
fn put_pushed(trace: &mut Pile<Option<Operand>>, count: usize)
    requires { length trace.old.items + count ≤ trace.old.room }
    ensures { trace.new.items ≡ replicate count None ++ trace.old.items }
{
    for _pushed in 0..count {
        trace.put(None);
    }
}

/// An attempt, or the buffers for the next one.
#[derive(Drop)]
pub enum Transaction {
    /// An attempt is pending, with this log.
    Active(RollbackLog),
    /// None is pending, and these buffers are for the next one.
    Inactive(RollbackLogAllocations),
}
