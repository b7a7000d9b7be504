//! An attempt, or the buffers for the next one.

ghost use Rattle.std.specs.Prelude.{◌≡◌, ℕ, MatchResult, IfErr, IsOk, IsSome, IsNone, Some, None, is_some};
ghost use Rattle.validate_transaction.specs.Log.{Log, empty_log};
ghost use Rattle.validate_transaction.specs.Mapped.{Maps};
ghost use Rattle.validate_transaction.specs.Recorded.{log_of, with_push, with_pop, with_opened, with_closed, with_mark, with_entry, has_changes_now};

use crate::log::{Entry, RollbackLog, RollbackLogAllocations, Transaction};
use std::mem;
use validate_types::{MaybeType, OutOfMemory, Refused};
use validate_visit::Frame;

impl Transaction {
    /// None is pending, with these buffers for the next one.
    pub fn new(allocs: RollbackLogAllocations) -> Self
        ensures { log_of result ≡ None }
    {
        Transaction::Inactive(allocs)
    }

    /// The buffers, emptied.
    pub fn into_allocations(self) -> RollbackLogAllocations {
        match self {
            Transaction::Active(log) => log.into_allocations(),
            Transaction::Inactive(allocs) => allocs,
        }
    }

    /// Ends an attempt, if one is pending, and keeps what it did.
    pub fn end(&mut self)
        ensures { log_of self.new ≡ None }
    {
        if self.is_active() {
            let log = self.take();
            self.keep(log);
        }
    }

    /// Whether an attempt is pending that has something to undo, where so many locals are set now.
    #[inline(always)]
    pub fn has_changes(&self, init_height: usize) -> bool
        ensures { result ≡ has_changes_now init_height self.now }
    {
        match self {
            Transaction::Active(log) => log.has_changes(init_height),
            Transaction::Inactive(_) => false,
        }
    }

    /// Begins an attempt.
    pub fn begin(&mut self, init_height: usize)
        requires { log_of self.old ≡ None }
        ensures { log_of self.new ≡ Some (empty_log init_height) }
    {
        let allocs = match self {
            Transaction::Inactive(allocs) => allocs.take(),
            Transaction::Active(_) => unreachable!(),
        };
        *self = Transaction::Active(RollbackLog::new(init_height, allocs));
    }

    /// Whether an attempt is pending.
    #[inline(always)]
    pub fn is_active(&self) -> bool
        ensures { result ≡ is_some (log_of self.now) }
    {
        matches!(self, Transaction::Active(_))
    }

    /// Takes the log of an attempt, which ends.
    pub fn take(&mut self) -> RollbackLog
        requires { IsSome (log_of self.old) }
        ensures log { log_of self.old ≡ Some result }
        ensures ended { log_of self.new ≡ None }
    {
        let alloc = match self {
            Transaction::Active(log) => log.allocator(),
            Transaction::Inactive(_) => unreachable!(),
        };
        match mem::replace(
            self,
            Transaction::Inactive(RollbackLogAllocations::new(alloc)),
        ) {
            Transaction::Active(log) => log,
            Transaction::Inactive(_) => unreachable!(),
        }
    }

    /// Records that an operand was pushed, if an attempt is pending. Want of memory changes nothing, and
    /// there is none where no attempt is pending.
    #[inline(always)]
    pub fn record_push(&mut self) -> Result<(), OutOfMemory>
        ensures exact { MatchResult result (λ _. self.new ≡ with_push self.old) (λ _. self.new ≡ self.old) }
        ensures idle { log_of self.old ≡ None → IsOk result }
    {
        match self {
            Transaction::Active(log) => log.record_push(),
            Transaction::Inactive(_) => Ok(()),
        }
    }

    /// Records that this operand was popped, if an attempt is pending. Want of memory changes nothing, and
    /// there is none where no attempt is pending.
    #[inline(always)]
    pub fn record_pop(&mut self, ty: &MaybeType) -> Result<(), OutOfMemory>
        ensures exact { MatchResult result (λ _. self.new ≡ with_pop ty.now self.old)
            (λ _. self.new ≡ self.old) }
        ensures idle { log_of self.old ≡ None → IsOk result }
    {
        match self {
            Transaction::Active(log) => log.record_pop(ty),
            Transaction::Inactive(_) => Ok(()),
        }
    }

    /// Records that a frame was opened, if an attempt is pending. Want of memory changes nothing, and there
    /// is none where no attempt is pending.
    #[inline(always)]
    pub fn push_ctrl(&mut self) -> Result<(), OutOfMemory>
        ensures exact { MatchResult result (λ _. self.new ≡ with_opened self.old) (λ _. self.new ≡ self.old) }
        ensures idle { log_of self.old ≡ None → IsOk result }
    {
        match self {
            Transaction::Active(log) => log.push_ctrl(),
            Transaction::Inactive(_) => Ok(()),
        }
    }

    /// Records that this frame was closed, and that it unset these locals, if an attempt is pending. Want of
    /// memory changes nothing, and there is none where no attempt is pending.
    #[inline(always)]
    pub fn pop_ctrl(&mut self, frame: &Frame, inits: &[u32]) -> Result<(), OutOfMemory>
        ensures exact { MatchResult result (λ _. self.new ≡ with_closed frame.now inits.now self.old)
            (λ _. self.new ≡ self.old) }
        ensures idle { log_of self.old ≡ None → IsOk result }
    {
        match self {
            Transaction::Active(log) => log.pop_ctrl(frame, inits),
            Transaction::Inactive(_) => Ok(()),
        }
    }

    /// Records all that a call does, if an attempt is pending. Want of memory changes nothing, and there is none
    /// where no attempt is pending.
    #[inline(always)]
    pub fn record<A: Refused>(&mut self, entry: Entry<'_>) -> Result<(), A>
        ensures exact { MatchResult result (λ _. self.new ≡ with_entry entry.entry self.old)
            (λ _. self.new ≡ self.old) }
        ensures told { IfErr result (λ e. A.tells e → ⊥) }
        ensures idle { log_of self.old ≡ None → IsOk result }
    {
        match self {
            Transaction::Active(log) => log.record(entry),
            Transaction::Inactive(_) => Ok(()),
        }
    }

    /// Records that the code of a frame became dead, if an attempt is pending. It takes no memory.
    #[inline(always)]
    pub fn set_unreachable(&mut self)
        ensures { self.new ≡ with_mark self.old }
    {
        match self {
            Transaction::Active(log) => log.set_unreachable(),
            Transaction::Inactive(_) => {}
        }
    }

    /// Keeps the buffers of a log that has ended.
    pub fn keep(&mut self, log: RollbackLog)
        ensures { log_of self.new ≡ None }
    {
        *self = Transaction::Inactive(log.into_allocations());
    }

    /// Changes the log of an attempt, if one is pending.
    pub fn map<F: FnOnce(&mut RollbackLog) -> Result<(), OutOfMemory>>(
        &mut self,
        f: F,
    ) -> Result<(), OutOfMemory>
    where
        F: Drop,
        requires { F.IsAlwaysCallable f }
        ensures { Maps F.FnOnce f self.old result self.new }
    {
        match self {
            Transaction::Active(log) => f(log),
            Transaction::Inactive(_) => Ok(()),
        }
    }
}
