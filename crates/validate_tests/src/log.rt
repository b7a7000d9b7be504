//! The log of an attempt: each record succeeds where there is memory, and a change by a closure is that of the closure.

ghost use Rattle.std.specs.Prelude.{◌≡◌, MatchResult};
ghost use Rattle.validate_transaction.specs.Recorded.{with_push};

use crate::expectations::{ample, expect, expect_same};
use std::process::Abort;
use wasmparser_validate::operators::Frame;
use wasmparser_validate::transaction::{
    Closed, Entry, Pile, RollbackLog, RollbackLogAllocations, Transaction, take_back,
};
use wasmparser_validate::types::{MaybeType, NotDone, Operand, OutOfMemory, ValType};
use wasmparser_validate::visit::{BlockType, FrameKind};

/// The frame of a block that takes nothing and gives nothing.
const BLOCK: Frame = Frame {
    kind: FrameKind::Block,
    block_type: BlockType::Empty,
    height: 0,
    unreachable: false,
    init_height: 0,
};

const I32: MaybeType = MaybeType::Known(ValType::I32);

/// These operands are popped, the frame is closed and opened anew, and two operands are pushed.
fn entry_of(popped: &[Operand]) -> Entry<'_> {
    Entry {
        popped,
        closed: Some(Closed {
            frame: &BLOCK,
            unset: &[1, 0],
        }),
        opened: true,
        pushed: 2,
    }
}

/// Records one of each, and all at once. There is something to undo behind each.
fn record_each(rt: &impl Abort, log: &mut RollbackLog) {
    ample(rt, log.record_push());
    ample(rt, log.record_pop(&I32));
    expect_same(rt, log.operands.len(), 2);
    let popped = [Operand::of(I32)];
    expect_same(rt, log.operands.get(0), Some(&Some(popped[0])));
    ample(rt, log.push_ctrl());
    ample(rt, log.pop_ctrl(&BLOCK, &[1, 0]));
    expect_same(rt, log.frames.get(0), Some(&Some(BLOCK)));
    expect_same(rt, log.inits.as_slice(), [1, 0].as_slice());
    let recorded: Result<(), NotDone> = log.record(entry_of(&popped));
    expect(rt, recorded.is_err() || log.operands.len() == 5);
    log.set_unreachable();
    expect(rt, log.unreachable && log.has_changes(0));
}

#[test]
fn a_log_records_each_change(rt: HostRuntime) {
    let mut log = RollbackLog::new(0, RollbackLogAllocations::new(rt.alloc()));
    expect(&rt, !log.has_changes(0) && log.has_changes(1));
    record_each(&rt, &mut log);
    let mut allocs = log.into_allocations();
    let log = RollbackLog::new(0, allocs.take());
    let other = RollbackLog::new(1, RollbackLogAllocations::new(log.allocator()));
    expect(&rt, !log.has_changes(0) && !other.has_changes(1));
}

/// The same through an attempt that is pending.
fn record_pending(rt: &impl Abort, pending: &mut Transaction) {
    ample(rt, pending.record_push());
    ample(rt, pending.record_pop(&I32));
    ample(rt, pending.push_ctrl());
    ample(rt, pending.pop_ctrl(&BLOCK, &[1, 0]));
}

#[test]
fn an_attempt_records_each_change(rt: HostRuntime) {
    let mut attempt = Transaction::new(RollbackLogAllocations::new(rt.alloc()));
    attempt.begin(0);
    record_pending(&rt, &mut attempt);
    let popped = [Operand::of(I32)];
    let recorded: Result<(), NotDone> = attempt.record(entry_of(&popped));
    expect(&rt, attempt.has_changes(0));
    let log = attempt.take();
    expect(&rt, !attempt.is_active());
    let count = if recorded.is_ok() { 5 } else { 2 };
    expect_same(&rt, log.operands.len(), count);
    attempt.keep(log);
    attempt.begin(0);
    attempt.set_unreachable();
    expect(&rt, attempt.has_changes(0));
    attempt.end();
    expect(&rt, !attempt.is_active() && !attempt.has_changes(0));
    attempt.into_allocations();
}

/// Records that an operand was pushed, by a closure over the log.
fn push_by_closure(attempt: &mut Transaction) -> Result<(), OutOfMemory>
    ensures { MatchResult result (λ _. attempt.new ≡ with_push attempt.old)
        (λ _. attempt.new ≡ attempt.old) }
{
    attempt.map(|log| log.record_push())
}

/// The closure is called on the log of a pending attempt; where none is pending nothing changes.
#[test]
fn a_change_of_the_log(rt: HostRuntime) {
    let mut attempt = Transaction::new(RollbackLogAllocations::new(rt.alloc()));
    ample(&rt, push_by_closure(&mut attempt));
    expect(&rt, !attempt.is_active() && !attempt.has_changes(0));
    attempt.begin(0);
    ample(&rt, push_by_closure(&mut attempt));
    expect(&rt, attempt.is_active() && attempt.has_changes(0));
}

/// Adds these numbers to a pile.
fn put_each(rt: &impl Abort, pile: &mut Pile<u32>, numbers: &[u32]) {
    for number in numbers {
        ample(rt, pile.take_room());
        pile.put(*number);
    }
}

#[test]
fn a_pile_grows_and_shrinks_at_its_end(rt: HostRuntime) {
    let mut pile = Pile::new(rt.alloc());
    expect(&rt, pile.is_empty() && !pile.has_room());
    put_each(&rt, &mut pile, &[4, 5, 6]);
    expect_same(&rt, pile.get(0), Some(&6));
    expect(&rt, pile.len() == 3);
    expect_same(&rt, pile.newest(2), [5, 6].as_slice());
    pile.replace_top(7);
    expect_same(&rt, pile.pop(), Some(7));
    expect(&rt, pile.has_room());
    pile.truncate(1);
    expect_same(&rt, pile.get(0), Some(&4));
    pile.clear();
    expect(&rt, pile.is_empty());
    let reserved: Result<(), NotDone> = pile.reserve(1);
    expect_same(&rt, reserved, Ok(()));
}

/// A push is undone, and what was popped is there again.
#[test]
fn a_trace_is_taken_back(rt: HostRuntime) {
    let mut pile = Pile::new(rt.alloc());
    put_each(&rt, &mut pile, &[4, 5]);
    let mut trace = Pile::new(rt.alloc());
    ample(&rt, trace.take_room());
    trace.put(None);
    take_back(&mut pile, &mut trace);
    expect_same(&rt, pile.get(0), Some(&4));
    expect(&rt, pile.len() == 1 && trace.is_empty());
}
