//! What one call does to a body, made whole or not at all.

ghost use Rattle.std.specs.Prelude.{◌≡◌, ◌≢◌, ◌+◌, ◌-◌, ◌^◌, ◌<◌, ◌≤◌, [], None, true, length, slice_get, IfErr, IfOk, OnOk, IsOk, MatchResult};
ghost use Rattle.std.specs.Option.{ForSome};
ghost use Rattle.validate_locals.specs.Inits.{AreFresh};
ghost use Rattle.validate_transaction.specs.declared.log.Transaction.{Transaction};
ghost use Rattle.validate_transaction.specs.Recorded.{log_of};
ghost use Rattle.validate_stacks.specs.Changes.{MayChange, body_changed, pushed_count, operands_given, operands_topped, frames_closed, order_closed, order_set, HasRoomToSet, frames_opened, log_changed, log_closed, log_with_closed};

use crate::control::ControlStack;
use crate::stacks::{Stacks, live_frame};
use validate_locals::LocalInits;
use validate_transaction::{Closed, Entry, Pile, Transaction};
use validate_types::{MaybeType, Operand, Refusal, Refused, ValType};
use validate_visit::{BlockType, Frame, FrameKind};

/// What one call does to a body, in this order.
#[derive(Clone, Copy)]
pub struct Change<'a> {
    /// How many own operands of the innermost frame go.
    pub popped: usize,
    /// Whether that frame is closed.
    pub closes: bool,
    /// The local that is set, if one is: no frame is closed or opened then.
    pub sets: Option<u32>,
    /// The kind and the block type of the frame that is opened, if one is.
    pub opens: Option<(FrameKind, BlockType)>,
    /// The types of the operands that come, the last on top.
    pub pushed: &'a [ValType],
    /// One more that comes above them, of which less may be known.
    pub top: Option<MaybeType>,
}

/// How many operands come. More than can be counted find no memory.
#[inline(always)]
fn count_pushed<A: Refused>(change: Change<'_>) -> Result<usize, A>
    ensures counted { IfOk result (λ count. count ≡ pushed_count change.entry) }
    ensures told { IfErr result (λ e. A.tells e → ⊥) }
    ensures only_too_many { pushed_count change.entry < 2 ^ 64 → IsOk result }
{
    if change.top.is_none() {
        return Ok(change.pushed.len());
    }
    match change.pushed.len().checked_add(1) {
        Some(count) => Ok(count),
        None => Err(A::of(Refusal::OutOfMemory)),
    }
}

/// Room to set a local, if one is to be set. Want of memory changes nothing but room.
#[inline(always)]
fn make_room_to_set<A: Refused>(inits: &mut LocalInits, sets: Option<u32>) -> Result<(), A>
    requires { ForSome sets (λ i. i < length inits.old.set_at_entry) }
    ensures order { inits.new.order ≡ inits.old.order }
    ensures set_at_entry { inits.new.set_at_entry ≡ inits.old.set_at_entry }
    ensures room { inits.old.room ≤ inits.new.room }
    ensures ok { OnOk result (ForSome sets (λ i. HasRoomToSet i inits.new)) }
    ensures told { IfErr result (λ e. A.tells e → ⊥) }
    ensures idle { sets ≡ None → IsOk result }
{
    match sets {
        Some(index) if inits.is_uninit(index) => inits.take_room(),
        _ => Ok(()),
    }
}

/// Room for all that comes, and how many operands that are. Want of memory changes nothing but room.
#[inline(always)]
fn make_room<A: Refused>(
    operands: &mut Pile<Operand>,
    control: &mut ControlStack,
    inits: &mut LocalInits,
    change: Change<'_>,
) -> Result<usize, A>
    requires closes { change.closes ≡ true → control.old.items ≢ [] }
    requires declared { ForSome change.sets (λ i. i < length inits.old.set_at_entry) }
    ensures operands { operands.new.items ≡ operands.old.items }
    ensures frames { control.new.items ≡ control.old.items }
    ensures operands_room { operands.old.room ≤ operands.new.room }
    ensures frames_room { control.old.room ≤ control.new.room }
    ensures order { inits.new.order ≡ inits.old.order }
    ensures set_at_entry { inits.new.set_at_entry ≡ inits.old.set_at_entry }
    ensures order_room { inits.old.room ≤ inits.new.room }
    ensures to_set { OnOk result (ForSome change.entry.sets (λ i. HasRoomToSet i inits.new)) }
    ensures within { OnOk result (length control.new.items ≤ control.new.room) }
    ensures for_operands { OnOk result (length operands.new.items + (pushed_count change.entry - change.entry.popped)
        ≤ operands.new.room) }
    ensures for_frame { OnOk result (change.entry.opens ≢ None
        → length (frames_closed change.entry.closes control.new.items) < control.new.room) }
    ensures counted { IfOk result (λ count. count ≡ pushed_count change.entry) }
    ensures told { IfErr result (λ e. A.tells e → ⊥) }
    ensures idle { change.entry.sets ≡ None → change.entry.opens ≡ None
        → pushed_count change.entry ≤ change.entry.popped → IsOk result }
{
    let pushed = count_pushed(change)?;
    operands.reserve(pushed.saturating_sub(change.popped))?;
    // A frame that is opened in the place of another needs no room.
    let frames = if change.opens.is_some() && !change.closes {
        1
    } else {
        0
    };
    control.reserve(frames)?;
    make_room_to_set(inits, change.sets)?;
    Ok(pushed)
}

/// Records it in the log of the attempt, if one is pending. Want of memory changes nothing, and there is none where no
/// attempt is pending.
#[inline(always)]
fn record<'a, A: Refused>(
    transaction: &mut Transaction,
    operands: &'a Pile<Operand>,
    control: &'a ControlStack,
    inits: &'a LocalInits,
    change: Change<'_>,
    pushed: usize,
) -> Result<(), A>
    requires pushed { pushed ≡ pushed_count change }
    requires popped { change.popped ≤ length operands.now.items }
    requires closed { ForSome (slice_get control.now.items 0) (λ f. f.init_height ≤ length inits.now.order) }
    ensures exact { MatchResult result (λ _. transaction.new
        ≡ log_changed change.entry control.now.items operands.now.items inits.now.order transaction.old)
        (λ _. transaction.new ≡ transaction.old) }
    ensures told { IfErr result (λ e. A.tells e → ⊥) }
    ensures idle { log_of transaction.old ≡ None → IsOk result }
{
    transaction.record(Entry {
        popped: operands.newest(change.popped),
        closed: closed(control, inits, change.closes),
        opened: change.opens.is_some(),
        pushed: pushed,
    })
}

/// The innermost frame and what it unsets, where it is to be closed.
#[inline(always)]
fn closed<'a>(control: &'a ControlStack, inits: &'a LocalInits, closes: bool) -> Option<Closed<'a>>
    requires { ForSome (slice_get control.now.items 0) (λ f. f.init_height ≤ length inits.now.order) }
    ensures { (t : Transaction) → log_with_closed result t ≡ log_closed closes control.now.items inits.now.order t }
{
    if !closes {
        return None;
    }
    let frame = control.get(0)?;
    Some(Closed {
        frame,
        unset: inits.set_since(frame.init_height),
    })
}

/// Closes the innermost frame, if asked for: the locals that were first set in it aren't set any more. It takes no memory.
#[inline(always)]
fn close(control: &mut ControlStack, inits: &mut LocalInits, closes: bool)
    ensures frames { control.new.items ≡ frames_closed closes control.old.items }
    ensures frames_room { control.new.room ≡ control.old.room }
    ensures order { inits.new.order ≡ order_closed closes control.old.items inits.old.order }
    ensures set_at_entry { inits.new.set_at_entry ≡ inits.old.set_at_entry }
    ensures order_room { inits.new.room ≡ inits.old.room }
{
    if !closes {
        return;
    }
    let Some(innermost) = control.get(0) else {
        return;
    };
    let init_height = innermost.init_height;
    let _ = control.pop();
    inits.drop_ctrl(init_height);
}

/// Sets a local, if one is to be set, where there is room; and how many locals are set then. It takes no memory.
#[inline(always)]
fn set(inits: &mut LocalInits, sets: Option<u32>) -> usize
    requires declared { ForSome sets (λ i. i < length inits.old.set_at_entry) }
    requires room { ForSome sets (λ i. HasRoomToSet i inits.old) }
    ensures order { inits.new.order ≡ order_set sets inits.old.set_at_entry inits.old.order }
    ensures set_at_entry { inits.new.set_at_entry ≡ inits.old.set_at_entry }
    ensures room { inits.old.room ≤ inits.new.room }
    ensures height { result ≡ length inits.new.order }
    ensures within { length inits.new.order ≤ inits.new.room }
    ensures fresh { AreFresh inits.new.set_at_entry inits.new.order }
{
    if let Some(index) = sets {
        inits.set_init(index).unwrap();
    }
    inits.height()
}

/// Opens a frame over so many operands and locals that are set, if asked for, where there is room. It takes no memory.
#[inline(always)]
fn open(
    control: &mut ControlStack,
    opens: Option<(FrameKind, BlockType)>,
    height: usize,
    init_height: usize,
)
    requires { opens ≢ None → length control.old.items < control.old.room }
    ensures frames { control.new.items ≡ frames_opened opens height init_height control.old.items }
    ensures room { control.old.room ≤ control.new.room }
{
    if let Some((kind, block_type)) = opens {
        control.put(live_frame(kind, block_type, height, init_height));
    }
}

/// Puts an operand of each of these types, the first of the list first, where there is room for all. It takes no memory.
#[inline(always)]
fn give(operands: &mut Pile<Operand>, types: &[ValType])
    requires { length operands.old.items + length types.now ≤ operands.old.room }
    ensures items { operands.new.items ≡ operands_given types.now operands.old.items }
    ensures never_less { operands.old.room ≤ operands.new.room }
{
    for ty in types {
        operands.put(Operand::known(*ty));
    }
}

/// Puts an operand, if there is one, where there is room. It takes no memory.
#[inline(always)]
fn put_top(operands: &mut Pile<Operand>, top: Option<MaybeType>)
    requires { top ≢ None → length operands.old.items < operands.old.room }
    ensures items { operands.new.items ≡ operands_topped top operands.old.items }
    ensures never_less { operands.old.room ≤ operands.new.room }
{
    if let Some(ty) = top {
        operands.put(Operand::of(ty));
    }
}

impl Stacks {
    /// Checks a change whole, or not at all: room for all of it, in the stacks and in the log of an attempt, is taken before
    /// the first move. Memory is asked for where `A` may grow alone.
    #[inline(always)]
    pub(crate) fn change<A: Refused>(&mut self, change: Change<'_>) -> Result<(), A>
        requires { MayChange change self.old }
        ensures exact { MatchResult result (λ _. self.new.body ≡ body_changed change.entry self.old.body)
            (λ _. self.new ≡ self.old) }
        ensures told { IfErr result (λ e. A.tells e → ⊥) }

        // Where no attempt is pending, no local is set, no frame is opened, and no more operands come than go, it takes no memory.
        ensures idle { self.old.body.undone ≡ None → change.entry.sets ≡ None → change.entry.opens ≡ None
            → pushed_count change.entry ≤ change.entry.popped → IsOk result }
    {
        let pushed = make_room(
            &mut self.operands,
            &mut self.control,
            &mut self.inits,
            change,
        )?;
        record(
            &mut self.transaction,
            &self.operands,
            &self.control,
            &self.inits,
            change,
            pushed,
        )?;
        let height = self.operands.len() - change.popped;
        self.operands.truncate(height);
        close(&mut self.control, &mut self.inits, change.closes);
        let init_height = set(&mut self.inits, change.sets);
        open(&mut self.control, change.opens, height, init_height);
        give(&mut self.operands, change.pushed);
        put_top(&mut self.operands, change.top);
        Ok(())
    }
}
