//! The operands, the open frames and the locals.

ghost use Rattle.std.specs.Prelude.{◌≡◌, ◌≢◌, ◌+◌, ◌<◌, ◌≤◌, true, false, None, Some, [], length, reverse, take, is_some, IfOk, OnOk, IfErr, OnErr, IsSome, MatchBool, MatchResult, not};
ghost use Rattle.std.specs.Option.{option_copied, ForSome};
ghost use Rattle.validate_locals.specs.Limit.{max_locals};
ghost use Rattle.validate_transaction.specs.Recorded.{with_push};
ghost use Rattle.validate_transaction.specs.TakeBack.{items_taken_back, CanTakeBack};
ghost use Rattle.validation_rules.specs.Static.{operand_count, frame_count, locals_set, is_local_set};
ghost use Rattle.validate_stacks.specs.AtOnce.{body_dropped, body_given, body_with_frame_over};
ghost use Rattle.validate_stacks.specs.Attempts.{phase_moved, may_attempt, may_frame, stacks_begun, stacks_committed, stacks_rolled_back};
ghost use Rattle.validate_stacks.specs.Flat.{frames_unmarked, inits_in_frames};
ghost use Rattle.validate_stacks.specs.Steps.{empty_body, innermost_operands, known_type, type_at_depth, frame_at, label_at, found_after_pops_in_body, body_marked, body_pushed, body_popped, body_with_frame, body_without_frame, setting_order, body_with_locals, body_with_params};

use crate::allocations::OperatorValidatorAllocations;
use crate::control::ControlStack;
use std::alloc::Global;
use std::marker::Model;
use validate_locals::{LocalInits, Locals};
use validate_transaction::{Pile, Transaction, take_back};
use validate_types::{
    MaybeType, Operand, OutOfMemory, Refusal, Refused, ValType, WasmFeatures, grown,
};
use validate_visit::{BlockType, Frame, FrameKind};

/// The operands, the open frames and the locals of a body (wasmparser's `OperatorValidator` without
/// its visits). Contracts see a `BodyState` of `specs/`, whose frames have operands of their own.
#[derive(Drop)]
pub struct Stacks {
    pub(crate) operands: Pile<Operand>,
    pub(crate) control: ControlStack,
    pub(crate) locals: Locals,
    pub(crate) inits: LocalInits,
    pub(crate) transaction: Transaction,
    shared: bool,
    features: WasmFeatures,
    alloc: Global,
}

impl Model for Stacks {
    ghost use Rattle.validate_stacks.specs.Attempts.{Stacked};

    ghost Value = { Stacked };

    ghost use Rattle.validate_stacks.specs.Flat.{stacked_of, IsSound};
    ghost use Rattle.validate_stacks.specs.StacksInside.{flat_of};

    ghost view = { λ s. stacked_of (flat_of s) };

    ghost invariant = { λ s. IsSound (flat_of s) };
}

impl Stacks {
    /// No frame, no operand and no local, in these buffers. It takes no memory.
    pub fn new(features: WasmFeatures, allocs: OperatorValidatorAllocations) -> Stacks
        ensures { result.body ≡ empty_body features }
    {
        let OperatorValidatorAllocations {
            operands,
            control,
            locals,
            inits,
            log,
            alloc,
        } = allocs;
        Stacks {
            operands,
            control,
            locals,
            inits,
            transaction: Transaction::new(log),
            shared: false,
            features,
            alloc,
        }
    }

    /// Begins anew in the same buffers: no frame, no operand, no local and no attempt is left. It takes no memory.
    pub fn restart(&mut self, features: WasmFeatures)
        ensures { self.new.body ≡ empty_body features }
    {
        self.operands.clear();
        self.control.clear();
        self.locals.clear();
        self.inits.clear();
        self.shared = false;
        self.features = features;
        self.transaction.end()
    }

    /// The buffers, emptied. It takes no memory.
    pub fn into_allocations(self) -> OperatorValidatorAllocations {
        let Stacks {
            mut operands,
            mut control,
            mut locals,
            mut inits,
            transaction,
            shared: _,
            features: _,
            alloc,
        } = self;
        operands.clear();
        control.clear();
        locals.clear();
        inits.clear();
        OperatorValidatorAllocations {
            operands,
            control,
            locals,
            inits,
            log: transaction.into_allocations(),
            alloc,
        }
    }

    /// The allocator of the buffers, with which texts are made.
    pub fn allocator(&self) -> Global {
        self.alloc
    }

    /// Marks the function as shared or not.
    pub fn set_shared(&mut self, shared: bool)
        ensures { self.new ≡ record self.old { body = record self.old.body { shared = shared } } }
    {
        self.shared = shared;
    }

    /// Whether the function is shared.
    pub fn is_shared(&self) -> bool
        ensures { result ≡ self.now.body.shared }
    {
        self.shared
    }

    /// The proposals that are on.
    pub fn features(&self) -> WasmFeatures
        ensures { result ≡ self.now.body.features }
    {
        self.features
    }

    /// The declared locals.
    pub fn locals(&self) -> &Locals
        ensures { result.now ≡ self.now.body.locals }
    {
        &self.locals
    }

    /// Which locals are set: those that were first set, in order, and those set when the body begins.
    pub fn inits(&self) -> &LocalInits
        ensures order { result.now.order ≡ setting_order self.now.body.present.frames }
        ensures set_at_entry { result.now.set_at_entry ≡ self.now.body.set_at_entry }
        ensures marks { length self.now.body.set_at_entry ≡ length self.now.body.locals }
    {
        // The proof takes the invariant of the stacks from this read.
        let _frames = self.control.len();
        &self.inits
    }

    /// Declares the parameters, each as a local that is set, whatever its type. False, with nothing
    /// changed, where there would be more than 50,000 locals then; want of memory changes nothing either.
    pub fn define_params(&mut self, params: &[ValType]) -> Result<bool, OutOfMemory>
        requires { self.old.body.undone ≡ None }
        ensures defined { IfOk result (λ done. MatchBool done
            (self.new.body ≡ body_with_params params.now self.old.body) (self.new ≡ self.old)) }
        ensures within { IfOk result (λ done. MatchBool done
            (length self.old.body.locals + length params.now ≤ max_locals)
            (max_locals < length self.old.body.locals + length params.now)) }
        ensures err { OnErr result (self.new ≡ self.old) }
    {
        if !self.locals.may_define(params.len()) {
            return Ok(false);
        }
        self.inits.reserve(params.len())?;
        self.locals.define_params(params)?;
        self.inits.define_params(params.len()).unwrap();
        Ok(true)
    }

    /// Declares `count` more locals of this type, which are set where it has a default value. False, with
    /// nothing changed, where there would be more than 50,000 then; want of memory changes nothing either.
    pub fn define_locals(&mut self, count: u32, ty: ValType) -> Result<bool, OutOfMemory>
        requires { self.old.body.undone ≡ None }
        ensures defined { IfOk result (λ done. MatchBool done
            (self.new.body ≡ body_with_locals count ty self.old.body) (self.new ≡ self.old)) }
        ensures within { IfOk result (λ done. MatchBool done
            (length self.old.body.locals + count ≤ max_locals)
            (max_locals < length self.old.body.locals + count)) }
        ensures err { OnErr result (self.new ≡ self.old) }
    {
        if !self.locals.may_define(count as usize) {
            return Ok(false);
        }
        self.inits.reserve(count as usize)?;
        self.locals.define(count, ty)?;
        self.inits.define_locals(count, ty).unwrap();
        Ok(true)
    }

    /// Whether the local at this index isn't set (wasmparser's `is_uninit`).
    #[inline(always)]
    pub fn is_uninit(&self, local_index: u32) -> bool
        requires { local_index < length self.now.body.locals }
        ensures { result ≡ not (is_local_set self.now.body.set_at_entry (locals_set
            self.now.body.present.frames) local_index) }
    {
        // The proof takes the invariant of the stacks from this read.
        let _frames = self.control.len();
        self.inits.is_uninit(local_index)
    }

    /// How many operands there are, in all frames.
    #[inline(always)]
    pub fn operand_stack_height(&self) -> usize
        ensures { result ≡ operand_count self.now.body.present }
    {
        self.operands.len()
    }

    /// How many frames are open.
    #[inline(always)]
    pub fn control_stack_height(&self) -> usize
        ensures { result ≡ frame_count self.now.body.present }
    {
        self.control.len()
    }

    /// The type of the operand at this depth, the top at 0: None past the end, and `Some(None)` for
    /// an operand whose type isn't known.
    pub fn peek_operand_at(&self, depth: usize) -> Option<Option<ValType>>
        ensures { result ≡ type_at_depth self.now.body depth }
    {
        let operand = self.operands.get(depth)?;
        Some(known_type(operand.ty()))
    }

    /// The frame at this depth, the innermost at 0, or None past the end.
    #[inline(always)]
    pub fn get_frame(&self, depth: usize) -> Option<&Frame>
        ensures { option_copied result ≡ frame_at self.now.body depth }
    {
        // The proof takes the invariant of the stacks from this read.
        let _height = self.operands.len();
        self.control.get(depth)
    }

    /// The block type and the kind of the frame at this depth, the innermost at 0, or None past the end.
    pub fn jump(&self, depth: u32) -> Option<(BlockType, FrameKind)>
        ensures { result ≡ label_at self.now.body depth }
    {
        let frame = self.get_frame(depth as usize)?;
        Some((frame.block_type, frame.kind))
    }

    /// Pushes an operand onto the innermost frame. Want of memory changes nothing.
    #[inline(always)]
    pub fn push_operand<A: Refused>(&mut self, ty: Operand) -> Result<(), A>
        ensures exact { MatchResult result (λ _. self.new.body ≡ body_pushed ty self.old.body)
            (λ _. self.new ≡ self.old) }
        ensures told { IfErr result (λ e. A.tells e → ⊥) }
        ensures phase { phase_moved self.new.phase ≡ phase_moved self.old.phase }
    {
        prepare_push(&mut self.operands, &mut self.transaction)?;
        self.operands.put(ty);
        Ok(())
    }

    /// The fast lane of [`Stacks::push_operand`]: pushes an operand onto the innermost frame, where there is
    /// room and no attempt is pending. False, with nothing changed, where that isn't so. It takes no memory.
    #[inline(always)]
    pub fn push_at_once(&mut self, ty: Operand) -> bool
        ensures exact { MatchBool result (self.new.body ≡ body_pushed ty self.old.body) (self.new ≡ self.old) }
        ensures phase { phase_moved self.new.phase ≡ phase_moved self.old.phase }
    {
        if self.transaction.is_active() || !self.operands.has_room() {
            return false;
        }
        self.operands.put(ty);
        true
    }

    /// The fast lane of [`Stacks::replace_any`] for one operand: puts one in the place of the top own one of
    /// the innermost frame, while no attempt is pending. It takes no memory.
    #[inline(always)]
    pub(crate) fn replace_operand(&mut self, ty: Operand)
        requires idle { self.old.body.undone ≡ None }
        requires own { innermost_operands self.old.body.present.frames ≢ [] }
        ensures replaced { self.new.body ≡ body_pushed ty (body_popped self.old.body) }
        ensures phase { phase_moved self.new.phase ≡ phase_moved self.old.phase }
    {
        self.operands.replace_top(ty);
    }

    /// The fast lane of [`Stacks::exchange_any`] where none comes: takes so many own operands of the
    /// innermost frame, which has as many at least, while no attempt is pending. It takes no memory.
    #[inline(always)]
    pub(crate) fn drop_operands(&mut self, count: usize)
        requires idle { self.old.body.undone ≡ None }
        requires own { count ≤ length (innermost_operands self.old.body.present.frames) }
        ensures dropped { self.new.body ≡ body_dropped count self.old.body }
        ensures phase { phase_moved self.new.phase ≡ phase_moved self.old.phase }
    {
        let all = self.operands.len();
        self.operands.truncate(all - count);
    }

    /// The fast lane of [`Stacks::open_any`] over no operands: opens a frame with no operands of its own,
    /// where there is room and no attempt is pending. False, with nothing changed, where that isn't so. It
    /// takes no memory.
    #[inline(always)]
    pub fn open_at_once(&mut self, kind: FrameKind, block_type: BlockType) -> bool
        ensures { MatchBool result (self.new.body ≡ body_with_frame kind block_type self.old.body)
            (self.new ≡ self.old) }
    {
        if self.transaction.is_active() || !self.control.has_room() {
            return false;
        }
        let height = self.operands.len();
        let init_height = self.inits.height();
        self.control
            .put(live_frame(kind, block_type, height, init_height));
        true
    }

    /// The fast lane of [`Stacks::open_any`] over operands that stay as they are: opens a frame that takes
    /// over so many own operands of the innermost frame, where there is room and no attempt is pending.
    /// False, with nothing changed, where that isn't so. It takes no memory.
    #[inline(always)]
    pub(crate) fn open_over_own(
        &mut self,
        kind: FrameKind,
        block_type: BlockType,
        count: usize,
    ) -> bool
        requires { count ≤ length (innermost_operands self.old.body.present.frames) }
        ensures { MatchBool result (self.new.body ≡ body_with_frame_over count kind block_type self.old.body)
            (self.new ≡ self.old) }
    {
        if self.transaction.is_active() || !self.control.has_room() {
            return false;
        }
        let height = self.operands.len() - count;
        let init_height = self.inits.height();
        self.control
            .put(live_frame(kind, block_type, height, init_height));
        true
    }

    /// The fast lane of [`Stacks::open_any`] over one operand, which goes: takes the top own operand of the
    /// innermost frame, and opens a frame as [`Stacks::open_at_once`] does.
    #[inline(always)]
    pub(crate) fn open_over_top(&mut self, kind: FrameKind, block_type: BlockType) -> bool
        requires { innermost_operands self.old.body.present.frames ≢ [] }
        ensures { MatchBool result
            (self.new.body ≡ body_with_frame kind block_type (body_popped self.old.body))
            (self.new ≡ self.old) }
    {
        if self.transaction.is_active() || !self.control.has_room() {
            return false;
        }
        let _top = self.operands.pop();
        let height = self.operands.len();
        let init_height = self.inits.height();
        self.control
            .put(live_frame(kind, block_type, height, init_height));
        true
    }

    /// The fast lane of [`Stacks::reopen_any`] over no operands: opens a frame in the place of the innermost
    /// one, which has no operands of its own, while no attempt is pending. The locals that were first set in
    /// that aren't set any more. It takes no memory.
    #[inline(always)]
    pub(crate) fn reopen(&mut self, kind: FrameKind, block_type: BlockType)
        requires idle { self.old.body.undone ≡ None }
        requires open { self.old.body.present.frames ≢ [] }
        requires own { innermost_operands self.old.body.present.frames ≡ [] }
        ensures { self.new.body ≡ body_with_frame kind block_type (body_without_frame self.old.body) }
    {
        let Some(innermost) = self.control.get(0) else {
            unreachable!()
        };
        let closed = innermost.init_height;
        // The proof takes from this read that there is room.
        let _count = self.control.len();
        let _ = self.control.pop();
        self.inits.drop_ctrl(closed);
        let height = self.operands.len();
        let init_height = self.inits.height();
        self.control
            .put(live_frame(kind, block_type, height, init_height));
    }

    /// The fast lane of [`Stacks::close_any`] over operands that stay as they are: closes the innermost
    /// frame, whose own operands pass to the next outer one, while no attempt is pending. It takes no memory.
    #[inline(always)]
    pub(crate) fn close_over_operands(&mut self)
        requires { self.old.body.undone ≡ None }
        ensures { self.new.body ≡ body_given self.old.body }
    {
        let Some(innermost) = self.control.get(0) else {
            return;
        };
        let first_set_from = innermost.init_height;
        let _ = self.control.pop();
        self.inits.drop_ctrl(first_set_from);
    }

    /// What a pop would find below so many others, in the innermost frame.
    #[inline(always)]
    pub fn type_found(&self, depth: usize) -> Option<MaybeType>
        ensures { result ≡ found_after_pops_in_body depth self.now.body }
    {
        let operand = self.operand_found(depth)?;
        Some(operand.ty())
    }

    /// The same in eight bytes.
    #[inline(always)]
    pub(crate) fn operand_found(&self, depth: usize) -> Option<Operand>
        ensures { result ≡ found_after_pops_in_body depth self.now.body }
    {
        let frame = self.control.get(0)?;
        if depth < self.operands.len() - frame.height {
            return self.operands.get(depth).copied();
        }
        if frame.unreachable {
            Some(Operand::of(MaybeType::Bottom))
        } else {
            None
        }
    }

    /// The fast lane of [`Stacks::operand_found`] for an own operand: that of the innermost frame at this
    /// depth, the top at 0, where it has so many.
    #[inline(always)]
    pub(crate) fn own_operand(&self, depth: usize) -> Option<&Operand>
        requires { depth < length (innermost_operands self.now.body.present.frames) }
        ensures { option_copied result ≡ found_after_pops_in_body depth self.now.body }
    {
        // The proof takes the invariant of the stacks from this read.
        let _frames = self.control.len();
        self.operands.get(depth)
    }

    /// So many own operands of the innermost frame, which has them, the top last.
    #[inline(always)]
    pub(crate) fn top_operands(&self, count: usize) -> &[Operand]
        requires { count ≤ length (innermost_operands self.now.body.present.frames) }
        ensures { result.now ≡ reverse (take count (innermost_operands self.now.body.present.frames)) }
    {
        // The proof takes the invariant of the stacks from this read.
        let _frames = self.control.len();
        self.operands.newest(count)
    }

    /// The fast lane of [`Stacks::operand_found`] where it is known how many own operands there are: what a pop
    /// would find below so many others, where the innermost frame has so many own operands.
    #[inline(always)]
    pub(crate) fn operand_found_of(&self, own: usize, depth: usize) -> Option<Operand>
        requires { own ≡ length (innermost_operands self.now.body.present.frames) }
        ensures { result ≡ found_after_pops_in_body depth self.now.body }
    {
        if depth < own {
            return self.own_operand(depth).copied();
        }
        self.operand_found(depth)
    }

    /// Marks the innermost frame as dead.
    pub(crate) fn mark(&mut self)
        ensures { self.new.body ≡ body_marked self.old.body }
    {
        let Some(innermost) = self.control.get(0) else {
            return;
        };
        if innermost.unreachable {
            return;
        }
        let dead = Frame {
            unreachable: true,
            ..*innermost
        };
        self.transaction.set_unreachable();
        self.control.replace_top(dead);
    }

    /// The fast lane of [`Stacks::own_operand_count`] against a count: whether the innermost frame has so many own
    /// operands at least.
    #[inline(always)]
    pub(crate) fn has_own(&self, count: usize) -> bool
        ensures { result ≡ true → count ≤ length (innermost_operands self.now.body.present.frames) }
    {
        if count == 0 {
            return true;
        }
        let all = self.operands.len();
        count <= all && self.control.innermost_height() <= all - count
    }

    /// How many own operands the innermost frame has.
    #[inline(always)]
    pub fn own_operand_count(&self) -> usize
        ensures { result ≡ length (innermost_operands self.now.body.present.frames) }
    {
        let height = self.control.innermost_height();
        self.operands.len().saturating_sub(height)
    }

    /// Opens a frame with no operands of its own. Want of memory changes nothing.
    #[inline(always)]
    pub fn push_bare_ctrl(
        &mut self,
        kind: FrameKind,
        block_type: BlockType,
    ) -> Result<(), OutOfMemory>
        requires { may_frame self.old ≡ true }
        ensures exact { MatchResult result (λ _. self.new.body
            ≡ body_with_frame kind block_type self.old.body) (λ _. self.new ≡ self.old) }
        ensures frames { may_frame self.new ≡ true }
    {
        self.control.take_room()?;
        self.transaction.push_ctrl()?;
        let height = self.operands.len();
        let init_height = self.inits.height();
        self.control
            .put(live_frame(kind, block_type, height, init_height));
        Ok(())
    }

    /// Whether an attempt is pending.
    pub fn is_pending(&self) -> bool
        ensures { result ≡ is_some self.now.body.undone }
    {
        self.transaction.is_active()
    }

    /// Whether an operator may be visited: no attempt is pending, or the pending one has nothing to undo.
    pub fn can_attempt(&self) -> bool
        ensures answer { result ≡ may_attempt self.now }
        ensures unchanged { result ≡ true → ForSome self.now.body.undone (λ s. s ≡ self.now.body.present) }
    {
        !self.transaction.has_changes(self.inits.height())
    }

    /// Begins an attempt. It takes no memory.
    pub fn begin_try_op(&mut self)
        requires { self.old.body.undone ≡ None }
        ensures { self.new ≡ stacks_begun self.old }
    {
        let height = self.inits.height();
        self.transaction.begin(height);
    }

    /// Ends the attempt, and keeps what it did. It takes no memory.
    pub fn commit(&mut self)
        requires { IsSome self.old.body.undone }
        ensures { self.new ≡ stacks_committed self.old }
    {
        self.transaction.end();
    }

    /// Takes the attempt back. It takes no memory.
    pub fn rollback(&mut self)
        requires { IsSome self.old.body.undone }
        ensures { self.new ≡ stacks_rolled_back self.old }
    {
        let mut log = self.transaction.take();
        unmark(&mut self.control, log.unreachable);
        take_back(&mut self.operands, &mut log.operands);
        take_back_frames(&mut self.control, &mut self.inits, &mut log.frames);
        self.inits.put_back(&log.inits);
        self.inits.drop_ctrl(log.init_height);
        self.transaction.keep(log);
    }
}

/// Room for one more operand, and its entry in the log of an attempt, if one is pending. Want of memory changes nothing
/// but room.
#[inline(always)]
pub(crate) fn prepare_push<A: Refused>(
    operands: &mut Pile<Operand>,
    transaction: &mut Transaction,
) -> Result<(), A>
    ensures items { operands.new.items ≡ operands.old.items }
    ensures never_less { operands.old.room ≤ operands.new.room }
    ensures room { OnOk result (length operands.new.items < operands.new.room) }
    ensures told { IfErr result (λ e. A.tells e → ⊥) }
    ensures recorded { MatchResult result (λ _. transaction.new ≡ with_push transaction.old)
        (λ _. transaction.new ≡ transaction.old) }
{
    if !transaction.is_active() && operands.has_room() {
        return Ok(());
    }
    if !A::may_allocate() {
        return Err(A::of(Refusal::OutOfMemory));
    }
    grown(grow_for_push(operands, transaction))
}

/// [`prepare_push`], where a log or memory is wanted.
#[cold]
#[inline(never)]
fn grow_for_push(
    operands: &mut Pile<Operand>,
    transaction: &mut Transaction,
) -> Result<(), OutOfMemory>
    ensures items { operands.new.items ≡ operands.old.items }
    ensures never_less { operands.old.room ≤ operands.new.room }
    ensures room { OnOk result (length operands.new.items < operands.new.room) }
    ensures recorded { MatchResult result (λ _. transaction.new ≡ with_push transaction.old)
        (λ _. transaction.new ≡ transaction.old) }
{
    operands.take_room()?;
    transaction.record_push()
}

/// A live frame, over so many operands and locals that were set.
#[inline(always)]
pub(crate) fn live_frame(
    kind: FrameKind,
    block_type: BlockType,
    height: usize,
    init_height: usize,
) -> Frame
    ensures { result ≡ record { kind = kind; block_type = block_type; height = height; unreachable = false; init_height = init_height } }
{
    Frame {
        kind,
        block_type,
        height,
        unreachable: false,
        init_height,
    }
}

/// Takes the mark of the innermost frame away, where it was made.
fn unmark(control: &mut ControlStack, marked: bool)
    ensures items { control.new.items ≡ frames_unmarked marked control.old.items }
    ensures room { control.new.room ≡ control.old.room }
{
    if marked && let Some(frame) = control.get(0) {
        let live = Frame {
            unreachable: false,
            ..*frame
        };
        control.replace_top(live);
    }
}

/// Takes back the frames that the trace recorded, and the initialisations of each that goes.
fn take_back_frames(
    control: &mut ControlStack,
    inits: &mut LocalInits,
    trace: &mut Pile<Option<Frame>>,
)
    requires { CanTakeBack control.old.room control.old.items trace.old.items }
    ensures frames { control.new.items ≡ items_taken_back control.old.items trace.old.items }
    ensures order { inits.new.order ≡ inits_in_frames control.old.items inits.old.order trace.old.items }
    ensures set_at_entry { inits.new.set_at_entry ≡ inits.old.set_at_entry }
    ensures room { control.old.room ≤ control.new.room }
    ensures inits_room { inits.new.room ≡ inits.old.room }
{
    while let Some(entry) = trace.pop() {
        match entry {
            Some(frame) => control.put(frame),
            None => {
                if let Some(frame) = control.pop() {
                    inits.drop_ctrl(frame.init_height);
                }
            }
        }
    }
}

/// The type of an operand, where it is known.
fn known_type(ty: MaybeType) -> Option<ValType>
    ensures { result ≡ known_type ty }
{
    match ty {
        MaybeType::Known(ty) => Some(ty),
        MaybeType::Bottom | MaybeType::UnknownRef(_) => None,
    }
}
