//! The validator's state: how it is made, what is declared in it, and what can be asked of it.

ghost use Rattle.std.specs.Prelude.{◌≤◌, ◌≡◌, ◌⊎◌, ◌<◌, true, false, None, Some, length, is_some, IsSome, IfOk, OnOk, OnErr, IfErr};
ghost use Rattle.std.specs.Option.{option_copied, ForSome};
ghost use Rattle.validation_rules.specs.Static.{operand_count, frame_count};
ghost use Rattle.validate_locals.specs.Limit.{max_locals};
ghost use Rattle.validate_stacks.specs.AtOnce.{MeetsOrUnchanged};
ghost use Rattle.validate_stacks.specs.Attempts.{may_attempt, may_frame, stacks_begun, stacks_committed, stacks_rolled_back};
ghost use Rattle.validate_stacks.specs.Pops.{IsKept};
ghost use Rattle.validate_stacks.specs.State.{IsStarting, IsValidBody, IsUndoneValid};
ghost use Rattle.validate_stacks.specs.Visits.{MayVisit, Meets};
ghost use Rattle.validate_operators.specs.Memory.{TakesNoMemory};
ghost use Rattle.validate_visit.specs.declared.frame.FrameKind.TheVariants.{Block};
ghost use Rattle.validate_visit.specs.declared.op.Op.{Op};
ghost use Rattle.validation_rules.specs.Operators.{operator};
ghost use Rattle.validate_resources.specs.Context.{ModuleContext, Valid, signature_at};
ghost use Rattle.validate_stacks.specs.Steps.{body_with_frame, empty_body, type_at_depth, frame_at, label_at};
ghost use Rattle.validate_operators.specs.Start.{func_start, const_start, IsFuncStart, HasTooManyParams, DefinesLocals, CannotDefine};
ghost use Rattle.validate_operators.specs.Validator.{state, stacks_of};

use crate::operator::{check_operator, memory_at_once, operator_at_once, try_operator};
use validate_locals::Locals;
use validate_resources::WasmModuleResources;
use validate_resources::kinds::{expected_func_type, func_type_of};
use validate_stacks::{OperatorValidatorAllocations, Stacks};
use validate_types::{Error, FuncType, ValType, WasmFeatures};
use validate_visit::{BlockType, Frame, FrameKind, MemoryOp, Op};

/// The validator of a body (wasmparser's `OperatorValidator`). Contracts see what it stands for by
/// `state` of `specs/`.
#[derive(Drop)]
pub struct OperatorValidator {
    /// The operands, the frames, the locals and the pending attempt.
    pub(crate) stacks: Stacks,
}

impl OperatorValidator {
    /// A validator without a body, in these buffers: no frame is open, and no local is declared. `start_func`,
    /// `start_const_expr` or `start_body` begins a body. It takes no memory.
    pub fn new(features: &WasmFeatures, allocs: OperatorValidatorAllocations) -> OperatorValidator
        ensures { state result ≡ empty_body features.now }
    {
        OperatorValidator {
            stacks: Stacks::new(*features, allocs),
        }
    }

    /// A validator of the body of a function, as [`OperatorValidator::start_func`] begins it. A refusal gives up the
    /// buffers.
    pub fn new_func<R: WasmModuleResources>(
        ty: u32,
        offset: u64,
        features: &WasmFeatures,
        resources: &R,
        allocs: OperatorValidatorAllocations,
    ) -> Result<OperatorValidator, Error>
        ensures made { IfOk result (λ v. IsFuncStart (R.context resources.now) features.now ty (state v)) }
        ensures starting { IfOk result (λ v. IsStarting (R.context resources.now) (state v)) }
        ensures refused { IfErr result (λ e. e.wants_memory ≡ false
            → (signature_at (R.context resources.now) ty ≡ None)
            ⊎ HasTooManyParams (R.context resources.now) ty) }
        ensures offset { IfErr result (λ e. e.offset ≡ offset) }
    {
        let mut v = OperatorValidator::new(features, allocs);
        v.start_func(ty, offset, features, resources)?;
        Ok(v)
    }

    /// Begins the body of a function whose type is the one at index `ty`, in the buffers of the body before: one frame of
    /// that type is open, and the parameters are locals that are set. It refuses, at the offset handed in:
    /// `unknown type: type index out of bounds`, `expected func type at index N, found K` for a type of
    /// another kind K, `too many locals: locals exceed maximum` for more than 50,000 parameters, or want
    /// of memory. An attempt that is pending is given up. A refusal leaves no body, as [`OperatorValidator::new`] does.
    pub fn start_func<R: WasmModuleResources>(
        &mut self,
        ty: u32,
        offset: u64,
        features: &WasmFeatures,
        resources: &R,
    ) -> Result<(), Error>
        ensures made { OnOk result (IsFuncStart (R.context resources.now) features.now ty (state self.new)) }
        ensures starting { OnOk result (IsStarting (R.context resources.now) (state self.new)) }
        ensures refused { IfErr result (λ e. e.wants_memory ≡ false
            → (signature_at (R.context resources.now) ty ≡ None)
            ⊎ HasTooManyParams (R.context resources.now) ty) }
        ensures left { OnErr result (state self.new ≡ empty_body features.now) }
        ensures offset { IfErr result (λ e. e.offset ≡ offset) }
    {
        self.stacks.restart(*features);
        let Some(sub_type) = resources.sub_type_at(ty) else {
            return Err(Error::new("unknown type: type index out of bounds", offset));
        };
        let Some(func_type) = func_type_of(sub_type) else {
            let alloc = self.stacks.allocator();
            return Err(expected_func_type(alloc, offset, ty, sub_type));
        };
        let shared = sub_type.composite_type.shared;
        start(&mut self.stacks, ty, func_type, shared, offset, *features)
    }

    /// A validator of a constant expression: one frame that gives a value of this type is open, and
    /// there are no locals. The type has to be valid and canonical in the lookup of the later visits.
    /// It fails only if memory ran out, at offset 0; then the buffers are gone. Whether the expression is constant
    /// isn't looked at: any operator may be visited.
    pub fn new_const_expr(
        features: &WasmFeatures,
        ty: ValType,
        allocs: OperatorValidatorAllocations,
    ) -> Result<OperatorValidator, Error>
        ensures made { IfOk result (λ v. state v ≡ const_start features.now ty) }
        ensures starting { IfOk result (λ v. (md : ModuleContext) → Valid md ty → IsStarting md (state v)) }
        ensures memory { IfErr result (λ e. e.wants_memory ≡ true) }
        ensures offset { IfErr result (λ e. e.offset ≡ 0) }
    {
        let mut v = OperatorValidator::new(features, allocs);
        v.start_const_expr(features, ty)?;
        Ok(v)
    }

    /// Begins a constant expression of this type, as [`OperatorValidator::new_const_expr`] does, in the buffers of the body
    /// before. An attempt that is pending is given up. If there is no memory, no body is left, as
    /// [`OperatorValidator::new`] makes it.
    pub fn start_const_expr(&mut self, features: &WasmFeatures, ty: ValType) -> Result<(), Error>
        ensures made { OnOk result (state self.new ≡ const_start features.now ty) }
        ensures starting { OnOk result ((md : ModuleContext) → Valid md ty → IsStarting md (state self.new)) }
        ensures memory { IfErr result (λ e. e.wants_memory ≡ true) }
        ensures left { OnErr result (state self.new ≡ empty_body features.now) }
        ensures offset { IfErr result (λ e. e.offset ≡ 0) }
    {
        self.stacks.restart(*features);
        open_outermost(&mut self.stacks, BlockType::Val(ty), 0)
    }

    /// Declares `count` more locals of this type, which is checked even for a count of 0. It refuses a type that the
    /// lookup refuses, and more than 50,000 locals in all: `too many locals: locals exceed maximum`. Or memory ran
    /// out. Each error carries this offset, and leaves the locals as they were.
    ///
    /// Condition: the validator is in a starting state for this lookup, so no operator was visited.
    pub fn define_locals<R: WasmModuleResources>(
        &mut self,
        offset: u64,
        count: u32,
        ty: ValType,
        resources: &R,
    ) -> Result<(), Error>
        requires { IsStarting (R.context resources.now) (state self.old) }
        ensures defined { OnOk result (DefinesLocals (R.context resources.now) count ty (state self.old)
            (state self.new)) }
        ensures refused { IfErr result (λ e. e.wants_memory ≡ false
            → CannotDefine (R.context resources.now) count ty (state self.old)) }
        ensures err { OnErr result (state self.new ≡ state self.old) }
        ensures starting { IsStarting (R.context resources.now) (state self.new) }
        ensures offset { IfErr result (λ e. e.offset ≡ offset) }
    {
        let features = self.stacks.features();
        let mut canonical = ty;
        resources.check_value_type(&mut canonical, &features, offset)?;
        match self.stacks.define_locals(count, canonical) {
            Ok(true) => Ok(()),
            Ok(false) => Err(Error::new("too many locals: locals exceed maximum", offset)),
            Err(_) => Err(Error::out_of_memory(offset)),
        }
    }

    /// Checks one operator. Memory aside, it is accepted exactly if its row holds; then the new state is its static
    /// step. An error carries this offset. Whatever it answers, the types stay valid, and nothing but operands and
    /// frames changes.
    ///
    /// Conditions: a frame is open; the types of the state are those of this lookup; no attempt is pending, or the
    /// pending one has only moved operands. The last holds if `can_attempt` answers true.
    #[inline(always)]
    pub fn check<R: WasmModuleResources>(
        &mut self,
        resources: &R,
        offset: u64,
        op: Op,
    ) -> Result<(), Error>
        requires { MayVisit (R.context resources.now) (stacks_of self.old) }
        ensures row { Meets (R.context resources.now) (λ cx. operator cx op.entry) offset
            (state self.old) result (state self.new) }
        ensures memory { TakesNoMemory (R.context resources.now) op.entry (state self.old) result }
        ensures valid { IsValidBody (R.context resources.now) (state self.new) }
        ensures kept { IsKept (state self.old) (state self.new) }
    {
        self.check_ref(resources, offset, &op)
    }

    /// [`OperatorValidator::check`] of an operator that isn't copied.
    #[inline(always)]
    pub fn check_ref<R: WasmModuleResources>(
        &mut self,
        resources: &R,
        offset: u64,
        op: &Op,
    ) -> Result<(), Error>
        requires { MayVisit (R.context resources.now) (stacks_of self.old) }
        ensures row { Meets (R.context resources.now) (λ cx. operator cx op.now) offset
            (state self.old) result (state self.new) }
        ensures memory { TakesNoMemory (R.context resources.now) op.now (state self.old) result }
        ensures valid { IsValidBody (R.context resources.now) (state self.new) }
        ensures kept { IsKept (state self.old) (state self.new) }
    {
        if self.passes_at_once(resources, op) {
            return Ok(());
        }
        self.check_slowly(resources, offset, op)
    }

    /// The second half of [`OperatorValidator::check`], for an operator for which [`OperatorValidator::passes_at_once`]
    /// answered false. It may ask for memory, and a refusal says why.
    #[inline(always)]
    pub fn check_slowly<R: WasmModuleResources>(
        &mut self,
        resources: &R,
        offset: u64,
        op: &Op,
    ) -> Result<(), Error>
        requires { MayVisit (R.context resources.now) (stacks_of self.old) }
        ensures row { Meets (R.context resources.now) (λ cx. operator cx op.now) offset
            (state self.old) result (state self.new) }
        ensures memory { TakesNoMemory (R.context resources.now) op.now (state self.old) result }
        ensures valid { IsValidBody (R.context resources.now) (state self.new) }
        ensures kept { IsKept (state self.old) (state self.new) }
    {
        // Of an accepted operator the tag alone is written, where an answer that is handed on is copied whole.
        match check_operator(&mut self.stacks, resources, offset, op) {
            Ok(()) => Ok(()),
            Err(refusal) => Err(refusal),
        }
    }

    /// The first half of [`OperatorValidator::check`], by which most operators pass. True: the operator is accepted,
    /// with its static step. False: nothing has changed, and [`OperatorValidator::check_slowly`] says whether it is
    /// accepted.
    #[inline(always)]
    pub fn passes_at_once<R: WasmModuleResources>(&mut self, resources: &R, op: &Op) -> bool
        requires { MayVisit (R.context resources.now) (stacks_of self.old) }
        ensures { MeetsOrUnchanged (R.context resources.now) (λ cx. operator cx op.now) (stacks_of self.old)
            result (stacks_of self.new) }
    {
        operator_at_once(&mut self.stacks, resources, op)
    }

    /// [`OperatorValidator::passes_at_once`] of an operator on memories: for readers whose bytes tell that it is one, since
    /// its body isn't called.
    #[inline(always)]
    pub fn memory_passes_at_once<R: WasmModuleResources>(
        &mut self,
        resources: &R,
        op: &MemoryOp,
    ) -> bool
        requires { MayVisit (R.context resources.now) (stacks_of self.old) }
        ensures { MeetsOrUnchanged (R.context resources.now) (λ cx. operator cx (Op.Memory op.now))
            (stacks_of self.old) result (stacks_of self.new) }
    {
        memory_at_once(&mut self.stacks, resources, op)
    }

    /// [`OperatorValidator::check_slowly`], which leaves nothing where it refuses.
    #[cold]
    #[inline(never)]
    pub(crate) fn try_slowly<R: WasmModuleResources>(
        &mut self,
        resources: &R,
        offset: u64,
        op: &Op,
    ) -> Result<(), Error>
        requires { MayVisit (R.context resources.now) (stacks_of self.old) }
        ensures row { Meets (R.context resources.now) (λ cx. operator cx op.now) offset
            (state self.old) result (state self.new) }
        ensures back { OnErr result (state self.new ≡ state self.old) }
    {
        try_operator(&mut self.stacks, resources, offset, op)
    }

    /// Whether an attempt is pending.
    pub fn is_pending(&self) -> bool
        ensures { result ≡ is_some (state self.now).undone }
    {
        self.stacks.is_pending()
    }

    /// Whether an operator may be visited: no attempt is pending, or the pending one has nothing to
    /// undo, so that taking it back comes to this very state.
    pub fn can_attempt(&self) -> bool
        ensures answer { result ≡ may_attempt (stacks_of self.now) }
        ensures unchanged { result ≡ true → ForSome (state self.now).undone
            (λ s. s ≡ (state self.now).present) }
    {
        self.stacks.can_attempt()
    }

    /// Begins an attempt, which `commit` or `rollback` ends. It takes no memory. Condition: no attempt is pending.
    pub fn begin_try_op(&mut self)
        requires { (state self.old).undone ≡ None }
        ensures begun { stacks_of self.new ≡ stacks_begun (stacks_of self.old) }
        ensures valid { (md : ModuleContext) → IsValidBody md (state self.old)
            → IsUndoneValid md (state self.new) }
    {
        self.stacks.begin_try_op();
    }

    /// Ends the attempt, and keeps what it did. It takes no memory. Condition: an attempt is pending.
    pub fn commit(&mut self)
        requires { IsSome (state self.old).undone }
        ensures { stacks_of self.new ≡ stacks_committed (stacks_of self.old) }
    {
        self.stacks.commit();
    }

    /// Ends the attempt, and takes back what it did. It takes no memory. Condition: an attempt is pending.
    pub fn rollback(&mut self)
        requires { IsSome (state self.old).undone }
        ensures back { stacks_of self.new ≡ stacks_rolled_back (stacks_of self.old) }
        ensures valid { (md : ModuleContext) → IsUndoneValid md (state self.old)
            → IsValidBody md (state self.new) }
    {
        self.stacks.rollback();
    }

    /// How many operands there are, in all frames.
    pub fn operand_stack_height(&self) -> usize
        ensures { result ≡ operand_count (state self.now).present }
    {
        self.stacks.operand_stack_height()
    }

    /// How many frames are open.
    pub fn control_stack_height(&self) -> usize
        ensures { result ≡ frame_count (state self.now).present }
    {
        self.stacks.control_stack_height()
    }

    /// The type of the operand at this depth, the top at 0: None past the end, and `Some(None)` for
    /// an operand whose type isn't known.
    pub fn peek_operand_at(&self, depth: usize) -> Option<Option<ValType>>
        ensures { result ≡ type_at_depth (state self.now) depth }
    {
        self.stacks.peek_operand_at(depth)
    }

    /// The frame at this depth, the innermost at 0, or None past the end.
    pub fn get_frame(&self, depth: usize) -> Option<&Frame>
        ensures { option_copied result ≡ frame_at (state self.now) depth }
    {
        self.stacks.get_frame(depth)
    }

    /// The block type and the kind of the frame that a branch of this depth names, the innermost at 0,
    /// or None past the end.
    pub fn jump(&self, depth: u32) -> Option<(BlockType, FrameKind)>
        ensures { result ≡ label_at (state self.now) depth }
    {
        self.stacks.jump(depth)
    }

    /// The declared locals.
    pub fn locals(&self) -> &Locals
        ensures { result.now ≡ (state self.now).locals }
    {
        self.stacks.locals()
    }

    /// The proposals that are on.
    pub fn features(&self) -> WasmFeatures
        ensures { result ≡ (state self.now).features }
    {
        self.stacks.features()
    }

    /// The buffers, emptied, for the next validator. It takes no memory.
    pub fn into_allocations(self) -> OperatorValidatorAllocations {
        self.stacks.into_allocations()
    }
}

/// Begins the body of a function of this type, which stands at this index, where there is no body yet.
fn start(
    stacks: &mut Stacks,
    ty: u32,
    func_type: &FuncType,
    shared: bool,
    offset: u64,
    features: WasmFeatures,
) -> Result<(), Error>
    requires { stacks.old.body ≡ empty_body features }
    ensures made { OnOk result (stacks.new.body ≡ func_start features ty shared func_type.now) }
    ensures within_limit { OnOk result (length func_type.now.params ≤ max_locals) }
    ensures refused { IfErr result (λ e. e.wants_memory ≡ false
        → max_locals < length func_type.now.params) }
    ensures left { OnErr result (stacks.new.body ≡ empty_body features) }
    ensures offset { IfErr result (λ e. e.offset ≡ offset) }
{
    match stacks.define_params(func_type.params()) {
        Ok(true) => {}
        Ok(false) => {
            return Err(Error::new("too many locals: locals exceed maximum", offset));
        }
        Err(_) => return Err(Error::out_of_memory(offset)),
    }
    stacks.set_shared(shared);
    let opened = open_outermost(stacks, BlockType::FuncType(ty), offset);
    if opened.is_err() {
        stacks.restart(features);
    }
    opened
}

/// Opens the outermost frame of a body, with this block type.
fn open_outermost(stacks: &mut Stacks, block_type: BlockType, offset: u64) -> Result<(), Error>
    requires { may_frame stacks.old ≡ true }
    ensures opened { OnOk result (stacks.new.body ≡ body_with_frame Block block_type stacks.old.body) }
    ensures memory { IfErr result (λ e. e.wants_memory ≡ true) }
    ensures left { OnErr result (stacks.new ≡ stacks.old) }
    ensures offset { IfErr result (λ e. e.offset ≡ offset) }
{
    match stacks.push_bare_ctrl(FrameKind::Block, block_type) {
        Ok(()) => Ok(()),
        Err(_) => Err(Error::out_of_memory(offset)),
    }
}
