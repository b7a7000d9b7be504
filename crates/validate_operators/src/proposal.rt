//! A validator that is about to visit an operator.

ghost use Rattle.std.specs.Prelude.{◌≡◌, ◌+◌, ◌^◌, ◌<◌, ◌≤◌, false, None, Some, OnOk, OnErr, IfErr, replicate};
ghost use Rattle.validate_resources.specs.Context.{Valid};
ghost use Rattle.validate_visit.specs.declared.op.Op.{Op};
ghost use Rattle.validation_rules.specs.Static.{frame_count};
ghost use Rattle.validation_rules.specs.Operators.{operator};
ghost use Rattle.validate_stacks.specs.Counted.{pops_of_run};
ghost use Rattle.validate_stacks.specs.Pops.{body_popped_each, IsKept};
ghost use Rattle.validate_stacks.specs.State.{IsValidBody};
ghost use Rattle.validate_stacks.specs.Steps.{label_at};
ghost use Rattle.validate_stacks.specs.Visits.{MayVisit, Meets};
ghost use Rattle.validate_operators.specs.Memory.{TakesNoMemory};
ghost use Rattle.validate_operators.specs.Validator.{state, current_kind, stacks_of};

use crate::validator::OperatorValidator;
use validate_resources::WasmModuleResources;
use validate_resources::kinds::func_type_of;
use validate_stacks::{OperatorContext, Pops};
use validate_types::{ContType, Error, FuncType, RefType, SubType, Told, ValType};
use validate_visit::{
    ArrayOp, AtomicOp, BlockType, ContinuationOp, ControlOp, ConvertOp, ExceptionOp, FrameKind,
    FrameStack, MemoryOp, ModuleArity, NumericOp, Op, OperatorChecks, ReferenceOp, SharedOp,
    StructOp, TableOp,
};

/// A validator that is about to visit an operator, with the lookup and the operator's offset
/// (wasmparser's `WasmProposalValidator`).
///
/// Each check and each visit has three conditions:
/// - A frame is open: `control_stack_height()` isn't 0. After the outermost `end` there is nothing to visit.
/// - The lookup is the same for each visit, and the one with which the validator was made and its locals were
///   defined. A type that is valid in one lookup may mean nothing in another.
/// - No attempt is pending, or the pending one has only moved operands. This holds if `can_attempt()` answers true.
///   After an operator that did more, call `commit` or `rollback` first.
///
/// Nothing is asked of the operator. An `else`, `catch`, `catch_all` or `delegate` is refused where the
/// innermost frame isn't one that it can end; a reader of binary modules asks `current_frame()` before it, to
/// tell a malformed module from an invalid body. An index is refused that names nothing in the module, and so
/// is a type that isn't valid there. That the operators are well ordered is asked by `check_ops` alone, of its
/// list.
#[derive(Drop)]
pub struct WasmProposalValidator<'validator, 'resources, R> {
    /// The operator's offset, which a refusal carries.
    pub offset: u64,
    /// The validator.
    pub inner: &'validator mut OperatorValidator,
    /// The lookup.
    pub resources: &'resources R,
}

impl OperatorValidator {
    /// The validator, ready to visit the operator at this offset, which each refusal carries. It takes no memory, and
    /// has no condition. The visit has three: see [`WasmProposalValidator`].
    #[inline(always)]
    pub fn with_resources<'validator, 'resources, R: WasmModuleResources>(
        &'validator mut self,
        resources: &'resources R,
        offset: u64,
    ) -> WasmProposalValidator<'validator, 'resources, R>
        ensures same_reference { result.inner.ghost_name ≡ self.entry.ghost_name }
        ensures same_value { result.inner.now ≡ self.old }
        ensures offset { result.offset ≡ offset }
        ensures resources { result.resources.now ≡ resources.now }
    {
        WasmProposalValidator {
            offset,
            inner: self,
            resources,
        }
    }
}

impl<'validator, 'resources, R> FrameStack for WasmProposalValidator<'validator, 'resources, R> {
    ghost current = { λ v. current_kind (state v.inner.now) };

    fn current_frame(&self) -> Option<FrameKind> {
        let (_, kind) = self.inner.jump(0)?;
        Some(kind)
    }
}

impl<'validator, 'resources, R: WasmModuleResources> ModuleArity
    for WasmProposalValidator<'validator, 'resources, R> {
    ghost tag_at = { λ v. (R.context v.resources.now).tag_at };

    ghost type_index_of = { λ v. (R.context v.resources.now).type_index_of };

    ghost type_at = { λ v. (R.context v.resources.now).type_at };

    ghost type_of_id = { λ v. (R.context v.resources.now).type_of_id };

    ghost open_frames = { λ v. frame_count (state v.inner.now).present };

    ghost label_at = { λ v. label_at (state v.inner.now) };

    fn tag_type_arity(&self, tag_index: u32) -> Option<(u32, u32)> {
        let func_type = self.resources.tag_at(tag_index)?;
        let params = u32::try_from(func_type.params().len()).ok()?;
        let results = u32::try_from(func_type.results().len()).ok()?;
        Some((params, results))
    }

    fn type_index_of_function(&self, function_index: u32) -> Option<u32> {
        self.resources.type_index_of_function(function_index)
    }

    fn sub_type_at(&self, type_index: u32) -> Option<&SubType> {
        self.resources.sub_type_at(type_index)
    }

    fn func_type_of_cont_type(&self, cont_type: &ContType) -> Option<&FuncType> {
        let id = cont_type.0.unpack().as_core_type_id()?;
        func_type_of(self.resources.sub_type_at_id(id))
    }

    fn sub_type_of_ref_type(&self, ty: &RefType) -> Option<&SubType> {
        let id = ty.type_index()?.as_core_type_id()?;
        Some(self.resources.sub_type_at_id(id))
    }

    fn control_stack_height(&self) -> u32 {
        self.inner.control_stack_height() as u32
    }

    fn label_block(&self, depth: u32) -> Option<(BlockType, FrameKind)> {
        self.inner.jump(depth)
    }
}

impl<'validator, 'resources, R: WasmModuleResources> WasmProposalValidator<
    'validator,
    'resources,
    R,
> {
    /// Checks the operator, by its value. Conditions: those of [`WasmProposalValidator`].
    #[inline(always)]
    pub fn check<'a>(&mut self, op: Op<'a>) -> Result<(), Error>
        requires { MayVisit (R.context self.old.resources.now) (stacks_of self.old.inner.now) }
        ensures same_reference { self.new.inner.ghost_name ≡ self.old.inner.ghost_name }
        ensures offset { self.new.offset ≡ self.old.offset }
        ensures resources { self.new.resources ≡ self.old.resources }
        ensures row { Meets (R.context self.old.resources.now) (λ cx. operator cx op.entry)
            self.old.offset (state self.old.inner.now) result (state self.new.inner.now) }
        ensures memory { TakesNoMemory (R.context self.old.resources.now) op.entry
            (state self.old.inner.now) result }
    {
        self.inner.check(self.resources, self.offset, op)
    }

    /// Pops `n` operands of this type, one by one, and counts in `pops` each pop that it tries. Below the innermost
    /// frame's own operands it tries one pop, and no more: in dead code all further ones would pass as that one does.
    /// A refusal carries the offset, and the refused pop is counted.
    #[inline(always)]
    pub fn pop_run(&mut self, elem: ValType, n: u32, pops: &mut Pops) -> Result<(), Error>
        requires visit { MayVisit (R.context self.old.resources.now) (stacks_of self.old.inner.now) }
        requires element { Valid (R.context self.old.resources.now) elem }
        requires countable { pops.old + n < 2 ^ 64 }
        ensures same_reference { self.new.inner.ghost_name ≡ self.old.inner.ghost_name }
        ensures offset { self.new.offset ≡ self.old.offset }
        ensures resources { self.new.resources ≡ self.old.resources }
        ensures passed { OnOk result (body_popped_each (R.context self.old.resources.now)
            (replicate n elem) (state self.old.inner.now) ≡ Some (state self.new.inner.now)) }
        ensures refused { IfErr result (λ e. e.wants_memory ≡ false
            → body_popped_each (R.context self.old.resources.now) (replicate n elem)
            (state self.old.inner.now) ≡ None) }
        ensures idle { (state self.old.inner.now).undone ≡ None
            → OnErr result (body_popped_each (R.context self.old.resources.now) (replicate n elem)
            (state self.old.inner.now) ≡ None) }
        ensures counted { OnOk result (pops.new ≡ pops.old + pops_of_run n (state self.old.inner.now)) }
        ensures bounded { pops.new ≤ pops.old + pops_of_run n (state self.old.inner.now) }
        ensures tried { OnErr result (pops.old < pops.new) }
        ensures at_offset { IfErr result (λ e. e.offset ≡ self.old.offset) }
        ensures valid { IsValidBody (R.context self.old.resources.now) (state self.new.inner.now) }
        ensures kept { IsKept (state self.old.inner.now) (state self.new.inner.now) }
    {
        if n == 0 {
            return Ok(());
        }
        let context = OperatorContext {
            stacks: &mut self.inner.stacks,
            resources: self.resources,
        };
        let answer: Result<(), Told> = context.pop_run(elem, n, &[], pops);
        match answer {
            Ok(()) => Ok(()),
            Err(told) => Err(
                self.inner
                    .stacks
                    .refuse(self.resources, told, 0, self.offset),
            ),
        }
    }
}

impl<'a, 'validator, 'resources, R: WasmModuleResources> OperatorChecks<'a>
    for WasmProposalValidator<'validator, 'resources, R> {
    type Output = Result<(), Error>;

    ghost can_check = { λ v op. MayVisit (R.context v.resources.now) (stacks_of v.inner.now) };

    ghost checks = { λ v op answer w. (w.inner.ghost_name ≡ v.inner.ghost_name) × (w.offset ≡ v.offset)
        × (w.resources ≡ v.resources)
        × Meets (R.context v.resources.now) (λ cx. operator cx op) v.offset (state v.inner.now) answer
        (state w.inner.now)
        × TakesNoMemory (R.context v.resources.now) op (state v.inner.now) answer };

    #[inline(always)]
    fn check_control(&mut self, op: ControlOp<'a>) -> Result<(), Error> {
        self.check(Op::Control(op))
    }

    #[inline(always)]
    fn check_numeric(&mut self, op: NumericOp) -> Result<(), Error> {
        self.check(Op::Numeric(op))
    }

    #[inline(always)]
    fn check_convert(&mut self, op: ConvertOp) -> Result<(), Error> {
        self.check(Op::Convert(op))
    }

    #[inline(always)]
    fn check_memory(&mut self, op: MemoryOp) -> Result<(), Error> {
        self.check(Op::Memory(op))
    }

    #[inline(always)]
    fn check_atomic(&mut self, op: AtomicOp) -> Result<(), Error> {
        self.check(Op::Atomic(op))
    }

    #[inline(always)]
    fn check_reference(&mut self, op: ReferenceOp) -> Result<(), Error> {
        self.check(Op::Reference(op))
    }

    #[inline(always)]
    fn check_table(&mut self, op: TableOp) -> Result<(), Error> {
        self.check(Op::Table(op))
    }

    #[inline(always)]
    fn check_struct(&mut self, op: StructOp) -> Result<(), Error> {
        self.check(Op::Struct(op))
    }

    #[inline(always)]
    fn check_array(&mut self, op: ArrayOp) -> Result<(), Error> {
        self.check(Op::Array(op))
    }

    #[inline(always)]
    fn check_shared(&mut self, op: SharedOp) -> Result<(), Error> {
        self.check(Op::Shared(op))
    }

    #[inline(always)]
    fn check_exception(&mut self, op: ExceptionOp<'a>) -> Result<(), Error> {
        self.check(Op::Exception(op))
    }

    #[inline(always)]
    fn check_continuation(&mut self, op: ContinuationOp<'a>) -> Result<(), Error> {
        self.check(Op::Continuation(op))
    }

    #[inline(always)]
    fn check_operator(&mut self, op: Op<'a>) -> Result<(), Error> {
        self.check(op)
    }
}
