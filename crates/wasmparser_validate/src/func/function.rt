//! The validator of a function's body.

ghost use Rattle.std.specs.Prelude.{◌≡◌, ◌≢◌, ◌↔◌, true, false, [], Some, length, slice_get, IsOk, IsSome, OnOk, OnErr, IfOk, IfErr};
ghost use Rattle.std.specs.Option.{option_copied};
ghost use Rattle.validation_rules.specs.Static.{start, operand_count, frame_count};
ghost use Rattle.validate_stacks.specs.State.{IsStarting};
ghost use Rattle.validate_stacks.specs.Steps.{type_at_depth, frame_at};
ghost use Rattle.validate_operators.specs.Runs.{IsAcceptedBody, IsSafe};
ghost use Rattle.validate_operators.specs.Start.{DefinesLocals, CannotDefine};
ghost use Rattle.validate_operators.specs.Validator.{state, current_kind};
ghost use Rattle.wasmparser_validate.specs.Functions.{function_from, body_state, unmarked, IsStaticRun, Accepts, Refuses, Fails};
ghost use Rattle.wasmparser_validate.specs.Operands.{types_in};

use crate::func::operands::operand_types;
use std::alloc::Global;
use std::marker::Model;
use validate_operators::{OperatorValidator, try_op};
use validate_resources::WasmModuleResources;
use validate_stacks::OperatorValidatorAllocations;
use validate_types::{Error, OutOfMemory, ValType};
use validate_visit::{Frame, FrameKind, Op};

/// The validator of a function's body (wasmparser's `FuncValidator`), operator by operator. It keeps the operators
/// that it accepts. Until [`FuncValidator::op`] refuses one, its state is that of the static run over them. A
/// refused attempt leaves no trace. Contracts see a `FunctionState` of `specs/`.
#[derive(Drop)]
pub struct FuncValidator<'a, 'resources, R: WasmModuleResources> {
    validator: OperatorValidator,
    resources: &'resources R,
    first_frame: Frame,
    accepted: Vec<(Op<'a>, u64)>,
    failed: bool,
}

impl<'a, 'resources, R: WasmModuleResources> Model for FuncValidator<'a, 'resources, R> {
    ghost use Rattle.wasmparser_validate.specs.Functions.{FunctionState};

    ghost Value = { FunctionState R };

    ghost use Rattle.validate_operators.specs.Validator.{state};
    ghost use Rattle.wasmparser_validate.specs.Functions.{function_state, IsSound};

    ghost view = { λ f. function_state f.resources.now f.first_frame (state f.validator) f.accepted.items
        f.failed };

    ghost invariant = { λ f. IsSound (R.context f.resources.now) f.first_frame (state f.validator)
        f.accepted.items f.failed };
}

impl<'a, 'resources, R: WasmModuleResources> FuncValidator<'a, 'resources, R> {
    /// A function validator over `v`. It takes no memory.
    ///
    /// Condition: `v` is in a starting state for this lookup. It is new, with or without its locals, and no operator
    /// was visited.
    pub fn new(
        alloc: Global,
        v: OperatorValidator,
        resources: &'resources R,
    ) -> FuncValidator<'a, 'resources, R>
        requires { IsStarting (R.context resources.now) (state v) }
        ensures { result ≡ function_from resources.now (state v) }
    {
        let first_frame = innermost_frame(&v);
        FuncValidator {
            validator: v,
            resources,
            first_frame,
            accepted: Vec::new(alloc),
            failed: false,
        }
    }

    /// Declares `count` more locals of this type (wasmparser's `define_locals`). It refuses as
    /// [`OperatorValidator::define_locals`] does, and a refusal changes nothing.
    ///
    /// Conditions: it has accepted no operator yet, and hasn't failed.
    pub fn define_locals(&mut self, offset: u64, count: u32, ty: ValType) -> Result<(), Error>
        requires first { self.old.accepted ≡ [] }
        requires none_failed { self.old.failed ≡ false }
        ensures defined { OnOk result (DefinesLocals (R.context self.old.resources) count ty
            self.old.starting self.new.starting) }
        ensures others { self.new ≡ record self.old { starting = self.new.starting } }
        ensures refused { IfErr result (λ e. e.wants_memory ≡ false
            → CannotDefine (R.context self.old.resources) count ty self.old.starting) }
        ensures err { OnErr result (self.new ≡ self.old) }
        ensures offset { IfErr result (λ e. e.offset ≡ offset) }
    {
        self.validator
            .define_locals(offset, count, ty, self.resources)
    }

    /// Visits an operator. If it is accepted, it joins the list of accepted ones. If it is refused, or memory ran
    /// out, this validator has failed. From then on it refuses every operator: `function validator has failed`. A
    /// refusal carries the offset.
    ///
    /// Condition: unless it has failed, a frame is open (`control_stack_height()` isn't 0).
    pub fn op(&mut self, offset: u64, op: Op<'a>) -> Result<(), Error>
        requires open_frame { self.old.failed ≡ false → self.old.present.frames ≢ [] }
        ensures accepted { OnOk result (Accepts (R.context self.old.resources) (op.entry, offset) self.old
            self.new) }
        ensures refused { IfErr result (Refuses (R.context self.old.resources) (op.entry, offset)
            self.old) }
        ensures failed { OnErr result (Fails self.old self.new) }
        ensures had_failed { self.old.failed ≡ true → self.new ≡ self.old }
    {
        if self.failed {
            return Err(has_failed(offset));
        }
        // It has failed until the operator is accepted.
        self.failed = true;
        self.visit(offset, op)
    }

    /// Visits an operator, where this validator is marked as failed for its sake alone: clauses speak of what
    /// it was without the mark, which goes where the operator is accepted.
    fn visit(&mut self, offset: u64, op: Op<'a>) -> Result<(), Error>
        requires marked { self.old.failed ≡ true }
        requires run { IsStaticRun (R.context self.old.resources) self.old }
        requires open_frame { self.old.present.frames ≢ [] }
        ensures accepted { OnOk result (Accepts (R.context self.old.resources) (op.entry, offset)
            (unmarked self.old) self.new) }
        ensures refused { IfErr result (Refuses (R.context self.old.resources) (op.entry, offset)
            (unmarked self.old)) }
        ensures marked { OnErr result (self.new ≡ record self.old { present = self.new.present }) }
    {
        if self.accepted.reserve(1).is_err() {
            return Err(Error::out_of_memory(offset));
        }
        self.validator.check(self.resources, offset, op)?;
        self.accepted.push_reserved((op, offset));
        self.failed = false;
        Ok(())
    }

    /// Attempts an operator. If it is accepted, it stays, as by [`FuncValidator::op`]. If it is refused, or memory
    /// ran out, it leaves no trace. A validator that has failed refuses it. A refusal carries the offset.
    ///
    /// Condition: unless it has failed, a frame is open (`control_stack_height()` isn't 0).
    pub fn try_op(&mut self, offset: u64, op: Op<'a>) -> Result<(), Error>
        requires open_frame { self.old.failed ≡ false → self.old.present.frames ≢ [] }
        ensures accepted { OnOk result (Accepts (R.context self.old.resources) (op.entry, offset) self.old
            self.new) }
        ensures refused { IfErr result (Refuses (R.context self.old.resources) (op.entry, offset)
            self.old) }
        ensures back { OnErr result (self.new ≡ self.old) }
    {
        if self.failed {
            return Err(has_failed(offset));
        }
        self.attempt(offset, op)
    }

    /// Attempts an operator, where none was refused.
    fn attempt(&mut self, offset: u64, op: Op<'a>) -> Result<(), Error>
        requires none_failed { self.old.failed ≡ false }
        requires open_frame { self.old.present.frames ≢ [] }
        ensures accepted { OnOk result (Accepts (R.context self.old.resources) (op.entry, offset) self.old
            self.new) }
        ensures refused { IfErr result (Refuses (R.context self.old.resources) (op.entry, offset)
            self.old) }
        ensures back { OnErr result (self.new ≡ self.old) }
    {
        if self.accepted.reserve(1).is_err() {
            return Err(Error::out_of_memory(offset));
        }
        try_op(&mut self.validator, self.resources, offset, op)?;
        self.accepted.push_reserved((op, offset));
        Ok(())
    }

    /// Whether the body is whole: it hasn't failed, and no frame is open. Then no run of the accepted
    /// operators gets stuck, and what it returns fits the results. It changes nothing and takes no memory.
    ///
    /// It refuses, at this offset: `function validator has failed`, or `control frames remain at end of
    /// function: END opcode expected`.
    pub fn finish(&self, offset: u64) -> Result<(), Error>
        ensures whole { IsOk result ↔ ((self.now.failed ≡ false) × (self.now.present.frames ≡ [])) }
        ensures refused { IfErr result (λ e. (e.wants_memory ≡ false) × (e.offset ≡ offset)) }

        // The rows of all accepted operators hold up to the outermost `end`, and their list is type safe.
        ensures rows { OnOk result (IsAcceptedBody (R.context self.now.resources) self.now.starting
            self.now.accepted) }
        ensures safe { OnOk result (IsSafe (R.context self.now.resources) self.now.starting
            self.now.accepted) }
    {
        if self.failed {
            return Err(has_failed(offset));
        }
        if self.has_open_frame() {
            return Err(Error::new(
                "control frames remain at end of function: END opcode expected",
                offset,
            ));
        }
        Ok(())
    }

    /// Whether a frame is open.
    fn has_open_frame(&self) -> bool
        ensures { result ≡ false ↔ (self.now.present.frames ≡ []) }
    {
        self.validator.control_stack_height() > 0
    }

    /// The operators that were accepted, in order, with their offsets. While it hasn't failed, the state is
    /// that of the static run over them, from the starting state.
    pub fn accepted(&self) -> &[(Op<'a>, u64)]
        ensures list { result.now ≡ self.now.accepted }
        ensures run { self.now.failed ≡ false → IsStaticRun (R.context self.now.resources) self.now }
        ensures starting { IsStarting (R.context self.now.resources) self.now.starting }
    {
        self.accepted.as_slice()
    }

    /// The outermost frame, as it was at the start. With the locals, the proposals and the mark of a shared
    /// function, it makes up the starting state.
    pub fn first_frame(&self) -> Frame
        ensures frame { frame_at self.now.starting 0 ≡ Some result }
        ensures start { self.now.starting.present ≡ start result.block_type }
    {
        self.first_frame
    }

    /// Whether it has failed: `op` refused an operator.
    pub fn is_failed(&self) -> bool
        ensures { result ≡ self.now.failed }
    {
        self.failed
    }

    /// The kind of the innermost frame: what opened it, or which part of it is open. None if no frame is open.
    pub fn current_frame(&self) -> Option<FrameKind>
        ensures { result ≡ current_kind (body_state self.now) }
    {
        let (_, kind) = self.validator.jump(0)?;
        Some(kind)
    }

    /// How many operands there are, in all frames.
    pub fn operand_stack_height(&self) -> usize
        ensures { result ≡ operand_count self.now.present }
    {
        self.validator.operand_stack_height()
    }

    /// How many frames are open.
    pub fn control_stack_height(&self) -> usize
        ensures { result ≡ frame_count self.now.present }
    {
        self.validator.control_stack_height()
    }

    /// The type of the operand at this depth, the top at 0: None past the end, and `Some(None)` for one whose
    /// type isn't known.
    pub fn peek_operand_at(&self, depth: usize) -> Option<Option<ValType>>
        ensures { result ≡ type_at_depth (body_state self.now) depth }
    {
        self.validator.peek_operand_at(depth)
    }

    /// [`FuncValidator::peek_operand_at`], under the name of wasmparser's `FuncValidator`.
    pub fn get_operand_type(&self, depth: usize) -> Option<Option<ValType>>
        ensures { result ≡ type_at_depth (body_state self.now) depth }
    {
        self.peek_operand_at(depth)
    }

    /// The types of all operands, the lowest first; None for one whose type isn't known.
    pub fn operand_types(&self) -> Result<Vec<Option<ValType>>, OutOfMemory>
        ensures { IfOk result (λ types. types.items ≡ types_in self.now.present) }
    {
        operand_types(*self.accepted.allocator(), &self.validator)
    }

    /// The frame at this depth, the innermost at 0, or None past the end.
    pub fn get_frame(&self, depth: usize) -> Option<&Frame>
        ensures { option_copied result ≡ frame_at (body_state self.now) depth }
    {
        self.validator.get_frame(depth)
    }

    /// [`FuncValidator::get_frame`], under the name of wasmparser's `FuncValidator`.
    pub fn get_control_frame(&self, depth: usize) -> Option<&Frame>
        ensures { option_copied result ≡ frame_at (body_state self.now) depth }
    {
        self.get_frame(depth)
    }

    /// How many locals are declared, with the parameters.
    pub fn len_locals(&self) -> u32
        ensures { result ≡ length self.now.starting.locals }
    {
        self.validator.locals().len_locals()
    }

    /// The type of the local at this index, or None past the end.
    pub fn get_local_type(&self, index: u32) -> Option<ValType>
        ensures { result ≡ slice_get self.now.starting.locals index }
    {
        self.validator.locals().get(index)
    }

    /// The buffers, emptied, for the next validator. It takes no memory.
    pub fn into_allocations(self) -> OperatorValidatorAllocations {
        self.validator.into_allocations()
    }
}

/// The innermost frame, which is open.
fn innermost_frame(v: &OperatorValidator) -> Frame
    requires { IsSome (frame_at (state v.now) 0) }
    ensures { frame_at (state v.now) 0 ≡ Some result }
{
    match v.get_frame(0) {
        Some(frame) => *frame,
        None => unreachable!(),
    }
}

/// An operator was refused before.
fn has_failed(offset: u64) -> Error
    ensures memory { result.wants_memory ≡ false }
    ensures offset { result.offset ≡ offset }
{
    Error::new("function validator has failed", offset)
}
