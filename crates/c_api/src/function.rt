//! A function that is validated operator by operator, over a module that it keeps.

ghost use Rattle.std.specs.Prelude.{◌≡◌, ◌≢◌, ◌↔◌, ℕ, true, false, [], Some, None, length, slice_get, option_map, IsOk, IsSome, OnOk, OnErr, IfOk, IfErr, IfSome};
ghost use Rattle.binary_operators.specs.declared.error.Cause.TheVariants.{OutOfMemory as NoMemory, VectorOperator};
ghost use Rattle.module_check.specs.Refusals.{IsRefusal, IsVector};
ghost use Rattle.module_check.specs.Verdicts.{IsCovered};
ghost use Rattle.module_check.specs.declared.verdict.Verdict.TheVariants.{Accepted, NotCovered, OutOfMemory};
ghost use Rattle.c_api.specs.Functions.{module_under, IsBegun, Takes, CannotTake, IsUncoveredOperator};
ghost use Rattle.c_api.specs.Modules.{module_of, context_in, features_in, AreTypesIn};
ghost use Rattle.c_api.specs.Shown.{shown_type, shown_operand, shown_frame};
ghost use Rattle.validate_operators.specs.Begin.{CannotStart, IsBodyStart};
ghost use Rattle.validate_operators.specs.Runs.{IsAcceptedBody, IsSafe};
ghost use Rattle.validate_operators.specs.Start.{DefinesLocals, CannotDefine};
ghost use Rattle.validate_operators.specs.Validator.{state};
ghost use Rattle.wasmparser_validate.specs.Functions.{function_from, body_state, Fails};
ghost use Rattle.validate_stacks.specs.State.{IsStarting};
ghost use Rattle.validate_stacks.specs.Steps.{type_at_depth, frame_at};
ghost use Rattle.validate_types.specs.Features.{has, simd};
ghost use Rattle.validation_rules.specs.Static.{operand_count, frame_count};

use crate::accepted::AcceptedOperators;
use crate::on_refusal::OnRefusal;
use crate::shared::{HeldModule, SharedModule};
use crate::shown::{ShownFrame, ShownType};
use crate::visits::Visits;
use binary_operators::ReadError;
use module_check::{CanonicalTypes, CheckError, OperatorLists, Verdict};
use std::alloc::Global;
use std::marker::Model;
use validate_operators::OperatorValidator;
use validate_resources::uses::laws;
use validate_stacks::OperatorValidatorAllocations;
use validate_types::{Error, ValType};
use validate_visit::{BodyKind, Frame};

/// A function, or a constant expression, that is validated operator by operator as its bytes come. Contracts see the state
/// of a function validator: the module, the state in which the body starts, the operators that were accepted, the open
/// frames with their operands, and whether it has failed. Until it has failed, the frames are those of the static run over
/// the accepted operators.
#[derive(Drop)]
pub struct FunctionInProgress {
    module: SharedModule,
    visits: Visits,
    first_frame: Frame,
    has_operators: bool,
    failed: bool,
}

impl Model for FunctionInProgress {
    ghost use Rattle.c_api.specs.Functions.{InProgress};

    ghost Value = { InProgress };

    ghost use Rattle.c_api.specs.FunctionInside.{in_progress, IsInProgress};

    ghost view = { in_progress };

    ghost invariant = { IsInProgress };
}

impl FunctionInProgress {
    /// Begins a body of this kind over a module. It refuses as [`OperatorValidator::start_body`] does, at offset 0.
    pub fn begin(
        alloc: Global,
        module: SharedModule,
        kind: BodyKind,
    ) -> Result<FunctionInProgress, Verdict>
        ensures begun { IfOk result (IsBegun (module_of «module») kind) }
        ensures refused { IfErr result (λ verdict. verdict ≢ Accepted) }
        ensures cannot { IfErr result (λ verdict. verdict ≢ OutOfMemory
            → CannotStart (context_in (module_of «module»)) (features_in (module_of «module»)) kind) }
        ensures covered { IfErr result IsCovered }
    {
        match start(alloc, &module.held, kind) {
            Ok(validator) => Ok(FunctionInProgress::of_start(alloc, module, validator)),
            Err(verdict) => Err(verdict),
        }
    }

    /// The function over a module whose body starts with this validator.
    pub(crate) fn of_start(
        alloc: Global,
        module: SharedModule,
        validator: OperatorValidator,
    ) -> FunctionInProgress
        requires { IsStarting (context_in (module_of «module»)) (state validator) }
        ensures { result ≡ function_from «module» (state validator) }
    {
        let first_frame = innermost_frame(&validator);
        FunctionInProgress {
            module,
            visits: Visits {
                validator,
                lists: OperatorLists::new(alloc),
                accepted: AcceptedOperators::none(),
            },
            first_frame,
            has_operators: false,
            failed: false,
        }
    }

    /// Declares so many more locals of this type. It refuses as [`OperatorValidator::define_locals`] does, and where it has
    /// failed or has accepted an operator. A refusal changes nothing.
    pub fn define_locals(&mut self, count: u32, ty: ValType, offset: u64) -> Result<(), Error>
        ensures first { OnOk result (self.old.accepted ≡ []) }
        ensures defined { OnOk result (DefinesLocals (context_in (module_under self.old)) count ty
            self.old.starting self.new.starting) }
        ensures others { self.new ≡ record self.old { starting = self.new.starting } }
        ensures refused { IfErr result (λ e. e.wants_memory ≡ false → self.old.failed ≡ false
            → self.old.accepted ≡ [] → CannotDefine (context_in (module_under self.old)) count ty
            self.old.starting) }
        ensures err { OnErr result (self.new ≡ self.old) }
    {
        if self.failed {
            return Err(has_failed(offset));
        }
        if self.has_operators {
            return Err(Error::new("locals are declared before the first operator", offset));
        }
        let resources = self.module.held.resources();
        self.visits
            .validator
            .define_locals(offset, count, ty, resources)
    }

    /// Takes the operator that the bytes begin with, if it passes at once, as most do, and answers how many
    /// bytes it has. Else it changes nothing, and [`Self::op`] says whether it is accepted.
    #[inline(always)]
    pub fn op_at_once(&mut self, bytes: &[u8], offset: u64) -> Option<usize>
        ensures accepted { IfSome result (λ taken. Takes bytes.now offset taken self.old self.new) }
        ensures unchanged { result ≡ None → self.new ≡ self.old }
    {
        if !self.has_open_frame() || self.failed {
            return None;
        }
        match self.visits.visit_at_once(&self.module.held, bytes, offset) {
            Some(taken) => {
                self.has_operators = true;
                Some(taken)
            }
            None => None,
        }
    }

    /// Takes the operator that the bytes begin with, and answers how many bytes it has. If it is refused, or
    /// memory ran out, that leaves what it is to. A vector operator isn't covered where their proposal is on:
    /// that changes nothing.
    pub fn op(
        &mut self,
        alloc: Global,
        bytes: &[u8],
        offset: u64,
        on_refusal: OnRefusal,
    ) -> Result<usize, Verdict>
        ensures accepted { IfOk result (λ taken. Takes bytes.now offset taken self.old self.new) }
        ensures refused { IfErr result (λ verdict. verdict ≢ Accepted) }
        ensures cannot { IfErr result (λ verdict. verdict ≢ OutOfMemory → CannotTake bytes.now self.old) }
        ensures failed { on_refusal ≡ OnRefusal.Fail → IfErr result (λ verdict.
            ((at : ℕ) → verdict ≢ NotCovered at) → Fails self.old self.new) }
        ensures uncovered { IfErr result (λ verdict. (at : ℕ) → verdict ≡ NotCovered at
            → IsUncoveredOperator bytes.now self.old) }
        ensures unchanged { IfErr result (λ verdict. (at : ℕ) → verdict ≡ NotCovered at
            → self.new ≡ self.old) }
        ensures back { on_refusal ≡ OnRefusal.LeaveNoTrace → OnErr result (self.new ≡ self.old) }
        ensures had_failed { self.old.failed ≡ true → self.new ≡ self.old }
    {
        if self.failed {
            return Err(Verdict::Refused(has_failed(offset)));
        }
        match self
            .visits
            .visit_open(&self.module.held, bytes, offset, on_refusal)
        {
            Ok(taken) => {
                self.has_operators = true;
                Ok(taken)
            }
            Err(error) => {
                let verdict = verdict_on(alloc, &self.module.held, error, offset);
                self.failed = on_refusal.fails_at(&verdict);
                Err(verdict)
            }
        }
    }

    /// Whether the function is whole: it hasn't failed, and no frame is open. Then no run of the accepted operators gets
    /// stuck, and what it returns fits the results. It changes nothing.
    pub fn finish(&self, offset: u64) -> Result<(), Error>
        ensures whole { IsOk result ↔ ((self.now.failed ≡ false) × (self.now.present.frames ≡ [])) }
        ensures refused { IfErr result (λ e. e.wants_memory ≡ false) }
        ensures rows { OnOk result (IsAcceptedBody (context_in (module_under self.now)) self.now.starting
            self.now.accepted) }
        ensures safe { OnOk result (IsSafe (context_in (module_under self.now)) self.now.starting
            self.now.accepted) }
    {
        if self.failed {
            return Err(has_failed(offset));
        }
        if self.has_open_frame() {
            return Err(Error::new(
                "control frames remain at end of function: END opcode expected",
                offset,
            ));
        }
        laws(self.module.held.resources());
        Ok(())
    }

    /// Whether a frame is open.
    fn has_open_frame(&self) -> bool
        ensures { result ≡ false ↔ (self.now.present.frames ≡ []) }
    {
        self.visits.validator.control_stack_height() > 0
    }

    /// How many operands there are, in all frames.
    pub fn operand_stack_height(&self) -> usize
        ensures { result ≡ operand_count self.now.present }
    {
        self.visits.validator.operand_stack_height()
    }

    /// How many frames are open.
    pub fn control_stack_height(&self) -> usize
        ensures { result ≡ frame_count self.now.present }
    {
        self.visits.validator.control_stack_height()
    }

    /// The type of the operand at this depth, the top at 0, as C is shown it, or None past the end.
    pub(crate) fn shown_operand(&self, depth: usize) -> Option<ShownType>
        ensures { result ≡ option_map shown_operand (type_at_depth (body_state self.now) depth) }
    {
        let ty = self.visits.validator.peek_operand_at(depth)?;
        Some(ShownType::of_operand(ty))
    }

    /// The frame at this depth, the innermost at 0, as C is shown it, or None past the end.
    pub(crate) fn shown_frame(&self, depth: usize) -> Option<ShownFrame>
        ensures { result ≡ option_map shown_frame (frame_at (body_state self.now) depth) }
    {
        let frame = self.visits.validator.get_frame(depth)?;
        Some(ShownFrame::of(frame))
    }

    /// The type of the local at this index, as C is shown it, or None past the end.
    pub(crate) fn shown_local(&self, index: u32) -> Option<ShownType>
        ensures { result ≡ option_map shown_type (slice_get self.now.starting.locals index) }
    {
        let ty = self.visits.validator.locals().get(index)?;
        Some(ShownType::of(ty))
    }

    /// The types of the module, by which indices are read.
    pub fn types(&self) -> CanonicalTypes<'_>
        ensures { AreTypesIn (module_under self.now) result }
    {
        self.module.held.types()
    }

    /// How many locals are declared, with the parameters.
    pub fn len_locals(&self) -> u32
        ensures { result ≡ length self.now.starting.locals }
    {
        self.visits.validator.locals().len_locals()
    }
}

/// The validator of a body of this kind over a module, as the body starts.
fn start(alloc: Global, held: &HeldModule, kind: BodyKind) -> Result<OperatorValidator, Verdict>
    ensures starting { IfOk result (λ v. IsStarting (context_in held.now) (state v)) }
    ensures made { IfOk result (λ v. IsBodyStart (context_in held.now) (features_in held.now) kind (state v)) }
    ensures refused { IfErr result (λ verdict. verdict ≢ Accepted) }
    ensures cannot { IfErr result (λ verdict. verdict ≢ OutOfMemory
        → CannotStart (context_in held.now) (features_in held.now) kind) }
    ensures covered { IfErr result IsCovered }
{
    let features = held.features();
    let mut validator = OperatorValidator::new(&features, OperatorValidatorAllocations::new(alloc));
    match validator.start_body(held.resources(), &features, kind, 0) {
        Ok(()) => Ok(validator),
        Err(refusal) => {
            drop(validator);
            Err(Verdict::of_error(refusal))
        }
    }
}

/// The innermost frame, which is open.
fn innermost_frame(v: &OperatorValidator) -> Frame
    requires { IsSome (frame_at (state v.now) 0) }
    ensures { frame_at (state v.now) 0 ≡ Some result }
{
    match v.get_frame(0) {
        Some(frame) => *frame,
        None => unreachable!(),
    }
}

/// The verdict on bytes that begin with no operator, which stand at this offset. Its text names the code, if there is
/// memory for that; else it is that of want of memory.
fn unread(alloc: Global, error: ReadError, offset: u64) -> Verdict
    ensures not_accepted { result ≢ Accepted }
    ensures memory { result ≢ OutOfMemory → error.cause ≢ NoMemory }
    ensures uncovered { (at : ℕ) → result ≡ NotCovered at → error.cause ≡ VectorOperator }
{
    let placed = ReadError {
        cause: error.cause,
        offset: offset.saturating_add(error.offset),
    };
    Verdict::of_read_error_in(alloc, placed)
}

/// The verdict on what stands at this offset, which isn't accepted for this.
fn verdict_on(alloc: Global, held: &HeldModule, error: CheckError, offset: u64) -> Verdict
    ensures not_accepted { result ≢ Accepted }
    ensures memory { result ≢ OutOfMemory → IsRefusal error }
    ensures vector { (at : ℕ) → result ≡ NotCovered at → IsVector error }
    ensures proposal { (at : ℕ) → result ≡ NotCovered at → has (features_in held.now) simd ≡ true }
{
    match error {
        CheckError::Unread(error) => unread(alloc, error, offset).under(&held.features()),
        CheckError::Refused(refusal) => Verdict::of_error(refusal),
    }
}

/// An operator was refused before.
fn has_failed(offset: u64) -> Error
    ensures { result.wants_memory ≡ false }
{
    Error::new("function validator has failed", offset)
}
