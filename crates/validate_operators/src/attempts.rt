//! One operator that is attempted: kept where it is accepted, or taken back whatever its outcome.

ghost use Rattle.std.specs.Prelude.{◌≡◌, false, None, OnOk, OnErr, IfErr};
ghost use Rattle.validation_rules.specs.Operators.{operator};
ghost use Rattle.validation_rules.specs.Static.{RowHolds, RowFails};
ghost use Rattle.validate_stacks.specs.Pops.{IsKept};
ghost use Rattle.validate_stacks.specs.State.{BodyState, IsValidBody};
ghost use Rattle.validate_stacks.specs.Visits.{step_body, MayVisit, Meets};
ghost use Rattle.validate_operators.specs.Validator.{state, stacks_of};

use crate::validator::OperatorValidator;
use validate_resources::WasmModuleResources;
use validate_types::Error;
use validate_visit::Op;

/// Attempts one operator. If it is accepted, it stays. If it is refused, or memory ran out, the validator is in the
/// state before. No attempt is pending afterwards.
///
/// An error is the one that a visit answers, and carries this offset.
///
/// Conditions: no attempt is pending, a frame is open, and the types are those of this lookup.
pub fn try_op<R: WasmModuleResources>(
    v: &mut OperatorValidator,
    resources: &R,
    offset: u64,
    op: Op,
) -> Result<(), Error>
    requires idle { (state v.old).undone ≡ None }
    requires visit { MayVisit (R.context resources.now) (stacks_of v.old) }

    // It answers by the row, as a visit does.
    ensures meets { Meets (R.context resources.now) (λ cx. operator cx op.entry) offset (state v.old)
        result (state v.new) }

    // A refused operator leaves no trace.
    ensures back { OnErr result (state v.new ≡ state v.old) }

    // Whatever it answers, the types stay valid, and nothing but operands and frames changes.
    ensures valid { IsValidBody (R.context resources.now) (state v.new) }
    ensures kept { IsKept (state v.old) (state v.new) }
{
    if v.passes_at_once(resources, &op) {
        return Ok(());
    }
    v.try_slowly(resources, offset, &op)
}

/// Attempts one operator, and takes it back. Whatever its outcome, the state is the one before, with the order in
/// which locals were first set, and no attempt is pending. It answers as a visit does: it accepts only if the row
/// holds, and refuses only if it doesn't. Or memory ran out.
///
/// Conditions: those of [`try_op`].
pub fn try_and_undo<R: WasmModuleResources>(
    v: &mut OperatorValidator,
    resources: &R,
    offset: u64,
    op: Op,
) -> Result<(), Error>
    requires idle { (state v.old).undone ≡ None }
    requires visit { MayVisit (R.context resources.now) (stacks_of v.old) }
    ensures same { state v.new ≡ state v.old }

    // It answers by the row.
    ensures accepted { OnOk result ((t : BodyState) × RowHolds
        (step_body (R.context resources.now) (λ cx. operator cx op.entry) (state v.old)) t) }
    ensures refused { IfErr result (λ e. e.wants_memory ≡ false
        → RowFails (step_body (R.context resources.now) (λ cx. operator cx op.entry) (state v.old))) }
    ensures offset { IfErr result (λ e. e.offset ≡ offset) }
{
    v.begin_try_op();
    let answer = v.check(resources, offset, op);
    v.rollback();
    answer
}
