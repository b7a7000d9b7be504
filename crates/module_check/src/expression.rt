//! The operators of a constant expression, each of which is constant.

ghost use Rattle.std.specs.Prelude.{◌≡◌, ◌⊎◌, true, false, Ok, Some, OnOk, IfErr};
ghost use Rattle.validate_stacks.specs.State.{IsStarting};
ghost use Rattle.validate_stacks.specs.Visits.{step_body, MayVisit, Meets};
ghost use Rattle.validation_rules.specs.Static.{RowFails};
ghost use Rattle.validation_rules.specs.Operators.{operator};
ghost use Rattle.validate_operators.specs.Validator.{state, stacks_of};
ghost use Rattle.module_check.specs.Constant.{may_stand};
ghost use Rattle.module_check.specs.Faults.{ReachFault};
ghost use Rattle.module_check.specs.Refusals.{IsRefusedFor};
ghost use Rattle.module_check.specs.Safe.{AreSafeOperators};

use crate::constant::{ConstantPlace, check_constant};
use crate::operators::{OpenBody, check_end, unclosed};
use crate::verdict::CheckError;
use binary_operators::{BinaryReader, OperatorLists, read_operator_into};
use validate_operators::OperatorValidator;
use validate_resources::WasmModuleResources;
use validate_visit::{NumericOp, Op};

/// Refuses an operator that isn't accepted, or isn't constant in this place.
fn check_operator<R: WasmModuleResources>(
    v: &mut OperatorValidator,
    resources: &R,
    offset: u64,
    op: &Op,
    place: &ConstantPlace<'_>,
) -> Result<(), CheckError>
    requires { MayVisit (R.context resources.now) (stacks_of v.old) }
    ensures row { OnOk result (Meets (R.context resources.now) (λ cx. operator cx op.now) offset (state v.old) (Ok tt)
        (state v.new)) }
    ensures stands { OnOk result (may_stand (Some place.now) op.now ≡ true) }
    ensures refused { IfErr result (IsRefusedFor ((may_stand (Some place.now) op.now ≡ false)
        ⊎ RowFails (step_body (R.context resources.now) (λ cx. operator cx op.now) (state v.old))) offset) }
{
    check_constant(place, op, offset)?;
    v.check_ref(resources, offset, op)?;
    Ok(())
}

/// Reads operators up to the end of the bytes, and checks each by the validator of the expression, which starts, and by
/// its place.
pub(crate) fn check_constant_operators<R: WasmModuleResources>(
    v: &mut OperatorValidator,
    body: &OpenBody<'_, '_, R>,
    reader: &mut BinaryReader<'_>,
    lists: &mut OperatorLists,
    place: ConstantPlace<'_>,
) -> Result<(), CheckError>
    requires { IsStarting (R.context body.now.context.now.resources.now) (state v.old) }
    ensures accepted { OnOk result (AreSafeOperators (R.context body.now.context.now.resources.now) body.now.context.now.types
        (may_stand (Some place.entry)) (state v.old) reader.old.left) }
    ensures fault { IfErr result (ReachFault (R.context body.now.context.now.resources.now) body.now.context.now.types
        (may_stand (Some place.entry)) body.now.end (state v.old) reader.old.left) }
{
    for _ in 0..reader.bytes_left() {
        if reader.is_at_end() {
            break;
        }
        let offset = body.offset_of(reader);
        let mut op = Op::Numeric(NumericOp::I32Const(0));
        read_operator_into(reader, &body.context.types, lists, &mut op)?;
        check_operator(v, body.context.resources, offset, &op, &place)?;
        if v.control_stack_height() == 0 {
            let end = body.offset_of(reader);
            return check_end(reader.duplicate(), end);
        }
    }
    Err(unclosed(body.offset_of(reader)))
}
