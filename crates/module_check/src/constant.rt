//! Which operators may stand in a body, beside what their rows ask.

ghost use Rattle.std.specs.Prelude.{◌≡◌, true, false, Some, OnOk, IfErr};
ghost use Rattle.module_check.specs.Constant.{may_stand};
ghost use Rattle.module_check.specs.Refusals.{IsRefusedFor};

use crate::operator_names::operator_name;
use crate::verdict::CheckError;
use module_rules::{ConstantContext, RuleFault, VisitName, check_constant_operator};
use std::alloc::Global;
use validate_visit::{ControlOp, Op, ReferenceOp};

/// The place of a constant expression, in which each operator is constant.
#[derive(Clone, Copy)]
pub struct ConstantPlace<'m> {
    /// For the text of a refusal.
    pub alloc: Global,
    /// Where the expression stands.
    pub context: ConstantContext<'m>,
    /// The module's bytes, for the name of an operator.
    pub bytes: &'m [u8],
}

/// What stands behind a name to make that of the visit.
fn visit_suffix(op: &Op<'_>) -> &'static str {
    match op {
        Op::Reference(
            ReferenceOp::RefTestNonNull(_)
            | ReferenceOp::RefCastNonNull(_)
            | ReferenceOp::RefCastDescEqNonNull(_),
        ) => "_non_null",
        Op::Reference(
            ReferenceOp::RefTestNullable(_)
            | ReferenceOp::RefCastNullable(_)
            | ReferenceOp::RefCastDescEqNullable(_),
        ) => "_nullable",
        Op::Control(ControlOp::TypedSelectMulti(_)) => "_multi",
        _ => "",
    }
}

/// The name of the operator whose bytes begin at the offset, or that of its visit where this has another.
fn name_of(bytes: &[u8], op: &Op<'_>, offset: u64) -> Option<&'static str> {
    match op {
        Op::Control(ControlOp::TypedSelect(_) | ControlOp::TypedSelectMulti(_)) => {
            Some("typed_select")
        }
        _ => operator_name(bytes.get(offset as usize..)?),
    }
}

/// The fault, with the name of the operator where it is one that is never constant: others say why already.
fn with_name(fault: RuleFault, at: &ConstantPlace<'_>, op: &Op<'_>, offset: u64) -> RuleFault {
    let RuleFault::NotConstant(None) = fault else {
        return fault;
    };
    let Some(operator) = name_of(at.bytes, op, offset) else {
        return fault;
    };
    let suffix = visit_suffix(op);
    RuleFault::NotConstant(Some(VisitName { operator, suffix }))
}

/// Refuses an operator that isn't constant in this place, at its offset.
pub(crate) fn check_constant(
    at: &ConstantPlace<'_>,
    op: &Op<'_>,
    offset: u64,
) -> Result<(), CheckError>
    ensures constant { OnOk result (may_stand (Some at.now) op.now ≡ true) }
    ensures refused { IfErr result (IsRefusedFor (may_stand (Some at.now) op.now ≡ false) offset) }
{
    match check_constant_operator(&at.context, *op) {
        Ok(()) => Ok(()),
        Err(fault) => {
            let named = with_name(fault, at, op, offset);
            Err(CheckError::Refused(named.at(offset).error(at.alloc)))
        }
    }
}
