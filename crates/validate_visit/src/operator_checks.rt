//! What visits are made of: the checks of operators, a call for each group.

ghost use Rattle.validate_visit.specs.declared.op.Op.{Op};

use crate::op::{
    ArrayOp, AtomicOp, ContinuationOp, ControlOp, ConvertOp, ExceptionOp, MemoryOp, NumericOp, Op,
    ReferenceOp, StructOp, TableOp,
};
use crate::shared::SharedOp;

/// Checks operators by their values: one call for each group, and one for any operator. Whatever does has all visits
/// (`VisitOperator`), since each is the check of the operator that it names.
///
/// Its meaning is two relations that the implementation gives: `can_check` says where an operator may be checked, and
/// `checks` what the check answers and leaves.
pub trait OperatorChecks<'a> {
    /// What a check answers.
    type Output;

    /// The condition of a check.
    ghost can_check: { Self → Op → Type 0 };

    /// What a check answers, and what it leaves.
    ghost checks: { Self → Op → Self.Output → Self → Type 0 };

    /// The check of an operator on control, locals or globals.
    fn check_control(&mut self, op: ControlOp<'a>) -> Self::Output
        requires { can_check self.old (Op.Control op) }
        ensures { checks self.old (Op.Control op.entry) result self.new };

    /// The check of an operator on numbers.
    fn check_numeric(&mut self, op: NumericOp) -> Self::Output
        requires { can_check self.old (Op.Numeric op) }
        ensures { checks self.old (Op.Numeric op) result self.new };

    /// The check of a conversion.
    fn check_convert(&mut self, op: ConvertOp) -> Self::Output
        requires { can_check self.old (Op.Convert op) }
        ensures { checks self.old (Op.Convert op) result self.new };

    /// The check of an operator on memories.
    fn check_memory(&mut self, op: MemoryOp) -> Self::Output
        requires { can_check self.old (Op.Memory op) }
        ensures { checks self.old (Op.Memory op) result self.new };

    /// The check of an atomic operator.
    fn check_atomic(&mut self, op: AtomicOp) -> Self::Output
        requires { can_check self.old (Op.Atomic op) }
        ensures { checks self.old (Op.Atomic op) result self.new };

    /// The check of an operator on references.
    fn check_reference(&mut self, op: ReferenceOp) -> Self::Output
        requires { can_check self.old (Op.Reference op) }
        ensures { checks self.old (Op.Reference op) result self.new };

    /// The check of an operator on tables.
    fn check_table(&mut self, op: TableOp) -> Self::Output
        requires { can_check self.old (Op.Table op) }
        ensures { checks self.old (Op.Table op) result self.new };

    /// The check of an operator on structs.
    fn check_struct(&mut self, op: StructOp) -> Self::Output
        requires { can_check self.old (Op.Struct op) }
        ensures { checks self.old (Op.Struct op) result self.new };

    /// The check of an operator on arrays.
    fn check_array(&mut self, op: ArrayOp) -> Self::Output
        requires { can_check self.old (Op.Array op) }
        ensures { checks self.old (Op.Array op) result self.new };

    /// The check of an operator of shared-everything threads.
    fn check_shared(&mut self, op: SharedOp) -> Self::Output
        requires { can_check self.old (Op.Shared op) }
        ensures { checks self.old (Op.Shared op) result self.new };

    /// The check of an operator on exceptions.
    fn check_exception(&mut self, op: ExceptionOp<'a>) -> Self::Output
        requires { can_check self.old (Op.Exception op) }
        ensures { checks self.old (Op.Exception op.entry) result self.new };

    /// The check of an operator on continuations.
    fn check_continuation(&mut self, op: ContinuationOp<'a>) -> Self::Output
        requires { can_check self.old (Op.Continuation op) }
        ensures { checks self.old (Op.Continuation op.entry) result self.new };

    /// The check of an operator.
    fn check_operator(&mut self, op: Op<'a>) -> Self::Output
        requires { can_check self.old op }
        ensures { checks self.old op.entry result self.new };
}
