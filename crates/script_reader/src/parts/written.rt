//! The operators of a script, each plain or in a `try` line.

ghost use Rattle.std.specs.Prelude.{◌≡◌, ◌++◌, ◌∷◌, [], true, false, length, slice_set, OnOk};
ghost use Rattle.script_reader.specs.Written.{may_be_attempted, may_all_be_attempted};

use std::alloc::{AllocError, Global};
use validate_visit::{ControlOp, ExceptionOp, Op};

/// The operators of a body.
#[derive(Drop)]
pub struct Operators<'a> {
    /// The operators, each with the number of its line.
    pub ops: Vec<(Op<'a>, u64)>,
    /// Of each whether it is attempted.
    pub attempts: Vec<bool>,
    ghost each: { length attempts.items ≡ length ops.items },
    ghost allowed: { may_all_be_attempted ops.items attempts.items ≡ true },
}

impl<'a> Operators<'a> {
    /// No operators.
    pub fn new(alloc: Global) -> Operators<'a>
        ensures ops { result.ops.items ≡ [] }
        ensures attempts { result.attempts.items ≡ [] }
    {
        Operators {
            ops: Vec::new(alloc),
            attempts: Vec::new(alloc),
        }
    }

    /// Adds an operator, the one of the line of this number, attempted or not. Where there is no memory for
    /// it, nothing changes.
    pub fn push(&mut self, op: Op<'a>, attempted: bool, number: u64) -> Result<(), AllocError>
        requires { attempted ≡ true → may_be_attempted op ≡ true }
        ensures ops { OnOk result (self.new.ops.items ≡ self.old.ops.items ++ (op.entry, number) ∷ []) }
        ensures attempts { OnOk result (self.new.attempts.items ≡ self.old.attempts.items ++ attempted ∷ []) }
    {
        self.attempts.reserve(1)?;
        self.ops.reserve(1)?;
        self.ops.push_reserved((op, number));
        self.attempts.push_reserved(attempted);
        Ok(())
    }

    /// Puts an operator, the one of the line of this number, attempted or not, in the place of the one that
    /// stands behind so many others. Where none does, nothing changes.
    pub fn replace(&mut self, place: usize, op: Op<'a>, attempted: bool, number: u64)
        requires { attempted ≡ true → may_be_attempted op ≡ true }
        ensures ops { self.new.ops.items ≡ slice_set self.old.ops.items place (op.entry, number) }
        ensures attempts { self.new.attempts.items ≡ slice_set self.old.attempts.items place attempted }
    {
        if place < self.ops.len() {
            self.ops[place] = (op, number);
            self.attempts[place] = attempted;
        }
    }
}

/// Whether the operator may stand in a `try` line: it opens no block, and ends none and no part of one.
pub fn may_be_attempted(op: Op<'_>) -> bool
    ensures { result ≡ may_be_attempted op.entry }
{
    !matches!(
        op,
        Op::Control(
            ControlOp::Block(_)
                | ControlOp::Loop(_)
                | ControlOp::If(_)
                | ControlOp::Else
                | ControlOp::End
        ) | Op::Exception(
            ExceptionOp::TryTable(_)
                | ExceptionOp::Try(_)
                | ExceptionOp::Catch(_)
                | ExceptionOp::CatchAll
                | ExceptionOp::Delegate(_)
        )
    )
}
