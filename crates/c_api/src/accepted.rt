//! The operators that were accepted, which exist in proofs alone.

ghost use Rattle.std.specs.Prelude.{◌≡◌, ℕ, List, [], ◌∷◌, ◌++◌};
ghost use Rattle.validate_visit.specs.declared.op.Op.{Op};
ghost use base.Fml.{ftrue};

use std::marker::Model;
use validate_visit::Op;

/// The operators that a body has accepted, in order, with their offsets. It takes no memory: an operator's list lies in
/// buffers that the next one overwrites, so none can be kept as the program runs.
#[derive(Drop)]
pub(crate) struct AcceptedOperators {
    pub(crate) ghost operators: { List (Op × ℕ) },
}

impl Model for AcceptedOperators {
    ghost also_owns = { λ _. ftrue };
}

impl AcceptedOperators {
    /// None yet.
    pub(crate) fn none() -> AcceptedOperators
        ensures { result.operators ≡ [] }
    {
        AcceptedOperators {}
    }

    /// These, and this one behind them.
    #[inline(always)]
    pub(crate) fn and(&self, _op: &Op<'_>, _offset: &u64) -> AcceptedOperators
        ensures { result.operators ≡ self.now.operators ++ (_op.now, _offset.now) ∷ [] }
    {
        AcceptedOperators {}
    }
}

unsafe impl Send for AcceptedOperators {}
