//! A body that is validated as its bytes come.

ghost use Rattle.std.specs.Prelude.{◌≡◌, ◌≢◌, ℕ, false, [], None, OnErr, IfOk, IfErr, IfSome};
ghost use Rattle.binary_operators.specs.Vectors.{BeginVector};
ghost use Rattle.binary_operators.specs.declared.error.Cause.TheVariants.{OutOfMemory, VectorOperator};
ghost use Rattle.module_check.specs.Refusals.{IsRefusal, IsVector};
ghost use Rattle.c_api.specs.Modules.{context_in};
ghost use Rattle.c_api.specs.Operators.{IsOperatorOf, BeginsWithNone, HasNoRow};
ghost use Rattle.validate_operators.specs.Validator.{state, stacks_of};
ghost use Rattle.validate_resources.specs.Kept.{declared_lists};
ghost use Rattle.validate_resources.specs.Lists.{context_of};
ghost use Rattle.validate_stacks.specs.Pops.{IsKept};
ghost use Rattle.validate_stacks.specs.State.{IsValidBody};
ghost use Rattle.validate_stacks.specs.Visits.{MayVisit, Meets};
ghost use Rattle.validation_rules.specs.Operators.{operator};

use crate::accepted::AcceptedOperators;
use crate::on_refusal::OnRefusal;
use crate::shared::HeldModule;
use binary_operators::{BinaryReader, OperatorLists, ReadError, read_operator_into};
use module_check::CheckError;
use validate_operators::{OperatorValidator, try_op};
use validate_resources::ModuleLists;
use validate_types::Error;
use validate_visit::{NumericOp, Op};

/// Reads the operator that the bytes begin with into this place, and answers how many bytes it has. It refuses as
/// [`read_operator_into`] does.
#[inline(always)]
fn read_into<'l>(
    module: &HeldModule,
    bytes: &[u8],
    lists: &'l mut OperatorLists,
    op: &mut Op<'l>,
) -> Result<usize, ReadError>
    ensures read { IfOk result (λ taken. IsOperatorOf module.now bytes.now op.new taken) }
    ensures refused { IfErr result (λ e. e.cause ≢ OutOfMemory → BeginsWithNone module.now bytes.now) }
    ensures vector { IfErr result (λ e. e.cause ≡ VectorOperator → BeginVector bytes.now) }
{
    let types = module.types();
    let mut reader = BinaryReader::new(bytes);
    read_operator_into(&mut reader, &types, lists, op)?;
    Ok(bytes.len() - reader.bytes_left())
}

/// [`read_into`], which doesn't tell why it refuses: an answer of two words is handed back in registers.
#[inline(never)]
fn read_at_once<'l>(
    module: &HeldModule,
    bytes: &[u8],
    lists: &'l mut OperatorLists,
    op: &mut Op<'l>,
) -> Option<usize>
    ensures { IfSome result (λ taken. IsOperatorOf module.now bytes.now op.new taken) }
{
    match read_into(module, bytes, lists, op) {
        Ok(taken) => Some(taken),
        Err(_) => None,
    }
}

/// Checks an operator. It is a function of its own, as the next one is, so that neither grows too large for what passes
/// at once to stand in it.
#[inline(never)]
fn check_alone(
    v: &mut OperatorValidator,
    resources: &ModuleLists,
    offset: u64,
    op: &Op<'_>,
) -> Result<(), Error>
    requires { MayVisit (context_of (declared_lists resources.now)) (stacks_of v.old) }
    ensures meets { Meets (context_of (declared_lists resources.now)) (λ cx. operator cx op.now) offset
        (state v.old) result (state v.new) }
    ensures valid { IsValidBody (context_of (declared_lists resources.now)) (state v.new) }
    ensures kept { IsKept (state v.old) (state v.new) }
{
    v.check_ref(resources, offset, op)
}

/// Checks an operator, and leaves nothing of one that isn't accepted.
#[inline(never)]
fn try_alone(
    v: &mut OperatorValidator,
    resources: &ModuleLists,
    offset: u64,
    op: &Op<'_>,
) -> Result<(), Error>
    requires idle { (state v.old).undone ≡ None }
    requires visit { MayVisit (context_of (declared_lists resources.now)) (stacks_of v.old) }
    ensures meets { Meets (context_of (declared_lists resources.now)) (λ cx. operator cx op.now) offset
        (state v.old) result (state v.new) }
    ensures back { OnErr result (state v.new ≡ state v.old) }
    ensures valid { IsValidBody (context_of (declared_lists resources.now)) (state v.new) }
    ensures kept { IsKept (state v.old) (state v.new) }
{
    try_op(v, resources, offset, *op)
}

/// Checks an operator, and leaves of one that isn't accepted what it is to.
fn check_operator(
    v: &mut OperatorValidator,
    resources: &ModuleLists,
    offset: u64,
    op: &Op<'_>,
    on_refusal: OnRefusal,
) -> Result<(), Error>
    requires idle { (state v.old).undone ≡ None }
    requires visit { MayVisit (context_of (declared_lists resources.now)) (stacks_of v.old) }
    ensures meets { Meets (context_of (declared_lists resources.now)) (λ cx. operator cx op.now) offset
        (state v.old) result (state v.new) }
    ensures back { on_refusal ≡ OnRefusal.LeaveNoTrace → OnErr result (state v.new ≡ state v.old) }
    ensures valid { IsValidBody (context_of (declared_lists resources.now)) (state v.new) }
    ensures kept { IsKept (state v.old) (state v.new) }
{
    match on_refusal {
        OnRefusal::Fail => check_alone(v, resources, offset, op),
        OnRefusal::LeaveNoTrace => try_alone(v, resources, offset, op),
    }
}

/// The validator of a body, the buffers for the list of one operator, and the operators that were accepted.
#[derive(Drop)]
pub(crate) struct Visits {
    pub(crate) validator: OperatorValidator,
    pub(crate) lists: OperatorLists,
    pub(crate) accepted: AcceptedOperators,
}

impl Visits {
    ghost use Rattle.c_api.specs.VisitsMade.{IsVisited, IsUnvisited, IsUnread};

    /// Visits the operator that the bytes begin with, if it passes at once, as most do, and answers how many bytes it has.
    /// Else nothing is changed, and [`Self::visit`] says whether it is accepted.
    #[inline(always)]
    pub(crate) fn visit_at_once(
        &mut self,
        module: &HeldModule,
        bytes: &[u8],
        offset: u64,
    ) -> Option<usize>
        requires { MayVisit (context_in module.now) (stacks_of self.old.validator) }
        ensures accepted { IfSome result (λ taken. IsVisited module.now bytes.now offset taken self.old self.new) }
        ensures unchanged { result ≡ None → IsUnvisited self.old self.new }
    {
        let mut op = Op::Numeric(NumericOp::I32Const(0));
        let taken = read_at_once(module, bytes, &mut self.lists, &mut op)?;
        if self.validator.passes_at_once(module.resources(), &op) {
            self.accepted = self.accepted.and(&op, &offset);
            return Some(taken);
        }
        None
    }

    /// Visits the operator that the bytes begin with, and answers how many bytes it has.
    pub(crate) fn visit(
        &mut self,
        module: &HeldModule,
        bytes: &[u8],
        offset: u64,
        on_refusal: OnRefusal,
    ) -> Result<usize, CheckError>
        requires idle { (state self.old.validator).undone ≡ None }
        requires visit { MayVisit (context_in module.now) (stacks_of self.old.validator) }
        ensures accepted { IfOk result (λ taken. IsVisited module.now bytes.now offset taken self.old self.new) }
        ensures refused { IfErr result (λ e. IsRefusal e
            → HasNoRow module.now bytes.now (state self.old.validator)) }
        ensures uncovered { IfErr result (λ e. IsVector e → BeginVector bytes.now) }
        ensures unread { IfErr result (λ e. IsUnread e → IsUnvisited self.old self.new) }
        ensures back { on_refusal ≡ OnRefusal.LeaveNoTrace → OnErr result (IsUnvisited self.old self.new) }
        ensures list { OnErr result (self.new.accepted ≡ self.old.accepted) }
        ensures valid { IsValidBody (context_in module.now) (state self.new.validator) }
        ensures kept { IsKept (state self.old.validator) (state self.new.validator) }
    {
        let mut op = Op::Numeric(NumericOp::I32Const(0));
        let taken = read_into(module, bytes, &mut self.lists, &mut op)?;
        let resources = module.resources();
        check_operator(&mut self.validator, resources, offset, &op, on_refusal)?;
        self.accepted = self.accepted.and(&op, &offset);
        Ok(taken)
    }

    /// The same of a body that may have no frame open: then the operator is refused.
    pub(crate) fn visit_open(
        &mut self,
        module: &HeldModule,
        bytes: &[u8],
        offset: u64,
        on_refusal: OnRefusal,
    ) -> Result<usize, CheckError>
        requires idle { (state self.old.validator).undone ≡ None }
        requires valid { IsValidBody (context_in module.now) (state self.old.validator) }
        ensures accepted { IfOk result (λ taken. IsVisited module.now bytes.now offset taken self.old self.new) }
        ensures refused { IfErr result (λ e. IsRefusal e → (state self.old.validator).present.frames ≢ []
            → HasNoRow module.now bytes.now (state self.old.validator)) }
        ensures uncovered { IfErr result (λ e. IsVector e → BeginVector bytes.now) }
        ensures is_open { IfErr result (λ e. IsVector e → (state self.old.validator).present.frames ≢ []) }
        ensures unread { IfErr result (λ e. IsUnread e → IsUnvisited self.old self.new) }
        ensures back { on_refusal ≡ OnRefusal.LeaveNoTrace → OnErr result (IsUnvisited self.old self.new) }
        ensures list { OnErr result (self.new.accepted ≡ self.old.accepted) }
        ensures valid { IsValidBody (context_in module.now) (state self.new.validator) }
        ensures kept { IsKept (state self.old.validator) (state self.new.validator) }
    {
        if self.validator.control_stack_height() == 0 {
            return Err(CheckError::Refused(is_closed(offset)));
        }
        self.visit(module, bytes, offset, on_refusal)
    }
}

/// No frame is open.
fn is_closed(offset: u64) -> Error
    ensures { result.wants_memory ≡ false }
{
    Error::new("operators remaining after end of function", offset)
}
