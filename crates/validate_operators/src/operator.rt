//! The body of any operator, and its check.
#![tactic(auto, using(validate_shapes::proofs::KnownRows::known_rows))]

ghost use Rattle.std.specs.Prelude.{◌≡◌, false, OnErr};
ghost use Rattle.validate_types.specs.Told.{IsRowRefused};
ghost use Rattle.validate_visit.specs.declared.op.Op.{Op};
ghost use Rattle.validation_rules.specs.Operators.{operator};
ghost use Rattle.validate_stacks.specs.AtOnce.{MeetsOrUnchanged};
ghost use Rattle.validate_stacks.specs.Bodies.{CanCheck, Checks};
ghost use Rattle.validate_stacks.specs.Pops.{IsKept};
ghost use Rattle.validate_stacks.specs.State.{IsValidBody};
ghost use Rattle.validate_stacks.specs.Visits.{MayVisit, Meets};
ghost use Rattle.validate_operators.specs.Memory.{TakesNoMemory};

use crate::bodies::{
    control, gated_array, gated_atomic, gated_continuation, gated_convert, gated_exception,
    gated_memory, gated_numeric, gated_reference, gated_shared, gated_struct, gated_table,
    memory_by_call,
};
use crate::parts::end_part;
use crate::popped::popped_before;
use validate_resources::WasmModuleResources;
use validate_shapes::checked::placed;
use validate_stacks::{OperatorContext, Stacks};
use validate_types::{Error, NotDone, Refused, Told};
use validate_visit::{MemoryOp, Op};

/// The body of an operator: accepted exactly where its row holds, memory aside, with the static step. A refusal, told or
/// not, changes nothing. A frame has to be open.
///
/// It stands in each visit, with the bodies of numbers, constants and locals, and calls those of all others: so a visit
/// whose operator is known has what that one takes alone.
#[inline(always)]
fn any_operator<A: Refused, R: WasmModuleResources>(
    context: OperatorContext<'_, '_, R>,
    op: &Op,
) -> Result<(), A>
    requires { CanCheck R.context context }
    ensures row { Checks R.context A.tells (λ cx. operator cx op.now) context.entry result context.exit }
    ensures memory { TakesNoMemory (R.context context.entry.resources.now) op.now
        context.entry.stacks.now.body result }
{
    match op {
        Op::Control(op) => control(context, op),
        Op::Numeric(op) => gated_numeric(context, op),
        Op::Convert(op) => gated_convert(context, op),
        Op::Memory(op) => memory_by_call(context, op),
        Op::Atomic(op) => gated_atomic(context, op),
        Op::Reference(op) => gated_reference(context, op),
        Op::Table(op) => gated_table(context, op),
        Op::Struct(op) => gated_struct(context, op),
        Op::Array(op) => gated_array(context, op),
        Op::Exception(op) => gated_exception(context, op),
        Op::Continuation(op) => gated_continuation(context, op),
        Op::Shared(op) => gated_shared(context, op),
    }
}

/// [`any_operator`], called: a check and an attempt share it.
#[cold]
#[inline(never)]
fn operator_by_call<A: Refused, R: WasmModuleResources>(
    context: OperatorContext<'_, '_, R>,
    op: &Op,
) -> Result<(), A>
    requires { CanCheck R.context context }
    ensures row { Checks R.context A.tells (λ cx. operator cx op.now) context.entry result context.exit }
    ensures memory { TakesNoMemory (R.context context.entry.resources.now) op.now
        context.entry.stacks.now.body result }
{
    any_operator(context, op)
}

/// The fast lane of [`check_operator`]: whether the body of an operator was done. False, with nothing
/// changed, where it was refused or wanted memory.
#[inline(always)]
pub(crate) fn operator_at_once<R: WasmModuleResources>(
    stacks: &mut Stacks,
    resources: &R,
    op: &Op,
) -> bool
    requires { MayVisit (R.context resources.now) stacks.old }
    ensures { MeetsOrUnchanged (R.context resources.now) (λ cx. operator cx op.now) stacks.old result stacks.new }
{
    let answer: Result<(), NotDone> = any_operator(
        OperatorContext {
            stacks: &mut *stacks,
            resources,
        },
        op,
    );
    answer.is_ok()
}

/// [`operator_at_once`] of an operator on memories, whose body stands in the caller.
#[inline(always)]
pub(crate) fn memory_at_once<R: WasmModuleResources>(
    stacks: &mut Stacks,
    resources: &R,
    op: &MemoryOp,
) -> bool
    requires { MayVisit (R.context resources.now) stacks.old }
    ensures { MeetsOrUnchanged (R.context resources.now) (λ cx. operator cx (Op.Memory op.now)) stacks.old result
        stacks.new }
{
    let answer: Result<(), NotDone> = gated_memory(
        OperatorContext {
            stacks: &mut *stacks,
            resources,
        },
        op,
    );
    answer.is_ok()
}

/// The check of an operator at this offset: its body, and of a refusal the text, the place and what upstream has done by
/// then. Most operators pass by their body alone, and are asked that first.
#[cold]
#[inline(never)]
pub fn check_operator<R: WasmModuleResources>(
    stacks: &mut Stacks,
    resources: &R,
    offset: u64,
    op: &Op,
) -> Result<(), Error>
    requires { MayVisit (R.context resources.now) stacks.old }
    ensures row { Meets (R.context resources.now) (λ cx. operator cx op.now) offset stacks.old.body
        result stacks.new.body }
    ensures memory { TakesNoMemory (R.context resources.now) op.now stacks.old.body result }
{
    let answer: Result<(), Told> = operator_by_call(
        OperatorContext {
            stacks: &mut *stacks,
            resources,
        },
        op,
    );
    match answer {
        Ok(()) => Ok(()),
        Err(told) => Err(refuse(
            OperatorContext {
                stacks: &mut *stacks,
                resources,
            },
            offset,
            op,
            told,
        )),
    }
}

/// [`check_operator`], which leaves nothing where it refuses.
#[cold]
#[inline(never)]
pub(crate) fn try_operator<R: WasmModuleResources>(
    stacks: &mut Stacks,
    resources: &R,
    offset: u64,
    op: &Op,
) -> Result<(), Error>
    requires { MayVisit (R.context resources.now) stacks.old }
    ensures row { Meets (R.context resources.now) (λ cx. operator cx op.now) offset stacks.old.body
        result stacks.new.body }
    ensures back { OnErr result (stacks.new ≡ stacks.old) }
{
    let answer: Result<(), Told> = operator_by_call(
        OperatorContext {
            stacks: &mut *stacks,
            resources,
        },
        op,
    );
    placed(
        &OperatorContext {
            stacks: &mut *stacks,
            resources,
        },
        offset,
        answer,
    )
}

/// The refusal of an operator whose body refuses so, once what upstream does before it is done.
fn refuse<R: WasmModuleResources>(
    context: OperatorContext<'_, '_, R>,
    offset: u64,
    op: &Op,
    told: Told,
) -> Error
    requires { CanCheck R.context context }
    ensures told { result.wants_memory ≡ false → IsRowRefused told }
    ensures offset { result.offset ≡ offset }
    ensures valid { IsValidBody (R.context context.entry.resources.now) context.exit.0.now.body }
    ensures kept { IsKept context.entry.stacks.now.body context.exit.0.now.body }
{
    let resources = context.resources;
    let popped = popped_before(&context, op, &told);
    match end_part(
        OperatorContext {
            stacks: &mut *context.stacks,
            resources,
        },
        op,
        &told,
    ) {
        Ok(()) => context.stacks.refuse(resources, told, popped, offset),
        Err(_) => Error::out_of_memory(offset),
    }
}
