//! Single visits: by the value of the operator, by the visitor, by the visitor's
//! call of the operator's own name, and by the call of its group.

ghost use Rattle.std.specs.Prelude.{◌≡◌, None};
ghost use Rattle.validation_rules.specs.Operators.{operator};
ghost use Rattle.validate_stacks.specs.AtOnce.{MeetsOrUnchanged};
ghost use Rattle.validate_stacks.specs.Pops.{IsKept};
ghost use Rattle.validate_stacks.specs.State.{IsValidBody};
ghost use Rattle.validate_stacks.specs.Visits.{MayVisit, Meets};
ghost use Rattle.wasmparser_validate.specs.Validator.{state, stacks_of};

use crate::expectations::{ample, expect};
use std::process::Abort;
use wasmparser_validate::operators::{OperatorValidator, WasmProposalValidator};
use wasmparser_validate::resources::WasmModuleResources;
use wasmparser_validate::types::Error;
use wasmparser_validate::visit::{
    ArrayOp, AtomicOp, BlockType, ContinuationOp, ControlOp, ConvertOp, ExceptionOp, Exchange,
    MemoryOp, NumericOp, Op, OperatorChecks, ReferenceOp, SharedOp, StructOp, TableOp, Update,
    VisitOperator,
};

pub const NOP: Op<'static> = Op::Control(ControlOp::Nop);

pub const UNREACHABLE: Op<'static> = Op::Control(ControlOp::Unreachable);

pub const I32_CONST: Op<'static> = Op::Numeric(NumericOp::I32Const(7));

pub const I64_CONST: Op<'static> = Op::Numeric(NumericOp::I64Const(5));

pub const BLOCK: Op<'static> = Op::Control(ControlOp::Block(BlockType::Empty));

/// By which call an operator is visited.
#[derive(Clone, Copy)]
pub enum Call {
    /// That of the validator, by the operator's value.
    Value,
    /// That of the visitor, by the operator's value.
    Visitor,
    /// That of the operator's own name, where it has an arm here.
    Name,
    /// That of the operator's group.
    Group,
    /// Those of the two halves of the validator's check.
    Halves,
}

/// The visit of an operator by its own name, where it has an arm here.
fn visit_by_name<'a, V: VisitOperator<'a>>(visitor: &mut V, op: Op<'a>) -> V::Output
    requires { V.can_visit visitor.old op }
    ensures { V.visits visitor.old op.entry result visitor.new }
{
    match op {
        Op::Control(ControlOp::End) => visitor.visit_end(),
        Op::Control(ControlOp::LocalGet(index)) => visitor.visit_local_get(index),
        Op::Numeric(NumericOp::I32Const(value)) => visitor.visit_i32_const(value),
        Op::Convert(ConvertOp::Wrap) => visitor.visit_i32_wrap_i64(),
        Op::Memory(MemoryOp::MemorySize(index)) => visitor.visit_memory_size(index),
        Op::Atomic(AtomicOp::Pause) => visitor.visit_pause(),
        Op::Reference(ReferenceOp::RefNull(ty)) => visitor.visit_ref_null(ty),
        Op::Table(TableOp::TableGet(index)) => visitor.visit_table_get(index),
        Op::Struct(StructOp::StructNewDefault(index)) => visitor.visit_struct_new_default(index),
        Op::Array(ArrayOp::ArrayLen) => visitor.visit_array_len(),
        Op::Shared(
            SharedOp::Global {
                access: Update::Value(Exchange::Set),
                ordering,
                global_index,
            },
        ) => visitor.visit_global_atomic_set(ordering, global_index),
        Op::Exception(ExceptionOp::TryTable(ty)) => visitor.visit_try_table(ty),
        Op::Continuation(ContinuationOp::ContNew(index)) => visitor.visit_cont_new(index),
        _ => visitor.visit_operator(op),
    }
}

/// The check of an operator by the call of its group.
fn check_by_group<'a, C: OperatorChecks<'a>>(checks: &mut C, op: Op<'a>) -> C::Output
    requires { C.can_check checks.old op }
    ensures { C.checks checks.old op.entry result checks.new }
{
    match op {
        Op::Control(ControlOp::End) => checks.check_operator(op),
        Op::Control(op) => checks.check_control(op),
        Op::Numeric(op) => checks.check_numeric(op),
        Op::Convert(op) => checks.check_convert(op),
        Op::Memory(op) => checks.check_memory(op),
        Op::Atomic(op) => checks.check_atomic(op),
        Op::Reference(op) => checks.check_reference(op),
        Op::Table(op) => checks.check_table(op),
        Op::Struct(op) => checks.check_struct(op),
        Op::Array(op) => checks.check_array(op),
        Op::Shared(op) => checks.check_shared(op),
        Op::Exception(op) => checks.check_exception(op),
        Op::Continuation(op) => checks.check_continuation(op),
    }
}

/// Whether an operator passes at once, by the call of its own where its group has one.
fn passes_at_once<R: WasmModuleResources>(v: &mut OperatorValidator, lists: &R, op: &Op<'_>) -> bool
    requires { MayVisit (R.context lists.now) (stacks_of v.old) }
    ensures { MeetsOrUnchanged (R.context lists.now) (λ cx. operator cx op.now) (stacks_of v.old) result
        (stacks_of v.new) }
{
    match op {
        Op::Memory(op) => v.memory_passes_at_once(lists, op),
        _ => v.passes_at_once(lists, op),
    }
}

/// The check of an operator by its two halves.
fn check_in_halves<R: WasmModuleResources>(
    v: &mut OperatorValidator,
    lists: &R,
    op: &Op<'_>,
) -> Result<(), Error>
    requires { MayVisit (R.context lists.now) (stacks_of v.old) }
    ensures { Meets (R.context lists.now) (λ cx. operator cx op.now) 7 (state v.old) result (state v.new) }
{
    if passes_at_once(v, lists, op) {
        return Ok(());
    }
    v.check_slowly(lists, 7, op)
}

/// One visit, with all that it promises.
fn visit_by_row<R: WasmModuleResources>(
    v: &mut OperatorValidator,
    lists: &R,
    op: &Op<'_>,
    call: Call,
) -> Result<(), Error>
    requires { MayVisit (R.context lists.now) (stacks_of v.old) }
    ensures { Meets (R.context lists.now) (λ cx. operator cx op.now) 7 (state v.old) result (state v.new) }
{
    let mut visitor: WasmProposalValidator<'_, '_, R> = v.with_resources(lists, 7);
    match call {
        Call::Value => visitor.check(*op),
        Call::Visitor => visitor.visit_operator(*op),
        Call::Name => visit_by_name(&mut visitor, *op),
        Call::Group => check_by_group(&mut visitor, *op),
        Call::Halves => check_in_halves(v, lists, op),
    }
}

/// One visit.
pub fn visit_by<R: WasmModuleResources>(
    v: &mut OperatorValidator,
    lists: &R,
    op: &Op<'_>,
    call: Call,
) -> Result<(), Error>
    requires { MayVisit (R.context lists.now) (stacks_of v.old) }
    ensures valid { IsValidBody (R.context lists.now) (state v.new) }
    ensures kept { IsKept (state v.old) (state v.new) }
{
    visit_by_row(v, lists, op, call)
}

/// Visits an operator, which leaves a frame open.
pub fn visit_well<R: WasmModuleResources>(
    rt: &impl Abort,
    v: &mut OperatorValidator,
    lists: &R,
    op: &Op<'_>,
)
    requires idle { (state v.old).undone ≡ None }
    requires visit { MayVisit (R.context lists.now) (stacks_of v.old) }
    ensures idle { (state v.new).undone ≡ None }
    ensures visit { MayVisit (R.context lists.now) (stacks_of v.new) }
{
    let answer = visit_by(v, lists, op, Call::Visitor);
    expect(rt, v.control_stack_height() > 0);
    ample(rt, answer);
}

/// Visits operators that are accepted, and leave a frame open.
pub fn visit_each<R: WasmModuleResources>(
    rt: &impl Abort,
    v: &mut OperatorValidator,
    lists: &R,
    ops: &[Op<'_>],
)
    requires idle { (state v.old).undone ≡ None }
    requires visit { MayVisit (R.context lists.now) (stacks_of v.old) }
    ensures idle { (state v.new).undone ≡ None }
    ensures visit { MayVisit (R.context lists.now) (stacks_of v.new) }
{
    for op in ops {
        visit_well(rt, v, lists, op);
    }
}
