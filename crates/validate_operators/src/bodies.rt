//! The bodies of operators by their groups, each behind its gate.
#![tactic(auto, using(validate_shapes::proofs::KnownRows::gated_rows))]

ghost use Rattle.std.specs.Prelude.{◌≡◌, [], true, false, OnOk, OnErr};
ghost use Rattle.validate_types.specs.Gates.{is_open};
ghost use Rattle.validate_visit.specs.declared.op.Op.{Op};
ghost use Rattle.validate_visit.specs.declared.op.ControlOp.{ControlOp};
ghost use Rattle.validation_rules.specs.Operators.{checked_block, control_operator, exception_operator, opener, operator, staying_operator};
ghost use Rattle.validation_rules.specs.References.{reference_row};
ghost use Rattle.validate_operators.specs.Memory.{TakesNoMemory};
ghost use Rattle.validate_stacks.specs.Bodies.{CanCheck, Checks};

use validate_resources::WasmModuleResources;
use validate_rows::atomic::atomic_operator;
use validate_rows::branches::{br, br_if, br_table, return_results};
use validate_rows::calls::{call, return_call};
use validate_rows::control::{else_part, end, nop, unreachable};
use validate_rows::globals::{global_get, global_set};
use validate_rows::indirect::{call_indirect, call_ref, return_call_indirect, return_call_ref};
use validate_rows::memory::memory_operator;
use validate_rows::numeric::{convert, numeric};
use validate_rows::parametric::{drop_operand, select, typed_select, typed_select_multi};
use validate_rows::references::{
    br_on_non_null, br_on_null, ref_as_non_null, ref_func, ref_is_null, ref_null,
};
use validate_rows::tables::table_operator;
use validate_rows::variables::{local_get, local_set, local_tee};
use validate_rows_gc::arrays::array_operator;
use validate_rows_gc::casts::{br_on_cast, br_on_cast_fail, ref_cast, ref_test};
use validate_rows_gc::clauses::try_table;
use validate_rows_gc::continuations::continuation_operator;
use validate_rows_gc::descriptors::{
    br_on_cast_desc_eq, br_on_cast_desc_eq_fail, ref_cast_desc_eq, ref_get_desc,
};
use validate_rows_gc::found::{convert_ref, ref_eq, ref_i31, ref_to_i32};
use validate_rows_gc::legacy::{catch, catch_all, delegate};
use validate_rows_gc::places::shared_operator;
use validate_rows_gc::structs::struct_operator;
use validate_rows_gc::throws::{rethrow, throw, throw_ref};
use validate_shapes::blocks::{open_block, open_if};
use validate_stacks::{OperatorContext, Stacks};
use validate_types::{AbstractHeapType, Gate, Refusal, Refused};
use validate_visit::{
    ArrayOp, AtomicOp, BlockType, ContinuationOp, ControlOp, ConvertOp, ExceptionOp, FrameKind,
    MemoryOp, NumericOp, ReferenceOp, SharedOp, StructOp, TableOp,
};

/// Refuses where the gate is closed.
#[inline(always)]
fn expect_open<A: Refused>(stacks: &Stacks, gate: Gate) -> Result<(), A>
    ensures open { OnOk result (is_open stacks.now.body.features gate ≡ true) }
    ensures closed { OnErr result (is_open stacks.now.body.features gate ≡ false) }
{
    if gate.is_open(stacks.features()) {
        Ok(())
    } else {
        Err(A::of(Refusal::Closed(gate)))
    }
}

/// An operator on numbers.
#[inline(always)]
pub(crate) fn gated_numeric<A: Refused, R: WasmModuleResources>(
    context: OperatorContext<'_, '_, R>,
    op: &NumericOp,
) -> Result<(), A>
    requires { CanCheck R.context context }
    ensures { Checks R.context A.tells (λ cx. operator cx (Op.Numeric op.now)) context.entry result context.exit }
{
    expect_open(context.stacks, op.gate())?;
    numeric(context, *op)
}

/// A conversion.
#[inline(never)]
pub(crate) fn gated_convert<A: Refused, R: WasmModuleResources>(
    context: OperatorContext<'_, '_, R>,
    op: &ConvertOp,
) -> Result<(), A>
    requires { CanCheck R.context context }
    ensures { Checks R.context A.tells (λ cx. operator cx (Op.Convert op.now)) context.entry result context.exit }
{
    expect_open(context.stacks, op.gate())?;
    convert(context, *op)
}

/// `block`, `loop` and `try`.
#[inline(never)]
fn block<A: Refused, R: WasmModuleResources>(
    context: OperatorContext<'_, '_, R>,
    kind: FrameKind,
    ty: &BlockType,
) -> Result<(), A>
    requires { CanCheck R.context context }
    ensures { Checks R.context A.tells (λ cx. opener cx kind [] ty.now (checked_block cx ty.now)) context.entry
        result context.exit }
{
    open_block(context, kind, *ty)
}

/// `if`.
#[inline(never)]
fn if_block<A: Refused, R: WasmModuleResources>(
    context: OperatorContext<'_, '_, R>,
    ty: &BlockType,
) -> Result<(), A>
    requires { CanCheck R.context context }
    ensures { Checks R.context A.tells (λ cx. control_operator cx (ControlOp.If ty.now)) context.entry
        result context.exit }
{
    open_if(context, *ty)
}

/// An operator on control, locals or globals. The few that have a gate test it in their arms, so that the others, which
/// are common, test none.
#[inline(always)]
pub(crate) fn control<A: Refused, R: WasmModuleResources>(
    context: OperatorContext<'_, '_, R>,
    op: &ControlOp,
) -> Result<(), A>
    requires { CanCheck R.context context }
    ensures row { Checks R.context A.tells (λ cx. operator cx (Op.Control op.now)) context.entry
        result context.exit }
    ensures memory { TakesNoMemory (R.context context.entry.resources.now) (Op.Control op.now)
        context.entry.stacks.now.body result }
{
    match op {
        ControlOp::Unreachable => unreachable(context),
        ControlOp::Nop => nop(context),
        ControlOp::Block(ty) => block(context, FrameKind::Block, ty),
        ControlOp::Loop(ty) => block(context, FrameKind::Loop, ty),
        ControlOp::If(ty) => if_block(context, ty),
        ControlOp::Else => else_part(context),
        ControlOp::End => end(context),
        ControlOp::Br(relative_depth) => br(context, *relative_depth),
        ControlOp::BrIf(relative_depth) => br_if(context, *relative_depth),
        ControlOp::BrTable(table) => br_table(context, table),
        ControlOp::Return => return_results(context),
        ControlOp::Call(function_index) => call(context, *function_index),
        ControlOp::ReturnCall(function_index) => {
            expect_open(context.stacks, Gate::TailCall)?;
            return_call(context, *function_index)
        }
        ControlOp::CallIndirect {
            type_index,
            table_index,
        } => call_indirect(context, *type_index, *table_index),
        ControlOp::ReturnCallIndirect {
            type_index,
            table_index,
        } => {
            expect_open(context.stacks, Gate::TailCall)?;
            return_call_indirect(context, *type_index, *table_index)
        }
        ControlOp::CallRef(type_index) => {
            expect_open(context.stacks, Gate::FunctionReferences)?;
            call_ref(context, *type_index)
        }
        ControlOp::ReturnCallRef(type_index) => {
            expect_open(context.stacks, Gate::FunctionReferences)?;
            return_call_ref(context, *type_index)
        }
        ControlOp::Drop => drop_operand(context),
        ControlOp::Select => select(context),
        ControlOp::TypedSelect(ty) => {
            expect_open(context.stacks, Gate::ReferenceTypes)?;
            typed_select(context, ty)
        }
        ControlOp::TypedSelectMulti(_) => {
            expect_open(context.stacks, Gate::ReferenceTypes)?;
            typed_select_multi(context)
        }
        ControlOp::LocalGet(local_index) => local_get(context, *local_index),
        ControlOp::LocalSet(local_index) => local_set(context, *local_index),
        ControlOp::LocalTee(local_index) => local_tee(context, *local_index),
        ControlOp::GlobalGet(global_index) => global_get(context, *global_index),
        ControlOp::GlobalSet(global_index) => global_set(context, *global_index),
    }
}

/// An operator on references, its gate aside.
#[inline(always)]
fn reference<A: Refused, R: WasmModuleResources>(
    context: OperatorContext<'_, '_, R>,
    op: &ReferenceOp,
) -> Result<(), A>
    requires { CanCheck R.context context }
    ensures { Checks R.context A.tells (λ cx. staying_operator (λ hs. reference_row cx hs op.now)) context.entry
        result context.exit }
{
    match op {
        ReferenceOp::RefNull(heap_type) => ref_null(context, *heap_type),
        ReferenceOp::RefIsNull => ref_is_null(context),
        ReferenceOp::RefFunc(function_index) => ref_func(context, *function_index),
        ReferenceOp::RefAsNonNull => ref_as_non_null(context),
        ReferenceOp::BrOnNull(relative_depth) => br_on_null(context, *relative_depth),
        ReferenceOp::BrOnNonNull(relative_depth) => { br_on_non_null(context, *relative_depth) }
        ReferenceOp::RefEq => ref_eq(context),
        ReferenceOp::RefI31 => ref_i31(context),
        ReferenceOp::I31Get(_) => ref_to_i32(context, AbstractHeapType::I31),
        ReferenceOp::AnyConvertExtern => {
            let (from, into) = (AbstractHeapType::Extern, AbstractHeapType::Any);
            convert_ref(context, from, into)
        }
        ReferenceOp::ExternConvertAny => {
            let (from, into) = (AbstractHeapType::Any, AbstractHeapType::Extern);
            convert_ref(context, from, into)
        }
        ReferenceOp::RefGetDesc(type_index) => ref_get_desc(context, *type_index),
        ReferenceOp::RefTestNonNull(heap_type) => ref_test(context, false, heap_type),
        ReferenceOp::RefTestNullable(heap_type) => ref_test(context, true, heap_type),
        ReferenceOp::RefCastNonNull(heap_type) => ref_cast(context, false, heap_type),
        ReferenceOp::RefCastNullable(heap_type) => ref_cast(context, true, heap_type),
        ReferenceOp::BrOnCast(cast) => br_on_cast(context, cast),
        ReferenceOp::BrOnCastFail(cast) => br_on_cast_fail(context, cast),
        ReferenceOp::RefCastDescEqNonNull(heap_type) => {
            ref_cast_desc_eq(context, false, heap_type)
        }
        ReferenceOp::RefCastDescEqNullable(heap_type) => {
            ref_cast_desc_eq(context, true, heap_type)
        }
        ReferenceOp::BrOnCastDescEq(cast) => br_on_cast_desc_eq(context, cast),
        ReferenceOp::BrOnCastDescEqFail(cast) => br_on_cast_desc_eq_fail(context, cast),
    }
}

/// An operator on references.
#[inline(never)]
pub(crate) fn gated_reference<A: Refused, R: WasmModuleResources>(
    context: OperatorContext<'_, '_, R>,
    op: &ReferenceOp,
) -> Result<(), A>
    requires { CanCheck R.context context }
    ensures { Checks R.context A.tells (λ cx. operator cx (Op.Reference op.now)) context.entry result context.exit }
{
    expect_open(context.stacks, op.gate())?;
    reference(context, op)
}

/// An operator on memories.
#[inline(always)]
pub(crate) fn gated_memory<A: Refused, R: WasmModuleResources>(
    context: OperatorContext<'_, '_, R>,
    op: &MemoryOp,
) -> Result<(), A>
    requires { CanCheck R.context context }
    ensures { Checks R.context A.tells (λ cx. operator cx (Op.Memory op.now)) context.entry result context.exit }
{
    expect_open(context.stacks, op.gate())?;
    memory_operator(context, *op)
}

/// [`gated_memory`], called: an operator of any kind calls it.
#[inline(never)]
pub(crate) fn memory_by_call<A: Refused, R: WasmModuleResources>(
    context: OperatorContext<'_, '_, R>,
    op: &MemoryOp,
) -> Result<(), A>
    requires { CanCheck R.context context }
    ensures { Checks R.context A.tells (λ cx. operator cx (Op.Memory op.now)) context.entry result context.exit }
{
    gated_memory(context, op)
}

/// An atomic operator on memories.
#[inline(never)]
pub(crate) fn gated_atomic<A: Refused, R: WasmModuleResources>(
    context: OperatorContext<'_, '_, R>,
    op: &AtomicOp,
) -> Result<(), A>
    requires { CanCheck R.context context }
    ensures { Checks R.context A.tells (λ cx. operator cx (Op.Atomic op.now)) context.entry result context.exit }
{
    expect_open(context.stacks, op.gate())?;
    atomic_operator(context, *op)
}

/// An operator on tables.
#[inline(never)]
pub(crate) fn gated_table<A: Refused, R: WasmModuleResources>(
    context: OperatorContext<'_, '_, R>,
    op: &TableOp,
) -> Result<(), A>
    requires { CanCheck R.context context }
    ensures { Checks R.context A.tells (λ cx. operator cx (Op.Table op.now)) context.entry result context.exit }
{
    expect_open(context.stacks, op.gate())?;
    table_operator(context, *op)
}

/// An operator on structs.
#[inline(never)]
pub(crate) fn gated_struct<A: Refused, R: WasmModuleResources>(
    context: OperatorContext<'_, '_, R>,
    op: &StructOp,
) -> Result<(), A>
    requires { CanCheck R.context context }
    ensures { Checks R.context A.tells (λ cx. operator cx (Op.Struct op.now)) context.entry result context.exit }
{
    expect_open(context.stacks, op.gate())?;
    struct_operator(context, op)
}

/// An operator on arrays, which all have one gate.
#[inline(never)]
pub(crate) fn gated_array<A: Refused, R: WasmModuleResources>(
    context: OperatorContext<'_, '_, R>,
    op: &ArrayOp,
) -> Result<(), A>
    requires { CanCheck R.context context }
    ensures { Checks R.context A.tells (λ cx. operator cx (Op.Array op.now)) context.entry result context.exit }
{
    expect_open(context.stacks, Gate::Gc)?;
    array_operator(context, op)
}

/// An operator of shared-everything threads.
#[inline(never)]
pub(crate) fn gated_shared<A: Refused, R: WasmModuleResources>(
    context: OperatorContext<'_, '_, R>,
    op: &SharedOp,
) -> Result<(), A>
    requires { CanCheck R.context context }
    ensures { Checks R.context A.tells (λ cx. operator cx (Op.Shared op.now)) context.entry result context.exit }
{
    expect_open(context.stacks, Gate::SharedEverythingThreads)?;
    shared_operator(context, *op)
}

/// An operator on continuations.
#[inline(never)]
pub(crate) fn gated_continuation<A: Refused, R: WasmModuleResources>(
    context: OperatorContext<'_, '_, R>,
    op: &ContinuationOp<'_>,
) -> Result<(), A>
    requires { CanCheck R.context context }
    ensures { Checks R.context A.tells (λ cx. operator cx (Op.Continuation op.now)) context.entry
        result context.exit }
{
    expect_open(context.stacks, Gate::StackSwitching)?;
    continuation_operator(context, *op)
}

/// An operator on exceptions, its gate aside.
#[inline(always)]
fn exception<A: Refused, R: WasmModuleResources>(
    context: OperatorContext<'_, '_, R>,
    op: &ExceptionOp<'_>,
) -> Result<(), A>
    requires { CanCheck R.context context }
    ensures row { Checks R.context A.tells (λ cx. exception_operator cx op.now) context.entry result context.exit }
    ensures memory { TakesNoMemory (R.context context.entry.resources.now) (Op.Exception op.now)
        context.entry.stacks.now.body result }
{
    match op {
        ExceptionOp::TryTable(table) => try_table(context, table),
        ExceptionOp::Throw(tag_index) => throw(context, *tag_index),
        ExceptionOp::ThrowRef => throw_ref(context),
        ExceptionOp::Try(ty) => block(context, FrameKind::LegacyTry, ty),
        ExceptionOp::Catch(tag_index) => catch(context, *tag_index),
        ExceptionOp::CatchAll => catch_all(context),
        ExceptionOp::Delegate(relative_depth) => delegate(context, *relative_depth),
        ExceptionOp::Rethrow(relative_depth) => rethrow(context, *relative_depth),
    }
}

/// An operator on exceptions.
#[inline(never)]
pub(crate) fn gated_exception<A: Refused, R: WasmModuleResources>(
    context: OperatorContext<'_, '_, R>,
    op: &ExceptionOp<'_>,
) -> Result<(), A>
    requires { CanCheck R.context context }
    ensures row { Checks R.context A.tells (λ cx. operator cx (Op.Exception op.now)) context.entry
        result context.exit }
    ensures memory { TakesNoMemory (R.context context.entry.resources.now) (Op.Exception op.now)
        context.entry.stacks.now.body result }
{
    expect_open(context.stacks, op.gate())?;
    exception(context, op)
}
