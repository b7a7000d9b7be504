//! Operators in the bytes of a body (WebAssembly core specification, "Binary Format: Instructions", and the
//! proposals).

ghost use Rattle.std.specs.Prelude.{◌≡◌, ◌≢◌, ◌+◌, ◌*◌, Some, None, option_map, IfOk, OnOk, IfErr, OnErr};
ghost use Rattle.binary_operators.specs.Codes.{at, plain_ops};
ghost use Rattle.binary_operators.specs.Forms.{from, forms, forms_behind};
ghost use Rattle.binary_operators.specs.Instructions.{index_op, two_index_op};
ghost use Rattle.binary_operators.specs.Instructions.{type_op, typed_index_op, two_type_op, heap_op, cast_op};
ghost use Rattle.binary_operators.specs.Instructions.{block_op};
ghost use Rattle.binary_operators.specs.Instructions.{access_op, constant_i32, constant_i64, constant_f32};
ghost use Rattle.binary_operators.specs.Instructions.{constant_f64, branch_table, select_of, select_op};
ghost use Rattle.binary_operators.specs.Instructions.{try_table_op};
ghost use Rattle.binary_operators.specs.Instructions.{resume_table, resume_ops};
ghost use Rattle.binary_operators.specs.Instructions.{resume_op, resume_throw_op, atomic_op, fence_op};
ghost use Rattle.binary_operators.specs.Instructions.{global_op};
ghost use Rattle.binary_operators.specs.Instructions.{table_op, field_op, array_op, operator_by, prefixed_op};
ghost use Rattle.binary_operators.specs.Instructions.{operator_of, operator};
ghost use Rattle.binary_operators.specs.Numbers.{numeric_ops, conversion_ops};
ghost use Rattle.binary_operators.specs.Unplaced.{unplaced};
ghost use Rattle.binary_operators.specs.Vectors.{BeginVector, IsNoVector};
ghost use Rattle.validate_visit.specs.declared.op.Op.TheVariants.{Numeric, Convert};
ghost use Rattle.binary_operators.specs.declared.error.Cause.TheVariants.{OutOfMemory, VectorOperator};

use crate::atomics::{atomic_op, field_access, global_access, read_ordering, table_access};
use crate::blocks::read_block_type;
use crate::casts::read_cast;
use crate::codes::{
    access_op, block_op, cast_op, heap_op, index_op, plain_op, two_index_op, two_type_op, type_op,
    typed_index_op,
};
use crate::error::ReadError;
use crate::forms::{Form, form_behind, form_of};
use crate::lists::{OperatorLists, read_list};
use crate::memory::read_memarg;
use crate::numeric::{conversion_op, numeric_op};
use crate::reader::BinaryReader;
use crate::types::{CanonicalTypes, read_heap_type};
use validate_types::ValType;
use validate_visit::{
    AtomicOp, BrTable, Catch, ContinuationOp, ControlOp, ExceptionOp, FieldIndex, Handle, Ieee32,
    Ieee64, NumericOp, Op, ResumeTable, SharedOp, TryTable,
};

/// A code that was read.
#[derive(Clone, Copy)]
struct Code {
    /// What follows it.
    form: Form,
    /// The code, with its prefix above it if it has one.
    number: u32,
    /// Where the operator begins.
    offset: u64,
}

/// Writes the operator of this code, if there is one: else the code, which stands at the offset, is refused.
#[inline(always)]
fn put<'l>(op: Option<Op<'l>>, code: u32, offset: u64, to: &mut Op<'l>) -> Result<(), ReadError>
    ensures read { OnOk result (option_map (λ o. unplaced o) op.entry ≡ Some (unplaced to.new)) }
    ensures refused { OnErr result (option_map (λ o. unplaced o) op.entry ≡ None) }
    ensures covered { IfErr result IsNoVector }
{
    match op {
        Some(op) => {
            *to = op;
            Ok(())
        }
        None => Err(ReadError::illegal(code, offset)),
    }
}

/// The operator on numbers of this code, which stands at the offset.
#[inline(always)]
fn numeric<'l>(code: u32, offset: u64, to: &mut Op<'l>) -> Result<(), ReadError>
    ensures read { OnOk result (option_map (λ o. Numeric o) (from 0x45 numeric_ops code)
        ≡ Some (unplaced to.new)) }
    ensures refused { OnErr result (from 0x45 numeric_ops code ≡ None) }
    ensures covered { IfErr result IsNoVector }
{
    let Some(op) = numeric_op(code) else {
        return Err(ReadError::illegal(code, offset));
    };
    *to = Op::Numeric(op);
    Ok(())
}

/// The conversion of this code, which stands at the offset.
fn conversion<'l>(code: u32, offset: u64, to: &mut Op<'l>) -> Result<(), ReadError>
    ensures read { OnOk result (option_map (λ o. Convert o) (from 0xa7 conversion_ops code)
        ≡ Some (unplaced to.new)) }
    ensures refused { OnErr result (from 0xa7 conversion_ops code ≡ None) }
    ensures covered { IfErr result IsNoVector }
{
    let Some(op) = conversion_op(code) else {
        return Err(ReadError::illegal(code, offset));
    };
    *to = Op::Convert(op);
    Ok(())
}

/// Reads the index of an operator of this code, which stands at the offset.
#[inline(always)]
#[tactic(auto, unfolding(crate::specs::Instructions::index_op))]
fn read_index<'l>(
    reader: &mut BinaryReader<'_>,
    code: u32,
    offset: u64,
    to: &mut Op<'l>,
) -> Result<(), ReadError>
    ensures read { OnOk result (index_op code reader.old.left ≡ Some (unplaced to.new, reader.new.left)) }
    ensures refused { OnErr result (index_op code reader.old.left ≡ None) }
    ensures covered { IfErr result IsNoVector }
{
    let index = reader.read_var_u32()?;
    index_op(code, index, offset, to)
}

/// Reads the indices of an operator of this code, which stands at the offset.
#[tactic(auto, unfolding(crate::specs::Instructions::two_index_op))]
fn read_two_indices<'l>(
    reader: &mut BinaryReader<'_>,
    code: u32,
    offset: u64,
    to: &mut Op<'l>,
) -> Result<(), ReadError>
    ensures read { OnOk result (two_index_op code reader.old.left
        ≡ Some (unplaced to.new, reader.new.left)) }
    ensures refused { OnErr result (two_index_op code reader.old.left ≡ None) }
    ensures covered { IfErr result IsNoVector }
{
    let first = reader.read_var_u32()?;
    let second = reader.read_var_u32()?;
    put(two_index_op(code, first, second), code, offset, to)
}

/// Reads the index of the type of an operator of this code, which stands at the offset.
#[tactic(auto, unfolding(crate::specs::Instructions::type_op))]
fn read_type_index<'l>(
    reader: &mut BinaryReader<'_>,
    canonical: CanonicalTypes<'_>,
    code: u32,
    offset: u64,
    to: &mut Op<'l>,
) -> Result<(), ReadError>
    ensures read { OnOk result (type_op code canonical.entry reader.old.left
        ≡ Some (unplaced to.new, reader.new.left)) }
    ensures refused { OnErr result (type_op code canonical.entry reader.old.left ≡ None) }
    ensures covered { IfErr result IsNoVector }
{
    let ty = canonical.of(reader.read_var_u32()?);
    put(type_op(code, ty), code, offset, to)
}

/// Reads the index of the type of an operator of this code, which stands at the offset, and another index.
#[tactic(auto, unfolding(crate::specs::Instructions::typed_index_op))]
fn read_typed_index<'l>(
    reader: &mut BinaryReader<'_>,
    canonical: CanonicalTypes<'_>,
    code: u32,
    offset: u64,
    to: &mut Op<'l>,
) -> Result<(), ReadError>
    ensures read { OnOk result (typed_index_op code canonical.entry reader.old.left
        ≡ Some (unplaced to.new, reader.new.left)) }
    ensures refused { OnErr result (typed_index_op code canonical.entry reader.old.left ≡ None) }
    ensures covered { IfErr result IsNoVector }
{
    let ty = canonical.of(reader.read_var_u32()?);
    let index = reader.read_var_u32()?;
    put(typed_index_op(code, ty, index), code, offset, to)
}

/// Reads the indices of the types of an operator of this code, which stands at the offset.
#[tactic(auto, unfolding(crate::specs::Instructions::two_type_op))]
fn read_two_types<'l>(
    reader: &mut BinaryReader<'_>,
    canonical: CanonicalTypes<'_>,
    code: u32,
    offset: u64,
    to: &mut Op<'l>,
) -> Result<(), ReadError>
    ensures read { OnOk result (two_type_op code canonical.entry reader.old.left
        ≡ Some (unplaced to.new, reader.new.left)) }
    ensures refused { OnErr result (two_type_op code canonical.entry reader.old.left ≡ None) }
    ensures covered { IfErr result IsNoVector }
{
    let first = canonical.of(reader.read_var_u32()?);
    let second = canonical.of(reader.read_var_u32()?);
    put(two_type_op(code, first, second), code, offset, to)
}

/// Reads the heap type of an operator of this code, which stands at the offset.
#[tactic(auto, unfolding(crate::specs::Instructions::heap_op))]
fn read_heap<'l>(
    reader: &mut BinaryReader<'_>,
    canonical: CanonicalTypes<'_>,
    code: u32,
    offset: u64,
    to: &mut Op<'l>,
) -> Result<(), ReadError>
    ensures read { OnOk result (heap_op code canonical.entry reader.old.left
        ≡ Some (unplaced to.new, reader.new.left)) }
    ensures refused { OnErr result (heap_op code canonical.entry reader.old.left ≡ None) }
    ensures covered { IfErr result IsNoVector }
{
    let ty = read_heap_type(reader, canonical)?;
    put(heap_op(code, ty), code, offset, to)
}

/// Reads the cast of an operator of this code, which stands at the offset.
#[tactic(auto, unfolding(crate::specs::Instructions::cast_op))]
fn read_branch_cast<'l>(
    reader: &mut BinaryReader<'_>,
    canonical: CanonicalTypes<'_>,
    code: u32,
    offset: u64,
    to: &mut Op<'l>,
) -> Result<(), ReadError>
    ensures read { OnOk result (cast_op code canonical.entry reader.old.left
        ≡ Some (unplaced to.new, reader.new.left)) }
    ensures refused { OnErr result (cast_op code canonical.entry reader.old.left ≡ None) }
    ensures covered { IfErr result IsNoVector }
{
    let cast = read_cast(reader, canonical)?;
    put(cast_op(code, cast), code, offset, to)
}

/// Reads the type of the block of an operator of this code, which stands at the offset.
#[tactic(auto, unfolding(crate::specs::Instructions::block_op))]
fn read_block<'l>(
    reader: &mut BinaryReader<'_>,
    canonical: CanonicalTypes<'_>,
    code: u32,
    offset: u64,
    to: &mut Op<'l>,
) -> Result<(), ReadError>
    ensures read { OnOk result (block_op code canonical.entry reader.old.left
        ≡ Some (unplaced to.new, reader.new.left)) }
    ensures refused { OnErr result (block_op code canonical.entry reader.old.left ≡ None) }
    ensures covered { IfErr result IsNoVector }
{
    let ty = read_block_type(reader, canonical)?;
    put(block_op(code, ty), code, offset, to)
}

/// Reads the place in a memory of an operator of this code, which stands at the offset.
#[tactic(auto, unfolding(crate::specs::Instructions::access_op))]
fn read_access<'l>(
    reader: &mut BinaryReader<'_>,
    code: u32,
    offset: u64,
    to: &mut Op<'l>,
) -> Result<(), ReadError>
    ensures read { OnOk result (access_op code reader.old.left ≡ Some (unplaced to.new, reader.new.left)) }
    ensures refused { OnErr result (access_op code reader.old.left ≡ None) }
    ensures covered { IfErr result IsNoVector }
{
    let place = read_memarg(reader)?;
    put(access_op(code, place), code, offset, to)
}

/// Reads the place in a memory of an atomic operator of this code, which stands at the offset.
#[tactic(auto, unfolding(crate::specs::Instructions::atomic_op))]
fn read_atomic<'l>(
    reader: &mut BinaryReader<'_>,
    code: u32,
    offset: u64,
    to: &mut Op<'l>,
) -> Result<(), ReadError>
    ensures read { OnOk result (atomic_op code reader.old.left ≡ Some (unplaced to.new, reader.new.left)) }
    ensures refused { OnErr result (atomic_op code reader.old.left ≡ None) }
    ensures covered { IfErr result IsNoVector }
{
    let place = read_memarg(reader)?;
    put(
        atomic_op(code.saturating_sub(0xfe10), place),
        code,
        offset,
        to,
    )
}

/// Reads the integer of an `i32.const`.
#[inline(always)]
#[tactic(auto, unfolding(crate::specs::Instructions::constant_i32))]
fn read_i32<'l>(reader: &mut BinaryReader<'_>, to: &mut Op<'l>) -> Result<(), ReadError>
    ensures read { OnOk result (constant_i32 reader.old.left ≡ Some (unplaced to.new, reader.new.left)) }
    ensures refused { OnErr result (constant_i32 reader.old.left ≡ None) }
    ensures covered { IfErr result IsNoVector }
{
    let value = reader.read_var_i32()?;
    *to = Op::Numeric(NumericOp::I32Const(value));
    Ok(())
}

/// Reads the integer of an `i64.const`.
#[tactic(auto, unfolding(crate::specs::Instructions::constant_i64))]
fn read_i64<'l>(reader: &mut BinaryReader<'_>, to: &mut Op<'l>) -> Result<(), ReadError>
    ensures read { OnOk result (constant_i64 reader.old.left ≡ Some (unplaced to.new, reader.new.left)) }
    ensures refused { OnErr result (constant_i64 reader.old.left ≡ None) }
    ensures covered { IfErr result IsNoVector }
{
    let value = reader.read_var_i64()?;
    *to = Op::Numeric(NumericOp::I64Const(value));
    Ok(())
}

/// Reads the float of an `f32.const`.
#[tactic(auto, unfolding(crate::specs::Instructions::constant_f32))]
fn read_f32<'l>(reader: &mut BinaryReader<'_>, to: &mut Op<'l>) -> Result<(), ReadError>
    ensures read { OnOk result (constant_f32 reader.old.left ≡ Some (unplaced to.new, reader.new.left)) }
    ensures refused { OnErr result (constant_f32 reader.old.left ≡ None) }
    ensures covered { IfErr result IsNoVector }
{
    let bits = reader.read_f32()?;
    *to = Op::Numeric(NumericOp::F32Const(Ieee32(bits)));
    Ok(())
}

/// Reads the float of an `f64.const`.
#[tactic(auto, unfolding(crate::specs::Instructions::constant_f64))]
fn read_f64<'l>(reader: &mut BinaryReader<'_>, to: &mut Op<'l>) -> Result<(), ReadError>
    ensures read { OnOk result (constant_f64 reader.old.left ≡ Some (unplaced to.new, reader.new.left)) }
    ensures refused { OnErr result (constant_f64 reader.old.left ≡ None) }
    ensures covered { IfErr result IsNoVector }
{
    let bits = reader.read_f64()?;
    *to = Op::Numeric(NumericOp::F64Const(Ieee64(bits)));
    Ok(())
}

/// Reads the order of an `atomic.fence`.
#[tactic(auto, unfolding(crate::specs::Instructions::fence_op))]
fn read_fence<'l>(reader: &mut BinaryReader<'_>, to: &mut Op<'l>) -> Result<(), ReadError>
    ensures read { OnOk result (fence_op reader.old.left ≡ Some (unplaced to.new, reader.new.left)) }
    ensures refused { OnErr result (fence_op reader.old.left ≡ None) }
    ensures covered { IfErr result IsNoVector }
{
    let ordering = read_ordering(reader)?;
    *to = Op::Atomic(AtomicOp::AtomicFence(ordering));
    Ok(())
}

/// Reads the order and the global of an operator of this code, which stands at the offset.
#[tactic(auto, unfolding(crate::specs::Instructions::global_op))]
fn read_global<'l>(
    reader: &mut BinaryReader<'_>,
    code: u32,
    offset: u64,
    to: &mut Op<'l>,
) -> Result<(), ReadError>
    ensures read { OnOk result (global_op code reader.old.left ≡ Some (unplaced to.new, reader.new.left)) }
    ensures refused { OnErr result (global_op code reader.old.left ≡ None) }
    ensures covered { IfErr result IsNoVector }
{
    let ordering = read_ordering(reader)?;
    let global_index = reader.read_var_u32()?;
    let Some(access) = global_access(code) else {
        return Err(ReadError::illegal(code, offset));
    };
    *to = Op::Shared(SharedOp::Global {
        access,
        ordering,
        global_index,
    });
    Ok(())
}

/// Reads the order and the table of an operator of this code, which stands at the offset.
#[tactic(auto, unfolding(crate::specs::Instructions::table_op))]
fn read_table<'l>(
    reader: &mut BinaryReader<'_>,
    code: u32,
    offset: u64,
    to: &mut Op<'l>,
) -> Result<(), ReadError>
    ensures read { OnOk result (table_op code reader.old.left ≡ Some (unplaced to.new, reader.new.left)) }
    ensures refused { OnErr result (table_op code reader.old.left ≡ None) }
    ensures covered { IfErr result IsNoVector }
{
    let ordering = read_ordering(reader)?;
    let table_index = reader.read_var_u32()?;
    let Some(access) = table_access(code) else {
        return Err(ReadError::illegal(code, offset));
    };
    *to = Op::Shared(SharedOp::Table {
        access,
        ordering,
        table_index,
    });
    Ok(())
}

/// Reads the order and the field of an operator of this code, which stands at the offset.
#[tactic(auto, unfolding(crate::specs::Instructions::field_op))]
fn read_field<'l>(
    reader: &mut BinaryReader<'_>,
    canonical: CanonicalTypes<'_>,
    code: u32,
    offset: u64,
    to: &mut Op<'l>,
) -> Result<(), ReadError>
    ensures read { OnOk result (field_op code canonical.entry reader.old.left
        ≡ Some (unplaced to.new, reader.new.left)) }
    ensures refused { OnErr result (field_op code canonical.entry reader.old.left ≡ None) }
    ensures covered { IfErr result IsNoVector }
{
    let ordering = read_ordering(reader)?;
    let struct_type_index = canonical.of(reader.read_var_u32()?);
    let field_index = reader.read_var_u32()?;
    let field = FieldIndex {
        struct_type_index,
        field_index,
    };
    let Some(access) = field_access(0xfe5c, code) else {
        return Err(ReadError::illegal(code, offset));
    };
    *to = Op::Shared(SharedOp::Struct {
        access,
        ordering,
        field,
    });
    Ok(())
}

/// Reads the order and the array type of an operator of this code, which stands at the offset.
#[tactic(auto, unfolding(crate::specs::Instructions::array_op))]
fn read_array<'l>(
    reader: &mut BinaryReader<'_>,
    canonical: CanonicalTypes<'_>,
    code: u32,
    offset: u64,
    to: &mut Op<'l>,
) -> Result<(), ReadError>
    ensures read { OnOk result (array_op code canonical.entry reader.old.left
        ≡ Some (unplaced to.new, reader.new.left)) }
    ensures refused { OnErr result (array_op code canonical.entry reader.old.left ≡ None) }
    ensures covered { IfErr result IsNoVector }
{
    let ordering = read_ordering(reader)?;
    let type_index = canonical.of(reader.read_var_u32()?);
    let Some(access) = field_access(0xfe67, code) else {
        return Err(ReadError::illegal(code, offset));
    };
    *to = Op::Shared(SharedOp::Array {
        access,
        ordering,
        type_index,
    });
    Ok(())
}

/// Reads the labels of a `br_table`, which it is lent.
#[tactic(auto, unfolding(crate::specs::Instructions::branch_table))]
fn read_branch_table<'l>(
    reader: &mut BinaryReader<'_>,
    canonical: CanonicalTypes<'_>,
    labels: &'l mut Vec<u32>,
    to: &mut Op<'l>,
) -> Result<(), ReadError>
    ensures read { OnOk result (branch_table reader.old.left ≡ Some (unplaced to.new, reader.new.left)) }
    ensures refused { IfErr result (λ e. e.cause ≢ OutOfMemory → branch_table reader.old.left ≡ None) }
    ensures covered { IfErr result IsNoVector }
{
    read_list(reader, canonical, labels)?;
    let default = reader.read_var_u32()?;
    *to = Op::Control(ControlOp::BrTable(BrTable {
        targets: labels.as_slice(),
        complete: true,
        default,
    }));
    Ok(())
}

/// The `select` of these types.
fn select<'l>(types: &'l [ValType]) -> Op<'l>
    ensures { unplaced result ≡ select_of types.now }
{
    if let [ty] = types {
        return Op::Control(ControlOp::TypedSelect(*ty));
    }
    Op::Control(ControlOp::TypedSelectMulti(types))
}

/// Reads the types of a `select`, which it is lent.
#[tactic(auto, unfolding(crate::specs::Instructions::select_op))]
fn read_select<'l>(
    reader: &mut BinaryReader<'_>,
    canonical: CanonicalTypes<'_>,
    types: &'l mut Vec<ValType>,
    to: &mut Op<'l>,
) -> Result<(), ReadError>
    ensures read { OnOk result (select_op canonical.entry reader.old.left
        ≡ Some (unplaced to.new, reader.new.left)) }
    ensures refused { IfErr result (λ e. e.cause ≢ OutOfMemory
        → select_op canonical.entry reader.old.left ≡ None) }
    ensures covered { IfErr result IsNoVector }
{
    read_list(reader, canonical, types)?;
    *to = select(types.as_slice());
    Ok(())
}

/// Reads the type of a `try_table` and its clauses, which it is lent.
#[tactic(auto, unfolding(crate::specs::Instructions::try_table_op))]
fn read_try_table<'l>(
    reader: &mut BinaryReader<'_>,
    canonical: CanonicalTypes<'_>,
    catches: &'l mut Vec<Catch>,
    to: &mut Op<'l>,
) -> Result<(), ReadError>
    ensures read { OnOk result (try_table_op canonical.entry reader.old.left
        ≡ Some (unplaced to.new, reader.new.left)) }
    ensures refused { IfErr result (λ e. e.cause ≢ OutOfMemory
        → try_table_op canonical.entry reader.old.left ≡ None) }
    ensures covered { IfErr result IsNoVector }
{
    let ty = read_block_type(reader, canonical)?;
    read_list(reader, canonical, catches)?;
    *to = Op::Exception(ExceptionOp::TryTable(TryTable {
        ty,
        catches: catches.as_slice(),
    }));
    Ok(())
}

/// The operator of this code that resumes a continuation of this type with these handlers, and throws nothing
/// new.
#[tactic(auto, unfolding(crate::specs::Instructions::resume_ops))]
fn resume<'l>(code: u32, cont_type_index: u32, handlers: &'l [Handle]) -> Option<Op<'l>>
    ensures { option_map (λ op. unplaced op) result
        ≡ option_map (λ make. make cont_type_index (resume_table handlers.now)) (at code resume_ops) }
{
    let resume_table = ResumeTable { handlers };
    let op = match code {
        0xe3 => ContinuationOp::Resume {
            cont_type_index,
            resume_table,
        },
        0xe5 => ContinuationOp::ResumeThrowRef {
            cont_type_index,
            resume_table,
        },
        _ => return None,
    };
    Some(Op::Continuation(op))
}

/// Reads the type of an operator of this code, and its handlers, which it is lent.
#[tactic(auto, unfolding(crate::specs::Instructions::resume_op))]
fn read_resume<'l>(
    reader: &mut BinaryReader<'_>,
    canonical: CanonicalTypes<'_>,
    handlers: &'l mut Vec<Handle>,
    code: Code,
    to: &mut Op<'l>,
) -> Result<(), ReadError>
    ensures read { OnOk result (resume_op code.number canonical.entry reader.old.left
        ≡ Some (unplaced to.new, reader.new.left)) }
    ensures refused { IfErr result (λ e. e.cause ≢ OutOfMemory
        → resume_op code.number canonical.entry reader.old.left ≡ None) }
    ensures covered { IfErr result IsNoVector }
{
    let Code { number, offset, .. } = code;
    let ty = canonical.of(reader.read_var_u32()?);
    read_list(reader, canonical, handlers)?;
    put(resume(number, ty, handlers.as_slice()), number, offset, to)
}

/// Reads the type of a `resume_throw`, the tag of what it throws, and its handlers, which it is lent.
#[tactic(auto, unfolding(crate::specs::Instructions::resume_throw_op))]
fn read_resume_throw<'l>(
    reader: &mut BinaryReader<'_>,
    canonical: CanonicalTypes<'_>,
    handlers: &'l mut Vec<Handle>,
    to: &mut Op<'l>,
) -> Result<(), ReadError>
    ensures read { OnOk result (resume_throw_op canonical.entry reader.old.left
        ≡ Some (unplaced to.new, reader.new.left)) }
    ensures refused { IfErr result (λ e. e.cause ≢ OutOfMemory
        → resume_throw_op canonical.entry reader.old.left ≡ None) }
    ensures covered { IfErr result IsNoVector }
{
    let cont_type_index = canonical.of(reader.read_var_u32()?);
    let tag_index = reader.read_var_u32()?;
    read_list(reader, canonical, handlers)?;
    *to = Op::Continuation(ContinuationOp::ResumeThrow {
        cont_type_index,
        tag_index,
        resume_table: ResumeTable {
            handlers: handlers.as_slice(),
        },
    });
    Ok(())
}

/// Reads the immediates of an operator of this code, by their form. Its list, if it has one, is lent.
#[inline(never)]
fn read_by<'l>(
    reader: &mut BinaryReader<'_>,
    canonical: CanonicalTypes<'_>,
    lists: &'l mut OperatorLists,
    code: Code,
    to: &mut Op<'l>,
) -> Result<(), ReadError>
    ensures read { OnOk result (operator_by code.form code.number canonical.entry reader.old.left
        ≡ Some (unplaced to.new, reader.new.left)) }
    ensures refused { IfErr result (λ e. e.cause ≢ OutOfMemory
        → operator_by code.form code.number canonical.entry reader.old.left ≡ None) }
    ensures covered { IfErr result IsNoVector }
{
    let Code {
        form,
        number,
        offset,
    } = code;
    match form {
        Form::Plain => plain_op(number, offset, to),
        Form::Block => read_block(reader, canonical, number, offset, to),
        Form::Index => read_index(reader, number, offset, to),
        Form::TwoIndices => read_two_indices(reader, number, offset, to),
        Form::TypeIndex => read_type_index(reader, canonical, number, offset, to),
        Form::TypedIndex => read_typed_index(reader, canonical, number, offset, to),
        Form::TwoTypes => read_two_types(reader, canonical, number, offset, to),
        Form::Heap => read_heap(reader, canonical, number, offset, to),
        Form::Cast => read_branch_cast(reader, canonical, number, offset, to),
        Form::Access => read_access(reader, number, offset, to),
        Form::Atomic => read_atomic(reader, number, offset, to),
        Form::I32 => read_i32(reader, to),
        Form::I64 => read_i64(reader, to),
        Form::F32 => read_f32(reader, to),
        Form::F64 => read_f64(reader, to),
        Form::Numeric => numeric(number, offset, to),
        Form::Conversion => conversion(number, offset, to),
        Form::Labels => read_branch_table(reader, canonical, &mut lists.labels, to),
        Form::Types => read_select(reader, canonical, &mut lists.types, to),
        Form::Clauses => read_try_table(reader, canonical, &mut lists.catches, to),
        Form::Handlers => read_resume(reader, canonical, &mut lists.handlers, code, to),
        Form::Thrown => read_resume_throw(reader, canonical, &mut lists.handlers, to),
        Form::Fence => read_fence(reader, to),
        Form::Global => read_global(reader, number, offset, to),
        Form::Table => read_table(reader, number, offset, to),
        Form::Field => read_field(reader, canonical, number, offset, to),
        Form::Array => read_array(reader, canonical, number, offset, to),
        Form::Illegal | Form::Prefix | Form::Vector => Err(ReadError::illegal(number, offset)),
    }
}

/// Reads the operator behind this prefix, which is the byte before.
#[inline(never)]
#[tactic(auto, unfolding(crate::specs::Instructions::prefixed_op))]
fn read_prefixed<'l>(
    reader: &mut BinaryReader<'_>,
    canonical: CanonicalTypes<'_>,
    lists: &'l mut OperatorLists,
    prefix: u8,
    to: &mut Op<'l>,
) -> Result<(), ReadError>
    ensures read { OnOk result (prefixed_op prefix canonical.entry reader.old.left
        ≡ Some (unplaced to.new, reader.new.left)) }
    ensures refused { IfErr result (λ e. e.cause ≢ OutOfMemory
        → prefixed_op prefix canonical.entry reader.old.left ≡ None) }
    ensures covered { IfErr result IsNoVector }
{
    let offset = reader.offset().saturating_sub(1);
    let code = reader.read_var_u32()?;
    let Some(form) = form_behind(prefix, code) else {
        return Err(ReadError::no_operator(Some(prefix), code, offset));
    };
    let number = u32::from(prefix) * 0x100 + code;
    read_by(
        reader,
        canonical,
        lists,
        Code {
            form,
            number,
            offset,
        },
        to,
    )
}

/// Reads an operator of this code, which is the byte before, by its form, if there is such an operator.
#[inline(never)]
fn read_rare<'l>(
    reader: &mut BinaryReader<'_>,
    canonical: &CanonicalTypes<'_>,
    lists: &'l mut OperatorLists,
    code: u8,
    to: &mut Op<'l>,
) -> Result<(), ReadError>
    ensures read { OnOk result (operator_of (from 0 forms code) code canonical.now reader.old.left
        ≡ Some (unplaced to.new, reader.new.left)) }
    ensures refused { IfErr result (λ e. e.cause ≢ OutOfMemory
        → operator_of (from 0 forms code) code canonical.now reader.old.left ≡ None) }
    ensures vector { IfErr result (λ e. e.cause ≡ VectorOperator → code ≡ 0xfd) }
{
    let offset = reader.offset().saturating_sub(1);
    let number = u32::from(code);
    match form_of(code) {
        Some(Form::Prefix) => read_prefixed(reader, *canonical, lists, code, to),
        Some(Form::Vector) => Err(ReadError::vector_operator(offset)),
        Some(form) => read_by(
            reader,
            *canonical,
            lists,
            Code {
                form,
                number,
                offset,
            },
            to,
        ),
        None => Err(ReadError::illegal(number, offset)),
    }
}

/// Reads one operator, as [`read_operator`] does, into this place: an operator is large, and isn't copied so. Where it
/// refuses, what stands there says nothing.
#[inline(always)]
#[tactic(auto, unfolding(crate::specs::Instructions::operator))]
pub fn read_operator_into<'l>(
    reader: &mut BinaryReader<'_>,
    canonical: &CanonicalTypes<'_>,
    lists: &'l mut OperatorLists,
    to: &mut Op<'l>,
) -> Result<(), ReadError>
    ensures read { OnOk result (operator canonical.now reader.old.left
        ≡ Some (unplaced to.new, reader.new.left)) }
    ensures refused { IfErr result (λ e. e.cause ≢ OutOfMemory
        → operator canonical.now reader.old.left ≡ None) }
    ensures vector { IfErr result (λ e. e.cause ≡ VectorOperator → BeginVector reader.old.left) }
{
    let offset = reader.offset();
    let code = reader.read_u8()?;
    match form_of(code) {
        // Most operators have one of these forms: they are read in line.
        Some(Form::Index) => read_index(reader, u32::from(code), offset, to),
        Some(Form::Numeric) => numeric(u32::from(code), offset, to),
        Some(Form::Plain) => plain_op(u32::from(code), offset, to),
        Some(Form::I32) => read_i32(reader, to),
        _ => read_rare(reader, canonical, lists, code, to),
    }
}

/// Reads one operator, which is lent its list out of the buffers. It refuses `illegal opcode` for a code that
/// no operator has, a vector operator as such, what the reads of the immediates refuse, and want of memory
/// for the list. But for want of memory the bytes that it refuses begin with no operator (of `specs/`, which has no
/// vector operators).
pub fn read_operator<'l>(
    reader: &mut BinaryReader<'_>,
    canonical: CanonicalTypes<'_>,
    lists: &'l mut OperatorLists,
) -> Result<Op<'l>, ReadError>
    ensures read { IfOk result (λ op. operator canonical.entry reader.old.left
        ≡ Some (unplaced op, reader.new.left)) }
    ensures refused { IfErr result (λ e. e.cause ≢ OutOfMemory
        → operator canonical.entry reader.old.left ≡ None) }
    ensures vector { IfErr result (λ e. e.cause ≡ VectorOperator → BeginVector reader.old.left) }
{
    let mut op = Op::Numeric(NumericOp::I32Const(0));
    read_operator_into(reader, &canonical, lists, &mut op)?;
    Ok(op)
}
