//! Operators by their codes (WebAssembly core specification, "Binary Format: Instructions", and the
//! proposals): a table for each form. A code behind a prefix has the prefix above it, as 0xfb0f.
//!
//! `.ci/generate` writes the arms of the tables from `operators.tsv`.

ghost use Rattle.std.specs.Prelude.{◌≡◌, Some, None, option_map, OnOk, IfErr, OnErr};
ghost use Rattle.binary_operators.specs.Codes.{at, plain_ops, index_ops, two_index_ops, type_ops};
ghost use Rattle.binary_operators.specs.Codes.{typed_index_ops};
ghost use Rattle.binary_operators.specs.Codes.{two_type_ops, heap_ops, cast_ops, block_ops, natural};
ghost use Rattle.binary_operators.specs.Codes.{access_ops};
ghost use Rattle.binary_operators.specs.Unplaced.{unplaced};
ghost use Rattle.binary_operators.specs.Vectors.{IsNoVector};

use crate::error::ReadError;
use validate_types::HeapType;
use validate_visit::{
    ArrayOp, AtomicOp, BlockType, BranchCast, ContinuationOp, ControlOp, ConvertOp, ExceptionOp,
    FieldIndex, FloatType, IntegerType, MemArg, MemoryOp, NumberType, NumericOp, Op, PackedInteger,
    ReferenceOp, SharedOp, Sign, StructOp, TableOp,
};

/// Writes the operator of this code that has no immediates. It refuses a code that no such operator has, which stands
/// at the offset. Most operators are written like this, in place, since one is large: the other tables answer theirs.
#[inline(always)]
#[tactic(auto, unfolding(crate::specs::Codes::plain_ops))]
pub(crate) fn plain_op<'l>(code: u32, offset: u64, to: &mut Op<'l>) -> Result<(), ReadError>
    ensures read { OnOk result (at code plain_ops ≡ Some (unplaced to.new)) }
    ensures refused { OnErr result (at code plain_ops ≡ None) }
    ensures covered { IfErr result IsNoVector }
{
    match code {
        0x00 => *to = Op::Control(ControlOp::Unreachable),
        0x01 => *to = Op::Control(ControlOp::Nop),
        0x05 => *to = Op::Control(ControlOp::Else),
        0x0a => *to = Op::Exception(ExceptionOp::ThrowRef),
        0x0b => *to = Op::Control(ControlOp::End),
        0x0f => *to = Op::Control(ControlOp::Return),
        0x19 => *to = Op::Exception(ExceptionOp::CatchAll),
        0x1a => *to = Op::Control(ControlOp::Drop),
        0x1b => *to = Op::Control(ControlOp::Select),
        0xd1 => *to = Op::Reference(ReferenceOp::RefIsNull),
        0xd3 => *to = Op::Reference(ReferenceOp::RefEq),
        0xd4 => *to = Op::Reference(ReferenceOp::RefAsNonNull),
        0xfb0f => *to = Op::Array(ArrayOp::ArrayLen),
        0xfb1a => *to = Op::Reference(ReferenceOp::AnyConvertExtern),
        0xfb1b => *to = Op::Reference(ReferenceOp::ExternConvertAny),
        0xfb1c => *to = Op::Reference(ReferenceOp::RefI31),
        0xfb1d => *to = Op::Reference(ReferenceOp::I31Get(Sign::Signed)),
        0xfb1e => *to = Op::Reference(ReferenceOp::I31Get(Sign::Unsigned)),
        0xfc00 => *to = Op::Convert(ConvertOp::TruncSat(
            IntegerType::I32,
            FloatType::F32,
            Sign::Signed,
        )),
        0xfc01 => *to = Op::Convert(ConvertOp::TruncSat(
            IntegerType::I32,
            FloatType::F32,
            Sign::Unsigned,
        )),
        0xfc02 => *to = Op::Convert(ConvertOp::TruncSat(
            IntegerType::I32,
            FloatType::F64,
            Sign::Signed,
        )),
        0xfc03 => *to = Op::Convert(ConvertOp::TruncSat(
            IntegerType::I32,
            FloatType::F64,
            Sign::Unsigned,
        )),
        0xfc04 => *to = Op::Convert(ConvertOp::TruncSat(
            IntegerType::I64,
            FloatType::F32,
            Sign::Signed,
        )),
        0xfc05 => *to = Op::Convert(ConvertOp::TruncSat(
            IntegerType::I64,
            FloatType::F32,
            Sign::Unsigned,
        )),
        0xfc06 => *to = Op::Convert(ConvertOp::TruncSat(
            IntegerType::I64,
            FloatType::F64,
            Sign::Signed,
        )),
        0xfc07 => *to = Op::Convert(ConvertOp::TruncSat(
            IntegerType::I64,
            FloatType::F64,
            Sign::Unsigned,
        )),
        0xfc13 => *to = Op::Numeric(NumericOp::Add128),
        0xfc14 => *to = Op::Numeric(NumericOp::Sub128),
        0xfc15 => *to = Op::Numeric(NumericOp::MulWide(Sign::Signed)),
        0xfc16 => *to = Op::Numeric(NumericOp::MulWide(Sign::Unsigned)),
        0xfe04 => *to = Op::Atomic(AtomicOp::Pause),
        0xfe72 => *to = Op::Shared(SharedOp::RefI31Shared),
        _ => return Err(ReadError::illegal(code, offset)),
    }
    Ok(())
}

/// Writes the operator of this code whose immediate is this index. It refuses a code that no such operator has, which
/// stands at the offset.
#[inline(always)]
#[tactic(auto, unfolding(crate::specs::Codes::index_ops))]
pub(crate) fn index_op<'l>(
    code: u32,
    index: u32,
    offset: u64,
    to: &mut Op<'l>,
) -> Result<(), ReadError>
    ensures read { OnOk result (option_map (λ make. make index) (at code index_ops) ≡ Some (unplaced to.new)) }
    ensures refused { OnErr result (at code index_ops ≡ None) }
    ensures covered { IfErr result IsNoVector }
{
    match code {
        0x07 => *to = Op::Exception(ExceptionOp::Catch(index)),
        0x08 => *to = Op::Exception(ExceptionOp::Throw(index)),
        0x09 => *to = Op::Exception(ExceptionOp::Rethrow(index)),
        0x0c => *to = Op::Control(ControlOp::Br(index)),
        0x0d => *to = Op::Control(ControlOp::BrIf(index)),
        0x10 => *to = Op::Control(ControlOp::Call(index)),
        0x12 => *to = Op::Control(ControlOp::ReturnCall(index)),
        0x18 => *to = Op::Exception(ExceptionOp::Delegate(index)),
        0x20 => *to = Op::Control(ControlOp::LocalGet(index)),
        0x21 => *to = Op::Control(ControlOp::LocalSet(index)),
        0x22 => *to = Op::Control(ControlOp::LocalTee(index)),
        0x23 => *to = Op::Control(ControlOp::GlobalGet(index)),
        0x24 => *to = Op::Control(ControlOp::GlobalSet(index)),
        0x25 => *to = Op::Table(TableOp::TableGet(index)),
        0x26 => *to = Op::Table(TableOp::TableSet(index)),
        0x3f => *to = Op::Memory(MemoryOp::MemorySize(index)),
        0x40 => *to = Op::Memory(MemoryOp::MemoryGrow(index)),
        0xd2 => *to = Op::Reference(ReferenceOp::RefFunc(index)),
        0xd5 => *to = Op::Reference(ReferenceOp::BrOnNull(index)),
        0xd6 => *to = Op::Reference(ReferenceOp::BrOnNonNull(index)),
        0xe2 => *to = Op::Continuation(ContinuationOp::Suspend(index)),
        0xfc09 => *to = Op::Memory(MemoryOp::DataDrop(index)),
        0xfc0b => *to = Op::Memory(MemoryOp::MemoryFill(index)),
        0xfc0d => *to = Op::Table(TableOp::ElemDrop(index)),
        0xfc0f => *to = Op::Table(TableOp::TableGrow(index)),
        0xfc10 => *to = Op::Table(TableOp::TableSize(index)),
        0xfc11 => *to = Op::Table(TableOp::TableFill(index)),
        0xfc12 => *to = Op::Memory(MemoryOp::MemoryDiscard(index)),
        _ => return Err(ReadError::illegal(code, offset)),
    }
    Ok(())
}

/// The operator of this code whose immediates are these two indices.
#[tactic(auto, unfolding(crate::specs::Codes::two_index_ops))]
pub(crate) fn two_index_op<'l>(code: u32, first: u32, second: u32) -> Option<Op<'l>>
    ensures { option_map (λ op. unplaced op) result
        ≡ option_map (λ make. make first second) (at code two_index_ops) }
{
    let op = match code {
        0xfc08 => Op::Memory(MemoryOp::MemoryInit {
            data_index: first,
            mem: second,
        }),
        0xfc0a => Op::Memory(MemoryOp::MemoryCopy {
            dst_mem: first,
            src_mem: second,
        }),
        0xfc0c => Op::Table(TableOp::TableInit {
            elem_index: first,
            table: second,
        }),
        0xfc0e => Op::Table(TableOp::TableCopy {
            dst_table: first,
            src_table: second,
        }),
        _ => return None,
    };
    Some(op)
}

/// The operator of this code whose immediate is this index of a type.
#[tactic(auto, unfolding(crate::specs::Codes::type_ops))]
pub(crate) fn type_op<'l>(code: u32, ty: u32) -> Option<Op<'l>>
    ensures { option_map (λ op. unplaced op) result ≡ option_map (λ make. make ty) (at code type_ops) }
{
    let op = match code {
        0x14 => Op::Control(ControlOp::CallRef(ty)),
        0x15 => Op::Control(ControlOp::ReturnCallRef(ty)),
        0xe0 => Op::Continuation(ContinuationOp::ContNew(ty)),
        0xfb00 => Op::Struct(StructOp::StructNew(ty)),
        0xfb01 => Op::Struct(StructOp::StructNewDefault(ty)),
        0xfb06 => Op::Array(ArrayOp::ArrayNew(ty)),
        0xfb07 => Op::Array(ArrayOp::ArrayNewDefault(ty)),
        0xfb0b => Op::Array(ArrayOp::ArrayGet(ty)),
        0xfb0c => Op::Array(ArrayOp::ArrayGetPacked(Sign::Signed, ty)),
        0xfb0d => Op::Array(ArrayOp::ArrayGetPacked(Sign::Unsigned, ty)),
        0xfb0e => Op::Array(ArrayOp::ArraySet(ty)),
        0xfb10 => Op::Array(ArrayOp::ArrayFill(ty)),
        0xfb20 => Op::Struct(StructOp::StructNewDesc(ty)),
        0xfb21 => Op::Struct(StructOp::StructNewDefaultDesc(ty)),
        0xfb22 => Op::Reference(ReferenceOp::RefGetDesc(ty)),
        _ => return None,
    };
    Some(op)
}

/// The operator of this code whose immediates are this index of a type and another index.
#[tactic(auto, unfolding(crate::specs::Codes::typed_index_ops))]
pub(crate) fn typed_index_op<'l>(code: u32, ty: u32, index: u32) -> Option<Op<'l>>
    ensures { option_map (λ op. unplaced op) result
        ≡ option_map (λ make. make ty index) (at code typed_index_ops) }
{
    let field = FieldIndex {
        struct_type_index: ty,
        field_index: index,
    };
    let op = match code {
        0x11 => Op::Control(ControlOp::CallIndirect {
            type_index: ty,
            table_index: index,
        }),
        0x13 => Op::Control(ControlOp::ReturnCallIndirect {
            type_index: ty,
            table_index: index,
        }),
        0xe6 => Op::Continuation(ContinuationOp::Switch {
            cont_type_index: ty,
            tag_index: index,
        }),
        0xfb02 => Op::Struct(StructOp::StructGet(field)),
        0xfb03 => Op::Struct(StructOp::StructGetPacked(Sign::Signed, field)),
        0xfb04 => Op::Struct(StructOp::StructGetPacked(Sign::Unsigned, field)),
        0xfb05 => Op::Struct(StructOp::StructSet(field)),
        0xfb08 => Op::Array(ArrayOp::ArrayNewFixed {
            array_type_index: ty,
            array_size: index,
        }),
        0xfb09 => Op::Array(ArrayOp::ArrayNewData {
            array_type_index: ty,
            array_data_index: index,
        }),
        0xfb0a => Op::Array(ArrayOp::ArrayNewElem {
            array_type_index: ty,
            array_elem_index: index,
        }),
        0xfb12 => Op::Array(ArrayOp::ArrayInitData {
            array_type_index: ty,
            array_data_index: index,
        }),
        0xfb13 => Op::Array(ArrayOp::ArrayInitElem {
            array_type_index: ty,
            array_elem_index: index,
        }),
        _ => return None,
    };
    Some(op)
}

/// The operator of this code whose immediates are these indices of types.
#[tactic(auto, unfolding(crate::specs::Codes::two_type_ops))]
pub(crate) fn two_type_op<'l>(code: u32, first: u32, second: u32) -> Option<Op<'l>>
    ensures { option_map (λ op. unplaced op) result
        ≡ option_map (λ make. make first second) (at code two_type_ops) }
{
    let op = match code {
        0xe1 => Op::Continuation(ContinuationOp::ContBind {
            argument_index: first,
            result_index: second,
        }),
        0xfb11 => Op::Array(ArrayOp::ArrayCopy {
            array_type_index_dst: first,
            array_type_index_src: second,
        }),
        _ => return None,
    };
    Some(op)
}

/// The operator of this code whose immediate is this heap type.
#[tactic(auto, unfolding(crate::specs::Codes::heap_ops))]
pub(crate) fn heap_op<'l>(code: u32, ty: HeapType) -> Option<Op<'l>>
    ensures { option_map (λ op. unplaced op) result ≡ option_map (λ make. make ty) (at code heap_ops) }
{
    let op = match code {
        0xd0 => ReferenceOp::RefNull(ty),
        0xfb14 => ReferenceOp::RefTestNonNull(ty),
        0xfb15 => ReferenceOp::RefTestNullable(ty),
        0xfb16 => ReferenceOp::RefCastNonNull(ty),
        0xfb17 => ReferenceOp::RefCastNullable(ty),
        0xfb23 => ReferenceOp::RefCastDescEqNonNull(ty),
        0xfb24 => ReferenceOp::RefCastDescEqNullable(ty),
        _ => return None,
    };
    Some(Op::Reference(op))
}

/// The operator of this code that branches by this cast.
#[tactic(auto, unfolding(crate::specs::Codes::cast_ops))]
pub(crate) fn cast_op<'l>(code: u32, cast: BranchCast) -> Option<Op<'l>>
    ensures { option_map (λ op. unplaced op) result ≡ option_map (λ make. make cast) (at code cast_ops) }
{
    let op = match code {
        0xfb18 => ReferenceOp::BrOnCast(cast),
        0xfb19 => ReferenceOp::BrOnCastFail(cast),
        0xfb25 => ReferenceOp::BrOnCastDescEq(cast),
        0xfb26 => ReferenceOp::BrOnCastDescEqFail(cast),
        _ => return None,
    };
    Some(Op::Reference(op))
}

/// The operator of this code that opens a block of this type.
#[tactic(auto, unfolding(crate::specs::Codes::block_ops))]
pub(crate) fn block_op<'l>(code: u32, ty: BlockType) -> Option<Op<'l>>
    ensures { option_map (λ op. unplaced op) result ≡ option_map (λ make. make ty) (at code block_ops) }
{
    let op = match code {
        0x02 => Op::Control(ControlOp::Block(ty)),
        0x03 => Op::Control(ControlOp::Loop(ty)),
        0x04 => Op::Control(ControlOp::If(ty)),
        0x06 => Op::Exception(ExceptionOp::Try(ty)),
        _ => return None,
    };
    Some(op)
}

/// The same place, where this alignment is natural.
#[inline(always)]
pub(crate) fn natural(max_align: u8, memarg: MemArg) -> MemArg
    ensures { result ≡ natural max_align memarg }
{
    MemArg {
        max_align,
        ..memarg
    }
}

/// The operator of this code that accesses this place.
#[tactic(auto, unfolding(crate::specs::Codes::access_ops))]
#[inline(always)]
pub fn access_op<'l>(code: u32, m: MemArg) -> Option<Op<'l>>
    ensures { option_map (λ op. unplaced op) result ≡ option_map (λ make. make m) (at code access_ops) }
{
    let op = match code {
        0x28 => MemoryOp::Load(NumberType::I32, natural(2, m)),
        0x29 => MemoryOp::Load(NumberType::I64, natural(3, m)),
        0x2a => MemoryOp::Load(NumberType::F32, natural(2, m)),
        0x2b => MemoryOp::Load(NumberType::F64, natural(3, m)),
        0x2c => MemoryOp::LoadPacked(PackedInteger::I32Bits8, Sign::Signed, natural(0, m)),
        0x2d => MemoryOp::LoadPacked(PackedInteger::I32Bits8, Sign::Unsigned, natural(0, m)),
        0x2e => MemoryOp::LoadPacked(PackedInteger::I32Bits16, Sign::Signed, natural(1, m)),
        0x2f => MemoryOp::LoadPacked(PackedInteger::I32Bits16, Sign::Unsigned, natural(1, m)),
        0x30 => MemoryOp::LoadPacked(PackedInteger::I64Bits8, Sign::Signed, natural(0, m)),
        0x31 => MemoryOp::LoadPacked(PackedInteger::I64Bits8, Sign::Unsigned, natural(0, m)),
        0x32 => MemoryOp::LoadPacked(PackedInteger::I64Bits16, Sign::Signed, natural(1, m)),
        0x33 => MemoryOp::LoadPacked(PackedInteger::I64Bits16, Sign::Unsigned, natural(1, m)),
        0x34 => MemoryOp::LoadPacked(PackedInteger::I64Bits32, Sign::Signed, natural(2, m)),
        0x35 => MemoryOp::LoadPacked(PackedInteger::I64Bits32, Sign::Unsigned, natural(2, m)),
        0x36 => MemoryOp::Store(NumberType::I32, natural(2, m)),
        0x37 => MemoryOp::Store(NumberType::I64, natural(3, m)),
        0x38 => MemoryOp::Store(NumberType::F32, natural(2, m)),
        0x39 => MemoryOp::Store(NumberType::F64, natural(3, m)),
        0x3a => MemoryOp::StorePacked(PackedInteger::I32Bits8, natural(0, m)),
        0x3b => MemoryOp::StorePacked(PackedInteger::I32Bits16, natural(1, m)),
        0x3c => MemoryOp::StorePacked(PackedInteger::I64Bits8, natural(0, m)),
        0x3d => MemoryOp::StorePacked(PackedInteger::I64Bits16, natural(1, m)),
        0x3e => MemoryOp::StorePacked(PackedInteger::I64Bits32, natural(2, m)),
        0xfe00 => return Some(Op::Atomic(AtomicOp::AtomicNotify(natural(2, m)))),
        0xfe01 => return Some(Op::Atomic(AtomicOp::AtomicWait(IntegerType::I32, natural(2, m)))),
        0xfe02 => return Some(Op::Atomic(AtomicOp::AtomicWait(IntegerType::I64, natural(3, m)))),
        _ => return None,
    };
    Some(Op::Memory(op))
}
