//! Operators whose immediates are indices, by their names.
//!
//! `.ci/generate` writes the arms of the matches on names from `operators.tsv`.

ghost use Rattle.std.specs.Prelude.{◌≡◌, [], ◌∷◌, IfSome, map};
ghost use Rattle.std.specs.Str.Parse.{digits_value};
ghost use Rattle.script_reader.specs.Indices.{array_indices, continuation_indices, control_indices, exception_indices, memory_indices, op_indices, reference_indices, struct_indices, table_indices};

use crate::parts::numbers::read_index;
use validate_visit::{
    ArrayOp, ContinuationOp, ControlOp, ExceptionOp, FieldIndex, MemoryOp, Op, ReferenceOp, Sign,
    StructOp, TableOp,
};

/// The operator of this name with the indices that these words write, if it has so many.
pub fn read_indexed(name: &str, words: &[&str]) -> Option<Op<'static>>
    ensures { IfSome result (λ op. map (λ word. digits_value 10 word.now) words.now ≡ op_indices op) }
{
    match *words {
        [index] => with_index(name, read_index(index)?),
        [first, second] => with_indices(name, read_index(first)?, read_index(second)?),
        _ => None,
    }
}

/// The operator of this name with this index, if it has one alone.
fn with_index(name: &str, index: u32) -> Option<Op<'static>>
    ensures { IfSome result (λ op. op_indices op ≡ index ∷ []) }
{
    if let Some(op) = control_with_index(name, index) {
        return Some(Op::Control(op));
    }
    if let Some(op) = reference_with_index(name, index) {
        return Some(Op::Reference(op));
    }
    if let Some(op) = exception_with_index(name, index) {
        return Some(Op::Exception(op));
    }
    if let Some(op) = continuation_with_index(name, index) {
        return Some(Op::Continuation(op));
    }
    storage_with_index(name, index)
}

/// The operator on tables, memories, segments, structs or arrays of this name with this index.
fn storage_with_index(name: &str, index: u32) -> Option<Op<'static>>
    ensures { IfSome result (λ op. op_indices op ≡ index ∷ []) }
{
    if let Some(op) = table_with_index(name, index) {
        return Some(Op::Table(op));
    }
    if let Some(op) = memory_with_index(name, index) {
        return Some(Op::Memory(op));
    }
    if let Some(op) = struct_with_index(name, index) {
        return Some(Op::Struct(op));
    }
    Some(Op::Array(array_with_index(name, index)?))
}

/// The operator on control or variables of this name with this index.
fn control_with_index(name: &str, index: u32) -> Option<ControlOp<'static>>
    ensures { IfSome result (λ op. control_indices op ≡ index ∷ []) }
{
    Some(match name {
        "local.get" => ControlOp::LocalGet(index),
        "local.set" => ControlOp::LocalSet(index),
        "local.tee" => ControlOp::LocalTee(index),
        "global.get" => ControlOp::GlobalGet(index),
        "global.set" => ControlOp::GlobalSet(index),
        "br" => ControlOp::Br(index),
        "br_if" => ControlOp::BrIf(index),
        "call" => ControlOp::Call(index),
        "return_call" => ControlOp::ReturnCall(index),
        "call_ref" => ControlOp::CallRef(index),
        "return_call_ref" => ControlOp::ReturnCallRef(index),
        _ => return None,
    })
}

/// The operator on references of this name with this index.
fn reference_with_index(name: &str, index: u32) -> Option<ReferenceOp>
    ensures { IfSome result (λ op. reference_indices op ≡ index ∷ []) }
{
    Some(match name {
        "ref.func" => ReferenceOp::RefFunc(index),
        "ref.get_desc" => ReferenceOp::RefGetDesc(index),
        "br_on_null" => ReferenceOp::BrOnNull(index),
        "br_on_non_null" => ReferenceOp::BrOnNonNull(index),
        _ => return None,
    })
}

/// The operator on exceptions of this name with this index.
fn exception_with_index(name: &str, index: u32) -> Option<ExceptionOp<'static>>
    ensures { IfSome result (λ op. exception_indices op ≡ index ∷ []) }
{
    Some(match name {
        "throw" => ExceptionOp::Throw(index),
        "rethrow" => ExceptionOp::Rethrow(index),
        "catch" => ExceptionOp::Catch(index),
        "delegate" => ExceptionOp::Delegate(index),
        _ => return None,
    })
}

/// The operator on continuations of this name with this index.
fn continuation_with_index(name: &str, index: u32) -> Option<ContinuationOp<'static>>
    ensures { IfSome result (λ op. continuation_indices op ≡ index ∷ []) }
{
    Some(match name {
        "cont.new" => ContinuationOp::ContNew(index),
        "suspend" => ContinuationOp::Suspend(index),
        _ => return None,
    })
}

/// The operator on tables or element segments of this name with this index.
fn table_with_index(name: &str, index: u32) -> Option<TableOp>
    ensures { IfSome result (λ op. table_indices op ≡ index ∷ []) }
{
    Some(match name {
        "table.get" => TableOp::TableGet(index),
        "table.set" => TableOp::TableSet(index),
        "table.grow" => TableOp::TableGrow(index),
        "table.size" => TableOp::TableSize(index),
        "table.fill" => TableOp::TableFill(index),
        "elem.drop" => TableOp::ElemDrop(index),
        _ => return None,
    })
}

/// The operator on memories or data segments of this name with this index.
fn memory_with_index(name: &str, index: u32) -> Option<MemoryOp>
    ensures { IfSome result (λ op. memory_indices op ≡ index ∷ []) }
{
    Some(match name {
        "memory.size" => MemoryOp::MemorySize(index),
        "memory.grow" => MemoryOp::MemoryGrow(index),
        "memory.fill" => MemoryOp::MemoryFill(index),
        "memory.discard" => MemoryOp::MemoryDiscard(index),
        "data.drop" => MemoryOp::DataDrop(index),
        _ => return None,
    })
}

/// The operator on structs of this name with this index.
fn struct_with_index(name: &str, index: u32) -> Option<StructOp>
    ensures { IfSome result (λ op. struct_indices op ≡ index ∷ []) }
{
    Some(match name {
        "struct.new" => StructOp::StructNew(index),
        "struct.new_default" => StructOp::StructNewDefault(index),
        "struct.new_desc" => StructOp::StructNewDesc(index),
        "struct.new_default_desc" => StructOp::StructNewDefaultDesc(index),
        _ => return None,
    })
}

/// The operator on arrays of this name with this index.
fn array_with_index(name: &str, index: u32) -> Option<ArrayOp>
    ensures { IfSome result (λ op. array_indices op ≡ index ∷ []) }
{
    Some(match name {
        "array.new" => ArrayOp::ArrayNew(index),
        "array.new_default" => ArrayOp::ArrayNewDefault(index),
        "array.get" => ArrayOp::ArrayGet(index),
        "array.get_s" => ArrayOp::ArrayGetPacked(Sign::Signed, index),
        "array.get_u" => ArrayOp::ArrayGetPacked(Sign::Unsigned, index),
        "array.set" => ArrayOp::ArraySet(index),
        "array.fill" => ArrayOp::ArrayFill(index),
        _ => return None,
    })
}

/// The operator of this name with these indices, if it has two.
fn with_indices(name: &str, first: u32, second: u32) -> Option<Op<'static>>
    ensures { IfSome result (λ op. op_indices op ≡ first ∷ second ∷ []) }
{
    if let Some(op) = control_with_indices(name, first, second) {
        return Some(op);
    }
    if let Some(op) = storage_with_indices(name, first, second) {
        return Some(op);
    }
    if let Some(op) = struct_with_field(name, first, second) {
        return Some(Op::Struct(op));
    }
    Some(Op::Array(array_with_indices(name, first, second)?))
}

/// Those on control and continuations.
fn control_with_indices(name: &str, first: u32, second: u32) -> Option<Op<'static>>
    ensures { IfSome result (λ op. op_indices op ≡ first ∷ second ∷ []) }
{
    Some(match name {
        "call_indirect" => Op::Control(ControlOp::CallIndirect {
            type_index: first,
            table_index: second,
        }),
        "return_call_indirect" => Op::Control(ControlOp::ReturnCallIndirect {
            type_index: first,
            table_index: second,
        }),
        "cont.bind" => Op::Continuation(ContinuationOp::ContBind {
            argument_index: first,
            result_index: second,
        }),
        "switch" => Op::Continuation(ContinuationOp::Switch {
            cont_type_index: first,
            tag_index: second,
        }),
        _ => return None,
    })
}

/// Those on tables and memories.
fn storage_with_indices(name: &str, first: u32, second: u32) -> Option<Op<'static>>
    ensures { IfSome result (λ op. op_indices op ≡ first ∷ second ∷ []) }
{
    Some(match name {
        "table.init" => Op::Table(TableOp::TableInit {
            elem_index: first,
            table: second,
        }),
        "table.copy" => Op::Table(TableOp::TableCopy {
            dst_table: first,
            src_table: second,
        }),
        "memory.init" => Op::Memory(MemoryOp::MemoryInit {
            data_index: first,
            mem: second,
        }),
        "memory.copy" => Op::Memory(MemoryOp::MemoryCopy {
            dst_mem: first,
            src_mem: second,
        }),
        _ => return None,
    })
}

/// The operator on structs of this name with a type and a field.
fn struct_with_field(name: &str, first: u32, second: u32) -> Option<StructOp>
    ensures { IfSome result (λ op. struct_indices op ≡ first ∷ second ∷ []) }
{
    let field = FieldIndex {
        struct_type_index: first,
        field_index: second,
    };
    match name {
        "struct.get" => Some(StructOp::StructGet(field)),
        "struct.get_s" => Some(StructOp::StructGetPacked(Sign::Signed, field)),
        "struct.get_u" => Some(StructOp::StructGetPacked(Sign::Unsigned, field)),
        "struct.set" => Some(StructOp::StructSet(field)),
        _ => None,
    }
}

/// The operator on arrays of this name with these indices. The number of elements of an `array.new_fixed`
/// counts as one.
fn array_with_indices(name: &str, first: u32, second: u32) -> Option<ArrayOp>
    ensures { IfSome result (λ op. array_indices op ≡ first ∷ second ∷ []) }
{
    Some(match name {
        "array.new_fixed" => ArrayOp::ArrayNewFixed {
            array_type_index: first,
            array_size: second,
        },
        "array.new_data" => ArrayOp::ArrayNewData {
            array_type_index: first,
            array_data_index: second,
        },
        "array.new_elem" => ArrayOp::ArrayNewElem {
            array_type_index: first,
            array_elem_index: second,
        },
        "array.copy" => ArrayOp::ArrayCopy {
            array_type_index_dst: first,
            array_type_index_src: second,
        },
        "array.init_data" => ArrayOp::ArrayInitData {
            array_type_index: first,
            array_data_index: second,
        },
        "array.init_elem" => ArrayOp::ArrayInitElem {
            array_type_index: first,
            array_elem_index: second,
        },
        _ => return None,
    })
}
