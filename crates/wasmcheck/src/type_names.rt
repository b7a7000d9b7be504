//! Types, as a listing names them: one that the module declares has the index of the first that is equal to it.

use crate::written::Written;
use validate_types::{HeapType, RefType, UnpackedIndex, ValType};
use validate_visit::BlockType;

/// The index of a type.
fn index_of(index: UnpackedIndex) -> u32 {
    match index {
        UnpackedIndex::Module(index) => index,
        UnpackedIndex::Id(id) => id.index(),
    }
}

/// Adds a heap type.
pub fn add_heap_type(out: &mut Written, ty: HeapType) {
    match ty {
        HeapType::Abstract { shared: false, ty } => out.add(ty.as_str(false)),
        HeapType::Abstract { shared: true, ty } => {
            out.add("(shared ");
            out.add(ty.as_str(false));
            out.add(")");
        }
        HeapType::Concrete(index) => out.show(index_of(index)),
        HeapType::Exact(index) => {
            out.add("(exact ");
            out.show(index_of(index));
            out.add(")");
        }
    }
}

/// Adds a reference type.
fn add_reference(out: &mut Written, ty: RefType) {
    if !ty.is_concrete_type_ref() {
        return out.add(ty.wat());
    }
    out.add(if ty.is_nullable() {
        "(ref null "
    } else {
        "(ref "
    });
    add_heap_type(out, ty.heap_type());
    out.add(")");
}

/// Adds a value type.
pub fn add_type(out: &mut Written, ty: ValType) {
    match ty {
        ValType::I32 => out.add("i32"),
        ValType::I64 => out.add("i64"),
        ValType::F32 => out.add("f32"),
        ValType::F64 => out.add("f64"),
        ValType::V128 => out.add("v128"),
        ValType::Ref(ty) => add_reference(out, ty),
    }
}

/// Adds the type of a block, as it stands behind the operator.
pub fn add_block_type(out: &mut Written, ty: BlockType) {
    match ty {
        BlockType::Empty => {}
        BlockType::Val(ty) => {
            out.add(" (result ");
            add_type(out, ty);
            out.add(")");
        }
        BlockType::FuncType(index) => {
            out.add(" (type ");
            out.show(index);
            out.add(")");
        }
    }
}
