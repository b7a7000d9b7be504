//! What stands behind an operator's name in the text format.

use crate::type_names::{add_block_type, add_heap_type, add_type};
use crate::written::Written;
use validate_types::{HeapType, RefType, ValType};
use validate_visit::{
    ArrayOp, AtomicOp, BlockType, BrTable, BranchCast, Catch, ContinuationOp, ControlOp,
    ExceptionOp, Handle, MemArg, MemArgTarget, MemoryOp, NumericOp, Op, Ordering, ReferenceOp,
    ResumeTable, SharedOp, StructOp, TableOp, TryTable,
};

/// Adds the immediates of an operator, with a space before each.
pub fn add_immediates(out: &mut Written, op: &Op<'_>) {
    match op {
        Op::Control(op) => add_control(out, op),
        Op::Numeric(op) => add_constant(out, *op),
        Op::Convert(_) => {}
        Op::Memory(op) => add_memory(out, op),
        Op::Atomic(op) => add_atomic(out, op),
        Op::Reference(op) => add_reference(out, op),
        Op::Table(op) => add_table(out, op),
        Op::Struct(op) => add_struct(out, op),
        Op::Array(op) => add_array(out, op),
        Op::Exception(op) => add_exception(out, op),
        Op::Continuation(op) => add_continuation(out, op),
        Op::Shared(op) => add_shared(out, op),
    }
}

fn add_index(out: &mut Written, index: u32) {
    out.add(" ");
    out.show(index);
}

fn add_indices(out: &mut Written, first: u32, second: u32) {
    add_index(out, first);
    add_index(out, second);
}

/// Adds the type by which a function or an array is used.
fn add_type_use(out: &mut Written, index: u32) {
    out.add(" (type ");
    out.show(index);
    out.add(")");
}

/// Adds the table and the type of an indirect call.
fn add_indirect(out: &mut Written, type_index: u32, table_index: u32) {
    add_index(out, table_index);
    add_type_use(out, type_index);
}

/// Adds the types of a `select`.
fn add_types(out: &mut Written, types: &[ValType]) {
    out.add(" (result");
    for ty in types {
        out.add(" ");
        add_type(out, *ty);
    }
    out.add(")")
}

/// Adds the labels of a `br_table`, the default one last.
fn add_labels(out: &mut Written, table: &BrTable<'_>) {
    for label in table.targets {
        add_index(out, *label);
    }
    add_index(out, table.default)
}

fn add_control(out: &mut Written, op: &ControlOp<'_>) {
    match op {
        ControlOp::Block(ty) | ControlOp::Loop(ty) | ControlOp::If(ty) => add_block_type(out, *ty),
        ControlOp::Br(index)
        | ControlOp::BrIf(index)
        | ControlOp::Call(index)
        | ControlOp::ReturnCall(index)
        | ControlOp::CallRef(index)
        | ControlOp::ReturnCallRef(index)
        | ControlOp::LocalGet(index)
        | ControlOp::LocalSet(index)
        | ControlOp::LocalTee(index)
        | ControlOp::GlobalGet(index)
        | ControlOp::GlobalSet(index) => add_index(out, *index),
        ControlOp::BrTable(table) => add_labels(out, table),
        ControlOp::CallIndirect {
            type_index,
            table_index,
        }
        | ControlOp::ReturnCallIndirect {
            type_index,
            table_index,
        } => add_indirect(out, *type_index, *table_index),
        ControlOp::TypedSelect(ty) => add_types(out, &[*ty]),
        ControlOp::TypedSelectMulti(types) => add_types(out, types),
        ControlOp::Unreachable
        | ControlOp::Nop
        | ControlOp::Else
        | ControlOp::End
        | ControlOp::Return
        | ControlOp::Drop
        | ControlOp::Select => {}
    }
}

fn add_integer(out: &mut Written, value: i64) {
    out.add(" ");
    out.show(value);
}

/// Adds the bits of a float.
fn add_bits(out: &mut Written, bits: u64, digits: usize) {
    out.add(" 0x");
    out.add_hexadecimal(bits, digits);
}

/// Adds a constant: an integer, or the bits of a float.
fn add_constant(out: &mut Written, op: NumericOp) {
    match op {
        NumericOp::I32Const(value) => add_integer(out, i64::from(value)),
        NumericOp::I64Const(value) => add_integer(out, value),
        NumericOp::F32Const(value) => add_bits(out, u64::from(value.bits()), 8),
        NumericOp::F64Const(value) => add_bits(out, value.bits(), 16),
        _ => {}
    }
}

/// Adds what is accessed, unless it is memory 0.
fn add_target(out: &mut Written, target: MemArgTarget) {
    match target {
        MemArgTarget::Memory(0) => {}
        MemArgTarget::Memory(index) => add_index(out, index),
        MemArgTarget::Array(index) => add_type_use(out, index),
    }
}

/// Adds the place of an access: the alignment in bytes, unless it is natural, and the offset, unless it is 0.
fn add_place(out: &mut Written, place: &MemArg) {
    add_target(out, place.target);
    let offset = place.offset;
    if offset > 0 {
        out.add(" offset=");
        out.show(offset);
    }
    if place.align == place.max_align {
        return;
    }
    if let Some(bytes) = 1u64.checked_shl(u32::from(place.align)) {
        out.add(" align=");
        out.show(bytes);
    }
}

fn add_memory(out: &mut Written, op: &MemoryOp) {
    match op {
        MemoryOp::Load(_, place)
        | MemoryOp::LoadPacked(_, _, place)
        | MemoryOp::Store(_, place)
        | MemoryOp::StorePacked(_, place) => add_place(out, place),
        MemoryOp::MemorySize(index)
        | MemoryOp::MemoryGrow(index)
        | MemoryOp::DataDrop(index)
        | MemoryOp::MemoryFill(index)
        | MemoryOp::MemoryDiscard(index) => add_index(out, *index),
        MemoryOp::MemoryInit { data_index, mem } => add_indices(out, *mem, *data_index),
        MemoryOp::MemoryCopy { dst_mem, src_mem } => add_indices(out, *dst_mem, *src_mem),
    }
}

/// Adds an order, unless it is the usual one.
fn add_order(out: &mut Written, order: Ordering) {
    match order {
        Ordering::SeqCst => {}
        Ordering::AcqRel => out.add(" acq_rel"),
    }
}

fn add_atomic(out: &mut Written, op: &AtomicOp) {
    match op {
        AtomicOp::AtomicNotify(place)
        | AtomicOp::AtomicWait(_, place)
        | AtomicOp::AtomicLoad(_, place)
        | AtomicOp::AtomicStore(_, place)
        | AtomicOp::AtomicRmw(_, _, place)
        | AtomicOp::AtomicCmpxchg(_, place) => add_place(out, place),
        AtomicOp::AtomicFence(order) => add_order(out, *order),
        AtomicOp::Pause => {}
    }
}

fn add_heap(out: &mut Written, ty: HeapType) {
    out.add(" ");
    add_heap_type(out, ty);
}

/// Adds the reference type that a cast names by its heap type.
fn add_cast(out: &mut Written, nullable: bool, heap_type: HeapType) {
    add_reference_type(
        out,
        RefType {
            nullable,
            heap_type,
        },
    );
}

fn add_reference_type(out: &mut Written, ty: RefType) {
    out.add(" ");
    add_type(out, ValType::Ref(ty));
}

fn add_branch_cast(out: &mut Written, cast: &BranchCast) {
    add_index(out, cast.relative_depth);
    add_reference_type(out, cast.from_ref_type);
    add_reference_type(out, cast.to_ref_type);
}

fn add_reference(out: &mut Written, op: &ReferenceOp) {
    match op {
        ReferenceOp::RefNull(ty) => add_heap(out, *ty),
        ReferenceOp::RefFunc(index)
        | ReferenceOp::BrOnNull(index)
        | ReferenceOp::BrOnNonNull(index)
        | ReferenceOp::RefGetDesc(index) => add_index(out, *index),
        ReferenceOp::RefTestNonNull(ty)
        | ReferenceOp::RefCastNonNull(ty)
        | ReferenceOp::RefCastDescEqNonNull(ty) => add_cast(out, false, *ty),
        ReferenceOp::RefTestNullable(ty)
        | ReferenceOp::RefCastNullable(ty)
        | ReferenceOp::RefCastDescEqNullable(ty) => add_cast(out, true, *ty),
        ReferenceOp::BrOnCast(cast)
        | ReferenceOp::BrOnCastFail(cast)
        | ReferenceOp::BrOnCastDescEq(cast)
        | ReferenceOp::BrOnCastDescEqFail(cast) => add_branch_cast(out, cast),
        ReferenceOp::RefIsNull
        | ReferenceOp::RefAsNonNull
        | ReferenceOp::RefEq
        | ReferenceOp::RefI31
        | ReferenceOp::I31Get(_)
        | ReferenceOp::AnyConvertExtern
        | ReferenceOp::ExternConvertAny => {}
    }
}

fn add_table(out: &mut Written, op: &TableOp) {
    match op {
        TableOp::TableGet(index)
        | TableOp::TableSet(index)
        | TableOp::TableGrow(index)
        | TableOp::TableSize(index)
        | TableOp::TableFill(index)
        | TableOp::ElemDrop(index) => add_index(out, *index),
        TableOp::TableInit { elem_index, table } => add_indices(out, *table, *elem_index),
        TableOp::TableCopy {
            dst_table,
            src_table,
        } => add_indices(out, *dst_table, *src_table),
    }
}

fn add_struct(out: &mut Written, op: &StructOp) {
    match op {
        StructOp::StructNew(index)
        | StructOp::StructNewDefault(index)
        | StructOp::StructNewDesc(index)
        | StructOp::StructNewDefaultDesc(index) => add_index(out, *index),
        StructOp::StructGet(field)
        | StructOp::StructGetPacked(_, field)
        | StructOp::StructSet(field) => {
            add_indices(out, field.struct_type_index, field.field_index)
        }
    }
}

fn add_array(out: &mut Written, op: &ArrayOp) {
    match op {
        ArrayOp::ArrayNew(index)
        | ArrayOp::ArrayNewDefault(index)
        | ArrayOp::ArrayGet(index)
        | ArrayOp::ArrayGetPacked(_, index)
        | ArrayOp::ArraySet(index)
        | ArrayOp::ArrayFill(index) => add_index(out, *index),
        ArrayOp::ArrayLen => {}
        ArrayOp::ArrayNewFixed {
            array_type_index,
            array_size,
        } => add_indices(out, *array_type_index, *array_size),
        ArrayOp::ArrayNewData {
            array_type_index,
            array_data_index,
        }
        | ArrayOp::ArrayInitData {
            array_type_index,
            array_data_index,
        } => add_indices(out, *array_type_index, *array_data_index),
        ArrayOp::ArrayNewElem {
            array_type_index,
            array_elem_index,
        }
        | ArrayOp::ArrayInitElem {
            array_type_index,
            array_elem_index,
        } => add_indices(out, *array_type_index, *array_elem_index),
        ArrayOp::ArrayCopy {
            array_type_index_dst,
            array_type_index_src,
        } => add_indices(out, *array_type_index_dst, *array_type_index_src),
    }
}

/// Adds a word and an index behind an opening parenthesis.
fn add_part(out: &mut Written, word: &str, index: u32) {
    out.add(" (");
    out.add(word);
    add_index(out, index);
}

fn add_clause(out: &mut Written, clause: Catch) {
    match clause {
        Catch::One { tag, label } => {
            add_part(out, "catch", tag);
            add_index(out, label);
        }
        Catch::OneRef { tag, label } => {
            add_part(out, "catch_ref", tag);
            add_index(out, label);
        }
        Catch::All { label } => add_part(out, "catch_all", label),
        Catch::AllRef { label } => add_part(out, "catch_all_ref", label),
    }
    out.add(")");
}

fn add_clauses(out: &mut Written, table: &TryTable<'_>) {
    add_block_type(out, table.ty);
    for clause in table.catches {
        add_clause(out, *clause);
    }
}

fn add_exception(out: &mut Written, op: &ExceptionOp<'_>) {
    match op {
        ExceptionOp::TryTable(table) => add_clauses(out, table),
        ExceptionOp::Try(ty) => add_block_type(out, *ty),
        ExceptionOp::Throw(index)
        | ExceptionOp::Catch(index)
        | ExceptionOp::Delegate(index)
        | ExceptionOp::Rethrow(index) => add_index(out, *index),
        ExceptionOp::ThrowRef | ExceptionOp::CatchAll => {}
    }
}

fn add_handler(out: &mut Written, handler: Handle) {
    match handler {
        Handle::OnLabel { tag, label } => {
            add_part(out, "on", tag);
            add_index(out, label);
        }
        Handle::OnSwitch { tag } => {
            add_part(out, "on", tag);
            out.add(" switch");
        }
    }
    out.add(")");
}

fn add_handlers(out: &mut Written, table: &ResumeTable<'_>) {
    for handler in table.handlers {
        add_handler(out, *handler);
    }
}

fn add_continuation(out: &mut Written, op: &ContinuationOp<'_>) {
    match op {
        ContinuationOp::ContNew(index) | ContinuationOp::Suspend(index) => add_index(out, *index),
        ContinuationOp::ContBind {
            argument_index,
            result_index,
        } => add_indices(out, *argument_index, *result_index),
        ContinuationOp::Switch {
            cont_type_index,
            tag_index,
        } => add_indices(out, *cont_type_index, *tag_index),
        ContinuationOp::Resume {
            cont_type_index,
            resume_table,
        }
        | ContinuationOp::ResumeThrowRef {
            cont_type_index,
            resume_table,
        } => {
            add_index(out, *cont_type_index);
            add_handlers(out, resume_table)
        }
        ContinuationOp::ResumeThrow {
            cont_type_index,
            tag_index,
            resume_table,
        } => {
            add_indices(out, *cont_type_index, *tag_index);
            add_handlers(out, resume_table)
        }
    }
}

fn add_shared(out: &mut Written, op: &SharedOp) {
    match op {
        SharedOp::Global {
            ordering,
            global_index,
            ..
        } => {
            add_order(out, *ordering);
            add_index(out, *global_index)
        }
        SharedOp::Table {
            ordering,
            table_index,
            ..
        } => {
            add_order(out, *ordering);
            add_index(out, *table_index)
        }
        SharedOp::Struct {
            ordering,
            field,
            ..
        } => {
            add_order(out, *ordering);
            add_indices(out, field.struct_type_index, field.field_index)
        }
        SharedOp::Array {
            ordering,
            type_index,
            ..
        } => {
            add_order(out, *ordering);
            add_index(out, *type_index)
        }
        SharedOp::RefI31Shared => {}
    }
}
