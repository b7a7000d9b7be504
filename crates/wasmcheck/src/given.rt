//! How many operands an operator gives: what lies on top behind it, it has pushed.

use validate_resources::kinds::func_type_of;
use validate_resources::{ModuleLists, WasmModuleResources};
use validate_visit::{
    ArrayOp, AtomicOp, ContinuationOp, ControlOp, ExceptionOp, Exchange, FieldAccess, MemoryOp,
    NumericOp, Op, ReferenceOp, SharedOp, StructOp, TableOp, Update,
};

/// Which of the operands behind an operator it has pushed.
#[derive(Clone, Copy)]
pub enum Given {
    /// So many on top.
    Operands(usize),
    /// So many on top. Those below went to a label, or may have gone there: in dead code, they may have been made for that.
    Passed(usize),
    /// None: it opens a part. What that takes may have been made for it, in dead code.
    Opened,
    /// All that the part has which it begins.
    Begun,
    /// None: it closes a part. In dead code, all that the part gives may have been made for that.
    Closed,
    /// It isn't told here.
    Unknown,
}

/// How many results the function type at this index has.
fn results_of(resources: &ModuleLists, type_index: u32) -> Given {
    match resources.sub_type_at(type_index) {
        Some(sub_type) => match func_type_of(sub_type) {
            Some(func_type) => Given::Operands(func_type.results().len()),
            None => Given::Unknown,
        },
        None => Given::Unknown,
    }
}

/// How many results the function at this index has.
fn results_of_function(resources: &ModuleLists, function: u32) -> Given {
    match resources.type_index_of_function(function) {
        Some(ty) => results_of(resources, ty),
        None => Given::Unknown,
    }
}

/// The same of an operator on control.
fn given_by_control(resources: &ModuleLists, op: &ControlOp<'_>) -> Given {
    match op {
        ControlOp::Block(_) | ControlOp::Loop(_) | ControlOp::If(_) => Given::Opened,
        ControlOp::Else => Given::Begun,
        ControlOp::End => Given::Closed,
        ControlOp::BrIf(_) => Given::Passed(0),
        ControlOp::Call(function) => results_of_function(resources, *function),
        ControlOp::CallIndirect { type_index, .. } | ControlOp::CallRef(type_index) => {
            results_of(resources, *type_index)
        }
        ControlOp::Select
        | ControlOp::TypedSelect(_)
        | ControlOp::LocalGet(_)
        | ControlOp::LocalTee(_)
        | ControlOp::GlobalGet(_) => Given::Operands(1),
        ControlOp::Unreachable
        | ControlOp::Nop
        | ControlOp::Br(_)
        | ControlOp::BrTable(_)
        | ControlOp::Return
        | ControlOp::ReturnCall(_)
        | ControlOp::ReturnCallIndirect { .. }
        | ControlOp::ReturnCallRef(_)
        | ControlOp::Drop
        | ControlOp::LocalSet(_)
        | ControlOp::GlobalSet(_) => Given::Operands(0),
        ControlOp::TypedSelectMulti(_) => Given::Unknown,
    }
}

/// The same of an operator on numbers: two halves of 64 bits, or one number.
fn given_by_numeric(op: NumericOp) -> Given {
    match op {
        NumericOp::Add128 | NumericOp::Sub128 | NumericOp::MulWide(_) => Given::Operands(2),
        _ => Given::Operands(1),
    }
}

/// The same of an operator on memories.
fn given_by_memory(op: &MemoryOp) -> Given {
    match op {
        MemoryOp::Load(..)
        | MemoryOp::LoadPacked(..)
        | MemoryOp::MemorySize(_)
        | MemoryOp::MemoryGrow(_) => Given::Operands(1),
        _ => Given::Operands(0),
    }
}

/// The same of an atomic operator on memories.
fn given_by_atomic(op: &AtomicOp) -> Given {
    match op {
        AtomicOp::AtomicStore(..) | AtomicOp::AtomicFence(_) | AtomicOp::Pause => {
            Given::Operands(0)
        }
        _ => Given::Operands(1),
    }
}

/// The same of an operator on references: a branch by a cast, or by null, leaves its operand, unless that is null.
fn given_by_reference(op: &ReferenceOp) -> Given {
    match op {
        ReferenceOp::BrOnNonNull(_) => Given::Passed(0),
        ReferenceOp::BrOnNull(_)
        | ReferenceOp::BrOnCast(_)
        | ReferenceOp::BrOnCastFail(_)
        | ReferenceOp::BrOnCastDescEq(_)
        | ReferenceOp::BrOnCastDescEqFail(_) => Given::Passed(1),
        _ => Given::Operands(1),
    }
}

/// The same of an operator on tables.
fn given_by_table(op: &TableOp) -> Given {
    match op {
        TableOp::TableGet(_) | TableOp::TableGrow(_) | TableOp::TableSize(_) => Given::Operands(1),
        _ => Given::Operands(0),
    }
}

/// The same of an operator on structs.
fn given_by_struct(op: &StructOp) -> Given {
    match op {
        StructOp::StructSet(_) => Given::Operands(0),
        _ => Given::Operands(1),
    }
}

/// The same of an operator on arrays.
fn given_by_array(op: &ArrayOp) -> Given {
    match op {
        ArrayOp::ArraySet(_)
        | ArrayOp::ArrayFill(_)
        | ArrayOp::ArrayCopy { .. }
        | ArrayOp::ArrayInitData { .. }
        | ArrayOp::ArrayInitElem { .. } => Given::Operands(0),
        _ => Given::Operands(1),
    }
}

/// The same of an operator on exceptions.
fn given_by_exception(op: &ExceptionOp<'_>) -> Given {
    match op {
        ExceptionOp::TryTable(_) | ExceptionOp::Try(_) => Given::Opened,
        ExceptionOp::Catch(_) | ExceptionOp::CatchAll => Given::Begun,
        ExceptionOp::Delegate(_) => Given::Closed,
        ExceptionOp::Throw(_) | ExceptionOp::ThrowRef | ExceptionOp::Rethrow(_) => {
            Given::Operands(0)
        }
    }
}

/// The same of an operator on continuations.
fn given_by_continuation(op: &ContinuationOp<'_>) -> Given {
    match op {
        ContinuationOp::ContNew(_) | ContinuationOp::ContBind { .. } => Given::Operands(1),
        _ => Given::Unknown,
    }
}

/// What an access of a place that may be shared gives.
fn given_by_exchange(access: Exchange) -> Given {
    match access {
        Exchange::Set => Given::Operands(0),
        Exchange::Get | Exchange::Xchg | Exchange::Cmpxchg => Given::Operands(1),
    }
}

/// The same of an access that may also change a number in its place.
fn given_by_update(access: Update) -> Given {
    match access {
        Update::Value(access) => given_by_exchange(access),
        Update::Rmw(_) => Given::Operands(1),
    }
}

/// The same of an atomic operator on what threads may share.
fn given_by_shared(op: &SharedOp) -> Given {
    match op {
        SharedOp::Global { access, .. } => given_by_update(*access),
        SharedOp::Table { access, .. } => given_by_exchange(*access),
        SharedOp::Struct { access, .. } | SharedOp::Array { access, .. } => match *access {
            FieldAccess::Whole(access) => given_by_update(access),
            FieldAccess::GetPacked(_) => Given::Operands(1),
        },
        SharedOp::RefI31Shared => Given::Operands(1),
    }
}

/// Which of the operands behind an operator, which was accepted, it has pushed.
pub fn given_by(resources: &ModuleLists, op: &Op<'_>) -> Given {
    match op {
        Op::Control(op) => given_by_control(resources, op),
        Op::Numeric(op) => given_by_numeric(*op),
        Op::Convert(_) => Given::Operands(1),
        Op::Memory(op) => given_by_memory(op),
        Op::Atomic(op) => given_by_atomic(op),
        Op::Reference(op) => given_by_reference(op),
        Op::Table(op) => given_by_table(op),
        Op::Struct(op) => given_by_struct(op),
        Op::Array(op) => given_by_array(op),
        Op::Exception(op) => given_by_exception(op),
        Op::Continuation(op) => given_by_continuation(op),
        Op::Shared(op) => given_by_shared(op),
    }
}
