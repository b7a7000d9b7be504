//! How many operands upstream has popped when it refuses an operator. Where an operand is missing or of another type,
//! the refusal itself says which.

use validate_resources::WasmModuleResources;
use validate_stacks::blocks::{params, results};
use validate_stacks::{OperatorContext, Stacks};
use validate_types::{MaybeType, Refusal, Told};
use validate_visit::{
    ArrayOp, ControlOp, ExceptionOp, Exchange, FieldAccess, Op, ReferenceOp, SharedOp, StructOp,
    TryTable, Update,
};

/// How many it has popped of an operator, whose body refuses so. Behind a closed gate it pops none.
pub(crate) fn popped_before<R: WasmModuleResources>(
    context: &OperatorContext<'_, '_, R>,
    op: &Op,
    told: &Told,
) -> usize {
    if let Told::Rule(Refusal::Closed(_)) = told {
        return 0;
    }
    match op {
        Op::Control(op) => popped_before_control(context, op, told),
        Op::Reference(op) => popped_before_reference(context.stacks, op, told),
        Op::Struct(op) => popped_before_struct(op, told),
        Op::Array(op) => popped_before_array(op),
        Op::Exception(op) => popped_before_exception(context, op, told),
        Op::Shared(op) => popped_before_shared(op, told),
        Op::Numeric(_)
        | Op::Convert(_)
        | Op::Memory(_)
        | Op::Atomic(_)
        | Op::Table(_)
        | Op::Continuation(_) => 0,
    }
}

/// The same of an operator on control, locals or globals.
fn popped_before_control<R: WasmModuleResources>(
    context: &OperatorContext<'_, '_, R>,
    op: &ControlOp,
    told: &Told,
) -> usize {
    match op {
        ControlOp::Else | ControlOp::End => popped_before_end(context, told),
        ControlOp::BrIf(_) | ControlOp::BrTable(_) => 1,
        ControlOp::Select => 3,
        ControlOp::CallIndirect { .. }
        | ControlOp::ReturnCallIndirect { .. }
        | ControlOp::CallRef(_)
        | ControlOp::ReturnCallRef(_) => popped_before_call(told),
        ControlOp::Unreachable
        | ControlOp::Nop
        | ControlOp::Block(_)
        | ControlOp::Loop(_)
        | ControlOp::If(_)
        | ControlOp::Br(_)
        | ControlOp::Return
        | ControlOp::Call(_)
        | ControlOp::ReturnCall(_)
        | ControlOp::Drop
        | ControlOp::TypedSelect(_)
        | ControlOp::TypedSelectMulti(_)
        | ControlOp::LocalGet(_)
        | ControlOp::LocalSet(_)
        | ControlOp::LocalTee(_)
        | ControlOp::GlobalGet(_)
        | ControlOp::GlobalSet(_) => 0,
    }
}

/// The same where a part ends: of one with too many operands, its results.
fn popped_before_end<R: WasmModuleResources>(
    context: &OperatorContext<'_, '_, R>,
    told: &Told,
) -> usize {
    if let (Some(frame), Told::Rule(Refusal::OperandsLeft)) = (context.stacks.get_frame(0), told) {
        results(context.resources, &frame.block_type).len()
    } else {
        0
    }
}

/// The same of a call whose operand on top names the function: it goes before the function's type is looked up.
fn popped_before_call(told: &Told) -> usize {
    if let Told::Rule(
        Refusal::UnknownType
        | Refusal::NoFunctionType(_)
        | Refusal::UnsharedFunction
        | Refusal::OtherResults(_),
    ) = told
    {
        1
    } else {
        0
    }
}

/// The same of an operator on references.
fn popped_before_reference(stacks: &Stacks, op: &ReferenceOp, told: &Told) -> usize {
    match op {
        ReferenceOp::RefIsNull
        | ReferenceOp::RefAsNonNull
        | ReferenceOp::BrOnNull(_)
        | ReferenceOp::I31Get(_)
        | ReferenceOp::AnyConvertExtern
        | ReferenceOp::ExternConvertAny => 1,
        ReferenceOp::RefGetDesc(_) => popped_before_descriptor(told),
        ReferenceOp::RefEq => popped_before_eq(stacks, told),
        ReferenceOp::RefCastDescEqNonNull(_) | ReferenceOp::RefCastDescEqNullable(_) => {
            popped_before_cast(told)
        }
        ReferenceOp::BrOnCastDescEq(_) | ReferenceOp::BrOnCastDescEqFail(_) => {
            popped_before_label(told)
        }
        ReferenceOp::RefNull(_)
        | ReferenceOp::RefFunc(_)
        | ReferenceOp::BrOnNonNull(_)
        | ReferenceOp::RefTestNonNull(_)
        | ReferenceOp::RefTestNullable(_)
        | ReferenceOp::RefCastNonNull(_)
        | ReferenceOp::RefCastNullable(_)
        | ReferenceOp::BrOnCast(_)
        | ReferenceOp::BrOnCastFail(_)
        | ReferenceOp::RefI31 => 0,
    }
}

/// The same of `ref.eq`: the top operand alone, where it is refused itself, or both.
fn popped_before_eq(stacks: &Stacks, told: &Told) -> usize {
    let refused = if let Told::Rule(Refusal::NotBelow { found, .. }) = told {
        Some(*found)
    } else if let Told::Rule(Refusal::NoReference(ty)) = told {
        Some(MaybeType::Known(*ty))
    } else {
        None
    };
    if refused.is_some() && refused == stacks.type_found(0) {
        1
    } else {
        2
    }
}

/// The same of `ref.get_desc`, which looks for the descriptor last.
fn popped_before_descriptor(told: &Told) -> usize {
    if let Told::Rule(Refusal::NoDescriptor) = told {
        1
    } else {
        0
    }
}

/// The same of a cast by a descriptor: that goes before the type cast to is looked up.
fn popped_before_cast(told: &Told) -> usize {
    if let Told::LookUp(_)
    | Told::Rule(
        Refusal::NotExact { .. }
        | Refusal::TypeIndexTooLarge
        | Refusal::ReferenceOff(_)
        | Refusal::CastToContinuation,
    ) = told
    {
        1
    } else {
        0
    }
}

/// The same of a branch by a cast with a descriptor: that goes once the types are looked up, before the label is.
fn popped_before_label(told: &Told) -> usize {
    if let Told::Rule(
        Refusal::NotExact { .. }
        | Refusal::UnknownLabel
        | Refusal::CastLabelEmpty
        | Refusal::CastFailLabelEmpty
        | Refusal::CastLabel { .. }
        | Refusal::CastFailLabel { .. },
    ) = told
    {
        1
    } else {
        0
    }
}

/// The same of an operator on structs: the descriptor goes before the struct is looked up.
fn popped_before_struct(op: &StructOp, told: &Told) -> usize {
    match op {
        StructOp::StructNewDesc(_) | StructOp::StructNewDefaultDesc(_) => popped_before_new(told),
        StructOp::StructNew(_)
        | StructOp::StructNewDefault(_)
        | StructOp::StructGet(_)
        | StructOp::StructGetPacked(..)
        | StructOp::StructSet(_) => 0,
    }
}

/// The same of a struct that is made with a descriptor.
fn popped_before_new(told: &Told) -> usize {
    if let Told::Rule(
        Refusal::NoStructType(_) | Refusal::UnsharedStruct | Refusal::NotDefaultable { .. },
    ) = told
    {
        1
    } else {
        0
    }
}

/// The same of an operator on arrays.
fn popped_before_array(op: &ArrayOp) -> usize {
    match op {
        ArrayOp::ArrayLen => 1,
        ArrayOp::ArrayNew(_)
        | ArrayOp::ArrayNewDefault(_)
        | ArrayOp::ArrayNewFixed { .. }
        | ArrayOp::ArrayNewData { .. }
        | ArrayOp::ArrayNewElem { .. }
        | ArrayOp::ArrayGet(_)
        | ArrayOp::ArrayGetPacked(..)
        | ArrayOp::ArraySet(_)
        | ArrayOp::ArrayFill(_)
        | ArrayOp::ArrayCopy { .. }
        | ArrayOp::ArrayInitData { .. }
        | ArrayOp::ArrayInitElem { .. } => 0,
    }
}

/// The same of an atomic operator: `get` and `set` ask last whether their place allows them.
fn popped_before_shared(op: &SharedOp, told: &Told) -> usize {
    if let Told::Rule(Refusal::NotAllowed { .. }) = told {
        taken_by_shared(op)
    } else {
        0
    }
}

/// What an atomic `get` takes, or `set`.
fn taken_by_shared(op: &SharedOp) -> usize {
    match op {
        SharedOp::Global { access, .. } => taken_by_update(0, 1, *access),
        SharedOp::Table { access, .. } => taken_by(1, 2, *access),
        SharedOp::Struct { access, .. } => taken_by_field(1, 2, *access),
        SharedOp::Array { access, .. } => taken_by_field(2, 3, *access),
        SharedOp::RefI31Shared => 0,
    }
}

/// What a `get` of a field takes, or a `set`.
fn taken_by_field(get: usize, set: usize, access: FieldAccess) -> usize {
    match access {
        FieldAccess::Whole(access) => taken_by_update(get, set, access),
        FieldAccess::GetPacked(_) => 0,
    }
}

/// What a `get` takes, or a `set`.
fn taken_by_update(get: usize, set: usize, access: Update) -> usize {
    match access {
        Update::Value(access) => taken_by(get, set, access),
        Update::Rmw(_) => 0,
    }
}

/// What a `get` of a table takes, or a `set`.
fn taken_by(get: usize, set: usize, access: Exchange) -> usize {
    match access {
        Exchange::Get => get,
        Exchange::Set => set,
        Exchange::Xchg | Exchange::Cmpxchg => 0,
    }
}

/// The same of an operator on exceptions.
fn popped_before_exception<R: WasmModuleResources>(
    context: &OperatorContext<'_, '_, R>,
    op: &ExceptionOp<'_>,
    told: &Told,
) -> usize {
    match op {
        ExceptionOp::TryTable(table) => popped_before_clauses(context.resources, table, told),
        ExceptionOp::Catch(_) | ExceptionOp::CatchAll | ExceptionOp::Delegate(_) => {
            popped_before_end(context, told)
        }
        ExceptionOp::Throw(_)
        | ExceptionOp::ThrowRef
        | ExceptionOp::Try(_)
        | ExceptionOp::Rethrow(_) => 0,
    }
}

/// The same of `try_table`: its parameters go before its clauses are looked at.
fn popped_before_clauses<R: WasmModuleResources>(
    resources: &R,
    table: &TryTable<'_>,
    told: &Told,
) -> usize {
    if let Told::Rule(
        Refusal::UnknownTag(_)
        | Refusal::TagWithResults
        | Refusal::UnknownLabel
        | Refusal::ClauseArity(_)
        | Refusal::ClauseType { .. }
        | Refusal::ClauseReference,
    ) = told
    {
        params(resources, &table.ty).len()
    } else {
        0
    }
}
