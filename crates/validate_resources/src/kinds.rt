//! Declared types by their kind.

ghost use Rattle.std.specs.Prelude.{◌≡◌, slice_get};
ghost use Rattle.std.specs.Option.{option_copied};
ghost use Rattle.validate_resources.specs.Context.{signature_of, continuation_of};
ghost use Rattle.validate_resources.specs.Lists.{is_func_type, continues_function};

use crate::order::number;
use std::alloc::Global;
use validate_types::{CompositeInnerType, Error, FuncType, PackedIndex, SubType};

/// The parameters and results of a declared type, or None if it is no function type.
pub fn func_type_of(sub_type: &SubType) -> Option<&FuncType>
    ensures { option_copied result ≡ signature_of sub_type.now }
{
    match &sub_type.composite_type.inner {
        CompositeInnerType::Func(func_type) => Some(func_type),
        CompositeInnerType::Array(_)
        | CompositeInnerType::Struct(_)
        | CompositeInnerType::Cont(_) => None,
    }
}

/// The index of a continuation's function type, or None if the declared type is no continuation type (a proposal,
/// "Stack Switching").
pub fn continuation_of(sub_type: &SubType) -> Option<PackedIndex>
    ensures { result ≡ continuation_of sub_type.now }
{
    match &sub_type.composite_type.inner {
        CompositeInnerType::Cont(cont_type) => Some(cont_type.0),
        CompositeInnerType::Func(_)
        | CompositeInnerType::Array(_)
        | CompositeInnerType::Struct(_) => None,
    }
}

/// Whether the type at this index is there, and is one of functions.
pub fn is_func_type(types: &[SubType], index: u32) -> bool
    ensures { result ≡ is_func_type (slice_get types.now index) }
{
    match types.get(index as usize) {
        Some(ty) => func_type_of(ty).is_some(),
        None => false,
    }
}

/// Whether a type is no continuation, or one of a function.
pub fn continues_function(types: &[SubType], ty: &SubType) -> bool
    ensures { result ≡ continues_function types.now ty.now }
{
    match continuation_of(ty) {
        Some(index) => is_func_type(types, number(index.unpack())),
        None => true,
    }
}

/// The refusal of a type that should be a function type, found at this index.
#[cold]
#[inline(never)]
pub fn expected_func_type(alloc: Global, offset: u64, type_index: u32, found: &SubType) -> Error
    ensures { result.offset ≡ offset }
{
    Error::from_text(
        format!(in alloc; "expected func type at index {type_index}, found {found}"),
        offset,
    )
}
