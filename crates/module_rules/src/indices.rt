//! Whether the indices in a type are those of types that are there (WebAssembly core specification,
//! "Validation: Types"). Each check refuses by the first that isn't.

ghost use Rattle.std.specs.Prelude.{◌≡◌, is_ok};
ghost use Rattle.std.specs.List.{list_all};
ghost use Rattle.validate_resources.specs.Indices.{is_known, heap_indices_pass, ref_indices_pass, type_indices_pass, option_index_passes, signature_indices_pass, field_indices_pass, inner_indices_pass, composite_indices_pass, sub_indices_pass};

use validate_resources::order::number;
use validate_types::{
    CompositeInnerType, CompositeType, FieldType, FuncType, HeapType, PackedIndex, RefType,
    StorageType, SubType, UnpackedIndex, ValType,
};

/// It names one of so many types.
fn known(index: UnpackedIndex, count: usize) -> Result<(), u32>
    ensures { is_ok result ≡ is_known count index }
{
    if (number(index) as usize) < count {
        return Ok(());
    }
    Err(number(index))
}

/// A heap type names one of so many types, or none.
fn known_in_heap(ty: HeapType, count: usize) -> Result<(), u32>
    ensures { is_ok result ≡ heap_indices_pass (is_known count) ty }
{
    match ty {
        HeapType::Abstract { .. } => Ok(()),
        HeapType::Concrete(index) | HeapType::Exact(index) => known(index, count),
    }
}

/// A reference type names one of so many types, or none.
pub fn known_in_ref(ty: RefType, count: usize) -> Result<(), u32>
    ensures { is_ok result ≡ ref_indices_pass (is_known count) ty }
{
    known_in_heap(ty.heap_type(), count)
}

/// A value type names one of so many types, or none.
pub fn known_in_type(ty: ValType, count: usize) -> Result<(), u32>
    ensures { is_ok result ≡ type_indices_pass (is_known count) ty }
{
    match ty {
        ValType::Ref(ty) => known_in_ref(ty, count),
        _ => Ok(()),
    }
}

/// It names one of so many types, or there is none.
fn known_option(index: Option<PackedIndex>, count: usize) -> Result<(), u32>
    ensures { is_ok result ≡ option_index_passes (is_known count) index }
{
    match index {
        Some(index) => known(index.unpack(), count),
        None => Ok(()),
    }
}

/// Each value type names one of so many types, or none.
fn known_in_types(types: &[ValType], count: usize) -> Result<(), u32>
    ensures { is_ok result ≡ list_all (type_indices_pass (is_known count)) types.now }
{
    for ty in types {
        known_in_type(*ty, count)?;
    }
    Ok(())
}

/// The same of what a function takes and gives.
fn known_in_func(ty: &FuncType, count: usize) -> Result<(), u32>
    ensures { is_ok result ≡ signature_indices_pass (is_known count) ty.now }
{
    known_in_types(ty.params(), count)?;
    known_in_types(ty.results(), count)
}

/// The same of what a field holds.
fn known_in_field(field: FieldType, count: usize) -> Result<(), u32>
    ensures { is_ok result ≡ field_indices_pass (is_known count) field }
{
    match field.element_type {
        StorageType::Val(ty) => known_in_type(ty, count),
        StorageType::I8 | StorageType::I16 => Ok(()),
    }
}

/// The same of each field.
fn known_in_fields(fields: &[FieldType], count: usize) -> Result<(), u32>
    ensures { is_ok result ≡ list_all (field_indices_pass (is_known count)) fields.now }
{
    for field in fields {
        known_in_field(*field, count)?;
    }
    Ok(())
}

/// The same of what a type is made of.
fn known_in_inner(inner: &CompositeInnerType, count: usize) -> Result<(), u32>
    ensures { is_ok result ≡ inner_indices_pass (is_known count) inner.now }
{
    match inner {
        CompositeInnerType::Func(ty) => known_in_func(ty, count),
        CompositeInnerType::Array(ty) => known_in_field(ty.0, count),
        CompositeInnerType::Struct(ty) => known_in_fields(&ty.fields, count),
        CompositeInnerType::Cont(ty) => known(ty.0.unpack(), count),
    }
}

/// The same of a composite type, its descriptor and what it describes.
fn known_in_composite(ty: &CompositeType, count: usize) -> Result<(), u32>
    ensures { is_ok result ≡ composite_indices_pass (is_known count) ty.now }
{
    known_in_inner(&ty.inner, count)?;
    known_option(ty.descriptor_idx, count)?;
    known_option(ty.describes_idx, count)
}

/// The same of a type, its supertype among them.
fn known_in_sub_type(ty: &SubType, count: usize) -> Result<(), u32>
    ensures { is_ok result ≡ sub_indices_pass (is_known count) ty.now }
{
    known_option(ty.supertype_idx, count)?;
    known_in_composite(&ty.composite_type, count)
}

/// The same of each type.
pub fn known_in_sub_types(types: &[SubType], count: usize) -> Result<(), u32>
    ensures { is_ok result ≡ list_all (sub_indices_pass (is_known count)) types.now }
{
    for ty in types {
        known_in_sub_type(ty, count)?;
    }
    Ok(())
}
