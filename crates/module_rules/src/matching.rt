//! Which composite types match which (WebAssembly core specification, "Matching: Composite Types").

ghost use Rattle.std.specs.Prelude.{◌≡◌};
ghost use Rattle.std.specs.List.{list_all, zip};
ghost use Rattle.validate_types.specs.declared.types.FieldType.{FieldType};
ghost use Rattle.validate_types.specs.Signatures.{is_signature_below};
ghost use Rattle.validate_resources.specs.Order.{is_type_below};
ghost use Rattle.module_rules.specs.Matching.{is_named_below, is_storage_below, is_field_below, are_fields_below, is_inner_below, is_descriptor_below, is_described_below, is_composite_below};

use validate_resources::order::{is_index_below, is_type_below, number};
use validate_types::{
    CompositeInnerType, CompositeType, FieldType, FuncType, PackedIndex, StorageType, SubType,
    func_signature_matches,
};

/// Whether the type that an index names is another, or is declared below it.
fn is_named_below(types: &[SubType], low: PackedIndex, high: PackedIndex) -> bool
    ensures { result ≡ is_named_below types.now low high }
{
    is_index_below(
        types,
        number(low.unpack()) as usize,
        number(high.unpack()) as usize,
    )
}

/// Whether what a field holds matches what another does.
fn is_storage_below(types: &[SubType], a: StorageType, b: StorageType) -> bool
    ensures { result ≡ is_storage_below types.now a b }
{
    match (a, b) {
        (StorageType::I8, StorageType::I8) | (StorageType::I16, StorageType::I16) => true,
        (StorageType::Val(a), StorageType::Val(b)) => is_type_below(types, a, b),
        _ => false,
    }
}

/// Whether a field matches another.
fn is_field_below(types: &[SubType], a: FieldType, b: FieldType) -> bool
    ensures { result ≡ is_field_below types.now a b }
{
    a.mutable == b.mutable
        && is_storage_below(types, a.element_type, b.element_type)
        && (!a.mutable || is_storage_below(types, b.element_type, a.element_type))
}

/// Whether each field matches the one above it.
fn is_each_field_below(types: &[SubType], fields: &[FieldType], above: &[FieldType]) -> bool
    ensures { result ≡ list_all (λ (p : FieldType × FieldType). is_field_below types.now p.0 p.1)
        (zip fields.now above.now) }
{
    fields
        .iter()
        .zip(above)
        .all(|(field, above)| is_field_below(types, *field, *above))
}

/// Whether there are at least as many fields, each of which matches the one in its place.
fn are_fields_below(types: &[SubType], fields: &[FieldType], above: &[FieldType]) -> bool
    ensures { result ≡ are_fields_below types.now fields.now above.now }
{
    above.len() <= fields.len() && is_each_field_below(types, fields, above)
}

/// Whether a function type matches another.
fn is_func_below(types: &[SubType], a: &FuncType, b: &FuncType) -> bool
    ensures { result ≡ is_signature_below (is_type_below types.now) a.now.params a.now.results
        b.now.params b.now.results }
{
    func_signature_matches(a.params(), a.results(), b.params(), b.results(), |a, b| {
        is_type_below(types, a, b)
    })
}

/// Whether what a type is made of is of the kind of another, and matches it.
fn is_inner_below(types: &[SubType], a: &CompositeInnerType, b: &CompositeInnerType) -> bool
    ensures { result ≡ is_inner_below types.now a.now b.now }
{
    match (a, b) {
        (CompositeInnerType::Func(a), CompositeInnerType::Func(b)) => is_func_below(types, a, b),
        (CompositeInnerType::Array(a), CompositeInnerType::Array(b)) => {
            is_field_below(types, a.0, b.0)
        }
        (CompositeInnerType::Struct(a), CompositeInnerType::Struct(b)) => {
            are_fields_below(types, &a.fields, &b.fields)
        }
        (CompositeInnerType::Cont(a), CompositeInnerType::Cont(b)) => {
            is_named_below(types, a.0, b.0)
        }
        _ => false,
    }
}

/// Whether there is a descriptor below another, where there is that one.
fn is_descriptor_below(
    types: &[SubType],
    descriptor: Option<PackedIndex>,
    above: Option<PackedIndex>,
) -> bool
    ensures { result ≡ is_descriptor_below types.now descriptor above }
{
    match (descriptor, above) {
        (_, None) => true,
        (None, Some(_)) => false,
        (Some(descriptor), Some(above)) => is_named_below(types, descriptor, above),
    }
}

/// Whether neither type is a descriptor, or what the lower one describes is below what the upper one does.
fn is_described_below(
    types: &[SubType],
    described: Option<PackedIndex>,
    above: Option<PackedIndex>,
) -> bool
    ensures { result ≡ is_described_below types.now described above }
{
    match (described, above) {
        (None, None) => true,
        (Some(described), Some(above)) => is_named_below(types, described, above),
        _ => false,
    }
}

/// Whether a composite type matches another.
pub fn is_composite_below(types: &[SubType], a: &CompositeType, b: &CompositeType) -> bool
    ensures { result ≡ is_composite_below types.now a.now b.now }
{
    a.shared == b.shared
        && is_inner_below(types, &a.inner, &b.inner)
        && is_descriptor_below(types, a.descriptor_idx, b.descriptor_idx)
        && is_described_below(types, a.describes_idx, b.describes_idx)
}
