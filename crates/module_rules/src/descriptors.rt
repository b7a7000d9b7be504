//! Descriptors, and the types that they describe (a proposal, "Custom Descriptors": type definitions).

ghost use Rattle.std.specs.Prelude.{◌≡◌, ℕ, is_ok, length, slice_get};
ghost use Rattle.std.specs.List.{list_all, zip};
ghost use Rattle.validate_types.specs.declared.types.SubType.{SubType};
ghost use Rattle.validate_types.specs.Kinds.{is_struct};
ghost use Rattle.module_rules.specs.Descriptors.{names_type, is_descriptor_of, is_described_by, has_valid_descriptor, describes_valid_type, has_valid_descriptors, have_valid_descriptors};

use crate::faults::{LocatedRule, RuleFault};
use crate::items::RecGroup;
use crate::types::offset_of_type;
use validate_resources::order::number;
use validate_types::{CompositeInnerType, CompositeType, PackedIndex, SubType};

/// Whether the index names the type of this number.
fn names_type(index: Option<PackedIndex>, name: u32) -> bool
    ensures { result ≡ names_type name index }
{
    match index {
        Some(index) => number(index.unpack()) == name,
        None => false,
    }
}

/// Whether it is of structs.
fn is_struct(inner: &CompositeInnerType) -> bool
    ensures { result ≡ is_struct inner.now }
{
    matches!(inner, CompositeInnerType::Struct(_))
}

/// Whether the type that the index names is there, describes the type of this number, and is of this
/// sharedness.
fn is_descriptor_of(types: &[SubType], index: u32, name: u32, shared: bool) -> bool
    ensures { result ≡ is_descriptor_of name shared (slice_get types.now index) }
{
    match types.get(index as usize) {
        Some(ty) => {
            names_type(ty.composite_type.describes_idx, name) && shared == ty.composite_type.shared
        }
        None => false,
    }
}

/// Whether the type that the index names is there, is described by the type of this number, and is of this
/// sharedness.
fn is_described_by(types: &[SubType], index: u32, name: u32, shared: bool) -> bool
    ensures { result ≡ is_described_by name shared (slice_get types.now index) }
{
    match types.get(index as usize) {
        Some(ty) => {
            names_type(ty.composite_type.descriptor_idx, name) && shared == ty.composite_type.shared
        }
        None => false,
    }
}

/// What has a descriptor, or is one, is a struct.
fn check_is_struct(inner: &CompositeInnerType) -> Result<(), RuleFault>
    ensures { is_ok result ≡ is_struct inner.now }
{
    if is_struct(inner) {
        return Ok(());
    }
    Err(RuleFault::DescriptorOfNoStruct)
}

/// A type that is named by this number has no descriptor, or is of structs and has one that describes it.
fn check_descriptor(types: &[SubType], name: u32, ty: &CompositeType) -> Result<(), RuleFault>
    ensures { is_ok result ≡ has_valid_descriptor types.now name ty.now ty.now.descriptor_idx }
{
    let Some(descriptor) = ty.descriptor_idx else {
        return Ok(());
    };
    check_is_struct(&ty.inner)?;
    if !is_descriptor_of(types, number(descriptor.unpack()), name, ty.shared) {
        return Err(RuleFault::NoMatchingDescribes);
    }
    Ok(())
}

/// A type that is named by this number describes none, or is of structs and describes an earlier type, of which it is
/// the descriptor.
fn check_described(types: &[SubType], name: u32, ty: &CompositeType) -> Result<(), RuleFault>
    ensures { is_ok result ≡ describes_valid_type types.now name ty.now ty.now.describes_idx }
{
    let Some(described) = ty.describes_idx else {
        return Ok(());
    };
    check_is_struct(&ty.inner)?;
    let described = number(described.unpack());
    if described >= name {
        return Err(RuleFault::LaterDescribed);
    }
    if !is_described_by(types, described, name, ty.shared) {
        return Err(RuleFault::NoMatchingDescriptor);
    }
    Ok(())
}

/// The descriptor of a type that is named by this number, and what it describes, are valid.
fn check_described_type(types: &[SubType], name: u32, ty: &CompositeType) -> Result<(), RuleFault>
    ensures { is_ok result ≡ has_valid_descriptors types.now name ty.now }
{
    check_descriptor(types, name, ty)?;
    check_described(types, name, ty)
}

/// The descriptor of each type, by its name, and what it describes, are valid. A fault is that of the group.
fn check_each_descriptor(
    types: &[SubType],
    groups: &[RecGroup],
    names: &[u32],
) -> Result<(), LocatedRule>
    requires { length names.now ≡ length types.now }
    ensures { is_ok result ≡ list_all (λ (e : SubType × ℕ).
        has_valid_descriptors types.now e.1 e.0.composite_type) (zip types.now names.now) }
{
    for index in 0..types.len() {
        let checked = check_described_type(types, names[index], &types[index].composite_type);
        if let Err(fault) = checked {
            return Err(fault.at(offset_of_type(groups, index)));
        }
    }
    Ok(())
}

/// Each type has a name, and the descriptor of each, and what it describes, are valid. Names that are too few are told of
/// at this offset.
pub fn check_descriptors(
    types: &[SubType],
    groups: &[RecGroup],
    names: &[u32],
    offset: u64,
) -> Result<(), LocatedRule>
    ensures { is_ok result ≡ have_valid_descriptors types.now names.now }
{
    if names.len() != types.len() {
        return Err(RuleFault::UnnamedTypes.at(offset));
    }
    check_each_descriptor(types, groups, names)
}
