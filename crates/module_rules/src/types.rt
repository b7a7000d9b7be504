//! Whether the types that a module declares are valid (WebAssembly core specification, "Validation: Types").

ghost use Rattle.std.specs.Prelude.{◌≡◌, ◌&&◌, ℕ, is_ok, slice_get};
ghost use Rattle.std.specs.List.{list_all, enumerate_from};
ghost use Rattle.validate_types.specs.declared.types.FieldType.{FieldType};
ghost use Rattle.validate_types.specs.declared.types.SubType.{SubType};
ghost use Rattle.validate_types.specs.Types.{unpacked_type};
ghost use Rattle.validate_resources.specs.Lists.{continues_function};
ghost use Rattle.module_rules.specs.Types.{is_type_shared, may_stand_in, value_types_pass, is_kind_enabled, is_composite_enabled, is_valid_composite, matches_type, matches_supertype, is_sub_type_enabled, is_valid_sub_type, is_valid_type, are_valid_types};
ghost use Rattle.module_rules.specs.Judged.{Judges, JudgesAt};
ghost use Rattle.module_rules.specs.Within.{has_few_fields, is_type_within, are_types_within};

use crate::descriptors::check_descriptors;
use crate::faults::{Fault, LimitFault, Located, RuleFault, of_rules};
use crate::features::ModuleFeatures;
use crate::globals::check_type_on;
use crate::groups::{check_chain, check_groups};
use crate::items::RecGroup;
use crate::limits::MAX_WASM_STRUCT_FIELDS;
use crate::matching::is_composite_below;
use validate_resources::kinds::{continuation_of, is_func_type};
use validate_resources::order::{is_heap_shared, number};
use validate_types::{
    CompositeInnerType, CompositeType, FieldType, FuncType, PackedIndex, SubType, ValType,
};

/// Whether a value type is shared.
pub fn is_type_shared(types: &[SubType], ty: ValType) -> bool
    ensures { result ≡ is_type_shared types.now ty }
{
    match ty {
        ValType::Ref(ty) => is_heap_shared(types, ty.heap_type()),
        _ => true,
    }
}

/// The proposal of a value type is on, and the type is shared if it stands in what is shared.
fn check_part(
    features: ModuleFeatures,
    types: &[SubType],
    shared: bool,
    ty: ValType,
) -> Result<(), RuleFault>
    ensures { is_ok result ≡ may_stand_in features types.now shared ty }
{
    check_type_on(features, ty)?;
    if shared && !is_type_shared(types, ty) {
        return Err(RuleFault::UnsharedPart);
    }
    Ok(())
}

/// The same of each of these types.
fn check_each_part(
    features: ModuleFeatures,
    types: &[SubType],
    shared: bool,
    listed: &[ValType],
) -> Result<(), RuleFault>
    ensures { is_ok result ≡ list_all (may_stand_in features types.now shared) listed.now }
{
    for ty in listed {
        check_part(features, types, shared, *ty)?;
    }
    Ok(())
}

/// The same of what each of these fields holds.
fn check_fields(
    features: ModuleFeatures,
    types: &[SubType],
    shared: bool,
    fields: &[FieldType],
) -> Result<(), RuleFault>
    ensures { is_ok result ≡ list_all (λ (f : FieldType).
        may_stand_in features types.now shared (unpacked_type f.element_type)) fields.now }
{
    for field in fields {
        check_part(features, types, shared, field.element_type.unpack())?;
    }
    Ok(())
}

/// The same of what a function takes and gives.
fn check_func(
    features: ModuleFeatures,
    types: &[SubType],
    shared: bool,
    ty: &FuncType,
) -> Result<(), RuleFault>
    ensures { is_ok result ≡ (list_all (may_stand_in features types.now shared) ty.now.params
        && list_all (may_stand_in features types.now shared) ty.now.results) }
{
    check_each_part(features, types, shared, ty.params())?;
    check_each_part(features, types, shared, ty.results())
}

/// The same of each value type that a type is made of.
fn check_parts(
    features: ModuleFeatures,
    types: &[SubType],
    shared: bool,
    inner: &CompositeInnerType,
) -> Result<(), RuleFault>
    ensures { is_ok result ≡ value_types_pass (may_stand_in features types.now shared) inner.now }
{
    match inner {
        CompositeInnerType::Func(ty) => check_func(features, types, shared, ty),
        CompositeInnerType::Array(ty) => {
            check_part(features, types, shared, ty.0.element_type.unpack())
        }
        CompositeInnerType::Struct(ty) => check_fields(features, types, shared, &ty.fields),
        CompositeInnerType::Cont(_) => Ok(()),
    }
}

/// The proposal of what a type is made of is on.
fn check_kind_on(features: ModuleFeatures, inner: &CompositeInnerType) -> Result<(), RuleFault>
    ensures { is_ok result ≡ is_kind_enabled features inner.now }
{
    let operators = features.operators;
    match inner {
        CompositeInnerType::Func(ty) if ty.results().len() > 1 && !operators.multi_value() => {
            Err(RuleFault::SeveralResultsOff)
        }
        CompositeInnerType::Array(_) if !operators.gc() => Err(RuleFault::ArraysOff),
        CompositeInnerType::Cont(_) if !operators.stack_switching() => Err(
            RuleFault::ContinuationsOff,
        ),
        CompositeInnerType::Struct(_) if !operators.gc() => Err(RuleFault::StructsOff),
        CompositeInnerType::Func(_)
        | CompositeInnerType::Array(_)
        | CompositeInnerType::Struct(_)
        | CompositeInnerType::Cont(_) => Ok(()),
    }
}

/// The proposals of a composite type's sharedness, descriptors and kind are on.
#[tactic(auto, using(crate::proofs::Decided::and_false, crate::proofs::Decided::and_true))]
fn check_composite_on(features: ModuleFeatures, ty: &CompositeType) -> Result<(), RuleFault>
    ensures { is_ok result ≡ is_composite_enabled features ty.now }
{
    if ty.shared && !features.operators.shared_everything_threads() {
        return Err(RuleFault::SharedTypesOff);
    }
    let has_descriptors = ty.descriptor_idx.is_some() || ty.describes_idx.is_some();
    if has_descriptors && !features.operators.custom_descriptors() {
        return Err(RuleFault::DescriptorsOff);
    }
    check_kind_on(features, &ty.inner)
}

/// A struct has no more fields than may be.
fn check_field_count(inner: &CompositeInnerType) -> Result<(), LimitFault>
    ensures { is_ok result ≡ has_few_fields inner.now }
{
    match inner {
        CompositeInnerType::Struct(ty) if ty.fields.len() > MAX_WASM_STRUCT_FIELDS => {
            Err(LimitFault::TooManyFields)
        }
        _ => Ok(()),
    }
}

/// A composite type is valid, and has no more fields than may be.
fn check_composite(
    features: ModuleFeatures,
    types: &[SubType],
    ty: &CompositeType,
) -> Result<(), Fault>
    ensures { Judges (is_valid_composite features types.now ty.now) (has_few_fields ty.now.inner) result }
{
    check_composite_on(features, ty)?;
    check_field_count(&ty.inner)?;
    check_parts(features, types, ty.shared, &ty.inner)?;
    Ok(())
}

/// What a continuation runs is a function.
fn check_continuation(types: &[SubType], ty: &SubType) -> Result<(), RuleFault>
    ensures { is_ok result ≡ continues_function types.now ty.now }
{
    match continuation_of(ty) {
        Some(index) if !is_func_type(types, number(index.unpack())) => {
            Err(RuleFault::ContinuationOfNoFunction(number(index.unpack())))
        }
        _ => Ok(()),
    }
}

/// The type at this index is there, is not final, and is matched by this one.
fn check_matches(types: &[SubType], ty: &CompositeType, index: u32) -> Result<(), RuleFault>
    ensures { is_ok result ≡ matches_type types.now ty.now (slice_get types.now index) }
{
    let Some(above) = types.get(index as usize) else {
        return Err(RuleFault::SupertypeMismatch);
    };
    if above.is_final {
        return Err(RuleFault::FinalSupertype);
    }
    if !is_composite_below(types, ty, &above.composite_type) {
        return Err(RuleFault::SupertypeMismatch);
    }
    Ok(())
}

/// A type has no supertype, or matches it.
fn check_supertype(
    types: &[SubType],
    ty: &CompositeType,
    supertype: Option<PackedIndex>,
) -> Result<(), RuleFault>
    ensures { is_ok result ≡ matches_supertype types.now ty.now supertype }
{
    match supertype {
        None => Ok(()),
        Some(supertype) => check_matches(types, ty, number(supertype.unpack())),
    }
}

/// A type is final and has no supertype, or the proposal that brings these is on.
fn check_sub_type_on(features: ModuleFeatures, ty: &SubType) -> Result<(), RuleFault>
    ensures { is_ok result ≡ is_sub_type_enabled features ty.now }
{
    if ty.is_final && ty.supertype_idx.is_none() || features.operators.gc() {
        return Ok(());
    }
    Err(RuleFault::SubtypesOff)
}

/// A type is valid among those that the module declares, and has no more fields than may be.
fn check_sub_type(features: ModuleFeatures, types: &[SubType], ty: &SubType) -> Result<(), Fault>
    ensures { Judges (is_valid_sub_type features types.now ty.now)
        (has_few_fields ty.now.composite_type.inner) result }
{
    check_sub_type_on(features, ty)?;
    check_composite(features, types, &ty.composite_type)?;
    check_continuation(types, ty)?;
    check_supertype(types, &ty.composite_type, ty.supertype_idx)?;
    Ok(())
}

/// The type at this index is valid, its supertype is an earlier one, and it is within the limits.
fn check_type(
    features: ModuleFeatures,
    types: &[SubType],
    index: usize,
    ty: &SubType,
) -> Result<(), Fault>
    ensures { Judges (is_valid_type features types.now index ty.now) (is_type_within types.now index ty.now)
        result }
{
    check_chain(types, index, ty)?;
    check_sub_type(features, types, ty)
}

/// Where the group stands that the type at this index is in.
pub fn offset_of_type(groups: &[RecGroup], index: usize) -> u64 {
    let mut end = 0usize;
    let mut offset = 0;
    for group in groups {
        offset = group.offset;
        end = end.saturating_add(group.count as usize);
        if index < end {
            return offset;
        }
    }
    offset
}

/// Each type is valid, its supertype is an earlier one, and it is within the limits. A fault is that of the group.
fn check_each_type(
    features: ModuleFeatures,
    types: &[SubType],
    groups: &[RecGroup],
) -> Result<(), Located>
    ensures { JudgesAt (list_all (λ (e : ℕ × SubType). is_valid_type features types.now e.0 e.1)
        (enumerate_from 0 types.now)) (are_types_within types.now) result }
{
    for index in 0..types.len() {
        if let Err(fault) = check_type(features, types, index, &types[index]) {
            return Err(fault.at(offset_of_type(groups, index)));
        }
    }
    Ok(())
}

/// The types are valid, by these groups and these names, and each is within the limits. Names that are too few are told of
/// at this offset.
pub fn check_types(
    features: ModuleFeatures,
    types: &[SubType],
    groups: &[RecGroup],
    names: &[u32],
    offset: u64,
) -> Result<(), Located>
    ensures { JudgesAt (are_valid_types features types.now groups.now names.now) (are_types_within types.now)
        result }
{
    of_rules(check_groups(features, types, groups))?;
    check_each_type(features, types, groups)?;
    of_rules(check_descriptors(types, groups, names, offset))
}
