//! The types of structs and arrays, looked up, and references to them (WebAssembly core specification,
//! "Aggregate Instructions").

ghost use Rattle.std.specs.Prelude.{◌≡◌, true, false, None, Some, IfOk, OnOk, OnErr, IfErr, slice_get};
ghost use Rattle.std.specs.List.{AllByRecursion};
ghost use Rattle.std.specs.Option.{option_copied, ForSome};
ghost use Rattle.validate_resources.specs.Context.{Valid, is_valid_index};
ghost use Rattle.validate_types.specs.Refs.{reference};
ghost use Rattle.validate_types.specs.Types.{unpacked_fields};
ghost use Rattle.validation_rules.specs.Arrays.{array_type, array_element};
ghost use Rattle.validation_rules.specs.Descriptors as descriptor_rule;
ghost use Rattle.validation_rules.specs.Exact.{declared_heap};
ghost use Rattle.validation_rules.specs.Exact as exact_rule;
ghost use Rattle.validation_rules.specs.Indirect as indirect_rule;
ghost use Rattle.validation_rules.specs.Structs.{struct_type, struct_fields, struct_field, field_value};
ghost use Rattle.validate_stacks.specs.Bodies.{context_of};

use crate::canonical::heap_reference;
use validate_resources::WasmModuleResources;
use validate_resources::uses::laws;
use validate_stacks::OperatorContext;
use validate_types::{
    CompositeInnerType, FieldType, HeapType, PackedIndex, Packing, Refusal, Refused, StructType,
    SubType, UnpackedIndex, ValType,
};
use validate_visit::{FieldIndex, Sign};

/// The struct that a type is, if it is one.
#[inline(always)]
fn struct_type_of(sub_type: &SubType) -> Option<&StructType>
    ensures { option_copied result ≡ struct_fields sub_type.now.composite_type.inner }
{
    match &sub_type.composite_type.inner {
        CompositeInnerType::Struct(struct_type) => Some(struct_type),
        CompositeInnerType::Func(_) | CompositeInnerType::Array(_) | CompositeInnerType::Cont(_) =>
            None,
    }
}

/// What each place holds of the array that a type is, if it is one.
#[inline(always)]
fn element_of(sub_type: &SubType) -> Option<FieldType>
    ensures { result ≡ array_element sub_type.now.composite_type.inner }
{
    match &sub_type.composite_type.inner {
        CompositeInnerType::Array(array_type) => Some(array_type.0),
        CompositeInnerType::Func(_) | CompositeInnerType::Struct(_) | CompositeInnerType::Cont(_) =>
            None,
    }
}

/// The struct type at an index (wasmparser's `struct_type_at`). It refuses one that isn't declared, a type of another kind,
/// and in a shared function one that isn't shared.
#[inline(always)]
pub fn struct_type_at<'a, A: Refused, R: WasmModuleResources>(
    context: &OperatorContext<'_, 'a, R>,
    type_index: u32,
) -> Result<&'a StructType, A>
    ensures found { IfOk result (λ s. struct_type (context_of R.context context.now) type_index ≡ Some s.now) }
    ensures valid { IfOk result (λ s. AllByRecursion (Valid (R.context context.now.resources.now))
        (unpacked_fields s.now)) }
    ensures refused { OnErr result (struct_type (context_of R.context context.now) type_index ≡ None) }
{
    let Some(sub_type) = context.resources.sub_type_at(type_index) else {
        return Err(A::of(Refusal::UnknownType));
    };
    let Some(struct_type) = struct_type_of(sub_type) else {
        return Err(A::of(Refusal::NoStructType(type_index)));
    };
    if context.stacks.is_shared() && !sub_type.composite_type.shared {
        return Err(A::of(Refusal::UnsharedStruct));
    }
    Ok(struct_type)
}

/// A field of a struct type (wasmparser's `struct_field_at`). It refuses a place past the last.
#[inline(always)]
pub fn struct_field_at<A: Refused, R: WasmModuleResources>(
    context: &OperatorContext<'_, '_, R>,
    index: FieldIndex,
) -> Result<FieldType, A>
    ensures found { IfOk result (λ f. struct_field (context_of R.context context.now) index ≡ Some f) }
    ensures valid { IfOk result (λ f. Valid (R.context context.now.resources.now) (field_value f)) }
    ensures refused { OnErr result (struct_field (context_of R.context context.now) index ≡ None) }
{
    let struct_type = struct_type_at(context, index.struct_type_index)?;
    match field_of(struct_type, index.field_index) {
        Some(field) => Ok(field),
        None => Err(A::of(Refusal::UnknownField)),
    }
}

/// The field at this place, if there is one.
#[inline(always)]
fn field_of(struct_type: &StructType, field_index: u32) -> Option<FieldType>
    ensures { result ≡ slice_get struct_type.now field_index }
{
    struct_type.fields.get(field_index as usize).copied()
}

/// What each place of the array type at an index holds (wasmparser's `array_type_at`). It refuses as [`struct_type_at`] does.
#[inline(always)]
pub fn array_field_at<A: Refused, R: WasmModuleResources>(
    context: &OperatorContext<'_, '_, R>,
    type_index: u32,
) -> Result<FieldType, A>
    ensures found { IfOk result (λ f. array_type (context_of R.context context.now) type_index ≡ Some f) }
    ensures valid { IfOk result (λ f. Valid (R.context context.now.resources.now) (field_value f)) }
    ensures refused { OnErr result (array_type (context_of R.context context.now) type_index ≡ None) }
{
    let Some(sub_type) = context.resources.sub_type_at(type_index) else {
        return Err(A::of(Refusal::UnknownType));
    };
    let Some(element) = element_of(sub_type) else {
        return Err(A::of(Refusal::NoArrayType(type_index)));
    };
    if context.stacks.is_shared() && !sub_type.composite_type.shared {
        return Err(A::of(Refusal::UnsharedArray));
    }
    Ok(element)
}

/// Refuses an array that can't be written.
#[inline(always)]
pub fn check_mutable_array<A: Refused>(places: FieldType) -> Result<(), A>
    ensures passed { OnOk result (places.mutable ≡ true) }
    ensures refused { OnErr result (places.mutable ≡ false) }
{
    if places.mutable {
        Ok(())
    } else {
        Err(A::of(Refusal::ImmutableArray))
    }
}

/// Refuses a field that can't be written.
#[inline(always)]
pub fn check_mutable_field<A: Refused>(field: FieldType) -> Result<(), A>
    ensures passed { OnOk result (field.mutable ≡ true) }
    ensures refused { OnErr result (field.mutable ≡ false) }
{
    if field.mutable {
        Ok(())
    } else {
        Err(A::of(Refusal::ImmutableField))
    }
}

/// How an operator reads what is held, with this sign or as it is.
pub fn packing(sign: Option<Sign>) -> Packing {
    match sign {
        None => Packing::Plain,
        Some(Sign::Signed) => Packing::Signed,
        Some(Sign::Unsigned) => Packing::Unsigned,
    }
}

/// A reference, or one that may be null, to the type at this index, which has to be declared.
#[inline(always)]
pub fn type_reference<A: Refused, R: WasmModuleResources>(
    context: &OperatorContext<'_, '_, R>,
    nullable: bool,
    type_index: u32,
) -> Result<ValType, A>
    ensures found { IfOk result (λ t. indirect_rule.type_reference (context_of R.context context.now)
        (reference nullable) type_index ≡ Some t) }
    ensures valid { IfOk result (λ t. Valid (R.context context.now.resources.now) t) }
    ensures refused { IfErr result (λ e. A.tells e → indirect_rule.type_reference
        (context_of R.context context.now) (reference nullable) type_index ≡ None) }
{
    let heap_type = HeapType::Concrete(UnpackedIndex::Module(type_index));
    heap_reference(context.resources, nullable, heap_type)
}

/// A type of the module, exact or not.
#[inline(always)]
pub fn declared_heap(exact: bool, index: UnpackedIndex) -> HeapType
    ensures { result ≡ declared_heap exact index }
{
    if exact {
        HeapType::Exact(index)
    } else {
        HeapType::Concrete(index)
    }
}

/// A reference to what is allocated, of the type at this index, which has to be declared: exact where references
/// can be (wasmparser's `push_exact_ref_if_available`).
#[inline(always)]
pub fn allocated_reference<A: Refused, R: WasmModuleResources>(
    context: &OperatorContext<'_, '_, R>,
    type_index: u32,
) -> Result<ValType, A>
    ensures found { IfOk result (λ t. exact_rule.allocated_reference (context_of R.context context.now)
        type_index ≡ Some t) }
    ensures valid { IfOk result (λ t. Valid (R.context context.now.resources.now) t) }
    ensures refused { IfErr result (λ e. A.tells e → exact_rule.allocated_reference
        (context_of R.context context.now) type_index ≡ None) }
{
    let exact = context.stacks.features().custom_descriptors();
    let heap_type = declared_heap(exact, UnpackedIndex::Module(type_index));
    heap_reference(context.resources, false, heap_type)
}

/// The type of the descriptors of the type at this index, if it has one. The type has to be declared.
#[inline(always)]
pub fn descriptor_at<A: Refused, R: WasmModuleResources>(
    resources: &R,
    type_index: u32,
) -> Result<Option<PackedIndex>, A>
    ensures found { IfOk result (λ d. descriptor_rule.descriptor_at (R.context resources.now)
        type_index ≡ d) }
    ensures valid { IfOk result (λ d. ForSome d (λ u. is_valid_index (R.context resources.now) u ≡ true)) }
    ensures unknown { OnErr result ((R.context resources.now).type_at type_index ≡ None) }
{
    laws(resources);
    match resources.sub_type_at(type_index) {
        Some(sub_type) => Ok(sub_type.composite_type.descriptor_idx),
        None => Err(A::of(Refusal::UnknownType)),
    }
}
