//! A recursion group behind a number that is mixed from its types. Groups are looked for by it: only where numbers are
//! equal does a search look at types.

ghost use Rattle.std.specs.Prelude.{◌≡◌, [], ◌∷◌, IfOk, IfErr};
ghost use Rattle.binary_operators.specs.declared.error.Cause.TheVariants.{OutOfMemory};
ghost use Rattle.binary_modules.specs.Mixed.{mix_index, mix_heap, mix_value, mix_values, mix_field};
ghost use Rattle.binary_modules.specs.Mixed.{mix_fields, mix_inner, mix_above, mix_type, mix_types};

use binary_operators::{ReadError, push};
use module_rules::mix;
use std::alloc::Global;
use validate_types::{
    CompositeInnerType, FieldType, HeapType, PackedIndex, StorageType, SubType, UnpackedIndex,
    ValType,
};

/// A recursion group, rolled up. Groups are in the order of their numbers, and of their types where these are equal.
#[derive(PartialEq, Eq, PartialOrd, Ord, Drop)]
pub(crate) struct RolledGroup {
    /// The number that is mixed from the types.
    pub(crate) mixed: u64,
    /// The types.
    pub(crate) types: Vec<SubType>,
}

impl RolledGroup {
    /// A group of these types.
    pub(crate) fn new(types: Vec<SubType>) -> RolledGroup
        ensures types { result.types ≡ types }
        ensures mixed { result.mixed ≡ mix_types types.items }
    {
        RolledGroup {
            mixed: mix_types(&types),
            types,
        }
    }

    /// A group of this type alone. It refuses want of memory alone.
    pub(crate) fn of_one(alloc: Global, ty: SubType) -> Result<RolledGroup, ReadError>
        ensures types { IfOk result (λ group. group.types.items ≡ ty ∷ []) }
        ensures mixed { IfOk result (λ group. group.mixed ≡ mix_types (ty ∷ [])) }
        ensures short { IfErr result (λ e. e.cause ≡ OutOfMemory) }
    {
        let mut types = Vec::new(alloc);
        push(&mut types, ty)?;
        Ok(RolledGroup::new(types))
    }
}

fn mix_index(mixed: u64, index: UnpackedIndex) -> u64
    ensures { result ≡ mix_index mixed index }
{
    match index {
        UnpackedIndex::Module(index) => mix(mix(mixed, 1), index as u64),
        UnpackedIndex::Id(id) => mix(mix(mixed, 2), id.index() as u64),
    }
}

fn mix_heap(mixed: u64, ty: HeapType) -> u64
    ensures { result ≡ mix_heap mixed ty }
{
    match ty {
        HeapType::Abstract { .. } => mix(mixed, 1),
        HeapType::Concrete(index) => mix_index(mix(mixed, 2), index),
        HeapType::Exact(index) => mix_index(mix(mixed, 3), index),
    }
}

fn mix_value(mixed: u64, ty: ValType) -> u64
    ensures { result ≡ mix_value mixed ty }
{
    match ty {
        ValType::I32 => mix(mixed, 1),
        ValType::I64 => mix(mixed, 2),
        ValType::F32 => mix(mixed, 3),
        ValType::F64 => mix(mixed, 4),
        ValType::V128 => mix(mixed, 5),
        ValType::Ref(ty) => {
            let word = if ty.nullable { 6 } else { 7 };
            mix_heap(mix(mixed, word), ty.heap_type)
        }
    }
}

fn mix_values(mixed: u64, types: &[ValType]) -> u64
    ensures { result ≡ mix_values mixed types.now }
{
    let mut mixed = mix(mixed, types.len() as u64);
    for ty in types {
        mixed = mix_value(mixed, *ty);
    }
    mixed
}

fn mix_field(mixed: u64, field: FieldType) -> u64
    ensures { result ≡ mix_field mixed field }
{
    let word = if field.mutable { 1 } else { 0 };
    let mixed = mix(mixed, word);
    match field.element_type {
        StorageType::I8 => mix(mixed, 8),
        StorageType::I16 => mix(mixed, 9),
        StorageType::Val(ty) => mix_value(mixed, ty),
    }
}

fn mix_fields(mixed: u64, fields: &[FieldType]) -> u64
    ensures { result ≡ mix_fields mixed fields.now }
{
    let mut mixed = mix(mixed, fields.len() as u64);
    for field in fields {
        mixed = mix_field(mixed, *field);
    }
    mixed
}

fn mix_inner(mixed: u64, inner: &CompositeInnerType) -> u64
    ensures { result ≡ mix_inner mixed inner.now }
{
    match inner {
        CompositeInnerType::Func(ty) => mix_values(mix_values(mixed, ty.params()), ty.results()),
        CompositeInnerType::Array(ty) => mix_field(mix(mixed, 1), ty.0),
        CompositeInnerType::Struct(ty) => mix_fields(mix(mixed, 2), &ty.fields),
        CompositeInnerType::Cont(ty) => mix_index(mix(mixed, 3), ty.0.unpack()),
    }
}

/// Mixes the supertype in, if there is one.
fn mix_above(mixed: u64, above: Option<PackedIndex>) -> u64
    ensures { result ≡ mix_above mixed above }
{
    match above {
        Some(index) => mix_index(mixed, index.unpack()),
        None => mix(mixed, 3),
    }
}

fn mix_type(mixed: u64, ty: &SubType) -> u64
    ensures { result ≡ mix_type mixed ty.now }
{
    let word = if ty.is_final { 1 } else { 0 };
    let mixed = mix_above(mix(mixed, word), ty.supertype_idx);
    mix_inner(mixed, &ty.composite_type.inner)
}

/// The number that is mixed from the types of a group.
#[tactic(auto, unfolding(crate::specs::Mixed::mix_types))]
pub(crate) fn mix_types(types: &[SubType]) -> u64
    ensures { result ≡ mix_types types.now }
{
    let mut mixed = 0;
    for ty in types {
        mixed = mix_type(mixed, ty);
    }
    mixed
}
