//! The addresses of loads, stores and atomic operators, by their immediates (WebAssembly core
//! specification, "Memory Instructions"; the multibyte array access proposal).

ghost use Rattle.std.specs.Prelude.{◌≡◌, true, false, [], ◌∷◌, None, Some, IfOk, OnOk, OnErr, IfErr};
ghost use Rattle.validate_resources.specs.Context.{Valid, is_address_type};
ghost use Rattle.validate_types.specs.declared.types.ValType.TheVariants.{I32};
ghost use Rattle.validate_visit.specs.declared.memory.MemArgTarget.TheVariants.{Memory, Array};
ghost use Rattle.validation_rules.specs.Access.{address_types_for, memory_address_types, target_address_types, atomic_address_types};
ghost use Rattle.validate_shapes.specs.Accesses.{may_access_places};
ghost use Rattle.validate_stacks.specs.Bodies.{context_of};

use crate::aggregates::{array_field_at, check_mutable_array, type_reference};
use crate::memories::check_memory_index;
use validate_resources::WasmModuleResources;
use validate_stacks::OperatorContext;
use validate_types::{FieldType, Refusal, Refused, ValType};
use validate_visit::{MemArg, MemArgTarget};

/// What is done to what is accessed.
#[derive(Clone, Copy)]
pub enum AccessKind {
    /// It is read.
    Load,
    /// It is written.
    Store,
}

/// The type of the address of a load or a store of this memory: the alignment is at most the natural one,
/// and the offset one that the address allows (wasmparser's `check_memarg_inner`).
#[inline(always)]
pub fn check_memory_access<A: Refused, R: WasmModuleResources>(
    resources: &R,
    memarg: &MemArg,
    memory_index: u32,
) -> Result<ValType, A>
    ensures found { IfOk result (λ it. address_types_for memarg.now
        (memory_address_types (R.context resources.now) (Memory memory_index)) ≡ Some (it ∷ [])) }
    ensures index { IfOk result (λ it. is_address_type it ≡ true) }
    ensures refused { OnErr result (address_types_for memarg.now
        (memory_address_types (R.context resources.now) (Memory memory_index)) ≡ None) }
{
    if memarg.align > memarg.max_align {
        return Err(A::of(Refusal::AlignedMore));
    }
    let index_type = check_memory_index(resources, memory_index)?;
    if memarg.offset > u64::from(u32::MAX) && index_type == ValType::I32 {
        return Err(A::of(Refusal::OffsetBeyond));
    }
    Ok(index_type)
}

/// The places hold no references, and can be written where that is done.
fn check_places<A: Refused>(access: AccessKind, places: FieldType) -> Result<(), A>
    ensures passed { OnOk result (may_access_places access places ≡ true) }
    ensures refused { OnErr result (may_access_places access places ≡ false) }
{
    if let AccessKind::Store = access {
        check_mutable_array(places)?;
    }
    match places.element_type.unpack() {
        ValType::Ref(_) => Err(A::of(Refusal::NoBytes(places.element_type))),
        _ => Ok(()),
    }
}

/// The reference that a load or a store takes of an array of this type, with an i32 above it.
#[cold]
#[inline(never)]
pub fn check_array_access<A: Refused, R: WasmModuleResources>(
    context: &OperatorContext<'_, '_, R>,
    access: AccessKind,
    memarg: MemArg,
    type_index: u32,
) -> Result<ValType, A>
    ensures found { IfOk result (λ array. address_types_for memarg
        (target_address_types (context_of R.context context.now) (may_access_places access) (Array type_index)) ≡
        Some (array ∷ I32 ∷ [])) }
    ensures valid { IfOk result (λ array. Valid (R.context context.now.resources.now) array) }
    ensures refused { IfErr result (λ e. A.tells e → address_types_for memarg
        (target_address_types (context_of R.context context.now) (may_access_places access)
        (Array type_index)) ≡ None) }
{
    if memarg.align > memarg.max_align {
        return Err(A::of(Refusal::AlignedMore));
    }
    if !context.stacks.features().multibyte_array_access() {
        return Err(A::of(Refusal::MultibyteArraysOff));
    }
    let places = array_field_at(context, type_index)?;
    check_places(access, places)?;
    if memarg.offset > u64::from(u32::MAX) {
        return Err(A::of(Refusal::OffsetBeyond));
    }
    type_reference(context, true, type_index)
}

/// The type of the address of an atomic access: it accesses a memory, its alignment is the natural one,
/// and the rest is as of any access (wasmparser's `check_shared_memarg`).
pub fn check_shared_memarg<A: Refused, R: WasmModuleResources>(
    resources: &R,
    memarg: MemArg,
) -> Result<ValType, A>
    ensures found { IfOk result (λ it. atomic_address_types (R.context resources.now) memarg
        ≡ Some (it ∷ [])) }
    ensures index { IfOk result (λ it. is_address_type it ≡ true) }
    ensures refused { OnErr result (atomic_address_types (R.context resources.now) memarg ≡ None) }
{
    if memarg.align != memarg.max_align {
        return Err(A::of(Refusal::AlignedLess));
    }
    let MemArgTarget::Memory(memory_index) = memarg.target else {
        return Err(A::of(Refusal::AtomicArray));
    };
    check_memory_access(resources, &memarg, memory_index)
}
