//! The descriptor of a reference, and casts by a descriptor (a proposal, "Custom Descriptors").

ghost use Rattle.std.specs.Prelude.{◌≡◌, true, false, None, Some, IfOk, OnOk, OnErr, IfErr};
ghost use Rattle.validate_resources.specs.Context.{Valid, is_valid_heap, is_valid_index};
ghost use Rattle.validate_types.specs.Refs as reference_rule;
ghost use Rattle.validate_types.specs.declared.heap.HeapType.{HeapType};
ghost use Rattle.validate_types.specs.declared.heap.UnpackedIndex.{UnpackedIndex};
ghost use Rattle.validation_rules.specs.Descriptors.{ref_get_desc_row, ref_cast_desc_eq_row, br_on_cast_desc_eq_row, br_on_cast_desc_eq_fail_row, cast_desc_eq_branch_row};
ghost use Rattle.validation_rules.specs.Descriptors as descriptor_rule;
ghost use Rattle.validation_rules.specs.Operators.{row_operator, staying_operator};
ghost use Rattle.validation_rules.specs.Valid.{IsValidOperand};
ghost use Rattle.validate_stacks.specs.Bodies.{context_of, CanCheck, Checks};
ghost use Rattle.validate_stacks.specs.Steps.{found_in_body};
ghost use Rattle.validate_rows_gc.specs.Casts.{branch_types};
ghost use Rattle.validate_rows_gc.specs.Descriptors.{found_descriptor};

use crate::casts::{CastBranch, cast_branch, cast_type, checked_cast, operand_of_cast};
use validate_resources::WasmModuleResources;
use validate_shapes::aggregates::{declared_heap, descriptor_at, type_reference};
use validate_shapes::canonical::canonical_heap;
use validate_stacks::OperatorContext;
use validate_types::{
    HeapType, MaybeType, PackedIndex, RefType, Refusal, Refused, UnpackedIndex, ValType,
};
use validate_visit::BranchCast;

/// Whether an operand is known to be exact in this type, if it is anything.
fn is_found_exact<R: WasmModuleResources>(resources: &R, exact: HeapType, found: MaybeType) -> bool
    requires heap { is_valid_heap (R.context resources.now) exact ≡ true }
    requires operand { IsValidOperand (R.context resources.now) found }
    ensures { result ≡ descriptor_rule.is_found_exact (R.context resources.now) exact found }
{
    match found {
        MaybeType::Bottom | MaybeType::UnknownRef(None) => true,
        MaybeType::UnknownRef(Some(_)) => false,
        MaybeType::Known(ValType::Ref(ty)) => {
            let exact = RefType {
                nullable: true,
                heap_type: exact,
            };
            (ty.is_exact_type_ref() || ty.is_none_ref())
                && resources.is_subtype(ValType::Ref(ty), ValType::Ref(exact))
        }
        MaybeType::Known(_) => false,
    }
}

/// `ref.get_desc`: `[(ref null t)] -> [(ref d)]`, with the type d of the descriptors of the type t at this index;
/// exact where what is found is.
#[inline(never)]
pub fn ref_get_desc<A: Refused, R: WasmModuleResources>(
    context: OperatorContext<'_, '_, R>,
    type_index: u32,
) -> Result<(), A>
    requires { CanCheck R.context context }
    ensures { Checks R.context A.tells (λ cx. row_operator (ref_get_desc_row cx type_index)) context.entry
        result context.exit }
{
    let from = type_reference(&context, true, type_index)?;
    let exact = canonical_heap(
        context.resources,
        HeapType::Exact(UnpackedIndex::Module(type_index)),
    )?;
    context.expect_operands(0, &[from])?;
    let Some(descriptor) = descriptor_at(context.resources, type_index)? else {
        return Err(A::of(Refusal::NoDescriptor));
    };
    let found = context.stacks.find_any(0)?;
    let pushed = RefType {
        nullable: false,
        heap_type: declared_heap(
            is_found_exact(context.resources, exact, found),
            descriptor.unpack(),
        ),
    };
    let own = context.stacks.own_operand_count();
    context
        .stacks
        .replace(own.min(1), MaybeType::Known(ValType::Ref(pushed)))
}

/// The type of the descriptors of the type that a cast leads to, which has to be one of the module and to have
/// them (wasmparser's `check_descriptor`).
fn descriptor_in<A: Refused, R: WasmModuleResources>(
    resources: &R,
    heap_type: HeapType,
) -> Result<PackedIndex, A>
    ensures found { IfOk result (λ d. descriptor_rule.descriptor_in (R.context resources.now) heap_type
        ≡ Some d) }
    ensures valid { IfOk result (λ d. is_valid_index (R.context resources.now) d ≡ true) }
    ensures refused { OnErr result (descriptor_rule.descriptor_in (R.context resources.now)
        heap_type ≡ None) }
{
    match heap_type {
        HeapType::Concrete(UnpackedIndex::Module(index))
        | HeapType::Exact(UnpackedIndex::Module(index)) => {
            match descriptor_at(resources, index)? {
                Some(descriptor) => Ok(descriptor),
                None => Err(A::of(Refusal::TargetWithoutDescriptor)),
            }
        }
        _ => Err(A::of(Refusal::UnexpectedHeapType)),
    }
}

/// Refuses an operand on top that isn't a descriptor of this type, by which something is cast: to an exact type by an exact
/// one (wasmparser's `check_maybe_exact_descriptor_ref`).
#[tactic(auto, using(crate::proofs::Sets::descriptors))]
fn expect_descriptor<A: Refused, R: WasmModuleResources>(
    context: &OperatorContext<'_, '_, R>,
    exact: bool,
    descriptor: PackedIndex,
) -> Result<(), A>
    requires state { CanCheck R.context context.now }
    requires descriptor { is_valid_index (R.context context.now.resources.now) descriptor ≡ true }
    ensures passed { OnOk result (found_descriptor (context_of R.context context.now) exact descriptor
        (found_in_body context.now.stacks.now.body) ≡ true) }
    ensures refused { OnErr result (found_descriptor (context_of R.context context.now) exact descriptor
        (found_in_body context.now.stacks.now.body) ≡ false) }
{
    let expected = ValType::Ref(RefType::concrete(true, descriptor));
    context.expect_operands(0, &[expected])?;
    let found = context.stacks.find_any(0)?;
    if exact {
        check_exact(context.resources, descriptor, found)
    } else {
        Ok(())
    }
}

/// Refuses an operand that is known not to be an exact descriptor of this type.
fn check_exact<A: Refused, R: WasmModuleResources>(
    resources: &R,
    descriptor: PackedIndex,
    found: MaybeType,
) -> Result<(), A>
    requires descriptor { is_valid_index (R.context resources.now) descriptor ≡ true }
    requires operand { IsValidOperand (R.context resources.now) found }
    ensures passed { OnOk result (descriptor_rule.is_below_if_known (R.context resources.now)
        (descriptor_rule.descriptor true descriptor) found ≡ true) }
    ensures refused { OnErr result (descriptor_rule.is_below_if_known (R.context resources.now)
        (descriptor_rule.descriptor true descriptor) found ≡ false) }
{
    let MaybeType::Known(found) = found else {
        return Ok(());
    };
    let expected = ValType::Ref(RefType::exact(true, descriptor));
    if resources.is_subtype(found, expected) {
        Ok(())
    } else {
        Err(A::of(Refusal::NotExact { expected, found }))
    }
}

/// Whether a type is exact.
fn is_exact(heap_type: HeapType) -> bool
    ensures { result ≡ reference_rule.is_exact heap_type }
{
    matches!(heap_type, HeapType::Exact(_))
}

/// `ref.cast_desc_eq`: `[(ref null top) (ref null d)] -> [t]`, with the top type of the hierarchy of the type t cast
/// to, and the type d of its descriptors.
pub fn ref_cast_desc_eq<A: Refused, R: WasmModuleResources>(
    context: OperatorContext<'_, '_, R>,
    nullable: bool,
    heap_type: &HeapType,
) -> Result<(), A>
    requires { CanCheck R.context context }
    ensures { Checks R.context A.tells (λ cx. row_operator (ref_cast_desc_eq_row cx nullable heap_type.now))
        context.entry result context.exit }
{
    let descriptor = descriptor_in(context.resources, *heap_type)?;
    expect_descriptor(&context, is_exact(*heap_type), descriptor)?;
    let ty = cast_type(&context, nullable, *heap_type)?;
    let operand = operand_of_cast(context.resources, ty);
    context.expect_operands(1, &[operand])?;
    let own = context.stacks.own_operand_count();
    context
        .stacks
        .replace(own.min(2), MaybeType::Known(ValType::Ref(ty)))
}

/// A branch by a cast with a descriptor above the operand: what is carried to the label is of the type cast to, or isn't.
#[inline(never)]
fn branch_by_descriptor<A: Refused, R: WasmModuleResources>(
    context: OperatorContext<'_, '_, R>,
    branch: CastBranch,
    cast: BranchCast,
) -> Result<(), A>
    requires { CanCheck R.context context }
    ensures { Checks R.context A.tells (λ cx. staying_operator (λ hs. cast_desc_eq_branch_row cx hs
        (branch_types branch) cast)) context.entry result context.exit }
{
    let types = checked_cast(&context, cast)?;
    let heap_type = cast.to_ref_type.heap_type();
    let descriptor = descriptor_in(context.resources, heap_type)?;
    expect_descriptor(&context, is_exact(heap_type), descriptor)?;
    cast_branch(context, 1, branch, cast.relative_depth, types)
}

/// `br_on_cast_desc_eq`: `[t from (ref null d)] -> [t left]`, as `br_on_cast` with a descriptor above the operand.
pub fn br_on_cast_desc_eq<A: Refused, R: WasmModuleResources>(
    context: OperatorContext<'_, '_, R>,
    cast: &BranchCast,
) -> Result<(), A>
    requires { CanCheck R.context context }
    ensures { Checks R.context A.tells (λ cx. staying_operator (λ hs. br_on_cast_desc_eq_row cx hs cast.now))
        context.entry result context.exit }
{
    branch_by_descriptor(context, CastBranch::OnCast, *cast)
}

/// `br_on_cast_desc_eq_fail`: `[t from (ref null d)] -> [t to]`, as `br_on_cast_fail` with a descriptor above the
/// operand.
pub fn br_on_cast_desc_eq_fail<A: Refused, R: WasmModuleResources>(
    context: OperatorContext<'_, '_, R>,
    cast: &BranchCast,
) -> Result<(), A>
    requires { CanCheck R.context context }
    ensures { Checks R.context A.tells (λ cx. staying_operator (λ hs. br_on_cast_desc_eq_fail_row cx hs
        cast.now)) context.entry result context.exit }
{
    branch_by_descriptor(context, CastBranch::OnCastFail, *cast)
}
