//! Continuation types, looked up (a proposal, "Stack Switching": continuation types).

ghost use Rattle.std.specs.Prelude.{◌≡◌, true, false, None, Some, IfOk, OnErr};
ghost use Rattle.std.specs.List.{AllByRecursion};
ghost use Rattle.std.specs.Option.{option_copied};
ghost use Rattle.validate_resources.specs.Context.{ModuleContext, Valid, IsContinuation, continued_signature};
ghost use Rattle.validate_types.specs.Signatures.{is_signature_below};
ghost use Rattle.validation_rules.specs.Continuations.{continuation_type, continuation_signature};
ghost use Rattle.validation_rules.specs.Continuations as rule;
ghost use Rattle.validate_stacks.specs.Bodies.{context_of};

use validate_resources::WasmModuleResources;
use validate_resources::kinds::{continuation_of, func_type_of};
use validate_stacks::OperatorContext;
use validate_types::{
    ContType, FuncType, HeapType, Refusal, Refused, UnpackedIndex, ValType, func_signature_matches,
};

/// The continuation type at an index (wasmparser's `cont_type_at`). It refuses one that isn't declared, a type of another kind,
/// and in a shared function one that isn't shared.
pub fn cont_type_at<A: Refused, R: WasmModuleResources>(
    context: &OperatorContext<'_, '_, R>,
    type_index: u32,
) -> Result<ContType, A>
    ensures found { IfOk result (λ c. continuation_type (context_of R.context context.now)
        type_index ≡ Some c.0) }
    ensures continuation { IfOk result (λ c. IsContinuation (R.context context.now.resources.now) c.0) }
    ensures refused { OnErr result (continuation_type (context_of R.context context.now) type_index ≡ None) }
{
    let Some(sub_type) = context.resources.sub_type_at(type_index) else {
        return Err(A::of(Refusal::UnknownType));
    };
    let Some(index) = continuation_of(sub_type) else {
        return Err(A::of(Refusal::NoContinuationType(type_index)));
    };
    if context.stacks.is_shared() && !sub_type.composite_type.shared {
        return Err(A::of(Refusal::UnsharedContinuation));
    }
    Ok(ContType(index))
}

/// The function type of a continuation: what it still takes and gives (wasmparser's
/// `func_type_of_cont_type`).
pub fn func_type_of_cont_type<'a, R: WasmModuleResources>(
    resources: &'a R,
    cont_type: ContType,
) -> &'a FuncType
    requires { IsContinuation (R.context resources.now) cont_type.0 }
    ensures found { continued_signature (R.context resources.now) cont_type.0 ≡ Some result.now }
    ensures params { AllByRecursion (Valid (R.context resources.now)) result.now.params }
    ensures results { AllByRecursion (Valid (R.context resources.now)) result.now.results }
{
    let Some(id) = cont_type.0.unpack().as_core_type_id() else {
        unreachable!()
    };
    let Some(func_type) = func_type_of(resources.sub_type_at_id(id)) else {
        unreachable!()
    };
    func_type
}

/// What a continuation of the type at an index still takes and gives. It refuses as [`cont_type_at`] does.
pub fn func_type_of_cont_at<'a, A: Refused, R: WasmModuleResources>(
    context: &OperatorContext<'_, 'a, R>,
    type_index: u32,
) -> Result<&'a FuncType, A>
    ensures found { IfOk result (λ f. continuation_signature (context_of R.context context.now)
        type_index ≡ Some f.now) }
    ensures params { IfOk result (λ f. AllByRecursion (Valid (R.context context.now.resources.now))
        f.now.params) }
    ensures results { IfOk result (λ f. AllByRecursion (Valid (R.context context.now.resources.now))
        f.now.results) }
    ensures refused { OnErr result (continuation_signature (context_of R.context context.now)
        type_index ≡ None) }
{
    let cont_type = cont_type_at(context, type_index)?;
    Ok(func_type_of_cont_type(context.resources, cont_type))
}

/// Whether it is a reference to a type of the module.
pub fn is_concrete_reference(ty: ValType) -> bool
    ensures { (md : ModuleContext) → result ≡ false → rule.referenced_continuation md ty ≡ None }
{
    match ty {
        ValType::Ref(ty) => ty.is_concrete_type_ref(),
        _ => false,
    }
}

/// What a continuation still takes and gives that a reference is to, exact or not; None of a type of another kind.
pub fn referenced_continuation<'a, R: WasmModuleResources>(
    resources: &'a R,
    ty: ValType,
) -> Option<&'a FuncType>
    requires { Valid (R.context resources.now) ty }
    ensures { option_copied result ≡ rule.referenced_continuation (R.context resources.now) ty }
{
    let ValType::Ref(ty) = ty else {
        return None;
    };
    let (HeapType::Concrete(UnpackedIndex::Id(id)) | HeapType::Exact(UnpackedIndex::Id(id))) =
        ty.heap_type() else {
        return None;
    };
    let index = continuation_of(resources.sub_type_at_id(id))?;
    Some(func_type_of_cont_type(resources, ContType(index)))
}

/// Whether `[p1] -> [r1]` is below `[p2] -> [r2]` (wasmparser's `is_func_subtype`).
pub fn is_func_subtype<R: WasmModuleResources>(
    resources: &R,
    p1: &[ValType],
    r1: &[ValType],
    p2: &[ValType],
    r2: &[ValType],
) -> bool
    requires p1 { AllByRecursion (Valid (R.context resources.now)) p1.now }
    requires r1 { AllByRecursion (Valid (R.context resources.now)) r1.now }
    requires p2 { AllByRecursion (Valid (R.context resources.now)) p2.now }
    requires r2 { AllByRecursion (Valid (R.context resources.now)) r2.now }
    ensures { result
        ≡ is_signature_below (R.context resources.now).below p1.now r1.now p2.now r2.now }
{
    func_signature_matches(p1, r1, p2, r2, |a, b| resources.is_subtype(a, b))
}
