//! Types among the immediates, in the canonical form that the lookup gives them. A body that tells nothing takes the form
//! that the lookup knows, and has no type checked: so each check is called once, by the body that tells.

ghost use Rattle.std.specs.Prelude.{◌≡◌, true, None, Some, IfOk, IfErr};
ghost use Rattle.std.specs.Option.{option_map};
ghost use Rattle.validate_resources.specs.Context.{Valid, is_valid_heap};
ghost use Rattle.validate_types.specs.Refs.{reference};

use validate_resources::WasmModuleResources;
use validate_resources::uses::laws;
use validate_types::{HeapType, RefType, Refusal, Refused, ValType, WasmFeatures};

/// The form that the lookup knows, or the answer where nothing is told.
#[inline(always)]
fn known<A: Refused, T>(form: Option<T>) -> Result<T, A>
    ensures found { IfOk result (λ t. form ≡ Some t) }
{
    match form {
        Some(form) => Ok(form),
        None => Err(A::of(Refusal::UnknownType)),
    }
}

/// The canonical form of a heap type. It refuses as the lookup does.
#[inline(always)]
pub fn canonical_heap<A: Refused, R: WasmModuleResources>(
    resources: &R,
    ty: HeapType,
) -> Result<HeapType, A>
    ensures found { IfOk result (λ h. (R.context resources.now).canonical_heap ty ≡ Some h) }
    ensures valid { IfOk result (λ h. is_valid_heap (R.context resources.now) h ≡ true) }
    ensures refused { IfErr result (λ e. A.tells e → (R.context resources.now).canonical_heap ty ≡ None) }
{
    laws(resources);
    if !A::may_allocate() {
        return known(resources.canonical_heap_type(ty));
    }
    let mut checked = ty;
    match resources.check_heap_type(&mut checked, 0) {
        Ok(()) => Ok(checked),
        Err(error) => Err(A::by_look_up(error)),
    }
}

/// The canonical form of a reference type. It refuses as the lookup does.
#[inline(always)]
pub fn canonical_ref<A: Refused, R: WasmModuleResources>(
    resources: &R,
    ty: RefType,
) -> Result<RefType, A>
    ensures found { IfOk result (λ r. (R.context resources.now).canonical_ref ty ≡ Some r) }
    ensures valid { IfOk result (λ r. Valid (R.context resources.now) (ValType.Ref r)) }
    ensures refused { IfErr result (λ e. A.tells e → (R.context resources.now).canonical_ref ty ≡ None) }
{
    laws(resources);
    if !A::may_allocate() {
        return known(resources.canonical_ref_type(ty));
    }
    let mut checked = ty;
    match resources.check_ref_type(&mut checked, 0) {
        Ok(()) => Ok(checked),
        Err(error) => Err(A::by_look_up(error)),
    }
}

/// The canonical form of a value type. It refuses as the lookup does.
#[inline(always)]
pub fn canonical_value<A: Refused, R: WasmModuleResources>(
    resources: &R,
    features: WasmFeatures,
    ty: ValType,
) -> Result<ValType, A>
    ensures found { IfOk result (λ t. (R.context resources.now).canonical_type features ty ≡ Some t) }
    ensures refused { IfErr result (λ e. A.tells e
        → (R.context resources.now).canonical_type features ty ≡ None) }
{
    if !A::may_allocate() {
        return known(resources.canonical_value_type(ty, &features));
    }
    let mut checked = ty;
    match resources.check_value_type(&mut checked, &features, 0) {
        Ok(()) => Ok(checked),
        Err(error) => Err(A::by_look_up(error)),
    }
}

/// A reference, or one that may be null, to a heap type in its canonical form.
#[inline(always)]
#[tactic(auto, using(crate::proofs::HeapReferences::not_made, crate::proofs::HeapReferences::made_is))]
pub fn heap_reference<A: Refused, R: WasmModuleResources>(
    resources: &R,
    nullable: bool,
    ty: HeapType,
) -> Result<ValType, A>
    ensures found { IfOk result (λ t. option_map (λ h. ValType.Ref (reference nullable h))
        ((R.context resources.now).canonical_heap ty) ≡ Some t) }
    ensures valid { IfOk result (λ t. Valid (R.context resources.now) t) }
    ensures refused { IfErr result (λ e. A.tells e → (R.context resources.now).canonical_heap ty ≡ None) }
{
    let heap_type = canonical_heap(resources, ty)?;
    let Some(reference) = RefType::new(nullable, heap_type) else {
        unreachable!()
    };
    Ok(ValType::Ref(reference))
}
