//! Tags, looked up (WebAssembly core specification, "Tag Types").

ghost use Rattle.std.specs.Prelude.{◌≡◌, None, Some, IfOk, OnErr};
ghost use Rattle.std.specs.List.{AllByRecursion};
ghost use Rattle.validate_resources.specs.Context.{Valid};
ghost use Rattle.validation_rules.specs.Exceptions.{exception_types};

use validate_resources::WasmModuleResources;
use validate_types::{FuncType, Refusal, Refused, ValType};

/// The type of a tag (wasmparser's `tag_at`). It refuses one that isn't declared.
pub fn tag_at<'a, A: Refused, R: WasmModuleResources>(
    resources: &'a R,
    tag_index: u32,
) -> Result<&'a FuncType, A>
    ensures found { IfOk result (λ f. (R.context resources.now).tag_at tag_index ≡ Some f.now) }
    ensures params { IfOk result (λ f. AllByRecursion (Valid (R.context resources.now)) f.now.params) }
    ensures results { IfOk result (λ f. AllByRecursion (Valid (R.context resources.now)) f.now.results) }
    ensures refused { OnErr result ((R.context resources.now).tag_at tag_index ≡ None) }
{
    match resources.tag_at(tag_index) {
        Some(func_type) => Ok(func_type),
        None => Err(A::of(Refusal::UnknownTag(tag_index))),
    }
}

/// What an exception with this tag carries: the parameters of the tag's type (wasmparser's `exception_tag_at`). It refuses
/// a tag that isn't declared, and one with results.
pub fn exception_types_at<'a, A: Refused, R: WasmModuleResources>(
    resources: &'a R,
    tag_index: u32,
) -> Result<&'a [ValType], A>
    ensures found { IfOk result (λ types. exception_types (R.context resources.now) tag_index
        ≡ Some types.now) }
    ensures valid { IfOk result (λ types. AllByRecursion (Valid (R.context resources.now)) types.now) }
    ensures refused { OnErr result (exception_types (R.context resources.now) tag_index ≡ None) }
{
    let func_type = tag_at(resources, tag_index)?;
    if func_type.results().len() != 0 {
        return Err(A::of(Refusal::TagWithResults));
    }
    Ok(func_type.params())
}
