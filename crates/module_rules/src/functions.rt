//! Whether the functions and tags of a module, and its start function, are valid (WebAssembly core
//! specification, "Modules": functions, tags, start function; "Tag Types").

ghost use Rattle.std.specs.Prelude.{◌≡◌, ℕ, Some, is_ok, length, nat_le, slice_get};
ghost use Rattle.std.specs.List.{list_all, enumerate_from};
ghost use Rattle.std.specs.Option.{option_copied};
ghost use Rattle.validate_resources.specs.Lists.{is_func_type};
ghost use Rattle.module_rules.specs.Judged.{JudgesAt};
ghost use Rattle.module_rules.specs.declared.limits.TheConstants.{MAX_WASM_FUNCTIONS, MAX_WASM_TAGS};
ghost use Rattle.module_rules.specs.Functions.{signature_at, is_valid_function, are_valid_functions, is_tag_signature, is_valid_tag, are_valid_tags, is_start_signature, may_start, is_valid_start};

use crate::faults::{LimitFault, Located, LocatedRule, RuleFault, locate, of_rules};
use crate::features::ModuleFeatures;
use crate::items::{DeclaredFunction, DeclaredTag, Start};
use crate::limits::{MAX_WASM_FUNCTIONS, MAX_WASM_TAGS};
use validate_resources::kinds::{func_type_of, is_func_type};
use validate_types::{FuncType, SubType};

/// What the type at this index takes and gives, if it is one of functions.
fn func_type_at(types: &[SubType], index: u32) -> Option<&FuncType>
    ensures { option_copied result ≡ signature_at types.now index }
{
    func_type_of(types.get(index as usize)?)
}

/// Why the type at this index isn't one of functions.
fn no_func_type(types: &[SubType], index: u32) -> RuleFault {
    if index as usize >= types.len() {
        return RuleFault::UnknownType(index);
    }
    RuleFault::NoFuncType(index)
}

/// The type at this index is one of functions.
fn check_func_type(types: &[SubType], index: u32) -> Result<(), RuleFault>
    ensures { is_ok result ≡ is_func_type (slice_get types.now index) }
{
    if is_func_type(types, index) {
        return Ok(());
    }
    Err(no_func_type(types, index))
}

/// The function at this index is valid, where so many are imported.
fn check_function(
    features: ModuleFeatures,
    types: &[SubType],
    imported: u32,
    index: usize,
    function: &DeclaredFunction,
) -> Result<(), RuleFault>
    ensures { is_ok result ≡ is_valid_function features types.now imported index function.now }
{
    check_func_type(types, function.type_index)?;
    if index < imported as usize && function.exact && !features.operators.custom_descriptors() {
        return Err(RuleFault::ExactImportsOff);
    }
    Ok(())
}

/// Each function is valid.
fn check_each_function(
    features: ModuleFeatures,
    types: &[SubType],
    imported: u32,
    functions: &[DeclaredFunction],
) -> Result<(), LocatedRule>
    ensures { is_ok result ≡ list_all (λ (e : ℕ × DeclaredFunction).
        is_valid_function features types.now imported e.0 e.1) (enumerate_from 0 functions.now) }
{
    for index in 0..functions.len() {
        let function = &functions[index];
        let checked = check_function(features, types, imported, index, function);
        locate(checked, function.offset)?;
    }
    Ok(())
}

/// The functions are valid, and no more than may be.
pub fn check_functions(
    features: ModuleFeatures,
    types: &[SubType],
    imported: u32,
    functions: &[DeclaredFunction],
) -> Result<(), Located>
    ensures { JudgesAt (are_valid_functions features types.now imported functions.now)
        (nat_le (length functions.now) MAX_WASM_FUNCTIONS) result }
{
    if let Some(function) = functions.get(MAX_WASM_FUNCTIONS) {
        return Err(LimitFault::too_many("functions", MAX_WASM_FUNCTIONS).at(function.offset));
    }
    of_rules(check_each_function(features, types, imported, functions))
}

/// The function type of a tag gives nothing, unless continuations can give it back.
fn check_tag_type(features: ModuleFeatures, ty: &FuncType) -> Result<(), RuleFault>
    ensures { is_ok result ≡ is_tag_signature features (Some ty.now) }
{
    if ty.results().is_empty() || features.operators.stack_switching() {
        return Ok(());
    }
    Err(RuleFault::TagWithResults)
}

/// A tag is valid.
fn check_tag(
    features: ModuleFeatures,
    types: &[SubType],
    tag: &DeclaredTag,
) -> Result<(), RuleFault>
    ensures { is_ok result ≡ is_valid_tag features types.now tag.now }
{
    if !features.operators.exceptions() {
        return Err(RuleFault::ExceptionsOff);
    }
    match func_type_at(types, tag.func_type_idx) {
        Some(ty) => check_tag_type(features, ty),
        None => Err(no_func_type(types, tag.func_type_idx)),
    }
}

/// Each tag is valid.
fn check_each_tag(
    features: ModuleFeatures,
    types: &[SubType],
    tags: &[DeclaredTag],
) -> Result<(), LocatedRule>
    ensures { is_ok result ≡ list_all (is_valid_tag features types.now) tags.now }
{
    for tag in tags {
        locate(check_tag(features, types, tag), tag.offset)?;
    }
    Ok(())
}

/// The tags are valid, and no more than may be.
pub fn check_tags(
    features: ModuleFeatures,
    types: &[SubType],
    tags: &[DeclaredTag],
) -> Result<(), Located>
    ensures { JudgesAt (are_valid_tags features types.now tags.now) (nat_le (length tags.now) MAX_WASM_TAGS)
        result }
{
    if let Some(tag) = tags.get(MAX_WASM_TAGS) {
        return Err(LimitFault::too_many("tags", MAX_WASM_TAGS).at(tag.offset));
    }
    of_rules(check_each_tag(features, types, tags))
}

/// Whether the type at this index is one of functions that take and give nothing.
fn takes_nothing(types: &[SubType], index: u32) -> bool
    ensures { result ≡ is_start_signature (signature_at types.now index) }
{
    match func_type_at(types, index) {
        Some(ty) => ty.params().is_empty() && ty.results().is_empty(),
        None => false,
    }
}

/// A function is there, and takes and gives nothing.
fn check_start_function(
    types: &[SubType],
    functions: &[DeclaredFunction],
    index: u32,
) -> Result<(), RuleFault>
    ensures { is_ok result ≡ may_start types.now (slice_get functions.now index) }
{
    let Some(function) = functions.get(index as usize) else {
        return Err(RuleFault::UnknownFunction(index));
    };
    if takes_nothing(types, function.type_index) {
        return Ok(());
    }
    Err(RuleFault::StartType)
}

/// The start function is valid, if there is one.
pub fn check_start(
    types: &[SubType],
    functions: &[DeclaredFunction],
    start: Option<Start>,
) -> Result<(), LocatedRule>
    ensures { is_ok result ≡ is_valid_start types.now functions.now start }
{
    match start {
        None => Ok(()),
        Some(start) => {
            let checked = check_start_function(types, functions, start.function);
            locate(checked, start.offset)
        }
    }
}
