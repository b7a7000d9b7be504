//! Whether the globals of a module are valid (WebAssembly core specification, "Global Types", and "Modules":
//! globals, imports).

ghost use Rattle.std.specs.Prelude.{◌≡◌, ◌&&◌, ◌||◌, ℕ, is_ok, length, nat_le, not};
ghost use Rattle.std.specs.List.{list_all, enumerate_from};
ghost use Rattle.validate_types.specs.Features.{has, is_type_enabled, shared_everything_threads};
ghost use Rattle.module_rules.specs.Features.{operator_features};
ghost use Rattle.module_rules.specs.Globals.{is_valid_value_type, is_valid_global, are_valid_globals};
ghost use Rattle.module_rules.specs.Judged.{JudgesAt};
ghost use Rattle.module_rules.specs.Types.{is_type_shared};
ghost use Rattle.module_rules.specs.declared.limits.TheConstants.{MAX_WASM_GLOBALS};

use crate::faults::{LimitFault, Located, LocatedRule, RuleFault, locate, of_rules};
use crate::features::ModuleFeatures;
use crate::indices::known_in_type;
use crate::items::DeclaredGlobal;
use crate::limits::MAX_WASM_GLOBALS;
use crate::types::is_type_shared;
use validate_types::{SubType, ValType};

/// The proposal of a value type is on.
pub fn check_type_on(features: ModuleFeatures, ty: ValType) -> Result<(), RuleFault>
    ensures { is_ok result ≡ is_type_enabled (operator_features features) ty }
{
    match features.operator_features().check_value_type(ty) {
        Ok(()) => Ok(()),
        Err(text) => Err(RuleFault::TypeOff(text)),
    }
}

/// A value type's proposal is on, and the type that it names is there.
fn check_value_type(
    features: ModuleFeatures,
    types: &[SubType],
    ty: ValType,
) -> Result<(), RuleFault>
    ensures { is_ok result ≡ is_valid_value_type features types.now ty }
{
    check_type_on(features, ty)?;
    match known_in_type(ty, types.len()) {
        Ok(()) => Ok(()),
        Err(index) => Err(RuleFault::UnknownType(index)),
    }
}

/// The proposal of a shared global is on, and it holds what is shared.
fn check_shared(
    features: ModuleFeatures,
    types: &[SubType],
    global: &DeclaredGlobal,
) -> Result<(), RuleFault>
    ensures { is_ok result ≡ (not global.now.ty.shared || has features.operators shared_everything_threads
        && is_type_shared types.now global.now.ty.content_type) }
{
    if !global.ty.shared {
        return Ok(());
    }
    if !features.operators.shared_everything_threads() {
        return Err(RuleFault::SharedGlobalsOff);
    }
    if !is_type_shared(types, global.ty.content_type) {
        return Err(RuleFault::UnsharedValue);
    }
    Ok(())
}

/// The global at this index is valid, where so many are imported.
#[tactic(auto, using(crate::proofs::Decided::and_false, crate::proofs::Decided::and_true))]
fn check_global(
    features: ModuleFeatures,
    types: &[SubType],
    imported: u32,
    index: usize,
    global: &DeclaredGlobal,
) -> Result<(), RuleFault>
    ensures { is_ok result ≡ is_valid_global features types.now imported index global.now }
{
    check_value_type(features, types, global.ty.content_type)?;
    if global.ty.mutable && index < imported as usize && !features.mutable_global {
        return Err(RuleFault::WrittenGlobalsOff);
    }
    check_shared(features, types, global)
}

/// Each global is valid.
fn check_each_global(
    features: ModuleFeatures,
    types: &[SubType],
    imported: u32,
    globals: &[DeclaredGlobal],
) -> Result<(), LocatedRule>
    ensures { is_ok result ≡ list_all (λ (e : ℕ × DeclaredGlobal).
        is_valid_global features types.now imported e.0 e.1) (enumerate_from 0 globals.now) }
{
    for index in 0..globals.len() {
        let global = &globals[index];
        let checked = check_global(features, types, imported, index, global);
        locate(checked, global.offset)?;
    }
    Ok(())
}

/// The globals are valid, and no more than may be.
pub fn check_globals(
    features: ModuleFeatures,
    types: &[SubType],
    imported: u32,
    globals: &[DeclaredGlobal],
) -> Result<(), Located>
    ensures { JudgesAt (are_valid_globals features types.now imported globals.now)
        (nat_le (length globals.now) MAX_WASM_GLOBALS) result }
{
    if let Some(global) = globals.get(MAX_WASM_GLOBALS) {
        return Err(LimitFault::too_many("globals", MAX_WASM_GLOBALS).at(global.offset));
    }
    of_rules(check_each_global(features, types, imported, globals))
}
