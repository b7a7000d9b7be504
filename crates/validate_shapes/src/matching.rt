//! Types that lie below others, one by one (WebAssembly core specification, "Matching: Result Types").

ghost use Rattle.std.specs.Prelude.{◌≡◌, true, false, map, OnOk, OnErr, IfErr};
ghost use Rattle.std.specs.List.{AllByRecursion};
ghost use Rattle.validate_resources.specs.Context.{Valid};
ghost use Rattle.validation_rules.specs.Context.{Context};
ghost use Rattle.validation_rules.specs.Fits.{Known, all_fit};

use validate_resources::WasmModuleResources;
use validate_types::ValType;

/// Whether the types are as many as those above them, and each is below its place.
#[tactic(auto, using(crate::proofs::TypesBelow::compared_lists))]
pub fn are_below<R: WasmModuleResources>(
    resources: &R,
    types: &[ValType],
    above: &[ValType],
) -> bool
    requires types { AllByRecursion (Valid (R.context resources.now)) types.now }
    requires above { AllByRecursion (Valid (R.context resources.now)) above.now }
    ensures { (cx : Context) → cx.of_module ≡ R.context resources.now → result
        ≡ all_fit cx (map Known types.now) above.now }
{
    if types.len() != above.len() {
        return false;
    }
    for index in 0..types.len() {
        if !resources.is_subtype(types[index], above[index]) {
            return false;
        }
    }
    true
}
