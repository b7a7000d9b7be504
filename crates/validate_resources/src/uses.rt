//! What generic code learns of any lookup.

ghost use Rattle.validate_resources.specs.Context.{IsLawful};

use crate::WasmModuleResources;

/// Does nothing. Its contract says that the laws hold for every lookup of this type.
pub fn laws<R: WasmModuleResources>(_resources: &R)
    ensures { (x : R) → IsLawful (R.context x) }
{}
