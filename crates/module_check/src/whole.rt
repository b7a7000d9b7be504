//! The check of a module.

ghost use Rattle.std.specs.Prelude.{◌≡◌, ◌≢◌, ◌⊎◌, ◌≤◌, length};
ghost use Rattle.module_check.specs.FaultyModule.{HasInvalid, HasMalformed, IsMalformedFunction, IsRefusedFunction};
ghost use Rattle.module_check.specs.Items.{item_count};
ghost use Rattle.module_check.specs.Loaded.{IsAcceptedFunction, IsAcceptedModule};
ghost use Rattle.module_check.specs.Loaded.{IsSafeFunction, IsValid};
ghost use Rattle.module_check.specs.UncoveredModule.{HasUncovered, IsUncoveredFunction};
ghost use Rattle.module_check.specs.Verdicts.{IsConsistent, SaysNo, total};

use crate::buffers::BodyBuffers;
use crate::items::{check_item, item_count};
use crate::loaded::LoadedModule;
use crate::module_verdict::ModuleVerdict;
use crate::verdict::Item;

/// Checks the body of the function at this index, and notes what it comes to.
pub fn check_function(
    module: &LoadedModule<'_>,
    function: u32,
    buffers: &mut BodyBuffers,
    text: &mut [u8],
    out: &mut ModuleVerdict,
)
    requires { IsConsistent (length text.old) out.old }
    ensures consistent { IsConsistent (length text.new) out.new }
    ensures accepted { out.new.status ≡ 0 → (out.old.status ≡ 0)
        × IsSafeFunction module.now function }
    ensures refused { SaysNo out.new.status → SaysNo out.old.status ⊎ ¬ IsAcceptedFunction module.now function }
    ensures known { out.old.status ≤ 4 → out.new.status ≤ 4 }
    ensures counted { out.new.status ≢ 3 → total out.old ≡ 0 → total out.new ≡ 1 }
    ensures uncovered { out.new.status ≡ 4 → (out.old.status ≡ 4)
        ⊎ IsUncoveredFunction module.now function }
    ensures malformed { out.new.status ≡ 2 → (out.old.status ≡ 2)
        ⊎ IsMalformedFunction module.now function }
    ensures invalid { out.new.status ≡ 1 → (out.old.status ≡ 1)
        ⊎ IsRefusedFunction module.now function out.new.offset }
{
    let verdict = module.check_function(function, buffers);
    out.note(&verdict, Some(Item::Function(function)), text);
}

/// Checks each body and each constant expression of a module that was read, and notes what they come to.
///
/// The status is 0 only if it was 0 before and each of them is accepted. Then the module is valid. Its declarations
/// were checked as it was read; each body and each constant expression is type safe; the operators of constant
/// expressions are constant.
///
/// If it is neither 0 nor that of out of memory, it was neither before, or one of them isn't accepted. If it is that of not
/// covered, it was before, or one of them has a vector operator behind accepted ones. If it is that of malformed or of
/// invalid, it was before, or of one of them that is so at its first fault. Unless it is that of out of memory, each of
/// them is counted.
pub fn check_module(
    module: &LoadedModule<'_>,
    buffers: &mut BodyBuffers,
    text: &mut [u8],
    out: &mut ModuleVerdict,
)
    requires { IsConsistent (length text.old) out.old }
    ensures consistent { IsConsistent (length text.new) out.new }
    ensures accepted { out.new.status ≡ 0 → IsValid module.now }
    ensures refused { SaysNo out.new.status → SaysNo out.old.status ⊎ ¬ IsAcceptedModule module.now }
    ensures known { out.old.status ≤ 4 → out.new.status ≤ 4 }
    ensures counted { out.new.status ≢ 3 → total out.old ≡ 0 → total out.new ≡ item_count module.now }
    ensures uncovered { out.new.status ≡ 4 → (out.old.status ≡ 4) ⊎ HasUncovered module.now }
    ensures malformed { out.new.status ≡ 2 → (out.old.status ≡ 2) ⊎ HasMalformed module.now }
    ensures invalid { out.new.status ≡ 1 → (out.old.status ≡ 1) ⊎ HasInvalid module.now }
{
    for place in 0..item_count(module) {
        let checked = check_item(module, place, buffers);
        out.note(&checked.verdict, Some(checked.item), text);
    }
}
