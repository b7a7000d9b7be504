//! What a module has to check, in one row: first its constant expressions, then the bodies of its functions.

ghost use Rattle.std.specs.Prelude.{◌≡◌, ◌≢◌, ◌<◌, ℕ};
ghost use Rattle.module_check.specs.FaultyModule.{IsInvalidAt, IsMalformedAt};
ghost use Rattle.module_check.specs.Items.{IsItemAt, IsNotAcceptedAt, IsSafeAt, item_count};
ghost use Rattle.module_check.specs.Loaded.{IsAcceptedModule};
ghost use Rattle.module_check.specs.UncoveredModule.{IsUncoveredAt};
ghost use Rattle.module_check.specs.declared.verdict.Verdict.TheVariants.{Accepted, Refused, Malformed, NotCovered, OutOfMemory};
ghost use Rattle.validate_types.specs.declared.error.Error.{Error};

use crate::buffers::BodyBuffers;
use crate::loaded::LoadedModule;
use crate::verdict::{Item, Verdict};

/// What was found of an item.
#[derive(Drop)]
pub struct Checked {
    /// The item.
    pub item: Item,
    /// What it comes to.
    pub verdict: Verdict,
}

/// How many constant expressions and bodies a module has.
pub fn item_count(module: &LoadedModule<'_>) -> usize
    ensures { result ≡ item_count module.now }
{
    module
        .expressions()
        .len()
        .saturating_add(module.body_count())
}

/// Checks what stands at this place of the row, as [`LoadedModule::check_expression`] or
/// [`LoadedModule::check_function`] does. Where nothing does, that is refused.
pub fn check_item(module: &LoadedModule<'_>, place: usize, buffers: &mut BodyBuffers) -> Checked
    ensures item { IsItemAt module.now place result.item }
    ensures safe { result.verdict ≡ Accepted → IsSafeAt module.now place }
    ensures refused { result.verdict ≢ Accepted → result.verdict ≢ OutOfMemory → IsNotAcceptedAt module.now place }
    ensures unaccepted { place < item_count module.now → result.verdict ≢ Accepted → result.verdict ≢ OutOfMemory
        → ¬ IsAcceptedModule module.now }
    ensures uncovered { (offset : ℕ) → result.verdict ≡ NotCovered offset → IsUncoveredAt module.now place }
    ensures malformed { (e : Error) → result.verdict ≡ Malformed e → IsMalformedAt module.now place }
    ensures invalid { (e : Error) → result.verdict ≡ Refused e → IsInvalidAt module.now place }
{
    let expressions = module.expressions();
    match expressions.get(place) {
        Some(expression) => Checked {
            item: Item::Expression(expression.place),
            verdict: module.check_expression(expression, buffers),
        },
        None => {
            let function = module.function_of(place.saturating_sub(expressions.len()));
            Checked {
                item: Item::Function(function),
                verdict: module.check_function(function, buffers),
            }
        }
    }
}
