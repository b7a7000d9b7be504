//! The types of globals, looked up (WebAssembly core specification, "Variable Instructions").

ghost use Rattle.std.specs.Prelude.{◌≡◌, None, Some, IfOk, OnErr};
ghost use Rattle.validate_resources.specs.Context.{Valid};
ghost use Rattle.validation_rules.specs.Calls.{global_type};
ghost use Rattle.validate_stacks.specs.Bodies.{context_of};

use validate_resources::WasmModuleResources;
use validate_resources::uses::laws;
use validate_stacks::OperatorContext;
use validate_types::{GlobalType, Refusal, Refused};

/// The type of a global. It refuses one that isn't declared, and in a shared function one that isn't shared.
#[inline(always)]
pub fn find_global<A: Refused, R: WasmModuleResources>(
    context: &OperatorContext<'_, '_, R>,
    global_index: u32,
) -> Result<GlobalType, A>
    ensures found { IfOk result (λ g. global_type (context_of R.context context.now) global_index ≡ Some g) }
    ensures valid { IfOk result (λ g. Valid (R.context context.now.resources.now) g.content_type) }
    ensures refused { OnErr result (global_type (context_of R.context context.now) global_index ≡ None) }
{
    laws(context.resources);
    let Some(global) = context.resources.global_at(global_index) else {
        return Err(A::of(Refusal::UnknownGlobal));
    };
    if context.stacks.is_shared() && !global.shared {
        return Err(A::of(Refusal::UnsharedGlobal));
    }
    Ok(global)
}
