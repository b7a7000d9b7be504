//! Operators on globals (WebAssembly core specification, "Variable Instructions").
#![tactic(auto, using(validate_shapes::proofs::KnownRows::known_rows))]

ghost use Rattle.validation_rules.specs.Calls.{global_get_row, global_set_row};
ghost use Rattle.validation_rules.specs.Operators.{row_operator};
ghost use Rattle.validate_stacks.specs.Bodies.{CanCheck, Checks};

use validate_resources::WasmModuleResources;
use validate_shapes::globals::find_global;
use validate_shapes::plain::{constant, plain};
use validate_stacks::OperatorContext;
use validate_types::{Refusal, Refused};

/// `global.get`: `[] -> [t]`.
#[inline(never)]
pub fn global_get<A: Refused, R: WasmModuleResources>(
    context: OperatorContext<'_, '_, R>,
    global_index: u32,
) -> Result<(), A>
    requires { CanCheck R.context context }
    ensures { Checks R.context A.tells (λ cx. row_operator (global_get_row cx global_index)) context.entry
        result context.exit }
{
    let global = find_global(&context, global_index)?;
    constant(context, global.content_type)
}

/// `global.set`: `[t] -> []` of a global that can be written.
#[inline(never)]
pub fn global_set<A: Refused, R: WasmModuleResources>(
    context: OperatorContext<'_, '_, R>,
    global_index: u32,
) -> Result<(), A>
    requires { CanCheck R.context context }
    ensures { Checks R.context A.tells (λ cx. row_operator (global_set_row cx global_index)) context.entry
        result context.exit }
{
    let global = find_global(&context, global_index)?;
    if !global.mutable {
        return Err(A::of(Refusal::ImmutableGlobal("global.set")));
    }
    plain(context, &[global.content_type], &[])
}
