//! Operators on locals (WebAssembly core specification, "Variable Instructions").
#![tactic(auto, using(crate::proofs::Sets::variables))]

ghost use Rattle.validation_rules.specs.Operators.{row_operator, local_get_row, local_set_row, local_tee_row};
ghost use Rattle.validate_stacks.specs.Bodies.{CanCheck, Checks};

use validate_resources::WasmModuleResources;
use validate_shapes::plain::local_constant;
use validate_stacks::OperatorContext;
use validate_types::Refused;

/// `local.get`: `[] -> [t]` of a local that is set.
#[inline(always)]
pub fn local_get<A: Refused, R: WasmModuleResources>(
    context: OperatorContext<'_, '_, R>,
    local_index: u32,
) -> Result<(), A>
    requires { CanCheck R.context context }
    ensures { Checks R.context A.tells (λ cx. row_operator (local_get_row cx local_index)) context.entry
        result context.exit }
{
    let ty = context.stacks.find_local(local_index)?;
    context.stacks.expect_set(local_index)?;
    local_constant(context, ty)
}

/// `local.set`: `[t] -> []`, and the local is set. Most are set already, and are numbers.
#[inline(always)]
pub fn local_set<A: Refused, R: WasmModuleResources>(
    context: OperatorContext<'_, '_, R>,
    local_index: u32,
) -> Result<(), A>
    requires { CanCheck R.context context }
    ensures { Checks R.context A.tells (λ cx. row_operator (local_set_row cx local_index)) context.entry
        result context.exit }
{
    let resources = context.resources;
    let ty = context.stacks.find_local(local_index)?;
    if context.stacks.is_uninit(local_index) {
        return any_local_set(context, local_index);
    }
    if context.stacks.pop_local_at_once(resources, ty) {
        return Ok(());
    }
    any_local_set(context, local_index)
}

/// [`local_set`] of any type, set or not. It finds the type again, so that none is handed on where it isn't called.
#[inline(never)]
fn any_local_set<A: Refused, R: WasmModuleResources>(
    context: OperatorContext<'_, '_, R>,
    local_index: u32,
) -> Result<(), A>
    requires { CanCheck R.context context }
    ensures { Checks R.context A.tells (λ cx. row_operator (local_set_row cx local_index)) context.entry
        result context.exit }
{
    let ty = context.stacks.find_local_type(local_index)?;
    if context.stacks.is_uninit(local_index) {
        return context.exchange_setting(local_index, ty, &[]);
    }
    let resources = context.resources;
    if context
        .stacks
        .exchange_known_at_once(resources, &[ty], None)
    {
        return Ok(());
    }
    context.exchange_types(&[ty], &[])
}

/// `local.tee`: `[t] -> [t]`, and the local is set. Most are set already, and are numbers: then nothing changes.
#[inline(always)]
pub fn local_tee<A: Refused, R: WasmModuleResources>(
    context: OperatorContext<'_, '_, R>,
    local_index: u32,
) -> Result<(), A>
    requires { CanCheck R.context context }
    ensures { Checks R.context A.tells (λ cx. row_operator (local_tee_row cx local_index)) context.entry
        result context.exit }
{
    let resources = context.resources;
    let ty = context.stacks.find_local(local_index)?;
    if context.stacks.is_uninit(local_index) {
        return any_local_tee(context, local_index);
    }
    if context.stacks.has_local_at_once(resources, ty) {
        return Ok(());
    }
    any_local_tee(context, local_index)
}

/// [`local_tee`] of any type, set or not.
#[inline(never)]
fn any_local_tee<A: Refused, R: WasmModuleResources>(
    context: OperatorContext<'_, '_, R>,
    local_index: u32,
) -> Result<(), A>
    requires { CanCheck R.context context }
    ensures { Checks R.context A.tells (λ cx. row_operator (local_tee_row cx local_index)) context.entry
        result context.exit }
{
    let ty = context.stacks.find_local_type(local_index)?;
    if context.stacks.is_uninit(local_index) {
        return context.exchange_setting(local_index, ty, &[ty]);
    }
    let resources = context.resources;
    if context
        .stacks
        .exchange_known_at_once(resources, &[ty], Some(ty))
    {
        return Ok(());
    }
    context.exchange_types(&[ty], &[ty])
}
