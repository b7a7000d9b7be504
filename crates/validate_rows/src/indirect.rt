//! Calls of a function that an operand names: by its place in a table, or by a reference (WebAssembly core
//! specification, "Control Instructions").
#![tactic(auto, using(crate::proofs::Sets::calls))]

ghost use Rattle.std.specs.Prelude.{◌≡◌, None, Some, IfOk, OnErr};
ghost use Rattle.validate_resources.specs.Context.{Valid};
ghost use Rattle.validation_rules.specs.Indirect.{call_operand_row, return_call_operand_row, call_indirect_row, return_call_indirect_row, call_ref_row, return_call_ref_row};
ghost use Rattle.validation_rules.specs.Indirect as rule;
ghost use Rattle.validation_rules.specs.Operators.{row_operator, staying_operator};
ghost use Rattle.validate_stacks.specs.Bodies.{context_of, CanCheck, Checks};

use crate::calls::expect_same_results;
use validate_resources::WasmModuleResources;
use validate_shapes::aggregates::type_reference;
use validate_shapes::functions::find_func_type;
use validate_shapes::tables::table_type_at;
use validate_stacks::OperatorContext;
use validate_types::{Refusal, Refused, ValType};

/// The type of a place in a table, which has to be one of functions.
fn function_place<A: Refused, R: WasmModuleResources>(
    context: &OperatorContext<'_, '_, R>,
    table_index: u32,
) -> Result<ValType, A>
    ensures found { IfOk result (λ t. rule.function_place (context_of R.context context.now)
        table_index ≡ Some t) }
    ensures valid { IfOk result (λ t. Valid (R.context context.now.resources.now) t) }
    ensures refused { OnErr result (rule.function_place (context_of R.context context.now) table_index ≡ None) }
{
    let table = table_type_at(context, table_index)?;
    if !context
        .resources
        .is_subtype(ValType::Ref(table.element_type), ValType::FUNCREF)
    {
        return Err(A::of(Refusal::NoFunctionTable));
    }
    Ok(table.index_type())
}

/// A call of a function of the type at this index. The operand on top, of the type `names`, names the
/// function, and what it takes lies below.
fn call_operand<A: Refused, R: WasmModuleResources>(
    context: OperatorContext<'_, '_, R>,
    type_index: u32,
    names: ValType,
) -> Result<(), A>
    requires visit { CanCheck R.context context }
    requires names { Valid (R.context context.resources.now) names }
    ensures { Checks R.context A.tells (λ cx. row_operator (call_operand_row cx (Some names) type_index))
        context.entry result context.exit }
{
    context.expect_operands(0, &[names])?;
    let func_type = find_func_type(&context, type_index)?;
    context.exchange_with_top(func_type.params(), names, func_type.results())
}

/// The same in the place of the rest of the body.
fn return_call_operand<A: Refused, R: WasmModuleResources>(
    context: OperatorContext<'_, '_, R>,
    type_index: u32,
    names: ValType,
) -> Result<(), A>
    requires visit { CanCheck R.context context }
    requires names { Valid (R.context context.resources.now) names }
    ensures { Checks R.context A.tells (λ cx. staying_operator (λ hs. return_call_operand_row cx hs
        (Some names) type_index)) context.entry result context.exit }
{
    context.expect_operands(0, &[names])?;
    let func_type = find_func_type(&context, type_index)?;
    expect_same_results(&context, type_index, func_type.results())?;
    context.expect_with_top(0, func_type.params(), names)?;
    context.stacks.mark_unreachable()
}

/// `call_indirect`: `[params it] -> [results]` of a function of the type at this index in a table of
/// functions.
#[inline(never)]
pub fn call_indirect<A: Refused, R: WasmModuleResources>(
    context: OperatorContext<'_, '_, R>,
    type_index: u32,
    table_index: u32,
) -> Result<(), A>
    requires { CanCheck R.context context }
    ensures { Checks R.context A.tells (λ cx. row_operator (call_indirect_row cx type_index table_index))
        context.entry result context.exit }
{
    let place = function_place(&context, table_index)?;
    call_operand(context, type_index, place)
}

/// `return_call_indirect`: what `call_indirect` takes. The body returns the results of the function, and
/// the live part of the frame ends.
#[inline(never)]
pub fn return_call_indirect<A: Refused, R: WasmModuleResources>(
    context: OperatorContext<'_, '_, R>,
    type_index: u32,
    table_index: u32,
) -> Result<(), A>
    requires { CanCheck R.context context }
    ensures { Checks R.context A.tells (λ cx. staying_operator (λ hs. return_call_indirect_row cx hs type_index
        table_index)) context.entry result context.exit }
{
    let place = function_place(&context, table_index)?;
    return_call_operand(context, type_index, place)
}

/// `call_ref`: `[params (ref null t)] -> [results]` of a function of the type t at this index.
#[inline(never)]
pub fn call_ref<A: Refused, R: WasmModuleResources>(
    context: OperatorContext<'_, '_, R>,
    type_index: u32,
) -> Result<(), A>
    requires { CanCheck R.context context }
    ensures { Checks R.context A.tells (λ cx. row_operator (call_ref_row cx type_index)) context.entry
        result context.exit }
{
    let reference = type_reference(&context, true, type_index)?;
    call_operand(context, type_index, reference)
}

/// `return_call_ref`: what `call_ref` takes. The body returns the results of the function, and the live
/// part of the frame ends.
#[inline(never)]
pub fn return_call_ref<A: Refused, R: WasmModuleResources>(
    context: OperatorContext<'_, '_, R>,
    type_index: u32,
) -> Result<(), A>
    requires { CanCheck R.context context }
    ensures { Checks R.context A.tells (λ cx. staying_operator (λ hs. return_call_ref_row cx hs type_index))
        context.entry result context.exit }
{
    let reference = type_reference(&context, true, type_index)?;
    return_call_operand(context, type_index, reference)
}
