//! Calls (WebAssembly core specification, "Control Instructions").
#![tactic(auto, using(crate::proofs::Sets::calls))]

ghost use Rattle.std.specs.Prelude.{◌≡◌, true, false, OnOk, OnErr};
ghost use Rattle.std.specs.List.{AllByRecursion};
ghost use Rattle.validate_resources.specs.Context.{Valid};
ghost use Rattle.validation_rules.specs.Calls.{call_row, may_return, return_call_row};
ghost use Rattle.validation_rules.specs.Static.{heads};
ghost use Rattle.validation_rules.specs.Operators.{row_operator, staying_operator};
ghost use Rattle.validate_stacks.specs.Bodies.{context_of, CanCheck, Checks};

use validate_resources::WasmModuleResources;
use validate_shapes::functions::{find_func_type, find_function};
use validate_shapes::matching::are_below;
use validate_shapes::plain::plain;
use validate_stacks::OperatorContext;
use validate_stacks::blocks::label_types;
use validate_types::{Refusal, Refused, ValType};

/// `call`: what the function takes, and what it gives.
#[inline(never)]
pub fn call<A: Refused, R: WasmModuleResources>(
    context: OperatorContext<'_, '_, R>,
    function_index: u32,
) -> Result<(), A>
    requires { CanCheck R.context context }
    ensures { Checks R.context A.tells (λ cx. row_operator (call_row cx function_index)) context.entry
        result context.exit }
{
    let func_type = find_function(&context, function_index)?;
    plain(context, func_type.params(), func_type.results())
}

/// That the results of a function that is called in the place of the rest of the body are the body's: as many, and each below
/// the one in its place (wasmparser's `check_func_type_same_results`). It refuses others by the index of the function's type.
pub(crate) fn expect_same_results<A: Refused, R: WasmModuleResources>(
    context: &OperatorContext<'_, '_, R>,
    type_index: u32,
    results: &[ValType],
) -> Result<(), A>
    requires visit { CanCheck R.context context.now }
    requires results { AllByRecursion (Valid (R.context context.now.resources.now)) results.now }
    ensures below { OnOk result (may_return (context_of R.context context.now)
        (heads context.now.stacks.now.body.present.frames) results.now ≡ true) }
    ensures other { OnErr result (may_return (context_of R.context context.now)
        (heads context.now.stacks.now.body.present.frames) results.now ≡ false) }
{
    let outermost = context.stacks.control_stack_height() - 1;
    let Some(frame) = context.stacks.get_frame(outermost) else {
        unreachable!()
    };
    let expected = label_types(context.resources, &frame.block_type, frame.kind);
    if are_below(context.resources, results, expected) {
        Ok(())
    } else {
        Err(A::of(Refusal::OtherResults(type_index)))
    }
}

/// `return_call`: what the function takes. The body returns its results, and the live part of the frame
/// ends.
#[inline(never)]
pub fn return_call<A: Refused, R: WasmModuleResources>(
    context: OperatorContext<'_, '_, R>,
    function_index: u32,
) -> Result<(), A>
    requires { CanCheck R.context context }
    ensures { Checks R.context A.tells (λ cx. staying_operator (λ hs. return_call_row cx hs function_index))
        context.entry result context.exit }
{
    let Some(type_index) = context.resources.type_index_of_function(function_index) else {
        return Err(A::of(Refusal::UnknownFunction(function_index)));
    };
    let func_type = find_func_type(&context, type_index)?;
    expect_same_results(&context, type_index, func_type.results())?;
    context.expect_operands(0, func_type.params())?;
    context.stacks.mark_unreachable()
}
