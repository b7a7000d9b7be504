//! The types of functions, looked up (WebAssembly core specification, "Control Instructions").

ghost use Rattle.std.specs.Prelude.{◌≡◌, None, Some, IfOk, OnErr};
ghost use Rattle.std.specs.List.{AllByRecursion};
ghost use Rattle.validate_resources.specs.Context.{Valid};
ghost use Rattle.validation_rules.specs.Calls.{callee};
ghost use Rattle.validation_rules.specs.Indirect.{typed_callee};
ghost use Rattle.validate_stacks.specs.Bodies.{context_of};

use validate_resources::WasmModuleResources;
use validate_resources::kinds::func_type_of;
use validate_stacks::OperatorContext;
use validate_types::{FuncType, Refusal, Refused};

/// The type of a function. It refuses one that isn't declared, and in a shared function one that isn't shared.
#[inline(always)]
pub fn find_function<'a, A: Refused, R: WasmModuleResources>(
    context: &OperatorContext<'_, 'a, R>,
    function_index: u32,
) -> Result<&'a FuncType, A>
    ensures found { IfOk result (λ f. callee (context_of R.context context.now) function_index ≡ Some f.now) }
    ensures params { IfOk result (λ f. AllByRecursion (Valid (R.context context.now.resources.now))
        f.now.params) }
    ensures results { IfOk result (λ f. AllByRecursion (Valid (R.context context.now.resources.now))
        f.now.results) }
    ensures refused { OnErr result (callee (context_of R.context context.now) function_index ≡ None) }
{
    let Some(type_index) = context.resources.type_index_of_function(function_index) else {
        return Err(A::of(Refusal::UnknownFunction(function_index)));
    };
    find_func_type(context, type_index)
}

/// The function type at an index. It refuses one that isn't declared, a type of another kind, and in a shared function one
/// that isn't shared.
pub fn find_func_type<'a, A: Refused, R: WasmModuleResources>(
    context: &OperatorContext<'_, 'a, R>,
    type_index: u32,
) -> Result<&'a FuncType, A>
    ensures found { IfOk result (λ f. typed_callee (context_of R.context context.now) type_index ≡ Some f.now) }
    ensures params { IfOk result (λ f. AllByRecursion (Valid (R.context context.now.resources.now))
        f.now.params) }
    ensures results { IfOk result (λ f. AllByRecursion (Valid (R.context context.now.resources.now))
        f.now.results) }
    ensures refused { OnErr result (typed_callee (context_of R.context context.now) type_index ≡ None) }
{
    let Some(sub_type) = context.resources.sub_type_at(type_index) else {
        return Err(A::of(Refusal::UnknownType));
    };
    let Some(func_type) = func_type_of(sub_type) else {
        return Err(A::of(Refusal::NoFunctionType(type_index)));
    };
    if context.stacks.is_shared() && !sub_type.composite_type.shared {
        return Err(A::of(Refusal::UnsharedFunction));
    }
    Ok(func_type)
}
