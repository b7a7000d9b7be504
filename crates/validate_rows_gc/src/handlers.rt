//! The handlers of a `resume` (a proposal, "Stack Switching").

ghost use Rattle.std.specs.Prelude.{◌≡◌, true, false, OnOk, OnErr};
ghost use Rattle.std.specs.List.{AllByRecursion};
ghost use Rattle.validate_resources.specs.Context.{Valid};
ghost use Rattle.validate_visit.specs.declared.resume.Handle.TheVariants.{OnLabel, OnSwitch};
ghost use Rattle.validation_rules.specs.Static.{heads};
ghost use Rattle.validate_rows_gc.specs.Handlers.{is_fitting_handler, are_fitting_handlers};
ghost use Rattle.validate_stacks.specs.Bodies.{context_of};
ghost use Rattle.validate_stacks.specs.State.{IsValidBody};

use crate::lookups::{is_concrete_reference, is_func_subtype, referenced_continuation};
use validate_resources::WasmModuleResources;
use validate_shapes::tags::tag_at;
use validate_stacks::OperatorContext;
use validate_stacks::blocks::label_types;
use validate_types::{FuncType, Refusal, Refused};
use validate_visit::Handle;

/// A handler that goes to a label: what the tag carries lies below the label's types but the last, and that
/// is a continuation that takes what the tag gives back and gives what is resumed gives.
fn check_label_handler<A: Refused, R: WasmModuleResources>(
    context: &OperatorContext<'_, '_, R>,
    resumed: &FuncType,
    tag_index: u32,
    label_index: u32,
) -> Result<(), A>
    requires state { IsValidBody (R.context context.now.resources.now) context.now.stacks.now.body }
    requires results { AllByRecursion (Valid (R.context context.now.resources.now)) resumed.now.results }
    ensures fits { OnOk result (is_fitting_handler (context_of R.context context.now)
        (heads context.now.stacks.now.body.present.frames) resumed.now (OnLabel tag_index label_index) ≡ true) }
    ensures refused { OnErr result (is_fitting_handler (context_of R.context context.now)
        (heads context.now.stacks.now.body.present.frames) resumed.now (OnLabel tag_index label_index) ≡ false) }
{
    let tag_type = tag_at(context.resources, tag_index)?;
    let (block_type, kind) = context.stacks.find_label(label_index)?;
    let expected = label_types(context.resources, &block_type, kind);
    let Some((last, others)) = expected.split_last() else {
        return Err(A::of(Refusal::LabelWithoutContinuation));
    };
    if !is_concrete_reference(*last) {
        return Err(A::of(Refusal::NoDeclaredReference(*last)));
    }
    if !is_func_subtype(context.resources, others, &[], tag_type.params(), &[]) {
        return Err(A::of(Refusal::OtherTag));
    }
    let Some(continued) = referenced_continuation(context.resources, *last) else {
        return Err(A::of(Refusal::NoContinuation));
    };
    let (params, results) = (continued.params(), continued.results());
    if !is_func_subtype(
        context.resources,
        tag_type.results(),
        resumed.results(),
        params,
        results,
    ) {
        return Err(A::of(Refusal::OtherContinuation));
    }
    Ok(())
}

/// A handler that switches: the tag takes nothing and gives back what is resumed gives.
fn check_switch_handler<A: Refused, R: WasmModuleResources>(
    context: &OperatorContext<'_, '_, R>,
    resumed: &FuncType,
    tag_index: u32,
) -> Result<(), A>
    requires { AllByRecursion (Valid (R.context context.now.resources.now)) resumed.now.results }
    ensures fits { OnOk result (is_fitting_handler (context_of R.context context.now)
        (heads context.now.stacks.now.body.present.frames) resumed.now (OnSwitch tag_index) ≡ true) }
    ensures refused { OnErr result (is_fitting_handler (context_of R.context context.now)
        (heads context.now.stacks.now.body.present.frames) resumed.now (OnSwitch tag_index) ≡ false) }
{
    let tag_type = tag_at(context.resources, tag_index)?;
    let (params, results) = (tag_type.params(), tag_type.results());
    let pushed = resumed.results();
    if !is_func_subtype(context.resources, params, results, &[], pushed)
        || !is_func_subtype(context.resources, &[], pushed, params, results)
    {
        return Err(A::of(Refusal::OtherSwitchTag));
    }
    Ok(())
}

/// A handler of what is resumed.
fn check_handler<A: Refused, R: WasmModuleResources>(
    context: &OperatorContext<'_, '_, R>,
    resumed: &FuncType,
    handle: Handle,
) -> Result<(), A>
    requires state { IsValidBody (R.context context.now.resources.now) context.now.stacks.now.body }
    requires results { AllByRecursion (Valid (R.context context.now.resources.now)) resumed.now.results }
    ensures fits { OnOk result (is_fitting_handler (context_of R.context context.now)
        (heads context.now.stacks.now.body.present.frames) resumed.now handle ≡ true) }
    ensures refused { OnErr result (is_fitting_handler (context_of R.context context.now)
        (heads context.now.stacks.now.body.present.frames) resumed.now handle ≡ false) }
{
    match handle {
        Handle::OnLabel { tag, label } => { check_label_handler(context, resumed, tag, label) }
        Handle::OnSwitch { tag } => check_switch_handler(context, resumed, tag),
    }
}

/// Each handler of what is resumed, from the first on.
#[tactic(auto, using(crate::proofs::HandlerLists::handlers_done))]
pub fn check_handlers<A: Refused, R: WasmModuleResources>(
    context: &OperatorContext<'_, '_, R>,
    resumed: &FuncType,
    handlers: &[Handle],
) -> Result<(), A>
    requires state { IsValidBody (R.context context.now.resources.now) context.now.stacks.now.body }
    requires results { AllByRecursion (Valid (R.context context.now.resources.now)) resumed.now.results }
    ensures fits { OnOk result (are_fitting_handlers (context_of R.context context.now)
        (heads context.now.stacks.now.body.present.frames) resumed.now handlers.now ≡ true) }
    ensures refused { OnErr result (are_fitting_handlers (context_of R.context context.now)
        (heads context.now.stacks.now.body.present.frames) resumed.now handlers.now ≡ false) }
{
    for handle in handlers {
        check_handler(context, resumed, *handle)?;
    }
    Ok(())
}
