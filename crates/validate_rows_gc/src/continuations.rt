//! Operators on continuations.

ghost use Rattle.std.specs.Prelude.{◌≡◌, true, false, Some, IfOk, IfErr};
ghost use Rattle.std.specs.List.{AllByRecursion};
ghost use Rattle.validate_resources.specs.Context.{Valid};
ghost use Rattle.validate_types.specs.Refs.{nullable_reference};
ghost use Rattle.validation_rules.specs.Continuations.{continuation_row, continuation_signature, cont_new_row, cont_bind_row, suspend_row, resume_row, resume_throw_row, resume_throw_ref_row, switch_row};
ghost use Rattle.validation_rules.specs.Indirect as rule;
ghost use Rattle.validation_rules.specs.Operators.{staying_operator};
ghost use Rattle.validation_rules.specs.Static.{heads};
ghost use Rattle.validate_stacks.specs.Bodies.{context_of, CanCheck, Checks};
ghost use Rattle.validate_stacks.specs.State.{IsValidBody};
ghost use Rattle.validate_shapes.specs.Operands.{Finds};
ghost use Rattle.validate_rows_gc.specs.Handlers.{are_fitting_handlers, IsNeverResumed};
ghost use Rattle.validate_rows_gc.specs.Targets.{without_targets};

use crate::handlers::check_handlers;
use crate::lookups::{
    cont_type_at, func_type_of_cont_at, is_concrete_reference, is_func_subtype,
    referenced_continuation,
};
use validate_resources::WasmModuleResources;
use validate_shapes::aggregates::type_reference;
use validate_shapes::operands::{Expected, Few, Operands, Pushed, exchange_operands};
use validate_shapes::tags::{exception_types_at, tag_at};
use validate_stacks::OperatorContext;
use validate_types::{FuncType, RefType, Refusal, Refused, ValType};
use validate_visit::{ContinuationOp, Handle};

/// What a `resume` names: what is resumed, and the reference to it.
#[derive(Clone, Copy)]
struct Resumed<'a> {
    /// What it still takes and gives.
    func_type: &'a FuncType,
    /// The type of a reference to it, or of null.
    reference: ValType,
}

/// What is resumed by the continuation type at an index and these handlers, each of which has to fit it
/// (wasmparser's `check_resume_table`).
#[tactic(auto, using(crate::proofs::Sets::resumes))]
fn check_resume_table<'a, A: Refused, R: WasmModuleResources>(
    context: &OperatorContext<'_, 'a, R>,
    cont_type_index: u32,
    handlers: &[Handle],
) -> Result<Resumed<'a>, A>
    requires { IsValidBody (R.context context.now.resources.now) context.now.stacks.now.body }
    ensures found { IfOk result (λ r. continuation_signature (context_of R.context context.now)
        cont_type_index ≡ Some r.func_type.now) }
    ensures params { IfOk result (λ r. AllByRecursion (Valid (R.context context.now.resources.now))
        r.func_type.now.params) }
    ensures results { IfOk result (λ r. AllByRecursion (Valid (R.context context.now.resources.now))
        r.func_type.now.results) }
    ensures reference { IfOk result (λ r. rule.type_reference (context_of R.context context.now)
        nullable_reference cont_type_index ≡ Some r.reference) }
    ensures valid { IfOk result (λ r. Valid (R.context context.now.resources.now) r.reference) }
    ensures handlers { IfOk result (λ r. are_fitting_handlers (context_of R.context context.now)
        (heads context.now.stacks.now.body.present.frames) r.func_type.now handlers.now ≡ true) }
    ensures refused { IfErr result (λ e. A.tells e → IsNeverResumed (context_of R.context context.now)
        (heads context.now.stacks.now.body.present.frames) cont_type_index handlers.now) }
{
    let func_type = func_type_of_cont_at(context, cont_type_index)?;
    check_handlers(context, func_type, handlers)?;
    let reference = type_reference(context, true, cont_type_index)?;
    Ok(Resumed {
        func_type,
        reference,
    })
}

/// `cont.new`: from a function, or null, a continuation that starts it.
fn cont_new_types<'a, A: Refused, R: WasmModuleResources>(
    context: &OperatorContext<'_, 'a, R>,
    cont_type_index: u32,
) -> Result<Operands<'a>, A>
    ensures { Finds (R.context context.now.resources.now) A.tells
        (λ cx. cont_new_row cx cont_type_index)
        context.now.stacks.now.body result }
{
    let cont_type = cont_type_at(context, cont_type_index)?;
    let from = ValType::Ref(RefType::concrete(true, cont_type.0));
    let made = type_reference(context, false, cont_type_index)?;
    Ok(Operands::few(Few::One(from), Pushed::One(made)))
}

/// `cont.bind`: binds the first parameters of a continuation, of which the second type leaves the others.
fn cont_bind_types<'a, A: Refused, R: WasmModuleResources>(
    context: &OperatorContext<'_, 'a, R>,
    argument_index: u32,
    result_index: u32,
) -> Result<Operands<'a>, A>
    ensures { Finds (R.context context.now.resources.now) A.tells
        (λ cx. cont_bind_row cx argument_index result_index)
        context.now.stacks.now.body result }
{
    let argument = func_type_of_cont_at(context, argument_index)?;
    let result = func_type_of_cont_at(context, result_index)?;
    let (params, left) = (argument.params(), result.params());
    if params.len() < left.len() {
        return Err(A::of(Refusal::OtherArguments));
    }
    let (bound, rest) = params.split_at(params.len() - left.len());
    if !is_func_subtype(
        context.resources,
        rest,
        argument.results(),
        left,
        result.results(),
    ) {
        return Err(A::of(Refusal::OtherContinuations));
    }
    let from = type_reference(context, true, argument_index)?;
    let made = type_reference(context, false, result_index)?;
    Ok(Operands {
        expected: Expected::WithTop(bound, from),
        pushed: Pushed::One(made),
    })
}

/// `suspend`: takes what the tag carries, and gives what is given back for it.
fn suspend_types<'a, A: Refused, R: WasmModuleResources>(
    context: &OperatorContext<'_, 'a, R>,
    tag_index: u32,
) -> Result<Operands<'a>, A>
    ensures { Finds (R.context context.now.resources.now) A.tells
        (λ cx. suspend_row cx tag_index)
        context.now.stacks.now.body result }
{
    let tag_type = tag_at(context.resources, tag_index)?;
    Ok(Operands {
        expected: Expected::Listed(tag_type.params()),
        pushed: Pushed::Listed(tag_type.results()),
    })
}

/// `resume`: takes what a continuation still takes, and it above that, and gives what it gives.
fn resume_types<'a, A: Refused, R: WasmModuleResources>(
    context: &OperatorContext<'_, 'a, R>,
    cont_type_index: u32,
    handlers: &[Handle],
) -> Result<Operands<'a>, A>
    requires { IsValidBody (R.context context.now.resources.now) context.now.stacks.now.body }
    ensures { Finds (R.context context.now.resources.now) A.tells
        (λ cx. without_targets (resume_row cx (heads context.now.stacks.now.body.present.frames) cont_type_index
        handlers.now))
        context.now.stacks.now.body result }
{
    let resumed = check_resume_table(context, cont_type_index, handlers)?;
    Ok(Operands {
        expected: Expected::WithTop(resumed.func_type.params(), resumed.reference),
        pushed: Pushed::Listed(resumed.func_type.results()),
    })
}

/// `resume_throw`: takes what an exception with the tag carries, and a continuation above that.
fn resume_throw_types<'a, A: Refused, R: WasmModuleResources>(
    context: &OperatorContext<'_, 'a, R>,
    cont_type_index: u32,
    tag_index: u32,
    handlers: &[Handle],
) -> Result<Operands<'a>, A>
    requires { IsValidBody (R.context context.now.resources.now) context.now.stacks.now.body }
    ensures { Finds (R.context context.now.resources.now) A.tells
        (λ cx. without_targets (resume_throw_row cx (heads context.now.stacks.now.body.present.frames)
        cont_type_index tag_index handlers.now)) context.now.stacks.now.body result }
{
    let resumed = check_resume_table(context, cont_type_index, handlers)?;
    let thrown = exception_types_at(context.resources, tag_index)?;
    Ok(Operands {
        expected: Expected::WithTop(thrown, resumed.reference),
        pushed: Pushed::Listed(resumed.func_type.results()),
    })
}

/// `resume_throw_ref`: takes a reference to an exception, and a continuation above that.
fn resume_throw_ref_types<'a, A: Refused, R: WasmModuleResources>(
    context: &OperatorContext<'_, 'a, R>,
    cont_type_index: u32,
    handlers: &[Handle],
) -> Result<Operands<'a>, A>
    requires { IsValidBody (R.context context.now.resources.now) context.now.stacks.now.body }
    ensures { Finds (R.context context.now.resources.now) A.tells (λ cx. without_targets (resume_throw_ref_row cx
        (heads context.now.stacks.now.body.present.frames) cont_type_index handlers.now))
        context.now.stacks.now.body result }
{
    let resumed = check_resume_table(context, cont_type_index, handlers)?;
    Ok(Operands {
        expected: Expected::Few(Few::Two(ValType::EXNREF, resumed.reference)),
        pushed: Pushed::Listed(resumed.func_type.results()),
    })
}

/// `switch`: takes what a continuation still takes but for the one that leads back, which is made here,
/// and gives what that takes.
fn switch_types<'a, A: Refused, R: WasmModuleResources>(
    context: &OperatorContext<'_, 'a, R>,
    cont_type_index: u32,
    tag_index: u32,
) -> Result<Operands<'a>, A>
    ensures { Finds (R.context context.now.resources.now) A.tells
        (λ cx. switch_row cx cont_type_index tag_index)
        context.now.stacks.now.body result }
{
    let func_type = func_type_of_cont_at(context, cont_type_index)?;
    let tag_type = tag_at(context.resources, tag_index)?;
    if tag_type.params().len() != 0 {
        return Err(A::of(Refusal::TagWithParameters));
    }
    let Some((last, others)) = func_type.params().split_last() else {
        return Err(A::of(Refusal::WantsContinuation));
    };
    if !is_concrete_reference(*last) {
        return Err(A::of(Refusal::NoContinuationReference(*last)));
    }
    let Some(other) = referenced_continuation(context.resources, *last) else {
        return Err(A::of(Refusal::NoContinuation));
    };
    let (pushed, back) = (tag_type.results(), func_type.results());
    if !is_func_subtype(context.resources, pushed, pushed, back, other.results()) {
        return Err(A::of(Refusal::OtherContinuations));
    }
    let from = type_reference(context, true, cont_type_index)?;
    Ok(Operands {
        expected: Expected::WithTop(others, from),
        pushed: Pushed::Listed(other.params()),
    })
}

/// What an operator on continuations takes and gives, by the types, the tags and the labels that it names.
fn continuation_types<'a, A: Refused, R: WasmModuleResources>(
    context: &OperatorContext<'_, 'a, R>,
    op: ContinuationOp<'_>,
) -> Result<Operands<'a>, A>
    requires { IsValidBody (R.context context.now.resources.now) context.now.stacks.now.body }
    ensures { Finds (R.context context.now.resources.now) A.tells
        (λ cx. without_targets (continuation_row cx (heads context.now.stacks.now.body.present.frames) op.entry))
        context.now.stacks.now.body result }
{
    match op {
        ContinuationOp::ContNew(index) => cont_new_types(context, index),
        ContinuationOp::ContBind {
            argument_index,
            result_index,
        } => cont_bind_types(context, argument_index, result_index),
        ContinuationOp::Suspend(tag) => suspend_types(context, tag),
        ContinuationOp::Resume {
            cont_type_index,
            resume_table,
        } => resume_types(context, cont_type_index, resume_table.handlers),
        ContinuationOp::ResumeThrow {
            cont_type_index,
            tag_index,
            resume_table,
        } => resume_throw_types(context, cont_type_index, tag_index, resume_table.handlers),
        ContinuationOp::ResumeThrowRef {
            cont_type_index,
            resume_table,
        } => resume_throw_ref_types(context, cont_type_index, resume_table.handlers),
        ContinuationOp::Switch {
            cont_type_index,
            tag_index,
        } => switch_types(context, cont_type_index, tag_index),
    }
}

/// An operator on continuations, its gate aside.
#[inline(never)]
#[tactic(auto, using(validate_shapes::proofs::KnownRows::known_rows))]
pub fn continuation_operator<A: Refused, R: WasmModuleResources>(
    context: OperatorContext<'_, '_, R>,
    op: ContinuationOp<'_>,
) -> Result<(), A>
    requires { CanCheck R.context context }
    ensures { Checks R.context A.tells (λ cx. staying_operator (λ hs. continuation_row cx hs op.entry))
        context.entry result context.exit }
{
    let found = continuation_types(&context, op)?;
    exchange_operands(context, found)
}
