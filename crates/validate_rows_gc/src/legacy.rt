//! Operators that begin and end the parts of a legacy `try`.
#![tactic(auto, using(crate::proofs::Sets::parts))]

ghost use Rattle.std.specs.Prelude.{◌≡◌, Some, [], true, Bool, OnErr, IfOk, length};
ghost use Rattle.std.specs.Option.{ForSome};
ghost use Rattle.validation_rules.specs.Exceptions.{exception_types, catch_operator, delegate_operator};
ghost use Rattle.validation_rules.specs.Operators.{delimiter_operator};
ghost use Rattle.validation_rules.specs.Rows.{BeginsCatch, catch_kind, may_catch, is_try};
ghost use Rattle.validate_stacks.specs.Bodies.{CanCheck, Checks};
ghost use Rattle.validate_stacks.specs.Steps.{body_with_frame, body_without_frame, frame_at, innermost_operands};
ghost use Rattle.validate_stacks.specs.Visits.{step_body};
ghost use Rattle.validation_rules.specs.Static.{RowHolds, RowFails};

use validate_resources::WasmModuleResources;
use validate_shapes::tags::exception_types_at;
use validate_stacks::OperatorContext;
use validate_stacks::blocks::results;
use validate_types::{Refusal, Refused};
use validate_visit::{BlockType, FrameKind};

/// `catch`: closes a part of a `try`, which has to have exactly its results, and begins one with what an
/// exception with this tag carries. It refuses after a frame of another kind, and a tag that is none.
#[tactic(auto, using(crate::proofs::Sets::catches))]
pub fn catch<A: Refused, R: WasmModuleResources>(
    context: OperatorContext<'_, '_, R>,
    tag_index: u32,
) -> Result<(), A>
    requires { CanCheck R.context context }
    ensures { Checks R.context A.tells (λ cx. catch_operator (exception_types cx.of_module tag_index))
        context.entry result context.exit }
{
    let (popped, block_type) = find_part(&context, Refusal::CatchOutsideTry)?;
    let types = exception_types_at(context.resources, tag_index)?;
    context
        .stacks
        .reopen_with(popped, FrameKind::LegacyCatch, block_type, types)
}

/// `catch_all`: closes a part of a `try`, which has to have exactly its results, and begins one with
/// nothing. It refuses after a frame of another kind.
#[tactic(auto, using(crate::proofs::Sets::catches))]
pub fn catch_all<A: Refused, R: WasmModuleResources>(
    context: OperatorContext<'_, '_, R>,
) -> Result<(), A>
    requires { CanCheck R.context context }
    ensures { Checks R.context A.tells (λ cx. delimiter_operator (BeginsCatch true [])) context.entry
        result context.exit }
{
    let (popped, block_type) = find_part(&context, Refusal::CatchAllOutsideTry)?;
    context
        .stacks
        .reopen_with(popped, FrameKind::LegacyCatchAll, block_type, &[])
}

/// How many own operands the innermost frame has, where they are its results, and its block type. It gives this refusal where
/// no `catch` may stand after that frame.
fn find_part<A: Refused, R: WasmModuleResources>(
    context: &OperatorContext<'_, '_, R>,
    outside: Refusal,
) -> Result<(usize, BlockType), A>
    requires { CanCheck R.context context.now }
    ensures own { IfOk result (λ part. part.0 ≡ length (innermost_operands context.now.stacks.now.body.present.frames)) }
    ensures block { IfOk result (λ part. ForSome (frame_at context.now.stacks.now.body 0)
        (λ f. f.block_type ≡ part.1)) }
    ensures begins { IfOk result (λ part. (all : Bool) → RowHolds (step_body (R.context context.now.resources.now)
        (λ cx. delimiter_operator (BeginsCatch all [])) context.now.stacks.now.body)
        (body_with_frame (catch_kind all) part.1 (body_without_frame context.now.stacks.now.body))) }
    ensures refused { OnErr result ((all : Bool) → RowFails (step_body (R.context context.now.resources.now)
        (λ cx. delimiter_operator (BeginsCatch all [])) context.now.stacks.now.body)) }
{
    let Some(frame) = context.stacks.get_frame(0) else {
        unreachable!()
    };
    let popped = context.find_results(results(context.resources, &frame.block_type))?;
    if !may_catch(frame.kind) {
        return Err(A::of(outside));
    }
    Ok((popped, frame.block_type))
}

/// Whether a `catch` may stand after a part of this kind.
fn may_catch(kind: FrameKind) -> bool
    ensures { result ≡ may_catch kind }
{
    matches!(kind, FrameKind::LegacyTry | FrameKind::LegacyCatch)
}

/// `delegate`: closes the body of a `try`, which has to have exactly its results, and gives them to the
/// next outer frame. The label is counted outside the frame that it closes, and has to exist. It refuses
/// after a frame of another kind.
pub fn delegate<A: Refused, R: WasmModuleResources>(
    context: OperatorContext<'_, '_, R>,
    relative_depth: u32,
) -> Result<(), A>
    requires { CanCheck R.context context }
    ensures { Checks R.context A.tells (λ cx. delegate_operator relative_depth) context.entry result context.exit }
{
    let Some(frame) = context.stacks.get_frame(0) else {
        unreachable!()
    };
    let (kind, block_type) = (frame.kind, frame.block_type);
    let results = results(context.resources, &block_type);
    let popped = context.find_results(results)?;
    if !is_try(kind) {
        return Err(A::of(Refusal::DelegateOutsideTry));
    }
    let Some(_) = context.stacks.get_frame(relative_depth as usize + 1) else {
        return Err(A::of(Refusal::UnknownLabel));
    };
    context.stacks.close(popped, results)
}

/// Whether it is the body of a `try`.
fn is_try(kind: FrameKind) -> bool
    ensures { result ≡ is_try kind }
{
    matches!(kind, FrameKind::LegacyTry)
}
