//! What upstream has done to a part when it refuses the operator that ends it.

ghost use Rattle.std.specs.Prelude.{◌≡◌};
ghost use Rattle.std.specs.List.{AllByRecursion};
ghost use Rattle.std.specs.Option.{ForSome};
ghost use Rattle.validate_resources.specs.Context.{Valid};
ghost use Rattle.validate_stacks.specs.Bodies.{CanCheck};
ghost use Rattle.validate_stacks.specs.Pops.{IsKept};
ghost use Rattle.validate_stacks.specs.State.{IsValidBody};
ghost use Rattle.validate_stacks.specs.Steps.{frame_at};

use validate_resources::WasmModuleResources;
use validate_stacks::OperatorContext;
use validate_stacks::blocks::{params, results};
use validate_types::{NotDone, Refusal, Told, ValType};
use validate_visit::{BlockType, ControlOp, ExceptionOp, FrameKind, Op};

/// Ends the innermost frame, and begins the next part, as far as upstream has when it refuses this operator so: where the
/// frame's results aren't there, it has done neither. An error is want of memory, and nothing is changed then.
pub(crate) fn end_part<R: WasmModuleResources>(
    context: OperatorContext<'_, '_, R>,
    op: &Op,
    told: &Told,
) -> Result<(), Told>
    requires { CanCheck R.context context }
    ensures valid { IsValidBody (R.context context.entry.resources.now) context.exit.0.now.body }
    ensures kept { IsKept context.entry.stacks.now.body context.exit.0.now.body }
{
    if !ends_part(op, told) {
        return Ok(());
    }
    let Some(frame) = context.stacks.get_frame(0) else {
        return Ok(());
    };
    let (kind, block_type) = (frame.kind, frame.block_type);
    if !has_results(&context, block_type) {
        return Ok(());
    }
    match op {
        Op::Control(ControlOp::End) if matches!(kind, FrameKind::If) => {
            let pushed = params(context.resources, &block_type);
            begin_part(context, FrameKind::Else, block_type, pushed)
        }
        Op::Exception(ExceptionOp::Catch(_)) if is_tag_refused(told) => {
            begin_part(context, FrameKind::LegacyCatch, block_type, &[])
        }
        _ => close_part(context),
    }
}

/// Whether the operator ends a part, unless it is refused so.
fn ends_part(op: &Op, told: &Told) -> bool {
    if let Told::Rule(Refusal::Closed(_) | Refusal::OutOfMemory) = told {
        return false;
    }
    match op {
        Op::Control(op) => matches!(op, ControlOp::Else | ControlOp::End),
        Op::Exception(op) => matches!(
            op,
            ExceptionOp::Catch(_) | ExceptionOp::CatchAll | ExceptionOp::Delegate(_)
        ),
        _ => false,
    }
}

fn is_tag_refused(told: &Told) -> bool {
    matches!(
        told,
        Told::Rule(Refusal::UnknownTag(_) | Refusal::TagWithResults)
    )
}

/// Whether the own operands of the innermost frame, which has this type, are its results.
fn has_results<R: WasmModuleResources>(
    context: &OperatorContext<'_, '_, R>,
    block_type: BlockType,
) -> bool
    requires visit { CanCheck R.context context.now }
    requires frame { ForSome (frame_at context.now.stacks.now.body 0) (λ f. f.block_type ≡ block_type) }
{
    let found: Result<usize, NotDone> = context.find_results(results(
        context.resources,
        &block_type,
    ));
    found.is_ok()
}

/// Closes the innermost frame, without results.
fn close_part<R: WasmModuleResources>(context: OperatorContext<'_, '_, R>) -> Result<(), Told>
    requires { CanCheck R.context context }
    ensures valid { IsValidBody (R.context context.entry.resources.now) context.exit.0.now.body }
    ensures kept { IsKept context.entry.stacks.now.body context.exit.0.now.body }
{
    let popped = context.stacks.own_operand_count();
    context.stacks.close(popped, &[])
}

/// Opens a frame in the place of the innermost one, of the same type, with an operand of each of these types.
fn begin_part<R: WasmModuleResources>(
    context: OperatorContext<'_, '_, R>,
    kind: FrameKind,
    block_type: BlockType,
    pushed: &[ValType],
) -> Result<(), Told>
    requires visit { CanCheck R.context context }
    requires frame { ForSome (frame_at context.stacks.now.body 0) (λ f. f.block_type ≡ block_type) }
    requires pushed { AllByRecursion (Valid (R.context context.resources.now)) pushed.now }
    ensures valid { IsValidBody (R.context context.entry.resources.now) context.exit.0.now.body }
    ensures kept { IsKept context.entry.stacks.now.body context.exit.0.now.body }
{
    let popped = context.stacks.own_operand_count();
    context.stacks.reopen_with(popped, kind, block_type, pushed)
}
