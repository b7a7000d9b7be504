//! Operators that throw (WebAssembly core specification, "Control Instructions"; `rethrow` is one of the
//! legacy exceptions).
#![tactic(auto, using(crate::proofs::Sets::throws))]

ghost use Rattle.std.specs.Prelude.{◌≡◌, None, OnErr};
ghost use Rattle.validation_rules.specs.Exceptions.{throw_row, throw_ref_row, rethrow_row, is_catch_part};
ghost use Rattle.validation_rules.specs.Operators.{row_operator, staying_operator};
ghost use Rattle.validate_stacks.specs.Bodies.{CanCheck, Checks};
ghost use Rattle.validate_stacks.specs.Visits.{step_body};
ghost use Rattle.validation_rules.specs.Static.{RowFails};

use validate_resources::WasmModuleResources;
use validate_shapes::plain::ending;
use validate_shapes::tags::exception_types_at;
use validate_stacks::OperatorContext;
use validate_types::{Refusal, Refused, ValType};
use validate_visit::FrameKind;

/// `throw`: what an exception with this tag carries, and the live part of the frame ends. Where no
/// attempt is pending it is refused only where its row doesn't hold.
pub fn throw<A: Refused, R: WasmModuleResources>(
    context: OperatorContext<'_, '_, R>,
    tag_index: u32,
) -> Result<(), A>
    requires { CanCheck R.context context }
    ensures row { Checks R.context A.tells (λ cx. row_operator (throw_row cx tag_index)) context.entry
        result context.exit }
    ensures idle { context.entry.stacks.now.body.undone ≡ None
        → OnErr result (RowFails (step_body (R.context context.entry.resources.now)
        (λ cx. row_operator (throw_row cx tag_index)) context.entry.stacks.now.body)) }
{
    let types = exception_types_at(context.resources, tag_index)?;
    ending(context, types)
}

/// `throw_ref`: a reference to an exception, or null, and the live part of the frame ends. Where no
/// attempt is pending it is refused only where its row doesn't hold.
pub fn throw_ref<A: Refused, R: WasmModuleResources>(
    context: OperatorContext<'_, '_, R>,
) -> Result<(), A>
    requires { CanCheck R.context context }
    ensures row { Checks R.context A.tells (λ cx. row_operator throw_ref_row) context.entry result context.exit }
    ensures idle { context.entry.stacks.now.body.undone ≡ None
        → OnErr result (RowFails (step_body (R.context context.entry.resources.now) (λ cx. row_operator throw_ref_row)
        context.entry.stacks.now.body)) }
{
    ending(context, &[ValType::EXNREF])
}

/// `rethrow`: of a part that caught an exception; the live part of the frame ends. Where no attempt
/// is pending it is refused only where its row doesn't hold.
pub fn rethrow<A: Refused, R: WasmModuleResources>(
    context: OperatorContext<'_, '_, R>,
    relative_depth: u32,
) -> Result<(), A>
    requires { CanCheck R.context context }
    ensures row { Checks R.context A.tells (λ cx. staying_operator (λ hs. rethrow_row hs relative_depth))
        context.entry result context.exit }
    ensures idle { context.entry.stacks.now.body.undone ≡ None
        → OnErr result (RowFails (step_body (R.context context.entry.resources.now)
        (λ cx. staying_operator (λ hs. rethrow_row hs relative_depth)) context.entry.stacks.now.body)) }
{
    let (_, kind) = context.stacks.find_label(relative_depth)?;
    if !is_catch_part(kind) {
        return Err(A::of(Refusal::RethrowOutsideCatch));
    }
    ending(context, &[])
}

/// Whether it is a part that caught an exception.
fn is_catch_part(kind: FrameKind) -> bool
    ensures { result ≡ is_catch_part kind }
{
    matches!(kind, FrameKind::LegacyCatch | FrameKind::LegacyCatchAll)
}
