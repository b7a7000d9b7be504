//! Operators that begin and end parts (WebAssembly core specification, "Control Instructions").
#![tactic(auto, using(crate::proofs::Sets::parts))]

ghost use Rattle.std.specs.Prelude.{◌≡◌, true, false, None, [], map, IsOk, OnOk, OnErr};
ghost use Rattle.std.specs.List.{AllByRecursion};
ghost use Rattle.std.specs.Option.{ForSome};
ghost use Rattle.validate_resources.specs.Context.{Valid};
ghost use Rattle.validation_rules.specs.Context.{Context, block_signature};
ghost use Rattle.validation_rules.specs.Fits.{Known, all_fit};
ghost use Rattle.validation_rules.specs.Rows.{BeginsElse, Ends, is_if};
ghost use Rattle.validation_rules.specs.Operators.{plain_row, ending_row, row_operator, delimiter_operator};
ghost use Rattle.validation_rules.specs.Static.{missing_else_fits};
ghost use Rattle.validate_stacks.specs.Bodies.{CanCheck, Checks};
ghost use Rattle.validate_stacks.specs.Steps.{frame_at, head_of};

use validate_resources::WasmModuleResources;
use validate_shapes::matching::are_below;
use validate_stacks::OperatorContext;
use validate_stacks::blocks::{params, results};
use validate_types::{MaybeType, Refusal, Refused, ValType};
use validate_visit::{BlockType, FrameKind};

/// `nop`: nothing. It is never refused, and takes no memory.
#[inline(always)]
pub fn nop<A: Refused, R: WasmModuleResources>(context: OperatorContext<'_, '_, R>) -> Result<(), A>
    requires { CanCheck R.context context }
    ensures row { Checks R.context A.tells (λ cx. row_operator (plain_row [] [])) context.entry result context.exit }
    ensures accepted { IsOk result }
{
    // The contract alone reads it.
    let _body = context;
    Ok(())
}

/// `unreachable`: the live part of the frame ends here. Where no attempt is pending it is never refused.
#[inline(never)]
pub fn unreachable<A: Refused, R: WasmModuleResources>(
    context: OperatorContext<'_, '_, R>,
) -> Result<(), A>
    requires { CanCheck R.context context }
    ensures row { Checks R.context A.tells (λ cx. row_operator (ending_row [])) context.entry result context.exit }
    ensures idle { context.entry.stacks.now.body.undone ≡ None → IsOk result }
{
    context.stacks.mark_unreachable()
}

/// `else`: closes the first part of an `if`, which has to have exactly its results, and begins the
/// second with the parameters. It refuses after a frame of another kind.
#[inline(never)]
pub fn else_part<A: Refused, R: WasmModuleResources>(
    context: OperatorContext<'_, '_, R>,
) -> Result<(), A>
    requires { CanCheck R.context context }
    ensures { Checks R.context A.tells (λ cx. delimiter_operator BeginsElse) context.entry result context.exit }
{
    let Some(frame) = context.stacks.get_frame(0) else {
        unreachable!()
    };
    let kind = frame.kind;
    // A frame without types is left apart, since nothing is looked for in it.
    if let BlockType::Empty = frame.block_type {
        return else_after(context, kind, BlockType::Empty, &[]);
    }
    else_typed(context)
}

/// [`else_part`] after a frame that has types.
#[inline(never)]
fn else_typed<A: Refused, R: WasmModuleResources>(
    context: OperatorContext<'_, '_, R>,
) -> Result<(), A>
    requires { CanCheck R.context context }
    ensures { Checks R.context A.tells (λ cx. delimiter_operator BeginsElse) context.entry result context.exit }
{
    let Some(frame) = context.stacks.get_frame(0) else {
        unreachable!()
    };
    let (kind, block_type) = (frame.kind, frame.block_type);
    let results = results(context.resources, &block_type);
    else_after(context, kind, block_type, results)
}

/// [`else_part`] after a frame of this kind and type, with these results.
#[inline(always)]
fn else_after<A: Refused, R: WasmModuleResources>(
    context: OperatorContext<'_, '_, R>,
    kind: FrameKind,
    block_type: BlockType,
    results: &[ValType],
) -> Result<(), A>
    requires visit { CanCheck R.context context }
    requires frame { ForSome (frame_at context.stacks.now.body 0)
        (λ f. (f.kind ≡ kind) × (f.block_type ≡ block_type)) }
    requires results { results.now ≡ (block_signature (R.context context.resources.now) block_type).results }
    ensures { Checks R.context A.tells (λ cx. delimiter_operator BeginsElse) context.entry result context.exit }
{
    let popped = context.find_results(results)?;
    if !is_if_part(kind) {
        return Err(A::of(Refusal::ElseOutsideIf));
    }
    let params = params(context.resources, &block_type);
    context
        .stacks
        .reopen_with(popped, FrameKind::Else, block_type, params)
}

/// `end`: closes the innermost frame, which has to have exactly its results, and gives them to the
/// next outer one. An `if` without `else` has an empty second part.
#[inline(never)]
pub fn end<A: Refused, R: WasmModuleResources>(context: OperatorContext<'_, '_, R>) -> Result<(), A>
    requires { CanCheck R.context context }
    ensures { Checks R.context A.tells (λ cx. delimiter_operator Ends) context.entry result context.exit }
{
    let Some(frame) = context.stacks.get_frame(0) else {
        unreachable!()
    };
    let kind = frame.kind;
    // A frame without types is left apart, since nothing is looked for in it.
    if let BlockType::Empty = frame.block_type {
        return end_of(context, kind, BlockType::Empty, &[]);
    }
    end_typed(context)
}

/// [`end`] of a frame that has types: most have one result, and one operand for it.
#[inline(never)]
fn end_typed<A: Refused, R: WasmModuleResources>(
    context: OperatorContext<'_, '_, R>,
) -> Result<(), A>
    requires { CanCheck R.context context }
    ensures { Checks R.context A.tells (λ cx. delimiter_operator Ends) context.entry result context.exit }
{
    let Some(frame) = context.stacks.get_frame(0) else {
        unreachable!()
    };
    let (kind, block_type) = (frame.kind, frame.block_type);
    let results = results(context.resources, &block_type);
    if results.len() == 1 && context.stacks.own_operand_count() == 1 && !is_if_part(kind) {
        return end_of(context, kind, block_type, results);
    }
    end_of_any(context, kind, block_type, results)
}

/// [`end_of`], by a call.
#[inline(never)]
fn end_of_any<A: Refused, R: WasmModuleResources>(
    context: OperatorContext<'_, '_, R>,
    kind: FrameKind,
    block_type: BlockType,
    results: &[ValType],
) -> Result<(), A>
    requires visit { CanCheck R.context context }
    requires frame { ForSome (frame_at context.stacks.now.body 0)
        (λ f. (f.kind ≡ kind) × (f.block_type ≡ block_type)) }
    requires results { results.now ≡ (block_signature (R.context context.resources.now) block_type).results }
    ensures { Checks R.context A.tells (λ cx. delimiter_operator Ends) context.entry result context.exit }
{
    end_of(context, kind, block_type, results)
}

/// [`end`] of a frame of this kind and type, with these results.
#[inline(always)]
fn end_of<A: Refused, R: WasmModuleResources>(
    context: OperatorContext<'_, '_, R>,
    kind: FrameKind,
    block_type: BlockType,
    results: &[ValType],
) -> Result<(), A>
    requires visit { CanCheck R.context context }
    requires frame { ForSome (frame_at context.stacks.now.body 0)
        (λ f. (f.kind ≡ kind) × (f.block_type ≡ block_type)) }
    requires results { results.now ≡ (block_signature (R.context context.resources.now) block_type).results }
    ensures { Checks R.context A.tells (λ cx. delimiter_operator Ends) context.entry result context.exit }
{
    let popped = context.find_results(results)?;
    if !may_lack_else(kind, block_type) {
        expect_missing_else(context.resources, &block_type, results)?;
    }
    context.stacks.close(popped, results)
}

/// Whether a frame is no first part of an `if`, or one that takes and gives nothing.
#[inline(always)]
fn may_lack_else(kind: FrameKind, block_type: BlockType) -> bool
    ensures fits { result ≡ true → (cx : Context) → missing_else_fits cx (head_of kind block_type) ≡ true }
    ensures asked { result ≡ false → is_if kind ≡ true }
{
    match kind {
        FrameKind::If => matches!(block_type, BlockType::Empty),
        _ => true,
    }
}

fn is_if_part(kind: FrameKind) -> bool
    ensures { result ≡ is_if kind }
{
    matches!(kind, FrameKind::If)
}

/// That an `if` of this type, with these results, may be without `else`: an empty second part gives its parameters as
/// its results.
#[inline(never)]
fn expect_missing_else<A: Refused, R: WasmModuleResources>(
    resources: &R,
    block_type: &BlockType,
    results: &[ValType],
) -> Result<(), A>
    requires params { AllByRecursion (Valid (R.context resources.now))
        (block_signature (R.context resources.now) block_type.now).params }
    requires results { AllByRecursion (Valid (R.context resources.now)) results.now }
    ensures fits { (cx : Context) → cx.of_module ≡ R.context resources.now → OnOk result (all_fit cx
        (map Known (block_signature (R.context resources.now) block_type.now).params) results.now ≡ true) }
    ensures refused { (cx : Context) → cx.of_module ≡ R.context resources.now → OnErr result (all_fit cx
        (map Known (block_signature (R.context resources.now) block_type.now).params) results.now ≡ false) }
{
    let params = params(resources, block_type);
    if are_below(resources, params, results) {
        return Ok(());
    }
    Err(refuse_params(resources, params, results))
}

/// Why these parameters, popped as these results from the last on, aren't those.
#[cold]
#[inline(never)]
fn refuse_params<A: Refused, R: WasmModuleResources>(
    resources: &R,
    params: &[ValType],
    results: &[ValType],
) -> A {
    for depth in 0..results.len() {
        let expected = results[results.len() - 1 - depth];
        if params.len() <= depth {
            return A::of(Refusal::NothingFound(Some(expected)));
        }
        let found = params[params.len() - 1 - depth];
        if !resources.is_subtype(found, expected) {
            let found = MaybeType::Known(found);
            return A::of(Refusal::Mismatch {
                depth,
                expected,
                found,
            });
        }
    }
    A::of(Refusal::OperandsLeft)
}
