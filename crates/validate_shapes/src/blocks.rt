//! Operators that open a frame (WebAssembly core specification, "Control Instructions").
#![tactic(auto, using(crate::proofs::KnownRows::openers))]

ghost use Rattle.std.specs.Prelude.{◌≡◌, ◌≤◌, [], ◌∷◌, true, false, None, Some, ◌&&◌, IfOk, OnOk, OnErr, IfErr, length};
ghost use Rattle.std.specs.List.{AllByRecursion};
ghost use Rattle.validate_resources.specs.Context.{Valid};
ghost use Rattle.validate_types.specs.Features.{has, multi_value};
ghost use Rattle.validation_rules.specs.Operators.{opener, opening_operator, checked_block, is_accessible_func_type};
ghost use Rattle.validation_rules.specs.Valid.{IsValidBlock};
ghost use Rattle.validate_stacks.specs.Bodies.{context_of, CanCheck, Checks};

use crate::canonical::canonical_value;
use validate_resources::WasmModuleResources;
use validate_resources::kinds::func_type_of;
use validate_stacks::OperatorContext;
use validate_stacks::blocks::params;
use validate_types::{Refusal, Refused, ValType};
use validate_visit::{BlockType, FrameKind};

/// A function type that a block names: it needs `multi_value`, has to be declared and of functions, and
/// in a shared function has to be shared.
fn check_function_type<A: Refused, R: WasmModuleResources>(
    context: &OperatorContext<'_, '_, R>,
    type_index: u32,
) -> Result<(), A>
    ensures accepted { OnOk result ((has context.now.stacks.now.body.features multi_value && is_accessible_func_type
        (context_of R.context context.now) ((R.context context.now.resources.now).type_at type_index)) ≡ true) }
    ensures refused { OnErr result ((has context.now.stacks.now.body.features multi_value && is_accessible_func_type
        (context_of R.context context.now) ((R.context context.now.resources.now).type_at type_index)) ≡ false) }
{
    if !context.stacks.features().multi_value() {
        return Err(A::of(Refusal::MultiValueOff));
    }
    let Some(sub_type) = context.resources.sub_type_at(type_index) else {
        return Err(A::of(Refusal::UnknownType));
    };
    if func_type_of(sub_type).is_none() {
        return Err(A::of(Refusal::NoFunctionType(type_index)));
    }
    if context.stacks.is_shared() && !sub_type.composite_type.shared {
        return Err(A::of(Refusal::UnsharedFunction));
    }
    Ok(())
}

/// The block type as a frame keeps it (wasmparser's `check_block_type`): a value type in its
/// canonical form. It refuses a value type as the lookup does, and a function type where
/// `multi_value` is off, where no type has its index or the type there is of another kind, and an
/// unshared one in a shared function.
#[inline(always)]
pub fn check_block_type<A: Refused, R: WasmModuleResources>(
    context: &OperatorContext<'_, '_, R>,
    block_type: BlockType,
) -> Result<BlockType, A>
    ensures checked { IfOk result (λ bt. checked_block (context_of R.context context.now) block_type ≡ Some bt) }
    ensures refused { IfErr result (λ e. A.tells e → checked_block (context_of R.context context.now)
        block_type ≡ None) }
{
    match block_type {
        BlockType::Empty => Ok(BlockType::Empty),
        BlockType::Val(ty) => {
            let checked = canonical_value(context.resources, context.stacks.features(), ty)?;
            Ok(BlockType::Val(checked))
        }
        BlockType::FuncType(index) => {
            check_function_type(context, index)?;
            Ok(BlockType::FuncType(index))
        }
    }
}

/// Takes the operands above, and then the parameters of a checked block type, and opens a frame over
/// the parameters.
#[inline(always)]
fn open_frame<A: Refused, R: WasmModuleResources>(
    context: OperatorContext<'_, '_, R>,
    kind: FrameKind,
    above: &[ValType],
    block_type: BlockType,
) -> Result<(), A>
    requires visit { CanCheck R.context context }
    requires above { AllByRecursion (Valid (R.context context.resources.now)) above.now }
    requires one_above { length above.now ≤ 1 }
    requires block { IsValidBlock (R.context context.resources.now) context.stacks.now.body.shared block_type }
    ensures { Checks R.context A.tells (λ cx. opening_operator cx kind above.now block_type) context.entry
        result context.exit }
{
    let params = params(context.resources, &block_type);
    context.expect_operands(0, above)?;
    context.expect_operands(above.len(), params)?;
    let own = context.stacks.own_operand_count();
    let popped = params.len().saturating_add(above.len()).min(own);
    context.stacks.open(popped, kind, block_type, params)
}

/// [`open_frame`] with nothing above the parameters, by a call.
#[inline(never)]
fn open_over_any<A: Refused, R: WasmModuleResources>(
    context: OperatorContext<'_, '_, R>,
    kind: FrameKind,
    block_type: BlockType,
) -> Result<(), A>
    requires visit { CanCheck R.context context }
    requires block { IsValidBlock (R.context context.resources.now) context.stacks.now.body.shared block_type }
    ensures { Checks R.context A.tells (λ cx. opening_operator cx kind [] block_type) context.entry
        result context.exit }
{
    open_frame(context, kind, &[], block_type)
}

/// The fast lane of [`open_over_any`]: most parameters stand there already, known to be of these number or
/// vector types. It is [`open_frame`] with nothing above the parameters.
#[inline(always)]
fn open_over_params<A: Refused, R: WasmModuleResources>(
    context: OperatorContext<'_, '_, R>,
    kind: FrameKind,
    block_type: BlockType,
) -> Result<(), A>
    requires visit { CanCheck R.context context }
    requires block { IsValidBlock (R.context context.resources.now) context.stacks.now.body.shared block_type }
    ensures { Checks R.context A.tells (λ cx. opening_operator cx kind [] block_type) context.entry
        result context.exit }
{
    let resources = context.resources;
    if context
        .stacks
        .open_over_params_at_once(resources, kind, block_type)
    {
        return Ok(());
    }
    open_over_any(context, kind, block_type)
}

/// [`open_if`] of a block type that isn't empty.
#[inline(never)]
fn open_typed_if<A: Refused, R: WasmModuleResources>(
    context: OperatorContext<'_, '_, R>,
    block_type: BlockType,
) -> Result<(), A>
    requires { CanCheck R.context context }
    ensures { Checks R.context A.tells (λ cx. opener cx FrameKind.If (ValType.I32 ∷ []) block_type
        (checked_block cx block_type)) context.entry result context.exit }
{
    let checked = check_block_type(&context, block_type)?;
    open_frame(context, FrameKind::If, &[ValType::I32], checked)
}

/// `if`: `[params i32] -> [results]` of its block type, over a frame with the parameters. A block type without types is
/// written apart, since nothing is looked up then.
#[inline(always)]
pub fn open_if<A: Refused, R: WasmModuleResources>(
    context: OperatorContext<'_, '_, R>,
    block_type: BlockType,
) -> Result<(), A>
    requires { CanCheck R.context context }
    ensures { Checks R.context A.tells (λ cx. opener cx FrameKind.If (ValType.I32 ∷ []) block_type
        (checked_block cx block_type)) context.entry result context.exit }
{
    match block_type {
        BlockType::Empty => open_frame(context, FrameKind::If, &[ValType::I32], BlockType::Empty),
        _ => open_typed_if(context, block_type),
    }
}

/// [`open_block`] with a result of this type.
#[inline(never)]
fn open_value_block<A: Refused, R: WasmModuleResources>(
    context: OperatorContext<'_, '_, R>,
    kind: FrameKind,
    ty: ValType,
) -> Result<(), A>
    requires { CanCheck R.context context }
    ensures { Checks R.context A.tells (λ cx. opener cx kind [] (BlockType.Val ty)
        (checked_block cx (BlockType.Val ty))) context.entry result context.exit }
{
    let checked = check_block_type(&context, BlockType::Val(ty))?;
    open_frame(context, kind, &[], checked)
}

/// [`open_block`] of the function type at this index.
#[inline(never)]
fn open_function_block<A: Refused, R: WasmModuleResources>(
    context: OperatorContext<'_, '_, R>,
    kind: FrameKind,
    type_index: u32,
) -> Result<(), A>
    requires { CanCheck R.context context }
    ensures { Checks R.context A.tells (λ cx. opener cx kind [] (BlockType.FuncType type_index)
        (checked_block cx (BlockType.FuncType type_index))) context.entry result context.exit }
{
    let checked = check_block_type(&context, BlockType::FuncType(type_index))?;
    open_over_params(context, kind, checked)
}

/// `block`, `loop` and `try`: `[params] -> [results]` of its block type, over a frame of this kind with the parameters.
/// The three kinds of block types are written apart, as most have no types, and then nothing is looked up.
#[inline(always)]
pub fn open_block<A: Refused, R: WasmModuleResources>(
    context: OperatorContext<'_, '_, R>,
    kind: FrameKind,
    block_type: BlockType,
) -> Result<(), A>
    requires { CanCheck R.context context }
    ensures { Checks R.context A.tells (λ cx. opener cx kind [] block_type (checked_block cx block_type))
        context.entry result context.exit }
{
    match block_type {
        BlockType::Empty => open_frame(context, kind, &[], BlockType::Empty),
        BlockType::Val(ty) => open_value_block(context, kind, ty),
        BlockType::FuncType(type_index) => { open_function_block(context, kind, type_index) }
    }
}
