//! Operators on operands of any type (WebAssembly core specification, "Parametric Instructions").
#![tactic(auto, using(validate_shapes::proofs::KnownRows::known_rows))]

ghost use Rattle.std.specs.Prelude.{◌≡◌, false, None, Some, IfOk, OnErr};
ghost use Rattle.validate_resources.specs.Context.{is_number_or_vector};
ghost use Rattle.validation_rules.specs.Operators.{never_row, looking_row, drop_pushes, is_selectable, select_result, select_pushes, typed_select_row, row_operator};
ghost use Rattle.validate_stacks.specs.Bodies.{CanCheck, Checks};
ghost use Rattle.validate_stacks.specs.Visits.{step_body};
ghost use Rattle.validation_rules.specs.Static.{RowFails};

use validate_resources::WasmModuleResources;
use validate_shapes::canonical::canonical_value;
use validate_shapes::plain::plain;
use validate_stacks::OperatorContext;
use validate_types::{MaybeType, Refusal, Refused, ValType};

/// `drop`: any one operand. Where no attempt is pending it is refused only where its row doesn't hold.
#[inline(never)]
#[tactic(auto, using(crate::proofs::Sets::drops))]
pub fn drop_operand<A: Refused, R: WasmModuleResources>(
    context: OperatorContext<'_, '_, R>,
) -> Result<(), A>
    requires { CanCheck R.context context }
    ensures row { Checks R.context A.tells (λ cx. row_operator (looking_row 1 drop_pushes)) context.entry
        result context.exit }
    ensures idle { context.entry.stacks.now.body.undone ≡ None
        → OnErr result (RowFails (step_body (R.context context.entry.resources.now)
        (λ cx. row_operator (looking_row 1 drop_pushes)) context.entry.stacks.now.body)) }
{
    if context.stacks.own_operand_count() > 0 {
        return context.stacks.exchange(1, &[]);
    }
    context.stacks.find_any(0)?;
    Ok(())
}

/// Whether `select` takes this operand: it takes no reference.
#[inline(always)]
fn is_selectable(operand: &MaybeType) -> bool
    ensures { result ≡ is_selectable operand.now }
{
    match operand {
        MaybeType::Bottom => true,
        MaybeType::UnknownRef(_) | MaybeType::Known(ValType::Ref(_)) => false,
        MaybeType::Known(_) => true,
    }
}

/// What `select` gives for its two operands: an unknown one gives way to the other, and known ones
/// have to be of one type.
#[inline(always)]
fn find_selected<A: Refused>(lower: &MaybeType, upper: &MaybeType) -> Result<MaybeType, A>
    ensures pushed { IfOk result (λ t. select_result lower.now upper.now ≡ Some t) }
    ensures refused { OnErr result (select_result lower.now upper.now ≡ None) }
{
    if !is_selectable(lower) || !is_selectable(upper) {
        return Err(A::of(Refusal::SelectOfReferences));
    }
    match (lower, upper) {
        (MaybeType::Known(one), MaybeType::Known(other)) if *one != *other => {
            Err(A::of(Refusal::SelectOfTwoTypes))
        }
        (MaybeType::Bottom, _) => Ok(*upper),
        _ => Ok(*lower),
    }
}

/// The fast lane of [`any_select`] asks this: whether it is a number or vector type.
#[inline(always)]
fn is_number(ty: ValType) -> bool
    ensures { result ≡ is_number_or_vector ty }
{
    !matches!(ty, ValType::Ref(_))
}

/// `select` without a type: `[a b i32] -> [c]` of two operands of one type, or of which one or both
/// are unknown. Most are known numbers.
#[inline(never)]
#[tactic(auto, using(crate::proofs::Sets::selects))]
pub fn select<A: Refused, R: WasmModuleResources>(
    context: OperatorContext<'_, '_, R>,
) -> Result<(), A>
    requires { CanCheck R.context context }
    ensures { Checks R.context A.tells (λ cx. row_operator (looking_row 3 (select_pushes cx))) context.entry
        result context.exit }
{
    let resources = context.resources;
    let Some(MaybeType::Known(ty)) = context.stacks.type_found(1) else {
        return any_select(context);
    };
    if !is_number(ty) {
        return any_select(context);
    }
    if context
        .stacks
        .exchange_numbers_at_once(resources, &[ty, ty, ValType::I32], Some(ty))
    {
        return Ok(());
    }
    any_select(context)
}

/// [`select`] of any operands.
#[inline(never)]
fn any_select<A: Refused, R: WasmModuleResources>(
    context: OperatorContext<'_, '_, R>,
) -> Result<(), A>
    requires { CanCheck R.context context }
    ensures { Checks R.context A.tells (λ cx. row_operator (looking_row 3 (select_pushes cx))) context.entry
        result context.exit }
{
    context.expect_operands(0, &[ValType::I32])?;
    let upper = context.stacks.find_any(1)?;
    let lower = context.stacks.find_any(2)?;
    let ty = find_selected(&lower, &upper)?;
    let own = context.stacks.own_operand_count();
    context.stacks.replace(own.min(3), ty)
}

/// `select` with its type: `[t t i32] -> [t]` of the checked type.
#[inline(never)]
pub fn typed_select<A: Refused, R: WasmModuleResources>(
    context: OperatorContext<'_, '_, R>,
    ty: &ValType,
) -> Result<(), A>
    requires { CanCheck R.context context }
    ensures { Checks R.context A.tells (λ cx. row_operator (typed_select_row cx ty.now)) context.entry
        result context.exit }
{
    let checked = canonical_value(context.resources, context.stacks.features(), *ty)?;
    plain(context, &[checked, checked, ValType::I32], &[checked])
}

/// `select` with several types: it is never accepted.
#[inline(never)]
pub fn typed_select_multi<A: Refused, R: WasmModuleResources>(
    context: OperatorContext<'_, '_, R>,
) -> Result<(), A>
    requires { CanCheck R.context context }
    ensures { Checks R.context A.tells (λ cx. row_operator never_row) context.entry result context.exit }
{
    // The contract alone reads it.
    let _body = context;
    Err(A::of(Refusal::SelectArity))
}
