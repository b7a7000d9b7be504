//! Operators whose expected and pushed types don't depend on what is found.
#![tactic(auto, using(crate::proofs::KnownRows::exchanges))]

ghost use Rattle.std.specs.Prelude.{◌≡◌, None, true, [], ◌∷◌, OnErr};
ghost use Rattle.std.specs.List.{AllByRecursion};
ghost use Rattle.validate_resources.specs.Context.{Valid, is_number_or_vector};
ghost use Rattle.validation_rules.specs.Operators.{plain_row, ending_row, row_operator};
ghost use Rattle.validate_stacks.specs.Bodies.{CanCheck, Checks};
ghost use Rattle.validate_stacks.specs.Visits.{step_body};
ghost use Rattle.validation_rules.specs.Static.{RowFails};

use crate::numbers::{once, twice};
use validate_resources::WasmModuleResources;
use validate_stacks::OperatorContext;
use validate_types::{LocalType, Operand, Refused, ValType};

/// `[expected] -> [pushed]`, the last of each on top. It is called, so that what stands in each visit stays short.
#[inline(never)]
pub fn plain<A: Refused, R: WasmModuleResources>(
    context: OperatorContext<'_, '_, R>,
    expected: &[ValType],
    pushed: &[ValType],
) -> Result<(), A>
    requires visit { CanCheck R.context context }
    requires expected { AllByRecursion (Valid (R.context context.resources.now)) expected.now }
    requires pushed { AllByRecursion (Valid (R.context context.resources.now)) pushed.now }
    ensures { Checks R.context A.tells (λ cx. row_operator (plain_row expected.now pushed.now)) context.entry
        result context.exit }
{
    context.exchange_types(expected, pushed)
}

/// The fast lane of [`plain`] where nothing is expected: `[] -> [pushed]`
#[inline(always)]
pub fn constant<A: Refused, R: WasmModuleResources>(
    context: OperatorContext<'_, '_, R>,
    pushed: ValType,
) -> Result<(), A>
    requires visit { CanCheck R.context context }
    requires pushed { Valid (R.context context.resources.now) pushed }
    ensures { Checks R.context A.tells (λ cx. row_operator (plain_row [] (pushed ∷ []))) context.entry
        result context.exit }
{
    context.stacks.push_operand(Operand::known(pushed))
}

/// The fast lane of [`constant`] for the type of a local, which is pushed as it is kept.
#[inline(always)]
pub fn local_constant<A: Refused, R: WasmModuleResources>(
    context: OperatorContext<'_, '_, R>,
    pushed: LocalType,
) -> Result<(), A>
    requires visit { CanCheck R.context context }
    requires pushed { Valid (R.context context.resources.now) pushed }
    ensures { Checks R.context A.tells (λ cx. row_operator (plain_row [] (pushed ∷ []))) context.entry
        result context.exit }
{
    context.stacks.push_operand(pushed.operand())
}

/// The fast lane of [`plain`] from one number or vector: `[expected] -> [pushed]`. The list is written twice,
/// so that nothing of it lies in memory where the first call takes it.
#[inline(always)]
pub fn unary<A: Refused, R: WasmModuleResources>(
    context: OperatorContext<'_, '_, R>,
    expected: ValType,
    pushed: ValType,
) -> Result<(), A>
    requires visit { CanCheck R.context context }
    requires expected { Valid (R.context context.resources.now) expected }
    requires pushed { Valid (R.context context.resources.now) pushed }
    ensures { Checks R.context A.tells (λ cx. row_operator (plain_row (expected ∷ []) (pushed ∷ [])))
        context.entry result context.exit }
{
    let resources = context.resources;
    if context
        .stacks
        .exchange_numbers_at_once(resources, &[expected], Some(pushed))
    {
        return Ok(());
    }
    plain(context, &[expected], &[pushed])
}

/// The fast lane of [`plain`] from one operand of any type: `[expected] -> [pushed]`. An operand that is
/// known to be of that type, be it that a reference is exact in it or without null, is exchanged without a
/// call.
#[inline(always)]
pub fn one_for_one<A: Refused, R: WasmModuleResources>(
    context: OperatorContext<'_, '_, R>,
    expected: ValType,
    pushed: ValType,
) -> Result<(), A>
    requires visit { CanCheck R.context context }
    requires expected { Valid (R.context context.resources.now) expected }
    requires pushed { Valid (R.context context.resources.now) pushed }
    ensures { Checks R.context A.tells (λ cx. row_operator (plain_row (expected ∷ []) (pushed ∷ [])))
        context.entry result context.exit }
{
    let resources = context.resources;
    if context
        .stacks
        .exchange_known_at_once(resources, &[expected], Some(pushed))
    {
        return Ok(());
    }
    plain(context, &[expected], &[pushed])
}

/// The fast lane of [`plain`] from two operands of any types: `[low top] -> [pushed]`, as [`one_for_one`].
#[inline(always)]
pub fn one_for_both<A: Refused, R: WasmModuleResources>(
    context: OperatorContext<'_, '_, R>,
    low: ValType,
    top: ValType,
    pushed: ValType,
) -> Result<(), A>
    requires visit { CanCheck R.context context }
    requires low { Valid (R.context context.resources.now) low }
    requires top { Valid (R.context context.resources.now) top }
    requires pushed { Valid (R.context context.resources.now) pushed }
    ensures { Checks R.context A.tells (λ cx. row_operator (plain_row (low ∷ top ∷ []) (pushed ∷ [])))
        context.entry result context.exit }
{
    let resources = context.resources;
    if context
        .stacks
        .exchange_known_at_once(resources, &[low, top], Some(pushed))
    {
        return Ok(());
    }
    plain(context, &[low, top], &[pushed])
}

/// The fast lane of [`plain`] where two operands of any types go: `[low top] -> []`, as [`one_for_one`].
#[inline(always)]
pub fn none_for_both<A: Refused, R: WasmModuleResources>(
    context: OperatorContext<'_, '_, R>,
    low: ValType,
    top: ValType,
) -> Result<(), A>
    requires visit { CanCheck R.context context }
    requires low { Valid (R.context context.resources.now) low }
    requires top { Valid (R.context context.resources.now) top }
    ensures { Checks R.context A.tells (λ cx. row_operator (plain_row (low ∷ top ∷ []) [])) context.entry
        result context.exit }
{
    let resources = context.resources;
    if context
        .stacks
        .exchange_known_at_once(resources, &[low, top], None)
    {
        return Ok(());
    }
    plain(context, &[low, top], &[])
}

/// The fast lane of [`plain`] from two equal numbers or vectors: `[expected expected] -> [pushed]`. The lists
/// of the call are constants, so that none lies in memory.
#[inline(always)]
pub fn binary<A: Refused, R: WasmModuleResources>(
    context: OperatorContext<'_, '_, R>,
    expected: ValType,
    pushed: ValType,
) -> Result<(), A>
    requires visit { CanCheck R.context context }
    requires expected { Valid (R.context context.resources.now) expected }
    requires pushed { Valid (R.context context.resources.now) pushed }
    requires expected_number { is_number_or_vector expected ≡ true }
    requires pushed_number { is_number_or_vector pushed ≡ true }
    ensures { Checks R.context A.tells (λ cx. row_operator (plain_row (expected ∷ expected ∷ [])
        (pushed ∷ []))) context.entry result context.exit }
{
    let resources = context.resources;
    if context
        .stacks
        .exchange_numbers_at_once(resources, &[expected, expected], Some(pushed))
    {
        return Ok(());
    }
    plain(context, twice(expected), once(pushed))
}

/// The fast lane of [`plain`] where two numbers or vectors go: `[low top] -> []`
#[inline(always)]
pub fn pop_both<A: Refused, R: WasmModuleResources>(
    context: OperatorContext<'_, '_, R>,
    low: ValType,
    top: ValType,
) -> Result<(), A>
    requires visit { CanCheck R.context context }
    requires low { Valid (R.context context.resources.now) low }
    requires top { Valid (R.context context.resources.now) top }
    ensures { Checks R.context A.tells (λ cx. row_operator (plain_row (low ∷ top ∷ []) [])) context.entry
        result context.exit }
{
    let resources = context.resources;
    if context
        .stacks
        .exchange_numbers_at_once(resources, &[low, top], None)
    {
        return Ok(());
    }
    plain(context, &[low, top], &[])
}

/// `[types] -> []`, and the live part of the frame ends. Where no attempt is pending it is refused only where its row doesn't
/// hold.
#[tactic(auto, using(crate::proofs::KnownRows::unfit_steps, crate::proofs::BranchSteps::ending_refused))]
pub fn ending<A: Refused, R: WasmModuleResources>(
    context: OperatorContext<'_, '_, R>,
    types: &[ValType],
) -> Result<(), A>
    requires visit { CanCheck R.context context }
    requires types { AllByRecursion (Valid (R.context context.resources.now)) types.now }
    ensures row { Checks R.context A.tells (λ cx. row_operator (ending_row types.now)) context.entry
        result context.exit }
    ensures idle { context.entry.stacks.now.body.undone ≡ None
        → OnErr result (RowFails (step_body (R.context context.entry.resources.now)
        (λ cx. row_operator (ending_row types.now)) context.entry.stacks.now.body)) }
{
    context.expect_operands(0, types)?;
    context.stacks.mark_unreachable()
}
