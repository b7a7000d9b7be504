//! What an operator takes and gives, as a value: the answer of a look-up.
#![tactic(auto, using(crate::proofs::KnownRows::exchanges))]

ghost use Rattle.std.specs.Prelude.{◌≡◌, [], ◌∷◌, IfOk};
ghost use Rattle.std.specs.List.{AllByRecursion};
ghost use Rattle.validate_resources.specs.Context.{Valid};
ghost use Rattle.validation_rules.specs.Context.{Context};
ghost use Rattle.validation_rules.specs.Operators.{plain_row, row_operator};
ghost use Rattle.validation_rules.specs.Rows.{Row};
ghost use Rattle.validate_shapes.specs.Operands.{expected_types, operands_row, AreValidExpected, AreValidOperands, Finds};
ghost use Rattle.validate_stacks.specs.Bodies.{CanCheck, Checks};

use crate::plain::{constant, none_for_both, one_for_both, one_for_one, plain};
use validate_resources::WasmModuleResources;
use validate_stacks::{OperatorContext, Pops};
use validate_types::{FieldType, Refused, ValType};

/// At most five types.
#[derive(Clone, Copy)]
pub enum Few {
    /// None.
    Zero,
    /// One.
    One(ValType),
    /// Two, the last on top.
    Two(ValType, ValType),
    /// Three, the last on top.
    Three(ValType, ValType, ValType),
    /// Four, the last on top.
    Four(ValType, ValType, ValType, ValType),
    /// Five, the last on top.
    Five(ValType, ValType, ValType, ValType, ValType),
}

/// What an operator takes, the last on top.
#[derive(Clone, Copy)]
pub enum Expected<'a> {
    /// Operands of these types.
    Few(Few),
    /// The value of each of these fields.
    Fields(&'a [FieldType]),
    /// So many operands of this type.
    Run(ValType, u32),
    /// Operands of the types of a list.
    Listed(&'a [ValType]),
    /// Operands of the types of a list, and above them one of this type.
    WithTop(&'a [ValType], ValType),
}

/// What an operator gives, the last on top.
#[derive(Clone, Copy)]
pub enum Pushed<'a> {
    /// Nothing.
    Nothing,
    /// An operand of this type.
    One(ValType),
    /// Operands of the types of a list.
    Listed(&'a [ValType]),
}

/// What an operator takes and gives.
#[derive(Clone, Copy)]
pub struct Operands<'a> {
    /// What it takes.
    pub expected: Expected<'a>,
    /// What it gives.
    pub pushed: Pushed<'a>,
}

impl<'a> Operands<'a> {
    /// A few are taken.
    #[inline(always)]
    pub fn few(expected: Few, pushed: Pushed<'a>) -> Operands<'a>
        ensures { result ≡ record { expected = Expected.Few expected; pushed = pushed.entry } }
    {
        Operands {
            expected: Expected::Few(expected),
            pushed,
        }
    }
}

/// `[expected] -> [pushed]`, where what is given lies in a list. It is called, so that [`exchange_operands`] stays short
/// where it is inlined.
#[inline(never)]
fn operands_giving<A: Refused, R: WasmModuleResources>(
    context: OperatorContext<'_, '_, R>,
    expected: Expected<'_>,
    pushed: &[ValType],
) -> Result<(), A>
    requires visit { CanCheck R.context context }
    requires expected { AreValidExpected (R.context context.resources.now) expected }
    requires pushed { AllByRecursion (Valid (R.context context.resources.now)) pushed.now }
    ensures { Checks R.context A.tells (λ cx. row_operator (plain_row (expected_types expected.entry)
        pushed.now)) context.entry result context.exit }
{
    match expected {
        Expected::Few(Few::Zero) => plain(context, &[], pushed),
        Expected::Few(Few::One(a)) => plain(context, &[a], pushed),
        Expected::Few(Few::Two(a, b)) => plain(context, &[a, b], pushed),
        Expected::Few(Few::Three(a, b, c)) => plain(context, &[a, b, c], pushed),
        Expected::Few(Few::Four(a, b, c, d)) => plain(context, &[a, b, c, d], pushed),
        Expected::Few(Few::Five(a, b, c, d, e)) => plain(context, &[a, b, c, d, e], pushed),
        Expected::Fields(fields) => context.exchange_fields(fields, pushed),
        Expected::Run(ty, count) => context.pop_run(ty, count, pushed, &mut Pops::new()),
        Expected::Listed(types) => plain(context, types, pushed),
        Expected::WithTop(types, above) => context.exchange_with_top(types, above, pushed),
    }
}

/// The fast lane of [`operands_giving`] where nothing is given: `[expected] -> []`
#[inline(always)]
fn operands_gone<A: Refused, R: WasmModuleResources>(
    context: OperatorContext<'_, '_, R>,
    expected: Expected<'_>,
) -> Result<(), A>
    requires visit { CanCheck R.context context }
    requires expected { AreValidExpected (R.context context.resources.now) expected }
    ensures { Checks R.context A.tells (λ cx. row_operator (plain_row (expected_types expected.entry)
        [])) context.entry result context.exit }
{
    match expected {
        Expected::Few(Few::Two(a, b)) => none_for_both(context, a, b),
        other => operands_giving(context, other, &[]),
    }
}

/// The fast lane of [`operands_giving`] where one operand is given: `[expected] -> [pushed]`.
#[inline(always)]
fn operands_giving_one<A: Refused, R: WasmModuleResources>(
    context: OperatorContext<'_, '_, R>,
    expected: Expected<'_>,
    pushed: ValType,
) -> Result<(), A>
    requires visit { CanCheck R.context context }
    requires expected { AreValidExpected (R.context context.resources.now) expected }
    requires pushed { Valid (R.context context.resources.now) pushed }
    ensures { Checks R.context A.tells (λ cx. row_operator (plain_row (expected_types expected.entry)
        (pushed ∷ []))) context.entry result context.exit }
{
    match expected {
        Expected::Few(Few::Zero) => constant(context, pushed),
        Expected::Few(Few::One(a)) => one_for_one(context, a, pushed),
        Expected::Few(Few::Two(a, b)) => one_for_both(context, a, b, pushed),
        Expected::Fields(fields) => context.exchange_fields(fields, &[pushed]),
        other => operands_giving(context, other, &[pushed]),
    }
}

/// `[expected] -> [pushed]`. It is inlined, so that of a value that is known nothing lies in memory.
#[inline(always)]
pub fn exchange_operands<A: Refused, R: WasmModuleResources>(
    context: OperatorContext<'_, '_, R>,
    operands: Operands<'_>,
) -> Result<(), A>
    requires visit { CanCheck R.context context }
    requires operands { AreValidOperands (R.context context.resources.now) operands }
    ensures { Checks R.context A.tells (λ cx. row_operator (operands_row operands.entry)) context.entry
        result context.exit }
{
    match operands.pushed {
        Pushed::Nothing => operands_gone(context, operands.expected),
        Pushed::One(ty) => operands_giving_one(context, operands.expected, ty),
        Pushed::Listed(types) => operands_giving(context, operands.expected, types),
    }
}

/// What a look-up found is taken and given. Where it refused, nothing is changed.
#[inline(always)]
pub fn exchange_found<A: Refused, R: WasmModuleResources>(
    context: OperatorContext<'_, '_, R>,
    found: Result<Operands<'_>, A>,
) -> Result<(), A>
    requires visit { CanCheck R.context context }
    requires valid { IfOk found (AreValidOperands (R.context context.resources.now)) }
    ensures { (row : Context → Row) → Finds (R.context context.entry.resources.now) A.tells row
        context.entry.stacks.now.body found.entry → Checks R.context A.tells (λ cx. row_operator (row cx))
        context.entry result context.exit }
{
    let operands = found?;
    exchange_operands(context, operands)
}
