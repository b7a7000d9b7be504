//! `try_table` and its clauses (WebAssembly core specification, "Control Instructions", try_table).
#![tactic(auto, using(crate::proofs::Sets::clauses))]

ghost use Rattle.std.specs.Prelude.{◌≡◌, true, false, [], ◌∷◌, ◌++◌, length, map, OnOk, OnErr};
ghost use Rattle.std.specs.List.{AllByRecursion};
ghost use Rattle.validate_resources.specs.Context.{Valid};
ghost use Rattle.validation_rules.specs.Context.{Context};
ghost use Rattle.validation_rules.specs.Exceptions.{clause_to, exception_reference, try_table_operator};
ghost use Rattle.validation_rules.specs.Fits.{Known, all_fit};
ghost use Rattle.validation_rules.specs.Static.{heads, clause_fits};
ghost use Rattle.validate_rows_gc.specs.Clauses.{is_fitting_catch, are_fitting_catches};
ghost use Rattle.validate_stacks.specs.Bodies.{context_of, CanCheck, Checks};
ghost use Rattle.validate_stacks.specs.State.{IsValidBody};

use validate_resources::WasmModuleResources;
use validate_shapes::blocks::check_block_type;
use validate_shapes::tags::exception_types_at;
use validate_stacks::OperatorContext;
use validate_stacks::blocks::{label_types, params};
use validate_types::{ClauseKind, RefType, Refusal, Refused, ValType};
use validate_visit::{Catch, FrameKind, TryTable};

/// What a clause carries to its label, one by one from the first: types below those of the label.
#[tactic(auto, using(validate_shapes::proofs::TypesBelow::compared_lists))]
fn expect_types<A: Refused, R: WasmModuleResources>(
    resources: &R,
    types: &[ValType],
    expected: &[ValType],
) -> Result<(), A>
    requires types { AllByRecursion (Valid (R.context resources.now)) types.now }
    requires expected { AllByRecursion (Valid (R.context resources.now)) expected.now }
    requires count { length types.now ≡ length expected.now }
    ensures fits { (cx : Context) → cx.of_module ≡ R.context resources.now → OnOk result (all_fit cx
        (map Known types.now) expected.now ≡ true) }
    ensures refused { (cx : Context) → cx.of_module ≡ R.context resources.now → OnErr result (all_fit cx
        (map Known types.now) expected.now ≡ false) }
{
    for index in 0..types.len() {
        if !resources.is_subtype(types[index], expected[index]) {
            return Err(other_type(expected[index], types[index]));
        }
    }
    Ok(())
}

/// The refusal where a label takes another type than it is given.
fn other_type<A: Refused>(expected: ValType, found: ValType) -> A {
    A::of(Refusal::ClauseType { expected, found })
}

/// A clause of this kind that carries these types alone to a label, which has to have as many.
fn expect_carried<A: Refused, R: WasmModuleResources>(
    context: &OperatorContext<'_, '_, R>,
    kind: ClauseKind,
    label_index: u32,
    types: &[ValType],
) -> Result<(), A>
    requires state { IsValidBody (R.context context.now.resources.now) context.now.stacks.now.body }
    requires types { AllByRecursion (Valid (R.context context.now.resources.now)) types.now }
    ensures fits { OnOk result (clause_fits (context_of R.context context.now)
        (heads context.now.stacks.now.body.present.frames) (clause_to label_index types.now) ≡ true) }
    ensures refused { OnErr result (clause_fits (context_of R.context context.now)
        (heads context.now.stacks.now.body.present.frames) (clause_to label_index types.now) ≡ false) }
{
    let (block_type, frame_kind) = context.stacks.find_label(label_index)?;
    let expected = label_types(context.resources, &block_type, frame_kind);
    if expected.len() != types.len() {
        return Err(A::of(Refusal::ClauseArity(kind)));
    }
    expect_types(context.resources, types, expected)
}

/// A clause of this kind that carries these types and a reference to the exception to a label, which has to have one
/// more.
fn expect_carried_with_reference<A: Refused, R: WasmModuleResources>(
    context: &OperatorContext<'_, '_, R>,
    kind: ClauseKind,
    label_index: u32,
    types: &[ValType],
) -> Result<(), A>
    requires state { IsValidBody (R.context context.now.resources.now) context.now.stacks.now.body }
    requires types { AllByRecursion (Valid (R.context context.now.resources.now)) types.now }
    ensures fits { OnOk result (clause_fits (context_of R.context context.now)
        (heads context.now.stacks.now.body.present.frames)
        (clause_to label_index (types.now ++ exception_reference ∷ [])) ≡ true) }
    ensures refused { OnErr result (clause_fits (context_of R.context context.now)
        (heads context.now.stacks.now.body.present.frames)
        (clause_to label_index (types.now ++ exception_reference ∷ [])) ≡ false) }
{
    let (block_type, frame_kind) = context.stacks.find_label(label_index)?;
    let expected = label_types(context.resources, &block_type, frame_kind);
    let Some((last, others)) = expected.split_last() else {
        return Err(A::of(Refusal::ClauseArity(kind)));
    };
    if others.len() != types.len() {
        return Err(A::of(Refusal::ClauseArity(kind)));
    }
    expect_types(context.resources, types, others)?;
    if !context
        .resources
        .is_subtype(ValType::Ref(RefType::EXN), *last)
    {
        return Err(other_reference(kind, *last));
    }
    Ok(())
}

/// The refusal where the last type of a label isn't above the references to exceptions.
fn other_reference<A: Refused>(kind: ClauseKind, expected: ValType) -> A {
    match kind {
        ClauseKind::CatchAllRef => A::of(Refusal::ClauseReference),
        _ => other_type(expected, ValType::Ref(RefType::EXN)),
    }
}

/// A clause: its tag has to be declared and to have no results, its label to exist, and what it carries to
/// be below the label's types, in equal number.
fn expect_clause<A: Refused, R: WasmModuleResources>(
    context: &OperatorContext<'_, '_, R>,
    catch: Catch,
) -> Result<(), A>
    requires { IsValidBody (R.context context.now.resources.now) context.now.stacks.now.body }
    ensures fits { OnOk result (is_fitting_catch (context_of R.context context.now)
        (heads context.now.stacks.now.body.present.frames) catch ≡ true) }
    ensures refused { OnErr result (is_fitting_catch (context_of R.context context.now)
        (heads context.now.stacks.now.body.present.frames) catch ≡ false) }
{
    match catch {
        Catch::One { tag, label } => {
            let types = exception_types_at(context.resources, tag)?;
            expect_carried(context, ClauseKind::Catch, label, types)
        }
        Catch::OneRef { tag, label } => {
            let types = exception_types_at(context.resources, tag)?;
            expect_carried_with_reference(context, ClauseKind::CatchRef, label, types)
        }
        Catch::All { label } => expect_carried(context, ClauseKind::CatchAll, label, &[]),
        Catch::AllRef { label } => {
            expect_carried_with_reference(context, ClauseKind::CatchAllRef, label, &[])
        }
    }
}

/// Each clause, from the first on.
fn expect_clauses<A: Refused, R: WasmModuleResources>(
    context: &OperatorContext<'_, '_, R>,
    catches: &[Catch],
) -> Result<(), A>
    requires { IsValidBody (R.context context.now.resources.now) context.now.stacks.now.body }
    ensures fits { OnOk result (are_fitting_catches (context_of R.context context.now)
        (heads context.now.stacks.now.body.present.frames) catches.now ≡ true) }
    ensures refused { OnErr result (are_fitting_catches (context_of R.context context.now)
        (heads context.now.stacks.now.body.present.frames) catches.now ≡ false) }
{
    for catch in catches {
        expect_clause(context, *catch)?;
    }
    Ok(())
}

/// `try_table`: takes the parameters of its block type, and opens a frame over them. The labels of its
/// clauses are counted outside that frame.
pub fn try_table<A: Refused, R: WasmModuleResources>(
    context: OperatorContext<'_, '_, R>,
    table: &TryTable<'_>,
) -> Result<(), A>
    requires { CanCheck R.context context }
    ensures { Checks R.context A.tells (λ cx. try_table_operator cx table.now) context.entry result context.exit }
{
    let block_type = check_block_type(&context, table.ty)?;
    let params = params(context.resources, &block_type);
    context.expect_operands(0, params)?;
    expect_clauses(&context, table.catches)?;
    let popped = params.len().min(context.stacks.own_operand_count());
    context
        .stacks
        .open(popped, FrameKind::TryTable, block_type, params)
}
