//! What the program prints of a body, over any lookup.

ghost use Rattle.std.specs.Prelude.{◌≡◌, true, IfOk};
ghost use Rattle.validate_operators.specs.Runs.{without_offsets};
ghost use Rattle.validate_operators.specs.Validator.{state};
ghost use Rattle.validate_stacks.specs.State.{IsStarting};
ghost use Rattle.validate_visit.specs.Order.{is_well_ordered_list};

use crate::tally::Tally;
use opcheck_script::{Answers, print_report, run_operators};
use script_reader::{BodyLine, Operators};
use std::alloc::{AllocError, Global};
use validate_operators::{OperatorValidator, begin_body};
use validate_resources::WasmModuleResources;
use validate_stacks::OperatorValidatorAllocations;
use validate_types::{Error, WasmFeatures};
use validate_visit::{LocalGroup, is_well_ordered};

/// Prints what the program prints of a body whose check came to this.
fn add_report(
    alloc: Global,
    tally: &mut Tally,
    check: &opcheck_script::Report,
) -> Result<(), AllocError> {
    let mut printed = Vec::new(alloc);
    match print_report(&mut printed, check) {
        Ok(_) => tally.add_printed(&printed),
        Err(_) => Err(AllocError),
    }
}

/// The same of a body that is refused before its operators.
fn add_refused(alloc: Global, tally: &mut Tally, refusal: Error) -> Result<(), AllocError> {
    let check = opcheck_script::Report {
        answers: Answers::Heights(Vec::new(alloc)),
        outcome: Err(refusal),
    };
    add_report(alloc, tally, &check)
}

/// Runs the operators of a body that has begun, and prints what the program prints.
fn add_run<R: WasmModuleResources>(
    alloc: Global,
    tally: &mut Tally,
    v: OperatorValidator,
    operators: &Operators<'_>,
    shows: bool,
    resources: &R,
) -> Result<(), AllocError>
    requires starting { IsStarting (R.context resources.now) (state v) }
    requires ordered { is_well_ordered_list (without_offsets operators.now.ops.items) ≡ true }
{
    let (ops, attempts) = (operators.ops.as_slice(), operators.attempts.as_slice());
    let check = run_operators(alloc, v, ops, attempts, shows, resources);
    add_report(alloc, tally, &check)
}

/// A validator of the body that the line begins, with these locals.
pub fn begun<R: WasmModuleResources>(
    alloc: Global,
    resources: &R,
    features: &WasmFeatures,
    begin: (BodyLine, &[LocalGroup]),
) -> Result<OperatorValidator, Error>
    ensures { IfOk result (λ v. IsStarting (R.context resources.now) (state v)) }
{
    let (line, locals) = begin;
    let allocs = OperatorValidatorAllocations::new(alloc);
    begin_body(resources, features, line.kind, line.offset, locals, allocs)
}

/// Runs the operators of a script as the program does, and prints what it prints.
pub fn add_printed<R: WasmModuleResources>(
    alloc: Global,
    tally: &mut Tally,
    resources: &R,
    features: &WasmFeatures,
    begin: (BodyLine, &[LocalGroup]),
    operators: &Operators<'_>,
    (script, shows): (&str, bool),
) -> Result<(), AllocError> {
    let ops = operators.ops.as_slice();
    if !is_well_ordered(ops) {
        return tally.refuse(script, "is out of order");
    }
    match begun(alloc, resources, features, begin) {
        Ok(v) => add_run(alloc, tally, v, operators, shows, resources),
        Err(refusal) => add_refused(alloc, tally, refusal),
    }
}
