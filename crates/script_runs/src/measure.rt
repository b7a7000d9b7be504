//! How long the validator takes for the body of a script, in the process.
//!
//! The body is checked many times: by `check_ops`, which notes the heights, and by single visits, those of `try` lines
//! attempted. Of each way the best time is printed, in nanoseconds an operator, and how many operators there are.

use crate::choice::Choice;
use crate::timing::{Checker, best_time};
use crate::unmeasured::Unmeasured;
use opcheck_script::module_lists;
use script_reader::{BodyLine, Operators, Script, read_script};
use std::io;
use validate_resources::WasmModuleResources;
use validate_types::WasmFeatures;
use validate_visit::LocalGroup;

/// Prints the line of one way.
fn report(
    rt: &HostRuntime,
    choice: Choice,
    checker: Checker,
    best: u128,
    count: usize,
) -> Result<(), Unmeasured> {
    let name = checker.name();
    if choice.untimed || count == 0 {
        return println!(rt; "{name}: {count} operators").map_err(|_| Unmeasured::Host);
    }
    let hundredths = best.saturating_mul(100) / count as u128;
    let whole = hundredths / 100;
    let rest = hundredths % 100;
    println!(rt; "{name}: {whole}.{rest:02} ns, {count} operators").map_err(|_| Unmeasured::Host)
}

/// Measures each way that a body is checked.
fn measure_each<R: WasmModuleResources>(
    rt: &HostRuntime,
    choice: Choice,
    resources: &R,
    features: &WasmFeatures,
    begin: (BodyLine, &[LocalGroup]),
    operators: &Operators<'_>,
) -> Result<(), Unmeasured> {
    for checker in [Checker::CheckOps, Checker::visits(&operators.attempts)] {
        let runs = (checker, choice.runs);
        let best = best_time(rt, runs, resources, features, begin, operators)?;
        report(rt, choice, checker, best, operators.ops.len())?;
    }
    Ok(())
}

/// The same of a script that was read.
fn measure_read(rt: &HostRuntime, choice: Choice, script: Script<'_>) -> Result<(), Unmeasured> {
    let Script {
        features,
        shows: _,
        declarations,
        body,
        locals,
        operators,
    } = script;
    match module_lists(rt.alloc(), declarations) {
        Ok(lists) => measure_each(rt, choice, &lists, &features, (body, &locals), &operators),
        Err(_) => Err(Unmeasured::Script),
    }
}

/// The same of the script that a text is.
fn measure_text(rt: &HostRuntime, choice: Choice, text: &str) -> Result<(), Unmeasured> {
    let mut listed = Vec::new(rt.alloc());
    match read_script(rt.alloc(), &mut listed, text) {
        Ok(script) => measure_read(rt, choice, script),
        Err(_) => Err(Unmeasured::Script),
    }
}

/// The same of the script that is the input.
pub fn measure_input(rt: &HostRuntime, choice: Choice) -> Result<(), Unmeasured> {
    let text = io::read_to_string(rt.alloc(), rt.stdin()).map_err(|_| Unmeasured::Script)?;
    measure_text(rt, choice, &text)
}
