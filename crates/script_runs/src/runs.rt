//! Runs of a script, and what they are to come to.

use crate::bodies::{Lookup, Task, run_body};
use crate::tally::Tally;
use opcheck_script::run;
use std::alloc::{AllocError, Global};

/// What a script comes to.
#[derive(Clone, Copy)]
pub struct Output<'a> {
    /// What it prints.
    pub out: &'a str,
    /// What it says on the error output.
    pub err: &'a str,
    pub status: u8,
}

/// What is done with each script.
#[derive(Clone, Copy)]
pub enum Way {
    /// It is run as one list, and operator by operator by attempts, behind a refused one of which all is as it was
    /// before.
    Checked,
    /// It is run as one list.
    Once,
    /// What it comes to over a lookup in which two indices name each type is printed.
    Paired,
    /// What it comes to is printed.
    Shown,
    /// The types of the operands that `operands_before` answers at each place are printed.
    Places,
}

/// Compares both outputs and the status.
fn compare_outputs(
    tally: &mut Tally,
    script: &str,
    (printed, said, status): (&[u8], &[u8], u8),
    expected: Output<'_>,
) -> Result<(), AllocError> {
    tally.compare_output(script, "prints", printed, expected.out)?;
    tally.compare_output(script, "says", said, expected.err)?;
    tally.compare_number(
        script,
        "ends with",
        status as usize,
        expected.status as usize,
    )
}

/// Runs a script, and compares both outputs and the status.
fn compare_run(
    alloc: Global,
    tally: &mut Tally,
    script: &str,
    expected: Output<'_>,
) -> Result<(), AllocError> {
    let mut printed = Vec::new(alloc);
    let mut said = Vec::new(alloc);
    let status = run(alloc, script.as_bytes(), &mut printed, &mut said);
    compare_outputs(tally, script, (&printed, &said, status), expected)
}

/// Runs a script.
pub fn run_script(
    alloc: Global,
    tally: &mut Tally,
    script: &str,
    expected: Output<'_>,
) -> Result<(), AllocError> {
    tally.count();
    match tally.way {
        Way::Once => compare_run(alloc, tally, script, expected),
        Way::Checked => {
            compare_run(alloc, tally, script, expected)?;
            run_body(alloc, tally, script, Lookup::Own, Task::Attempts)
        }
        Way::Paired => run_body(alloc, tally, script, Lookup::Paired, Task::Printed),
        Way::Shown => run_body(alloc, tally, script, Lookup::Own, Task::Printed),
        Way::Places => run_body(alloc, tally, script, Lookup::Own, Task::Places),
    }
}
