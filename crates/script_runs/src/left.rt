//! What lists of operators leave.

ghost use Rattle.std.specs.Prelude.{◌≡◌, true, []};
ghost use Rattle.validate_operators.specs.Runs.{without_offsets};
ghost use Rattle.validate_operators.specs.Validator.{state};
ghost use Rattle.validate_stacks.specs.State.{IsStarting};
ghost use Rattle.validate_visit.specs.Order.{is_well_ordered_list};

use crate::bodies::{Lookup, Task, run_body};
use crate::snapshot::add_operand_types;
use crate::tally::Tally;
use crate::transcript::parts_of;
use std::alloc::{AllocError, Global};
use validate_operators::{OperatorValidator, check_ops};
use validate_resources::WasmModuleResources;
use validate_types::Error;
use validate_visit::{Op, is_well_ordered};

/// What a list of operators comes to.
#[derive(Clone, Copy)]
pub struct Left<'a> {
    /// Whether its last operator is refused, and none before it.
    pub is_refused: bool,
    /// The words of the refusal, where they are looked at.
    pub text: Option<&'a str>,
    /// The types of the operands that are left, the last on top.
    pub operands: &'a str,
}

/// Compares the place of a refusal, and its words where they are looked at.
fn compare_refusal(
    tally: &mut Tally,
    script: &str,
    (place, expected): (usize, usize),
    (found, text): (&str, Option<&str>),
) -> Result<(), AllocError> {
    tally.compare_number(script, "accepts", place, expected)?;
    match text {
        Some(text) => tally.compare(script, "is refused", found, text),
        None => Ok(()),
    }
}

/// Compares what the check of so many operators answers.
fn compare_answer(
    tally: &mut Tally,
    script: &str,
    answer: Result<bool, (usize, Error)>,
    count: usize,
    left: Left<'_>,
) -> Result<(), AllocError> {
    let expected = if left.is_refused {
        count.saturating_sub(1)
    } else {
        count
    };
    match answer {
        Ok(_) => tally.compare_number(script, "accepts", count, expected),
        Err((place, refusal)) => {
            compare_refusal(
                tally,
                script,
                (place, expected),
                (refusal.message(), left.text),
            )
        }
    }
}

/// Checks operators as one list.
fn answer_of<R: WasmModuleResources>(
    alloc: Global,
    v: &mut OperatorValidator,
    ops: &[(Op<'_>, u64)],
    resources: &R,
) -> Result<bool, (usize, Error)>
    requires starting { IsStarting (R.context resources.now) (state v.old) }
    requires ordered { is_well_ordered_list (without_offsets ops.now) ≡ true }
{
    let mut heights = Vec::new(alloc);
    check_ops(v, ops, resources, &mut heights)
}

/// Compares the types of the operands that are left.
fn compare_operands(
    alloc: Global,
    tally: &mut Tally,
    v: &OperatorValidator,
    script: &str,
    expected: &str,
) -> Result<(), AllocError> {
    let mut operands = String::new(alloc);
    add_operand_types(&mut operands, v)?;
    tally.compare(script, "leaves", operands.trim(), expected)
}

/// Checks the operators of a script as one list, and compares what it answers and leaves.
pub fn check_list<R: WasmModuleResources>(
    alloc: Global,
    tally: &mut Tally,
    v: &mut OperatorValidator,
    ops: &[(Op<'_>, u64)],
    resources: &R,
    script: &str,
    left: Left<'_>,
) -> Result<(), AllocError>
    requires { IsStarting (R.context resources.now) (state v.old) }
{
    if !is_well_ordered(ops) {
        return tally.refuse(script, "is out of order");
    }
    let answer = answer_of(alloc, v, ops, resources);
    compare_answer(tally, script, answer, ops.len(), left)?;
    compare_operands(alloc, tally, v, script, left.operands)
}

/// Adds the line of an operator to a script.
fn add_operator(script: &mut String, operator: &str) -> Result<(), AllocError> {
    script.push_str(operator)?;
    script.push_str("\n")
}

/// The script of these operators, parted by commas, behind these first lines.
fn script_of(alloc: Global, head: &str, operators: &str) -> Result<String, AllocError> {
    let mut script = head.to_string(alloc)?;
    for operator in operators.split(',') {
        add_operator(&mut script, operator.trim())?;
    }
    Ok(script)
}

/// Runs the operators of a line as one list, and by attempts.
fn run_list(
    alloc: Global,
    tally: &mut Tally,
    head: &str,
    operators: &str,
    left: Left<'_>,
) -> Result<(), AllocError> {
    let script = script_of(alloc, head, operators)?;
    run_body(alloc, tally, &script, Lookup::Own, Task::List(left))?;
    run_body(alloc, tally, &script, Lookup::Own, Task::Attempts)
}

/// What a line has behind its arrow: the types of operands, and perhaps a bar and the words of a refusal.
fn left_of(answer: &str, is_refused: bool) -> Left<'_> {
    let (operands, text) = match answer.split_once('|') {
        Some((operands, text)) => (operands, Some(text.trim())),
        None => (answer, None),
    };
    Left {
        is_refused,
        text,
        operands: operands.trim(),
    }
}

/// Runs the operators of a line behind these first lines.
fn run_line(
    alloc: Global,
    tally: &mut Tally,
    head: &str,
    line: &str,
    is_refused: bool,
) -> Result<(), AllocError> {
    tally.count();
    let (operators, answer) = parts_of(line);
    run_list(alloc, tally, head, operators, left_of(answer, is_refused))
}

/// Runs the operators of each line, parted by commas, behind these first lines. Of a refused line the last operator
/// is refused, and no other is. Behind the arrow stand the types of the operands that are left, the last on top,
/// `?` being one whose type isn't known; behind a bar perhaps the words of the refusal.
pub fn run_left(
    alloc: Global,
    tally: &mut Tally,
    head: &str,
    (lines, is_refused): (&str, bool),
) -> Result<(), AllocError> {
    for line in lines.lines() {
        if !line.is_empty() {
            run_line(alloc, tally, head, line, is_refused)?;
        }
    }
    Ok(())
}
