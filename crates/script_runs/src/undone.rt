//! Operators that are attempted, and taken back.

ghost use Rattle.std.specs.Prelude.{◌≡◌, None};
ghost use Rattle.validate_operators.specs.Validator.{state, stacks_of};
ghost use Rattle.validate_stacks.specs.State.{IsStarting, IsValidBody};
ghost use Rattle.validate_stacks.specs.Visits.{MayVisit};

use crate::bodies::{Lookup, Task, run_body};
use crate::snapshot::{Snapshot, add_operand_types, innermost};
use crate::tally::Tally;
use crate::transcript::parts_of;
use script_reader::{LineError, read_operator};
use std::alloc::{AllocError, Global};
use validate_operators::OperatorValidator;
use validate_resources::WasmModuleResources;
use validate_types::Error;
use validate_visit::Op;

/// The offset of each operator, of which a line says nothing.
const OFFSET: u64 = 0;

/// Adds what a visit answered to a text: how many operands and frames it left, or the words of its refusal.
fn add_answer(
    text: &mut String,
    v: &OperatorValidator,
    answer: Result<(), Error>,
) -> Result<(), AllocError> {
    match answer {
        Ok(()) => {
            let operands = v.operand_stack_height();
            write!(text, "{operands} {}", v.control_stack_height())
        }
        Err(refusal) => text.push_str(refusal.message()),
    }
}

/// Adds what a visit answered, and the innermost frame and the operands behind it.
fn add_answer_and_state(
    text: &mut String,
    v: &OperatorValidator,
    answer: Result<(), Error>,
) -> Result<(), AllocError> {
    add_answer(text, v, answer)?;
    let (mark, frame) = innermost(v);
    write!(text, " => {mark}{frame}:")?;
    add_operand_types(text, v)
}

/// One visit.
fn visit<R: WasmModuleResources>(
    v: &mut OperatorValidator,
    resources: &R,
    op: Op<'_>,
) -> Result<(), Error>
    requires idle { (state v.old).undone ≡ None }
    requires visit { MayVisit (R.context resources.now) (stacks_of v.old) }
    ensures idle { (state v.new).undone ≡ None }
    ensures valid { IsValidBody (R.context resources.now) (state v.new) }
{
    v.check(resources, OFFSET, op)
}

/// Attempts an operator, and takes it back. Adds what was found within the attempt to a text.
fn undo<R: WasmModuleResources>(
    text: &mut String,
    v: &mut OperatorValidator,
    resources: &R,
    op: Op<'_>,
) -> Result<(), AllocError>
    requires idle { (state v.old).undone ≡ None }
    requires visit { MayVisit (R.context resources.now) (stacks_of v.old) }
    ensures same { state v.new ≡ state v.old }
{
    v.begin_try_op();
    let answer = v.check(resources, OFFSET, op);
    let added = add_answer_and_state(text, v, answer);
    v.rollback();
    added
}

/// Attempts an operator, takes it back, and compares what was found within the attempt.
fn compare_within<R: WasmModuleResources>(
    alloc: Global,
    tally: &mut Tally,
    v: &mut OperatorValidator,
    op: Op<'_>,
    resources: &R,
    line: &str,
) -> Result<(), AllocError>
    requires idle { (state v.old).undone ≡ None }
    requires visit { MayVisit (R.context resources.now) (stacks_of v.old) }
    ensures same { state v.new ≡ state v.old }
{
    let mut found = String::new(alloc);
    undo(&mut found, v, resources, op)?;
    let (_, expected) = parts_of(line);
    tally.compare(line, "comes within the attempt to", &found, expected)
}

/// Writes it down where something else is found than before an attempt, or one is pending.
pub fn compare_behind(
    alloc: Global,
    tally: &mut Tally,
    v: &OperatorValidator,
    before: &Snapshot,
    line: &str,
) -> Result<(), AllocError> {
    if Snapshot::of(alloc, v)? != *before || v.is_pending() || !v.can_attempt() {
        return tally.refuse(line, "leaves a trace");
    }
    Ok(())
}

/// Attempts an operator, takes it back, and compares what was found within the attempt and what is there behind it.
fn compare_undone<R: WasmModuleResources>(
    alloc: Global,
    tally: &mut Tally,
    v: &mut OperatorValidator,
    op: Op<'_>,
    resources: &R,
    line: &str,
) -> Result<(), AllocError>
    requires idle { (state v.old).undone ≡ None }
    requires visit { MayVisit (R.context resources.now) (stacks_of v.old) }
    ensures same { state v.new ≡ state v.old }
{
    let before = Snapshot::of(alloc, v)?;
    compare_within(alloc, tally, v, op, resources, line)?;
    compare_behind(alloc, tally, v, &before, line)
}

/// Visits an operator, and compares what it answers.
fn compare_visit<R: WasmModuleResources>(
    alloc: Global,
    tally: &mut Tally,
    v: &mut OperatorValidator,
    op: Op<'_>,
    resources: &R,
    line: &str,
) -> Result<(), AllocError>
    requires idle { (state v.old).undone ≡ None }
    requires visit { MayVisit (R.context resources.now) (stacks_of v.old) }
    ensures idle { (state v.new).undone ≡ None }
    ensures valid { IsValidBody (R.context resources.now) (state v.new) }
{
    let answer = visit(v, resources, op);
    let mut said = String::new(alloc);
    add_answer(&mut said, v, answer)?;
    let (_, expected) = parts_of(line);
    tally.compare(line, "comes to", &said, expected)
}

/// Visits the operator of a line, or attempts it and takes it back.
fn run_op<R: WasmModuleResources>(
    alloc: Global,
    tally: &mut Tally,
    v: &mut OperatorValidator,
    op: Op<'_>,
    resources: &R,
    line: &str,
) -> Result<(), AllocError>
    requires idle { (state v.old).undone ≡ None }
    requires valid { IsValidBody (R.context resources.now) (state v.old) }
    ensures idle { (state v.new).undone ≡ None }
    ensures valid { IsValidBody (R.context resources.now) (state v.new) }
{
    if v.control_stack_height() == 0 {
        return tally.refuse(line, "stands behind a closed body");
    }
    if line.starts_with("try ") {
        compare_undone(alloc, tally, v, op, resources, line)
    } else {
        compare_visit(alloc, tally, v, op, resources, line)
    }
}

/// The words of an operator.
fn words_of(alloc: Global, operator: &str) -> Result<Vec<&str>, AllocError> {
    operator.split_whitespace().collect(alloc)
}

/// Reads the operator of a line, and runs it.
fn run_line<R: WasmModuleResources>(
    alloc: Global,
    tally: &mut Tally,
    v: &mut OperatorValidator,
    resources: &R,
    line: &str,
) -> Result<(), AllocError>
    requires idle { (state v.old).undone ≡ None }
    requires valid { IsValidBody (R.context resources.now) (state v.old) }
    ensures idle { (state v.new).undone ≡ None }
    ensures valid { IsValidBody (R.context resources.now) (state v.new) }
{
    let (written, _) = parts_of(line);
    let operator = written.strip_prefix("try ").unwrap_or(written);
    let words = words_of(alloc, operator)?;
    let mut list = None;
    match read_operator(alloc, &mut list, &words) {
        Ok(op) => run_op(alloc, tally, v, op, resources, line),
        Err(LineError::Bad) => tally.refuse(line, "has no operator"),
        Err(LineError::OutOfMemory) => Err(AllocError),
    }
}

/// Visits, or attempts and takes back, the operators of these lines in turn. Blank lines stand for nothing.
///
/// A line is an operator, an arrow and the answer: how many operands and frames there are behind it, or the
/// words of its refusal. Where a `try` stands before the operator it is attempted and taken back, and behind
/// a second arrow stand the innermost frame and the operands within the attempt, the top last.
pub fn run_lines<R: WasmModuleResources>(
    alloc: Global,
    tally: &mut Tally,
    v: &mut OperatorValidator,
    resources: &R,
    lines: &str,
) -> Result<(), AllocError>
    requires { IsStarting (R.context resources.now) (state v.old) }
{
    for line in lines.lines() {
        if !line.is_empty() {
            run_line(alloc, tally, v, resources, line)?;
        }
    }
    Ok(())
}

/// Runs such lines behind these first ones, over this lookup.
pub fn run_undone(
    alloc: Global,
    tally: &mut Tally,
    head: &str,
    lines: &str,
    lookup: Lookup,
) -> Result<(), AllocError> {
    tally.count();
    run_body(alloc, tally, head, lookup, Task::Lines(lines))
}
