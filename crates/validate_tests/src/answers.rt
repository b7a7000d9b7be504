//! What operators answer, a line each, in each way in which a body is run. Want of memory is no answer: it ends a run, once
//! what it leaves was looked at.

ghost use Rattle.std.specs.Prelude.{◌≡◌, None};
ghost use Rattle.validate_stacks.specs.Pops.{IsKept};
ghost use Rattle.validate_stacks.specs.State.{IsStarting, IsValidBody};
ghost use Rattle.validate_stacks.specs.Visits.{MayVisit};
ghost use Rattle.wasmparser_validate.specs.Validator.{state, stacks_of};

use crate::expectations::{expect, expect_memory, expect_same, wants_memory};
use crate::snapshot::{Seen, Snapshot, add_seen, has_rising_heights};
use crate::visits::{Call, visit_by};
use crate::written::Written;
use std::process::Abort;
use wasmparser_validate::func::FuncValidator;
use wasmparser_validate::operators::{OperatorValidator, check_ops, try_and_undo, try_op};
use wasmparser_validate::resources::WasmModuleResources;
use wasmparser_validate::types::Error;
use wasmparser_validate::visit::{Op, is_well_ordered};

/// The offset of each operator that is visited by itself.
const OFFSET: u64 = 7;

/// How an operator of a body is run.
#[derive(Clone, Copy)]
pub enum Step {
    /// It is visited.
    Visit(Call),
    /// It is attempted, and kept where it is accepted.
    Attempt,
    /// The same by one call, behind an attempt that is taken back.
    Try,
}

/// Adds the line of an answer, with what it left.
pub fn add_answer<S: Seen>(text: &mut Written, answer: &Result<(), Error>, seen: &S) {
    text.add_words(answer);
    add_seen(text, seen);
}

/// Checks an operator, and adds the line of its answer. Whether it is accepted.
fn add_check<R: WasmModuleResources>(
    text: &mut Written,
    v: &mut OperatorValidator,
    lists: &R,
    op: &Op<'_>,
) -> bool
    requires { MayVisit (R.context lists.now) (stacks_of v.old) }
    ensures valid { IsValidBody (R.context lists.now) (state v.new) }
    ensures kept { IsKept (state v.old) (state v.new) }
{
    let answer = v.check(lists, OFFSET, *op);
    add_answer(text, &answer, v);
    answer.is_ok()
}

/// Attempts an operator, and takes it back: then all is as it was before. Adds what was there within the attempt, and
/// behind it.
fn add_undone<R: WasmModuleResources>(
    rt: &(impl Abort + AllocGlobal),
    text: &mut Written,
    v: &mut OperatorValidator,
    lists: &R,
    op: &Op<'_>,
)
    requires idle { (state v.old).undone ≡ None }
    requires visit { MayVisit (R.context lists.now) (stacks_of v.old) }
    ensures same { state v.new ≡ state v.old }
{
    let before = Snapshot::of(rt, v);
    v.begin_try_op();
    expect(rt, v.is_pending());
    expect(rt, v.can_attempt());
    add_check(text, v, lists, op);
    v.rollback();
    expect(rt, !v.is_pending());
    expect(rt, before.is_of(v));
    text.expect_memory(rt);
    add_seen(text, v);
}

/// Attempts an operator, and keeps it where it is accepted; else all is as it was before.
fn add_attempted<R: WasmModuleResources>(
    rt: &(impl Abort + AllocGlobal),
    text: &mut Written,
    v: &mut OperatorValidator,
    lists: &R,
    op: &Op<'_>,
)
    requires idle { (state v.old).undone ≡ None }
    requires visit { MayVisit (R.context lists.now) (stacks_of v.old) }
    ensures idle { (state v.new).undone ≡ None }
    ensures valid { IsValidBody (R.context lists.now) (state v.new) }
{
    let before = Snapshot::of(rt, v);
    v.begin_try_op();
    if add_check(text, v, lists, op) {
        v.commit();
    } else {
        v.rollback();
        expect(rt, before.is_of(v));
    }
    expect(rt, !v.is_pending());
}

/// Attempts an operator by one call, which takes it back: then all is as it was before. Whether it is accepted.
fn is_accepted_by_try<R: WasmModuleResources>(
    rt: &impl Abort,
    v: &mut OperatorValidator,
    lists: &R,
    op: &Op<'_>,
    before: &Snapshot,
) -> bool
    requires idle { (state v.old).undone ≡ None }
    requires visit { MayVisit (R.context lists.now) (stacks_of v.old) }
    ensures same { state v.new ≡ state v.old }
{
    let answer = try_and_undo(v, lists, OFFSET, *op);
    expect(rt, before.is_of(v));
    expect_memory(rt, wants_memory(&answer));
    answer.is_ok()
}

/// Attempts an operator by one call, which keeps it where it is accepted. Else all is as it was before. Whether it is
/// accepted.
fn add_tried<R: WasmModuleResources>(
    rt: &impl Abort,
    text: &mut Written,
    v: &mut OperatorValidator,
    lists: &R,
    op: &Op<'_>,
    before: &Snapshot,
) -> bool
    requires idle { (state v.old).undone ≡ None }
    requires visit { MayVisit (R.context lists.now) (stacks_of v.old) }
    ensures idle { (state v.new).undone ≡ None }
    ensures valid { IsValidBody (R.context lists.now) (state v.new) }
{
    let answer = try_op(v, lists, OFFSET, *op);
    expect(rt, answer.is_ok() || before.is_of(v));
    expect_memory(rt, wants_memory(&answer));
    match &answer {
        Ok(()) => add_seen(text, v),
        Err(refusal) => text.add_refusal(refusal, "\n"),
    }
    answer.is_ok()
}

/// Attempts an operator twice by one call: it is taken back, and then kept where it is accepted.
fn add_tries<R: WasmModuleResources>(
    rt: &(impl Abort + AllocGlobal),
    text: &mut Written,
    v: &mut OperatorValidator,
    lists: &R,
    op: &Op<'_>,
)
    requires idle { (state v.old).undone ≡ None }
    requires visit { MayVisit (R.context lists.now) (stacks_of v.old) }
    ensures idle { (state v.new).undone ≡ None }
    ensures valid { IsValidBody (R.context lists.now) (state v.new) }
{
    let before = Snapshot::of(rt, v);
    let is_accepted = is_accepted_by_try(rt, v, lists, op, &before);
    expect(
        rt,
        add_tried(rt, text, v, lists, op, &before) == is_accepted,
    );
}

/// Visits an operator.
fn add_visited<R: WasmModuleResources>(
    rt: &impl Abort,
    text: &mut Written,
    v: &mut OperatorValidator,
    lists: &R,
    op: &Op<'_>,
    call: Call,
)
    requires idle { (state v.old).undone ≡ None }
    requires visit { MayVisit (R.context lists.now) (stacks_of v.old) }
    ensures idle { (state v.new).undone ≡ None }
    ensures valid { IsValidBody (R.context lists.now) (state v.new) }
{
    let answer = visit_by(v, lists, op, call);
    expect(rt, has_rising_heights(v));
    add_answer(text, &answer, v);
}

/// Adds what an operator answers that is run so, or is attempted and taken back.
fn add_step<R: WasmModuleResources>(
    rt: &(impl Abort + AllocGlobal),
    text: &mut Written,
    v: &mut OperatorValidator,
    lists: &R,
    op: &Op<'_>,
    is_undone: bool,
    step: Step,
)
    requires idle { (state v.old).undone ≡ None }
    requires visit { MayVisit (R.context lists.now) (stacks_of v.old) }
    ensures idle { (state v.new).undone ≡ None }
    ensures valid { IsValidBody (R.context lists.now) (state v.new) }
{
    if is_undone {
        add_undone(rt, text, v, lists, op);
    } else {
        match step {
            Step::Visit(call) => add_visited(rt, text, v, lists, op, call),
            Step::Attempt => add_attempted(rt, text, v, lists, op),
            Step::Try => add_tries(rt, text, v, lists, op),
        }
    }
    text.expect_memory(rt);
}

/// Adds what the operators of these lines answer, one by one, up to the end of the body. One whose line begins with `try`
/// is attempted and taken back.
pub fn add_each<R: WasmModuleResources>(
    rt: &(impl Abort + AllocGlobal),
    text: &mut Written,
    v: &mut OperatorValidator,
    lists: &R,
    body: (&str, &[(Op<'_>, u64)]),
    step: Step,
)
    requires { IsStarting (R.context lists.now) (state v.old) }
{
    let (mut left, ops) = body;
    for pair in ops {
        if v.control_stack_height() == 0 {
            return;
        }
        let (line, behind) = left.split_once('\n').unwrap_or((left, ""));
        left = behind;
        let is_undone = line.starts_with("try ");
        add_step(rt, text, v, lists, &pair.0, is_undone, step);
    }
}

/// Adds the line of each operator that was accepted.
fn add_heights(text: &mut Written, heights: &[(usize, usize)]) {
    for (operands, frames) in heights {
        text.add(format_args!("{operands} {frames}\n"));
    }
}

/// Adds what the check of a list answered. Of the operators before a refused one, or one for which there was no memory,
/// all are accepted.
fn add_checked<S: Seen>(
    rt: &impl Abort,
    text: &mut Written,
    heights: &[(usize, usize)],
    answer: Result<bool, (usize, Error)>,
    seen: &S,
) {
    match answer {
        Ok(is_closed) => {
            let (_, frames) = seen.heights();
            expect(rt, is_closed == (frames == 0));
            add_heights(text, heights);
        }
        Err((place, refusal)) => {
            expect_same(rt, place, heights.len());
            expect_memory(rt, refusal.is_out_of_memory());
            add_heights(text, heights);
            text.add_refusal(&refusal, "; ");
            add_seen(text, seen);
        }
    }
    text.expect_memory(rt);
}

/// Adds what the operators answer as one list.
pub fn add_list<R: WasmModuleResources>(
    rt: &(impl Abort + AllocGlobal),
    text: &mut Written,
    v: &mut OperatorValidator,
    lists: &R,
    ops: &[(Op<'_>, u64)],
)
    requires { IsStarting (R.context lists.now) (state v.old) }
{
    if is_well_ordered(ops) {
        let mut heights = Vec::new(rt.alloc());
        let answer = check_ops(v, ops, lists, &mut heights);
        expect(rt, has_rising_heights(v));
        add_checked(rt, text, &heights, answer, v);
    }
}

/// Checks an operator of a function in which a frame is open.
pub fn check_in<'a, R: WasmModuleResources>(
    rt: &impl Abort,
    function: &mut FuncValidator<'a, '_, R>,
    (op, offset): (&Op<'a>, u64),
    is_attempted: bool,
) -> Result<(), Error> {
    expect(rt, function.control_stack_height() > 0);
    if is_attempted {
        function.try_op(offset, *op)
    } else {
        function.op(offset, *op)
    }
}

/// Adds what an operator of a function answers. One that is refused makes the function fail, unless it is attempted: then
/// all is as it was before.
fn add_op<'a, R: WasmModuleResources>(
    rt: &(impl Abort + AllocGlobal),
    text: &mut Written,
    function: &mut FuncValidator<'a, '_, R>,
    pair: &(Op<'a>, u64),
    is_attempted: bool,
) {
    let before = Snapshot::of(rt, function);
    let answer = check_in(rt, function, (&pair.0, pair.1), is_attempted);
    expect(rt, has_rising_heights(function));
    if is_attempted {
        expect(rt, !function.is_failed());
        expect(rt, answer.is_ok() || before.is_of(function));
    } else {
        expect(rt, function.is_failed() == answer.is_err());
    }
    if let Err(refusal) = &answer {
        text.add_refusal(refusal, if is_attempted { "\n" } else { "; " });
    }
    if answer.is_ok() || !is_attempted {
        add_seen(text, function);
    }
}

/// Adds what the operators answer in a function, each visited or each attempted.
pub fn add_each_in<'a, R: WasmModuleResources>(
    rt: &(impl Abort + AllocGlobal),
    text: &mut Written,
    function: &mut FuncValidator<'a, '_, R>,
    ops: &[(Op<'a>, u64)],
    are_attempted: bool,
) {
    for pair in ops {
        if function.control_stack_height() == 0 {
            return;
        }
        add_op(rt, text, function, pair, are_attempted);
        text.expect_memory(rt);
    }
}
