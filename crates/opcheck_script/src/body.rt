//! Running the operators of a body.

ghost use Rattle.std.specs.Prelude.{◌≡◌, ◌≢◌, ◌<◌, ◌||◌, true, false, [], Ok, Err, Some, IfOk, IfErr, OnOk, OnErr, length, slice_get};
ghost use Rattle.std.specs.List.{list_any};
ghost use Rattle.validate_visit.specs.Order.{is_well_ordered_list};
ghost use Rattle.validate_stacks.specs.State.{IsStarting, body_context};
ghost use Rattle.validate_operators.specs.Runs.{without_offsets, IsSafe};
ghost use Rattle.validate_operators.specs.Validator.{state};
ghost use Rattle.wasmparser_validate.specs.Functions.{function_from, Accepts, Refuses};
ghost use Rattle.opcheck_script.specs.Attempts.{IsThere, IsAnswer, EndsRun, RunsEach, accepted_of, accepted_at};
ghost use Rattle.script_reader.specs.Written.{may_all_be_attempted};
ghost use Rattle.opcheck_script.specs.Reports.{Runs, accepted_in, is_attempted};

use crate::report::{After, Answers, Report};
use std::alloc::Global;
use validate_operators::{OperatorValidator, check_ops};
use validate_resources::WasmModuleResources;
use validate_types::{Error, OutOfMemory};
use validate_visit::Op;
use wasmparser_validate::func::FuncValidator;

/// What is answered at an operator: what is there after it, or the refusal of an attempt.
type Answer = Result<After, Error>;

/// Runs the operators of a body: by one check of the whole list, or, where a `try` line is among them or the
/// script shows the types of operands, one by one.
pub fn run_operators<R: WasmModuleResources>(
    alloc: Global,
    v: OperatorValidator,
    ops: &[(Op<'_>, u64)],
    attempts: &[bool],
    shows: bool,
    resources: &R,
) -> Report
    requires starting { IsStarting (R.context resources.now) (state v) }
    requires ordered { is_well_ordered_list (without_offsets ops.now) ≡ true }
    requires each { length attempts.now ≡ length ops.now }
    requires allowed { may_all_be_attempted ops.now attempts.now ≡ true }
    ensures runs { Runs (R.context resources.now) (state v) shows (record {
      ops = ops.now;
      attempts =
          attempts.now;
    }) result.answers result.outcome }
    ensures safe { result.outcome ≡ Ok true
        → IsSafe (R.context resources.now) (state v) (accepted_in ops.now result.answers) }
{
    if shows || has_attempts(attempts) {
        return run_each(alloc, v, ops, attempts, shows, resources);
    }
    let mut v = v;
    let mut heights = Vec::new(alloc);
    let outcome = match check_ops(&mut v, ops, resources, &mut heights) {
        Ok(closed) => Ok(closed),
        Err((_, refusal)) => Err(refusal),
    };
    Report {
        answers: Answers::Heights(heights),
        outcome,
    }
}

/// Whether one of the operators is attempted.
fn has_attempts(attempts: &[bool]) -> bool
    ensures { result ≡ list_any is_attempted attempts.now }
{
    attempts.iter().any(|attempted| *attempted)
}

/// Runs the operators one by one.
fn run_each<R: WasmModuleResources>(
    alloc: Global,
    v: OperatorValidator,
    ops: &[(Op<'_>, u64)],
    attempts: &[bool],
    shows: bool,
    resources: &R,
) -> Report
    requires starting { IsStarting (R.context resources.now) (state v) }
    requires ordered { is_well_ordered_list (without_offsets ops.now) ≡ true }
    requires each { length attempts.now ≡ length ops.now }
    requires allowed { may_all_be_attempted ops.now attempts.now ≡ true }
    requires one_by_one { shows || list_any is_attempted attempts.now ≡ true }
    ensures runs { Runs (R.context resources.now) (state v) shows (record {
      ops = ops.now;
      attempts =
          attempts.now;
    }) result.answers result.outcome }
    ensures safe { result.outcome ≡ Ok true
        → IsSafe (R.context resources.now) (state v) (accepted_in ops.now result.answers) }
{
    let mut function = FuncValidator::new(alloc, v, resources);
    let mut answers = Vec::new(alloc);
    let outcome = answer_each(&mut function, ops, attempts, shows, &mut answers);
    Report {
        answers: Answers::Each(answers),
        outcome,
    }
}

/// Visits the operators one by one, or attempts those of `try` lines, and notes the answers. It answers
/// whether the outermost frame is closed at the end, or the refusal that ends the run.
fn answer_each<'a, R: WasmModuleResources>(
    function: &mut FuncValidator<'a, '_, R>,
    ops: &[(Op<'a>, u64)],
    attempts: &[bool],
    shows: bool,
    answers: &mut Vec<Answer>,
) -> Result<bool, Error>
    requires first { function.old ≡ function_from function.old.resources function.old.starting }
    requires starting { IsStarting (R.context function.old.resources) function.old.starting }
    requires ordered { is_well_ordered_list (without_offsets ops.now) ≡ true }
    requires each { length attempts.now ≡ length ops.now }
    requires allowed { may_all_be_attempted ops.now attempts.now ≡ true }
    requires empty { answers.old.items ≡ [] }
    ensures runs { RunsEach (R.context function.old.resources) function.old.starting shows (record {
      ops = ops.now;
      attempts =
          attempts.now;
    }) answers.new.items result }
    ensures safe { result ≡ Ok true → IsSafe (R.context function.old.resources) function.old.starting
        (accepted_of ops.now answers.new.items) }
{
    for (index, pair) in ops.iter().enumerate() {
        let (op, offset) = *pair;
        let attempted = is_attempted_at(attempts, index);
        if answers.reserve(1).is_err() {
            return Err(Error::out_of_memory(offset));
        }
        match answer_at(function, offset, op, attempted, shows) {
            Ok(answer) => answers.push_reserved(answer),
            Err(refusal) => return Err(refusal),
        }
    }
    Ok(function.finish(0).is_ok())
}

/// Whether the operator at this place is attempted.
fn is_attempted_at(attempts: &[bool], index: usize) -> bool
    requires { index < length attempts.now }
    ensures { slice_get attempts.now index ≡ Some result }
{
    attempts[index]
}

/// The answer at one operator, or the refusal that ends the run: of a plain operator, or for want of
/// memory.
fn answer_at<'a, R: WasmModuleResources>(
    function: &mut FuncValidator<'a, '_, R>,
    offset: u64,
    op: Op<'a>,
    attempted: bool,
    shows: bool,
) -> Result<Answer, Error>
    requires none_failed { function.old.failed ≡ false }
    requires open_frame { function.old.present.frames ≢ [] }
    ensures answered { IfOk result (λ answer. IsAnswer
        (body_context (R.context function.old.resources) function.old.starting) shows (op.entry, offset)
        attempted answer function.old.present function.new.present) }
    ensures kept { IfOk result (λ answer. function.new ≡ record function.old {
      accepted = accepted_at (op.entry, offset) answer function.old.accepted;
      present = function.new.present;
    }) }
    ensures ended { IfErr result (λ refusal. EndsRun
        (body_context (R.context function.old.resources) function.old.starting) (op.entry, offset)
        attempted refusal function.old.present) }
{
    match visit_or_try(function, offset, op, attempted) {
        Ok(()) => match what_is_there(function, shows) {
            Ok(after) => Ok(Ok(after)),
            Err(_) => Err(Error::out_of_memory(offset)),
        },
        Err(refusal) => after_refusal(attempted, refusal),
    }
}

/// What is there now, with the types of the operands where they are shown.
fn what_is_there<R: WasmModuleResources>(
    function: &FuncValidator<'_, '_, R>,
    shows: bool,
) -> Result<After, OutOfMemory>
    ensures { IfOk result (λ after. IsThere shows after function.now.present) }
{
    let types = if shows {
        Some(function.operand_types()?)
    } else {
        None
    };
    Ok(After {
        operands: function.operand_stack_height(),
        frames: function.control_stack_height(),
        types,
    })
}

/// What a refusal comes to: that of an attempt is its answer, and the run goes on; that of a plain
/// operator ends the run, and want of memory too.
fn after_refusal(attempted: bool, refusal: Error) -> Result<Answer, Error>
    ensures answer { IfOk result (λ answer. (answer ≡ Err refusal) × (attempted ≡ true)
        × (refusal.wants_memory ≡ false)) }
    ensures ended { IfErr result (λ last. (last ≡ refusal) × (refusal.wants_memory ≡ false
        → attempted ≡ false)) }
{
    if attempted && !refusal.is_out_of_memory() {
        return Ok(Err(refusal));
    }
    Err(refusal)
}

/// Visits an operator, or attempts it.
fn visit_or_try<'a, R: WasmModuleResources>(
    function: &mut FuncValidator<'a, '_, R>,
    offset: u64,
    op: Op<'a>,
    attempted: bool,
) -> Result<(), Error>
    requires none_failed { function.old.failed ≡ false }
    requires open_frame { function.old.present.frames ≢ [] }
    ensures accepted { OnOk result (Accepts (R.context function.old.resources) (op.entry, offset)
        function.old function.new) }
    ensures refused { IfErr result (Refuses (R.context function.old.resources) (op.entry, offset)
        function.old) }
    ensures back { attempted ≡ true → OnErr result (function.new ≡ function.old) }
{
    if attempted {
        return function.try_op(offset, op);
    }
    function.op(offset, op)
}
