//! Bodies of scripts, checked by the validator's own calls.

ghost use Rattle.std.specs.Prelude.{◌≡◌, None};
ghost use Rattle.validate_operators.specs.Validator.{state, stacks_of};
ghost use Rattle.validate_stacks.specs.State.{IsStarting, IsValidBody};
ghost use Rattle.validate_stacks.specs.Visits.{MayVisit};

use crate::left::{Left, check_list};
use crate::paired::PairedLists;
use crate::places::add_operands;
use crate::printed::{add_printed, begun};
use crate::snapshot::Snapshot;
use crate::tally::Tally;
use crate::undone::{compare_behind, run_lines};
use crate::wanting::{Check, WantingLists};
use opcheck_script::module_lists;
use script_reader::{BodyLine, Operators, Script, read_script};
use std::alloc::{AllocError, Global};
use validate_operators::{OperatorValidator, try_op};
use validate_resources::{ModuleLists, WasmModuleResources};
use validate_types::{Error, WasmFeatures};
use validate_visit::{LocalGroup, Op};

/// The lookup over which a body is checked.
#[derive(Clone, Copy)]
pub enum Lookup {
    /// Over the lists of its module.
    Own,
    /// One in which two indices name each type of the module.
    Paired,
    /// One of which this check finds no memory each other time.
    Wanting(Check),
}

/// What is done with a body.
#[derive(Clone, Copy)]
pub enum Task<'a> {
    /// Its operators are attempted one after the other.
    Attempts,
    /// Its operators are checked as one list, which comes to this.
    List(Left<'a>),
    /// It has no operators yet, and these lines are visited, or attempted and taken back.
    Lines(&'a str),
    /// Its operators are run as the program runs them, and what that prints is printed.
    Printed,
    /// The types of the operands between its operators are printed.
    Places,
    /// The types of the operands at this place among its operators are printed.
    Place(usize),
}

/// A script, whether it shows the types of operands, and what is done with its body.
#[derive(Clone, Copy)]
struct Work<'a> {
    script: &'a str,
    shows: bool,
    task: Task<'a>,
}

/// One attempt.
fn attempt<R: WasmModuleResources>(
    v: &mut OperatorValidator,
    resources: &R,
    offset: u64,
    op: Op<'_>,
) -> Result<(), Error>
    requires idle { (state v.old).undone ≡ None }
    requires visit { MayVisit (R.context resources.now) (stacks_of v.old) }
    ensures valid { IsValidBody (R.context resources.now) (state v.new) }
    ensures idle { (state v.new).undone ≡ None }
{
    try_op(v, resources, offset, op)
}

/// Attempts an operator, and answers whether it is accepted: behind a refused one all frames and operands are those
/// before it.
fn attempt_one<R: WasmModuleResources>(
    alloc: Global,
    tally: &mut Tally,
    v: &mut OperatorValidator,
    resources: &R,
    pair: (Op<'_>, u64),
    script: &str,
) -> Result<bool, AllocError>
    requires idle { (state v.old).undone ≡ None }
    requires visit { MayVisit (R.context resources.now) (stacks_of v.old) }
    ensures valid { IsValidBody (R.context resources.now) (state v.new) }
    ensures idle { (state v.new).undone ≡ None }
{
    let before = Snapshot::of(alloc, v)?;
    let (op, offset) = pair;
    if attempt(v, resources, offset, op).is_ok() {
        return Ok(true);
    }
    compare_behind(alloc, tally, v, &before, script)?;
    Ok(false)
}

/// Attempts operators one after the other, up to the first that is refused, or the end of the body.
fn attempt_each<R: WasmModuleResources>(
    alloc: Global,
    tally: &mut Tally,
    v: &mut OperatorValidator,
    ops: &[(Op<'_>, u64)],
    resources: &R,
    script: &str,
) -> Result<(), AllocError>
    requires { IsStarting (R.context resources.now) (state v.old) }
{
    for pair in ops {
        if v.control_stack_height() == 0
            || !attempt_one(alloc, tally, v, resources, *pair, script)?
        {
            return Ok(());
        }
    }
    Ok(())
}

/// Does this with the validator of a body that has begun, where it is lent.
fn run_lent<R: WasmModuleResources>(
    alloc: Global,
    tally: &mut Tally,
    v: &mut OperatorValidator,
    ops: &[(Op<'_>, u64)],
    resources: &R,
    work: Work<'_>,
) -> Result<(), AllocError>
    requires { IsStarting (R.context resources.now) (state v.old) }
{
    match work.task {
        Task::Attempts => attempt_each(alloc, tally, v, ops, resources, work.script),
        Task::List(left) => check_list(alloc, tally, v, ops, resources, work.script, left),
        Task::Lines(lines) => run_lines(alloc, tally, v, resources, lines),
        Task::Place(place) => add_operands(alloc, tally, v, ops, resources, (work.script, place)),
        Task::Printed | Task::Places => Ok(()),
    }
}

/// Begins the body of a script over this lookup, and does this with it, where it is lent.
fn run_begun<R: WasmModuleResources>(
    alloc: Global,
    tally: &mut Tally,
    resources: &R,
    features: &WasmFeatures,
    begin: (BodyLine, &[LocalGroup]),
    ops: &[(Op<'_>, u64)],
    work: Work<'_>,
) -> Result<(), AllocError> {
    match begun(alloc, resources, features, begin) {
        Ok(mut v) => run_lent(alloc, tally, &mut v, ops, resources, work),
        Err(_) => cannot_begin(tally, work.script, work.task),
    }
}

/// Prints the types of the operands before each operator of a script, and behind the last.
fn add_places<R: WasmModuleResources>(
    alloc: Global,
    tally: &mut Tally,
    resources: &R,
    features: &WasmFeatures,
    begin: (BodyLine, &[LocalGroup]),
    ops: &[(Op<'_>, u64)],
    work: Work<'_>,
) -> Result<(), AllocError> {
    tally.begin_printed()?;
    for place in 0..ops.len().saturating_add(1) {
        let work = Work {
            script: work.script,
            shows: work.shows,
            task: Task::Place(place),
        };
        run_begun(alloc, tally, resources, features, begin, ops, work)?;
    }
    Ok(())
}

/// Does this with the body of a script over this lookup.
fn run_over<R: WasmModuleResources>(
    alloc: Global,
    tally: &mut Tally,
    resources: &R,
    features: &WasmFeatures,
    begin: (BodyLine, &[LocalGroup]),
    operators: &Operators<'_>,
    work: Work<'_>,
) -> Result<(), AllocError> {
    let ops = operators.ops.as_slice();
    match work.task {
        Task::Printed => {
            let shown = (work.script, work.shows);
            add_printed(alloc, tally, resources, features, begin, operators, shown)
        }
        Task::Places => add_places(alloc, tally, resources, features, begin, ops, work),
        _ => run_begun(alloc, tally, resources, features, begin, ops, work),
    }
}

/// Does this with the body of a script over this lookup, which is made of the lists of its module.
fn run_in(
    alloc: Global,
    tally: &mut Tally,
    (lists, lookup): (ModuleLists, Lookup),
    features: &WasmFeatures,
    begin: (BodyLine, &[LocalGroup]),
    operators: &Operators<'_>,
    work: Work<'_>,
) -> Result<(), AllocError> {
    match lookup {
        Lookup::Own => run_over(alloc, tally, &lists, features, begin, operators, work),
        Lookup::Paired => {
            let paired = PairedLists(lists);
            run_over(alloc, tally, &paired, features, begin, operators, work)
        }
        Lookup::Wanting(check) => {
            let wanting = WantingLists::new(lists, check);
            run_over(alloc, tally, &wanting, features, begin, operators, work)
        }
    }
}

/// Does this with the body of a script whose module and body can be made, over this lookup.
pub fn run_body(
    alloc: Global,
    tally: &mut Tally,
    script: &str,
    lookup: Lookup,
    task: Task<'_>,
) -> Result<(), AllocError> {
    let mut listed = Vec::new(alloc);
    let Ok(read) = read_script(alloc, &mut listed, script) else {
        return cannot_begin(tally, script, task);
    };
    let Script {
        features,
        shows,
        declarations,
        body,
        locals,
        operators,
    } = read;
    let Ok(lists) = module_lists(alloc, declarations) else {
        return cannot_begin(tally, script, task);
    };
    let begin = (body, locals.as_slice());
    let work = Work {
        script,
        shows,
        task,
    };
    run_in(
        alloc,
        tally,
        (lists, lookup),
        &features,
        begin,
        &operators,
        work,
    )
}

/// A script whose module or body can't be made: of those alone that are run in other ways too.
fn cannot_begin(tally: &mut Tally, script: &str, task: Task<'_>) -> Result<(), AllocError> {
    match task {
        Task::Attempts => Ok(()),
        _ => tally.refuse(script, "has no body to begin"),
    }
}
