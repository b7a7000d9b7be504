//! Checking a body, and the best time of many.

ghost use Rattle.std.specs.Prelude.{◌≡◌, [], true, None, Ok};
ghost use Rattle.validate_visit.specs.Order.{is_well_ordered_list};
ghost use Rattle.validate_operators.specs.Runs.{without_offsets};
ghost use Rattle.validate_operators.specs.Validator.{state, stacks_of};
ghost use Rattle.validation_rules.specs.Operators.{operator};
ghost use Rattle.validate_stacks.specs.Visits.{MayVisit, Meets};
ghost use Rattle.validate_stacks.specs.Pops.{IsKept};
ghost use Rattle.validate_stacks.specs.State.{IsStarting, IsValidBody};

use crate::printed::begun;
use crate::unmeasured::Unmeasured;
use script_reader::{BodyLine, Operators};
use std::time::Instant;
use validate_operators::{OperatorValidator, check_ops, try_op};
use validate_resources::WasmModuleResources;
use validate_types::WasmFeatures;
use validate_visit::{LocalGroup, Op, is_well_ordered};

/// How a body is checked.
#[derive(Clone, Copy)]
pub enum Checker {
    /// By `check_ops`.
    CheckOps,
    /// By single visits.
    Visits,
    /// By single visits, those of `try` lines attempted.
    Attempts,
}

impl Checker {
    /// By single visits, of operators of which these are attempted.
    pub fn visits(attempts: &[bool]) -> Checker {
        if attempts.contains(&true) {
            Checker::Attempts
        } else {
            Checker::Visits
        }
    }

    /// Its name.
    pub fn name(self) -> &'static str {
        match self {
            Checker::CheckOps => "check_ops",
            Checker::Visits | Checker::Attempts => "visits",
        }
    }
}

/// The best time of so many runs, in nanoseconds. It fails where the body isn't accepted.
pub fn best_time<R: WasmModuleResources>(
    rt: &HostRuntime,
    (checker, runs): (Checker, u32),
    resources: &R,
    features: &WasmFeatures,
    begin: (BodyLine, &[LocalGroup]),
    operators: &Operators<'_>,
) -> Result<u128, Unmeasured> {
    if !is_well_ordered(&operators.ops) {
        return Err(Unmeasured::Script);
    }
    let mut heights = Vec::new(rt.alloc());
    let mut best = u128::MAX;
    for _ in 0..runs {
        heights.clear();
        best = best.min(time(
            rt,
            checker,
            resources,
            features,
            begin,
            operators,
            &mut heights,
        )?);
    }
    Ok(best)
}

/// Whether the body is accepted by this validator.
#[inline(never)]
fn is_accepted_by<R: WasmModuleResources>(
    validator: &mut OperatorValidator,
    checker: Checker,
    resources: &R,
    operators: &Operators<'_>,
    heights: &mut Vec<(usize, usize)>,
) -> bool
    requires starting { IsStarting (R.context resources.now) (state validator.old) }
    requires ordered { is_well_ordered_list (without_offsets operators.now.ops.items) ≡ true }
    requires empty { heights.old.items ≡ [] }
{
    match checker {
        Checker::CheckOps => matches!(
            check_ops(validator, &operators.ops, resources, heights),
            Ok(true)
        ),
        Checker::Visits => visit_each(validator, &operators.ops, resources),
        Checker::Attempts => {
            attempt_each(validator, &operators.ops, &operators.attempts, resources)
        }
    }
}

/// The time that this validator takes for the operators.
fn time_by<R: WasmModuleResources>(
    rt: &HostRuntime,
    validator: &mut OperatorValidator,
    checker: Checker,
    resources: &R,
    operators: &Operators<'_>,
    heights: &mut Vec<(usize, usize)>,
) -> Result<u128, Unmeasured>
    requires starting { IsStarting (R.context resources.now) (state validator.old) }
    requires ordered { is_well_ordered_list (without_offsets operators.now.ops.items) ≡ true }
    requires empty { heights.old.items ≡ [] }
{
    let since = Instant::now(rt).map_err(|_| Unmeasured::Host)?;
    let accepted = is_accepted_by(validator, checker, resources, operators, heights);
    let time = since.elapsed(rt).map_err(|_| Unmeasured::Host)?.as_nanos();
    if !accepted {
        return Err(Unmeasured::Refused);
    }
    Ok(time)
}

/// The time of one run: of the operators alone, by a validator whose locals are defined.
fn time<R: WasmModuleResources>(
    rt: &HostRuntime,
    checker: Checker,
    resources: &R,
    features: &WasmFeatures,
    begin: (BodyLine, &[LocalGroup]),
    operators: &Operators<'_>,
    heights: &mut Vec<(usize, usize)>,
) -> Result<u128, Unmeasured>
    requires ordered { is_well_ordered_list (without_offsets operators.now.ops.items) ≡ true }
    requires empty { heights.old.items ≡ [] }
{
    match begun(rt.alloc(), resources, features, begin) {
        Ok(mut validator) => time_by(rt, &mut validator, checker, resources, operators, heights),
        Err(_) => Err(Unmeasured::Refused),
    }
}

/// Visits the operators one by one: whether all were accepted, and the outermost frame is closed.
#[inline(never)]
fn visit_each<R: WasmModuleResources>(
    validator: &mut OperatorValidator,
    ops: &[(Op<'_>, u64)],
    resources: &R,
) -> bool
    requires { IsStarting (R.context resources.now) (state validator.old) }
{
    for pair in ops {
        let (op, offset) = pair;
        if validator.control_stack_height() == 0 {
            return false;
        }
        if !is_visited(validator, resources, *offset, op, false) {
            return false;
        }
    }
    validator.control_stack_height() == 0
}

/// The same, with those of `try` lines attempted.
fn attempt_each<R: WasmModuleResources>(
    validator: &mut OperatorValidator,
    ops: &[(Op<'_>, u64)],
    attempts: &[bool],
    resources: &R,
) -> bool
    requires { IsStarting (R.context resources.now) (state validator.old) }
{
    for (pair, attempted) in ops.iter().zip(attempts) {
        let (op, offset) = pair;
        if validator.control_stack_height() == 0 {
            return false;
        }
        if !is_visited(validator, resources, *offset, op, *attempted) {
            return false;
        }
    }
    validator.control_stack_height() == 0
}

/// Visits one operator where it lies, or attempts it: whether it was accepted. Of the answer nothing else is kept.
#[inline(always)]
fn is_visited<R: WasmModuleResources>(
    validator: &mut OperatorValidator,
    resources: &R,
    offset: u64,
    op: &Op<'_>,
    attempted: bool,
) -> bool
    requires idle { (state validator.old).undone ≡ None }
    requires visit { MayVisit (R.context resources.now) (stacks_of validator.old) }
    ensures accepted { result ≡ true → Meets (R.context resources.now) (λ cx. operator cx op.now) offset
        (state validator.old) (Ok tt) (state validator.new) }
    ensures valid { IsValidBody (R.context resources.now) (state validator.new) }
    ensures kept { IsKept (state validator.old) (state validator.new) }
{
    if attempted {
        return match try_op(validator, resources, offset, *op) {
            Ok(()) => true,
            Err(_) => false,
        };
    }
    match validator.check_ref(resources, offset, op) {
        Ok(()) => true,
        Err(_) => false,
    }
}
