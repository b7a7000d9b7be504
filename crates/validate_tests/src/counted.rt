//! Runs of pops of i32: how many pops they try, what they answer, and how many operands they leave; and the same in an
//! attempt that is taken back.

ghost use Rattle.std.specs.Prelude.{◌≡◌, ◌+◌, ◌^◌, ◌<◌, None, IsSome, OnOk};
ghost use Rattle.validate_stacks.specs.Counted.{pops_of_run};
ghost use Rattle.validate_stacks.specs.Pops.{IsKept};
ghost use Rattle.validate_stacks.specs.State.{IsStarting};
ghost use Rattle.validate_stacks.specs.Visits.{MayVisit};
ghost use Rattle.wasmparser_validate.specs.Validator.{state, stacks_of};

use crate::examples::{Example, expect_example_in};
use crate::expectations::{ample, expect, expect_error, expect_memory, expect_same, wants_memory};
use crate::snapshot::Snapshot;
use crate::visits::{BLOCK, I32_CONST, UNREACHABLE, visit_each};
use std::process::Abort;
use wasmparser_validate::operators::{
    OperatorValidator, OperatorValidatorAllocations, Pops, WasmProposalValidator,
};
use wasmparser_validate::resources::WasmModuleResources;
use wasmparser_validate::types::{Error, ValType};
use wasmparser_validate::visit::Op;

const NOTHING: &str = "type mismatch: expected i32 but nothing on stack";

/// A run of pops.
pub struct Run {
    /// The operators before it.
    before: &'static [Op<'static>],
    /// How many operands are popped.
    count: u32,
    /// How many operands are left, or None where the run is refused.
    left: Option<usize>,
    /// How many pops are tried.
    tried: u64,
}

const RUNS: &[Run] = &[
    // In dead code the first pop below the own operands is the last.
    Run {
        before: &[UNREACHABLE, I32_CONST, I32_CONST],
        count: 10,
        left: Some(0),
        tried: 3,
    },
    Run {
        before: &[UNREACHABLE, I32_CONST, I32_CONST],
        count: 2,
        left: Some(0),
        tried: 2,
    },
    Run {
        before: &[UNREACHABLE],
        count: 4_294_967_295,
        left: Some(0),
        tried: 1,
    },
    Run {
        before: &[I32_CONST, I32_CONST, I32_CONST, I32_CONST, I32_CONST],
        count: 3,
        left: Some(2),
        tried: 3,
    },
    // A pop that is refused is counted too.
    Run {
        before: &[I32_CONST, I32_CONST],
        count: 3,
        left: None,
        tried: 3,
    },
    Run {
        before: &[I32_CONST, I32_CONST],
        count: 0,
        left: Some(2),
        tried: 0,
    },
    // The operands of outer frames aren't its own.
    Run {
        before: &[I32_CONST, BLOCK],
        count: 1,
        left: None,
        tried: 1,
    },
];

/// Pops so many operands of i32.
fn pop_run<R: WasmModuleResources>(
    v: &mut OperatorValidator,
    lists: &R,
    count: u32,
    pops: &mut Pops,
) -> Result<(), Error>
    requires visit { MayVisit (R.context lists.now) (stacks_of v.old) }
    requires countable { pops.old + count < 2 ^ 64 }
    ensures counted { OnOk result (pops.new ≡ pops.old + pops_of_run count (state v.old)) }
    ensures kept { IsKept (state v.old) (state v.new) }
{
    let mut visitor: WasmProposalValidator<'_, '_, R> = v.with_resources(lists, 7);
    visitor.pop_run(ValType::I32, count, pops)
}

/// What a run comes to, and whether memory was wanting.
fn expect_run<R: WasmModuleResources>(
    rt: &impl Abort,
    v: &mut OperatorValidator,
    lists: &R,
    run: &Run,
) -> bool
    requires { MayVisit (R.context lists.now) (stacks_of v.old) }
    ensures kept { IsKept (state v.old) (state v.new) }
{
    let mut pops = Pops::new();
    let answer = pop_run(v, lists, run.count, &mut pops);
    if wants_memory(&answer) {
        return true;
    }
    match run.left {
        Some(left) => {
            ample(rt, answer);
            expect_same(rt, v.operand_stack_height(), left);
        }
        None => expect_error(rt, answer, NOTHING, 7),
    }
    expect_same(rt, pops.count(), run.tried);
    false
}

/// The same in an attempt, which is taken back: then all is as it was before.
fn expect_undone<R: WasmModuleResources>(
    rt: &(impl Abort + AllocGlobal),
    v: &mut OperatorValidator,
    lists: &R,
    run: &Run,
)
    requires idle { (state v.old).undone ≡ None }
    requires visit { MayVisit (R.context lists.now) (stacks_of v.old) }
    ensures same { state v.new ≡ state v.old }
{
    let before = Snapshot::of(rt, v);
    v.begin_try_op();
    let is_wanting = expect_run(rt, v, lists, run);
    v.rollback();
    expect(rt, before.is_of(v));
    expect_memory(rt, is_wanting);
}

/// A run behind its operators: in an attempt that is taken back, and then for good.
pub fn expect_both<R: WasmModuleResources>(
    rt: &(impl Abort + AllocGlobal),
    v: &mut OperatorValidator,
    lists: &R,
    run: &Run,
)
    requires { IsStarting (R.context lists.now) (state v.old) }
{
    visit_each(rt, v, lists, run.before);
    expect_undone(rt, v, lists, run);
    let is_wanting = expect_run(rt, v, lists, run);
    expect_memory(rt, is_wanting);
}

/// Each run in a new body, in the buffers of the one before it.
pub fn expect_runs(
    rt: &(impl Abort + AllocGlobal + Print),
    used: &mut OperatorValidatorAllocations,
) {
    for run in RUNS {
        expect_example_in(rt, used, Example::Run(run));
    }
}

#[test]
fn runs_of_pops(rt: HostRuntime) {
    let mut used = OperatorValidatorAllocations::new(rt.alloc());
    expect_runs(&rt, &mut used);
}
