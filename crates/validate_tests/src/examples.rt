//! Examples of a validator: of each the module, the body that begins in it, and what is shown of that. One function owns
//! the lookup and the validator, for whatever is shown: what drops them is dear to prove.

ghost use Rattle.validate_stacks.specs.State.{IsStarting};
ghost use Rattle.wasmparser_validate.specs.Validator.{state};

use crate::counted::{Run, expect_both};
use crate::functions::expect_before;
use crate::modules::{begun_anew, constant, expression, function_of, lists_of};
use crate::reasons::{Row, expect_row};
use crate::starts::{
    declare_to_the_limit, expect_begun_anew, expect_seven, expect_start, expect_the_same_call,
};
use crate::{module_arity, without_memory};
use std::mem;
use std::process::Abort;
use wasmparser_validate::operators::{OperatorValidator, OperatorValidatorAllocations};
use wasmparser_validate::resources::{ModuleLists, WasmModuleResources};
use wasmparser_validate::types::ValType;

/// An example.
#[derive(Clone, Copy)]
pub enum Example {
    /// One frame is open.
    Start,
    /// Locals are declared up to the limit.
    Limit,
    /// Locals that found no memory are declared by the same call.
    SameCall,
    /// Calls that begin another body.
    Anew,
    /// A constant expression, checked as a list.
    Constant,
    /// What a new body answers.
    Names,
    /// The types of the operands before an operator.
    Before(usize, &'static [Option<ValType>]),
    /// A run of pops.
    Run(&'static Run),
    /// An operator that is refused.
    Refused(&'static Row),
    /// An operator that takes no memory.
    WithoutMemory(&'static without_memory::Row),
}

impl Example {
    /// The lines of its module.
    fn module(self) -> &'static str {
        match self {
            Example::Start => "type func i32 ->\ntype func -> i32\ntype struct\ntype func ->",
            Example::Limit | Example::SameCall | Example::Constant => "type func ->",
            Example::Names => module_arity::MODULE,
            Example::Before(..) => "type func i32 -> i32",
            Example::Anew => "type func i32 ->",
            Example::Run(_) | Example::Refused(_) => "memory",
            Example::WithoutMemory(_) => "type func ->\ntype func i32 ->\ntag 1",
        }
    }
}

/// A validator of the body of an example, in these buffers.
fn begun(
    rt: &impl Abort,
    lists: &ModuleLists,
    example: Example,
    allocs: OperatorValidatorAllocations,
) -> OperatorValidator
    ensures { IsStarting (⟦<ModuleLists as WasmModuleResources>⟧.context lists.now) (state result) }
{
    match example {
        Example::Start => function_of(rt, lists, 3, allocs),
        Example::Constant => constant(rt, lists, allocs),
        Example::Anew => begun_anew(rt, lists, allocs),
        Example::Run(_) | Example::Refused(_) => expression(rt, lists, allocs),
        _ => function_of(rt, lists, 0, allocs),
    }
}

/// Shows an example.
fn show(
    rt: &(impl Abort + AllocGlobal + Print),
    v: &mut OperatorValidator,
    lists: &ModuleLists,
    example: Example,
)
    requires { IsStarting (⟦<ModuleLists as WasmModuleResources>⟧.context lists.now) (state v.old) }
{
    match example {
        Example::Start => expect_start(rt, v),
        Example::Limit => declare_to_the_limit(rt, v, lists),
        Example::SameCall => expect_the_same_call(rt, v, lists),
        Example::Constant => expect_seven(rt, v, lists),
        Example::Anew => expect_begun_anew(rt, v, lists),
        Example::Names => module_arity::expect_answers(rt, v, lists),
        Example::Before(place, types) => expect_before(rt, v, lists, place, types),
        Example::Run(run) => expect_both(rt, v, lists, run),
        Example::Refused(row) => expect_row(rt, v, lists, row),
        Example::WithoutMemory(row) => without_memory::expect_accepted(rt, v, lists, row),
    }
}

/// Shows an example in these buffers.
pub fn expect_example_in(
    rt: &(impl Abort + AllocGlobal + Print),
    used: &mut OperatorValidatorAllocations,
    example: Example,
) {
    let lists = lists_of(rt, example.module());
    let others = OperatorValidatorAllocations::new(used.allocator());
    let allocs = mem::replace(used, others);
    let mut v = begun(rt, &lists, example, allocs);
    show(rt, &mut v, &lists, example);
    *used = v.into_allocations();
}

/// Shows an example in new buffers.
pub fn expect_example(rt: &(impl Abort + AllocGlobal + Print), example: Example) {
    expect_example_in(
        rt,
        &mut OperatorValidatorAllocations::new(rt.alloc()),
        example,
    );
}
