//! Function validators: one of which an attempt was refused, which leaves no trace; one that has failed; and what can be
//! asked of one.

ghost use Rattle.std.specs.Prelude.{◌≡◌, [], false};
ghost use Rattle.validate_stacks.specs.State.{IsStarting};
ghost use Rattle.wasmparser_validate.specs.Validator.{state};

use crate::answers::check_in;
use crate::examples::{Example, expect_example};
use crate::expectations::{ample, expect, expect_error, expect_same};
use crate::modules::{function_of, lists_of};
use crate::visits::{I32_CONST, I64_CONST};
use crate::without_memory::expect_end;
use std::process::Abort;
use wasmparser_validate::func::{FuncValidator, operands_before};
use wasmparser_validate::operators::{OperatorValidator, OperatorValidatorAllocations};
use wasmparser_validate::resources::WasmModuleResources;
use wasmparser_validate::types::ValType;
use wasmparser_validate::visit::{
    ControlOp, FrameKind, IntegerBinaryOp, IntegerType, NumericOp, Op, is_well_ordered,
};

const DROP: Op<'static> = Op::Control(ControlOp::Drop);

const END: Op<'static> = Op::Control(ControlOp::End);

const I32_ADD: Op<'static> = Op::Numeric(NumericOp::IntegerBinary(
    IntegerType::I32,
    IntegerBinaryOp::Add,
));

const CONSTANTS: &[Op<'static>] = &[I64_CONST, I32_CONST];

const REST: &[Op<'static>] = &[DROP, DROP, END];

const ADDITION: &Op<'static> = &I32_ADD;

const OPEN: &str = "control frames remain at end of function: END opcode expected";

const NOTHING: &str = "type mismatch: expected i32 but nothing on stack";

const OTHER: &str = "type mismatch: expected i32, found i64";

const FAILED: &str = "function validator has failed";

/// Visits operators that are accepted.
fn accept<'a, R: WasmModuleResources>(
    rt: &impl Abort,
    function: &mut FuncValidator<'a, '_, R>,
    ops: &[Op<'a>],
) {
    for op in ops {
        ample(rt, check_in(rt, function, (op, 9), false));
    }
}

/// What can be asked of a function whose operands are an i64 and an i32.
fn expect_two_operands<R: WasmModuleResources>(
    rt: &impl Abort,
    function: &FuncValidator<'_, '_, R>,
) {
    expect_same(rt, function.operand_stack_height(), 2);
    expect_same(rt, function.control_stack_height(), 1);
    expect_same(rt, function.peek_operand_at(0), Some(Some(ValType::I32)));
    expect_same(rt, function.get_operand_type(1), Some(Some(ValType::I64)));
    expect_same(rt, function.peek_operand_at(2), None);
    expect_same(rt, function.current_frame(), Some(FrameKind::Block));
    expect(rt, function.get_frame(0) == Some(&function.first_frame()));
    expect(rt, function.get_control_frame(1).is_none());
    expect_same(rt, function.accepted().len(), 2);
    expect(rt, !function.is_failed());
}

const TYPES: &[Option<ValType>] = &[Some(ValType::I64), Some(ValType::I32)];

/// The types of all operands are an i64 and, on top, an i32.
fn expect_types<R: WasmModuleResources>(rt: &impl Abort, function: &FuncValidator<'_, '_, R>) {
    let types = ample(rt, function.operand_types());
    expect_same(rt, types.as_slice(), TYPES);
}

/// The attempt of an addition is refused, and leaves no trace: the two constants are dropped, and the function ends.
fn expect_five_accepted<R: WasmModuleResources>(
    rt: &impl Abort,
    function: &mut FuncValidator<'static, '_, R>,
) {
    accept(rt, function, CONSTANTS);
    expect_error(rt, check_in(rt, function, (ADDITION, 9), true), OTHER, 9);
    expect_two_operands(rt, function);
    expect_types(rt, function);
    accept(rt, function, REST);
    expect_same(rt, function.accepted().len(), 5);
    expect_same(rt, function.current_frame(), None);
    ample(rt, function.finish(9));
}

/// Operators of a function without operands, each visited or attempted, and why each is refused.
const REFUSALS: &[(Op<'static>, bool, &str)] = &[
    (I32_ADD, false, NOTHING),
    (I32_CONST, false, FAILED),
    (I32_CONST, true, FAILED),
];

/// Has a frame open at first; and has failed behind a refused visit.
fn expect_refusals<R: WasmModuleResources>(
    rt: &impl Abort,
    function: &mut FuncValidator<'static, '_, R>,
) {
    expect_error(rt, function.finish(9), OPEN, 9);
    for (op, is_attempted, words) in REFUSALS {
        let answer = check_in(rt, function, (op, 9), *is_attempted);
        expect_error(rt, answer, words, 9);
        expect(rt, function.is_failed());
    }
    expect(rt, function.accepted().is_empty());
    expect_error(rt, function.finish(9), FAILED, 9);
}

/// It takes three locals, and has none behind them.
fn expect_locals<R: WasmModuleResources>(rt: &impl Abort, function: &mut FuncValidator<'_, '_, R>)
    requires first { function.old.accepted ≡ [] }
    requires none_failed { function.old.failed ≡ false }
{
    ample(rt, function.define_locals(1, 3, ValType::I64));
    expect(rt, function.len_locals() == 3);
    expect(rt, function.get_local_type(2) == Some(ValType::I64));
    expect(rt, function.get_local_type(3).is_none());
}

/// What is shown of a function.
#[derive(Clone, Copy)]
pub enum Shown {
    /// That an attempt that is refused leaves no trace.
    Attempt,
    /// That it refuses whatever comes once it has failed.
    Failure,
    /// Its locals.
    Locals,
    /// That its end takes no memory.
    End,
}

/// Shows this of a function of which nothing was asked yet.
fn expect_shown<R: WasmModuleResources>(
    rt: &(impl Abort + AllocGlobal + Print),
    function: &mut FuncValidator<'static, '_, R>,
    shown: Shown,
)
    requires first { function.old.accepted ≡ [] }
    requires none_failed { function.old.failed ≡ false }
{
    match shown {
        Shown::Attempt => expect_five_accepted(rt, function),
        Shown::Failure => expect_refusals(rt, function),
        Shown::Locals => expect_locals(rt, function),
        Shown::End => expect_end(rt, function),
    }
}

/// Shows this of a new function. One function owns it, for whatever is shown: what drops it is dear to prove.
pub fn expect_function(rt: &(impl Abort + AllocGlobal + Print), shown: Shown) {
    let lists = lists_of(rt, "type func ->");
    let allocs = OperatorValidatorAllocations::new(rt.alloc());
    let v = function_of(rt, &lists, 0, allocs);
    let mut function = FuncValidator::new(rt.alloc(), v, &lists);
    expect_shown(rt, &mut function, shown);
}

#[test]
fn an_attempt_that_is_refused_leaves_no_trace(rt: HostRuntime) {
    expect_function(&rt, Shown::Attempt);
}

#[test]
fn a_function_that_has_failed_refuses_whatever_comes(rt: HostRuntime) {
    expect_function(&rt, Shown::Failure);
}

#[test]
fn locals_of_a_function(rt: HostRuntime) {
    expect_function(&rt, Shown::Locals);
}

/// The operators of a sum of the parameter and a constant.
const SUM: &[(Op<'static>, u64)] = &[
    (Op::Control(ControlOp::LocalGet(0)), 3),
    (Op::Numeric(NumericOp::I32Const(1)), 4),
    (I32_ADD, 5),
    (END, 6),
];

/// The types of the operands before some of them.
const BEFORE: &[(usize, &[Option<ValType>])] = &[
    (0, &[]),
    (2, &[Some(ValType::I32), Some(ValType::I32)]),
    (4, &[Some(ValType::I32)]),
];

/// These are the types of the operands before an operator.
pub fn expect_before<R: WasmModuleResources>(
    rt: &(impl Abort + AllocGlobal),
    v: &mut OperatorValidator,
    lists: &R,
    place: usize,
    expected: &[Option<ValType>],
)
    requires { IsStarting (R.context lists.now) (state v.old) }
{
    expect(rt, is_well_ordered(SUM));
    expect(rt, place <= SUM.len());
    match operands_before(rt.alloc(), v, SUM, lists, place) {
        Ok(types) => expect_same(rt, types.as_slice(), expected),
        Err((_, refusal)) => ample(rt, Err(refusal)),
    }
}

#[test]
fn types_between_operators(rt: HostRuntime) {
    for (place, expected) in BEFORE {
        expect_example(&rt, Example::Before(*place, expected));
    }
}
