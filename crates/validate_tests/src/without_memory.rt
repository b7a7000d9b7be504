//! Operators that take no memory outside an attempt: each is accepted where there is none (`tests/c/growths.c`).

ghost use Rattle.validate_stacks.specs.State.{IsStarting};
ghost use Rattle.wasmparser_validate.specs.Validator.{state};

use crate::answers::check_in;
use crate::examples::{Example, expect_example};
use crate::expectations::{ample, expect, wants_memory};
use crate::functions::{Shown, expect_function};
use crate::visits::{Call, I32_CONST, NOP, UNREACHABLE, visit_by, visit_each};
use std::process::Abort;
use wasmparser_validate::func::FuncValidator;
use wasmparser_validate::operators::OperatorValidator;
use wasmparser_validate::resources::WasmModuleResources;
use wasmparser_validate::types::{AbstractHeapType, HeapType};
use wasmparser_validate::visit::{BlockType, ControlOp, ExceptionOp, Op, ReferenceOp};

/// Operators that are accepted where there is memory, and one behind them that is accepted where there is none.
pub type Row = (&'static [Op<'static>], Op<'static>);

const ROWS: &[Row] = &[
    (&[], NOP),
    (&[I32_CONST], Op::Control(ControlOp::Drop)),
    (&[], UNREACHABLE),
    (&[I32_CONST], Op::Control(ControlOp::Br(0))),
    (&[I32_CONST], Op::Control(ControlOp::Return)),
    (&[I32_CONST], Op::Exception(ExceptionOp::Throw(0))),
    (&[NULL_EXN], Op::Exception(ExceptionOp::ThrowRef)),
    (&[TRY, CATCH_ALL], Op::Exception(ExceptionOp::Rethrow(0))),
];

const NULL_EXN: Op<'static> = Op::Reference(ReferenceOp::RefNull(HeapType::Abstract {
    shared: false,
    ty: AbstractHeapType::Exn,
}));

const TRY: Op<'static> = Op::Exception(ExceptionOp::Try(BlockType::Empty));

const CATCH_ALL: Op<'static> = Op::Exception(ExceptionOp::CatchAll);

const END: &Op<'static> = &Op::Control(ControlOp::End);

/// The operator of a row is accepted where there is no memory.
pub fn expect_accepted<R: WasmModuleResources>(
    rt: &(impl Abort + Print),
    v: &mut OperatorValidator,
    lists: &R,
    row: &Row,
)
    requires { IsStarting (R.context lists.now) (state v.old) }
{
    visit_each(rt, v, lists, row.0);
    let _ = println!(rt; "there is no memory");
    let answer = visit_by(v, lists, &row.1, Call::Visitor);
    let _ = println!(rt; "there is memory again");
    expect(rt, answer.is_ok());
}

#[test]
fn operators_that_take_no_memory(rt: HostRuntime) {
    for row in ROWS {
        expect_example(&rt, Example::WithoutMemory(row));
    }
}

/// Whether a body is whole is said without memory, and so is that it isn't.
pub fn expect_end<R: WasmModuleResources>(
    rt: &(impl Abort + Print),
    function: &mut FuncValidator<'static, '_, R>,
) {
    let _ = println!(rt; "there is no memory");
    let open = function.finish(9);
    let _ = println!(rt; "there is memory again");
    expect(rt, open.is_err());
    expect(rt, !wants_memory(&open));
    ample(rt, check_in(rt, function, (END, 9), false));
    let _ = println!(rt; "there is no memory");
    let whole = function.finish(9);
    let _ = println!(rt; "there is memory again");
    expect(rt, whole.is_ok());
}

#[test]
fn the_end_of_a_function_takes_no_memory(rt: HostRuntime) {
    expect_function(&rt, Shown::End);
}
