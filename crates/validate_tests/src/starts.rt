//! Validators as they are made: what can be asked of them, what is declared in them, and a constant expression checked as a
//! list.

ghost use Rattle.std.specs.Prelude.{◌≡◌, true};
ghost use Rattle.validate_stacks.specs.State.{IsStarting};
ghost use Rattle.wasmparser_validate.specs.Validator.{state};

use crate::answers::Step;
use crate::bodies::{Way, expect_bodies};
use crate::counted::expect_runs;
use crate::examples::{Example, expect_example, expect_example_in};
use crate::expectations::{ample, expect, expect_error, expect_same};
use crate::visits::Call;
use std::process::Abort;
use wasmparser_validate::operators::{
    Frame, OperatorValidator, OperatorValidatorAllocations, check_ops,
};
use wasmparser_validate::resources::WasmModuleResources;
use wasmparser_validate::types::{Flags, ValType, WasmFeatures};
use wasmparser_validate::visit::{
    BlockType, BodyKind, ControlOp, FrameKind, NumericOp, Op, has_module_immediates,
    is_well_ordered,
};

const OVER: &str = "too many locals: locals exceed maximum";

/// The innermost frame is a block of this type.
fn expect_label(rt: &impl Abort, v: &OperatorValidator, ty: BlockType) {
    expect_same(rt, v.jump(0), Some((ty, FrameKind::Block)));
}

/// The frame of a function of type 3.
const FIRST: &Frame = &Frame {
    kind: FrameKind::Block,
    block_type: BlockType::FuncType(3),
    height: 0,
    unreachable: false,
    init_height: 0,
};

/// One frame is open, of a function of type 3, which has no parameters.
pub fn expect_start(rt: &impl Abort, v: &OperatorValidator) {
    expect(rt, v.get_frame(0) == Some(FIRST));
    expect(rt, v.get_frame(1).is_none());
    expect(rt, v.peek_operand_at(0).is_none());
    expect(rt, v.jump(1).is_none());
    expect_label(rt, v, BlockType::FuncType(3));
    expect_same(rt, v.locals().len_locals(), 0);
    expect(rt, v.features() == WasmFeatures::all());
    expect(rt, !v.is_pending());
    expect(rt, v.can_attempt());
}

/// Locals are declared up to the limit: those that are refused leave the others.
pub fn declare_to_the_limit<R: WasmModuleResources>(
    rt: &impl Abort,
    v: &mut OperatorValidator,
    lists: &R,
)
    requires { IsStarting (R.context lists.now) (state v.old) }
{
    ample(rt, v.define_locals(1, 0, ValType::I32, lists));
    ample(rt, v.define_locals(2, 50_000, ValType::I32, lists));
    expect_error(rt, v.define_locals(3, 1, ValType::I32, lists), OVER, 3);
    expect(rt, v.locals().len_locals() == 50_000);
}

/// The constant 7 and the end of the expression.
const SEVEN: &[(Op<'static>, u64)] = &[
    (Op::Numeric(NumericOp::I32Const(7)), 0),
    (Op::Control(ControlOp::End), 1),
];

/// The constant is accepted up to its end, and leaves one operand and no frame.
pub fn expect_seven<R: WasmModuleResources>(
    rt: &(impl Abort + AllocGlobal),
    v: &mut OperatorValidator,
    lists: &R,
)
    requires { IsStarting (R.context lists.now) (state v.old) }
{
    let mut heights = Vec::new(rt.alloc());
    expect(rt, is_well_ordered(SEVEN));
    match check_ops(v, SEVEN, lists, &mut heights) {
        Ok(is_closed) => expect(rt, is_closed),
        Err((_, refusal)) => ample(rt, Err(refusal)),
    }
    expect_same(rt, heights.as_slice(), [(1, 1), (1, 0)].as_slice());
    expect_same(rt, v.operand_stack_height(), 1);
    expect_same(rt, v.control_stack_height(), 0);
}

#[test]
fn a_function_begins_in_one_frame(rt: HostRuntime) {
    expect_example(&rt, Example::Start);
}

#[test]
fn locals_are_declared_up_to_the_limit(rt: HostRuntime) {
    expect_example(&rt, Example::Limit);
}

#[test]
fn a_constant_expression(rt: HostRuntime) {
    expect_example(&rt, Example::Constant);
}

/// Each comes to the same in the buffers of the one before it, and the first in those of the last.
#[test]
fn worked_examples_in_used_buffers(rt: HostRuntime) {
    let mut used = OperatorValidatorAllocations::new(rt.alloc());
    for _round in 0..2 {
        expect_example_in(&rt, &mut used, Example::Start);
        expect_bodies(&rt, &mut used, Way::Each(Step::Visit(Call::Value)));
        expect_runs(&rt, &mut used);
        expect_example_in(&rt, &mut used, Example::Limit);
        expect_example_in(&rt, &mut used, Example::Constant);
    }
}

/// Where memory is wanting there are no locals, and the same call declares them once there is memory: which is said, for
/// `tests/c/growths.c`.
pub fn expect_the_same_call<R: WasmModuleResources>(
    rt: &(impl Abort + Print),
    v: &mut OperatorValidator,
    lists: &R,
)
    requires { IsStarting (R.context lists.now) (state v.old) }
{
    let first = v.define_locals(0, 60, ValType::I64, lists);
    if first.is_err() {
        expect(rt, v.locals().len_locals() == 0);
        let _ = println!(rt; "there is memory again");
        ample(rt, v.define_locals(0, 60, ValType::I64, lists));
    }
    expect(rt, v.locals().len_locals() == 60);
    ample(rt, first);
}

#[test]
fn locals_that_found_no_memory_are_declared_by_the_same_call(rt: HostRuntime) {
    expect_example(&rt, Example::SameCall);
}

/// The calls that begin a body in the buffers of the one before, which leaves nothing.
pub fn expect_begun_anew<R: WasmModuleResources>(
    rt: &impl Abort,
    v: &mut OperatorValidator,
    lists: &R,
) {
    let features = WasmFeatures::all();
    ample(rt, v.start_func(0, 1, &features, lists));
    expect(rt, v.locals().get(0) == Some(ValType::I32));
    ample(rt, v.start_const_expr(&features, ValType::F32));
    expect(rt, v.locals().len_locals() == 0);
    expect_label(rt, v, BlockType::Val(ValType::F32));
    ample(rt, v.start_body(lists, &features, BodyKind::Function(0), 2));
    expect_label(rt, v, BlockType::FuncType(0));
    expect(rt, v.control_stack_height() == 1);
    let unknown = "unknown type: type index out of bounds";
    expect_error(rt, v.start_func(1, 3, &features, lists), unknown, 3);
}

#[test]
fn bodies_that_begin_anew(rt: HostRuntime) {
    expect_example(&rt, Example::Anew);
}

/// An index of a type is one of a module, and an id isn't.
#[test]
fn immediates_of_a_module(rt: HostRuntime) {
    for (op, _) in SEVEN {
        expect(&rt, has_module_immediates(op));
    }
}
