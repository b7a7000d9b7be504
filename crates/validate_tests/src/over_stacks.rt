//! Attempts that are taken back, over the stacks below a validator: there it can be seen which locals are set, and in which
//! order they first were.

ghost use Rattle.std.specs.Prelude.{◌≡◌, None};
ghost use Rattle.validation_rules.specs.Operators.{operator};
ghost use Rattle.validate_stacks.specs.Pops.{IsKept};
ghost use Rattle.validate_stacks.specs.State.{IsStarting, IsValidBody};
ghost use Rattle.validate_stacks.specs.Steps.{empty_body};
ghost use Rattle.validate_stacks.specs.Visits.{MayVisit, Meets};

use crate::answers::add_answer;
use crate::expectations::{ample, expect, expect_memory, expect_same, wants_memory};
use crate::modules::lists_of;
use crate::snapshot::{Seen, Snapshot, add_seen};
use crate::visits::{I32_CONST, UNREACHABLE};
use crate::written::Written;
use std::mem;
use std::process::Abort;
use validate_operators::check_operator;
use validate_stacks::Stacks;
use wasmparser_validate::operators::{Frame, OperatorValidatorAllocations};
use wasmparser_validate::resources::WasmModuleResources;
use wasmparser_validate::types::{
    AbstractHeapType, Error, Flags, HeapType, RefType, ValType, WasmFeatures,
};
use wasmparser_validate::visit::{BlockType, ControlOp, FrameKind, LocalGroup, Op};

impl Seen for Stacks {
    fn operand(&self, depth: usize) -> Option<Option<ValType>> {
        self.peek_operand_at(depth)
    }

    fn frame(&self, depth: usize) -> Option<Frame> {
        self.get_frame(depth).copied()
    }

    fn heights(&self) -> (usize, usize) {
        (self.operand_stack_height(), self.control_stack_height())
    }
}

/// All that can be seen of the stacks: frames, operands, and the locals that were set, in the order in which they first
/// were.
#[derive(Drop)]
struct Whole {
    seen: Snapshot,
    order: Vec<u32>,
}

impl Whole {
    /// What can be seen now.
    fn of(rt: &(impl Abort + AllocGlobal), stacks: &Stacks) -> Whole {
        Whole {
            seen: Snapshot::of(rt, stacks),
            order: ample(rt, Vec::from_slice(rt.alloc(), stacks.inits().set_since(0))),
        }
    }

    /// Whether of the locals that were set none is unset.
    fn has_set(&self, stacks: &Stacks) -> bool {
        for index in &self.order {
            if stacks.inits().is_uninit(*index) {
                return false;
            }
        }
        true
    }

    /// Whether the same can be seen now. It takes no memory.
    fn is_of(&self, stacks: &Stacks) -> bool {
        self.seen.is_of(stacks)
            && stacks.inits().set_since(0) == self.order.as_slice()
            && self.has_set(stacks)
    }
}

/// Declares a group of locals.
fn declare<R: WasmModuleResources>(
    rt: &impl Abort,
    stacks: &mut Stacks,
    lists: &R,
    group: LocalGroup,
)
    requires { IsStarting (R.context lists.now) stacks.old.body }
    ensures { IsStarting (R.context lists.now) stacks.new.body }
{
    let features = stacks.features();
    let mut canonical = group.ty;
    match lists.check_value_type(&mut canonical, &features, 0) {
        Ok(()) => {}
        Err(refusal) => return ample(rt, Err(refusal)),
    }
    match stacks.define_locals(group.count, canonical) {
        Ok(true) => {}
        Ok(false) => expect(rt, false),
        Err(_) => expect_memory(rt, true),
    }
}

/// Begins a body that takes nothing and gives nothing, with these locals.
fn begin<R: WasmModuleResources>(
    rt: &impl Abort,
    stacks: &mut Stacks,
    lists: &R,
    locals: &[LocalGroup],
)
    requires { stacks.old.body ≡ empty_body stacks.old.body.features }
    ensures { IsStarting (R.context lists.now) stacks.new.body }
{
    ample(
        rt,
        stacks.push_bare_ctrl(FrameKind::Block, BlockType::Empty),
    );
    for group in locals {
        declare(rt, stacks, lists, *group);
    }
}

/// One visit, with all that it promises.
fn visit_by_row<R: WasmModuleResources>(
    stacks: &mut Stacks,
    lists: &R,
    op: &Op<'_>,
) -> Result<(), Error>
    requires { MayVisit (R.context lists.now) stacks.old }
    ensures { Meets (R.context lists.now) (λ cx. operator cx op.now) 7 stacks.old.body result
        stacks.new.body }
{
    check_operator(stacks, lists, 7, op)
}

/// One visit.
fn visit<R: WasmModuleResources>(stacks: &mut Stacks, lists: &R, op: &Op<'_>) -> Result<(), Error>
    requires { MayVisit (R.context lists.now) stacks.old }
    ensures valid { IsValidBody (R.context lists.now) stacks.new.body }
    ensures kept { IsKept stacks.old.body stacks.new.body }
{
    visit_by_row(stacks, lists, op)
}

/// Attempts an operator, and takes it back: then all is as it was before, also where memory was wanting. Adds what was
/// there within the attempt.
fn add_undone<R: WasmModuleResources>(
    rt: &(impl Abort + AllocGlobal),
    text: &mut Written,
    stacks: &mut Stacks,
    lists: &R,
    op: &Op<'_>,
)
    requires idle { stacks.old.body.undone ≡ None }
    requires visit { MayVisit (R.context lists.now) stacks.old }
    ensures same { stacks.new.body ≡ stacks.old.body }
{
    let before = Whole::of(rt, stacks);
    stacks.begin_try_op();
    let answer = visit(stacks, lists, op);
    add_answer(text, &answer, stacks);
    stacks.rollback();
    expect(rt, before.is_of(stacks));
    text.expect_memory(rt);
}

/// The same, and then the operator is visited, unless its line begins with `try`. Adds what is there behind it.
fn add_step<R: WasmModuleResources>(
    rt: &(impl Abort + AllocGlobal),
    text: &mut Written,
    stacks: &mut Stacks,
    lists: &R,
    op: &Op<'_>,
    is_undone: bool,
)
    requires idle { stacks.old.body.undone ≡ None }
    requires visit { MayVisit (R.context lists.now) stacks.old }
    ensures idle { stacks.new.body.undone ≡ None }
    ensures valid { IsValidBody (R.context lists.now) stacks.new.body }
{
    add_undone(rt, text, stacks, lists, op);
    if is_undone {
        add_seen(text, stacks);
        text.expect_memory(rt);
    } else {
        let answer = visit(stacks, lists, op);
        expect_memory(rt, wants_memory(&answer));
    }
}

/// Adds what the operators of these lines answer, one by one.
fn add_each<R: WasmModuleResources>(
    rt: &(impl Abort + AllocGlobal),
    text: &mut Written,
    stacks: &mut Stacks,
    lists: &R,
    body: (&str, &[(Op<'_>, u64)]),
)
    requires { IsStarting (R.context lists.now) stacks.old.body }
{
    let (mut left, ops) = body;
    for pair in ops {
        if stacks.control_stack_height() == 0 {
            return;
        }
        let (line, behind) = left.split_once('\n').unwrap_or((left, ""));
        left = behind;
        add_step(rt, text, stacks, lists, &pair.0, line.starts_with("try "));
    }
}

/// Adds what the operators of a body answer that takes nothing and gives nothing, in these buffers.
pub fn add_over_stacks<R: WasmModuleResources>(
    rt: &(impl Abort + AllocGlobal),
    text: &mut Written,
    buffers: &mut OperatorValidatorAllocations,
    lists: &R,
    begin_with: (&WasmFeatures, &[LocalGroup]),
    body: (&str, &[(Op<'_>, u64)]),
) {
    let (features, locals) = begin_with;
    let allocs = mem::replace(buffers, OperatorValidatorAllocations::new(rt.alloc()));
    let mut stacks = Stacks::new(*features, allocs);
    begin(rt, &mut stacks, lists, locals);
    add_each(rt, text, &mut stacks, lists, body);
    *buffers = stacks.into_allocations();
}

/// Three locals of type `(ref func)`, of which there is no default value.
const UNSET: &[LocalGroup] = &[LocalGroup {
    count: 3,
    ty: ValType::Ref(RefType {
        nullable: false,
        heap_type: HeapType::Abstract {
            shared: false,
            ty: AbstractHeapType::Func,
        },
    }),
    offset: 0,
}];

/// An `if` in dead code in which the second local is set, and then the first.
const BEFORE: &[Op<'static>] = &[
    I32_CONST,
    Op::Control(ControlOp::If(BlockType::Empty)),
    UNREACHABLE,
    Op::Control(ControlOp::LocalSet(1)),
    Op::Control(ControlOp::LocalSet(0)),
];

/// An operator, what is set behind it, in order, which part is open, and whether that is dead.
type Attempt = (Op<'static>, &'static [u32], (FrameKind, bool));

/// Operators that are attempted behind them.
const ATTEMPTS: &[Attempt] = &[
    (Op::Control(ControlOp::Else), &[], (FrameKind::Else, false)),
    (Op::Control(ControlOp::End), &[], (FrameKind::Block, false)),
    (
        Op::Control(ControlOp::LocalSet(2)),
        &[1, 0, 2],
        (FrameKind::If, true),
    ),
    (
        Op::Control(ControlOp::Return),
        &[1, 0],
        (FrameKind::If, true),
    ),
];

/// Both locals are there still.
const BEHIND: &[Op<'static>] = &[
    Op::Control(ControlOp::LocalGet(0)),
    Op::Control(ControlOp::LocalGet(1)),
];

/// Visits operators that are accepted, and leave a frame open.
fn visit_each<R: WasmModuleResources>(
    rt: &impl Abort,
    stacks: &mut Stacks,
    lists: &R,
    ops: &[Op<'_>],
)
    requires idle { stacks.old.body.undone ≡ None }
    requires visit { MayVisit (R.context lists.now) stacks.old }
    ensures idle { stacks.new.body.undone ≡ None }
    ensures visit { MayVisit (R.context lists.now) stacks.new }
{
    for op in ops {
        let answer = visit(stacks, lists, op);
        expect(rt, stacks.control_stack_height() > 0);
        ample(rt, answer);
    }
}

/// What opened the innermost frame, or which part of it is open; and whether it is dead.
fn innermost(stacks: &Stacks) -> Option<(FrameKind, bool)> {
    match stacks.get_frame(0) {
        Some(frame) => Some((frame.kind, frame.unreachable)),
        None => None,
    }
}

/// The `if` is open and dead, nothing is on it, and the second local was set before the first.
fn expect_before(rt: &impl Abort, stacks: &Stacks) {
    expect_same(rt, stacks.inits().set_since(0), [1, 0].as_slice());
    expect_same(rt, stacks.heights(), (0, 2));
    expect_same(rt, innermost(stacks), Some((FrameKind::If, true)));
}

/// Attempts an operator, and takes it back: then the order is the one before.
fn expect_undone<R: WasmModuleResources>(
    rt: &impl Abort,
    stacks: &mut Stacks,
    lists: &R,
    attempt: &Attempt,
)
    requires idle { stacks.old.body.undone ≡ None }
    requires visit { MayVisit (R.context lists.now) stacks.old }
    ensures same { stacks.new.body ≡ stacks.old.body }
{
    let (op, order, frame) = attempt;
    expect_before(rt, stacks);
    stacks.begin_try_op();
    let answer = visit(stacks, lists, op);
    if answer.is_ok() {
        expect_same(rt, stacks.inits().set_since(0), *order);
        expect_same(rt, innermost(stacks), Some(*frame));
    }
    stacks.rollback();
    expect_before(rt, stacks);
    ample(rt, answer);
}

/// Each attempt in turn. Then the locals are there still.
fn expect_attempts<R: WasmModuleResources>(rt: &impl Abort, stacks: &mut Stacks, lists: &R)
    requires { IsStarting (R.context lists.now) stacks.old.body }
{
    visit_each(rt, stacks, lists, BEFORE);
    for attempt in ATTEMPTS {
        expect_undone(rt, stacks, lists, attempt);
    }
    visit_each(rt, stacks, lists, BEHIND);
    expect_same(rt, stacks.heights(), (2, 2));
}

#[test]
fn locals_are_set_in_the_order_before_an_attempt(rt: HostRuntime) {
    let lists = lists_of(&rt, "type func ->");
    let allocs = OperatorValidatorAllocations::new(rt.alloc());
    let mut stacks = Stacks::new(WasmFeatures::all(), allocs);
    begin(&rt, &mut stacks, &lists, UNSET);
    expect_attempts(&rt, &mut stacks, &lists);
}
