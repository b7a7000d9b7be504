//! Why operators are refused, as data and in words. No clause says which reason a refusal has. Among them are operators
//! that no script writes: tables that end too early, and accesses whose natural alignment is another one than that of
//! their operator.

ghost use Rattle.wasmparser_validate.specs.Validator.{state};
ghost use Rattle.wasmparser_validate.specs.State.{IsStarting};

use crate::examples::{Example, expect_example};
use crate::expectations::{expect_same, refused};
use crate::visits::{Call, I32_CONST, NOP, UNREACHABLE, visit_by, visit_well};
use std::process::Abort;
use wasmparser_validate::operators::OperatorValidator;
use wasmparser_validate::resources::WasmModuleResources;
use wasmparser_validate::types::{Gate, HeapType, Refusal, UnpackedIndex, ValType};
use wasmparser_validate::visit::{
    AtomicOp, BrTable, ControlOp, IntegerType, MemArg, MemArgTarget, MemoryOp, NumberType,
    NumericOp, Op, ReferenceOp,
};

/// An access of at most four bytes that says that it is aligned to eight.
const ALIGNED_3: MemArg = MemArg {
    align: 3,
    max_align: 2,
    offset: 0,
    target: MemArgTarget::Memory(0),
};

/// No targets, and no default.
const CUT: BrTable<'static> = BrTable {
    targets: &[],
    complete: false,
    default: 0,
};

/// An operator, the one behind it, and why that is refused: `None` where no rule of an operator says so.
pub type Row = (Op<'static>, Op<'static>, Option<Refusal>, &'static str);

const ROWS: &[Row] = &[
    (
        NOP,
        Op::Numeric(NumericOp::Eqz(IntegerType::I32)),
        Some(Refusal::NothingFound(Some(ValType::I32))),
        "type mismatch: expected i32 but nothing on stack",
    ),
    (
        NOP,
        Op::Control(ControlOp::LocalGet(3)),
        Some(Refusal::UnknownLocal(3)),
        "unknown local 3: local index out of bounds",
    ),
    (
        NOP,
        Op::Control(ControlOp::Br(1)),
        Some(Refusal::UnknownLabel),
        "unknown label: branch depth too large",
    ),
    (
        NOP,
        Op::Control(ControlOp::Call(9)),
        Some(Refusal::UnknownFunction(9)),
        "unknown function 9: function index out of bounds",
    ),
    (
        NOP,
        Op::Memory(MemoryOp::MemorySize(1)),
        Some(Refusal::UnknownMemory(1)),
        "unknown memory 1",
    ),
    (
        NOP,
        Op::Control(ControlOp::ReturnCall(0)),
        Some(Refusal::Closed(Gate::TailCall)),
        "tail calls support is not enabled",
    ),
    // A heap type is looked up by the caller's own lookup.
    (
        NOP,
        Op::Reference(ReferenceOp::RefNull(HeapType::Concrete(UnpackedIndex::Module(9)))),
        None,
        "unknown type 9: type index out of bounds",
    ),
    (
        I32_CONST,
        Op::Control(ControlOp::BrTable(CUT)),
        Some(Refusal::TableEnd),
        "unexpected end of branch targets",
    ),
    (
        UNREACHABLE,
        Op::Control(ControlOp::BrTable(CUT)),
        Some(Refusal::TableEnd),
        "unexpected end of branch targets",
    ),
    (
        UNREACHABLE,
        Op::Memory(MemoryOp::Load(NumberType::I64, ALIGNED_3)),
        Some(Refusal::AlignedMore),
        "invalid memop alignment: alignment must not be larger than natural",
    ),
    (
        UNREACHABLE,
        Op::Atomic(AtomicOp::AtomicWait(IntegerType::I64, ALIGNED_3)),
        Some(Refusal::AlignedLess),
        "atomic instructions must always specify maximum alignment",
    ),
];

/// The second operator of a row is refused behind the first.
pub fn expect_row<R: WasmModuleResources>(
    rt: &impl Abort,
    v: &mut OperatorValidator,
    lists: &R,
    row: &Row,
)
    requires { IsStarting (R.context lists.now) (state v.old) }
{
    let (first, second, reason, text) = row;
    visit_well(rt, v, lists, first);
    let refusal = refused(rt, visit_by(v, lists, second, Call::Visitor), text);
    expect_same(
        rt,
        refusal.reason().map(Refusal::wording),
        reason.map(Refusal::wording),
    );
}

/// Each row in a new body.
#[test]
fn reasons_of_refusals(rt: HostRuntime) {
    for row in ROWS {
        expect_example(&rt, Example::Refused(row));
    }
}
