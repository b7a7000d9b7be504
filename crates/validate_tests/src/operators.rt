//! What operators carry: tables of labels, floats, and gates; the texts of types; and the laws, each called once.

use crate::expectations::expect_same;
use crate::modules::lists_of;
use std::process::Abort;
use wasmparser_validate::operators::{
    blocks_law, delimiters_law, heights_law, progress_law, safety_law, shape_law, ty_to_str,
};
use wasmparser_validate::types::{Gate, RefType, ValType};
use wasmparser_validate::visit::{
    AtomicOp, BrTable, ConvertOp, ExceptionOp, Ieee32, Ieee64, IncompleteTable, MemoryOp,
    NumberType, NumericOp, ReferenceOp, StructOp, TableOp,
};

/// The targets of a table, and what comes behind them where some are missing.
fn expect_targets(
    rt: &impl Abort,
    table: BrTable<'_>,
    expected: &[Option<Result<u32, IncompleteTable>>],
) {
    let mut targets = table.targets();
    for target in expected {
        expect_same(rt, targets.next(), *target);
    }
}

#[test]
fn labels_of_a_table(rt: HostRuntime) {
    let mut table = BrTable {
        targets: &[4, 2],
        complete: true,
        default: 7,
    };
    expect_same(&rt, table.default(), 7);
    expect_targets(&rt, table, &[Some(Ok(4)), Some(Ok(2)), None, None]);
    table.complete = false;
    let cut = Some(Err(IncompleteTable));
    expect_targets(&rt, table, &[Some(Ok(4)), Some(Ok(2)), cut, None, None]);
}

#[test]
fn floats_by_their_bits(rt: HostRuntime) {
    expect_same(&rt, Ieee32(0x7fc0_0001).bits(), 0x7fc0_0001);
    expect_same(&rt, Ieee64(1 << 63).bits(), 1 << 63);
    expect_same(&rt, NumberType::F64.reinterpreted(), NumberType::I64);
}

#[test]
fn gates_of_operators(rt: HostRuntime) {
    expect_same(&rt, AtomicOp::Pause.gate(), Gate::AcquireReleaseAtomics);
    expect_same(&rt, ConvertOp::Wrap.gate(), Gate::Mvp);
    expect_same(&rt, NumberType::F32.gate(), Gate::Floats);
    expect_same(&rt, NumericOp::Add128.gate(), Gate::WideArithmetic);
    let discard = MemoryOp::MemoryDiscard(0);
    expect_same(&rt, discard.gate(), Gate::MemoryControl);
    let is_null = ReferenceOp::RefIsNull;
    expect_same(&rt, is_null.gate(), Gate::ReferenceTypes);
    expect_same(
        &rt,
        StructOp::StructNewDesc(0).gate(),
        Gate::CustomDescriptors,
    );
    expect_same(&rt, TableOp::ElemDrop(0).gate(), Gate::BulkMemory);
    expect_same(&rt, ExceptionOp::Rethrow(0).gate(), Gate::LegacyExceptions);
}

#[test]
fn texts_of_types(rt: HostRuntime) {
    expect_same(&rt, ty_to_str(ValType::V128), "v128");
    expect_same(&rt, ty_to_str(ValType::Ref(RefType::EXN)), "(ref exn)");
}

/// They do nothing: their contracts are the laws.
#[test]
fn laws_are_there(rt: HostRuntime) {
    let lists = lists_of(&rt, "type func ->");
    safety_law(&lists);
    progress_law(&lists);
    heights_law(&lists);
    blocks_law();
    delimiters_law();
    shape_law();
}
