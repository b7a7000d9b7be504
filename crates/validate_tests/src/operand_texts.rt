//! The texts of operands, those of the constants of reference types among them, and operands in eight bytes.

use crate::expectations::{ample, expect, expect_same};
use std::mem::size_of;
use wasmparser_validate::types::{
    AbstractHeapType, LocalType, MaybeType, Operand, RefType, ValType,
};

/// What an operand prints. No clause says what a constant is.
const OPERANDS: &[(MaybeType, &str)] = &[
    (MaybeType::Bottom, "bot"),
    (MaybeType::UnknownRef(None), "(ref shared? bot)"),
    (
        MaybeType::UnknownRef(Some(AbstractHeapType::Any)),
        "(ref shared? anybot)",
    ),
    (MaybeType::Known(ValType::I32), "i32"),
    (MaybeType::Known(ValType::FUNCREF), "funcref"),
    (MaybeType::Known(ValType::EXNREF), "exnref"),
    (MaybeType::Known(ValType::Ref(RefType::FUNCREF)), "funcref"),
    (MaybeType::Known(ValType::Ref(RefType::EXNREF)), "exnref"),
    (MaybeType::Known(ValType::Ref(RefType::EXN)), "(ref exn)"),
    (MaybeType::Known(ValType::Ref(RefType::I31)), "(ref i31)"),
    (MaybeType::Known(ValType::Ref(RefType::ANYREF)), "anyref"),
    (MaybeType::Known(ValType::Ref(RefType::EQREF)), "eqref"),
];

#[test]
fn texts_of_operands(rt: HostRuntime) {
    for (operand, text) in OPERANDS {
        let printed = ample(&rt, format!(in rt.alloc(); "{operand}"));
        expect_same(&rt, printed.as_str(), *text);
    }
}

/// No clause says how many bytes an operand takes.
#[test]
fn operands_in_eight_bytes(rt: HostRuntime) {
    expect_same(&rt, size_of::<Operand>(), 8);
    for (ty, _) in OPERANDS {
        let operand = Operand::of(*ty);
        expect_same(&rt, operand.ty(), *ty);
        expect_same(&rt, operand.is_bottom(), *ty == MaybeType::Bottom);
    }
}

/// No clause says that what is known at once is ever known.
#[test]
fn references_known_at_once(rt: HostRuntime) {
    let nullable = Operand::known(ValType::EXNREF);
    let non_null = Operand::known(ValType::Ref(RefType::EXN));
    expect(&rt, nullable.is_known_as(ValType::EXNREF));
    expect(&rt, non_null.is_known_as(ValType::EXNREF));
    expect(&rt, !nullable.is_known_as(ValType::Ref(RefType::EXN)));
    expect(&rt, !nullable.is_known_as(ValType::FUNCREF));
    let number = Operand::known(ValType::F32);
    expect(&rt, number.is_known_as(ValType::F32));
    expect(&rt, !number.is_known_as(ValType::EXNREF));
}

#[test]
fn locals_in_eight_bytes(rt: HostRuntime) {
    expect_same(&rt, size_of::<LocalType>(), 8);
    let local = LocalType::new(ValType::I64);
    expect_same(&rt, local.ty(), ValType::I64);
    let operand = local.operand();
    expect(&rt, operand.is_number(ValType::I64));
    expect(&rt, !operand.is_number(ValType::I32));
    let same = Operand::known(ValType::I64);
    expect(&rt, operand.is_same_number(same));
    let reference = Operand::known(ValType::FUNCREF);
    expect(&rt, !reference.is_same_number(reference));
}
