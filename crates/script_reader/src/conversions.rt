//! Conversions of numbers and extensions of signs by their names.
//!
//! `.ci/generate` writes the table from `operators.tsv`.

use validate_visit::ConvertOp::{
    Convert, Demote, Extend, ExtendPacked, Promote, Reinterpret, Trunc, TruncSat, Wrap,
};
use validate_visit::FloatType::{F32, F64};
use validate_visit::IntegerType::{I32, I64};
use validate_visit::PackedInteger::{I32Bits8, I32Bits16, I64Bits8, I64Bits16, I64Bits32};
use validate_visit::Sign::{Signed, Unsigned};
use validate_visit::{ConvertOp, NumberType};

/// The conversions and the extensions.
pub static CONVERSIONS: [(&str, ConvertOp); 38] = [
    ("i32.wrap_i64", Wrap),
    ("i64.extend_i32_s", Extend(Signed)),
    ("i64.extend_i32_u", Extend(Unsigned)),
    ("i32.extend8_s", ExtendPacked(I32Bits8)),
    ("i32.extend16_s", ExtendPacked(I32Bits16)),
    ("i64.extend8_s", ExtendPacked(I64Bits8)),
    ("i64.extend16_s", ExtendPacked(I64Bits16)),
    ("i64.extend32_s", ExtendPacked(I64Bits32)),
    ("f32.demote_f64", Demote),
    ("f64.promote_f32", Promote),
    ("i32.reinterpret_f32", Reinterpret(NumberType::I32)),
    ("i64.reinterpret_f64", Reinterpret(NumberType::I64)),
    ("f32.reinterpret_i32", Reinterpret(NumberType::F32)),
    ("f64.reinterpret_i64", Reinterpret(NumberType::F64)),
    ("i32.trunc_f32_s", Trunc(I32, F32, Signed)),
    ("i32.trunc_f32_u", Trunc(I32, F32, Unsigned)),
    ("i32.trunc_f64_s", Trunc(I32, F64, Signed)),
    ("i32.trunc_f64_u", Trunc(I32, F64, Unsigned)),
    ("i64.trunc_f32_s", Trunc(I64, F32, Signed)),
    ("i64.trunc_f32_u", Trunc(I64, F32, Unsigned)),
    ("i64.trunc_f64_s", Trunc(I64, F64, Signed)),
    ("i64.trunc_f64_u", Trunc(I64, F64, Unsigned)),
    ("i32.trunc_sat_f32_s", TruncSat(I32, F32, Signed)),
    ("i32.trunc_sat_f32_u", TruncSat(I32, F32, Unsigned)),
    ("i32.trunc_sat_f64_s", TruncSat(I32, F64, Signed)),
    ("i32.trunc_sat_f64_u", TruncSat(I32, F64, Unsigned)),
    ("i64.trunc_sat_f32_s", TruncSat(I64, F32, Signed)),
    ("i64.trunc_sat_f32_u", TruncSat(I64, F32, Unsigned)),
    ("i64.trunc_sat_f64_s", TruncSat(I64, F64, Signed)),
    ("i64.trunc_sat_f64_u", TruncSat(I64, F64, Unsigned)),
    ("f32.convert_i32_s", Convert(F32, I32, Signed)),
    ("f32.convert_i32_u", Convert(F32, I32, Unsigned)),
    ("f32.convert_i64_s", Convert(F32, I64, Signed)),
    ("f32.convert_i64_u", Convert(F32, I64, Unsigned)),
    ("f64.convert_i32_s", Convert(F64, I32, Signed)),
    ("f64.convert_i32_u", Convert(F64, I32, Unsigned)),
    ("f64.convert_i64_s", Convert(F64, I64, Signed)),
    ("f64.convert_i64_u", Convert(F64, I64, Unsigned)),
];
