//! Operators on numbers by their names: a type, a dot, and a word.
//!
//! `.ci/generate` writes the tables from `operators.tsv`.

use crate::parts::{named_in, read_i32, read_i64, read_index, read_u64};
use validate_visit::{
    FloatBinaryOp, FloatComparisonOp, FloatType, FloatUnaryOp, Ieee32, Ieee64, IntegerBinaryOp,
    IntegerComparisonOp, IntegerType, IntegerUnaryOp, NumberType, NumericOp, Sign,
};

/// Operators on one integer.
static INTEGER_UNARY: [(&str, IntegerUnaryOp); 3] = [
    ("clz", IntegerUnaryOp::Clz),
    ("ctz", IntegerUnaryOp::Ctz),
    ("popcnt", IntegerUnaryOp::Popcnt),
];

/// Operators on two integers.
static INTEGER_BINARY: [(&str, IntegerBinaryOp); 15] = [
    ("add", IntegerBinaryOp::Add),
    ("sub", IntegerBinaryOp::Sub),
    ("mul", IntegerBinaryOp::Mul),
    ("div_s", IntegerBinaryOp::Div(Sign::Signed)),
    ("div_u", IntegerBinaryOp::Div(Sign::Unsigned)),
    ("rem_s", IntegerBinaryOp::Rem(Sign::Signed)),
    ("rem_u", IntegerBinaryOp::Rem(Sign::Unsigned)),
    ("and", IntegerBinaryOp::And),
    ("or", IntegerBinaryOp::Or),
    ("xor", IntegerBinaryOp::Xor),
    ("shl", IntegerBinaryOp::Shl),
    ("shr_s", IntegerBinaryOp::Shr(Sign::Signed)),
    ("shr_u", IntegerBinaryOp::Shr(Sign::Unsigned)),
    ("rotl", IntegerBinaryOp::Rotl),
    ("rotr", IntegerBinaryOp::Rotr),
];

/// Comparisons of two integers.
static INTEGER_COMPARISON: [(&str, IntegerComparisonOp); 10] = [
    ("eq", IntegerComparisonOp::Eq),
    ("ne", IntegerComparisonOp::Ne),
    ("lt_s", IntegerComparisonOp::Lt(Sign::Signed)),
    ("lt_u", IntegerComparisonOp::Lt(Sign::Unsigned)),
    ("gt_s", IntegerComparisonOp::Gt(Sign::Signed)),
    ("gt_u", IntegerComparisonOp::Gt(Sign::Unsigned)),
    ("le_s", IntegerComparisonOp::Le(Sign::Signed)),
    ("le_u", IntegerComparisonOp::Le(Sign::Unsigned)),
    ("ge_s", IntegerComparisonOp::Ge(Sign::Signed)),
    ("ge_u", IntegerComparisonOp::Ge(Sign::Unsigned)),
];

/// Operators on one float.
static FLOAT_UNARY: [(&str, FloatUnaryOp); 7] = [
    ("abs", FloatUnaryOp::Abs),
    ("neg", FloatUnaryOp::Neg),
    ("ceil", FloatUnaryOp::Ceil),
    ("floor", FloatUnaryOp::Floor),
    ("trunc", FloatUnaryOp::Trunc),
    ("nearest", FloatUnaryOp::Nearest),
    ("sqrt", FloatUnaryOp::Sqrt),
];

/// Operators on two floats.
static FLOAT_BINARY: [(&str, FloatBinaryOp); 7] = [
    ("add", FloatBinaryOp::Add),
    ("sub", FloatBinaryOp::Sub),
    ("mul", FloatBinaryOp::Mul),
    ("div", FloatBinaryOp::Div),
    ("min", FloatBinaryOp::Min),
    ("max", FloatBinaryOp::Max),
    ("copysign", FloatBinaryOp::Copysign),
];

/// Comparisons of two floats.
static FLOAT_COMPARISON: [(&str, FloatComparisonOp); 6] = [
    ("eq", FloatComparisonOp::Eq),
    ("ne", FloatComparisonOp::Ne),
    ("lt", FloatComparisonOp::Lt),
    ("gt", FloatComparisonOp::Gt),
    ("le", FloatComparisonOp::Le),
    ("ge", FloatComparisonOp::Ge),
];

/// Operators on integers of 128 bits, each in two of 64.
static WIDE: [(&str, NumericOp); 4] = [
    ("add128", NumericOp::Add128),
    ("sub128", NumericOp::Sub128),
    ("mul_wide_s", NumericOp::MulWide(Sign::Signed)),
    ("mul_wide_u", NumericOp::MulWide(Sign::Unsigned)),
];

/// The type of numbers that a name begins with, and what stands behind it and a dot, if it begins so.
pub fn split_number_type(name: &str) -> Option<(NumberType, &str)> {
    let (ty, word) = name.split_at_checked(4)?;
    match ty {
        "i32." => Some((NumberType::I32, word)),
        "i64." => Some((NumberType::I64, word)),
        "f32." => Some((NumberType::F32, word)),
        "f64." => Some((NumberType::F64, word)),
        _ => None,
    }
}

/// The operator on numbers of this type that a word names, with these immediates, if there is one: a
/// constant, which is 0 without them, or one that takes none.
pub fn read_numeric(ty: NumberType, word: &str, immediates: &[&str]) -> Option<NumericOp> {
    match *immediates {
        [] if word == "const" => read_constant(ty, "0"),
        [] => numeric_operator(ty, word),
        [value] if word == "const" => read_constant(ty, value),
        _ => None,
    }
}

/// The constant of this type and value.
fn read_constant(ty: NumberType, value: &str) -> Option<NumericOp> {
    match ty {
        NumberType::I32 => Some(NumericOp::I32Const(read_i32(value)?)),
        NumberType::I64 => Some(NumericOp::I64Const(read_i64(value)?)),
        NumberType::F32 => Some(NumericOp::F32Const(Ieee32(read_index(value)?))),
        NumberType::F64 => Some(NumericOp::F64Const(Ieee64(read_u64(value)?))),
    }
}

/// The operator without immediates on numbers of this type that a word names, if there is one.
fn numeric_operator(ty: NumberType, word: &str) -> Option<NumericOp> {
    match ty {
        NumberType::I32 => integer_operator(IntegerType::I32, word),
        NumberType::I64 => match integer_operator(IntegerType::I64, word) {
            Some(op) => Some(op),
            None => named_in(&WIDE, word),
        },
        NumberType::F32 => float_operator(FloatType::F32, word),
        NumberType::F64 => float_operator(FloatType::F64, word),
    }
}

fn integer_operator(ty: IntegerType, word: &str) -> Option<NumericOp> {
    if let Some(op) = named_in(&INTEGER_BINARY, word) {
        return Some(NumericOp::IntegerBinary(ty, op));
    }
    if let Some(op) = named_in(&INTEGER_COMPARISON, word) {
        return Some(NumericOp::IntegerComparison(ty, op));
    }
    if word == "eqz" {
        return Some(NumericOp::Eqz(ty));
    }
    let op = named_in(&INTEGER_UNARY, word)?;
    Some(NumericOp::IntegerUnary(ty, op))
}

fn float_operator(ty: FloatType, word: &str) -> Option<NumericOp> {
    if let Some(op) = named_in(&FLOAT_BINARY, word) {
        return Some(NumericOp::FloatBinary(ty, op));
    }
    if let Some(op) = named_in(&FLOAT_COMPARISON, word) {
        return Some(NumericOp::FloatComparison(ty, op));
    }
    let op = named_in(&FLOAT_UNARY, word)?;
    Some(NumericOp::FloatUnary(ty, op))
}
