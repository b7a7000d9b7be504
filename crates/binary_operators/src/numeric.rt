//! Operators on numbers of one type, and conversions, by their codes (WebAssembly core specification, "Binary
//! Format: Instructions", "Numeric Instructions").
//!
//! `.ci/generate` writes the arrays from `operators.tsv`.

ghost use Rattle.std.specs.Prelude.{◌≡◌};
ghost use Rattle.binary_operators.specs.Forms.{from};
ghost use Rattle.binary_operators.specs.Numbers.{numeric_ops, conversion_ops};

use crate::forms::item;
use validate_visit::{
    ConvertOp, FloatBinaryOp, FloatComparisonOp, FloatType, FloatUnaryOp, IntegerBinaryOp,
    IntegerComparisonOp, IntegerType, IntegerUnaryOp, NumberType, NumericOp, PackedInteger, Sign,
};

/// The operators on numbers of one type, from code 0x45 to code 0xa6.
static NUMERIC: [NumericOp; 98] = [
    NumericOp::Eqz(IntegerType::I32),
    NumericOp::IntegerComparison(IntegerType::I32, IntegerComparisonOp::Eq),
    NumericOp::IntegerComparison(IntegerType::I32, IntegerComparisonOp::Ne),
    NumericOp::IntegerComparison(IntegerType::I32, IntegerComparisonOp::Lt(Sign::Signed)),
    NumericOp::IntegerComparison(IntegerType::I32, IntegerComparisonOp::Lt(Sign::Unsigned)),
    NumericOp::IntegerComparison(IntegerType::I32, IntegerComparisonOp::Gt(Sign::Signed)),
    NumericOp::IntegerComparison(IntegerType::I32, IntegerComparisonOp::Gt(Sign::Unsigned)),
    NumericOp::IntegerComparison(IntegerType::I32, IntegerComparisonOp::Le(Sign::Signed)),
    NumericOp::IntegerComparison(IntegerType::I32, IntegerComparisonOp::Le(Sign::Unsigned)),
    NumericOp::IntegerComparison(IntegerType::I32, IntegerComparisonOp::Ge(Sign::Signed)),
    NumericOp::IntegerComparison(IntegerType::I32, IntegerComparisonOp::Ge(Sign::Unsigned)),
    NumericOp::Eqz(IntegerType::I64),
    NumericOp::IntegerComparison(IntegerType::I64, IntegerComparisonOp::Eq),
    NumericOp::IntegerComparison(IntegerType::I64, IntegerComparisonOp::Ne),
    NumericOp::IntegerComparison(IntegerType::I64, IntegerComparisonOp::Lt(Sign::Signed)),
    NumericOp::IntegerComparison(IntegerType::I64, IntegerComparisonOp::Lt(Sign::Unsigned)),
    NumericOp::IntegerComparison(IntegerType::I64, IntegerComparisonOp::Gt(Sign::Signed)),
    NumericOp::IntegerComparison(IntegerType::I64, IntegerComparisonOp::Gt(Sign::Unsigned)),
    NumericOp::IntegerComparison(IntegerType::I64, IntegerComparisonOp::Le(Sign::Signed)),
    NumericOp::IntegerComparison(IntegerType::I64, IntegerComparisonOp::Le(Sign::Unsigned)),
    NumericOp::IntegerComparison(IntegerType::I64, IntegerComparisonOp::Ge(Sign::Signed)),
    NumericOp::IntegerComparison(IntegerType::I64, IntegerComparisonOp::Ge(Sign::Unsigned)),
    NumericOp::FloatComparison(FloatType::F32, FloatComparisonOp::Eq),
    NumericOp::FloatComparison(FloatType::F32, FloatComparisonOp::Ne),
    NumericOp::FloatComparison(FloatType::F32, FloatComparisonOp::Lt),
    NumericOp::FloatComparison(FloatType::F32, FloatComparisonOp::Gt),
    NumericOp::FloatComparison(FloatType::F32, FloatComparisonOp::Le),
    NumericOp::FloatComparison(FloatType::F32, FloatComparisonOp::Ge),
    NumericOp::FloatComparison(FloatType::F64, FloatComparisonOp::Eq),
    NumericOp::FloatComparison(FloatType::F64, FloatComparisonOp::Ne),
    NumericOp::FloatComparison(FloatType::F64, FloatComparisonOp::Lt),
    NumericOp::FloatComparison(FloatType::F64, FloatComparisonOp::Gt),
    NumericOp::FloatComparison(FloatType::F64, FloatComparisonOp::Le),
    NumericOp::FloatComparison(FloatType::F64, FloatComparisonOp::Ge),
    NumericOp::IntegerUnary(IntegerType::I32, IntegerUnaryOp::Clz),
    NumericOp::IntegerUnary(IntegerType::I32, IntegerUnaryOp::Ctz),
    NumericOp::IntegerUnary(IntegerType::I32, IntegerUnaryOp::Popcnt),
    NumericOp::IntegerBinary(IntegerType::I32, IntegerBinaryOp::Add),
    NumericOp::IntegerBinary(IntegerType::I32, IntegerBinaryOp::Sub),
    NumericOp::IntegerBinary(IntegerType::I32, IntegerBinaryOp::Mul),
    NumericOp::IntegerBinary(IntegerType::I32, IntegerBinaryOp::Div(Sign::Signed)),
    NumericOp::IntegerBinary(IntegerType::I32, IntegerBinaryOp::Div(Sign::Unsigned)),
    NumericOp::IntegerBinary(IntegerType::I32, IntegerBinaryOp::Rem(Sign::Signed)),
    NumericOp::IntegerBinary(IntegerType::I32, IntegerBinaryOp::Rem(Sign::Unsigned)),
    NumericOp::IntegerBinary(IntegerType::I32, IntegerBinaryOp::And),
    NumericOp::IntegerBinary(IntegerType::I32, IntegerBinaryOp::Or),
    NumericOp::IntegerBinary(IntegerType::I32, IntegerBinaryOp::Xor),
    NumericOp::IntegerBinary(IntegerType::I32, IntegerBinaryOp::Shl),
    NumericOp::IntegerBinary(IntegerType::I32, IntegerBinaryOp::Shr(Sign::Signed)),
    NumericOp::IntegerBinary(IntegerType::I32, IntegerBinaryOp::Shr(Sign::Unsigned)),
    NumericOp::IntegerBinary(IntegerType::I32, IntegerBinaryOp::Rotl),
    NumericOp::IntegerBinary(IntegerType::I32, IntegerBinaryOp::Rotr),
    NumericOp::IntegerUnary(IntegerType::I64, IntegerUnaryOp::Clz),
    NumericOp::IntegerUnary(IntegerType::I64, IntegerUnaryOp::Ctz),
    NumericOp::IntegerUnary(IntegerType::I64, IntegerUnaryOp::Popcnt),
    NumericOp::IntegerBinary(IntegerType::I64, IntegerBinaryOp::Add),
    NumericOp::IntegerBinary(IntegerType::I64, IntegerBinaryOp::Sub),
    NumericOp::IntegerBinary(IntegerType::I64, IntegerBinaryOp::Mul),
    NumericOp::IntegerBinary(IntegerType::I64, IntegerBinaryOp::Div(Sign::Signed)),
    NumericOp::IntegerBinary(IntegerType::I64, IntegerBinaryOp::Div(Sign::Unsigned)),
    NumericOp::IntegerBinary(IntegerType::I64, IntegerBinaryOp::Rem(Sign::Signed)),
    NumericOp::IntegerBinary(IntegerType::I64, IntegerBinaryOp::Rem(Sign::Unsigned)),
    NumericOp::IntegerBinary(IntegerType::I64, IntegerBinaryOp::And),
    NumericOp::IntegerBinary(IntegerType::I64, IntegerBinaryOp::Or),
    NumericOp::IntegerBinary(IntegerType::I64, IntegerBinaryOp::Xor),
    NumericOp::IntegerBinary(IntegerType::I64, IntegerBinaryOp::Shl),
    NumericOp::IntegerBinary(IntegerType::I64, IntegerBinaryOp::Shr(Sign::Signed)),
    NumericOp::IntegerBinary(IntegerType::I64, IntegerBinaryOp::Shr(Sign::Unsigned)),
    NumericOp::IntegerBinary(IntegerType::I64, IntegerBinaryOp::Rotl),
    NumericOp::IntegerBinary(IntegerType::I64, IntegerBinaryOp::Rotr),
    NumericOp::FloatUnary(FloatType::F32, FloatUnaryOp::Abs),
    NumericOp::FloatUnary(FloatType::F32, FloatUnaryOp::Neg),
    NumericOp::FloatUnary(FloatType::F32, FloatUnaryOp::Ceil),
    NumericOp::FloatUnary(FloatType::F32, FloatUnaryOp::Floor),
    NumericOp::FloatUnary(FloatType::F32, FloatUnaryOp::Trunc),
    NumericOp::FloatUnary(FloatType::F32, FloatUnaryOp::Nearest),
    NumericOp::FloatUnary(FloatType::F32, FloatUnaryOp::Sqrt),
    NumericOp::FloatBinary(FloatType::F32, FloatBinaryOp::Add),
    NumericOp::FloatBinary(FloatType::F32, FloatBinaryOp::Sub),
    NumericOp::FloatBinary(FloatType::F32, FloatBinaryOp::Mul),
    NumericOp::FloatBinary(FloatType::F32, FloatBinaryOp::Div),
    NumericOp::FloatBinary(FloatType::F32, FloatBinaryOp::Min),
    NumericOp::FloatBinary(FloatType::F32, FloatBinaryOp::Max),
    NumericOp::FloatBinary(FloatType::F32, FloatBinaryOp::Copysign),
    NumericOp::FloatUnary(FloatType::F64, FloatUnaryOp::Abs),
    NumericOp::FloatUnary(FloatType::F64, FloatUnaryOp::Neg),
    NumericOp::FloatUnary(FloatType::F64, FloatUnaryOp::Ceil),
    NumericOp::FloatUnary(FloatType::F64, FloatUnaryOp::Floor),
    NumericOp::FloatUnary(FloatType::F64, FloatUnaryOp::Trunc),
    NumericOp::FloatUnary(FloatType::F64, FloatUnaryOp::Nearest),
    NumericOp::FloatUnary(FloatType::F64, FloatUnaryOp::Sqrt),
    NumericOp::FloatBinary(FloatType::F64, FloatBinaryOp::Add),
    NumericOp::FloatBinary(FloatType::F64, FloatBinaryOp::Sub),
    NumericOp::FloatBinary(FloatType::F64, FloatBinaryOp::Mul),
    NumericOp::FloatBinary(FloatType::F64, FloatBinaryOp::Div),
    NumericOp::FloatBinary(FloatType::F64, FloatBinaryOp::Min),
    NumericOp::FloatBinary(FloatType::F64, FloatBinaryOp::Max),
    NumericOp::FloatBinary(FloatType::F64, FloatBinaryOp::Copysign),
];

/// The conversions, from code 0xa7 to code 0xc4.
static CONVERSIONS: [ConvertOp; 30] = [
    ConvertOp::Wrap,
    ConvertOp::Trunc(IntegerType::I32, FloatType::F32, Sign::Signed),
    ConvertOp::Trunc(IntegerType::I32, FloatType::F32, Sign::Unsigned),
    ConvertOp::Trunc(IntegerType::I32, FloatType::F64, Sign::Signed),
    ConvertOp::Trunc(IntegerType::I32, FloatType::F64, Sign::Unsigned),
    ConvertOp::Extend(Sign::Signed),
    ConvertOp::Extend(Sign::Unsigned),
    ConvertOp::Trunc(IntegerType::I64, FloatType::F32, Sign::Signed),
    ConvertOp::Trunc(IntegerType::I64, FloatType::F32, Sign::Unsigned),
    ConvertOp::Trunc(IntegerType::I64, FloatType::F64, Sign::Signed),
    ConvertOp::Trunc(IntegerType::I64, FloatType::F64, Sign::Unsigned),
    ConvertOp::Convert(FloatType::F32, IntegerType::I32, Sign::Signed),
    ConvertOp::Convert(FloatType::F32, IntegerType::I32, Sign::Unsigned),
    ConvertOp::Convert(FloatType::F32, IntegerType::I64, Sign::Signed),
    ConvertOp::Convert(FloatType::F32, IntegerType::I64, Sign::Unsigned),
    ConvertOp::Demote,
    ConvertOp::Convert(FloatType::F64, IntegerType::I32, Sign::Signed),
    ConvertOp::Convert(FloatType::F64, IntegerType::I32, Sign::Unsigned),
    ConvertOp::Convert(FloatType::F64, IntegerType::I64, Sign::Signed),
    ConvertOp::Convert(FloatType::F64, IntegerType::I64, Sign::Unsigned),
    ConvertOp::Promote,
    ConvertOp::Reinterpret(NumberType::I32),
    ConvertOp::Reinterpret(NumberType::I64),
    ConvertOp::Reinterpret(NumberType::F32),
    ConvertOp::Reinterpret(NumberType::F64),
    ConvertOp::ExtendPacked(PackedInteger::I32Bits8),
    ConvertOp::ExtendPacked(PackedInteger::I32Bits16),
    ConvertOp::ExtendPacked(PackedInteger::I64Bits8),
    ConvertOp::ExtendPacked(PackedInteger::I64Bits16),
    ConvertOp::ExtendPacked(PackedInteger::I64Bits32),
];

/// The operator on numbers of this code, if there is one.
#[inline(always)]
pub fn numeric_op(code: u32) -> Option<NumericOp>
    ensures { result ≡ from 0x45 numeric_ops code }
{
    item(&NUMERIC, 0x45, code)
}

/// The conversion of this code, if there is one.
pub fn conversion_op(code: u32) -> Option<ConvertOp>
    ensures { result ≡ from 0xa7 conversion_ops code }
{
    item(&CONVERSIONS, 0xa7, code)
}
