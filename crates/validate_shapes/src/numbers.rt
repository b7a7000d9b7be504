//! The types of numbers that operators name, as types of values.

ghost use Rattle.std.specs.Prelude.{◌≡◌, true, [], ◌∷◌};
ghost use Rattle.validate_resources.specs.Context.{is_number_or_vector};
ghost use Rattle.validate_visit.specs.Numbers.{number_type, integer_type, float_type, packed_type, access_type};

use validate_types::ValType;
use validate_visit::{AtomicAccess, FloatType, IntegerType, NumberType, PackedInteger};

/// That of any number.
#[inline(always)]
pub fn number(ty: NumberType) -> ValType
    ensures same { result ≡ number_type ty }
    ensures number { is_number_or_vector result ≡ true }
{
    match ty {
        NumberType::I32 => ValType::I32,
        NumberType::I64 => ValType::I64,
        NumberType::F32 => ValType::F32,
        NumberType::F64 => ValType::F64,
    }
}

/// That of an integer.
#[inline(always)]
pub fn integer(ty: IntegerType) -> ValType
    ensures same { result ≡ integer_type ty }
    ensures number { is_number_or_vector result ≡ true }
{
    match ty {
        IntegerType::I32 => ValType::I32,
        IntegerType::I64 => ValType::I64,
    }
}

/// That of the whole integer.
#[inline(always)]
pub fn packed(part: PackedInteger) -> ValType
    ensures same { result ≡ packed_type part }
    ensures number { is_number_or_vector result ≡ true }
{
    match part {
        PackedInteger::I32Bits8 | PackedInteger::I32Bits16 => ValType::I32,
        PackedInteger::I64Bits8 | PackedInteger::I64Bits16 | PackedInteger::I64Bits32 => {
            ValType::I64
        }
    }
}

/// That of what an atomic operator accesses.
#[inline(always)]
pub fn accessed(access: AtomicAccess) -> ValType
    ensures same { result ≡ access_type access }
    ensures number { is_number_or_vector result ≡ true }
{
    match access {
        AtomicAccess::Whole(ty) => integer(ty),
        AtomicAccess::Packed(part) => packed(part),
    }
}

/// The fast lane of [`crate::plain::plain`] hands this on: a list of one number or vector type. It is a
/// constant, so that it doesn't lie in memory; a list written in its place is the same.
#[inline(always)]
pub fn once(ty: ValType) -> &'static [ValType]
    requires { is_number_or_vector ty ≡ true }
    ensures { result.now ≡ ty ∷ [] }
{
    match ty {
        ValType::I32 => &[ValType::I32],
        ValType::I64 => &[ValType::I64],
        ValType::F32 => &[ValType::F32],
        ValType::F64 => &[ValType::F64],
        ValType::V128 => &[ValType::V128],
        ValType::Ref(_) => unreachable!(),
    }
}

/// The fast lane of [`crate::plain::plain`] hands this on: a list of one number or vector type, twice. It is
/// a constant, as [`once`].
#[inline(always)]
pub fn twice(ty: ValType) -> &'static [ValType]
    requires { is_number_or_vector ty ≡ true }
    ensures { result.now ≡ ty ∷ ty ∷ [] }
{
    match ty {
        ValType::I32 => &[ValType::I32, ValType::I32],
        ValType::I64 => &[ValType::I64, ValType::I64],
        ValType::F32 => &[ValType::F32, ValType::F32],
        ValType::F64 => &[ValType::F64, ValType::F64],
        ValType::V128 => &[ValType::V128, ValType::V128],
        ValType::Ref(_) => unreachable!(),
    }
}
