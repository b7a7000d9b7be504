//! Types of numbers, as operators name them.

ghost use Rattle.std.specs.Prelude.{◌≡◌};
ghost use Rattle.validate_visit.specs.Numbers.{reinterpreted_type};

/// A type of numbers (`numtype` of the standard).
#[derive(Clone, Copy, Debug, PartialEq, Eq)]
pub enum NumberType {
    /// Integers of 32 bits.
    I32,
    /// Integers of 64 bits.
    I64,
    /// Floats of 32 bits.
    F32,
    /// Floats of 64 bits.
    F64,
}

/// A type of integers (`inn` of the standard).
#[derive(Clone, Copy, Debug, PartialEq, Eq)]
pub enum IntegerType {
    /// Integers of 32 bits.
    I32,
    /// Integers of 64 bits.
    I64,
}

/// A type of floats (`fnn` of the standard).
#[derive(Clone, Copy, Debug, PartialEq, Eq)]
pub enum FloatType {
    /// Floats of 32 bits.
    F32,
    /// Floats of 64 bits.
    F64,
}

/// A type of integers, and fewer bits than it has, which are read, written or extended to it.
#[derive(Clone, Copy, Debug, PartialEq, Eq)]
pub enum PackedInteger {
    /// 8 bits of an `i32`.
    I32Bits8,
    /// 16 bits of an `i32`.
    I32Bits16,
    /// 8 bits of an `i64`.
    I64Bits8,
    /// 16 bits of an `i64`.
    I64Bits16,
    /// 32 bits of an `i64`.
    I64Bits32,
}

/// How the bits of an integer are read (`sx` of the standard).
#[derive(Clone, Copy, Debug, PartialEq, Eq)]
pub enum Sign {
    /// With a sign.
    Signed,
    /// Without one.
    Unsigned,
}

impl NumberType {
    /// The other type of as many bits.
    pub fn reinterpreted(self) -> NumberType
        ensures { result ≡ reinterpreted_type self }
    {
        match self {
            NumberType::I32 => NumberType::F32,
            NumberType::I64 => NumberType::F64,
            NumberType::F32 => NumberType::I32,
            NumberType::F64 => NumberType::I64,
        }
    }
}
