//! Loads and stores, and atomic operators on an address, with what they access.

use crate::atomic::ATOMIC_OPERATORS;
use crate::memory::LOADS_AND_STORES;
use crate::parts::{named_in, read_access};
use validate_visit::{IntegerType, NumberType, Op, PackedInteger};

/// The operator of this name with the access that these words write, if it has one.
pub fn read_accessing(name: &str, words: &[&str]) -> Option<Op<'static>> {
    if let Some(named) = named_in(&LOADS_AND_STORES, name) {
        let access = read_access(words, named.natural_alignment())?;
        return Some(Op::Memory(named.op(access)));
    }
    let named = named_in(&ATOMIC_OPERATORS, name)?;
    let access = read_access(words, named.natural_alignment())?;
    Some(Op::Atomic(named.op(access)))
}

/// The alignment that is natural for a number, as an exponent of 2.
pub fn number_alignment(ty: NumberType) -> u8 {
    match ty {
        NumberType::I32 | NumberType::F32 => 2,
        NumberType::I64 | NumberType::F64 => 3,
    }
}

/// The same for an integer.
pub fn integer_alignment(ty: IntegerType) -> u8 {
    match ty {
        IntegerType::I32 => 2,
        IntegerType::I64 => 3,
    }
}

/// The same for a part of an integer.
pub fn part_alignment(part: PackedInteger) -> u8 {
    match part {
        PackedInteger::I32Bits8 | PackedInteger::I64Bits8 => 0,
        PackedInteger::I32Bits16 | PackedInteger::I64Bits16 => 1,
        PackedInteger::I64Bits32 => 2,
    }
}
