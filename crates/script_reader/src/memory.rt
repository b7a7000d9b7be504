//! Loads and stores by their names.
//!
//! `.ci/generate` writes the table from `operators.tsv`.

use self::LoadOrStore::{Load, LoadPacked, Store, StorePacked};
use crate::access::{number_alignment, part_alignment};
use validate_visit::NumberType::{F32, F64, I32, I64};
use validate_visit::PackedInteger::{I32Bits8, I32Bits16, I64Bits8, I64Bits16, I64Bits32};
use validate_visit::Sign::{Signed, Unsigned};
use validate_visit::{MemArg, MemoryOp, NumberType, PackedInteger, Sign};

/// A load or a store, without what it accesses.
#[derive(Clone, Copy)]
pub enum LoadOrStore {
    /// A load of a number.
    Load(NumberType),
    /// A load of a part of an integer.
    LoadPacked(PackedInteger, Sign),
    /// A store of a number.
    Store(NumberType),
    /// A store of a part of an integer.
    StorePacked(PackedInteger),
}

impl LoadOrStore {
    /// The alignment that is natural for it, as an exponent of 2.
    pub fn natural_alignment(self) -> u8 {
        match self {
            LoadOrStore::Load(ty) | LoadOrStore::Store(ty) => number_alignment(ty),
            LoadOrStore::LoadPacked(part, _) | LoadOrStore::StorePacked(part) => part_alignment(
                part,
            ),
        }
    }

    /// The operator that accesses this.
    pub fn op(self, access: MemArg) -> MemoryOp {
        match self {
            LoadOrStore::Load(ty) => MemoryOp::Load(ty, access),
            LoadOrStore::LoadPacked(part, sign) => MemoryOp::LoadPacked(part, sign, access),
            LoadOrStore::Store(ty) => MemoryOp::Store(ty, access),
            LoadOrStore::StorePacked(part) => MemoryOp::StorePacked(part, access),
        }
    }
}

/// The loads and the stores.
pub static LOADS_AND_STORES: [(&str, LoadOrStore); 23] = [
    ("i32.load", Load(I32)),
    ("i64.load", Load(I64)),
    ("f32.load", Load(F32)),
    ("f64.load", Load(F64)),
    ("i32.load8_s", LoadPacked(I32Bits8, Signed)),
    ("i32.load8_u", LoadPacked(I32Bits8, Unsigned)),
    ("i32.load16_s", LoadPacked(I32Bits16, Signed)),
    ("i32.load16_u", LoadPacked(I32Bits16, Unsigned)),
    ("i64.load8_s", LoadPacked(I64Bits8, Signed)),
    ("i64.load8_u", LoadPacked(I64Bits8, Unsigned)),
    ("i64.load16_s", LoadPacked(I64Bits16, Signed)),
    ("i64.load16_u", LoadPacked(I64Bits16, Unsigned)),
    ("i64.load32_s", LoadPacked(I64Bits32, Signed)),
    ("i64.load32_u", LoadPacked(I64Bits32, Unsigned)),
    ("i32.store", Store(I32)),
    ("i64.store", Store(I64)),
    ("f32.store", Store(F32)),
    ("f64.store", Store(F64)),
    ("i32.store8", StorePacked(I32Bits8)),
    ("i32.store16", StorePacked(I32Bits16)),
    ("i64.store8", StorePacked(I64Bits8)),
    ("i64.store16", StorePacked(I64Bits16)),
    ("i64.store32", StorePacked(I64Bits32)),
];
