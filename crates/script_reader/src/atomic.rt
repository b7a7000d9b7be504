//! Atomic operators on an address by their names.
//!
//! `.ci/generate` writes the table from `operators.tsv`.

use self::AtomicOnAddress::{Cmpxchg, Load, Notify, Rmw, Store, Wait};
use crate::access::{integer_alignment, part_alignment};
use validate_visit::AtomicAccess::{Packed, Whole};
use validate_visit::AtomicRmwOp::{Add, And, Or, Sub, Xchg, Xor};
use validate_visit::{AtomicAccess, AtomicOp, AtomicRmwOp, IntegerType, MemArg, PackedInteger};

/// An atomic operator on an address, without what it accesses.
#[derive(Clone, Copy)]
pub enum AtomicOnAddress {
    /// It notifies those that wait.
    Notify,
    /// It waits for an integer of this type.
    Wait(IntegerType),
    /// It loads.
    Load(AtomicAccess),
    /// It stores.
    Store(AtomicAccess),
    /// It modifies what it gives.
    Rmw(AtomicAccess, AtomicRmwOp),
    /// It compares, and exchanges.
    Cmpxchg(AtomicAccess),
}

impl AtomicOnAddress {
    /// The alignment that is natural for it, as an exponent of 2.
    pub fn natural_alignment(self) -> u8 {
        match self {
            AtomicOnAddress::Notify => integer_alignment(IntegerType::I32),
            AtomicOnAddress::Wait(ty) => integer_alignment(ty),
            AtomicOnAddress::Load(part)
            | AtomicOnAddress::Store(part)
            | AtomicOnAddress::Rmw(part, _)
            | AtomicOnAddress::Cmpxchg(part) => access_alignment(part),
        }
    }

    /// The operator that accesses this.
    pub fn op(self, access: MemArg) -> AtomicOp {
        match self {
            AtomicOnAddress::Notify => AtomicOp::AtomicNotify(access),
            AtomicOnAddress::Wait(ty) => AtomicOp::AtomicWait(ty, access),
            AtomicOnAddress::Load(part) => AtomicOp::AtomicLoad(part, access),
            AtomicOnAddress::Store(part) => AtomicOp::AtomicStore(part, access),
            AtomicOnAddress::Rmw(part, rmw) => AtomicOp::AtomicRmw(part, rmw, access),
            AtomicOnAddress::Cmpxchg(part) => AtomicOp::AtomicCmpxchg(part, access),
        }
    }
}

fn access_alignment(access: AtomicAccess) -> u8 {
    match access {
        Whole(ty) => integer_alignment(ty),
        Packed(part) => part_alignment(part),
    }
}

const I32: AtomicAccess = Whole(IntegerType::I32);

const I64: AtomicAccess = Whole(IntegerType::I64);

const I32_8: AtomicAccess = Packed(PackedInteger::I32Bits8);

const I32_16: AtomicAccess = Packed(PackedInteger::I32Bits16);

const I64_8: AtomicAccess = Packed(PackedInteger::I64Bits8);

const I64_16: AtomicAccess = Packed(PackedInteger::I64Bits16);

const I64_32: AtomicAccess = Packed(PackedInteger::I64Bits32);

/// The atomic operators on an address.
pub static ATOMIC_OPERATORS: [(&str, AtomicOnAddress); 66] = [
    ("memory.atomic.notify", Notify),
    ("memory.atomic.wait32", Wait(IntegerType::I32)),
    ("memory.atomic.wait64", Wait(IntegerType::I64)),
    ("i32.atomic.load", Load(I32)),
    ("i64.atomic.load", Load(I64)),
    ("i32.atomic.load8_u", Load(I32_8)),
    ("i32.atomic.load16_u", Load(I32_16)),
    ("i64.atomic.load8_u", Load(I64_8)),
    ("i64.atomic.load16_u", Load(I64_16)),
    ("i64.atomic.load32_u", Load(I64_32)),
    ("i32.atomic.store", Store(I32)),
    ("i64.atomic.store", Store(I64)),
    ("i32.atomic.store8", Store(I32_8)),
    ("i32.atomic.store16", Store(I32_16)),
    ("i64.atomic.store8", Store(I64_8)),
    ("i64.atomic.store16", Store(I64_16)),
    ("i64.atomic.store32", Store(I64_32)),
    ("i32.atomic.rmw.add", Rmw(I32, Add)),
    ("i64.atomic.rmw.add", Rmw(I64, Add)),
    ("i32.atomic.rmw8.add_u", Rmw(I32_8, Add)),
    ("i32.atomic.rmw16.add_u", Rmw(I32_16, Add)),
    ("i64.atomic.rmw8.add_u", Rmw(I64_8, Add)),
    ("i64.atomic.rmw16.add_u", Rmw(I64_16, Add)),
    ("i64.atomic.rmw32.add_u", Rmw(I64_32, Add)),
    ("i32.atomic.rmw.sub", Rmw(I32, Sub)),
    ("i64.atomic.rmw.sub", Rmw(I64, Sub)),
    ("i32.atomic.rmw8.sub_u", Rmw(I32_8, Sub)),
    ("i32.atomic.rmw16.sub_u", Rmw(I32_16, Sub)),
    ("i64.atomic.rmw8.sub_u", Rmw(I64_8, Sub)),
    ("i64.atomic.rmw16.sub_u", Rmw(I64_16, Sub)),
    ("i64.atomic.rmw32.sub_u", Rmw(I64_32, Sub)),
    ("i32.atomic.rmw.and", Rmw(I32, And)),
    ("i64.atomic.rmw.and", Rmw(I64, And)),
    ("i32.atomic.rmw8.and_u", Rmw(I32_8, And)),
    ("i32.atomic.rmw16.and_u", Rmw(I32_16, And)),
    ("i64.atomic.rmw8.and_u", Rmw(I64_8, And)),
    ("i64.atomic.rmw16.and_u", Rmw(I64_16, And)),
    ("i64.atomic.rmw32.and_u", Rmw(I64_32, And)),
    ("i32.atomic.rmw.or", Rmw(I32, Or)),
    ("i64.atomic.rmw.or", Rmw(I64, Or)),
    ("i32.atomic.rmw8.or_u", Rmw(I32_8, Or)),
    ("i32.atomic.rmw16.or_u", Rmw(I32_16, Or)),
    ("i64.atomic.rmw8.or_u", Rmw(I64_8, Or)),
    ("i64.atomic.rmw16.or_u", Rmw(I64_16, Or)),
    ("i64.atomic.rmw32.or_u", Rmw(I64_32, Or)),
    ("i32.atomic.rmw.xor", Rmw(I32, Xor)),
    ("i64.atomic.rmw.xor", Rmw(I64, Xor)),
    ("i32.atomic.rmw8.xor_u", Rmw(I32_8, Xor)),
    ("i32.atomic.rmw16.xor_u", Rmw(I32_16, Xor)),
    ("i64.atomic.rmw8.xor_u", Rmw(I64_8, Xor)),
    ("i64.atomic.rmw16.xor_u", Rmw(I64_16, Xor)),
    ("i64.atomic.rmw32.xor_u", Rmw(I64_32, Xor)),
    ("i32.atomic.rmw.xchg", Rmw(I32, Xchg)),
    ("i64.atomic.rmw.xchg", Rmw(I64, Xchg)),
    ("i32.atomic.rmw8.xchg_u", Rmw(I32_8, Xchg)),
    ("i32.atomic.rmw16.xchg_u", Rmw(I32_16, Xchg)),
    ("i64.atomic.rmw8.xchg_u", Rmw(I64_8, Xchg)),
    ("i64.atomic.rmw16.xchg_u", Rmw(I64_16, Xchg)),
    ("i64.atomic.rmw32.xchg_u", Rmw(I64_32, Xchg)),
    ("i32.atomic.rmw.cmpxchg", Cmpxchg(I32)),
    ("i64.atomic.rmw.cmpxchg", Cmpxchg(I64)),
    ("i32.atomic.rmw8.cmpxchg_u", Cmpxchg(I32_8)),
    ("i32.atomic.rmw16.cmpxchg_u", Cmpxchg(I32_16)),
    ("i64.atomic.rmw8.cmpxchg_u", Cmpxchg(I64_8)),
    ("i64.atomic.rmw16.cmpxchg_u", Cmpxchg(I64_16)),
    ("i64.atomic.rmw32.cmpxchg_u", Cmpxchg(I64_32)),
];
