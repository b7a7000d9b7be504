//! Atomic operators, behind the prefix 0xfe (the proposals "Threads" and "Shared-Everything Threads").
//!
//! `.ci/generate` writes the arrays from `operators.tsv`.

ghost use Rattle.std.specs.Prelude.{◌≡◌, Some, None, option_map, IfOk, IfErr, OnErr};
ghost use Rattle.binary_operators.specs.Atomics.{atomic_at, global_accesses, table_accesses, field_accesses};
ghost use Rattle.binary_operators.specs.Forms.{from};
ghost use Rattle.binary_operators.specs.Immediates.{ordering};
ghost use Rattle.binary_operators.specs.Unplaced.{unplaced};
ghost use Rattle.binary_operators.specs.Vectors.{IsNoVector};

use crate::codes::natural;
use crate::error::{Fault, ReadError};
use crate::forms::item;
use crate::reader::BinaryReader;
use validate_visit::{
    AtomicAccess, AtomicOp, AtomicRmwOp, Exchange, FieldAccess, IntegerType, MemArg, Op, Ordering,
    PackedInteger, SharedRmwOp, Sign, Update,
};

/// What is accessed in a memory, by the order of the codes, and its natural alignment.
static ACCESSED: [(AtomicAccess, u8); 7] = [
    (AtomicAccess::Whole(IntegerType::I32), 2),
    (AtomicAccess::Whole(IntegerType::I64), 3),
    (AtomicAccess::Packed(PackedInteger::I32Bits8), 0),
    (AtomicAccess::Packed(PackedInteger::I32Bits16), 1),
    (AtomicAccess::Packed(PackedInteger::I64Bits8), 0),
    (AtomicAccess::Packed(PackedInteger::I64Bits16), 1),
    (AtomicAccess::Packed(PackedInteger::I64Bits32), 2),
];

/// What is done with a table's element, by the order of the codes.
static TABLE_ACCESSES: [Exchange; 4] = [
    Exchange::Get,
    Exchange::Set,
    Exchange::Xchg,
    Exchange::Cmpxchg,
];

/// What is done with a global, by the order of the codes.
static GLOBAL_ACCESSES: [Update; 9] = [
    Update::Value(Exchange::Get),
    Update::Value(Exchange::Set),
    Update::Rmw(SharedRmwOp::Add),
    Update::Rmw(SharedRmwOp::Sub),
    Update::Rmw(SharedRmwOp::And),
    Update::Rmw(SharedRmwOp::Or),
    Update::Rmw(SharedRmwOp::Xor),
    Update::Value(Exchange::Xchg),
    Update::Value(Exchange::Cmpxchg),
];

/// What is done with a field or with a place of an array, by the order of the codes.
static FIELD_ACCESSES: [FieldAccess; 11] = [
    FieldAccess::Whole(Update::Value(Exchange::Get)),
    FieldAccess::GetPacked(Sign::Signed),
    FieldAccess::GetPacked(Sign::Unsigned),
    FieldAccess::Whole(Update::Value(Exchange::Set)),
    FieldAccess::Whole(Update::Rmw(SharedRmwOp::Add)),
    FieldAccess::Whole(Update::Rmw(SharedRmwOp::Sub)),
    FieldAccess::Whole(Update::Rmw(SharedRmwOp::And)),
    FieldAccess::Whole(Update::Rmw(SharedRmwOp::Or)),
    FieldAccess::Whole(Update::Rmw(SharedRmwOp::Xor)),
    FieldAccess::Whole(Update::Value(Exchange::Xchg)),
    FieldAccess::Whole(Update::Value(Exchange::Cmpxchg)),
];

/// The operator that accesses this place, whose code is so many above 0xfe10.
#[tactic(auto, unfolding(crate::specs::Atomics::atomic_at, crate::specs::Atomics::accessed))]
pub(crate) fn atomic_op<'l>(place: u32, m: MemArg) -> Option<Op<'l>>
    ensures { option_map (λ op. unplaced op) result ≡ atomic_at place m }
{
    let (access, max_align) = item(&ACCESSED, 0, place % 7)?;
    let m = natural(max_align, m);
    let op = match place / 7 {
        0 => AtomicOp::AtomicLoad(access, m),
        1 => AtomicOp::AtomicStore(access, m),
        2 => AtomicOp::AtomicRmw(access, AtomicRmwOp::Add, m),
        3 => AtomicOp::AtomicRmw(access, AtomicRmwOp::Sub, m),
        4 => AtomicOp::AtomicRmw(access, AtomicRmwOp::And, m),
        5 => AtomicOp::AtomicRmw(access, AtomicRmwOp::Or, m),
        6 => AtomicOp::AtomicRmw(access, AtomicRmwOp::Xor, m),
        7 => AtomicOp::AtomicRmw(access, AtomicRmwOp::Xchg, m),
        8 => AtomicOp::AtomicCmpxchg(access, m),
        _ => return None,
    };
    Some(Op::Atomic(op))
}

/// What the operator of this code does with a global.
#[tactic(auto, unfolding(crate::specs::Atomics::global_accesses))]
pub(crate) fn global_access(code: u32) -> Option<Update>
    ensures { result ≡ from 0xfe4f global_accesses code }
{
    item(&GLOBAL_ACCESSES, 0xfe4f, code)
}

/// What the operator of this code does with an element of a table.
#[tactic(auto, unfolding(crate::specs::Atomics::table_accesses))]
pub(crate) fn table_access(code: u32) -> Option<Exchange>
    ensures { result ≡ from 0xfe58 table_accesses code }
{
    item(&TABLE_ACCESSES, 0xfe58, code)
}

/// What the operator of this code does with a field, or with a place of an array, where the first code is
/// this one.
#[tactic(auto, unfolding(crate::specs::Atomics::field_accesses))]
pub(crate) fn field_access(first: u32, code: u32) -> Option<FieldAccess>
    ensures { result ≡ from first field_accesses code }
{
    item(&FIELD_ACCESSES, first, code)
}

/// Reads the order of an atomic operator. It refuses `invalid atomic ordering`.
#[tactic(auto, unfolding(crate::specs::Immediates::ordering))]
pub(crate) fn read_ordering(reader: &mut BinaryReader<'_>) -> Result<Ordering, ReadError>
    ensures read { IfOk result (λ order. ordering reader.old.left ≡ Some (order, reader.new.left)) }
    ensures refused { OnErr result (ordering reader.old.left ≡ None) }
    ensures covered { IfErr result IsNoVector }
{
    let offset = reader.offset();
    match reader.read_u8()? {
        0 => Ok(Ordering::SeqCst),
        1 => Ok(Ordering::AcqRel),
        _ => Err(ReadError::malformed(Fault::InvalidAtomicOrdering, offset)),
    }
}
