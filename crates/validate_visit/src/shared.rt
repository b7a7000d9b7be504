//! Operators of shared-everything threads as data: atomic accesses to what threads may share.

use crate::memory::Ordering;
use crate::numbers::Sign;
use crate::op::FieldIndex;

/// Atomic operators on globals, tables, structs and arrays, and `ref.i31_shared` (proposal
/// "shared-everything-threads").
#[derive(Clone, Copy)]
pub enum SharedOp {
    /// `global.atomic.get` and its kin.
    Global {
        /// What is done.
        access: Update,
        /// How it is ordered among others.
        ordering: Ordering,
        /// The global at this index.
        global_index: u32,
    },
    /// `table.atomic.get` and its kin.
    Table {
        /// What is done with an element.
        access: Exchange,
        /// How it is ordered among others.
        ordering: Ordering,
        /// The table at this index.
        table_index: u32,
    },
    /// `struct.atomic.get` and its kin.
    Struct {
        /// What is done.
        access: FieldAccess,
        /// How it is ordered among others.
        ordering: Ordering,
        /// This field.
        field: FieldIndex,
    },
    /// `array.atomic.get` and its kin.
    Array {
        /// What is done with a place.
        access: FieldAccess,
        /// How it is ordered among others.
        ordering: Ordering,
        /// The array type at this index.
        type_index: u32,
    },
    /// `ref.i31_shared`
    RefI31Shared,
}

/// What is done with an element of a table, and may be done with whatever is accessed.
#[derive(Clone, Copy, Debug, PartialEq, Eq)]
pub enum Exchange {
    /// `get`
    Get,
    /// `set`
    Set,
    /// `rmw.xchg`
    Xchg,
    /// `rmw.cmpxchg`
    Cmpxchg,
}

/// What is done with a global.
#[derive(Clone, Copy, Debug, PartialEq, Eq)]
pub enum Update {
    /// What may be done with whatever is accessed.
    Value(Exchange),
    /// A number is replaced by the outcome of this operation.
    Rmw(SharedRmwOp),
}

/// What is done with a field of a struct, or with a place of an array.
#[derive(Clone, Copy, Debug, PartialEq, Eq)]
pub enum FieldAccess {
    /// What may be done with a global.
    Whole(Update),
    /// `get_s` or `get_u`
    GetPacked(Sign),
}

/// An operation on a number and an operand, which gives the number that it replaced.
#[derive(Clone, Copy, Debug, PartialEq, Eq)]
pub enum SharedRmwOp {
    /// `rmw.add`
    Add,
    /// `rmw.sub`
    Sub,
    /// `rmw.and`
    And,
    /// `rmw.or`
    Or,
    /// `rmw.xor`
    Xor,
}
