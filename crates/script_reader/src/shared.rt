//! Atomic operators on globals, tables, structs and arrays by their names.
//!
//! `.ci/generate` writes the tables from `operators.tsv`.

use crate::parts::{SharedAccess, named_in};
use validate_visit::Exchange::{Cmpxchg, Get, Set, Xchg};
use validate_visit::FieldAccess::{GetPacked, Whole};
use validate_visit::SharedRmwOp::{Add, And, Or, Sub, Xor};
use validate_visit::Sign::{Signed, Unsigned};
use validate_visit::Update::{Rmw, Value};
use validate_visit::{Exchange, FieldAccess, Update};

/// The accesses to globals.
static GLOBAL_ACCESSES: [(&str, Update); 9] = [
    ("global.atomic.get", Value(Get)),
    ("global.atomic.set", Value(Set)),
    ("global.atomic.rmw.add", Rmw(Add)),
    ("global.atomic.rmw.sub", Rmw(Sub)),
    ("global.atomic.rmw.and", Rmw(And)),
    ("global.atomic.rmw.or", Rmw(Or)),
    ("global.atomic.rmw.xor", Rmw(Xor)),
    ("global.atomic.rmw.xchg", Value(Xchg)),
    ("global.atomic.rmw.cmpxchg", Value(Cmpxchg)),
];

/// The accesses to tables.
static TABLE_ACCESSES: [(&str, Exchange); 4] = [
    ("table.atomic.get", Get),
    ("table.atomic.set", Set),
    ("table.atomic.rmw.xchg", Xchg),
    ("table.atomic.rmw.cmpxchg", Cmpxchg),
];

/// The accesses to structs.
static STRUCT_ACCESSES: [(&str, FieldAccess); 11] = [
    ("struct.atomic.get", Whole(Value(Get))),
    ("struct.atomic.get_s", GetPacked(Signed)),
    ("struct.atomic.get_u", GetPacked(Unsigned)),
    ("struct.atomic.set", Whole(Value(Set))),
    ("struct.atomic.rmw.add", Whole(Rmw(Add))),
    ("struct.atomic.rmw.sub", Whole(Rmw(Sub))),
    ("struct.atomic.rmw.and", Whole(Rmw(And))),
    ("struct.atomic.rmw.or", Whole(Rmw(Or))),
    ("struct.atomic.rmw.xor", Whole(Rmw(Xor))),
    ("struct.atomic.rmw.xchg", Whole(Value(Xchg))),
    ("struct.atomic.rmw.cmpxchg", Whole(Value(Cmpxchg))),
];

/// The accesses to arrays.
static ARRAY_ACCESSES: [(&str, FieldAccess); 11] = [
    ("array.atomic.get", Whole(Value(Get))),
    ("array.atomic.get_s", GetPacked(Signed)),
    ("array.atomic.get_u", GetPacked(Unsigned)),
    ("array.atomic.set", Whole(Value(Set))),
    ("array.atomic.rmw.add", Whole(Rmw(Add))),
    ("array.atomic.rmw.sub", Whole(Rmw(Sub))),
    ("array.atomic.rmw.and", Whole(Rmw(And))),
    ("array.atomic.rmw.or", Whole(Rmw(Or))),
    ("array.atomic.rmw.xor", Whole(Rmw(Xor))),
    ("array.atomic.rmw.xchg", Whole(Value(Xchg))),
    ("array.atomic.rmw.cmpxchg", Whole(Value(Cmpxchg))),
];

/// What the atomic operator of this name does, and to what, if there is one.
pub fn shared_access(name: &str) -> Option<SharedAccess> {
    if let Some(access) = named_in(&GLOBAL_ACCESSES, name) {
        return Some(SharedAccess::Global(access));
    }
    if let Some(access) = named_in(&TABLE_ACCESSES, name) {
        return Some(SharedAccess::Table(access));
    }
    if let Some(access) = named_in(&STRUCT_ACCESSES, name) {
        return Some(SharedAccess::Struct(access));
    }
    let access = named_in(&ARRAY_ACCESSES, name)?;
    Some(SharedAccess::Array(access))
}
