//! What a module declares besides its segments (WebAssembly core specification, "Modules"). Each declaration
//! has the offset at which it is refused.

use std::marker::Model;
use validate_types::{GlobalType, MemoryType, TableType};

/// A recursion group of types, which stand one behind another (wasmparser's `RecGroup`).
#[derive(Clone, Copy, Debug, PartialEq, Eq)]
pub struct RecGroup {
    /// How many types it has.
    pub count: u32,
    /// Whether it is written as a group, and not as the one type that it has.
    pub explicit: bool,
    /// Where it stands.
    pub offset: u64,
}

/// A function, imported or the module's own.
#[derive(Clone, Copy, Debug, PartialEq, Eq)]
pub struct DeclaredFunction {
    /// The index of its type.
    pub type_index: u32,
    /// Whether a reference to it is exact in its type, where exact references are on: of each function of the
    /// module's own, and of one that is imported as exact.
    pub exact: bool,
    /// Where it stands.
    pub offset: u64,
}

/// The size that something has at first, and the one that it may grow to (WebAssembly core specification,
/// "Limits").
#[derive(Clone, Copy, Debug, PartialEq, Eq)]
pub struct Limits {
    /// The size at first.
    pub initial: u64,
    /// The greatest size, if one is set.
    pub maximum: Option<u64>,
}

/// What the elements of a table are at first (wasmparser's `TableInit`).
#[derive(Clone, Copy, Debug, PartialEq, Eq)]
pub enum TableInit {
    /// The default value of their type. Imported tables are declared so too.
    RefNull,
    /// The value of the constant expression that stands behind the table's type.
    Expr,
}

/// A table, imported or the module's own.
#[derive(Clone, Copy, Debug, PartialEq, Eq)]
pub struct DeclaredTable {
    /// Its type.
    pub ty: TableType,
    /// How many elements it has.
    pub limits: Limits,
    /// What they are at first.
    pub init: TableInit,
    /// Where it stands.
    pub offset: u64,
}

/// A memory, imported or the module's own.
#[derive(Clone, Copy, Debug, PartialEq, Eq)]
pub struct DeclaredMemory {
    /// Its type.
    pub ty: MemoryType,
    /// How many pages it has.
    pub limits: Limits,
    /// The binary logarithm of the size of its pages, if one is set (a proposal, "Custom Page Sizes").
    pub page_size_log2: Option<u32>,
    /// Where it stands.
    pub offset: u64,
}

/// A global, imported or the module's own.
#[derive(Clone, Copy, Debug, PartialEq, Eq)]
pub struct DeclaredGlobal {
    /// Its type.
    pub ty: GlobalType,
    /// Where it stands.
    pub offset: u64,
}

/// A tag, imported or the module's own.
#[derive(Clone, Copy, Debug, PartialEq, Eq)]
pub struct DeclaredTag {
    /// The index of its type.
    pub func_type_idx: u32,
    /// Where it stands.
    pub offset: u64,
}

/// What is exported (wasmparser's `ExternalKind`).
#[derive(Clone, Copy, Debug, PartialEq, Eq)]
pub enum ExternalKind {
    /// A function.
    Func,
    /// A table.
    Table,
    /// A memory.
    Memory,
    /// A global.
    Global,
    /// A tag.
    Tag,
}

/// An export (wasmparser's `Export`). Contracts see an [`Exported`] of `specs/`, with the bytes of the name.
#[derive(Debug, Drop)]
pub struct Export {
    /// The name that it is exported by.
    pub name: String,
    /// What is exported.
    pub kind: ExternalKind,
    /// The index of what is exported.
    pub index: u32,
    /// Where it stands.
    pub offset: u64,
}

impl Model for Export {
    ghost use Rattle.std.specs.String.{string_bytes};
    ghost use Rattle.module_rules.specs.Exported.{Exported};

    ghost Value = { Exported };

    ghost view = { λ e. record {
      name = string_bytes e.name;
      kind = e.kind;
      index = e.index;
      offset = e.offset;
    } };
}

/// The start function.
#[derive(Clone, Copy, Debug, PartialEq, Eq)]
pub struct Start {
    /// The index of the function.
    pub function: u32,
    /// Where it stands.
    pub offset: u64,
}
