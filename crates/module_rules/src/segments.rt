//! Element and data segments (WebAssembly core specification, "Modules": element segments, data segments).

use std::marker::Model;
use validate_types::RefType;

/// What becomes of an element segment (wasmparser's `ElementKind`).
#[derive(Clone, Copy, Debug, PartialEq, Eq)]
pub enum ElementKind {
    /// Operators name it.
    Passive,
    /// It is written to a table as the module is instantiated.
    Active {
        /// The table at this index.
        table_index: u32,
    },
    /// It only says which functions `ref.func` may name.
    Declared,
}

/// The functions that an element segment lists. Contracts see the list of their indices.
#[derive(Debug, Drop)]
pub struct FunctionItems {
    /// Their indices.
    pub indices: Vec<u32>,
}

impl Model for FunctionItems {
    ghost use Rattle.std.specs.Prelude.{ℕ, List};

    ghost Value = { List ℕ };

    ghost view = { λ f. f.indices.items };
}

/// The items of an element segment (wasmparser's `ElementItems`).
#[derive(Debug, Drop)]
pub enum ElementItems {
    /// These functions.
    Functions(FunctionItems),
    /// The values of constant expressions.
    Expressions {
        /// The type of each.
        ty: RefType,
        /// How many they are.
        count: u32,
    },
}

/// An element segment (wasmparser's `Element`).
#[derive(Debug, Drop)]
pub struct Element {
    /// What becomes of it.
    pub kind: ElementKind,
    /// Its items.
    pub items: ElementItems,
    /// Where it stands.
    pub offset: u64,
}

/// What becomes of a data segment (wasmparser's `DataKind`).
#[derive(Clone, Copy, Debug, PartialEq, Eq)]
pub enum DataKind {
    /// Operators name it.
    Passive,
    /// It is written to a memory as the module is instantiated.
    Active {
        /// The memory at this index.
        memory_index: u32,
    },
}

/// A data segment (wasmparser's `Data`), without its bytes.
#[derive(Clone, Copy, Debug, PartialEq, Eq)]
pub struct Data {
    /// What becomes of it.
    pub kind: DataKind,
    /// Where it stands.
    pub offset: u64,
}

/// What the data count section says.
#[derive(Clone, Copy, Debug, PartialEq, Eq)]
pub struct DataCount {
    /// How many data segments there are.
    pub count: u32,
    /// Where that stands.
    pub offset: u64,
}
