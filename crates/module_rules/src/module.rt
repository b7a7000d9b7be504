//! A module's declarations.

ghost use Rattle.std.specs.Prelude.{◌≡◌};
ghost use Rattle.module_rules.specs.Declarations.{declarations_of, nothing_declared};

use crate::items::{
    DeclaredFunction, DeclaredGlobal, DeclaredMemory, DeclaredTable, DeclaredTag, Export, RecGroup,
    Start,
};
use crate::segments::{Data, DataCount, Element};
use std::alloc::Global;
use validate_types::SubType;

/// How many items of each kind are imported. They are the first in the lists of the module.
#[derive(Clone, Copy, Debug, PartialEq, Eq)]
pub struct Imports {
    /// So many functions.
    pub functions: u32,
    /// So many tables.
    pub tables: u32,
    /// So many memories.
    pub memories: u32,
    /// So many globals.
    pub globals: u32,
    /// So many tags.
    pub tags: u32,
    /// Where the imports begin.
    pub offset: u64,
}

/// What a constant expression is for.
#[derive(Clone, Copy, Debug, PartialEq, Eq)]
pub enum Place {
    /// The first elements of the table at this index.
    Table(u32),
    /// The first value of the global at this index.
    Global(u32),
    /// Where the element segment at this index goes.
    ElementOffset(u32),
    /// An item of the element segment at this index.
    Element(u32),
    /// Where the data segment at this index goes.
    DataOffset(u32),
}

/// What the sections of a module declare, as far as its validity asks for it (WebAssembly core specification,
/// "Modules"). Each list has imported items first. Contracts see the [`Declarations`] of `specs/`.
#[derive(Debug, Drop)]
pub struct DeclaredModule {
    /// The types.
    pub types: Vec<SubType>,
    /// The recursion groups that they stand in, one behind another.
    pub groups: Vec<RecGroup>,
    /// Of each type the index of the first one that it is equal to, by their recursion groups: it is named by
    /// that.
    pub canonical: Vec<u32>,
    /// How many of the items below are imported.
    pub imports: Imports,
    /// The functions.
    pub functions: Vec<DeclaredFunction>,
    /// The tables.
    pub tables: Vec<DeclaredTable>,
    /// The memories.
    pub memories: Vec<DeclaredMemory>,
    /// The globals.
    pub globals: Vec<DeclaredGlobal>,
    /// The tags.
    pub tags: Vec<DeclaredTag>,
    /// The exports.
    pub exports: Vec<Export>,
    /// The start function, if there is one.
    pub start: Option<Start>,
    /// The element segments.
    pub elements: Vec<Element>,
    /// How many data segments there are, where the module says so ahead of its bodies.
    pub data_count: Option<DataCount>,
    /// The data segments.
    pub data_segments: Vec<Data>,
    /// The functions that `ref.func` names in constant expressions.
    pub expression_functions: Vec<u32>,
}

impl DeclaredModule {
    /// A module that declares nothing. It takes no memory.
    pub fn new(alloc: Global) -> DeclaredModule
        ensures { declarations_of result ≡ nothing_declared }
    {
        DeclaredModule {
            types: Vec::new(alloc),
            groups: Vec::new(alloc),
            canonical: Vec::new(alloc),
            imports: Imports {
                functions: 0,
                tables: 0,
                memories: 0,
                globals: 0,
                tags: 0,
                offset: 0,
            },
            functions: Vec::new(alloc),
            tables: Vec::new(alloc),
            memories: Vec::new(alloc),
            globals: Vec::new(alloc),
            tags: Vec::new(alloc),
            exports: Vec::new(alloc),
            start: None,
            elements: Vec::new(alloc),
            data_count: None,
            data_segments: Vec::new(alloc),
            expression_functions: Vec::new(alloc),
        }
    }
}
