//! What a module declares, list by list, with a name for each.

ghost use Rattle.std.specs.Prelude.{◌≡◌, ◌<◌, Some, None, false, length, codes, IfOk, IfErr};
ghost use Rattle.validate_resources.specs.Named.{declared_in, nothing_declared};
ghost use Rattle.validate_resources.specs.Kept.{declared_lists};
ghost use Rattle.validate_resources.specs.Lists.{module_of};
ghost use Rattle.validate_resources.specs.declared.lists.TheConstants.{MAX_TYPES};

use crate::lists::{FuncDecl, ModuleLists};
use std::alloc::Global;
use validate_types::{Error, GlobalType, MemoryType, RefType, SubType, TableType};

/// What a module declares, list by list, imports first. Begin with [`ModuleDeclarations::new`], which declares
/// nothing. Fill the lists that your module has, and hand them to [`ModuleLists::from_declarations`].
#[derive(Debug, Drop)]
pub struct ModuleDeclarations {
    /// The types.
    pub types: Vec<SubType>,
    /// The functions, by the indices of their types.
    pub functions: Vec<FuncDecl>,
    /// The types of the tables.
    pub tables: Vec<TableType>,
    /// The types of the memories.
    pub memories: Vec<MemoryType>,
    /// The types of the globals.
    pub globals: Vec<GlobalType>,
    /// The index of each tag's type.
    pub tags: Vec<u32>,
    /// The types of the element segments.
    pub elements: Vec<RefType>,
    /// How many data segments there are, or None where the module doesn't say.
    pub data_count: Option<u32>,
}

impl ModuleDeclarations {
    /// Declares nothing: each list is empty, and `data_count` is None. It takes no memory.
    pub fn new(alloc: Global) -> ModuleDeclarations
        ensures { declared_in result ≡ nothing_declared }
    {
        ModuleDeclarations {
            types: Vec::new(alloc),
            functions: Vec::new(alloc),
            tables: Vec::new(alloc),
            memories: Vec::new(alloc),
            globals: Vec::new(alloc),
            tags: Vec::new(alloc),
            elements: Vec::new(alloc),
            data_count: None,
        }
    }
}

impl ModuleLists {
    /// [`ModuleLists::new`] of the lists of the record: it keeps, refuses and takes memory as that does.
    pub fn from_declarations(
        alloc: Global,
        declarations: ModuleDeclarations,
    ) -> Result<ModuleLists, Error>
        ensures kept { IfOk result (λ m. module_of (declared_in declarations) ≡ Some (declared_lists m)) }
        ensures refused { IfErr result (λ e. e.wants_memory ≡ false
            → module_of (declared_in declarations) ≡ None) }
        ensures too_many { MAX_TYPES < length declarations.types.items
            → IfErr result (λ e. e ≡ record {
              offset = 0;
              text = codes "too many types";
              wants_memory = false;
            }) }
        ensures offset { IfErr result (λ e. e.offset ≡ 0) }
    {
        let ModuleDeclarations {
            types,
            functions,
            tables,
            memories,
            globals,
            tags,
            elements,
            data_count,
        } = declarations;
        ModuleLists::new(
            alloc, types, functions, tables, memories, globals, tags, elements, data_count,
        )
    }
}
