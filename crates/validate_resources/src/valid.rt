//! A lookup over lists that were checked before, for the crates beside this one.

ghost use Rattle.std.specs.Prelude.{◌≡◌, Some, true, IfOk, IfErr};
ghost use Rattle.validate_resources.specs.Indices.{is_known};
ghost use Rattle.validate_resources.specs.Kept.{declared_lists};
ghost use Rattle.validate_resources.specs.Lists.{may_be_looked_up, module_of};
ghost use Rattle.validate_resources.specs.Named.{declared_with};

use crate::lists::canonical::canonical_lists;
use crate::lists::{FuncDecl, ModuleLists};
use std::alloc::Global;
use validate_types::{Error, GlobalType, MemoryType, RefType, SubType, TableType};

/// What a module declares besides its types, list by list, imports first.
#[derive(Debug, Drop)]
pub struct ModuleItems {
    /// The functions, by the indices of their types.
    pub functions: Vec<FuncDecl>,
    /// The types of the tables.
    pub tables: Vec<TableType>,
    /// The types of the memories.
    pub memories: Vec<MemoryType>,
    /// The types of the globals.
    pub globals: Vec<GlobalType>,
    /// The index of each tag's type.
    pub tags: Vec<u32>,
    /// The types of the element segments.
    pub elements: Vec<RefType>,
    /// How many data segments there are, or None where the module doesn't say.
    pub data_count: Option<u32>,
}

/// The same as [`ModuleLists::new`] of lists that it wouldn't refuse, without a check of them. The types are read where
/// they are. It refuses want of memory alone.
#[tactic(auto, using(std::proofs::lemmas::Bool::and_left))]
pub fn lists_of(alloc: Global, types: &[SubType], items: ModuleItems) -> Result<ModuleLists, Error>
    requires { may_be_looked_up is_known (declared_with types.now items) ≡ true }
    ensures kept { IfOk result (λ m. module_of (declared_with types.now items) ≡ Some (declared_lists m)) }
    ensures memory { IfErr result (λ e. e.wants_memory ≡ true) }
{
    let ModuleItems {
        functions,
        tables,
        memories,
        globals,
        tags,
        elements,
        data_count,
    } = items;
    let forms = canonical_lists(alloc, types, &tables, &globals, &elements)?;
    Ok(ModuleLists::from_forms(alloc, forms, functions, memories, tags, data_count))
}
