//! Imports (WebAssembly core specification, "Binary Format: Modules", "Import Section").

ghost use Rattle.std.specs.Prelude.{◌≡◌, ◌≢◌, List, [], ◌∷◌, Some, None, IfOk, IfErr, OnOk, OnErr};
ghost use Rattle.binary_operators.specs.Values.{list_of};
ghost use Rattle.binary_operators.specs.declared.error.Cause.TheVariants.{OutOfMemory};
ghost use Rattle.binary_modules.specs.Items.{import_behind, import_item, unplaced_import};
ghost use Rattle.binary_modules.specs.Imports.{AddsImports, AreImports, HasImports};

use crate::items::{read_function, read_global_type, read_tag_type};
use crate::limits::{read_memory_type, read_table_type};
use crate::parts::read_name;
use binary_operators::{BinaryReader, CanonicalTypes, Fault, ReadError, push};
use module_rules::{
    DeclaredFunction, DeclaredGlobal, DeclaredMemory, DeclaredTable, DeclaredTag, TableInit,
};
use std::alloc::Global;

/// What is imported.
#[derive(Clone, Copy)]
pub enum Import {
    /// A function.
    Function(DeclaredFunction),
    /// A table.
    Table(DeclaredTable),
    /// A memory.
    Memory(DeclaredMemory),
    /// A global.
    Global(DeclaredGlobal),
    /// A tag.
    Tag(DeclaredTag),
}

/// Reads what is imported by this code, which stands at `code_offset`, where the import stands at this offset.
fn read_import_behind(
    reader: &mut BinaryReader<'_>,
    canonical: CanonicalTypes<'_>,
    code: u8,
    code_offset: u64,
    offset: u64,
) -> Result<Import, ReadError>
    ensures read { IfOk result (λ i. import_behind code canonical.entry reader.old.left
        ≡ Some (unplaced_import i, reader.new.left)) }
    ensures refused { OnErr result (import_behind code canonical.entry reader.old.left ≡ None) }
{
    match code {
        0x00 => Ok(Import::Function(read_function(reader, canonical, false, offset)?)),
        0x20 => Ok(Import::Function(read_function(reader, canonical, true, offset)?)),
        0x01 => Ok(Import::Table(read_table_type(reader, canonical, TableInit::RefNull, offset)?)),
        0x02 => Ok(Import::Memory(read_memory_type(reader, offset)?)),
        0x03 => Ok(Import::Global(read_global_type(reader, canonical, offset)?)),
        0x04 => Ok(Import::Tag(read_tag_type(reader, canonical, offset)?)),
        _ => Err(ReadError::malformed(Fault::InvalidExternalKind(code), code_offset)),
    }
}

/// Reads an import. It refuses a code that is none, `invalid leading byte (0xNN) for external kind`, and what the reads of
/// names and of types refuse.
#[tactic(auto, unfolding(crate::specs::Items::import_item))]
fn read_import(
    reader: &mut BinaryReader<'_>,
    canonical: CanonicalTypes<'_>,
) -> Result<Import, ReadError>
    ensures read { IfOk result (λ i. import_item canonical.entry reader.old.left
        ≡ Some (unplaced_import i, reader.new.left)) }
    ensures refused { OnErr result (import_item canonical.entry reader.old.left ≡ None) }
{
    let offset = reader.offset();
    let _from = read_name(reader)?;
    let _item = read_name(reader)?;
    let code_offset = reader.offset();
    let code = reader.read_u8()?;
    read_import_behind(reader, canonical, code, code_offset, offset)
}

/// The imported items of a module, by their kinds.
#[derive(Drop)]
pub(crate) struct Imported {
    /// The functions.
    pub functions: Vec<DeclaredFunction>,
    /// The tables.
    pub tables: Vec<DeclaredTable>,
    /// The memories.
    pub memories: Vec<DeclaredMemory>,
    /// The globals.
    pub globals: Vec<DeclaredGlobal>,
    /// The tags.
    pub tags: Vec<DeclaredTag>,
}

impl Imported {
    /// No items. It takes no memory.
    pub(crate) fn new(alloc: Global) -> Imported
        ensures functions { result.functions.items ≡ [] }
        ensures tables { result.tables.items ≡ [] }
        ensures memories { result.memories.items ≡ [] }
        ensures globals { result.globals.items ≡ [] }
        ensures tags { result.tags.items ≡ [] }
    {
        Imported {
            functions: Vec::new(alloc),
            tables: Vec::new(alloc),
            memories: Vec::new(alloc),
            globals: Vec::new(alloc),
            tags: Vec::new(alloc),
        }
    }

    /// Adds an imported item. It refuses want of memory alone.
    fn add(&mut self, import: Import) -> Result<(), ReadError>
        ensures added { OnOk result (AddsImports self.old (unplaced_import import ∷ []) self.new) }
        ensures short { IfErr result (λ e. e.cause ≡ OutOfMemory) }
    {
        match import {
            Import::Function(function) => push(&mut self.functions, function),
            Import::Table(table) => push(&mut self.tables, table),
            Import::Memory(memory) => push(&mut self.memories, memory),
            Import::Global(global) => push(&mut self.globals, global),
            Import::Tag(tag) => push(&mut self.tags, tag),
        }
    }
}

/// Reads the imports of a module, where there are none yet. It refuses what the reads of its items refuse, and want of
/// memory.
#[tactic(auto, unfolding(binary_operators::specs::Values::list_of))]
pub(crate) fn read_imports(
    reader: &mut BinaryReader<'_>,
    canonical: CanonicalTypes<'_>,
    imported: &mut Imported,
) -> Result<(), ReadError>
    requires { AreImports [] imported.old }
    ensures read { OnOk result (HasImports canonical.entry reader.old.left imported.new reader.new.left) }
    ensures refused { IfErr result (λ e. e.cause ≢ OutOfMemory
        → list_of (import_item canonical.entry) reader.old.left ≡ None) }
{
    let count = reader.read_var_u32()?;
    for _ in 0..count {
        let import = read_import(reader, canonical)?;
        imported.add(import)?;
    }
    Ok(())
}
