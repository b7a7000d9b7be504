//! What a module declares of its own besides types and segments (WebAssembly core specification, "Binary Format:
//! Modules").

ghost use Rattle.std.specs.Prelude.{◌≡◌, ◌≢◌, [], ◌∷◌, Some, None, IfOk, IfErr};
ghost use Rattle.binary_operators.specs.declared.error.Cause.TheVariants.{OutOfMemory};
ghost use Rattle.module_rules.specs.declared.items.DeclaredGlobal.{DeclaredGlobal};
ghost use Rattle.module_rules.specs.declared.items.DeclaredTable.{DeclaredTable};
ghost use Rattle.binary_modules.specs.Items.{Item, placed, own_function, initialized_table, table, memory, tag, global, exported};
ghost use Rattle.binary_modules.specs.Kept.{Adds};

use crate::entries::Entry;
use crate::initializers::Initializers;
use crate::items::{read_export, read_function, read_global_type, read_tag_type};
use crate::limits::{read_memory_type, read_table_type};
use crate::subtypes::read_mark;
use binary_operators::{BinaryReader, CanonicalTypes, Fault, ReadError};
use module_rules::{
    DeclaredFunction, DeclaredGlobal, DeclaredMemory, DeclaredTable, DeclaredTag, Export, Place,
    TableInit,
};

impl Entry for DeclaredFunction {
    ghost reading = { λ types bytes. own_function types bytes };

    ghost unplaced = { λ f. record f { offset = 0 } };

    #[tactic(auto, unfolding(crate::specs::Items::own_function))]
    fn read<'a>(
        reader: &mut BinaryReader<'a>,
        canonical: CanonicalTypes<'_>,
        _index: u32,
        _initializers: &mut Initializers<'a>,
    ) -> Result<DeclaredFunction, ReadError> {
        let offset = reader.offset();
        let function = read_function(reader, canonical, true, offset)?;
        Ok(function)
    }
}

impl Entry for DeclaredMemory {
    ghost reading = { λ types bytes. memory bytes };

    ghost unplaced = { λ m. record m { offset = 0 } };

    #[tactic(auto, unfolding(crate::specs::Items::memory))]
    fn read<'a>(
        reader: &mut BinaryReader<'a>,
        _canonical: CanonicalTypes<'_>,
        _index: u32,
        _initializers: &mut Initializers<'a>,
    ) -> Result<DeclaredMemory, ReadError> {
        let offset = reader.offset();
        let memory = read_memory_type(reader, offset)?;
        Ok(memory)
    }
}

impl Entry for DeclaredTag {
    ghost reading = { λ types bytes. tag types bytes };

    ghost unplaced = { λ t. record t { offset = 0 } };

    #[tactic(auto, unfolding(crate::specs::Items::tag))]
    fn read<'a>(
        reader: &mut BinaryReader<'a>,
        canonical: CanonicalTypes<'_>,
        _index: u32,
        _initializers: &mut Initializers<'a>,
    ) -> Result<DeclaredTag, ReadError> {
        let offset = reader.offset();
        let tag = read_tag_type(reader, canonical, offset)?;
        Ok(tag)
    }
}

impl Entry for Export {
    ghost reading = { λ types bytes. exported bytes };

    ghost unplaced = { λ e. record e { offset = 0 } };

    #[tactic(auto, unfolding(crate::specs::Items::exported))]
    fn read<'a>(
        reader: &mut BinaryReader<'a>,
        _canonical: CanonicalTypes<'_>,
        _index: u32,
        initializers: &mut Initializers<'a>,
    ) -> Result<Export, ReadError> {
        let export = read_export(initializers.allocator(), reader)?;
        Ok(export)
    }
}

/// Reads a table whose elements have a constant expression, behind the mark of that. It refuses another byte than 0x00
/// behind the mark, `invalid table encoding`, what the reads of its parts refuse, and want of memory.
#[tactic(auto, unfolding(crate::specs::Items::initialized_table))]
fn read_initialized_table<'a>(
    reader: &mut BinaryReader<'a>,
    canonical: CanonicalTypes<'_>,
    index: u32,
    offset: u64,
    initializers: &mut Initializers<'a>,
) -> Result<DeclaredTable, ReadError>
    ensures read { IfOk result (λ t. (item : Item DeclaredTable)
        × (initialized_table canonical.entry reader.old.left ≡ Some (item, reader.new.left))
        × (item.declared ≡ record t { offset = 0 })
        × Adds initializers.old (placed index (item ∷ [])) initializers.new) }
    ensures refused { IfErr result (λ e. e.cause ≢ OutOfMemory
        → initialized_table canonical.entry reader.old.left ≡ None) }
{
    let reserved_offset = reader.offset();
    let reserved = reader.read_u8()?;
    if reserved != 0 {
        return Err(ReadError::malformed(Fault::InvalidTableEncoding, reserved_offset));
    }
    let table = read_table_type(reader, canonical, TableInit::Expr, offset)?;
    initializers.read(reader, canonical, Place::Table(index))?;
    Ok(table)
}

impl Entry for DeclaredTable {
    ghost reading = { λ types bytes. table types bytes };

    ghost unplaced = { λ t. record t { offset = 0 } };

    #[tactic(auto, unfolding(crate::specs::Items::table))]
    fn read<'a>(
        reader: &mut BinaryReader<'a>,
        canonical: CanonicalTypes<'_>,
        index: u32,
        initializers: &mut Initializers<'a>,
    ) -> Result<DeclaredTable, ReadError> {
        let offset = reader.offset();
        if read_mark(reader, 0x40)? {
            let initialized = read_initialized_table(
                reader,
                canonical,
                index,
                offset,
                initializers,
            )?;
            return Ok(initialized);
        }
        let table = read_table_type(reader, canonical, TableInit::RefNull, offset)?;
        Ok(table)
    }
}

impl Entry for DeclaredGlobal {
    ghost reading = { λ types bytes. global types bytes };

    ghost unplaced = { λ g. record g { offset = 0 } };

    #[tactic(auto, unfolding(crate::specs::Items::global))]
    fn read<'a>(
        reader: &mut BinaryReader<'a>,
        canonical: CanonicalTypes<'_>,
        index: u32,
        initializers: &mut Initializers<'a>,
    ) -> Result<DeclaredGlobal, ReadError> {
        let offset = reader.offset();
        let global = read_global_type(reader, canonical, offset)?;
        initializers.read(reader, canonical, Place::Global(index))?;
        Ok(global)
    }
}
