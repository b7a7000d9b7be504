//! Data segments (WebAssembly core specification, "Binary Format: Modules", "Data Section").

ghost use Rattle.std.specs.Prelude.{◌≡◌, ◌≢◌, [], ◌∷◌, Some, None, IfOk, IfErr};
ghost use Rattle.binary_operators.specs.declared.error.Cause.TheVariants.{OutOfMemory};
ghost use Rattle.module_rules.specs.declared.segments.Data.{Data};
ghost use Rattle.module_rules.specs.declared.segments.DataKind.{DataKind};
ghost use Rattle.binary_modules.specs.Items.{Item, placed_at, placed};
ghost use Rattle.binary_modules.specs.Kept.{Adds};
ghost use Rattle.binary_modules.specs.Segments.{Target, active_data, data_target, data_behind, data_segment};

use crate::elements::{SegmentHead, read_index_if};
use crate::entries::Entry;
use crate::initializers::Initializers;
use crate::parts::read_sized;
use binary_operators::{BinaryReader, CanonicalTypes, Fault, ReadError};
use module_rules::{Data, DataKind, Place};

/// Reads where the bytes of the segment at this index are written to.
#[tactic(auto, unfolding(crate::specs::Segments::active_data))]
fn read_active_data<'a>(
    reader: &mut BinaryReader<'a>,
    canonical: CanonicalTypes<'_>,
    has_memory: bool,
    index: u32,
    initializers: &mut Initializers<'a>,
) -> Result<DataKind, ReadError>
    ensures read { IfOk result (λ kind. (t : Target DataKind)
        × (active_data has_memory canonical.entry reader.old.left ≡ Some (t, reader.new.left))
        × (t.kind ≡ kind)
        × Adds initializers.old (placed_at index t.initializers) initializers.new) }
    ensures refused { IfErr result (λ e. e.cause ≢ OutOfMemory
        → active_data has_memory canonical.entry reader.old.left ≡ None) }
{
    let memory_index = read_index_if(reader, has_memory)?;
    initializers.read(reader, canonical, Place::DataOffset(index))?;
    Ok(DataKind::Active { memory_index })
}

/// Reads what becomes of a segment.
fn read_data_target<'a>(
    reader: &mut BinaryReader<'a>,
    canonical: CanonicalTypes<'_>,
    head: SegmentHead,
    initializers: &mut Initializers<'a>,
) -> Result<DataKind, ReadError>
    ensures read { IfOk result (λ kind. (t : Target DataKind)
        × (data_target head.flags canonical.entry reader.old.left ≡ Some (t, reader.new.left))
        × (t.kind ≡ kind)
        × Adds initializers.old (placed_at head.index t.initializers) initializers.new) }
    ensures refused { IfErr result (λ e. e.cause ≢ OutOfMemory
        → data_target head.flags canonical.entry reader.old.left ≡ None) }
{
    let SegmentHead { flags, index, .. } = head;
    if flags == 1 {
        return Ok(DataKind::Passive);
    }
    let kind = read_active_data(reader, canonical, flags == 2, index, initializers)?;
    Ok(kind)
}

/// Reads a segment behind its flags.
#[tactic(auto, unfolding(crate::specs::Segments::data_behind))]
fn read_data_behind<'a>(
    reader: &mut BinaryReader<'a>,
    canonical: CanonicalTypes<'_>,
    head: SegmentHead,
    initializers: &mut Initializers<'a>,
) -> Result<Data, ReadError>
    ensures read { IfOk result (λ d. (item : Item Data)
        × (data_behind head.flags canonical.entry reader.old.left ≡ Some (item, reader.new.left))
        × (item.declared ≡ record d { offset = 0 })
        × Adds initializers.old (placed head.index (item ∷ [])) initializers.new) }
    ensures refused { IfErr result (λ e. e.cause ≢ OutOfMemory
        → data_behind head.flags canonical.entry reader.old.left ≡ None) }
{
    let kind = read_data_target(reader, canonical, head, initializers)?;
    let _bytes = read_sized(reader)?;
    Ok(Data {
        kind,
        offset: head.offset,
    })
}

impl Entry for Data {
    ghost reading = { λ types bytes. data_segment types bytes };

    ghost unplaced = { λ d. record d { offset = 0 } };

    #[tactic(auto, unfolding(crate::specs::Segments::data_segment))]
    fn read<'a>(
        reader: &mut BinaryReader<'a>,
        canonical: CanonicalTypes<'_>,
        index: u32,
        initializers: &mut Initializers<'a>,
    ) -> Result<Data, ReadError> {
        let offset = reader.offset();
        let flags = reader.read_var_u32()?;
        if flags > 2 {
            return Err(ReadError::malformed(Fault::InvalidSegmentFlags, offset));
        }
        let head = SegmentHead {
            flags,
            index,
            offset,
        };
        let segment = read_data_behind(reader, canonical, head, initializers)?;
        Ok(segment)
    }
}
