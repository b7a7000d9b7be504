//! Places in memories (WebAssembly core specification, "Binary Format: Instructions", "Memory Instructions").

ghost use Rattle.std.specs.Prelude.{◌≡◌, Some, None, IfOk, IfErr, OnErr};
ghost use Rattle.binary_operators.specs.Immediates.{memarg, in_memory};
ghost use Rattle.binary_operators.specs.Vectors.{IsNoVector};

use crate::error::{Fault, ReadError};
use crate::reader::BinaryReader;
use validate_visit::{MemArg, MemArgTarget};

/// Reads where an access looks that is aligned so, in the memory at this index.
fn read_place(reader: &mut BinaryReader<'_>, align: u8, memory: u32) -> Result<MemArg, ReadError>
    ensures read { IfOk result (λ m. in_memory align memory reader.old.left ≡ Some (m, reader.new.left)) }
    ensures refused { OnErr result (in_memory align memory reader.old.left ≡ None) }
    ensures covered { IfErr result IsNoVector }
{
    Ok(MemArg {
        align,
        max_align: 0,
        offset: reader.read_var_u64()?,
        target: MemArgTarget::Memory(memory),
    })
}

/// Reads where an access looks, of which no alignment is natural yet.
#[tactic(auto, unfolding(crate::specs::Immediates::memarg))]
pub fn read_memarg(reader: &mut BinaryReader<'_>) -> Result<MemArg, ReadError>
    ensures read { IfOk result (λ m. memarg reader.old.left ≡ Some (m, reader.new.left)) }
    ensures refused { OnErr result (memarg reader.old.left ≡ None) }
    ensures covered { IfErr result IsNoVector }
{
    let offset = reader.offset();
    let flags = reader.read_var_u32()?;
    if flags < 0x40 {
        return read_place(reader, flags as u8, 0);
    }
    if flags >= 0x80 {
        return Err(ReadError::malformed(Fault::AlignmentTooLarge, offset));
    }
    let memory = reader.read_var_u32()?;
    read_place(reader, (flags - 0x40) as u8, memory)
}
