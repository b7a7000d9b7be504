//! The casts by which an operator branches (WebAssembly core specification, "Binary Format: Instructions",
//! "Reference Instructions").

ghost use Rattle.std.specs.Prelude.{◌≡◌, Some, None, IfOk, IfErr, OnErr};
ghost use Rattle.binary_operators.specs.Immediates.{cast, cast_behind};
ghost use Rattle.binary_operators.specs.Vectors.{IsNoVector};

use crate::error::{Fault, ReadError};
use crate::reader::BinaryReader;
use crate::types::{CanonicalTypes, read_reference_to};
use validate_visit::BranchCast;

/// Reads what stands behind the flags of a cast, which stand at the offset.
fn read_cast_behind(
    reader: &mut BinaryReader<'_>,
    canonical: CanonicalTypes<'_>,
    flags: u8,
    offset: u64,
) -> Result<BranchCast, ReadError>
    ensures read { IfOk result (λ c. cast_behind canonical.entry flags reader.old.left
        ≡ Some (c, reader.new.left)) }
    ensures refused { OnErr result (cast_behind canonical.entry flags reader.old.left ≡ None) }
    ensures covered { IfErr result IsNoVector }
{
    let relative_depth = reader.read_var_u32()?;
    let from_ref_type = read_reference_to(reader, canonical, flags % 2 == 1, offset)?;
    let to_ref_type = read_reference_to(reader, canonical, flags / 2 == 1, offset)?;
    Ok(BranchCast {
        relative_depth,
        from_ref_type,
        to_ref_type,
    })
}

/// Reads a cast. It refuses `invalid cast flags`, and what the reads of its label and its types refuse.
#[tactic(auto, unfolding(crate::specs::Immediates::cast))]
pub(crate) fn read_cast(
    reader: &mut BinaryReader<'_>,
    canonical: CanonicalTypes<'_>,
) -> Result<BranchCast, ReadError>
    ensures read { IfOk result (λ c. cast canonical.entry reader.old.left ≡ Some (c, reader.new.left)) }
    ensures refused { OnErr result (cast canonical.entry reader.old.left ≡ None) }
    ensures covered { IfErr result IsNoVector }
{
    let offset = reader.offset();
    let flags = reader.read_u8()?;
    if flags > 3 {
        return Err(ReadError::malformed(Fault::InvalidCastFlags, offset));
    }
    read_cast_behind(reader, canonical, flags, offset)
}
