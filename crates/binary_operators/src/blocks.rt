//! The types of blocks, and the clauses and handlers that go to labels (WebAssembly core specification,
//! "Binary Format: Instructions", "Control Instructions", and the proposal "Stack Switching").

ghost use Rattle.std.specs.Prelude.{◌≡◌, Some, None, IfOk, IfErr, OnErr};
ghost use Rattle.binary_operators.specs.Immediates.{block_type, catch_clause, catch_behind, handler};
ghost use Rattle.binary_operators.specs.Immediates.{handler_behind};
ghost use Rattle.binary_operators.specs.Vectors.{IsNoVector};

use crate::error::{Fault, ReadError};
use crate::reader::BinaryReader;
use crate::types::{CanonicalTypes, read_type_number, read_value_type};
use validate_visit::{BlockType, Catch, Handle};

/// Reads the type of a block.
#[tactic(auto, unfolding(crate::specs::Immediates::block_type))]
pub fn read_block_type(
    reader: &mut BinaryReader<'_>,
    canonical: CanonicalTypes<'_>,
) -> Result<BlockType, ReadError>
    ensures read { IfOk result (λ ty. block_type canonical.entry reader.old.left
        ≡ Some (ty, reader.new.left)) }
    ensures refused { OnErr result (block_type canonical.entry reader.old.left ≡ None) }
    ensures covered { IfErr result IsNoVector }
{
    let code = reader.peek()?;
    if code == 0x40 {
        reader.skip();
        return Ok(BlockType::Empty);
    }
    if 0x41 <= code && code <= 0x7f {
        return Ok(BlockType::Val(read_value_type(reader, canonical)?));
    }
    Ok(BlockType::FuncType(canonical.of(read_type_number(reader)?)))
}

/// Reads what stands behind the code of a clause of a `try_table`, which stands at the offset.
fn read_catch_behind(
    reader: &mut BinaryReader<'_>,
    code: u8,
    offset: u64,
) -> Result<Catch, ReadError>
    ensures read { IfOk result (λ clause. catch_behind code reader.old.left
        ≡ Some (clause, reader.new.left)) }
    ensures refused { OnErr result (catch_behind code reader.old.left ≡ None) }
    ensures covered { IfErr result IsNoVector }
{
    if code > 3 {
        return Err(ReadError::malformed(Fault::InvalidCatch, offset));
    }
    let first = reader.read_var_u32()?;
    if code > 1 {
        return Ok(if code == 2 {
            Catch::All { label: first }
        } else {
            Catch::AllRef { label: first }
        });
    }
    let label = reader.read_var_u32()?;
    Ok(if code == 0 {
        Catch::One { tag: first, label }
    } else {
        Catch::OneRef { tag: first, label }
    })
}

/// Reads a clause of a `try_table`. It refuses `invalid catch`, and what the reads of numbers refuse.
#[tactic(auto, unfolding(crate::specs::Immediates::catch_clause))]
pub(crate) fn read_catch(reader: &mut BinaryReader<'_>) -> Result<Catch, ReadError>
    ensures read { IfOk result (λ clause. catch_clause reader.old.left ≡ Some (clause, reader.new.left)) }
    ensures refused { OnErr result (catch_clause reader.old.left ≡ None) }
    ensures covered { IfErr result IsNoVector }
{
    let offset = reader.offset();
    let code = reader.read_u8()?;
    read_catch_behind(reader, code, offset)
}

/// Reads what stands behind the code of a handler of a `resume`, which stands at the offset.
fn read_handler_behind(
    reader: &mut BinaryReader<'_>,
    code: u8,
    offset: u64,
) -> Result<Handle, ReadError>
    ensures read { IfOk result (λ h. handler_behind code reader.old.left ≡ Some (h, reader.new.left)) }
    ensures refused { OnErr result (handler_behind code reader.old.left ≡ None) }
    ensures covered { IfErr result IsNoVector }
{
    if code > 1 {
        return Err(ReadError::malformed(Fault::InvalidHandler, offset));
    }
    let tag = reader.read_var_u32()?;
    if code == 1 {
        return Ok(Handle::OnSwitch { tag });
    }
    let label = reader.read_var_u32()?;
    Ok(Handle::OnLabel { tag, label })
}

/// Reads a handler of a `resume`. It refuses `invalid handler`, and what the reads of numbers refuse.
#[tactic(auto, unfolding(crate::specs::Immediates::handler))]
pub(crate) fn read_handler(reader: &mut BinaryReader<'_>) -> Result<Handle, ReadError>
    ensures read { IfOk result (λ h. handler reader.old.left ≡ Some (h, reader.new.left)) }
    ensures refused { OnErr result (handler reader.old.left ≡ None) }
    ensures covered { IfErr result IsNoVector }
{
    let offset = reader.offset();
    let code = reader.read_u8()?;
    read_handler_behind(reader, code, offset)
}
