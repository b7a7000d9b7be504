//! Limits, and the types of tables and memories that have them (WebAssembly core specification, "Binary Format: Types").

ghost use Rattle.std.specs.Prelude.{◌≡◌, ◌<◌, Some, None, IfOk, OnErr};
ghost use Rattle.binary_operators.specs.Integers.{unsigned};
ghost use Rattle.binary_modules.specs.Limits.{has_flag, size, limits_behind, limits, table_type, memory_type};
ghost use Rattle.binary_modules.specs.Parts.{if_so};

use binary_operators::{BinaryReader, CanonicalTypes, Cause, Fault, ReadError, read_ref_type};
use module_rules::{DeclaredMemory, DeclaredTable, Limits, TableInit};
use validate_types::{MemoryType, TableType};

/// Limits, with what their flags say.
#[derive(Clone, Copy)]
struct FlaggedLimits {
    limits: Limits,
    is_64: bool,
    shared: bool,
    page_size_log2: Option<u32>,
}

/// Whether one of the bits 1, 2, 4 and 8 is set in flags.
pub(crate) fn has_flag(bit: u8, flags: u8) -> bool
    requires { 0 < bit }
    ensures { result ≡ has_flag bit flags }
{
    flags / bit % 2 == 1
}

/// Why a size of 32 bits can't be read: where it is too large, with the size that is declared here.
fn size_refusal(error: ReadError, mut declared: BinaryReader<'_>) -> ReadError {
    let Cause::Malformed(Fault::IntegerTooLarge) = error.cause else {
        return error;
    };
    match declared.read_var_u64() {
        Ok(size) => ReadError::malformed(Fault::LimitTooLarge(size), error.offset),
        Err(_) => error,
    }
}

/// Reads a size, which has as many bits as an address.
fn read_size(reader: &mut BinaryReader<'_>, is_64: bool) -> Result<u64, ReadError>
    ensures read { IfOk result (λ n. size is_64 reader.old.left ≡ Some (n, reader.new.left)) }
    ensures refused { OnErr result (size is_64 reader.old.left ≡ None) }
{
    if is_64 {
        return reader.read_var_u64();
    }
    let declared = reader.duplicate();
    match reader.read_var_u32() {
        Ok(size) => Ok(u64::from(size)),
        Err(error) => Err(size_refusal(error, declared)),
    }
}

/// Reads the greatest size, if one is set.
fn read_maximum(
    reader: &mut BinaryReader<'_>,
    is_set: bool,
    is_64: bool,
) -> Result<Option<u64>, ReadError>
    ensures read { IfOk result (λ n. if_so is_set (size is_64) reader.old.left ≡ Some (n, reader.new.left)) }
    ensures refused { OnErr result (if_so is_set (size is_64) reader.old.left ≡ None) }
{
    if !is_set {
        return Ok(None);
    }
    Ok(Some(read_size(reader, is_64)?))
}

/// Reads the binary logarithm of the size of pages, if it is set.
fn read_page_size(reader: &mut BinaryReader<'_>, is_set: bool) -> Result<Option<u32>, ReadError>
    ensures read { IfOk result (λ n. if_so is_set (unsigned 32) reader.old.left ≡ Some (n, reader.new.left)) }
    ensures refused { OnErr result (if_so is_set (unsigned 32) reader.old.left ≡ None) }
{
    if !is_set {
        return Ok(None);
    }
    Ok(Some(reader.read_var_u32()?))
}

/// Reads limits behind these flags.
fn read_limits_behind(reader: &mut BinaryReader<'_>, flags: u8) -> Result<FlaggedLimits, ReadError>
    ensures read { IfOk result (λ l. limits_behind flags reader.old.left ≡ Some (l, reader.new.left)) }
    ensures refused { OnErr result (limits_behind flags reader.old.left ≡ None) }
{
    let is_64 = has_flag(4, flags);
    let initial = read_size(reader, is_64)?;
    let maximum = read_maximum(reader, has_flag(1, flags), is_64)?;
    let page_size_log2 = read_page_size(reader, has_flag(8, flags))?;
    Ok(FlaggedLimits {
        limits: Limits { initial, maximum },
        is_64,
        shared: has_flag(2, flags),
        page_size_log2,
    })
}

/// Reads limits with flags up to these. It refuses others, `invalid flags of limits`, and what the reads of numbers
/// refuse.
#[tactic(auto, unfolding(crate::specs::Limits::limits))]
fn read_limits(reader: &mut BinaryReader<'_>, most: u8) -> Result<FlaggedLimits, ReadError>
    ensures read { IfOk result (λ l. limits most reader.old.left ≡ Some (l, reader.new.left)) }
    ensures refused { OnErr result (limits most reader.old.left ≡ None) }
{
    let offset = reader.offset();
    let flags = reader.read_u8()?;
    if flags > most {
        return Err(ReadError::malformed(Fault::InvalidLimitsFlags, offset));
    }
    read_limits_behind(reader, flags)
}

/// Reads the type of a table that stands at this offset, and has such elements at first.
#[tactic(auto, unfolding(crate::specs::Limits::table_type))]
pub(crate) fn read_table_type(
    reader: &mut BinaryReader<'_>,
    canonical: CanonicalTypes<'_>,
    init: TableInit,
    offset: u64,
) -> Result<DeclaredTable, ReadError>
    ensures read { IfOk result (λ t. table_type init canonical.entry reader.old.left
        ≡ Some (record t { offset = 0 }, reader.new.left)) }
    ensures refused { OnErr result (table_type init canonical.entry reader.old.left ≡ None) }
{
    let element_type = read_ref_type(reader, canonical)?;
    let flagged = read_limits(reader, 7)?;
    Ok(DeclaredTable {
        ty: TableType {
            element_type,
            table64: flagged.is_64,
            shared: flagged.shared,
        },
        limits: flagged.limits,
        init,
        offset,
    })
}

/// Reads the type of a memory that stands at this offset.
#[tactic(auto, unfolding(crate::specs::Limits::memory_type))]
pub(crate) fn read_memory_type(
    reader: &mut BinaryReader<'_>,
    offset: u64,
) -> Result<DeclaredMemory, ReadError>
    ensures read { IfOk result (λ m. memory_type reader.old.left
        ≡ Some (record m { offset = 0 }, reader.new.left)) }
    ensures refused { OnErr result (memory_type reader.old.left ≡ None) }
{
    let flagged = read_limits(reader, 15)?;
    Ok(DeclaredMemory {
        ty: MemoryType {
            memory64: flagged.is_64,
            shared: flagged.shared,
        },
        limits: flagged.limits,
        page_size_log2: flagged.page_size_log2,
        offset,
    })
}
