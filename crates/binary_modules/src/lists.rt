//! Lists of types and of what stands in them (WebAssembly core specification, "Binary Format: Conventions",
//! "Lists").

ghost use Rattle.std.specs.Prelude.{ℕ, ◌≡◌, ◌≢◌, List, [], ◌∷◌, ◌++◌, Option, Some, None, IfOk, IfErr, OnOk};
ghost use Rattle.binary_operators.specs.Integers.{unsigned};
ghost use Rattle.binary_operators.specs.Types.{value_type};
ghost use Rattle.binary_operators.specs.Values.{so_many, list_of};
ghost use Rattle.binary_operators.specs.declared.error.Cause.TheVariants.{OutOfMemory};
ghost use Rattle.binary_operators.specs.declared.types.CanonicalTypes.{CanonicalTypes};
ghost use Rattle.binary_modules.specs.SubTypes.{field_type, sub_type};

use crate::subtypes::{read_field, read_sub_type};
use binary_operators::{BinaryReader, CanonicalTypes, ReadError, push, read_value_type};
use std::alloc::Global;
use validate_types::{FieldType, SubType, ValType};

/// What a list has items of.
pub(crate) trait Item: Drop {
    /// What the bytes begin with, and the bytes behind it.
    ghost reading: { CanonicalTypes → List ℕ → Option (Self × List ℕ) };

    /// Reads an item.
    fn read(
        alloc: Global,
        reader: &mut BinaryReader<'_>,
        canonical: CanonicalTypes<'_>,
    ) -> Result<Self, ReadError>
        ensures read { IfOk result (λ item. reading canonical.entry reader.old.left
            ≡ Some (item, reader.new.left)) }
        ensures refused { IfErr result (λ e. e.cause ≢ OutOfMemory
            → reading canonical.entry reader.old.left ≡ None) };
}

impl Item for u32 {
    ghost reading = { λ types bytes. unsigned 32 bytes };

    fn read(
        _alloc: Global,
        reader: &mut BinaryReader<'_>,
        _canonical: CanonicalTypes<'_>,
    ) -> Result<u32, ReadError> {
        reader.read_var_u32()
    }
}

impl Item for ValType {
    ghost reading = { λ types bytes. value_type types bytes };

    fn read(
        _alloc: Global,
        reader: &mut BinaryReader<'_>,
        canonical: CanonicalTypes<'_>,
    ) -> Result<ValType, ReadError> {
        read_value_type(reader, canonical)
    }
}

impl Item for FieldType {
    ghost reading = { λ types bytes. field_type types bytes };

    fn read(
        _alloc: Global,
        reader: &mut BinaryReader<'_>,
        canonical: CanonicalTypes<'_>,
    ) -> Result<FieldType, ReadError> {
        read_field(reader, canonical)
    }
}

impl Item for SubType {
    ghost reading = { λ types bytes. sub_type types bytes };

    fn read(
        alloc: Global,
        reader: &mut BinaryReader<'_>,
        canonical: CanonicalTypes<'_>,
    ) -> Result<SubType, ReadError> {
        read_sub_type(alloc, reader, canonical)
    }
}

/// Room is made ahead for no more items than this.
const MOST_ROOM: usize = 1_000_000;

/// For how many items room is made ahead, where so many are to be read: for no more than bytes are left, since each
/// takes one at least.
fn room_for(reader: &BinaryReader<'_>, count: u32) -> usize {
    (count as usize).min(reader.bytes_left()).min(MOST_ROOM)
}

/// An empty list with room for so many items, as far as room is made ahead. It refuses want of memory alone.
pub(crate) fn list_for<T>(
    alloc: Global,
    reader: &BinaryReader<'_>,
    count: u32,
) -> Result<Vec<T>, ReadError>
    ensures empty { IfOk result (λ list. list.items ≡ []) }
    ensures short { IfErr result (λ e. e.cause ≡ OutOfMemory) }
{
    match Vec::with_capacity(alloc, room_for(reader, count)) {
        Ok(list) => Ok(list),
        Err(_) => Err(ReadError::out_of_memory(0)),
    }
}

/// Makes room for so many items behind those that are there, as far as room is made ahead. It refuses want of memory
/// alone.
pub(crate) fn make_room<T>(
    items: &mut Vec<T>,
    reader: &BinaryReader<'_>,
    count: u32,
) -> Result<(), ReadError>
    ensures kept { items.new.items ≡ items.old.items }
    ensures short { IfErr result (λ e. e.cause ≡ OutOfMemory) }
{
    match items.reserve(room_for(reader, count)) {
        Ok(()) => Ok(()),
        Err(_) => Err(ReadError::out_of_memory(0)),
    }
}

/// Reads an item behind those that are there.
fn read_item<T: Item>(
    alloc: Global,
    reader: &mut BinaryReader<'_>,
    canonical: CanonicalTypes<'_>,
    items: &mut Vec<T>,
) -> Result<(), ReadError>
    ensures read { OnOk result ((item : T) × (T.reading canonical.entry reader.old.left
        ≡ Some (item, reader.new.left))
        × (items.new.items ≡ items.old.items ++ item ∷ [])) }
    ensures refused { IfErr result (λ e. e.cause ≢ OutOfMemory
        → T.reading canonical.entry reader.old.left ≡ None) }
{
    let item = T::read(alloc, reader, canonical)?;
    push(items, item)
}

/// Reads so many items behind those that are there. It refuses what their reads refuse, and want of memory.
pub(crate) fn read_so_many<T: Item>(
    alloc: Global,
    reader: &mut BinaryReader<'_>,
    canonical: CanonicalTypes<'_>,
    count: u32,
    items: &mut Vec<T>,
) -> Result<(), ReadError>
    ensures read { OnOk result ((read : List T)
        × (so_many (T.reading canonical.entry) count reader.old.left ≡ Some (read, reader.new.left))
        × (items.new.items ≡ items.old.items ++ read)) }
    ensures refused { IfErr result (λ e. e.cause ≢ OutOfMemory
        → so_many (T.reading canonical.entry) count reader.old.left ≡ None) }
{
    for _ in 0..count {
        if let Err(error) = read_item(alloc, reader, canonical, items) {
            return Err(error);
        }
    }
    Ok(())
}

/// Reads a list. It refuses what the reads of its items refuse, and want of memory.
#[tactic(auto, unfolding(binary_operators::specs::Values::list_of))]
pub(crate) fn read_list<T: Item>(
    alloc: Global,
    reader: &mut BinaryReader<'_>,
    canonical: CanonicalTypes<'_>,
) -> Result<Vec<T>, ReadError>
    ensures read { IfOk result (λ list. list_of (T.reading canonical.entry) reader.old.left
        ≡ Some (list.items, reader.new.left)) }
    ensures refused { IfErr result (λ e. e.cause ≢ OutOfMemory
        → list_of (T.reading canonical.entry) reader.old.left ≡ None) }
{
    let count = reader.read_var_u32()?;
    let mut items = list_for(alloc, reader, count)?;
    read_so_many(alloc, reader, canonical, count, &mut items)?;
    Ok(items)
}
