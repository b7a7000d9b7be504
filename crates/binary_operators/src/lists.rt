//! The lists of operators (WebAssembly core specification, "Binary Format: Conventions", "Lists"): each is
//! read into a buffer, which lends it to its operator.

ghost use Rattle.std.specs.Prelude.{ℕ, ◌≡◌, ◌≢◌, List, [], ◌∷◌, ◌++◌, Option, Some, None, IfOk, IfErr, OnOk};
ghost use Rattle.std.specs.Prelude.{OnErr};
ghost use Rattle.binary_operators.specs.Immediates.{catch_clause, handler};
ghost use Rattle.binary_operators.specs.Integers.{unsigned};
ghost use Rattle.binary_operators.specs.Types.{value_type};
ghost use Rattle.binary_operators.specs.Values.{list_of};
ghost use Rattle.binary_operators.specs.Vectors.{IsNoVector};
ghost use Rattle.binary_operators.specs.declared.error.Cause.TheVariants.{OutOfMemory};
ghost use Rattle.binary_operators.specs.declared.types.CanonicalTypes.{CanonicalTypes};

use crate::blocks::{read_catch, read_handler};
use crate::error::ReadError;
use crate::reader::BinaryReader;
use crate::types::{CanonicalTypes, read_value_type};
use std::alloc::Global;
use validate_types::ValType;
use validate_visit::{Catch, Handle};

/// The buffers that lend operators their lists, one operator at a time. What stands in them says nothing.
#[derive(Drop)]
pub struct OperatorLists {
    /// The labels of a `br_table`.
    pub(crate) labels: Vec<u32>,
    /// The types of a `select`.
    pub(crate) types: Vec<ValType>,
    /// The clauses of a `try_table`.
    pub(crate) catches: Vec<Catch>,
    /// The handlers of a `resume`.
    pub(crate) handlers: Vec<Handle>,
}

impl OperatorLists {
    /// Empty buffers. It takes no memory.
    pub fn new(alloc: Global) -> OperatorLists {
        OperatorLists {
            labels: Vec::new(alloc),
            types: Vec::new(alloc),
            catches: Vec::new(alloc),
            handlers: Vec::new(alloc),
        }
    }
}

/// What a list has items of.
pub(crate) trait Item: Copy {
    /// What the bytes begin with, and the bytes behind it.
    ghost reading: { CanonicalTypes → List ℕ → Option (Self × List ℕ) };

    /// Reads an item.
    fn read(reader: &mut BinaryReader<'_>, canonical: CanonicalTypes<'_>) -> Result<Self, ReadError>
        ensures read { IfOk result (λ item. reading canonical.entry reader.old.left
            ≡ Some (item, reader.new.left)) }
        ensures refused { OnErr result (reading canonical.entry reader.old.left ≡ None) }
        ensures covered { IfErr result IsNoVector };
}

impl Item for u32 {
    ghost reading = { λ types bytes. unsigned 32 bytes };

    fn read(
        reader: &mut BinaryReader<'_>,
        _canonical: CanonicalTypes<'_>,
    ) -> Result<u32, ReadError> {
        reader.read_var_u32()
    }
}

impl Item for ValType {
    ghost reading = { λ types bytes. value_type types bytes };

    fn read(
        reader: &mut BinaryReader<'_>,
        canonical: CanonicalTypes<'_>,
    ) -> Result<ValType, ReadError> {
        read_value_type(reader, canonical)
    }
}

impl Item for Catch {
    ghost reading = { λ types bytes. catch_clause bytes };

    fn read(
        reader: &mut BinaryReader<'_>,
        _canonical: CanonicalTypes<'_>,
    ) -> Result<Catch, ReadError> {
        read_catch(reader)
    }
}

impl Item for Handle {
    ghost reading = { λ types bytes. handler bytes };

    fn read(
        reader: &mut BinaryReader<'_>,
        _canonical: CanonicalTypes<'_>,
    ) -> Result<Handle, ReadError> {
        read_handler(reader)
    }
}

/// Adds an item to a list. It refuses want of memory alone.
pub fn push<T: Drop>(list: &mut Vec<T>, item: T) -> Result<(), ReadError>
    ensures added { OnOk result (list.new.items ≡ list.old.items ++ item ∷ []) }
    ensures short { IfErr result (λ e. e.cause ≡ OutOfMemory) }
{
    match list.push(item) {
        Ok(()) => Ok(()),
        Err(_) => Err(ReadError::out_of_memory(0)),
    }
}

/// Reads an item behind those that are there.
fn read_item<T: Item>(
    reader: &mut BinaryReader<'_>,
    canonical: CanonicalTypes<'_>,
    items: &mut Vec<T>,
) -> Result<(), ReadError>
    ensures read { OnOk result ((item : T) × (T.reading canonical.entry reader.old.left
        ≡ Some (item, reader.new.left))
        × (items.new.items ≡ items.old.items ++ item ∷ [])) }
    ensures refused { IfErr result (λ e. e.cause ≢ OutOfMemory
        → T.reading canonical.entry reader.old.left ≡ None) }
    ensures covered { IfErr result IsNoVector }
{
    let item = T::read(reader, canonical)?;
    push(items, item)
}

/// Reads a list, in place of what is there. It refuses what its items' reads refuse, and want of memory.
#[tactic(auto, unfolding(crate::specs::Values::list_of))]
pub(crate) fn read_list<T: Item>(
    reader: &mut BinaryReader<'_>,
    canonical: CanonicalTypes<'_>,
    items: &mut Vec<T>,
) -> Result<(), ReadError>
    ensures read { OnOk result (list_of (T.reading canonical.entry) reader.old.left
        ≡ Some (items.new.items, reader.new.left)) }
    ensures refused { IfErr result (λ e. e.cause ≢ OutOfMemory
        → list_of (T.reading canonical.entry) reader.old.left ≡ None) }
    ensures covered { IfErr result IsNoVector }
{
    items.clear();
    let count = reader.read_var_u32()?;
    for _ in 0..count {
        if let Err(error) = read_item(reader, canonical, items) {
            return Err(error);
        }
    }
    Ok(())
}
