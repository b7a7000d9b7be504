//! Lists of the items that a module declares, with the constant expressions that stand in them (WebAssembly core
//! specification, "Binary Format: Modules").

ghost use Rattle.std.specs.Prelude.{ℕ, ◌≡◌, ◌≢◌, ◌+◌, List, [], ◌∷◌, ◌++◌, map, length, Option, Some, None};
ghost use Rattle.std.specs.Prelude.{IfOk, IfErr, OnOk};
ghost use Rattle.binary_operators.specs.Values.{list_of};
ghost use Rattle.binary_operators.specs.declared.error.Cause.TheVariants.{OutOfMemory};
ghost use Rattle.binary_operators.specs.declared.types.CanonicalTypes.{CanonicalTypes};
ghost use Rattle.binary_modules.specs.Items.{Item, declared_items, placed};
ghost use Rattle.binary_modules.specs.Kept.{Adds};

use crate::initializers::Initializers;
use crate::lists::make_room;
use binary_operators::{BinaryReader, CanonicalTypes, ReadError, push};

/// What a section has a list of.
pub(crate) trait Entry: Drop {
    /// The item that the bytes begin with, and the bytes behind it.
    ghost reading: { CanonicalTypes → List ℕ → Option (Item Self × List ℕ) };

    /// The same, as if it stood at offset 0.
    ghost unplaced: { Self → Self };

    /// Reads the item at this index, and its constant expressions behind those that are there. It refuses bytes that
    /// begin with no such item, and want of memory.
    fn read<'a>(
        reader: &mut BinaryReader<'a>,
        canonical: CanonicalTypes<'_>,
        index: u32,
        initializers: &mut Initializers<'a>,
    ) -> Result<Self, ReadError>
        ensures read { IfOk result (λ x. (item : Item Self)
            × (reading canonical.entry reader.old.left ≡ Some (item, reader.new.left))
            × (item.declared ≡ unplaced x)
            × Adds initializers.old (placed index (item ∷ [])) initializers.new) }
        ensures refused { IfErr result (λ e. e.cause ≢ OutOfMemory
            → reading canonical.entry reader.old.left ≡ None) };
}

/// Reads an item behind those that are there. It refuses what the read of the item refuses, and want of memory, as
/// where 2^32 items are there.
fn read_entry<'a, T: Entry>(
    reader: &mut BinaryReader<'a>,
    canonical: CanonicalTypes<'_>,
    items: &mut Vec<T>,
    initializers: &mut Initializers<'a>,
) -> Result<(), ReadError>
    ensures more { OnOk result (length items.new.items ≡ length items.old.items + 1) }
    ensures read { OnOk result ((item : Item T)
        × (T.reading canonical.entry reader.old.left ≡ Some (item, reader.new.left))
        × (map T.unplaced items.new.items ≡ map T.unplaced items.old.items ++ item.declared ∷ [])
        × Adds initializers.old (placed (length items.old.items) (item ∷ [])) initializers.new) }
    ensures refused { IfErr result (λ e. e.cause ≢ OutOfMemory
        → T.reading canonical.entry reader.old.left ≡ None) }
{
    // No item past these has an index.
    let Ok(index) = u32::try_from(items.len()) else {
        return Err(ReadError::out_of_memory(reader.offset()));
    };
    let item = T::read(reader, canonical, index, initializers)?;
    push(items, item)?;
    Ok(())
}

/// Reads a list of items behind those that are there. It refuses what the reads of its items refuse, and want of
/// memory.
#[tactic(auto, unfolding(binary_operators::specs::Values::list_of))]
pub(crate) fn read_entries<'a, T: Entry>(
    reader: &mut BinaryReader<'a>,
    canonical: CanonicalTypes<'_>,
    items: &mut Vec<T>,
    initializers: &mut Initializers<'a>,
) -> Result<(), ReadError>
    ensures read { OnOk result ((read : List (Item T))
        × (list_of (T.reading canonical.entry) reader.old.left ≡ Some (read, reader.new.left))
        × (map T.unplaced items.new.items ≡ map T.unplaced items.old.items ++ declared_items read)
        × Adds initializers.old (placed (length items.old.items) read) initializers.new) }
    ensures refused { IfErr result (λ e. e.cause ≢ OutOfMemory
        → list_of (T.reading canonical.entry) reader.old.left ≡ None) }
{
    let count = reader.read_var_u32()?;
    make_room(items, reader, count)?;
    for _ in 0..count {
        read_entry(reader, canonical, items, initializers)?;
    }
    Ok(())
}
