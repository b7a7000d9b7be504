//! What stands in the sections of a module (WebAssembly core specification, "Binary Format: Modules").

ghost use Rattle.std.specs.Prelude.{ℕ, ◌≡◌, ◌≢◌, List, [], length, Option, Some, None, IfOk, IfErr, OnOk, OnErr, option_map};
ghost use Rattle.binary_operators.specs.Values.{so_many, list_of};
ghost use Rattle.binary_operators.specs.declared.error.Cause.TheVariants.{OutOfMemory};
ghost use Rattle.binary_modules.specs.ContentsRead.{IsList, bytes_of};
ghost use Rattle.binary_modules.specs.Items.{Item, placed};
ghost use Rattle.binary_modules.specs.Kept.{Adds};
ghost use Rattle.binary_modules.specs.declared.contents.SectionNumber.{SectionNumber};
ghost use Rattle.binary_modules.specs.Parts.{sized};
ghost use Rattle.binary_modules.specs.SectionList.{told_sections};
ghost use Rattle.binary_modules.specs.Sections.{contents_of, section_contents};
ghost use Rattle.binary_modules.specs.SectionsRead.{IsNumber};

use crate::entries::{Entry, read_entries};
use crate::initializers::Initializers;
use crate::lists::list_for;
use crate::section_list::{ContentSection, contents_of, read_part, section_contents};
use binary_operators::{BinaryReader, CanonicalTypes, Fault, ReadError, push};
use std::alloc::Global;

/// Refuses what is left of a section: `section size mismatch`.
pub(crate) fn check_end(reader: &BinaryReader<'_>) -> Result<(), ReadError>
    ensures ended { OnOk result (reader.now.left ≡ []) }
    ensures refused { OnErr result (reader.now.left ≢ []) }
{
    if reader.is_at_end() {
        return Ok(());
    }
    Err(ReadError::malformed(Fault::SectionSizeMismatch, reader.offset()))
}

/// Reads the items of the section with this id, behind those that are there. It refuses what their reads refuse, and
/// bytes behind them, `section size mismatch`.
pub(crate) fn read_section_of<'a, T: Entry>(
    sections: &[ContentSection<'a>],
    id: u8,
    canonical: CanonicalTypes<'_>,
    items: &mut Vec<T>,
    initializers: &mut Initializers<'a>,
) -> Result<(), ReadError>
    ensures read { OnOk result ((read : List (Item T))
        × IsList (T.reading canonical.entry) T.unplaced id (told_sections sections.now) items.old.items
        items.new.items read
        × Adds initializers.old (placed (length items.old.items) read) initializers.new) }
    ensures refused { IfErr result (λ e. e.cause ≢ OutOfMemory → (read : List (Item T))
        → list_of (T.reading canonical.entry) (contents_of id (told_sections sections.now)) ≢ Some (read, [])) }
{
    let mut reader = contents_of(sections, id);
    read_entries(&mut reader, canonical, items, initializers)?;
    check_end(&reader)?;
    Ok(())
}

/// Reads the items of the section with this id, which have no constant expressions, as [`read_section_of`] does.
pub(crate) fn read_plain_section<T: Entry>(
    alloc: Global,
    sections: &[ContentSection<'_>],
    id: u8,
    canonical: CanonicalTypes<'_>,
    items: &mut Vec<T>,
) -> Result<(), ReadError>
    ensures read { OnOk result ((read : List (Item T))
        × IsList (T.reading canonical.entry) T.unplaced id (told_sections sections.now) items.old.items
        items.new.items read) }
    ensures refused { IfErr result (λ e. e.cause ≢ OutOfMemory → (read : List (Item T))
        → list_of (T.reading canonical.entry) (contents_of id (told_sections sections.now)) ≢ Some (read, [])) }
{
    let mut none = Initializers::new(alloc);
    read_section_of(sections, id, canonical, items, &mut none)
}

/// A number that is a whole section.
#[derive(Clone, Copy)]
pub(crate) struct SectionNumber {
    /// The number.
    pub number: u32,
    /// The offset at which it stands.
    pub offset: u64,
}

/// Reads the number that the section with this id is, if there is one.
pub(crate) fn read_number_of(
    sections: &[ContentSection<'_>],
    id: u8,
) -> Result<Option<SectionNumber>, ReadError>
    ensures read { IfOk result (λ n. IsNumber (section_contents id (told_sections sections.now))
        (option_map (λ (x : SectionNumber). x.number) n)) }
    ensures refused { OnErr result ((n : Option ℕ)
        → IsNumber (section_contents id (told_sections sections.now)) n → ⊥) }
{
    let Some(mut reader) = section_contents(sections, id) else {
        return Ok(None);
    };
    let offset = reader.offset();
    let number = reader.read_var_u32()?;
    check_end(&reader)?;
    Ok(Some(SectionNumber { number, offset }))
}

/// Reads so many bodies, behind those that are there.
fn read_bodies<'a>(
    reader: &mut BinaryReader<'a>,
    count: u32,
    bodies: &mut Vec<BinaryReader<'a>>,
) -> Result<(), ReadError>
    requires { bodies.old.items ≡ [] }
    ensures read { OnOk result (so_many sized count reader.old.left
        ≡ Some (bytes_of bodies.new.items, reader.new.left)) }
    ensures refused { IfErr result (λ e. e.cause ≢ OutOfMemory → so_many sized count reader.old.left ≡ None) }
{
    for _ in 0..count {
        let body = read_part(reader)?;
        push(bodies, body)?;
    }
    Ok(())
}

/// Reads the bodies of a module.
#[tactic(auto, unfolding(binary_operators::specs::Values::list_of))]
pub(crate) fn read_bodies_of<'a>(
    alloc: Global,
    sections: &[ContentSection<'a>],
) -> Result<Vec<BinaryReader<'a>>, ReadError>
    ensures read { IfOk result (λ bodies. list_of sized (contents_of 10 (told_sections sections.now))
        ≡ Some (bytes_of bodies.items, [])) }
    ensures refused { IfErr result (λ e. e.cause ≢ OutOfMemory → (bodies : List (List ℕ))
        → list_of sized (contents_of 10 (told_sections sections.now)) ≢ Some (bodies, [])) }
{
    let mut reader = contents_of(sections, 10);
    let count = reader.read_var_u32()?;
    let mut bodies = list_for(alloc, &reader, count)?;
    read_bodies(&mut reader, count, &mut bodies)?;
    check_end(&reader)?;
    Ok(bodies)
}
