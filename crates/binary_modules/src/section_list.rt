//! The sections of a module (WebAssembly core specification, "Binary Format: Modules", "Sections").

ghost use Rattle.std.specs.Prelude.{ℕ, ◌≡◌, ◌≢◌, true, List, [], ◌∷◌, ◌++◌, Some, None, IfOk, IfErr, IfSome, OnOk, OnErr, option_map};
ghost use Rattle.std.specs.List.{list_all};
ghost use Rattle.binary_operators.specs.declared.error.Cause.TheVariants.{OutOfMemory};
ghost use Rattle.binary_modules.specs.Parts.{sized};
ghost use Rattle.binary_modules.specs.SectionList.{told_section, told_sections};
ghost use Rattle.binary_modules.specs.Sections.{Section, section, ids_behind, next_ids, section_ids, contents_of, section_contents, is_named, are_in_order};
ghost use Rattle.binary_modules.specs.SectionsRead.{AreSectionsIn};
ghost use Rattle.binary_modules.specs.declared.section_list.ContentSection.{ContentSection};

use crate::parts::read_name;
use binary_operators::{BinaryReader, Fault, ReadError, push};
use std::alloc::Global;

/// A section of a module.
#[derive(Drop)]
pub(crate) struct ContentSection<'a> {
    /// Its id.
    pub id: u8,
    /// A reader of its contents.
    pub contents: BinaryReader<'a>,
}

/// Reads how many bytes there are, and answers a reader of these.
#[tactic(auto, unfolding(crate::specs::Parts::sized))]
pub(crate) fn read_part<'a>(reader: &mut BinaryReader<'a>) -> Result<BinaryReader<'a>, ReadError>
    ensures read { IfOk result (λ part. sized reader.old.left ≡ Some (part.left, reader.new.left)) }
    ensures refused { OnErr result (sized reader.old.left ≡ None) }
{
    let count = reader.read_var_u32()?;
    reader.part(count as usize)
}

/// Refuses a custom section that doesn't begin with a name.
fn check_name(id: u8, contents: &BinaryReader<'_>) -> Result<(), ReadError>
    ensures named { OnOk result (is_named (record { id = id; contents = contents.now.left }) ≡ true) }
    ensures refused { OnErr result (is_named (record { id = id; contents = contents.now.left }) ≢ true) }
{
    if id == 0 {
        let _name = read_name(&mut contents.duplicate())?;
    }
    Ok(())
}

/// Reads a section. It refuses a custom one without a name.
#[tactic(auto, unfolding(crate::specs::Sections::section))]
fn read_section<'a>(reader: &mut BinaryReader<'a>) -> Result<ContentSection<'a>, ReadError>
    ensures read { IfOk result (λ s. section reader.old.left ≡ Some (told_section s, reader.new.left)) }
    ensures named { IfOk result (λ s. is_named (told_section s) ≡ true) }
    ensures refused { OnErr result ((s : Section) → (behind : List ℕ)
        → section reader.old.left ≡ Some (s, behind) → is_named s ≢ true) }
{
    let id = reader.read_u8()?;
    let contents = read_part(reader)?;
    check_name(id, &contents)?;
    Ok(ContentSection { id, contents })
}

/// The ids behind this one, if it is among them.
fn ids_behind(ids: &'static [u8], id: u8) -> Option<&'static [u8]>
    ensures found { IfSome result (λ rest. ids_behind id ids.entry.now ≡ Some rest.now) }
    ensures missing { result ≡ None → ids_behind id ids.entry.now ≡ None }
{
    for place in 0..ids.len() {
        if ids[place] == id {
            return Some(&ids[place + 1..]);
        }
    }
    None
}

/// The ids that may follow a section with this one, where these may follow the section before it.
fn next_ids(ids: &'static [u8], id: u8) -> Option<&'static [u8]>
    ensures found { IfSome result (λ rest. next_ids id ids.entry.now ≡ Some rest.now) }
    ensures missing { result ≡ None → next_ids id ids.entry.now ≡ None }
{
    if id == 0 {
        return Some(ids);
    }
    ids_behind(ids, id)
}

/// The contents of the section with this id: without one they are an empty list.
pub(crate) fn contents_of<'a>(sections: &[ContentSection<'a>], id: u8) -> BinaryReader<'a>
    ensures { result.left ≡ contents_of id (told_sections sections.now) }
{
    for section in sections {
        if section.id == id {
            return section.contents.duplicate();
        }
    }
    BinaryReader::new(NO_ITEMS.as_slice())
}

/// The contents of the section with this id, if there is one.
pub(crate) fn section_contents<'a>(
    sections: &[ContentSection<'a>],
    id: u8,
) -> Option<BinaryReader<'a>>
    ensures { option_map (λ r. r.left) result ≡ section_contents id (told_sections sections.now) }
{
    for section in sections {
        if section.id == id {
            return Some(section.contents.duplicate());
        }
    }
    None
}

/// An empty list.
static NO_ITEMS: [u8; 1] = [0];

/// The ids of sections in their order.
static SECTION_IDS: [u8; 13] = [1, 2, 3, 4, 5, 13, 6, 7, 8, 9, 12, 10, 11];

/// Reads a section that may follow the one before it, where these ids may. It answers the ids that may follow it. It
/// refuses a section out of order, and one whose id is none.
fn read_next<'a>(
    reader: &mut BinaryReader<'a>,
    sections: &mut Vec<ContentSection<'a>>,
    ids: &'static [u8],
) -> Result<&'static [u8], ReadError>
    ensures read { IfOk result (λ rest. (s : ContentSection)
        × (section reader.old.left ≡ Some (told_section s, reader.new.left))
        × (is_named (told_section s) ≡ true)
        × (next_ids s.id ids.entry.now ≡ Some rest.now)
        × (sections.new.items ≡ sections.old.items ++ s ∷ [])) }
    ensures refused { IfErr result (λ e. e.cause ≢ OutOfMemory → (s : Section) → (behind : List ℕ)
        → section reader.old.left ≡ Some (s, behind) → is_named s ≡ true → next_ids s.id ids.entry.now ≡ None) }
{
    let offset = reader.offset();
    let section = read_section(reader)?;
    let id = section.id;
    let Some(rest) = next_ids(ids, id) else {
        return Err(out_of_order(id, offset));
    };
    push(sections, section)?;
    Ok(rest)
}

/// The refusal of a section with this id at this offset: of an id that is none, or of one that stands behind another.
fn out_of_order(id: u8, offset: u64) -> ReadError {
    if id > 13 {
        return ReadError::malformed(Fault::MalformedSectionId, offset);
    }
    ReadError::malformed(Fault::SectionOutOfOrder, offset)
}

/// Reads the sections of a module up to its end.
pub(crate) fn read_sections<'a>(
    alloc: Global,
    reader: &mut BinaryReader<'a>,
) -> Result<Vec<ContentSection<'a>>, ReadError>
    ensures read { IfOk result (λ list. AreSectionsIn reader.old.left (told_sections list.items) []) }
    ensures ordered { IfOk result (λ list. are_in_order section_ids (told_sections list.items) ≡ true) }
    ensures named { IfOk result (λ list. list_all is_named (told_sections list.items) ≡ true) }
    ensures refused { IfErr result (λ e. e.cause ≢ OutOfMemory → (sections : List Section)
        → AreSectionsIn reader.old.left sections [] → are_in_order section_ids sections ≡ true
        → list_all is_named sections ≢ true) }
{
    let mut sections = Vec::new(alloc);
    let mut ids = SECTION_IDS.as_slice();
    for _ in 0..reader.bytes_left() {
        if reader.is_at_end() {
            return Ok(sections);
        }
        ids = read_next(reader, &mut sections, ids)?;
    }
    if reader.is_at_end() {
        return Ok(sections);
    }
    Err(ReadError::malformed(Fault::UnexpectedEnd, reader.offset()))
}
