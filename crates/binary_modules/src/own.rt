//! The items of a module's own, and its segments (WebAssembly core specification, "Binary Format: Modules").

ghost use Rattle.std.specs.Prelude.{◌≢◌, IfOk, IfErr, OnOk};
ghost use Rattle.binary_operators.specs.declared.error.Cause.TheVariants.{OutOfMemory};
ghost use Rattle.binary_modules.specs.Modules.{Contents};
ghost use Rattle.binary_modules.specs.ModulesRead.{AreContents};
ghost use Rattle.binary_modules.specs.OwnRead.{HasOwnItems, HasSegments};
ghost use Rattle.binary_modules.specs.SectionList.{told_sections};

use crate::contents::{read_plain_section, read_section_of};
use crate::imports::Imported;
use crate::initializers::Initializers;
use crate::section_list::ContentSection;
use binary_operators::{CanonicalTypes, ReadError};
use module_rules::{Data, Element};
use std::alloc::Global;

/// Reads the functions, tables, memories, tags and globals of a module's own, behind those that are imported. It refuses
/// what the reads of their sections refuse.
pub(crate) fn read_own_items<'a>(
    alloc: Global,
    sections: &[ContentSection<'a>],
    canonical: CanonicalTypes<'_>,
    items: &mut Imported,
    initializers: &mut Initializers<'a>,
) -> Result<(), ReadError>
    ensures read { OnOk result (HasOwnItems canonical.entry (told_sections sections.now) items.old items.new
        initializers.old initializers.new) }
    ensures refused { IfErr result (λ e. e.cause ≢ OutOfMemory → (contents : Contents)
        → AreContents canonical.entry (told_sections sections.now) contents → ⊥) }
{
    read_plain_section(alloc, sections, 3, canonical, &mut items.functions)?;
    read_section_of(sections, 4, canonical, &mut items.tables, initializers)?;
    read_plain_section(alloc, sections, 5, canonical, &mut items.memories)?;
    read_plain_section(alloc, sections, 13, canonical, &mut items.tags)?;
    read_section_of(sections, 6, canonical, &mut items.globals, initializers)?;
    Ok(())
}

/// The segments of a module.
#[derive(Drop)]
pub(crate) struct Segments {
    /// The element segments.
    pub elements: Vec<Element>,
    /// The data segments.
    pub data_segments: Vec<Data>,
}

/// Reads the segments of a module. It refuses what the reads of their sections refuse.
pub(crate) fn read_segments<'a>(
    sections: &[ContentSection<'a>],
    canonical: CanonicalTypes<'_>,
    initializers: &mut Initializers<'a>,
) -> Result<Segments, ReadError>
    ensures read { IfOk result (λ s. HasSegments canonical.entry (told_sections sections.now) s
        initializers.old initializers.new) }
    ensures refused { IfErr result (λ e. e.cause ≢ OutOfMemory → (contents : Contents)
        → AreContents canonical.entry (told_sections sections.now) contents → ⊥) }
{
    let alloc = initializers.allocator();
    let mut elements = Vec::new(alloc);
    read_section_of(sections, 9, canonical, &mut elements, initializers)?;
    let mut data_segments = Vec::new(alloc);
    read_section_of(sections, 11, canonical, &mut data_segments, initializers)?;
    Ok(Segments {
        elements,
        data_segments,
    })
}
