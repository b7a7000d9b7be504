//! A whole module (WebAssembly core specification, "Binary Format: Modules").

ghost use Rattle.std.specs.Prelude.{ℕ, ◌≡◌, ◌≢◌, ◌+◌, List, [], ◌∷◌, ◌++◌, map, length, Some, None, IfOk, IfErr, OnOk, OnErr, IfSome, option_map};
ghost use Rattle.binary_operators.specs.Values.{list_of};
ghost use Rattle.binary_operators.specs.declared.error.Cause.TheVariants.{OutOfMemory};
ghost use Rattle.module_rules.specs.Declarations.{Declarations, declarations_of};
ghost use Rattle.module_rules.specs.Exported.{Exported};
ghost use Rattle.module_rules.specs.declared.items.RecGroup.{RecGroup};
ghost use Rattle.module_rules.specs.declared.module.Place.{Place};
ghost use Rattle.validate_types.specs.declared.types.SubType.{SubType};
ghost use Rattle.binary_modules.specs.ContentsRead.{IsList, bytes_of};
ghost use Rattle.binary_modules.specs.GroupsRead.{AreTypes};
ghost use Rattle.binary_modules.specs.Imports.{HasImports, AreCounted};
ghost use Rattle.binary_modules.specs.Items.{Item, exported, import_item};
ghost use Rattle.binary_modules.specs.Kept.{told};
ghost use Rattle.binary_modules.specs.Modules.{Contents, IsModule, IsNoModule, module_in, unplaced_module};
ghost use Rattle.binary_modules.specs.ModulesRead.{AreContents};
ghost use Rattle.binary_modules.specs.OwnRead.{HasOwnItems, HasSegments};
ghost use Rattle.binary_modules.specs.Parts.{sized};
ghost use Rattle.binary_modules.specs.SectionList.{told_sections};
ghost use Rattle.binary_modules.specs.Sections.{contents_of, section_contents};
ghost use Rattle.binary_modules.specs.SectionsRead.{IsNumber};
ghost use Rattle.binary_modules.specs.declared.contents.SectionNumber.{SectionNumber};
ghost use Rattle.binary_modules.specs.declared.imports.Import.{Import};
ghost use Rattle.binary_modules.specs.declared.imports.Imported.{Imported};

use crate::contents::{
    SectionNumber, check_end, read_bodies_of, read_number_of, read_plain_section,
};
use crate::groups::{TypeSection, read_types};
use crate::imports::{Imported, read_imports};
use crate::initializers::{ConstantExpression, Initializers};
use crate::own::{Segments, read_own_items, read_segments};
use crate::parts::read_name;
use crate::section_list::{ContentSection, contents_of, read_sections};
use binary_operators::{BinaryReader, CanonicalTypes, Fault, ReadError};
use module_rules::{DataCount, DeclaredModule, Export, Imports, Start};
use std::alloc::Global;

/// What a module declares, and the bytes of its bodies and constant expressions.
#[derive(Drop)]
pub struct Module<'a> {
    /// What it declares.
    pub declared: DeclaredModule,
    /// For how many types another one stands.
    pub merged: usize,
    /// The bodies of the functions of its own, each with its locals before its operators.
    pub bodies: Vec<BinaryReader<'a>>,
    /// Its constant expressions.
    pub expressions: Vec<ConstantExpression<'a>>,
    /// What stands in the last name section, behind its name.
    pub names: Option<BinaryReader<'a>>,
}

/// Reads these bytes. It refuses others for this fault.
fn read_expected(
    reader: &mut BinaryReader<'_>,
    expected: &[u8],
    fault: Fault,
) -> Result<(), ReadError>
    ensures read { OnOk result (reader.old.left ≡ expected.now ++ reader.new.left) }
    ensures refused { OnErr result ((rest : List ℕ) → reader.old.left ≢ expected.now ++ rest) }
{
    let offset = reader.offset();
    if reader.read_bytes(expected.len())? == expected {
        return Ok(());
    }
    Err(ReadError::malformed(fault, offset))
}

/// Reads the magic number and the version that a module begins with. It refuses others.
fn read_header(reader: &mut BinaryReader<'_>) -> Result<(), ReadError>
    ensures read { OnOk result (reader.old.left
        ≡ 0x00 ∷ 0x61 ∷ 0x73 ∷ 0x6d ∷ 0x01 ∷ 0x00 ∷ 0x00 ∷ 0x00 ∷ reader.new.left) }
    ensures refused { OnErr result ((rest : List ℕ) → reader.old.left
        ≢ 0x00 ∷ 0x61 ∷ 0x73 ∷ 0x6d ∷ 0x01 ∷ 0x00 ∷ 0x00 ∷ 0x00 ∷ rest) }
{
    read_expected(reader, b"\0asm".as_slice(), Fault::NoMagicHeader)?;
    read_expected(reader, [1, 0, 0, 0].as_slice(), Fault::UnknownVersion)
}

/// Reads the types of a module. It refuses what their reads refuse, and bytes behind them, `section size mismatch`.
fn read_type_section(
    alloc: Global,
    sections: &[ContentSection<'_>],
) -> Result<TypeSection, ReadError>
    ensures read { IfOk result (λ s. AreTypes (contents_of 1 (told_sections sections.now)) s.types.items
        s.canonical.items s.groups.items []) }
    ensures refused { IfErr result (λ e. e.cause ≢ OutOfMemory → (types : List SubType) → (canonical : List ℕ)
        → (written : List RecGroup)
        → AreTypes (contents_of 1 (told_sections sections.now)) types canonical written [] → ⊥) }
{
    let mut reader = contents_of(sections, 1);
    let section = read_types(alloc, &mut reader)?;
    check_end(&reader)?;
    Ok(section)
}

/// Reads the imports of a module. It refuses what their reads refuse, and bytes behind them, `section size mismatch`.
fn read_import_section(
    alloc: Global,
    sections: &[ContentSection<'_>],
    canonical: CanonicalTypes<'_>,
) -> Result<Imported, ReadError>
    ensures read { IfOk result (λ i. HasImports canonical.entry (contents_of 2 (told_sections sections.now)) i []) }
    ensures refused { IfErr result (λ e. e.cause ≢ OutOfMemory → (imports : List Import)
        → list_of (import_item canonical.entry) (contents_of 2 (told_sections sections.now)) ≢ Some (imports, [])) }
{
    let mut reader = contents_of(sections, 2);
    let mut imported = Imported::new(alloc);
    read_imports(&mut reader, canonical, &mut imported)?;
    check_end(&reader)?;
    Ok(imported)
}

/// So many items, as an index counts them. It refuses more than 2^32, for want of memory: no index stands for those.
fn count_of(count: usize) -> Result<u32, ReadError>
    ensures read { IfOk result (λ n. n ≡ count) }
    ensures short { IfErr result (λ e. e.cause ≡ OutOfMemory) }
{
    let Ok(count) = u32::try_from(count) else {
        return Err(ReadError::out_of_memory(0));
    };
    Ok(count)
}

/// How many items of each kind are imported, from this offset on. It refuses want of memory alone.
fn imports_of(items: &Imported, offset: u64) -> Result<Imports, ReadError>
    ensures counted { IfOk result (λ i. AreCounted items.now i) }
    ensures short { IfErr result (λ e. e.cause ≡ OutOfMemory) }
{
    let functions = count_of(items.functions.len())?;
    let tables = count_of(items.tables.len())?;
    let memories = count_of(items.memories.len())?;
    let globals = count_of(items.globals.len())?;
    let tags = count_of(items.tags.len())?;
    Ok(Imports {
        functions,
        tables,
        memories,
        globals,
        tags,
        offset,
    })
}

/// Reads the exports of a module.
fn read_exports(
    alloc: Global,
    sections: &[ContentSection<'_>],
    canonical: CanonicalTypes<'_>,
) -> Result<Vec<Export>, ReadError>
    ensures read { IfOk result (λ list. (read : List (Item Exported))
        × IsList exported (λ e. record e { offset = 0 }) 7 (told_sections sections.now) [] list.items read) }
    ensures refused { IfErr result (λ e. e.cause ≢ OutOfMemory → (read : List (Item Exported))
        → list_of exported (contents_of 7 (told_sections sections.now)) ≢ Some (read, [])) }
{
    let mut exports = Vec::new(alloc);
    read_plain_section(alloc, sections, 7, canonical, &mut exports)?;
    Ok(exports)
}

/// The start function, by its number.
fn start_of(number: Option<SectionNumber>) -> Option<Start>
    ensures { option_map (λ s. s.function) result ≡ option_map (λ (n : SectionNumber). n.number) number }
{
    match number {
        Some(n) => Some(Start {
            function: n.number,
            offset: n.offset,
        }),
        None => None,
    }
}

/// How many data segments are counted, by that number.
fn data_count_of(number: Option<SectionNumber>) -> Option<DataCount>
    ensures { option_map (λ c. c.count) result ≡ option_map (λ (n : SectionNumber). n.number) number }
{
    match number {
        Some(n) => Some(DataCount {
            count: n.number,
            offset: n.offset,
        }),
        None => None,
    }
}

/// Refuses, at the end of a module, other than so many bodies as functions that aren't imported (`InconsistentCode`).
fn check_bodies(imported: u32, functions: usize, bodies: usize, end: u64) -> Result<(), ReadError>
    ensures counted { OnOk result (imported + bodies ≡ functions) }
    ensures refused { OnErr result (imported + bodies ≢ functions) }
{
    if functions.checked_sub(imported as usize) == Some(bodies) {
        return Ok(());
    }
    Err(ReadError::malformed(Fault::InconsistentCode, end))
}

/// Refuses, at the end of a module, other than so many data segments as are counted (`InconsistentData`).
fn check_data_count(
    number: Option<SectionNumber>,
    segments: usize,
    end: u64,
) -> Result<(), ReadError>
    ensures counted { OnOk result (IfSome (option_map (λ (n : SectionNumber). n.number) number)
        (λ n. n ≡ segments)) }
    ensures refused { OnErr result (IfSome (option_map (λ (n : SectionNumber). n.number) number)
        (λ n. n ≡ segments) → ⊥) }
{
    match number {
        Some(n) if n.number as usize != segments => {
            Err(ReadError::malformed(Fault::InconsistentData, end))
        }
        _ => Ok(()),
    }
}

/// What stands in a name section, behind its name, if the section is one.
fn names_in<'a>(section: &ContentSection<'a>) -> Option<BinaryReader<'a>> {
    let mut contents = section.contents.duplicate();
    if section.id == 0 && matches!(read_name(&mut contents), Ok("name")) {
        return Some(contents);
    }
    None
}

/// What stands in the last name section, behind its name.
fn names_of<'a>(sections: &[ContentSection<'a>]) -> Option<BinaryReader<'a>> {
    let mut names = None;
    for section in sections {
        if let Some(found) = names_in(section) {
            names = Some(found);
        }
    }
    names
}

/// The items of a module, and how many of them are imported.
#[derive(Drop)]
struct Items {
    imports: Imports,
    items: Imported,
}

/// Reads the items of a module, imported ones and its own.
fn read_items<'a>(
    alloc: Global,
    sections: &[ContentSection<'a>],
    canonical: CanonicalTypes<'_>,
    initializers: &mut Initializers<'a>,
) -> Result<Items, ReadError>
    ensures read { IfOk result (λ i. (imported : Imported)
        × HasImports canonical.entry (contents_of 2 (told_sections sections.now)) imported []
        × AreCounted imported i.imports
        × HasOwnItems canonical.entry (told_sections sections.now) imported i.items initializers.old
        initializers.new) }
    ensures refused { IfErr result (λ e. e.cause ≢ OutOfMemory → (contents : Contents)
        → AreContents canonical.entry (told_sections sections.now) contents → ⊥) }
{
    let mut items = read_import_section(alloc, sections, canonical)?;
    let imports = imports_of(&items, contents_of(sections, 2).offset())?;
    read_own_items(alloc, sections, canonical, &mut items, initializers)?;
    Ok(Items { imports, items })
}

/// What stands in the sections of a module besides types and items.
#[derive(Drop)]
struct Uses<'a> {
    exports: Vec<Export>,
    start: Option<SectionNumber>,
    segments: Segments,
    data_count: Option<SectionNumber>,
    bodies: Vec<BinaryReader<'a>>,
}

/// Reads what stands in the sections of a module besides types and these items. The module ends at this offset.
fn read_uses<'a>(
    sections: &[ContentSection<'a>],
    canonical: CanonicalTypes<'_>,
    items: &Items,
    end: u64,
    initializers: &mut Initializers<'a>,
) -> Result<Uses<'a>, ReadError>
    ensures exports { IfOk result (λ u. (read : List (Item Exported))
        × IsList exported (λ e. record e { offset = 0 }) 7 (told_sections sections.now) [] u.exports.items
        read) }
    ensures start { IfOk result (λ u. IsNumber (section_contents 8 (told_sections sections.now))
        (option_map (λ (n : SectionNumber). n.number) u.start)) }
    ensures segments { IfOk result (λ u. HasSegments canonical.entry (told_sections sections.now) u.segments
        initializers.old initializers.new) }
    ensures data_count { IfOk result (λ u. IsNumber (section_contents 12 (told_sections sections.now))
        (option_map (λ (n : SectionNumber). n.number) u.data_count)) }
    ensures bodies { IfOk result (λ u. list_of sized (contents_of 10 (told_sections sections.now))
        ≡ Some (bytes_of u.bodies.items, [])) }
    ensures counted { IfOk result (λ u. items.now.imports.functions + length u.bodies.items
        ≡ length items.now.items.functions.items) }
    ensures data_counted { IfOk result (λ u. IfSome (option_map (λ (n : SectionNumber). n.number) u.data_count)
        (λ n. n ≡ length u.segments.data_segments.items)) }
    ensures refused { IfErr result (λ e. e.cause ≢ OutOfMemory → (contents : Contents)
        → items.now.imports.functions + length contents.functions ≡ length items.now.items.functions.items
        → AreContents canonical.entry (told_sections sections.now) contents → ⊥) }
{
    let alloc = initializers.allocator();
    let exports = read_exports(alloc, sections, canonical)?;
    let start = read_number_of(sections, 8)?;
    let segments = read_segments(sections, canonical, initializers)?;
    let data_count = read_number_of(sections, 12)?;
    let bodies = read_bodies_of(alloc, sections)?;
    let functions = items.items.functions.len();
    check_bodies(items.imports.functions, functions, bodies.len(), end)?;
    check_data_count(data_count, segments.data_segments.len(), end)?;
    Ok(Uses {
        exports,
        start,
        segments,
        data_count,
        bodies,
    })
}

/// Reads what stands in the sections of a module that ends at this offset.
fn read_contents<'a>(
    alloc: Global,
    sections: &[ContentSection<'a>],
    end: u64,
) -> Result<Module<'a>, ReadError>
    ensures counted { IfOk result (λ m. m.declared.imports.functions + length m.bodies.items
        ≡ length m.declared.functions.items) }
    ensures read { IfOk result (λ m. module_in (told_sections sections.now) ≡ Some (unplaced_module
        (declarations_of m.declared) (bytes_of m.bodies.items) (map told m.expressions.items))) }
    ensures refused { IfErr result (λ e. e.cause ≢ OutOfMemory → module_in (told_sections sections.now) ≡ None) }
{
    let types = read_type_section(alloc, sections)?;
    let canonical = CanonicalTypes::new(&types.canonical);
    let mut initializers = Initializers::new(alloc);
    let found = read_items(alloc, sections, canonical, &mut initializers)?;
    let uses = read_uses(sections, canonical, &found, end, &mut initializers)?;
    let Items { imports, items } = found;
    let Uses {
        exports,
        start,
        segments,
        data_count,
        bodies,
    } = uses;
    Ok(Module {
        merged: types.merged(),
        declared: DeclaredModule {
            types: types.types,
            groups: types.groups,
            canonical: types.canonical,
            imports,
            functions: items.functions,
            tables: items.tables,
            memories: items.memories,
            globals: items.globals,
            tags: items.tags,
            exports,
            start: start_of(start),
            elements: segments.elements,
            data_count: data_count_of(data_count),
            data_segments: segments.data_segments,
            expression_functions: initializers.functions,
        },
        bodies,
        expressions: initializers.expressions,
        names: names_of(sections),
    })
}

/// Reads a module, of which these are all the bytes. It refuses bytes that are no module's, a vector operator in a
/// constant expression, but for a constant, and want of memory.
///
/// What it declares is what the bytes say, and so are its bodies and its constant expressions. Bytes that are refused for
/// another cause than want of memory are no module's.
pub fn read_module<'a>(alloc: Global, bytes: &'a [u8]) -> Result<Module<'a>, ReadError>
    ensures counted { IfOk result (λ m. m.declared.imports.functions + length m.bodies.items
        ≡ length m.declared.functions.items) }
    ensures read { IfOk result (λ m. IsModule bytes.now (declarations_of m.declared) (bytes_of m.bodies.items)
        (map told m.expressions.items)) }
    ensures refused { IfErr result (λ e. e.cause ≢ OutOfMemory → IsNoModule bytes.now) }
{
    let mut reader = BinaryReader::new(bytes);
    read_header(&mut reader)?;
    let sections = read_sections(alloc, &mut reader)?;
    let contents = read_contents(alloc, &sections, reader.offset())?;
    Ok(contents)
}
