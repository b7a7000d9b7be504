//! Element segments (WebAssembly core specification, "Binary Format: Modules", "Element Section").

ghost use Rattle.std.specs.Prelude.{ℕ, ◌≡◌, ◌≢◌, List, [], ◌∷◌, Some, None, map, length, IfOk, IfErr, OnOk, OnErr};
ghost use Rattle.binary_operators.specs.Values.{so_many};
ghost use Rattle.binary_operators.specs.declared.error.Cause.TheVariants.{OutOfMemory};
ghost use Rattle.module_rules.specs.declared.module.Place.TheVariants.{Element as ElementItem};
ghost use Rattle.module_rules.specs.declared.segments.Element.{Element};
ghost use Rattle.module_rules.specs.declared.segments.ElementKind.{ElementKind};
ghost use Rattle.binary_modules.specs.Initializers.{Expression, expression};
ghost use Rattle.binary_modules.specs.Items.{Item, placed_at, placed};
ghost use Rattle.binary_modules.specs.Kept.{Adds};
ghost use Rattle.binary_modules.specs.Segments.{index_if, Target, active_elements, element_target, Listed};
ghost use Rattle.binary_modules.specs.Segments.{function_items, expression_items, kind_and_functions};
ghost use Rattle.binary_modules.specs.Segments.{type_and_expressions, element_items, element_behind, element};

use crate::entries::Entry;
use crate::initializers::Initializers;
use crate::lists::read_list;
use binary_operators::{BinaryReader, CanonicalTypes, Fault, ReadError, read_ref_type};
use module_rules::{Element, ElementItems, ElementKind, FunctionItems, Place};
use std::alloc::Global;
use validate_types::RefType;

/// What a segment begins with, and which one it is.
#[derive(Clone, Copy)]
pub(crate) struct SegmentHead {
    /// Its flags.
    pub flags: u32,
    /// Its index.
    pub index: u32,
    /// Where it stands.
    pub offset: u64,
}

/// Reads the index of a table or a memory, if it is written: else it is 0.
pub(crate) fn read_index_if(
    reader: &mut BinaryReader<'_>,
    is_written: bool,
) -> Result<u32, ReadError>
    ensures read { IfOk result (λ i. index_if is_written reader.old.left ≡ Some (i, reader.new.left)) }
    ensures refused { OnErr result (index_if is_written reader.old.left ≡ None) }
{
    if is_written {
        return reader.read_var_u32();
    }
    Ok(0)
}

/// Reads where the elements of the segment at this index are written to.
#[tactic(auto, unfolding(crate::specs::Segments::active_elements))]
fn read_active_elements<'a>(
    reader: &mut BinaryReader<'a>,
    canonical: CanonicalTypes<'_>,
    has_table: bool,
    index: u32,
    initializers: &mut Initializers<'a>,
) -> Result<ElementKind, ReadError>
    ensures read { IfOk result (λ kind. (t : Target ElementKind)
        × (active_elements has_table canonical.entry reader.old.left ≡ Some (t, reader.new.left))
        × (t.kind ≡ kind)
        × Adds initializers.old (placed_at index t.initializers) initializers.new) }
    ensures refused { IfErr result (λ e. e.cause ≢ OutOfMemory
        → active_elements has_table canonical.entry reader.old.left ≡ None) }
{
    let table_index = read_index_if(reader, has_table)?;
    initializers.read(reader, canonical, Place::ElementOffset(index))?;
    Ok(ElementKind::Active { table_index })
}

/// Reads what becomes of a segment.
fn read_element_target<'a>(
    reader: &mut BinaryReader<'a>,
    canonical: CanonicalTypes<'_>,
    head: SegmentHead,
    initializers: &mut Initializers<'a>,
) -> Result<ElementKind, ReadError>
    ensures read { IfOk result (λ kind. (t : Target ElementKind)
        × (element_target head.flags canonical.entry reader.old.left ≡ Some (t, reader.new.left))
        × (t.kind ≡ kind)
        × Adds initializers.old (placed_at head.index t.initializers) initializers.new) }
    ensures refused { IfErr result (λ e. e.cause ≢ OutOfMemory
        → element_target head.flags canonical.entry reader.old.left ≡ None) }
{
    let SegmentHead { flags, index, .. } = head;
    let mode = flags % 4;
    if mode == 1 {
        return Ok(ElementKind::Passive);
    }
    if mode == 3 {
        return Ok(ElementKind::Declared);
    }
    let kind = read_active_elements(reader, canonical, mode == 2, index, initializers)?;
    Ok(kind)
}

/// Reads the indices of functions.
#[tactic(auto, unfolding(crate::specs::Segments::function_items))]
fn read_function_items(
    alloc: Global,
    reader: &mut BinaryReader<'_>,
    canonical: CanonicalTypes<'_>,
) -> Result<ElementItems, ReadError>
    ensures read { IfOk result (λ items. function_items reader.old.left
        ≡ Some (record { items = items; initializers = [] }, reader.new.left)) }
    ensures refused { IfErr result (λ e. e.cause ≢ OutOfMemory → function_items reader.old.left ≡ None) }
{
    let indices = read_list(alloc, reader, canonical)?;
    Ok(ElementItems::Functions(FunctionItems { indices }))
}

/// Reads so many constant expressions, which are items of the segment at this index.
fn read_expressions<'a>(
    reader: &mut BinaryReader<'a>,
    canonical: CanonicalTypes<'_>,
    count: u32,
    index: u32,
    initializers: &mut Initializers<'a>,
) -> Result<(), ReadError>
    ensures read { OnOk result ((values : List Expression)
        × (so_many (expression canonical.entry) count reader.old.left ≡ Some (values, reader.new.left))
        × Adds initializers.old (map (λ (e : Expression). (ElementItem index, e)) values) initializers.new) }
    ensures refused { IfErr result (λ e. e.cause ≢ OutOfMemory
        → so_many (expression canonical.entry) count reader.old.left ≡ None) }
{
    for _ in 0..count {
        initializers.read(reader, canonical, Place::Element(index))?;
    }
    Ok(())
}

/// Reads a list of constant expressions of this type, which are the items of the segment at this index.
fn read_expression_items<'a>(
    reader: &mut BinaryReader<'a>,
    canonical: CanonicalTypes<'_>,
    ty: RefType,
    index: u32,
    initializers: &mut Initializers<'a>,
) -> Result<ElementItems, ReadError>
    ensures read { IfOk result (λ items. (l : Listed)
        × (expression_items ty canonical.entry reader.old.left ≡ Some (l, reader.new.left))
        × (l.items ≡ items)
        × Adds initializers.old (placed_at index l.initializers) initializers.new) }
    ensures refused { IfErr result (λ e. e.cause ≢ OutOfMemory
        → expression_items ty canonical.entry reader.old.left ≡ None) }
{
    let count = reader.read_var_u32()?;
    read_expressions(reader, canonical, count, index, initializers)?;
    Ok(ElementItems::Expressions { ty, count })
}

/// Reads the type of constant expressions, and a list of them.
#[tactic(auto, unfolding(crate::specs::Segments::type_and_expressions))]
fn read_type_and_expressions<'a>(
    reader: &mut BinaryReader<'a>,
    canonical: CanonicalTypes<'_>,
    index: u32,
    initializers: &mut Initializers<'a>,
) -> Result<ElementItems, ReadError>
    ensures read { IfOk result (λ items. (l : Listed)
        × (type_and_expressions canonical.entry reader.old.left ≡ Some (l, reader.new.left))
        × (l.items ≡ items)
        × Adds initializers.old (placed_at index l.initializers) initializers.new) }
    ensures refused { IfErr result (λ e. e.cause ≢ OutOfMemory
        → type_and_expressions canonical.entry reader.old.left ≡ None) }
{
    let ty = read_ref_type(reader, canonical)?;
    let items = read_expression_items(reader, canonical, ty, index, initializers)?;
    Ok(items)
}

/// Reads the kind of items that are functions, and their indices. It refuses another kind, `invalid element kind`, what
/// the reads of numbers refuse, and want of memory.
#[tactic(auto, unfolding(crate::specs::Segments::kind_and_functions))]
fn read_kind_and_functions(
    alloc: Global,
    reader: &mut BinaryReader<'_>,
    canonical: CanonicalTypes<'_>,
) -> Result<ElementItems, ReadError>
    ensures read { IfOk result (λ items. kind_and_functions reader.old.left
        ≡ Some (record { items = items; initializers = [] }, reader.new.left)) }
    ensures refused { IfErr result (λ e. e.cause ≢ OutOfMemory → kind_and_functions reader.old.left ≡ None) }
{
    let offset = reader.offset();
    let kind = reader.read_u8()?;
    if kind != 0 {
        return Err(ReadError::malformed(Fault::InvalidElementKind, offset));
    }
    let items = read_function_items(alloc, reader, canonical)?;
    Ok(items)
}

/// Reads the items of a segment.
fn read_element_items<'a>(
    reader: &mut BinaryReader<'a>,
    canonical: CanonicalTypes<'_>,
    head: SegmentHead,
    initializers: &mut Initializers<'a>,
) -> Result<ElementItems, ReadError>
    ensures read { IfOk result (λ items. (l : Listed)
        × (element_items head.flags canonical.entry reader.old.left ≡ Some (l, reader.new.left))
        × (l.items ≡ items)
        × Adds initializers.old (placed_at head.index l.initializers) initializers.new) }
    ensures refused { IfErr result (λ e. e.cause ≢ OutOfMemory
        → element_items head.flags canonical.entry reader.old.left ≡ None) }
{
    let SegmentHead { flags, index, .. } = head;
    let alloc = initializers.allocator();
    if flags == 0 {
        let functions = read_function_items(alloc, reader, canonical)?;
        return Ok(functions);
    }
    if flags < 4 {
        let of_kind = read_kind_and_functions(alloc, reader, canonical)?;
        return Ok(of_kind);
    }
    if flags == 4 {
        let any = RefType::FUNCREF;
        let values = read_expression_items(reader, canonical, any, index, initializers)?;
        return Ok(values);
    }
    let typed = read_type_and_expressions(reader, canonical, index, initializers)?;
    Ok(typed)
}

/// Reads a segment behind its flags.
#[tactic(auto, unfolding(crate::specs::Segments::element_behind))]
fn read_element_behind<'a>(
    reader: &mut BinaryReader<'a>,
    canonical: CanonicalTypes<'_>,
    head: SegmentHead,
    initializers: &mut Initializers<'a>,
) -> Result<Element, ReadError>
    ensures read { IfOk result (λ e. (item : Item Element)
        × (element_behind head.flags canonical.entry reader.old.left ≡ Some (item, reader.new.left))
        × (item.declared ≡ record e { offset = 0 })
        × Adds initializers.old (placed head.index (item ∷ [])) initializers.new) }
    ensures refused { IfErr result (λ e. e.cause ≢ OutOfMemory
        → element_behind head.flags canonical.entry reader.old.left ≡ None) }
{
    let kind = read_element_target(reader, canonical, head, initializers)?;
    let items = read_element_items(reader, canonical, head, initializers)?;
    Ok(Element {
        kind,
        items,
        offset: head.offset,
    })
}

impl Entry for Element {
    ghost reading = { λ types bytes. element types bytes };

    ghost unplaced = { λ e. record e { offset = 0 } };

    #[tactic(auto, unfolding(crate::specs::Segments::element))]
    fn read<'a>(
        reader: &mut BinaryReader<'a>,
        canonical: CanonicalTypes<'_>,
        index: u32,
        initializers: &mut Initializers<'a>,
    ) -> Result<Element, ReadError> {
        let offset = reader.offset();
        let flags = reader.read_var_u32()?;
        if flags > 7 {
            return Err(ReadError::malformed(Fault::InvalidSegmentFlags, offset));
        }
        let head = SegmentHead {
            flags,
            index,
            offset,
        };
        let segment = read_element_behind(reader, canonical, head, initializers)?;
        Ok(segment)
    }
}
