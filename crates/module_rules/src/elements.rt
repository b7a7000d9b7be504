//! Whether the element and data segments of a module are valid (WebAssembly core specification, "Modules":
//! element segments, data segments).

ghost use Rattle.std.specs.Prelude.{◌≡◌, is_ok, length, nat_le, nat_lt, slice_get};
ghost use Rattle.std.specs.List.{list_all};
ghost use Rattle.validate_types.specs.Features.{has, bulk_memory};
ghost use Rattle.module_rules.specs.Judged.{Judges, JudgesAt};
ghost use Rattle.module_rules.specs.Within.{is_element_within, are_elements_within};
ghost use Rattle.module_rules.specs.declared.limits.TheConstants.{MAX_WASM_DATA_SEGMENTS};
ghost use Rattle.module_rules.specs.Segments.{item_type, item_count, are_valid_items, takes_elements, is_valid_element_kind, is_valid_element, are_valid_elements, is_valid_data_kind, is_data_count, are_valid_data};

use crate::faults::{Fault, LimitFault, Located, LocatedRule, RuleFault, locate, of_rules};
use crate::features::ModuleFeatures;
use crate::items::DeclaredTable;
use crate::limits::{MAX_WASM_DATA_SEGMENTS, MAX_WASM_ELEMENT_SEGMENTS, MAX_WASM_TABLE_ENTRIES};
use crate::segments::{Data, DataCount, DataKind, Element, ElementItems, ElementKind};
use crate::tables::check_element_type;
use validate_resources::order::is_ref_below;
use validate_types::{RefType, SubType};

/// The type of the items.
pub fn item_type(items: &ElementItems) -> RefType
    ensures { result ≡ item_type items.now }
{
    match items {
        ElementItems::Functions(_) => RefType::FUNCREF.as_non_null(),
        ElementItems::Expressions { ty, .. } => *ty,
    }
}

/// How many items there are.
fn item_count(items: &ElementItems) -> usize
    ensures { result ≡ item_count items.now }
{
    match items {
        ElementItems::Functions(functions) => functions.indices.len(),
        ElementItems::Expressions { count, .. } => *count as usize,
    }
}

/// Each index is that of one of so many functions.
fn check_functions_named(indices: &[u32], functions: usize) -> Result<(), RuleFault>
    ensures { is_ok result ≡ list_all (λ i. nat_lt i functions) indices.now }
{
    for function in indices {
        if *function as usize >= functions {
            return Err(RuleFault::UnknownFunction(*function));
        }
    }
    Ok(())
}

/// The functions are there, of which a module has so many, or the type of the expressions is valid.
fn check_items(
    features: ModuleFeatures,
    types: &[SubType],
    functions: usize,
    items: &ElementItems,
) -> Result<(), RuleFault>
    ensures { is_ok result ≡ are_valid_items features types.now functions items.now }
{
    match items {
        ElementItems::Functions(listed) => check_functions_named(&listed.indices, functions),
        ElementItems::Expressions { ty, .. } => check_element_type(features, types, *ty),
    }
}

/// There is a table at this index, and it may have elements of this type.
fn check_table_of(
    types: &[SubType],
    tables: &[DeclaredTable],
    ty: RefType,
    index: u32,
) -> Result<(), RuleFault>
    ensures { is_ok result ≡ takes_elements types.now ty (slice_get tables.now index) }
{
    let Some(table) = tables.get(index as usize) else {
        return Err(RuleFault::UnknownTable(index));
    };
    if !is_ref_below(types, ty, table.ty.element_type) {
        return Err(RuleFault::ElementMismatch(ty, table.ty.element_type));
    }
    Ok(())
}

/// What becomes of a segment is valid, whose items are of this type.
fn check_element_kind(
    features: ModuleFeatures,
    types: &[SubType],
    tables: &[DeclaredTable],
    ty: RefType,
    kind: ElementKind,
) -> Result<(), RuleFault>
    ensures { is_ok result ≡ is_valid_element_kind features types.now tables.now ty kind }
{
    match kind {
        ElementKind::Active { table_index } => check_table_of(types, tables, ty, table_index),
        ElementKind::Passive | ElementKind::Declared => check_bulk_memory(features),
    }
}

/// The proposal of segments that operators name is on.
fn check_bulk_memory(features: ModuleFeatures) -> Result<(), RuleFault>
    ensures { is_ok result ≡ has features.operators bulk_memory }
{
    if features.operators.bulk_memory() {
        return Ok(());
    }
    Err(RuleFault::BulkMemoryOff)
}

/// An element segment is valid, and has no more items than may be.
fn check_element(
    features: ModuleFeatures,
    types: &[SubType],
    functions: usize,
    tables: &[DeclaredTable],
    element: &Element,
) -> Result<(), Fault>
    ensures { Judges (is_valid_element features types.now functions tables.now element.now)
        (is_element_within element.now) result }
{
    check_items(features, types, functions, &element.items)?;
    let ty = item_type(&element.items);
    check_element_kind(features, types, tables, ty, element.kind)?;
    if item_count(&element.items) as u64 > MAX_WASM_TABLE_ENTRIES {
        return Err(Fault::Limit(LimitFault::TooManyElements));
    }
    Ok(())
}

/// Each element segment is valid, and has no more items than may be.
fn check_each_element(
    features: ModuleFeatures,
    types: &[SubType],
    functions: usize,
    tables: &[DeclaredTable],
    elements: &[Element],
) -> Result<(), Located>
    ensures { JudgesAt (list_all (is_valid_element features types.now functions tables.now) elements.now)
        (list_all is_element_within elements.now) result }
{
    for element in elements {
        if let Err(fault) = check_element(features, types, functions, tables, element) {
            return Err(fault.at(element.offset));
        }
    }
    Ok(())
}

/// The element segments are valid, no more than may be, and none has more items than may be.
pub fn check_elements(
    features: ModuleFeatures,
    types: &[SubType],
    functions: usize,
    tables: &[DeclaredTable],
    elements: &[Element],
) -> Result<(), Located>
    ensures { JudgesAt (are_valid_elements features types.now functions tables.now elements.now)
        (are_elements_within elements.now) result }
{
    if let Some(element) = elements.get(MAX_WASM_ELEMENT_SEGMENTS) {
        let fault = LimitFault::too_many("element segments", MAX_WASM_ELEMENT_SEGMENTS);
        return Err(fault.at(element.offset));
    }
    check_each_element(features, types, functions, tables, elements)
}

/// What becomes of a data segment is valid, in a module of so many memories.
fn check_data_kind(
    features: ModuleFeatures,
    memories: usize,
    kind: DataKind,
) -> Result<(), RuleFault>
    ensures { is_ok result ≡ is_valid_data_kind features memories kind }
{
    match kind {
        DataKind::Passive => check_bulk_memory(features),
        DataKind::Active { memory_index } => check_memory_index(memory_index, memories),
    }
}

/// The index is that of one of so many memories.
fn check_memory_index(index: u32, memories: usize) -> Result<(), RuleFault>
    ensures { is_ok result ≡ nat_lt index memories }
{
    if (index as usize) < memories {
        return Ok(());
    }
    Err(RuleFault::UnknownMemory(index))
}

/// The module doesn't say how many data segments there are, or there are so many.
fn check_data_count(segments: usize, count: Option<DataCount>) -> Result<(), LocatedRule>
    ensures { is_ok result ≡ is_data_count segments count }
{
    match count {
        Some(said) if said.count as usize != segments => Err(RuleFault::DataCount.at(said.offset)),
        _ => Ok(()),
    }
}

/// What becomes of each data segment is valid, in a module of so many memories.
fn check_each_data_kind(
    features: ModuleFeatures,
    memories: usize,
    segments: &[Data],
) -> Result<(), LocatedRule>
    ensures { is_ok result ≡ list_all (λ (s : Data). is_valid_data_kind features memories s.kind)
        segments.now }
{
    for segment in segments {
        let checked = check_data_kind(features, memories, segment.kind);
        locate(checked, segment.offset)?;
    }
    Ok(())
}

/// The data segments are valid, in a module of so many memories, and no more than may be.
pub fn check_data(
    features: ModuleFeatures,
    memories: usize,
    count: Option<DataCount>,
    segments: &[Data],
) -> Result<(), Located>
    ensures { JudgesAt (are_valid_data features memories count segments.now)
        (nat_le (length segments.now) MAX_WASM_DATA_SEGMENTS) result }
{
    if let Some(segment) = segments.get(MAX_WASM_DATA_SEGMENTS) {
        let fault = LimitFault::too_many("data segments", MAX_WASM_DATA_SEGMENTS);
        return Err(fault.at(segment.offset));
    }
    of_rules(check_data_count(segments.len(), count))?;
    of_rules(check_each_data_kind(features, memories, segments))
}
