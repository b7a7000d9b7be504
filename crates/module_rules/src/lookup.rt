//! The lists that a lookup over the declarations of a module is made of.

ghost use Rattle.std.specs.Prelude.{◌≡◌, ◌<◌, ◌||◌, ◌==◌, ℕ, Bool, List, [], ◌∷◌, false, length, map, option_map, slice_index_or, IfOk};
ghost use Rattle.std.specs.Iterator.{Drains, IsFinite};
ghost use Rattle.std.specs.List.{enumerate_from, flat_map, zip};
ghost use Rattle.validate_resources.specs.Named.{declared_with};
ghost use Rattle.module_rules.specs.Declarations.{declarations_of};
ghost use Rattle.module_rules.specs.Exported.{Exported};
ghost use Rattle.module_rules.specs.Lookup.{Marks, function_decl, function_decls, lookup_lists};
ghost use Rattle.module_rules.specs.References.{exported_functions, listed_functions, named_functions, is_referenced};
ghost use Rattle.module_rules.specs.Segments.{item_type};

use crate::elements::item_type;
use crate::items::{
    DeclaredFunction, DeclaredGlobal, DeclaredMemory, DeclaredTable, DeclaredTag, Export,
    ExternalKind,
};
use crate::module::DeclaredModule;
use crate::segments::{DataCount, Element, ElementItems};
use std::alloc::Global;
use validate_resources::FuncDecl;
use validate_resources::valid::ModuleItems;
use validate_types::{GlobalType, MemoryType, OutOfMemory, RefType, TableType};

/// Marks the function at this index, if there is one.
fn mark(marks: &mut [bool], index: u32)
    ensures { Marks marks.old marks.new (index ∷ []) }
{
    if (index as usize) < marks.len() {
        marks[index as usize] = true;
    }
}

/// Marks the functions at these indices.
fn mark_each(marks: &mut [bool], indices: &[u32])
    ensures { Marks marks.old marks.new indices.now }
{
    for index in indices {
        mark(marks, *index);
    }
}

/// Marks what is exported, if it is a function.
fn mark_export(marks: &mut [bool], kind: ExternalKind, index: u32)
    ensures { Marks marks.old marks.new (exported_functions kind index) }
{
    match kind {
        ExternalKind::Func => mark(marks, index),
        _ => {}
    }
}

/// Marks the functions that are exported.
fn mark_exported(marks: &mut [bool], exports: &[Export])
    ensures { Marks marks.old marks.new
        (flat_map (λ (e : Exported). exported_functions e.kind e.index) exports.now) }
{
    for export in exports {
        mark_export(marks, export.kind, export.index);
    }
}

/// Marks the functions that an element segment lists.
fn mark_items(marks: &mut [bool], items: &ElementItems)
    ensures { Marks marks.old marks.new (listed_functions items.now) }
{
    match items {
        ElementItems::Functions(listed) => mark_each(marks, &listed.indices),
        ElementItems::Expressions { .. } => {}
    }
}

/// Marks the functions that element segments list.
fn mark_listed(marks: &mut [bool], elements: &[Element])
    ensures { Marks marks.old marks.new
        (flat_map (λ (e : Element). listed_functions e.items) elements.now) }
{
    for element in elements {
        mark_items(marks, &element.items);
    }
}

/// Marks the functions that a module names outside of its functions.
fn mark_named(marks: &mut [bool], declared: &DeclaredModule)
    ensures { Marks marks.old marks.new (named_functions (declarations_of declared.now)) }
{
    mark_exported(marks, &declared.exports);
    mark_listed(marks, &declared.elements);
    mark_each(marks, &declared.expression_functions);
}

/// Of each function whether `ref.func` may name it.
fn referenced_functions(alloc: Global, declared: &DeclaredModule) -> Result<Vec<bool>, OutOfMemory>
    ensures count { IfOk result (λ v. length v.items ≡ length (declarations_of declared.now).functions) }
    ensures marks { IfOk result (λ v. (k : ℕ) → k < length (declarations_of declared.now).functions
        → slice_index_or v.items k false ≡ is_referenced (declarations_of declared.now) k) }
{
    let mut marks = vec![in alloc; false; declared.functions.len()]?;
    mark_named(&mut marks, declared);
    Ok(marks)
}

/// What an iterator yields, in a list that takes its room once. (Where `collect` is refused its room, it asks for less.)
pub(crate) fn listed<T: Drop, I: Iterator<Item = T>>(
    alloc: Global,
    items: I,
) -> Result<Vec<T>, OutOfMemory>
    requires can { I.can_next items }
    requires finite { IsFinite (I.remaining items) }
    ensures { IfOk result (λ v. (xs : List T) × Drains I.next_gives items xs × (v.items ≡ xs)) }
{
    let mut list = Vec::with_capacity(alloc, items.size_hint().0)?;
    list.extend(items)?;
    Ok(list)
}

/// The functions, each beside whether `ref.func` may name it.
fn marked_functions(
    alloc: Global,
    functions: &[DeclaredFunction],
    marks: &[bool],
) -> Result<Vec<FuncDecl>, OutOfMemory>
    ensures { IfOk result (λ v. v.items ≡ map (λ (e : DeclaredFunction × Bool). function_decl e.0 e.1)
        (zip functions.now marks.now)) }
{
    let marked = functions.iter().zip(marks);
    let decls = marked.map(|(function, referenced)| FuncDecl {
        type_index: function.type_index,
        referenced: *referenced,
        exact: function.exact,
    });
    listed(alloc, decls)
}

/// The functions as a lookup is handed them.
fn function_decls(alloc: Global, declared: &DeclaredModule) -> Result<Vec<FuncDecl>, OutOfMemory>
    ensures { IfOk result (λ v. v.items ≡ function_decls (is_referenced (declarations_of declared.now))
        (enumerate_from 0 (declarations_of declared.now).functions)) }
{
    let marks = referenced_functions(alloc, declared)?;
    let decls = marked_functions(alloc, &declared.functions, &marks)?;
    Ok(decls)
}

/// The types of the tables.
fn table_types(alloc: Global, tables: &[DeclaredTable]) -> Result<Vec<TableType>, OutOfMemory>
    ensures { IfOk result (λ v. v.items ≡ map (λ (t : DeclaredTable). t.ty) tables.now) }
{
    listed(alloc, tables.iter().map(|table| table.ty))
}

/// The types of the memories.
fn memory_types(alloc: Global, memories: &[DeclaredMemory]) -> Result<Vec<MemoryType>, OutOfMemory>
    ensures { IfOk result (λ v. v.items ≡ map (λ (m : DeclaredMemory). m.ty) memories.now) }
{
    listed(alloc, memories.iter().map(|memory| memory.ty))
}

/// The types of the globals.
fn global_types(alloc: Global, globals: &[DeclaredGlobal]) -> Result<Vec<GlobalType>, OutOfMemory>
    ensures { IfOk result (λ v. v.items ≡ map (λ (g : DeclaredGlobal). g.ty) globals.now) }
{
    listed(alloc, globals.iter().map(|global| global.ty))
}

/// The indices of the types of the tags.
fn tag_types(alloc: Global, tags: &[DeclaredTag]) -> Result<Vec<u32>, OutOfMemory>
    ensures { IfOk result (λ v. v.items ≡ map (λ (t : DeclaredTag). t.func_type_idx) tags.now) }
{
    listed(alloc, tags.iter().map(|tag| tag.func_type_idx))
}

/// The types of the items of the element segments.
fn element_types(alloc: Global, elements: &[Element]) -> Result<Vec<RefType>, OutOfMemory>
    ensures { IfOk result (λ v. v.items ≡ map (λ (e : Element). item_type e.items) elements.now) }
{
    listed(
        alloc,
        elements.iter().map(|element| item_type(&element.items)),
    )
}

/// How many data segments there are, where the module says so.
fn said_count(count: Option<DataCount>) -> Option<u32>
    ensures { result ≡ option_map (λ (c : DataCount). c.count) count }
{
    let said = count?;
    Some(said.count)
}

/// The types of what a module stores values in.
#[derive(Drop)]
struct StoredTypes {
    tables: Vec<TableType>,
    memories: Vec<MemoryType>,
    globals: Vec<GlobalType>,
}

/// The types of the tables, memories and globals.
fn stored_types(alloc: Global, declared: &DeclaredModule) -> Result<StoredTypes, OutOfMemory>
    ensures tables { IfOk result (λ s. s.tables.items ≡ (lookup_lists (declarations_of declared.now)).tables) }
    ensures memories { IfOk result (λ s. s.memories.items
        ≡ (lookup_lists (declarations_of declared.now)).memories) }
    ensures globals { IfOk result (λ s. s.globals.items
        ≡ (lookup_lists (declarations_of declared.now)).globals) }
{
    let tables = table_types(alloc, &declared.tables)?;
    let memories = memory_types(alloc, &declared.memories)?;
    let globals = global_types(alloc, &declared.globals)?;
    Ok(StoredTypes {
        tables,
        memories,
        globals,
    })
}

/// What a lookup over lists is handed of a module besides its types: the types of its items. It takes memory for the
/// lists, and refuses where there is none.
pub fn lookup_items(alloc: Global, declared: &DeclaredModule) -> Result<ModuleItems, OutOfMemory>
    ensures { IfOk result (λ l. declared_with (declarations_of declared.now).types l
        ≡ lookup_lists (declarations_of declared.now)) }
{
    let functions = function_decls(alloc, declared)?;
    let tags = tag_types(alloc, &declared.tags)?;
    let elements = element_types(alloc, &declared.elements)?;
    let stored = stored_types(alloc, declared)?;
    Ok(ModuleItems {
        data_count: said_count(declared.data_count),
        functions,
        tables: stored.tables,
        memories: stored.memories,
        globals: stored.globals,
        tags,
        elements,
    })
}
