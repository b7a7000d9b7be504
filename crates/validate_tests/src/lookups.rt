//! A lookup over lists, by the calls of its trait: each look-up, each check, and the order over a long chain of types.

use crate::expectations::{ample, expect, expect_error, expect_same};
use crate::modules::lists_of;
use std::process::Abort;
use wasmparser_validate::resources::{ModuleDeclarations, ModuleLists, WasmModuleResources};
use wasmparser_validate::types::{
    AbstractHeapType, CoreTypeId, Flags, FuncType, GlobalType, HeapType, MemoryType, RefType,
    SubType, TableType, UnpackedIndex, ValType, WasmFeatures,
};

/// A module with one of each. Type 2 is described by type 3.
const MODULE: &str = "type func ->
type func i32 i64 -> f32
type desc=3 struct i8 mut:refnull:4
type describes=2 struct
type array i16
fn 1 exact
fn 0 ref
table refnull:1 64
memory shared
global refnull:2 mut
tag 1
elem refnull:1
data 3";

/// A nullable reference.
const fn reference(heap_type: HeapType) -> RefType {
    RefType {
        nullable: true,
        heap_type,
    }
}

/// A type, by its id.
fn by_id(index: u32) -> UnpackedIndex {
    UnpackedIndex::Id(CoreTypeId::from_index(index))
}

/// What is at the indices of tables, memories, globals, tags and segments.
fn expect_items<R: WasmModuleResources>(rt: &impl Abort, lists: &R) {
    let table = TableType {
        element_type: reference(HeapType::Concrete(by_id(1))),
        table64: true,
        shared: false,
    };
    expect_same(rt, lists.table_at(0), Some(table));
    expect_same(rt, lists.table_at(1), None);
    let memory = MemoryType {
        memory64: false,
        shared: true,
    };
    expect_same(rt, lists.memory_at(0), Some(memory));
    let global = GlobalType {
        content_type: ValType::Ref(reference(HeapType::Concrete(by_id(2)))),
        mutable: true,
        shared: false,
    };
    expect_same(rt, lists.global_at(0), Some(global));
    expect_same(rt, lists.tag_at(1).is_some(), false);
    expect_same(rt, lists.element_type_at(0), Some(table.element_type));
    expect_same(rt, lists.data_count(), Some(3));
}

/// The type of a function, by its id.
fn type_of_function<R: WasmModuleResources>(lists: &R, function: u32) -> Option<&SubType> {
    match lists.type_id_of_function(function) {
        Some(id) => Some(lists.sub_type_at_id(id)),
        None => None,
    }
}

/// Whether a type that is declared is final.
fn is_final(ty: Option<&SubType>) -> Option<bool> {
    match ty {
        Some(ty) => Some(ty.is_final),
        None => None,
    }
}

/// How many parameters a type has that is declared.
fn count_of_params(ty: Option<&FuncType>) -> usize {
    match ty {
        Some(ty) => ty.params().len(),
        None => 0,
    }
}

/// What is known of the two functions, and of their types.
fn expect_functions<R: WasmModuleResources>(rt: &impl Abort, lists: &R) {
    expect_same(rt, lists.type_index_of_function(0), Some(1));
    expect_same(rt, lists.type_index_of_function(2), None);
    expect_same(
        rt,
        lists.type_id_of_function(1),
        Some(CoreTypeId::from_index(0)),
    );
    expect(rt, !lists.is_function_referenced(0));
    expect(rt, lists.is_function_referenced(1));
    expect(rt, lists.has_function_exact_type(0));
    expect(rt, !lists.has_function_exact_type(1));
    let by_id = is_final(type_of_function(lists, 0));
    expect_same(rt, by_id, is_final(lists.sub_type_at(1)));
    expect(rt, lists.sub_type_at(5).is_none());
    expect_same(rt, count_of_params(lists.tag_at(0)), 2);
}

/// Each check writes the canonical form, which is told without memory too.
fn expect_canonical<R: WasmModuleResources>(rt: &impl Abort, lists: &R) {
    let declared = HeapType::Exact(UnpackedIndex::Module(2));
    let canonical = HeapType::Exact(by_id(2));
    let mut heap_type = declared;
    ample(rt, lists.check_heap_type(&mut heap_type, 5));
    expect_same(rt, heap_type, canonical);
    expect_same(rt, lists.canonical_heap_type(declared), Some(canonical));
    let mut ty = reference(declared);
    ample(rt, lists.check_ref_type(&mut ty, 5));
    expect_same(rt, ty, reference(canonical));
    expect_same(rt, lists.canonical_ref_type(reference(declared)), Some(ty));
    let mut value = ValType::Ref(reference(declared));
    let features = WasmFeatures::all();
    ample(rt, lists.check_value_type(&mut value, &features, 5));
    expect_same(rt, value, ValType::Ref(ty));
    let known = lists.canonical_value_type(ValType::Ref(reference(declared)), &features);
    expect_same(rt, known, Some(value));
}

/// A type that isn't declared is refused.
fn expect_unknown<R: WasmModuleResources>(rt: &impl Abort, lists: &R) {
    let mut heap_type = HeapType::Concrete(UnpackedIndex::Module(5));
    let answer = lists.check_heap_type(&mut heap_type, 6);
    expect_error(rt, answer, "unknown type 5: type index out of bounds", 6);
}

/// What is shared, and the tops of hierarchies.
fn expect_tops<R: WasmModuleResources>(rt: &impl Abort, lists: &R) {
    let any = HeapType::Abstract {
        shared: false,
        ty: AbstractHeapType::Any,
    };
    expect_same(rt, lists.top_type(&HeapType::Concrete(by_id(2))), any);
    let shared_eq = HeapType::Abstract {
        shared: true,
        ty: AbstractHeapType::Eq,
    };
    expect(rt, lists.is_shared(reference(shared_eq)));
    expect(
        rt,
        !lists.is_shared(reference(HeapType::Concrete(by_id(2)))),
    );
}

#[test]
fn each_call_of_a_lookup(rt: HostRuntime) {
    let lists = lists_of(&rt, MODULE);
    expect_items(&rt, &lists);
    expect_functions(&rt, &lists);
    expect_canonical(&rt, &lists);
    expect_unknown(&rt, &lists);
    expect_tops(&rt, &lists);
}

#[test]
fn a_module_of_nothing_has_no_type(rt: HostRuntime) {
    let nothing = ModuleDeclarations::new(rt.alloc());
    let lists = ample(&rt, ModuleLists::from_declarations(rt.alloc(), nothing));
    expect(&rt, lists.sub_type_at(0).is_none());
}

/// The type at this index of a chain of function types, each declared below the one before it.
fn link(rt: &impl AllocGlobal, index: u32) -> SubType {
    let func_type = FuncType::new(Vec::new(rt.alloc()), Vec::new(rt.alloc()));
    let mut ty = SubType::func(func_type, false);
    if index > 0 {
        ty.supertype_idx = UnpackedIndex::Module(index - 1).pack();
    }
    ty
}

/// The lookup over a chain of so many types.
fn chain_of(rt: &(impl Abort + AllocGlobal), count: u32) -> ModuleLists {
    let mut types = Vec::new(rt.alloc());
    for index in 0..count {
        ample(rt, types.push(link(rt, index)));
    }
    let lists = ModuleLists::new(
        rt.alloc(),
        types,
        Vec::new(rt.alloc()),
        Vec::new(rt.alloc()),
        Vec::new(rt.alloc()),
        Vec::new(rt.alloc()),
        Vec::new(rt.alloc()),
        Vec::new(rt.alloc()),
        None,
    );
    ample(rt, lists)
}

/// The last of a thousand types is below the first, and not above it.
#[test]
fn order_of_a_long_chain(rt: HostRuntime) {
    let lists = chain_of(&rt, 1_000);
    let first = ValType::Ref(reference(HeapType::Concrete(by_id(0))));
    let last = ValType::Ref(reference(HeapType::Concrete(by_id(999))));
    expect(&rt, lists.is_subtype(last, first));
    expect(&rt, !lists.is_subtype(first, last));
}
