//! A lookup in which two indices name each type.

ghost use Rattle.std.specs.Prelude.{◌≡◌};
ghost use Rattle.script_runs.specs.Paired.{halved_index, halved_heap, halved_ref, halved_type, lawful_paired, paired_context};

use validate_resources::uses::laws;
use validate_resources::{ModuleLists, WasmModuleResources};
use validate_types::{
    CoreTypeId, Error, FuncType, GlobalType, HeapType, MemoryType, RefType, SubType, TableType,
    UnpackedIndex, ValType, WasmFeatures,
};

/// A lookup over lists in which two indices name each type: 2i and 2i + 1 both name type i of the lists, with
/// one id. A function's type is told by the second of its two. All else is that of the lists.
#[derive(Drop)]
pub struct PairedLists(pub ModuleLists);

/// The index in the lists.
fn halved_index(index: UnpackedIndex) -> UnpackedIndex
    ensures { result ≡ halved_index index }
{
    match index {
        UnpackedIndex::Module(index) => UnpackedIndex::Module(index / 2),
        UnpackedIndex::Id(id) => UnpackedIndex::Id(id),
    }
}

/// The heap type with its index in the lists.
fn halved_heap(ty: HeapType) -> HeapType
    ensures { result ≡ halved_heap ty }
{
    match ty {
        HeapType::Abstract { shared, ty } => HeapType::Abstract { shared, ty },
        HeapType::Concrete(index) => HeapType::Concrete(halved_index(index)),
        HeapType::Exact(index) => HeapType::Exact(halved_index(index)),
    }
}

/// The reference type with its index in the lists.
fn halved_ref(ty: RefType) -> RefType
    ensures { result ≡ halved_ref ty }
{
    RefType {
        nullable: ty.nullable,
        heap_type: halved_heap(ty.heap_type),
    }
}

/// The value type with its index in the lists.
fn halved_type(ty: ValType) -> ValType
    ensures { result ≡ halved_type ty }
{
    match ty {
        ValType::Ref(ty) => ValType::Ref(halved_ref(ty)),
        other => other,
    }
}

impl WasmModuleResources for PairedLists {
    ghost use Rattle.validate_resources.specs.contracts.lists.ModuleListsWasmModuleResources.TheImpl.Laws.{lawful-law};

    ghost context = { λ x. paired_context (⟦<ModuleLists as WasmModuleResources>⟧.context x.0) };

    ghost lawful = { λ x. lawful_paired (⟦<ModuleLists as WasmModuleResources>⟧.context x.0)
        (lawful-law x.0) };

    fn sub_type_at(&self, type_index: u32) -> Option<&SubType> {
        self.0.sub_type_at(type_index / 2)
    }

    fn type_index_of_function(&self, function_index: u32) -> Option<u32> {
        laws(&self.0);
        match self.0.type_index_of_function(function_index) {
            Some(index) => Some(2 * index + 1),
            None => None,
        }
    }

    fn check_heap_type(&self, ty: &mut HeapType, offset: u64) -> Result<(), Error> {
        *ty = halved_heap(*ty);
        self.0.check_heap_type(ty, offset)
    }

    fn check_ref_type(&self, ty: &mut RefType, offset: u64) -> Result<(), Error> {
        *ty = halved_ref(*ty);
        self.0.check_ref_type(ty, offset)
    }

    fn check_value_type(
        &self,
        ty: &mut ValType,
        features: &WasmFeatures,
        offset: u64,
    ) -> Result<(), Error> {
        *ty = halved_type(*ty);
        self.0.check_value_type(ty, features, offset)
    }

    fn table_at(&self, table_index: u32) -> Option<TableType> {
        self.0.table_at(table_index)
    }

    fn memory_at(&self, memory_index: u32) -> Option<MemoryType> {
        self.0.memory_at(memory_index)
    }

    fn global_at(&self, global_index: u32) -> Option<GlobalType> {
        self.0.global_at(global_index)
    }

    fn tag_at(&self, tag_index: u32) -> Option<&FuncType> {
        self.0.tag_at(tag_index)
    }

    fn sub_type_at_id(&self, id: CoreTypeId) -> &SubType {
        self.0.sub_type_at_id(id)
    }

    fn type_id_of_function(&self, function_index: u32) -> Option<CoreTypeId> {
        self.0.type_id_of_function(function_index)
    }

    fn element_type_at(&self, element_index: u32) -> Option<RefType> {
        self.0.element_type_at(element_index)
    }

    fn data_count(&self) -> Option<u32> {
        self.0.data_count()
    }

    fn is_function_referenced(&self, function_index: u32) -> bool {
        self.0.is_function_referenced(function_index)
    }

    fn has_function_exact_type(&self, function_index: u32) -> bool {
        self.0.has_function_exact_type(function_index)
    }

    fn is_subtype(&self, a: ValType, b: ValType) -> bool {
        self.0.is_subtype(a, b)
    }

    fn is_shared(&self, ty: RefType) -> bool {
        self.0.is_shared(ty)
    }

    fn top_type(&self, ty: &HeapType) -> HeapType {
        self.0.top_type(ty)
    }
}
