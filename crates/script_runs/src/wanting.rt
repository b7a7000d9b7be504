//! A lookup of which one check finds no memory each other time.

ghost use Rattle.std.specs.Prelude.{◌≡◌, true, IfErr};

use std::cell::Cell;
use validate_resources::{ModuleLists, WasmModuleResources};
use validate_types::{
    CoreTypeId, Error, FuncType, GlobalType, HeapType, MemoryType, RefType, SubType, TableType,
    ValType, WasmFeatures,
};

/// A check of a lookup.
#[derive(Clone, Copy, PartialEq)]
pub enum Check {
    /// `check_heap_type`
    HeapType,
    /// `check_ref_type`
    RefType,
    /// `check_value_type`
    ValueType,
}

/// A lookup over lists of which one check finds no memory the first time that it is asked, and then each other time. It
/// knows no canonical form without a check. All else is that of the lists.
#[derive(Drop)]
pub struct WantingLists {
    lists: ModuleLists,
    check: Check,
    /// Whether the check finds memory when it is asked next.
    finds_memory: Cell<bool>,
}

impl WantingLists {
    /// The lookup over these lists of which this check finds no memory.
    pub fn new(lists: ModuleLists, check: Check) -> WantingLists {
        WantingLists {
            lists,
            check,
            finds_memory: Cell::new(false),
        }
    }

    /// What stands for the memory of this check.
    fn find_memory(&self, check: Check, offset: u64) -> Result<(), Error>
        ensures memory { IfErr result (λ e. e.wants_memory ≡ true) }
        ensures offset { IfErr result (λ e. e.offset ≡ offset) }
    {
        if self.check != check {
            return Ok(());
        }
        let finds_memory = self.finds_memory.get();
        self.finds_memory.set(!finds_memory);
        if finds_memory {
            Ok(())
        } else {
            Err(Error::out_of_memory(offset))
        }
    }
}

impl WasmModuleResources for WantingLists {
    ghost use Rattle.validate_resources.specs.contracts.lists.ModuleListsWasmModuleResources.TheImpl.Laws.{lawful-law};

    ghost context = { λ x. ⟦<ModuleLists as WasmModuleResources>⟧.context x.lists };

    ghost lawful = { λ x. lawful-law x.lists };

    fn check_heap_type(&self, ty: &mut HeapType, offset: u64) -> Result<(), Error> {
        self.find_memory(Check::HeapType, offset)?;
        self.lists.check_heap_type(ty, offset)
    }

    fn check_ref_type(&self, ty: &mut RefType, offset: u64) -> Result<(), Error> {
        self.find_memory(Check::RefType, offset)?;
        self.lists.check_ref_type(ty, offset)
    }

    fn check_value_type(
        &self,
        ty: &mut ValType,
        features: &WasmFeatures,
        offset: u64,
    ) -> Result<(), Error> {
        self.find_memory(Check::ValueType, offset)?;
        self.lists.check_value_type(ty, features, offset)
    }

    fn table_at(&self, table_index: u32) -> Option<TableType> {
        self.lists.table_at(table_index)
    }

    fn memory_at(&self, memory_index: u32) -> Option<MemoryType> {
        self.lists.memory_at(memory_index)
    }

    fn global_at(&self, global_index: u32) -> Option<GlobalType> {
        self.lists.global_at(global_index)
    }

    fn tag_at(&self, tag_index: u32) -> Option<&FuncType> {
        self.lists.tag_at(tag_index)
    }

    fn sub_type_at(&self, type_index: u32) -> Option<&SubType> {
        self.lists.sub_type_at(type_index)
    }

    fn sub_type_at_id(&self, id: CoreTypeId) -> &SubType {
        self.lists.sub_type_at_id(id)
    }

    fn type_id_of_function(&self, function_index: u32) -> Option<CoreTypeId> {
        self.lists.type_id_of_function(function_index)
    }

    fn type_index_of_function(&self, function_index: u32) -> Option<u32> {
        self.lists.type_index_of_function(function_index)
    }

    fn element_type_at(&self, element_index: u32) -> Option<RefType> {
        self.lists.element_type_at(element_index)
    }

    fn data_count(&self) -> Option<u32> {
        self.lists.data_count()
    }

    fn is_function_referenced(&self, function_index: u32) -> bool {
        self.lists.is_function_referenced(function_index)
    }

    fn has_function_exact_type(&self, function_index: u32) -> bool {
        self.lists.has_function_exact_type(function_index)
    }

    fn is_subtype(&self, a: ValType, b: ValType) -> bool {
        self.lists.is_subtype(a, b)
    }

    fn is_shared(&self, ty: RefType) -> bool {
        self.lists.is_shared(ty)
    }

    fn top_type(&self, ty: &HeapType) -> HeapType {
        self.lists.top_type(ty)
    }
}
