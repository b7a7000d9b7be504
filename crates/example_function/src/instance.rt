//! The lookup: what an interpreter has in memory, asked for the types of its variables.

ghost use Rattle.std.specs.Prelude.{◌≡◌};
ghost use Rattle.example_function.specs.Instance.{instance_context, lawful_instance, value_type, variable_type};

use wasmparser_validate::resources::WasmModuleResources;
use wasmparser_validate::types::{
    CoreTypeId, Error, FuncType, GlobalType, HeapType, MemoryType, RefType, SubType, TableType,
    ValType, WasmFeatures,
};

/// What a variable holds.
#[derive(Clone, Copy)]
pub enum Value {
    /// An integer of 32 bits.
    I32(u32),
    /// An integer of 64 bits.
    I64(u64),
}

/// A variable.
#[derive(Clone, Copy)]
pub struct Variable {
    /// What it holds.
    pub value: Value,
    /// Whether it can be written.
    pub mutable: bool,
}

/// An instance of a module: a lookup of what the module declares, and the variables as they are.
#[derive(Drop)]
pub struct Instance<R> {
    /// Types, functions, tables, memories, tags and segments.
    pub declared: R,
    /// The globals.
    pub variables: Vec<Variable>,
}

impl Value {
    /// Its type.
    fn ty(self) -> ValType
        ensures { result ≡ value_type self }
    {
        match self {
            Value::I32(_) => ValType::I32,
            Value::I64(_) => ValType::I64,
        }
    }
}

impl Variable {
    /// A variable that can be written, with its first value.
    pub fn new(value: Value) -> Variable {
        Variable {
            value,
            mutable: true,
        }
    }

    /// Its type.
    fn ty(&self) -> GlobalType
        ensures { result ≡ variable_type self.now }
    {
        GlobalType {
            content_type: self.value.ty(),
            mutable: self.mutable,
            shared: false,
        }
    }
}

impl<R: WasmModuleResources> WasmModuleResources for Instance<R> {
    ghost context = { λ x. instance_context (R.context x.declared) x.variables.items };

    ghost lawful = { λ x. lawful_instance (R.context x.declared) x.variables.items (R.lawful x.declared) };

    fn global_at(&self, global_index: u32) -> Option<GlobalType> {
        let variable = self.variables.get(global_index as usize)?;
        Some(variable.ty())
    }

    fn table_at(&self, table_index: u32) -> Option<TableType> {
        self.declared.table_at(table_index)
    }

    fn memory_at(&self, memory_index: u32) -> Option<MemoryType> {
        self.declared.memory_at(memory_index)
    }

    fn tag_at(&self, tag_index: u32) -> Option<&FuncType> {
        self.declared.tag_at(tag_index)
    }

    fn sub_type_at(&self, type_index: u32) -> Option<&SubType> {
        self.declared.sub_type_at(type_index)
    }

    fn sub_type_at_id(&self, id: CoreTypeId) -> &SubType {
        self.declared.sub_type_at_id(id)
    }

    fn type_id_of_function(&self, function_index: u32) -> Option<CoreTypeId> {
        self.declared.type_id_of_function(function_index)
    }

    fn type_index_of_function(&self, function_index: u32) -> Option<u32> {
        self.declared.type_index_of_function(function_index)
    }

    fn element_type_at(&self, element_index: u32) -> Option<RefType> {
        self.declared.element_type_at(element_index)
    }

    fn data_count(&self) -> Option<u32> {
        self.declared.data_count()
    }

    fn is_function_referenced(&self, function_index: u32) -> bool {
        self.declared.is_function_referenced(function_index)
    }

    fn has_function_exact_type(&self, function_index: u32) -> bool {
        self.declared.has_function_exact_type(function_index)
    }

    fn is_subtype(&self, a: ValType, b: ValType) -> bool {
        self.declared.is_subtype(a, b)
    }

    fn is_shared(&self, ty: RefType) -> bool {
        self.declared.is_shared(ty)
    }

    fn top_type(&self, ty: &HeapType) -> HeapType {
        self.declared.top_type(ty)
    }

    fn canonical_heap_type(&self, ty: HeapType) -> Option<HeapType> {
        self.declared.canonical_heap_type(ty)
    }

    fn canonical_ref_type(&self, ty: RefType) -> Option<RefType> {
        self.declared.canonical_ref_type(ty)
    }

    fn canonical_value_type(&self, ty: ValType, features: &WasmFeatures) -> Option<ValType> {
        self.declared.canonical_value_type(ty, features)
    }

    fn check_heap_type(&self, ty: &mut HeapType, offset: u64) -> Result<(), Error> {
        self.declared.check_heap_type(ty, offset)
    }

    fn check_ref_type(&self, ty: &mut RefType, offset: u64) -> Result<(), Error> {
        self.declared.check_ref_type(ty, offset)
    }

    fn check_value_type(
        &self,
        ty: &mut ValType,
        features: &WasmFeatures,
        offset: u64,
    ) -> Result<(), Error> {
        self.declared.check_value_type(ty, features, offset)
    }
}
