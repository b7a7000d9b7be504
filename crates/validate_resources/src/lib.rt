//! What a module declares: the lookup that a validator is handed, its meaning and its laws, and a
//! lookup over lists.
#![tactic(auto)]

mod declarations;
pub mod kinds;
mod lists;
pub mod order;
pub mod uses;
pub mod valid;

ghost use Rattle.std.specs.Prelude.{◌≡◌, true, false, None, Some, IsSome, IfSome, OnOk, IfErr};
ghost use Rattle.std.specs.Option.{option_copied};
ghost use Rattle.validate_types.specs.declared.types.ValType.{ValType};
ghost use Rattle.validate_resources.specs.Context.{ModuleContext, IsLawful, Valid, is_valid_heap};

pub use crate::declarations::ModuleDeclarations;
pub use crate::lists::{FuncDecl, ModuleLists};
use validate_types::{
    CoreTypeId, Error, FuncType, GlobalType, HeapType, MemoryType, RefType, SubType, TableType,
    ValType, WasmFeatures,
};

/// A lookup: it knows the module around a body (wasmparser's `WasmModuleResources`).
///
/// `context` says what each look-up answers, and the clauses are in its words. `lawful` proves the laws of that
/// context, which docs/LAWS.md lists. Crates above know nothing else of a lookup.
pub trait WasmModuleResources {
    /// What the look-ups answer, the types that are valid and canonical, and the order on them.
    ghost context: { Self → ModuleContext };

    /// The type of the table at this index, or None past the end.
    fn table_at(&self, table_index: u32) -> Option<TableType>
        ensures { result ≡ (context self.now).table_at table_index };

    /// The type of the memory at this index, or None past the end.
    fn memory_at(&self, memory_index: u32) -> Option<MemoryType>
        ensures { result ≡ (context self.now).memory_at memory_index };

    /// The type of the global at this index, or None past the end.
    fn global_at(&self, global_index: u32) -> Option<GlobalType>
        ensures { result ≡ (context self.now).global_at global_index };

    /// The type of the tag at this index, or None past the end. An exception or a suspension carries its parameters; a
    /// suspension gets its results back.
    fn tag_at(&self, tag_index: u32) -> Option<&FuncType>
        ensures { option_copied result ≡ (context self.now).tag_at tag_index };

    /// The type declared at this index, or None past the end.
    fn sub_type_at(&self, type_index: u32) -> Option<&SubType>
        ensures { option_copied result ≡ (context self.now).type_at type_index };

    /// The type that this id names. Condition: the lookup knows the id.
    fn sub_type_at_id(&self, id: CoreTypeId) -> &SubType
        requires { IsSome ((context self.now).type_of_id id) }
        ensures { (context self.now).type_of_id id ≡ Some result.now };

    /// The id of the type of the function at this index, or None past the end.
    fn type_id_of_function(&self, function_index: u32) -> Option<CoreTypeId>
        ensures { result ≡ (context self.now).type_id_of function_index };

    /// The index of the type of the function at this index, or None past the end.
    fn type_index_of_function(&self, function_index: u32) -> Option<u32>
        ensures { result ≡ (context self.now).type_index_of function_index };

    /// The type of the element segment at this index, or None past the end.
    fn element_type_at(&self, element_index: u32) -> Option<RefType>
        ensures { result ≡ (context self.now).element_at element_index };

    /// How many data segments there are, or None where the module doesn't say.
    fn data_count(&self) -> Option<u32>
        ensures { result ≡ (context self.now).data_count };

    /// Whether `ref.func` may name the function at this index.
    fn is_function_referenced(&self, function_index: u32) -> bool
        ensures { result ≡ (context self.now).is_referenced function_index };

    /// Whether a reference to the function at this index is exact in its type, if the proposal
    /// `custom_descriptors` is on.
    fn has_function_exact_type(&self, function_index: u32) -> bool
        ensures { result ≡ (context self.now).has_exact_type function_index };

    /// Whether `a` is below `b` in the order of types. If one of them isn't valid and canonical, it may answer
    /// anything.
    fn is_subtype(&self, a: ValType, b: ValType) -> bool
        ensures { Valid (context self.now) a → Valid (context self.now) b
            → result ≡ (context self.now).below a b };

    /// Whether the reference is to something shared. If the type isn't valid and canonical, it may answer anything.
    fn is_shared(&self, ty: RefType) -> bool
        ensures { Valid (context self.now) (ValType.Ref ty) → result ≡ (context self.now).is_shared ty };

    /// The top type of the hierarchy that a heap type is in. If the type isn't valid and canonical, it may answer
    /// anything.
    fn top_type(&self, ty: &HeapType) -> HeapType
        ensures { is_valid_heap (context self.now) ty.now ≡ true → result
            ≡ (context self.now).top_type ty.now };

    /// The canonical form of a heap type of a module, where the lookup knows it without asking for memory. None
    /// promises nothing: the type is then checked, once.
    fn canonical_heap_type(&self, ty: HeapType) -> Option<HeapType>
        ensures { IfSome result (λ h. (context self.now).canonical_heap ty ≡ Some h) }
    {
        None
    }

    /// The same of a reference type.
    fn canonical_ref_type(&self, ty: RefType) -> Option<RefType>
        ensures { IfSome result (λ r. (context self.now).canonical_ref ty ≡ Some r) }
    {
        None
    }

    /// The same of a value type, whose gate is open.
    fn canonical_value_type(&self, ty: ValType, features: &WasmFeatures) -> Option<ValType>
        ensures { IfSome result (λ t. (context self.now).canonical_type features.now ty ≡ Some t) }
    {
        None
    }

    /// Checks a heap type of the module, and puts its canonical form in its place. It refuses an index that names
    /// no type, or answers that memory ran out, at this offset.
    fn check_heap_type(&self, ty: &mut HeapType, offset: u64) -> Result<(), Error>
        ensures canonical { OnOk result ((context self.now).canonical_heap ty.old ≡ Some ty.new) }
        ensures refused { IfErr result (λ e. e.wants_memory ≡ false → (context self.now).canonical_heap ty.old
            ≡ None) }
        ensures offset { IfErr result (λ e. e.offset ≡ offset) };

    /// Checks a reference type of the module, and puts its canonical form in its place. It refuses an index that
    /// names no type, or answers that memory ran out, at this offset.
    fn check_ref_type(&self, ty: &mut RefType, offset: u64) -> Result<(), Error>
        ensures canonical { OnOk result ((context self.now).canonical_ref ty.old ≡ Some ty.new) }
        ensures refused { IfErr result (λ e. e.wants_memory ≡ false → (context self.now).canonical_ref ty.old
            ≡ None) }
        ensures offset { IfErr result (λ e. e.offset ≡ offset) };

    /// Checks a value type of the module, and puts its canonical form in its place. It refuses a type whose
    /// proposal is off and an index that names no type, or answers that memory ran out, at this offset.
    fn check_value_type(
        &self,
        ty: &mut ValType,
        features: &WasmFeatures,
        offset: u64,
    ) -> Result<(), Error>
        ensures canonical { OnOk result ((context self.now).canonical_type features.now ty.old
            ≡ Some ty.new) }
        ensures refused { IfErr result (λ e. e.wants_memory ≡ false
            → (context self.now).canonical_type features.now ty.old ≡ None) }
        ensures offset { IfErr result (λ e. e.offset ≡ offset) };

    /// A proof that the lookup keeps its laws (docs/LAWS.md).
    ghost lawful: { (x : Self) → IsLawful (context x) };
}
