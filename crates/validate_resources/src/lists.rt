//! A lookup over lists.

pub(crate) mod canonical;

ghost use Rattle.std.specs.Prelude.{◌≡◌, ◌<◌, ◌≤◌, ◌&&◌, ℕ, length, codes, slice_get, Some, None, Ok, true, false, nat_lt, is_ok, IsTrue, IfOk, OnOk, OnErr, IfErr};
ghost use Rattle.std.specs.List.{list_all};
ghost use Rattle.validate_resources.specs.Indices.{is_id, unknown_text};
ghost use Rattle.validate_resources.specs.Lists.{declared_by, canonical_under, may_be_looked_up, is_func_type, continues_function, has_fitting_descriptor, module_of};

use crate::WasmModuleResources;
use crate::kinds::{continues_function, func_type_of, is_func_type};
use crate::lists::canonical::{
    Forms, canonical_heap, canonical_lists, canonical_ref, canonical_type,
};
use crate::order::{heap_top, is_heap_shared, is_type_below, supertypes_fit};
use std::alloc::Global;
use validate_types::{
    CompositeInnerType, CoreTypeId, Error, FuncType, GlobalType, HeapType, MemoryType, RefType,
    SubType, TableType, ValType, WasmFeatures,
};

/// The most types that a lookup over lists can hold.
pub const MAX_TYPES: usize = 1_000_000;

/// A function as a module declares it.
#[derive(Clone, Copy, Debug, PartialEq, Eq)]
pub struct FuncDecl {
    /// The index of its type.
    pub type_index: u32,
    /// Whether `ref.func` may name it.
    pub referenced: bool,
    /// Whether a reference to it is exact in its type, where exact references are on.
    pub exact: bool,
}

/// A lookup over lists: item `i` of a list is the one at index `i`, and type `i` has id `i`.
///
/// The types that it keeps are canonical, with ids for indices.
#[derive(Debug, Drop)]
pub struct ModuleLists {
    alloc: Global,
    types: Vec<SubType>,
    functions: Vec<FuncDecl>,
    tables: Vec<TableType>,
    memories: Vec<MemoryType>,
    globals: Vec<GlobalType>,
    tags: Vec<u32>,
    elements: Vec<RefType>,
    data_count: Option<u32>,
    ghost module: { may_be_looked_up is_id (declared_by types.items functions.items tables.items
        memories.items globals.items tags.items elements.items data_count) ≡ true },
}

impl ModuleLists {
    ghost use Rattle.validate_resources.specs.Kept.{declared_lists};

    /// Keeps the lists in their canonical form, with an id for each index, and the number of data
    /// segments where the module says it.
    ///
    /// It refuses at offset 0: `too many types` for more than [`MAX_TYPES`]; else `unknown type` where
    /// there is no type for an index; else `invalid supertype` where a supertype isn't an earlier
    /// type or is of another kind or sharedness; else `expected func type` where the type of a function,
    /// of a tag or of a continuation isn't one of functions; else `descriptor on non-struct type` where a
    /// type with a descriptor isn't one of structs. It takes memory for the canonical lists, and refuses
    /// where there is none.
    ///
    /// A supertype is taken at its word: only its kind and sharedness are compared, not whether the type fits it,
    /// nor whether it is final. The module's other rules aren't looked at here.
    pub fn new(
        alloc: Global,
        types: Vec<SubType>,
        functions: Vec<FuncDecl>,
        tables: Vec<TableType>,
        memories: Vec<MemoryType>,
        globals: Vec<GlobalType>,
        tags: Vec<u32>,
        elements: Vec<RefType>,
        data_count: Option<u32>,
    ) -> Result<ModuleLists, Error>
        ensures kept { IfOk result (λ m. module_of (declared_by types.items functions.items tables.items
            memories.items globals.items tags.items elements.items data_count) ≡ Some (declared_lists m)) }
        ensures refused { IfErr result (λ e. e.wants_memory ≡ false
            → module_of (declared_by types.items functions.items tables.items
            memories.items globals.items tags.items elements.items data_count) ≡ None) }
        ensures too_many { MAX_TYPES < length types.items
            → IfErr result (λ e. e ≡ record {
              offset = 0;
              text = codes "too many types";
              wants_memory = false;
            }) }
        ensures offset { IfErr result (λ e. e.offset ≡ 0) }
    {
        check_count(types.len())?;
        let forms = canonical_lists(alloc, &types, &tables, &globals, &elements)?;
        if !have_known_types(&functions, &tags, types.len()) {
            return Err(Error::new("unknown type", 0));
        }
        if !supertypes_fit(&types) {
            return Err(Error::new("invalid supertype", 0));
        }
        if !have_func_types(&types, &functions, &tags) {
            return Err(Error::new("expected func type", 0));
        }
        if !have_fitting_descriptors(&types) {
            return Err(Error::new("descriptor on non-struct type", 0));
        }
        Ok(ModuleLists::from_forms(alloc, forms, functions, memories, tags, data_count))
    }

    /// Keeps the canonical forms with the other lists. It takes no memory.
    pub(crate) fn from_forms(
        alloc: Global,
        forms: Forms,
        functions: Vec<FuncDecl>,
        memories: Vec<MemoryType>,
        tags: Vec<u32>,
        data_count: Option<u32>,
    ) -> ModuleLists
        requires { may_be_looked_up is_id (declared_by forms.types.items functions.items forms.tables.items
            memories.items forms.globals.items tags.items forms.elements.items data_count) ≡ true }
        ensures { declared_lists result ≡ declared_by forms.types.items functions.items forms.tables.items
            memories.items forms.globals.items tags.items forms.elements.items data_count }
    {
        let Forms {
            types,
            tables,
            globals,
            elements,
        } = forms;
        ModuleLists {
            alloc,
            types,
            functions,
            tables,
            memories,
            globals,
            tags,
            elements,
            data_count,
        }
    }
}

/// A module has no more types than may be.
fn check_count(count: usize) -> Result<(), Error>
    ensures within { OnOk result (count ≤ MAX_TYPES) }
    ensures too_many { IfErr result (λ e. MAX_TYPES < count) }
    ensures refused { IfErr result (λ e. e ≡ record {
      offset = 0;
      text = codes "too many types";
      wants_memory = false;
    }) }
{
    if count > MAX_TYPES {
        return Err(Error::new("too many types", 0));
    }
    Ok(())
}

/// Whether each function and each tag is of one of so many types.
fn have_known_types(functions: &[FuncDecl], tags: &[u32], count: usize) -> bool
    ensures { result ≡ (list_all (λ (f : _). nat_lt f.type_index count) functions.now
        && list_all (λ i. nat_lt i count) tags.now) }
{
    have_types(functions, count) && are_types(tags, count)
}

/// Whether each function is of one of so many types.
fn have_types(functions: &[FuncDecl], count: usize) -> bool
    ensures { result ≡ list_all (λ (f : _). nat_lt f.type_index count) functions.now }
{
    functions
        .iter()
        .all(|function| (function.type_index as usize) < count)
}

/// Whether each index is one of so many types.
fn are_types(indices: &[u32], count: usize) -> bool
    ensures { result ≡ list_all (λ i. nat_lt i count) indices.now }
{
    indices.iter().all(|index| (*index as usize) < count)
}

/// Whether the type of each function, of each tag and of each continuation is one of functions.
fn have_func_types(types: &[SubType], functions: &[FuncDecl], tags: &[u32]) -> bool
    ensures { result ≡ (list_all (λ (f : _). is_func_type (slice_get types.now f.type_index)) functions.now
        && list_all (λ i. is_func_type (slice_get types.now i)) tags.now
        && list_all (continues_function types.now) types.now) }
{
    are_functions(types, functions) && are_func_types(types, tags) && are_of_functions(types)
}

/// Whether each continuation is of a function.
fn are_of_functions(types: &[SubType]) -> bool
    ensures { result ≡ list_all (continues_function types.now) types.now }
{
    types.iter().all(|ty| continues_function(types, ty))
}

/// Whether the type of each function is one of functions.
fn are_functions(types: &[SubType], functions: &[FuncDecl]) -> bool
    ensures { result ≡ list_all (λ (f : _). is_func_type (slice_get types.now f.type_index)) functions.now }
{
    functions
        .iter()
        .all(|function| is_func_type(types, function.type_index))
}

/// Whether the type at each index is one of functions.
fn are_func_types(types: &[SubType], indices: &[u32]) -> bool
    ensures { result ≡ list_all (λ i. is_func_type (slice_get types.now i)) indices.now }
{
    indices.iter().all(|index| is_func_type(types, *index))
}

/// Whether a type has no descriptor, or is one of structs.
fn has_fitting_descriptor(ty: &SubType) -> bool
    ensures { result ≡ has_fitting_descriptor ty.now }
{
    ty.composite_type.descriptor_idx.is_none()
        || matches!(&ty.composite_type.inner, CompositeInnerType::Struct(_))
}

/// Whether each type with a descriptor is one of structs.
fn have_fitting_descriptors(types: &[SubType]) -> bool
    ensures { result ≡ list_all has_fitting_descriptor types.now }
{
    types.iter().all(|ty| has_fitting_descriptor(ty))
}

/// Writes a canonical form, or refuses where there is no type of the number handed in. The text of
/// that refusal takes memory.
fn write_form<T: Copy>(
    ty: &mut T,
    form: Result<T, u32>,
    alloc: Global,
    offset: u64,
) -> Result<(), Error>
    ensures written { OnOk result (form ≡ Ok ty.new) }
    ensures refused { IfErr result (λ e. e.wants_memory ≡ false → IfErr form (λ n. e.text ≡ unknown_text n)) }
    ensures unknown { OnErr result (is_ok form ≡ false) }
    ensures offset { IfErr result (λ e. e.offset ≡ offset) }
{
    match form {
        Ok(form) => {
            *ty = form;
            Ok(())
        }
        Err(number) => Err(Error::from_text(
            format!(in alloc; "unknown type {number}: type index out of bounds"),
            offset,
        )),
    }
}

/// The fast lane of [`open_form`]: whether it is a number type or the vector type, where the gates of all
/// those are open. Such a type is its own canonical form.
#[inline(always)]
fn is_open_number(ty: ValType, features: WasmFeatures) -> bool
    ensures { (count : ℕ) → IsTrue result → canonical_under count features ty ≡ Some ty }
{
    features.floats() && features.simd() && !matches!(ty, ValType::Ref(_))
}

/// The canonical form of a value type of a module of so many types, where its gate is open and there is a type for its
/// index.
#[inline(never)]
fn open_form(ty: ValType, features: WasmFeatures, count: usize) -> Option<ValType>
    ensures { result ≡ canonical_under count features ty }
{
    if features.check_value_type(ty).is_err() {
        return None;
    }
    canonical_type(ty, count).ok()
}

impl WasmModuleResources for ModuleLists {
    ghost use Rattle.validate_resources.specs.Kept.{declared_lists};
    ghost use Rattle.validate_resources.specs.Lists.{context_of};
    ghost use Rattle.validate_resources.specs.Lawful.{lawful_lists};

    ghost context = { λ m. context_of (declared_lists m) };

    ghost lawful = { λ m. lawful_lists (declared_lists m) m.module };

    fn table_at(&self, table_index: u32) -> Option<TableType> {
        self.tables.get(table_index as usize).copied()
    }

    fn memory_at(&self, memory_index: u32) -> Option<MemoryType> {
        self.memories.get(memory_index as usize).copied()
    }

    fn global_at(&self, global_index: u32) -> Option<GlobalType> {
        self.globals.get(global_index as usize).copied()
    }

    fn tag_at(&self, tag_index: u32) -> Option<&FuncType> {
        let index = *self.tags.get(tag_index as usize)?;
        func_type_of(self.types.get(index as usize)?)
    }

    fn sub_type_at(&self, type_index: u32) -> Option<&SubType> {
        self.types.get(type_index as usize)
    }

    fn sub_type_at_id(&self, id: CoreTypeId) -> &SubType {
        &self.types[id.index() as usize]
    }

    fn type_id_of_function(&self, function_index: u32) -> Option<CoreTypeId> {
        let function = self.functions.get(function_index as usize)?;
        Some(CoreTypeId::from_index(function.type_index))
    }

    fn type_index_of_function(&self, function_index: u32) -> Option<u32> {
        let function = self.functions.get(function_index as usize)?;
        Some(function.type_index)
    }

    fn element_type_at(&self, element_index: u32) -> Option<RefType> {
        self.elements.get(element_index as usize).copied()
    }

    fn data_count(&self) -> Option<u32> {
        self.data_count
    }

    fn is_function_referenced(&self, function_index: u32) -> bool {
        match self.functions.get(function_index as usize) {
            Some(function) => function.referenced,
            None => false,
        }
    }

    fn has_function_exact_type(&self, function_index: u32) -> bool {
        match self.functions.get(function_index as usize) {
            Some(function) => function.exact,
            None => false,
        }
    }

    /// A question costs the length of a chain of supertypes, and takes no memory.
    #[inline(always)]
    fn is_subtype(&self, a: ValType, b: ValType) -> bool {
        is_type_below(&self.types, a, b)
    }

    #[inline(always)]
    fn is_shared(&self, ty: RefType) -> bool {
        is_heap_shared(&self.types, ty.heap_type())
    }

    #[inline(always)]
    fn top_type(&self, ty: &HeapType) -> HeapType {
        heap_top(&self.types, *ty)
    }

    #[inline(always)]
    fn canonical_heap_type(&self, ty: HeapType) -> Option<HeapType> {
        canonical_heap(ty, self.types.len()).ok()
    }

    #[inline(always)]
    fn canonical_ref_type(&self, ty: RefType) -> Option<RefType> {
        canonical_ref(ty, self.types.len()).ok()
    }

    #[inline(always)]
    fn canonical_value_type(&self, ty: ValType, features: &WasmFeatures) -> Option<ValType> {
        if is_open_number(ty, *features) {
            return Some(ty);
        }
        open_form(ty, *features, self.types.len())
    }

    fn check_heap_type(&self, ty: &mut HeapType, offset: u64) -> Result<(), Error> {
        let form = canonical_heap(*ty, self.types.len());
        write_form(ty, form, self.alloc, offset)
    }

    fn check_ref_type(&self, ty: &mut RefType, offset: u64) -> Result<(), Error> {
        let form = canonical_ref(*ty, self.types.len());
        write_form(ty, form, self.alloc, offset)
    }

    fn check_value_type(
        &self,
        ty: &mut ValType,
        features: &WasmFeatures,
        offset: u64,
    ) -> Result<(), Error> {
        if is_open_number(*ty, *features) {
            return Ok(());
        }
        if let Err(text) = features.check_value_type(*ty) {
            return Err(Error::new(text, offset));
        }
        let form = canonical_type(*ty, self.types.len());
        write_form(ty, form, self.alloc, offset)
    }
}
