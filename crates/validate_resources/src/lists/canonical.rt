//! Canonical forms: the types of a module with an id for each index.

ghost use Rattle.std.specs.Prelude.{◌≡◌, ◌≤◌, ℕ, Bool, true, false, map, length, Option, ok_or, IfOk, OnOk, OnErr, IfErr, option_map};
ghost use Rattle.std.specs.List.{list_all};
ghost use Rattle.validate_types.specs.Heap.{number_of};
ghost use Rattle.validate_resources.specs.Indices.{is_known, type_indices_pass, ref_indices_pass, table_indices_pass, global_indices_pass, sub_indices_pass, inner_indices_pass, storage_indices_pass, field_indices_pass, signature_indices_pass, option_index_passes, composite_indices_pass, type_with_id, ref_with_id, table_with_id, global_with_id, sub_with_ids, composite_with_ids, inner_with_ids, storage_with_id, field_with_id, array_with_id, cont_with_id, signature_with_ids, index_with_id, canonical_index, canonical_heap, canonical_ref, canonical_type, heap_number, type_number};
ghost use Rattle.validate_resources.specs.Lists.{list_indices_pass};
ghost use Rattle.validate_resources.specs.declared.lists.TheConstants.{MAX_TYPES};

use crate::order::number;
use std::alloc::Global;
use validate_types::{
    ArrayType, CompositeInnerType, CompositeType, ContType, CoreTypeId, Error, FieldType, FuncType,
    GlobalType, HeapType, PackedIndex, RefType, StorageType, StructType, SubType, TableType,
    UnpackedIndex, ValType,
};

/// The id for an index, or its number where there is no such type among so many.
#[inline(always)]
fn canonical_index(index: UnpackedIndex, count: usize) -> Result<UnpackedIndex, u32>
    ensures { result ≡ ok_or (canonical_index count index) (number_of index) }
{
    let number = number(index);
    if (number as usize) < count {
        Ok(UnpackedIndex::Id(CoreTypeId::from_index(number)))
    } else {
        Err(number)
    }
}

/// The canonical form of a heap type of a module of so many types, or the number of its index where
/// there is no such type.
#[inline(always)]
pub fn canonical_heap(ty: HeapType, count: usize) -> Result<HeapType, u32>
    ensures { result ≡ ok_or (canonical_heap count ty) (heap_number ty) }
{
    match ty {
        HeapType::Abstract { shared, ty } => Ok(HeapType::Abstract { shared, ty }),
        HeapType::Concrete(index) => {
            let id = canonical_index(index, count)?;
            Ok(HeapType::Concrete(id))
        }
        HeapType::Exact(index) => {
            let id = canonical_index(index, count)?;
            Ok(HeapType::Exact(id))
        }
    }
}

/// The same of a reference type.
#[inline(always)]
pub fn canonical_ref(ty: RefType, count: usize) -> Result<RefType, u32>
    ensures { result ≡ ok_or (canonical_ref count ty) (heap_number ty.heap_type) }
{
    let heap_type = canonical_heap(ty.heap_type, count)?;
    Ok(RefType { heap_type, ..ty })
}

/// The same of a value type.
pub fn canonical_type(ty: ValType, count: usize) -> Result<ValType, u32>
    ensures { result ≡ ok_or (canonical_type count ty) (type_number ty) }
{
    match ty {
        ValType::Ref(ty) => {
            let ty = canonical_ref(ty, count)?;
            Ok(ValType::Ref(ty))
        }
        other => Ok(other),
    }
}

/// The id for an index that is packed, or its number where there is no such type among so many.
fn canonical_packed(index: PackedIndex, count: usize) -> Result<PackedIndex, u32>
    requires { count ≤ MAX_TYPES }
    ensures known { OnOk result (is_known count index ≡ true) }
    ensures form { IfOk result (λ x. x ≡ index_with_id index) }
    ensures refused { OnErr result (is_known count index ≡ false) }
{
    let id = canonical_index(index.unpack(), count)?;
    match id.pack() {
        Some(id) => Ok(id),
        None => unreachable!(),
    }
}

/// The same of an index that a type may have: that of its supertype, of the type of its descriptors, or of the
/// one whose values its own describe.
fn canonical_option(index: Option<PackedIndex>, count: usize) -> Result<Option<PackedIndex>, u32>
    requires { count ≤ MAX_TYPES }
    ensures known { OnOk result (option_index_passes (is_known count) index ≡ true) }
    ensures form { IfOk result (λ x. x ≡ option_map index_with_id index) }
    ensures refused { OnErr result (option_index_passes (is_known count) index ≡ false) }
{
    match index {
        None => Ok(None),
        Some(index) => {
            let id = canonical_packed(index, count)?;
            Ok(Some(id))
        }
    }
}

/// What has a canonical form in a module of so many types.
pub trait Canonical: Drop {
    /// Whether there is a type for each index in it, among so many.
    ghost known: { ℕ → Self → Bool };

    /// The same with an id for each index.
    ghost form: { Self → Self };

    /// The canonical form. It refuses at offset 0, by `unknown type`, where there is no type for an
    /// index in it, or for want of memory.
    fn canonical(&self, alloc: Global, count: usize) -> Result<Self, Error>
        requires { count ≤ MAX_TYPES }
        ensures known { OnOk result (known count self.now ≡ true) }
        ensures form { IfOk result (λ x. x ≡ form self.now) }
        ensures refused { IfErr result (λ e. e.wants_memory ≡ false → known count self.now ≡ false) }
        ensures offset { IfErr result (λ e. e.offset ≡ 0) };
}

/// The refusal of an index that is unknown.
fn unknown_type() -> Error
    ensures memory { result.wants_memory ≡ false }
    ensures offset { result.offset ≡ 0 }
{
    Error::new("unknown type", 0)
}

impl Canonical for ValType {
    ghost known = { λ n t. type_indices_pass (is_known n) t };

    ghost form = { type_with_id };

    fn canonical(&self, _alloc: Global, count: usize) -> Result<ValType, Error> {
        match canonical_type(*self, count) {
            Ok(form) => Ok(form),
            Err(_) => Err(unknown_type()),
        }
    }
}

impl Canonical for RefType {
    ghost known = { λ n r. ref_indices_pass (is_known n) r };

    ghost form = { ref_with_id };

    fn canonical(&self, _alloc: Global, count: usize) -> Result<RefType, Error> {
        match canonical_ref(*self, count) {
            Ok(form) => Ok(form),
            Err(_) => Err(unknown_type()),
        }
    }
}

impl Canonical for TableType {
    ghost known = { λ n t. table_indices_pass (is_known n) t };

    ghost form = { table_with_id };

    fn canonical(&self, _alloc: Global, count: usize) -> Result<TableType, Error> {
        match canonical_ref(self.element_type, count) {
            Ok(element_type) => Ok(TableType {
                element_type,
                ..*self
            }),
            Err(_) => Err(unknown_type()),
        }
    }
}

impl Canonical for GlobalType {
    ghost known = { λ n g. global_indices_pass (is_known n) g };

    ghost form = { global_with_id };

    fn canonical(&self, _alloc: Global, count: usize) -> Result<GlobalType, Error> {
        match canonical_type(self.content_type, count) {
            Ok(content_type) => Ok(GlobalType {
                content_type,
                ..*self
            }),
            Err(_) => Err(unknown_type()),
        }
    }
}

impl Canonical for FuncType {
    ghost known = { λ n f. signature_indices_pass (is_known n) f };

    ghost form = { signature_with_ids };

    fn canonical(&self, alloc: Global, count: usize) -> Result<FuncType, Error> {
        let params = canonical_all(alloc, self.params(), count)?;
        let results = canonical_all(alloc, self.results(), count)?;
        Ok(FuncType::new(params, results))
    }
}

impl Canonical for StorageType {
    ghost known = { λ n t. storage_indices_pass (is_known n) t };

    ghost form = { storage_with_id };

    fn canonical(&self, alloc: Global, count: usize) -> Result<StorageType, Error> {
        match self {
            StorageType::Val(ty) => {
                let ty = ty.canonical(alloc, count)?;
                Ok(StorageType::Val(ty))
            }
            StorageType::I8 | StorageType::I16 => Ok(*self),
        }
    }
}

impl Canonical for FieldType {
    ghost known = { λ n f. field_indices_pass (is_known n) f };

    ghost form = { field_with_id };

    fn canonical(&self, alloc: Global, count: usize) -> Result<FieldType, Error> {
        let element_type = self.element_type.canonical(alloc, count)?;
        Ok(FieldType {
            element_type,
            ..*self
        })
    }
}

impl Canonical for ArrayType {
    ghost known = { λ n a. field_indices_pass (is_known n) a.0 };

    ghost form = { array_with_id };

    fn canonical(&self, alloc: Global, count: usize) -> Result<ArrayType, Error> {
        let field = self.0.canonical(alloc, count)?;
        Ok(ArrayType(field))
    }
}

impl Canonical for StructType {
    ghost known = { λ n fields. list_all (field_indices_pass (is_known n)) fields };

    ghost form = { λ fields. map field_with_id fields };

    fn canonical(&self, alloc: Global, count: usize) -> Result<StructType, Error> {
        let fields = canonical_all(alloc, &self.fields, count)?;
        Ok(StructType { fields })
    }
}

impl Canonical for ContType {
    ghost known = { λ n c. is_known n c.0 };

    ghost form = { cont_with_id };

    fn canonical(&self, _alloc: Global, count: usize) -> Result<ContType, Error> {
        match canonical_packed(self.0, count) {
            Ok(index) => Ok(ContType(index)),
            Err(_) => Err(unknown_type()),
        }
    }
}

impl Canonical for CompositeInnerType {
    ghost known = { λ n i. inner_indices_pass (is_known n) i };

    ghost form = { inner_with_ids };

    fn canonical(&self, alloc: Global, count: usize) -> Result<CompositeInnerType, Error> {
        match self {
            CompositeInnerType::Func(func) => {
                let func = func.canonical(alloc, count)?;
                Ok(CompositeInnerType::Func(func))
            }
            CompositeInnerType::Array(array) => {
                let array = array.canonical(alloc, count)?;
                Ok(CompositeInnerType::Array(array))
            }
            CompositeInnerType::Struct(fields) => {
                let fields = fields.canonical(alloc, count)?;
                Ok(CompositeInnerType::Struct(fields))
            }
            CompositeInnerType::Cont(cont) => {
                let cont = cont.canonical(alloc, count)?;
                Ok(CompositeInnerType::Cont(cont))
            }
        }
    }
}

impl Canonical for CompositeType {
    ghost known = { λ n c. composite_indices_pass (is_known n) c };

    ghost form = { composite_with_ids };

    #[tactic(auto, using(std::proofs::lemmas::Bool::and_left, std::proofs::lemmas::Bool::and_right))]
    fn canonical(&self, alloc: Global, count: usize) -> Result<CompositeType, Error> {
        let inner = self.inner.canonical(alloc, count)?;
        let descriptor_idx = match canonical_option(self.descriptor_idx, count) {
            Ok(descriptor) => descriptor,
            Err(_) => return Err(unknown_type()),
        };
        let describes_idx = match canonical_option(self.describes_idx, count) {
            Ok(described) => described,
            Err(_) => return Err(unknown_type()),
        };
        Ok(CompositeType {
            inner,
            shared: self.shared,
            descriptor_idx,
            describes_idx,
        })
    }
}

impl Canonical for SubType {
    ghost known = { λ n s. sub_indices_pass (is_known n) s };

    ghost form = { sub_with_ids };

    #[tactic(auto, using(std::proofs::lemmas::Bool::and_left, std::proofs::lemmas::Bool::and_right))]
    fn canonical(&self, alloc: Global, count: usize) -> Result<SubType, Error> {
        let supertype_idx = match canonical_option(self.supertype_idx, count) {
            Ok(supertype) => supertype,
            Err(_) => return Err(unknown_type()),
        };
        let composite_type = self.composite_type.canonical(alloc, count)?;
        Ok(SubType {
            is_final: self.is_final,
            supertype_idx,
            composite_type,
        })
    }
}

/// The canonical forms of a list. It refuses as [`Canonical::canonical`] does.
pub fn canonical_all<T: Canonical>(
    alloc: Global,
    items: &[T],
    count: usize,
) -> Result<Vec<T>, Error>
    requires { count ≤ MAX_TYPES }
    ensures known { OnOk result (list_all (T.known count) items.now ≡ true) }
    ensures form { IfOk result (λ v. v.items ≡ map T.form items.now) }
    ensures refused { IfErr result (λ e. e.wants_memory ≡ false
        → list_all (T.known count) items.now ≡ false) }
    ensures offset { IfErr result (λ e. e.offset ≡ 0) }
{
    let Ok(mut forms) = Vec::with_capacity(alloc, items.len()) else {
        return Err(Error::out_of_memory(0));
    };
    for item in items {
        let form = item.canonical(alloc, count)?;
        if forms.push(form).is_err() {
            return Err(Error::out_of_memory(0));
        }
    }
    Ok(forms)
}

/// The lists of a module that hold indices, in their canonical form.
#[derive(Drop)]
pub struct Forms {
    /// The types.
    pub types: Vec<SubType>,
    /// The types of the tables.
    pub tables: Vec<TableType>,
    /// The types of the globals.
    pub globals: Vec<GlobalType>,
    /// The types of the element segments.
    pub elements: Vec<RefType>,
}

/// The canonical forms of the lists of a module that hold indices. It refuses as
/// [`Canonical::canonical`] does.
#[tactic(auto, using(std::proofs::lemmas::Bool::and_left, std::proofs::lemmas::Bool::and_right))]
pub fn canonical_lists(
    alloc: Global,
    types: &[SubType],
    tables: &[TableType],
    globals: &[GlobalType],
    elements: &[RefType],
) -> Result<Forms, Error>
    requires { length types.now ≤ MAX_TYPES }
    ensures known { OnOk result (list_indices_pass (is_known (length types.now)) types.now tables.now
        globals.now elements.now ≡ true) }
    ensures types { IfOk result (λ f. f.types.items ≡ map sub_with_ids types.now) }
    ensures tables { IfOk result (λ f. f.tables.items ≡ map table_with_id tables.now) }
    ensures globals { IfOk result (λ f. f.globals.items ≡ map global_with_id globals.now) }
    ensures elements { IfOk result (λ f. f.elements.items ≡ map ref_with_id elements.now) }
    ensures refused { IfErr result (λ e. e.wants_memory ≡ false
        → list_indices_pass (is_known (length types.now)) types.now tables.now globals.now elements.now
        ≡ false) }
    ensures offset { IfErr result (λ e. e.offset ≡ 0) }
{
    let count = types.len();
    Ok(Forms {
        types: canonical_all(alloc, types, count)?,
        tables: canonical_all(alloc, tables, count)?,
        globals: canonical_all(alloc, globals, count)?,
        elements: canonical_all(alloc, elements, count)?,
    })
}
