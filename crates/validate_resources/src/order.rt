//! The order on the types of a module.

ghost use Rattle.std.specs.Prelude.{◌≡◌, true, false, slice_get};
ghost use Rattle.validate_resources.specs.Order.{is_shared_at, is_heap_shared, is_same_kind, abstract_kind, kind_bottom, is_same_sort, has_supertype_of_its_sort, have_supertypes_of_their_sort, supertype_of, is_index_below, is_declared_below, is_below_declared, declared_top, heap_top, is_heap_below, is_ref_below, is_type_below};
ghost use Rattle.validate_types.specs.Abstract.{abstract_top};
ghost use Rattle.validate_types.specs.Heap.{number_of};

use validate_types::{
    AbstractHeapType, CompositeInnerType, CompositeType, HeapType, PackedIndex, RefType, SubType,
    UnpackedIndex, ValType,
};

/// The number of an index of either kind.
#[inline(always)]
pub fn number(index: UnpackedIndex) -> u32
    ensures { result ≡ number_of index }
{
    match index {
        UnpackedIndex::Module(number) => number,
        UnpackedIndex::Id(id) => id.index(),
    }
}

/// Whether the type at this index is marked as shared; false where there is none.
fn is_shared_at(types: &[SubType], index: u32) -> bool
    ensures { result ≡ is_shared_at types.now index }
{
    match types.get(index as usize) {
        Some(ty) => ty.composite_type.shared,
        None => false,
    }
}

/// Whether the reference to the heap type is to something shared.
pub fn is_heap_shared(types: &[SubType], ty: HeapType) -> bool
    ensures { result ≡ is_heap_shared types.now ty }
{
    match ty {
        HeapType::Abstract { shared, .. } => shared,
        HeapType::Concrete(index) | HeapType::Exact(index) => is_shared_at(types, number(index)),
    }
}

/// Whether both are of functions, of arrays, of structs or of continuations.
fn is_same_kind(a: &CompositeInnerType, b: &CompositeInnerType) -> bool
    ensures { result ≡ is_same_kind a.now b.now }
{
    match (a, b) {
        (CompositeInnerType::Func(_), CompositeInnerType::Func(_))
        | (CompositeInnerType::Array(_), CompositeInnerType::Array(_))
        | (CompositeInnerType::Struct(_), CompositeInnerType::Struct(_))
        | (CompositeInnerType::Cont(_), CompositeInnerType::Cont(_)) => true,
        _ => false,
    }
}

/// The abstract type that each type of the kind is below.
fn abstract_kind(inner: &CompositeInnerType) -> AbstractHeapType
    ensures { result ≡ abstract_kind inner.now }
{
    match inner {
        CompositeInnerType::Func(_) => AbstractHeapType::Func,
        CompositeInnerType::Array(_) => AbstractHeapType::Array,
        CompositeInnerType::Struct(_) => AbstractHeapType::Struct,
        CompositeInnerType::Cont(_) => AbstractHeapType::Cont,
    }
}

/// The bottom type below each type of the kind.
fn kind_bottom(inner: &CompositeInnerType) -> AbstractHeapType
    ensures { result ≡ kind_bottom inner.now }
{
    match inner {
        CompositeInnerType::Func(_) => AbstractHeapType::NoFunc,
        CompositeInnerType::Array(_) | CompositeInnerType::Struct(_) => AbstractHeapType::None,
        CompositeInnerType::Cont(_) => AbstractHeapType::NoCont,
    }
}

/// Whether the type at this index is there, and is of this kind and sharedness.
fn is_same_sort(types: &[SubType], index: u32, composite_type: &CompositeType) -> bool
    ensures { result ≡ is_same_sort composite_type.now (slice_get types.now index) }
{
    match types.get(index as usize) {
        Some(other) => {
            is_same_kind(&composite_type.inner, &other.composite_type.inner)
                && composite_type.shared == other.composite_type.shared
        }
        None => false,
    }
}

/// Whether the supertype of the type at an index, if it has one, is an earlier type of the same kind
/// and sharedness.
fn supertype_fits(
    types: &[SubType],
    index: usize,
    composite_type: &CompositeType,
    supertype: Option<PackedIndex>,
) -> bool
    ensures { result ≡ has_supertype_of_its_sort types.now index composite_type.now supertype }
{
    match supertype {
        None => true,
        Some(supertype) => {
            let supertype = number(supertype.unpack());
            (supertype as usize) < index && is_same_sort(types, supertype, composite_type)
        }
    }
}

/// Whether each declared supertype is an earlier type of the same kind and sharedness.
pub(crate) fn supertypes_fit(types: &[SubType]) -> bool
    ensures { result ≡ have_supertypes_of_their_sort types.now }
{
    types.iter().enumerate().all(|(index, ty)| {
        supertype_fits(types, index, &ty.composite_type, ty.supertype_idx)
    })
}

/// The supertype that the type at an index declares, where that is an earlier one.
pub fn supertype_of(types: &[SubType], index: usize) -> Option<usize>
    ensures { result ≡ supertype_of types.now index }
{
    let supertype = types.get(index)?.supertype_idx?;
    let supertype = number(supertype.unpack()) as usize;
    if supertype < index {
        Some(supertype)
    } else {
        None
    }
}

/// Whether a chain of supertypes leads from a type to another. It costs the length of the chain.
pub fn is_index_below(types: &[SubType], low: usize, high: usize) -> bool
    ensures { result ≡ is_index_below types.now low high }
{
    let mut at = low;
    while at != high {
        match supertype_of(types, at) {
            Some(supertype) => at = supertype,
            None => return false,
        }
    }
    true
}

/// Whether the type at this index is there, and is below an abstract one or the shared copy of it.
fn is_declared_below(types: &[SubType], index: u32, shared: bool, above: AbstractHeapType) -> bool
    ensures { result ≡ is_declared_below (slice_get types.now index) shared above }
{
    match types.get(index as usize) {
        Some(ty) => {
            ty.composite_type.shared == shared
                && abstract_kind(&ty.composite_type.inner).is_subtype_of(above)
        }
        None => false,
    }
}

/// Whether the type at this index is there, and is above an abstract one or the shared copy of it.
fn is_below_declared(types: &[SubType], shared: bool, below: AbstractHeapType, index: u32) -> bool
    ensures { result ≡ is_below_declared shared below (slice_get types.now index) }
{
    match types.get(index as usize) {
        Some(ty) => {
            shared == ty.composite_type.shared
                && below.is_subtype_of(kind_bottom(&ty.composite_type.inner))
        }
        None => false,
    }
}

/// Whether a heap type is below another.
fn is_heap_below(types: &[SubType], a: HeapType, b: HeapType) -> bool
    ensures { result ≡ is_heap_below types.now a b }
{
    match (a, b) {
        (HeapType::Concrete(low), HeapType::Concrete(high)) => {
            is_index_below(types, number(low) as usize, number(high) as usize)
        }
        (HeapType::Exact(low), HeapType::Concrete(high)) => {
            is_index_below(types, number(low) as usize, number(high) as usize)
        }
        (HeapType::Exact(low), HeapType::Exact(high)) => number(low) == number(high),
        (HeapType::Concrete(_), HeapType::Exact(_)) => false,
        (HeapType::Concrete(low), HeapType::Abstract { shared, ty }) => {
            is_declared_below(types, number(low), shared, ty)
        }
        (HeapType::Exact(low), HeapType::Abstract { shared, ty }) => {
            is_declared_below(types, number(low), shared, ty)
        }
        (HeapType::Abstract { shared, ty }, HeapType::Concrete(high)) => {
            is_below_declared(types, shared, ty, number(high))
        }
        (HeapType::Abstract { shared, ty }, HeapType::Exact(high)) => {
            is_below_declared(types, shared, ty, number(high))
        }
        (
            HeapType::Abstract {
                shared: low_shared,
                ty: low,
            },
            HeapType::Abstract { shared, ty },
        ) => low_shared == shared && low.is_subtype_of(ty),
    }
}

/// Whether a reference type is below another.
#[inline(never)]
pub fn is_ref_below(types: &[SubType], a: RefType, b: RefType) -> bool
    ensures { result ≡ is_ref_below types.now a b }
{
    is_heap_below(types, a.heap_type(), b.heap_type()) && (b.is_nullable() || !a.is_nullable())
}

/// Whether a type is below another in the order of types, where both are valid and canonical. It
/// costs the length of a chain of supertypes, and takes no memory.
#[inline(always)]
pub fn is_type_below(types: &[SubType], a: ValType, b: ValType) -> bool
    ensures { result ≡ is_type_below types.now a b }
{
    // References are asked for most, since equal numbers fit at once.
    if let (ValType::Ref(a), ValType::Ref(b)) = (a, b) {
        return is_ref_below(types, a, b);
    }
    match (a, b) {
        (ValType::I32, ValType::I32)
        | (ValType::I64, ValType::I64)
        | (ValType::F32, ValType::F32)
        | (ValType::F64, ValType::F64)
        | (ValType::V128, ValType::V128) => true,
        _ => false,
    }
}

/// The top type of the hierarchy that an abstract type is in.
fn abstract_top(ty: AbstractHeapType) -> AbstractHeapType
    ensures { result ≡ abstract_top ty }
{
    match ty {
        AbstractHeapType::Func | AbstractHeapType::NoFunc => AbstractHeapType::Func,
        AbstractHeapType::Extern | AbstractHeapType::NoExtern => AbstractHeapType::Extern,
        AbstractHeapType::Exn | AbstractHeapType::NoExn => AbstractHeapType::Exn,
        AbstractHeapType::Cont | AbstractHeapType::NoCont => AbstractHeapType::Cont,
        AbstractHeapType::Any
        | AbstractHeapType::None
        | AbstractHeapType::Eq
        | AbstractHeapType::Struct
        | AbstractHeapType::Array
        | AbstractHeapType::I31 => AbstractHeapType::Any,
    }
}

/// The top type of the hierarchy of the kind of the type at this index; `any`, where there is none.
fn declared_top(types: &[SubType], index: u32) -> AbstractHeapType
    ensures { result ≡ declared_top (slice_get types.now index) }
{
    match types.get(index as usize) {
        Some(ty) => abstract_top(abstract_kind(&ty.composite_type.inner)),
        None => AbstractHeapType::Any,
    }
}

/// The top type of the hierarchy that a heap type is in, of its sharedness.
pub(crate) fn heap_top(types: &[SubType], ty: HeapType) -> HeapType
    ensures { result ≡ heap_top types.now ty }
{
    match ty {
        HeapType::Abstract { shared, ty } => {
            let ty = abstract_top(ty);
            HeapType::Abstract { shared, ty }
        }
        HeapType::Concrete(index) | HeapType::Exact(index) => {
            let shared = is_shared_at(types, number(index));
            let ty = declared_top(types, number(index));
            HeapType::Abstract { shared, ty }
        }
    }
}
