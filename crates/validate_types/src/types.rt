//! Value types, and the types that a module declares (WebAssembly core specification, "Types").

ghost use Rattle.std.specs.Prelude.{◌≡◌, true, None};
ghost use Rattle.validate_types.specs.Types.{address_type_of_memory, address_type_of_table, is_defaultable, unpacked_type, is_packed};
ghost use Rattle.validate_types.specs.declared.types.CompositeInnerType.TheVariants.{Func};

use crate::heap::{AbstractHeapType, PackedIndex};
use crate::refs::RefType;
use std::cmp::Ordering;
use std::marker::Model;

/// The type of a value (wasmparser's `ValType`): a number type, the vector type or a reference type.
#[derive(Clone, Copy, Debug, PartialEq, Eq, PartialOrd, Ord)]
pub enum ValType {
    /// `i32`
    I32,
    /// `i64`
    I64,
    /// `f32`
    F32,
    /// `f64`
    F64,
    /// `v128`
    V128,
    /// A reference type.
    Ref(RefType),
}

impl ValType {
    /// `funcref`
    pub const FUNCREF: ValType = ValType::Ref(RefType::FUNCREF);

    /// `exnref`
    pub const EXNREF: ValType = ValType::Ref(RefType::EXNREF);

    /// Whether the type has a default value: false exactly of references without null.
    pub fn is_defaultable(self) -> bool
        ensures { result ≡ is_defaultable self }
    {
        match self {
            ValType::I32 | ValType::I64 | ValType::F32 | ValType::F64 | ValType::V128 => true,
            ValType::Ref(ty) => ty.is_nullable(),
        }
    }
}

impl From<RefType> for ValType {
    ghost use Rattle.std.specs.Prelude.{◌≡◌};
    ghost use Rattle.validate_types.specs.declared.types.ValType.TheVariants.{Ref};

    ghost from_gives = { λ r t. t ≡ Ref r };

    fn from(ty: RefType) -> ValType {
        ValType::Ref(ty)
    }
}

/// An operand's type as the validator knows it: in dead code an operand may be anything at all
/// (wasmparser's `MaybeType`; the unknown type of the appendix "Validation Algorithm").
#[derive(Clone, Copy, Debug, PartialEq, Eq)]
pub enum MaybeType<T = ValType> {
    /// Nothing is known: what dead code finds below its operands.
    Bottom,
    /// It is some reference without null, shared or not; where an abstract type is given, one below
    /// that type or its shared copy.
    UnknownRef(Option<AbstractHeapType>),
    /// The type is known.
    Known(T),
}

impl From<ValType> for MaybeType {
    ghost use Rattle.std.specs.Prelude.{◌≡◌};
    ghost use Rattle.validate_types.specs.declared.types.MaybeType.TheVariants.{Known};

    ghost from_gives = { λ t m. m ≡ Known t };

    fn from(ty: ValType) -> MaybeType {
        MaybeType::Known(ty)
    }
}

impl From<RefType> for MaybeType {
    ghost use Rattle.std.specs.Prelude.{◌≡◌};
    ghost use Rattle.validate_types.specs.declared.types.MaybeType.TheVariants.{Known};
    ghost use Rattle.validate_types.specs.declared.types.ValType.TheVariants.{Ref};

    ghost from_gives = { λ r m. m ≡ Known (Ref r) };

    fn from(ty: RefType) -> MaybeType {
        MaybeType::Known(ValType::Ref(ty))
    }
}

impl From<MaybeType<RefType>> for MaybeType {
    ghost use Rattle.std.specs.Prelude.{◌≡◌};
    ghost use Rattle.validate_types.specs.Types.{maybe_value};

    ghost from_gives = { λ r m. m ≡ maybe_value r };

    fn from(ty: MaybeType<RefType>) -> MaybeType {
        match ty {
            MaybeType::Bottom => MaybeType::Bottom,
            MaybeType::UnknownRef(ty) => MaybeType::UnknownRef(ty),
            MaybeType::Known(ty) => MaybeType::Known(ValType::Ref(ty)),
        }
    }
}

/// The type of a function: what it takes and what it gives. Contracts see a [`Signature`] of
/// `specs/`.
#[derive(Debug, Drop)]
pub struct FuncType {
    params: Vec<ValType>,
    results: Vec<ValType>,
}

impl Model for FuncType {
    ghost use Rattle.validate_types.specs.Types.{Signature};

    ghost Value = { Signature };

    ghost view = { λ f. record { params = f.params.items; results = f.results.items } };
}

impl FuncType {
    /// A function type of these lists. It takes no memory.
    pub fn new(params: Vec<ValType>, results: Vec<ValType>) -> FuncType
        ensures { result ≡ record { params = params.items; results = results.items } }
    {
        FuncType { params, results }
    }

    /// What the function takes, the last on top.
    pub fn params(&self) -> &[ValType]
        ensures { result.now ≡ self.now.params }
    {
        self.params.as_slice()
    }

    /// What the function gives, the last on top.
    pub fn results(&self) -> &[ValType]
        ensures { result.now ≡ self.now.results }
    {
        self.results.as_slice()
    }
}

impl PartialEq for FuncType {
    ghost use Rattle.std.specs.Cmp.{and_per, on_per};
    ghost use Rattle.std.specs.Cmp.Lexicographic.{pointwise, lists_per};
    ghost use Rattle.std.specs.Ordering.{eq_of_both, on};
    ghost use Rattle.validate_types.specs.contracts.types.ValTypePartialEq.TheImpl as value_eq;
    ghost use Rattle.validate_types.specs.contracts.types.ValTypePartialEq.TheImpl.Laws.{laws-law};

    ghost eq = { eq_of_both (on (λ f. f.params) (pointwise (value_eq.ghosts).eq))
        (on (λ f. f.results) (pointwise (value_eq.ghosts).eq)) };

    ghost laws = { and_per (on_per (λ f. f.params) (lists_per laws-law))
        (on_per (λ f. f.results) (lists_per laws-law)) };

    fn eq(&self, other: &FuncType) -> bool {
        self.params == other.params && self.results == other.results
    }
}

impl Eq for FuncType {
    ghost use Rattle.std.specs.Cmp.{and_equiv, on_equiv};
    ghost use Rattle.std.specs.Cmp.Lexicographic.{lists_equiv};
    ghost use Rattle.validate_types.specs.contracts.types.ValTypeEq.TheImpl.Laws.{laws-law};

    ghost laws = { and_equiv (on_equiv (λ f. f.params) (lists_equiv laws-law))
        (on_equiv (λ f. f.results) (lists_equiv laws-law)) };
}

impl PartialOrd for FuncType {
    ghost use Rattle.std.specs.Prelude.{refl};
    ghost use Rattle.std.specs.Cmp.{both_tied, on_total, partial_order_from_agreeing_total, then_total};
    ghost use Rattle.std.specs.Cmp.Lexicographic.{slice_cmp, lists_ties, lists_total};
    ghost use Rattle.std.specs.Ordering.{as_partial_cmp, on, then_cmp};
    ghost use Rattle.validate_types.specs.contracts.types.ValTypeOrd.TheImpl as value_ord;
    ghost use Rattle.validate_types.specs.contracts.types.ValTypeOrd.TheImpl.Laws.{total-law, matches_eq-law};

    ghost partial_cmp = { as_partial_cmp (then_cmp (on (λ f. f.params) (slice_cmp (value_ord.ghosts).cmp))
        (on (λ f. f.results) (slice_cmp (value_ord.ghosts).cmp))) };

    ghost laws = { partial_order_from_agreeing_total
        (then_cmp (on (λ f. f.params) (slice_cmp (value_ord.ghosts).cmp))
        (on (λ f. f.results) (slice_cmp (value_ord.ghosts).cmp)))
        (then_total (on_total (λ f. f.params) (lists_total total-law))
        (on_total (λ f. f.results) (lists_total total-law)))
        (λ f g. refl)
        (λ f g. both_tied _ _ _ _ (lists_ties (value_ord.ghosts).cmp matches_eq-law f.params g.params)
        (lists_ties (value_ord.ghosts).cmp matches_eq-law f.results g.results)) };

    fn partial_cmp(&self, other: &FuncType) -> Option<Ordering> {
        Some(self.cmp(other))
    }
}

/// By the parameters, and then by the results.
impl Ord for FuncType {
    ghost use Rattle.std.specs.Prelude.{refl};
    ghost use Rattle.std.specs.Cmp.{both_tied, on_total, then_total};
    ghost use Rattle.std.specs.Cmp.Lexicographic.{slice_cmp, lists_ties, lists_total};
    ghost use Rattle.std.specs.Ordering.{on, then_cmp};
    ghost use Rattle.validate_types.specs.contracts.types.ValTypeOrd.TheImpl as value_ord;
    ghost use Rattle.validate_types.specs.contracts.types.ValTypeOrd.TheImpl.Laws.{total-law, matches_eq-law};

    ghost cmp = { then_cmp (on (λ f. f.params) (slice_cmp (value_ord.ghosts).cmp))
        (on (λ f. f.results) (slice_cmp (value_ord.ghosts).cmp)) };

    ghost total = { then_total (on_total (λ f. f.params) (lists_total total-law))
        (on_total (λ f. f.results) (lists_total total-law)) };

    ghost matches_partial_cmp = { λ f g. refl };

    ghost matches_eq = { λ f g. both_tied _ _ _ _
        (lists_ties (value_ord.ghosts).cmp matches_eq-law f.params g.params)
        (lists_ties (value_ord.ghosts).cmp matches_eq-law f.results g.results) };

    fn cmp(&self, other: &FuncType) -> Ordering {
        match self.params.cmp(&other.params) {
            Ordering::Equal => self.results.cmp(&other.results),
            unequal => unequal,
        }
    }
}

/// What a field holds (wasmparser's `StorageType`; WebAssembly core specification, "Composite Types":
/// storage types).
#[derive(Clone, Copy, Debug, PartialEq, Eq, PartialOrd, Ord)]
pub enum StorageType {
    /// `i8`: an integer packed into 8 bits.
    I8,
    /// `i16`: an integer packed into 16 bits.
    I16,
    /// A value of this type.
    Val(ValType),
}

impl StorageType {
    /// Whether it is a packed integer.
    pub fn is_packed(self) -> bool
        ensures { result ≡ is_packed self }
    {
        match self {
            StorageType::I8 | StorageType::I16 => true,
            StorageType::Val(_) => false,
        }
    }

    /// The type of its value as an operand: `i32` for a packed integer.
    pub fn unpack(self) -> ValType
        ensures { result ≡ unpacked_type self }
    {
        match self {
            StorageType::I8 | StorageType::I16 => ValType::I32,
            StorageType::Val(ty) => ty,
        }
    }
}

/// A field of a struct, or what an array has in each place (wasmparser's `FieldType`; WebAssembly core
/// specification, "Composite Types": field types).
#[derive(Clone, Copy, Debug, PartialEq, Eq, PartialOrd, Ord)]
pub struct FieldType {
    /// What it holds.
    pub element_type: StorageType,
    /// Whether it can be written.
    pub mutable: bool,
}

/// The type of an array (wasmparser's `ArrayType`; WebAssembly core specification, "Composite Types"):
/// that of each of its places.
#[derive(Clone, Copy, Debug, PartialEq, Eq, PartialOrd, Ord)]
pub struct ArrayType(pub FieldType);

/// The type of a struct (wasmparser's `StructType`; WebAssembly core specification, "Composite Types").
/// Contracts see the list of its fields.
#[derive(Debug, Drop)]
pub struct StructType {
    /// Its fields, the first at index 0.
    pub fields: Vec<FieldType>,
}

impl Model for StructType {
    ghost use Rattle.std.specs.Prelude.{List};
    ghost use Rattle.validate_types.specs.declared.types.FieldType.{FieldType};

    ghost Value = { List FieldType };

    ghost view = { λ s. s.fields.items };
}

impl PartialEq for StructType {
    ghost use Rattle.std.specs.Cmp.Lexicographic.{pointwise, lists_per};
    ghost use Rattle.validate_types.specs.contracts.types.FieldTypePartialEq.TheImpl as field_eq;
    ghost use Rattle.validate_types.specs.contracts.types.FieldTypePartialEq.TheImpl.Laws.{laws-law};

    ghost eq = { pointwise (field_eq.ghosts).eq };

    ghost laws = { lists_per laws-law };

    fn eq(&self, other: &StructType) -> bool {
        self.fields == other.fields
    }
}

impl Eq for StructType {
    ghost use Rattle.std.specs.Cmp.Lexicographic.{lists_equiv};
    ghost use Rattle.validate_types.specs.contracts.types.FieldTypeEq.TheImpl.Laws.{laws-law};

    ghost laws = { lists_equiv laws-law };
}

impl PartialOrd for StructType {
    ghost use Rattle.std.specs.Prelude.{refl};
    ghost use Rattle.std.specs.Cmp.{partial_order_from_agreeing_total};
    ghost use Rattle.std.specs.Cmp.Lexicographic.{slice_cmp, lists_ties, lists_total};
    ghost use Rattle.std.specs.Ordering.{as_partial_cmp};
    ghost use Rattle.validate_types.specs.contracts.types.FieldTypeOrd.TheImpl as field_ord;
    ghost use Rattle.validate_types.specs.contracts.types.FieldTypeOrd.TheImpl.Laws.{total-law, matches_eq-law};

    ghost partial_cmp = { as_partial_cmp (slice_cmp (field_ord.ghosts).cmp) };

    ghost laws = { partial_order_from_agreeing_total (slice_cmp (field_ord.ghosts).cmp) (lists_total total-law)
        (λ s t. refl) (lists_ties (field_ord.ghosts).cmp matches_eq-law) };

    fn partial_cmp(&self, other: &StructType) -> Option<Ordering> {
        Some(self.cmp(other))
    }
}

impl Ord for StructType {
    ghost use Rattle.std.specs.Prelude.{refl};
    ghost use Rattle.std.specs.Cmp.Lexicographic.{slice_cmp, lists_ties, lists_total};
    ghost use Rattle.validate_types.specs.contracts.types.FieldTypeOrd.TheImpl as field_ord;
    ghost use Rattle.validate_types.specs.contracts.types.FieldTypeOrd.TheImpl.Laws.{total-law, matches_eq-law};

    ghost cmp = { slice_cmp (field_ord.ghosts).cmp };

    ghost total = { lists_total total-law };

    ghost matches_partial_cmp = { λ s t. refl };

    ghost matches_eq = { lists_ties (field_ord.ghosts).cmp matches_eq-law };

    fn cmp(&self, other: &StructType) -> Ordering {
        self.fields.cmp(&other.fields)
    }
}

/// The type of a continuation (wasmparser's `ContType`; a proposal, "Stack Switching": continuation types):
/// the index of the function type of what it has still to run.
#[derive(Clone, Copy, Debug, PartialEq, Eq, PartialOrd, Ord)]
pub struct ContType(pub PackedIndex);

/// What a type is made of (wasmparser's `CompositeInnerType`; WebAssembly core specification, "Composite
/// Types", and the proposal "Stack Switching" for continuations).
#[derive(Debug, PartialEq, Eq, PartialOrd, Ord, Drop)]
pub enum CompositeInnerType {
    /// A function type.
    Func(FuncType),
    /// An array type.
    Array(ArrayType),
    /// A struct type.
    Struct(StructType),
    /// A continuation type.
    Cont(ContType),
}

/// What a type is made of, its mark as shared, and its place among descriptors (a proposal, "Custom
/// Descriptors": composite types).
#[derive(Debug, PartialEq, Eq, PartialOrd, Ord, Drop)]
pub struct CompositeType {
    /// What it is made of.
    pub inner: CompositeInnerType,
    /// Whether it is shared.
    pub shared: bool,
    /// The type of the descriptors of its values, if they have them.
    pub descriptor_idx: Option<PackedIndex>,
    /// The type whose values its values describe, if they do. Nothing here looks at it, but for whether there is
    /// such a type: it is for the module validator.
    pub describes_idx: Option<PackedIndex>,
}

/// A type as a module declares it (wasmparser's `SubType`).
#[derive(Debug, PartialEq, Eq, PartialOrd, Ord, Drop)]
pub struct SubType {
    /// Whether no type may be declared below it. Nothing here looks at it: it is for the module validator.
    pub is_final: bool,
    /// The type that it is declared below, if there is one.
    pub supertype_idx: Option<PackedIndex>,
    /// What it is made of.
    pub composite_type: CompositeType,
}

impl SubType {
    /// The declaration of a function type and no more (wasmparser's `SubType::func`): it is final, declared
    /// below no type, and neither has a descriptor nor is one. It takes no memory.
    pub fn func(signature: FuncType, shared: bool) -> SubType
        ensures is_final { result.is_final ≡ true }
        ensures supertype_idx { result.supertype_idx ≡ None }
        ensures inner { result.composite_type.inner ≡ Func signature }
        ensures shared { result.composite_type.shared ≡ shared }
        ensures descriptor_idx { result.composite_type.descriptor_idx ≡ None }
        ensures describes_idx { result.composite_type.describes_idx ≡ None }
    {
        SubType {
            is_final: true,
            supertype_idx: None,
            composite_type: CompositeType {
                inner: CompositeInnerType::Func(signature),
                shared,
                descriptor_idx: None,
                describes_idx: None,
            },
        }
    }
}

/// The type of a memory (wasmparser's `MemoryType`), without its limits.
#[derive(Clone, Copy, Debug, PartialEq, Eq)]
pub struct MemoryType {
    /// Whether its addresses have 64 bits.
    pub memory64: bool,
    /// Whether it is shared.
    pub shared: bool,
}

impl MemoryType {
    /// The type of its addresses: `i64` where it is marked as one of 64 bits, else `i32`.
    pub fn index_type(&self) -> ValType
        ensures { result ≡ address_type_of_memory self.now }
    {
        if self.memory64 {
            ValType::I64
        } else {
            ValType::I32
        }
    }
}

/// The type of a table (wasmparser's `TableType`), without its limits.
#[derive(Clone, Copy, Debug, PartialEq, Eq)]
pub struct TableType {
    /// The type of its elements.
    pub element_type: RefType,
    /// Whether its addresses have 64 bits.
    pub table64: bool,
    /// Whether it is shared.
    pub shared: bool,
}

impl TableType {
    /// The type of its addresses: `i64` where it is marked as one of 64 bits, else `i32`.
    pub fn index_type(&self) -> ValType
        ensures { result ≡ address_type_of_table self.now }
    {
        if self.table64 {
            ValType::I64
        } else {
            ValType::I32
        }
    }
}

/// The type of a global (wasmparser's `GlobalType`).
#[derive(Clone, Copy, Debug, PartialEq, Eq)]
pub struct GlobalType {
    /// The type of its value.
    pub content_type: ValType,
    /// Whether it can be written.
    pub mutable: bool,
    /// Whether it is shared.
    pub shared: bool,
}
