//! Heap types, and the indices of types in them (WebAssembly core specification, "Heap Types"; exact types
//! are of a proposal, "Custom Descriptors").

ghost use Rattle.std.specs.Prelude.{◌≡◌, true, false};
ghost use Rattle.validate_types.specs.declared.heap.AbstractHeapType.{AbstractHeapType};
ghost use Rattle.validate_types.specs.Abstract.{is_abstract_below, heap_name};
ghost use Rattle.validate_types.specs.Heap.{module_index, id_of, packed_index};

use std::marker::Model;

/// An abstract heap type (wasmparser's `AbstractHeapType`).
#[derive(Clone, Copy, Debug, PartialEq, Eq, PartialOrd, Ord)]
pub enum AbstractHeapType {
    /// `func`: every function.
    Func,
    /// `extern`: everything from outside.
    Extern,
    /// `any`: everything inside that is no function.
    Any,
    /// `none`: the bottom type of `any`.
    None,
    /// `noextern`: the bottom type of `extern`.
    NoExtern,
    /// `nofunc`: the bottom type of `func`.
    NoFunc,
    /// `eq`: what can be compared.
    Eq,
    /// `struct`: every struct.
    Struct,
    /// `array`: every array.
    Array,
    /// `i31`: integers of 31 bits.
    I31,
    /// `exn`: every exception.
    Exn,
    /// `noexn`: the bottom type of `exn`.
    NoExn,
    /// `cont`: every continuation.
    Cont,
    /// `nocont`: the bottom type of `cont`.
    NoCont,
}

impl AbstractHeapType {
    /// Whether this type is below the other, both being unshared or both shared (WebAssembly core
    /// specification, "Matching: Heap Types").
    pub fn is_subtype_of(self, other: AbstractHeapType) -> bool
        ensures { result ≡ is_abstract_below self other }
    {
        match other {
            AbstractHeapType::Any => self == other || self.is_subtype_of_eq(),
            AbstractHeapType::Eq => self.is_subtype_of_eq(),
            AbstractHeapType::I31 | AbstractHeapType::Struct | AbstractHeapType::Array => {
                self == other || self == AbstractHeapType::None
            }
            AbstractHeapType::Func => self == other || self == AbstractHeapType::NoFunc,
            AbstractHeapType::Extern => self == other || self == AbstractHeapType::NoExtern,
            AbstractHeapType::Exn => self == other || self == AbstractHeapType::NoExn,
            AbstractHeapType::Cont => self == other || self == AbstractHeapType::NoCont,
            AbstractHeapType::None
            | AbstractHeapType::NoExtern
            | AbstractHeapType::NoFunc
            | AbstractHeapType::NoExn
            | AbstractHeapType::NoCont => self == other,
        }
    }

    /// Whether this type is below `eq`.
    fn is_subtype_of_eq(self) -> bool
        ensures { result ≡ is_abstract_below self AbstractHeapType.Eq }
    {
        matches!(
            &self,
            AbstractHeapType::Eq
                | AbstractHeapType::I31
                | AbstractHeapType::Struct
                | AbstractHeapType::Array
                | AbstractHeapType::None
        )
    }

    /// The name of the type in a text: in that of a nullable reference a bottom type has a name of its
    /// own, as `null` for `none`.
    pub fn as_str(self, nullable: bool) -> &'static str
        ensures { result.now ≡ heap_name nullable self }
    {
        if nullable {
            self.nullable_str()
        } else {
            self.plain_str()
        }
    }

    /// The name in the text of a nullable reference.
    fn nullable_str(self) -> &'static str
        ensures { result.now ≡ heap_name true self }
    {
        match self {
            AbstractHeapType::None => "null",
            AbstractHeapType::NoExtern => "nullextern",
            AbstractHeapType::NoFunc => "nullfunc",
            AbstractHeapType::NoExn => "nullexn",
            AbstractHeapType::NoCont => "nullcont",
            other => other.plain_str(),
        }
    }

    /// The name in any other text.
    fn plain_str(self) -> &'static str
        ensures { result.now ≡ heap_name false self }
    {
        match self {
            AbstractHeapType::Func => "func",
            AbstractHeapType::Extern => "extern",
            AbstractHeapType::Any => "any",
            AbstractHeapType::None => "none",
            AbstractHeapType::NoExtern => "noextern",
            AbstractHeapType::NoFunc => "nofunc",
            AbstractHeapType::Eq => "eq",
            AbstractHeapType::Struct => "struct",
            AbstractHeapType::Array => "array",
            AbstractHeapType::I31 => "i31",
            AbstractHeapType::Exn => "exn",
            AbstractHeapType::NoExn => "noexn",
            AbstractHeapType::Cont => "cont",
            AbstractHeapType::NoCont => "nocont",
        }
    }
}

/// A type of the module, as the lookup knows it (wasmparser's `CoreTypeId`).
#[derive(Clone, Copy, Debug, PartialEq, Eq, PartialOrd, Ord)]
pub struct CoreTypeId {
    /// The number of the type.
    pub index: u32,
}

impl CoreTypeId {
    /// The id of this number.
    pub fn from_index(index: u32) -> CoreTypeId
        ensures { result.index ≡ index }
    {
        CoreTypeId { index }
    }

    /// The number of the id.
    pub fn index(self) -> u32
        ensures { result ≡ self.index }
    {
        self.index
    }
}

/// What names a type in a heap type: its index in the module, or, where the type is canonical, its id
/// (wasmparser's `UnpackedIndex`).
#[derive(Clone, Copy, Debug, PartialEq, Eq, PartialOrd, Ord)]
pub enum UnpackedIndex {
    /// The index of a type in its module.
    Module(u32),
    /// The id of a type.
    Id(CoreTypeId),
}

impl UnpackedIndex {
    /// The index in the form that a reference packs, or None where it is [`PackedIndex::LIMIT`] or more.
    pub fn pack(self) -> Option<PackedIndex>
        ensures { result ≡ packed_index self }
    {
        let number = match self {
            UnpackedIndex::Module(index) => index,
            UnpackedIndex::Id(id) => id.index(),
        };
        if number < PackedIndex::LIMIT {
            Some(PackedIndex { index: self })
        } else {
            None
        }
    }

    /// The index in the module, if it is one.
    pub fn as_module_index(self) -> Option<u32>
        ensures { result ≡ module_index self }
    {
        match self {
            UnpackedIndex::Module(index) => Some(index),
            UnpackedIndex::Id(_) => None,
        }
    }

    /// The id, if it is one.
    pub fn as_core_type_id(self) -> Option<CoreTypeId>
        ensures { result ≡ id_of self }
    {
        match self {
            UnpackedIndex::Module(_) => None,
            UnpackedIndex::Id(id) => Some(id),
        }
    }
}

/// An index that a reference packs, below [`PackedIndex::LIMIT`] (wasmparser's `PackedIndex`). Contracts
/// see the index.
#[derive(Clone, Copy, Debug, PartialEq, Eq, PartialOrd, Ord)]
pub struct PackedIndex {
    index: UnpackedIndex,
}

impl Model for PackedIndex {
    ghost use Rattle.validate_types.specs.declared.heap.UnpackedIndex.{UnpackedIndex};

    ghost Value = { UnpackedIndex };

    ghost view = { λ p. p.index };

    ghost inverse = { λ i. record { index = i } };
}

impl PackedIndex {
    /// The limit of the indices that a reference packs, 2^20: each is below it.
    pub const LIMIT: u32 = 1 << 20;

    /// The index.
    pub fn unpack(self) -> UnpackedIndex
        ensures { result ≡ self }
    {
        self.index
    }

    /// The id, if it is one.
    pub fn as_core_type_id(self) -> Option<CoreTypeId>
        ensures { result ≡ id_of self }
    {
        self.index.as_core_type_id()
    }
}

/// What a reference points to (wasmparser's `HeapType`): an abstract type, or a type of the module, with those
/// declared below it or without.
#[derive(Clone, Copy, Debug, PartialEq, Eq, PartialOrd, Ord)]
pub enum HeapType {
    /// An abstract type, or the shared copy of it.
    Abstract {
        /// Whether it is the shared one.
        shared: bool,
        /// The abstract type.
        ty: AbstractHeapType,
    },
    /// A type that the module declares.
    Concrete(UnpackedIndex),
    /// A type that the module declares, without those declared below it (a proposal, "Custom Descriptors":
    /// exact types).
    Exact(UnpackedIndex),
}
