//! Reference types (WebAssembly core specification, "Reference Types").

ghost use Rattle.std.specs.Prelude.{◌≡◌, true, false};
ghost use Rattle.validate_types.specs.Refs.{reference, reference_to, without_null, with_null, difference, is_concrete, is_exact, is_none_heap, shared_of, wat, wat_of};
ghost use Rattle.validate_types.specs.Heap.{index_in};
ghost use Rattle.validate_types.specs.declared.heap.HeapType.{HeapType};

use crate::heap::{AbstractHeapType, HeapType, PackedIndex, UnpackedIndex};

/// A reference type (wasmparser's `RefType`). One that [`RefType::new`] makes has no type index of
/// [`PackedIndex::LIMIT`] or more.
#[derive(Clone, Copy, Debug, PartialEq, Eq, PartialOrd, Ord)]
pub struct RefType {
    /// Whether null is one of its values.
    pub nullable: bool,
    /// What it points to.
    pub heap_type: HeapType,
}

impl RefType {
    /// `funcref`
    pub const FUNCREF: RefType = RefType {
        nullable: true,
        heap_type: HeapType::Abstract {
            shared: false,
            ty: AbstractHeapType::Func,
        },
    };

    /// `exnref`
    pub const EXNREF: RefType = RefType {
        nullable: true,
        heap_type: HeapType::Abstract {
            shared: false,
            ty: AbstractHeapType::Exn,
        },
    };

    /// `(ref exn)`
    pub const EXN: RefType = RefType {
        nullable: false,
        heap_type: HeapType::Abstract {
            shared: false,
            ty: AbstractHeapType::Exn,
        },
    };

    /// `(ref i31)`
    pub const I31: RefType = RefType {
        nullable: false,
        heap_type: HeapType::Abstract {
            shared: false,
            ty: AbstractHeapType::I31,
        },
    };

    /// `anyref`
    pub const ANYREF: RefType = RefType {
        nullable: true,
        heap_type: HeapType::Abstract {
            shared: false,
            ty: AbstractHeapType::Any,
        },
    };

    /// `eqref`
    pub const EQREF: RefType = RefType {
        nullable: true,
        heap_type: HeapType::Abstract {
            shared: false,
            ty: AbstractHeapType::Eq,
        },
    };

    /// The reference to a heap type, or None where a type index in it is [`PackedIndex::LIMIT`]
    /// or more.
    pub fn new(nullable: bool, heap_type: HeapType) -> Option<RefType>
        ensures { result ≡ reference_to nullable heap_type }
    {
        match heap_type {
            HeapType::Abstract { .. } => Some(RefType {
                nullable,
                heap_type,
            }),
            HeapType::Concrete(index) => {
                let packed = index.pack()?;
                Some(RefType::concrete(nullable, packed))
            }
            HeapType::Exact(index) => {
                let packed = index.pack()?;
                Some(RefType::exact(nullable, packed))
            }
        }
    }

    /// The reference to a type of the module.
    pub fn concrete(nullable: bool, index: PackedIndex) -> RefType
        ensures { result ≡ reference nullable (HeapType.Concrete index) }
    {
        RefType {
            nullable,
            heap_type: HeapType::Concrete(index.unpack()),
        }
    }

    /// The reference to a type of the module without those declared below it.
    pub fn exact(nullable: bool, index: PackedIndex) -> RefType
        ensures { result ≡ reference nullable (HeapType.Exact index) }
    {
        RefType {
            nullable,
            heap_type: HeapType::Exact(index.unpack()),
        }
    }

    /// The same without null.
    pub fn as_non_null(self) -> RefType
        ensures { result ≡ without_null self }
    {
        RefType {
            nullable: false,
            ..self
        }
    }

    /// The same with null.
    pub fn nullable(self) -> RefType
        ensures { result ≡ with_null self }
    {
        RefType {
            nullable: true,
            ..self
        }
    }

    /// What is left of `a` without the values of `b`, as where a cast to `b` failed: `a` without null
    /// where null is a value of `b`, else `a`.
    pub fn difference(a: RefType, b: RefType) -> RefType
        ensures { result ≡ difference a b }
    {
        if b.is_nullable() { a.as_non_null() } else { a }
    }

    /// The reference to the shared copy of the abstract type, or None where the type is one of the
    /// module.
    pub fn shared(self) -> Option<RefType>
        ensures { result ≡ shared_of self.nullable self.heap_type }
    {
        match self.heap_type {
            HeapType::Abstract { ty, .. } => {
                let heap_type = HeapType::Abstract { shared: true, ty };
                Some(RefType { heap_type, ..self })
            }
            HeapType::Concrete(_) | HeapType::Exact(_) => None,
        }
    }

    /// What it points to.
    pub fn heap_type(self) -> HeapType
        ensures { result ≡ self.heap_type }
    {
        self.heap_type
    }

    /// Whether null is one of its values.
    pub fn is_nullable(self) -> bool
        ensures { result ≡ self.nullable }
    {
        self.nullable
    }

    /// Whether it points to a type of the module, be it exact or not.
    pub fn is_concrete_type_ref(self) -> bool
        ensures { result ≡ is_concrete self.heap_type }
    {
        matches!(&self.heap_type, HeapType::Concrete(_) | HeapType::Exact(_))
    }

    /// Whether it points to a type of the module without those declared below it.
    pub fn is_exact_type_ref(self) -> bool
        ensures { result ≡ is_exact self.heap_type }
    {
        matches!(&self.heap_type, HeapType::Exact(_))
    }

    /// Whether it points to `none`, shared or not.
    pub fn is_none_ref(self) -> bool
        ensures { result ≡ is_none_heap self.heap_type }
    {
        matches!(
            &self.heap_type,
            HeapType::Abstract {
                ty: AbstractHeapType::None,
                ..
            }
        )
    }

    /// The index of the type of the module that it points to, if it is one.
    pub fn type_index(self) -> Option<UnpackedIndex>
        ensures { result ≡ index_in self.heap_type }
    {
        match self.heap_type {
            HeapType::Abstract { .. } => None,
            HeapType::Concrete(index) | HeapType::Exact(index) => Some(index),
        }
    }

    /// The text of the type, where a type of the module has no number: `funcref`, `(ref func)`,
    /// `(ref null (shared func))`, `(ref (type))`, `(ref (exact type))`.
    pub fn wat(self) -> &'static str
        ensures { result.now ≡ wat self }
    {
        match (self.nullable, self.heap_type) {
            (true, HeapType::Abstract { shared: false, ty }) => nullable_wat(ty),
            (false, HeapType::Abstract { shared: false, ty }) => non_null_wat(ty),
            (true, HeapType::Abstract { shared: true, ty }) => shared_nullable_wat(ty),
            (false, HeapType::Abstract { shared: true, ty }) => shared_non_null_wat(ty),
            (true, HeapType::Concrete(_)) => "(ref null (type))",
            (false, HeapType::Concrete(_)) => "(ref (type))",
            (true, HeapType::Exact(_)) => "(ref null (exact type))",
            (false, HeapType::Exact(_)) => "(ref (exact type))",
        }
    }
}

/// The text of a nullable reference to an unshared abstract type.
fn nullable_wat(ty: AbstractHeapType) -> &'static str
    ensures { result.now ≡ wat_of true (HeapType.Abstract false ty) }
{
    match ty {
        AbstractHeapType::Func => "funcref",
        AbstractHeapType::Extern => "externref",
        AbstractHeapType::Any => "anyref",
        AbstractHeapType::None => "nullref",
        AbstractHeapType::NoExtern => "nullexternref",
        AbstractHeapType::NoFunc => "nullfuncref",
        AbstractHeapType::Eq => "eqref",
        AbstractHeapType::Struct => "structref",
        AbstractHeapType::Array => "arrayref",
        AbstractHeapType::I31 => "i31ref",
        AbstractHeapType::Exn => "exnref",
        AbstractHeapType::NoExn => "nullexnref",
        AbstractHeapType::Cont => "contref",
        AbstractHeapType::NoCont => "nullcontref",
    }
}

/// The text of a reference without null to an unshared abstract type.
fn non_null_wat(ty: AbstractHeapType) -> &'static str
    ensures { result.now ≡ wat_of false (HeapType.Abstract false ty) }
{
    match ty {
        AbstractHeapType::Func => "(ref func)",
        AbstractHeapType::Extern => "(ref extern)",
        AbstractHeapType::Any => "(ref any)",
        AbstractHeapType::None => "(ref none)",
        AbstractHeapType::NoExtern => "(ref noextern)",
        AbstractHeapType::NoFunc => "(ref nofunc)",
        AbstractHeapType::Eq => "(ref eq)",
        AbstractHeapType::Struct => "(ref struct)",
        AbstractHeapType::Array => "(ref array)",
        AbstractHeapType::I31 => "(ref i31)",
        AbstractHeapType::Exn => "(ref exn)",
        AbstractHeapType::NoExn => "(ref noexn)",
        AbstractHeapType::Cont => "(ref cont)",
        AbstractHeapType::NoCont => "(ref nocont)",
    }
}

/// The text of a nullable reference to a shared abstract type.
fn shared_nullable_wat(ty: AbstractHeapType) -> &'static str
    ensures { result.now ≡ wat_of true (HeapType.Abstract true ty) }
{
    match ty {
        AbstractHeapType::Func => "(ref null (shared func))",
        AbstractHeapType::Extern => "(ref null (shared extern))",
        AbstractHeapType::Any => "(ref null (shared any))",
        AbstractHeapType::None => "(ref null (shared none))",
        AbstractHeapType::NoExtern => "(ref null (shared noextern))",
        AbstractHeapType::NoFunc => "(ref null (shared nofunc))",
        AbstractHeapType::Eq => "(ref null (shared eq))",
        AbstractHeapType::Struct => "(ref null (shared struct))",
        AbstractHeapType::Array => "(ref null (shared array))",
        AbstractHeapType::I31 => "(ref null (shared i31))",
        AbstractHeapType::Exn => "(ref null (shared exn))",
        AbstractHeapType::NoExn => "(ref null (shared noexn))",
        AbstractHeapType::Cont => "(ref null (shared cont))",
        AbstractHeapType::NoCont => "(ref null (shared nocont))",
    }
}

/// The text of a reference without null to a shared abstract type.
fn shared_non_null_wat(ty: AbstractHeapType) -> &'static str
    ensures { result.now ≡ wat_of false (HeapType.Abstract true ty) }
{
    match ty {
        AbstractHeapType::Func => "(ref (shared func))",
        AbstractHeapType::Extern => "(ref (shared extern))",
        AbstractHeapType::Any => "(ref (shared any))",
        AbstractHeapType::None => "(ref (shared none))",
        AbstractHeapType::NoExtern => "(ref (shared noextern))",
        AbstractHeapType::NoFunc => "(ref (shared nofunc))",
        AbstractHeapType::Eq => "(ref (shared eq))",
        AbstractHeapType::Struct => "(ref (shared struct))",
        AbstractHeapType::Array => "(ref (shared array))",
        AbstractHeapType::I31 => "(ref (shared i31))",
        AbstractHeapType::Exn => "(ref (shared exn))",
        AbstractHeapType::NoExn => "(ref (shared noexn))",
        AbstractHeapType::Cont => "(ref (shared cont))",
        AbstractHeapType::NoCont => "(ref (shared nocont))",
    }
}
