//! Operands and locals in eight bytes: what a stack of operands and a list of locals hold.

ghost use Rattle.std.specs.Prelude.{◌≡◌, true, false};
ghost use Rattle.validate_types.specs.KnownAs.{IsKnownAs, IsReferenceAs};
ghost use Rattle.validate_types.specs.Operands.{is_indexed, kind_type, place_of, type_place};
ghost use Rattle.validate_types.specs.declared.heap.AbstractHeapType.TheVariants.{Any};
ghost use Rattle.validate_types.specs.declared.types.MaybeType.TheVariants.{Known};
ghost use Rattle.validate_types.specs.declared.types.ValType.TheVariants.{Ref};

use crate::heap::{AbstractHeapType, CoreTypeId, HeapType, UnpackedIndex};
use crate::refs::RefType;
use crate::types::{MaybeType, ValType};
use std::fmt;
use std::marker::Model;

/// What is known of an operand, but for what it points to.
#[derive(Clone, Copy, PartialEq, Eq)]
enum OperandKind {
    I32,
    I64,
    F32,
    F64,
    V128,
    /// Nothing is known.
    Bottom,
    /// Some reference.
    UnknownRef,
    /// Some reference to the abstract type or to one below it.
    UnknownOf,
    /// A reference to the abstract type.
    Abstract,
    /// A reference to a type of the module.
    Module,
    /// A reference to a type by its id.
    Id,
    /// A reference to a type of the module without those declared below it.
    ExactModule,
    /// A reference to a type by its id without those declared below it.
    ExactId,
}

/// An operand's type as the validator knows it, in eight bytes (wasmparser's packed `MaybeType`). Contracts see the
/// [`MaybeType`].
#[derive(Clone, Copy, PartialEq, Eq)]
pub struct Operand {
    kind: OperandKind,
    nullable: bool,
    shared: bool,
    ty: AbstractHeapType,
    index: u32,
}

impl Model for Operand {
    ghost use Rattle.std.specs.Prelude.{◌≡◌};
    ghost use Rattle.validate_types.specs.Operands.{operand_type, packed};
    ghost use Rattle.validate_types.specs.declared.types.MaybeType.{MaybeType};
    ghost use Rattle.validate_types.specs.declared.types.ValType.{ValType};

    ghost Value = { MaybeType ValType };

    ghost view = { λ o. operand_type o };

    ghost invariant = { λ o. packed (operand_type o) ≡ o };

    ghost inverse = { λ ty. packed ty };

    ghost inverse_ok = { λ o kept. kept };
}

/// An operand of which no more is known than its kind.
#[inline(always)]
fn plain(kind: OperandKind) -> Operand
    ensures { result ≡ kind_type kind false false Any 0 }
{
    Operand {
        kind,
        nullable: false,
        shared: false,
        ty: AbstractHeapType::Any,
        index: 0,
    }
}

/// A reference to a declared type.
#[inline(always)]
fn indexed(kind: OperandKind, nullable: bool, index: u32) -> Operand
    requires { is_indexed kind ≡ true }
    ensures { result ≡ kind_type kind nullable false Any index }
{
    Operand {
        kind,
        nullable,
        shared: false,
        ty: AbstractHeapType::Any,
        index,
    }
}

/// An operand that is this reference.
fn reference(ty: RefType) -> Operand
    ensures { result ≡ Known (Ref ty) }
{
    match ty.heap_type {
        HeapType::Abstract { shared, ty: of } => Operand {
            kind: OperandKind::Abstract,
            nullable: ty.nullable,
            shared,
            ty: of,
            index: 0,
        },
        HeapType::Concrete(UnpackedIndex::Module(index)) => {
            indexed(OperandKind::Module, ty.nullable, index)
        }
        HeapType::Concrete(UnpackedIndex::Id(id)) => indexed(
            OperandKind::Id,
            ty.nullable,
            id.index,
        ),
        HeapType::Exact(UnpackedIndex::Module(index)) => {
            indexed(OperandKind::ExactModule, ty.nullable, index)
        }
        HeapType::Exact(UnpackedIndex::Id(id)) => {
            indexed(OperandKind::ExactId, ty.nullable, id.index)
        }
    }
}

/// What is known of a reference to this.
#[inline(always)]
fn reference_of(nullable: bool, heap_type: HeapType) -> MaybeType
    ensures { result ≡ Known (Ref (record { nullable = nullable; heap_type = heap_type })) }
{
    MaybeType::Known(ValType::Ref(RefType {
        nullable,
        heap_type,
    }))
}

/// The place of a number type or the vector type among these, or 5.
#[inline(always)]
fn place_of(kind: OperandKind) -> u8
    ensures { result ≡ place_of kind }
{
    match kind {
        OperandKind::I32 => 0,
        OperandKind::I64 => 1,
        OperandKind::F32 => 2,
        OperandKind::F64 => 3,
        OperandKind::V128 => 4,
        _ => 5,
    }
}

/// The place of a number type or the vector type among these, or 5.
#[inline(always)]
fn type_place(ty: ValType) -> u8
    ensures { result ≡ type_place ty }
{
    match ty {
        ValType::I32 => 0,
        ValType::I64 => 1,
        ValType::F32 => 2,
        ValType::F64 => 3,
        ValType::V128 => 4,
        ValType::Ref(_) => 5,
    }
}

impl Operand {
    /// An operand of this type.
    #[inline(always)]
    pub fn known(ty: ValType) -> Operand
        ensures { result ≡ Known ty }
    {
        match ty {
            ValType::I32 => plain(OperandKind::I32),
            ValType::I64 => plain(OperandKind::I64),
            ValType::F32 => plain(OperandKind::F32),
            ValType::F64 => plain(OperandKind::F64),
            ValType::V128 => plain(OperandKind::V128),
            ValType::Ref(ty) => reference(ty),
        }
    }

    /// An operand of which this is known.
    #[inline(always)]
    pub fn of(ty: MaybeType) -> Operand
        ensures { result ≡ ty }
    {
        match ty {
            MaybeType::Bottom => plain(OperandKind::Bottom),
            MaybeType::UnknownRef(None) => plain(OperandKind::UnknownRef),
            MaybeType::UnknownRef(Some(of)) => Operand {
                kind: OperandKind::UnknownOf,
                nullable: false,
                shared: false,
                ty: of,
                index: 0,
            },
            MaybeType::Known(ty) => Operand::known(ty),
        }
    }

    /// What is known of it.
    #[inline(always)]
    pub fn ty(&self) -> MaybeType
        ensures { result ≡ self.now }
    {
        match self.kind {
            OperandKind::I32 => MaybeType::Known(ValType::I32),
            OperandKind::I64 => MaybeType::Known(ValType::I64),
            OperandKind::F32 => MaybeType::Known(ValType::F32),
            OperandKind::F64 => MaybeType::Known(ValType::F64),
            OperandKind::V128 => MaybeType::Known(ValType::V128),
            OperandKind::Bottom => MaybeType::Bottom,
            OperandKind::UnknownRef => MaybeType::UnknownRef(None),
            OperandKind::UnknownOf => MaybeType::UnknownRef(Some(self.ty)),
            OperandKind::Abstract => {
                let (shared, ty) = (self.shared, self.ty);
                reference_of(self.nullable, HeapType::Abstract { shared, ty })
            }
            OperandKind::Module => {
                let index = UnpackedIndex::Module(self.index);
                reference_of(self.nullable, HeapType::Concrete(index))
            }
            OperandKind::Id => {
                let index = UnpackedIndex::Id(CoreTypeId { index: self.index });
                reference_of(self.nullable, HeapType::Concrete(index))
            }
            OperandKind::ExactModule => {
                let index = UnpackedIndex::Module(self.index);
                reference_of(self.nullable, HeapType::Exact(index))
            }
            OperandKind::ExactId => {
                let index = UnpackedIndex::Id(CoreTypeId { index: self.index });
                reference_of(self.nullable, HeapType::Exact(index))
            }
        }
    }

    /// Whether nothing is known of it.
    #[inline(always)]
    pub fn is_bottom(&self) -> bool
        ensures { result ≡ true → self.now ≡ MaybeType.Bottom }
    {
        matches!(&self.kind, OperandKind::Bottom)
    }

    /// The fast lane of a comparison of types: whether the operand is of this number type, or of the vector type where
    /// that is asked for. False of a reference.
    #[inline(always)]
    pub fn is_number(&self, ty: ValType) -> bool
        ensures { result ≡ true → self.now ≡ Known ty }
    {
        let place = type_place(ty);
        place < 5 && place == place_of(self.kind)
    }

    /// The fast lane of a comparison of types: whether both are of one number type, or of the vector type. False of
    /// a reference.
    #[inline(always)]
    pub fn is_same_number(&self, other: Operand) -> bool
        ensures { result ≡ true → self.now ≡ other }
    {
        let place = place_of(self.kind);
        place < 5 && place == place_of(other.kind)
    }

    /// The fast lane of an order of types: whether the operand is known to be of this type, be it that a reference is
    /// exact in its type or without null. False of a type of the module that is named by its index.
    #[inline(always)]
    pub fn is_known_as(&self, expected: ValType) -> bool
        ensures { result ≡ true → IsKnownAs self.now expected }
    {
        match expected {
            ValType::Ref(expected) => self.is_reference_as(expected),
            _ => self.is_number(expected),
        }
    }

    /// The fast lane of [`Operand::is_known_as`] for references.
    #[inline(always)]
    fn is_reference_as(&self, expected: RefType) -> bool
        ensures { result ≡ true → IsReferenceAs self.now (Ref expected) }
    {
        if self.nullable && !expected.nullable {
            return false;
        }
        match (self.kind, expected.heap_type) {
            (OperandKind::Abstract, HeapType::Abstract { shared, ty }) => {
                self.shared == shared && self.ty == ty
            }
            (OperandKind::Id | OperandKind::ExactId, HeapType::Concrete(UnpackedIndex::Id(id)))
            | (OperandKind::ExactId, HeapType::Exact(UnpackedIndex::Id(id))) => {
                self.index == id.index
            }
            _ => false,
        }
    }
}

/// As what is known of it.
impl fmt::Debug for Operand {
    fn fmt<W: fmt::Write>(&self, f: &mut fmt::Formatter<W>) -> fmt::Result {
        fmt::Debug::fmt(&self.ty(), f)
    }
}

/// The declared type of a local in eight bytes: an operand of this type. Contracts see the [`ValType`].
#[derive(Clone, Copy, PartialEq, Eq)]
pub struct LocalType {
    operand: Operand,
}

impl Model for LocalType {
    ghost use Rattle.std.specs.Prelude.{◌≡◌};
    ghost use Rattle.validate_types.specs.Operands.{type_known};
    ghost use Rattle.validate_types.specs.declared.types.MaybeType.TheVariants.{Known};
    ghost use Rattle.validate_types.specs.declared.types.ValType.{ValType};

    ghost Value = { ValType };

    ghost view = { λ l. type_known l.operand };

    ghost invariant = { λ l. Known (type_known l.operand) ≡ l.operand };

    ghost inverse = { λ ty. record { operand = Known ty } };

    ghost inverse_ok = { λ l known i. record { operand = known i } };
}

impl LocalType {
    /// A local of this type.
    #[inline(always)]
    pub fn new(ty: ValType) -> LocalType
        ensures { result ≡ ty }
    {
        LocalType {
            operand: Operand::known(ty),
        }
    }

    /// The type.
    #[inline(always)]
    pub fn ty(&self) -> ValType
        ensures { result ≡ self.now }
    {
        match self.operand.ty() {
            MaybeType::Known(ty) => ty,
            _ => ValType::I32,
        }
    }

    /// An operand of the type.
    #[inline(always)]
    pub fn operand(&self) -> Operand
        ensures { result ≡ Known self.now }
    {
        self.operand
    }
}

/// As the type.
impl fmt::Debug for LocalType {
    fn fmt<W: fmt::Write>(&self, f: &mut fmt::Formatter<W>) -> fmt::Result {
        fmt::Debug::fmt(&self.ty(), f)
    }
}
