//! Why something was refused, as data.

ghost use Rattle.std.specs.Prelude.{◌≡◌, false, is_ok, IfErr};
ghost use Rattle.validate_types.specs.Told.{IsTold};

use crate::error::{Error, OutOfMemory};
use crate::gate::Gate;
use crate::heap::AbstractHeapType;
use crate::refs::RefType;
use crate::types::{MaybeType, StorageType, ValType};

/// Why an operator was refused: a variant for each reason, with what its text needs. It holds neither a place nor a text,
/// and takes no memory.
#[derive(Clone, Copy)]
pub enum Refusal {
    /// A growth was refused: there was no memory for it.
    OutOfMemory,

    // ---- proposals
    /// The operator's proposal is off.
    Closed(Gate),
    /// The proposal `acquire_release_atomics` is off, and the operator has an ordering of it.
    AcquireReleaseOff,
    /// The proposal `multibyte_array_access` is off, and the access is to an array.
    MultibyteArraysOff,
    /// The proposal of a reference type is off, as this text says.
    ReferenceOff(&'static str),
    /// The proposal `multi_value` is off, and a block takes operands or gives more than one.
    MultiValueOff,

    // ---- operands
    /// An operand is missing. If one type was expected, it is this one.
    NothingFound(Option<ValType>),
    /// An operand doesn't fit the expected type; `depth` operands lie above it.
    Mismatch {
        depth: usize,
        expected: ValType,
        found: MaybeType,
    },
    /// An operand of this type is no reference.
    NoReference(ValType),
    /// An operand of this type is no reference to a type that is declared.
    NoDeclaredReference(ValType),
    /// An operand of this type is no reference to a continuation.
    NoContinuationReference(ValType),
    /// A reference isn't below an abstract type, whether shared or not.
    NotBelow {
        expected: AbstractHeapType,
        found: MaybeType,
    },
    /// The operands of `ref.eq` aren't both shared or both unshared.
    OtherSharedness,
    /// Operands are left below the results where a block ends.
    OperandsLeft,
    /// `select` without a type takes no references.
    SelectOfReferences,
    /// The operands of `select` are of two types.
    SelectOfTwoTypes,
    /// `select` with types has exactly one type, and this one hasn't.
    SelectArity,

    // ---- indices
    /// There is no such local.
    UnknownLocal(u32),
    /// The local isn't set.
    UninitializedLocal(u32),
    /// There is no label at this depth.
    UnknownLabel,
    /// There is no such type.
    UnknownType,
    /// There is no such function.
    UnknownFunction(u32),
    /// There is no such global.
    UnknownGlobal,
    /// There is no such table.
    UnknownTable(u32),
    /// There is no such memory.
    UnknownMemory(u32),
    /// There is no such tag.
    UnknownTag(u32),
    /// There is no such element segment.
    UnknownElements(u32),
    /// There is no such data segment.
    UnknownData(u32),
    /// The module has no data count section.
    NoDataCount,
    /// The struct type has no such field.
    UnknownField,
    /// A type index is too large for a reference type.
    TypeIndexTooLarge,

    // ---- declared types
    /// The declared type is no function type.
    NoFunctionType(u32),
    /// The declared type is no struct type.
    NoStructType(u32),
    /// The declared type is no array type.
    NoArrayType(u32),
    /// The declared type is no continuation type.
    NoContinuationType(u32),
    /// What is named is of no continuation type.
    NoContinuation,
    /// A type has no descriptor.
    NoDescriptor,
    /// The target of a cast has no descriptor.
    TargetWithoutDescriptor,
    /// Values of the type are made only with a descriptor, and this operator takes none.
    WantsDescriptor {
        type_index: u32,
        name: &'static str,
    },
    /// A type describes no other, and the operator makes a descriptor of it.
    NotDescribed {
        type_index: u32,
        name: &'static str,
    },
    /// A heap type is no declared one.
    UnexpectedHeapType,
    /// The tag has results.
    TagWithResults,
    /// The function isn't declared for references.
    UndeclaredFunction,

    // ---- sharedness
    /// A shared function calls one that isn't shared.
    UnsharedFunction,
    /// A shared function accesses a global that isn't shared.
    UnsharedGlobal,
    /// A shared function accesses a table that isn't shared.
    UnsharedTable,
    /// A shared function accesses a struct that isn't shared.
    UnsharedStruct,
    /// A shared function accesses an array that isn't shared.
    UnsharedArray,
    /// A shared function uses a continuation that isn't shared.
    UnsharedContinuation,

    // ---- what is written, read and made
    /// An operator of this name writes a global that can't be written.
    ImmutableGlobal(&'static str),
    /// An operator writes a field that can't be written.
    ImmutableField,
    /// An operator writes an array that can't be written.
    ImmutableArray,
    /// A field is packed, or isn't, against what the operator says.
    FieldPacking(Packing),
    /// An array's elements are packed, or aren't, against what the operator says.
    ArrayPacking(Packing),
    /// A field, or an element, has no default value.
    NotDefaultable {
        name: &'static str,
        ty: ValType,
    },
    /// What is held at this place doesn't allow the access.
    NotAllowed {
        place: &'static str,
        name: &'static str,
        types: &'static str,
    },
    /// An access is aligned to more than its width.
    AlignedMore,
    /// An atomic access isn't aligned to its width.
    AlignedLess,
    /// An atomic access of an array's bytes.
    AtomicArray,
    /// The offset of an access doesn't fit a memory of 32 bits.
    OffsetBeyond,
    /// An array that is accessed by bytes has elements without bytes.
    NoBytes(StorageType),
    /// An array that is made of data has elements without bytes.
    NoNewData,
    /// An array that is filled with data has elements without bytes.
    NoInitData,
    /// An array that is made of elements of a segment has no references.
    NoReferences(&'static str),
    /// The elements of a segment don't fit the array.
    OtherElements {
        name: &'static str,
        segment: u32,
        expected: RefType,
        found: RefType,
    },
    /// The elements that are copied don't fit.
    OtherStorage {
        expected: StorageType,
        found: StorageType,
    },
    /// A table's elements don't fit.
    OtherTable,
    /// A table for indirect calls has other references than functions.
    NoFunctionTable,

    // ---- casts
    /// Nothing is cast to a continuation type.
    CastToContinuation,
    /// A cast's types have no common bound.
    OtherHierarchy {
        from: RefType,
        into: RefType,
    },
    /// A cast's target isn't below its source.
    CastNotBelow {
        from: RefType,
        into: RefType,
    },
    /// The label of `br_on_cast` has no types.
    CastLabelEmpty,
    /// The label of `br_on_cast_fail` has no types.
    CastFailLabelEmpty,
    /// The label of `br_on_cast` takes another reference last.
    CastLabel {
        label: ValType,
        carried: RefType,
    },
    /// The label of `br_on_cast_fail` takes another reference last.
    CastFailLabel {
        label: ValType,
        carried: RefType,
    },
    /// A descriptor isn't exact.
    NotExact {
        expected: ValType,
        found: ValType,
    },

    // ---- blocks and branches
    /// `else` in what is no `if`.
    ElseOutsideIf,
    /// `catch` in what is no `try`.
    CatchOutsideTry,
    /// `catch_all` in what is no `try`.
    CatchAllOutsideTry,
    /// `delegate` in what is no `try`.
    DelegateOutsideTry,
    /// The label of `rethrow` is no `catch`.
    RethrowOutsideCatch,
    /// The labels of `br_table` take different numbers of types.
    TableArity,
    /// The labels of `br_table` can't be read.
    TableEnd,
    /// The label of `br_on_non_null` takes nothing.
    NonNullLabelEmpty,
    /// The label of `br_on_non_null` takes no reference last.
    NonNullLabel,
    /// A tail call: what a function of this type gives isn't what the body gives.
    OtherResults(u32),
    /// A clause's label takes another number of types than it is given.
    ClauseArity(ClauseKind),
    /// A clause's label takes another type than it is given.
    ClauseType {
        expected: ValType,
        found: ValType,
    },
    /// The label of a clause takes no reference to an exception.
    ClauseReference,

    // ---- continuations
    /// The parameters of continuations don't fit.
    OtherArguments,
    /// The types of continuations don't fit.
    OtherContinuations,
    /// The types of a continuation and of a label don't fit.
    OtherContinuation,
    /// The tag takes something.
    TagWithParameters,
    /// The operator wants a reference to a continuation last.
    WantsContinuation,
    /// The label takes no reference to a continuation.
    LabelWithoutContinuation,
    /// The types of a tag and of a label don't fit.
    OtherTag,
    /// The tag of `switch` doesn't fit the continuation.
    OtherSwitchTag,
}

/// How an operator reads what is held.
#[derive(Clone, Copy, Debug, PartialEq, Eq)]
pub enum Packing {
    /// As it is.
    Plain,
    /// Packed, extended with its sign.
    Signed,
    /// Packed, extended with zeros.
    Unsigned,
}

/// The kind of a clause of `try_table`.
#[derive(Clone, Copy, Debug, PartialEq, Eq)]
pub enum ClauseKind {
    /// `catch`
    Catch,
    /// `catch_ref`
    CatchRef,
    /// `catch_all`
    CatchAll,
    /// `catch_all_ref`
    CatchAllRef,
}

/// What a body answers if it refuses. The caller chooses it, and so chooses how much is told.
pub trait Refused {
    /// It tells that the row doesn't hold.
    ghost tells: { Self → Type 0 };

    /// Whether memory may be asked for: for room, or by a look-up for its text. A body that tells nothing asks for none, as
    /// one that tells is called after it: so each growth is asked for once.
    fn may_allocate() -> bool
        ensures { result ≡ false → (refused : Self) → tells refused → ⊥ };

    /// The answer for this reason.
    fn of(refusal: Refusal) -> Self
        ensures { tells result → IsTold refusal };

    /// The answer where a look-up refused.
    fn by_look_up(error: Error) -> Self
        ensures { tells result → error.wants_memory ≡ false };
}

/// The operator wasn't done, and no reason is told. It has no field, so nothing of a refusal lies in memory.
#[derive(Clone, Copy, Debug, PartialEq, Eq)]
pub struct NotDone;

impl Refused for NotDone {
    ghost tells = { λ _. ⊥ };

    #[inline(always)]
    fn may_allocate() -> bool {
        false
    }

    #[inline(always)]
    fn of(_refusal: Refusal) -> NotDone {
        NotDone
    }

    #[inline(always)]
    fn by_look_up(_error: Error) -> NotDone {
        NotDone
    }
}

/// It is told why.
#[derive(Debug, Drop)]
pub enum Told {
    /// By a rule.
    Rule(Refusal),
    /// By a look-up, at whatever offset.
    LookUp(Error),
}

impl Refused for Told {
    ghost use Rattle.validate_types.specs.Told.{IsRowRefused};

    ghost tells = { IsRowRefused };

    #[inline(always)]
    fn may_allocate() -> bool {
        true
    }

    fn of(refusal: Refusal) -> Told {
        Told::Rule(refusal)
    }

    fn by_look_up(error: Error) -> Told {
        Told::LookUp(error)
    }
}

/// What a growth answers, as the answer of a body.
#[inline(always)]
pub fn grown<A: Refused>(growth: Result<(), OutOfMemory>) -> Result<(), A>
    ensures same { is_ok result ≡ is_ok growth }
    ensures told { IfErr result (λ e. A.tells e → ⊥) }
{
    match growth {
        Ok(()) => Ok(()),
        Err(OutOfMemory) => Err(A::of(Refusal::OutOfMemory)),
    }
}
