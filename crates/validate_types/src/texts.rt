//! The texts of refusals, as upstream words them.

use crate::heap::AbstractHeapType;
use crate::refs::RefType;
use crate::refusal::{ClauseKind, Packing, Refusal};
use crate::types::{MaybeType, StorageType, ValType};
use std::fmt;

/// The text of a refusal as data: what stands in it, in the order in which it is read. A variant that names a type or an
/// index is written with it.
#[derive(Clone, Copy, Debug, PartialEq, Eq)]
pub enum Wording {
    /// This text, whatever is refused.
    Fixed(&'static str),
    /// An index, between two texts.
    Index {
        before: &'static str,
        index: u32,
        behind: &'static str,
    },
    /// The declared type at this index, which is of another kind than this.
    Declared {
        kind: &'static str,
        index: u32,
    },
    /// The results of the body, and those of the function type at this index.
    Results(u32),
    /// An operand of this type isn't there.
    Missing(ValType),
    /// An operand is of another type than is expected.
    Mismatch {
        expected: ValType,
        found: MaybeType,
    },
    /// A reference isn't below an abstract type of its own sharedness.
    NotBelow {
        expected: AbstractHeapType,
        found: MaybeType,
    },
    /// The name of a type, behind a text.
    Named {
        before: &'static str,
        ty: ValType,
    },
    /// The name of an operator, between two texts.
    Operator {
        before: &'static str,
        name: &'static str,
        behind: &'static str,
    },
    /// The name of an operator, and the index of a type, each behind a text.
    OperatorAndType {
        before: &'static str,
        name: &'static str,
        between: &'static str,
        type_index: u32,
        behind: &'static str,
    },
    /// A field, or an element, of this type has no default value.
    NotDefaultable {
        name: &'static str,
        ty: ValType,
    },
    /// What is held at this place doesn't allow the access of this name.
    NotAllowed {
        place: &'static str,
        name: &'static str,
        types: &'static str,
    },
    /// An array of these elements isn't accessed by bytes.
    NoBytes(StorageType),
    /// The elements of a segment don't fit the array.
    OtherElements {
        name: &'static str,
        segment: u32,
        expected: RefType,
        found: RefType,
    },
    /// The elements that are copied don't fit.
    OtherStorage {
        expected: StorageType,
        found: StorageType,
    },
    /// Two types, behind a text, between them and at the end.
    Types {
        before: &'static str,
        first: ValType,
        between: &'static str,
        second: ValType,
        behind: &'static str,
    },
}

impl Refusal {
    /// Its text.
    pub fn wording(self) -> Wording {
        match self {
            Refusal::OutOfMemory => Wording::Fixed("out of memory"),
            Refusal::Closed(gate) => Wording::Fixed(gate.refusal()),
            Refusal::AcquireReleaseOff => Wording::Fixed("acquire-release atomics are not enabled"),
            Refusal::MultibyteArraysOff => Wording::Fixed(
                "multibyte array access support is not enabled",
            ),
            Refusal::ReferenceOff(text) => Wording::Fixed(text),
            Refusal::MultiValueOff => {
                Wording::Fixed(
                    "blocks, loops, and ifs may only produce a resulttype when multi-value is not enabled",
                )
            }
            Refusal::NothingFound(None) => Wording::Fixed(
                "type mismatch: expected a type but nothing on stack",
            ),
            Refusal::OtherSharedness => {
                Wording::Fixed("type mismatch: expected `ref.eq` types to match `shared`-ness")
            }
            Refusal::OperandsLeft => Wording::Fixed(
                "type mismatch: values remaining on stack at end of block",
            ),
            Refusal::SelectOfReferences => Wording::Fixed(
                "type mismatch: select only takes integral types",
            ),
            Refusal::SelectOfTwoTypes => Wording::Fixed(
                "type mismatch: select operands have different types",
            ),
            Refusal::SelectArity => Wording::Fixed("invalid result arity"),
            Refusal::UnknownLabel => Wording::Fixed("unknown label: branch depth too large"),
            Refusal::UnknownType => Wording::Fixed("unknown type: type index out of bounds"),
            Refusal::UnknownGlobal => Wording::Fixed("unknown global: global index out of bounds"),
            Refusal::NoDataCount => Wording::Fixed("data count section required"),
            Refusal::UnknownField => Wording::Fixed("unknown field: field index out of bounds"),
            Refusal::TypeIndexTooLarge => Wording::Fixed(
                "implementation limit: type index too large",
            ),
            Refusal::NoContinuation => Wording::Fixed("non-continuation type"),
            Refusal::NoDescriptor => Wording::Fixed("expected type with descriptor"),
            Refusal::TargetWithoutDescriptor => Wording::Fixed("cast target must have descriptor"),
            Refusal::UnexpectedHeapType => Wording::Fixed("unexpected heap type"),
            Refusal::TagWithResults => Wording::Fixed(
                "invalid exception type: non-empty tag result type",
            ),
            Refusal::UndeclaredFunction => Wording::Fixed("undeclared function reference"),
            Refusal::UnsharedFunction => Wording::Fixed(
                "shared functions cannot access unshared functions",
            ),
            Refusal::UnsharedGlobal => Wording::Fixed(
                "shared functions cannot access unshared globals",
            ),
            Refusal::UnsharedTable => Wording::Fixed(
                "shared functions cannot access unshared tables",
            ),
            Refusal::UnsharedStruct => Wording::Fixed(
                "shared functions cannot access unshared structs",
            ),
            Refusal::UnsharedArray => Wording::Fixed(
                "shared functions cannot access unshared arrays",
            ),
            Refusal::UnsharedContinuation => {
                Wording::Fixed("shared continuations cannot access unshared continuations")
            }
            Refusal::ImmutableField => Wording::Fixed(
                "invalid struct modification: struct field is immutable",
            ),
            Refusal::ImmutableArray => Wording::Fixed(
                "invalid array modification: array is immutable",
            ),
            Refusal::FieldPacking(packing) => Wording::Fixed(field_packing_text(packing)),
            Refusal::ArrayPacking(packing) => Wording::Fixed(array_packing_text(packing)),
            Refusal::AlignedMore => {
                Wording::Fixed("invalid memop alignment: alignment must not be larger than natural")
            }
            Refusal::AlignedLess => {
                Wording::Fixed("atomic instructions must always specify maximum alignment")
            }
            Refusal::AtomicArray => Wording::Fixed("atomic instructions cannot operate on arrays"),
            Refusal::OffsetBeyond => Wording::Fixed("offset out of range: must be <= 2**32"),
            Refusal::NoNewData => {
                Wording::Fixed(
                    "type mismatch: array.new_data can only create arrays with numeric and vector elements",
                )
            }
            Refusal::NoInitData => {
                Wording::Fixed("invalid array.init_data: array type is not numeric or vector")
            }
            Refusal::OtherTable => Wording::Fixed("type mismatch"),
            Refusal::NoFunctionTable => {
                Wording::Fixed(
                    "type mismatch: indirect calls must go through a table with type <= funcref",
                )
            }
            Refusal::CastToContinuation => Wording::Fixed(
                "invalid cast: cannot cast to a continuation type",
            ),
            Refusal::CastLabelEmpty => {
                Wording::Fixed(
                    "type mismatch: br_on_cast to label with empty types, must have a reference type",
                )
            }
            Refusal::CastFailLabelEmpty => {
                Wording::Fixed("type mismatch: expected a reference type, found nothing")
            }
            Refusal::ElseOutsideIf => Wording::Fixed("else found outside of an `if` block"),
            Refusal::CatchOutsideTry => Wording::Fixed("catch found outside of an `try` block"),
            Refusal::CatchAllOutsideTry => Wording::Fixed(
                "catch_all found outside of a `try` block",
            ),
            Refusal::DelegateOutsideTry => Wording::Fixed(
                "delegate found outside of an `try` block",
            ),
            Refusal::RethrowOutsideCatch => {
                Wording::Fixed("invalid rethrow label: target was not a `catch` block")
            }
            Refusal::TableArity => {
                Wording::Fixed(
                    "type mismatch: br_table target labels have different number of types",
                )
            }
            Refusal::TableEnd => Wording::Fixed("unexpected end of branch targets"),
            Refusal::NonNullLabelEmpty => {
                Wording::Fixed("type mismatch: br_on_non_null target has no label types")
            }
            Refusal::NonNullLabel => {
                Wording::Fixed("type mismatch: br_on_non_null target does not end with heap type")
            }
            Refusal::ClauseArity(kind) => Wording::Fixed(clause_text(kind)),
            Refusal::ClauseReference => {
                Wording::Fixed("type mismatch: catch_all_ref label must a subtype of (ref exn)")
            }
            Refusal::OtherArguments => Wording::Fixed("type mismatch in continuation arguments"),
            Refusal::OtherContinuations => Wording::Fixed("type mismatch in continuation types"),
            Refusal::OtherContinuation => Wording::Fixed("type mismatch in continuation type"),
            Refusal::TagWithParameters => Wording::Fixed(
                "type mismatch: non-empty tag parameter type",
            ),
            Refusal::WantsContinuation => {
                Wording::Fixed("type mismatch: instruction requires a continuation reference")
            }
            Refusal::LabelWithoutContinuation => {
                Wording::Fixed(
                    "type mismatch: instruction requires continuation reference type but label has none",
                )
            }
            Refusal::OtherTag => Wording::Fixed("type mismatch between tag type and label type"),
            Refusal::OtherSwitchTag => Wording::Fixed(
                "type mismatch: switch tag does not match continuation",
            ),
            Refusal::NothingFound(Some(ty)) => Wording::Missing(ty),
            Refusal::Mismatch {
                expected,
                found,
                ..
            } => Wording::Mismatch { expected, found },
            Refusal::ClauseType { expected, found } => mismatch(expected, found),
            Refusal::NoReference(ty) => named("type mismatch: expected ref but found ", ty),
            Refusal::NoDeclaredReference(ty) => named("type mismatch: ", ty),
            Refusal::NoContinuationReference(ty) => {
                named(
                    "type mismatch: expected a continuation reference, found ",
                    ty,
                )
            }
            Refusal::NotBelow { expected, found } => Wording::NotBelow { expected, found },
            Refusal::UnknownLocal(index) => {
                at_index("unknown local ", index, ": local index out of bounds")
            }
            Refusal::UninitializedLocal(index) => at_index("uninitialized local: ", index, ""),
            Refusal::UnknownFunction(index) => {
                at_index("unknown function ", index, ": function index out of bounds")
            }
            Refusal::UnknownTable(index) => {
                at_index("unknown table ", index, ": table index out of bounds")
            }
            Refusal::UnknownMemory(index) => at_index("unknown memory ", index, ""),
            Refusal::UnknownTag(index) => {
                at_index("unknown tag ", index, ": tag index out of bounds")
            }
            Refusal::UnknownElements(index) => {
                at_index(
                    "unknown elem segment ",
                    index,
                    ": segment index out of bounds",
                )
            }
            Refusal::UnknownData(index) => at_index("unknown data segment ", index, ""),
            Refusal::NoContinuationType(index) => at_index("non-continuation type ", index, ""),
            Refusal::NoFunctionType(index) => Wording::Declared {
                kind: "func",
                index,
            },
            Refusal::NoStructType(index) => Wording::Declared {
                kind: "struct",
                index,
            },
            Refusal::NoArrayType(index) => Wording::Declared {
                kind: "array",
                index,
            },
            Refusal::WantsDescriptor { type_index, name } => {
                Wording::OperatorAndType {
                    before: "type with descriptor requires descriptor allocation: `",
                    name,
                    between: "` with type ",
                    type_index,
                    behind: "",
                }
            }
            Refusal::NotDescribed { type_index, name } => {
                Wording::OperatorAndType {
                    before: "invalid `",
                    name,
                    between: "`: type ",
                    type_index,
                    behind: " is not described",
                }
            }
            Refusal::ImmutableGlobal(name) => {
                Wording::Operator {
                    before: "global is immutable: cannot modify it with `",
                    name,
                    behind: "`",
                }
            }
            Refusal::NoReferences(name) => {
                Wording::Operator {
                    before: "type mismatch: ",
                    name,
                    behind: " can only create arrays with reference elements",
                }
            }
            Refusal::NotDefaultable { name, ty } => Wording::NotDefaultable { name, ty },
            Refusal::NotAllowed { place, name, types } => Wording::NotAllowed {
                place,
                name,
                types,
            },
            Refusal::NoBytes(ty) => Wording::NoBytes(ty),
            Refusal::OtherElements {
                name,
                segment,
                expected,
                found,
            } => Wording::OtherElements {
                name,
                segment,
                expected,
                found,
            },
            Refusal::OtherStorage { expected, found } => Wording::OtherStorage { expected, found },
            Refusal::OtherHierarchy { from, into } => {
                Wording::Types {
                    before: "type mismatch: ",
                    first: ValType::Ref(from),
                    between: " and ",
                    second: ValType::Ref(into),
                    behind: " have different heap type hierarchies",
                }
            }
            Refusal::CastNotBelow { from, into } => {
                Wording::Types {
                    before: "type mismatch: expected ",
                    first: ValType::Ref(from),
                    between: ", found ",
                    second: ValType::Ref(into),
                    behind: "",
                }
            }
            Refusal::CastLabel { label, carried } => {
                Wording::Types {
                    before: "type mismatch: casting to type ",
                    first: ValType::Ref(carried),
                    between: ", but it does not match label result type ",
                    second: label,
                    behind: "",
                }
            }
            Refusal::CastFailLabel { label, carried } => {
                Wording::Types {
                    before: "type mismatch: expected label result type ",
                    first: label,
                    between: ", found ",
                    second: ValType::Ref(carried),
                    behind: "",
                }
            }
            Refusal::NotExact { expected, found } => {
                Wording::Types {
                    before: "type mismatch: expected descriptor of exact type ",
                    first: expected,
                    between: " found ",
                    second: found,
                    behind: "",
                }
            }
            Refusal::OtherResults(index) => Wording::Results(index),
        }
    }
}

/// A refusal as data, by its text.
impl fmt::Debug for Refusal {
    fn fmt<W: fmt::Write>(&self, f: &mut fmt::Formatter<W>) -> fmt::Result {
        fmt::Debug::fmt(&self.wording(), f)
    }
}

/// An index, between two texts.
fn at_index(before: &'static str, index: u32, behind: &'static str) -> Wording {
    Wording::Index {
        before,
        index,
        behind,
    }
}

/// The name of a type, behind a text.
fn named(before: &'static str, ty: ValType) -> Wording {
    Wording::Named { before, ty }
}

/// A type where another one is expected.
fn mismatch(expected: ValType, found: ValType) -> Wording {
    Wording::Mismatch {
        expected,
        found: MaybeType::Known(found),
    }
}

/// The text where a field of a struct is packed, or isn't.
fn field_packing_text(packing: Packing) -> &'static str {
    match packing {
        Packing::Plain => "can only use struct `get` with non-packed storage types",
        Packing::Signed => "cannot use struct.get_s with non-packed storage types",
        Packing::Unsigned => "cannot use struct.get_u with non-packed storage types",
    }
}

/// The text where the elements of an array are packed, or aren't.
fn array_packing_text(packing: Packing) -> &'static str {
    match packing {
        Packing::Plain => "cannot use array.get with packed storage types",
        Packing::Signed => "cannot use array.get_s with non-packed storage types",
        Packing::Unsigned => "cannot use array.get_u with non-packed storage types",
    }
}

/// The text where a clause's label takes another number of types.
fn clause_text(kind: ClauseKind) -> &'static str {
    match kind {
        ClauseKind::Catch => "type mismatch: catch label must have same number of types as tag",
        ClauseKind::CatchRef => {
            "type mismatch: catch_ref label must have one more type than tag types"
        }
        ClauseKind::CatchAll => "type mismatch: catch_all label must have no result types",
        ClauseKind::CatchAllRef => {
            "type mismatch: catch_all_ref label must have exactly one result type"
        }
    }
}
