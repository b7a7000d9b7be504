//! The texts of faults: wasmparser's, as far as they are known.

ghost use Rattle.std.specs.Prelude.{◌≡◌, true, false};
ghost use Rattle.module_rules.specs.Judged.{is_limit};
ghost use Rattle.module_rules.specs.declared.refusals.ModuleRefusal.TheVariants.{Invalid, TooLarge};
ghost use Rattle.validate_types.specs.declared.error.Error.{Error};

use crate::faults::{Fault, LimitFault, Located, LocatedRule, RuleFault, VisitName};
use crate::items::ExternalKind;
use crate::limits::MAX_WASM_SUBTYPING_DEPTH;
use crate::refusals::ModuleRefusal;
use std::alloc::{AllocError, Global};
use std::fmt;
use validate_types::{Error, RefType};

/// The text of a fault, by its parts.
enum Wording {
    /// This text.
    Fixed(&'static str),
    /// An index between two texts.
    Index(&'static str, u32, &'static str),
    /// So much of this is too much.
    TooMany(&'static str, usize),
    /// This isn't there, and is exported.
    UnknownExport(&'static str, u32),
    /// Elements of the first type don't fit into a table of the second.
    ElementMismatch(RefType, RefType),
    /// More supertypes lie above a type than may be.
    TooDeep,
    /// The operator of this visit isn't constant.
    NotConstant(VisitName),
}

impl fmt::Display for VisitName {
    fn fmt<W: fmt::Write>(&self, f: &mut fmt::Formatter<W>) -> fmt::Result {
        f.write_str("visit_")?;
        for letter in self.operator.chars() {
            f.write_char(if letter == '.' { '_' } else { letter })?;
        }
        f.write_str(self.suffix)
    }
}

/// The name of a kind in a text.
fn kind_name(kind: ExternalKind) -> &'static str {
    match kind {
        ExternalKind::Func => "function",
        ExternalKind::Table => "table",
        ExternalKind::Memory => "memory",
        ExternalKind::Global => "global",
        ExternalKind::Tag => "tag",
    }
}

impl RuleFault {
    /// The text of it, by its parts.
    fn wording(self) -> Wording {
        match self {
            RuleFault::TypeOff(text) => Wording::Fixed(text),
            RuleFault::UnknownType(index) => {
                Wording::Index("unknown type ", index, ": type index out of bounds")
            }
            RuleFault::UnknownFunction(index) => {
                Wording::Index("unknown function ", index, ": func index out of bounds")
            }
            RuleFault::UnknownTable(index) => {
                Wording::Index("unknown table ", index, ": table index out of bounds")
            }
            RuleFault::UnknownMemory(index) => {
                Wording::Index("unknown memory ", index, ": memory index out of bounds")
            }
            RuleFault::UnknownGlobal(index) => {
                Wording::Index("unknown global ", index, ": global index out of bounds")
            }
            RuleFault::UnknownExport(kind, index) => Wording::UnknownExport(kind_name(kind), index),
            RuleFault::NoFuncType(index) => {
                Wording::Index("type index ", index, " is not a function type")
            }
            RuleFault::GroupOff => {
                Wording::Fixed("rec group usage requires `gc` proposal to be enabled")
            }
            RuleFault::RecursiveTypeOff(index) => Wording::Index(
                "unknown type ",
                index,
                ": type index out of bounds because the GC proposal is disabled",
            ),
            RuleFault::GroupPastTypes => {
                Wording::Fixed("recursion groups have more types than there are")
            }
            RuleFault::TypesOutsideGroups => Wording::Fixed(
                "types stand outside of recursion groups",
            ),
            RuleFault::UnnamedTypes => Wording::Fixed("types without a name"),
            RuleFault::SubtypesOff => Wording::Fixed("gc proposal must be enabled to use subtypes"),
            RuleFault::LaterSupertype => Wording::Fixed(
                "supertypes must be defined before subtypes",
            ),
            RuleFault::FinalSupertype => Wording::Fixed("sub type cannot have a final super type"),
            RuleFault::SupertypeMismatch => Wording::Fixed("sub type must match super type"),
            RuleFault::ContinuationOfNoFunction(index) => Wording::Index(
                "non-function type ",
                index,
                "",
            ),
            RuleFault::SeveralResultsOff => Wording::Fixed(
                "func type returns multiple values but the multi-value feature is not enabled",
            ),
            RuleFault::ArraysOff => {
                Wording::Fixed("array indexed types not supported without the gc feature")
            }
            RuleFault::StructsOff => {
                Wording::Fixed("struct indexed types not supported without the gc feature")
            }
            RuleFault::ContinuationsOff => {
                Wording::Fixed(
                    "cont indexed types not supported without the stack switching feature",
                )
            }
            RuleFault::SharedTypesOff => Wording::Fixed(
                "shared composite types require the shared-everything-threads proposal",
            ),
            RuleFault::UnsharedPart => {
                Wording::Fixed("shared composite type must contain shared types")
            }
            RuleFault::DescriptorsOff => Wording::Fixed(
                "custom descriptors proposal must be enabled to use descriptor and describes",
            ),
            RuleFault::DescriptorOfNoStruct => {
                Wording::Fixed("descriptor or describes on non-struct type")
            }
            RuleFault::LaterDescribed => Wording::Fixed("forward describes reference"),
            RuleFault::NoMatchingDescribes => {
                Wording::Fixed("descriptor with no matching describes")
            }
            RuleFault::NoMatchingDescriptor => {
                Wording::Fixed("describes with no matching descriptor")
            }
            RuleFault::ExactImportsOff => Wording::Fixed(
                "custom descriptors proposal must be enabled to use exact function imports",
            ),
            RuleFault::ExceptionsOff => Wording::Fixed("exceptions proposal not enabled"),
            RuleFault::TagWithResults => {
                Wording::Fixed("invalid exception type: non-empty tag result type")
            }
            RuleFault::StartType => Wording::Fixed("invalid start function type"),
            RuleFault::MinimumAboveMaximum => {
                Wording::Fixed("size minimum must not be greater than maximum")
            }
            RuleFault::SeveralTables => Wording::Fixed("multiple tables"),
            RuleFault::Table64Off => Wording::Fixed("memory64 must be enabled for 64-bit tables"),
            RuleFault::SharedTablesOff => {
                Wording::Fixed("shared tables require the shared-everything-threads proposal")
            }
            RuleFault::UnsharedElements => {
                Wording::Fixed("shared tables must have a shared element type")
            }
            RuleFault::TableTooLarge => Wording::Fixed("maximum table size is out of bounds"),
            RuleFault::NoInitializer => Wording::Fixed(
                "type mismatch: non-defaultable element type must have initialization expression",
            ),
            RuleFault::TableInitializersOff => Wording::Fixed(
                "tables with expression initializers require the function-references proposal",
            ),
            RuleFault::SeveralMemories => Wording::Fixed("multiple memories"),
            RuleFault::Memory64Off => Wording::Fixed(
                "memory64 must be enabled for 64-bit memories",
            ),
            RuleFault::SharedMemoriesOff => {
                Wording::Fixed("threads must be enabled for shared memories")
            }
            RuleFault::SharedWithoutMaximum => {
                Wording::Fixed("shared memory must have maximum size")
            }
            RuleFault::PageSizesOff => Wording::Fixed(
                "the custom page sizes proposal must be enabled to customize a memory's page size",
            ),
            RuleFault::PageSize => Wording::Fixed("invalid custom page size"),
            RuleFault::TooManyPages => {
                Wording::Fixed("memory size must be at most 65536 pages (4GiB)")
            }
            RuleFault::TooManySmallPages => {
                Wording::Fixed("memory size must be at most 4294967295 pages of 1 byte")
            }
            RuleFault::TooManyPages64 => Wording::Fixed("memory size must be at most 2**48 pages"),
            RuleFault::WrittenGlobalsOff => {
                Wording::Fixed("mutable global support is not enabled")
            }
            RuleFault::SharedGlobalsOff => {
                Wording::Fixed("shared globals require the shared-everything-threads proposal")
            }
            RuleFault::UnsharedValue => {
                Wording::Fixed("shared globals must have a shared value type")
            }
            RuleFault::ElementMismatch(ty, above) => Wording::ElementMismatch(ty, above),
            RuleFault::BulkMemoryOff => Wording::Fixed("bulk memory must be enabled"),
            RuleFault::DataCount => {
                Wording::Fixed("data count and data section have inconsistent lengths")
            }
            RuleFault::NotConstant(None) => {
                Wording::Fixed("constant expression required: non-constant operator")
            }
            RuleFault::NotConstant(Some(visit)) => Wording::NotConstant(visit),
            RuleFault::OwnGlobal => Wording::Fixed(
                "constant expression required: global.get of locally defined global",
            ),
            RuleFault::WrittenGlobal => {
                Wording::Fixed("constant expression required: global.get of mutable global")
            }
        }
    }
}

impl LimitFault {
    /// The text of it, by its parts.
    fn wording(self) -> Wording {
        match self {
            LimitFault::TooMany { what, most } => Wording::TooMany(what, most),
            LimitFault::TooDeep => Wording::TooDeep,
            LimitFault::TooManyFields => Wording::Fixed("struct fields size is out of bounds"),
            LimitFault::TooManyElements => Wording::Fixed("number of elements is out of bounds"),
        }
    }
}

impl Wording {
    /// The text, if it is made of parts.
    fn made(self, alloc: Global) -> Result<String, AllocError> {
        match self {
            Wording::Fixed(text) => String::from_str(alloc, text),
            Wording::Index(before, index, behind) => format!(in alloc; "{before}{index}{behind}"),
            Wording::TooMany(what, most) => {
                format!(in alloc; "{what} count exceeds limit of {most}")
            }
            Wording::UnknownExport(name, index) => {
                format!(in alloc; "unknown {name} {index}: exported {name} index out of bounds")
            }
            Wording::NotConstant(visit) => {
                format!(in alloc; "constant expression required: non-constant operator: {visit}")
            }
            Wording::ElementMismatch(ty, above) => format!(in alloc;
                "type mismatch: invalid element type `{ty}` for table type `{above}`"
            ),
            Wording::TooDeep => {
                let depth = MAX_WASM_SUBTYPING_DEPTH + 1;
                let most = MAX_WASM_SUBTYPING_DEPTH;
                format!(in alloc;
                    "sub type hierarchy too deep: found depth {depth}, cannot exceed depth {most}"
                )
            }
        }
    }
    /// The error with this text, at this offset. It takes memory for a text that is made of parts.
    fn error(self, alloc: Global, offset: u64) -> Error
        ensures { result.offset ≡ offset }
    {
        match self {
            Wording::Fixed(text) => Error::new(text, offset),
            parts => Error::from_text(parts.made(alloc), offset),
        }
    }
}

impl LocatedRule {
    /// The error of the declaration, at its offset. It takes memory for a text that is made of parts.
    pub fn error(self, alloc: Global) -> Error
        ensures { result.offset ≡ self.offset }
    {
        self.fault.wording().error(alloc, self.offset)
    }
}

impl Located {
    /// The refusal of the declaration, at its offset. It takes memory for a text that is made of parts.
    pub fn refusal(self, alloc: Global) -> ModuleRefusal
        ensures invalid { (e : Error) → result ≡ Invalid e → is_limit self.fault ≡ false }
        ensures too_large { (e : Error) → result ≡ TooLarge e → is_limit self.fault ≡ true }
    {
        match self.fault {
            Fault::Rule(fault) => ModuleRefusal::invalid(fault.wording().error(alloc, self.offset)),
            Fault::Limit(fault) => {
                ModuleRefusal::too_large(fault.wording().error(alloc, self.offset))
            }
        }
    }
}
