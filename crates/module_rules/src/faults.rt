//! Why a declaration isn't valid, or is past a limit, and where it stands.

ghost use Rattle.std.specs.Prelude.{◌≡◌, true, is_ok};
ghost use Rattle.module_rules.specs.Judged.{is_limit, JudgesAt};

use crate::items::ExternalKind;
use validate_types::RefType;

/// The name of the visit of an operator, of two parts: upstream has two visits for what the standard has one name for.
#[derive(Clone, Copy)]
pub struct VisitName {
    /// The name of the operator in the standard, and in the proposals.
    pub operator: &'static str,
    /// What stands behind it.
    pub suffix: &'static str,
}

/// Why a declaration isn't valid: the first of its rules that doesn't hold.
#[derive(Clone, Copy)]
pub enum RuleFault {
    /// The proposal of a type is off. The text says which.
    TypeOff(&'static str),
    /// There is no type at this index.
    UnknownType(u32),
    /// There is no function at this index.
    UnknownFunction(u32),
    /// There is no table at this index.
    UnknownTable(u32),
    /// There is no memory at this index.
    UnknownMemory(u32),
    /// There is no global at this index that a constant expression may name.
    UnknownGlobal(u32),
    /// What is exported isn't there.
    UnknownExport(ExternalKind, u32),
    /// The type at this index isn't one of functions.
    NoFuncType(u32),

    /// A recursion group is written as one, without its proposal.
    GroupOff,
    /// A type names itself, at this index, without the proposal of recursive types.
    RecursiveTypeOff(u32),
    /// A recursion group ends behind the last type.
    GroupPastTypes,
    /// Types stand behind the last recursion group.
    TypesOutsideGroups,
    /// A type has no index that it is named by.
    UnnamedTypes,
    /// A type has a supertype, or isn't final, without the proposal of these.
    SubtypesOff,
    /// The supertype is no earlier type.
    LaterSupertype,
    /// The supertype is final.
    FinalSupertype,
    /// The type doesn't match its supertype.
    SupertypeMismatch,
    /// What a continuation runs, the type at this index, isn't one of functions.
    ContinuationOfNoFunction(u32),

    /// A function gives several values, without their proposal.
    SeveralResultsOff,
    /// An array type, without its proposal.
    ArraysOff,
    /// A struct type, without its proposal.
    StructsOff,
    /// A continuation type, without its proposal.
    ContinuationsOff,
    /// A shared type, without its proposal.
    SharedTypesOff,
    /// What isn't shared stands in a shared type.
    UnsharedPart,
    /// A type has a descriptor, or is one, without their proposal.
    DescriptorsOff,
    /// What isn't a struct has a descriptor, or is one.
    DescriptorOfNoStruct,
    /// A descriptor stands before what it describes.
    LaterDescribed,
    /// The descriptor of a type doesn't describe it.
    NoMatchingDescribes,
    /// A type isn't the descriptor of what it describes.
    NoMatchingDescriptor,

    /// A function is imported as exact, without the proposal of that.
    ExactImportsOff,
    /// A tag, without its proposal.
    ExceptionsOff,
    /// The function type of a tag gives something.
    TagWithResults,
    /// The start function takes or gives something.
    StartType,

    /// The size at first is above the maximum.
    MinimumAboveMaximum,
    /// Several tables, without the proposal of that.
    SeveralTables,
    /// A table has addresses of 64 bits, without their proposal.
    Table64Off,
    /// A shared table, without its proposal.
    SharedTablesOff,
    /// What isn't shared stands in a shared table.
    UnsharedElements,
    /// A table has more elements than there are addresses.
    TableTooLarge,
    /// The elements of a table have no default value, and it has no initializer.
    NoInitializer,
    /// A table has an initializer, without the proposal of that.
    TableInitializersOff,

    /// Several memories, without the proposal of that.
    SeveralMemories,
    /// A memory has addresses of 64 bits, without their proposal.
    Memory64Off,
    /// A shared memory, without its proposal.
    SharedMemoriesOff,
    /// A shared memory has no maximum.
    SharedWithoutMaximum,
    /// The size of a page is set, without the proposal of that.
    PageSizesOff,
    /// Pages can't be of this size.
    PageSize,
    /// A memory of 32 bits has more pages of 64 KiB than there are addresses for.
    TooManyPages,
    /// A memory of 32 bits has more pages of another size than there are addresses for.
    TooManySmallPages,
    /// A memory of 64 bits has more pages than there are addresses for.
    TooManyPages64,

    /// A global that can be written is imported or exported, without the proposal of that.
    WrittenGlobalsOff,
    /// A shared global, without its proposal.
    SharedGlobalsOff,
    /// What isn't shared stands in a shared global.
    UnsharedValue,

    /// Elements of the first type don't fit into a table of the second.
    ElementMismatch(RefType, RefType),
    /// A segment that goes nowhere at first, without the proposal of that.
    BulkMemoryOff,
    /// Another number of data segments is said than there are.
    DataCount,

    /// An operator isn't constant: the name of its visit, where that is told.
    NotConstant(Option<VisitName>),
    /// A constant expression names a global of the module's own, without the proposal of that.
    OwnGlobal,
    /// A constant expression names a global that can be written.
    WrittenGlobal,
}

/// Which limit of this implementation a declaration is past.
#[derive(Clone, Copy)]
pub enum LimitFault {
    /// There are more of something than this, which may be.
    TooMany {
        /// What there is too much of.
        what: &'static str,
        /// How much of it may be.
        most: usize,
    },
    /// More supertypes lie above a type than may be.
    TooDeep,
    /// A struct has more fields than may be.
    TooManyFields,
    /// A segment has more elements than may be.
    TooManyElements,
}

/// Why a declaration is refused.
#[derive(Clone, Copy)]
pub enum Fault {
    /// It isn't valid.
    Rule(RuleFault),
    /// It is past a limit of this implementation. Whether it is valid isn't told.
    Limit(LimitFault),
}

/// A rule that doesn't hold, of the declaration at this offset.
#[derive(Clone, Copy)]
pub struct LocatedRule {
    /// The fault.
    pub fault: RuleFault,
    /// Where the declaration stands.
    pub offset: u64,
}

/// A fault of the declaration at this offset.
#[derive(Clone, Copy)]
pub struct Located {
    /// The fault.
    pub fault: Fault,
    /// Where the declaration stands.
    pub offset: u64,
}

impl RuleFault {
    /// The fault, of the declaration at this offset.
    pub fn at(self, offset: u64) -> LocatedRule
        ensures { result.offset ≡ offset }
    {
        LocatedRule {
            fault: self,
            offset,
        }
    }
}

impl LimitFault {
    /// There are more of this than so many, which may be.
    pub fn too_many(what: &'static str, most: usize) -> LimitFault {
        LimitFault::TooMany { what, most }
    }

    /// The fault, of the declaration at this offset.
    pub fn at(self, offset: u64) -> Located
        ensures { is_limit result.fault ≡ true }
    {
        Fault::Limit(self).at(offset)
    }
}

impl Fault {
    /// Whether it is that of a limit.
    pub fn is_limit(self) -> bool
        ensures { result ≡ is_limit self }
    {
        matches!(&self, Fault::Limit(_))
    }

    /// The fault, of the declaration at this offset.
    pub fn at(self, offset: u64) -> Located
        ensures { result.fault ≡ self }
    {
        Located {
            fault: self,
            offset,
        }
    }
}

impl From<RuleFault> for Fault {
    ghost use Rattle.module_rules.specs.declared.faults.Fault.TheVariants.{Rule};

    ghost from_gives = { λ rule fault. fault ≡ Rule rule };

    fn from(rule: RuleFault) -> Fault {
        Fault::Rule(rule)
    }
}

impl From<LimitFault> for Fault {
    ghost use Rattle.module_rules.specs.declared.faults.Fault.TheVariants.{Limit};

    ghost from_gives = { λ limit fault. fault ≡ Limit limit };

    fn from(limit: LimitFault) -> Fault {
        Fault::Limit(limit)
    }
}

/// What comes of the check of the rules of the declaration at this offset.
pub fn locate(checked: Result<(), RuleFault>, offset: u64) -> Result<(), LocatedRule>
    ensures { is_ok result ≡ is_ok checked }
{
    match checked {
        Ok(()) => Ok(()),
        Err(fault) => Err(fault.at(offset)),
    }
}

/// What comes of a check of rules alone, among those that check limits too.
pub fn of_rules(checked: Result<(), LocatedRule>) -> Result<(), Located>
    ensures { JudgesAt (is_ok checked) true result }
{
    match checked {
        Ok(()) => Ok(()),
        Err(rule) => Err(Fault::Rule(rule.fault).at(rule.offset)),
    }
}
