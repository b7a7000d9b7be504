//! What a line of a script says, where it writes no operator.

use validate_resources::FuncDecl;
use validate_types::{GlobalType, MemoryType, RefType, SubType, TableType, ValType, WasmFeatures};
use validate_visit::BodyKind;

/// What a line says that is neither blank nor a comment, and writes no operator.
#[derive(Drop)]
pub enum Line {
    /// `feature NAME`: these proposals are on.
    Feature(WasmFeatures),
    /// `type ..`: the module declares this type.
    SubType(SubType),
    /// `fn N ..`: the module declares this function.
    Function(FuncDecl),
    /// `table T ..`: the module declares a table of this type.
    Table(TableType),
    /// `memory ..`: the module declares a memory of this type.
    Memory(MemoryType),
    /// `global ..`: the module declares a global of this type.
    Global(GlobalType),
    /// `tag N`: the module declares a tag of the type at this index.
    Tag(u32),
    /// `elem T`: the module declares an element segment of this type.
    Element(RefType),
    /// `data COUNT`: the module has this many data segments.
    DataCount(u32),
    /// `show`: the types of the operands are printed too.
    Show,
    /// `func N` or `expr T`: what the operators are the body of.
    Body(BodyKind),
    /// `local N T`: the body has this many more locals of this type.
    Locals(u32, ValType),
}
