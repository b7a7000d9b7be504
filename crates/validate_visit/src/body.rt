//! What a body is declared as: what its operators are the body of, and its locals.

use validate_types::ValType;

/// What operators are the body of.
#[derive(Clone, Copy)]
pub enum BodyKind {
    /// A function of the type at this index.
    Function(u32),
    /// A constant expression that gives a value of this type.
    Expression(ValType),
}

/// A group of locals of one type, as a body declares them (WebAssembly core specification, "Binary Format: Modules",
/// code section).
#[derive(Clone, Copy)]
pub struct LocalGroup {
    /// How many.
    pub count: u32,
    /// Of which type.
    pub ty: ValType,
    /// Where the group stands.
    pub offset: u64,
}
