//! The clauses of `try_table`.

use crate::frame::BlockType;

/// The immediates of a `try_table` (wasmparser's `TryTable`).
#[derive(Clone, Copy, Debug, PartialEq, Eq)]
pub struct TryTable<'a> {
    /// The type of the block.
    pub ty: BlockType,
    /// Its clauses, of which the first that fits takes an exception.
    pub catches: &'a [Catch],
}

/// A clause of a `try_table` (wasmparser's `Catch`). Its label is counted outside the `try_table`.
#[derive(Clone, Copy, Debug, PartialEq, Eq)]
pub enum Catch {
    /// `catch`: an exception with this tag goes to the label with what it carries.
    One {
        /// The tag at this index.
        tag: u32,
        /// The label at this index.
        label: u32,
    },
    /// `catch_ref`: with what it carries, and a reference to it.
    OneRef {
        /// The tag at this index.
        tag: u32,
        /// The label at this index.
        label: u32,
    },
    /// `catch_all`: any exception goes to the label with nothing.
    All {
        /// The label at this index.
        label: u32,
    },
    /// `catch_all_ref`: with a reference to it.
    AllRef {
        /// The label at this index.
        label: u32,
    },
}
