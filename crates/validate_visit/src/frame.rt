//! Frames: the blocks of a body that are open.

use validate_types::ValType;

/// What opened a frame, or the part of it that is open (wasmparser's `FrameKind`).
#[derive(Clone, Copy, Debug, PartialEq, Eq)]
pub enum FrameKind {
    /// `block`, and the body itself.
    Block,
    /// The first part of `if`.
    If,
    /// The part after `else`.
    Else,
    /// `loop`
    Loop,
    /// `try_table`
    TryTable,
    /// The body of a legacy `try`.
    LegacyTry,
    /// The part after a legacy `catch`.
    LegacyCatch,
    /// The part after a legacy `catch_all`.
    LegacyCatchAll,
}

/// The type of a block (wasmparser's `BlockType`; its `Type` is named `Val` here).
#[derive(Clone, Copy, Debug, PartialEq, Eq)]
pub enum BlockType {
    /// Takes nothing and gives nothing.
    Empty,
    /// Takes nothing and gives one value of this type.
    Val(ValType),
    /// Takes and gives what the function type at this index does.
    FuncType(u32),
}

/// An open frame (wasmparser's `Frame`; `ctrl_frame` of the appendix "Validation Algorithm").
#[derive(Clone, Copy, Debug, PartialEq, Eq)]
pub struct Frame {
    /// What opened it, or which part of it is open.
    pub kind: FrameKind,
    /// What it takes and gives.
    pub block_type: BlockType,
    /// How many operands lie below its own.
    pub height: usize,
    /// Whether its code is dead from here on.
    pub unreachable: bool,
    /// How many initialisations of locals there were when it was opened.
    pub init_height: usize,
}
