//! What can be seen of a validator: its open frames and its operands.

use std::alloc::{AllocError, Global};
use validate_operators::OperatorValidator;
use validate_types::ValType;
use validate_visit::{Frame, FrameKind};

/// The open frames and the operands of a validator, the innermost and the top first.
#[derive(Drop, PartialEq)]
pub struct Snapshot {
    frames: Vec<Frame>,
    operands: Vec<Option<ValType>>,
}

/// The frames of a validator.
fn frames_of(alloc: Global, v: &OperatorValidator) -> Result<Vec<Frame>, AllocError> {
    let mut frames = Vec::new(alloc);
    for depth in 0..v.control_stack_height() {
        if let Some(frame) = v.get_frame(depth) {
            frames.push(*frame)?;
        }
    }
    Ok(frames)
}

/// The operands of a validator.
fn operands_of(alloc: Global, v: &OperatorValidator) -> Result<Vec<Option<ValType>>, AllocError> {
    let mut operands = Vec::new(alloc);
    for depth in 0..v.operand_stack_height() {
        if let Some(operand) = v.peek_operand_at(depth) {
            operands.push(operand)?;
        }
    }
    Ok(operands)
}

impl Snapshot {
    /// What can be seen of this validator.
    pub fn of(alloc: Global, v: &OperatorValidator) -> Result<Snapshot, AllocError> {
        Ok(Snapshot {
            frames: frames_of(alloc, v)?,
            operands: operands_of(alloc, v)?,
        })
    }
}

/// Adds the type of an operand to a text, behind a space: `?` where it isn't known.
pub fn add_type(text: &mut String, ty: Option<ValType>) -> Result<(), AllocError> {
    match ty {
        Some(ty) => write!(text, " {ty}"),
        None => text.push_str(" ?"),
    }
}

/// Adds the types of the operands of a validator to a text, the last on top.
pub fn add_operand_types(text: &mut String, v: &OperatorValidator) -> Result<(), AllocError> {
    for depth in (0..v.operand_stack_height()).rev() {
        add_type(text, v.peek_operand_at(depth).flatten())?;
    }
    Ok(())
}

/// The operator that opens a frame of this kind, or the part of it.
fn kind_name(kind: FrameKind) -> &'static str {
    match kind {
        FrameKind::Block => "block",
        FrameKind::Loop => "loop",
        FrameKind::If => "if",
        FrameKind::Else => "else",
        FrameKind::TryTable => "try_table",
        FrameKind::LegacyTry => "legacy_try",
        FrameKind::LegacyCatch => "catch",
        FrameKind::LegacyCatchAll => "catch_all",
    }
}

/// The innermost frame: `none` where none is open, and behind `dead` in dead code.
pub fn innermost(v: &OperatorValidator) -> (&'static str, &'static str) {
    match v.get_frame(0) {
        Some(frame) if frame.unreachable => ("dead ", kind_name(frame.kind)),
        Some(frame) => ("", kind_name(frame.kind)),
        None => ("", "none"),
    }
}
