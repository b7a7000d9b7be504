//! What can be seen of a validator: its open frames and its operands.

use crate::expectations::ample;
use crate::written::Written;
use std::process::Abort;
use wasmparser_validate::func::FuncValidator;
use wasmparser_validate::operators::{Frame, OperatorValidator};
use wasmparser_validate::resources::WasmModuleResources;
use wasmparser_validate::types::ValType;
use wasmparser_validate::visit::FrameKind;

/// Has operands and open frames that can be seen, the top and the innermost at 0.
pub trait Seen {
    /// The type of an operand, where it is known.
    fn operand(&self, depth: usize) -> Option<Option<ValType>>;

    /// An open frame.
    fn frame(&self, depth: usize) -> Option<Frame>;

    /// How many operands and frames there are.
    fn heights(&self) -> (usize, usize);
}

impl Seen for OperatorValidator {
    fn operand(&self, depth: usize) -> Option<Option<ValType>> {
        self.peek_operand_at(depth)
    }

    fn frame(&self, depth: usize) -> Option<Frame> {
        self.get_frame(depth).copied()
    }

    fn heights(&self) -> (usize, usize) {
        (self.operand_stack_height(), self.control_stack_height())
    }
}

impl<'a, 'resources, R: WasmModuleResources> Seen for FuncValidator<'a, 'resources, R> {
    fn operand(&self, depth: usize) -> Option<Option<ValType>> {
        self.get_operand_type(depth)
    }

    fn frame(&self, depth: usize) -> Option<Frame> {
        self.get_control_frame(depth).copied()
    }

    fn heights(&self) -> (usize, usize) {
        (self.operand_stack_height(), self.control_stack_height())
    }
}

/// All open frames and operands, the innermost and the top first.
#[derive(Drop)]
pub struct Snapshot {
    frames: Vec<Frame>,
    operands: Vec<Option<ValType>>,
}

/// All open frames.
fn frames_of<S: Seen>(rt: &(impl Abort + AllocGlobal), seen: &S) -> Vec<Frame> {
    let (_, count) = seen.heights();
    let mut frames = Vec::new(rt.alloc());
    for depth in 0..count {
        if let Some(frame) = seen.frame(depth) {
            ample(rt, frames.push(frame));
        }
    }
    frames
}

/// All operands.
fn operands_of<S: Seen>(rt: &(impl Abort + AllocGlobal), seen: &S) -> Vec<Option<ValType>> {
    let (count, _) = seen.heights();
    let mut operands = Vec::new(rt.alloc());
    for depth in 0..count {
        if let Some(operand) = seen.operand(depth) {
            ample(rt, operands.push(operand));
        }
    }
    operands
}

impl Snapshot {
    /// What can be seen now.
    pub fn of<S: Seen>(rt: &(impl Abort + AllocGlobal), seen: &S) -> Snapshot {
        Snapshot {
            frames: frames_of(rt, seen),
            operands: operands_of(rt, seen),
        }
    }

    /// Whether the operands are the same now.
    fn has_operands<S: Seen>(&self, seen: &S) -> bool {
        for depth in 0..self.operands.len() {
            if seen.operand(depth) != self.operands.get(depth).copied() {
                return false;
            }
        }
        true
    }

    /// Whether the frames are the same now.
    fn has_frames<S: Seen>(&self, seen: &S) -> bool {
        for depth in 0..self.frames.len() {
            if seen.frame(depth) != self.frames.get(depth).copied() {
                return false;
            }
        }
        true
    }

    /// Whether the same can be seen now. It takes no memory.
    pub fn is_of<S: Seen>(&self, seen: &S) -> bool {
        seen.heights() == (self.operands.len(), self.frames.len())
            && self.has_operands(seen)
            && self.has_frames(seen)
    }
}

/// Whether the heights of frames don't fall from the outer ones to the inner, nor pass the number of operands.
pub fn has_rising_heights<S: Seen>(seen: &S) -> bool {
    let (operands, frames) = seen.heights();
    let mut above = operands;
    for depth in 0..frames {
        let height = match seen.frame(depth) {
            Some(frame) => frame.height,
            None => usize::MAX,
        };
        if height > above {
            return false;
        }
        above = height;
    }
    true
}

/// What opened a frame, or which part of it is open.
fn kind_name(kind: FrameKind) -> &'static str {
    match kind {
        FrameKind::Block => "block",
        FrameKind::Loop => "loop",
        FrameKind::If => "if",
        FrameKind::Else => "else",
        FrameKind::TryTable => "try_table",
        FrameKind::LegacyTry => "legacy_try",
        FrameKind::LegacyCatch => "catch",
        FrameKind::LegacyCatchAll => "catch_all",
    }
}

/// Adds the types of the operands, the top last, `?` for one that isn't known.
fn add_operands<S: Seen>(text: &mut Written, seen: &S) {
    let (count, _) = seen.heights();
    for depth in (0..count).rev() {
        match seen.operand(depth).flatten() {
            Some(ty) => text.add(ty),
            None => text.add("?"),
        }
        if depth > 0 {
            text.add(" ");
        }
    }
}

/// Adds the innermost frame, `none` where none is open.
fn add_frame<S: Seen>(text: &mut Written, seen: &S) {
    match seen.frame(0) {
        Some(frame) => {
            text.add(if frame.unreachable { "dead " } else { "" });
            text.add(kind_name(frame.kind));
        }
        None => text.add("none"),
    }
}

/// Adds a line of what can be seen: how many operands and frames there are, the types of the operands, and the innermost
/// frame.
pub fn add_seen<S: Seen>(text: &mut Written, seen: &S) {
    let (operands, frames) = seen.heights();
    text.add(format_args!("{operands} {frames}; ["));
    add_operands(text, seen);
    text.add("]; ");
    add_frame(text, seen);
    text.add("\n");
}
