//! Where the operands of a body come from, and its open parts.

use crate::given::Given;
use std::alloc::Global;
use validate_operators::OperatorValidator;
use validate_types::OutOfMemory;
use validate_visit::Frame;

/// Which operator pushed each operand, and which began each open part.
#[derive(Drop)]
pub struct Origins {
    /// The offset of the operator that pushed it, the lowest operand first, where that is told.
    operands: Vec<Option<u64>>,
    /// The offset at which it begins, the outermost part first.
    parts: Vec<u64>,
}

/// What an operator left: so many operands lie there as before, and the others are of this origin.
#[derive(Clone, Copy)]
struct Left {
    kept: usize,
    origin: Option<u64>,
}

/// How many operands lie below those of the innermost part.
fn height_of(v: &OperatorValidator) -> usize {
    match v.get_frame(0) {
        Some(frame) => frame.height,
        None => 0,
    }
}

/// What an operator at this offset left, behind which the validator is: it gave so much, and the innermost part was this.
fn left_by(v: &OperatorValidator, given: Given, before: Frame, offset: u64) -> Left {
    let height = v.operand_stack_height();
    let origin = Some(offset);
    match given {
        Given::Operands(count) => Left {
            kept: height.saturating_sub(count),
            origin,
        },
        Given::Passed(count) if !before.unreachable => Left {
            kept: height.saturating_sub(count),
            origin,
        },
        Given::Opened | Given::Closed if !before.unreachable => Left {
            kept: height,
            origin,
        },
        Given::Opened => Left {
            kept: height_of(v),
            origin,
        },
        Given::Begun | Given::Closed => Left {
            kept: before.height,
            origin,
        },
        Given::Passed(_) | Given::Unknown => Left {
            kept: before.height,
            origin: None,
        },
    }
}

impl Origins {
    /// Those of a body that starts, at this offset.
    pub fn new(alloc: Global, offset: u64) -> Result<Origins, OutOfMemory> {
        let mut parts = Vec::new(alloc);
        parts.push(offset)?;
        Ok(Origins {
            operands: Vec::new(alloc),
            parts,
        })
    }

    /// Notes what an operator at this offset left, behind which the validator is: it gave so much, and the innermost part
    /// was this.
    pub fn note(
        &mut self,
        v: &OperatorValidator,
        given: Given,
        before: Frame,
        offset: u64,
    ) -> Result<(), OutOfMemory> {
        let left = left_by(v, given, before, offset);
        self.operands.truncate(left.kept);
        for _ in self.operands.len()..v.operand_stack_height() {
            self.operands.push(left.origin)?;
        }
        self.note_part(v.control_stack_height(), given, offset)
    }

    /// Notes that so many parts are open.
    fn note_part(&mut self, open: usize, given: Given, offset: u64) -> Result<(), OutOfMemory> {
        self.parts.truncate(open);
        if self.parts.len() < open {
            self.parts.push(offset)?;
        } else if let (Given::Begun, Some(part)) = (given, self.parts.last_mut()) {
            *part = offset;
        }
        Ok(())
    }

    /// The offset of the operator that pushed the operand at this depth, the top at 0, where that is told.
    pub fn of_operand(&self, depth: usize) -> Option<u64> {
        let place = self.operands.len().checked_sub(depth.saturating_add(1))?;
        match self.operands.get(place) {
            Some(origin) => *origin,
            None => None,
        }
    }

    /// The offset at which the part at this depth begins, the innermost at 0.
    pub fn of_part(&self, depth: usize) -> Option<u64> {
        let place = self.parts.len().checked_sub(depth.saturating_add(1))?;
        self.parts.get(place).copied()
    }
}
