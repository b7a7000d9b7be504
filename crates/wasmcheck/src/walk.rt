//! A body that is walked through once more, operator by operator, to show what lies on its stacks.

ghost use Rattle.std.specs.Prelude.{◌≡◌, None, OnOk};
ghost use Rattle.validate_resources.specs.Kept.{declared_lists};
ghost use Rattle.validate_resources.specs.Lists.{context_of};
ghost use Rattle.validate_operators.specs.Validator.{state};
ghost use Rattle.validate_stacks.specs.State.{IsStarting, IsValidBody};

use crate::given::given_by;
use crate::listing::{Listing, ShownOperator};
use crate::operators::{Code, name_at};
use crate::origins::Origins;
use module_check::{CheckError, CodeReader, OperatorLists, ReadError, Verdict};
use std::alloc::Global;
use validate_operators::OperatorValidator;
use validate_resources::ModuleLists;
use validate_types::{Error, OutOfMemory, WasmFeatures};
use validate_visit::{BodyKind, Frame};

/// Why a walk ends.
#[derive(Clone, Copy)]
pub enum Stop {
    /// What comes next can't be read, or isn't accepted.
    Refusal,
    /// Memory ran out.
    OutOfMemory,
}

impl Stop {
    /// It ends for what a verdict says.
    fn of_verdict(verdict: Verdict) -> Stop {
        match verdict {
            Verdict::OutOfMemory => Stop::OutOfMemory,
            _ => Stop::Refusal,
        }
    }
}

impl From<CheckError> for Stop {
    fn from(error: CheckError) -> Stop {
        Stop::of_verdict(Verdict::of_check(Err(error)))
    }
}

impl From<ReadError> for Stop {
    fn from(error: ReadError) -> Stop {
        Stop::of_verdict(Verdict::of_read_error(error))
    }
}

impl From<Error> for Stop {
    fn from(error: Error) -> Stop {
        Stop::of_verdict(Verdict::of_error(error))
    }
}

impl From<OutOfMemory> for Stop {
    fn from(_error: OutOfMemory) -> Stop {
        Stop::OutOfMemory
    }
}

/// What a walk has beside the validator.
#[derive(Drop)]
pub struct Walk<'w> {
    /// By what memory is taken.
    pub alloc: Global,
    /// The module's bytes.
    pub bytes: &'w [u8],
    /// Where it ends.
    pub end: u64,
    /// Where the operands come from.
    pub origins: Origins,
    /// Where the operators are written.
    pub listing: Listing<'w>,
}

impl Walk<'_> {
    /// Notes and writes an operator that was accepted.
    fn note(
        &mut self,
        v: &OperatorValidator,
        resources: &ModuleLists,
        shown: ShownOperator<'_, '_>,
        before: Frame,
    ) -> Result<(), Stop> {
        self.origins
            .note(v, given_by(resources, shown.op), before, shown.offset)?;
        self.listing.add_operator(shown, v);
        Ok(())
    }
}

/// Begins the body that this code is of in a validator that is new, with its locals.
pub fn begin(
    v: &mut OperatorValidator,
    resources: &ModuleLists,
    features: &WasmFeatures,
    code: &mut Code<'_>,
) -> Result<(), Stop>
    ensures { OnOk result (IsStarting (context_of (declared_lists resources.now)) (state v.new)) }
{
    v.start_body(resources, features, code.kind, code.reader.offset())?;
    if let BodyKind::Function(_) = code.kind {
        code.reader.define_locals(v, resources)?;
    }
    Ok(())
}

/// Reads an operator, and checks it.
fn step(
    v: &mut OperatorValidator,
    resources: &ModuleLists,
    code: &mut CodeReader<'_>,
    lists: &mut OperatorLists,
    walk: &mut Walk<'_>,
) -> Result<(), Stop>
    requires valid { IsValidBody (context_of (declared_lists resources.now)) (state v.old) }
    requires idle { (state v.old).undone ≡ None }
    ensures valid { IsValidBody (context_of (declared_lists resources.now)) (state v.new) }
    ensures idle { (state v.new).undone ≡ None }
{
    let offset = code.offset();
    let before = match v.get_frame(0) {
        Some(frame) => *frame,
        None => return Err(Stop::Refusal),
    };
    match code.read_operator(lists) {
        Ok(op) => {
            v.check_ref(resources, offset, &op)?;
            let shown = ShownOperator {
                offset,
                name: name_at(walk.bytes, offset).unwrap_or("?"),
                op: &op,
            };
            walk.note(v, resources, shown, before)
        }
        Err(error) => Err(Stop::from(error)),
    }
}

/// Walks through operators, up to the end of the walk or of the code, or to one that isn't accepted.
pub fn walk_through(
    v: &mut OperatorValidator,
    resources: &ModuleLists,
    code: &mut CodeReader<'_>,
    walk: &mut Walk<'_>,
) -> Result<(), Stop>
    requires { IsStarting (context_of (declared_lists resources.now)) (state v.old) }
{
    let mut lists = OperatorLists::new(walk.alloc);
    for _ in 0..code.bytes_left() {
        if code.is_at_end() || code.offset() >= walk.end {
            break;
        }
        step(v, resources, code, &mut lists, walk)?;
    }
    Ok(())
}
