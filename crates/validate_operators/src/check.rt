//! The check of a whole list of operators.

ghost use Rattle.std.specs.Prelude.{◌≡◌, ◌<◌, ◌↔◌, [], true, length, IsTrue, IfOk, OnOk, IfErr, MatchResult, Some};
ghost use Rattle.std.specs.Vec.{vec_capacity, vec_len};
ghost use Rattle.validate_visit.specs.Order.{is_well_ordered_list};
ghost use Rattle.validate_stacks.specs.Pops.{IsKept};
ghost use Rattle.validate_stacks.specs.State.{IsStarting, IsValidBody};
ghost use Rattle.validate_operators.specs.Runs.{without_offsets, body_before, AreHeightsAfter, IsRefusedAt, IsSafe};
ghost use Rattle.validate_operators.specs.Validator.{state};

use crate::validator::OperatorValidator;
use validate_resources::WasmModuleResources;
use validate_types::Error;
use validate_visit::Op;

/// Visits the operators in order, and notes both heights after each one that is accepted: how many
/// operands there are, and how many open frames.
///
/// `Ok(true)`: all were accepted, and the outermost frame is closed. Then no run of the body gets
/// stuck, and what it returns fits the results. `Ok(false)`: all were accepted, and a frame is open.
/// `Err((k, refusal))`: operator `k`, counted from 0, was refused, or no memory was found at it;
/// `heights` has `k` entries then.
///
/// Conditions: the validator is in a starting state for this lookup, the list is well ordered
/// ([`validate_visit::is_well_ordered`]), and `heights` is empty.
pub fn check_ops<R: WasmModuleResources>(
    v: &mut OperatorValidator,
    ops: &[(Op, u64)],
    resources: &R,
    heights: &mut Vec<(usize, usize)>,
) -> Result<bool, (usize, Error)>
    requires starting { IsStarting (R.context resources.now) (state v.old) }
    requires ordered { is_well_ordered_list (without_offsets ops.now) ≡ true }
    requires empty { heights.old.items ≡ [] }

    // All rows hold where it answers Ok, and the validator is in the last state of the run.
    ensures rows { OnOk result (body_before (R.context resources.now) (state v.old) ops.now
        (length ops.now) ≡ Some (state v.new).present) }
    ensures closed { IfOk result (λ closed. IsTrue closed ↔ ((state v.new).present.frames ≡ [])) }
    ensures refused { IfErr result (λ p. IsRefusedAt (R.context resources.now) (state v.old) ops.now p.0
        p.1) }
    ensures heights { MatchResult result (λ _. AreHeightsAfter (R.context resources.now) (state v.old)
        ops.now (length ops.now) heights.new.items)
        (λ p. AreHeightsAfter (R.context resources.now) (state v.old) ops.now p.0 heights.new.items) }

    // Where it answers that the outermost frame is closed, the list is type safe.
    ensures safe { IfOk result (λ closed. closed ≡ true
        → IsSafe (R.context resources.now) (state v.old) ops.now) }

    // Whatever it answers, the types stay valid, and nothing but operands and frames changes.
    ensures valid { IsValidBody (R.context resources.now) (state v.new) }
    ensures kept { IsKept (state v.old) (state v.new) }
{
    for (index, pair) in ops.iter().enumerate() {
        let (op, offset) = pair;
        if !has_room(heights) {
            return Err((index, Error::out_of_memory(*offset)));
        }
        if !v.passes_at_once(resources, op) {
            match v.check_slowly(resources, *offset, op) {
                Ok(()) => {}
                Err(refusal) => return Err((index, refusal)),
            }
        }
        let noted = (v.operand_stack_height(), v.control_stack_height());
        heights.push_reserved(noted);
    }
    Ok(is_closed(v))
}

/// Whether the outermost frame is closed.
#[inline(always)]
fn is_closed(v: &OperatorValidator) -> bool
    ensures { IsTrue result ↔ ((state v.now).present.frames ≡ []) }
{
    v.control_stack_height() == 0
}

/// Whether there is room for one more pair of heights, which it asks for where there is none.
#[inline(always)]
fn has_room(heights: &mut Vec<(usize, usize)>) -> bool
    ensures room { result ≡ true → vec_len heights.new < vec_capacity heights.new }
    ensures items { heights.new.items ≡ heights.old.items }
{
    heights.len() < heights.capacity() || heights.reserve(1).is_ok()
}
