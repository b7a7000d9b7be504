//! The types of the operands between operators.

ghost use Rattle.std.specs.Prelude.{◌≡◌, ◌≤◌, ◌<◌, true, Some, length, OnOk, IfOk, IfErr};
ghost use Rattle.validate_visit.specs.Order.{is_well_ordered_list};
ghost use Rattle.validate_visit.specs.declared.frame.BlockType.{BlockType};
ghost use Rattle.validation_rules.specs.Static.{start, operand_count};
ghost use Rattle.validate_stacks.specs.Pops.{IsKept};
ghost use Rattle.validate_stacks.specs.State.{IsStarting, IsValidBody};
ghost use Rattle.validate_stacks.specs.Steps.{type_at_depth};
ghost use Rattle.validate_operators.specs.Runs.{without_offsets, body_before, IsAcceptedBody, IsRefusedAt};
ghost use Rattle.validate_operators.specs.Validator.{state};
ghost use Rattle.wasmparser_validate.specs.Operands.{types_in, types_before, AreTypesOfRuns};

use std::alloc::Global;
use validate_operators::OperatorValidator;
use validate_resources::WasmModuleResources;
use validate_types::{Error, OutOfMemory, ValType};
use validate_visit::Op;

/// The types of the operands before operator `k`, counted from 0, the lowest first; None for one whose
/// type isn't known. It visits the operators before that one.
///
/// Where the whole list is accepted up to the outermost `end`, every run that stands before operator `k`
/// holds as many operands, in order, each below the known type in its place.
///
/// It refuses as [`validate_operators::check_ops`] does, with the place of the refused operator. If there is no memory
/// for the answer, it answers `k` and an error at the offset of operator `k`, or at 0 if there is no such operator.
///
/// Conditions: those of [`validate_operators::check_ops`] on the validator and the list, and that the list has at least
/// `k` operators.
pub fn operands_before<R: WasmModuleResources>(
    alloc: Global,
    v: &mut OperatorValidator,
    ops: &[(Op<'_>, u64)],
    resources: &R,
    k: usize,
) -> Result<Vec<Option<ValType>>, (usize, Error)>
    requires starting { IsStarting (R.context resources.now) (state v.old) }
    requires ordered { is_well_ordered_list (without_offsets ops.now) ≡ true }
    requires within { k ≤ length ops.now }

    // All rows before operator k hold where it answers Ok, and the validator is in the state before it.
    ensures rows { OnOk result (body_before (R.context resources.now) (state v.old) ops.now k
        ≡ Some (state v.new).present) }
    ensures types { IfOk result (λ types. types_before (R.context resources.now) (state v.old) ops.now k
        ≡ Some types.items) }
    ensures refused { IfErr result (λ p. p.0 < k → IsRefusedAt (R.context resources.now) (state v.old)
        ops.now p.0 p.1) }
    ensures memory { IfErr result (λ p. k ≤ p.0 → (p.0 ≡ k) × (p.1.wants_memory ≡ true)) }

    // Where the whole list is accepted, these are the types of what every run holds there.
    ensures below { IfOk result (λ types. (ty : BlockType) → (state v.old).present ≡ start ty
        → IsAcceptedBody (R.context resources.now) (state v.old) ops.now
        → AreTypesOfRuns (R.context resources.now) (state v.old) ops.now ty k types.items) }

    // Whatever it answers, the types stay valid, and nothing but operands and frames changes.
    ensures valid { IsValidBody (R.context resources.now) (state v.new) }
    ensures kept { IsKept (state v.old) (state v.new) }
{
    for index in 0..k {
        let (op, offset) = ops[index];
        match v.check(resources, offset, op) {
            Ok(()) => {}
            Err(refusal) => return Err((index, refusal)),
        }
    }
    match operand_types(alloc, v) {
        Ok(types) => Ok(types),
        Err(_) => Err((k, Error::out_of_memory(offset_at(ops, k)))),
    }
}

/// The offset of the operator at this place, or 0 behind the last one.
fn offset_at(ops: &[(Op<'_>, u64)], k: usize) -> u64 {
    match ops.get(k) {
        Some((_, offset)) => *offset,
        None => 0,
    }
}

/// The types of all operands, the lowest first; None for one whose type isn't known.
pub(crate) fn operand_types(
    alloc: Global,
    v: &OperatorValidator,
) -> Result<Vec<Option<ValType>>, OutOfMemory>
    ensures { IfOk result (λ types. types.items ≡ types_in (state v.now).present) }
{
    let height = v.operand_stack_height();
    let mut types = Vec::with_capacity(alloc, height)?;
    for depth in (0..height).rev() {
        types.push_reserved(operand_at(v, depth));
    }
    Ok(types)
}

/// The type of the operand at this depth, where one is; None where its type isn't known.
fn operand_at(v: &OperatorValidator, depth: usize) -> Option<ValType>
    requires { depth < operand_count (state v.now).present }
    ensures { type_at_depth (state v.now) depth ≡ Some result }
{
    match v.peek_operand_at(depth) {
        Some(ty) => ty,
        None => unreachable!(),
    }
}
