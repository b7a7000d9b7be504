//! The operators on control and variables that have one index, by their codes.

ghost use Rattle.std.specs.Prelude.{◌≡◌, Some, false, IfSome, option_map};
ghost use Rattle.binary_operators.specs.Codes.{at, index_ops};
ghost use Rattle.binary_operators.specs.Unplaced.{unplaced};
ghost use Rattle.validate_visit.specs.Order.{is_part_closer, nesting};
ghost use Rattle.validate_visit.specs.declared.op.Op.TheVariants.{Control};

use validate_visit::ControlOp;

/// The operator on control or variables of this code, with this index, if it is one of those that code is full of.
#[inline(always)]
#[tactic(auto, unfolding(binary_operators::specs::Codes::index_ops))]
pub(crate) fn indexed(code: u8, index: u32) -> Option<ControlOp<'static>>
    ensures made { IfSome result (λ op. option_map (λ make. make index) (at code index_ops)
        ≡ Some (unplaced (Control op))) }
    ensures closes_none { IfSome result (λ op. is_part_closer (nesting (Control op)) ≡ false) }
{
    let op = match code {
        0x0c => ControlOp::Br(index),
        0x0d => ControlOp::BrIf(index),
        0x10 => ControlOp::Call(index),
        0x20 => ControlOp::LocalGet(index),
        0x21 => ControlOp::LocalSet(index),
        0x22 => ControlOp::LocalTee(index),
        0x23 => ControlOp::GlobalGet(index),
        0x24 => ControlOp::GlobalSet(index),
        _ => return None,
    };
    Some(op)
}
