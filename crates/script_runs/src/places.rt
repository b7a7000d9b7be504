//! The types of operands that `operands_before` answers at a place of an accepted script.

ghost use Rattle.validate_operators.specs.Validator.{state};
ghost use Rattle.validate_stacks.specs.State.{IsStarting};

use crate::snapshot::add_type;
use crate::tally::Tally;
use std::alloc::{AllocError, Global};
use validate_operators::OperatorValidator;
use validate_resources::WasmModuleResources;
use validate_types::ValType;
use validate_visit::{Op, is_well_ordered};
use wasmparser_validate::func::operands_before;

/// Prints a line of these types, each behind a space.
fn add_types(tally: &mut Tally, types: &[Option<ValType>]) -> Result<(), AllocError> {
    for ty in types {
        add_type(&mut tally.printed, *ty)?;
    }
    tally.printed.push_str("\n")
}

/// Prints the types of the operands at a place of these operators.
pub fn add_operands<R: WasmModuleResources>(
    alloc: Global,
    tally: &mut Tally,
    v: &mut OperatorValidator,
    ops: &[(Op<'_>, u64)],
    resources: &R,
    at: (&str, usize),
) -> Result<(), AllocError>
    requires { IsStarting (R.context resources.now) (state v.old) }
{
    let (script, place) = at;
    if place > ops.len() || !is_well_ordered(ops) {
        return tally.refuse(script, "is out of order");
    }
    match operands_before(alloc, v, ops, resources, place) {
        Ok(types) => add_types(tally, &types),
        Err(_) => tally.refuse(script, "is refused before a place of its own"),
    }
}
