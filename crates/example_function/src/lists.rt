//! Expressions that are checked as whole lists: each gives one i32, and reads a variable of the instance.

ghost use Rattle.wasmparser_validate.specs.State.{IsStarting};
ghost use Rattle.wasmparser_validate.specs.Validator.{state};

use std::alloc::Global;
use std::io;
use wasmparser_validate::operators::{OperatorValidator, OperatorValidatorAllocations, check_ops};
use wasmparser_validate::resources::WasmModuleResources;
use wasmparser_validate::types::{Error, Flags, WasmFeatures};
use wasmparser_validate::visit::{ControlOp, Op, is_well_ordered};

/// Checks a list whole by a validator whose body starts: `Ok(true)` where it is accepted and closed, `Ok(false)` where it
/// is accepted and a frame is open.
fn check_list<R: WasmModuleResources>(
    alloc: Global,
    v: &mut OperatorValidator,
    resources: &R,
    ops: &[(Op<'_>, u64)],
) -> Result<bool, Error>
    requires { IsStarting (R.context resources.now) (state v.old) }
{
    if !is_well_ordered(ops) {
        return Err(Error::new("no body has these operators", 0));
    }
    let mut heights = Vec::new(alloc);
    match check_ops(v, ops, resources, &mut heights) {
        Ok(closed) => Ok(closed),
        Err((_, refusal)) => Err(refusal),
    }
}

/// Checks a list whole, as the body of a function of type 0.
fn check_body<R: WasmModuleResources>(
    alloc: Global,
    resources: &R,
    ops: &[(Op<'_>, u64)],
) -> Result<bool, Error> {
    let buffers = OperatorValidatorAllocations::new(alloc);
    let mut v = OperatorValidator::new_func(0, 0, &WasmFeatures::all(), resources, buffers)?;
    check_list(alloc, &mut v, resources, ops)
}

/// Checks the expression that reads this variable, and prints what it comes to.
fn print_expression<R: WasmModuleResources>(
    rt: &HostRuntime,
    resources: &R,
    variable: u32,
) -> io::Result<()> {
    let expression = [
        (Op::Control(ControlOp::GlobalGet(variable)), 0),
        (Op::Control(ControlOp::End), 2),
    ];
    match check_body(rt.alloc(), resources, &expression) {
        Ok(closed) => println!(rt; "global.get {variable}: accepted, closed: {closed}"),
        Err(refusal) => println!(rt; "global.get {variable}: {refusal}"),
    }
}

/// Checks the expression over the first variables, the last of which isn't there.
pub fn print_expressions<R: WasmModuleResources>(
    rt: &HostRuntime,
    resources: &R,
) -> io::Result<()> {
    for variable in [0, 1, 2] {
        print_expression(rt, resources, variable)?;
    }
    Ok(())
}
