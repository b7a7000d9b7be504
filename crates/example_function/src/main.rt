//! Checks the body `local.get N, i32.const 1, i32.add, end` of a function `[i32] -> [i32]` with one more
//! local, of type i64, operator by operator: it is accepted for local 0, and refused for local 1. Then it makes
//! a body: it tries one operator after the other, and prints those that are accepted. At last it checks
//! expressions, each as a whole list (`lists`).
//!
//! All of them are bodies over what an interpreter has in memory, by a lookup of its own (`instance`), whose
//! variables are the globals. Without variables, the `ModuleLists` that it is made of is a lookup too.
#![tactic(auto)]

mod instance;
mod lists;

ghost use Rattle.std.specs.Prelude.{◌≡◌, [], false};

use crate::instance::{Instance, Value, Variable};
use crate::lists::print_expressions;
use std::alloc::Global;
use std::io;
use wasmparser_validate::func::FuncValidator;
use wasmparser_validate::operators::{OperatorValidator, OperatorValidatorAllocations};
use wasmparser_validate::resources::{ModuleDeclarations, ModuleLists, WasmModuleResources};
use wasmparser_validate::types::{Error, Flags, FuncType, SubType, ValType, WasmFeatures};
use wasmparser_validate::visit::{ControlOp, IntegerBinaryOp, IntegerType, NumericOp, Op};

/// The type `[i32] -> [i32]`, or None where memory is wanting.
fn unary_type(alloc: Global) -> Option<SubType> {
    let params = vec![in alloc; ValType::I32].ok()?;
    let results = vec![in alloc; ValType::I32].ok()?;
    Some(SubType::func(FuncType::new(params, results), false))
}

/// A module that declares this one type, or None where memory is wanting.
fn declare(alloc: Global, ty: SubType) -> Option<ModuleLists> {
    let mut declarations = ModuleDeclarations::new(alloc);
    declarations.types.push(ty).ok()?;
    ModuleLists::from_declarations(alloc, declarations).ok()
}

/// An instance of that module, with a variable that holds an i32 and one that holds an i64. None where memory is
/// wanting.
fn instantiate(alloc: Global) -> Option<Instance<ModuleLists>> {
    let first = Variable::new(Value::I32(7));
    let second = Variable::new(Value::I64(9));
    let variables = vec![in alloc; first, second].ok()?;
    let declared = declare(alloc, unary_type(alloc)?)?;
    Some(Instance {
        declared,
        variables,
    })
}

const ADD: NumericOp = NumericOp::IntegerBinary(IntegerType::I32, IntegerBinaryOp::Add);

/// Visits one operator, where a frame is open.
fn visit<R: WasmModuleResources>(
    function: &mut FuncValidator<'static, '_, R>,
    offset: u64,
    op: Op<'static>,
) -> Result<(), Error> {
    if function.control_stack_height() == 0 {
        return Err(Error::new("operators remaining after end of function", offset));
    }
    function.op(offset, op)
}

/// Defines the local of type i64, visits the operators of the body, and asks whether it is whole.
fn visit_body<R: WasmModuleResources>(
    function: &mut FuncValidator<'static, '_, R>,
    local: u32,
) -> Result<(), Error>
    requires first { function.old.accepted ≡ [] }
    requires none_failed { function.old.failed ≡ false }
{
    function.define_locals(0, 1, ValType::I64)?;
    let ops = [
        (0, Op::Control(ControlOp::LocalGet(local))),
        (2, Op::Numeric(NumericOp::I32Const(1))),
        (4, Op::Numeric(ADD)),
        (5, Op::Control(ControlOp::End)),
    ];
    for (offset, op) in &ops {
        visit(function, *offset, *op)?;
    }
    function.finish(5)
}

/// Checks the body.
fn check<R: WasmModuleResources>(alloc: Global, resources: &R, local: u32) -> Result<(), Error> {
    let buffers = OperatorValidatorAllocations::new(alloc);
    let v = OperatorValidator::new_func(0, 0, &WasmFeatures::all(), resources, buffers)?;
    let mut function = FuncValidator::new(alloc, v, resources);
    visit_body(&mut function, local)
}

/// What is tried, in this order.
const WISHES: &[(&str, Op<'static>)] = &[
    ("i32.add", Op::Numeric(ADD)),
    ("local.get 0", Op::Control(ControlOp::LocalGet(0))),
    ("i32.const 1", Op::Numeric(NumericOp::I32Const(1))),
    ("end", Op::Control(ControlOp::End)),
    ("i32.add", Op::Numeric(ADD)),
    ("end", Op::Control(ControlOp::End)),
];

/// Attempts one operator, where a frame is open: whether it was accepted, and is kept.
fn attempt<R: WasmModuleResources>(
    function: &mut FuncValidator<'static, '_, R>,
    op: Op<'static>,
) -> bool {
    function.control_stack_height() > 0 && function.try_op(0, op).is_ok()
}

/// Tries each wish in turn, and prints those that are accepted. A refused one leaves no trace, so the next is tried
/// where that one was.
fn try_each<R: WasmModuleResources>(
    rt: &HostRuntime,
    function: &mut FuncValidator<'static, '_, R>,
) -> io::Result<()> {
    for wish in WISHES {
        let (name, op) = *wish;
        if attempt(function, op) {
            println!(rt; "{name}")?;
        }
    }
    Ok(())
}

/// Makes a body. Where there is no memory for a validator of it, nothing is accepted.
fn generate<R: WasmModuleResources>(rt: &HostRuntime, resources: &R) -> io::Result<()> {
    let buffers = OperatorValidatorAllocations::new(rt.alloc());
    match OperatorValidator::new_func(0, 0, &WasmFeatures::all(), resources, buffers) {
        Ok(v) => try_each(rt, &mut FuncValidator::new(rt.alloc(), v, resources)),
        Err(_) => Ok(()),
    }
}

/// Checks the body with each of its locals, and prints what it comes to.
fn print_checks<R: WasmModuleResources>(rt: &HostRuntime, resources: &R) -> io::Result<()> {
    for local in [0, 1] {
        match check(rt.alloc(), resources, local) {
            Ok(()) => println!(rt; "local.get {local}: accepted")?,
            Err(refusal) => println!(rt; "local.get {local}: {refusal}")?,
        }
    }
    Ok(())
}

/// Checks all that is to be checked, over this lookup.
fn print_all<R: WasmModuleResources>(rt: &HostRuntime, resources: &R) -> io::Result<()> {
    print_checks(rt, resources)?;
    generate(rt, resources)?;
    print_expressions(rt, resources)
}

fn main(rt: HostRuntime) -> io::Result<()> {
    let instance = instantiate(rt.alloc()).ok_or(io::ErrorKind::OutOfMemory)?;
    print_all(&rt, &instance)
}
