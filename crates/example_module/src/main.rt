//! Reads a binary module from standard input, and prints the body of the function that a word names by its index or its
//! name, or else of the first that isn't imported, operator by operator: where each begins, its name, and the types of the
//! operands behind it, the lowest first.
#![tactic(auto)]

ghost use Rattle.std.specs.Prelude.{◌≡◌, None, IfSome};
ghost use Rattle.wasmparser_validate.specs.Validator.{state};
ghost use Rattle.wasmparser_validate.specs.State.{IsStarting, IsValidBody};

use module_check::{
    BodyBuffers, CodeReader, LoadRefusal, LoadedModule, ModuleFeatures, OperatorLists, Verdict,
    operator_name,
};
use std::alloc::Global;
use std::io::Read;
use std::{env, io};
use wasmparser_validate::operators::{OperatorValidator, OperatorValidatorAllocations};
use wasmparser_validate::resources::WasmModuleResources;
use wasmparser_validate::types::WasmFeatures;

/// Prints where an operator of the module begins, and its name.
fn print_name(rt: &HostRuntime, bytes: &[u8], offset: u64) -> io::Result<()> {
    let behind = bytes.get(offset as usize..).unwrap_or(&[]);
    let name = operator_name(behind).unwrap_or("?");
    print!(rt; "{offset:#x} {name}:")
}

/// Prints the types of the operands, `?` for one that isn't known.
fn print_operands(rt: &HostRuntime, v: &OperatorValidator) -> io::Result<()> {
    for depth in (0..v.operand_stack_height()).rev() {
        match v.peek_operand_at(depth) {
            Some(Some(ty)) => print!(rt; " {ty}")?,
            _ => print!(rt; " ?")?,
        }
    }
    println!(rt; "")
}

/// A validator of the body of a function of this type, with the locals that its code begins with, or None where they are
/// refused.
fn start<R: WasmModuleResources>(
    alloc: Global,
    resources: &R,
    features: &WasmFeatures,
    ty: u32,
    code: &mut CodeReader<'_>,
) -> Option<OperatorValidator>
    ensures { IfSome result (λ v. IsStarting (R.context resources.now) (state v)) }
{
    let buffers = OperatorValidatorAllocations::new(alloc);
    let mut v = OperatorValidator::new_func(ty, code.offset(), features, resources, buffers).ok()?;
    match code.define_locals(&mut v, resources) {
        Ok(()) => Some(v),
        Err(_) => None,
    }
}

/// Reads an operator, and checks it: whether it is accepted.
fn step<R: WasmModuleResources>(
    v: &mut OperatorValidator,
    resources: &R,
    code: &mut CodeReader<'_>,
    lists: &mut OperatorLists,
) -> bool
    requires valid { IsValidBody (R.context resources.now) (state v.old) }
    requires idle { (state v.old).undone ≡ None }
    ensures valid { IsValidBody (R.context resources.now) (state v.new) }
    ensures idle { (state v.new).undone ≡ None }
{
    if v.control_stack_height() == 0 {
        return false;
    }
    let offset = code.offset();
    match code.read_operator(lists) {
        Ok(op) => v.check(resources, offset, op).is_ok(),
        Err(_) => false,
    }
}

/// Prints each operator up to the end of the code, or to one that isn't accepted.
fn print_operators<R: WasmModuleResources>(
    rt: &HostRuntime,
    v: &mut OperatorValidator,
    resources: &R,
    bytes: &[u8],
    code: &mut CodeReader<'_>,
) -> io::Result<()>
    requires { IsStarting (R.context resources.now) (state v.old) }
{
    let mut lists = OperatorLists::new(rt.alloc());
    for _ in 0..code.bytes_left() {
        let offset = code.offset();
        if code.is_at_end() || !step(v, resources, code, &mut lists) {
            break;
        }
        print_name(rt, bytes, offset)?;
        print_operands(rt, v)?;
    }
    Ok(())
}

/// Prints the operators of the body of a function, as far as they are accepted.
fn print_body(rt: &HostRuntime, module: &LoadedModule<'_>, function: u32) -> io::Result<()> {
    let (Some(mut code), Some(ty)) = (module.code_of(function), module.type_of(function)) else {
        return Ok(());
    };
    let features = module.features().operator_features();
    let resources = module.resources();
    match start(rt.alloc(), resources, &features, ty, &mut code) {
        Some(mut v) => print_operators(rt, &mut v, resources, module.bytes(), &mut code),
        None => Ok(()),
    }
}

/// What the body of a function comes to.
fn verdict_of(alloc: Global, module: &LoadedModule<'_>, function: u32) -> Verdict {
    module.check_function(function, &mut BodyBuffers::new(alloc))
}

/// Whether a word is the index or the name of a function.
fn is_named(word: &str, function: u32, name: Option<&str>) -> bool {
    match word.parse::<u32>() {
        Ok(index) => index == function,
        Err(_) => name == Some(word),
    }
}

/// The function that a word names, if the module has a body for it.
fn function_named(alloc: Global, module: &LoadedModule<'_>, word: &str) -> Option<u32> {
    let names = module.names(alloc).ok()?;
    for body in 0..module.body_count() {
        let function = module.function_of(body);
        if is_named(word, function, names.of(function)) {
            return Some(function);
        }
    }
    None
}

/// The function that the first word names, or the first one where there is no word.
fn wanted_function(rt: &HostRuntime, module: &LoadedModule<'_>) -> io::Result<Option<u32>> {
    let mut words = env::args(rt)?;
    let _program = words.next();
    Ok(match words.next() {
        Some(word) => function_named(rt.alloc(), module, word.as_str()),
        None => Some(module.function_of(0)),
    })
}

/// Prints the body of the function that is wanted, and what it comes to.
fn print_wanted(rt: &HostRuntime, module: &LoadedModule<'_>) -> io::Result<()> {
    match wanted_function(rt, module)? {
        Some(function) => {
            print_body(rt, module, function)?;
            print_verdict(rt, &verdict_of(rt.alloc(), module, function))
        }
        None => println!(rt; "the module has no such body"),
    }
}

/// Prints what a body or a module comes to.
fn print_verdict(rt: &HostRuntime, verdict: &Verdict) -> io::Result<()> {
    match verdict {
        Verdict::Accepted => println!(rt; "accepted"),
        Verdict::Refused(refusal) | Verdict::Malformed(refusal) => println!(rt; "{refusal}"),
        Verdict::NotCovered(offset) => println!(rt; "a vector operator (at offset {offset:#x})"),
        Verdict::OutOfMemory => println!(rt; "out of memory"),
    }
}

fn main(rt: HostRuntime) -> io::Result<()> {
    let mut bytes = Vec::new(rt.alloc());
    rt.reader().read_to_end(&mut bytes)?;
    match LoadedModule::new(rt.alloc(), &bytes, ModuleFeatures::DEFAULT) {
        Ok(module) => print_wanted(&rt, &module),
        Err(LoadRefusal::Judged(verdict)) => print_verdict(&rt, &verdict),
        Err(LoadRefusal::TooLarge(error)) => println!(rt; "{error}"),
    }
}
