//! The call of C that begins the body of a module's function, and those of names.

ghost use Rattle.std.specs.Prelude.{◌≡◌, ◌≢◌, ◌≤◌, ◌⊎◌, ◌↔◌, true, false, length, None, IfOk, IfErr, IfSome};
ghost use Rattle.module_check.specs.Begin.{DefinesRead};
ghost use Rattle.module_check.specs.Loaded.{declared};
ghost use Rattle.module_check.specs.Refusals.{IsVector};
ghost use Rattle.module_check.specs.Verdicts.{IsConsistent, IsCovered};
ghost use Rattle.module_check.specs.declared.verdict.Verdict.TheVariants.{Accepted};
ghost use Rattle.c_api.specs.Calls.{OnHeld, OnWhole, HasNoBody, HasNoModule};
ghost use Rattle.c_api.specs.FunctionCalls.{OnFunction};
ghost use Rattle.c_api.specs.Bodies.{IsBodyBegun, StartsBody, StartsWithLocals};
ghost use Rattle.c_api.specs.Modules.{context_in, module_of};
ghost use Rattle.validate_operators.specs.Validator.{state};
ghost use Rattle.wasmparser_validate.specs.Functions.{function_from};
ghost use Rattle.validate_resources.specs.Kept.{declared_lists};
ghost use Rattle.validate_resources.specs.Lists.{context_of};
ghost use Rattle.validate_stacks.specs.State.{IsStarting};

use crate::calls::{has_own_body, keep, report_no_body, status_of};
use crate::found::{Found, found_in};
use crate::function::FunctionInProgress;
use crate::function_calls::share_of;
use crate::handle::Handle;
use crate::kept::Kept;
use crate::shared::{HeldModule, SharedModule};
use module_check::{
    CheckError, CodeReader, Item, LoadedModule, ModuleVerdict, OUT_OF_MEMORY, Verdict,
    operator_name as name_of, write_text,
};
use std::alloc::Global;
use validate_operators::OperatorValidator;
use validate_resources::ModuleLists;
use validate_stacks::OperatorValidatorAllocations;
use validate_types::Error;

/// Begins the validator of code of a function of the type at this index, with the locals that the code begins with.
fn start_with_locals(
    alloc: Global,
    loaded: &LoadedModule<'_>,
    ty: u32,
    code: &mut CodeReader<'_>,
) -> Result<OperatorValidator, CheckError>
    ensures starting { IfOk result (λ v. IsStarting (declared loaded.now) (state v)) }
    ensures locals { IfOk result (λ v. StartsWithLocals loaded.now ty code.old.types code.old.reader.left
        code.new.reader.left (state v)) }
    ensures covered { IfErr result (λ e. ¬ IsVector e) }
{
    let features = loaded.features().operator_features();
    let resources = loaded.resources();
    let buffers = OperatorValidatorAllocations::new(alloc);
    match OperatorValidator::new_func(ty, code.offset(), &features, resources, buffers) {
        Ok(v) => with_locals(resources, code, v),
        Err(refusal) => Err(CheckError::Refused(refusal)),
    }
}

/// Reads the locals that a body begins with, and defines them in its validator, which it hands back.
fn with_locals(
    resources: &ModuleLists,
    code: &mut CodeReader<'_>,
    mut v: OperatorValidator,
) -> Result<OperatorValidator, CheckError>
    requires { IsStarting (context_of (declared_lists resources.now)) (state v) }
    ensures starting { IfOk result (λ w. IsStarting (context_of (declared_lists resources.now)) (state w)) }
    ensures defined { IfOk result (λ w. DefinesRead (context_of (declared_lists resources.now)) code.old.types
        code.old.reader.left code.new.reader.left (state v) (state w)) }
    ensures covered { IfErr result (λ e. ¬ IsVector e) }
{
    match code.define_locals(&mut v, resources) {
        Ok(()) => Ok(v),
        Err(error) => {
            drop(v);
            Err(error)
        }
    }
}

/// A body that starts, with its locals, and where its operators stand.
#[derive(Drop)]
struct BodyStart {
    validator: OperatorValidator,
    first: u64,
    behind: u64,
}

/// Begins the body of the function at this index.
fn start_body(alloc: Global, loaded: &LoadedModule<'_>, function: u32) -> Result<BodyStart, Verdict>
    ensures starting { IfOk result (λ b. IsStarting (declared loaded.now) (state b.validator)) }
    ensures begun { IfOk result (λ b. StartsBody loaded.now function b.first b.behind (state b.validator)) }
    ensures refused { IfErr result (λ verdict. verdict ≢ Accepted) }
    ensures covered { IfErr result IsCovered }
{
    let (Some(mut code), Some(ty)) = (loaded.code_of(function), loaded.type_of(function)) else {
        return Err(Verdict::Refused(Error::new(
            "unknown function: function index out of bounds",
            0,
        )));
    };
    let behind = code.offset().saturating_add(code.bytes_left() as u64);
    match start_with_locals(alloc, loaded, ty, &mut code) {
        Ok(validator) => Ok(BodyStart {
            validator,
            first: behind.saturating_sub(code.bytes_left() as u64),
            behind,
        }),
        Err(error) => Err(Verdict::of_check(Err(error))),
    }
}

/// The same of a module that is held.
fn start_held(alloc: Global, held: &HeldModule, function: u32) -> Result<BodyStart, Verdict>
    ensures starting { IfOk result (λ b. IsStarting (context_in held.now) (state b.validator)) }
    ensures begun { IfOk result (λ b. OnWhole held.now (λ m.
        StartsBody m function b.first b.behind (state b.validator))) }
    ensures refused { IfErr result (λ verdict. verdict ≢ Accepted) }
    ensures covered { IfErr result IsCovered }
{
    match held {
        HeldModule::Whole(loaded) => start_body(alloc, loaded, function),
        HeldModule::Declared(_) => Err(Verdict::Refused(Error::new("the module has no bodies", 0))),
    }
}

/// Whether a module has a body for the function at this index.
fn has_body(held: &HeldModule, function: u32) -> bool
    ensures { result ≡ false ↔ HasNoBody held.now function }
{
    match held {
        HeldModule::Whole(loaded) => has_own_body(loaded, function),
        HeldModule::Declared(_) => false,
    }
}

/// The function over a share of a module whose body starts so, in a handle, if there is memory for it; else the handle
/// stays as it was.
fn keep_start(
    alloc: Global,
    shared: SharedModule,
    validator: OperatorValidator,
    function: &mut Handle,
) -> bool
    requires { IsStarting (context_in (module_of «shared»)) (state validator) }
    ensures kept { result ≡ true → OnFunction function.new.held (λ f. f ≡ function_from «shared» (state validator)) }
    ensures unchanged { result ≡ false → function.new.held ≡ function.old.held }
{
    let begun = FunctionInProgress::of_start(alloc, shared, validator);
    keep(alloc, Kept::Function(begun), function)
}

/// Where the operators of a body stand in the bytes of its module.
#[derive(Clone, Copy)]
struct BodyPlace {
    first: u64,
    behind: u64,
}

/// Puts the function over a share of a module whose body starts so into a handle, and answers where its operators stand;
/// or notes that there is no memory for that: then the handle stays as it was.
fn keep_body(
    alloc: Global,
    shared: SharedModule,
    start: BodyStart,
    item: Option<Item>,
    function: &mut Handle,
    text: &mut [u8],
    out: &mut ModuleVerdict,
) -> Option<BodyPlace>
    requires starting { IsStarting (context_in (module_of «shared»)) (state start.validator) }
    requires consistent { IsConsistent (length text.old) out.old }
    requires first { out.old.status ≡ 0 }
    ensures consistent { IsConsistent (length text.new) out.new }
    ensures kept { IfSome result (λ p. (out.new.status ≡ 0) × (p.first ≡ start.first) × (p.behind ≡ start.behind)
        × OnFunction function.new.held (λ f. f ≡ function_from «shared» (state start.validator))) }
    ensures missing { result ≡ None → (out.new.status ≡ 3) × (function.new.held ≡ function.old.held) }
    ensures known { (out.new.status ≡ 0) ⊎ (out.new.status ≡ 3) }
{
    let BodyStart {
        validator,
        first,
        behind,
    } = start;
    if keep_start(alloc, shared, validator, function) {
        return Some(BodyPlace { first, behind });
    }
    out.report(OUT_OF_MEMORY, item, 0, "out of memory", text);
    None
}

/// Begins the function at this index over a share of a module, if that has a body for it which begins, and answers where
/// its operators stand; else it notes why not, and the handle stays as it was.
fn begin_shared(
    alloc: Global,
    shared: SharedModule,
    index: u32,
    function: &mut Handle,
    text: &mut [u8],
    out: &mut ModuleVerdict,
) -> Option<BodyPlace>
    requires consistent { IsConsistent (length text.old) out.old }
    requires first { out.old.status ≡ 0 }
    ensures consistent { IsConsistent (length text.new) out.new }
    ensures begun { IfSome result (λ p. (out.new.status ≡ 0) × OnWhole (module_of «shared») (λ m.
        OnFunction function.new.held (IsBodyBegun m index p.first p.behind))) }
    ensures missing { result ≡ None → (out.new.status ≢ 0) × (function.new.held ≡ function.old.held) }
    ensures covered { out.new.status ≢ 4 }
    ensures no_body { out.new.status ≡ 5 ↔ HasNoBody (module_of «shared») index }
    ensures known { out.new.status ≤ 5 }
{
    let item = Some(Item::Function(index));
    if !has_body(&shared.held, index) {
        report_no_body(item, text, out);
        return None;
    }
    match start_held(alloc, &shared.held, index) {
        Ok(start) => keep_body(alloc, shared, start, item, function, text, out),
        Err(verdict) => {
            out.note(&verdict, item, text);
            drop(verdict);
            None
        }
    }
}

/// Begins the function at this index, with the locals that its body declares, over the module of a handle. Where the
/// status is 0, the second handle has it, and its operators stand in the module's bytes from the offset `first` up to the
/// offset `behind`; else the handle and the offsets stay as they were.
pub fn begin_body(
    alloc: Global,
    module: &mut Handle,
    index: u32,
    function: &mut Handle,
    first: &mut u64,
    behind: &mut u64,
    text: &mut [u8],
    out: &mut ModuleVerdict,
) -> u32
    ensures status { result ≡ out.new.status }
    ensures consistent { IsConsistent (length text.new) out.new }
    ensures begun { result ≡ 0 → OnHeld «module».old.held (λ h. OnWhole h (λ m.
        OnFunction function.new.held (IsBodyBegun m index first.new behind.new))) }
    ensures unchanged { result ≢ 0 → function.new.held ≡ function.old.held }
    ensures covered { result ≢ 4 }
    ensures missing { result ≡ 5 → OnHeld «module».old.held (λ h. HasNoBody h index) }
    ensures none { result ≡ 6 ↔ HasNoModule «module».old.held }
    ensures known { result ≤ 6 }
    ensures kept { «module».new.held ≡ «module».old.held }
{
    let Some(shared) = share_of(alloc, module, text, out) else {
        return status_of(out);
    };
    let Some(place) = begin_shared(alloc, shared, index, function, text, out) else {
        return status_of(out);
    };
    *first = place.first;
    *behind = place.behind;
    status_of(out)
}

/// Writes a name, as much as there is room for, and answers its whole length: 0 where there is none.
fn write_name(name: Option<&str>, text: &mut [u8]) -> usize {
    match name {
        Some(name) => {
            let _written = write_text(name.as_bytes(), text);
            name.len()
        }
        None => 0,
    }
}

/// The name of the operator that the bytes begin with, as far as its code tells.
pub fn operator_name(bytes: &[u8], text: &mut [u8]) -> usize {
    write_name(name_of(bytes), text)
}

/// Writes the name of a function of a module.
fn write_function_name(
    alloc: Global,
    loaded: &LoadedModule<'_>,
    function: u32,
    text: &mut [u8],
) -> usize {
    match loaded.names(alloc) {
        Ok(names) => write_name(names.of(function), text),
        Err(_) => 0,
    }
}

/// The same of what was taken out of a handle.
fn write_kept_name(
    alloc: Global,
    kept: &Option<Box<Kept>>,
    function: u32,
    text: &mut [u8],
) -> usize {
    match found_in(kept) {
        Found::Bodies(loaded) => write_function_name(alloc, loaded, function, text),
        Found::NoBodies | Found::NoModule => 0,
    }
}

/// The name of the function at this index in the module's name section, or none where there is no memory to read it.
pub fn function_name(alloc: Global, handle: &mut Handle, function: u32, text: &mut [u8]) -> usize
    ensures { handle.new.held ≡ handle.old.held }
{
    let kept = handle.take(alloc);
    let length = write_kept_name(alloc, &kept, function, text);
    handle.put_back(alloc, kept);
    length
}
