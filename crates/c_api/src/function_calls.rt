//! The calls of C on a function in progress.

ghost use Rattle.std.specs.Prelude.{◌≡◌, ◌≢◌, ◌⊎◌, ◌≤◌, ◌↔◌, false, [], length, None, Some, IfOk, IfErr, OnOk, OnErr, IfSome, MatchResult};
ghost use Rattle.module_check.specs.Verdicts.{IsConsistent, IsCovered, status_of as status_said};
ghost use Rattle.module_check.specs.declared.verdict.Verdict.TheVariants.{Accepted};
ghost use Rattle.c_api.specs.Calls.{OnHeld, HasNoModule};
ghost use Rattle.c_api.specs.FunctionCalls.{OnFunction, OfFunction, OfBoth, Becomes, HasNoFunction};
ghost use Rattle.c_api.specs.FunctionCalls.{OpAnswer, HandleAnswer, FinishAnswer};
ghost use Rattle.c_api.specs.Functions.{IsBegun, IsExpressionBegun, Takes, CannotTake};
ghost use Rattle.c_api.specs.Functions.{DefinesShown, IsWhole, IsUncoveredOperator};
ghost use Rattle.c_api.specs.Handle.{held_in};
ghost use Rattle.c_api.specs.Modules.{module_of};
ghost use Rattle.c_api.specs.declared.kept.Kept.TheVariants.{Function as AFunction};
ghost use Rattle.wasmparser_validate.specs.Functions.{Fails};
ghost use Rattle.validate_visit.specs.declared.body.BodyKind.TheVariants.{Function};

use crate::calls::{another, keep, report_no_module, status_of};
use crate::found::{function_in, module_in};
use crate::function::FunctionInProgress;
use crate::handle::Handle;
use crate::kept::Kept;
use crate::on_refusal::OnRefusal;
use crate::shared::SharedModule;
use crate::shown::ShownType;
use binary_operators::{Fault, ReadError};
use module_check::{ModuleVerdict, NOT_LOADED, OUT_OF_MEMORY, Verdict};
use std::alloc::Global;
use validate_visit::BodyKind;

/// Another share of the module that is kept, if there was memory for it. The verdict reports where there is none.
fn share_of_kept(
    kept: &Option<Box<Kept>>,
    text: &mut [u8],
    out: &mut ModuleVerdict,
) -> Option<SharedModule>
    requires consistent { IsConsistent (length text.old) out.old }
    requires first { out.old.status ≡ 0 }
    ensures consistent { IsConsistent (length text.new) out.new }
    ensures some { IfSome result (λ s. OnHeld (held_in kept.now) (λ h. module_of s ≡ h) × (out.new.status ≡ 0)) }
    ensures none { result ≡ None → (out.new.status ≡ 3) ⊎ (out.new.status ≡ 6) }
    ensures missing { out.new.status ≡ 6 ↔ HasNoModule (held_in kept.now) }
{
    match module_in(kept) {
        Some(shared) => {
            let second = another(shared);
            if second.is_none() {
                out.report(OUT_OF_MEMORY, None, 0, "out of memory", text);
            }
            second
        }
        None => {
            report_no_module(text, out);
            None
        }
    }
}

/// The same of the module of a handle, for a function. The verdict begins.
pub(crate) fn share_of(
    alloc: Global,
    handle: &mut Handle,
    text: &mut [u8],
    out: &mut ModuleVerdict,
) -> Option<SharedModule>
    ensures consistent { IsConsistent (length text.new) out.new }
    ensures some { IfSome result (λ s. OnHeld handle.old.held (λ h. module_of s ≡ h) × (out.new.status ≡ 0)) }
    ensures none { result ≡ None → (out.new.status ≡ 3) ⊎ (out.new.status ≡ 6) }
    ensures missing { out.new.status ≡ 6 ↔ HasNoModule handle.old.held }
    ensures kept { handle.new.held ≡ handle.old.held }
{
    *out = ModuleVerdict::new();
    let kept = handle.take(alloc);
    let second = share_of_kept(&kept, text, out);
    handle.put_back(alloc, kept);
    second
}

/// Puts a function that was begun into a handle, or notes why it wasn't, or that there was no memory for it; then the
/// handle stays as it was.
pub(crate) fn keep_begun(
    alloc: Global,
    begun: Result<FunctionInProgress, Verdict>,
    handle: &mut Handle,
    text: &mut [u8],
    out: &mut ModuleVerdict,
)
    requires consistent { IsConsistent (length text.old) out.old }
    requires first { out.old.status ≡ 0 }
    requires refused { IfErr begun (λ verdict. verdict ≢ Accepted) }
    ensures consistent { IsConsistent (length text.new) out.new }
    ensures begun { out.new.status ≡ 0
        → MatchResult begun (λ f. handle.new.held ≡ Some (AFunction f)) (λ _. ⊥) }
    ensures unchanged { out.new.status ≢ 0 → handle.new.held ≡ handle.old.held }
    ensures covered { IfErr begun IsCovered → out.new.status ≢ 4 }
    ensures known { out.new.status ≤ 4 }
{
    match begun {
        Ok(function) => {
            if !keep(alloc, Kept::Function(function), handle) {
                out.report(OUT_OF_MEMORY, None, 0, "out of memory", text);
            }
        }
        Err(verdict) => {
            out.note(&verdict, None, text);
            drop(verdict);
        }
    }
}

/// Begins a function of the type at this index over the module of a handle. Where the status is 0, the second handle has
/// it, and what that had before is freed; else it stays as it was.
pub fn begin(
    alloc: Global,
    module: &mut Handle,
    type_index: u32,
    function: &mut Handle,
    text: &mut [u8],
    out: &mut ModuleVerdict,
) -> u32
    ensures status { result ≡ out.new.status }
    ensures consistent { IsConsistent (length text.new) out.new }
    ensures begun { result ≡ 0 → OnHeld «module».old.held (λ h.
        OnFunction function.new.held (IsBegun h (Function type_index))) }
    ensures unchanged { result ≢ 0 → function.new.held ≡ function.old.held }
    ensures covered { result ≢ 4 }
    ensures none { result ≡ 6 ↔ HasNoModule «module».old.held }
    ensures known { (result ≤ 4) ⊎ (result ≡ 6) }
    ensures kept { «module».new.held ≡ «module».old.held }
{
    let Some(shared) = share_of(alloc, module, text, out) else {
        return status_of(out);
    };
    let begun = FunctionInProgress::begin(alloc, shared, BodyKind::Function(type_index));
    keep_begun(alloc, begun, function, text, out);
    status_of(out)
}

/// The verdict on a type that is shown and is none.
fn no_type(fault: Fault, offset: u64) -> Verdict
    ensures not_accepted { result ≢ Accepted }
    ensures covered { IsCovered result }
{
    Verdict::of_read_error(ReadError::malformed(fault, offset))
}

/// Begins a constant expression over a module, of the type that is handed in, if that is a value type.
fn begin_shown(
    alloc: Global,
    shared: SharedModule,
    shown: &ShownType,
) -> Result<FunctionInProgress, Verdict>
    ensures begun { IfOk result (IsExpressionBegun (module_of shared) shown.now) }
    ensures refused { IfErr result (λ verdict. verdict ≢ Accepted) }
    ensures covered { IfErr result IsCovered }
{
    match shown.value_type(shared.held.types()) {
        Ok(ty) => FunctionInProgress::begin(alloc, shared, BodyKind::Expression(ty)),
        Err(fault) => Err(no_type(fault, 0)),
    }
}

/// The same of a constant expression that gives a value of this type.
pub fn begin_expression(
    alloc: Global,
    module: &mut Handle,
    shown: &ShownType,
    function: &mut Handle,
    text: &mut [u8],
    out: &mut ModuleVerdict,
) -> u32
    ensures status { result ≡ out.new.status }
    ensures consistent { IsConsistent (length text.new) out.new }
    ensures begun { result ≡ 0 → OnHeld «module».old.held (λ h.
        OnFunction function.new.held (IsExpressionBegun h shown.now)) }
    ensures unchanged { result ≢ 0 → function.new.held ≡ function.old.held }
    ensures covered { result ≢ 4 }
    ensures none { result ≡ 6 ↔ HasNoModule «module».old.held }
    ensures known { (result ≤ 4) ⊎ (result ≡ 6) }
    ensures kept { «module».new.held ≡ «module».old.held }
{
    let Some(shared) = share_of(alloc, module, text, out) else {
        return status_of(out);
    };
    let begun = begin_shown(alloc, shared, shown);
    keep_begun(alloc, begun, function, text, out);
    status_of(out)
}

/// Reports that there is no function.
#[cold]
#[inline(never)]
fn report_no_function(text: &mut [u8], out: &mut ModuleVerdict)
    requires { IsConsistent (length text.old) out.old }
    ensures consistent { IsConsistent (length text.new) out.new }
    ensures status { out.new.status ≡ 6 }
{
    out.report(NOT_LOADED, None, 0, "there is no function", text);
}

/// Notes how many bytes were taken, or why none were.
fn note_taken(
    answer: Result<usize, Verdict>,
    taken: &mut usize,
    text: &mut [u8],
    out: &mut ModuleVerdict,
)
    requires consistent { IsConsistent (length text.old) out.old }
    requires first { out.old.status ≡ 0 }
    ensures consistent { IsConsistent (length text.new) out.new }
    ensures told { MatchResult answer (λ count. (out.new.status ≡ 0) × (taken.new ≡ count))
        (λ verdict. (out.new.status ≡ status_said verdict) × (taken.new ≡ taken.old)) }
{
    match answer {
        Ok(count) => *taken = count,
        Err(verdict) => {
            out.note(&verdict, None, text);
            drop(verdict);
        }
    }
}

/// Takes an operator that doesn't pass at once, or notes why it isn't accepted.
#[cold]
#[inline(never)]
fn op_slowly(
    alloc: Global,
    function: &mut FunctionInProgress,
    bytes: &[u8],
    offset: u64,
    on_refusal: OnRefusal,
    taken: &mut usize,
    text: &mut [u8],
    out: &mut ModuleVerdict,
)
    requires consistent { IsConsistent (length text.old) out.old }
    requires first { out.old.status ≡ 0 }
    requires none_taken { taken.old ≡ 0 }
    ensures consistent { IsConsistent (length text.new) out.new }
    ensures answer { OpAnswer on_refusal bytes.now offset taken.new out.new.status function.old function.new }
{
    let answer = function.op(alloc, bytes, offset, on_refusal);
    note_taken(answer, taken, text, out);
}

/// The same of one that may pass at once.
#[inline(always)]
#[tactic(auto, using(crate::proofs::Answered::took))]
fn op_of(
    alloc: Global,
    function: &mut FunctionInProgress,
    bytes: &[u8],
    offset: u64,
    on_refusal: OnRefusal,
    taken: &mut usize,
    text: &mut [u8],
    out: &mut ModuleVerdict,
)
    requires consistent { IsConsistent (length text.old) out.old }
    requires first { out.old.status ≡ 0 }
    requires none_taken { taken.old ≡ 0 }
    ensures consistent { IsConsistent (length text.new) out.new }
    ensures answer { OpAnswer on_refusal bytes.now offset taken.new out.new.status function.old function.new }
{
    match function.op_at_once(bytes, offset) {
        Some(count) => *taken = count,
        None => op_slowly(alloc, function, bytes, offset, on_refusal, taken, text, out),
    }
}

/// The same of what a handle keeps.
#[inline(always)]
fn op_of_kept(
    alloc: Global,
    kept: &mut Kept,
    bytes: &[u8],
    offset: u64,
    on_refusal: OnRefusal,
    taken: &mut usize,
    text: &mut [u8],
    out: &mut ModuleVerdict,
)
    requires consistent { IsConsistent (length text.old) out.old }
    requires first { out.old.status ≡ 0 }
    requires none_taken { taken.old ≡ 0 }
    ensures consistent { IsConsistent (length text.new) out.new }
    ensures answer { OfBoth (Some kept.old) (Some kept.new)
        (OpAnswer on_refusal bytes.now offset taken.new out.new.status) }
    ensures none { HasNoFunction (Some kept.old)
        → (out.new.status ≡ 6) × (kept.new ≡ kept.old) × (taken.new ≡ 0) }
{
    match kept {
        Kept::Function(function) => {
            op_of(alloc, function, bytes, offset, on_refusal, taken, text, out);
        }
        Kept::Module(_) => report_no_function(text, out),
    }
}

/// The same of a handle. The verdict begins.
#[inline(always)]
fn op_of_handle(
    alloc: Global,
    handle: &mut Handle,
    bytes: &[u8],
    offset: u64,
    on_refusal: OnRefusal,
    taken: &mut usize,
    text: &mut [u8],
    out: &mut ModuleVerdict,
) -> u32
    ensures status { result ≡ out.new.status }
    ensures consistent { IsConsistent (length text.new) out.new }
    ensures answer { HandleAnswer on_refusal bytes.now offset taken.new result
        handle.old.held handle.new.held }
{
    *out = ModuleVerdict::new();
    *taken = 0;
    let Some(mut kept) = handle.take(alloc) else {
        report_no_function(text, out);
        return status_of(out);
    };
    op_of_kept(
        alloc, &mut kept, bytes, offset, on_refusal, taken, text, out,
    );
    handle.fill(alloc, kept);
    status_of(out)
}

/// Takes the operator that the bytes begin with. Where the status is 0, it is accepted, and `taken` is how
/// many bytes it has; else that is 0. Where it is 1, 2 or 3, the function has failed; where it is 4 or 6,
/// nothing is changed. Where it is 4, the bytes begin with a vector operator, and its proposal is on.
pub fn op(
    alloc: Global,
    handle: &mut Handle,
    bytes: &[u8],
    offset: u64,
    taken: &mut usize,
    text: &mut [u8],
    out: &mut ModuleVerdict,
) -> u32
    ensures status { result ≡ out.new.status }
    ensures consistent { IsConsistent (length text.new) out.new }
    ensures accepted { result ≡ 0 → Becomes handle.old.held handle.new.held (Takes bytes.now offset taken.new) }
    ensures refused { (result ≡ 1) ⊎ (result ≡ 2) → OnFunction handle.old.held (CannotTake bytes.now) }
    ensures uncovered { result ≡ 4 → OnFunction handle.old.held (IsUncoveredOperator bytes.now) }
    ensures failed { (result ≡ 1) ⊎ (result ≡ 2) ⊎ (result ≡ 3)
        → Becomes handle.old.held handle.new.held Fails }
    ensures unchanged { (result ≡ 4) ⊎ (result ≡ 6) → handle.new.held ≡ handle.old.held }
    ensures none { result ≡ 6 ↔ HasNoFunction handle.old.held }
    ensures known { (result ≤ 4) ⊎ (result ≡ 6) }
    ensures taken { result ≢ 0 → taken.new ≡ 0 }
{
    op_of_handle(
        alloc,
        handle,
        bytes,
        offset,
        OnRefusal::Fail,
        taken,
        text,
        out,
    )
}

/// The same, but where the status isn't 0, nothing is changed.
pub fn try_op(
    alloc: Global,
    handle: &mut Handle,
    bytes: &[u8],
    offset: u64,
    taken: &mut usize,
    text: &mut [u8],
    out: &mut ModuleVerdict,
) -> u32
    ensures status { result ≡ out.new.status }
    ensures consistent { IsConsistent (length text.new) out.new }
    ensures accepted { result ≡ 0 → Becomes handle.old.held handle.new.held (Takes bytes.now offset taken.new) }
    ensures refused { (result ≡ 1) ⊎ (result ≡ 2) → OnFunction handle.old.held (CannotTake bytes.now) }
    ensures uncovered { result ≡ 4 → OnFunction handle.old.held (IsUncoveredOperator bytes.now) }
    ensures back { result ≢ 0 → handle.new.held ≡ handle.old.held }
    ensures none { result ≡ 6 ↔ HasNoFunction handle.old.held }
    ensures known { (result ≤ 4) ⊎ (result ≡ 6) }
    ensures taken { result ≢ 0 → taken.new ≡ 0 }
{
    op_of_handle(
        alloc,
        handle,
        bytes,
        offset,
        OnRefusal::LeaveNoTrace,
        taken,
        text,
        out,
    )
}

/// Notes what a call comes to.
fn note_done(answer: Result<(), Verdict>, text: &mut [u8], out: &mut ModuleVerdict)
    requires consistent { IsConsistent (length text.old) out.old }
    requires first { out.old.status ≡ 0 }
    ensures consistent { IsConsistent (length text.new) out.new }
    ensures told { MatchResult answer (λ _. out.new.status ≡ 0) (λ verdict. out.new.status ≡ status_said verdict) }
    ensures covered { IfErr answer IsCovered → out.new.status ≢ 4 }
    ensures known { out.new.status ≤ 4 }
{
    if let Err(verdict) = answer {
        out.note(&verdict, None, text);
        drop(verdict);
    }
}

/// Declares so many more locals of a type that is shown, if it is one.
fn define_shown(
    function: &mut FunctionInProgress,
    count: u32,
    shown: &ShownType,
    offset: u64,
) -> Result<(), Verdict>
    ensures defined { OnOk result (DefinesShown count shown.now function.old function.new) }
    ensures refused { IfErr result (λ verdict. verdict ≢ Accepted) }
    ensures covered { IfErr result IsCovered }
    ensures err { OnErr result (function.new ≡ function.old) }
{
    match shown.value_type(function.types()) {
        Ok(ty) => match function.define_locals(count, ty, offset) {
            Ok(()) => Ok(()),
            Err(refusal) => Err(Verdict::of_error(refusal)),
        },
        Err(fault) => Err(no_type(fault, offset)),
    }
}

/// The same of what a handle keeps, with what it comes to.
fn define_kept(
    kept: &mut Kept,
    count: u32,
    shown: &ShownType,
    offset: u64,
    text: &mut [u8],
    out: &mut ModuleVerdict,
)
    requires consistent { IsConsistent (length text.old) out.old }
    requires first { out.old.status ≡ 0 }
    ensures consistent { IsConsistent (length text.new) out.new }
    ensures defined { out.new.status ≡ 0
        → Becomes (Some kept.old) (Some kept.new) (DefinesShown count shown.now) }
    ensures unchanged { out.new.status ≢ 0 → kept.new ≡ kept.old }
    ensures covered { out.new.status ≢ 4 }
    ensures none { out.new.status ≡ 6 ↔ HasNoFunction (Some kept.old) }
    ensures known { (out.new.status ≤ 4) ⊎ (out.new.status ≡ 6) }
{
    match kept {
        Kept::Function(function) => {
            note_done(define_shown(function, count, shown, offset), text, out);
        }
        Kept::Module(_) => report_no_function(text, out),
    }
}

/// Declares so many more locals of this type. Where the status isn't 0, nothing is changed.
pub fn define_locals(
    alloc: Global,
    handle: &mut Handle,
    count: u32,
    shown: &ShownType,
    offset: u64,
    text: &mut [u8],
    out: &mut ModuleVerdict,
) -> u32
    ensures status { result ≡ out.new.status }
    ensures consistent { IsConsistent (length text.new) out.new }
    ensures defined { result ≡ 0 → Becomes handle.old.held handle.new.held (DefinesShown count shown.now) }
    ensures unchanged { result ≢ 0 → handle.new.held ≡ handle.old.held }
    ensures covered { result ≢ 4 }
    ensures none { result ≡ 6 ↔ HasNoFunction handle.old.held }
    ensures known { (result ≤ 4) ⊎ (result ≡ 6) }
{
    *out = ModuleVerdict::new();
    let Some(mut kept) = handle.take(alloc) else {
        report_no_function(text, out);
        return status_of(out);
    };
    define_kept(&mut kept, count, shown, offset, text, out);
    handle.fill(alloc, kept);
    status_of(out)
}

/// Whether a function is whole.
fn finished(function: &FunctionInProgress, offset: u64) -> Result<(), Verdict>
    ensures whole { OnOk result (IsWhole function.now) }
    ensures open { OnErr result (¬ ((function.now.failed ≡ false) × (function.now.present.frames ≡ []))) }
    ensures refused { IfErr result (λ verdict. verdict ≢ Accepted) }
    ensures covered { IfErr result IsCovered }
{
    match function.finish(offset) {
        Ok(()) => Ok(()),
        Err(refusal) => Err(Verdict::of_error(refusal)),
    }
}

/// The same of what was taken out of a handle, with what it comes to.
fn finish_kept(kept: &Option<Box<Kept>>, offset: u64, text: &mut [u8], out: &mut ModuleVerdict)
    requires consistent { IsConsistent (length text.old) out.old }
    requires first { out.old.status ≡ 0 }
    ensures consistent { IsConsistent (length text.new) out.new }
    ensures answer { FinishAnswer (held_in kept.now) out.new.status }
{
    match function_in(kept) {
        Some(function) => note_done(finished(function, offset), text, out),
        None => report_no_function(text, out),
    }
}

/// Whether the function is whole. Where the status is 0, the operators that were accepted are type safe from its start.
/// Where it is 1, it has failed, or a frame is open.
pub fn finish(
    alloc: Global,
    handle: &mut Handle,
    offset: u64,
    text: &mut [u8],
    out: &mut ModuleVerdict,
) -> u32
    ensures status { result ≡ out.new.status }
    ensures consistent { IsConsistent (length text.new) out.new }
    ensures whole { result ≡ 0 → OnFunction handle.old.held IsWhole }
    ensures open { result ≢ 0 → OfFunction handle.old.held (λ f. ¬ ((f.failed ≡ false) × (f.present.frames ≡ []))) }
    ensures covered { result ≢ 4 }
    ensures none { result ≡ 6 ↔ HasNoFunction handle.old.held }
    ensures known { (result ≤ 4) ⊎ (result ≡ 6) }
    ensures kept { handle.new.held ≡ handle.old.held }
{
    *out = ModuleVerdict::new();
    let kept = handle.take(alloc);
    finish_kept(&kept, offset, text, out);
    handle.put_back(alloc, kept);
    status_of(out)
}
