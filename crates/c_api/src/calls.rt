//! The calls of C on a module.

ghost use Rattle.std.specs.Prelude.{◌≡◌, ◌≢◌, ◌⊎◌, ◌≤◌, ◌<◌, ◌-◌, ◌^◌, ◌↔◌, ℕ, length, min, true, false, None, Some, IsOk, IfOk, IfErr, OnOk, IfSome, MatchResult};
ghost use Rattle.binary_modules.specs.Modules.{IsNoModule};
ghost use Rattle.module_check.specs.EmptySections.{completed};
ghost use Rattle.module_check.specs.FaultyModule.{HasInvalid, HasMalformed, IsMalformedFunction, IsRefusedFunction};
ghost use Rattle.module_check.specs.Items.{item_count};
ghost use Rattle.module_check.specs.Decoded.{AreNoValidModule, AreTooLarge, AreValidModule, DeclareValid};
ghost use Rattle.module_check.specs.Loaded.{IsAcceptedFunction, IsAcceptedModule, IsSafeFunction, IsValid};
ghost use Rattle.module_check.specs.UncoveredModule.{AreUncovered, HasUncovered, HasVectorIn, IsUncoveredFunction};
ghost use Rattle.module_check.specs.Unloaded.{AreInvalid, AreMalformed, AreUnloaded};
ghost use Rattle.module_check.specs.Verdicts.{IsConsistent, Reports, SaysNo, total};
ghost use Rattle.module_check.specs.declared.load_refusal.LoadRefusal.TheVariants.{Judged, TooLarge};
ghost use Rattle.module_check.specs.declared.verdict.Item.TheVariants.{Function};
ghost use Rattle.module_check.specs.declared.verdict.Verdict.TheVariants.{Accepted, Refused, Malformed, NotCovered, OutOfMemory};
ghost use Rattle.module_rules.specs.Features.{of_bits};
ghost use Rattle.validate_types.specs.declared.error.Error.{Error};
ghost use Rattle.c_api.specs.Answers.{BodyAnswer, ModuleAnswer, NextAnswer};
ghost use Rattle.c_api.specs.Calls.{OnHeld, OfHeld, OnModule, OfModule, OnDeclared, HaveTheSame};
ghost use Rattle.c_api.specs.Calls.{IsLoadedFrom, AreDeclaredFrom};
ghost use Rattle.c_api.specs.Calls.{HasNoModule, HasNoBody, IsDeclared};
ghost use Rattle.c_api.specs.Handle.{held_in};
ghost use Rattle.c_api.specs.Items.{AreSafeFrom, IsReported};
ghost use Rattle.c_api.specs.Modules.{module_of, functions_in, imported_functions_in};
ghost use Rattle.c_api.specs.declared.shared.HeldModule.TheVariants.{Whole};

use crate::found::{Found, found_in, module_in};
use crate::handle::Handle;
use crate::items::check_from;
use crate::kept::Kept;
use crate::shared::{HeldModule, SharedModule};
use module_check::{
    BodyBuffers, Item, LoadRefusal, LoadedDeclarations, LoadedModule, ModuleFeatures,
    ModuleVerdict, NO_BODY, NOT_LOADED, OUT_OF_MEMORY, TOO_LARGE, VALID, check_module,
};
use std::alloc::Global;
use std::sync::Arc;

/// The status of a verdict.
pub(crate) fn status_of(verdict: &ModuleVerdict) -> u32
    ensures { result ≡ verdict.now.status }
{
    verdict.status
}

/// Reads a module, of which these are all the bytes, and checks that what it declares is valid under these proposals:
/// bits that stand for none say nothing.
fn read<'a>(alloc: Global, bytes: &'a [u8], features: u32) -> Result<LoadedModule<'a>, LoadRefusal>
    ensures loaded { IfOk result (IsLoadedFrom bytes.now features) }
    ensures valid { OnOk result (DeclareValid (of_bits features) bytes.now) }
    ensures complete { IfErr result (λ refusal. DeclareValid (of_bits features) bytes.now
        → refusal ≡ Judged OutOfMemory) }
    ensures refused { IfErr result (λ refusal. refusal ≢ Judged Accepted) }
    ensures uncovered { IfErr result (λ refusal. (offset : ℕ) → refusal ≡ Judged (NotCovered offset)
        → HasVectorIn (of_bits features) bytes.now) }
    ensures unread { IfErr result (λ refusal. (offset : ℕ) → refusal ≡ Judged (NotCovered offset)
        → IsNoModule bytes.now) }
    ensures malformed { IfErr result (λ refusal. (e : Error) → refusal ≡ Judged (Malformed e)
        → IsNoModule bytes.now) }
    ensures invalid { IfErr result (λ refusal. (e : Error) → refusal ≡ Judged (Refused e)
        → AreUnloaded (of_bits features) bytes.now) }
    ensures too_large { IfErr result (λ refusal. (e : Error) → refusal ≡ TooLarge e → AreTooLarge bytes.now) }
{
    LoadedModule::new(alloc, bytes, ModuleFeatures::of_bits(features))
}

/// Notes why a module isn't loaded.
fn note_refusal(refusal: &LoadRefusal, text: &mut [u8], out: &mut ModuleVerdict)
    requires consistent { IsConsistent (length text.old) out.old }
    requires refused { refusal.now ≢ Judged Accepted }
    ensures consistent { IsConsistent (length text.new) out.new }
    ensures refused { out.new.status ≢ 0 }
    ensures uncovered { out.new.status ≡ 4 → (out.old.status ≡ 4)
        ⊎ ((offset : ℕ) × (refusal.now ≡ Judged (NotCovered offset))) }
    ensures malformed { out.old.status ≡ 0 → out.new.status ≡ 2
        → (e : Error) × (refusal.now ≡ Judged (Malformed e)) }
    ensures invalid { out.old.status ≡ 0 → out.new.status ≡ 1
        → (e : Error) × (refusal.now ≡ Judged (Refused e)) }
    ensures too_large { out.old.status ≡ 0 → out.new.status ≡ 7 → (e : Error) × (refusal.now ≡ TooLarge e) }
    ensures known { out.old.status ≤ 4 → (out.new.status ≤ 4) ⊎ (out.new.status ≡ 7) }
{
    match refusal {
        LoadRefusal::Judged(verdict) => out.note(verdict, None, text),
        LoadRefusal::TooLarge(error) => {
            out.report(TOO_LARGE, None, error.offset(), error.message(), text);
        }
    }
}

/// Checks each body and each constant expression of a module, and notes what they come to.
fn check_whole(alloc: Global, module: &LoadedModule<'_>, text: &mut [u8], out: &mut ModuleVerdict)
    requires { IsConsistent (length text.old) out.old }
    ensures consistent { IsConsistent (length text.new) out.new }
    ensures accepted { out.new.status ≡ 0 → IsValid «module».now }
    ensures refused { SaysNo out.new.status → SaysNo out.old.status ⊎ ¬ IsAcceptedModule «module».now }
    ensures known { out.old.status ≤ 4 → out.new.status ≤ 4 }
    ensures counted { out.new.status ≢ 3 → total out.old ≡ 0 → total out.new ≡ item_count «module».now }
    ensures uncovered { out.new.status ≡ 4 → (out.old.status ≡ 4) ⊎ HasUncovered «module».now }
    ensures malformed { out.new.status ≡ 2 → (out.old.status ≡ 2) ⊎ HasMalformed «module».now }
    ensures invalid { out.new.status ≡ 1 → (out.old.status ≡ 1) ⊎ HasInvalid «module».now }
{
    let mut buffers = BodyBuffers::new(alloc);
    check_module(module, &mut buffers, text, out);
    drop(buffers);
}

/// Checks a module that was read, or notes why it wasn't.
fn check_read(
    alloc: Global,
    read: &Result<LoadedModule<'_>, LoadRefusal>,
    text: &mut [u8],
    out: &mut ModuleVerdict,
)
    requires consistent { IsConsistent (length text.old) out.old }
    requires refused { IfErr read.now (λ refusal. refusal ≢ Judged Accepted) }
    ensures consistent { IsConsistent (length text.new) out.new }
    ensures read { out.new.status ≡ 0 → IsOk read.now }
    ensures valid { out.new.status ≡ 0 → IfOk read.now IsValid }
    ensures refused { out.old.status ≡ 0 → SaysNo out.new.status → IfOk read.now (λ m. ¬ IsAcceptedModule m) }
    ensures uncovered { out.new.status ≡ 4 → (out.old.status ≡ 4)
        ⊎ MatchResult read.now HasUncovered (λ refusal. (offset : ℕ) × (refusal ≡ Judged (NotCovered offset))) }
    ensures malformed { out.old.status ≡ 0 → out.new.status ≡ 2
        → MatchResult read.now HasMalformed (λ refusal. (e : Error) × (refusal ≡ Judged (Malformed e))) }
    ensures invalid { out.old.status ≡ 0 → out.new.status ≡ 1
        → MatchResult read.now HasInvalid (λ refusal. (e : Error) × (refusal ≡ Judged (Refused e))) }
    ensures too_large { out.old.status ≡ 0 → out.new.status ≡ 7
        → MatchResult read.now (λ m. ⊥) (λ refusal. (e : Error) × (refusal ≡ TooLarge e)) }
    ensures known { out.old.status ≤ 4 → (out.new.status ≤ 4) ⊎ (out.new.status ≡ 7) }
{
    match read {
        Ok(module) => check_whole(alloc, module, text, out),
        Err(refusal) => note_refusal(refusal, text, out),
    }
}

/// Checks a module, of which these are all the bytes, under these proposals: what it declares, each body and each
/// constant expression. It writes the totals to `out`, and to `text` the text of the first finding of the gravest kind,
/// cut to the room there.
///
/// It answers the status. Where that is 0, the bytes are decoded to a module that is valid, within the limits and type
/// safe; and of such bytes it answers no other, but that of out of memory. Where it is 1 or 2, they are decoded to no valid one: where it is 2, they are no module's, or one of these is
/// malformed; where it is 1, what it declares isn't valid, or one of these is refused. Where it is 4, one of these has a
/// vector operator behind accepted ones, or an expression has one at which it can't be read; where it is 7, what it declares
/// is past a limit.
pub fn validate(
    alloc: Global,
    bytes: &[u8],
    features: u32,
    text: &mut [u8],
    out: &mut ModuleVerdict,
) -> u32
    ensures status { result ≡ out.new.status }
    ensures consistent { IsConsistent (length text.new) out.new }
    ensures valid { result ≡ 0 → AreValidModule (of_bits features) bytes.now }
    ensures complete { AreValidModule (of_bits features) bytes.now → (result ≡ 0) ⊎ (result ≡ 3) }
    ensures refused { (result ≡ 1) ⊎ (result ≡ 2) → AreNoValidModule (of_bits features) bytes.now }
    ensures uncovered { result ≡ 4 → AreUncovered (of_bits features) bytes.now }
    ensures malformed { result ≡ 2 → AreMalformed (of_bits features) bytes.now }
    ensures invalid { result ≡ 1 → AreInvalid (of_bits features) bytes.now }
    ensures too_large { result ≡ 7 → AreTooLarge bytes.now }
    ensures known { (result ≤ 4) ⊎ (result ≡ 7) }
{
    *out = ModuleVerdict::new();
    let loaded = read(alloc, bytes, features);
    check_read(alloc, &loaded, text, out);
    drop(loaded);
    status_of(out)
}

/// Frees what a handle has.
pub fn free(alloc: Global, handle: &mut Handle)
    ensures { handle.new.held ≡ None }
{
    drop(handle.take(alloc));
}

/// Puts a module that is shared, or a function, into a handle. Answers whether there was memory for it; else the handle
/// stays as it was.
pub(crate) fn keep(alloc: Global, kept: Kept, handle: &mut Handle) -> bool
    ensures kept { result ≡ true → handle.new.held ≡ Some kept }
    ensures unchanged { result ≡ false → handle.new.held ≡ handle.old.held }
{
    match Box::new(alloc, kept) {
        Ok(kept) => {
            handle.put(alloc, kept);
            true
        }
        Err(failed) => {
            drop(failed);
            false
        }
    }
}

/// Reads a module into a handle, of which these are all the bytes, and checks that what it declares is valid under these
/// proposals. Where the status is 0, the handle has it, and what it had before is freed; else it stays as it was. It is 0
/// exactly for the bytes of a module whose declarations are valid and within the limits, unless memory runs out.
pub fn load(
    alloc: Global,
    bytes: &'static [u8],
    features: u32,
    handle: &mut Handle,
    text: &mut [u8],
    out: &mut ModuleVerdict,
) -> u32
    ensures status { result ≡ out.new.status }
    ensures consistent { IsConsistent (length text.new) out.new }
    ensures loaded { result ≡ 0 → OnModule handle.new.held (IsLoadedFrom bytes.now features) }
    ensures valid { result ≡ 0 → DeclareValid (of_bits features) bytes.now }
    ensures complete { DeclareValid (of_bits features) bytes.now → (result ≡ 0) ⊎ (result ≡ 3) }
    ensures unchanged { result ≢ 0 → handle.new.held ≡ handle.old.held }
    ensures uncovered { result ≡ 4 → HasVectorIn (of_bits features) bytes.now }
    ensures malformed { result ≡ 2 → IsNoModule bytes.now }
    ensures invalid { result ≡ 1 → AreUnloaded (of_bits features) bytes.now }
    ensures too_large { result ≡ 7 → AreTooLarge bytes.now }
    ensures known { (result ≤ 4) ⊎ (result ≡ 7) }
{
    *out = ModuleVerdict::new();
    match read(alloc, bytes, features) {
        Ok(module) => {
            keep_read(alloc, HeldModule::Whole(module), handle, text, out);
            status_of(out)
        }
        Err(refusal) => {
            note_refusal(&refusal, text, out);
            status_of(out)
        }
    }
}

/// Reads what a module declares that has no bodies yet, of which these are all the bytes, and checks that it is valid
/// under these proposals. Where the status is 0, the handle has it, and what it had before is freed; else it stays as it
/// was. It is 0 exactly for bytes that, with empty bodies and data segments behind them, are those of a module whose
/// declarations are valid and within the limits, unless memory runs out. The bytes aren't kept.
pub fn declare(
    alloc: Global,
    bytes: &[u8],
    features: u32,
    handle: &mut Handle,
    text: &mut [u8],
    out: &mut ModuleVerdict,
) -> u32
    ensures status { result ≡ out.new.status }
    ensures consistent { IsConsistent (length text.new) out.new }
    ensures declared { result ≡ 0 → OnHeld handle.new.held (λ h.
        OnDeclared h (AreDeclaredFrom bytes.now features)) }
    ensures valid { result ≡ 0 → DeclareValid (of_bits features) (completed bytes.now) }
    ensures complete { DeclareValid (of_bits features) (completed bytes.now) → (result ≡ 0) ⊎ (result ≡ 3) }
    ensures unchanged { result ≢ 0 → handle.new.held ≡ handle.old.held }
    ensures uncovered { result ≡ 4 → HasVectorIn (of_bits features) bytes.now }
    ensures malformed { result ≡ 2 → IsNoModule (completed bytes.now) }
    ensures invalid { result ≡ 1 → AreUnloaded (of_bits features) (completed bytes.now) }
    ensures too_large { result ≡ 7 → AreTooLarge (completed bytes.now) }
    ensures known { (result ≤ 4) ⊎ (result ≡ 7) }
{
    *out = ModuleVerdict::new();
    match read_declarations(alloc, bytes, features) {
        Ok(declarations) => {
            keep_read(alloc, HeldModule::Declared(declarations), handle, text, out);
            status_of(out)
        }
        Err(refusal) => {
            note_refusal(&refusal, text, out);
            status_of(out)
        }
    }
}

/// Reads what a module declares that has no bodies yet, of which these are all the bytes.
fn read_declarations(
    alloc: Global,
    bytes: &[u8],
    features: u32,
) -> Result<LoadedDeclarations, LoadRefusal>
    ensures declared { IfOk result (AreDeclaredFrom bytes.now features) }
    ensures valid { OnOk result (DeclareValid (of_bits features) (completed bytes.now)) }
    ensures complete { IfErr result (λ refusal. DeclareValid (of_bits features) (completed bytes.now)
        → refusal ≡ Judged OutOfMemory) }
    ensures refused { IfErr result (λ refusal. refusal ≢ Judged Accepted) }
    ensures uncovered { IfErr result (λ refusal. (offset : ℕ) → refusal ≡ Judged (NotCovered offset)
        → HasVectorIn (of_bits features) bytes.now) }
    ensures malformed { IfErr result (λ refusal. (e : Error) → refusal ≡ Judged (Malformed e)
        → IsNoModule (completed bytes.now)) }
    ensures invalid { IfErr result (λ refusal. (e : Error) → refusal ≡ Judged (Refused e)
        → AreUnloaded (of_bits features) (completed bytes.now)) }
    ensures too_large { IfErr result (λ refusal. (e : Error) → refusal ≡ TooLarge e
        → AreTooLarge (completed bytes.now)) }
{
    LoadedDeclarations::new(alloc, bytes, ModuleFeatures::of_bits(features))
}

/// Puts a module into a handle. Answers whether there was memory for it; else the handle stays as it was.
fn keep_new(alloc: Global, module: HeldModule, handle: &mut Handle) -> bool
    ensures kept { result ≡ true → OnHeld handle.new.held (λ h. h ≡ «module») }
    ensures unchanged { result ≡ false → handle.new.held ≡ handle.old.held }
{
    match Arc::new(alloc, module) {
        Ok(held) => keep(alloc, Kept::Module(SharedModule { held }), handle),
        Err(failed) => {
            drop(failed);
            false
        }
    }
}

/// Puts a module that was read into a handle, or notes that there is no memory for that: then the handle stays as it was.
fn keep_read(
    alloc: Global,
    module: HeldModule,
    handle: &mut Handle,
    text: &mut [u8],
    out: &mut ModuleVerdict,
)
    requires consistent { IsConsistent (length text.old) out.old }
    requires first { out.old.status ≡ 0 }
    ensures consistent { IsConsistent (length text.new) out.new }
    ensures kept { out.new.status ≡ 0 → OnHeld handle.new.held (λ h. h ≡ «module») }
    ensures unchanged { out.new.status ≢ 0 → handle.new.held ≡ handle.old.held }
    ensures known { (out.new.status ≡ 0) ⊎ (out.new.status ≡ 3) }
{
    if !keep_new(alloc, module, handle) {
        out.report(OUT_OF_MEMORY, None, 0, "out of memory", text);
    }
}

/// Another owner of a module, if there was memory for it.
pub(crate) fn another(shared: &SharedModule) -> Option<SharedModule>
    ensures { IfSome result (λ s. module_of s ≡ module_of shared.now) }
{
    match shared.held.clone() {
        Ok(held) => Some(SharedModule { held }),
        Err(_) => None,
    }
}

/// The status where there was memory, or not.
fn status_of_memory(found: bool) -> u32
    ensures found { result ≡ 0 → found ≡ true }
    ensures wanting { result ≢ 0 → (result ≡ 3) × (found ≡ false) }
{
    if found { VALID } else { OUT_OF_MEMORY }
}

/// Gives a handle the module that was taken out of another.
fn share_kept(alloc: Global, kept: &Option<Box<Kept>>, other: &mut Handle) -> u32
    ensures shared { result ≡ 0 → HaveTheSame other.new.held (held_in kept.now) }
    ensures unchanged { result ≢ 0 → other.new.held ≡ other.old.held }
    ensures none { result ≡ 6 ↔ HasNoModule (held_in kept.now) }
{
    match module_in(kept) {
        Some(shared) => match another(shared) {
            Some(second) => status_of_memory(keep(alloc, Kept::Module(second), other)),
            None => OUT_OF_MEMORY,
        },
        None => NOT_LOADED,
    }
}

/// Gives a second handle the module of the first, which has it as before. Answers the status: 0, or that of want of
/// memory or of no module, where the second stays as it was.
pub fn share(alloc: Global, handle: &mut Handle, other: &mut Handle) -> u32
    ensures shared { result ≡ 0 → HaveTheSame other.new.held handle.old.held }
    ensures unchanged { result ≢ 0 → other.new.held ≡ other.old.held }
    ensures none { result ≡ 6 ↔ HasNoModule handle.old.held }
    ensures kept { handle.new.held ≡ handle.old.held }
{
    let kept = handle.take(alloc);
    let status = share_kept(alloc, &kept, other);
    handle.put_back(alloc, kept);
    status
}

/// How many functions the module has that was taken, the imported ones counted, or 0 where there is none.
fn function_count(kept: &Option<Box<Kept>>) -> u32
    ensures counted { OfHeld (held_in kept.now) (λ h. result ≡ min (functions_in h) (2 ^ 32 - 1)) }
    ensures none { HasNoModule (held_in kept.now) → result ≡ 0 }
{
    match module_in(kept) {
        Some(shared) => shared.held.function_count(),
        None => 0,
    }
}

/// How many of them are imported.
fn imported_count(kept: &Option<Box<Kept>>) -> u32
    ensures counted { OfHeld (held_in kept.now) (λ h. result ≡ imported_functions_in h) }
    ensures none { HasNoModule (held_in kept.now) → result ≡ 0 }
{
    match module_in(kept) {
        Some(shared) => shared.held.imported_count(),
        None => 0,
    }
}

/// The index behind that of the last function, or 0 where there is no module.
pub fn functions(alloc: Global, handle: &mut Handle) -> u32
    ensures counted { OfHeld handle.old.held (λ h. result ≡ min (functions_in h) (2 ^ 32 - 1)) }
    ensures none { HasNoModule handle.old.held → result ≡ 0 }
    ensures kept { handle.new.held ≡ handle.old.held }
{
    let kept = handle.take(alloc);
    let count = function_count(&kept);
    handle.put_back(alloc, kept);
    count
}

/// How many functions are imported, and have no body, or 0 where there is no module.
pub fn imported_functions(alloc: Global, handle: &mut Handle) -> u32
    ensures counted { OfHeld handle.old.held (λ h. result ≡ imported_functions_in h) }
    ensures none { HasNoModule handle.old.held → result ≡ 0 }
    ensures kept { handle.new.held ≡ handle.old.held }
{
    let kept = handle.take(alloc);
    let count = imported_count(&kept);
    handle.put_back(alloc, kept);
    count
}

/// Reports that a module has no body for a function, or none at all.
pub(crate) fn report_no_body(item: Option<Item>, text: &mut [u8], out: &mut ModuleVerdict)
    requires { IsConsistent (length text.old) out.old }
    ensures consistent { IsConsistent (length text.new) out.new }
    ensures status { out.new.status ≡ 5 }
    ensures reported { Reports item out.new }
{
    out.report(
        NO_BODY,
        item,
        0,
        "the module has no body for this function",
        text,
    );
}

/// Reports that there is no module.
#[cold]
#[inline(never)]
pub(crate) fn report_no_module(text: &mut [u8], out: &mut ModuleVerdict)
    requires { IsConsistent (length text.old) out.old }
    ensures consistent { IsConsistent (length text.new) out.new }
    ensures status { out.new.status ≡ 6 }
{
    out.report(NOT_LOADED, None, 0, "there is no module", text);
}

/// Whether a module has a body for the function at this index.
pub(crate) fn has_own_body(module: &LoadedModule<'_>, function: u32) -> bool
    ensures { result ≡ false ↔ HasNoBody (Whole «module».now) function }
{
    module.body_of(function).is_some()
}

/// Checks the body of the function at this index, if the module has one for it, and notes what it comes to.
fn check_one(
    alloc: Global,
    module: &LoadedModule<'_>,
    function: u32,
    text: &mut [u8],
    out: &mut ModuleVerdict,
)
    requires consistent { IsConsistent (length text.old) out.old }
    requires first { out.old.status ≡ 0 }
    ensures consistent { IsConsistent (length text.new) out.new }
    ensures safe { out.new.status ≡ 0 → IsSafeFunction «module».now function }
    ensures refused { SaysNo out.new.status → ¬ IsAcceptedFunction «module».now function }
    ensures invalid { out.new.status ≡ 1 → IsRefusedFunction «module».now function out.new.offset }
    ensures malformed { out.new.status ≡ 2 → IsMalformedFunction «module».now function }
    ensures uncovered { out.new.status ≡ 4 → IsUncoveredFunction «module».now function }
    ensures reported { out.new.status ≢ 0 → Reports (Some (Function function)) out.new }
    ensures missing { out.new.status ≡ 5 ↔ HasNoBody (Whole «module».now) function }
    ensures known { out.new.status ≤ 5 }
{
    let item = Some(Item::Function(function));
    if has_own_body(module, function) {
        let mut buffers = BodyBuffers::new(alloc);
        let verdict = module.check_function(function, &mut buffers);
        drop(buffers);
        out.note(&verdict, item, text);
        drop(verdict);
    } else {
        report_no_body(item, text, out);
    }
}

/// The same of what was taken out of a handle: there may be no bodies, or no module.
fn check_one_kept(
    alloc: Global,
    kept: &Option<Box<Kept>>,
    function: u32,
    text: &mut [u8],
    out: &mut ModuleVerdict,
)
    requires consistent { IsConsistent (length text.old) out.old }
    requires first { out.old.status ≡ 0 }
    ensures consistent { IsConsistent (length text.new) out.new }
    ensures answer { BodyAnswer (held_in kept.now) function out.new.status out.new }
{
    match found_in(kept) {
        Found::Bodies(loaded) => check_one(alloc, loaded, function, text, out),
        Found::NoBodies => report_no_body(Some(Item::Function(function)), text, out),
        Found::NoModule => report_no_module(text, out),
    }
}

/// Checks each body and each constant expression of what was taken out of a handle.
fn check_all_kept(alloc: Global, kept: &Option<Box<Kept>>, text: &mut [u8], out: &mut ModuleVerdict)
    requires consistent { IsConsistent (length text.old) out.old }
    requires first { out.old.status ≡ 0 }
    ensures consistent { IsConsistent (length text.new) out.new }
    ensures answer { total out.old ≡ 0 → ModuleAnswer (held_in kept.now) out.new.status out.new }
{
    match found_in(kept) {
        Found::Bodies(loaded) => check_whole(alloc, loaded, text, out),
        Found::NoBodies => report_no_body(None, text, out),
        Found::NoModule => report_no_module(text, out),
    }
}

/// Checks them one after another from a position on, up to one that isn't accepted, behind which the position is then.
fn check_from_kept(
    alloc: Global,
    kept: &Option<Box<Kept>>,
    position: &mut usize,
    text: &mut [u8],
    out: &mut ModuleVerdict,
)
    requires consistent { IsConsistent (length text.old) out.old }
    requires first { out.old.status ≡ 0 }
    ensures consistent { IsConsistent (length text.new) out.new }
    ensures answer { NextAnswer (held_in kept.now) position.old position.new out.new.status out.new }
{
    match found_in(kept) {
        Found::Bodies(loaded) => {
            let mut buffers = BodyBuffers::new(alloc);
            check_from(loaded, position, &mut buffers, text, out);
            drop(buffers);
        }
        Found::NoBodies => report_no_body(None, text, out),
        Found::NoModule => report_no_module(text, out),
    }
}

/// Checks the body of the function at this index. Where the status is 0, it is type safe; where it is 1 or 2, it isn't
/// accepted, and it is refused (1) or malformed (2) at its first fault; where it is 5, the module has none for it. The
/// offset of an operator that is refused is where it begins.
pub fn validate_function(
    alloc: Global,
    handle: &mut Handle,
    function: u32,
    text: &mut [u8],
    out: &mut ModuleVerdict,
) -> u32
    ensures status { result ≡ out.new.status }
    ensures consistent { IsConsistent (length text.new) out.new }
    ensures safe { result ≡ 0 → OnModule handle.old.held (λ m. IsSafeFunction m function) }
    ensures refused { (result ≡ 1) ⊎ (result ≡ 2)
        → OnModule handle.old.held (λ m. ¬ IsAcceptedFunction m function) }
    ensures invalid { result ≡ 1 → OnModule handle.old.held (λ m. IsRefusedFunction m function out.new.offset) }
    ensures malformed { result ≡ 2 → OnModule handle.old.held (λ m. IsMalformedFunction m function) }
    ensures uncovered { result ≡ 4 → OnModule handle.old.held (λ m. IsUncoveredFunction m function) }
    ensures reported { result ≢ 0 → result ≢ 6 → Reports (Some (Function function)) out.new }
    ensures missing { result ≡ 5 ↔ OnHeld handle.old.held (λ h. HasNoBody h function) }
    ensures none { result ≡ 6 ↔ HasNoModule handle.old.held }
    ensures known { result ≤ 6 }
    ensures kept { handle.new.held ≡ handle.old.held }
{
    *out = ModuleVerdict::new();
    let kept = handle.take(alloc);
    check_one_kept(alloc, &kept, function, text, out);
    handle.put_back(alloc, kept);
    status_of(out)
}

/// Checks each body and each constant expression. Where the status is 0, the module is valid; where it is 1
/// or 2, one of them isn't accepted, and one is refused (1) or malformed (2) at its first fault; where it is 4, one of
/// them has a vector operator behind accepted ones. Where it is at most 4, but not 3, each of them is counted.
pub fn validate_module(
    alloc: Global,
    handle: &mut Handle,
    text: &mut [u8],
    out: &mut ModuleVerdict,
) -> u32
    ensures status { result ≡ out.new.status }
    ensures consistent { IsConsistent (length text.new) out.new }
    ensures valid { result ≡ 0 → OnModule handle.old.held IsValid }
    ensures refused { (result ≡ 1) ⊎ (result ≡ 2)
        → OnModule handle.old.held (λ m. ¬ IsAcceptedModule m) }
    ensures invalid { result ≡ 1 → OnModule handle.old.held HasInvalid }
    ensures malformed { result ≡ 2 → OnModule handle.old.held HasMalformed }
    ensures uncovered { result ≡ 4 → OnModule handle.old.held HasUncovered }
    ensures counted { result ≢ 3 → OfModule handle.old.held (λ m. total out.new ≡ item_count m) }
    ensures missing { result ≡ 5 ↔ OnHeld handle.old.held IsDeclared }
    ensures none { result ≡ 6 ↔ HasNoModule handle.old.held }
    ensures known { result ≤ 6 }
    ensures kept { handle.new.held ≡ handle.old.held }
{
    *out = ModuleVerdict::new();
    let kept = handle.take(alloc);
    check_all_kept(alloc, &kept, text, out);
    handle.put_back(alloc, kept);
    status_of(out)
}

/// Checks them one after another, the constant expressions first, from the one at the position on, up to one that isn't
/// accepted: that is reported, and the position is behind it. The status is 0 where there is none; then the position
/// stays.
pub fn validate_next(
    alloc: Global,
    handle: &mut Handle,
    position: &mut usize,
    text: &mut [u8],
    out: &mut ModuleVerdict,
) -> u32
    ensures status { result ≡ out.new.status }
    ensures consistent { IsConsistent (length text.new) out.new }
    ensures rest { result ≡ 0 → OnModule handle.old.held (λ m. AreSafeFrom m position.old) }
    ensures reported { result ≢ 0 → OfModule handle.old.held (λ m.
        IsReported m position.old position.new out.new) }
    ensures unmoved { (result ≡ 0) ⊎ ((result ≡ 5) ⊎ (result ≡ 6)) → position.new ≡ position.old }
    ensures missing { result ≡ 5 ↔ OnHeld handle.old.held IsDeclared }
    ensures none { result ≡ 6 ↔ HasNoModule handle.old.held }
    ensures known { result ≤ 6 }
    ensures kept { handle.new.held ≡ handle.old.held }
{
    *out = ModuleVerdict::new();
    let kept = handle.take(alloc);
    check_from_kept(alloc, &kept, position, text, out);
    handle.put_back(alloc, kept);
    status_of(out)
}
