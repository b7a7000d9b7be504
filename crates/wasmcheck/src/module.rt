//! The check of one module.

ghost use Rattle.std.specs.Prelude.{◌≡◌, ◌⊎◌, IfOk, OnOk};
ghost use Rattle.module_check.specs.Items.{AreSafeBelow, IsSafeAt, item_count};
ghost use Rattle.module_check.specs.Decoded.{AreNoValidModule, AreValidModule};
ghost use Rattle.module_check.specs.Loaded.{IsValid};
ghost use Rattle.module_check.specs.Outcomes.{AreSo, HasFound, IsFoundAt, outcome_of_load};
ghost use Rattle.module_check.specs.declared.outcome.Outcome.TheVariants.{Valid, Invalid, Malformed, OutOfMemory};

use crate::explain::{Asked, refusal_of, shown_of};
use crate::lines::{Finding, Lines};
use crate::operators::{Code, Trail, trail_to};
use crate::options::Detail;
use crate::shown::add_word;
use crate::verdict_writer::{Tally, write_item, write_module, write_tally, write_too_large};
use crate::written::Written;
use module_check::{
    BodyBuffers, Checked, FunctionNames, Item, LoadRefusal, LoadedModule, ModuleFeatures, Outcome,
    Verdict, check_item, item_count,
};
use module_rules::expression_type;
use std::io::{IsTerminal, Write};
use std::{io, str};
use validate_visit::BodyKind;

/// After so many bodies it is said how far the check is.
const MANY: usize = 5_000;

/// How a module is checked, and what is written of it.
#[derive(Clone, Copy)]
pub struct CheckOptions<'o> {
    /// How its lines are written.
    pub lines: Lines<'o>,
    /// How much of it is written.
    pub detail: Detail,
    /// Whether a refusal is explained.
    pub explains: bool,
    /// The name or the index of the function whose operators are listed, if one is named.
    pub traced: Option<&'o [u8]>,
    /// The proposals that are on.
    pub features: ModuleFeatures,
}

/// What the check of a module comes to.
#[derive(Clone, Copy)]
pub struct CheckedModule {
    /// What the module comes to.
    pub outcome: Outcome,
    /// Whether the operators of a function are asked for, and none with a body has that name or index.
    pub lacks_traced: bool,
}

impl CheckedModule {
    /// A module that comes to this before a function is looked for.
    fn before_items(outcome: Outcome) -> CheckedModule
        ensures { result.outcome ≡ outcome }
    {
        CheckedModule {
            outcome,
            lacks_traced: false,
        }
    }
}

/// Whether a word is this index.
fn is_index(word: &[u8], index: u32) -> bool {
    match str::from_utf8(word) {
        Ok(text) => text.parse::<u32>() == Ok(index),
        Err(_) => false,
    }
}

/// The code of a function, if the module has a body for it.
fn code_of_function<'m>(module: &'m LoadedModule<'_>, function: u32) -> Option<Code<'m>> {
    let ty = module.type_of(function)?;
    let reader = module.code_of(function)?;
    Some(Code {
        reader,
        kind: BodyKind::Function(ty),
    })
}

/// The code of the constant expression at this place of the row.
fn code_of_expression<'m>(module: &'m LoadedModule<'_>, place: usize) -> Option<Code<'m>> {
    let expression = module.expressions().get(place)?;
    let ty = expression_type(module.declarations(), expression.place)?;
    Some(Code {
        reader: module.code_of_expression(expression),
        kind: BodyKind::Expression(ty),
    })
}

/// A module that was read, as it is checked.
#[derive(Drop)]
struct ModuleCheck<'o, 'm, 'b> {
    options: CheckOptions<'o>,
    module: &'m LoadedModule<'b>,
    names: FunctionNames<'b>,
}

/// How far the check of a module is.
#[derive(Drop)]
struct Progress {
    buffers: BodyBuffers,
    tally: Tally,
    /// Whether a function has the name or the index that is asked for.
    has_traced: bool,
}

impl<'m> ModuleCheck<'_, 'm, '_> {
    /// The code of the item at this place of the row.
    fn code_at(&self, place: usize, item: Item) -> Option<Code<'m>> {
        match item {
            Item::Function(function) => code_of_function(self.module, function),
            Item::Expression(_) => code_of_expression(self.module, place),
        }
    }

    /// The name of the function that an item is, where it has one.
    fn name_of(&self, item: Item) -> Option<&str> {
        match item {
            Item::Function(function) => self.names.of(function),
            Item::Expression(_) => None,
        }
    }

    /// Whether a word is the name or the index of the function that an item is.
    fn is_named(&self, item: Item, word: &[u8]) -> bool {
        if let Some(name) = self.name_of(item) {
            if name.as_bytes() == word {
                return true;
            }
        }
        match item {
            Item::Function(function) => is_index(word, function),
            Item::Expression(_) => false,
        }
    }

    /// Whether the operators of an item are listed.
    fn is_traced(&self, item: Item) -> bool {
        match self.options.traced {
            Some(word) => self.is_named(item, word),
            None => false,
        }
    }

    /// What is found as the code of an item is read up to its refusal, if there is one.
    fn trail(&self, place: usize, checked: &Checked) -> io::Result<Trail> {
        let Some(refusal) = refusal_of(&checked.verdict) else {
            return Ok(Trail::NONE);
        };
        match self.code_at(place, checked.item) {
            Some(mut code) => {
                trail_to(
                    self.options.lines.alloc,
                    self.module.bytes(),
                    &mut code,
                    refusal,
                )
            }
            None => Ok(Trail::NONE),
        }
    }

    /// What is shown of the operators of an item.
    fn shown(&self, place: usize, item: Item, asked: Asked<'_>) -> io::Result<Written> {
        match self.code_at(place, item) {
            Some(code) if asked.is_anything() => shown_of(self.module, code, asked),
            _ => Ok(Written::new(asked.lines.alloc)),
        }
    }

    /// Writes what was found of the item at this place of the row.
    fn write<W: Write>(
        &self,
        out: &mut W,
        place: usize,
        checked: &Checked,
        is_traced: bool,
    ) -> io::Result<()> {
        let CheckOptions {
            lines,
            detail,
            explains,
            ..
        } = self.options;
        let trail = self.trail(place, checked)?;
        let asked = Asked {
            lines,
            is_traced,
            is_explained: explains,
            trail,
            verdict: &checked.verdict,
        };
        let shown = self.shown(place, checked.item, asked)?;
        let name = self.name_of(checked.item);
        let finding = Finding {
            item: Some(checked.item),
            name,
            operator: trail.operator,
            outcome: Outcome::of(&checked.verdict),
            verdict: &checked.verdict,
            shown: &shown,
        };
        write_item(out, lines, detail, &finding)
    }

    /// Checks the item at this place of the row, and writes what it comes to.
    fn check_item<W: Write>(
        &self,
        out: &mut W,
        place: usize,
        progress: &mut Progress,
    ) -> io::Result<()>
        ensures valid { OnOk result (progress.new.tally.outcome ≡ Valid → (progress.old.tally.outcome ≡ Valid)
            × IsSafeAt self.now.module.now place) }
        ensures found { OnOk result ((progress.new.tally.outcome ≡ progress.old.tally.outcome)
            ⊎ IsFoundAt self.now.module.now place progress.new.tally.outcome) }
    {
        let checked = check_item(self.module, place, &mut progress.buffers);
        progress.tally.count(&checked.verdict);
        let is_traced = self.is_traced(checked.item);
        if is_traced {
            progress.has_traced = true;
        }
        self.write(out, place, &checked, is_traced)
    }

    /// Checks each item.
    fn check_items<W: Write>(
        &self,
        rt: &HostRuntime,
        out: &mut W,
        progress: &mut Progress,
    ) -> io::Result<()>
        ensures valid { OnOk result (progress.new.tally.outcome ≡ Valid
            → AreSafeBelow self.now.module.now (item_count self.now.module.now)) }
        ensures found { OnOk result ((progress.new.tally.outcome ≡ progress.old.tally.outcome)
            ⊎ HasFound self.now.module.now progress.new.tally.outcome) }
    {
        let all = item_count(self.module);
        let bodies = self.module.body_count();
        let first = all.saturating_sub(bodies);
        for place in 0..all {
            write_progress(rt, place.saturating_sub(first), bodies);
            self.check_item(out, place, progress)?;
        }
        Ok(())
    }

    /// Whether no function has the name or the index that is asked for. If so, it is said.
    fn lacks_traced(&self, rt: &HostRuntime, has_traced: bool) -> io::Result<bool> {
        match self.options.traced {
            Some(word) if !has_traced => {
                let mut message = begun_message(self.options.lines);
                message.add("--trace: no function with a body is ");
                add_word(&mut message, word);
                message.add("\n");
                message.write_to(&mut rt.stderr())?;
                Ok(true)
            }
            _ => Ok(false),
        }
    }
}

/// A message for standard error as it begins, by the file where it is one of several.
pub fn begun_message(lines: Lines<'_>) -> Written {
    let mut message = Written::new(lines.alloc);
    message.add("wasmcheck: ");
    if let Some(file) = lines.prefix() {
        add_word(&mut message, file);
        message.add(": ");
    }
    message
}

/// Says how far the check of many bodies is, where standard error is a terminal.
fn write_progress(rt: &HostRuntime, done: usize, all: usize) {
    if done % MANY == MANY - 1 && rt.stderr().is_terminal() {
        let _ = eprint!(rt; "\r{done} of {all} bodies");
        if all.saturating_sub(done) <= MANY {
            let _ = eprintln!(rt; "");
        }
    }
}

/// Checks a module that was read, and writes and answers what it comes to.
fn check_named<W: Write>(
    rt: &HostRuntime,
    out: &mut W,
    check: &ModuleCheck<'_, '_, '_>,
    progress: &mut Progress,
) -> io::Result<CheckedModule>
    ensures valid { IfOk result (λ checked. checked.outcome ≡ Valid → IsValid check.now.module.now) }
    ensures found { IfOk result (λ checked. (checked.outcome ≡ progress.old.tally.outcome)
        ⊎ HasFound check.now.module.now checked.outcome) }
{
    check.check_items(rt, out, progress)?;
    write_tally(
        out,
        check.options.lines,
        check.options.detail,
        progress.tally,
    )?;
    let lacks_traced = check.lacks_traced(rt, progress.has_traced)?;
    Ok(CheckedModule {
        outcome: progress.tally.outcome,
        lacks_traced,
    })
}

/// Checks a module of which nothing is checked yet.
fn check_anew<W: Write>(
    rt: &HostRuntime,
    out: &mut W,
    check: &ModuleCheck<'_, '_, '_>,
) -> io::Result<CheckedModule>
    ensures valid { IfOk result (λ checked. checked.outcome ≡ Valid → IsValid check.now.module.now) }
    ensures found { IfOk result (λ checked. HasFound check.now.module.now checked.outcome) }
{
    let mut progress = Progress {
        buffers: BodyBuffers::new(rt.alloc()),
        tally: Tally::new(check.module.merged()),
        has_traced: false,
    };
    check_named(rt, out, check, &mut progress)
}

/// Checks a module that was read, with the names of its functions.
fn check_module<W: Write>(
    rt: &HostRuntime,
    out: &mut W,
    options: CheckOptions<'_>,
    module: &LoadedModule<'_>,
) -> io::Result<CheckedModule>
    ensures valid { IfOk result (λ checked. checked.outcome ≡ Valid → IsValid module.now) }
    ensures found { IfOk result (λ checked. HasFound module.now checked.outcome) }
{
    match module.names(rt.alloc()) {
        Ok(names) => {
            let check = ModuleCheck {
                options,
                module,
                names,
            };
            check_anew(rt, out, &check)
        }
        Err(_) => {
            let refused = write_module(out, options.lines, options.detail, &Verdict::OutOfMemory)?;
            Ok(CheckedModule::before_items(refused))
        }
    }
}

/// Writes why bytes aren't read as a module's, or that what they declare is past a limit, and answers what that comes to.
fn write_unloaded<W: Write>(
    out: &mut W,
    options: CheckOptions<'_>,
    refusal: LoadRefusal,
) -> io::Result<Outcome>
    ensures { IfOk result (λ outcome. outcome ≡ outcome_of_load refusal) }
{
    match refusal {
        LoadRefusal::Judged(verdict) => {
            write_module(out, options.lines, options.detail, &verdict)
        }
        LoadRefusal::TooLarge(error) => {
            write_too_large(out, options.lines, options.detail, error)
        }
    }
}

/// Checks the module of these bytes, and writes and answers what it comes to. They are what that says; and of those of a
/// valid module it is *valid*, unless memory runs out.
pub fn check_bytes<W: Write>(
    rt: &HostRuntime,
    out: &mut W,
    options: CheckOptions<'_>,
    bytes: &[u8],
) -> io::Result<CheckedModule>
    ensures so { IfOk result (λ checked. AreSo options.entry.features bytes.now checked.outcome) }
    ensures complete { IfOk result (λ checked. AreValidModule options.entry.features bytes.now
        → (checked.outcome ≡ Valid) ⊎ (checked.outcome ≡ OutOfMemory)) }
    ensures refused { IfOk result (λ checked. (checked.outcome ≡ Invalid) ⊎ (checked.outcome ≡ Malformed)
        → AreNoValidModule options.entry.features bytes.now) }
{
    match LoadedModule::new(rt.alloc(), bytes, options.features) {
        Ok(module) => check_module(rt, out, options, &module),
        Err(refusal) => {
            let outcome = write_unloaded(out, options, refusal)?;
            Ok(CheckedModule::before_items(outcome))
        }
    }
}
