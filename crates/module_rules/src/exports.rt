//! Whether the exports of a module are valid (WebAssembly core specification, "Modules": exports).

ghost use Rattle.std.specs.Prelude.{◌≡◌, is_ok, length, nat_le, slice_get};
ghost use Rattle.std.specs.List.{list_all};
ghost use Rattle.module_rules.specs.Declarations.{declarations_of};
ghost use Rattle.module_rules.specs.Judged.{JudgesAt};
ghost use Rattle.module_rules.specs.declared.limits.TheConstants.{MAX_WASM_EXPORTS};
ghost use Rattle.module_rules.specs.Exports.{item_count, is_read_only, is_export_enabled, is_valid_export};

use crate::faults::{LimitFault, Located, LocatedRule, RuleFault, locate, of_rules};
use crate::features::ModuleFeatures;
use crate::items::{DeclaredGlobal, Export, ExternalKind};
use crate::limits::MAX_WASM_EXPORTS;
use crate::module::DeclaredModule;

/// So many items of a kind are there.
fn item_count(declared: &DeclaredModule, kind: ExternalKind) -> usize
    ensures { result ≡ item_count (declarations_of declared.now) kind }
{
    match kind {
        ExternalKind::Func => declared.functions.len(),
        ExternalKind::Table => declared.tables.len(),
        ExternalKind::Memory => declared.memories.len(),
        ExternalKind::Global => declared.globals.len(),
        ExternalKind::Tag => declared.tags.len(),
    }
}

/// Whether there is no global at this index, or none that can be written.
fn is_read_only(globals: &[DeclaredGlobal], index: u32) -> bool
    ensures { result ≡ is_read_only (slice_get globals.now index) }
{
    match globals.get(index as usize) {
        None => true,
        Some(global) => !global.ty.mutable,
    }
}

/// Whether it is no global that can be written, or the proposal that lets such be exported is on.
fn is_export_enabled(
    features: ModuleFeatures,
    globals: &[DeclaredGlobal],
    kind: ExternalKind,
    index: u32,
) -> bool
    ensures { result ≡ is_export_enabled features globals.now kind index }
{
    match kind {
        ExternalKind::Global => features.mutable_global || is_read_only(globals, index),
        _ => true,
    }
}

/// An export is valid, as far as it has no other's name.
fn check_export(
    features: ModuleFeatures,
    declared: &DeclaredModule,
    export: &Export,
) -> Result<(), RuleFault>
    ensures { is_ok result ≡ is_valid_export features (declarations_of declared.now) export.now }
{
    if export.index as usize >= item_count(declared, export.kind) {
        return Err(RuleFault::UnknownExport(export.kind, export.index));
    }
    if !is_export_enabled(features, &declared.globals, export.kind, export.index) {
        return Err(RuleFault::WrittenGlobalsOff);
    }
    Ok(())
}

/// Each of these exports is valid, as far as it has no other's name.
fn check_each_export(
    features: ModuleFeatures,
    declared: &DeclaredModule,
    exports: &[Export],
) -> Result<(), LocatedRule>
    ensures { is_ok result ≡ list_all (is_valid_export features (declarations_of declared.now)) exports.now }
{
    for export in exports {
        locate(check_export(features, declared, export), export.offset)?;
    }
    Ok(())
}

/// The exports are valid, as far as none has another's name, and no more than may be.
pub fn check_exports(features: ModuleFeatures, declared: &DeclaredModule) -> Result<(), Located>
    ensures { JudgesAt (list_all (is_valid_export features (declarations_of declared.now))
        (declarations_of declared.now).exports)
        (nat_le (length (declarations_of declared.now).exports) MAX_WASM_EXPORTS) result }
{
    if let Some(export) = declared.exports.get(MAX_WASM_EXPORTS) {
        return Err(LimitFault::too_many("exports", MAX_WASM_EXPORTS).at(export.offset));
    }
    of_rules(check_each_export(features, declared, &declared.exports))
}
