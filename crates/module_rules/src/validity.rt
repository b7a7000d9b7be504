//! The check of a module's declarations (WebAssembly core specification, "Validation: Modules").

ghost use Rattle.std.specs.Prelude.{◌≡◌, ◌&&◌, Some, true, false, length, nat_le, IfErr, IfOk, OnOk};
ghost use Rattle.module_rules.specs.Declarations.{declarations_of};
ghost use Rattle.module_rules.specs.Exports.{are_valid_exports};
ghost use Rattle.module_rules.specs.Functions.{is_valid_start};
ghost use Rattle.module_rules.specs.Segments.{are_valid_elements, are_valid_data};
ghost use Rattle.module_rules.specs.Types.{are_valid_types};
ghost use Rattle.validate_resources.specs.Indices.{is_known};
ghost use Rattle.validate_resources.specs.Kept.{declared_lists};
ghost use Rattle.validate_resources.specs.Lists.{may_be_looked_up, module_of};
ghost use Rattle.module_rules.specs.Lookup.{lookup_lists};
ghost use Rattle.module_rules.specs.Judged.{is_limit, JudgesAt};
ghost use Rattle.module_rules.specs.Validity.{are_valid_items, are_valid_uses, is_valid_module, IsValidModule};
ghost use Rattle.module_rules.specs.Within.{import_count, are_types_within, are_items_within, are_elements_within, are_uses_within, is_within, IsWithin};
ghost use Rattle.module_rules.specs.declared.limits.TheConstants.{MAX_WASM_TYPES, MAX_WASM_IMPORTS, MAX_WASM_EXPORTS, MAX_WASM_DATA_SEGMENTS};
ghost use Rattle.module_rules.specs.declared.refusals.ModuleRefusal.TheVariants.{Invalid, TooLarge};
ghost use Rattle.validate_types.specs.declared.error.Error.{Error};

use crate::elements::{check_data, check_elements};
use crate::exports::check_exports;
use crate::faults::{LimitFault, Located, of_rules};
use crate::features::ModuleFeatures;
use crate::functions::{check_functions, check_start, check_tags};
use crate::globals::check_globals;
use crate::limits::{MAX_WASM_IMPORTS, MAX_WASM_TYPES};
use crate::lookup::lookup_items;
use crate::memories::check_memories;
use crate::module::{DeclaredModule, Imports};
use crate::names::check_names;
use crate::refusals::ModuleRefusal;
use crate::tables::check_tables;
use crate::types::check_types;
use std::alloc::Global;
use validate_resources::ModuleLists;
use validate_resources::valid::lists_of;

/// So many items are imported.
fn import_count(imports: Imports) -> u64
    ensures { result ≡ import_count imports }
{
    u64::from(imports.functions)
        + u64::from(imports.tables)
        + u64::from(imports.memories)
        + u64::from(imports.globals)
        + u64::from(imports.tags)
}

/// There are no more types and imports than may be.
fn check_limits(declared: &DeclaredModule) -> Result<(), Located>
    ensures { JudgesAt true (nat_le (length (declarations_of declared.now).types) MAX_WASM_TYPES
        && nat_le (import_count (declarations_of declared.now).imports) MAX_WASM_IMPORTS) result }
{
    if declared.types.len() > MAX_WASM_TYPES {
        let offset = match declared.groups.last() {
            Some(group) => group.offset,
            None => 0,
        };
        return Err(LimitFault::too_many("types", MAX_WASM_TYPES).at(offset));
    }
    if import_count(declared.imports) > MAX_WASM_IMPORTS as u64 {
        return Err(LimitFault::too_many("imports", MAX_WASM_IMPORTS).at(declared.imports.offset));
    }
    Ok(())
}

/// Functions, tables, memories, tags and globals are valid, and no more than may be.
fn check_items(features: ModuleFeatures, declared: &DeclaredModule) -> Result<(), Located>
    ensures { JudgesAt (are_valid_items features (declarations_of declared.now))
        (are_items_within (declarations_of declared.now)) result }
{
    let types = &declared.types;
    let imports = declared.imports;
    check_functions(features, types, imports.functions, &declared.functions)?;
    check_tables(features, types, imports.tables, &declared.tables)?;
    check_memories(features, &declared.memories)?;
    check_tags(features, types, &declared.tags)?;
    check_globals(features, types, imports.globals, &declared.globals)
}

/// The types of the module are valid, and each is within the limits.
fn check_declared_types(features: ModuleFeatures, declared: &DeclaredModule) -> Result<(), Located>
    ensures { JudgesAt (are_valid_types features (declarations_of declared.now).types
        (declarations_of declared.now).groups (declarations_of declared.now).canonical)
        (are_types_within (declarations_of declared.now).types) result }
{
    check_types(
        features,
        &declared.types,
        &declared.groups,
        &declared.canonical,
        declared.imports.offset,
    )
}

/// The types and the items of the module are valid, and so is what is imported, and within the limits.
fn check_declared(features: ModuleFeatures, declared: &DeclaredModule) -> Result<(), Located>
    ensures { JudgesAt (are_valid_types features (declarations_of declared.now).types
        (declarations_of declared.now).groups (declarations_of declared.now).canonical
        && are_valid_items features (declarations_of declared.now))
        (nat_le (length (declarations_of declared.now).types) MAX_WASM_TYPES
        && nat_le (import_count (declarations_of declared.now).imports) MAX_WASM_IMPORTS
        && are_types_within (declarations_of declared.now).types
        && are_items_within (declarations_of declared.now)) result }
{
    check_limits(declared)?;
    check_declared_types(features, declared)?;
    check_items(features, declared)
}

/// The start function and the segments are valid, and these are within the limits.
fn check_start_and_segments(
    features: ModuleFeatures,
    declared: &DeclaredModule,
) -> Result<(), Located>
    ensures { JudgesAt (is_valid_start (declarations_of declared.now).types
        (declarations_of declared.now).functions (declarations_of declared.now).start
        && are_valid_elements features (declarations_of declared.now).types
        (length (declarations_of declared.now).functions) (declarations_of declared.now).tables
        (declarations_of declared.now).elements
        && are_valid_data features (length (declarations_of declared.now).memories)
        (declarations_of declared.now).data_count (declarations_of declared.now).data_segments)
        (are_elements_within (declarations_of declared.now).elements
        && nat_le (length (declarations_of declared.now).data_segments) MAX_WASM_DATA_SEGMENTS) result }
{
    let types = &declared.types;
    let functions = declared.functions.len();
    of_rules(check_start(types, &declared.functions, declared.start))?;
    check_elements(
        features,
        types,
        functions,
        &declared.tables,
        &declared.elements,
    )?;
    check_data(
        features,
        declared.memories.len(),
        declared.data_count,
        &declared.data_segments,
    )
}

/// The exports are valid, and no more than may be.
fn check_named_exports(
    alloc: Global,
    features: ModuleFeatures,
    declared: &DeclaredModule,
) -> Result<(), ModuleRefusal>
    ensures valid { OnOk result (are_valid_exports features (declarations_of declared.now) ≡ true) }
    ensures within { OnOk result (nat_le (length (declarations_of declared.now).exports) MAX_WASM_EXPORTS
        ≡ true) }
    ensures invalid { IfErr result (λ r. (e : Error) → r ≡ Invalid e
        → are_valid_exports features (declarations_of declared.now) ≡ false) }
    ensures too_large { IfErr result (λ r. (e : Error) → r ≡ TooLarge e
        → nat_le (length (declarations_of declared.now).exports) MAX_WASM_EXPORTS ≡ false) }
{
    if let Err(fault) = check_exports(features, declared) {
        return Err(fault.refusal(alloc));
    }
    match check_names(alloc, &declared.exports) {
        Ok(()) => Ok(()),
        Err(error) => Err(ModuleRefusal::invalid(error)),
    }
}

/// Exports, the start function and segments are valid, and within the limits.
fn check_uses(
    alloc: Global,
    features: ModuleFeatures,
    declared: &DeclaredModule,
) -> Result<(), ModuleRefusal>
    ensures valid { OnOk result (are_valid_uses features (declarations_of declared.now) ≡ true) }
    ensures within { OnOk result (are_uses_within (declarations_of declared.now) ≡ true) }
    ensures invalid { IfErr result (λ r. (e : Error) → r ≡ Invalid e
        → are_valid_uses features (declarations_of declared.now) ≡ false) }
    ensures too_large { IfErr result (λ r. (e : Error) → r ≡ TooLarge e
        → are_uses_within (declarations_of declared.now) ≡ false) }
{
    check_named_exports(alloc, features, declared)?;
    match check_start_and_segments(features, declared) {
        Ok(()) => Ok(()),
        Err(fault) => Err(fault.refusal(alloc)),
    }
}

/// Checks that the declarations of a module are valid under the proposals that are on, and within the limits of this
/// implementation. Then `ModuleLists::new` refuses none of what `lookup_lists` makes of them.
///
/// It refuses, by the texts of wasmparser as far as they are known, at the offset of the declaration that
/// isn't valid or is past a limit; and for want of memory, which it takes for the names of exports and for a
/// text. It costs the length of the declarations, and for the names of exports that of sorting them. Bodies and
/// constant expressions aren't looked at.
pub fn validate_module(
    alloc: Global,
    declared: &DeclaredModule,
    features: ModuleFeatures,
) -> Result<(), ModuleRefusal>
    ensures valid { OnOk result (IsValidModule features (declarations_of declared.now)) }
    ensures within { OnOk result (IsWithin (declarations_of declared.now)) }
    ensures lookup { OnOk result (may_be_looked_up is_known (lookup_lists (declarations_of declared.now))
        ≡ true) }
    ensures invalid { IfErr result (λ r. (e : Error) → r ≡ Invalid e
        → is_valid_module features (declarations_of declared.now) ≡ false) }
    ensures too_large { IfErr result (λ r. (e : Error) → r ≡ TooLarge e
        → is_within (declarations_of declared.now) ≡ false) }
{
    if let Err(fault) = check_declared(features, declared) {
        return Err(fault.refusal(alloc));
    }
    check_uses(alloc, features, declared)
}

/// The lookup over what a module declares, if that is valid under these proposals and within the limits. It refuses as
/// [`validate_module`] does, and for want of memory.
pub fn valid_lookup(
    alloc: Global,
    declared: &DeclaredModule,
    features: ModuleFeatures,
) -> Result<ModuleLists, ModuleRefusal>
    ensures valid { OnOk result (IsValidModule features (declarations_of declared.now)) }
    ensures within { OnOk result (IsWithin (declarations_of declared.now)) }
    ensures lookup { IfOk result (λ m. module_of (lookup_lists (declarations_of declared.now))
        ≡ Some (declared_lists m)) }
    ensures invalid { IfErr result (λ r. (e : Error) → r ≡ Invalid e
        → is_valid_module features (declarations_of declared.now) ≡ false) }
    ensures too_large { IfErr result (λ r. (e : Error) → r ≡ TooLarge e
        → is_within (declarations_of declared.now) ≡ false) }
{
    validate_module(alloc, declared, features)?;
    let Ok(items) = lookup_items(alloc, declared) else {
        return Err(ModuleRefusal::OutOfMemory);
    };
    match lists_of(alloc, &declared.types, items) {
        Ok(lists) => Ok(lists),
        Err(_) => Err(ModuleRefusal::OutOfMemory),
    }
}
