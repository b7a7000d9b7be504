//! Whether the tables of a module are valid (WebAssembly core specification, "Table Types", and "Modules":
//! tables).

ghost use Rattle.std.specs.Prelude.{◌≡◌, ◌&&◌, ◌||◌, ℕ, is_ok, length, nat_le, not};
ghost use Rattle.std.specs.List.{list_all, enumerate_from};
ghost use Rattle.validate_resources.specs.Indices.{is_known, ref_indices_pass};
ghost use Rattle.validate_resources.specs.Order.{is_heap_shared};
ghost use Rattle.validate_types.specs.Features.{has, is_ref_enabled, shared_everything_threads};
ghost use Rattle.module_rules.specs.Features.{operator_features};
ghost use Rattle.module_rules.specs.Judged.{JudgesAt};
ghost use Rattle.module_rules.specs.declared.limits.TheConstants.{MAX_WASM_TABLES};
ghost use Rattle.module_rules.specs.Tables.{is_any_function, is_funcref, is_valid_element_type, is_valid_table_type, may_begin_so, is_valid_table, may_be_so_many, are_valid_tables};

use crate::faults::{LimitFault, Located, LocatedRule, RuleFault, locate, of_rules};
use crate::features::ModuleFeatures;
use crate::indices::known_in_ref;
use crate::items::{DeclaredTable, TableInit};
use crate::limits::MAX_WASM_TABLES;
use crate::sizes::{are_ordered, are_table_limits};
use validate_resources::order::is_heap_shared;
use validate_types::{AbstractHeapType, HeapType, RefType, SubType};

/// Whether it is every unshared function.
fn is_any_function(ty: HeapType) -> bool
    ensures { result ≡ is_any_function ty }
{
    matches!(
        &ty,
        HeapType::Abstract {
            shared: false,
            ty: AbstractHeapType::Func
        }
    )
}

/// Whether it is `funcref`.
fn is_funcref(ty: RefType) -> bool
    ensures { result ≡ is_funcref ty }
{
    ty.is_nullable() && is_any_function(ty.heap_type())
}

/// The type that a reference type names is there.
fn check_named_type(types: &[SubType], ty: RefType) -> Result<(), RuleFault>
    ensures { is_ok result ≡ ref_indices_pass (is_known (length types.now)) ty }
{
    match known_in_ref(ty, types.len()) {
        Ok(()) => Ok(()),
        Err(index) => Err(RuleFault::UnknownType(index)),
    }
}

/// The proposal of a reference type is on. That of `funcref` always is.
fn check_ref_type(features: ModuleFeatures, ty: RefType) -> Result<(), RuleFault>
    ensures { is_ok result ≡ (is_funcref ty || is_ref_enabled (operator_features features) ty) }
{
    if is_funcref(ty) {
        return Ok(());
    }
    match features.operator_features().check_ref_type(ty) {
        Ok(()) => Ok(()),
        Err(text) => Err(RuleFault::TypeOff(text)),
    }
}

/// Elements of a table or of a segment may be of this type.
pub fn check_element_type(
    features: ModuleFeatures,
    types: &[SubType],
    ty: RefType,
) -> Result<(), RuleFault>
    ensures { is_ok result ≡ is_valid_element_type features types.now ty }
{
    check_ref_type(features, ty)?;
    check_named_type(types, ty)
}

/// The proposal of a shared table is on, and its elements are shared.
fn check_shared(
    features: ModuleFeatures,
    types: &[SubType],
    table: &DeclaredTable,
) -> Result<(), RuleFault>
    ensures { is_ok result ≡ (not table.now.ty.shared || has features.operators shared_everything_threads
        && is_heap_shared types.now table.now.ty.element_type.heap_type) }
{
    if !table.ty.shared {
        return Ok(());
    }
    if !features.operators.shared_everything_threads() {
        return Err(RuleFault::SharedTablesOff);
    }
    if !is_heap_shared(types, table.ty.element_type.heap_type()) {
        return Err(RuleFault::UnsharedElements);
    }
    Ok(())
}

/// The type of a table is valid.
#[tactic(auto, using(crate::proofs::Decided::and_false))]
fn check_table_type(
    features: ModuleFeatures,
    types: &[SubType],
    table: &DeclaredTable,
) -> Result<(), RuleFault>
    ensures { is_ok result ≡ is_valid_table_type features types.now table.now }
{
    check_element_type(features, types, table.ty.element_type)?;
    if table.ty.table64 && !features.memory64 {
        return Err(RuleFault::Table64Off);
    }
    if !are_ordered(table.limits) {
        return Err(RuleFault::MinimumAboveMaximum);
    }
    check_shared(features, types, table)?;
    if !are_table_limits(table.ty.table64, table.limits) {
        return Err(RuleFault::TableTooLarge);
    }
    Ok(())
}

/// Elements of this type may be so at first.
fn check_init(features: ModuleFeatures, ty: RefType, init: TableInit) -> Result<(), RuleFault>
    ensures { is_ok result ≡ may_begin_so features ty init }
{
    match init {
        TableInit::RefNull if !ty.is_nullable() => Err(RuleFault::NoInitializer),
        TableInit::Expr if !features.operators.function_references() => Err(
            RuleFault::TableInitializersOff,
        ),
        _ => Ok(()),
    }
}

/// The table at this index is valid, where so many are imported.
fn check_table(
    features: ModuleFeatures,
    types: &[SubType],
    imported: u32,
    index: usize,
    table: &DeclaredTable,
) -> Result<(), RuleFault>
    ensures { is_ok result ≡ is_valid_table features types.now imported index table.now }
{
    check_table_type(features, types, table)?;
    if index < imported as usize {
        return Ok(());
    }
    check_init(features, table.ty.element_type, table.init)
}

/// There is one table at the most, or the proposal of several is on.
fn check_count(features: ModuleFeatures, tables: &[DeclaredTable]) -> Result<(), LocatedRule>
    ensures { is_ok result ≡ may_be_so_many features (length tables.now) }
{
    match tables.get(1) {
        Some(table) if !features.operators.reference_types() => {
            Err(RuleFault::SeveralTables.at(table.offset))
        }
        _ => Ok(()),
    }
}

/// Each table is valid.
fn check_each_table(
    features: ModuleFeatures,
    types: &[SubType],
    imported: u32,
    tables: &[DeclaredTable],
) -> Result<(), LocatedRule>
    ensures { is_ok result ≡ list_all (λ (e : ℕ × DeclaredTable).
        is_valid_table features types.now imported e.0 e.1) (enumerate_from 0 tables.now) }
{
    for index in 0..tables.len() {
        let table = &tables[index];
        let checked = check_table(features, types, imported, index, table);
        locate(checked, table.offset)?;
    }
    Ok(())
}

/// The tables are valid, and no more than may be.
pub fn check_tables(
    features: ModuleFeatures,
    types: &[SubType],
    imported: u32,
    tables: &[DeclaredTable],
) -> Result<(), Located>
    ensures { JudgesAt (are_valid_tables features types.now imported tables.now)
        (nat_le (length tables.now) MAX_WASM_TABLES) result }
{
    of_rules(check_count(features, tables))?;
    if let Some(table) = tables.get(MAX_WASM_TABLES) {
        return Err(LimitFault::too_many("tables", MAX_WASM_TABLES).at(table.offset));
    }
    of_rules(check_each_table(features, types, imported, tables))
}
