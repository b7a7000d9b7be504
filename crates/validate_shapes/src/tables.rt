//! The types of tables and element segments, looked up (WebAssembly core specification, "Table
//! Instructions").

ghost use Rattle.std.specs.Prelude.{◌≡◌, true, None, Some, IfOk, OnErr};
ghost use Rattle.validate_resources.specs.Context.{Valid, is_address_type};
ghost use Rattle.validate_types.specs.Types.{address_type_of_table};
ghost use Rattle.validation_rules.specs.Tables.{table_type};
ghost use Rattle.validate_stacks.specs.Bodies.{context_of};

use validate_resources::WasmModuleResources;
use validate_resources::uses::laws;
use validate_stacks::OperatorContext;
use validate_types::{RefType, Refusal, Refused, TableType, ValType};

/// The type of a table (wasmparser's `table_type_at`). It refuses one that isn't declared, and in a shared function one that
/// isn't shared.
pub fn table_type_at<A: Refused, R: WasmModuleResources>(
    context: &OperatorContext<'_, '_, R>,
    table: u32,
) -> Result<TableType, A>
    ensures found { IfOk result (λ t. table_type (context_of R.context context.now) table ≡ Some t) }
    ensures element { IfOk result (λ t. Valid (R.context context.now.resources.now)
        (ValType.Ref t.element_type)) }
    ensures index { IfOk result (λ t. is_address_type (address_type_of_table t) ≡ true) }
    ensures refused { OnErr result (table_type (context_of R.context context.now) table ≡ None) }
{
    laws(context.resources);
    let Some(ty) = context.resources.table_at(table) else {
        return Err(A::of(Refusal::UnknownTable(table)));
    };
    if context.stacks.is_shared() && !ty.shared {
        return Err(A::of(Refusal::UnsharedTable));
    }
    Ok(ty)
}

/// The type of an element segment (wasmparser's `element_type_at`). It refuses an index past the end.
pub fn element_type_at<A: Refused, R: WasmModuleResources>(
    resources: &R,
    elem_index: u32,
) -> Result<RefType, A>
    ensures found { IfOk result (λ r. (R.context resources.now).element_at elem_index ≡ Some r) }
    ensures valid { IfOk result (λ r. Valid (R.context resources.now) (ValType.Ref r)) }
    ensures refused { OnErr result ((R.context resources.now).element_at elem_index ≡ None) }
{
    laws(resources);
    match resources.element_type_at(elem_index) {
        Some(ty) => Ok(ty),
        None => Err(A::of(Refusal::UnknownElements(elem_index))),
    }
}
