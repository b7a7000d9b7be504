//! Operators on tables and element segments (WebAssembly core specification, "Table Instructions").
#![tactic(auto, using(validate_shapes::proofs::KnownRows::known_rows))]

ghost use Rattle.std.specs.Prelude.{◌≡◌, true, false, OnOk, OnErr};
ghost use Rattle.validate_resources.specs.Context.{Valid};
ghost use Rattle.validation_rules.specs.Operators.{row_operator};
ghost use Rattle.validation_rules.specs.Tables.{table_get_row, table_set_row, table_grow_row, table_size_row, table_fill_row, table_init_row, elem_drop_row, table_copy_row, table_row};
ghost use Rattle.validate_shapes.specs.Operands.{Finds};
ghost use Rattle.validate_stacks.specs.Bodies.{CanCheck, Checks};

use validate_resources::WasmModuleResources;
use validate_shapes::memories::narrower_of;
use validate_shapes::operands::{Few, Operands, Pushed, exchange_found};
use validate_shapes::tables::{element_type_at, table_type_at};
use validate_stacks::OperatorContext;
use validate_types::{RefType, Refusal, Refused, ValType};
use validate_visit::TableOp;

/// Elements of this type can be put into a table of that type.
fn check_elements<A: Refused, R: WasmModuleResources>(
    resources: &R,
    from: RefType,
    to: RefType,
) -> Result<(), A>
    requires from { Valid (R.context resources.now) (ValType.Ref from) }
    requires to { Valid (R.context resources.now) (ValType.Ref to) }
    ensures below { OnOk result ((R.context resources.now).below (ValType.Ref from) (ValType.Ref to) ≡ true) }
    ensures refused { OnErr result ((R.context resources.now).below (ValType.Ref from) (ValType.Ref to)
        ≡ false) }
{
    if resources.is_subtype(ValType::Ref(from), ValType::Ref(to)) {
        Ok(())
    } else {
        Err(A::of(Refusal::OtherTable))
    }
}

/// What `table.get` takes and gives: `[it] -> [e]`.
fn get_types<A: Refused, R: WasmModuleResources>(
    context: &OperatorContext<'_, '_, R>,
    table: u32,
) -> Result<Operands<'static>, A>
    ensures { Finds (R.context context.now.resources.now) A.tells (λ cx. table_get_row cx table)
        context.now.stacks.now.body result }
{
    let ty = table_type_at(context, table)?;
    Ok(Operands::few(
        Few::One(ty.index_type()),
        Pushed::One(ValType::Ref(ty.element_type)),
    ))
}

/// What `table.set` takes: `[it e] -> []`.
fn set_types<A: Refused, R: WasmModuleResources>(
    context: &OperatorContext<'_, '_, R>,
    table: u32,
) -> Result<Operands<'static>, A>
    ensures { Finds (R.context context.now.resources.now) A.tells (λ cx. table_set_row cx table)
        context.now.stacks.now.body result }
{
    let ty = table_type_at(context, table)?;
    Ok(Operands::few(
        Few::Two(ty.index_type(), ValType::Ref(ty.element_type)),
        Pushed::Nothing,
    ))
}

/// What `table.grow` takes and gives: `[e it] -> [it]`.
fn grow_types<A: Refused, R: WasmModuleResources>(
    context: &OperatorContext<'_, '_, R>,
    table: u32,
) -> Result<Operands<'static>, A>
    ensures { Finds (R.context context.now.resources.now) A.tells (λ cx. table_grow_row cx table)
        context.now.stacks.now.body result }
{
    let ty = table_type_at(context, table)?;
    let index = ty.index_type();
    Ok(Operands::few(
        Few::Two(ValType::Ref(ty.element_type), index),
        Pushed::One(index),
    ))
}

/// What `table.size` gives: `[] -> [it]`.
fn size_types<A: Refused, R: WasmModuleResources>(
    context: &OperatorContext<'_, '_, R>,
    table: u32,
) -> Result<Operands<'static>, A>
    ensures { Finds (R.context context.now.resources.now) A.tells (λ cx. table_size_row cx table)
        context.now.stacks.now.body result }
{
    let ty = table_type_at(context, table)?;
    Ok(Operands::few(Few::Zero, Pushed::One(ty.index_type())))
}

/// What `table.fill` takes: `[it e it] -> []`.
fn fill_types<A: Refused, R: WasmModuleResources>(
    context: &OperatorContext<'_, '_, R>,
    table: u32,
) -> Result<Operands<'static>, A>
    ensures { Finds (R.context context.now.resources.now) A.tells (λ cx. table_fill_row cx table)
        context.now.stacks.now.body result }
{
    let ty = table_type_at(context, table)?;
    let index = ty.index_type();
    Ok(Operands::few(
        Few::Three(index, ValType::Ref(ty.element_type), index),
        Pushed::Nothing,
    ))
}

/// What `table.init` takes: `[it i32 i32] -> []`.
fn init_types<A: Refused, R: WasmModuleResources>(
    context: &OperatorContext<'_, '_, R>,
    elem_index: u32,
    table: u32,
) -> Result<Operands<'static>, A>
    ensures { Finds (R.context context.now.resources.now) A.tells (λ cx. table_init_row cx elem_index table)
        context.now.stacks.now.body result }
{
    let ty = table_type_at(context, table)?;
    let segment = element_type_at(context.resources, elem_index)?;
    check_elements(context.resources, segment, ty.element_type)?;
    Ok(Operands::few(
        Few::Three(ty.index_type(), ValType::I32, ValType::I32),
        Pushed::Nothing,
    ))
}

/// `elem.drop` takes nothing and gives nothing.
fn drop_types<A: Refused, R: WasmModuleResources>(
    context: &OperatorContext<'_, '_, R>,
    elem_index: u32,
) -> Result<Operands<'static>, A>
    ensures { Finds (R.context context.now.resources.now) A.tells (λ cx. elem_drop_row cx elem_index)
        context.now.stacks.now.body result }
{
    element_type_at(context.resources, elem_index)?;
    Ok(Operands::few(Few::Zero, Pushed::Nothing))
}

/// What `table.copy` takes: `[it(dst) it(src) it] -> []`, with the narrower of the two.
fn copy_types<A: Refused, R: WasmModuleResources>(
    context: &OperatorContext<'_, '_, R>,
    dst_table: u32,
    src_table: u32,
) -> Result<Operands<'static>, A>
    ensures { Finds (R.context context.now.resources.now) A.tells (λ cx. table_copy_row cx dst_table src_table)
        context.now.stacks.now.body result }
{
    let src = table_type_at(context, src_table)?;
    let dst = table_type_at(context, dst_table)?;
    check_elements(context.resources, src.element_type, dst.element_type)?;
    let (to, from) = (dst.index_type(), src.index_type());
    Ok(Operands::few(Few::Three(to, from, narrower_of(to, from)), Pushed::Nothing))
}

/// What an operator on tables takes and gives, by the tables and segments that it names.
fn table_types<A: Refused, R: WasmModuleResources>(
    context: &OperatorContext<'_, '_, R>,
    op: TableOp,
) -> Result<Operands<'static>, A>
    ensures { Finds (R.context context.now.resources.now) A.tells (λ cx. table_row cx op)
        context.now.stacks.now.body result }
{
    match op {
        TableOp::TableGet(table) => get_types(context, table),
        TableOp::TableSet(table) => set_types(context, table),
        TableOp::TableGrow(table) => grow_types(context, table),
        TableOp::TableSize(table) => size_types(context, table),
        TableOp::TableFill(table) => fill_types(context, table),
        TableOp::TableInit { elem_index, table } => { init_types(context, elem_index, table) }
        TableOp::ElemDrop(elem_index) => drop_types(context, elem_index),
        TableOp::TableCopy {
            dst_table,
            src_table,
        } => copy_types(context, dst_table, src_table),
    }
}

/// An operator on tables, its gate aside.
#[inline(never)]
pub fn table_operator<A: Refused, R: WasmModuleResources>(
    context: OperatorContext<'_, '_, R>,
    op: TableOp,
) -> Result<(), A>
    requires { CanCheck R.context context }
    ensures { Checks R.context A.tells (λ cx. row_operator (table_row cx op)) context.entry result context.exit }
{
    let found = table_types(&context, op);
    exchange_found(context, found)
}
