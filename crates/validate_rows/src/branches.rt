//! Branches (WebAssembly core specification, "Control Instructions").

ghost use Rattle.std.specs.Prelude.{◌≡◌, None, true, false, OnOk, OnErr};
ghost use Rattle.validation_rules.specs.Branches.{br_row, br_if_row, br_table_row, return_row};
ghost use Rattle.validation_rules.specs.Operators.{staying_operator};
ghost use Rattle.validate_stacks.specs.AtOnce.{body_dropped};
ghost use Rattle.validate_stacks.specs.Bodies.{CanCheck, Checks};
ghost use Rattle.validate_stacks.specs.State.{IsValidBody};
ghost use Rattle.validate_stacks.specs.Visits.{step_body};
ghost use Rattle.validation_rules.specs.Static.{RowFails};
ghost use Rattle.validate_rows.specs.Targets.{is_table_target, are_targets};

use validate_resources::WasmModuleResources;
use validate_stacks::OperatorContext;
use validate_stacks::blocks::label_types;
use validate_types::{Refusal, Refused, ValType};
use validate_visit::BrTable;

/// `br`: the types of the label, and the live part of the frame ends. Where no attempt is pending it is refused only where
/// its row doesn't hold.
#[inline(never)]
pub fn br<A: Refused, R: WasmModuleResources>(
    context: OperatorContext<'_, '_, R>,
    relative_depth: u32,
) -> Result<(), A>
    requires { CanCheck R.context context }
    ensures row { Checks R.context A.tells (λ cx. staying_operator (λ hs. br_row cx hs relative_depth))
        context.entry result context.exit }
    ensures idle { context.entry.stacks.now.body.undone ≡ None
        → OnErr result (RowFails (step_body (R.context context.entry.resources.now)
        (λ cx. staying_operator (λ hs. br_row cx hs relative_depth)) context.entry.stacks.now.body)) }
{
    let (block_type, kind) = context.stacks.find_label(relative_depth)?;
    let types = label_types(context.resources, &block_type, kind);
    context.expect_operands(0, types)?;
    context.stacks.mark_unreachable()
}

/// `br_if`: `[t i32] -> [t]`, with the types t of the label.
#[inline(never)]
pub fn br_if<A: Refused, R: WasmModuleResources>(
    context: OperatorContext<'_, '_, R>,
    relative_depth: u32,
) -> Result<(), A>
    requires { CanCheck R.context context }
    ensures { Checks R.context A.tells (λ cx. staying_operator (λ hs. br_if_row cx hs relative_depth))
        context.entry result context.exit }
{
    context.expect_operands(0, &[ValType::I32])?;
    let (block_type, kind) = context.stacks.find_label(relative_depth)?;
    let types = label_types(context.resources, &block_type, kind);
    context.expect_operands(1, types)?;
    let own = context.stacks.own_operand_count();
    context.stacks.exchange(own.min(types.len() + 1), types)
}

/// `return`: a branch to the outermost label, whose types are the results of the body. Where no attempt is pending it is
/// refused only where its row doesn't hold.
#[inline(never)]
pub fn return_results<A: Refused, R: WasmModuleResources>(
    context: OperatorContext<'_, '_, R>,
) -> Result<(), A>
    requires { CanCheck R.context context }
    ensures row { Checks R.context A.tells (λ cx. staying_operator (λ hs. return_row cx hs)) context.entry
        result context.exit }
    ensures idle { context.entry.stacks.now.body.undone ≡ None
        → OnErr result (RowFails (step_body (R.context context.entry.resources.now)
        (λ cx. staying_operator (λ hs. return_row cx hs)) context.entry.stacks.now.body)) }
{
    let outermost = context.stacks.control_stack_height() - 1;
    let Some(frame) = context.stacks.get_frame(outermost) else {
        unreachable!()
    };
    let (block_type, kind) = (frame.block_type, frame.kind);
    let results = label_types(context.resources, &block_type, kind);
    context.expect_operands(0, results)?;
    context.stacks.mark_unreachable()
}

/// A target of `br_table`: a label that has as many types as the default one, and the operands under the one that chooses
/// fit them.
#[inline(always)]
fn expect_target<A: Refused, R: WasmModuleResources>(
    context: &OperatorContext<'_, '_, R>,
    relative_depth: u32,
    count: usize,
) -> Result<(), A>
    requires { IsValidBody (R.context context.now.resources.now) context.now.stacks.now.body }
    ensures fits { OnOk result (is_table_target (R.context context.now.resources.now)
        (body_dropped 1 context.now.stacks.now.body) count relative_depth ≡ true) }
    ensures unfit { OnErr result (is_table_target (R.context context.now.resources.now)
        (body_dropped 1 context.now.stacks.now.body) count relative_depth ≡ false) }
{
    let (block_type, kind) = context.stacks.find_label(relative_depth)?;
    let types = label_types(context.resources, &block_type, kind);
    if types.len() != count {
        return Err(A::of(Refusal::TableArity));
    }
    context.expect_operands(1, types)
}

/// Every target of `br_table`, up to the end of the table, which has to be complete.
fn expect_targets<A: Refused, R: WasmModuleResources>(
    context: &OperatorContext<'_, '_, R>,
    table: &BrTable<'_>,
    count: usize,
) -> Result<(), A>
    requires { IsValidBody (R.context context.now.resources.now) context.now.stacks.now.body }
    ensures fits { OnOk result (are_targets (R.context context.now.resources.now)
        (body_dropped 1 context.now.stacks.now.body) count table.now.complete table.now.targets.now ≡ true) }
    ensures unfit { OnErr result (are_targets (R.context context.now.resources.now)
        (body_dropped 1 context.now.stacks.now.body) count table.now.complete table.now.targets.now ≡ false) }
{
    for relative_depth in table.targets {
        expect_target(context, *relative_depth, count)?;
    }
    if !table.complete {
        return Err(A::of(Refusal::TableEnd));
    }
    Ok(())
}

/// `br_table`: `[t i32]`, with the types t of the default label, which fit every other label too; and the live part of
/// the frame ends. Where no attempt is pending it is refused only where its row doesn't hold.
#[inline(never)]
pub fn br_table<A: Refused, R: WasmModuleResources>(
    context: OperatorContext<'_, '_, R>,
    table: &BrTable<'_>,
) -> Result<(), A>
    requires { CanCheck R.context context }
    ensures row { Checks R.context A.tells (λ cx. staying_operator (λ hs. br_table_row cx hs table.now.complete
        table.now.targets.now table.now.default)) context.entry result context.exit }
    ensures idle { context.entry.stacks.now.body.undone ≡ None
        → OnErr result (RowFails (step_body (R.context context.entry.resources.now)
        (λ cx. staying_operator (λ hs. br_table_row cx hs table.now.complete table.now.targets.now
        table.now.default)) context.entry.stacks.now.body)) }
{
    context.expect_operands(0, &[ValType::I32])?;
    let (block_type, kind) = context.stacks.find_label(table.default)?;
    let types = label_types(context.resources, &block_type, kind);
    expect_targets(&context, table, types.len())?;
    context.expect_operands(1, types)?;
    context.stacks.mark_unreachable()
}
