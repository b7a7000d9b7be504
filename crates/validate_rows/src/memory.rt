//! Operators on memories, by shape (WebAssembly core specification, "Memory Instructions").
#![tactic(auto, using(validate_shapes::proofs::KnownRows::known_rows))]

ghost use Rattle.std.specs.Prelude.{◌≡◌, true, false, None, IfSome};
ghost use Rattle.validate_resources.specs.Context.{is_number_or_vector};
ghost use Rattle.validate_visit.specs.declared.memory.MemArgTarget.{MemArgTarget};
ghost use Rattle.validation_rules.specs.Access.{load_row, store_row};
ghost use Rattle.validation_rules.specs.Context.{Context};
ghost use Rattle.validation_rules.specs.Memories.{memory_size_row, memory_grow_row, memory_init_row, data_drop_row, memory_copy_row, memory_fill_row, memory_discard_row};
ghost use Rattle.validation_rules.specs.Memory.{memory_row};
ghost use Rattle.validation_rules.specs.Operators.{row_operator};
ghost use Rattle.validate_rows.specs.Accesses.{is_load, is_store};
ghost use Rattle.validate_shapes.specs.Operands.{Finds};
ghost use Rattle.validate_stacks.specs.Bodies.{CanCheck, Checks};

use validate_resources::WasmModuleResources;
use validate_shapes::accesses::{AccessKind, check_array_access, check_memory_access};
use validate_shapes::memories::{check_data_segment, check_memory_index, narrower_of};
use validate_shapes::numbers::{number, packed};
use validate_shapes::operands::{Few, Operands, Pushed, exchange_found};
use validate_shapes::plain::{plain, pop_both, unary};
use validate_stacks::OperatorContext;
use validate_types::{Refused, ValType};
use validate_visit::{MemArg, MemArgTarget, MemoryOp};

/// A load of a number from an array: `[(ref null array) i32] -> [t]`.
#[cold]
#[inline(never)]
fn load_from_array<A: Refused, R: WasmModuleResources>(
    context: OperatorContext<'_, '_, R>,
    memarg: MemArg,
    type_index: u32,
    ty: ValType,
) -> Result<(), A>
    requires visit { CanCheck R.context context }
    requires number { is_number_or_vector ty ≡ true }
    requires target { memarg.target ≡ MemArgTarget.Array type_index }
    ensures { Checks R.context A.tells (λ cx. row_operator (load_row cx memarg ty)) context.entry
        result context.exit }
{
    let array = check_array_access(&context, AccessKind::Load, memarg, type_index)?;
    plain(context, &[array, ValType::I32], &[ty])
}

/// A load of a number: `[address] -> [t]`.
#[inline(always)]
fn load<A: Refused, R: WasmModuleResources>(
    context: OperatorContext<'_, '_, R>,
    memarg: &MemArg,
    ty: ValType,
) -> Result<(), A>
    requires visit { CanCheck R.context context }
    requires number { is_number_or_vector ty ≡ true }
    ensures { Checks R.context A.tells (λ cx. row_operator (load_row cx memarg.now ty)) context.entry
        result context.exit }
{
    match memarg.target {
        MemArgTarget::Memory(memory_index) => {
            let index_type = check_memory_access(context.resources, memarg, memory_index)?;
            unary(context, index_type, ty)
        }
        MemArgTarget::Array(type_index) => { load_from_array(context, *memarg, type_index, ty) }
    }
}

/// A store of a number in an array: `[(ref null array) i32 t] -> []`.
#[cold]
#[inline(never)]
fn store_in_array<A: Refused, R: WasmModuleResources>(
    context: OperatorContext<'_, '_, R>,
    memarg: MemArg,
    type_index: u32,
    ty: ValType,
) -> Result<(), A>
    requires visit { CanCheck R.context context }
    requires number { is_number_or_vector ty ≡ true }
    requires target { memarg.target ≡ MemArgTarget.Array type_index }
    ensures { Checks R.context A.tells (λ cx. row_operator (store_row cx memarg ty)) context.entry
        result context.exit }
{
    let array = check_array_access(&context, AccessKind::Store, memarg, type_index)?;
    plain(context, &[array, ValType::I32, ty], &[])
}

/// A store of a number: `[address t] -> []`.
#[inline(always)]
fn store<A: Refused, R: WasmModuleResources>(
    context: OperatorContext<'_, '_, R>,
    memarg: &MemArg,
    ty: ValType,
) -> Result<(), A>
    requires visit { CanCheck R.context context }
    requires number { is_number_or_vector ty ≡ true }
    ensures { Checks R.context A.tells (λ cx. row_operator (store_row cx memarg.now ty)) context.entry
        result context.exit }
{
    match memarg.target {
        MemArgTarget::Memory(memory_index) => {
            let index_type = check_memory_access(context.resources, memarg, memory_index)?;
            pop_both(context, index_type, ty)
        }
        MemArgTarget::Array(type_index) => store_in_array(context, *memarg, type_index, ty),
    }
}

/// What `memory.init` takes: `[it i32 i32] -> []`.
fn init_types<A: Refused, R: WasmModuleResources>(
    context: &OperatorContext<'_, '_, R>,
    data_index: u32,
    memory: u32,
) -> Result<Operands<'static>, A>
    ensures { Finds (R.context context.now.resources.now) A.tells (λ cx. memory_init_row cx data_index memory)
        context.now.stacks.now.body result }
{
    let address = check_memory_index(context.resources, memory)?;
    check_data_segment(context.resources, data_index)?;
    Ok(Operands::few(
        Few::Three(address, ValType::I32, ValType::I32),
        Pushed::Nothing,
    ))
}

/// What `memory.copy` takes: `[it(dst) it(src) it] -> []`, with the narrower of the two.
fn copy_types<A: Refused, R: WasmModuleResources>(
    context: &OperatorContext<'_, '_, R>,
    dst_mem: u32,
    src_mem: u32,
) -> Result<Operands<'static>, A>
    ensures { Finds (R.context context.now.resources.now) A.tells (λ cx. memory_copy_row cx dst_mem src_mem)
        context.now.stacks.now.body result }
{
    let dst = check_memory_index(context.resources, dst_mem)?;
    let src = check_memory_index(context.resources, src_mem)?;
    Ok(Operands::few(Few::Three(dst, src, narrower_of(dst, src)), Pushed::Nothing))
}

/// What `memory.size` gives: `[] -> [it]`.
fn size_types<A: Refused, R: WasmModuleResources>(
    context: &OperatorContext<'_, '_, R>,
    memory: u32,
) -> Result<Operands<'static>, A>
    ensures { Finds (R.context context.now.resources.now) A.tells (λ cx. memory_size_row cx memory)
        context.now.stacks.now.body result }
{
    let address = check_memory_index(context.resources, memory)?;
    Ok(Operands::few(Few::Zero, Pushed::One(address)))
}

/// What `memory.grow` takes and gives: `[it] -> [it]`.
fn grow_types<A: Refused, R: WasmModuleResources>(
    context: &OperatorContext<'_, '_, R>,
    memory: u32,
) -> Result<Operands<'static>, A>
    ensures { Finds (R.context context.now.resources.now) A.tells (λ cx. memory_grow_row cx memory)
        context.now.stacks.now.body result }
{
    let address = check_memory_index(context.resources, memory)?;
    Ok(Operands::few(Few::One(address), Pushed::One(address)))
}

/// What `memory.fill` takes: `[it i32 it] -> []`.
fn fill_types<A: Refused, R: WasmModuleResources>(
    context: &OperatorContext<'_, '_, R>,
    memory: u32,
) -> Result<Operands<'static>, A>
    ensures { Finds (R.context context.now.resources.now) A.tells (λ cx. memory_fill_row cx memory)
        context.now.stacks.now.body result }
{
    let address = check_memory_index(context.resources, memory)?;
    Ok(Operands::few(Few::Three(address, ValType::I32, address), Pushed::Nothing))
}

/// What `memory.discard` takes: `[it it] -> []`.
fn discard_types<A: Refused, R: WasmModuleResources>(
    context: &OperatorContext<'_, '_, R>,
    memory: u32,
) -> Result<Operands<'static>, A>
    ensures { Finds (R.context context.now.resources.now) A.tells (λ cx. memory_discard_row cx memory)
        context.now.stacks.now.body result }
{
    let address = check_memory_index(context.resources, memory)?;
    Ok(Operands::few(Few::Two(address, address), Pushed::Nothing))
}

/// `data.drop` takes nothing and gives nothing.
fn drop_types<A: Refused, R: WasmModuleResources>(
    context: &OperatorContext<'_, '_, R>,
    data_index: u32,
) -> Result<Operands<'static>, A>
    ensures { Finds (R.context context.now.resources.now) A.tells (λ cx. data_drop_row cx data_index)
        context.now.stacks.now.body result }
{
    check_data_segment(context.resources, data_index)?;
    Ok(Operands::few(Few::Zero, Pushed::Nothing))
}

/// Where a load of a number loads it from, and its type.
#[inline(always)]
fn loaded(op: &MemoryOp) -> Option<(&MemArg, ValType)>
    ensures row { IfSome result (λ a. (cx : Context) → memory_row cx op.now ≡ load_row cx a.0.now a.1) }
    ensures number { IfSome result (λ a. is_number_or_vector a.1 ≡ true) }
    ensures other { result ≡ None → is_load op.now ≡ false }
{
    match op {
        MemoryOp::Load(ty, memarg) => Some((memarg, number(*ty))),
        MemoryOp::LoadPacked(part, _, memarg) => Some((memarg, packed(*part))),
        _ => None,
    }
}

/// Where a store of a number stores it, and its type.
#[inline(always)]
fn stored(op: &MemoryOp) -> Option<(&MemArg, ValType)>
    ensures row { IfSome result (λ a. (cx : Context) → memory_row cx op.now ≡ store_row cx a.0.now a.1) }
    ensures number { IfSome result (λ a. is_number_or_vector a.1 ≡ true) }
    ensures other { result ≡ None → is_store op.now ≡ false }
{
    match op {
        MemoryOp::Store(ty, memarg) => Some((memarg, number(*ty))),
        MemoryOp::StorePacked(part, memarg) => Some((memarg, packed(*part))),
        _ => None,
    }
}

/// An operator on a whole memory, or on a data segment. It is called, so that [`memory_operator`] stays short where it
/// is inlined.
#[inline(never)]
fn whole_operator<A: Refused, R: WasmModuleResources>(
    context: OperatorContext<'_, '_, R>,
    op: MemoryOp,
) -> Result<(), A>
    requires visit { CanCheck R.context context }
    requires no_load { is_load op ≡ false }
    requires no_store { is_store op ≡ false }
    ensures { Checks R.context A.tells (λ cx. row_operator (memory_row cx op)) context.entry result context.exit }
{
    let found = match op {
        MemoryOp::Load(..)
        | MemoryOp::LoadPacked(..)
        | MemoryOp::Store(..)
        | MemoryOp::StorePacked(..) => unreachable!(),
        MemoryOp::MemorySize(memory) => size_types(&context, memory),
        MemoryOp::MemoryGrow(memory) => grow_types(&context, memory),
        MemoryOp::MemoryInit { data_index, mem } => { init_types(&context, data_index, mem) }
        MemoryOp::DataDrop(data_index) => drop_types(&context, data_index),
        MemoryOp::MemoryCopy { dst_mem, src_mem } => { copy_types(&context, dst_mem, src_mem) }
        MemoryOp::MemoryFill(memory) => fill_types(&context, memory),
        MemoryOp::MemoryDiscard(memory) => discard_types(&context, memory),
    };
    exchange_found(context, found)
}

/// An operator on memories, its gate aside.
#[inline(always)]
pub fn memory_operator<A: Refused, R: WasmModuleResources>(
    context: OperatorContext<'_, '_, R>,
    op: MemoryOp,
) -> Result<(), A>
    requires { CanCheck R.context context }
    ensures { Checks R.context A.tells (λ cx. row_operator (memory_row cx op)) context.entry result context.exit }
{
    if let Some((memarg, ty)) = loaded(&op) {
        return load(context, memarg, ty);
    }
    if let Some((memarg, ty)) = stored(&op) {
        return store(context, memarg, ty);
    }
    whole_operator(context, op)
}
