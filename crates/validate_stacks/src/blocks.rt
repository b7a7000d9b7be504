//! The types of a block.

ghost use Rattle.std.specs.Prelude.{◌≡◌};
ghost use Rattle.validation_rules.specs.Context.{Context, block_signature};
ghost use Rattle.validation_rules.specs.Rows.{label_types};
ghost use Rattle.validate_stacks.specs.Steps.{head_of};

use std::slice;
use validate_resources::WasmModuleResources;
use validate_resources::kinds::func_type_of;
use validate_types::ValType;
use validate_visit::{BlockType, FrameKind};

/// What a block of this type takes; nothing, where it names no function type.
pub fn params<'a, R: WasmModuleResources>(
    resources: &'a R,
    block_type: &'a BlockType,
) -> &'a [ValType]
    ensures { result.now ≡ (block_signature (R.context resources.now) block_type.now).params }
{
    match block_type {
        BlockType::Empty | BlockType::Val(_) => &[],
        BlockType::FuncType(index) => match resources.sub_type_at(*index) {
            Some(sub_type) => match func_type_of(sub_type) {
                Some(func_type) => func_type.params(),
                None => &[],
            },
            None => &[],
        },
    }
}

/// What a block of this type gives; nothing, where it names no function type.
pub fn results<'a, R: WasmModuleResources>(
    resources: &'a R,
    block_type: &'a BlockType,
) -> &'a [ValType]
    ensures { result.now ≡ (block_signature (R.context resources.now) block_type.now).results }
{
    match block_type {
        BlockType::Empty => &[],
        BlockType::Val(ty) => slice::from_ref(ty),
        BlockType::FuncType(index) => match resources.sub_type_at(*index) {
            Some(sub_type) => match func_type_of(sub_type) {
                Some(func_type) => func_type.results(),
                None => &[],
            },
            None => &[],
        },
    }
}

/// The types that a branch to a label carries: the parameters for a loop, the results for every other.
pub fn label_types<'a, R: WasmModuleResources>(
    resources: &'a R,
    block_type: &'a BlockType,
    kind: FrameKind,
) -> &'a [ValType]
    ensures { (cx : Context) → cx.of_module ≡ R.context resources.now → result.now
        ≡ label_types cx (head_of kind block_type.now) }
{
    match kind {
        FrameKind::Loop => params(resources, block_type),
        _ => results(resources, block_type),
    }
}
