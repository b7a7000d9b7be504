//! Whether the memories of a module are valid (WebAssembly core specification, "Memory Types", and "Modules":
//! memories).

ghost use Rattle.std.specs.Prelude.{◌≡◌, is_ok, length, nat_le};
ghost use Rattle.std.specs.List.{list_all};
ghost use Rattle.module_rules.specs.Judged.{JudgesAt};
ghost use Rattle.module_rules.specs.declared.limits.TheConstants.{MAX_WASM_MEMORIES};
ghost use Rattle.module_rules.specs.Memories.{is_valid_page_size, is_valid_memory, may_be_so_many, are_valid_memories};

use crate::faults::{LimitFault, Located, LocatedRule, RuleFault, locate, of_rules};
use crate::features::ModuleFeatures;
use crate::items::DeclaredMemory;
use crate::limits::MAX_WASM_MEMORIES;
use crate::sizes::{are_memory_limits, are_ordered};

/// Pages may be of this size.
fn check_page_size(features: ModuleFeatures, page_size_log2: Option<u32>) -> Result<(), RuleFault>
    ensures { is_ok result ≡ is_valid_page_size features page_size_log2 }
{
    let Some(size) = page_size_log2 else {
        return Ok(());
    };
    if !features.custom_page_sizes {
        return Err(RuleFault::PageSizesOff);
    }
    if size != 0 && size != 16 {
        return Err(RuleFault::PageSize);
    }
    Ok(())
}

/// A memory has more pages than there are addresses for.
fn too_many_pages(memory: &DeclaredMemory) -> RuleFault {
    match (memory.ty.memory64, memory.page_size_log2) {
        (false, None | Some(16)) => RuleFault::TooManyPages,
        (false, Some(_)) => RuleFault::TooManySmallPages,
        (true, _) => RuleFault::TooManyPages64,
    }
}

/// A memory is valid.
#[tactic(auto, using(crate::proofs::Decided::and_false))]
fn check_memory(features: ModuleFeatures, memory: &DeclaredMemory) -> Result<(), RuleFault>
    ensures { is_ok result ≡ is_valid_memory features memory.now }
{
    if !are_ordered(memory.limits) {
        return Err(RuleFault::MinimumAboveMaximum);
    }
    if memory.ty.memory64 && !features.memory64 {
        return Err(RuleFault::Memory64Off);
    }
    if memory.ty.shared && !features.operators.threads() {
        return Err(RuleFault::SharedMemoriesOff);
    }
    check_page_size(features, memory.page_size_log2)?;
    if memory.ty.shared && memory.limits.maximum.is_none() {
        return Err(RuleFault::SharedWithoutMaximum);
    }
    if !are_memory_limits(memory.ty.memory64, memory.page_size_log2, memory.limits) {
        return Err(too_many_pages(memory));
    }
    Ok(())
}

/// There is one memory at the most, or the proposal of several is on.
fn check_count(features: ModuleFeatures, memories: &[DeclaredMemory]) -> Result<(), LocatedRule>
    ensures { is_ok result ≡ may_be_so_many features (length memories.now) }
{
    match memories.get(1) {
        Some(memory) if !features.multi_memory => {
            Err(RuleFault::SeveralMemories.at(memory.offset))
        }
        _ => Ok(()),
    }
}

/// Each memory is valid.
fn check_each_memory(
    features: ModuleFeatures,
    memories: &[DeclaredMemory],
) -> Result<(), LocatedRule>
    ensures { is_ok result ≡ list_all (is_valid_memory features) memories.now }
{
    for memory in memories {
        locate(check_memory(features, memory), memory.offset)?;
    }
    Ok(())
}

/// The memories are valid, and no more than may be.
pub fn check_memories(features: ModuleFeatures, memories: &[DeclaredMemory]) -> Result<(), Located>
    ensures { JudgesAt (are_valid_memories features memories.now)
        (nat_le (length memories.now) MAX_WASM_MEMORIES) result }
{
    of_rules(check_count(features, memories))?;
    if let Some(memory) = memories.get(MAX_WASM_MEMORIES) {
        return Err(LimitFault::too_many("memories", MAX_WASM_MEMORIES).at(memory.offset));
    }
    of_rules(check_each_memory(features, memories))
}
