//! The types of addresses in memories, and data segments, looked up (WebAssembly core specification,
//! "Memory Instructions").

ghost use Rattle.std.specs.Prelude.{◌≡◌, true, false, None, Some, IfOk, OnOk, OnErr};
ghost use Rattle.validate_resources.specs.Context.{is_address_type};
ghost use Rattle.validation_rules.specs.Memories.{memory_address_type, narrower_type, is_segment};

use validate_resources::WasmModuleResources;
use validate_types::{Refusal, Refused, ValType};

/// The type of the addresses of a memory (wasmparser's `check_memory_index`). It refuses an index past the end.
#[inline(always)]
pub fn check_memory_index<A: Refused, R: WasmModuleResources>(
    resources: &R,
    memory_index: u32,
) -> Result<ValType, A>
    ensures found { IfOk result (λ it. memory_address_type (R.context resources.now) memory_index ≡ Some it) }
    ensures index { IfOk result (λ it. is_address_type it ≡ true) }
    ensures unknown { OnErr result (memory_address_type (R.context resources.now) memory_index ≡ None) }
{
    match resources.memory_at(memory_index) {
        Some(memory) => Ok(memory.index_type()),
        None => Err(A::of(Refusal::UnknownMemory(memory_index))),
    }
}

/// The type of a length that fits both memories, or both tables.
pub fn narrower_of(dst: ValType, src: ValType) -> ValType
    requires dst { is_address_type dst ≡ true }
    requires src { is_address_type src ≡ true }
    ensures narrower { result ≡ narrower_type dst src }
    ensures index { is_address_type result ≡ true }
{
    match src {
        ValType::I32 => ValType::I32,
        _ => dst,
    }
}

/// Whether there is a data segment of this index (wasmparser's `check_data_segment`). It refuses where
/// the module doesn't say how many there are, and an index past the end.
pub fn check_data_segment<A: Refused, R: WasmModuleResources>(
    resources: &R,
    data_index: u32,
) -> Result<(), A>
    ensures there { OnOk result (is_segment (R.context resources.now).data_count data_index ≡ true) }
    ensures missing { OnErr result (is_segment (R.context resources.now).data_count data_index ≡ false) }
{
    match resources.data_count() {
        None => Err(A::of(Refusal::NoDataCount)),
        Some(count) => {
            if data_index < count {
                Ok(())
            } else {
                Err(A::of(Refusal::UnknownData(data_index)))
            }
        }
    }
}
