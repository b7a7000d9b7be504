//! Sizes that tables and memories may have (WebAssembly core specification, "Validation: Types", limits).

ghost use Rattle.std.specs.Prelude.{◌≡◌, ℕ, false};
ghost use Rattle.module_rules.specs.Limits.{is_valid_maximum, are_within, address_bits, table_bound, memory_bound};

use crate::items::Limits;

/// Whether the maximum, if there is one, is at most the bound, and not below the minimum.
fn is_valid_maximum(bound: u64, initial: u64, maximum: Option<u64>) -> bool
    ensures { result ≡ is_valid_maximum bound initial maximum }
{
    match maximum {
        None => true,
        Some(maximum) => initial <= maximum && maximum <= bound,
    }
}

/// Whether the maximum, if there is one, isn't below the size at first.
#[tactic(auto, using(crate::proofs::Decided::and_false))]
pub fn are_ordered(limits: Limits) -> bool
    ensures { result ≡ false → (bound : ℕ) → are_within bound limits ≡ false }
{
    match limits.maximum {
        None => true,
        Some(maximum) => limits.initial <= maximum,
    }
}

/// Whether the limits are in order, and within the bound.
fn are_within(bound: u64, limits: Limits) -> bool
    ensures { result ≡ are_within bound limits }
{
    limits.initial <= bound && is_valid_maximum(bound, limits.initial, limits.maximum)
}

/// So many elements a table may have.
fn table_bound(table64: bool) -> u64
    ensures { result ≡ table_bound table64 }
{
    if table64 { u64::MAX } else { 0xffff_ffff }
}

/// Whether a table may have these limits.
pub fn are_table_limits(table64: bool, limits: Limits) -> bool
    ensures { result ≡ are_within (table_bound table64) limits }
{
    are_within(table_bound(table64), limits)
}

/// The bits of an address.
fn address_bits(is_64: bool) -> u32
    ensures { result ≡ address_bits is_64 }
{
    if is_64 { 64 } else { 32 }
}

/// So many pages a memory may have.
fn memory_bound(memory64: bool, page_size_log2: Option<u32>) -> u64
    ensures { result ≡ memory_bound memory64 page_size_log2 }
{
    let bits = address_bits(memory64).saturating_sub(page_size_log2.unwrap_or(16));
    if bits < 64 { 1u64 << bits } else { u64::MAX }
}

/// Whether a memory with pages of this size may have these limits.
pub fn are_memory_limits(memory64: bool, page_size_log2: Option<u32>, limits: Limits) -> bool
    ensures { result ≡ are_within (memory_bound memory64 page_size_log2) limits }
{
    are_within(memory_bound(memory64, page_size_log2), limits)
}
