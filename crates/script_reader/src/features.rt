//! The proposals that a script names.

use bitflags::Flags;
use validate_types::WasmFeatures;

/// The proposals that the word of a `feature` line names: the one of that name, or none.
pub fn read_feature(word: &str) -> Option<WasmFeatures> {
    if word == "none" {
        return Some(WasmFeatures::empty());
    }
    WasmFeatures::from_name(word)
}
