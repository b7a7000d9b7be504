//! Which proposals are on, as a module's check asks.

ghost use Rattle.std.specs.Prelude.{◌≡◌};
ghost use Rattle.module_rules.specs.Features.{of_bits, operator_features};

use validate_types::{Flags, WasmFeatures};

/// The proposals that are on: those that operators ask for, and the five that declarations alone ask for (all
/// of them wasmparser's `WasmFeatures`, by its names).
#[derive(Clone, Copy, PartialEq, Eq, Debug)]
pub struct ModuleFeatures {
    /// Those that operators ask for.
    pub operators: WasmFeatures,
    /// Globals that can be written, imported and exported.
    pub mutable_global: bool,
    /// Memories and tables with addresses of 64 bits.
    pub memory64: bool,
    /// Several memories.
    pub multi_memory: bool,
    /// Sums, differences and products in constant expressions.
    pub extended_const: bool,
    /// Memories whose pages have a size of their own.
    pub custom_page_sizes: bool,
}

/// The bits of those that operators ask for.
const OPERATORS: u32 = 0x1f_ffff;

const MUTABLE_GLOBAL: u32 = 2097152;

const MEMORY64: u32 = 4194304;

const MULTI_MEMORY: u32 = 8388608;

const EXTENDED_CONST: u32 = 16777216;

const CUSTOM_PAGE_SIZES: u32 = 33554432;

/// The proposals that declarations alone ask for, by their names, which are those of the readers, with their
/// bits in [`ModuleFeatures::of_bits`].
pub const DECLARATION_FLAGS: &[(&str, u32)] = &[
    ("mutable_global", MUTABLE_GLOBAL),
    ("memory64", MEMORY64),
    ("multi_memory", MULTI_MEMORY),
    ("extended_const", EXTENDED_CONST),
    ("custom_page_sizes", CUSTOM_PAGE_SIZES),
];

impl ModuleFeatures {
    /// What wasmparser's `WasmFeatures::default()` has of them: the proposals of the standard's version 3.0,
    /// and threads.
    pub const DEFAULT: ModuleFeatures = ModuleFeatures {
        operators: WasmFeatures::DEFAULT,
        mutable_global: true,
        memory64: true,
        multi_memory: true,
        extended_const: true,
        custom_page_sizes: false,
    };

    /// The proposals that bits stand for, as in `ffi/tansyattic.h`: those of [`WasmFeatures`] at its places,
    /// and above them those of declarations. A bit of no proposal says nothing.
    pub fn of_bits(bits: u32) -> ModuleFeatures
        ensures { result ≡ of_bits bits }
    {
        ModuleFeatures {
            operators: WasmFeatures::from_bits_retain(bits & OPERATORS),
            mutable_global: bits & MUTABLE_GLOBAL == MUTABLE_GLOBAL,
            memory64: bits & MEMORY64 == MEMORY64,
            multi_memory: bits & MULTI_MEMORY == MULTI_MEMORY,
            extended_const: bits & EXTENDED_CONST == EXTENDED_CONST,
            custom_page_sizes: bits & CUSTOM_PAGE_SIZES == CUSTOM_PAGE_SIZES,
        }
    }

    /// Those of them that operators ask for. Bulk memory brings its copies and fills, as in wasmparser's set.
    pub fn operator_features(self) -> WasmFeatures
        ensures { result ≡ operator_features self }
    {
        if self.operators.bulk_memory() {
            return self.operators.union(WasmFeatures::BULK_MEMORY_OPT);
        }
        self.operators
    }
}
