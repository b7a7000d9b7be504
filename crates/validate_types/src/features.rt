//! Which proposals are on.

ghost use Rattle.std.specs.Prelude.{⊤, ◌≡◌, [], ◌∷◌, codes, is_ok};
ghost use Rattle.validate_types.specs.Features.{has, is_type_enabled, is_ref_enabled, is_abstract_enabled};
ghost use Rattle.validate_types.specs.Features as feature;

use crate::heap::{AbstractHeapType, HeapType};
use crate::refs::RefType;
use crate::types::ValType;
use bitflags::{Flag, Flags, bitflag_items};

/// The proposals that are on, a set of named bits (wasmparser's `WasmFeatures`).
#[derive(Clone, Copy, PartialEq, Eq, Debug)]
pub struct WasmFeatures(u32);

bitflag_items! {
    impl WasmFeatures: u32 {
        const MULTI_VALUE = 1;
        const FLOATS = 2;
        const SIMD = 4;
        const REFERENCE_TYPES = 8;
        const BULK_MEMORY = 16;
        const BULK_MEMORY_OPT = 32;
        const SIGN_EXTENSION = 64;
        const SATURATING_FLOAT_TO_INT = 128;
        const THREADS = 256;
        const SHARED_EVERYTHING_THREADS = 512;
        const EXCEPTIONS = 1024;
        const LEGACY_EXCEPTIONS = 2048;
        const TAIL_CALL = 4096;
        const FUNCTION_REFERENCES = 8192;
        const GC = 16384;
        const CUSTOM_DESCRIPTORS = 32768;
        const STACK_SWITCHING = 65536;
        const MEMORY_CONTROL = 131072;
        const WIDE_ARITHMETIC = 262144;
        const ACQUIRE_RELEASE_ATOMICS = 524288;
        const MULTIBYTE_ARRAY_ACCESS = 1048576;
    }
}

/// The flags by their names, which are those of the readers.
const NAMED: &[Flag<WasmFeatures>] = &[
    Flag {
        name: "multi_value",
        value: WasmFeatures::MULTI_VALUE,
    },
    Flag {
        name: "floats",
        value: WasmFeatures::FLOATS,
    },
    Flag {
        name: "simd",
        value: WasmFeatures::SIMD,
    },
    Flag {
        name: "reference_types",
        value: WasmFeatures::REFERENCE_TYPES,
    },
    Flag {
        name: "bulk_memory",
        value: WasmFeatures::BULK_MEMORY,
    },
    Flag {
        name: "bulk_memory_opt",
        value: WasmFeatures::BULK_MEMORY_OPT,
    },
    Flag {
        name: "sign_extension",
        value: WasmFeatures::SIGN_EXTENSION,
    },
    Flag {
        name: "saturating_float_to_int",
        value: WasmFeatures::SATURATING_FLOAT_TO_INT,
    },
    Flag {
        name: "threads",
        value: WasmFeatures::THREADS,
    },
    Flag {
        name: "shared_everything_threads",
        value: WasmFeatures::SHARED_EVERYTHING_THREADS,
    },
    Flag {
        name: "exceptions",
        value: WasmFeatures::EXCEPTIONS,
    },
    Flag {
        name: "legacy_exceptions",
        value: WasmFeatures::LEGACY_EXCEPTIONS,
    },
    Flag {
        name: "tail_call",
        value: WasmFeatures::TAIL_CALL,
    },
    Flag {
        name: "function_references",
        value: WasmFeatures::FUNCTION_REFERENCES,
    },
    Flag {
        name: "gc",
        value: WasmFeatures::GC,
    },
    Flag {
        name: "custom_descriptors",
        value: WasmFeatures::CUSTOM_DESCRIPTORS,
    },
    Flag {
        name: "stack_switching",
        value: WasmFeatures::STACK_SWITCHING,
    },
    Flag {
        name: "memory_control",
        value: WasmFeatures::MEMORY_CONTROL,
    },
    Flag {
        name: "wide_arithmetic",
        value: WasmFeatures::WIDE_ARITHMETIC,
    },
    Flag {
        name: "acquire_release_atomics",
        value: WasmFeatures::ACQUIRE_RELEASE_ATOMICS,
    },
    Flag {
        name: "multibyte_array_access",
        value: WasmFeatures::MULTIBYTE_ARRAY_ACCESS,
    },
];

impl Flags for WasmFeatures {
    type Bits = u32;

    ghost exact = { ⊤ };

    ghost table = { (codes "multi_value", 1) ∷ (codes "floats", 2) ∷ (codes "simd", 4) ∷
        (codes "reference_types", 8) ∷ (codes "bulk_memory", 16) ∷ (codes "bulk_memory_opt", 32) ∷
        (codes "sign_extension", 64) ∷ (codes "saturating_float_to_int", 128) ∷ (codes "threads", 256) ∷
        (codes "shared_everything_threads", 512) ∷ (codes "exceptions", 1024) ∷
        (codes "legacy_exceptions", 2048) ∷ (codes "tail_call", 4096) ∷
        (codes "function_references", 8192) ∷ (codes "gc", 16384) ∷ (codes "custom_descriptors", 32768) ∷
        (codes "stack_switching", 65536) ∷ (codes "memory_control", 131072) ∷
        (codes "wide_arithmetic", 262144) ∷ (codes "acquire_release_atomics", 524288) ∷
        (codes "multibyte_array_access", 1048576) ∷ [] };

    ghost set_of = { λ f. f.0 };

    fn flags<'a>() -> &'a [Flag<WasmFeatures>] {
        NAMED
    }

    fn bits(&self) -> u32 {
        self.0
    }

    fn from_bits_retain(bits: u32) -> WasmFeatures {
        WasmFeatures(bits)
    }
}

impl WasmFeatures {
    /// What wasmparser's `WasmFeatures::default()` has of them: the proposals of the standard's version 3.0,
    /// and threads.
    pub const DEFAULT: WasmFeatures = WasmFeatures(
        WasmFeatures::MULTI_VALUE.0
            | WasmFeatures::FLOATS.0
            | WasmFeatures::SIMD.0
            | WasmFeatures::REFERENCE_TYPES.0
            | WasmFeatures::BULK_MEMORY.0
            | WasmFeatures::BULK_MEMORY_OPT.0
            | WasmFeatures::SIGN_EXTENSION.0
            | WasmFeatures::SATURATING_FLOAT_TO_INT.0
            | WasmFeatures::THREADS.0
            | WasmFeatures::EXCEPTIONS.0
            | WasmFeatures::TAIL_CALL.0
            | WasmFeatures::FUNCTION_REFERENCES.0
            | WasmFeatures::GC.0,
    );

    /// Blocks with parameters, and several results.
    pub fn multi_value(self) -> bool
        ensures { result ≡ has self feature.multi_value }
    {
        self.contains(WasmFeatures::MULTI_VALUE)
    }

    /// Floating-point types and operators.
    pub fn floats(self) -> bool
        ensures { result ≡ has self feature.floats }
    {
        self.contains(WasmFeatures::FLOATS)
    }

    /// The vector type.
    pub fn simd(self) -> bool
        ensures { result ≡ has self feature.simd }
    {
        self.contains(WasmFeatures::SIMD)
    }

    /// References, and several tables.
    pub fn reference_types(self) -> bool
        ensures { result ≡ has self feature.reference_types }
    {
        self.contains(WasmFeatures::REFERENCE_TYPES)
    }

    /// Bulk operators on memories, tables and segments.
    pub fn bulk_memory(self) -> bool
        ensures { result ≡ has self feature.bulk_memory }
    {
        self.contains(WasmFeatures::BULK_MEMORY)
    }

    /// The copies and fills of bulk memory alone.
    pub fn bulk_memory_opt(self) -> bool
        ensures { result ≡ has self feature.bulk_memory_opt }
    {
        self.contains(WasmFeatures::BULK_MEMORY_OPT)
    }

    /// Sign-extension operators.
    pub fn sign_extension(self) -> bool
        ensures { result ≡ has self feature.sign_extension }
    {
        self.contains(WasmFeatures::SIGN_EXTENSION)
    }

    /// Conversions of floats that saturate.
    pub fn saturating_float_to_int(self) -> bool
        ensures { result ≡ has self feature.saturating_float_to_int }
    {
        self.contains(WasmFeatures::SATURATING_FLOAT_TO_INT)
    }

    /// Atomic operators on memories.
    pub fn threads(self) -> bool
        ensures { result ≡ has self feature.threads }
    {
        self.contains(WasmFeatures::THREADS)
    }

    /// Shared types, and atomic operators on all that is shared.
    pub fn shared_everything_threads(self) -> bool
        ensures { result ≡ has self feature.shared_everything_threads }
    {
        self.contains(WasmFeatures::SHARED_EVERYTHING_THREADS)
    }

    /// Exceptions with `try_table`.
    pub fn exceptions(self) -> bool
        ensures { result ≡ has self feature.exceptions }
    {
        self.contains(WasmFeatures::EXCEPTIONS)
    }

    /// Exceptions with `try`.
    pub fn legacy_exceptions(self) -> bool
        ensures { result ≡ has self feature.legacy_exceptions }
    {
        self.contains(WasmFeatures::LEGACY_EXCEPTIONS)
    }

    /// Tail calls.
    pub fn tail_call(self) -> bool
        ensures { result ≡ has self feature.tail_call }
    {
        self.contains(WasmFeatures::TAIL_CALL)
    }

    /// Typed references to functions.
    pub fn function_references(self) -> bool
        ensures { result ≡ has self feature.function_references }
    {
        self.contains(WasmFeatures::FUNCTION_REFERENCES)
    }

    /// Structs, arrays and casts.
    pub fn gc(self) -> bool
        ensures { result ≡ has self feature.gc }
    {
        self.contains(WasmFeatures::GC)
    }

    /// Custom descriptors and exact references.
    pub fn custom_descriptors(self) -> bool
        ensures { result ≡ has self feature.custom_descriptors }
    {
        self.contains(WasmFeatures::CUSTOM_DESCRIPTORS)
    }

    /// Continuations.
    pub fn stack_switching(self) -> bool
        ensures { result ≡ has self feature.stack_switching }
    {
        self.contains(WasmFeatures::STACK_SWITCHING)
    }

    /// `memory.discard`.
    pub fn memory_control(self) -> bool
        ensures { result ≡ has self feature.memory_control }
    {
        self.contains(WasmFeatures::MEMORY_CONTROL)
    }

    /// Arithmetic on 128 bits.
    pub fn wide_arithmetic(self) -> bool
        ensures { result ≡ has self feature.wide_arithmetic }
    {
        self.contains(WasmFeatures::WIDE_ARITHMETIC)
    }

    /// Acquire-release orderings, and `pause`.
    pub fn acquire_release_atomics(self) -> bool
        ensures { result ≡ has self feature.acquire_release_atomics }
    {
        self.contains(WasmFeatures::ACQUIRE_RELEASE_ATOMICS)
    }

    /// Memory operators on arrays.
    pub fn multibyte_array_access(self) -> bool
        ensures { result ≡ has self feature.multibyte_array_access }
    {
        self.contains(WasmFeatures::MULTIBYTE_ARRAY_ACCESS)
    }

    /// Ok exactly where the type's gate is open, else the text of the refusal.
    pub fn check_value_type(self, ty: ValType) -> Result<(), &'static str>
        ensures { is_ok result ≡ is_type_enabled self ty }
    {
        match ty {
            ValType::I32 | ValType::I64 => Ok(()),
            ValType::F32 | ValType::F64 => {
                allowed(self.floats(), "floating-point support is disabled")
            }
            ValType::V128 => allowed(self.simd(), "SIMD support is not enabled"),
            ValType::Ref(ty) => self.check_ref_type(ty),
        }
    }

    /// Ok exactly where the gate of the reference type is open, else the text of the refusal.
    #[inline(always)]
    pub fn check_ref_type(self, ty: RefType) -> Result<(), &'static str>
        ensures { is_ok result ≡ is_ref_enabled self ty }
    {
        if !self.reference_types() {
            return Err("reference types support is not enabled");
        }
        match ty.heap_type() {
            HeapType::Concrete(_) => allowed(
                self.function_references() || self.gc(),
                "function references support is not enabled",
            ),
            HeapType::Exact(_) => allowed(
                self.custom_descriptors(),
                "custom descriptors operations support is not enabled",
            ),
            HeapType::Abstract { shared, ty: heap } => {
                if shared && !self.shared_everything_threads() {
                    return Err("shared-everything-threads support is not enabled");
                }
                self.check_abstract_type(ty.is_nullable(), heap)
            }
        }
    }

    /// The same of an unshared abstract type, by whether the reference to it is nullable.
    #[inline(always)]
    fn check_abstract_type(self, nullable: bool, ty: AbstractHeapType) -> Result<(), &'static str>
        ensures { is_ok result ≡ is_abstract_enabled self nullable ty }
    {
        match ty {
            AbstractHeapType::Func | AbstractHeapType::Extern => allowed(
                nullable || self.function_references(),
                "function references support is not enabled",
            ),
            AbstractHeapType::Exn | AbstractHeapType::NoExn => {
                allowed(self.exceptions(), "exceptions support is not enabled")
            }
            AbstractHeapType::Cont | AbstractHeapType::NoCont => allowed(
                self.stack_switching(),
                "stack switching support is not enabled",
            ),
            AbstractHeapType::Any
            | AbstractHeapType::None
            | AbstractHeapType::NoExtern
            | AbstractHeapType::NoFunc
            | AbstractHeapType::Eq
            | AbstractHeapType::Struct
            | AbstractHeapType::Array
            | AbstractHeapType::I31 => allowed(self.gc(), "gc support is not enabled"),
        }
    }
}

/// Ok where the gate is open, else this text.
fn allowed(is_open: bool, refusal: &'static str) -> Result<(), &'static str>
    ensures { is_ok result ≡ is_open }
{
    if is_open { Ok(()) } else { Err(refusal) }
}
