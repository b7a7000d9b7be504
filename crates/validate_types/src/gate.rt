//! What has to be on for an operator to be used.

ghost use Rattle.std.specs.Prelude.{◌≡◌};
ghost use Rattle.validate_types.specs.Gates.{is_open};

use crate::features::WasmFeatures;

/// What has to be on for an operator to be used (wasmparser tests it at the head of each visit).
#[derive(Clone, Copy, Debug, PartialEq, Eq)]
pub enum Gate {
    /// Nothing: an operator of WebAssembly's first version.
    Mvp,
    /// Floats, which a profile can leave out.
    Floats,
    /// The proposal `reference_types`.
    ReferenceTypes,
    /// The proposal `bulk_memory`.
    BulkMemory,
    /// The part of `bulk_memory` that can be on without the rest: `bulk_memory_opt`.
    BulkMemoryOpt,
    /// The proposal `sign_extension`.
    SignExtension,
    /// The proposal `saturating_float_to_int`.
    SaturatingFloatToInt,
    /// The proposal `threads`.
    Threads,
    /// The proposal `shared_everything_threads`.
    SharedEverythingThreads,
    /// The proposal `exceptions`.
    Exceptions,
    /// The proposal `legacy_exceptions`.
    LegacyExceptions,
    /// The proposal `tail_call`.
    TailCall,
    /// The proposal `function_references`.
    FunctionReferences,
    /// The proposal `gc`.
    Gc,
    /// The proposal `custom_descriptors`.
    CustomDescriptors,
    /// The proposal `stack_switching`.
    StackSwitching,
    /// The proposal `memory_control`.
    MemoryControl,
    /// The proposal `wide_arithmetic`.
    WideArithmetic,
    /// The proposal `acquire_release_atomics`.
    AcquireReleaseAtomics,
}

impl Gate {
    /// Whether these features open it.
    #[inline(always)]
    pub fn is_open(self, features: WasmFeatures) -> bool
        ensures { result ≡ is_open features self }
    {
        match self {
            Gate::Mvp => true,
            Gate::Floats => features.floats(),
            Gate::ReferenceTypes => features.reference_types(),
            Gate::BulkMemory => features.bulk_memory(),
            Gate::BulkMemoryOpt => features.bulk_memory_opt(),
            Gate::SignExtension => features.sign_extension(),
            Gate::SaturatingFloatToInt => features.saturating_float_to_int(),
            Gate::Threads => features.threads(),
            Gate::SharedEverythingThreads => features.shared_everything_threads(),
            Gate::Exceptions => features.exceptions(),
            Gate::LegacyExceptions => features.legacy_exceptions(),
            Gate::TailCall => features.tail_call(),
            Gate::FunctionReferences => features.function_references(),
            Gate::Gc => features.gc(),
            Gate::CustomDescriptors => features.custom_descriptors(),
            Gate::StackSwitching => features.stack_switching(),
            Gate::MemoryControl => features.memory_control(),
            Gate::WideArithmetic => features.wide_arithmetic(),
            Gate::AcquireReleaseAtomics => features.acquire_release_atomics(),
        }
    }

    /// The text of the refusal where it is closed.
    pub fn refusal(self) -> &'static str {
        match self {
            Gate::Mvp => "unknown operator",
            Gate::Floats => "floating-point instruction disallowed",
            Gate::ReferenceTypes => "reference types support is not enabled",
            Gate::BulkMemory | Gate::BulkMemoryOpt => "bulk memory support is not enabled",
            Gate::SignExtension => "sign extension operations support is not enabled",
            Gate::SaturatingFloatToInt => {
                "saturating float to int conversions support is not enabled"
            }
            Gate::Threads => "threads support is not enabled",
            Gate::SharedEverythingThreads => { "shared-everything-threads support is not enabled" }
            Gate::Exceptions => "exceptions support is not enabled",
            Gate::LegacyExceptions => "legacy exceptions support is not enabled",
            Gate::TailCall => "tail calls support is not enabled",
            Gate::FunctionReferences => "function references support is not enabled",
            Gate::Gc => "gc support is not enabled",
            Gate::CustomDescriptors => "custom descriptors operations support is not enabled",
            Gate::StackSwitching => "stack switching support is not enabled",
            Gate::MemoryControl => "memory control support is not enabled",
            Gate::WideArithmetic => "wide arithmetic support is not enabled",
            Gate::AcquireReleaseAtomics => "acquire-release atomics support is not enabled",
        }
    }
}
