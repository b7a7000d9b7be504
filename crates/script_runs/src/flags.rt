//! Proposals: the lines that turn them on.

use std::alloc::{AllocError, Global};

/// Every flag of a proposal.
const FLAGS: &str = "
multi_value
floats
simd
reference_types
bulk_memory
bulk_memory_opt
sign_extension
saturating_float_to_int
threads
shared_everything_threads
exceptions
legacy_exceptions
tail_call
function_references
gc
custom_descriptors
stack_switching
memory_control
wide_arithmetic
acquire_release_atomics
multibyte_array_access
";

/// The lines that turn every proposal on but this one.
pub fn all_but(alloc: Global, flag: &str) -> Result<String, AllocError> {
    let mut lines = String::new(alloc);
    for name in FLAGS.split_whitespace() {
        if name != flag {
            writeln!(lines, "feature {name}")?;
        }
    }
    Ok(lines)
}

/// Whether this is the name of a flag.
pub fn is_flag(name: &str) -> bool {
    for flag in FLAGS.split_whitespace() {
        if flag == name {
            return true;
        }
    }
    false
}
