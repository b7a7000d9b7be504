//! The static library: the calls of `ffi/tansyattic.h`. Each does what the function of `c_api` does that it calls, where its
//! contract stands, and has no other. They stand in a crate of their own, since a static library is proved once more
//! where it is built, and since only functions of its own crate are exported (docs/EMBEDDING.md).
#![tactic(auto)]

use c_api::{Handle, ShownFrame, ShownType};
use module_check::ModuleVerdict;
use std::alloc::Global;

/// The version of the library.
const VERSION: u32 = 0x00_02_00;

/// The version of the library: 65,536 times the major number, 256 times the minor one, and the patch.
#[unsafe(no_mangle)]
pub extern "C" fn tansyattic_version() -> u32 {
    VERSION
}

/// [`c_api::validate`]
#[unsafe(no_mangle)]
pub extern "C" fn tansyattic_raw_validate(
    alloc: Global,
    bytes: &[u8],
    features: u32,
    text: &mut [u8],
    out: &mut ModuleVerdict,
) -> u32 {
    c_api::validate(alloc, bytes, features, text, out)
}

/// [`c_api::free`]
#[unsafe(no_mangle)]
pub extern "C" fn tansyattic_free(alloc: Global, handle: &mut Handle) {
    c_api::free(alloc, handle);
}

/// [`c_api::load`]
#[unsafe(no_mangle)]
pub extern "C" fn tansyattic_raw_load(
    alloc: Global,
    bytes: &'static [u8],
    features: u32,
    handle: &mut Handle,
    text: &mut [u8],
    out: &mut ModuleVerdict,
) -> u32 {
    c_api::load(alloc, bytes, features, handle, text, out)
}

/// [`c_api::declare`]
#[unsafe(no_mangle)]
pub extern "C" fn tansyattic_raw_declare(
    alloc: Global,
    bytes: &[u8],
    features: u32,
    handle: &mut Handle,
    text: &mut [u8],
    out: &mut ModuleVerdict,
) -> u32 {
    c_api::declare(alloc, bytes, features, handle, text, out)
}

/// [`c_api::share`]
#[unsafe(no_mangle)]
pub extern "C" fn tansyattic_share(alloc: Global, handle: &mut Handle, other: &mut Handle) -> u32 {
    c_api::share(alloc, handle, other)
}

/// [`c_api::functions`]
#[unsafe(no_mangle)]
pub extern "C" fn tansyattic_functions(alloc: Global, handle: &mut Handle) -> u32 {
    c_api::functions(alloc, handle)
}

/// [`c_api::imported_functions`]
#[unsafe(no_mangle)]
pub extern "C" fn tansyattic_imported_functions(alloc: Global, handle: &mut Handle) -> u32 {
    c_api::imported_functions(alloc, handle)
}

/// [`c_api::validate_function`]
#[unsafe(no_mangle)]
pub extern "C" fn tansyattic_raw_validate_function(
    alloc: Global,
    handle: &mut Handle,
    function: u32,
    text: &mut [u8],
    out: &mut ModuleVerdict,
) -> u32 {
    c_api::validate_function(alloc, handle, function, text, out)
}

/// [`c_api::validate_module`]
#[unsafe(no_mangle)]
pub extern "C" fn tansyattic_raw_validate_module(
    alloc: Global,
    handle: &mut Handle,
    text: &mut [u8],
    out: &mut ModuleVerdict,
) -> u32 {
    c_api::validate_module(alloc, handle, text, out)
}

/// [`c_api::validate_next`]
#[unsafe(no_mangle)]
pub extern "C" fn tansyattic_raw_validate_next(
    alloc: Global,
    handle: &mut Handle,
    position: &mut usize,
    text: &mut [u8],
    out: &mut ModuleVerdict,
) -> u32 {
    c_api::validate_next(alloc, handle, position, text, out)
}

/// [`c_api::begin`]
#[unsafe(no_mangle)]
pub extern "C" fn tansyattic_raw_begin(
    alloc: Global,
    module: &mut Handle,
    type_index: u32,
    function: &mut Handle,
    text: &mut [u8],
    out: &mut ModuleVerdict,
) -> u32 {
    c_api::begin(alloc, module, type_index, function, text, out)
}

/// [`c_api::begin_expression`]
#[unsafe(no_mangle)]
pub extern "C" fn tansyattic_raw_begin_expression(
    alloc: Global,
    module: &mut Handle,
    shown: &ShownType,
    function: &mut Handle,
    text: &mut [u8],
    out: &mut ModuleVerdict,
) -> u32 {
    c_api::begin_expression(alloc, module, shown, function, text, out)
}

/// [`c_api::op`]
#[unsafe(no_mangle)]
pub extern "C" fn tansyattic_raw_op(
    alloc: Global,
    handle: &mut Handle,
    bytes: &[u8],
    offset: u64,
    taken: &mut usize,
    text: &mut [u8],
    out: &mut ModuleVerdict,
) -> u32 {
    c_api::op(alloc, handle, bytes, offset, taken, text, out)
}

/// [`c_api::try_op`]
#[unsafe(no_mangle)]
pub extern "C" fn tansyattic_raw_try_op(
    alloc: Global,
    handle: &mut Handle,
    bytes: &[u8],
    offset: u64,
    taken: &mut usize,
    text: &mut [u8],
    out: &mut ModuleVerdict,
) -> u32 {
    c_api::try_op(alloc, handle, bytes, offset, taken, text, out)
}

/// [`c_api::define_locals`]
#[unsafe(no_mangle)]
pub extern "C" fn tansyattic_raw_define_locals(
    alloc: Global,
    handle: &mut Handle,
    count: u32,
    shown: &ShownType,
    offset: u64,
    text: &mut [u8],
    out: &mut ModuleVerdict,
) -> u32 {
    c_api::define_locals(alloc, handle, count, shown, offset, text, out)
}

/// [`c_api::finish`]
#[unsafe(no_mangle)]
pub extern "C" fn tansyattic_raw_finish(
    alloc: Global,
    handle: &mut Handle,
    offset: u64,
    text: &mut [u8],
    out: &mut ModuleVerdict,
) -> u32 {
    c_api::finish(alloc, handle, offset, text, out)
}

/// [`c_api::begin_body`]
#[unsafe(no_mangle)]
pub extern "C" fn tansyattic_raw_begin_body(
    alloc: Global,
    module: &mut Handle,
    index: u32,
    function: &mut Handle,
    first: &mut u64,
    behind: &mut u64,
    text: &mut [u8],
    out: &mut ModuleVerdict,
) -> u32 {
    c_api::begin_body(alloc, module, index, function, first, behind, text, out)
}

/// [`c_api::operator_name`]
#[unsafe(no_mangle)]
pub extern "C" fn tansyattic_raw_operator_name(bytes: &[u8], text: &mut [u8]) -> usize {
    c_api::operator_name(bytes, text)
}

/// [`c_api::function_name`]
#[unsafe(no_mangle)]
pub extern "C" fn tansyattic_raw_function_name(
    alloc: Global,
    handle: &mut Handle,
    function: u32,
    text: &mut [u8],
) -> usize {
    c_api::function_name(alloc, handle, function, text)
}

/// [`c_api::operands`]
#[unsafe(no_mangle)]
pub extern "C" fn tansyattic_operands(alloc: Global, handle: &mut Handle) -> u64 {
    c_api::operands(alloc, handle)
}

/// [`c_api::frames`]
#[unsafe(no_mangle)]
pub extern "C" fn tansyattic_frames(alloc: Global, handle: &mut Handle) -> u64 {
    c_api::frames(alloc, handle)
}

/// [`c_api::locals`]
#[unsafe(no_mangle)]
pub extern "C" fn tansyattic_locals(alloc: Global, handle: &mut Handle) -> u32 {
    c_api::locals(alloc, handle)
}

/// [`c_api::operand`]
#[unsafe(no_mangle)]
pub extern "C" fn tansyattic_operand(
    alloc: Global,
    handle: &mut Handle,
    depth: u64,
    shown: &mut ShownType,
) -> u32 {
    c_api::operand(alloc, handle, depth, shown)
}

/// [`c_api::frame`]
#[unsafe(no_mangle)]
pub extern "C" fn tansyattic_frame(
    alloc: Global,
    handle: &mut Handle,
    depth: u64,
    shown: &mut ShownFrame,
) -> u32 {
    c_api::frame(alloc, handle, depth, shown)
}

/// [`c_api::local`]
#[unsafe(no_mangle)]
pub extern "C" fn tansyattic_local(
    alloc: Global,
    handle: &mut Handle,
    index: u32,
    shown: &mut ShownType,
) -> u32 {
    c_api::local(alloc, handle, index, shown)
}

/// [`c_api::free`]
#[unsafe(no_mangle)]
pub extern "C" fn tansyattic_free_function(alloc: Global, handle: &mut Handle) {
    c_api::free(alloc, handle);
}
