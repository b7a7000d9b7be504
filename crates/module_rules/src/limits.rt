//! The limits of an implementation (wasmparser's `limits`; WebAssembly core specification, appendix
//! "Implementation Limitations"). The standard sets none of them.

/// How many types a module has at the most.
pub const MAX_WASM_TYPES: usize = 1_000_000;
/// How many supertypes lie above a type at the most, one above the other.
pub const MAX_WASM_SUBTYPING_DEPTH: usize = 63;
/// How many fields a struct type has at the most.
pub const MAX_WASM_STRUCT_FIELDS: usize = 10_000;
/// How many imports a module has at the most.
pub const MAX_WASM_IMPORTS: usize = 1_000_000;
/// How many functions a module has at the most, imported ones among them.
pub const MAX_WASM_FUNCTIONS: usize = 1_000_000;
/// How many tables a module has at the most, imported ones among them.
pub const MAX_WASM_TABLES: usize = 100;
/// How many memories a module has at the most, imported ones among them.
pub const MAX_WASM_MEMORIES: usize = 100;
/// How many globals a module has at the most, imported ones among them.
pub const MAX_WASM_GLOBALS: usize = 1_000_000;
/// How many tags a module has at the most, imported ones among them.
pub const MAX_WASM_TAGS: usize = 1_000_000;
/// How many exports a module has at the most.
pub const MAX_WASM_EXPORTS: usize = 1_000_000;
/// How many element segments a module has at the most.
pub const MAX_WASM_ELEMENT_SEGMENTS: usize = 100_000;
/// How many data segments a module has at the most.
pub const MAX_WASM_DATA_SEGMENTS: usize = 100_000;
/// How many items an element segment has at the most.
pub const MAX_WASM_TABLE_ENTRIES: u64 = 10_000_000;
