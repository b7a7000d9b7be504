//! Value types, the types that a module declares, the proposals that are on, and the error of a
//! refusal: what wasmparser's validator takes from the layers below it.
#![tactic(auto)]

mod display;
mod error;
mod features;
mod gate;
mod heap;
mod operand;
mod refs;
mod refusal;
mod signature;
mod texts;
mod types;

pub use crate::error::{Error, OutOfMemory};
pub use crate::features::WasmFeatures;
pub use crate::gate::Gate;
pub use crate::heap::{AbstractHeapType, CoreTypeId, HeapType, PackedIndex, UnpackedIndex};
pub use crate::operand::{LocalType, Operand};
pub use crate::refs::RefType;
pub use crate::refusal::{ClauseKind, NotDone, Packing, Refusal, Refused, Told, grown};
pub use crate::signature::func_signature_matches;
pub use crate::texts::Wording;
pub use crate::types::{
    ArrayType, CompositeInnerType, CompositeType, ContType, FieldType, FuncType, GlobalType,
    MaybeType, MemoryType, StorageType, StructType, SubType, TableType, ValType,
};
pub use bitflags::Flags;
