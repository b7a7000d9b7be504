//! What one body after another is checked in.

use binary_operators::OperatorLists;
use std::alloc::Global;
use validate_operators::OperatorValidator;
use validate_stacks::OperatorValidatorAllocations;
use validate_types::{Flags, WasmFeatures};

/// The buffers that the check of a body uses, and leaves for the next. No answer depends on what stands in them.
#[derive(Drop)]
pub struct BodyBuffers {
    /// The validator, which begins anew for each body.
    pub(crate) validator: OperatorValidator,
    /// For the list of one operator.
    pub(crate) lists: OperatorLists,
    /// What the buffers are taken by.
    alloc: Global,
}

impl BodyBuffers {
    /// Empty buffers. It takes no memory.
    pub fn new(alloc: Global) -> BodyBuffers {
        let none = OperatorValidatorAllocations::new(alloc);
        BodyBuffers {
            validator: OperatorValidator::new(&WasmFeatures::empty(), none),
            lists: OperatorLists::new(alloc),
            alloc,
        }
    }

    /// What the buffers are taken by.
    pub(crate) fn allocator(&self) -> Global {
        self.alloc
    }
}
