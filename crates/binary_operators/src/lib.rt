//! The bytes of a binary module, the numbers and the types in them, and operators by their codes, with what stands in
//! their immediates.
#![tactic(auto)]

mod atomics;
mod blocks;
mod casts;
mod codes;
mod error;
mod forms;
mod integers;
mod lists;
mod memory;
mod numeric;
mod operators;
mod reader;
mod types;

pub use crate::codes::access_op;
pub use crate::error::{Cause, Fault, ReadError};
pub use crate::forms::{Form, form_of};
pub use crate::lists::{OperatorLists, push};
pub use crate::memory::read_memarg;
pub use crate::numeric::{conversion_op, numeric_op};
pub use crate::operators::{read_operator, read_operator_into};
pub use crate::reader::BinaryReader;
pub use crate::types::{
    CanonicalTypes, GroupNames, read_ref_type, read_type_number, read_value_type,
};
