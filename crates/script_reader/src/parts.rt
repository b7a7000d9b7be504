//! What a script is made of: words, numbers, types, marks, indices, operators with their lines, and what
//! the lines add up to.

mod access;
mod blocks;
mod casts;
mod catches;
mod failure;
mod fields;
mod functions;
mod globals;
mod handlers;
mod indexed;
mod line;
mod listed;
mod memory;
mod names;
mod numbers;
mod references;
mod script;
mod shared;
mod tables;
mod types;
mod values;
mod words;
mod written;

pub use crate::parts::access::read_access;
pub use crate::parts::blocks::read_block_type;
pub use crate::parts::casts::{read_branch_cast, ref_cast, ref_cast_desc_eq, ref_test};
pub use crate::parts::failure::LineError;
pub use crate::parts::functions::read_function;
pub use crate::parts::globals::read_global_type;
pub use crate::parts::indexed::read_indexed;
pub use crate::parts::line::Line;
pub use crate::parts::listed::{ListedOperator, OperatorList, has_list, read_list};
pub use crate::parts::memory::read_memory_type;
pub use crate::parts::names::named_in;
pub use crate::parts::numbers::{read_i32, read_i64, read_index, read_u64};
pub use crate::parts::references::{read_heap_type, read_reference};
pub use crate::parts::script::{BodyLine, Draft, Script};
pub use crate::parts::shared::{SharedAccess, read_ordering, read_shared};
pub use crate::parts::tables::read_table_type;
pub use crate::parts::types::read_type;
pub use crate::parts::values::read_value_type;
pub use crate::parts::words::read_words;
pub use crate::parts::written::Operators;
