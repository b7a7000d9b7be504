//! Binary modules: what a module declares, read into what the validator is handed, and where its bodies and
//! constant expressions stand.
#![tactic(auto)]

mod contents;
mod data;
mod elements;
mod entries;
mod expressions;
mod groups;
mod imports;
mod initializers;
mod items;
mod limits;
mod lists;
mod mixed;
mod names;
mod own;
mod owned;
mod parts;
mod section_list;
mod subtypes;
mod whole;

pub use crate::initializers::ConstantExpression;
pub use crate::names::{FunctionNames, read_function_names};
pub use crate::whole::{Module, read_module};
