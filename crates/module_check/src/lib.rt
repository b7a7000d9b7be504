//! The check of a binary module: what it declares is to be valid, each body of a function and each constant
//! expression is read and handed to the validator, and what comes of it is reported.
#![tactic(auto)]

mod body;
mod buffers;
mod code;
mod common;
mod constant;
mod expression;
mod first_bytes;
mod indexed;
mod items;
mod load_refusal;
mod loaded;
mod module_verdict;
mod operator_names;
mod operators;
mod outcome;
mod reasons;
mod told;
mod unbodied;
mod verdict;
mod whole;

pub use crate::body::{BodyContext, check_body};
pub use crate::buffers::BodyBuffers;
pub use crate::code::CodeReader;
pub use crate::constant::ConstantPlace;
pub use crate::items::{Checked, check_item, item_count};
pub use crate::load_refusal::LoadRefusal;
pub use crate::loaded::LoadedModule;
pub use crate::module_verdict::{ModuleVerdict, write_text};
pub use crate::operator_names::operator_name;
pub use crate::outcome::{NO_BODY, NOT_LOADED, OUT_OF_MEMORY, Outcome, TOO_LARGE, VALID};
pub use crate::unbodied::LoadedDeclarations;
pub use crate::verdict::{CheckError, Item, ItemName, Verdict};
pub use crate::whole::{check_function, check_module};
pub use binary_modules::{ConstantExpression, FunctionNames};
pub use binary_operators::{CanonicalTypes, OperatorLists, ReadError};
pub use module_rules::{ConstantContext, ModuleFeatures, Place};
