//! Scripts, which declare a module and a body: reading one, line by line, with types and operators by
//! their names.
#![tactic(auto)]

mod access;
mod atomic;
mod conversions;
mod failure;
mod features;
mod lines;
mod memory;
mod numeric;
mod operators;
mod parts;
mod plain;
mod script;
mod shared;

pub use crate::failure::ScriptError;
pub use crate::operators::read_operator;
pub use crate::parts::{BodyLine, LineError, ListedOperator, OperatorList, Operators, Script};
pub use crate::script::read_script;
