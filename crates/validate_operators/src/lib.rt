//! The validator of a body: an operator by its value, which is its gate and then the body of its row; the validator's state,
//! the checks of one operator and of a list, attempts, and the law of type safety.
#![tactic(auto)]

mod attempts;
mod begin;
mod bodies;
mod check;
mod operator;
mod parts;
mod popped;
mod proposal;
mod safety;
mod validator;

pub use crate::attempts::{try_and_undo, try_op};
pub use crate::begin::begin_body;
pub use crate::check::check_ops;
pub use crate::operator::check_operator;
pub use crate::proposal::WasmProposalValidator;
pub use crate::safety::safety_law;
pub use crate::validator::OperatorValidator;
