//! The stacks of a body that is being validated: its operands, its open frames and its locals, seen
//! by contracts as the static state of the rules of validation.
#![tactic(auto)]

mod allocations;
mod at_once;
pub mod blocks;
mod change;
mod context;
mod control;
mod counted;
mod either;
mod exchanges;
mod finds;
mod laws;
mod lists;
mod movers;
pub mod pops;
mod refusals;
mod stacks;

pub use crate::allocations::OperatorValidatorAllocations;
pub use crate::change::Change;
pub use crate::context::OperatorContext;
pub use crate::counted::Pops;
pub use crate::either::Either;
pub use crate::laws::shape_law;
pub use crate::pops::ty_to_str;
pub use crate::stacks::Stacks;
pub use validate_transaction::Pile;
