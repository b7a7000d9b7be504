//! The validator of a function's body, which keeps the operators that it accepts, and the types of the
//! operands between operators.

mod function;
mod operands;

pub use crate::func::function::FuncValidator;
pub use crate::func::operands::operands_before;
