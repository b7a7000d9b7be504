//! The check of binary modules as programs in C and Rust call it. A module that was read, and a function that is validated
//! operator by operator, lie behind handles. What callers keep to stands in `ffi/tansyattic.h` (docs/EMBEDDING.md); the
//! static library `tansyattic` exports these functions under the header's names.
#![tactic(auto)]

mod accepted;
mod body_calls;
mod calls;
mod found;
mod function;
mod function_calls;
mod handle;
mod items;
mod kept;
mod loose;
mod on_refusal;
mod shared;
mod shown;
mod shown_calls;
mod visits;

pub use crate::body_calls::{begin_body, function_name, operator_name};
pub use crate::calls::{
    declare, free, functions, imported_functions, load, share, validate, validate_function,
    validate_module, validate_next,
};
pub use crate::function_calls::{begin, begin_expression, define_locals, finish, op, try_op};
pub use crate::handle::Handle;
pub use crate::shown::{ShownFrame, ShownType};
pub use crate::shown_calls::{frame, frames, local, locals, operand, operands};
