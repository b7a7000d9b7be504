//! What a handle of C keeps.

use crate::function::FunctionInProgress;
use crate::shared::SharedModule;

/// What a handle of C keeps.
#[derive(Drop)]
pub enum Kept {
    /// A share of a module.
    Module(SharedModule),
    /// A function in progress.
    Function(FunctionInProgress),
}
