//! The stacks of a body, with the lookup of its module.

use crate::stacks::Stacks;

/// The stacks of a body with the lookup of its module: what the check of an operator is made over.
#[derive(Drop)]
pub struct OperatorContext<'a, 'b, R> {
    /// The operands, the frames and the locals.
    pub stacks: &'a mut Stacks,
    /// The lookup.
    pub resources: &'b R,
}
