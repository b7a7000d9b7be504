//! A law of the stacks, as the contract of a function that does nothing.

ghost use Rattle.validate_stacks.specs.Heights.{HeightsRise};
ghost use Rattle.validate_stacks.specs.State.{BodyState};

/// The shape of the stacks, in whatever state an accepted or a refused call leaves them: the heights of
/// the open frames don't fall from a frame to the one inside it, and none passes the number of operands.
pub fn shape_law()
    ensures { (v : BodyState) → HeightsRise v }
{}
