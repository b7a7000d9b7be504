//! What the check of a script comes to.

use validate_types::{Error, ValType};

/// What is there after an operator that is accepted.
#[derive(Drop)]
pub struct After {
    /// How many operands.
    pub operands: usize,
    /// How many open frames.
    pub frames: usize,
    /// The types of the operands, the lowest first, where the script shows them: None for one that isn't
    /// known.
    pub types: Option<Vec<Option<ValType>>>,
}

/// What is answered at each operator, up to the end of the run.
#[derive(Drop)]
pub enum Answers {
    /// Of a script without `try` and `show` lines: how many operands and frames there are after each
    /// accepted operator.
    Heights(Vec<(usize, usize)>),
    /// Of a script with such lines: what is there after each accepted operator, or the refusal of an attempt.
    Each(Vec<Result<After, Error>>),
}

/// What the validator says of a body.
#[derive(Drop)]
pub struct Report {
    /// What it answers at each operator.
    pub answers: Answers,
    /// Whether the outermost frame is closed; or the refusal that ended the run.
    pub outcome: Result<bool, Error>,
}
