//! What checks come to, each with its status, its word and its weight: the one list of these.

ghost use Rattle.std.specs.Prelude.{◌≡◌, ◌⊎◌, min, nat_lt};
ghost use Rattle.module_check.specs.Verdicts.{outcome_of, status, weight};
ghost use Rattle.module_check.specs.declared.outcome.Outcome.TheVariants.{Valid};

use crate::verdict::Verdict;

/// The status of what is valid: what a module declares is valid, and each body and each constant expression is
/// accepted.
pub const VALID: u32 = 0;

/// The status of what is invalid: what a module declares isn't valid, or a body or a constant expression is refused.
pub const INVALID: u32 = 1;

/// The status where bytes aren't of the binary format.
pub const MALFORMED: u32 = 2;

/// The status if memory ran out.
pub const OUT_OF_MEMORY: u32 = 3;

/// The status if nothing is refused, and something isn't covered.
pub const NOT_COVERED: u32 = 4;

/// The status where a file can't be read. Callers in C hand bytes over: for them it is [`NO_BODY`].
pub const UNREADABLE: u32 = 5;

/// The status where the module has no body for the function.
pub const NO_BODY: u32 = 5;

/// The status where there is no module.
pub const NOT_LOADED: u32 = 6;

/// The status where what a module declares is past a limit of this implementation.
pub const TOO_LARGE: u32 = 7;

/// What the check of a body, of a module or of several modules comes to: of several it is the gravest.
#[derive(Clone, Copy)]
pub enum Outcome {
    /// It is valid.
    Valid,
    /// Nothing is refused, and a vector operator isn't covered.
    NotCovered,
    /// What it declares is past a limit of this implementation. Whether it is valid isn't told.
    TooLarge,
    /// It isn't valid.
    Invalid,
    /// Its bytes aren't those of a module.
    Malformed,
    /// Its file can't be read.
    Unreadable,
    /// Memory ran out.
    OutOfMemory,
}

impl Outcome {
    /// What a verdict says of what it is about.
    pub fn of(verdict: &Verdict) -> Outcome
        ensures { result ≡ outcome_of verdict.now }
    {
        match verdict {
            Verdict::Accepted => Outcome::Valid,
            Verdict::NotCovered(_) => Outcome::NotCovered,
            Verdict::Refused(_) => Outcome::Invalid,
            Verdict::Malformed(_) => Outcome::Malformed,
            Verdict::OutOfMemory => Outcome::OutOfMemory,
        }
    }

    /// The outcome that has this status. What no check comes to is taken for what can't be read.
    pub(crate) fn of_status(number: u32) -> Outcome
        ensures { status result ≡ min number 5 }
    {
        match number {
            VALID => Outcome::Valid,
            INVALID => Outcome::Invalid,
            MALFORMED => Outcome::Malformed,
            OUT_OF_MEMORY => Outcome::OutOfMemory,
            NOT_COVERED => Outcome::NotCovered,
            _ => Outcome::Unreadable,
        }
    }

    /// How grave it is.
    fn weight(self) -> u8
        ensures { result ≡ weight self }
    {
        match self {
            Outcome::Valid => 0,
            Outcome::NotCovered => 1,
            Outcome::TooLarge => 2,
            Outcome::Invalid => 3,
            Outcome::Malformed => 4,
            Outcome::Unreadable => 5,
            Outcome::OutOfMemory => 6,
        }
    }

    /// Whether it is graver than another.
    pub fn is_graver(self, other: Outcome) -> bool
        ensures { result ≡ nat_lt (weight other) (weight self) }
    {
        other.weight() < self.weight()
    }

    /// The graver of two: it is valid only if both are, and not covered only if one isn't.
    pub fn or(self, other: Outcome) -> Outcome
        ensures valid { result ≡ Valid → (self ≡ Valid) × (other ≡ Valid) }
        ensures either { (result ≡ self) ⊎ (result ≡ other) }
    {
        if other.is_graver(self) { other } else { self }
    }

    /// Its status.
    pub fn status(self) -> u32
        ensures { result ≡ status self }
    {
        match self {
            Outcome::Valid => VALID,
            Outcome::Invalid => INVALID,
            Outcome::Malformed => MALFORMED,
            Outcome::OutOfMemory => OUT_OF_MEMORY,
            Outcome::NotCovered => NOT_COVERED,
            Outcome::Unreadable => UNREADABLE,
            Outcome::TooLarge => TOO_LARGE,
        }
    }

    /// What is said of a module.
    pub fn word(self) -> &'static str {
        match self {
            Outcome::Valid => "valid",
            Outcome::Invalid => "invalid",
            Outcome::Malformed => "malformed",
            Outcome::OutOfMemory => "out of memory",
            Outcome::NotCovered => "not covered",
            Outcome::Unreadable => "unreadable",
            Outcome::TooLarge => "too large",
        }
    }
}
