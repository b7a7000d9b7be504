//! Why nothing is measured.

/// Why nothing is measured.
#[derive(Clone, Copy)]
pub enum Unmeasured {
    /// A word that the program doesn't know, or `--runs` without a number.
    Words,
    /// The input is no script of a module and a body in order.
    Script,
    /// The body isn't accepted.
    Refused,
    /// The clock, the input, an output or memory is wanting.
    Host,
}

impl Unmeasured {
    /// What is said of it.
    pub fn text(self) -> &'static str {
        match self {
            Unmeasured::Words => "words: [--runs N] [--untimed]",
            Unmeasured::Script => "bad script",
            Unmeasured::Refused => "refused",
            Unmeasured::Host => "no clock, no input, no output or no memory",
        }
    }

    /// The status: 1 where the body isn't accepted, 2 for bad input, 3 for what else is wanting.
    pub fn status(self) -> u8 {
        match self {
            Unmeasured::Refused => 1,
            Unmeasured::Words | Unmeasured::Script => 2,
            Unmeasured::Host => 3,
        }
    }
}
