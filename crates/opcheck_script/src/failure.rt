//! Why a script isn't run to a verdict.

ghost use Rattle.std.specs.Prelude.{◌≡◌, Some};

use script_reader::ScriptError;
use std::alloc::AllocError;
use std::fmt;

/// Why a script is no script.
#[derive(Clone, Copy)]
pub enum BadScript {
    /// It can't be read, or isn't UTF-8.
    Input,
    /// The line of this number isn't of the grammar or stands out of place.
    Line(u64),
    /// Its operators aren't well ordered.
    Order,
    /// Its declarations are those of no module.
    Module,
}

impl fmt::Display for BadScript {
    ghost use Rattle.opcheck_script.specs.Texts.{cause_text};

    ghost output = { λ cause. Some (cause_text cause) };

    fn fmt<W: fmt::Write>(&self, f: &mut fmt::Formatter<W>) -> fmt::Result {
        match self {
            BadScript::Input => write!(f, "input"),
            BadScript::Line(number) => write!(f, "line {number}"),
            BadScript::Order => write!(f, "order"),
            BadScript::Module => write!(f, "module"),
        }
    }
}

/// Why a run ends without a verdict.
#[derive(Clone, Copy)]
pub enum Failure {
    /// What was read is no script.
    BadScript(BadScript),
    /// There was no memory.
    OutOfMemory,
    /// Standard output took no more.
    Output,
}

impl From<BadScript> for Failure {
    ghost use Rattle.opcheck_script.specs.declared.failure.Failure.{Failure};

    ghost from_gives = { λ bad failure. failure ≡ Failure.BadScript bad };

    fn from(bad: BadScript) -> Failure {
        Failure::BadScript(bad)
    }
}

impl From<ScriptError> for Failure {
    ghost use Rattle.opcheck_script.specs.Status.{failure_of};

    ghost from_gives = { λ error failure. failure ≡ failure_of error };

    fn from(error: ScriptError) -> Failure {
        match error {
            ScriptError::BadLine(number) => Failure::BadScript(BadScript::Line(number)),
            ScriptError::OutOfMemory => Failure::OutOfMemory,
        }
    }
}

impl From<AllocError> for Failure {
    ghost use Rattle.opcheck_script.specs.declared.failure.Failure.{Failure};

    ghost from_gives = { λ _ failure. failure ≡ Failure.OutOfMemory };

    fn from(_error: AllocError) -> Failure {
        Failure::OutOfMemory
    }
}
