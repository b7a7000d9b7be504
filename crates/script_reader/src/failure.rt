//! Why a script isn't read.

ghost use Rattle.std.specs.Prelude.{◌≡◌};
ghost use Rattle.script_reader.specs.declared.parts.failure.LineError.{LineError};

use crate::parts::LineError;

/// Why a text gives no script.
#[derive(Clone, Copy)]
pub enum ScriptError {
    /// The line of this number isn't of the grammar or stands out of place.
    BadLine(u64),
    /// There was no memory for it.
    OutOfMemory,
}

impl ScriptError {
    ghost use Rattle.script_reader.specs.declared.failure.ScriptError.{ScriptError};

    /// The error of a script whose line of this number isn't taken.
    pub fn at_line(error: LineError, number: u64) -> ScriptError
        ensures bad { error ≡ LineError.Bad → result ≡ ScriptError.BadLine number }
        ensures memory { error ≡ LineError.OutOfMemory → result ≡ ScriptError.OutOfMemory }
    {
        match error {
            LineError::Bad => ScriptError::BadLine(number),
            LineError::OutOfMemory => ScriptError::OutOfMemory,
        }
    }
}
