//! Why a line isn't read.

ghost use Rattle.std.specs.Prelude.{◌≡◌, ◌++◌, ◌∷◌, [], IfErr, OnOk};
ghost use Rattle.script_reader.specs.declared.parts.failure.LineError.{LineError};

use std::alloc::{AllocError, AllocFailed};

/// Why a line isn't taken.
#[derive(Clone, Copy)]
pub enum LineError {
    /// It isn't of the grammar or stands out of place.
    Bad,
    /// There was no memory for it.
    OutOfMemory,
}

impl From<AllocError> for LineError {
    ghost use Rattle.script_reader.specs.declared.parts.failure.LineError.{LineError};

    ghost from_gives = { λ _ error. error ≡ LineError.OutOfMemory };

    fn from(_error: AllocError) -> LineError {
        LineError::OutOfMemory
    }
}

impl<T: Drop> From<AllocFailed<T>> for LineError {
    ghost use Rattle.script_reader.specs.declared.parts.failure.LineError.{LineError};

    ghost from_gives = { λ _ error. error ≡ LineError.OutOfMemory };

    fn from(_error: AllocFailed<T>) -> LineError {
        LineError::OutOfMemory
    }
}

/// Adds an item to a list. It refuses want of memory alone.
pub(crate) fn push<T: Drop>(list: &mut Vec<T>, item: T) -> Result<(), LineError>
    ensures added { OnOk result (list.new.items ≡ list.old.items ++ item ∷ []) }
    ensures short { IfErr result (λ e. e ≡ LineError.OutOfMemory) }
{
    match list.push(item) {
        Ok(()) => Ok(()),
        Err(_) => Err(LineError::OutOfMemory),
    }
}
