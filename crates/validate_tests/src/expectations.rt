//! What a test expects. A call of these is proved at once, where a branch for what isn't met, and the text
//! of it, cost seconds each.
//!
//! Where memory is wanting a test ends its process, in words of its own (`WANTING`): so `tests/growths.py` can ask for these,
//! and no function has a way out of which all that is dropped there would be proved.

ghost use Rattle.std.specs.Prelude.{◌≡◌, true, Ok};

use script_reader::ScriptError;
use std::alloc::{AllocError, AllocFailed};
use std::fmt::Debug;
use std::process::Abort;
use wasmparser_validate::types::{Error, OutOfMemory};

/// The last words of a test for which memory was wanting (`tests/c/growths.c`).
const WANTING: &str = "memory is wanting";

/// It is so.
pub fn expect(rt: &impl Abort, is_so: bool)
    ensures { is_so ≡ true }
{
    assert!(rt; is_so);
}

/// What was found is what was expected.
pub fn expect_same<T: PartialEq + Debug + Drop>(rt: &impl Abort, found: T, expected: T) {
    assert_eq!(rt; found, expected);
}

/// The text that was found of this is the one that was expected.
pub fn expect_text(rt: &impl Abort, found: &str, expected: &str, of: &str) {
    assert_eq!(rt; found, expected, "{of}");
}

/// Ends the test if memory was wanting.
pub fn expect_memory(rt: &impl Abort, is_wanting: bool) {
    if is_wanting {
        rt.panic(WANTING)
    }
}

/// Whether it is refused since memory was wanting.
pub fn wants_memory(answer: &Result<(), Error>) -> bool {
    match answer {
        Ok(()) => false,
        Err(refusal) => refusal.is_out_of_memory(),
    }
}

/// An error that may be want of memory.
pub trait Failure {
    /// Its words: `out of memory` for want of memory.
    fn words(&self) -> &str;
}

impl Failure for Error {
    fn words(&self) -> &str {
        self.message()
    }
}

impl Failure for ScriptError {
    fn words(&self) -> &str {
        match self {
            ScriptError::OutOfMemory => "out of memory",
            ScriptError::BadLine(_) => "a bad line",
        }
    }
}

impl Failure for OutOfMemory {
    fn words(&self) -> &str {
        "out of memory"
    }
}

impl Failure for AllocError {
    fn words(&self) -> &str {
        "out of memory"
    }
}

impl<T> Failure for AllocFailed<T> {
    fn words(&self) -> &str {
        "out of memory"
    }
}

/// What was answered: nothing is refused. The test ends if memory was wanting.
pub fn ample<T, E: Failure>(rt: &impl Abort, answer: Result<T, E>) -> T
    ensures { answer ≡ Ok result }
{
    match answer {
        Ok(value) => value,
        Err(failure) => {
            expect_text(rt, failure.words(), "out of memory", "what is accepted");
            rt.panic(WANTING)
        }
    }
}

/// The refusal, in these words. The test ends if memory was wanting.
pub fn refused<T>(rt: &impl Abort, answer: Result<T, Error>, words: &str) -> Error {
    match answer {
        Ok(_) => rt.panic(format_args!("accepted, and not refused: {words}")),
        Err(refusal) => {
            expect_memory(rt, refusal.is_out_of_memory());
            expect_text(rt, refusal.message(), words, words);
            refusal
        }
    }
}

/// It is refused in these words, at this offset. The test ends if memory was wanting.
pub fn expect_error<T>(rt: &impl Abort, answer: Result<T, Error>, words: &str, offset: u64) {
    let refusal = refused(rt, answer, words);
    expect_same(rt, refusal.offset(), offset);
}
