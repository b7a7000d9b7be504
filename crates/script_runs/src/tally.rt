//! What scripts came to.

use crate::runs::Way;
use std::alloc::{AllocError, Global};
use std::str;

/// The text that these bytes are.
fn text_of(bytes: &[u8]) -> &str {
    str::from_utf8(bytes).unwrap_or("bytes that are no text")
}

/// What the scripts of a file came to.
#[derive(Drop)]
pub struct Tally {
    /// How many there were.
    pub scripts: u64,
    /// What is done with each.
    pub way: Way,
    /// What is printed of them, where that is what is done.
    pub printed: String,
    /// What is written of those that came to something else than expected.
    pub mismatches: String,
}

impl Tally {
    /// Of no script yet.
    pub fn new(alloc: Global, way: Way) -> Tally {
        Tally {
            scripts: 0,
            way,
            printed: String::new(alloc),
            mismatches: String::new(alloc),
        }
    }

    /// A further script.
    pub fn count(&mut self) {
        self.scripts = self.scripts.saturating_add(1);
    }

    /// Begins what is printed of a script.
    pub fn begin_printed(&mut self) -> Result<(), AllocError> {
        self.printed.push_str("@\n")
    }

    /// Prints this of a script.
    pub fn add_printed(&mut self, bytes: &[u8]) -> Result<(), AllocError> {
        self.begin_printed()?;
        self.printed.push_str(text_of(bytes))
    }

    /// Writes it down where what the script does isn't what is expected.
    pub fn compare(
        &mut self,
        script: &str,
        does: &str,
        found: &str,
        expected: &str,
    ) -> Result<(), AllocError> {
        if found == expected {
            return Ok(());
        }
        writeln!(
            self.mismatches,
            "{script}\n{does}:\n{found}\nand not:\n{expected}"
        )
    }

    /// The same of an output.
    pub fn compare_output(
        &mut self,
        script: &str,
        does: &str,
        found: &[u8],
        expected: &str,
    ) -> Result<(), AllocError> {
        self.compare(script, does, text_of(found), expected)
    }

    /// The same of a number: a status, or a height.
    pub fn compare_number(
        &mut self,
        script: &str,
        does: &str,
        found: usize,
        expected: usize,
    ) -> Result<(), AllocError> {
        if found == expected {
            return Ok(());
        }
        writeln!(
            self.mismatches,
            "{script}\n{does} {found} and not {expected}"
        )
    }

    /// A section, or a line of one, can't be read.
    pub fn refuse(&mut self, text: &str, why: &str) -> Result<(), AllocError> {
        writeln!(self.mismatches, "{text}\n{why}")
    }
}
