//! The lines that are written of a module, in words or as JSON.

use crate::operators::RefusedOperator;
use crate::options::Format;
use crate::written::Written;
use crate::{json, text};
use module_check::{Item, Outcome, Verdict};
use std::alloc::Global;
use std::io;
use std::io::Write;

/// What is found of an item, or of the module as a whole.
#[derive(Clone, Copy)]
pub struct Finding<'r> {
    /// The item, or None for the module.
    pub item: Option<Item>,
    /// The function's name, where it has one.
    pub name: Option<&'r str>,
    /// The operator that is refused, where one is.
    pub operator: Option<RefusedOperator>,
    /// What it comes to.
    pub outcome: Outcome,
    /// Why.
    pub verdict: &'r Verdict,
    /// What is shown of its operators, as it was written: lines, or members of an object.
    pub shown: &'r Written,
}

/// How many bodies and expressions came to what, and how many types are equal to earlier ones.
#[derive(Clone, Copy)]
pub struct Counts {
    /// So many are accepted.
    pub accepted: u64,
    /// So many are refused, as malformed or not valid.
    pub refused: u64,
    /// So many aren't covered.
    pub not_covered: u64,
    /// For so many memory ran out.
    pub out_of_memory: u64,
    /// So many types are equal to earlier ones.
    pub equal_types: usize,
}

impl Counts {
    /// Counts one more.
    pub fn add(&mut self, verdict: &Verdict) {
        match verdict {
            Verdict::Accepted => self.accepted = self.accepted.saturating_add(1),
            Verdict::NotCovered(_) => self.not_covered = self.not_covered.saturating_add(1),
            Verdict::OutOfMemory => self.out_of_memory = self.out_of_memory.saturating_add(1),
            Verdict::Refused(_) | Verdict::Malformed(_) => {
                self.refused = self.refused.saturating_add(1);
            }
        }
    }
}

/// What is found of a module in the end.
#[derive(Clone, Copy)]
pub struct Summary {
    /// What it comes to.
    pub outcome: Outcome,
    /// How many came to what, where that is asked for.
    pub counts: Option<Counts>,
}

/// How the lines of a module are written.
#[derive(Clone, Copy)]
pub struct Lines<'o> {
    /// By what memory is taken.
    pub alloc: Global,
    /// In words, or as JSON.
    pub format: Format,
    /// The file that the module is in, `-` for standard input.
    pub file: &'o [u8],
    /// Whether it is one of several.
    pub is_one_of_several: bool,
}

impl<'o> Lines<'o> {
    /// What a line in words begins with: of several files, the name of this one.
    pub fn prefix(&self) -> Option<&'o [u8]> {
        if self.is_one_of_several {
            Some(self.file)
        } else {
            None
        }
    }

    /// Writes the line of an item or of the module.
    pub fn write_finding<W: Write>(&self, out: &mut W, finding: &Finding<'_>) -> io::Result<()> {
        let mut line = Written::new(self.alloc);
        match self.format {
            Format::Text => text::add_finding(&mut line, self.prefix(), finding),
            Format::Json => json::add_finding(&mut line, self.file, finding),
        }
        line.write_to(out)
    }

    /// Writes what the module comes to.
    pub fn write_summary<W: Write>(&self, out: &mut W, summary: &Summary) -> io::Result<()> {
        let mut line = Written::new(self.alloc);
        match self.format {
            Format::Text => text::add_summary(&mut line, self.prefix(), summary),
            Format::Json => json::add_summary(&mut line, self.file, summary),
        }
        line.write_to(out)
    }
}
