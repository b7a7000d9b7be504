//! Files of cases.
//!
//! A section begins with a line `@KIND`, and what follows up to the next one is its text. One that begins with
//! `@#` is a comment, of as many lines as it has. The first lines of scripts:
//!
//! - `@head`: these are the first lines of the scripts of the sections to come;
//! - `@without FLAG`: the same, behind lines that turn on every proposal but this one.
//!
//! What is run behind them:
//!
//! - `@scripts`: a transcript (`transcript.rt`);
//! - `@rows` and then `@each`: a transcript that is run once for each row, filled by it;
//! - `@bad`: lines, of which each makes a script bad;
//! - `@given`: lines of operators that are all accepted, each with the types of the operands behind them;
//! - `@left`: lines of operators of which the last alone is refused, with those that are left (`left.rt`);
//! - `@undone`: a body of operators that are visited, or attempted and taken back (`undone.rt`);
//! - `@paired`: the same over a lookup in which indices 2i and 2i + 1 name type i of the module;
//! - `@wanting CHECK`: the same over a lookup of which this check finds no memory each other time, the first time too.
//!
//! Behind `@scripts` and `@each` the words `with custom_descriptors` may say that scripts without `feature` lines
//! answer so with custom descriptors alone: `tests/ways.py` doesn't run these without them.

use crate::bodies::Lookup;
use crate::flags::{all_but, is_flag};
use crate::left::run_left;
use crate::tally::Tally;
use crate::transcript::{run_bad_lines, run_each, run_transcript};
use crate::undone::run_undone;
use crate::wanting::Check;
use std::alloc::{AllocError, Global};

/// Over which lookup the lines of a section are visited or undone, by its kind and the words behind it.
fn lookup_of(kind: &str, words: &str) -> Option<Lookup> {
    match (kind, words) {
        ("undone", "") => Some(Lookup::Own),
        ("paired", "") => Some(Lookup::Paired),
        ("wanting", "check_heap_type") => Some(Lookup::Wanting(Check::HeapType)),
        ("wanting", "check_ref_type") => Some(Lookup::Wanting(Check::RefType)),
        ("wanting", "check_value_type") => Some(Lookup::Wanting(Check::ValueType)),
        _ => None,
    }
}

/// What holds for the sections to come.
#[derive(Drop)]
struct Cases<'a> {
    /// The first lines of each script.
    head: String,
    /// The rows of the next `@each`.
    rows: &'a str,
}

impl<'a> Cases<'a> {
    /// Puts other first lines in place: these, behind those.
    fn begin(&mut self, features: &str, lines: &str) -> Result<(), AllocError> {
        self.head.clear();
        self.head.push_str(features)?;
        self.head.push_str(lines)?;
        if lines.is_empty() {
            return Ok(());
        }
        self.head.push_str("\n")
    }

    /// The same, behind the lines that turn every proposal on but this one.
    fn begin_without(
        &mut self,
        alloc: Global,
        tally: &mut Tally,
        flag: &str,
        lines: &str,
    ) -> Result<(), AllocError> {
        if !is_flag(flag) {
            return tally.refuse(flag, "is no flag");
        }
        let features = all_but(alloc, flag)?;
        self.begin(&features, lines)
    }

    /// Runs the scripts of a section.
    fn run(
        &self,
        alloc: Global,
        tally: &mut Tally,
        (kind, words): (&str, &str),
        text: &str,
    ) -> Result<(), AllocError> {
        let head = &self.head;
        if let Some(lookup) = lookup_of(kind, words) {
            return run_undone(alloc, tally, head, text, lookup);
        }
        let is_bare = words.is_empty();
        let is_run = is_bare || words == "with custom_descriptors";
        match kind {
            "scripts" if is_run => run_transcript(alloc, tally, head, text),
            "each" if is_run => run_each(alloc, tally, head, (self.rows, text)),
            "bad" if is_bare => run_bad_lines(alloc, tally, head, text),
            "given" if is_bare => run_left(alloc, tally, head, (text, false)),
            "left" if is_bare => run_left(alloc, tally, head, (text, true)),
            _ => tally.refuse(kind, "begins no section"),
        }
    }

    /// Reads a section, and runs its scripts.
    fn read(
        &mut self,
        alloc: Global,
        tally: &mut Tally,
        (kind, words): (&str, &str),
        text: &'a str,
    ) -> Result<(), AllocError> {
        match kind {
            "#" => Ok(()),
            "head" => self.begin("", text),
            "without" => self.begin_without(alloc, tally, words, text),
            "rows" => {
                self.rows = text;
                Ok(())
            }
            _ => self.run(alloc, tally, (kind, words), text),
        }
    }
}

/// Runs the scripts of a file of cases.
pub fn run_cases(alloc: Global, tally: &mut Tally, text: &str) -> Result<(), AllocError> {
    let mut cases = Cases {
        head: String::new(alloc),
        rows: "",
    };
    let text = text.trim_start();
    let text = text.strip_prefix("@").unwrap_or(text);
    for section in text.split("\n@") {
        let (title, body) = section.split_once('\n').unwrap_or((section, ""));
        let title = title.split_once(' ').unwrap_or((title, ""));
        cases.read(alloc, tally, title, body)?;
    }
    Ok(())
}
