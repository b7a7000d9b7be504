//! Transcripts: scripts with what the program prints at each line.

use crate::runs::{Output, run_script};
use crate::tally::Tally;
use std::alloc::{AllocError, Global};

/// Adds a line to a text, unless it is empty.
fn add_line(text: &mut String, line: &str) -> Result<(), AllocError> {
    if line.is_empty() {
        return Ok(());
    }
    text.push_str(line)?;
    text.push_str("\n")
}

/// A script that is being read, behind its first lines, and what it is to print.
#[derive(Drop)]
struct Case<'a> {
    head: &'a str,
    script: String,
    printed: String,
}

impl<'a> Case<'a> {
    /// One of no lines yet.
    fn new(alloc: Global, head: &'a str) -> Case<'a> {
        Case {
            head,
            script: String::new(alloc),
            printed: String::new(alloc),
        }
    }

    /// Begins a script.
    fn begin(&mut self) -> Result<(), AllocError> {
        self.script.clear();
        self.printed.clear();
        self.script.push_str(self.head)
    }

    /// Adds a line of the script, and what is printed there.
    fn add(&mut self, written: &str, answer: &str) -> Result<(), AllocError> {
        add_line(&mut self.script, written)?;
        add_line(&mut self.printed, answer)
    }

    /// Runs the script, which is bad, and says this.
    fn run_bad(&self, alloc: Global, tally: &mut Tally, cause: &str) -> Result<(), AllocError> {
        let said = format!(in alloc; "{cause}\n")?;
        let expected = Output {
            out: &self.printed,
            err: &said,
            status: 2,
        };
        run_script(alloc, tally, &self.script, expected)
    }

    /// Runs the script, which comes to this verdict.
    fn run(&mut self, alloc: Global, tally: &mut Tally, verdict: &str) -> Result<(), AllocError> {
        if verdict.starts_with("bad script") {
            return self.run_bad(alloc, tally, verdict);
        }
        add_line(&mut self.printed, verdict)?;
        let expected = Output {
            out: &self.printed,
            err: "",
            status: if verdict == "accepted" { 0 } else { 1 },
        };
        run_script(alloc, tally, &self.script, expected)
    }

    /// Adds a line, or runs the script and begins the next one. Whether it ran.
    fn read(
        &mut self,
        alloc: Global,
        tally: &mut Tally,
        (written, answer): (&str, &str),
    ) -> Result<bool, AllocError> {
        if written.is_empty() && !answer.is_empty() {
            self.run(alloc, tally, answer)?;
            self.begin()?;
            return Ok(true);
        }
        self.add(written, answer)?;
        Ok(false)
    }

    /// Runs each script of a transcript, and says whether there is one.
    fn run_scripts(
        &mut self,
        alloc: Global,
        tally: &mut Tally,
        transcript: &str,
    ) -> Result<bool, AllocError> {
        self.begin()?;
        let mut ran = false;
        for line in transcript.lines() {
            ran |= self.read(alloc, tally, parts_of(line))?;
        }
        Ok(ran)
    }
}

/// What a line of a transcript has before its `=>` and behind it.
pub fn parts_of(line: &str) -> (&str, &str) {
    match line.split_once("=>") {
        Some((written, answer)) => (written.trim_end_matches(' '), answer.trim()),
        None => (line, ""),
    }
}

/// Runs each script of a transcript behind these first lines. There is one at least.
///
/// A line of a transcript is a line of the script, then `=>` and what the program prints there, if
/// anything. A line that begins with `=>` ends a script and gives the verdict. Spaces before an arrow are left
/// out, and blank lines stand for nothing.
pub fn run_transcript(
    alloc: Global,
    tally: &mut Tally,
    head: &str,
    transcript: &str,
) -> Result<(), AllocError> {
    let mut case = Case::new(alloc, head);
    let ran = case.run_scripts(alloc, tally, transcript)?;
    if !ran || case.script.as_str() != head {
        return tally.refuse(&case.script, "has no verdict");
    }
    Ok(())
}

/// A text with this word in place of each `$N`, N being this number.
fn with_word(alloc: Global, text: &str, number: usize, word: &str) -> Result<String, AllocError> {
    let mark = format!(in alloc; "${number}")?;
    text.replace(alloc, mark.as_str(), word)
}

/// A text with the first of these words in place of each `$1`, the second in place of each `$2`, and so on.
fn with_words(alloc: Global, text: &str, words: &str) -> Result<String, AllocError> {
    let mut filled = text.to_string(alloc)?;
    let mut number: usize = 0;
    for word in words.split_whitespace() {
        number = number.saturating_add(1);
        filled = with_word(alloc, &filled, number, word)?;
    }
    Ok(filled)
}

/// A text with this row in place of each `$0`, and the words of the row in place of each `$1`, `$2` and so on.
/// Where the row has an arrow, what stands behind it takes the place of `$text`, and the row is what stands
/// before it.
fn fill(alloc: Global, text: &str, row: &str) -> Result<String, AllocError> {
    let (row, behind) = row.split_once(" => ").unwrap_or((row, ""));
    let text = text.replace(alloc, "$text", behind)?;
    let text = text.replace(alloc, "$0", row)?;
    with_words(alloc, &text, row)
}

/// Runs a transcript behind these first lines, filled by this row.
fn run_row(
    alloc: Global,
    tally: &mut Tally,
    head: &str,
    (row, transcript): (&str, &str),
) -> Result<(), AllocError> {
    let filled = fill(alloc, transcript, row)?;
    run_transcript(alloc, tally, head, &filled)
}

/// Runs a transcript behind these first lines once for each row, filled by it. Blank rows stand for nothing.
pub fn run_each(
    alloc: Global,
    tally: &mut Tally,
    head: &str,
    (rows, transcript): (&str, &str),
) -> Result<(), AllocError> {
    for row in rows.lines() {
        if !row.is_empty() {
            run_row(alloc, tally, head, (row, transcript))?;
        }
    }
    Ok(())
}

/// Runs this line behind these first lines and before an `end`, which makes a bad script that says this.
fn run_bad_line(
    alloc: Global,
    tally: &mut Tally,
    head: &str,
    line: &str,
    said: &str,
) -> Result<(), AllocError> {
    let script = format!(in alloc; "{head}{line}\nend\n")?;
    let expected = Output {
        out: "",
        err: said,
        status: 2,
    };
    run_script(alloc, tally, &script, expected)
}

/// Runs each of these lines behind these first lines and before an `end`: it is a bad line. Blank lines stand for
/// nothing.
pub fn run_bad_lines(
    alloc: Global,
    tally: &mut Tally,
    head: &str,
    lines: &str,
) -> Result<(), AllocError> {
    let number = head.lines().count().saturating_add(1);
    let said = format!(in alloc; "bad script: line {number}\n")?;
    for line in lines.lines() {
        if !line.is_empty() {
            run_bad_line(alloc, tally, head, line, &said)?;
        }
    }
    Ok(())
}
