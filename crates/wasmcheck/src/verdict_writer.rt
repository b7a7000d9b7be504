//! What a module comes to as it is checked, and what is written of it.

ghost use Rattle.std.specs.Prelude.{◌≡◌, ◌⊎◌, IfOk};
ghost use Rattle.module_check.specs.declared.outcome.Outcome.TheVariants.{Valid, TooLarge};
ghost use Rattle.module_check.specs.declared.verdict.Verdict.TheVariants.{Accepted};
ghost use Rattle.module_check.specs.Verdicts.{outcome_of};

use crate::lines::{Counts, Finding, Lines, Summary};
use crate::options::Detail;
use crate::written::Written;
use module_check::{Outcome, Verdict};
use std::io;
use std::io::Write;
use validate_types::Error;

/// What a module comes to, as far as it is checked.
#[derive(Clone, Copy)]
pub struct Tally {
    /// What it comes to.
    pub outcome: Outcome,
    /// How many items came to what.
    pub counts: Counts,
}

impl Tally {
    /// Nothing is checked, of a module so many of whose types are equal to earlier ones.
    pub fn new(equal_types: usize) -> Tally
        ensures { result.outcome ≡ Valid }
    {
        Tally {
            outcome: Outcome::Valid,
            counts: Counts {
                accepted: 0,
                refused: 0,
                not_covered: 0,
                out_of_memory: 0,
                equal_types,
            },
        }
    }

    /// Counts one more.
    pub fn count(&mut self, verdict: &Verdict)
        ensures valid { self.new.outcome ≡ Valid → (self.old.outcome ≡ Valid) × (verdict.now ≡ Accepted) }
        ensures either { (self.new.outcome ≡ self.old.outcome) ⊎ (self.new.outcome ≡ outcome_of verdict.now) }
    {
        self.outcome = self.outcome.or(Outcome::of(verdict));
        self.counts.add(verdict);
    }
}

/// Writes the line of an item, unless that is left out.
pub fn write_item<W: Write>(
    out: &mut W,
    lines: Lines<'_>,
    detail: Detail,
    finding: &Finding<'_>,
) -> io::Result<()> {
    match (detail, finding.verdict) {
        (Detail::Quiet, _) => Ok(()),
        (Detail::Normal, Verdict::Accepted) if finding.shown.is_empty() => Ok(()),
        _ => lines.write_finding(out, finding),
    }
}

/// Writes what a module comes to, and where each line is written how many came to what.
pub fn write_tally<W: Write>(
    out: &mut W,
    lines: Lines<'_>,
    detail: Detail,
    tally: Tally,
) -> io::Result<()> {
    let counts = match detail {
        Detail::Verbose => Some(tally.counts),
        Detail::Quiet | Detail::Normal => None,
    };
    write_summary(out, lines, detail, tally.outcome, counts)
}

/// Writes what a module comes to, unless nothing is to be written. Of several files, a valid one is passed over, unless
/// each line is written.
pub fn write_summary<W: Write>(
    out: &mut W,
    lines: Lines<'_>,
    detail: Detail,
    outcome: Outcome,
    counts: Option<Counts>,
) -> io::Result<()> {
    match (detail, outcome) {
        (Detail::Quiet, _) => Ok(()),
        (Detail::Normal, Outcome::Valid) if lines.is_one_of_several => Ok(()),
        _ => lines.write_summary(out, &Summary { outcome, counts }),
    }
}

/// What is found of a module as a whole.
fn finding_of_module<'r>(
    outcome: Outcome,
    verdict: &'r Verdict,
    shown: &'r Written,
) -> Finding<'r> {
    Finding {
        item: None,
        name: None,
        operator: None,
        outcome,
        verdict,
        shown,
    }
}

/// Writes why the module as a whole isn't checked, unless nothing is to be written.
fn write_refusal<W: Write>(
    out: &mut W,
    lines: Lines<'_>,
    detail: Detail,
    outcome: Outcome,
    verdict: &Verdict,
) -> io::Result<()> {
    if let Detail::Quiet = detail {
        return Ok(());
    }
    let shown = Written::new(lines.alloc);
    lines.write_finding(out, &finding_of_module(outcome, verdict, &shown))
}

/// Writes why the module as a whole isn't checked, and that it comes to this, which it answers.
fn write_as<W: Write>(
    out: &mut W,
    lines: Lines<'_>,
    detail: Detail,
    outcome: Outcome,
    verdict: &Verdict,
) -> io::Result<Outcome>
    ensures { IfOk result (λ told. told ≡ outcome) }
{
    write_refusal(out, lines, detail, outcome, verdict)?;
    write_summary(out, lines, detail, outcome, None)?;
    Ok(outcome)
}

/// Writes why the module as a whole isn't checked, and what it comes to, which it answers.
pub fn write_module<W: Write>(
    out: &mut W,
    lines: Lines<'_>,
    detail: Detail,
    verdict: &Verdict,
) -> io::Result<Outcome>
    ensures valid { IfOk result (λ outcome. outcome ≡ Valid → verdict.now ≡ Accepted) }
    ensures verdict { IfOk result (λ outcome. outcome ≡ outcome_of verdict.now) }
{
    let outcome = Outcome::of(verdict);
    write_as(out, lines, detail, outcome, verdict)
}

/// Writes which limit the module is past, and what it comes to, which it answers.
pub fn write_too_large<W: Write>(
    out: &mut W,
    lines: Lines<'_>,
    detail: Detail,
    error: Error,
) -> io::Result<Outcome>
    ensures { IfOk result (λ outcome. outcome ≡ TooLarge) }
{
    let verdict = Verdict::Refused(error);
    write_as(out, lines, detail, Outcome::TooLarge, &verdict)
}
