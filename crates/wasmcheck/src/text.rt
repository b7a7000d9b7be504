//! Lines in words.

use crate::lines::{Counts, Finding, Summary};
use crate::operators::RefusedOperator;
use crate::shown::{add_name, add_word};
use crate::written::Written;
use module_check::Verdict;
use validate_types::Error;

/// Begins a line, by the file where there are several.
pub fn begin(out: &mut Written, prefix: Option<&[u8]>) {
    if let Some(file) = prefix {
        add_word(out, file);
        out.add(": ");
    }
}

/// Adds what a line is about, with the function's name where it has one.
fn add_subject(out: &mut Written, finding: &Finding<'_>) {
    match finding.item {
        Some(item) => out.show(item),
        None => out.add("module"),
    }
    if let Some(name) = finding.name {
        out.add(" ");
        add_name(out, name);
    }
}

/// Adds which operator is refused.
fn add_operator(out: &mut Written, operator: Option<RefusedOperator>) {
    if let Some(operator) = operator {
        out.add(operator.name);
        out.add(", ");
    }
}

/// Adds the label that the refused operator names, if there isn't one.
fn add_label(out: &mut Written, operator: Option<RefusedOperator>) {
    if let Some(
        RefusedOperator {
            label: Some(label),
            ..
        },
    ) = operator
    {
        out.add(" (");
        out.show(label);
        out.add(")");
    }
}

/// Adds where and why something is refused.
fn add_refusal(out: &mut Written, operator: Option<RefusedOperator>, refusal: &Error) {
    out.add(" failed at ");
    add_operator(out, operator);
    out.add("offset ");
    out.add_offset(refusal.offset());
    out.add(": ");
    out.add(refusal.message());
    add_label(out, operator);
}

/// Adds what an item comes to.
fn add_verdict(out: &mut Written, finding: &Finding<'_>) {
    match finding.verdict {
        Verdict::Accepted => out.add(": accepted"),
        Verdict::Refused(refusal) | Verdict::Malformed(refusal) => {
            add_refusal(out, finding.operator, refusal);
        }
        Verdict::NotCovered(offset) => {
            out.add(": not covered: a vector operator at offset ");
            out.add_offset(*offset);
        }
        Verdict::OutOfMemory => out.add(": out of memory"),
    }
}

/// Adds the line of an item or of the module, and below it what is shown of its operators.
pub fn add_finding(out: &mut Written, prefix: Option<&[u8]>, finding: &Finding<'_>) {
    begin(out, prefix);
    add_subject(out, finding);
    add_verdict(out, finding);
    out.add("\n");
    out.add_written(finding.shown);
}

/// Adds a count, and what it counts.
fn add_count(out: &mut Written, count: u64, what: &str) {
    out.show(count);
    out.add(what);
}

/// Adds how many types are equal to earlier ones, if some are, and how many bodies and expressions came to what.
fn add_counts(out: &mut Written, prefix: Option<&[u8]>, counts: Counts) {
    if counts.equal_types > 0 {
        begin(out, prefix);
        add_count(
            out,
            counts.equal_types as u64,
            " types equal to earlier ones\n",
        );
    }
    begin(out, prefix);
    add_count(out, counts.accepted, " accepted, ");
    add_count(out, counts.refused, " refused, ");
    add_count(out, counts.not_covered, " not covered");
    if counts.out_of_memory > 0 {
        out.add(", ");
        add_count(out, counts.out_of_memory, " out of memory");
    }
    out.add("\n");
}

/// Adds what the module comes to, in one word, and ahead of it how many came to what, where that is asked for.
pub fn add_summary(out: &mut Written, prefix: Option<&[u8]>, summary: &Summary) {
    if let Some(counts) = summary.counts {
        add_counts(out, prefix, counts);
    }
    begin(out, prefix);
    out.add(summary.outcome.word());
    out.add("\n");
}
