//! Lines as JSON (RFC 8259): each is an object.

use crate::lines::{Counts, Finding, Summary};
use crate::operators::RefusedOperator;
use crate::written::Written;
use module_check::{Item, Verdict};
use std::str::Utf8Chunk;
use validate_types::Error;

/// Adds a character of a string: a quotation mark, a reverse solidus and control characters are escaped.
fn add_escaped(out: &mut Written, c: char) {
    match c {
        '"' => out.add("\\\""),
        '\\' => out.add("\\\\"),
        '\n' => out.add("\\n"),
        '\r' => out.add("\\r"),
        '\t' => out.add("\\t"),
        '\0'..='\u{1f}' => {
            out.add("\\u");
            out.add_hexadecimal(u64::from(c as u32), 4);
        }
        _ => out.add_letter(c),
    }
}

/// Adds a text as a string.
pub fn add_quoted(out: &mut Written, text: &str) {
    out.add("\"");
    for c in text.chars() {
        add_escaped(out, c);
    }
    out.add("\"");
}

/// Adds a part of a word.
fn add_part(out: &mut Written, part: &Utf8Chunk<'_>) {
    for c in part.valid().chars() {
        add_escaped(out, c);
    }
    for byte in part.invalid() {
        out.add("\\\\x");
        out.add_hexadecimal(u64::from(*byte), 2);
    }
}

/// Adds a word of the command line as a string, with an escape as in Rust for each byte that isn't UTF-8.
fn add_quoted_word(out: &mut Written, word: &[u8]) {
    out.add("\"");
    for part in word.utf8_chunks() {
        add_part(out, &part);
    }
    out.add("\"");
}

/// Begins one more member of an object.
pub fn begin_member(out: &mut Written, name: &str) {
    out.add(",\"");
    out.add(name);
    out.add("\":");
}

/// Adds one more member of an object, whose value is a string.
pub fn add_string(out: &mut Written, name: &str, value: &str) {
    begin_member(out, name);
    add_quoted(out, value);
}

/// Adds one more member of an object, whose value is a number.
pub fn add_number(out: &mut Written, name: &str, value: u64) {
    begin_member(out, name);
    out.show(value);
}

/// Begins an object, by the file.
fn begin(out: &mut Written, file: &[u8]) {
    out.add("{\"file\":");
    add_quoted_word(out, file);
}

/// Adds what a line is about: which item, and its index.
fn add_item(out: &mut Written, item: Option<Item>) {
    match item {
        Some(item) => {
            let named = item.named();
            begin_member(out, "item");
            out.add("\"");
            out.add(named.word);
            out.add(named.part);
            out.add("\"");
            add_number(out, "index", u64::from(named.index));
        }
        None => add_string(out, "item", "module"),
    }
}

/// Adds where and why something is refused.
fn add_refusal(out: &mut Written, operator: Option<RefusedOperator>, refusal: &Error) {
    if let Some(operator) = operator {
        add_operator(out, operator);
    }
    add_number(out, "offset", refusal.offset());
    add_string(out, "text", refusal.message());
}

/// Adds which operator is refused.
fn add_operator(out: &mut Written, operator: RefusedOperator) {
    add_string(out, "operator", operator.name);
    if let Some(label) = operator.label {
        add_number(out, "label", u64::from(label));
    }
}

/// Adds the line of an item or of the module.
pub fn add_finding(out: &mut Written, file: &[u8], finding: &Finding<'_>) {
    begin(out, file);
    add_item(out, finding.item);
    if let Some(name) = finding.name {
        add_string(out, "name", name);
    }
    add_string(out, "verdict", finding.outcome.word());
    match finding.verdict {
        Verdict::Refused(refusal) | Verdict::Malformed(refusal) => {
            add_refusal(out, finding.operator, refusal);
        }
        Verdict::NotCovered(offset) => add_number(out, "offset", *offset),
        Verdict::Accepted | Verdict::OutOfMemory => {}
    }
    out.add_written(finding.shown);
    out.add("}\n");
}

/// Adds how many came to what.
fn add_counts(out: &mut Written, counts: Counts) {
    add_number(out, "equal_types", counts.equal_types as u64);
    add_number(out, "accepted", counts.accepted);
    add_number(out, "refused", counts.refused);
    add_number(out, "not_covered", counts.not_covered);
    add_number(out, "out_of_memory", counts.out_of_memory);
}

/// Adds what the module comes to, and how many came to what, where that is asked for.
pub fn add_summary(out: &mut Written, file: &[u8], summary: &Summary) {
    begin(out, file);
    add_string(out, "verdict", summary.outcome.word());
    if let Some(counts) = summary.counts {
        add_counts(out, counts);
    }
    out.add("}\n");
}
