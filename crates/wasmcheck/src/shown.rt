//! Names of files and functions, as a line in words shows them: cut, and without what a terminal would take for a command.

use crate::written::Written;
use std::str::Utf8Chunk;

/// So many letters of a name are shown.
const LETTERS: usize = 200;

/// Adds a letter of a word, escaped if it can't be printed.
fn add_letter(out: &mut Written, letter: char) {
    match letter {
        '\'' | '"' | '\\' => out.add_letter(letter),
        _ => out.show(letter.escape_debug()),
    }
}

/// Adds so many letters of a text.
fn add_letters(out: &mut Written, text: &str, count: usize) {
    for letter in text.chars().take(count) {
        add_letter(out, letter);
    }
}

/// Adds so many bytes, each as an escape.
fn add_bytes(out: &mut Written, bytes: &[u8], count: usize) {
    for byte in bytes.iter().take(count) {
        out.add("\\x");
        out.add_hexadecimal(u64::from(*byte), 2);
    }
}

/// How many letters a part of a word has, with its bytes that are none.
fn letters_in(part: &Utf8Chunk<'_>) -> usize {
    part.valid()
        .chars()
        .count()
        .saturating_add(part.invalid().len())
}

/// Adds so many letters of a part of a word.
fn add_part(out: &mut Written, part: &Utf8Chunk<'_>, count: usize) {
    add_letters(out, part.valid(), count);
    let letters = part.valid().chars().count();
    add_bytes(out, part.invalid(), count.saturating_sub(letters));
}

/// Adds that a name of so many letters was cut, if it was.
fn add_cut(out: &mut Written, letters: usize) {
    if letters > LETTERS {
        out.add("...");
    }
}

/// Adds the name of a file, or another word of the command line: what can't be printed is escaped, what isn't UTF-8 byte by
/// byte.
pub fn add_word(out: &mut Written, word: &[u8]) {
    let mut written = 0usize;
    for part in word.utf8_chunks() {
        add_part(out, &part, LETTERS.saturating_sub(written));
        written = written.saturating_add(letters_in(&part));
    }
    add_cut(out, written);
}

/// Adds a letter between quotation marks, escaped if it can't be printed, or stands for something else there.
fn add_quoted_letter(out: &mut Written, letter: char) {
    match letter {
        '"' | '\\' => {
            out.add("\\");
            out.add_letter(letter);
        }
        _ => add_letter(out, letter),
    }
}

/// Adds the name of a function, in quotation marks.
pub fn add_name(out: &mut Written, name: &str) {
    out.add("\"");
    for letter in name.chars().take(LETTERS) {
        add_quoted_letter(out, letter);
    }
    add_cut(out, name.chars().count());
    out.add("\"");
}
