//! The words of a line, which spaces part.

ghost use Rattle.std.specs.Prelude.{◌≡◌, OnOk, map};
ghost use Rattle.script_reader.specs.Lines.{words_in};

use std::alloc::AllocError;

/// Reads the words of a line, in the place of those before. Spaces alone part them: a tab, or any other
/// white space, is part of a word.
pub fn read_words<'a>(words: &mut Vec<&'a str>, line: &'a str) -> Result<(), AllocError>
    ensures { OnOk result (map (λ word. word.now) words.new.items ≡ words_in line.now) }
{
    words.clear();
    for word in line.split(' ') {
        if !word.is_empty() {
            words.push(word)?;
        }
    }
    Ok(())
}
