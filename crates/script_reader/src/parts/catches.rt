//! The clauses of a `try_table`.

ghost use Rattle.std.specs.Prelude.{◌≡◌, ℕ, List, IfNone, IfOk, IfSome, IsErrOf, map};
ghost use Rattle.std.specs.List.{AllZip};
ghost use Rattle.validate_visit.specs.declared.catch.Catch.{Catch};
ghost use Rattle.script_reader.specs.Catches.{IsCatchName, IsTagAndLabel};
ghost use Rattle.script_reader.specs.declared.parts.failure.LineError.{LineError};

use crate::parts::failure::LineError;
use crate::parts::numbers::read_index;
use std::alloc::Global;
use validate_visit::Catch;

/// The clause that a word writes, if it does: its name, the index of a tag where it names one, and a label,
/// with a colon before each.
pub fn read_catch(word: &str) -> Option<Catch>
    ensures named { IfSome result (λ catch. IsCatchName word.now catch) }
    ensures other { IfNone result ((catch : Catch) → ¬ (IsCatchName word.now catch)) }
{
    if let Some(immediates) = word.strip_prefix("catch:") {
        let (tag, label) = read_tag_and_label(immediates)?;
        return Some(Catch::One { tag, label });
    }
    if let Some(immediates) = word.strip_prefix("catch_ref:") {
        let (tag, label) = read_tag_and_label(immediates)?;
        return Some(Catch::OneRef { tag, label });
    }
    if let Some(immediate) = word.strip_prefix("catch_all:") {
        let label = read_index(immediate)?;
        return Some(Catch::All { label });
    }
    if let Some(immediate) = word.strip_prefix("catch_all_ref:") {
        let label = read_index(immediate)?;
        return Some(Catch::AllRef { label });
    }
    None
}

/// The index of a tag and the label that a word writes, if it does, with a colon between them.
pub fn read_tag_and_label(word: &str) -> Option<(u32, u32)>
    ensures named { IfSome result (λ both. IsTagAndLabel word.now both.0 both.1) }
    ensures other { IfNone result ((tag label : ℕ) → ¬ (IsTagAndLabel word.now tag label)) }
{
    let (tag, label) = word.split_once(':')?;
    Some((read_index(tag)?, read_index(label)?))
}

/// The clauses that these words write, if each of them does.
pub fn read_catches(alloc: Global, words: &[&str]) -> Result<Vec<Catch>, LineError>
    ensures named { IfOk result (λ catches. AllZip IsCatchName (map (λ word. word.now) words.now)
        catches.items) }
    ensures bad { IsErrOf result LineError.Bad → (catches : List Catch)
        → ¬ (AllZip IsCatchName (map (λ word. word.now) words.now) catches) }
{
    let mut catches = Vec::new(alloc);
    for word in words {
        catches.push(read_catch(word).ok_or(LineError::Bad)?)?;
    }
    Ok(catches)
}
