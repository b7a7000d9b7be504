//! The immediates of loads and stores.

ghost use Rattle.std.specs.Prelude.{◌≡◌, map};
ghost use Rattle.std.specs.Option.{SomeIff, option_copied};
ghost use Rattle.script_reader.specs.Access.{IsAccess, IsTarget, access_of, target_of};
ghost use Rattle.script_reader.specs.Access as rule;

use crate::parts::numbers::{read_index, read_u8, read_u64};
use validate_visit::{MemArg, MemArgTarget};

/// The immediates that these words write, if they do: `offset=N`, `align=N`, and `mem=N` or `array=N`, in
/// any order and each at most once. Without them the offset is 0, the alignment the natural one, and what
/// is accessed the first memory.
pub fn read_access(words: &[&str], natural: u8) -> Option<MemArg>
    ensures { let texts = map (λ word. word.now) words.now in SomeIff result (IsAccess texts)
        (access_of texts natural) }
{
    let offset = text_after(words, "offset=");
    let align = text_after(words, "align=");
    let memory = text_after(words, "mem=");
    let array = text_after(words, "array=");
    // Each word says one of the four, and no two say the same.
    let said = one_if_some(offset) + one_if_some(align) + one_if_some(memory) + one_if_some(array);
    if words.len() != said {
        return None;
    }
    Some(MemArg {
        align: align.map_or(Some(natural), read_u8)?,
        max_align: natural,
        offset: offset.map_or(Some(0), read_u64)?,
        target: read_target(memory, array)?,
    })
}

fn one_if_some(said: Option<&str>) -> usize
    ensures { result ≡ rule.one_if_some (option_copied said.entry) }
{
    usize::from(said.is_some())
}

/// What is accessed, of which the memory or the array is said by its index, or neither.
fn read_target(memory: Option<&str>, array: Option<&str>) -> Option<MemArgTarget>
    ensures { SomeIff result (IsTarget (option_copied memory.entry) (option_copied array.entry))
        (target_of (option_copied memory.entry) (option_copied array.entry)) }
{
    match (memory, array) {
        (memory, None) => Some(MemArgTarget::Memory(memory.map_or(Some(0), read_index)?)),
        (None, Some(array)) => Some(MemArgTarget::Array(read_index(array)?)),
        (Some(_), Some(_)) => None,
    }
}

/// What follows this name in the first word that begins with it, if one does.
pub fn text_after<'a>(words: &[&'a str], name: &str) -> Option<&'a str>
    ensures { option_copied result ≡ rule.text_after name.now (map (λ word. word.now) words.now) }
{
    words
        .iter()
        .find(|word| word.starts_with(name))?
        .strip_prefix(name)
}
