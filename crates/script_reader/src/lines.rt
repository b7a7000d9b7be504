//! Reading the lines of a script, each for itself.

use crate::features::read_feature;
use crate::parts::{
    Line, LineError, read_function, read_global_type, read_index, read_memory_type, read_reference,
    read_table_type, read_type, read_value_type,
};
use std::alloc::Global;
use validate_visit::BodyKind;

/// Reads the words of a line that writes no operator, of which there is one at least.
pub fn read_line(alloc: Global, words: &[&str]) -> Result<Line, LineError> {
    match words.split_first() {
        Some((&"type", rest)) => Ok(Line::SubType(read_type(alloc, rest)?)),
        Some((keyword, rest)) => read_keyword(keyword, rest).ok_or(LineError::Bad),
        None => Err(LineError::Bad),
    }
}

/// Reads such a line that takes no memory, from this keyword and the words behind it.
fn read_keyword(keyword: &str, rest: &[&str]) -> Option<Line> {
    match keyword {
        "memory" => Some(Line::Memory(read_memory_type(rest)?)),
        "show" if rest.is_empty() => Some(Line::Show),
        "local" => read_locals(rest),
        "fn" | "table" | "global" => read_marked(keyword, rest),
        _ => read_single(keyword, rest),
    }
}

/// A line of this keyword, behind which stand a word and marks of what it declares.
fn read_marked(keyword: &str, words: &[&str]) -> Option<Line> {
    let (word, marks) = words.split_first()?;
    match keyword {
        "fn" => Some(Line::Function(read_function(read_index(word)?, marks)?)),
        "table" => Some(Line::Table(read_table_type(read_reference(word)?, marks)?)),
        "global" => Some(Line::Global(read_global_type(read_value_type(word)?, marks)?)),
        _ => None,
    }
}

/// A line of this keyword, behind which stands one word.
fn read_single(keyword: &str, words: &[&str]) -> Option<Line> {
    let [word] = *words else {
        return None;
    };
    match keyword {
        "feature" => Some(Line::Feature(read_feature(word)?)),
        "tag" => Some(Line::Tag(read_index(word)?)),
        "elem" => Some(Line::Element(read_reference(word)?)),
        "data" => Some(Line::DataCount(read_index(word)?)),
        "func" => Some(Line::Body(BodyKind::Function(read_index(word)?))),
        "expr" => Some(Line::Body(BodyKind::Expression(read_value_type(word)?))),
        _ => None,
    }
}

/// A `local` line: how many locals, and their type.
fn read_locals(words: &[&str]) -> Option<Line> {
    match *words {
        [count, ty] => Some(Line::Locals(read_index(count)?, read_value_type(ty)?)),
        _ => None,
    }
}
