//! Reading a whole script.

use crate::failure::ScriptError;
use crate::lines::read_line;
use crate::operators::{lent, read_flat_operator};
use crate::parts::{
    Draft, LineError, ListedOperator, Operators, Script, has_list, read_list, read_words,
};
use std::alloc::Global;
use validate_visit::{ControlOp, Op};

/// Reads a script. Its operators with lists are kept in this vector, in the place of what was there before, and
/// each lends its list once all are read.
pub fn read_script<'a>(
    alloc: Global,
    listed: &'a mut Vec<ListedOperator>,
    text: &str,
) -> Result<Script<'a>, ScriptError> {
    listed.clear();
    let mut draft = Draft::new(alloc);
    let number = read_lines(alloc, listed, &mut draft, text)?;
    let mut script = draft.finish().ok_or(ScriptError::BadLine(number))?;
    lend(listed, &mut script.operators);
    Ok(script)
}

/// Adds each line of a text, and answers the number of the line behind the last one.
fn read_lines(
    alloc: Global,
    listed: &mut Vec<ListedOperator>,
    draft: &mut Draft<'_>,
    text: &str,
) -> Result<u64, ScriptError> {
    let mut words = Vec::new(alloc);
    let mut number: u64 = 1;
    for line in text.lines() {
        if !line.starts_with('#') {
            if read_words(&mut words, line).is_err() {
                return Err(ScriptError::OutOfMemory);
            }
            if let Err(error) = add_words(alloc, listed, draft, &words, number) {
                return Err(ScriptError::at_line(error, number));
            }
        }
        number = number.saturating_add(1);
    }
    Ok(number)
}

/// Puts each operator with a list, which is lent to it, in its place.
fn lend<'a>(listed: &'a [ListedOperator], operators: &mut Operators<'a>) {
    for operator in listed {
        operators.replace(
            operator.place,
            operator.list.op(),
            operator.attempted,
            operator.number,
        );
    }
}

/// Adds the line of this number, which has these words. A blank one adds nothing.
fn add_words<'a>(
    alloc: Global,
    listed: &mut Vec<ListedOperator>,
    draft: &mut Draft<'a>,
    words: &[&str],
    number: u64,
) -> Result<(), LineError> {
    if words.is_empty() {
        return Ok(());
    }
    if draft.body.is_none() {
        return add_line(alloc, draft, words, number);
    }
    add_body_words(alloc, listed, draft, words, number)
}

/// Adds a line that writes no operator. Operators are many and these lines few, so it stands apart.
#[inline(never)]
fn add_line(
    alloc: Global,
    draft: &mut Draft<'_>,
    words: &[&str],
    number: u64,
) -> Result<(), LineError> {
    draft.add(read_line(alloc, words)?, number)
}

/// Adds the line of this number behind the `func` or `expr` line.
fn add_body_words<'a>(
    alloc: Global,
    listed: &mut Vec<ListedOperator>,
    draft: &mut Draft<'a>,
    words: &[&str],
    number: u64,
) -> Result<(), LineError> {
    match words.split_first() {
        Some((&"local", _)) => add_line(alloc, draft, words, number),
        Some((&"try", rest)) => add_operator_words(alloc, listed, draft, rest, true, number),
        _ => add_operator_words(alloc, listed, draft, words, false, number),
    }
}

/// Adds the operator that these words write, attempted or not.
fn add_operator_words<'a>(
    alloc: Global,
    listed: &mut Vec<ListedOperator>,
    draft: &mut Draft<'a>,
    words: &[&str],
    attempted: bool,
    number: u64,
) -> Result<(), LineError> {
    let Some((name, immediates)) = words.split_first() else {
        return Err(LineError::Bad);
    };
    if has_list(name) {
        return add_listed(alloc, listed, draft, words, attempted, number);
    }
    match read_flat_operator(name, immediates) {
        Some(op) => draft.add_operator(lent(op), attempted, number),
        None => Err(LineError::Bad),
    }
}

/// Adds the operator with a list that these words write, attempted or not: a `nop` keeps its place until its list is
/// lent to it.
#[inline(never)]
fn add_listed(
    alloc: Global,
    listed: &mut Vec<ListedOperator>,
    draft: &mut Draft<'_>,
    words: &[&str],
    attempted: bool,
    number: u64,
) -> Result<(), LineError> {
    let list = read_list(alloc, words)?;
    let place = draft.operators.ops.len();
    let operator = ListedOperator::new(place, number, attempted, list).ok_or(LineError::Bad)?;
    listed.push(operator)?;
    draft.add_operator(Op::Control(ControlOp::Nop), false, number)
}
