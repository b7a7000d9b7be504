//! Operators by their names.
//!
//! `.ci/generate` writes the arms of `opener` and `read_with_words` from `operators.tsv`.

use crate::access::read_accessing;
use crate::conversions::CONVERSIONS;
use crate::numeric::{read_numeric, split_number_type};
use crate::parts::{
    LineError, OperatorList, has_list, named_in, read_block_type, read_branch_cast, read_heap_type,
    read_indexed, read_list, read_ordering, read_reference, read_shared, read_value_type, ref_cast,
    ref_cast_desc_eq, ref_test,
};
use crate::plain::PLAIN;
use crate::shared::shared_access;
use std::alloc::Global;
use validate_visit::{AtomicOp, BlockType, ControlOp, ExceptionOp, Op, ReferenceOp};

/// An operator without a list, as one that may have one.
pub fn lent<'l>(op: Op<'static>) -> Op<'l> {
    op
}

/// The operator that these words write, if they do: its name, and its immediates after it. If it has a list, it
/// lends this one, in which that is kept.
pub fn read_operator<'a>(
    alloc: Global,
    list: &'a mut Option<OperatorList>,
    words: &[&str],
) -> Result<Op<'a>, LineError> {
    let (name, immediates) = words.split_first().ok_or(LineError::Bad)?;
    if has_list(name) {
        return Ok(list.insert(read_list(alloc, words)?).op());
    }
    match read_flat_operator(name, immediates) {
        Some(op) => Ok(lent(op)),
        None => Err(LineError::Bad),
    }
}

/// The operator of this name with these immediates, if it has no list. What most operators begin with, a
/// type of numbers, is looked for first.
pub fn read_flat_operator(name: &str, immediates: &[&str]) -> Option<Op<'static>> {
    if let Some((ty, word)) = split_number_type(name) {
        return match read_numeric(ty, word, immediates) {
            Some(op) => Some(Op::Numeric(op)),
            None => read_on_numbers(name, immediates),
        };
    }
    if let Some(op) = read_indexed(name, immediates) {
        return Some(op);
    }
    let other = match *immediates {
        [] => named_in(&PLAIN, name),
        [word] => read_with_word(name, word),
        _ => read_with_words(name, immediates),
    };
    match other {
        Some(op) => Some(op),
        None => read_accessing(name, immediates),
    }
}

/// The operator of this name with these immediates, which begins with a type of numbers and isn't one of
/// those of `read_numeric`: it converts, or accesses memory.
fn read_on_numbers(name: &str, immediates: &[&str]) -> Option<Op<'static>> {
    if immediates.is_empty() {
        if let Some(op) = named_in(&CONVERSIONS, name) {
            return Some(Op::Convert(op));
        }
    }
    read_accessing(name, immediates)
}

/// The operator of this name with this word as its immediate, which is no index.
fn read_with_word(name: &str, word: &str) -> Option<Op<'static>> {
    match name {
        "select_t" => Some(Op::Control(ControlOp::TypedSelect(read_value_type(word)?))),
        "ref.null" => Some(Op::Reference(ReferenceOp::RefNull(read_heap_type(word)?))),
        "ref.test" => Some(Op::Reference(ref_test(read_reference(word)?))),
        "ref.cast" => Some(Op::Reference(ref_cast(read_reference(word)?))),
        "ref.cast_desc_eq" => Some(Op::Reference(ref_cast_desc_eq(read_reference(word)?))),
        "atomic.fence" => Some(Op::Atomic(AtomicOp::AtomicFence(read_ordering(word)?))),
        _ => opener(name, read_block_type(word)?),
    }
}

/// The operator of this name with these words as its immediates, which are more than one.
fn read_with_words(name: &str, words: &[&str]) -> Option<Op<'static>> {
    if let Some(access) = shared_access(name) {
        return Some(Op::Shared(read_shared(access, words)?));
    }
    let cast = read_branch_cast(words)?;
    match name {
        "br_on_cast" => Some(Op::Reference(ReferenceOp::BrOnCast(cast))),
        "br_on_cast_fail" => Some(Op::Reference(ReferenceOp::BrOnCastFail(cast))),
        "br_on_cast_desc_eq" => Some(Op::Reference(ReferenceOp::BrOnCastDescEq(cast))),
        "br_on_cast_desc_eq_fail" => Some(Op::Reference(ReferenceOp::BrOnCastDescEqFail(cast))),
        _ => None,
    }
}

/// The opener of this name with this block type.
fn opener(name: &str, ty: BlockType) -> Option<Op<'static>> {
    match name {
        "block" => Some(Op::Control(ControlOp::Block(ty))),
        "loop" => Some(Op::Control(ControlOp::Loop(ty))),
        "if" => Some(Op::Control(ControlOp::If(ty))),
        "legacy_try" => Some(Op::Exception(ExceptionOp::Try(ty))),
        _ => None,
    }
}
