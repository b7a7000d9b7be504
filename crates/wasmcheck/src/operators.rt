//! The operator that a refusal is about, and the last ones before it.

use module_check::{CodeReader, OperatorLists, ReadError, Verdict, operator_name};
use std::alloc::Global;
use std::io;
use validate_types::{Error, Refusal};
use validate_visit::{
    BodyKind, Catch, ContinuationOp, ControlOp, ExceptionOp, Handle, Op, ReferenceOp,
};

/// So many operators before a refusal are told.
const LAST: usize = 8;

/// The code of a function or of a constant expression.
#[derive(Drop)]
pub struct Code<'m> {
    /// A reader of it, at its begin.
    pub reader: CodeReader<'m>,
    /// Whose it is. A function's begins with locals.
    pub kind: BodyKind,
}

/// The operator that is refused.
#[derive(Clone, Copy)]
pub struct RefusedOperator {
    /// Its name.
    pub name: &'static str,
    /// The label that there isn't, if it is refused for that: of several, the greatest.
    pub label: Option<u32>,
}

/// What is found as code is read up to a refusal.
#[derive(Clone, Copy)]
pub struct Trail {
    /// The operator that is refused, if the refusal is about one.
    pub operator: Option<RefusedOperator>,
    /// The offset of the first of the last operators before it; 0 where there are few.
    pub from: u64,
}

impl Trail {
    /// Of code that isn't refused.
    pub const NONE: Trail = Trail {
        operator: None,
        from: 0,
    };
}

/// The greater of two labels, of which there may be none yet.
fn greater(label: Option<u32>, other: u32) -> Option<u32> {
    match label {
        Some(label) => Some(label.max(other)),
        None => Some(other),
    }
}

/// The greatest label of the clauses of a `try_table`.
fn greatest_of_clauses(clauses: &[Catch]) -> Option<u32> {
    let mut greatest = None;
    for clause in clauses {
        greatest = match *clause {
            Catch::One { label, .. }
            | Catch::OneRef { label, .. }
            | Catch::All { label }
            | Catch::AllRef { label } => greater(greatest, label),
        };
    }
    greatest
}

/// The greatest label of the handlers of a `resume`.
fn greatest_of_handlers(handlers: &[Handle]) -> Option<u32> {
    let mut greatest = None;
    for handler in handlers {
        if let Handle::OnLabel { label, .. } = *handler {
            greatest = greater(greatest, label);
        }
    }
    greatest
}

/// The greatest label of an operator on control.
fn greatest_of_control(op: &ControlOp<'_>) -> Option<u32> {
    match op {
        ControlOp::Br(label) | ControlOp::BrIf(label) => Some(*label),
        ControlOp::BrTable(table) => {
            let mut greatest = Some(table.default);
            for label in table.targets {
                greatest = greater(greatest, *label);
            }
            greatest
        }
        _ => None,
    }
}

/// The same of an operator on references.
fn label_of_reference(op: &ReferenceOp) -> Option<u32> {
    match op {
        ReferenceOp::BrOnNull(label) | ReferenceOp::BrOnNonNull(label) => Some(*label),
        ReferenceOp::BrOnCast(cast)
        | ReferenceOp::BrOnCastFail(cast)
        | ReferenceOp::BrOnCastDescEq(cast)
        | ReferenceOp::BrOnCastDescEqFail(cast) => Some(cast.relative_depth),
        _ => None,
    }
}

/// The same of an operator on exceptions.
fn greatest_of_exception(op: &ExceptionOp<'_>) -> Option<u32> {
    match op {
        ExceptionOp::Delegate(label) | ExceptionOp::Rethrow(label) => Some(*label),
        ExceptionOp::TryTable(table) => greatest_of_clauses(table.catches),
        _ => None,
    }
}

/// The same of an operator on continuations.
fn greatest_of_continuation(op: &ContinuationOp<'_>) -> Option<u32> {
    match op {
        ContinuationOp::Resume { resume_table, .. }
        | ContinuationOp::ResumeThrow { resume_table, .. }
        | ContinuationOp::ResumeThrowRef { resume_table, .. } => {
            greatest_of_handlers(resume_table.handlers)
        }
        _ => None,
    }
}

/// The greatest label that an operator names, if it names one.
fn greatest_label(op: &Op<'_>) -> Option<u32> {
    match op {
        Op::Control(op) => greatest_of_control(op),
        Op::Reference(op) => label_of_reference(op),
        Op::Exception(op) => greatest_of_exception(op),
        Op::Continuation(op) => greatest_of_continuation(op),
        _ => None,
    }
}

/// Puts an offset behind the last ones, the first of which goes.
fn push(last: &mut [u64; LAST], place: u64) {
    let [_, b, c, d, e, f, g, h] = *last;
    *last = [b, c, d, e, f, g, h, place];
}

impl Code<'_> {
    /// Passes over the locals, if there are some.
    fn skip_locals(&mut self) -> Result<(), ReadError> {
        if let BodyKind::Expression(_) = self.kind {
            return Ok(());
        }
        for _ in 0..self.reader.read_group_count()? {
            let _group = self.reader.read_group()?;
        }
        Ok(())
    }

    /// Passes over an operator.
    fn skip_operator(&mut self, lists: &mut OperatorLists) -> Result<(), ReadError> {
        match self.reader.read_operator(lists) {
            Ok(_) => Ok(()),
            Err(error) => Err(error),
        }
    }

    /// Whether an operator begins at the offset. It leaves the offsets of the last ones before, as many as there is room for.
    fn has_operator_at(
        &mut self,
        lists: &mut OperatorLists,
        offset: u64,
        last: &mut [u64; LAST],
    ) -> Result<bool, ReadError> {
        self.skip_locals()?;
        for _ in 0..self.reader.bytes_left() {
            let place = self.reader.offset();
            if place >= offset {
                break;
            }
            self.skip_operator(lists)?;
            push(last, place);
        }
        Ok(self.reader.offset() == offset && !self.reader.is_at_end())
    }

    /// The label that the next operator names, if that is why it is refused.
    fn refused_label(
        &mut self,
        lists: &mut OperatorLists,
        refusal: &Error,
    ) -> Result<Option<u32>, ReadError> {
        if !matches!(refusal.reason(), Some(Refusal::UnknownLabel)) {
            return Ok(None);
        }
        match self.reader.read_operator(lists) {
            Ok(op) => Ok(greatest_label(&op)),
            Err(error) => Err(error),
        }
    }

    /// The operator that is refused, if the refusal is about one: these are the module's bytes.
    fn operator_of(
        &mut self,
        lists: &mut OperatorLists,
        bytes: &[u8],
        refusal: &Error,
        last: &mut [u64; LAST],
    ) -> Result<Option<RefusedOperator>, ReadError> {
        let offset = refusal.offset();
        if !self.has_operator_at(lists, offset, last)? {
            return Ok(None);
        }
        match name_at(bytes, offset) {
            Some(name) => {
                let label = self.refused_label(lists, refusal)?;
                Ok(Some(RefusedOperator { name, label }))
            }
            None => Ok(None),
        }
    }
}

/// The name of the operator whose bytes begin at the offset.
pub fn name_at(bytes: &[u8], offset: u64) -> Option<&'static str> {
    let bytes = bytes.get(offset as usize..)?;
    operator_name(bytes)
}

/// What is found where code can't be read any more: nothing, unless memory ran out.
fn unread(error: ReadError) -> io::Result<Option<RefusedOperator>> {
    match Verdict::of_read_error(error) {
        Verdict::OutOfMemory => Err(io::Error::from(io::ErrorKind::OutOfMemory)),
        _ => Ok(None),
    }
}

/// The operator that is refused, if the refusal is about one, as [`Code::operator_of`] finds it.
fn refused_operator(
    alloc: Global,
    bytes: &[u8],
    code: &mut Code<'_>,
    refusal: &Error,
    last: &mut [u64; LAST],
) -> io::Result<Option<RefusedOperator>> {
    let mut lists = OperatorLists::new(alloc);
    match code.operator_of(&mut lists, bytes, refusal, last) {
        Ok(operator) => Ok(operator),
        Err(error) => unread(error),
    }
}

/// Reads code up to where it is refused: these are the module's bytes. It fails only if memory ran out.
pub fn trail_to(
    alloc: Global,
    bytes: &[u8],
    code: &mut Code<'_>,
    refusal: &Error,
) -> io::Result<Trail> {
    let mut last = [0u64; LAST];
    let operator = refused_operator(alloc, bytes, code, refusal, &mut last)?;
    let [from, ..] = last;
    Ok(Trail { operator, from })
}
