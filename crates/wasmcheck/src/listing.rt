//! The lines of operators, or the members of an object that tell of them.

use crate::immediates::add_immediates;
use crate::lines::Lines;
use crate::options::Format;
use crate::type_names::add_type;
use crate::written::Written;
use crate::{json, text};
use validate_operators::OperatorValidator;
use validate_types::ValType;
use validate_visit::Op;

/// So many operands are shown of a stack, those on top.
pub const SHOWN: usize = 16;

/// An operator as it is shown.
#[derive(Clone, Copy)]
pub struct ShownOperator<'s, 'l> {
    /// The offset at which it begins.
    pub offset: u64,
    /// Its name.
    pub name: &'s str,
    /// The operator, for its immediates.
    pub op: &'s Op<'l>,
}

/// Where operators are written, one after another.
#[derive(Drop)]
pub struct Listing<'o> {
    /// How lines are written.
    pub lines: Lines<'o>,
    /// What was written.
    pub written: Written,
    /// Operators before this offset are left out.
    pub from: u64,
    /// Whether nothing has been written so far.
    pub is_empty: bool,
}

/// Adds the types of the operands on top, the lowest first, and before them that there are more.
fn add_operands(out: &mut Written, v: &OperatorValidator) {
    let height = v.operand_stack_height();
    if height > SHOWN {
        out.add(" ..");
    }
    for depth in (0..height.min(SHOWN)).rev() {
        out.add(" ");
        add_operand(out, v.peek_operand_at(depth).flatten());
    }
}

/// Adds the type of an operand, `?` if it isn't known.
pub fn add_operand(out: &mut Written, ty: Option<ValType>) {
    match ty {
        Some(ty) => add_type(out, ty),
        None => out.add("?"),
    }
}

/// Adds an operator, and the operands behind it, as a line.
fn add_line(
    out: &mut Written,
    prefix: Option<&[u8]>,
    shown: ShownOperator<'_, '_>,
    v: &OperatorValidator,
) {
    text::begin(out, prefix);
    out.add("  ");
    out.add_offset(shown.offset);
    out.add(" ");
    out.add(shown.name);
    add_immediates(out, shown.op);
    out.add(":");
    add_operands(out, v);
    out.add("\n");
}

/// Adds a type as a value of JSON.
pub fn add_type_value(out: &mut Written, ty: Option<ValType>) {
    match ty {
        Some(ty) => {
            out.add("\"");
            add_type(out, ty);
            out.add("\"");
        }
        None => out.add("null"),
    }
}

/// Adds the types of the operands on top, the lowest first, as a member that is a list.
fn add_listed_operands(out: &mut Written, v: &OperatorValidator) {
    json::begin_member(out, "operands");
    out.add("[");
    let count = v.operand_stack_height().min(SHOWN);
    for depth in (0..count).rev() {
        if depth.saturating_add(1) < count {
            out.add(",");
        }
        add_type_value(out, v.peek_operand_at(depth).flatten());
    }
    out.add("]");
}

/// Adds the immediates of an operator as a member, if it has some.
fn add_immediates_member(out: &mut Written, op: &Op<'_>) {
    let mut immediates = out.empty();
    add_immediates(&mut immediates, op);
    let text = immediates.as_str().trim_start();
    if !text.is_empty() {
        json::add_string(out, "immediates", text);
    }
}

/// Adds an operator, and the operands behind it, as an object.
fn add_object(out: &mut Written, shown: ShownOperator<'_, '_>, v: &OperatorValidator) {
    out.add("{\"offset\":");
    out.show(shown.offset);
    json::add_string(out, "operator", shown.name);
    add_immediates_member(out, shown.op);
    json::add_number(out, "height", v.operand_stack_height() as u64);
    add_listed_operands(out, v);
    out.add("}");
}

impl Listing<'_> {
    /// What stands before an operator as an object.
    fn separator(&self) -> &'static str {
        if self.is_empty {
            ",\"operators\":["
        } else {
            ","
        }
    }

    /// Adds an operator, behind which the validator is, unless it is left out.
    pub fn add_operator(&mut self, shown: ShownOperator<'_, '_>, v: &OperatorValidator) {
        if shown.offset < self.from {
            return;
        }
        match self.lines.format {
            Format::Text => add_line(&mut self.written, self.lines.prefix(), shown, v),
            Format::Json => {
                let separator = self.separator();
                self.written.add(separator);
                add_object(&mut self.written, shown, v);
            }
        }
        self.is_empty = false;
    }

    /// Ends the list of operators.
    pub fn end(&mut self) {
        match self.lines.format {
            Format::Json if !self.is_empty => self.written.add("]"),
            _ => {}
        }
    }
}
