//! What lies on the stacks where a body is refused: operands, and the parts that are open.

use crate::lines::Lines;
use crate::listing::{SHOWN, add_operand, add_type_value};
use crate::operators::{RefusedOperator, name_at};
use crate::options::Format;
use crate::origins::Origins;
use crate::type_names::add_type;
use crate::written::Written;
use crate::{json, text};
use validate_operators::OperatorValidator;
use validate_resources::ModuleLists;
use validate_stacks::blocks::{params, results};
use validate_types::{MaybeType, Refusal, ValType};
use validate_visit::{BodyKind, Frame, FrameKind};

/// A body before the operator that is refused.
#[derive(Drop)]
pub struct Scene<'s> {
    /// Its validator.
    pub v: &'s OperatorValidator,
    /// The lookup.
    pub resources: &'s ModuleLists,
    /// Where the operands come from.
    pub origins: &'s Origins,
    /// The module's bytes.
    pub bytes: &'s [u8],
    /// Whose body it is.
    pub kind: BodyKind,
    /// The operator that is refused, where one is.
    pub operator: Option<RefusedOperator>,
    /// Why it is refused, where a rule says so.
    pub reason: Option<Refusal>,
}

/// An operand as it is shown.
#[derive(Clone, Copy)]
struct ShownOperand {
    /// Its type, if that is known.
    ty: Option<ValType>,
    /// The offset and the name of the operator that pushed it, where they are told.
    origin: Option<(u64, &'static str)>,
    /// Whether it fits what the refused operator expects, as far as that looked.
    fit: Fit,
}

/// Whether an operand fits.
#[derive(Clone, Copy)]
enum Fit {
    /// It does, or wasn't looked at.
    Fits,
    /// It doesn't.
    Differs,
    /// It doesn't: another type is expected.
    DiffersFrom(ValType),
}

/// An open part as it is shown.
#[derive(Clone, Copy)]
struct ShownPart<'s> {
    /// What began it.
    name: &'static str,
    /// The offset at which it begins.
    offset: u64,
    /// What it takes.
    params: &'s [ValType],
    /// What it gives.
    results: &'s [ValType],
    /// How many operands it has.
    operands: usize,
    /// Whether its code is dead from here on.
    is_dead: bool,
    /// By how many operands it differs from what it is to give.
    surplus: Surplus,
}

/// By how many operands a part that ends differs from its results.
#[derive(Clone, Copy)]
enum Surplus {
    /// By none, or it doesn't end.
    Nothing,
    /// So many are too many.
    TooMany(usize),
    /// So many are missing.
    Missing(usize),
}

/// The name of what began a part.
fn name_of(kind: FrameKind) -> &'static str {
    match kind {
        FrameKind::Block => "block",
        FrameKind::If => "if",
        FrameKind::Else => "else",
        FrameKind::Loop => "loop",
        FrameKind::TryTable => "try_table",
        FrameKind::LegacyTry => "try",
        FrameKind::LegacyCatch => "catch",
        FrameKind::LegacyCatchAll => "catch_all",
    }
}

/// The name of a whole body.
fn name_of_body(kind: BodyKind) -> &'static str {
    match kind {
        BodyKind::Function(_) => "func",
        BodyKind::Expression(_) => "expression",
    }
}

/// Whether an operator ends a part.
fn is_end(name: &str) -> bool {
    matches!(name, "end" | "else" | "catch" | "catch_all" | "delegate")
}

impl Scene<'_> {
    /// How many operands the innermost part has.
    fn own_count(&self) -> usize {
        let height = self.v.operand_stack_height();
        match self.v.get_frame(0) {
            Some(frame) => height.saturating_sub(frame.height),
            None => height,
        }
    }

    /// The depth of the operand of this type that is no fitting reference: operators that say so look at the top first, and
    /// at most at two.
    fn depth_of_reference(&self, ty: ValType) -> usize {
        if self.v.peek_operand_at(0) == Some(Some(ty)) {
            0
        } else {
            1
        }
    }

    /// Whether the operand at this depth fits.
    fn fit_at(&self, place: usize) -> Fit {
        match self.reason {
            Some(
                Refusal::Mismatch {
                    depth,
                    expected,
                    ..
                },
            ) if depth == place => Fit::DiffersFrom(expected),
            Some(
                Refusal::NoReference(ty)
                | Refusal::NotBelow {
                    found: MaybeType::Known(ty),
                    ..
                },
            ) if self.depth_of_reference(ty) == place => Fit::Differs,
            _ => Fit::Fits,
        }
    }

    /// The operand at this depth.
    fn operand_at(&self, depth: usize) -> ShownOperand {
        let origin = match self.origins.of_operand(depth) {
            Some(offset) => match name_at(self.bytes, offset) {
                Some(name) => Some((offset, name)),
                None => None,
            },
            None => None,
        };
        ShownOperand {
            ty: self.v.peek_operand_at(depth).flatten(),
            origin,
            fit: self.fit_at(depth),
        }
    }

    /// By how many operands the innermost part, which takes so many and gives so many, differs from what it gives.
    fn surplus(&self, given: usize) -> Surplus {
        let own = self.own_count();
        match self.operator {
            Some(operator) if is_end(operator.name) => {}
            _ => return Surplus::Nothing,
        }
        match self.reason {
            Some(Refusal::OperandsLeft) if own > given => Surplus::TooMany(own.saturating_sub(
                given,
            )),
            Some(Refusal::NothingFound(_)) if own < given => {
                Surplus::Missing(given.saturating_sub(own))
            }
            _ => Surplus::Nothing,
        }
    }

    /// The part of this frame, which is at this depth and has so many operands.
    fn part<'p>(&'p self, frame: &'p Frame, depth: usize, operands: usize) -> ShownPart<'p> {
        let results = results(self.resources, &frame.block_type);
        let is_body = depth.saturating_add(1) == self.v.control_stack_height();
        ShownPart {
            name: if is_body {
                name_of_body(self.kind)
            } else {
                name_of(frame.kind)
            },
            offset: self.origins.of_part(depth).unwrap_or(0),
            params: params(self.resources, &frame.block_type),
            results,
            operands,
            is_dead: frame.unreachable,
            surplus: if depth == 0 {
                self.surplus(results.len())
            } else {
                Surplus::Nothing
            },
        }
    }
}

/// Adds whether an operand fits, if it doesn't.
fn add_fit(out: &mut Written, fit: Fit) {
    match fit {
        Fit::Fits => {}
        Fit::Differs => out.add(", doesn't fit"),
        Fit::DiffersFrom(ty) => {
            out.add(", doesn't fit: expected ");
            add_type(out, ty);
        }
    }
}

/// Adds an operand as a line.
fn add_operand_line(out: &mut Written, prefix: Option<&[u8]>, operand: ShownOperand) {
    text::begin(out, prefix);
    out.add("  operand ");
    add_operand(out, operand.ty);
    if let Some((offset, name)) = operand.origin {
        out.add(", of ");
        out.add(name);
        out.add(" at ");
        out.add_offset(offset);
    }
    add_fit(out, operand.fit);
    out.add("\n");
}

/// Adds whether an operand fits as members of an object, if it doesn't.
fn add_fit_members(out: &mut Written, fit: Fit) {
    match fit {
        Fit::Fits => {}
        Fit::Differs => out.add(",\"fits\":false"),
        Fit::DiffersFrom(ty) => {
            out.add(",\"fits\":false");
            json::begin_member(out, "expected");
            add_type_value(out, Some(ty));
        }
    }
}

/// Adds an operand as an object.
fn add_operand_object(out: &mut Written, operand: ShownOperand) {
    out.add("{\"type\":");
    add_type_value(out, operand.ty);
    if let Some((offset, name)) = operand.origin {
        json::add_string(out, "operator", name);
        json::add_number(out, "offset", offset);
    }
    add_fit_members(out, operand.fit);
    out.add("}");
}

/// Adds types in brackets.
fn add_types(out: &mut Written, types: &[ValType]) {
    out.add("[");
    for (index, ty) in types.iter().enumerate() {
        if index > 0 {
            out.add(" ");
        }
        add_type(out, *ty);
    }
    out.add("]");
}

/// Adds types as a member that is a list.
fn add_listed_types(out: &mut Written, name: &str, types: &[ValType]) {
    json::begin_member(out, name);
    out.add("[");
    for (index, ty) in types.iter().enumerate() {
        if index > 0 {
            out.add(",");
        }
        add_type_value(out, Some(*ty));
    }
    out.add("]");
}

/// Adds a count, and what it counts.
fn add_count(out: &mut Written, count: usize, what: &str) {
    out.show(count);
    out.add(what);
}

/// Adds by how many operands a part that ends differs from its results, if it does.
fn add_surplus(out: &mut Written, surplus: Surplus) {
    match surplus {
        Surplus::Nothing => {}
        Surplus::TooMany(count) => {
            out.add(", ");
            add_count(out, count, " too many");
        }
        Surplus::Missing(count) => {
            out.add(", ");
            add_count(out, count, " missing");
        }
    }
}

/// Adds an open part as a line.
fn add_part_line(out: &mut Written, prefix: Option<&[u8]>, part: &ShownPart<'_>) {
    text::begin(out, prefix);
    out.add("  in ");
    out.add(part.name);
    out.add(" at ");
    out.add_offset(part.offset);
    out.add(", ");
    add_types(out, part.params);
    out.add(" -> ");
    add_types(out, part.results);
    out.add(": ");
    add_count(
        out,
        part.operands,
        if part.operands == 1 {
            " operand"
        } else {
            " operands"
        },
    );
    add_surplus(out, part.surplus);
    out.add(if part.is_dead {
        ", unreachable\n"
    } else {
        "\n"
    });
}

/// Adds an open part as an object.
fn add_part_object(out: &mut Written, part: &ShownPart<'_>) {
    out.add("{\"operator\":\"");
    out.add(part.name);
    out.add("\"");
    json::add_number(out, "offset", part.offset);
    add_listed_types(out, "params", part.params);
    add_listed_types(out, "results", part.results);
    json::add_number(out, "operands", part.operands as u64);
    match part.surplus {
        Surplus::Nothing => {}
        Surplus::TooMany(count) => json::add_number(out, "too_many", count as u64),
        Surplus::Missing(count) => json::add_number(out, "missing", count as u64),
    }
    out.add(if part.is_dead {
        ",\"unreachable\":true}"
    } else {
        "}"
    });
}

impl Scene<'_> {
    /// Whether the operand at this depth is shown: those on top are, and one that doesn't fit.
    fn is_shown(&self, depth: usize) -> bool {
        depth < SHOWN || !matches!(self.fit_at(depth), Fit::Fits)
    }

    /// Adds the operands of the innermost part as lines, the lowest first.
    fn add_operand_lines(&self, out: &mut Written, prefix: Option<&[u8]>) {
        for depth in (0..self.own_count()).rev() {
            if self.is_shown(depth) {
                add_operand_line(out, prefix, self.operand_at(depth));
            }
        }
    }

    /// Adds the operands of the innermost part as objects, the lowest first.
    fn add_operand_objects(&self, out: &mut Written) {
        let mut comma = "";
        for depth in (0..self.own_count()).rev() {
            if self.is_shown(depth) {
                out.add(comma);
                add_operand_object(out, self.operand_at(depth));
                comma = ",";
            }
        }
    }

    /// Adds the open parts as lines, the innermost first.
    fn add_part_lines(&self, out: &mut Written, prefix: Option<&[u8]>) {
        let mut above = self.v.operand_stack_height();
        for depth in 0..self.v.control_stack_height().min(SHOWN) {
            if let Some(frame) = self.v.get_frame(depth) {
                let part = self.part(frame, depth, above.saturating_sub(frame.height));
                add_part_line(out, prefix, &part);
                above = frame.height;
            }
        }
    }

    /// Adds the open parts as objects, the innermost first.
    fn add_part_objects(&self, out: &mut Written) {
        let mut above = self.v.operand_stack_height();
        for depth in 0..self.v.control_stack_height().min(SHOWN) {
            if let Some(frame) = self.v.get_frame(depth) {
                let part = self.part(frame, depth, above.saturating_sub(frame.height));
                out.add(if depth == 0 { "" } else { "," });
                add_part_object(out, &part);
                above = frame.height;
            }
        }
    }

    /// Adds the operands and the open parts.
    pub fn add(&self, out: &mut Written, lines: Lines<'_>) {
        match lines.format {
            Format::Text => {
                self.add_operand_lines(out, lines.prefix());
                self.add_part_lines(out, lines.prefix());
            }
            Format::Json => {
                out.add(",\"stack\":[");
                self.add_operand_objects(out);
                out.add("],\"frames\":[");
                self.add_part_objects(out);
                out.add("]");
            }
        }
    }
}
