//! A script, and the lines that it is made of.

ghost use Rattle.script_reader.specs.Lines.{all_features};
ghost use Rattle.std.specs.Prelude.{◌≡◌, ◌↔◌, ◌++◌, [], ◌∷◌, false, Some, IsSome, IfSome, IsErrOf, OnOk};

use crate::parts::failure::{LineError, push};
use crate::parts::line::Line;
use crate::parts::written::{Operators, may_be_attempted};
use bitflags::Flags;
use std::alloc::Global;
use validate_resources::ModuleDeclarations;
use validate_types::WasmFeatures;
use validate_visit::{BodyKind, LocalGroup, Op};

/// The `func` or `expr` line.
#[derive(Clone, Copy)]
pub struct BodyLine {
    /// What it begins.
    pub kind: BodyKind,
    /// The number of the line.
    pub offset: u64,
}

/// A script whose lines are all of the grammar, and in their places.
#[derive(Drop)]
pub struct Script<'a> {
    /// The proposals that are on.
    pub features: WasmFeatures,
    /// Whether it has a `show` line.
    pub shows: bool,
    /// The module.
    pub declarations: ModuleDeclarations,
    /// The `func` or `expr` line.
    pub body: BodyLine,
    /// The `local` lines.
    pub locals: Vec<LocalGroup>,
    /// The operators.
    pub operators: Operators<'a>,
}

/// What a script's first lines say.
#[derive(Drop)]
pub struct Draft<'a> {
    /// The proposals that are named, if some are.
    pub features: Option<WasmFeatures>,
    /// Whether a `show` line has come.
    pub shows: bool,
    /// The module.
    pub declarations: ModuleDeclarations,
    /// The `func` or `expr` line, if it has come.
    pub body: Option<BodyLine>,
    /// The `local` lines.
    pub locals: Vec<LocalGroup>,
    /// The operators.
    pub operators: Operators<'a>,
}

/// The parts of a script, in their order.
#[derive(Clone, Copy)]
enum Part {
    Module,
    Locals,
    Operators,
}

impl<'a> Draft<'a> {
    ghost use Rattle.script_reader.specs.declared.parts.failure.LineError.{LineError};
    ghost use Rattle.script_reader.specs.declared.parts.script.Part.TheVariants.{Module, Locals};
    ghost use Rattle.script_reader.specs.Lines.{part_of, may_stand_in, may_add_operator, features_or_all, AddsLine};

    /// No lines yet.
    pub fn new(alloc: Global) -> Draft<'a> {
        Draft {
            features: None,
            shows: false,
            declarations: ModuleDeclarations::new(alloc),
            body: None,
            locals: Vec::new(alloc),
            operators: Operators::new(alloc),
        }
    }

    /// The part that the last line stood in.
    fn part(&self) -> Part
        ensures { result ≡ part_of self.now }
    {
        if self.body.is_none() {
            Part::Module
        } else if self.operators.ops.is_empty() {
            Part::Locals
        } else {
            Part::Operators
        }
    }

    /// Adds a line that writes no operator, if this is its place.
    pub fn add(&mut self, line: Line, offset: u64) -> Result<(), LineError>
        ensures added { OnOk result (AddsLine self.old self.new line offset) }
        ensures bad { IsErrOf result LineError.Bad
            ↔ (may_stand_in line (part_of self.old) self.old.declarations.data_count self.old.shows
            ≡ false) }
    {
        match self.part() {
            Part::Module => self.add_declaration(line, offset),
            Part::Locals => self.add_locals(line, offset),
            Part::Operators => Err(LineError::Bad),
        }
    }

    /// Adds a line of the module, or the one that begins the body.
    fn add_declaration(&mut self, line: Line, offset: u64) -> Result<(), LineError>
        ensures added { OnOk result (AddsLine self.old self.new line offset) }
        ensures bad { IsErrOf result LineError.Bad
            ↔ (may_stand_in line Module self.old.declarations.data_count self.old.shows ≡ false) }
    {
        match (line, self.declarations.data_count, self.shows) {
            (Line::Feature(named), _, _) => {
                let before = self.features.unwrap_or(WasmFeatures::empty());
                self.features = Some(before.union(named));
                Ok(())
            }
            (Line::SubType(ty), _, _) => push(&mut self.declarations.types, ty),
            (Line::Function(function), _, _) => push(&mut self.declarations.functions, function),
            (Line::Table(ty), _, _) => push(&mut self.declarations.tables, ty),
            (Line::Memory(ty), _, _) => push(&mut self.declarations.memories, ty),
            (Line::Global(ty), _, _) => push(&mut self.declarations.globals, ty),
            (Line::Tag(index), _, _) => push(&mut self.declarations.tags, index),
            (Line::Element(ty), _, _) => push(&mut self.declarations.elements, ty),
            (Line::DataCount(count), None, _) => {
                self.declarations.data_count = Some(count);
                Ok(())
            }
            (Line::Show, _, false) => {
                self.shows = true;
                Ok(())
            }
            (Line::Body(kind), _, _) => {
                self.body = Some(BodyLine { kind, offset });
                Ok(())
            }
            _ => Err(LineError::Bad),
        }
    }

    /// Adds a line between the one that begins the body and the operators: locals.
    fn add_locals(&mut self, line: Line, offset: u64) -> Result<(), LineError>
        ensures added { OnOk result (AddsLine self.old self.new line offset) }
        ensures bad { IsErrOf result LineError.Bad
            ↔ (may_stand_in line Locals self.old.declarations.data_count self.old.shows ≡ false) }
    {
        match line {
            Line::Locals(count, ty) => push(&mut self.locals, LocalGroup { count, ty, offset }),
            _ => Err(LineError::Bad),
        }
    }

    /// Adds an operator, attempted or not, if the `func` or `expr` line has come, and if it may be attempted
    /// where it is: one that opens a block, or ends one or a part of it, may not stand in a `try` line.
    pub fn add_operator(
        &mut self,
        op: Op<'a>,
        attempted: bool,
        offset: u64,
    ) -> Result<(), LineError>
        ensures ops { OnOk result (self.new.operators.ops.items ≡ self.old.operators.ops.items
            ++ (op.entry, offset) ∷ []) }
        ensures attempts { OnOk result (self.new.operators.attempts.items
            ≡ self.old.operators.attempts.items ++ attempted ∷ []) }
        ensures others { self.new ≡ record self.old { operators = self.new.operators } }
        ensures bad { IsErrOf result LineError.Bad ↔ (may_add_operator self.old op.entry attempted ≡ false) }
    {
        if self.body.is_none() || (attempted && !may_be_attempted(op)) {
            return Err(LineError::Bad);
        }
        self.operators.push(op, attempted, offset)?;
        Ok(())
    }

    /// The whole script, if it has its `func` or `expr` line. Every proposal is on where no `feature`
    /// line stands.
    pub fn finish(self) -> Option<Script<'a>>
        ensures whole { IsSome result ↔ IsSome self.entry.body }
        ensures features { IfSome result (λ script. script.features ≡ features_or_all self.entry.features) }
        ensures shows { IfSome result (λ script. script.shows ≡ self.entry.shows) }
        ensures declarations { IfSome result (λ script. script.declarations ≡ self.entry.declarations) }
        ensures body { IfSome result (λ script. self.entry.body ≡ Some script.body) }
        ensures locals { IfSome result (λ script. script.locals ≡ self.entry.locals) }
        ensures operators { IfSome result (λ script. script.operators ≡ self.entry.operators) }
    {
        let Draft {
            features,
            shows,
            declarations,
            body,
            locals,
            operators,
        } = self;
        let features = match features {
            Some(features) => features,
            None => every_proposal(),
        };
        Some(Script {
            features,
            shows,
            declarations,
            body: body?,
            locals,
            operators,
        })
    }
}

/// Every proposal.
fn every_proposal() -> WasmFeatures
    ensures { result ≡ all_features }
{
    WasmFeatures::all()
}
