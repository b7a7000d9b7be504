//! The constant expressions of a module, and tables and globals that have them (WebAssembly core specification, "Binary
//! Format: Modules").

ghost use Rattle.std.specs.Prelude.{ℕ, ◌≡◌, ◌≢◌, List, [], ◌∷◌, Some, None, IfOk, IfErr, OnOk};
ghost use Rattle.binary_operators.specs.declared.error.Cause.TheVariants.{OutOfMemory};
ghost use Rattle.binary_modules.specs.Initializers.{Expression, expression};
ghost use Rattle.binary_modules.specs.Kept.{Adds};

use crate::expressions::read_expression;
use binary_operators::{BinaryReader, CanonicalTypes, OperatorLists, ReadError, push};
use module_rules::Place;
use std::alloc::Global;

/// A constant expression, with what it is for.
#[derive(Drop)]
pub struct ConstantExpression<'a> {
    /// What it is for.
    pub place: Place,
    /// A reader of it, its `end` among what is left.
    pub bytes: BinaryReader<'a>,
}

/// The constant expressions of a module, in their order.
#[derive(Drop)]
pub struct Initializers<'a> {
    /// The expressions.
    pub expressions: Vec<ConstantExpression<'a>>,
    /// The functions that they name by `ref.func`.
    pub functions: Vec<u32>,
    lists: OperatorLists,
    alloc: Global,
}

impl<'a> Initializers<'a> {
    /// No expressions. It takes no memory.
    pub fn new(alloc: Global) -> Initializers<'a>
        ensures expressions { result.expressions.items ≡ [] }
        ensures functions { result.functions.items ≡ [] }
    {
        Initializers {
            expressions: Vec::new(alloc),
            functions: Vec::new(alloc),
            lists: OperatorLists::new(alloc),
            alloc,
        }
    }

    /// By what memory is taken, also for the lists that stand beside the expressions.
    pub(crate) fn allocator(&self) -> Global {
        self.alloc
    }

    /// Reads a constant expression for this, behind those that are there. It refuses what the reads of operators refuse,
    /// bytes that end in it, `unexpected end`, and want of memory.
    pub(crate) fn read(
        &mut self,
        reader: &mut BinaryReader<'a>,
        canonical: CanonicalTypes<'_>,
        place: Place,
    ) -> Result<(), ReadError>
        ensures read { OnOk result ((e : Expression)
            × (expression canonical.entry reader.old.left ≡ Some (e, reader.new.left))
            × Adds self.old ((place, e) ∷ []) self.new) }
        ensures refused { IfErr result (λ e. e.cause ≢ OutOfMemory
            → expression canonical.entry reader.old.left ≡ None) }
    {
        let bytes = read_expression(reader, canonical, &mut self.lists, &mut self.functions)?;
        push(&mut self.expressions, ConstantExpression { place, bytes })
    }
}
