//! The code of a function or of a constant expression, as it is read operator by operator.

ghost use Rattle.std.specs.Prelude.{◌≡◌, ◌≢◌, ◌↔◌, [], Some, None, length, IsTrue, IfOk, OnOk, IfErr, OnErr};
ghost use Rattle.binary_operators.specs.Functions.{locals};
ghost use Rattle.binary_operators.specs.Instructions.{operator};
ghost use Rattle.binary_operators.specs.Integers.{unsigned};
ghost use Rattle.binary_operators.specs.Unplaced.{unplaced};
ghost use Rattle.binary_operators.specs.Vectors.{BeginVector};
ghost use Rattle.binary_operators.specs.declared.error.Cause.TheVariants.{OutOfMemory, VectorOperator};
ghost use Rattle.module_check.specs.Begin.{DefinesRead};
ghost use Rattle.module_check.specs.Refusals.{IsVector};
ghost use Rattle.validate_operators.specs.Validator.{state};
ghost use Rattle.validate_stacks.specs.State.{IsStarting};

use crate::operators::{define_locals, read_group};
use crate::verdict::CheckError;
use binary_operators::{BinaryReader, CanonicalTypes, OperatorLists, ReadError, read_operator};
use validate_operators::OperatorValidator;
use validate_resources::WasmModuleResources;
use validate_types::ValType;
use validate_visit::Op;

/// Reads the code of a function or of a constant expression. A function's code has the number of its groups of locals,
/// then the groups, then operators. A constant expression has operators alone.
#[derive(Drop)]
pub struct CodeReader<'m> {
    reader: BinaryReader<'m>,
    types: CanonicalTypes<'m>,
}

impl<'m> CodeReader<'m> {
    /// A reader of the code that is left here, in a module of these types.
    pub(crate) fn new(reader: BinaryReader<'m>, types: CanonicalTypes<'m>) -> CodeReader<'m>
        ensures code { result.reader ≡ reader.entry }
        ensures types { result.types ≡ types.entry }
    {
        CodeReader { reader, types }
    }

    /// The offset of what is read next.
    pub fn offset(&self) -> u64
        ensures { result ≡ self.now.reader.offset }
    {
        self.reader.offset()
    }

    /// How many bytes are left: there are no more operators than that.
    pub fn bytes_left(&self) -> usize
        ensures { result ≡ length self.now.reader.left }
    {
        self.reader.bytes_left()
    }

    /// Whether all of it was read.
    pub fn is_at_end(&self) -> bool
        ensures { IsTrue result ↔ (self.now.reader.left ≡ []) }
    {
        self.reader.is_at_end()
    }

    /// Reads how many groups of locals there are.
    pub fn read_group_count(&mut self) -> Result<u32, ReadError>
        ensures read { IfOk result (λ count. unsigned 32 self.old.reader.left ≡ Some (count, self.new.reader.left)) }
        ensures refused { OnErr result (unsigned 32 self.old.reader.left ≡ None) }
        ensures types { self.new.types ≡ self.old.types }
    {
        self.reader.read_var_u32()
    }

    /// Reads a group of locals: how many there are, and of which type.
    pub fn read_group(&mut self) -> Result<(u32, ValType), ReadError>
        ensures read { IfOk result (λ group. locals self.old.types self.old.reader.left
            ≡ Some (group, self.new.reader.left)) }
        ensures refused { OnErr result (locals self.old.types self.old.reader.left ≡ None) }
        ensures types { self.new.types ≡ self.old.types }
    {
        read_group(&mut self.reader, self.types)
    }

    /// Reads the locals of a function, from the number of groups on, and defines them in `v`.
    ///
    /// Condition: `v` is in a starting state for this lookup.
    pub fn define_locals<R: WasmModuleResources>(
        &mut self,
        v: &mut OperatorValidator,
        resources: &R,
    ) -> Result<(), CheckError>
        requires { IsStarting (R.context resources.now) (state v.old) }
        ensures starting { OnOk result (IsStarting (R.context resources.now) (state v.new)) }
        ensures defined { OnOk result (DefinesRead (R.context resources.now) self.old.types self.old.reader.left
            self.new.reader.left (state v.old) (state v.new)) }
        ensures types { self.new.types ≡ self.old.types }
        ensures covered { IfErr result (λ e. ¬ IsVector e) }
    {
        define_locals(v, resources, &mut self.reader, self.types)
    }

    /// Reads an operator. If it has a list (labels, types, clauses or handlers), the list stands in these buffers until
    /// the next read. An error says that the bytes begin with no operator, that the operator is one on vectors, or that
    /// memory ran out.
    pub fn read_operator<'l>(&mut self, lists: &'l mut OperatorLists) -> Result<Op<'l>, ReadError>
        ensures read { IfOk result (λ op. operator self.old.types self.old.reader.left
            ≡ Some (unplaced op, self.new.reader.left)) }
        ensures refused { IfErr result (λ e. e.cause ≢ OutOfMemory
            → operator self.old.types self.old.reader.left ≡ None) }
        ensures types { self.new.types ≡ self.old.types }
        ensures vector { IfErr result (λ e. e.cause ≡ VectorOperator → BeginVector self.old.reader.left) }
    {
        read_operator(&mut self.reader, self.types, lists)
    }
}
