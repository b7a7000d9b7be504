//! Constant expressions (WebAssembly core specification, "Binary Format: Instructions", "Expressions").

ghost use Rattle.std.specs.Prelude.{ℕ, ◌≡◌, ◌≢◌, ◌+◌, ◌^◌, ◌<◌, ◌≤◌, List, ◌++◌, length, Option, Some, IfSome};
ghost use Rattle.std.specs.Prelude.{true, false, IsTrue, IfOk, IfErr, OnOk, OnErr};
ghost use Rattle.binary_operators.specs.Instructions.{operator};
ghost use Rattle.binary_operators.specs.declared.error.Cause.TheVariants.{OutOfMemory};
ghost use Rattle.binary_operators.specs.declared.types.CanonicalTypes.{CanonicalTypes};
ghost use Rattle.validate_visit.specs.declared.op.ControlOp.TheVariants.{End};
ghost use Rattle.validate_visit.specs.declared.op.Op.{Op};
ghost use Rattle.validate_visit.specs.declared.op.Op.TheVariants.{Control};
ghost use Rattle.binary_modules.specs.Initializers.{of_operator, piece, depth_behind, named, named_functions, expression};
ghost use Rattle.binary_modules.specs.Kept.{IsInteger, IsNull};

use binary_operators::{
    BinaryReader, CanonicalTypes, Fault, OperatorLists, ReadError, push, read_operator,
};
use validate_visit::{ControlOp, ExceptionOp, Op, ReferenceOp};

/// Reads an `end`, if the next operator is one. It refuses where no byte is left: `unexpected end`.
fn read_end(reader: &mut BinaryReader<'_>) -> Result<bool, ReadError>
    ensures end { IfOk result (λ is_end. IsTrue is_end → (types : CanonicalTypes)
        → piece types reader.old.left ≡ Some (Some (Control End), reader.new.left)) }
    ensures passed { IfOk result (λ is_end. is_end ≡ false → reader.new ≡ reader.old) }
    ensures refused { OnErr result ((types : CanonicalTypes) → piece types reader.old.left ≡ Option.None) }
{
    reader.read_if(0x0b)
}

/// Reads an `i32.const`, if the next operator is one. It refuses where no byte is left, `unexpected end`, and what the
/// read of the integer refuses.
#[tactic(auto, using(crate::proofs::Pieces::integer_piece))]
fn read_integer(reader: &mut BinaryReader<'_>) -> Result<bool, ReadError>
    ensures integer { IfOk result (λ is_integer. IsTrue is_integer → (types : CanonicalTypes)
        → IsInteger types reader.old.left reader.new.left) }
    ensures passed { IfOk result (λ is_integer. is_integer ≡ false → reader.new ≡ reader.old) }
    ensures refused { OnErr result ((types : CanonicalTypes) → piece types reader.old.left ≡ Option.None) }
{
    if !reader.read_if(0x41)? {
        return Ok(false);
    }
    let _value = reader.read_var_i32()?;
    Ok(true)
}

/// Reads a `ref.null` of an abstract type that isn't shared, if the next operator is one, and answers whether it is.
fn read_null(reader: &mut BinaryReader<'_>) -> bool
    ensures null { result ≡ true → (types : CanonicalTypes) → IsNull types reader.old.left reader.new.left }
    ensures passed { result ≡ false → reader.new ≡ reader.old }
{
    let Some((code, ty)) = reader.next_two() else {
        return false;
    };
    if code != 0xd0 || ty < 0x68 || ty > 0x75 {
        return false;
    }
    *reader = reader.behind(2);
    true
}

/// Reads a constant of the vector type, if the next operator is one. It refuses other vector operators, and what the
/// reads of numbers and of bytes refuse.
#[tactic(auto, unfolding(crate::specs::Initializers::piece, crate::specs::Initializers::vector_constant))]
fn read_vector_constant(reader: &mut BinaryReader<'_>) -> Result<bool, ReadError>
    ensures constant { IfOk result (λ is_constant. IsTrue is_constant
        → (types : CanonicalTypes) → piece types reader.old.left ≡ Some (Option.None, reader.new.left)) }
    ensures other { IfOk result (λ is_constant. is_constant ≡ false
        → (types : CanonicalTypes) → piece types reader.old.left ≡ of_operator (operator types reader.old.left)) }
    ensures passed { IfOk result (λ is_constant. is_constant ≡ false → reader.new ≡ reader.old) }
    ensures refused { OnErr result ((types : CanonicalTypes) → piece types reader.old.left ≡ Option.None) }
{
    let offset = reader.offset();
    if !reader.read_if(0xfd)? {
        return Ok(false);
    }
    if reader.read_var_u32()? != 12 {
        return Err(ReadError::vector_operator(offset));
    }
    let _bits = reader.read_bytes(16)?;
    Ok(true)
}

/// How many parts are open behind an operator, where so many are open before it, or None where it ends the outermost
/// one.
fn depth_behind(depth: usize, op: Op<'_>) -> Option<usize>
    requires { depth + 1 < 2 ^ 64 }
    ensures depth { result ≡ depth_behind depth (Some op.entry) }
    ensures below { IfSome result (λ behind. behind ≤ depth + 1) }
{
    match op {
        Op::Control(ControlOp::Block(_) | ControlOp::Loop(_) | ControlOp::If(_))
        | Op::Exception(ExceptionOp::TryTable(_) | ExceptionOp::Try(_)) => Some(depth + 1),
        Op::Control(ControlOp::End) | Op::Exception(ExceptionOp::Delegate(_)) => {
            depth.checked_sub(1)
        }
        _ => Some(depth),
    }
}

/// Notes the function that an operator names by `ref.func`, if it does. It refuses want of memory alone.
fn note_function(op: Op<'_>, functions: &mut Vec<u32>) -> Result<(), ReadError>
    ensures noted { OnOk result (functions.new.items ≡ functions.old.items ++ named (Some op.entry)) }
    ensures short { IfErr result (λ e. e.cause ≡ OutOfMemory) }
{
    match op {
        Op::Reference(ReferenceOp::RefFunc(index)) => push(functions, index),
        _ => Ok(()),
    }
}

/// Reads any operator of a constant expression in which so many parts are open, or a vector constant, and notes the
/// function that it names. It answers how many are open behind it, or None where it ends the expression.
fn read_any_piece(
    reader: &mut BinaryReader<'_>,
    canonical: CanonicalTypes<'_>,
    lists: &mut OperatorLists,
    functions: &mut Vec<u32>,
    depth: usize,
) -> Result<Option<usize>, ReadError>
    requires { depth + 1 < 2 ^ 64 }
    ensures below { IfOk result (λ behind. IfSome behind (λ b. b ≤ depth + 1)) }
    ensures read { IfOk result (λ behind. (op : Option Op)
        × (piece canonical.entry reader.old.left ≡ Some (op, reader.new.left))
        × (behind ≡ depth_behind depth op)
        × (functions.new.items ≡ functions.old.items ++ named op)) }
    ensures refused { IfErr result (λ e. e.cause ≢ OutOfMemory
        → piece canonical.entry reader.old.left ≡ Option.None) }
{
    if read_vector_constant(reader)? {
        return Ok(Some(depth));
    }
    let op = read_operator(reader, canonical, lists)?;
    note_function(op, functions)?;
    Ok(depth_behind(depth, op))
}

/// [`read_any_piece`]. Of those that most expressions are made of no operator is made.
fn read_piece(
    reader: &mut BinaryReader<'_>,
    canonical: CanonicalTypes<'_>,
    lists: &mut OperatorLists,
    functions: &mut Vec<u32>,
    depth: usize,
) -> Result<Option<usize>, ReadError>
    requires { depth + 1 < 2 ^ 64 }
    ensures below { IfOk result (λ behind. IfSome behind (λ b. b ≤ depth + 1)) }
    ensures read { IfOk result (λ behind. (op : Option Op)
        × (piece canonical.entry reader.old.left ≡ Some (op, reader.new.left))
        × (behind ≡ depth_behind depth op)
        × (functions.new.items ≡ functions.old.items ++ named op)) }
    ensures refused { IfErr result (λ e. e.cause ≢ OutOfMemory
        → piece canonical.entry reader.old.left ≡ Option.None) }
{
    if read_end(reader)? {
        return Ok(depth_behind(depth, Op::Control(ControlOp::End)));
    }
    if read_integer(reader)? {
        return Ok(Some(depth));
    }
    if read_null(reader) {
        return Ok(Some(depth));
    }
    read_any_piece(reader, canonical, lists, functions, depth)
}

/// Reads the operators of a constant expression, and notes the functions that they name. It refuses what the reads of
/// operators refuse, bytes that end before the expression does, `unexpected end`, and want of memory.
fn read_operators(
    reader: &mut BinaryReader<'_>,
    canonical: CanonicalTypes<'_>,
    lists: &mut OperatorLists,
    functions: &mut Vec<u32>,
) -> Result<(), ReadError>
    ensures read { OnOk result ((names : List ℕ)
        × (named_functions (length reader.old.left) canonical.entry 0 reader.old.left
        ≡ Some (names, reader.new.left))
        × (functions.new.items ≡ functions.old.items ++ names)) }
    ensures refused { IfErr result (λ e. e.cause ≢ OutOfMemory
        → named_functions (length reader.old.left) canonical.entry 0 reader.old.left ≡ Option.None) }
{
    let mut depth = 0;
    for _ in 0..reader.bytes_left() {
        match read_piece(reader, canonical, lists, functions, depth)? {
            Some(behind) => depth = behind,
            None => return Ok(()),
        }
    }
    Err(ReadError::malformed(Fault::UnexpectedEnd, reader.offset()))
}

/// Reads a constant expression, notes the functions that it names, and answers a reader of it. It refuses what the reads
/// of operators refuse, bytes that end in it, `unexpected end`, and want of memory.
#[tactic(auto, unfolding(crate::specs::Initializers::expression))]
pub(crate) fn read_expression<'a>(
    reader: &mut BinaryReader<'a>,
    canonical: CanonicalTypes<'_>,
    lists: &mut OperatorLists,
    functions: &mut Vec<u32>,
) -> Result<BinaryReader<'a>, ReadError>
    ensures read { IfOk result (λ read. (names : List ℕ)
        × (expression canonical.entry reader.old.left
        ≡ Some (record { bytes = read.left; functions = names }, reader.new.left))
        × (functions.new.items ≡ functions.old.items ++ names)) }
    ensures refused { IfErr result (λ e. e.cause ≢ OutOfMemory
        → expression canonical.entry reader.old.left ≡ Option.None) }
{
    let mut start = reader.duplicate();
    read_operators(reader, canonical, lists, functions)?;
    let count = start.bytes_left().saturating_sub(reader.bytes_left());
    start.part(count)
}
