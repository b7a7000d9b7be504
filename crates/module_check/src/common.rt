//! The operators that most code is made of. Their first byte tells them, and each is checked as it is read.

ghost use Rattle.std.specs.Prelude.{◌≡◌, ◌≢◌, ℕ, ◌<◌, ◌≤◌, true, false, List, [], ◌∷◌, Some, drop, length, IfSome};
ghost use Rattle.binary_operators.specs.Forms.{from, forms};
ghost use Rattle.binary_operators.specs.Integers.{unsigned};
ghost use Rattle.binary_operators.specs.declared.forms.Form.TheVariants.{Index};
ghost use Rattle.validate_visit.specs.Order.{is_part_closer, nesting};
ghost use Rattle.validate_visit.specs.declared.op.ControlOp.{ControlOp};
ghost use Rattle.validate_visit.specs.declared.numeric.FloatBinaryOp.{FloatBinaryOp};
ghost use Rattle.validate_visit.specs.declared.numeric.IntegerBinaryOp.{IntegerBinaryOp};
ghost use Rattle.validate_visit.specs.declared.numeric.IntegerComparisonOp.{IntegerComparisonOp};
ghost use Rattle.validate_visit.specs.declared.op.NumericOp.{NumericOp};
ghost use Rattle.validate_visit.specs.declared.op.MemoryOp.{MemoryOp};
ghost use Rattle.validate_visit.specs.declared.op.Op.{Op};
ghost use Rattle.validate_operators.specs.Validator.{state, stacks_of};
ghost use Rattle.validate_stacks.specs.Visits.{MayVisit};
ghost use Rattle.module_check.specs.Turns.{Passes, Turns};
ghost use Rattle.module_check.specs.FirstBytes.{BeginAs, BeginLike, BeginAccess, EndsNear, IsNear};

use crate::first_bytes::Common::{
    Binary32, Binary64, BinaryF32, BinaryF64, Block, Compare32, Compare64, Constant32, Constant64,
    Drop, End, If, Indexed, Load32, Load64, LoadF32, LoadF64, LocalGet, LocalSet, LocalTee, Loop,
    Nop, Rare, Return, Select, Store32, Store64, StoreF32, StoreF64, Test32,
};
use crate::first_bytes::common_of;
use crate::indexed::indexed;
use binary_operators::BinaryReader;
use validate_operators::OperatorValidator;
use validate_resources::WasmModuleResources;
use validate_visit::BlockType::Empty;
use validate_visit::{
    ControlOp, FloatBinaryOp, FloatType, IntegerBinaryOp, IntegerComparisonOp, IntegerType, MemArg,
    MemArgTarget, MemoryOp, NumberType, NumericOp, Op,
};

/// Whether the operator that the bytes begin with passes at once: its row is that of the one that is handed in. Then
/// it is read; otherwise nothing is changed. One that closes no frame leaves one open.
#[inline(always)]
pub(crate) fn passes<'a, R: WasmModuleResources>(
    v: &mut OperatorValidator,
    resources: &R,
    reader: &mut BinaryReader<'a>,
    rest: BinaryReader<'a>,
    op: Op<'_>,
) -> bool
    requires visit { MayVisit (R.context resources.now) (stacks_of v.old) }
    requires like { BeginLike reader.old.left op rest.left }
    ensures passed { Passes (R.context resources.now) result reader.old reader.new (stacks_of v.old) (stacks_of v.new) }
    ensures open { result ≡ true → is_part_closer (nesting op.entry) ≡ false → (state v.new).present.frames ≢ [] }
{
    if v.passes_at_once(resources, &op) {
        *reader = rest;
        return true;
    }
    false
}

/// [`passes`] of an operator on memories.
#[inline(always)]
pub(crate) fn passes_memory<'a, R: WasmModuleResources>(
    v: &mut OperatorValidator,
    resources: &R,
    reader: &mut BinaryReader<'a>,
    rest: BinaryReader<'a>,
    op: MemoryOp,
) -> bool
    requires visit { MayVisit (R.context resources.now) (stacks_of v.old) }
    requires like { BeginLike reader.old.left (Op.Memory op) rest.left }
    ensures passed { Passes (R.context resources.now) result reader.old reader.new (stacks_of v.old) (stacks_of v.new) }
    ensures open { result ≡ true → (state v.new).present.frames ≢ [] }
{
    if v.memory_passes_at_once(resources, &op) {
        *reader = rest;
        return true;
    }
    false
}

/// What came of the next operator of a body.
#[derive(Clone, Copy)]
pub(crate) enum Turn {
    /// It was read and accepted, and a frame is open behind it.
    Open,
    /// It was read and accepted, and closed the body.
    Closed,
    /// It didn't pass, and nothing is changed.
    NotPassed,
}

/// The turn of the operator that the bytes begin with, by [`passes`]: it closes no frame.
#[inline(always)]
fn open_turn<'a, R: WasmModuleResources>(
    v: &mut OperatorValidator,
    resources: &R,
    reader: &mut BinaryReader<'a>,
    rest: BinaryReader<'a>,
    op: Op<'_>,
) -> Turn
    requires visit { MayVisit (R.context resources.now) (stacks_of v.old) }
    requires like { BeginLike reader.old.left op rest.left }
    requires closes_none { is_part_closer (nesting op) ≡ false }
    ensures { Turns (R.context resources.now) result reader.old reader.new (stacks_of v.old) (stacks_of v.new) }
{
    if passes(v, resources, reader, rest, op) {
        Turn::Open
    } else {
        Turn::NotPassed
    }
}

/// [`open_turn`] of an operator on memories.
#[inline(always)]
fn memory_turn<'a, R: WasmModuleResources>(
    v: &mut OperatorValidator,
    resources: &R,
    reader: &mut BinaryReader<'a>,
    rest: BinaryReader<'a>,
    op: MemoryOp,
) -> Turn
    requires visit { MayVisit (R.context resources.now) (stacks_of v.old) }
    requires like { BeginLike reader.old.left (Op.Memory op) rest.left }
    ensures { Turns (R.context resources.now) result reader.old reader.new (stacks_of v.old) (stacks_of v.new) }
{
    if passes_memory(v, resources, reader, rest, op) {
        Turn::Open
    } else {
        Turn::NotPassed
    }
}

/// [`open_turn`] of an operator that is so many bytes.
#[inline(always)]
fn turn_of_bytes<R: WasmModuleResources>(
    v: &mut OperatorValidator,
    resources: &R,
    reader: &mut BinaryReader<'_>,
    count: usize,
    op: Op<'_>,
) -> Turn
    requires visit { MayVisit (R.context resources.now) (stacks_of v.old) }
    requires like { BeginAs reader.old.left op count }
    ensures { Turns (R.context resources.now) result reader.old reader.new (stacks_of v.old) (stacks_of v.new) }
{
    let rest = reader.behind(count);
    open_turn(v, resources, reader, rest, op)
}

/// [`turn_of_bytes`] of an operator on control or variables that is two bytes, if the second is fit.
#[inline(always)]
#[tactic(auto, using(crate::proofs::Turned::not_passed))]
fn turn_with<R: WasmModuleResources>(
    v: &mut OperatorValidator,
    resources: &R,
    reader: &mut BinaryReader<'_>,
    is_fit: bool,
    op: ControlOp<'_>,
) -> Turn
    requires visit { MayVisit (R.context resources.now) (stacks_of v.old) }
    requires like { is_fit ≡ true → BeginAs reader.old.left (Op.Control op) 2 }
    ensures { Turns (R.context resources.now) result reader.old reader.new (stacks_of v.old) (stacks_of v.new) }
{
    if !is_fit {
        return Turn::NotPassed;
    }
    turn_of_bytes(v, resources, reader, 2, Op::Control(op))
}

/// The index that begins with this byte, if it is a byte, two or five. It is read then.
#[inline(always)]
fn near_index(reader: &mut BinaryReader<'_>, first: u8) -> Option<u32>
    requires { reader.old.left ≡ first ∷ drop 1 reader.old.left }
    ensures { IfSome result (λ index. unsigned 32 reader.old.left ≡ Some (index, reader.new.left)) }
{
    if first >= 0x80 {
        return reader.read_long_u32();
    }
    *reader = reader.behind(1);
    Some(u32::from(first))
}

/// The turn of an operator of this code, whose index begins with this byte, and is a byte, two or five. It is checked in one
/// place: a function that checks in two would be too large to be inlined.
#[inline(always)]
#[tactic(auto, using(crate::proofs::Turned::not_passed))]
fn turn_of_index<R: WasmModuleResources>(
    v: &mut OperatorValidator,
    resources: &R,
    reader: &mut BinaryReader<'_>,
    code: u8,
    first: u8,
) -> Turn
    requires visit { MayVisit (R.context resources.now) (stacks_of v.old) }
    requires begins { reader.old.left ≡ code ∷ drop 1 reader.old.left }
    requires next { drop 1 reader.old.left ≡ first ∷ drop 2 reader.old.left }
    requires form { from 0 forms code ≡ Some Index }
    ensures { Turns (R.context resources.now) result reader.old reader.new (stacks_of v.old) (stacks_of v.new) }
{
    let mut rest = reader.behind(1);
    let Some(index) = near_index(&mut rest, first) else {
        return Turn::NotPassed;
    };
    match indexed(code, index) {
        Some(op) => open_turn(v, resources, reader, rest, Op::Control(op)),
        None => Turn::NotPassed,
    }
}

/// Whether a number that begins with this byte is two bytes at the most. What is behind the first one is read, if more is.
#[inline(always)]
fn is_near(rest: &mut BinaryReader<'_>, first: u8) -> bool
    ensures { result ≡ true → EndsNear first rest.old.left rest.new.left }
{
    if first < 0x80 {
        return true;
    }
    match rest.read_u8() {
        Ok(last) => last < 0x80,
        Err(_) => false,
    }
}

/// The turn of a constant, whose number begins with this byte, and is two bytes at the most: its row is that of the one that is
/// handed in.
#[inline(always)]
#[tactic(auto, using(crate::proofs::Turned::not_passed))]
fn turn_of_constant<R: WasmModuleResources>(
    v: &mut OperatorValidator,
    resources: &R,
    reader: &mut BinaryReader<'_>,
    first: u8,
    op: NumericOp,
) -> Turn
    requires visit { MayVisit (R.context resources.now) (stacks_of v.old) }
    requires there { 2 ≤ length reader.old.left }
    requires like { (behind : List ℕ) → EndsNear first (drop 2 reader.old.left) behind
        → BeginLike reader.old.left (Op.Numeric op) behind }
    ensures { Turns (R.context resources.now) result reader.old reader.new (stacks_of v.old) (stacks_of v.new) }
{
    let mut rest = reader.behind(2);
    if !is_near(&mut rest, first) {
        return Turn::NotPassed;
    }
    open_turn(v, resources, reader, rest, Op::Numeric(op))
}

/// The offset that begins with this byte, if it is a byte, two or five. It is read then.
#[inline(always)]
fn near_offset(reader: &mut BinaryReader<'_>, first: u8) -> Option<u64>
    requires { reader.old.left ≡ first ∷ drop 1 reader.old.left }
    ensures { IfSome result (λ offset. unsigned 64 reader.old.left ≡ Some (offset, reader.new.left)) }
{
    if first >= 0x80 {
        return reader.read_long_number(64);
    }
    *reader = reader.behind(1);
    Some(u64::from(first))
}

/// The place in the first memory that is next, if its alignment is a byte, and its offset one, two or five. It is read then.
#[inline(always)]
fn near_place(reader: &mut BinaryReader<'_>, natural: u8) -> Option<MemArg>
    ensures { IfSome result (λ place. IsNear reader.old.left natural place reader.new.left) }
{
    let (align, first) = reader.next_two()?;
    if align >= 0x40 {
        return None;
    }
    let mut behind = reader.behind(1);
    let offset = near_offset(&mut behind, first)?;
    *reader = behind;
    Some(MemArg {
        align,
        max_align: natural,
        offset,
        target: MemArgTarget::Memory(0),
    })
}

/// [`memory_turn`] of a load of this type, behind whose code a place in the first memory may be.
#[inline(always)]
#[tactic(auto, using(crate::proofs::Turned::not_passed))]
fn turn_of_load<R: WasmModuleResources>(
    v: &mut OperatorValidator,
    resources: &R,
    reader: &mut BinaryReader<'_>,
    natural: u8,
    ty: NumberType,
) -> Turn
    requires visit { MayVisit (R.context resources.now) (stacks_of v.old) }
    requires like { BeginAccess reader.old.left (λ place. MemoryOp.Load ty place) natural }
    ensures { Turns (R.context resources.now) result reader.old reader.new (stacks_of v.old) (stacks_of v.new) }
{
    let mut rest = reader.behind(1);
    let Some(place) = near_place(&mut rest, natural) else {
        return Turn::NotPassed;
    };
    let loaded = MemoryOp::Load(ty, place);
    memory_turn(v, resources, reader, rest, loaded)
}

/// The same of a store.
#[inline(always)]
#[tactic(auto, using(crate::proofs::Turned::not_passed))]
fn turn_of_store<R: WasmModuleResources>(
    v: &mut OperatorValidator,
    resources: &R,
    reader: &mut BinaryReader<'_>,
    natural: u8,
    ty: NumberType,
) -> Turn
    requires visit { MayVisit (R.context resources.now) (stacks_of v.old) }
    requires like { BeginAccess reader.old.left (λ place. MemoryOp.Store ty place) natural }
    ensures { Turns (R.context resources.now) result reader.old reader.new (stacks_of v.old) (stacks_of v.new) }
{
    let mut rest = reader.behind(1);
    let Some(place) = near_place(&mut rest, natural) else {
        return Turn::NotPassed;
    };
    let stored = MemoryOp::Store(ty, place);
    memory_turn(v, resources, reader, rest, stored)
}

/// The turn of an `end`, behind which the rest is left.
#[inline(always)]
fn turn_of_end<'a, R: WasmModuleResources>(
    v: &mut OperatorValidator,
    resources: &R,
    reader: &mut BinaryReader<'a>,
    rest: BinaryReader<'a>,
) -> Turn
    requires visit { MayVisit (R.context resources.now) (stacks_of v.old) }
    requires like { BeginLike reader.old.left (Op.Control ControlOp.End) rest.left }
    ensures { Turns (R.context resources.now) result reader.old reader.new (stacks_of v.old) (stacks_of v.new) }
{
    if !passes(v, resources, reader, rest, Op::Control(ControlOp::End)) {
        return Turn::NotPassed;
    }
    if v.control_stack_height() == 0 {
        return Turn::Closed;
    }
    Turn::Open
}

/// [`turn_of_end`], if that is the next operator.
#[inline(always)]
#[tactic(auto, using(crate::proofs::Turned::not_passed))]
fn turn_of_last<'a, R: WasmModuleResources>(
    v: &mut OperatorValidator,
    resources: &R,
    reader: &mut BinaryReader<'a>,
) -> Turn
    requires visit { MayVisit (R.context resources.now) (stacks_of v.old) }
    ensures { Turns (R.context resources.now) result reader.old reader.new (stacks_of v.old) (stacks_of v.new) }
{
    let mut rest = reader.duplicate();
    let Ok(code) = rest.read_u8() else {
        return Turn::NotPassed;
    };
    if code != 0x0b {
        return Turn::NotPassed;
    }
    turn_of_end(v, resources, reader, rest)
}

/// The operator that asks whether an integer of this type is zero.
#[inline(always)]
fn zero_test(ty: IntegerType) -> Op<'static>
    ensures { result ≡ Op.Numeric (NumericOp.Eqz ty) }
{
    Op::Numeric(NumericOp::Eqz(ty))
}

/// Any binary operator on integers of this type.
#[inline(always)]
fn binary(ty: IntegerType) -> Op<'static>
    ensures { result ≡ Op.Numeric (NumericOp.IntegerBinary ty IntegerBinaryOp.Add) }
{
    Op::Numeric(NumericOp::IntegerBinary(ty, IntegerBinaryOp::Add))
}

/// Any binary operator on floats of this type.
#[inline(always)]
fn float_binary(ty: FloatType) -> Op<'static>
    ensures { result ≡ Op.Numeric (NumericOp.FloatBinary ty FloatBinaryOp.Add) }
{
    Op::Numeric(NumericOp::FloatBinary(ty, FloatBinaryOp::Add))
}

/// Any comparison of integers of this type.
#[inline(always)]
fn comparison(ty: IntegerType) -> Op<'static>
    ensures { result ≡ Op.Numeric (NumericOp.IntegerComparison ty IntegerComparisonOp.Eq) }
{
    Op::Numeric(NumericOp::IntegerComparison(ty, IntegerComparisonOp::Eq))
}

/// The fast lane of [`crate::operators::is_any_accepted`] for common operators: the turn of the next one.
#[inline(always)]
#[tactic(auto, using(crate::proofs::Turned::not_passed))]
pub(crate) fn common_turn<R: WasmModuleResources>(
    v: &mut OperatorValidator,
    resources: &R,
    reader: &mut BinaryReader<'_>,
) -> Turn
    requires visit { MayVisit (R.context resources.now) (stacks_of v.old) }
    ensures { Turns (R.context resources.now) result reader.old reader.new (stacks_of v.old) (stacks_of v.new) }
{
    let Some((code, next)) = reader.next_two() else {
        return turn_of_last(v, resources, reader);
    };
    let (is_index, is_empty, index) = (next < 0x80, next == 0x40, u32::from(next));
    match common_of(code) {
        Rare => Turn::NotPassed,
        Nop => turn_of_bytes(v, resources, reader, 1, Op::Control(ControlOp::Nop)),
        End => {
            let rest = reader.behind(1);
            turn_of_end(v, resources, reader, rest)
        }
        Return => turn_of_bytes(v, resources, reader, 1, Op::Control(ControlOp::Return)),
        Drop => turn_of_bytes(v, resources, reader, 1, Op::Control(ControlOp::Drop)),
        Select => turn_of_bytes(v, resources, reader, 1, Op::Control(ControlOp::Select)),
        Test32 => turn_of_bytes(v, resources, reader, 1, zero_test(IntegerType::I32)),
        Compare32 => turn_of_bytes(v, resources, reader, 1, comparison(IntegerType::I32)),
        Compare64 => turn_of_bytes(v, resources, reader, 1, comparison(IntegerType::I64)),
        Binary32 => turn_of_bytes(v, resources, reader, 1, binary(IntegerType::I32)),
        Binary64 => turn_of_bytes(v, resources, reader, 1, binary(IntegerType::I64)),
        BinaryF32 => turn_of_bytes(v, resources, reader, 1, float_binary(FloatType::F32)),
        BinaryF64 => turn_of_bytes(v, resources, reader, 1, float_binary(FloatType::F64)),
        Constant32 => turn_of_constant(v, resources, reader, next, NumericOp::I32Const(0)),
        Constant64 => turn_of_constant(v, resources, reader, next, NumericOp::I64Const(0)),
        Indexed => turn_of_index(v, resources, reader, code, next),
        LocalGet => turn_with(v, resources, reader, is_index, ControlOp::LocalGet(index)),
        LocalSet => turn_with(v, resources, reader, is_index, ControlOp::LocalSet(index)),
        LocalTee => turn_with(v, resources, reader, is_index, ControlOp::LocalTee(index)),
        Block => turn_with(v, resources, reader, is_empty, ControlOp::Block(Empty)),
        Loop => turn_with(v, resources, reader, is_empty, ControlOp::Loop(Empty)),
        If => turn_with(v, resources, reader, is_empty, ControlOp::If(Empty)),
        Load32(natural) => turn_of_load(v, resources, reader, natural, NumberType::I32),
        Load64(natural) => turn_of_load(v, resources, reader, natural, NumberType::I64),
        LoadF32(natural) => turn_of_load(v, resources, reader, natural, NumberType::F32),
        LoadF64(natural) => turn_of_load(v, resources, reader, natural, NumberType::F64),
        Store32(natural) => turn_of_store(v, resources, reader, natural, NumberType::I32),
        Store64(natural) => turn_of_store(v, resources, reader, natural, NumberType::I64),
        StoreF32(natural) => turn_of_store(v, resources, reader, natural, NumberType::F32),
        StoreF64(natural) => turn_of_store(v, resources, reader, natural, NumberType::F64),
    }
}
