//! The operators that don't pass as common ones, but whose first byte tells how they are read: those on numbers, constants,
//! conversions, loads and stores, and those with an index, whatever length their immediates have.

ghost use Rattle.std.specs.Prelude.{◌≡◌, ◌∷◌, Some};
ghost use Rattle.binary_operators.specs.Forms.{from, forms};
ghost use Rattle.binary_operators.specs.declared.forms.Form.TheVariants.{Access, Conversion, Index, Numeric, I32, I64, F32, F64};
ghost use Rattle.validate_operators.specs.Validator.{stacks_of};
ghost use Rattle.validate_stacks.specs.Visits.{MayVisit};
ghost use Rattle.module_check.specs.Turns.{Passes};

use crate::common::{passes, passes_memory};
use crate::indexed::indexed;
use binary_operators::{
    BinaryReader, Form, access_op, conversion_op, form_of, numeric_op, read_memarg,
};
use validate_operators::OperatorValidator;
use validate_resources::WasmModuleResources;
use validate_visit::{Ieee32, Ieee64, NumericOp, Op};

/// [`passes`] of an operator on control or variables of this code; the rest is what is left behind the code.
#[inline(never)]
#[tactic(auto, using(crate::proofs::Turned::unchanged))]
fn passes_indexed<'a, R: WasmModuleResources>(
    v: &mut OperatorValidator,
    resources: &R,
    reader: &mut BinaryReader<'a>,
    mut rest: BinaryReader<'a>,
    code: u8,
) -> bool
    requires visit { MayVisit (R.context resources.now) (stacks_of v.old) }
    requires begins { reader.old.left ≡ code ∷ rest.left }
    requires form { from 0 forms code ≡ Some Index }
    ensures { Passes (R.context resources.now) result reader.old reader.new (stacks_of v.old) (stacks_of v.new) }
{
    let Ok(index) = rest.read_var_u32() else {
        return false;
    };
    match indexed(code, index) {
        Some(op) => passes(v, resources, reader, rest, Op::Control(op)),
        None => false,
    }
}

/// [`passes`] of a load or a store of this code; the rest is what is left behind the code.
#[inline(never)]
#[tactic(auto, using(crate::proofs::Turned::unchanged))]
fn passes_access<'a, R: WasmModuleResources>(
    v: &mut OperatorValidator,
    resources: &R,
    reader: &mut BinaryReader<'a>,
    mut rest: BinaryReader<'a>,
    code: u8,
) -> bool
    requires visit { MayVisit (R.context resources.now) (stacks_of v.old) }
    requires begins { reader.old.left ≡ code ∷ rest.left }
    requires form { from 0 forms code ≡ Some Access }
    ensures { Passes (R.context resources.now) result reader.old reader.new (stacks_of v.old) (stacks_of v.new) }
{
    let Ok(place) = read_memarg(&mut rest) else {
        return false;
    };
    match access_op(u32::from(code), place) {
        Some(Op::Memory(op)) => passes_memory(v, resources, reader, rest, op),
        _ => false,
    }
}

/// [`passes`] of an operator on numbers of one type of this code; the rest is what is left behind the code.
#[inline(never)]
#[tactic(auto, using(crate::proofs::Turned::unchanged))]
fn passes_numeric<'a, R: WasmModuleResources>(
    v: &mut OperatorValidator,
    resources: &R,
    reader: &mut BinaryReader<'a>,
    rest: BinaryReader<'a>,
    code: u8,
) -> bool
    requires visit { MayVisit (R.context resources.now) (stacks_of v.old) }
    requires begins { reader.old.left ≡ code ∷ rest.left }
    requires form { from 0 forms code ≡ Some Numeric }
    ensures { Passes (R.context resources.now) result reader.old reader.new (stacks_of v.old) (stacks_of v.new) }
{
    match numeric_op(u32::from(code)) {
        Some(op) => passes(v, resources, reader, rest, Op::Numeric(op)),
        None => false,
    }
}

/// [`passes`] of a conversion of this code; the rest is what is left behind the code.
#[inline(never)]
#[tactic(auto, using(crate::proofs::Turned::unchanged))]
fn passes_conversion<'a, R: WasmModuleResources>(
    v: &mut OperatorValidator,
    resources: &R,
    reader: &mut BinaryReader<'a>,
    rest: BinaryReader<'a>,
    code: u8,
) -> bool
    requires visit { MayVisit (R.context resources.now) (stacks_of v.old) }
    requires begins { reader.old.left ≡ code ∷ rest.left }
    requires form { from 0 forms code ≡ Some Conversion }
    ensures { Passes (R.context resources.now) result reader.old reader.new (stacks_of v.old) (stacks_of v.new) }
{
    match conversion_op(u32::from(code)) {
        Some(op) => passes(v, resources, reader, rest, Op::Convert(op)),
        None => false,
    }
}

/// [`passes`] of an `i32.const` of this code; the rest is what is left behind the code.
#[inline(never)]
#[tactic(auto, using(crate::proofs::Turned::unchanged))]
fn passes_i32<'a, R: WasmModuleResources>(
    v: &mut OperatorValidator,
    resources: &R,
    reader: &mut BinaryReader<'a>,
    mut rest: BinaryReader<'a>,
    code: u8,
) -> bool
    requires visit { MayVisit (R.context resources.now) (stacks_of v.old) }
    requires begins { reader.old.left ≡ code ∷ rest.left }
    requires form { from 0 forms code ≡ Some I32 }
    ensures { Passes (R.context resources.now) result reader.old reader.new (stacks_of v.old) (stacks_of v.new) }
{
    let Ok(value) = rest.read_var_i32() else {
        return false;
    };
    passes(
        v,
        resources,
        reader,
        rest,
        Op::Numeric(NumericOp::I32Const(value)),
    )
}

/// [`passes`] of an `i64.const` of this code; the rest is what is left behind the code.
#[inline(never)]
#[tactic(auto, using(crate::proofs::Turned::unchanged))]
fn passes_i64<'a, R: WasmModuleResources>(
    v: &mut OperatorValidator,
    resources: &R,
    reader: &mut BinaryReader<'a>,
    mut rest: BinaryReader<'a>,
    code: u8,
) -> bool
    requires visit { MayVisit (R.context resources.now) (stacks_of v.old) }
    requires begins { reader.old.left ≡ code ∷ rest.left }
    requires form { from 0 forms code ≡ Some I64 }
    ensures { Passes (R.context resources.now) result reader.old reader.new (stacks_of v.old) (stacks_of v.new) }
{
    let Ok(value) = rest.read_var_i64() else {
        return false;
    };
    passes(
        v,
        resources,
        reader,
        rest,
        Op::Numeric(NumericOp::I64Const(value)),
    )
}

/// [`passes`] of an `f32.const` of this code; the rest is what is left behind the code.
#[inline(never)]
#[tactic(auto, using(crate::proofs::Turned::unchanged))]
fn passes_f32<'a, R: WasmModuleResources>(
    v: &mut OperatorValidator,
    resources: &R,
    reader: &mut BinaryReader<'a>,
    mut rest: BinaryReader<'a>,
    code: u8,
) -> bool
    requires visit { MayVisit (R.context resources.now) (stacks_of v.old) }
    requires begins { reader.old.left ≡ code ∷ rest.left }
    requires form { from 0 forms code ≡ Some F32 }
    ensures { Passes (R.context resources.now) result reader.old reader.new (stacks_of v.old) (stacks_of v.new) }
{
    let Ok(bits) = rest.read_f32() else {
        return false;
    };
    passes(
        v,
        resources,
        reader,
        rest,
        Op::Numeric(NumericOp::F32Const(Ieee32(bits))),
    )
}

/// [`passes`] of an `f64.const` of this code; the rest is what is left behind the code.
#[inline(never)]
#[tactic(auto, using(crate::proofs::Turned::unchanged))]
fn passes_f64<'a, R: WasmModuleResources>(
    v: &mut OperatorValidator,
    resources: &R,
    reader: &mut BinaryReader<'a>,
    mut rest: BinaryReader<'a>,
    code: u8,
) -> bool
    requires visit { MayVisit (R.context resources.now) (stacks_of v.old) }
    requires begins { reader.old.left ≡ code ∷ rest.left }
    requires form { from 0 forms code ≡ Some F64 }
    ensures { Passes (R.context resources.now) result reader.old reader.new (stacks_of v.old) (stacks_of v.new) }
{
    let Ok(bits) = rest.read_f64() else {
        return false;
    };
    passes(
        v,
        resources,
        reader,
        rest,
        Op::Numeric(NumericOp::F64Const(Ieee64(bits))),
    )
}

/// The fast lane of [`crate::operators::is_any_accepted`], behind [`crate::common::common_turn`]: whether the next operator
/// passes at once, where its first byte tells how it is read. Then it is read; otherwise nothing is changed. It is lent a
/// reader that lies in memory.
#[inline(always)]
#[tactic(auto, using(crate::proofs::Turned::unchanged))]
pub(crate) fn passes_told<'a, R: WasmModuleResources>(
    v: &mut OperatorValidator,
    resources: &R,
    reader: &mut BinaryReader<'a>,
) -> bool
    requires visit { MayVisit (R.context resources.now) (stacks_of v.old) }
    ensures { Passes (R.context resources.now) result reader.old reader.new (stacks_of v.old) (stacks_of v.new) }
{
    let mut rest = reader.duplicate();
    let Ok(code) = rest.read_u8() else {
        return false;
    };
    match form_of(code) {
        Some(Form::Index) => passes_indexed(v, resources, reader, rest, code),
        Some(Form::Access) => passes_access(v, resources, reader, rest, code),
        Some(Form::Numeric) => passes_numeric(v, resources, reader, rest, code),
        Some(Form::Conversion) => passes_conversion(v, resources, reader, rest, code),
        Some(Form::I32) => passes_i32(v, resources, reader, rest, code),
        Some(Form::I64) => passes_i64(v, resources, reader, rest, code),
        Some(Form::F32) => passes_f32(v, resources, reader, rest, code),
        Some(Form::F64) => passes_f64(v, resources, reader, rest, code),
        _ => false,
    }
}
