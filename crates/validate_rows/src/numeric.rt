//! Operators on numbers, by shape (WebAssembly core specification, "Numeric Instructions").

ghost use Rattle.std.specs.Prelude.{◌≡◌, [], ◌∷◌};
ghost use Rattle.std.specs.List.{AllByRecursion};
ghost use Rattle.validate_resources.specs.Context.{Valid};
ghost use Rattle.validate_types.specs.declared.types.ValType.{ValType};
ghost use Rattle.validate_visit.specs.Numbers.{number_type, integer_type, float_type, packed_type};
ghost use Rattle.validate_rows.specs.NumericShapes.{shape_row};
ghost use Rattle.validate_rows.specs.declared.numeric.Shape.{Shape};
ghost use Rattle.validation_rules.specs.Convert.{convert_row};
ghost use Rattle.validation_rules.specs.Numeric.{numeric_row};
ghost use Rattle.validation_rules.specs.Operators.{plain_row, row_operator};
ghost use Rattle.validate_stacks.specs.Bodies.{CanCheck, Checks};

use validate_resources::WasmModuleResources;
use validate_shapes::numbers::{number, twice};
use validate_shapes::plain::{binary, constant, plain, unary};
use validate_stacks::OperatorContext;
use validate_types::{Refused, ValType};
use validate_visit::{ConvertOp, FloatType, IntegerType, NumberType, NumericOp, PackedInteger};

/// What an operator on numbers takes and gives.
#[derive(Clone, Copy)]
enum Shape {
    /// `[] -> [pushed]`
    Constant(NumberType),
    /// `[expected] -> [pushed]`
    Unary(NumberType, NumberType),
    /// `[expected expected] -> [pushed]`
    Binary(NumberType, NumberType),
    /// `[i64 i64 i64 i64] -> [i64 i64]`
    WideBinary,
    /// `[i64 i64] -> [i64 i64]`
    WideMultiply,
}

/// An integer as a number.
#[inline(always)]
fn of_integer(ty: IntegerType) -> NumberType
    ensures { number_type result ≡ integer_type ty }
{
    match ty {
        IntegerType::I32 => NumberType::I32,
        IntegerType::I64 => NumberType::I64,
    }
}

/// A float as a number.
#[inline(always)]
fn of_float(ty: FloatType) -> NumberType
    ensures { number_type result ≡ float_type ty }
{
    match ty {
        FloatType::F32 => NumberType::F32,
        FloatType::F64 => NumberType::F64,
    }
}

/// The whole of a packed integer as a number.
#[inline(always)]
fn of_packed(part: PackedInteger) -> NumberType
    ensures { number_type result ≡ packed_type part }
{
    match part {
        PackedInteger::I32Bits8 | PackedInteger::I32Bits16 => NumberType::I32,
        PackedInteger::I64Bits8 | PackedInteger::I64Bits16 | PackedInteger::I64Bits32 => {
            NumberType::I64
        }
    }
}

/// The shape of an operator on numbers of one type, or of a constant.
#[inline(always)]
fn numeric_shape(op: NumericOp) -> Shape
    ensures { shape_row result ≡ numeric_row op }
{
    match op {
        NumericOp::I32Const(_) => Shape::Constant(NumberType::I32),
        NumericOp::I64Const(_) => Shape::Constant(NumberType::I64),
        NumericOp::F32Const(_) => Shape::Constant(NumberType::F32),
        NumericOp::F64Const(_) => Shape::Constant(NumberType::F64),
        NumericOp::Eqz(ty) => Shape::Unary(of_integer(ty), NumberType::I32),
        NumericOp::IntegerUnary(ty, _) => Shape::Unary(of_integer(ty), of_integer(ty)),
        NumericOp::IntegerBinary(ty, _) => Shape::Binary(of_integer(ty), of_integer(ty)),
        NumericOp::IntegerComparison(ty, _) => Shape::Binary(of_integer(ty), NumberType::I32),
        NumericOp::FloatUnary(ty, _) => Shape::Unary(of_float(ty), of_float(ty)),
        NumericOp::FloatBinary(ty, _) => Shape::Binary(of_float(ty), of_float(ty)),
        NumericOp::FloatComparison(ty, _) => Shape::Binary(of_float(ty), NumberType::I32),
        NumericOp::Add128 | NumericOp::Sub128 => Shape::WideBinary,
        NumericOp::MulWide(_) => Shape::WideMultiply,
    }
}

/// What a conversion takes and gives, or an extension of a sign.
#[inline(always)]
fn convert_types(op: ConvertOp) -> (NumberType, NumberType)
    ensures { shape_row (Shape.Unary result.0 result.1) ≡ convert_row op }
{
    match op {
        ConvertOp::Wrap => (NumberType::I64, NumberType::I32),
        ConvertOp::Extend(_) => (NumberType::I32, NumberType::I64),
        ConvertOp::ExtendPacked(part) => (of_packed(part), of_packed(part)),
        ConvertOp::Trunc(into, from, _) | ConvertOp::TruncSat(into, from, _) => {
            (of_float(from), of_integer(into))
        }
        ConvertOp::Convert(into, from, _) => (of_integer(from), of_float(into)),
        ConvertOp::Demote => (NumberType::F64, NumberType::F32),
        ConvertOp::Promote => (NumberType::F32, NumberType::F64),
        ConvertOp::Reinterpret(into) => (into.reinterpreted(), into),
    }
}

/// [`unary`], by a call, so that what stands in each visit stays short.
#[inline(never)]
fn unary_by_call<A: Refused, R: WasmModuleResources>(
    context: OperatorContext<'_, '_, R>,
    expected: NumberType,
    pushed: NumberType,
) -> Result<(), A>
    requires { CanCheck R.context context }
    ensures { Checks R.context A.tells (λ cx. row_operator (shape_row (Shape.Unary expected pushed)))
        context.entry result context.exit }
{
    unary(context, number(expected), number(pushed))
}

/// What a wide addition or subtraction takes.
#[inline(always)]
fn four_integers() -> &'static [ValType]
    ensures { result.now ≡ ValType.I64 ∷ ValType.I64 ∷ ValType.I64 ∷ ValType.I64 ∷ [] }
{
    &[ValType::I64, ValType::I64, ValType::I64, ValType::I64]
}

/// An operator of one of the wide shapes, by a call too.
#[inline(never)]
fn wide<A: Refused, R: WasmModuleResources>(
    context: OperatorContext<'_, '_, R>,
    expected: &[ValType],
) -> Result<(), A>
    requires visit { CanCheck R.context context }
    requires expected { AllByRecursion (Valid (R.context context.resources.now)) expected.now }
    ensures { Checks R.context A.tells (λ cx. row_operator (plain_row expected.now (ValType.I64 ∷ ValType.I64 ∷
        []))) context.entry result context.exit }
{
    plain(context, expected, twice(ValType::I64))
}

/// An operator on numbers of one type, or a constant, its gate aside.
///
/// It stands in each visit, so the shapes that few operators have are called.
#[inline(always)]
pub fn numeric<A: Refused, R: WasmModuleResources>(
    context: OperatorContext<'_, '_, R>,
    op: NumericOp,
) -> Result<(), A>
    requires { CanCheck R.context context }
    ensures { Checks R.context A.tells (λ cx. row_operator (numeric_row op)) context.entry result context.exit }
{
    match numeric_shape(op) {
        Shape::Constant(pushed) => constant(context, number(pushed)),
        Shape::Unary(expected, pushed) => unary_by_call(context, expected, pushed),
        Shape::Binary(expected, pushed) => binary(context, number(expected), number(pushed)),
        Shape::WideBinary => wide(context, four_integers()),
        Shape::WideMultiply => wide(context, twice(ValType::I64)),
    }
}

/// A conversion, or an extension of a sign, its gate aside.
#[inline(always)]
pub fn convert<A: Refused, R: WasmModuleResources>(
    context: OperatorContext<'_, '_, R>,
    op: ConvertOp,
) -> Result<(), A>
    requires { CanCheck R.context context }
    ensures { Checks R.context A.tells (λ cx. row_operator (convert_row op)) context.entry result context.exit }
{
    let (expected, pushed) = convert_types(op);
    unary(context, number(expected), number(pushed))
}
