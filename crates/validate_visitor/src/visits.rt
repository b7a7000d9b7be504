//! The visits of operators: each is the check of the operator that it names.
//!
//! `.ci/generate` writes them from `operators.tsv`; by hand is what they share.

use crate::visitor::VisitOperator;
use validate_types::{HeapType, RefType, ValType};
use validate_visit::AtomicAccess::{Packed, Whole};
use validate_visit::Sign::{Signed, Unsigned};
use validate_visit::{
    ArrayOp, AtomicOp, AtomicRmwOp, BlockType, BrTable, BranchCast, ContinuationOp, ControlOp,
    ConvertOp, ExceptionOp, Exchange, FieldAccess, FieldIndex, FloatBinaryOp, FloatComparisonOp,
    FloatType, FloatUnaryOp, Ieee32, Ieee64, IntegerBinaryOp, IntegerComparisonOp, IntegerType,
    IntegerUnaryOp, MemArg, MemoryOp, NumberType, NumericOp, Op, OperatorChecks, Ordering,
    PackedInteger, ReferenceOp, ResumeTable, SharedOp, SharedRmwOp, StructOp, TableOp, TryTable,
    Update,
};

impl<'a, V: OperatorChecks<'a>> VisitOperator<'a> for V {
    type Output = V::Output;

    ghost can_visit = { V.can_check };

    ghost visits = { V.checks };

    fn visit_unreachable(&mut self) -> V::Output {
        self.check_control(ControlOp::Unreachable)
    }

    fn visit_nop(&mut self) -> V::Output {
        self.check_control(ControlOp::Nop)
    }

    fn visit_block(&mut self, ty: BlockType) -> V::Output {
        self.check_control(ControlOp::Block(ty))
    }

    fn visit_loop(&mut self, ty: BlockType) -> V::Output {
        self.check_control(ControlOp::Loop(ty))
    }

    fn visit_if(&mut self, ty: BlockType) -> V::Output {
        self.check_control(ControlOp::If(ty))
    }

    fn visit_else(&mut self) -> V::Output {
        self.check_control(ControlOp::Else)
    }

    fn visit_end(&mut self) -> V::Output {
        self.check_control(ControlOp::End)
    }

    fn visit_br(&mut self, relative_depth: u32) -> V::Output {
        self.check_control(ControlOp::Br(relative_depth))
    }

    fn visit_br_if(&mut self, relative_depth: u32) -> V::Output {
        self.check_control(ControlOp::BrIf(relative_depth))
    }

    fn visit_br_table(&mut self, targets: BrTable<'a>) -> V::Output {
        self.check_control(ControlOp::BrTable(targets))
    }

    fn visit_return(&mut self) -> V::Output {
        self.check_control(ControlOp::Return)
    }

    fn visit_call(&mut self, function_index: u32) -> V::Output {
        self.check_control(ControlOp::Call(function_index))
    }

    fn visit_return_call(&mut self, function_index: u32) -> V::Output {
        self.check_control(ControlOp::ReturnCall(function_index))
    }

    fn visit_call_indirect(&mut self, type_index: u32, table_index: u32) -> V::Output {
        self.check_control(ControlOp::CallIndirect {
            type_index,
            table_index,
        })
    }

    fn visit_return_call_indirect(&mut self, type_index: u32, table_index: u32) -> V::Output {
        self.check_control(ControlOp::ReturnCallIndirect {
            type_index,
            table_index,
        })
    }

    fn visit_call_ref(&mut self, type_index: u32) -> V::Output {
        self.check_control(ControlOp::CallRef(type_index))
    }

    fn visit_return_call_ref(&mut self, type_index: u32) -> V::Output {
        self.check_control(ControlOp::ReturnCallRef(type_index))
    }

    fn visit_drop(&mut self) -> V::Output {
        self.check_control(ControlOp::Drop)
    }

    fn visit_select(&mut self) -> V::Output {
        self.check_control(ControlOp::Select)
    }

    fn visit_typed_select(&mut self, ty: ValType) -> V::Output {
        self.check_control(ControlOp::TypedSelect(ty))
    }

    fn visit_typed_select_multi(&mut self, tys: &'a [ValType]) -> V::Output {
        self.check_control(ControlOp::TypedSelectMulti(tys))
    }

    fn visit_local_get(&mut self, local_index: u32) -> V::Output {
        self.check_control(ControlOp::LocalGet(local_index))
    }

    fn visit_local_set(&mut self, local_index: u32) -> V::Output {
        self.check_control(ControlOp::LocalSet(local_index))
    }

    fn visit_local_tee(&mut self, local_index: u32) -> V::Output {
        self.check_control(ControlOp::LocalTee(local_index))
    }

    fn visit_global_get(&mut self, global_index: u32) -> V::Output {
        self.check_control(ControlOp::GlobalGet(global_index))
    }

    fn visit_global_set(&mut self, global_index: u32) -> V::Output {
        self.check_control(ControlOp::GlobalSet(global_index))
    }

    fn visit_i32_const(&mut self, value: i32) -> V::Output {
        self.check_numeric(NumericOp::I32Const(value))
    }

    fn visit_i64_const(&mut self, value: i64) -> V::Output {
        self.check_numeric(NumericOp::I64Const(value))
    }

    fn visit_f32_const(&mut self, value: Ieee32) -> V::Output {
        self.check_numeric(NumericOp::F32Const(value))
    }

    fn visit_f64_const(&mut self, value: Ieee64) -> V::Output {
        self.check_numeric(NumericOp::F64Const(value))
    }

    fn visit_i32_eqz(&mut self) -> V::Output {
        self.check_numeric(NumericOp::Eqz(IntegerType::I32))
    }

    fn visit_i32_eq(&mut self) -> V::Output {
        self.check_numeric(NumericOp::IntegerComparison(IntegerType::I32, IntegerComparisonOp::Eq))
    }

    fn visit_i32_ne(&mut self) -> V::Output {
        self.check_numeric(NumericOp::IntegerComparison(IntegerType::I32, IntegerComparisonOp::Ne))
    }

    fn visit_i32_lt_s(&mut self) -> V::Output {
        self.check_numeric(NumericOp::IntegerComparison(
            IntegerType::I32,
            IntegerComparisonOp::Lt(Signed),
        ))
    }

    fn visit_i32_lt_u(&mut self) -> V::Output {
        self.check_numeric(NumericOp::IntegerComparison(
            IntegerType::I32,
            IntegerComparisonOp::Lt(Unsigned),
        ))
    }

    fn visit_i32_gt_s(&mut self) -> V::Output {
        self.check_numeric(NumericOp::IntegerComparison(
            IntegerType::I32,
            IntegerComparisonOp::Gt(Signed),
        ))
    }

    fn visit_i32_gt_u(&mut self) -> V::Output {
        self.check_numeric(NumericOp::IntegerComparison(
            IntegerType::I32,
            IntegerComparisonOp::Gt(Unsigned),
        ))
    }

    fn visit_i32_le_s(&mut self) -> V::Output {
        self.check_numeric(NumericOp::IntegerComparison(
            IntegerType::I32,
            IntegerComparisonOp::Le(Signed),
        ))
    }

    fn visit_i32_le_u(&mut self) -> V::Output {
        self.check_numeric(NumericOp::IntegerComparison(
            IntegerType::I32,
            IntegerComparisonOp::Le(Unsigned),
        ))
    }

    fn visit_i32_ge_s(&mut self) -> V::Output {
        self.check_numeric(NumericOp::IntegerComparison(
            IntegerType::I32,
            IntegerComparisonOp::Ge(Signed),
        ))
    }

    fn visit_i32_ge_u(&mut self) -> V::Output {
        self.check_numeric(NumericOp::IntegerComparison(
            IntegerType::I32,
            IntegerComparisonOp::Ge(Unsigned),
        ))
    }

    fn visit_i64_eqz(&mut self) -> V::Output {
        self.check_numeric(NumericOp::Eqz(IntegerType::I64))
    }

    fn visit_i64_eq(&mut self) -> V::Output {
        self.check_numeric(NumericOp::IntegerComparison(IntegerType::I64, IntegerComparisonOp::Eq))
    }

    fn visit_i64_ne(&mut self) -> V::Output {
        self.check_numeric(NumericOp::IntegerComparison(IntegerType::I64, IntegerComparisonOp::Ne))
    }

    fn visit_i64_lt_s(&mut self) -> V::Output {
        self.check_numeric(NumericOp::IntegerComparison(
            IntegerType::I64,
            IntegerComparisonOp::Lt(Signed),
        ))
    }

    fn visit_i64_lt_u(&mut self) -> V::Output {
        self.check_numeric(NumericOp::IntegerComparison(
            IntegerType::I64,
            IntegerComparisonOp::Lt(Unsigned),
        ))
    }

    fn visit_i64_gt_s(&mut self) -> V::Output {
        self.check_numeric(NumericOp::IntegerComparison(
            IntegerType::I64,
            IntegerComparisonOp::Gt(Signed),
        ))
    }

    fn visit_i64_gt_u(&mut self) -> V::Output {
        self.check_numeric(NumericOp::IntegerComparison(
            IntegerType::I64,
            IntegerComparisonOp::Gt(Unsigned),
        ))
    }

    fn visit_i64_le_s(&mut self) -> V::Output {
        self.check_numeric(NumericOp::IntegerComparison(
            IntegerType::I64,
            IntegerComparisonOp::Le(Signed),
        ))
    }

    fn visit_i64_le_u(&mut self) -> V::Output {
        self.check_numeric(NumericOp::IntegerComparison(
            IntegerType::I64,
            IntegerComparisonOp::Le(Unsigned),
        ))
    }

    fn visit_i64_ge_s(&mut self) -> V::Output {
        self.check_numeric(NumericOp::IntegerComparison(
            IntegerType::I64,
            IntegerComparisonOp::Ge(Signed),
        ))
    }

    fn visit_i64_ge_u(&mut self) -> V::Output {
        self.check_numeric(NumericOp::IntegerComparison(
            IntegerType::I64,
            IntegerComparisonOp::Ge(Unsigned),
        ))
    }

    fn visit_f32_eq(&mut self) -> V::Output {
        self.check_numeric(NumericOp::FloatComparison(FloatType::F32, FloatComparisonOp::Eq))
    }

    fn visit_f32_ne(&mut self) -> V::Output {
        self.check_numeric(NumericOp::FloatComparison(FloatType::F32, FloatComparisonOp::Ne))
    }

    fn visit_f32_lt(&mut self) -> V::Output {
        self.check_numeric(NumericOp::FloatComparison(FloatType::F32, FloatComparisonOp::Lt))
    }

    fn visit_f32_gt(&mut self) -> V::Output {
        self.check_numeric(NumericOp::FloatComparison(FloatType::F32, FloatComparisonOp::Gt))
    }

    fn visit_f32_le(&mut self) -> V::Output {
        self.check_numeric(NumericOp::FloatComparison(FloatType::F32, FloatComparisonOp::Le))
    }

    fn visit_f32_ge(&mut self) -> V::Output {
        self.check_numeric(NumericOp::FloatComparison(FloatType::F32, FloatComparisonOp::Ge))
    }

    fn visit_f64_eq(&mut self) -> V::Output {
        self.check_numeric(NumericOp::FloatComparison(FloatType::F64, FloatComparisonOp::Eq))
    }

    fn visit_f64_ne(&mut self) -> V::Output {
        self.check_numeric(NumericOp::FloatComparison(FloatType::F64, FloatComparisonOp::Ne))
    }

    fn visit_f64_lt(&mut self) -> V::Output {
        self.check_numeric(NumericOp::FloatComparison(FloatType::F64, FloatComparisonOp::Lt))
    }

    fn visit_f64_gt(&mut self) -> V::Output {
        self.check_numeric(NumericOp::FloatComparison(FloatType::F64, FloatComparisonOp::Gt))
    }

    fn visit_f64_le(&mut self) -> V::Output {
        self.check_numeric(NumericOp::FloatComparison(FloatType::F64, FloatComparisonOp::Le))
    }

    fn visit_f64_ge(&mut self) -> V::Output {
        self.check_numeric(NumericOp::FloatComparison(FloatType::F64, FloatComparisonOp::Ge))
    }

    fn visit_i32_clz(&mut self) -> V::Output {
        self.check_numeric(NumericOp::IntegerUnary(IntegerType::I32, IntegerUnaryOp::Clz))
    }

    fn visit_i32_ctz(&mut self) -> V::Output {
        self.check_numeric(NumericOp::IntegerUnary(IntegerType::I32, IntegerUnaryOp::Ctz))
    }

    fn visit_i32_popcnt(&mut self) -> V::Output {
        self.check_numeric(NumericOp::IntegerUnary(IntegerType::I32, IntegerUnaryOp::Popcnt))
    }

    fn visit_i32_add(&mut self) -> V::Output {
        self.check_numeric(NumericOp::IntegerBinary(IntegerType::I32, IntegerBinaryOp::Add))
    }

    fn visit_i32_sub(&mut self) -> V::Output {
        self.check_numeric(NumericOp::IntegerBinary(IntegerType::I32, IntegerBinaryOp::Sub))
    }

    fn visit_i32_mul(&mut self) -> V::Output {
        self.check_numeric(NumericOp::IntegerBinary(IntegerType::I32, IntegerBinaryOp::Mul))
    }

    fn visit_i32_div_s(&mut self) -> V::Output {
        self.check_numeric(NumericOp::IntegerBinary(IntegerType::I32, IntegerBinaryOp::Div(Signed)))
    }

    fn visit_i32_div_u(&mut self) -> V::Output {
        self.check_numeric(NumericOp::IntegerBinary(
            IntegerType::I32,
            IntegerBinaryOp::Div(Unsigned),
        ))
    }

    fn visit_i32_rem_s(&mut self) -> V::Output {
        self.check_numeric(NumericOp::IntegerBinary(IntegerType::I32, IntegerBinaryOp::Rem(Signed)))
    }

    fn visit_i32_rem_u(&mut self) -> V::Output {
        self.check_numeric(NumericOp::IntegerBinary(
            IntegerType::I32,
            IntegerBinaryOp::Rem(Unsigned),
        ))
    }

    fn visit_i32_and(&mut self) -> V::Output {
        self.check_numeric(NumericOp::IntegerBinary(IntegerType::I32, IntegerBinaryOp::And))
    }

    fn visit_i32_or(&mut self) -> V::Output {
        self.check_numeric(NumericOp::IntegerBinary(IntegerType::I32, IntegerBinaryOp::Or))
    }

    fn visit_i32_xor(&mut self) -> V::Output {
        self.check_numeric(NumericOp::IntegerBinary(IntegerType::I32, IntegerBinaryOp::Xor))
    }

    fn visit_i32_shl(&mut self) -> V::Output {
        self.check_numeric(NumericOp::IntegerBinary(IntegerType::I32, IntegerBinaryOp::Shl))
    }

    fn visit_i32_shr_s(&mut self) -> V::Output {
        self.check_numeric(NumericOp::IntegerBinary(IntegerType::I32, IntegerBinaryOp::Shr(Signed)))
    }

    fn visit_i32_shr_u(&mut self) -> V::Output {
        self.check_numeric(NumericOp::IntegerBinary(
            IntegerType::I32,
            IntegerBinaryOp::Shr(Unsigned),
        ))
    }

    fn visit_i32_rotl(&mut self) -> V::Output {
        self.check_numeric(NumericOp::IntegerBinary(IntegerType::I32, IntegerBinaryOp::Rotl))
    }

    fn visit_i32_rotr(&mut self) -> V::Output {
        self.check_numeric(NumericOp::IntegerBinary(IntegerType::I32, IntegerBinaryOp::Rotr))
    }

    fn visit_i64_clz(&mut self) -> V::Output {
        self.check_numeric(NumericOp::IntegerUnary(IntegerType::I64, IntegerUnaryOp::Clz))
    }

    fn visit_i64_ctz(&mut self) -> V::Output {
        self.check_numeric(NumericOp::IntegerUnary(IntegerType::I64, IntegerUnaryOp::Ctz))
    }

    fn visit_i64_popcnt(&mut self) -> V::Output {
        self.check_numeric(NumericOp::IntegerUnary(IntegerType::I64, IntegerUnaryOp::Popcnt))
    }

    fn visit_i64_add(&mut self) -> V::Output {
        self.check_numeric(NumericOp::IntegerBinary(IntegerType::I64, IntegerBinaryOp::Add))
    }

    fn visit_i64_sub(&mut self) -> V::Output {
        self.check_numeric(NumericOp::IntegerBinary(IntegerType::I64, IntegerBinaryOp::Sub))
    }

    fn visit_i64_mul(&mut self) -> V::Output {
        self.check_numeric(NumericOp::IntegerBinary(IntegerType::I64, IntegerBinaryOp::Mul))
    }

    fn visit_i64_div_s(&mut self) -> V::Output {
        self.check_numeric(NumericOp::IntegerBinary(IntegerType::I64, IntegerBinaryOp::Div(Signed)))
    }

    fn visit_i64_div_u(&mut self) -> V::Output {
        self.check_numeric(NumericOp::IntegerBinary(
            IntegerType::I64,
            IntegerBinaryOp::Div(Unsigned),
        ))
    }

    fn visit_i64_rem_s(&mut self) -> V::Output {
        self.check_numeric(NumericOp::IntegerBinary(IntegerType::I64, IntegerBinaryOp::Rem(Signed)))
    }

    fn visit_i64_rem_u(&mut self) -> V::Output {
        self.check_numeric(NumericOp::IntegerBinary(
            IntegerType::I64,
            IntegerBinaryOp::Rem(Unsigned),
        ))
    }

    fn visit_i64_and(&mut self) -> V::Output {
        self.check_numeric(NumericOp::IntegerBinary(IntegerType::I64, IntegerBinaryOp::And))
    }

    fn visit_i64_or(&mut self) -> V::Output {
        self.check_numeric(NumericOp::IntegerBinary(IntegerType::I64, IntegerBinaryOp::Or))
    }

    fn visit_i64_xor(&mut self) -> V::Output {
        self.check_numeric(NumericOp::IntegerBinary(IntegerType::I64, IntegerBinaryOp::Xor))
    }

    fn visit_i64_shl(&mut self) -> V::Output {
        self.check_numeric(NumericOp::IntegerBinary(IntegerType::I64, IntegerBinaryOp::Shl))
    }

    fn visit_i64_shr_s(&mut self) -> V::Output {
        self.check_numeric(NumericOp::IntegerBinary(IntegerType::I64, IntegerBinaryOp::Shr(Signed)))
    }

    fn visit_i64_shr_u(&mut self) -> V::Output {
        self.check_numeric(NumericOp::IntegerBinary(
            IntegerType::I64,
            IntegerBinaryOp::Shr(Unsigned),
        ))
    }

    fn visit_i64_rotl(&mut self) -> V::Output {
        self.check_numeric(NumericOp::IntegerBinary(IntegerType::I64, IntegerBinaryOp::Rotl))
    }

    fn visit_i64_rotr(&mut self) -> V::Output {
        self.check_numeric(NumericOp::IntegerBinary(IntegerType::I64, IntegerBinaryOp::Rotr))
    }

    fn visit_f32_abs(&mut self) -> V::Output {
        self.check_numeric(NumericOp::FloatUnary(FloatType::F32, FloatUnaryOp::Abs))
    }

    fn visit_f32_neg(&mut self) -> V::Output {
        self.check_numeric(NumericOp::FloatUnary(FloatType::F32, FloatUnaryOp::Neg))
    }

    fn visit_f32_ceil(&mut self) -> V::Output {
        self.check_numeric(NumericOp::FloatUnary(FloatType::F32, FloatUnaryOp::Ceil))
    }

    fn visit_f32_floor(&mut self) -> V::Output {
        self.check_numeric(NumericOp::FloatUnary(FloatType::F32, FloatUnaryOp::Floor))
    }

    fn visit_f32_trunc(&mut self) -> V::Output {
        self.check_numeric(NumericOp::FloatUnary(FloatType::F32, FloatUnaryOp::Trunc))
    }

    fn visit_f32_nearest(&mut self) -> V::Output {
        self.check_numeric(NumericOp::FloatUnary(FloatType::F32, FloatUnaryOp::Nearest))
    }

    fn visit_f32_sqrt(&mut self) -> V::Output {
        self.check_numeric(NumericOp::FloatUnary(FloatType::F32, FloatUnaryOp::Sqrt))
    }

    fn visit_f32_add(&mut self) -> V::Output {
        self.check_numeric(NumericOp::FloatBinary(FloatType::F32, FloatBinaryOp::Add))
    }

    fn visit_f32_sub(&mut self) -> V::Output {
        self.check_numeric(NumericOp::FloatBinary(FloatType::F32, FloatBinaryOp::Sub))
    }

    fn visit_f32_mul(&mut self) -> V::Output {
        self.check_numeric(NumericOp::FloatBinary(FloatType::F32, FloatBinaryOp::Mul))
    }

    fn visit_f32_div(&mut self) -> V::Output {
        self.check_numeric(NumericOp::FloatBinary(FloatType::F32, FloatBinaryOp::Div))
    }

    fn visit_f32_min(&mut self) -> V::Output {
        self.check_numeric(NumericOp::FloatBinary(FloatType::F32, FloatBinaryOp::Min))
    }

    fn visit_f32_max(&mut self) -> V::Output {
        self.check_numeric(NumericOp::FloatBinary(FloatType::F32, FloatBinaryOp::Max))
    }

    fn visit_f32_copysign(&mut self) -> V::Output {
        self.check_numeric(NumericOp::FloatBinary(FloatType::F32, FloatBinaryOp::Copysign))
    }

    fn visit_f64_abs(&mut self) -> V::Output {
        self.check_numeric(NumericOp::FloatUnary(FloatType::F64, FloatUnaryOp::Abs))
    }

    fn visit_f64_neg(&mut self) -> V::Output {
        self.check_numeric(NumericOp::FloatUnary(FloatType::F64, FloatUnaryOp::Neg))
    }

    fn visit_f64_ceil(&mut self) -> V::Output {
        self.check_numeric(NumericOp::FloatUnary(FloatType::F64, FloatUnaryOp::Ceil))
    }

    fn visit_f64_floor(&mut self) -> V::Output {
        self.check_numeric(NumericOp::FloatUnary(FloatType::F64, FloatUnaryOp::Floor))
    }

    fn visit_f64_trunc(&mut self) -> V::Output {
        self.check_numeric(NumericOp::FloatUnary(FloatType::F64, FloatUnaryOp::Trunc))
    }

    fn visit_f64_nearest(&mut self) -> V::Output {
        self.check_numeric(NumericOp::FloatUnary(FloatType::F64, FloatUnaryOp::Nearest))
    }

    fn visit_f64_sqrt(&mut self) -> V::Output {
        self.check_numeric(NumericOp::FloatUnary(FloatType::F64, FloatUnaryOp::Sqrt))
    }

    fn visit_f64_add(&mut self) -> V::Output {
        self.check_numeric(NumericOp::FloatBinary(FloatType::F64, FloatBinaryOp::Add))
    }

    fn visit_f64_sub(&mut self) -> V::Output {
        self.check_numeric(NumericOp::FloatBinary(FloatType::F64, FloatBinaryOp::Sub))
    }

    fn visit_f64_mul(&mut self) -> V::Output {
        self.check_numeric(NumericOp::FloatBinary(FloatType::F64, FloatBinaryOp::Mul))
    }

    fn visit_f64_div(&mut self) -> V::Output {
        self.check_numeric(NumericOp::FloatBinary(FloatType::F64, FloatBinaryOp::Div))
    }

    fn visit_f64_min(&mut self) -> V::Output {
        self.check_numeric(NumericOp::FloatBinary(FloatType::F64, FloatBinaryOp::Min))
    }

    fn visit_f64_max(&mut self) -> V::Output {
        self.check_numeric(NumericOp::FloatBinary(FloatType::F64, FloatBinaryOp::Max))
    }

    fn visit_f64_copysign(&mut self) -> V::Output {
        self.check_numeric(NumericOp::FloatBinary(FloatType::F64, FloatBinaryOp::Copysign))
    }

    fn visit_i64_add128(&mut self) -> V::Output {
        self.check_numeric(NumericOp::Add128)
    }

    fn visit_i64_sub128(&mut self) -> V::Output {
        self.check_numeric(NumericOp::Sub128)
    }

    fn visit_i64_mul_wide_s(&mut self) -> V::Output {
        self.check_numeric(NumericOp::MulWide(Signed))
    }

    fn visit_i64_mul_wide_u(&mut self) -> V::Output {
        self.check_numeric(NumericOp::MulWide(Unsigned))
    }

    fn visit_i32_wrap_i64(&mut self) -> V::Output {
        self.check_convert(ConvertOp::Wrap)
    }

    fn visit_i32_trunc_f32_s(&mut self) -> V::Output {
        self.check_convert(ConvertOp::Trunc(IntegerType::I32, FloatType::F32, Signed))
    }

    fn visit_i32_trunc_f32_u(&mut self) -> V::Output {
        self.check_convert(ConvertOp::Trunc(IntegerType::I32, FloatType::F32, Unsigned))
    }

    fn visit_i32_trunc_f64_s(&mut self) -> V::Output {
        self.check_convert(ConvertOp::Trunc(IntegerType::I32, FloatType::F64, Signed))
    }

    fn visit_i32_trunc_f64_u(&mut self) -> V::Output {
        self.check_convert(ConvertOp::Trunc(IntegerType::I32, FloatType::F64, Unsigned))
    }

    fn visit_i64_trunc_f32_s(&mut self) -> V::Output {
        self.check_convert(ConvertOp::Trunc(IntegerType::I64, FloatType::F32, Signed))
    }

    fn visit_i64_trunc_f32_u(&mut self) -> V::Output {
        self.check_convert(ConvertOp::Trunc(IntegerType::I64, FloatType::F32, Unsigned))
    }

    fn visit_i64_trunc_f64_s(&mut self) -> V::Output {
        self.check_convert(ConvertOp::Trunc(IntegerType::I64, FloatType::F64, Signed))
    }

    fn visit_i64_trunc_f64_u(&mut self) -> V::Output {
        self.check_convert(ConvertOp::Trunc(IntegerType::I64, FloatType::F64, Unsigned))
    }

    fn visit_i64_extend_i32_s(&mut self) -> V::Output {
        self.check_convert(ConvertOp::Extend(Signed))
    }

    fn visit_i64_extend_i32_u(&mut self) -> V::Output {
        self.check_convert(ConvertOp::Extend(Unsigned))
    }

    fn visit_f32_convert_i32_s(&mut self) -> V::Output {
        self.check_convert(ConvertOp::Convert(FloatType::F32, IntegerType::I32, Signed))
    }

    fn visit_f32_convert_i32_u(&mut self) -> V::Output {
        self.check_convert(ConvertOp::Convert(FloatType::F32, IntegerType::I32, Unsigned))
    }

    fn visit_f32_convert_i64_s(&mut self) -> V::Output {
        self.check_convert(ConvertOp::Convert(FloatType::F32, IntegerType::I64, Signed))
    }

    fn visit_f32_convert_i64_u(&mut self) -> V::Output {
        self.check_convert(ConvertOp::Convert(FloatType::F32, IntegerType::I64, Unsigned))
    }

    fn visit_f64_convert_i32_s(&mut self) -> V::Output {
        self.check_convert(ConvertOp::Convert(FloatType::F64, IntegerType::I32, Signed))
    }

    fn visit_f64_convert_i32_u(&mut self) -> V::Output {
        self.check_convert(ConvertOp::Convert(FloatType::F64, IntegerType::I32, Unsigned))
    }

    fn visit_f64_convert_i64_s(&mut self) -> V::Output {
        self.check_convert(ConvertOp::Convert(FloatType::F64, IntegerType::I64, Signed))
    }

    fn visit_f64_convert_i64_u(&mut self) -> V::Output {
        self.check_convert(ConvertOp::Convert(FloatType::F64, IntegerType::I64, Unsigned))
    }

    fn visit_f32_demote_f64(&mut self) -> V::Output {
        self.check_convert(ConvertOp::Demote)
    }

    fn visit_f64_promote_f32(&mut self) -> V::Output {
        self.check_convert(ConvertOp::Promote)
    }

    fn visit_i32_reinterpret_f32(&mut self) -> V::Output {
        self.check_convert(ConvertOp::Reinterpret(NumberType::I32))
    }

    fn visit_i64_reinterpret_f64(&mut self) -> V::Output {
        self.check_convert(ConvertOp::Reinterpret(NumberType::I64))
    }

    fn visit_f32_reinterpret_i32(&mut self) -> V::Output {
        self.check_convert(ConvertOp::Reinterpret(NumberType::F32))
    }

    fn visit_f64_reinterpret_i64(&mut self) -> V::Output {
        self.check_convert(ConvertOp::Reinterpret(NumberType::F64))
    }

    fn visit_i32_extend8_s(&mut self) -> V::Output {
        self.check_convert(ConvertOp::ExtendPacked(PackedInteger::I32Bits8))
    }

    fn visit_i32_extend16_s(&mut self) -> V::Output {
        self.check_convert(ConvertOp::ExtendPacked(PackedInteger::I32Bits16))
    }

    fn visit_i64_extend8_s(&mut self) -> V::Output {
        self.check_convert(ConvertOp::ExtendPacked(PackedInteger::I64Bits8))
    }

    fn visit_i64_extend16_s(&mut self) -> V::Output {
        self.check_convert(ConvertOp::ExtendPacked(PackedInteger::I64Bits16))
    }

    fn visit_i64_extend32_s(&mut self) -> V::Output {
        self.check_convert(ConvertOp::ExtendPacked(PackedInteger::I64Bits32))
    }

    fn visit_i32_trunc_sat_f32_s(&mut self) -> V::Output {
        self.check_convert(ConvertOp::TruncSat(IntegerType::I32, FloatType::F32, Signed))
    }

    fn visit_i32_trunc_sat_f32_u(&mut self) -> V::Output {
        self.check_convert(ConvertOp::TruncSat(IntegerType::I32, FloatType::F32, Unsigned))
    }

    fn visit_i32_trunc_sat_f64_s(&mut self) -> V::Output {
        self.check_convert(ConvertOp::TruncSat(IntegerType::I32, FloatType::F64, Signed))
    }

    fn visit_i32_trunc_sat_f64_u(&mut self) -> V::Output {
        self.check_convert(ConvertOp::TruncSat(IntegerType::I32, FloatType::F64, Unsigned))
    }

    fn visit_i64_trunc_sat_f32_s(&mut self) -> V::Output {
        self.check_convert(ConvertOp::TruncSat(IntegerType::I64, FloatType::F32, Signed))
    }

    fn visit_i64_trunc_sat_f32_u(&mut self) -> V::Output {
        self.check_convert(ConvertOp::TruncSat(IntegerType::I64, FloatType::F32, Unsigned))
    }

    fn visit_i64_trunc_sat_f64_s(&mut self) -> V::Output {
        self.check_convert(ConvertOp::TruncSat(IntegerType::I64, FloatType::F64, Signed))
    }

    fn visit_i64_trunc_sat_f64_u(&mut self) -> V::Output {
        self.check_convert(ConvertOp::TruncSat(IntegerType::I64, FloatType::F64, Unsigned))
    }

    fn visit_i32_load(&mut self, memarg: MemArg) -> V::Output {
        self.check_memory(MemoryOp::Load(NumberType::I32, memarg))
    }

    fn visit_i64_load(&mut self, memarg: MemArg) -> V::Output {
        self.check_memory(MemoryOp::Load(NumberType::I64, memarg))
    }

    fn visit_f32_load(&mut self, memarg: MemArg) -> V::Output {
        self.check_memory(MemoryOp::Load(NumberType::F32, memarg))
    }

    fn visit_f64_load(&mut self, memarg: MemArg) -> V::Output {
        self.check_memory(MemoryOp::Load(NumberType::F64, memarg))
    }

    fn visit_i32_load8_s(&mut self, memarg: MemArg) -> V::Output {
        self.check_memory(MemoryOp::LoadPacked(PackedInteger::I32Bits8, Signed, memarg))
    }

    fn visit_i32_load8_u(&mut self, memarg: MemArg) -> V::Output {
        self.check_memory(MemoryOp::LoadPacked(PackedInteger::I32Bits8, Unsigned, memarg))
    }

    fn visit_i32_load16_s(&mut self, memarg: MemArg) -> V::Output {
        self.check_memory(MemoryOp::LoadPacked(PackedInteger::I32Bits16, Signed, memarg))
    }

    fn visit_i32_load16_u(&mut self, memarg: MemArg) -> V::Output {
        self.check_memory(MemoryOp::LoadPacked(PackedInteger::I32Bits16, Unsigned, memarg))
    }

    fn visit_i64_load8_s(&mut self, memarg: MemArg) -> V::Output {
        self.check_memory(MemoryOp::LoadPacked(PackedInteger::I64Bits8, Signed, memarg))
    }

    fn visit_i64_load8_u(&mut self, memarg: MemArg) -> V::Output {
        self.check_memory(MemoryOp::LoadPacked(PackedInteger::I64Bits8, Unsigned, memarg))
    }

    fn visit_i64_load16_s(&mut self, memarg: MemArg) -> V::Output {
        self.check_memory(MemoryOp::LoadPacked(PackedInteger::I64Bits16, Signed, memarg))
    }

    fn visit_i64_load16_u(&mut self, memarg: MemArg) -> V::Output {
        self.check_memory(MemoryOp::LoadPacked(PackedInteger::I64Bits16, Unsigned, memarg))
    }

    fn visit_i64_load32_s(&mut self, memarg: MemArg) -> V::Output {
        self.check_memory(MemoryOp::LoadPacked(PackedInteger::I64Bits32, Signed, memarg))
    }

    fn visit_i64_load32_u(&mut self, memarg: MemArg) -> V::Output {
        self.check_memory(MemoryOp::LoadPacked(PackedInteger::I64Bits32, Unsigned, memarg))
    }

    fn visit_i32_store(&mut self, memarg: MemArg) -> V::Output {
        self.check_memory(MemoryOp::Store(NumberType::I32, memarg))
    }

    fn visit_i64_store(&mut self, memarg: MemArg) -> V::Output {
        self.check_memory(MemoryOp::Store(NumberType::I64, memarg))
    }

    fn visit_f32_store(&mut self, memarg: MemArg) -> V::Output {
        self.check_memory(MemoryOp::Store(NumberType::F32, memarg))
    }

    fn visit_f64_store(&mut self, memarg: MemArg) -> V::Output {
        self.check_memory(MemoryOp::Store(NumberType::F64, memarg))
    }

    fn visit_i32_store8(&mut self, memarg: MemArg) -> V::Output {
        self.check_memory(MemoryOp::StorePacked(PackedInteger::I32Bits8, memarg))
    }

    fn visit_i32_store16(&mut self, memarg: MemArg) -> V::Output {
        self.check_memory(MemoryOp::StorePacked(PackedInteger::I32Bits16, memarg))
    }

    fn visit_i64_store8(&mut self, memarg: MemArg) -> V::Output {
        self.check_memory(MemoryOp::StorePacked(PackedInteger::I64Bits8, memarg))
    }

    fn visit_i64_store16(&mut self, memarg: MemArg) -> V::Output {
        self.check_memory(MemoryOp::StorePacked(PackedInteger::I64Bits16, memarg))
    }

    fn visit_i64_store32(&mut self, memarg: MemArg) -> V::Output {
        self.check_memory(MemoryOp::StorePacked(PackedInteger::I64Bits32, memarg))
    }

    fn visit_memory_size(&mut self, mem: u32) -> V::Output {
        self.check_memory(MemoryOp::MemorySize(mem))
    }

    fn visit_memory_grow(&mut self, mem: u32) -> V::Output {
        self.check_memory(MemoryOp::MemoryGrow(mem))
    }

    fn visit_memory_init(&mut self, data_index: u32, mem: u32) -> V::Output {
        self.check_memory(MemoryOp::MemoryInit { data_index, mem })
    }

    fn visit_data_drop(&mut self, data_index: u32) -> V::Output {
        self.check_memory(MemoryOp::DataDrop(data_index))
    }

    fn visit_memory_copy(&mut self, dst_mem: u32, src_mem: u32) -> V::Output {
        self.check_memory(MemoryOp::MemoryCopy { dst_mem, src_mem })
    }

    fn visit_memory_fill(&mut self, mem: u32) -> V::Output {
        self.check_memory(MemoryOp::MemoryFill(mem))
    }

    fn visit_memory_discard(&mut self, mem: u32) -> V::Output {
        self.check_memory(MemoryOp::MemoryDiscard(mem))
    }

    fn visit_memory_atomic_notify(&mut self, memarg: MemArg) -> V::Output {
        self.check_atomic(AtomicOp::AtomicNotify(memarg))
    }

    fn visit_memory_atomic_wait32(&mut self, memarg: MemArg) -> V::Output {
        self.check_atomic(AtomicOp::AtomicWait(IntegerType::I32, memarg))
    }

    fn visit_memory_atomic_wait64(&mut self, memarg: MemArg) -> V::Output {
        self.check_atomic(AtomicOp::AtomicWait(IntegerType::I64, memarg))
    }

    fn visit_atomic_fence(&mut self, ordering: Ordering) -> V::Output {
        self.check_atomic(AtomicOp::AtomicFence(ordering))
    }

    fn visit_i32_atomic_load(&mut self, memarg: MemArg) -> V::Output {
        self.check_atomic(AtomicOp::AtomicLoad(Whole(IntegerType::I32), memarg))
    }

    fn visit_i64_atomic_load(&mut self, memarg: MemArg) -> V::Output {
        self.check_atomic(AtomicOp::AtomicLoad(Whole(IntegerType::I64), memarg))
    }

    fn visit_i32_atomic_load8_u(&mut self, memarg: MemArg) -> V::Output {
        self.check_atomic(AtomicOp::AtomicLoad(Packed(PackedInteger::I32Bits8), memarg))
    }

    fn visit_i32_atomic_load16_u(&mut self, memarg: MemArg) -> V::Output {
        self.check_atomic(AtomicOp::AtomicLoad(Packed(PackedInteger::I32Bits16), memarg))
    }

    fn visit_i64_atomic_load8_u(&mut self, memarg: MemArg) -> V::Output {
        self.check_atomic(AtomicOp::AtomicLoad(Packed(PackedInteger::I64Bits8), memarg))
    }

    fn visit_i64_atomic_load16_u(&mut self, memarg: MemArg) -> V::Output {
        self.check_atomic(AtomicOp::AtomicLoad(Packed(PackedInteger::I64Bits16), memarg))
    }

    fn visit_i64_atomic_load32_u(&mut self, memarg: MemArg) -> V::Output {
        self.check_atomic(AtomicOp::AtomicLoad(Packed(PackedInteger::I64Bits32), memarg))
    }

    fn visit_i32_atomic_store(&mut self, memarg: MemArg) -> V::Output {
        self.check_atomic(AtomicOp::AtomicStore(Whole(IntegerType::I32), memarg))
    }

    fn visit_i64_atomic_store(&mut self, memarg: MemArg) -> V::Output {
        self.check_atomic(AtomicOp::AtomicStore(Whole(IntegerType::I64), memarg))
    }

    fn visit_i32_atomic_store8(&mut self, memarg: MemArg) -> V::Output {
        self.check_atomic(AtomicOp::AtomicStore(Packed(PackedInteger::I32Bits8), memarg))
    }

    fn visit_i32_atomic_store16(&mut self, memarg: MemArg) -> V::Output {
        self.check_atomic(AtomicOp::AtomicStore(Packed(PackedInteger::I32Bits16), memarg))
    }

    fn visit_i64_atomic_store8(&mut self, memarg: MemArg) -> V::Output {
        self.check_atomic(AtomicOp::AtomicStore(Packed(PackedInteger::I64Bits8), memarg))
    }

    fn visit_i64_atomic_store16(&mut self, memarg: MemArg) -> V::Output {
        self.check_atomic(AtomicOp::AtomicStore(Packed(PackedInteger::I64Bits16), memarg))
    }

    fn visit_i64_atomic_store32(&mut self, memarg: MemArg) -> V::Output {
        self.check_atomic(AtomicOp::AtomicStore(Packed(PackedInteger::I64Bits32), memarg))
    }

    fn visit_i32_atomic_rmw_add(&mut self, memarg: MemArg) -> V::Output {
        self.check_atomic(AtomicOp::AtomicRmw(Whole(IntegerType::I32), AtomicRmwOp::Add, memarg))
    }

    fn visit_i64_atomic_rmw_add(&mut self, memarg: MemArg) -> V::Output {
        self.check_atomic(AtomicOp::AtomicRmw(Whole(IntegerType::I64), AtomicRmwOp::Add, memarg))
    }

    fn visit_i32_atomic_rmw8_add_u(&mut self, memarg: MemArg) -> V::Output {
        self.check_atomic(AtomicOp::AtomicRmw(
            Packed(PackedInteger::I32Bits8),
            AtomicRmwOp::Add,
            memarg,
        ))
    }

    fn visit_i32_atomic_rmw16_add_u(&mut self, memarg: MemArg) -> V::Output {
        self.check_atomic(AtomicOp::AtomicRmw(
            Packed(PackedInteger::I32Bits16),
            AtomicRmwOp::Add,
            memarg,
        ))
    }

    fn visit_i64_atomic_rmw8_add_u(&mut self, memarg: MemArg) -> V::Output {
        self.check_atomic(AtomicOp::AtomicRmw(
            Packed(PackedInteger::I64Bits8),
            AtomicRmwOp::Add,
            memarg,
        ))
    }

    fn visit_i64_atomic_rmw16_add_u(&mut self, memarg: MemArg) -> V::Output {
        self.check_atomic(AtomicOp::AtomicRmw(
            Packed(PackedInteger::I64Bits16),
            AtomicRmwOp::Add,
            memarg,
        ))
    }

    fn visit_i64_atomic_rmw32_add_u(&mut self, memarg: MemArg) -> V::Output {
        self.check_atomic(AtomicOp::AtomicRmw(
            Packed(PackedInteger::I64Bits32),
            AtomicRmwOp::Add,
            memarg,
        ))
    }

    fn visit_i32_atomic_rmw_sub(&mut self, memarg: MemArg) -> V::Output {
        self.check_atomic(AtomicOp::AtomicRmw(Whole(IntegerType::I32), AtomicRmwOp::Sub, memarg))
    }

    fn visit_i64_atomic_rmw_sub(&mut self, memarg: MemArg) -> V::Output {
        self.check_atomic(AtomicOp::AtomicRmw(Whole(IntegerType::I64), AtomicRmwOp::Sub, memarg))
    }

    fn visit_i32_atomic_rmw8_sub_u(&mut self, memarg: MemArg) -> V::Output {
        self.check_atomic(AtomicOp::AtomicRmw(
            Packed(PackedInteger::I32Bits8),
            AtomicRmwOp::Sub,
            memarg,
        ))
    }

    fn visit_i32_atomic_rmw16_sub_u(&mut self, memarg: MemArg) -> V::Output {
        self.check_atomic(AtomicOp::AtomicRmw(
            Packed(PackedInteger::I32Bits16),
            AtomicRmwOp::Sub,
            memarg,
        ))
    }

    fn visit_i64_atomic_rmw8_sub_u(&mut self, memarg: MemArg) -> V::Output {
        self.check_atomic(AtomicOp::AtomicRmw(
            Packed(PackedInteger::I64Bits8),
            AtomicRmwOp::Sub,
            memarg,
        ))
    }

    fn visit_i64_atomic_rmw16_sub_u(&mut self, memarg: MemArg) -> V::Output {
        self.check_atomic(AtomicOp::AtomicRmw(
            Packed(PackedInteger::I64Bits16),
            AtomicRmwOp::Sub,
            memarg,
        ))
    }

    fn visit_i64_atomic_rmw32_sub_u(&mut self, memarg: MemArg) -> V::Output {
        self.check_atomic(AtomicOp::AtomicRmw(
            Packed(PackedInteger::I64Bits32),
            AtomicRmwOp::Sub,
            memarg,
        ))
    }

    fn visit_i32_atomic_rmw_and(&mut self, memarg: MemArg) -> V::Output {
        self.check_atomic(AtomicOp::AtomicRmw(Whole(IntegerType::I32), AtomicRmwOp::And, memarg))
    }

    fn visit_i64_atomic_rmw_and(&mut self, memarg: MemArg) -> V::Output {
        self.check_atomic(AtomicOp::AtomicRmw(Whole(IntegerType::I64), AtomicRmwOp::And, memarg))
    }

    fn visit_i32_atomic_rmw8_and_u(&mut self, memarg: MemArg) -> V::Output {
        self.check_atomic(AtomicOp::AtomicRmw(
            Packed(PackedInteger::I32Bits8),
            AtomicRmwOp::And,
            memarg,
        ))
    }

    fn visit_i32_atomic_rmw16_and_u(&mut self, memarg: MemArg) -> V::Output {
        self.check_atomic(AtomicOp::AtomicRmw(
            Packed(PackedInteger::I32Bits16),
            AtomicRmwOp::And,
            memarg,
        ))
    }

    fn visit_i64_atomic_rmw8_and_u(&mut self, memarg: MemArg) -> V::Output {
        self.check_atomic(AtomicOp::AtomicRmw(
            Packed(PackedInteger::I64Bits8),
            AtomicRmwOp::And,
            memarg,
        ))
    }

    fn visit_i64_atomic_rmw16_and_u(&mut self, memarg: MemArg) -> V::Output {
        self.check_atomic(AtomicOp::AtomicRmw(
            Packed(PackedInteger::I64Bits16),
            AtomicRmwOp::And,
            memarg,
        ))
    }

    fn visit_i64_atomic_rmw32_and_u(&mut self, memarg: MemArg) -> V::Output {
        self.check_atomic(AtomicOp::AtomicRmw(
            Packed(PackedInteger::I64Bits32),
            AtomicRmwOp::And,
            memarg,
        ))
    }

    fn visit_i32_atomic_rmw_or(&mut self, memarg: MemArg) -> V::Output {
        self.check_atomic(AtomicOp::AtomicRmw(Whole(IntegerType::I32), AtomicRmwOp::Or, memarg))
    }

    fn visit_i64_atomic_rmw_or(&mut self, memarg: MemArg) -> V::Output {
        self.check_atomic(AtomicOp::AtomicRmw(Whole(IntegerType::I64), AtomicRmwOp::Or, memarg))
    }

    fn visit_i32_atomic_rmw8_or_u(&mut self, memarg: MemArg) -> V::Output {
        self.check_atomic(AtomicOp::AtomicRmw(
            Packed(PackedInteger::I32Bits8),
            AtomicRmwOp::Or,
            memarg,
        ))
    }

    fn visit_i32_atomic_rmw16_or_u(&mut self, memarg: MemArg) -> V::Output {
        self.check_atomic(AtomicOp::AtomicRmw(
            Packed(PackedInteger::I32Bits16),
            AtomicRmwOp::Or,
            memarg,
        ))
    }

    fn visit_i64_atomic_rmw8_or_u(&mut self, memarg: MemArg) -> V::Output {
        self.check_atomic(AtomicOp::AtomicRmw(
            Packed(PackedInteger::I64Bits8),
            AtomicRmwOp::Or,
            memarg,
        ))
    }

    fn visit_i64_atomic_rmw16_or_u(&mut self, memarg: MemArg) -> V::Output {
        self.check_atomic(AtomicOp::AtomicRmw(
            Packed(PackedInteger::I64Bits16),
            AtomicRmwOp::Or,
            memarg,
        ))
    }

    fn visit_i64_atomic_rmw32_or_u(&mut self, memarg: MemArg) -> V::Output {
        self.check_atomic(AtomicOp::AtomicRmw(
            Packed(PackedInteger::I64Bits32),
            AtomicRmwOp::Or,
            memarg,
        ))
    }

    fn visit_i32_atomic_rmw_xor(&mut self, memarg: MemArg) -> V::Output {
        self.check_atomic(AtomicOp::AtomicRmw(Whole(IntegerType::I32), AtomicRmwOp::Xor, memarg))
    }

    fn visit_i64_atomic_rmw_xor(&mut self, memarg: MemArg) -> V::Output {
        self.check_atomic(AtomicOp::AtomicRmw(Whole(IntegerType::I64), AtomicRmwOp::Xor, memarg))
    }

    fn visit_i32_atomic_rmw8_xor_u(&mut self, memarg: MemArg) -> V::Output {
        self.check_atomic(AtomicOp::AtomicRmw(
            Packed(PackedInteger::I32Bits8),
            AtomicRmwOp::Xor,
            memarg,
        ))
    }

    fn visit_i32_atomic_rmw16_xor_u(&mut self, memarg: MemArg) -> V::Output {
        self.check_atomic(AtomicOp::AtomicRmw(
            Packed(PackedInteger::I32Bits16),
            AtomicRmwOp::Xor,
            memarg,
        ))
    }

    fn visit_i64_atomic_rmw8_xor_u(&mut self, memarg: MemArg) -> V::Output {
        self.check_atomic(AtomicOp::AtomicRmw(
            Packed(PackedInteger::I64Bits8),
            AtomicRmwOp::Xor,
            memarg,
        ))
    }

    fn visit_i64_atomic_rmw16_xor_u(&mut self, memarg: MemArg) -> V::Output {
        self.check_atomic(AtomicOp::AtomicRmw(
            Packed(PackedInteger::I64Bits16),
            AtomicRmwOp::Xor,
            memarg,
        ))
    }

    fn visit_i64_atomic_rmw32_xor_u(&mut self, memarg: MemArg) -> V::Output {
        self.check_atomic(AtomicOp::AtomicRmw(
            Packed(PackedInteger::I64Bits32),
            AtomicRmwOp::Xor,
            memarg,
        ))
    }

    fn visit_i32_atomic_rmw_xchg(&mut self, memarg: MemArg) -> V::Output {
        self.check_atomic(AtomicOp::AtomicRmw(Whole(IntegerType::I32), AtomicRmwOp::Xchg, memarg))
    }

    fn visit_i64_atomic_rmw_xchg(&mut self, memarg: MemArg) -> V::Output {
        self.check_atomic(AtomicOp::AtomicRmw(Whole(IntegerType::I64), AtomicRmwOp::Xchg, memarg))
    }

    fn visit_i32_atomic_rmw8_xchg_u(&mut self, memarg: MemArg) -> V::Output {
        self.check_atomic(AtomicOp::AtomicRmw(
            Packed(PackedInteger::I32Bits8),
            AtomicRmwOp::Xchg,
            memarg,
        ))
    }

    fn visit_i32_atomic_rmw16_xchg_u(&mut self, memarg: MemArg) -> V::Output {
        self.check_atomic(AtomicOp::AtomicRmw(
            Packed(PackedInteger::I32Bits16),
            AtomicRmwOp::Xchg,
            memarg,
        ))
    }

    fn visit_i64_atomic_rmw8_xchg_u(&mut self, memarg: MemArg) -> V::Output {
        self.check_atomic(AtomicOp::AtomicRmw(
            Packed(PackedInteger::I64Bits8),
            AtomicRmwOp::Xchg,
            memarg,
        ))
    }

    fn visit_i64_atomic_rmw16_xchg_u(&mut self, memarg: MemArg) -> V::Output {
        self.check_atomic(AtomicOp::AtomicRmw(
            Packed(PackedInteger::I64Bits16),
            AtomicRmwOp::Xchg,
            memarg,
        ))
    }

    fn visit_i64_atomic_rmw32_xchg_u(&mut self, memarg: MemArg) -> V::Output {
        self.check_atomic(AtomicOp::AtomicRmw(
            Packed(PackedInteger::I64Bits32),
            AtomicRmwOp::Xchg,
            memarg,
        ))
    }

    fn visit_i32_atomic_rmw_cmpxchg(&mut self, memarg: MemArg) -> V::Output {
        self.check_atomic(AtomicOp::AtomicCmpxchg(Whole(IntegerType::I32), memarg))
    }

    fn visit_i64_atomic_rmw_cmpxchg(&mut self, memarg: MemArg) -> V::Output {
        self.check_atomic(AtomicOp::AtomicCmpxchg(Whole(IntegerType::I64), memarg))
    }

    fn visit_i32_atomic_rmw8_cmpxchg_u(&mut self, memarg: MemArg) -> V::Output {
        self.check_atomic(AtomicOp::AtomicCmpxchg(Packed(PackedInteger::I32Bits8), memarg))
    }

    fn visit_i32_atomic_rmw16_cmpxchg_u(&mut self, memarg: MemArg) -> V::Output {
        self.check_atomic(AtomicOp::AtomicCmpxchg(Packed(PackedInteger::I32Bits16), memarg))
    }

    fn visit_i64_atomic_rmw8_cmpxchg_u(&mut self, memarg: MemArg) -> V::Output {
        self.check_atomic(AtomicOp::AtomicCmpxchg(Packed(PackedInteger::I64Bits8), memarg))
    }

    fn visit_i64_atomic_rmw16_cmpxchg_u(&mut self, memarg: MemArg) -> V::Output {
        self.check_atomic(AtomicOp::AtomicCmpxchg(Packed(PackedInteger::I64Bits16), memarg))
    }

    fn visit_i64_atomic_rmw32_cmpxchg_u(&mut self, memarg: MemArg) -> V::Output {
        self.check_atomic(AtomicOp::AtomicCmpxchg(Packed(PackedInteger::I64Bits32), memarg))
    }

    fn visit_pause(&mut self) -> V::Output {
        self.check_atomic(AtomicOp::Pause)
    }

    fn visit_ref_null(&mut self, heap_type: HeapType) -> V::Output {
        self.check_reference(ReferenceOp::RefNull(heap_type))
    }

    fn visit_ref_is_null(&mut self) -> V::Output {
        self.check_reference(ReferenceOp::RefIsNull)
    }

    fn visit_ref_func(&mut self, function_index: u32) -> V::Output {
        self.check_reference(ReferenceOp::RefFunc(function_index))
    }

    fn visit_ref_as_non_null(&mut self) -> V::Output {
        self.check_reference(ReferenceOp::RefAsNonNull)
    }

    fn visit_br_on_null(&mut self, relative_depth: u32) -> V::Output {
        self.check_reference(ReferenceOp::BrOnNull(relative_depth))
    }

    fn visit_br_on_non_null(&mut self, relative_depth: u32) -> V::Output {
        self.check_reference(ReferenceOp::BrOnNonNull(relative_depth))
    }

    fn visit_table_get(&mut self, table: u32) -> V::Output {
        self.check_table(TableOp::TableGet(table))
    }

    fn visit_table_set(&mut self, table: u32) -> V::Output {
        self.check_table(TableOp::TableSet(table))
    }

    fn visit_table_grow(&mut self, table: u32) -> V::Output {
        self.check_table(TableOp::TableGrow(table))
    }

    fn visit_table_size(&mut self, table: u32) -> V::Output {
        self.check_table(TableOp::TableSize(table))
    }

    fn visit_table_fill(&mut self, table: u32) -> V::Output {
        self.check_table(TableOp::TableFill(table))
    }

    fn visit_table_init(&mut self, elem_index: u32, table: u32) -> V::Output {
        self.check_table(TableOp::TableInit { elem_index, table })
    }

    fn visit_elem_drop(&mut self, elem_index: u32) -> V::Output {
        self.check_table(TableOp::ElemDrop(elem_index))
    }

    fn visit_table_copy(&mut self, dst_table: u32, src_table: u32) -> V::Output {
        self.check_table(TableOp::TableCopy {
            dst_table,
            src_table,
        })
    }

    fn visit_ref_eq(&mut self) -> V::Output {
        self.check_reference(ReferenceOp::RefEq)
    }

    fn visit_ref_test_non_null(&mut self, heap_type: HeapType) -> V::Output {
        self.check_reference(ReferenceOp::RefTestNonNull(heap_type))
    }

    fn visit_ref_test_nullable(&mut self, heap_type: HeapType) -> V::Output {
        self.check_reference(ReferenceOp::RefTestNullable(heap_type))
    }

    fn visit_ref_cast_non_null(&mut self, heap_type: HeapType) -> V::Output {
        self.check_reference(ReferenceOp::RefCastNonNull(heap_type))
    }

    fn visit_ref_cast_nullable(&mut self, heap_type: HeapType) -> V::Output {
        self.check_reference(ReferenceOp::RefCastNullable(heap_type))
    }

    fn visit_br_on_cast(
        &mut self,
        relative_depth: u32,
        from_ref_type: RefType,
        to_ref_type: RefType,
    ) -> V::Output {
        self.check_reference(ReferenceOp::BrOnCast(BranchCast {
            relative_depth,
            from_ref_type,
            to_ref_type,
        }))
    }

    fn visit_br_on_cast_fail(
        &mut self,
        relative_depth: u32,
        from_ref_type: RefType,
        to_ref_type: RefType,
    ) -> V::Output {
        self.check_reference(ReferenceOp::BrOnCastFail(BranchCast {
            relative_depth,
            from_ref_type,
            to_ref_type,
        }))
    }

    fn visit_ref_get_desc(&mut self, type_index: u32) -> V::Output {
        self.check_reference(ReferenceOp::RefGetDesc(type_index))
    }

    fn visit_ref_cast_desc_eq_non_null(&mut self, heap_type: HeapType) -> V::Output {
        self.check_reference(ReferenceOp::RefCastDescEqNonNull(heap_type))
    }

    fn visit_ref_cast_desc_eq_nullable(&mut self, heap_type: HeapType) -> V::Output {
        self.check_reference(ReferenceOp::RefCastDescEqNullable(heap_type))
    }

    fn visit_br_on_cast_desc_eq(
        &mut self,
        relative_depth: u32,
        from_ref_type: RefType,
        to_ref_type: RefType,
    ) -> V::Output {
        self.check_reference(ReferenceOp::BrOnCastDescEq(BranchCast {
            relative_depth,
            from_ref_type,
            to_ref_type,
        }))
    }

    fn visit_br_on_cast_desc_eq_fail(
        &mut self,
        relative_depth: u32,
        from_ref_type: RefType,
        to_ref_type: RefType,
    ) -> V::Output {
        self.check_reference(ReferenceOp::BrOnCastDescEqFail(BranchCast {
            relative_depth,
            from_ref_type,
            to_ref_type,
        }))
    }

    fn visit_any_convert_extern(&mut self) -> V::Output {
        self.check_reference(ReferenceOp::AnyConvertExtern)
    }

    fn visit_extern_convert_any(&mut self) -> V::Output {
        self.check_reference(ReferenceOp::ExternConvertAny)
    }

    fn visit_ref_i31(&mut self) -> V::Output {
        self.check_reference(ReferenceOp::RefI31)
    }

    fn visit_i31_get_s(&mut self) -> V::Output {
        self.check_reference(ReferenceOp::I31Get(Signed))
    }

    fn visit_i31_get_u(&mut self) -> V::Output {
        self.check_reference(ReferenceOp::I31Get(Unsigned))
    }

    fn visit_struct_new(&mut self, struct_type_index: u32) -> V::Output {
        self.check_struct(StructOp::StructNew(struct_type_index))
    }

    fn visit_struct_new_default(&mut self, struct_type_index: u32) -> V::Output {
        self.check_struct(StructOp::StructNewDefault(struct_type_index))
    }

    fn visit_struct_new_desc(&mut self, struct_type_index: u32) -> V::Output {
        self.check_struct(StructOp::StructNewDesc(struct_type_index))
    }

    fn visit_struct_new_default_desc(&mut self, struct_type_index: u32) -> V::Output {
        self.check_struct(StructOp::StructNewDefaultDesc(struct_type_index))
    }

    fn visit_struct_get(&mut self, struct_type_index: u32, field_index: u32) -> V::Output {
        self.check_struct(StructOp::StructGet(FieldIndex {
            struct_type_index,
            field_index,
        }))
    }

    fn visit_struct_get_s(&mut self, struct_type_index: u32, field_index: u32) -> V::Output {
        self.check_struct(StructOp::StructGetPacked(
            Signed,
            FieldIndex {
                struct_type_index,
                field_index,
            },
        ))
    }

    fn visit_struct_get_u(&mut self, struct_type_index: u32, field_index: u32) -> V::Output {
        self.check_struct(StructOp::StructGetPacked(
            Unsigned,
            FieldIndex {
                struct_type_index,
                field_index,
            },
        ))
    }

    fn visit_struct_set(&mut self, struct_type_index: u32, field_index: u32) -> V::Output {
        self.check_struct(StructOp::StructSet(FieldIndex {
            struct_type_index,
            field_index,
        }))
    }

    fn visit_array_new(&mut self, array_type_index: u32) -> V::Output {
        self.check_array(ArrayOp::ArrayNew(array_type_index))
    }

    fn visit_array_new_default(&mut self, array_type_index: u32) -> V::Output {
        self.check_array(ArrayOp::ArrayNewDefault(array_type_index))
    }

    fn visit_array_new_fixed(&mut self, array_type_index: u32, array_size: u32) -> V::Output {
        self.check_array(ArrayOp::ArrayNewFixed {
            array_type_index,
            array_size,
        })
    }

    fn visit_array_new_data(&mut self, array_type_index: u32, array_data_index: u32) -> V::Output {
        self.check_array(ArrayOp::ArrayNewData {
            array_type_index,
            array_data_index,
        })
    }

    fn visit_array_new_elem(&mut self, array_type_index: u32, array_elem_index: u32) -> V::Output {
        self.check_array(ArrayOp::ArrayNewElem {
            array_type_index,
            array_elem_index,
        })
    }

    fn visit_array_get(&mut self, array_type_index: u32) -> V::Output {
        self.check_array(ArrayOp::ArrayGet(array_type_index))
    }

    fn visit_array_get_s(&mut self, array_type_index: u32) -> V::Output {
        self.check_array(ArrayOp::ArrayGetPacked(Signed, array_type_index))
    }

    fn visit_array_get_u(&mut self, array_type_index: u32) -> V::Output {
        self.check_array(ArrayOp::ArrayGetPacked(Unsigned, array_type_index))
    }

    fn visit_array_set(&mut self, array_type_index: u32) -> V::Output {
        self.check_array(ArrayOp::ArraySet(array_type_index))
    }

    fn visit_array_len(&mut self) -> V::Output {
        self.check_array(ArrayOp::ArrayLen)
    }

    fn visit_array_fill(&mut self, array_type_index: u32) -> V::Output {
        self.check_array(ArrayOp::ArrayFill(array_type_index))
    }

    fn visit_array_copy(
        &mut self,
        array_type_index_dst: u32,
        array_type_index_src: u32,
    ) -> V::Output {
        self.check_array(ArrayOp::ArrayCopy {
            array_type_index_dst,
            array_type_index_src,
        })
    }

    fn visit_array_init_data(&mut self, array_type_index: u32, array_data_index: u32) -> V::Output {
        self.check_array(ArrayOp::ArrayInitData {
            array_type_index,
            array_data_index,
        })
    }

    fn visit_array_init_elem(&mut self, array_type_index: u32, array_elem_index: u32) -> V::Output {
        self.check_array(ArrayOp::ArrayInitElem {
            array_type_index,
            array_elem_index,
        })
    }

    fn visit_try_table(&mut self, ty: TryTable<'a>) -> V::Output {
        self.check_exception(ExceptionOp::TryTable(ty))
    }

    fn visit_throw(&mut self, tag_index: u32) -> V::Output {
        self.check_exception(ExceptionOp::Throw(tag_index))
    }

    fn visit_throw_ref(&mut self) -> V::Output {
        self.check_exception(ExceptionOp::ThrowRef)
    }

    fn visit_try(&mut self, ty: BlockType) -> V::Output {
        self.check_exception(ExceptionOp::Try(ty))
    }

    fn visit_catch(&mut self, tag_index: u32) -> V::Output {
        self.check_exception(ExceptionOp::Catch(tag_index))
    }

    fn visit_catch_all(&mut self) -> V::Output {
        self.check_exception(ExceptionOp::CatchAll)
    }

    fn visit_delegate(&mut self, relative_depth: u32) -> V::Output {
        self.check_exception(ExceptionOp::Delegate(relative_depth))
    }

    fn visit_rethrow(&mut self, relative_depth: u32) -> V::Output {
        self.check_exception(ExceptionOp::Rethrow(relative_depth))
    }

    fn visit_cont_new(&mut self, type_index: u32) -> V::Output {
        self.check_continuation(ContinuationOp::ContNew(type_index))
    }

    fn visit_cont_bind(&mut self, argument_index: u32, result_index: u32) -> V::Output {
        self.check_continuation(ContinuationOp::ContBind {
            argument_index,
            result_index,
        })
    }

    fn visit_suspend(&mut self, tag_index: u32) -> V::Output {
        self.check_continuation(ContinuationOp::Suspend(tag_index))
    }

    fn visit_resume(&mut self, cont_type_index: u32, resume_table: ResumeTable<'a>) -> V::Output {
        self.check_continuation(ContinuationOp::Resume {
            cont_type_index,
            resume_table,
        })
    }

    fn visit_resume_throw(
        &mut self,
        cont_type_index: u32,
        tag_index: u32,
        resume_table: ResumeTable<'a>,
    ) -> V::Output {
        self.check_continuation(ContinuationOp::ResumeThrow {
            cont_type_index,
            tag_index,
            resume_table,
        })
    }

    fn visit_resume_throw_ref(
        &mut self,
        cont_type_index: u32,
        resume_table: ResumeTable<'a>,
    ) -> V::Output {
        self.check_continuation(ContinuationOp::ResumeThrowRef {
            cont_type_index,
            resume_table,
        })
    }

    fn visit_switch(&mut self, cont_type_index: u32, tag_index: u32) -> V::Output {
        self.check_continuation(ContinuationOp::Switch {
            cont_type_index,
            tag_index,
        })
    }

    fn visit_global_atomic_get(&mut self, ordering: Ordering, global_index: u32) -> V::Output {
        self.check_shared(SharedOp::Global {
            access: Update::Value(Exchange::Get),
            ordering,
            global_index,
        })
    }

    fn visit_global_atomic_set(&mut self, ordering: Ordering, global_index: u32) -> V::Output {
        self.check_shared(SharedOp::Global {
            access: Update::Value(Exchange::Set),
            ordering,
            global_index,
        })
    }

    fn visit_global_atomic_rmw_add(&mut self, ordering: Ordering, global_index: u32) -> V::Output {
        self.check_shared(SharedOp::Global {
            access: Update::Rmw(SharedRmwOp::Add),
            ordering,
            global_index,
        })
    }

    fn visit_global_atomic_rmw_sub(&mut self, ordering: Ordering, global_index: u32) -> V::Output {
        self.check_shared(SharedOp::Global {
            access: Update::Rmw(SharedRmwOp::Sub),
            ordering,
            global_index,
        })
    }

    fn visit_global_atomic_rmw_and(&mut self, ordering: Ordering, global_index: u32) -> V::Output {
        self.check_shared(SharedOp::Global {
            access: Update::Rmw(SharedRmwOp::And),
            ordering,
            global_index,
        })
    }

    fn visit_global_atomic_rmw_or(&mut self, ordering: Ordering, global_index: u32) -> V::Output {
        self.check_shared(SharedOp::Global {
            access: Update::Rmw(SharedRmwOp::Or),
            ordering,
            global_index,
        })
    }

    fn visit_global_atomic_rmw_xor(&mut self, ordering: Ordering, global_index: u32) -> V::Output {
        self.check_shared(SharedOp::Global {
            access: Update::Rmw(SharedRmwOp::Xor),
            ordering,
            global_index,
        })
    }

    fn visit_global_atomic_rmw_xchg(&mut self, ordering: Ordering, global_index: u32) -> V::Output {
        self.check_shared(SharedOp::Global {
            access: Update::Value(Exchange::Xchg),
            ordering,
            global_index,
        })
    }

    fn visit_global_atomic_rmw_cmpxchg(
        &mut self,
        ordering: Ordering,
        global_index: u32,
    ) -> V::Output {
        self.check_shared(SharedOp::Global {
            access: Update::Value(Exchange::Cmpxchg),
            ordering,
            global_index,
        })
    }

    fn visit_table_atomic_get(&mut self, ordering: Ordering, table: u32) -> V::Output {
        self.check_shared(SharedOp::Table {
            access: Exchange::Get,
            ordering,
            table_index: table,
        })
    }

    fn visit_table_atomic_set(&mut self, ordering: Ordering, table: u32) -> V::Output {
        self.check_shared(SharedOp::Table {
            access: Exchange::Set,
            ordering,
            table_index: table,
        })
    }

    fn visit_table_atomic_rmw_xchg(&mut self, ordering: Ordering, table: u32) -> V::Output {
        self.check_shared(SharedOp::Table {
            access: Exchange::Xchg,
            ordering,
            table_index: table,
        })
    }

    fn visit_table_atomic_rmw_cmpxchg(&mut self, ordering: Ordering, table: u32) -> V::Output {
        self.check_shared(SharedOp::Table {
            access: Exchange::Cmpxchg,
            ordering,
            table_index: table,
        })
    }

    fn visit_struct_atomic_get(
        &mut self,
        ordering: Ordering,
        struct_type_index: u32,
        field_index: u32,
    ) -> V::Output {
        self.check_shared(SharedOp::Struct {
            access: FieldAccess::Whole(Update::Value(Exchange::Get)),
            ordering,
            field: FieldIndex {
                struct_type_index,
                field_index,
            },
        })
    }

    fn visit_struct_atomic_get_s(
        &mut self,
        ordering: Ordering,
        struct_type_index: u32,
        field_index: u32,
    ) -> V::Output {
        self.check_shared(SharedOp::Struct {
            access: FieldAccess::GetPacked(Signed),
            ordering,
            field: FieldIndex {
                struct_type_index,
                field_index,
            },
        })
    }

    fn visit_struct_atomic_get_u(
        &mut self,
        ordering: Ordering,
        struct_type_index: u32,
        field_index: u32,
    ) -> V::Output {
        self.check_shared(SharedOp::Struct {
            access: FieldAccess::GetPacked(Unsigned),
            ordering,
            field: FieldIndex {
                struct_type_index,
                field_index,
            },
        })
    }

    fn visit_struct_atomic_set(
        &mut self,
        ordering: Ordering,
        struct_type_index: u32,
        field_index: u32,
    ) -> V::Output {
        self.check_shared(SharedOp::Struct {
            access: FieldAccess::Whole(Update::Value(Exchange::Set)),
            ordering,
            field: FieldIndex {
                struct_type_index,
                field_index,
            },
        })
    }

    fn visit_struct_atomic_rmw_add(
        &mut self,
        ordering: Ordering,
        struct_type_index: u32,
        field_index: u32,
    ) -> V::Output {
        self.check_shared(SharedOp::Struct {
            access: FieldAccess::Whole(Update::Rmw(SharedRmwOp::Add)),
            ordering,
            field: FieldIndex {
                struct_type_index,
                field_index,
            },
        })
    }

    fn visit_struct_atomic_rmw_sub(
        &mut self,
        ordering: Ordering,
        struct_type_index: u32,
        field_index: u32,
    ) -> V::Output {
        self.check_shared(SharedOp::Struct {
            access: FieldAccess::Whole(Update::Rmw(SharedRmwOp::Sub)),
            ordering,
            field: FieldIndex {
                struct_type_index,
                field_index,
            },
        })
    }

    fn visit_struct_atomic_rmw_and(
        &mut self,
        ordering: Ordering,
        struct_type_index: u32,
        field_index: u32,
    ) -> V::Output {
        self.check_shared(SharedOp::Struct {
            access: FieldAccess::Whole(Update::Rmw(SharedRmwOp::And)),
            ordering,
            field: FieldIndex {
                struct_type_index,
                field_index,
            },
        })
    }

    fn visit_struct_atomic_rmw_or(
        &mut self,
        ordering: Ordering,
        struct_type_index: u32,
        field_index: u32,
    ) -> V::Output {
        self.check_shared(SharedOp::Struct {
            access: FieldAccess::Whole(Update::Rmw(SharedRmwOp::Or)),
            ordering,
            field: FieldIndex {
                struct_type_index,
                field_index,
            },
        })
    }

    fn visit_struct_atomic_rmw_xor(
        &mut self,
        ordering: Ordering,
        struct_type_index: u32,
        field_index: u32,
    ) -> V::Output {
        self.check_shared(SharedOp::Struct {
            access: FieldAccess::Whole(Update::Rmw(SharedRmwOp::Xor)),
            ordering,
            field: FieldIndex {
                struct_type_index,
                field_index,
            },
        })
    }

    fn visit_struct_atomic_rmw_xchg(
        &mut self,
        ordering: Ordering,
        struct_type_index: u32,
        field_index: u32,
    ) -> V::Output {
        self.check_shared(SharedOp::Struct {
            access: FieldAccess::Whole(Update::Value(Exchange::Xchg)),
            ordering,
            field: FieldIndex {
                struct_type_index,
                field_index,
            },
        })
    }

    fn visit_struct_atomic_rmw_cmpxchg(
        &mut self,
        ordering: Ordering,
        struct_type_index: u32,
        field_index: u32,
    ) -> V::Output {
        self.check_shared(SharedOp::Struct {
            access: FieldAccess::Whole(Update::Value(Exchange::Cmpxchg)),
            ordering,
            field: FieldIndex {
                struct_type_index,
                field_index,
            },
        })
    }

    fn visit_array_atomic_get(&mut self, ordering: Ordering, type_index: u32) -> V::Output {
        self.check_shared(SharedOp::Array {
            access: FieldAccess::Whole(Update::Value(Exchange::Get)),
            ordering,
            type_index,
        })
    }

    fn visit_array_atomic_get_s(&mut self, ordering: Ordering, type_index: u32) -> V::Output {
        self.check_shared(SharedOp::Array {
            access: FieldAccess::GetPacked(Signed),
            ordering,
            type_index,
        })
    }

    fn visit_array_atomic_get_u(&mut self, ordering: Ordering, type_index: u32) -> V::Output {
        self.check_shared(SharedOp::Array {
            access: FieldAccess::GetPacked(Unsigned),
            ordering,
            type_index,
        })
    }

    fn visit_array_atomic_set(&mut self, ordering: Ordering, type_index: u32) -> V::Output {
        self.check_shared(SharedOp::Array {
            access: FieldAccess::Whole(Update::Value(Exchange::Set)),
            ordering,
            type_index,
        })
    }

    fn visit_array_atomic_rmw_add(&mut self, ordering: Ordering, type_index: u32) -> V::Output {
        self.check_shared(SharedOp::Array {
            access: FieldAccess::Whole(Update::Rmw(SharedRmwOp::Add)),
            ordering,
            type_index,
        })
    }

    fn visit_array_atomic_rmw_sub(&mut self, ordering: Ordering, type_index: u32) -> V::Output {
        self.check_shared(SharedOp::Array {
            access: FieldAccess::Whole(Update::Rmw(SharedRmwOp::Sub)),
            ordering,
            type_index,
        })
    }

    fn visit_array_atomic_rmw_and(&mut self, ordering: Ordering, type_index: u32) -> V::Output {
        self.check_shared(SharedOp::Array {
            access: FieldAccess::Whole(Update::Rmw(SharedRmwOp::And)),
            ordering,
            type_index,
        })
    }

    fn visit_array_atomic_rmw_or(&mut self, ordering: Ordering, type_index: u32) -> V::Output {
        self.check_shared(SharedOp::Array {
            access: FieldAccess::Whole(Update::Rmw(SharedRmwOp::Or)),
            ordering,
            type_index,
        })
    }

    fn visit_array_atomic_rmw_xor(&mut self, ordering: Ordering, type_index: u32) -> V::Output {
        self.check_shared(SharedOp::Array {
            access: FieldAccess::Whole(Update::Rmw(SharedRmwOp::Xor)),
            ordering,
            type_index,
        })
    }

    fn visit_array_atomic_rmw_xchg(&mut self, ordering: Ordering, type_index: u32) -> V::Output {
        self.check_shared(SharedOp::Array {
            access: FieldAccess::Whole(Update::Value(Exchange::Xchg)),
            ordering,
            type_index,
        })
    }

    fn visit_array_atomic_rmw_cmpxchg(&mut self, ordering: Ordering, type_index: u32) -> V::Output {
        self.check_shared(SharedOp::Array {
            access: FieldAccess::Whole(Update::Value(Exchange::Cmpxchg)),
            ordering,
            type_index,
        })
    }

    fn visit_ref_i31_shared(&mut self) -> V::Output {
        self.check_shared(SharedOp::RefI31Shared)
    }

    fn visit_operator(&mut self, op: Op<'a>) -> V::Output {
        self.check_operator(op)
    }
}
