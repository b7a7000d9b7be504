//! The visitor of operators.
//!
//! `.ci/generate` writes the visits from `operators.tsv`; by hand are the rest of the trait and
//! what it uses.

ghost use Rattle.validate_visit.specs.declared.op.Op.{Op};
ghost use Rattle.validate_visit.specs.declared.op.Op.TheVariants.{Numeric, Atomic};
ghost use Rattle.validate_visit.specs.declared.op.NumericOp.TheVariants.{Add128, Eqz, F32Const, F64Const, FloatBinary, FloatComparison, FloatUnary, I32Const, I64Const, IntegerBinary, IntegerComparison, IntegerUnary, MulWide, Sub128};
ghost use Rattle.validate_visit.specs.declared.op.AtomicOp.TheVariants.{AtomicCmpxchg, AtomicFence, AtomicLoad, AtomicNotify, AtomicRmw, AtomicStore, AtomicWait, Pause};
ghost use Rattle.validate_visit.specs.declared.memory.AtomicAccess.TheVariants.{Packed, Whole};
ghost use Rattle.validate_visit.specs.declared.numbers.PackedInteger.TheVariants.{I32Bits8, I32Bits16, I64Bits8, I64Bits16, I64Bits32};
ghost use Rattle.validate_visit.specs.declared.numbers.Sign.TheVariants.{Signed, Unsigned};

use validate_types::{HeapType, RefType, ValType};
use validate_visit::{
    ArrayOp, AtomicRmwOp, BlockType, BrTable, ContinuationOp, ControlOp, ConvertOp, ExceptionOp,
    Exchange, FieldAccess, FloatBinaryOp, FloatComparisonOp, FloatType, FloatUnaryOp, Ieee32,
    Ieee64, IntegerBinaryOp, IntegerComparisonOp, IntegerType, IntegerUnaryOp, MemArg, MemoryOp,
    NumberType, Op, Ordering, ReferenceOp, ResumeTable, SharedOp, SharedRmwOp, StructOp, TableOp,
    TryTable, Update,
};

/// Visits operators (wasmparser's `VisitOperator`): one call for each operator, with its immediates. Whatever
/// checks operators by their groups has it (`OperatorChecks`), as the validator does.
///
/// Its meaning is two relations that the implementation gives: `can_visit` says at which visitors an
/// operator may be visited, and `visits` what the visit answers and leaves.
///
/// Of the validator `can_visit` is the same for each operator: a frame is open (`control_stack_height()`
/// isn't 0); the lookup is the one that the validator was made with, the same for each visit; and no attempt
/// is pending, or the pending one has done no more than move operands (where `can_attempt()` answers true, it
/// has done nothing). Nothing is asked of the operator. Where an `else`, `catch`, `catch_all` or `delegate`
/// can't stand in the innermost frame, and where an index names nothing in the module, the visit refuses. A
/// reader of binary modules asks `current_frame()` before those four, since there the module is malformed.
///
/// The doc of each visit gives the operator's row, in the notation of the WebAssembly specification: the
/// types that it takes from the operand stack, the last on top, and those that it pushes. `t*` is a list of
/// types, and in `(ref null N)` the type N is the one at the index among the immediates. A packed type, `i8`
/// or `i16`, is `i32` as an operand: that is its unpacked type. A type among the immediates is valid where
/// its indices are those of types of the module, and its proposals are on.
///
/// Each visit of the validator refuses, and its doc doesn't repeat:
/// - operands that don't fit the row: `type mismatch: expected X, found Y`, `type mismatch: expected X but
///   nothing on stack`, or another text that begins with `type mismatch`. In dead code an operand that isn't
///   there fits any type.
/// - an operator whose proposal is off: `X support is not enabled`, where X is the proposal that the doc
///   names. Operators whose names begin with `f32.` or `f64.` need `floats`: `floating-point instruction
///   disallowed`.
/// - in the body of a shared function, what an index names and isn't shared: a function that is called, a
///   table, a global, or a type, but for those in reference types (proposal: shared-everything-threads).
/// - an operator that no memory was found for: `is_out_of_memory` of the refusal answers true.
///
/// Each refusal carries the offset that was handed in to `with_resources`. What else an operator refuses is
/// said at its visit.
///
/// The natural alignment of a load or a store is `max_align` of its immediates. One that isn't atomic may
/// access an array of the type N in the place of a memory. Then `(ref null N) i32` stands for a, and it
/// refuses elements that are references, elements that aren't mutable where it stores, and any offset of 2^32
/// or more. Proposal: multibyte array access.
///
/// The handlers of `resume`, `resume_throw` and `resume_throw_ref` fit where their tags and labels are there,
/// and each goes to a label that takes the parameters of the tag and a continuation, which takes the results
/// of the tag and gives u*, or is for `switch`, with a tag of the type `[] -> [u*]`.
pub trait VisitOperator<'a> {
    /// What a visit answers.
    type Output;

    /// The condition of a visit.
    ghost can_visit: { Self → Op → Type 0 };

    /// What a visit answers, and the visitor that it leaves.
    ghost visits: { Self → Op → Self.Output → Self → Type 0 };

    /// `unreachable`: `[t*] -> [v*]`, where t* and v* are any types: the code after it is dead. Refuses
    /// nothing.
    fn visit_unreachable(&mut self) -> Self::Output
        requires { can_visit self.old (Op.Control ControlOp.Unreachable) }
        ensures { visits self.old (Op.Control ControlOp.Unreachable) result self.new };

    /// `nop`: `[] -> []`. Refuses nothing.
    fn visit_nop(&mut self) -> Self::Output
        requires { can_visit self.old (Op.Control ControlOp.Nop) }
        ensures { visits self.old (Op.Control ControlOp.Nop) result self.new };

    /// `block`: `[t*] -> [u*]`, the block type. Takes t* and opens a frame that owns them; `end` gives
    /// u*, and so does a branch to its label. Refuses a value type that isn't valid, an index that names
    /// no function type, and any index where `multi_value` is off.
    fn visit_block(&mut self, ty: BlockType) -> Self::Output
        requires { can_visit self.old (Op.Control (ControlOp.Block ty)) }
        ensures { visits self.old (Op.Control (ControlOp.Block ty)) result self.new };

    /// `loop`: `[t*] -> [u*]`, the block type, as `block`, but that a branch to its label carries t*.
    /// Refuses a value type that isn't valid, an index that names no function type, and any index where
    /// `multi_value` is off.
    fn visit_loop(&mut self, ty: BlockType) -> Self::Output
        requires { can_visit self.old (Op.Control (ControlOp.Loop ty)) }
        ensures { visits self.old (Op.Control (ControlOp.Loop ty)) result self.new };

    /// `if`: `[t* i32] -> [u*]`, where `[t*] -> [u*]` is the block type, as `block`. Refuses a value type
    /// that isn't valid, an index that names no function type, and any index where `multi_value` is off.
    fn visit_if(&mut self, ty: BlockType) -> Self::Output
        requires { can_visit self.old (Op.Control (ControlOp.If ty)) }
        ensures { visits self.old (Op.Control (ControlOp.If ty)) result self.new };

    /// `else`: `[u*] -> [t*]`, where `[t*] -> [u*]` is the type of the innermost frame, which begins its
    /// other part. Refuses operands left below u*, and a frame that isn't the first part of an `if`.
    fn visit_else(&mut self) -> Self::Output
        requires { can_visit self.old (Op.Control ControlOp.Else) }
        ensures { visits self.old (Op.Control ControlOp.Else) result self.new };

    /// `end`: `[u*] -> [u*]`, where u* are the results of the innermost frame, which it closes. Refuses
    /// operands left below u*, and an `if` without `else` whose parameters don't fit its results.
    fn visit_end(&mut self) -> Self::Output
        requires { can_visit self.old (Op.Control ControlOp.End) }
        ensures { visits self.old (Op.Control ControlOp.End) result self.new };

    /// `br`: `[t* u*] -> [v*]`, where u* are the types of the label, and t* and v* any types: the code
    /// after it is dead. Refuses a label that isn't there.
    fn visit_br(&mut self, relative_depth: u32) -> Self::Output
        requires { can_visit self.old (Op.Control (ControlOp.Br relative_depth)) }
        ensures { visits self.old (Op.Control (ControlOp.Br relative_depth)) result self.new };

    /// `br_if`: `[t* i32] -> [t*]`, where t* are the types of the label. Refuses a label that isn't
    /// there.
    fn visit_br_if(&mut self, relative_depth: u32) -> Self::Output
        requires { can_visit self.old (Op.Control (ControlOp.BrIf relative_depth)) }
        ensures { visits self.old (Op.Control (ControlOp.BrIf relative_depth)) result self.new };

    /// `br_table`: `[t* u* i32] -> [v*]`, where u* are the types of the default label, and t* and v* any
    /// types: the code after it is dead. Refuses a label that isn't there, one of another number of types
    /// or of types that the operands don't fit, and a table that isn't complete.
    fn visit_br_table(&mut self, targets: BrTable<'a>) -> Self::Output
        requires { can_visit self.old (Op.Control (ControlOp.BrTable targets)) }
        ensures { visits self.old (Op.Control (ControlOp.BrTable targets.entry)) result self.new };

    /// `return`: `[t* u*] -> [v*]`, where u* are the results of the body, and t* and v* any types: the
    /// code after it is dead.
    fn visit_return(&mut self) -> Self::Output
        requires { can_visit self.old (Op.Control ControlOp.Return) }
        ensures { visits self.old (Op.Control ControlOp.Return) result self.new };

    /// `call`: `[t*] -> [u*]`, the type of the function. Refuses a function that isn't there.
    fn visit_call(&mut self, function_index: u32) -> Self::Output
        requires { can_visit self.old (Op.Control (ControlOp.Call function_index)) }
        ensures { visits self.old (Op.Control (ControlOp.Call function_index)) result self.new };

    /// `return_call`: `[t* u*] -> [v*]`, where u* are the parameters of the function, and t* and v* any
    /// types: the code after it is dead. Proposal: tail calls. Refuses a function that isn't there, and
    /// results that don't fit the body's.
    fn visit_return_call(&mut self, function_index: u32) -> Self::Output
        requires { can_visit self.old (Op.Control (ControlOp.ReturnCall function_index)) }
        ensures { visits self.old (Op.Control (ControlOp.ReturnCall function_index)) result self.new };

    /// `call_indirect`: `[t* a] -> [u*]`, where `[t*] -> [u*]` is the function type and a the address
    /// type of the table. Refuses a table that isn't there or doesn't hold functions, and an index that
    /// names no function type.
    fn visit_call_indirect(&mut self, type_index: u32, table_index: u32) -> Self::Output
        requires { can_visit self.old (Op.Control (ControlOp.CallIndirect type_index table_index)) }
        ensures { visits self.old
            (Op.Control (ControlOp.CallIndirect type_index table_index)) result self.new };

    /// `return_call_indirect`: `[t* u* a] -> [v*]`, where u* are the parameters of the function type, a
    /// is the address type of the table, and t* and v* any types: the code after it is dead. Proposal:
    /// tail calls. Refuses as `call_indirect`, and results that don't fit the body's.
    fn visit_return_call_indirect(&mut self, type_index: u32, table_index: u32) -> Self::Output
        requires { can_visit self.old (Op.Control (ControlOp.ReturnCallIndirect type_index table_index)) }
        ensures { visits self.old
            (Op.Control (ControlOp.ReturnCallIndirect type_index table_index)) result self.new };

    /// `call_ref`: `[t* (ref null N)] -> [u*]`, where `[t*] -> [u*]` is the function type N. Proposal:
    /// function references. Refuses an index that names no function type.
    fn visit_call_ref(&mut self, type_index: u32) -> Self::Output
        requires { can_visit self.old (Op.Control (ControlOp.CallRef type_index)) }
        ensures { visits self.old (Op.Control (ControlOp.CallRef type_index)) result self.new };

    /// `return_call_ref`: `[t* u* (ref null N)] -> [v*]`, where u* are the parameters of the function
    /// type N, and t* and v* any types: the code after it is dead. Proposal: function references. Refuses
    /// an index that names no function type, and results that don't fit the body's.
    fn visit_return_call_ref(&mut self, type_index: u32) -> Self::Output
        requires { can_visit self.old (Op.Control (ControlOp.ReturnCallRef type_index)) }
        ensures { visits self.old (Op.Control (ControlOp.ReturnCallRef type_index)) result self.new };

    /// `drop`: `[t] -> []`, where t is any type.
    fn visit_drop(&mut self) -> Self::Output
        requires { can_visit self.old (Op.Control ControlOp.Drop) }
        ensures { visits self.old (Op.Control ControlOp.Drop) result self.new };

    /// `select`: `[t t i32] -> [t]`, where t is any type of numbers or vectors. Refuses references, and
    /// two operands of different types.
    fn visit_select(&mut self) -> Self::Output
        requires { can_visit self.old (Op.Control ControlOp.Select) }
        ensures { visits self.old (Op.Control ControlOp.Select) result self.new };

    /// `select (result t)`: `[t t i32] -> [t]`. Proposal: reference types. Refuses a type that isn't
    /// valid.
    fn visit_typed_select(&mut self, ty: ValType) -> Self::Output
        requires { can_visit self.old (Op.Control (ControlOp.TypedSelect ty)) }
        ensures { visits self.old (Op.Control (ControlOp.TypedSelect ty)) result self.new };

    /// `select (result t*)`, where t* aren't one type. Proposal: reference types. Always refused, with
    /// `invalid result arity`.
    fn visit_typed_select_multi(&mut self, tys: &'a [ValType]) -> Self::Output
        requires { can_visit self.old (Op.Control (ControlOp.TypedSelectMulti tys)) }
        ensures { visits self.old (Op.Control (ControlOp.TypedSelectMulti tys.entry)) result self.new };

    /// `local.get`: `[] -> [t]`, where t is the type of the local. Refuses a local that isn't there, and
    /// one that isn't set.
    fn visit_local_get(&mut self, local_index: u32) -> Self::Output
        requires { can_visit self.old (Op.Control (ControlOp.LocalGet local_index)) }
        ensures { visits self.old (Op.Control (ControlOp.LocalGet local_index)) result self.new };

    /// `local.set`: `[t] -> []`, where t is the type of the local, which is set from here to the end of
    /// the frame. Refuses a local that isn't there.
    fn visit_local_set(&mut self, local_index: u32) -> Self::Output
        requires { can_visit self.old (Op.Control (ControlOp.LocalSet local_index)) }
        ensures { visits self.old (Op.Control (ControlOp.LocalSet local_index)) result self.new };

    /// `local.tee`: `[t] -> [t]`, where t is the type of the local, which is set from here to the end of
    /// the frame. Refuses a local that isn't there.
    fn visit_local_tee(&mut self, local_index: u32) -> Self::Output
        requires { can_visit self.old (Op.Control (ControlOp.LocalTee local_index)) }
        ensures { visits self.old (Op.Control (ControlOp.LocalTee local_index)) result self.new };

    /// `global.get`: `[] -> [t]`, where t is the type of the global. Refuses a global that isn't there.
    fn visit_global_get(&mut self, global_index: u32) -> Self::Output
        requires { can_visit self.old (Op.Control (ControlOp.GlobalGet global_index)) }
        ensures { visits self.old (Op.Control (ControlOp.GlobalGet global_index)) result self.new };

    /// `global.set`: `[t] -> []`, where t is the type of the global. Refuses a global that isn't there,
    /// and one that isn't mutable.
    fn visit_global_set(&mut self, global_index: u32) -> Self::Output
        requires { can_visit self.old (Op.Control (ControlOp.GlobalSet global_index)) }
        ensures { visits self.old (Op.Control (ControlOp.GlobalSet global_index)) result self.new };

    /// `i32.const`: `[] -> [i32]`.
    fn visit_i32_const(&mut self, value: i32) -> Self::Output
        requires { can_visit self.old (Numeric (I32Const value)) }
        ensures { visits self.old (Numeric (I32Const value)) result self.new };

    /// `i64.const`: `[] -> [i64]`.
    fn visit_i64_const(&mut self, value: i64) -> Self::Output
        requires { can_visit self.old (Numeric (I64Const value)) }
        ensures { visits self.old (Numeric (I64Const value)) result self.new };

    /// `f32.const`: `[] -> [f32]`.
    fn visit_f32_const(&mut self, value: Ieee32) -> Self::Output
        requires { can_visit self.old (Numeric (F32Const value)) }
        ensures { visits self.old (Numeric (F32Const value)) result self.new };

    /// `f64.const`: `[] -> [f64]`.
    fn visit_f64_const(&mut self, value: Ieee64) -> Self::Output
        requires { can_visit self.old (Numeric (F64Const value)) }
        ensures { visits self.old (Numeric (F64Const value)) result self.new };

    /// `i32.eqz`: `[i32] -> [i32]`.
    fn visit_i32_eqz(&mut self) -> Self::Output
        requires { can_visit self.old (Numeric (Eqz IntegerType.I32)) }
        ensures { visits self.old (Numeric (Eqz IntegerType.I32)) result self.new };

    /// `i32.eq`: `[i32 i32] -> [i32]`.
    fn visit_i32_eq(&mut self) -> Self::Output
        requires { can_visit self.old (Numeric (IntegerComparison IntegerType.I32 IntegerComparisonOp.Eq)) }
        ensures { visits self.old
            (Numeric (IntegerComparison IntegerType.I32 IntegerComparisonOp.Eq)) result self.new };

    /// `i32.ne`: `[i32 i32] -> [i32]`.
    fn visit_i32_ne(&mut self) -> Self::Output
        requires { can_visit self.old (Numeric (IntegerComparison IntegerType.I32 IntegerComparisonOp.Ne)) }
        ensures { visits self.old
            (Numeric (IntegerComparison IntegerType.I32 IntegerComparisonOp.Ne)) result self.new };

    /// `i32.lt_s`: `[i32 i32] -> [i32]`.
    fn visit_i32_lt_s(&mut self) -> Self::Output
        requires { can_visit self.old
            (Numeric (IntegerComparison IntegerType.I32 (IntegerComparisonOp.Lt Signed))) }
        ensures { visits self.old
            (Numeric (IntegerComparison IntegerType.I32 (IntegerComparisonOp.Lt Signed))) result self.new };

    /// `i32.lt_u`: `[i32 i32] -> [i32]`.
    fn visit_i32_lt_u(&mut self) -> Self::Output
        requires { can_visit self.old
            (Numeric (IntegerComparison IntegerType.I32 (IntegerComparisonOp.Lt Unsigned))) }
        ensures { visits self.old
            (Numeric (IntegerComparison IntegerType.I32 (IntegerComparisonOp.Lt Unsigned))) result self.new };

    /// `i32.gt_s`: `[i32 i32] -> [i32]`.
    fn visit_i32_gt_s(&mut self) -> Self::Output
        requires { can_visit self.old
            (Numeric (IntegerComparison IntegerType.I32 (IntegerComparisonOp.Gt Signed))) }
        ensures { visits self.old
            (Numeric (IntegerComparison IntegerType.I32 (IntegerComparisonOp.Gt Signed))) result self.new };

    /// `i32.gt_u`: `[i32 i32] -> [i32]`.
    fn visit_i32_gt_u(&mut self) -> Self::Output
        requires { can_visit self.old
            (Numeric (IntegerComparison IntegerType.I32 (IntegerComparisonOp.Gt Unsigned))) }
        ensures { visits self.old
            (Numeric (IntegerComparison IntegerType.I32 (IntegerComparisonOp.Gt Unsigned))) result self.new };

    /// `i32.le_s`: `[i32 i32] -> [i32]`.
    fn visit_i32_le_s(&mut self) -> Self::Output
        requires { can_visit self.old
            (Numeric (IntegerComparison IntegerType.I32 (IntegerComparisonOp.Le Signed))) }
        ensures { visits self.old
            (Numeric (IntegerComparison IntegerType.I32 (IntegerComparisonOp.Le Signed))) result self.new };

    /// `i32.le_u`: `[i32 i32] -> [i32]`.
    fn visit_i32_le_u(&mut self) -> Self::Output
        requires { can_visit self.old
            (Numeric (IntegerComparison IntegerType.I32 (IntegerComparisonOp.Le Unsigned))) }
        ensures { visits self.old
            (Numeric (IntegerComparison IntegerType.I32 (IntegerComparisonOp.Le Unsigned))) result self.new };

    /// `i32.ge_s`: `[i32 i32] -> [i32]`.
    fn visit_i32_ge_s(&mut self) -> Self::Output
        requires { can_visit self.old
            (Numeric (IntegerComparison IntegerType.I32 (IntegerComparisonOp.Ge Signed))) }
        ensures { visits self.old
            (Numeric (IntegerComparison IntegerType.I32 (IntegerComparisonOp.Ge Signed))) result self.new };

    /// `i32.ge_u`: `[i32 i32] -> [i32]`.
    fn visit_i32_ge_u(&mut self) -> Self::Output
        requires { can_visit self.old
            (Numeric (IntegerComparison IntegerType.I32 (IntegerComparisonOp.Ge Unsigned))) }
        ensures { visits self.old
            (Numeric (IntegerComparison IntegerType.I32 (IntegerComparisonOp.Ge Unsigned))) result self.new };

    /// `i64.eqz`: `[i64] -> [i32]`.
    fn visit_i64_eqz(&mut self) -> Self::Output
        requires { can_visit self.old (Numeric (Eqz IntegerType.I64)) }
        ensures { visits self.old (Numeric (Eqz IntegerType.I64)) result self.new };

    /// `i64.eq`: `[i64 i64] -> [i32]`.
    fn visit_i64_eq(&mut self) -> Self::Output
        requires { can_visit self.old (Numeric (IntegerComparison IntegerType.I64 IntegerComparisonOp.Eq)) }
        ensures { visits self.old
            (Numeric (IntegerComparison IntegerType.I64 IntegerComparisonOp.Eq)) result self.new };

    /// `i64.ne`: `[i64 i64] -> [i32]`.
    fn visit_i64_ne(&mut self) -> Self::Output
        requires { can_visit self.old (Numeric (IntegerComparison IntegerType.I64 IntegerComparisonOp.Ne)) }
        ensures { visits self.old
            (Numeric (IntegerComparison IntegerType.I64 IntegerComparisonOp.Ne)) result self.new };

    /// `i64.lt_s`: `[i64 i64] -> [i32]`.
    fn visit_i64_lt_s(&mut self) -> Self::Output
        requires { can_visit self.old
            (Numeric (IntegerComparison IntegerType.I64 (IntegerComparisonOp.Lt Signed))) }
        ensures { visits self.old
            (Numeric (IntegerComparison IntegerType.I64 (IntegerComparisonOp.Lt Signed))) result self.new };

    /// `i64.lt_u`: `[i64 i64] -> [i32]`.
    fn visit_i64_lt_u(&mut self) -> Self::Output
        requires { can_visit self.old
            (Numeric (IntegerComparison IntegerType.I64 (IntegerComparisonOp.Lt Unsigned))) }
        ensures { visits self.old
            (Numeric (IntegerComparison IntegerType.I64 (IntegerComparisonOp.Lt Unsigned))) result self.new };

    /// `i64.gt_s`: `[i64 i64] -> [i32]`.
    fn visit_i64_gt_s(&mut self) -> Self::Output
        requires { can_visit self.old
            (Numeric (IntegerComparison IntegerType.I64 (IntegerComparisonOp.Gt Signed))) }
        ensures { visits self.old
            (Numeric (IntegerComparison IntegerType.I64 (IntegerComparisonOp.Gt Signed))) result self.new };

    /// `i64.gt_u`: `[i64 i64] -> [i32]`.
    fn visit_i64_gt_u(&mut self) -> Self::Output
        requires { can_visit self.old
            (Numeric (IntegerComparison IntegerType.I64 (IntegerComparisonOp.Gt Unsigned))) }
        ensures { visits self.old
            (Numeric (IntegerComparison IntegerType.I64 (IntegerComparisonOp.Gt Unsigned))) result self.new };

    /// `i64.le_s`: `[i64 i64] -> [i32]`.
    fn visit_i64_le_s(&mut self) -> Self::Output
        requires { can_visit self.old
            (Numeric (IntegerComparison IntegerType.I64 (IntegerComparisonOp.Le Signed))) }
        ensures { visits self.old
            (Numeric (IntegerComparison IntegerType.I64 (IntegerComparisonOp.Le Signed))) result self.new };

    /// `i64.le_u`: `[i64 i64] -> [i32]`.
    fn visit_i64_le_u(&mut self) -> Self::Output
        requires { can_visit self.old
            (Numeric (IntegerComparison IntegerType.I64 (IntegerComparisonOp.Le Unsigned))) }
        ensures { visits self.old
            (Numeric (IntegerComparison IntegerType.I64 (IntegerComparisonOp.Le Unsigned))) result self.new };

    /// `i64.ge_s`: `[i64 i64] -> [i32]`.
    fn visit_i64_ge_s(&mut self) -> Self::Output
        requires { can_visit self.old
            (Numeric (IntegerComparison IntegerType.I64 (IntegerComparisonOp.Ge Signed))) }
        ensures { visits self.old
            (Numeric (IntegerComparison IntegerType.I64 (IntegerComparisonOp.Ge Signed))) result self.new };

    /// `i64.ge_u`: `[i64 i64] -> [i32]`.
    fn visit_i64_ge_u(&mut self) -> Self::Output
        requires { can_visit self.old
            (Numeric (IntegerComparison IntegerType.I64 (IntegerComparisonOp.Ge Unsigned))) }
        ensures { visits self.old
            (Numeric (IntegerComparison IntegerType.I64 (IntegerComparisonOp.Ge Unsigned))) result self.new };

    /// `f32.eq`: `[f32 f32] -> [i32]`.
    fn visit_f32_eq(&mut self) -> Self::Output
        requires { can_visit self.old (Numeric (FloatComparison FloatType.F32 FloatComparisonOp.Eq)) }
        ensures { visits self.old
            (Numeric (FloatComparison FloatType.F32 FloatComparisonOp.Eq)) result self.new };

    /// `f32.ne`: `[f32 f32] -> [i32]`.
    fn visit_f32_ne(&mut self) -> Self::Output
        requires { can_visit self.old (Numeric (FloatComparison FloatType.F32 FloatComparisonOp.Ne)) }
        ensures { visits self.old
            (Numeric (FloatComparison FloatType.F32 FloatComparisonOp.Ne)) result self.new };

    /// `f32.lt`: `[f32 f32] -> [i32]`.
    fn visit_f32_lt(&mut self) -> Self::Output
        requires { can_visit self.old (Numeric (FloatComparison FloatType.F32 FloatComparisonOp.Lt)) }
        ensures { visits self.old
            (Numeric (FloatComparison FloatType.F32 FloatComparisonOp.Lt)) result self.new };

    /// `f32.gt`: `[f32 f32] -> [i32]`.
    fn visit_f32_gt(&mut self) -> Self::Output
        requires { can_visit self.old (Numeric (FloatComparison FloatType.F32 FloatComparisonOp.Gt)) }
        ensures { visits self.old
            (Numeric (FloatComparison FloatType.F32 FloatComparisonOp.Gt)) result self.new };

    /// `f32.le`: `[f32 f32] -> [i32]`.
    fn visit_f32_le(&mut self) -> Self::Output
        requires { can_visit self.old (Numeric (FloatComparison FloatType.F32 FloatComparisonOp.Le)) }
        ensures { visits self.old
            (Numeric (FloatComparison FloatType.F32 FloatComparisonOp.Le)) result self.new };

    /// `f32.ge`: `[f32 f32] -> [i32]`.
    fn visit_f32_ge(&mut self) -> Self::Output
        requires { can_visit self.old (Numeric (FloatComparison FloatType.F32 FloatComparisonOp.Ge)) }
        ensures { visits self.old
            (Numeric (FloatComparison FloatType.F32 FloatComparisonOp.Ge)) result self.new };

    /// `f64.eq`: `[f64 f64] -> [i32]`.
    fn visit_f64_eq(&mut self) -> Self::Output
        requires { can_visit self.old (Numeric (FloatComparison FloatType.F64 FloatComparisonOp.Eq)) }
        ensures { visits self.old
            (Numeric (FloatComparison FloatType.F64 FloatComparisonOp.Eq)) result self.new };

    /// `f64.ne`: `[f64 f64] -> [i32]`.
    fn visit_f64_ne(&mut self) -> Self::Output
        requires { can_visit self.old (Numeric (FloatComparison FloatType.F64 FloatComparisonOp.Ne)) }
        ensures { visits self.old
            (Numeric (FloatComparison FloatType.F64 FloatComparisonOp.Ne)) result self.new };

    /// `f64.lt`: `[f64 f64] -> [i32]`.
    fn visit_f64_lt(&mut self) -> Self::Output
        requires { can_visit self.old (Numeric (FloatComparison FloatType.F64 FloatComparisonOp.Lt)) }
        ensures { visits self.old
            (Numeric (FloatComparison FloatType.F64 FloatComparisonOp.Lt)) result self.new };

    /// `f64.gt`: `[f64 f64] -> [i32]`.
    fn visit_f64_gt(&mut self) -> Self::Output
        requires { can_visit self.old (Numeric (FloatComparison FloatType.F64 FloatComparisonOp.Gt)) }
        ensures { visits self.old
            (Numeric (FloatComparison FloatType.F64 FloatComparisonOp.Gt)) result self.new };

    /// `f64.le`: `[f64 f64] -> [i32]`.
    fn visit_f64_le(&mut self) -> Self::Output
        requires { can_visit self.old (Numeric (FloatComparison FloatType.F64 FloatComparisonOp.Le)) }
        ensures { visits self.old
            (Numeric (FloatComparison FloatType.F64 FloatComparisonOp.Le)) result self.new };

    /// `f64.ge`: `[f64 f64] -> [i32]`.
    fn visit_f64_ge(&mut self) -> Self::Output
        requires { can_visit self.old (Numeric (FloatComparison FloatType.F64 FloatComparisonOp.Ge)) }
        ensures { visits self.old
            (Numeric (FloatComparison FloatType.F64 FloatComparisonOp.Ge)) result self.new };

    /// `i32.clz`: `[i32] -> [i32]`.
    fn visit_i32_clz(&mut self) -> Self::Output
        requires { can_visit self.old (Numeric (IntegerUnary IntegerType.I32 IntegerUnaryOp.Clz)) }
        ensures { visits self.old
            (Numeric (IntegerUnary IntegerType.I32 IntegerUnaryOp.Clz)) result self.new };

    /// `i32.ctz`: `[i32] -> [i32]`.
    fn visit_i32_ctz(&mut self) -> Self::Output
        requires { can_visit self.old (Numeric (IntegerUnary IntegerType.I32 IntegerUnaryOp.Ctz)) }
        ensures { visits self.old
            (Numeric (IntegerUnary IntegerType.I32 IntegerUnaryOp.Ctz)) result self.new };

    /// `i32.popcnt`: `[i32] -> [i32]`.
    fn visit_i32_popcnt(&mut self) -> Self::Output
        requires { can_visit self.old (Numeric (IntegerUnary IntegerType.I32 IntegerUnaryOp.Popcnt)) }
        ensures { visits self.old
            (Numeric (IntegerUnary IntegerType.I32 IntegerUnaryOp.Popcnt)) result self.new };

    /// `i32.add`: `[i32 i32] -> [i32]`.
    fn visit_i32_add(&mut self) -> Self::Output
        requires { can_visit self.old (Numeric (IntegerBinary IntegerType.I32 IntegerBinaryOp.Add)) }
        ensures { visits self.old
            (Numeric (IntegerBinary IntegerType.I32 IntegerBinaryOp.Add)) result self.new };

    /// `i32.sub`: `[i32 i32] -> [i32]`.
    fn visit_i32_sub(&mut self) -> Self::Output
        requires { can_visit self.old (Numeric (IntegerBinary IntegerType.I32 IntegerBinaryOp.Sub)) }
        ensures { visits self.old
            (Numeric (IntegerBinary IntegerType.I32 IntegerBinaryOp.Sub)) result self.new };

    /// `i32.mul`: `[i32 i32] -> [i32]`.
    fn visit_i32_mul(&mut self) -> Self::Output
        requires { can_visit self.old (Numeric (IntegerBinary IntegerType.I32 IntegerBinaryOp.Mul)) }
        ensures { visits self.old
            (Numeric (IntegerBinary IntegerType.I32 IntegerBinaryOp.Mul)) result self.new };

    /// `i32.div_s`: `[i32 i32] -> [i32]`.
    fn visit_i32_div_s(&mut self) -> Self::Output
        requires { can_visit self.old (Numeric (IntegerBinary IntegerType.I32 (IntegerBinaryOp.Div Signed))) }
        ensures { visits self.old
            (Numeric (IntegerBinary IntegerType.I32 (IntegerBinaryOp.Div Signed))) result self.new };

    /// `i32.div_u`: `[i32 i32] -> [i32]`.
    fn visit_i32_div_u(&mut self) -> Self::Output
        requires { can_visit self.old
            (Numeric (IntegerBinary IntegerType.I32 (IntegerBinaryOp.Div Unsigned))) }
        ensures { visits self.old
            (Numeric (IntegerBinary IntegerType.I32 (IntegerBinaryOp.Div Unsigned))) result self.new };

    /// `i32.rem_s`: `[i32 i32] -> [i32]`.
    fn visit_i32_rem_s(&mut self) -> Self::Output
        requires { can_visit self.old (Numeric (IntegerBinary IntegerType.I32 (IntegerBinaryOp.Rem Signed))) }
        ensures { visits self.old
            (Numeric (IntegerBinary IntegerType.I32 (IntegerBinaryOp.Rem Signed))) result self.new };

    /// `i32.rem_u`: `[i32 i32] -> [i32]`.
    fn visit_i32_rem_u(&mut self) -> Self::Output
        requires { can_visit self.old
            (Numeric (IntegerBinary IntegerType.I32 (IntegerBinaryOp.Rem Unsigned))) }
        ensures { visits self.old
            (Numeric (IntegerBinary IntegerType.I32 (IntegerBinaryOp.Rem Unsigned))) result self.new };

    /// `i32.and`: `[i32 i32] -> [i32]`.
    fn visit_i32_and(&mut self) -> Self::Output
        requires { can_visit self.old (Numeric (IntegerBinary IntegerType.I32 IntegerBinaryOp.And)) }
        ensures { visits self.old
            (Numeric (IntegerBinary IntegerType.I32 IntegerBinaryOp.And)) result self.new };

    /// `i32.or`: `[i32 i32] -> [i32]`.
    fn visit_i32_or(&mut self) -> Self::Output
        requires { can_visit self.old (Numeric (IntegerBinary IntegerType.I32 IntegerBinaryOp.Or)) }
        ensures { visits self.old
            (Numeric (IntegerBinary IntegerType.I32 IntegerBinaryOp.Or)) result self.new };

    /// `i32.xor`: `[i32 i32] -> [i32]`.
    fn visit_i32_xor(&mut self) -> Self::Output
        requires { can_visit self.old (Numeric (IntegerBinary IntegerType.I32 IntegerBinaryOp.Xor)) }
        ensures { visits self.old
            (Numeric (IntegerBinary IntegerType.I32 IntegerBinaryOp.Xor)) result self.new };

    /// `i32.shl`: `[i32 i32] -> [i32]`.
    fn visit_i32_shl(&mut self) -> Self::Output
        requires { can_visit self.old (Numeric (IntegerBinary IntegerType.I32 IntegerBinaryOp.Shl)) }
        ensures { visits self.old
            (Numeric (IntegerBinary IntegerType.I32 IntegerBinaryOp.Shl)) result self.new };

    /// `i32.shr_s`: `[i32 i32] -> [i32]`.
    fn visit_i32_shr_s(&mut self) -> Self::Output
        requires { can_visit self.old (Numeric (IntegerBinary IntegerType.I32 (IntegerBinaryOp.Shr Signed))) }
        ensures { visits self.old
            (Numeric (IntegerBinary IntegerType.I32 (IntegerBinaryOp.Shr Signed))) result self.new };

    /// `i32.shr_u`: `[i32 i32] -> [i32]`.
    fn visit_i32_shr_u(&mut self) -> Self::Output
        requires { can_visit self.old
            (Numeric (IntegerBinary IntegerType.I32 (IntegerBinaryOp.Shr Unsigned))) }
        ensures { visits self.old
            (Numeric (IntegerBinary IntegerType.I32 (IntegerBinaryOp.Shr Unsigned))) result self.new };

    /// `i32.rotl`: `[i32 i32] -> [i32]`.
    fn visit_i32_rotl(&mut self) -> Self::Output
        requires { can_visit self.old (Numeric (IntegerBinary IntegerType.I32 IntegerBinaryOp.Rotl)) }
        ensures { visits self.old
            (Numeric (IntegerBinary IntegerType.I32 IntegerBinaryOp.Rotl)) result self.new };

    /// `i32.rotr`: `[i32 i32] -> [i32]`.
    fn visit_i32_rotr(&mut self) -> Self::Output
        requires { can_visit self.old (Numeric (IntegerBinary IntegerType.I32 IntegerBinaryOp.Rotr)) }
        ensures { visits self.old
            (Numeric (IntegerBinary IntegerType.I32 IntegerBinaryOp.Rotr)) result self.new };

    /// `i64.clz`: `[i64] -> [i64]`.
    fn visit_i64_clz(&mut self) -> Self::Output
        requires { can_visit self.old (Numeric (IntegerUnary IntegerType.I64 IntegerUnaryOp.Clz)) }
        ensures { visits self.old
            (Numeric (IntegerUnary IntegerType.I64 IntegerUnaryOp.Clz)) result self.new };

    /// `i64.ctz`: `[i64] -> [i64]`.
    fn visit_i64_ctz(&mut self) -> Self::Output
        requires { can_visit self.old (Numeric (IntegerUnary IntegerType.I64 IntegerUnaryOp.Ctz)) }
        ensures { visits self.old
            (Numeric (IntegerUnary IntegerType.I64 IntegerUnaryOp.Ctz)) result self.new };

    /// `i64.popcnt`: `[i64] -> [i64]`.
    fn visit_i64_popcnt(&mut self) -> Self::Output
        requires { can_visit self.old (Numeric (IntegerUnary IntegerType.I64 IntegerUnaryOp.Popcnt)) }
        ensures { visits self.old
            (Numeric (IntegerUnary IntegerType.I64 IntegerUnaryOp.Popcnt)) result self.new };

    /// `i64.add`: `[i64 i64] -> [i64]`.
    fn visit_i64_add(&mut self) -> Self::Output
        requires { can_visit self.old (Numeric (IntegerBinary IntegerType.I64 IntegerBinaryOp.Add)) }
        ensures { visits self.old
            (Numeric (IntegerBinary IntegerType.I64 IntegerBinaryOp.Add)) result self.new };

    /// `i64.sub`: `[i64 i64] -> [i64]`.
    fn visit_i64_sub(&mut self) -> Self::Output
        requires { can_visit self.old (Numeric (IntegerBinary IntegerType.I64 IntegerBinaryOp.Sub)) }
        ensures { visits self.old
            (Numeric (IntegerBinary IntegerType.I64 IntegerBinaryOp.Sub)) result self.new };

    /// `i64.mul`: `[i64 i64] -> [i64]`.
    fn visit_i64_mul(&mut self) -> Self::Output
        requires { can_visit self.old (Numeric (IntegerBinary IntegerType.I64 IntegerBinaryOp.Mul)) }
        ensures { visits self.old
            (Numeric (IntegerBinary IntegerType.I64 IntegerBinaryOp.Mul)) result self.new };

    /// `i64.div_s`: `[i64 i64] -> [i64]`.
    fn visit_i64_div_s(&mut self) -> Self::Output
        requires { can_visit self.old (Numeric (IntegerBinary IntegerType.I64 (IntegerBinaryOp.Div Signed))) }
        ensures { visits self.old
            (Numeric (IntegerBinary IntegerType.I64 (IntegerBinaryOp.Div Signed))) result self.new };

    /// `i64.div_u`: `[i64 i64] -> [i64]`.
    fn visit_i64_div_u(&mut self) -> Self::Output
        requires { can_visit self.old
            (Numeric (IntegerBinary IntegerType.I64 (IntegerBinaryOp.Div Unsigned))) }
        ensures { visits self.old
            (Numeric (IntegerBinary IntegerType.I64 (IntegerBinaryOp.Div Unsigned))) result self.new };

    /// `i64.rem_s`: `[i64 i64] -> [i64]`.
    fn visit_i64_rem_s(&mut self) -> Self::Output
        requires { can_visit self.old (Numeric (IntegerBinary IntegerType.I64 (IntegerBinaryOp.Rem Signed))) }
        ensures { visits self.old
            (Numeric (IntegerBinary IntegerType.I64 (IntegerBinaryOp.Rem Signed))) result self.new };

    /// `i64.rem_u`: `[i64 i64] -> [i64]`.
    fn visit_i64_rem_u(&mut self) -> Self::Output
        requires { can_visit self.old
            (Numeric (IntegerBinary IntegerType.I64 (IntegerBinaryOp.Rem Unsigned))) }
        ensures { visits self.old
            (Numeric (IntegerBinary IntegerType.I64 (IntegerBinaryOp.Rem Unsigned))) result self.new };

    /// `i64.and`: `[i64 i64] -> [i64]`.
    fn visit_i64_and(&mut self) -> Self::Output
        requires { can_visit self.old (Numeric (IntegerBinary IntegerType.I64 IntegerBinaryOp.And)) }
        ensures { visits self.old
            (Numeric (IntegerBinary IntegerType.I64 IntegerBinaryOp.And)) result self.new };

    /// `i64.or`: `[i64 i64] -> [i64]`.
    fn visit_i64_or(&mut self) -> Self::Output
        requires { can_visit self.old (Numeric (IntegerBinary IntegerType.I64 IntegerBinaryOp.Or)) }
        ensures { visits self.old
            (Numeric (IntegerBinary IntegerType.I64 IntegerBinaryOp.Or)) result self.new };

    /// `i64.xor`: `[i64 i64] -> [i64]`.
    fn visit_i64_xor(&mut self) -> Self::Output
        requires { can_visit self.old (Numeric (IntegerBinary IntegerType.I64 IntegerBinaryOp.Xor)) }
        ensures { visits self.old
            (Numeric (IntegerBinary IntegerType.I64 IntegerBinaryOp.Xor)) result self.new };

    /// `i64.shl`: `[i64 i64] -> [i64]`.
    fn visit_i64_shl(&mut self) -> Self::Output
        requires { can_visit self.old (Numeric (IntegerBinary IntegerType.I64 IntegerBinaryOp.Shl)) }
        ensures { visits self.old
            (Numeric (IntegerBinary IntegerType.I64 IntegerBinaryOp.Shl)) result self.new };

    /// `i64.shr_s`: `[i64 i64] -> [i64]`.
    fn visit_i64_shr_s(&mut self) -> Self::Output
        requires { can_visit self.old (Numeric (IntegerBinary IntegerType.I64 (IntegerBinaryOp.Shr Signed))) }
        ensures { visits self.old
            (Numeric (IntegerBinary IntegerType.I64 (IntegerBinaryOp.Shr Signed))) result self.new };

    /// `i64.shr_u`: `[i64 i64] -> [i64]`.
    fn visit_i64_shr_u(&mut self) -> Self::Output
        requires { can_visit self.old
            (Numeric (IntegerBinary IntegerType.I64 (IntegerBinaryOp.Shr Unsigned))) }
        ensures { visits self.old
            (Numeric (IntegerBinary IntegerType.I64 (IntegerBinaryOp.Shr Unsigned))) result self.new };

    /// `i64.rotl`: `[i64 i64] -> [i64]`.
    fn visit_i64_rotl(&mut self) -> Self::Output
        requires { can_visit self.old (Numeric (IntegerBinary IntegerType.I64 IntegerBinaryOp.Rotl)) }
        ensures { visits self.old
            (Numeric (IntegerBinary IntegerType.I64 IntegerBinaryOp.Rotl)) result self.new };

    /// `i64.rotr`: `[i64 i64] -> [i64]`.
    fn visit_i64_rotr(&mut self) -> Self::Output
        requires { can_visit self.old (Numeric (IntegerBinary IntegerType.I64 IntegerBinaryOp.Rotr)) }
        ensures { visits self.old
            (Numeric (IntegerBinary IntegerType.I64 IntegerBinaryOp.Rotr)) result self.new };

    /// `f32.abs`: `[f32] -> [f32]`.
    fn visit_f32_abs(&mut self) -> Self::Output
        requires { can_visit self.old (Numeric (FloatUnary FloatType.F32 FloatUnaryOp.Abs)) }
        ensures { visits self.old (Numeric (FloatUnary FloatType.F32 FloatUnaryOp.Abs)) result self.new };

    /// `f32.neg`: `[f32] -> [f32]`.
    fn visit_f32_neg(&mut self) -> Self::Output
        requires { can_visit self.old (Numeric (FloatUnary FloatType.F32 FloatUnaryOp.Neg)) }
        ensures { visits self.old (Numeric (FloatUnary FloatType.F32 FloatUnaryOp.Neg)) result self.new };

    /// `f32.ceil`: `[f32] -> [f32]`.
    fn visit_f32_ceil(&mut self) -> Self::Output
        requires { can_visit self.old (Numeric (FloatUnary FloatType.F32 FloatUnaryOp.Ceil)) }
        ensures { visits self.old (Numeric (FloatUnary FloatType.F32 FloatUnaryOp.Ceil)) result self.new };

    /// `f32.floor`: `[f32] -> [f32]`.
    fn visit_f32_floor(&mut self) -> Self::Output
        requires { can_visit self.old (Numeric (FloatUnary FloatType.F32 FloatUnaryOp.Floor)) }
        ensures { visits self.old (Numeric (FloatUnary FloatType.F32 FloatUnaryOp.Floor)) result self.new };

    /// `f32.trunc`: `[f32] -> [f32]`.
    fn visit_f32_trunc(&mut self) -> Self::Output
        requires { can_visit self.old (Numeric (FloatUnary FloatType.F32 FloatUnaryOp.Trunc)) }
        ensures { visits self.old (Numeric (FloatUnary FloatType.F32 FloatUnaryOp.Trunc)) result self.new };

    /// `f32.nearest`: `[f32] -> [f32]`.
    fn visit_f32_nearest(&mut self) -> Self::Output
        requires { can_visit self.old (Numeric (FloatUnary FloatType.F32 FloatUnaryOp.Nearest)) }
        ensures { visits self.old (Numeric (FloatUnary FloatType.F32 FloatUnaryOp.Nearest)) result self.new };

    /// `f32.sqrt`: `[f32] -> [f32]`.
    fn visit_f32_sqrt(&mut self) -> Self::Output
        requires { can_visit self.old (Numeric (FloatUnary FloatType.F32 FloatUnaryOp.Sqrt)) }
        ensures { visits self.old (Numeric (FloatUnary FloatType.F32 FloatUnaryOp.Sqrt)) result self.new };

    /// `f32.add`: `[f32 f32] -> [f32]`.
    fn visit_f32_add(&mut self) -> Self::Output
        requires { can_visit self.old (Numeric (FloatBinary FloatType.F32 FloatBinaryOp.Add)) }
        ensures { visits self.old (Numeric (FloatBinary FloatType.F32 FloatBinaryOp.Add)) result self.new };

    /// `f32.sub`: `[f32 f32] -> [f32]`.
    fn visit_f32_sub(&mut self) -> Self::Output
        requires { can_visit self.old (Numeric (FloatBinary FloatType.F32 FloatBinaryOp.Sub)) }
        ensures { visits self.old (Numeric (FloatBinary FloatType.F32 FloatBinaryOp.Sub)) result self.new };

    /// `f32.mul`: `[f32 f32] -> [f32]`.
    fn visit_f32_mul(&mut self) -> Self::Output
        requires { can_visit self.old (Numeric (FloatBinary FloatType.F32 FloatBinaryOp.Mul)) }
        ensures { visits self.old (Numeric (FloatBinary FloatType.F32 FloatBinaryOp.Mul)) result self.new };

    /// `f32.div`: `[f32 f32] -> [f32]`.
    fn visit_f32_div(&mut self) -> Self::Output
        requires { can_visit self.old (Numeric (FloatBinary FloatType.F32 FloatBinaryOp.Div)) }
        ensures { visits self.old (Numeric (FloatBinary FloatType.F32 FloatBinaryOp.Div)) result self.new };

    /// `f32.min`: `[f32 f32] -> [f32]`.
    fn visit_f32_min(&mut self) -> Self::Output
        requires { can_visit self.old (Numeric (FloatBinary FloatType.F32 FloatBinaryOp.Min)) }
        ensures { visits self.old (Numeric (FloatBinary FloatType.F32 FloatBinaryOp.Min)) result self.new };

    /// `f32.max`: `[f32 f32] -> [f32]`.
    fn visit_f32_max(&mut self) -> Self::Output
        requires { can_visit self.old (Numeric (FloatBinary FloatType.F32 FloatBinaryOp.Max)) }
        ensures { visits self.old (Numeric (FloatBinary FloatType.F32 FloatBinaryOp.Max)) result self.new };

    /// `f32.copysign`: `[f32 f32] -> [f32]`.
    fn visit_f32_copysign(&mut self) -> Self::Output
        requires { can_visit self.old (Numeric (FloatBinary FloatType.F32 FloatBinaryOp.Copysign)) }
        ensures { visits self.old
            (Numeric (FloatBinary FloatType.F32 FloatBinaryOp.Copysign)) result self.new };

    /// `f64.abs`: `[f64] -> [f64]`.
    fn visit_f64_abs(&mut self) -> Self::Output
        requires { can_visit self.old (Numeric (FloatUnary FloatType.F64 FloatUnaryOp.Abs)) }
        ensures { visits self.old (Numeric (FloatUnary FloatType.F64 FloatUnaryOp.Abs)) result self.new };

    /// `f64.neg`: `[f64] -> [f64]`.
    fn visit_f64_neg(&mut self) -> Self::Output
        requires { can_visit self.old (Numeric (FloatUnary FloatType.F64 FloatUnaryOp.Neg)) }
        ensures { visits self.old (Numeric (FloatUnary FloatType.F64 FloatUnaryOp.Neg)) result self.new };

    /// `f64.ceil`: `[f64] -> [f64]`.
    fn visit_f64_ceil(&mut self) -> Self::Output
        requires { can_visit self.old (Numeric (FloatUnary FloatType.F64 FloatUnaryOp.Ceil)) }
        ensures { visits self.old (Numeric (FloatUnary FloatType.F64 FloatUnaryOp.Ceil)) result self.new };

    /// `f64.floor`: `[f64] -> [f64]`.
    fn visit_f64_floor(&mut self) -> Self::Output
        requires { can_visit self.old (Numeric (FloatUnary FloatType.F64 FloatUnaryOp.Floor)) }
        ensures { visits self.old (Numeric (FloatUnary FloatType.F64 FloatUnaryOp.Floor)) result self.new };

    /// `f64.trunc`: `[f64] -> [f64]`.
    fn visit_f64_trunc(&mut self) -> Self::Output
        requires { can_visit self.old (Numeric (FloatUnary FloatType.F64 FloatUnaryOp.Trunc)) }
        ensures { visits self.old (Numeric (FloatUnary FloatType.F64 FloatUnaryOp.Trunc)) result self.new };

    /// `f64.nearest`: `[f64] -> [f64]`.
    fn visit_f64_nearest(&mut self) -> Self::Output
        requires { can_visit self.old (Numeric (FloatUnary FloatType.F64 FloatUnaryOp.Nearest)) }
        ensures { visits self.old (Numeric (FloatUnary FloatType.F64 FloatUnaryOp.Nearest)) result self.new };

    /// `f64.sqrt`: `[f64] -> [f64]`.
    fn visit_f64_sqrt(&mut self) -> Self::Output
        requires { can_visit self.old (Numeric (FloatUnary FloatType.F64 FloatUnaryOp.Sqrt)) }
        ensures { visits self.old (Numeric (FloatUnary FloatType.F64 FloatUnaryOp.Sqrt)) result self.new };

    /// `f64.add`: `[f64 f64] -> [f64]`.
    fn visit_f64_add(&mut self) -> Self::Output
        requires { can_visit self.old (Numeric (FloatBinary FloatType.F64 FloatBinaryOp.Add)) }
        ensures { visits self.old (Numeric (FloatBinary FloatType.F64 FloatBinaryOp.Add)) result self.new };

    /// `f64.sub`: `[f64 f64] -> [f64]`.
    fn visit_f64_sub(&mut self) -> Self::Output
        requires { can_visit self.old (Numeric (FloatBinary FloatType.F64 FloatBinaryOp.Sub)) }
        ensures { visits self.old (Numeric (FloatBinary FloatType.F64 FloatBinaryOp.Sub)) result self.new };

    /// `f64.mul`: `[f64 f64] -> [f64]`.
    fn visit_f64_mul(&mut self) -> Self::Output
        requires { can_visit self.old (Numeric (FloatBinary FloatType.F64 FloatBinaryOp.Mul)) }
        ensures { visits self.old (Numeric (FloatBinary FloatType.F64 FloatBinaryOp.Mul)) result self.new };

    /// `f64.div`: `[f64 f64] -> [f64]`.
    fn visit_f64_div(&mut self) -> Self::Output
        requires { can_visit self.old (Numeric (FloatBinary FloatType.F64 FloatBinaryOp.Div)) }
        ensures { visits self.old (Numeric (FloatBinary FloatType.F64 FloatBinaryOp.Div)) result self.new };

    /// `f64.min`: `[f64 f64] -> [f64]`.
    fn visit_f64_min(&mut self) -> Self::Output
        requires { can_visit self.old (Numeric (FloatBinary FloatType.F64 FloatBinaryOp.Min)) }
        ensures { visits self.old (Numeric (FloatBinary FloatType.F64 FloatBinaryOp.Min)) result self.new };

    /// `f64.max`: `[f64 f64] -> [f64]`.
    fn visit_f64_max(&mut self) -> Self::Output
        requires { can_visit self.old (Numeric (FloatBinary FloatType.F64 FloatBinaryOp.Max)) }
        ensures { visits self.old (Numeric (FloatBinary FloatType.F64 FloatBinaryOp.Max)) result self.new };

    /// `f64.copysign`: `[f64 f64] -> [f64]`.
    fn visit_f64_copysign(&mut self) -> Self::Output
        requires { can_visit self.old (Numeric (FloatBinary FloatType.F64 FloatBinaryOp.Copysign)) }
        ensures { visits self.old
            (Numeric (FloatBinary FloatType.F64 FloatBinaryOp.Copysign)) result self.new };

    /// `i64.add128`: `[i64 i64 i64 i64] -> [i64 i64]`. Proposal: wide arithmetic.
    fn visit_i64_add128(&mut self) -> Self::Output
        requires { can_visit self.old (Numeric Add128) }
        ensures { visits self.old (Numeric Add128) result self.new };

    /// `i64.sub128`: `[i64 i64 i64 i64] -> [i64 i64]`. Proposal: wide arithmetic.
    fn visit_i64_sub128(&mut self) -> Self::Output
        requires { can_visit self.old (Numeric Sub128) }
        ensures { visits self.old (Numeric Sub128) result self.new };

    /// `i64.mul_wide_s`: `[i64 i64] -> [i64 i64]`. Proposal: wide arithmetic.
    fn visit_i64_mul_wide_s(&mut self) -> Self::Output
        requires { can_visit self.old (Numeric (MulWide Signed)) }
        ensures { visits self.old (Numeric (MulWide Signed)) result self.new };

    /// `i64.mul_wide_u`: `[i64 i64] -> [i64 i64]`. Proposal: wide arithmetic.
    fn visit_i64_mul_wide_u(&mut self) -> Self::Output
        requires { can_visit self.old (Numeric (MulWide Unsigned)) }
        ensures { visits self.old (Numeric (MulWide Unsigned)) result self.new };

    /// `i32.wrap_i64`: `[i64] -> [i32]`.
    fn visit_i32_wrap_i64(&mut self) -> Self::Output
        requires { can_visit self.old (Op.Convert ConvertOp.Wrap) }
        ensures { visits self.old (Op.Convert ConvertOp.Wrap) result self.new };

    /// `i32.trunc_f32_s`: `[f32] -> [i32]`.
    fn visit_i32_trunc_f32_s(&mut self) -> Self::Output
        requires { can_visit self.old (Op.Convert (ConvertOp.Trunc IntegerType.I32 FloatType.F32 Signed)) }
        ensures { visits self.old
            (Op.Convert (ConvertOp.Trunc IntegerType.I32 FloatType.F32 Signed)) result self.new };

    /// `i32.trunc_f32_u`: `[f32] -> [i32]`.
    fn visit_i32_trunc_f32_u(&mut self) -> Self::Output
        requires { can_visit self.old (Op.Convert (ConvertOp.Trunc IntegerType.I32 FloatType.F32 Unsigned)) }
        ensures { visits self.old
            (Op.Convert (ConvertOp.Trunc IntegerType.I32 FloatType.F32 Unsigned)) result self.new };

    /// `i32.trunc_f64_s`: `[f64] -> [i32]`.
    fn visit_i32_trunc_f64_s(&mut self) -> Self::Output
        requires { can_visit self.old (Op.Convert (ConvertOp.Trunc IntegerType.I32 FloatType.F64 Signed)) }
        ensures { visits self.old
            (Op.Convert (ConvertOp.Trunc IntegerType.I32 FloatType.F64 Signed)) result self.new };

    /// `i32.trunc_f64_u`: `[f64] -> [i32]`.
    fn visit_i32_trunc_f64_u(&mut self) -> Self::Output
        requires { can_visit self.old (Op.Convert (ConvertOp.Trunc IntegerType.I32 FloatType.F64 Unsigned)) }
        ensures { visits self.old
            (Op.Convert (ConvertOp.Trunc IntegerType.I32 FloatType.F64 Unsigned)) result self.new };

    /// `i64.trunc_f32_s`: `[f32] -> [i64]`.
    fn visit_i64_trunc_f32_s(&mut self) -> Self::Output
        requires { can_visit self.old (Op.Convert (ConvertOp.Trunc IntegerType.I64 FloatType.F32 Signed)) }
        ensures { visits self.old
            (Op.Convert (ConvertOp.Trunc IntegerType.I64 FloatType.F32 Signed)) result self.new };

    /// `i64.trunc_f32_u`: `[f32] -> [i64]`.
    fn visit_i64_trunc_f32_u(&mut self) -> Self::Output
        requires { can_visit self.old (Op.Convert (ConvertOp.Trunc IntegerType.I64 FloatType.F32 Unsigned)) }
        ensures { visits self.old
            (Op.Convert (ConvertOp.Trunc IntegerType.I64 FloatType.F32 Unsigned)) result self.new };

    /// `i64.trunc_f64_s`: `[f64] -> [i64]`.
    fn visit_i64_trunc_f64_s(&mut self) -> Self::Output
        requires { can_visit self.old (Op.Convert (ConvertOp.Trunc IntegerType.I64 FloatType.F64 Signed)) }
        ensures { visits self.old
            (Op.Convert (ConvertOp.Trunc IntegerType.I64 FloatType.F64 Signed)) result self.new };

    /// `i64.trunc_f64_u`: `[f64] -> [i64]`.
    fn visit_i64_trunc_f64_u(&mut self) -> Self::Output
        requires { can_visit self.old (Op.Convert (ConvertOp.Trunc IntegerType.I64 FloatType.F64 Unsigned)) }
        ensures { visits self.old
            (Op.Convert (ConvertOp.Trunc IntegerType.I64 FloatType.F64 Unsigned)) result self.new };

    /// `i64.extend_i32_s`: `[i32] -> [i64]`.
    fn visit_i64_extend_i32_s(&mut self) -> Self::Output
        requires { can_visit self.old (Op.Convert (ConvertOp.Extend Signed)) }
        ensures { visits self.old (Op.Convert (ConvertOp.Extend Signed)) result self.new };

    /// `i64.extend_i32_u`: `[i32] -> [i64]`.
    fn visit_i64_extend_i32_u(&mut self) -> Self::Output
        requires { can_visit self.old (Op.Convert (ConvertOp.Extend Unsigned)) }
        ensures { visits self.old (Op.Convert (ConvertOp.Extend Unsigned)) result self.new };

    /// `f32.convert_i32_s`: `[i32] -> [f32]`.
    fn visit_f32_convert_i32_s(&mut self) -> Self::Output
        requires { can_visit self.old (Op.Convert (ConvertOp.Convert FloatType.F32 IntegerType.I32 Signed)) }
        ensures { visits self.old
            (Op.Convert (ConvertOp.Convert FloatType.F32 IntegerType.I32 Signed)) result self.new };

    /// `f32.convert_i32_u`: `[i32] -> [f32]`.
    fn visit_f32_convert_i32_u(&mut self) -> Self::Output
        requires { can_visit self.old
            (Op.Convert (ConvertOp.Convert FloatType.F32 IntegerType.I32 Unsigned)) }
        ensures { visits self.old
            (Op.Convert (ConvertOp.Convert FloatType.F32 IntegerType.I32 Unsigned)) result self.new };

    /// `f32.convert_i64_s`: `[i64] -> [f32]`.
    fn visit_f32_convert_i64_s(&mut self) -> Self::Output
        requires { can_visit self.old (Op.Convert (ConvertOp.Convert FloatType.F32 IntegerType.I64 Signed)) }
        ensures { visits self.old
            (Op.Convert (ConvertOp.Convert FloatType.F32 IntegerType.I64 Signed)) result self.new };

    /// `f32.convert_i64_u`: `[i64] -> [f32]`.
    fn visit_f32_convert_i64_u(&mut self) -> Self::Output
        requires { can_visit self.old
            (Op.Convert (ConvertOp.Convert FloatType.F32 IntegerType.I64 Unsigned)) }
        ensures { visits self.old
            (Op.Convert (ConvertOp.Convert FloatType.F32 IntegerType.I64 Unsigned)) result self.new };

    /// `f64.convert_i32_s`: `[i32] -> [f64]`.
    fn visit_f64_convert_i32_s(&mut self) -> Self::Output
        requires { can_visit self.old (Op.Convert (ConvertOp.Convert FloatType.F64 IntegerType.I32 Signed)) }
        ensures { visits self.old
            (Op.Convert (ConvertOp.Convert FloatType.F64 IntegerType.I32 Signed)) result self.new };

    /// `f64.convert_i32_u`: `[i32] -> [f64]`.
    fn visit_f64_convert_i32_u(&mut self) -> Self::Output
        requires { can_visit self.old
            (Op.Convert (ConvertOp.Convert FloatType.F64 IntegerType.I32 Unsigned)) }
        ensures { visits self.old
            (Op.Convert (ConvertOp.Convert FloatType.F64 IntegerType.I32 Unsigned)) result self.new };

    /// `f64.convert_i64_s`: `[i64] -> [f64]`.
    fn visit_f64_convert_i64_s(&mut self) -> Self::Output
        requires { can_visit self.old (Op.Convert (ConvertOp.Convert FloatType.F64 IntegerType.I64 Signed)) }
        ensures { visits self.old
            (Op.Convert (ConvertOp.Convert FloatType.F64 IntegerType.I64 Signed)) result self.new };

    /// `f64.convert_i64_u`: `[i64] -> [f64]`.
    fn visit_f64_convert_i64_u(&mut self) -> Self::Output
        requires { can_visit self.old
            (Op.Convert (ConvertOp.Convert FloatType.F64 IntegerType.I64 Unsigned)) }
        ensures { visits self.old
            (Op.Convert (ConvertOp.Convert FloatType.F64 IntegerType.I64 Unsigned)) result self.new };

    /// `f32.demote_f64`: `[f64] -> [f32]`.
    fn visit_f32_demote_f64(&mut self) -> Self::Output
        requires { can_visit self.old (Op.Convert ConvertOp.Demote) }
        ensures { visits self.old (Op.Convert ConvertOp.Demote) result self.new };

    /// `f64.promote_f32`: `[f32] -> [f64]`.
    fn visit_f64_promote_f32(&mut self) -> Self::Output
        requires { can_visit self.old (Op.Convert ConvertOp.Promote) }
        ensures { visits self.old (Op.Convert ConvertOp.Promote) result self.new };

    /// `i32.reinterpret_f32`: `[f32] -> [i32]`.
    fn visit_i32_reinterpret_f32(&mut self) -> Self::Output
        requires { can_visit self.old (Op.Convert (ConvertOp.Reinterpret NumberType.I32)) }
        ensures { visits self.old (Op.Convert (ConvertOp.Reinterpret NumberType.I32)) result self.new };

    /// `i64.reinterpret_f64`: `[f64] -> [i64]`.
    fn visit_i64_reinterpret_f64(&mut self) -> Self::Output
        requires { can_visit self.old (Op.Convert (ConvertOp.Reinterpret NumberType.I64)) }
        ensures { visits self.old (Op.Convert (ConvertOp.Reinterpret NumberType.I64)) result self.new };

    /// `f32.reinterpret_i32`: `[i32] -> [f32]`.
    fn visit_f32_reinterpret_i32(&mut self) -> Self::Output
        requires { can_visit self.old (Op.Convert (ConvertOp.Reinterpret NumberType.F32)) }
        ensures { visits self.old (Op.Convert (ConvertOp.Reinterpret NumberType.F32)) result self.new };

    /// `f64.reinterpret_i64`: `[i64] -> [f64]`.
    fn visit_f64_reinterpret_i64(&mut self) -> Self::Output
        requires { can_visit self.old (Op.Convert (ConvertOp.Reinterpret NumberType.F64)) }
        ensures { visits self.old (Op.Convert (ConvertOp.Reinterpret NumberType.F64)) result self.new };

    /// `i32.extend8_s`: `[i32] -> [i32]`. Proposal: sign extension operations.
    fn visit_i32_extend8_s(&mut self) -> Self::Output
        requires { can_visit self.old (Op.Convert (ConvertOp.ExtendPacked I32Bits8)) }
        ensures { visits self.old (Op.Convert (ConvertOp.ExtendPacked I32Bits8)) result self.new };

    /// `i32.extend16_s`: `[i32] -> [i32]`. Proposal: sign extension operations.
    fn visit_i32_extend16_s(&mut self) -> Self::Output
        requires { can_visit self.old (Op.Convert (ConvertOp.ExtendPacked I32Bits16)) }
        ensures { visits self.old (Op.Convert (ConvertOp.ExtendPacked I32Bits16)) result self.new };

    /// `i64.extend8_s`: `[i64] -> [i64]`. Proposal: sign extension operations.
    fn visit_i64_extend8_s(&mut self) -> Self::Output
        requires { can_visit self.old (Op.Convert (ConvertOp.ExtendPacked I64Bits8)) }
        ensures { visits self.old (Op.Convert (ConvertOp.ExtendPacked I64Bits8)) result self.new };

    /// `i64.extend16_s`: `[i64] -> [i64]`. Proposal: sign extension operations.
    fn visit_i64_extend16_s(&mut self) -> Self::Output
        requires { can_visit self.old (Op.Convert (ConvertOp.ExtendPacked I64Bits16)) }
        ensures { visits self.old (Op.Convert (ConvertOp.ExtendPacked I64Bits16)) result self.new };

    /// `i64.extend32_s`: `[i64] -> [i64]`. Proposal: sign extension operations.
    fn visit_i64_extend32_s(&mut self) -> Self::Output
        requires { can_visit self.old (Op.Convert (ConvertOp.ExtendPacked I64Bits32)) }
        ensures { visits self.old (Op.Convert (ConvertOp.ExtendPacked I64Bits32)) result self.new };

    /// `i32.trunc_sat_f32_s`: `[f32] -> [i32]`. Proposal: saturating float to int conversions.
    fn visit_i32_trunc_sat_f32_s(&mut self) -> Self::Output
        requires { can_visit self.old (Op.Convert (ConvertOp.TruncSat IntegerType.I32 FloatType.F32 Signed)) }
        ensures { visits self.old
            (Op.Convert (ConvertOp.TruncSat IntegerType.I32 FloatType.F32 Signed)) result self.new };

    /// `i32.trunc_sat_f32_u`: `[f32] -> [i32]`. Proposal: saturating float to int conversions.
    fn visit_i32_trunc_sat_f32_u(&mut self) -> Self::Output
        requires { can_visit self.old
            (Op.Convert (ConvertOp.TruncSat IntegerType.I32 FloatType.F32 Unsigned)) }
        ensures { visits self.old
            (Op.Convert (ConvertOp.TruncSat IntegerType.I32 FloatType.F32 Unsigned)) result self.new };

    /// `i32.trunc_sat_f64_s`: `[f64] -> [i32]`. Proposal: saturating float to int conversions.
    fn visit_i32_trunc_sat_f64_s(&mut self) -> Self::Output
        requires { can_visit self.old (Op.Convert (ConvertOp.TruncSat IntegerType.I32 FloatType.F64 Signed)) }
        ensures { visits self.old
            (Op.Convert (ConvertOp.TruncSat IntegerType.I32 FloatType.F64 Signed)) result self.new };

    /// `i32.trunc_sat_f64_u`: `[f64] -> [i32]`. Proposal: saturating float to int conversions.
    fn visit_i32_trunc_sat_f64_u(&mut self) -> Self::Output
        requires { can_visit self.old
            (Op.Convert (ConvertOp.TruncSat IntegerType.I32 FloatType.F64 Unsigned)) }
        ensures { visits self.old
            (Op.Convert (ConvertOp.TruncSat IntegerType.I32 FloatType.F64 Unsigned)) result self.new };

    /// `i64.trunc_sat_f32_s`: `[f32] -> [i64]`. Proposal: saturating float to int conversions.
    fn visit_i64_trunc_sat_f32_s(&mut self) -> Self::Output
        requires { can_visit self.old (Op.Convert (ConvertOp.TruncSat IntegerType.I64 FloatType.F32 Signed)) }
        ensures { visits self.old
            (Op.Convert (ConvertOp.TruncSat IntegerType.I64 FloatType.F32 Signed)) result self.new };

    /// `i64.trunc_sat_f32_u`: `[f32] -> [i64]`. Proposal: saturating float to int conversions.
    fn visit_i64_trunc_sat_f32_u(&mut self) -> Self::Output
        requires { can_visit self.old
            (Op.Convert (ConvertOp.TruncSat IntegerType.I64 FloatType.F32 Unsigned)) }
        ensures { visits self.old
            (Op.Convert (ConvertOp.TruncSat IntegerType.I64 FloatType.F32 Unsigned)) result self.new };

    /// `i64.trunc_sat_f64_s`: `[f64] -> [i64]`. Proposal: saturating float to int conversions.
    fn visit_i64_trunc_sat_f64_s(&mut self) -> Self::Output
        requires { can_visit self.old (Op.Convert (ConvertOp.TruncSat IntegerType.I64 FloatType.F64 Signed)) }
        ensures { visits self.old
            (Op.Convert (ConvertOp.TruncSat IntegerType.I64 FloatType.F64 Signed)) result self.new };

    /// `i64.trunc_sat_f64_u`: `[f64] -> [i64]`. Proposal: saturating float to int conversions.
    fn visit_i64_trunc_sat_f64_u(&mut self) -> Self::Output
        requires { can_visit self.old
            (Op.Convert (ConvertOp.TruncSat IntegerType.I64 FloatType.F64 Unsigned)) }
        ensures { visits self.old
            (Op.Convert (ConvertOp.TruncSat IntegerType.I64 FloatType.F64 Unsigned)) result self.new };

    /// `i32.load`: `[a] -> [i32]`, where a is the address type of the memory. Refuses a memory that isn't
    /// there, an alignment above the natural one, and an offset of 2^32 or more where a is `i32`.
    fn visit_i32_load(&mut self, memarg: MemArg) -> Self::Output
        requires { can_visit self.old (Op.Memory (MemoryOp.Load NumberType.I32 memarg)) }
        ensures { visits self.old (Op.Memory (MemoryOp.Load NumberType.I32 memarg)) result self.new };

    /// `i64.load`: `[a] -> [i64]`, where a is the address type of the memory. Refuses a memory that isn't
    /// there, an alignment above the natural one, and an offset of 2^32 or more where a is `i32`.
    fn visit_i64_load(&mut self, memarg: MemArg) -> Self::Output
        requires { can_visit self.old (Op.Memory (MemoryOp.Load NumberType.I64 memarg)) }
        ensures { visits self.old (Op.Memory (MemoryOp.Load NumberType.I64 memarg)) result self.new };

    /// `f32.load`: `[a] -> [f32]`, where a is the address type of the memory. Refuses a memory that isn't
    /// there, an alignment above the natural one, and an offset of 2^32 or more where a is `i32`.
    fn visit_f32_load(&mut self, memarg: MemArg) -> Self::Output
        requires { can_visit self.old (Op.Memory (MemoryOp.Load NumberType.F32 memarg)) }
        ensures { visits self.old (Op.Memory (MemoryOp.Load NumberType.F32 memarg)) result self.new };

    /// `f64.load`: `[a] -> [f64]`, where a is the address type of the memory. Refuses a memory that isn't
    /// there, an alignment above the natural one, and an offset of 2^32 or more where a is `i32`.
    fn visit_f64_load(&mut self, memarg: MemArg) -> Self::Output
        requires { can_visit self.old (Op.Memory (MemoryOp.Load NumberType.F64 memarg)) }
        ensures { visits self.old (Op.Memory (MemoryOp.Load NumberType.F64 memarg)) result self.new };

    /// `i32.load8_s`: `[a] -> [i32]`, where a is the address type of the memory. Refuses a memory that
    /// isn't there, an alignment above the natural one, and an offset of 2^32 or more where a is `i32`.
    fn visit_i32_load8_s(&mut self, memarg: MemArg) -> Self::Output
        requires { can_visit self.old (Op.Memory (MemoryOp.LoadPacked I32Bits8 Signed memarg)) }
        ensures { visits self.old (Op.Memory (MemoryOp.LoadPacked I32Bits8 Signed memarg)) result self.new };

    /// `i32.load8_u`: `[a] -> [i32]`, where a is the address type of the memory. Refuses a memory that
    /// isn't there, an alignment above the natural one, and an offset of 2^32 or more where a is `i32`.
    fn visit_i32_load8_u(&mut self, memarg: MemArg) -> Self::Output
        requires { can_visit self.old (Op.Memory (MemoryOp.LoadPacked I32Bits8 Unsigned memarg)) }
        ensures { visits self.old
            (Op.Memory (MemoryOp.LoadPacked I32Bits8 Unsigned memarg)) result self.new };

    /// `i32.load16_s`: `[a] -> [i32]`, where a is the address type of the memory. Refuses a memory that
    /// isn't there, an alignment above the natural one, and an offset of 2^32 or more where a is `i32`.
    fn visit_i32_load16_s(&mut self, memarg: MemArg) -> Self::Output
        requires { can_visit self.old (Op.Memory (MemoryOp.LoadPacked I32Bits16 Signed memarg)) }
        ensures { visits self.old (Op.Memory (MemoryOp.LoadPacked I32Bits16 Signed memarg)) result self.new };

    /// `i32.load16_u`: `[a] -> [i32]`, where a is the address type of the memory. Refuses a memory that
    /// isn't there, an alignment above the natural one, and an offset of 2^32 or more where a is `i32`.
    fn visit_i32_load16_u(&mut self, memarg: MemArg) -> Self::Output
        requires { can_visit self.old (Op.Memory (MemoryOp.LoadPacked I32Bits16 Unsigned memarg)) }
        ensures { visits self.old
            (Op.Memory (MemoryOp.LoadPacked I32Bits16 Unsigned memarg)) result self.new };

    /// `i64.load8_s`: `[a] -> [i64]`, where a is the address type of the memory. Refuses a memory that
    /// isn't there, an alignment above the natural one, and an offset of 2^32 or more where a is `i32`.
    fn visit_i64_load8_s(&mut self, memarg: MemArg) -> Self::Output
        requires { can_visit self.old (Op.Memory (MemoryOp.LoadPacked I64Bits8 Signed memarg)) }
        ensures { visits self.old (Op.Memory (MemoryOp.LoadPacked I64Bits8 Signed memarg)) result self.new };

    /// `i64.load8_u`: `[a] -> [i64]`, where a is the address type of the memory. Refuses a memory that
    /// isn't there, an alignment above the natural one, and an offset of 2^32 or more where a is `i32`.
    fn visit_i64_load8_u(&mut self, memarg: MemArg) -> Self::Output
        requires { can_visit self.old (Op.Memory (MemoryOp.LoadPacked I64Bits8 Unsigned memarg)) }
        ensures { visits self.old
            (Op.Memory (MemoryOp.LoadPacked I64Bits8 Unsigned memarg)) result self.new };

    /// `i64.load16_s`: `[a] -> [i64]`, where a is the address type of the memory. Refuses a memory that
    /// isn't there, an alignment above the natural one, and an offset of 2^32 or more where a is `i32`.
    fn visit_i64_load16_s(&mut self, memarg: MemArg) -> Self::Output
        requires { can_visit self.old (Op.Memory (MemoryOp.LoadPacked I64Bits16 Signed memarg)) }
        ensures { visits self.old (Op.Memory (MemoryOp.LoadPacked I64Bits16 Signed memarg)) result self.new };

    /// `i64.load16_u`: `[a] -> [i64]`, where a is the address type of the memory. Refuses a memory that
    /// isn't there, an alignment above the natural one, and an offset of 2^32 or more where a is `i32`.
    fn visit_i64_load16_u(&mut self, memarg: MemArg) -> Self::Output
        requires { can_visit self.old (Op.Memory (MemoryOp.LoadPacked I64Bits16 Unsigned memarg)) }
        ensures { visits self.old
            (Op.Memory (MemoryOp.LoadPacked I64Bits16 Unsigned memarg)) result self.new };

    /// `i64.load32_s`: `[a] -> [i64]`, where a is the address type of the memory. Refuses a memory that
    /// isn't there, an alignment above the natural one, and an offset of 2^32 or more where a is `i32`.
    fn visit_i64_load32_s(&mut self, memarg: MemArg) -> Self::Output
        requires { can_visit self.old (Op.Memory (MemoryOp.LoadPacked I64Bits32 Signed memarg)) }
        ensures { visits self.old (Op.Memory (MemoryOp.LoadPacked I64Bits32 Signed memarg)) result self.new };

    /// `i64.load32_u`: `[a] -> [i64]`, where a is the address type of the memory. Refuses a memory that
    /// isn't there, an alignment above the natural one, and an offset of 2^32 or more where a is `i32`.
    fn visit_i64_load32_u(&mut self, memarg: MemArg) -> Self::Output
        requires { can_visit self.old (Op.Memory (MemoryOp.LoadPacked I64Bits32 Unsigned memarg)) }
        ensures { visits self.old
            (Op.Memory (MemoryOp.LoadPacked I64Bits32 Unsigned memarg)) result self.new };

    /// `i32.store`: `[a i32] -> []`, where a is the address type of the memory. Refuses a memory that
    /// isn't there, an alignment above the natural one, and an offset of 2^32 or more where a is `i32`.
    fn visit_i32_store(&mut self, memarg: MemArg) -> Self::Output
        requires { can_visit self.old (Op.Memory (MemoryOp.Store NumberType.I32 memarg)) }
        ensures { visits self.old (Op.Memory (MemoryOp.Store NumberType.I32 memarg)) result self.new };

    /// `i64.store`: `[a i64] -> []`, where a is the address type of the memory. Refuses a memory that
    /// isn't there, an alignment above the natural one, and an offset of 2^32 or more where a is `i32`.
    fn visit_i64_store(&mut self, memarg: MemArg) -> Self::Output
        requires { can_visit self.old (Op.Memory (MemoryOp.Store NumberType.I64 memarg)) }
        ensures { visits self.old (Op.Memory (MemoryOp.Store NumberType.I64 memarg)) result self.new };

    /// `f32.store`: `[a f32] -> []`, where a is the address type of the memory. Refuses a memory that
    /// isn't there, an alignment above the natural one, and an offset of 2^32 or more where a is `i32`.
    fn visit_f32_store(&mut self, memarg: MemArg) -> Self::Output
        requires { can_visit self.old (Op.Memory (MemoryOp.Store NumberType.F32 memarg)) }
        ensures { visits self.old (Op.Memory (MemoryOp.Store NumberType.F32 memarg)) result self.new };

    /// `f64.store`: `[a f64] -> []`, where a is the address type of the memory. Refuses a memory that
    /// isn't there, an alignment above the natural one, and an offset of 2^32 or more where a is `i32`.
    fn visit_f64_store(&mut self, memarg: MemArg) -> Self::Output
        requires { can_visit self.old (Op.Memory (MemoryOp.Store NumberType.F64 memarg)) }
        ensures { visits self.old (Op.Memory (MemoryOp.Store NumberType.F64 memarg)) result self.new };

    /// `i32.store8`: `[a i32] -> []`, where a is the address type of the memory. Refuses a memory that
    /// isn't there, an alignment above the natural one, and an offset of 2^32 or more where a is `i32`.
    fn visit_i32_store8(&mut self, memarg: MemArg) -> Self::Output
        requires { can_visit self.old (Op.Memory (MemoryOp.StorePacked I32Bits8 memarg)) }
        ensures { visits self.old (Op.Memory (MemoryOp.StorePacked I32Bits8 memarg)) result self.new };

    /// `i32.store16`: `[a i32] -> []`, where a is the address type of the memory. Refuses a memory that
    /// isn't there, an alignment above the natural one, and an offset of 2^32 or more where a is `i32`.
    fn visit_i32_store16(&mut self, memarg: MemArg) -> Self::Output
        requires { can_visit self.old (Op.Memory (MemoryOp.StorePacked I32Bits16 memarg)) }
        ensures { visits self.old (Op.Memory (MemoryOp.StorePacked I32Bits16 memarg)) result self.new };

    /// `i64.store8`: `[a i64] -> []`, where a is the address type of the memory. Refuses a memory that
    /// isn't there, an alignment above the natural one, and an offset of 2^32 or more where a is `i32`.
    fn visit_i64_store8(&mut self, memarg: MemArg) -> Self::Output
        requires { can_visit self.old (Op.Memory (MemoryOp.StorePacked I64Bits8 memarg)) }
        ensures { visits self.old (Op.Memory (MemoryOp.StorePacked I64Bits8 memarg)) result self.new };

    /// `i64.store16`: `[a i64] -> []`, where a is the address type of the memory. Refuses a memory that
    /// isn't there, an alignment above the natural one, and an offset of 2^32 or more where a is `i32`.
    fn visit_i64_store16(&mut self, memarg: MemArg) -> Self::Output
        requires { can_visit self.old (Op.Memory (MemoryOp.StorePacked I64Bits16 memarg)) }
        ensures { visits self.old (Op.Memory (MemoryOp.StorePacked I64Bits16 memarg)) result self.new };

    /// `i64.store32`: `[a i64] -> []`, where a is the address type of the memory. Refuses a memory that
    /// isn't there, an alignment above the natural one, and an offset of 2^32 or more where a is `i32`.
    fn visit_i64_store32(&mut self, memarg: MemArg) -> Self::Output
        requires { can_visit self.old (Op.Memory (MemoryOp.StorePacked I64Bits32 memarg)) }
        ensures { visits self.old (Op.Memory (MemoryOp.StorePacked I64Bits32 memarg)) result self.new };

    /// `memory.size`: `[] -> [a]`, where a is the address type of the memory. Refuses a memory that isn't
    /// there.
    fn visit_memory_size(&mut self, mem: u32) -> Self::Output
        requires { can_visit self.old (Op.Memory (MemoryOp.MemorySize mem)) }
        ensures { visits self.old (Op.Memory (MemoryOp.MemorySize mem)) result self.new };

    /// `memory.grow`: `[a] -> [a]`, where a is the address type of the memory. Refuses a memory that
    /// isn't there.
    fn visit_memory_grow(&mut self, mem: u32) -> Self::Output
        requires { can_visit self.old (Op.Memory (MemoryOp.MemoryGrow mem)) }
        ensures { visits self.old (Op.Memory (MemoryOp.MemoryGrow mem)) result self.new };

    /// `memory.init`: `[a i32 i32] -> []`, where a is the address type of the memory. Proposal: bulk
    /// memory. Refuses a memory that isn't there, a data segment that isn't there, and a module without a
    /// count of its data segments.
    fn visit_memory_init(&mut self, data_index: u32, mem: u32) -> Self::Output
        requires { can_visit self.old (Op.Memory (MemoryOp.MemoryInit data_index mem)) }
        ensures { visits self.old (Op.Memory (MemoryOp.MemoryInit data_index mem)) result self.new };

    /// `data.drop`: `[] -> []`. Proposal: bulk memory. Refuses a data segment that isn't there, and a
    /// module without a count of its data segments.
    fn visit_data_drop(&mut self, data_index: u32) -> Self::Output
        requires { can_visit self.old (Op.Memory (MemoryOp.DataDrop data_index)) }
        ensures { visits self.old (Op.Memory (MemoryOp.DataDrop data_index)) result self.new };

    /// `memory.copy`: `[a b c] -> []`, where a and b are the address types of the memories that are
    /// written and read, and c is `i32` if either is, else `i64`. Proposal: bulk memory. Refuses a memory
    /// that isn't there.
    fn visit_memory_copy(&mut self, dst_mem: u32, src_mem: u32) -> Self::Output
        requires { can_visit self.old (Op.Memory (MemoryOp.MemoryCopy dst_mem src_mem)) }
        ensures { visits self.old (Op.Memory (MemoryOp.MemoryCopy dst_mem src_mem)) result self.new };

    /// `memory.fill`: `[a i32 a] -> []`, where a is the address type of the memory. Proposal: bulk
    /// memory. Refuses a memory that isn't there.
    fn visit_memory_fill(&mut self, mem: u32) -> Self::Output
        requires { can_visit self.old (Op.Memory (MemoryOp.MemoryFill mem)) }
        ensures { visits self.old (Op.Memory (MemoryOp.MemoryFill mem)) result self.new };

    /// `memory.discard`: `[a a] -> []`, where a is the address type of the memory. Proposal: memory
    /// control. Refuses a memory that isn't there.
    fn visit_memory_discard(&mut self, mem: u32) -> Self::Output
        requires { can_visit self.old (Op.Memory (MemoryOp.MemoryDiscard mem)) }
        ensures { visits self.old (Op.Memory (MemoryOp.MemoryDiscard mem)) result self.new };

    /// `memory.atomic.notify`: `[a i32] -> [i32]`, where a is the address type of the memory. Proposal:
    /// threads. Refuses a memory that isn't there, an array, an alignment that isn't the natural one, and
    /// an offset of 2^32 or more where a is `i32`.
    fn visit_memory_atomic_notify(&mut self, memarg: MemArg) -> Self::Output
        requires { can_visit self.old (Atomic (AtomicNotify memarg)) }
        ensures { visits self.old (Atomic (AtomicNotify memarg)) result self.new };

    /// `memory.atomic.wait32`: `[a i32 i64] -> [i32]`, where a is the address type of the memory.
    /// Proposal: threads. Refuses a memory that isn't there, an array, an alignment that isn't the
    /// natural one, and an offset of 2^32 or more where a is `i32`.
    fn visit_memory_atomic_wait32(&mut self, memarg: MemArg) -> Self::Output
        requires { can_visit self.old (Atomic (AtomicWait IntegerType.I32 memarg)) }
        ensures { visits self.old (Atomic (AtomicWait IntegerType.I32 memarg)) result self.new };

    /// `memory.atomic.wait64`: `[a i64 i64] -> [i32]`, where a is the address type of the memory.
    /// Proposal: threads. Refuses a memory that isn't there, an array, an alignment that isn't the
    /// natural one, and an offset of 2^32 or more where a is `i32`.
    fn visit_memory_atomic_wait64(&mut self, memarg: MemArg) -> Self::Output
        requires { can_visit self.old (Atomic (AtomicWait IntegerType.I64 memarg)) }
        ensures { visits self.old (Atomic (AtomicWait IntegerType.I64 memarg)) result self.new };

    /// `atomic.fence`: `[] -> []`. Proposal: threads. Refuses the ordering `AcqRel` where acquire-release
    /// atomics are off (`acquire-release atomics are not enabled`).
    fn visit_atomic_fence(&mut self, ordering: Ordering) -> Self::Output
        requires { can_visit self.old (Atomic (AtomicFence ordering)) }
        ensures { visits self.old (Atomic (AtomicFence ordering)) result self.new };

    /// `i32.atomic.load`: `[a] -> [i32]`, where a is the address type of the memory. Proposal: threads.
    /// Refuses a memory that isn't there, an array, an alignment that isn't the natural one, and an
    /// offset of 2^32 or more where a is `i32`.
    fn visit_i32_atomic_load(&mut self, memarg: MemArg) -> Self::Output
        requires { can_visit self.old (Atomic (AtomicLoad (Whole IntegerType.I32) memarg)) }
        ensures { visits self.old (Atomic (AtomicLoad (Whole IntegerType.I32) memarg)) result self.new };

    /// `i64.atomic.load`: `[a] -> [i64]`, where a is the address type of the memory. Proposal: threads.
    /// Refuses a memory that isn't there, an array, an alignment that isn't the natural one, and an
    /// offset of 2^32 or more where a is `i32`.
    fn visit_i64_atomic_load(&mut self, memarg: MemArg) -> Self::Output
        requires { can_visit self.old (Atomic (AtomicLoad (Whole IntegerType.I64) memarg)) }
        ensures { visits self.old (Atomic (AtomicLoad (Whole IntegerType.I64) memarg)) result self.new };

    /// `i32.atomic.load8_u`: `[a] -> [i32]`, where a is the address type of the memory. Proposal:
    /// threads. Refuses a memory that isn't there, an array, an alignment that isn't the natural one, and
    /// an offset of 2^32 or more where a is `i32`.
    fn visit_i32_atomic_load8_u(&mut self, memarg: MemArg) -> Self::Output
        requires { can_visit self.old (Atomic (AtomicLoad (Packed I32Bits8) memarg)) }
        ensures { visits self.old (Atomic (AtomicLoad (Packed I32Bits8) memarg)) result self.new };

    /// `i32.atomic.load16_u`: `[a] -> [i32]`, where a is the address type of the memory. Proposal:
    /// threads. Refuses a memory that isn't there, an array, an alignment that isn't the natural one, and
    /// an offset of 2^32 or more where a is `i32`.
    fn visit_i32_atomic_load16_u(&mut self, memarg: MemArg) -> Self::Output
        requires { can_visit self.old (Atomic (AtomicLoad (Packed I32Bits16) memarg)) }
        ensures { visits self.old (Atomic (AtomicLoad (Packed I32Bits16) memarg)) result self.new };

    /// `i64.atomic.load8_u`: `[a] -> [i64]`, where a is the address type of the memory. Proposal:
    /// threads. Refuses a memory that isn't there, an array, an alignment that isn't the natural one, and
    /// an offset of 2^32 or more where a is `i32`.
    fn visit_i64_atomic_load8_u(&mut self, memarg: MemArg) -> Self::Output
        requires { can_visit self.old (Atomic (AtomicLoad (Packed I64Bits8) memarg)) }
        ensures { visits self.old (Atomic (AtomicLoad (Packed I64Bits8) memarg)) result self.new };

    /// `i64.atomic.load16_u`: `[a] -> [i64]`, where a is the address type of the memory. Proposal:
    /// threads. Refuses a memory that isn't there, an array, an alignment that isn't the natural one, and
    /// an offset of 2^32 or more where a is `i32`.
    fn visit_i64_atomic_load16_u(&mut self, memarg: MemArg) -> Self::Output
        requires { can_visit self.old (Atomic (AtomicLoad (Packed I64Bits16) memarg)) }
        ensures { visits self.old (Atomic (AtomicLoad (Packed I64Bits16) memarg)) result self.new };

    /// `i64.atomic.load32_u`: `[a] -> [i64]`, where a is the address type of the memory. Proposal:
    /// threads. Refuses a memory that isn't there, an array, an alignment that isn't the natural one, and
    /// an offset of 2^32 or more where a is `i32`.
    fn visit_i64_atomic_load32_u(&mut self, memarg: MemArg) -> Self::Output
        requires { can_visit self.old (Atomic (AtomicLoad (Packed I64Bits32) memarg)) }
        ensures { visits self.old (Atomic (AtomicLoad (Packed I64Bits32) memarg)) result self.new };

    /// `i32.atomic.store`: `[a i32] -> []`, where a is the address type of the memory. Proposal: threads.
    /// Refuses a memory that isn't there, an array, an alignment that isn't the natural one, and an
    /// offset of 2^32 or more where a is `i32`.
    fn visit_i32_atomic_store(&mut self, memarg: MemArg) -> Self::Output
        requires { can_visit self.old (Atomic (AtomicStore (Whole IntegerType.I32) memarg)) }
        ensures { visits self.old (Atomic (AtomicStore (Whole IntegerType.I32) memarg)) result self.new };

    /// `i64.atomic.store`: `[a i64] -> []`, where a is the address type of the memory. Proposal: threads.
    /// Refuses a memory that isn't there, an array, an alignment that isn't the natural one, and an
    /// offset of 2^32 or more where a is `i32`.
    fn visit_i64_atomic_store(&mut self, memarg: MemArg) -> Self::Output
        requires { can_visit self.old (Atomic (AtomicStore (Whole IntegerType.I64) memarg)) }
        ensures { visits self.old (Atomic (AtomicStore (Whole IntegerType.I64) memarg)) result self.new };

    /// `i32.atomic.store8`: `[a i32] -> []`, where a is the address type of the memory. Proposal:
    /// threads. Refuses a memory that isn't there, an array, an alignment that isn't the natural one, and
    /// an offset of 2^32 or more where a is `i32`.
    fn visit_i32_atomic_store8(&mut self, memarg: MemArg) -> Self::Output
        requires { can_visit self.old (Atomic (AtomicStore (Packed I32Bits8) memarg)) }
        ensures { visits self.old (Atomic (AtomicStore (Packed I32Bits8) memarg)) result self.new };

    /// `i32.atomic.store16`: `[a i32] -> []`, where a is the address type of the memory. Proposal:
    /// threads. Refuses a memory that isn't there, an array, an alignment that isn't the natural one, and
    /// an offset of 2^32 or more where a is `i32`.
    fn visit_i32_atomic_store16(&mut self, memarg: MemArg) -> Self::Output
        requires { can_visit self.old (Atomic (AtomicStore (Packed I32Bits16) memarg)) }
        ensures { visits self.old (Atomic (AtomicStore (Packed I32Bits16) memarg)) result self.new };

    /// `i64.atomic.store8`: `[a i64] -> []`, where a is the address type of the memory. Proposal:
    /// threads. Refuses a memory that isn't there, an array, an alignment that isn't the natural one, and
    /// an offset of 2^32 or more where a is `i32`.
    fn visit_i64_atomic_store8(&mut self, memarg: MemArg) -> Self::Output
        requires { can_visit self.old (Atomic (AtomicStore (Packed I64Bits8) memarg)) }
        ensures { visits self.old (Atomic (AtomicStore (Packed I64Bits8) memarg)) result self.new };

    /// `i64.atomic.store16`: `[a i64] -> []`, where a is the address type of the memory. Proposal:
    /// threads. Refuses a memory that isn't there, an array, an alignment that isn't the natural one, and
    /// an offset of 2^32 or more where a is `i32`.
    fn visit_i64_atomic_store16(&mut self, memarg: MemArg) -> Self::Output
        requires { can_visit self.old (Atomic (AtomicStore (Packed I64Bits16) memarg)) }
        ensures { visits self.old (Atomic (AtomicStore (Packed I64Bits16) memarg)) result self.new };

    /// `i64.atomic.store32`: `[a i64] -> []`, where a is the address type of the memory. Proposal:
    /// threads. Refuses a memory that isn't there, an array, an alignment that isn't the natural one, and
    /// an offset of 2^32 or more where a is `i32`.
    fn visit_i64_atomic_store32(&mut self, memarg: MemArg) -> Self::Output
        requires { can_visit self.old (Atomic (AtomicStore (Packed I64Bits32) memarg)) }
        ensures { visits self.old (Atomic (AtomicStore (Packed I64Bits32) memarg)) result self.new };

    /// `i32.atomic.rmw.add`: `[a i32] -> [i32]`, where a is the address type of the memory. Proposal:
    /// threads. Refuses a memory that isn't there, an array, an alignment that isn't the natural one, and
    /// an offset of 2^32 or more where a is `i32`.
    fn visit_i32_atomic_rmw_add(&mut self, memarg: MemArg) -> Self::Output
        requires { can_visit self.old (Atomic (AtomicRmw (Whole IntegerType.I32) AtomicRmwOp.Add memarg)) }
        ensures { visits self.old
            (Atomic (AtomicRmw (Whole IntegerType.I32) AtomicRmwOp.Add memarg)) result self.new };

    /// `i64.atomic.rmw.add`: `[a i64] -> [i64]`, where a is the address type of the memory. Proposal:
    /// threads. Refuses a memory that isn't there, an array, an alignment that isn't the natural one, and
    /// an offset of 2^32 or more where a is `i32`.
    fn visit_i64_atomic_rmw_add(&mut self, memarg: MemArg) -> Self::Output
        requires { can_visit self.old (Atomic (AtomicRmw (Whole IntegerType.I64) AtomicRmwOp.Add memarg)) }
        ensures { visits self.old
            (Atomic (AtomicRmw (Whole IntegerType.I64) AtomicRmwOp.Add memarg)) result self.new };

    /// `i32.atomic.rmw8.add_u`: `[a i32] -> [i32]`, where a is the address type of the memory. Proposal:
    /// threads. Refuses a memory that isn't there, an array, an alignment that isn't the natural one, and
    /// an offset of 2^32 or more where a is `i32`.
    fn visit_i32_atomic_rmw8_add_u(&mut self, memarg: MemArg) -> Self::Output
        requires { can_visit self.old (Atomic (AtomicRmw (Packed I32Bits8) AtomicRmwOp.Add memarg)) }
        ensures { visits self.old
            (Atomic (AtomicRmw (Packed I32Bits8) AtomicRmwOp.Add memarg)) result self.new };

    /// `i32.atomic.rmw16.add_u`: `[a i32] -> [i32]`, where a is the address type of the memory. Proposal:
    /// threads. Refuses a memory that isn't there, an array, an alignment that isn't the natural one, and
    /// an offset of 2^32 or more where a is `i32`.
    fn visit_i32_atomic_rmw16_add_u(&mut self, memarg: MemArg) -> Self::Output
        requires { can_visit self.old (Atomic (AtomicRmw (Packed I32Bits16) AtomicRmwOp.Add memarg)) }
        ensures { visits self.old
            (Atomic (AtomicRmw (Packed I32Bits16) AtomicRmwOp.Add memarg)) result self.new };

    /// `i64.atomic.rmw8.add_u`: `[a i64] -> [i64]`, where a is the address type of the memory. Proposal:
    /// threads. Refuses a memory that isn't there, an array, an alignment that isn't the natural one, and
    /// an offset of 2^32 or more where a is `i32`.
    fn visit_i64_atomic_rmw8_add_u(&mut self, memarg: MemArg) -> Self::Output
        requires { can_visit self.old (Atomic (AtomicRmw (Packed I64Bits8) AtomicRmwOp.Add memarg)) }
        ensures { visits self.old
            (Atomic (AtomicRmw (Packed I64Bits8) AtomicRmwOp.Add memarg)) result self.new };

    /// `i64.atomic.rmw16.add_u`: `[a i64] -> [i64]`, where a is the address type of the memory. Proposal:
    /// threads. Refuses a memory that isn't there, an array, an alignment that isn't the natural one, and
    /// an offset of 2^32 or more where a is `i32`.
    fn visit_i64_atomic_rmw16_add_u(&mut self, memarg: MemArg) -> Self::Output
        requires { can_visit self.old (Atomic (AtomicRmw (Packed I64Bits16) AtomicRmwOp.Add memarg)) }
        ensures { visits self.old
            (Atomic (AtomicRmw (Packed I64Bits16) AtomicRmwOp.Add memarg)) result self.new };

    /// `i64.atomic.rmw32.add_u`: `[a i64] -> [i64]`, where a is the address type of the memory. Proposal:
    /// threads. Refuses a memory that isn't there, an array, an alignment that isn't the natural one, and
    /// an offset of 2^32 or more where a is `i32`.
    fn visit_i64_atomic_rmw32_add_u(&mut self, memarg: MemArg) -> Self::Output
        requires { can_visit self.old (Atomic (AtomicRmw (Packed I64Bits32) AtomicRmwOp.Add memarg)) }
        ensures { visits self.old
            (Atomic (AtomicRmw (Packed I64Bits32) AtomicRmwOp.Add memarg)) result self.new };

    /// `i32.atomic.rmw.sub`: `[a i32] -> [i32]`, where a is the address type of the memory. Proposal:
    /// threads. Refuses a memory that isn't there, an array, an alignment that isn't the natural one, and
    /// an offset of 2^32 or more where a is `i32`.
    fn visit_i32_atomic_rmw_sub(&mut self, memarg: MemArg) -> Self::Output
        requires { can_visit self.old (Atomic (AtomicRmw (Whole IntegerType.I32) AtomicRmwOp.Sub memarg)) }
        ensures { visits self.old
            (Atomic (AtomicRmw (Whole IntegerType.I32) AtomicRmwOp.Sub memarg)) result self.new };

    /// `i64.atomic.rmw.sub`: `[a i64] -> [i64]`, where a is the address type of the memory. Proposal:
    /// threads. Refuses a memory that isn't there, an array, an alignment that isn't the natural one, and
    /// an offset of 2^32 or more where a is `i32`.
    fn visit_i64_atomic_rmw_sub(&mut self, memarg: MemArg) -> Self::Output
        requires { can_visit self.old (Atomic (AtomicRmw (Whole IntegerType.I64) AtomicRmwOp.Sub memarg)) }
        ensures { visits self.old
            (Atomic (AtomicRmw (Whole IntegerType.I64) AtomicRmwOp.Sub memarg)) result self.new };

    /// `i32.atomic.rmw8.sub_u`: `[a i32] -> [i32]`, where a is the address type of the memory. Proposal:
    /// threads. Refuses a memory that isn't there, an array, an alignment that isn't the natural one, and
    /// an offset of 2^32 or more where a is `i32`.
    fn visit_i32_atomic_rmw8_sub_u(&mut self, memarg: MemArg) -> Self::Output
        requires { can_visit self.old (Atomic (AtomicRmw (Packed I32Bits8) AtomicRmwOp.Sub memarg)) }
        ensures { visits self.old
            (Atomic (AtomicRmw (Packed I32Bits8) AtomicRmwOp.Sub memarg)) result self.new };

    /// `i32.atomic.rmw16.sub_u`: `[a i32] -> [i32]`, where a is the address type of the memory. Proposal:
    /// threads. Refuses a memory that isn't there, an array, an alignment that isn't the natural one, and
    /// an offset of 2^32 or more where a is `i32`.
    fn visit_i32_atomic_rmw16_sub_u(&mut self, memarg: MemArg) -> Self::Output
        requires { can_visit self.old (Atomic (AtomicRmw (Packed I32Bits16) AtomicRmwOp.Sub memarg)) }
        ensures { visits self.old
            (Atomic (AtomicRmw (Packed I32Bits16) AtomicRmwOp.Sub memarg)) result self.new };

    /// `i64.atomic.rmw8.sub_u`: `[a i64] -> [i64]`, where a is the address type of the memory. Proposal:
    /// threads. Refuses a memory that isn't there, an array, an alignment that isn't the natural one, and
    /// an offset of 2^32 or more where a is `i32`.
    fn visit_i64_atomic_rmw8_sub_u(&mut self, memarg: MemArg) -> Self::Output
        requires { can_visit self.old (Atomic (AtomicRmw (Packed I64Bits8) AtomicRmwOp.Sub memarg)) }
        ensures { visits self.old
            (Atomic (AtomicRmw (Packed I64Bits8) AtomicRmwOp.Sub memarg)) result self.new };

    /// `i64.atomic.rmw16.sub_u`: `[a i64] -> [i64]`, where a is the address type of the memory. Proposal:
    /// threads. Refuses a memory that isn't there, an array, an alignment that isn't the natural one, and
    /// an offset of 2^32 or more where a is `i32`.
    fn visit_i64_atomic_rmw16_sub_u(&mut self, memarg: MemArg) -> Self::Output
        requires { can_visit self.old (Atomic (AtomicRmw (Packed I64Bits16) AtomicRmwOp.Sub memarg)) }
        ensures { visits self.old
            (Atomic (AtomicRmw (Packed I64Bits16) AtomicRmwOp.Sub memarg)) result self.new };

    /// `i64.atomic.rmw32.sub_u`: `[a i64] -> [i64]`, where a is the address type of the memory. Proposal:
    /// threads. Refuses a memory that isn't there, an array, an alignment that isn't the natural one, and
    /// an offset of 2^32 or more where a is `i32`.
    fn visit_i64_atomic_rmw32_sub_u(&mut self, memarg: MemArg) -> Self::Output
        requires { can_visit self.old (Atomic (AtomicRmw (Packed I64Bits32) AtomicRmwOp.Sub memarg)) }
        ensures { visits self.old
            (Atomic (AtomicRmw (Packed I64Bits32) AtomicRmwOp.Sub memarg)) result self.new };

    /// `i32.atomic.rmw.and`: `[a i32] -> [i32]`, where a is the address type of the memory. Proposal:
    /// threads. Refuses a memory that isn't there, an array, an alignment that isn't the natural one, and
    /// an offset of 2^32 or more where a is `i32`.
    fn visit_i32_atomic_rmw_and(&mut self, memarg: MemArg) -> Self::Output
        requires { can_visit self.old (Atomic (AtomicRmw (Whole IntegerType.I32) AtomicRmwOp.And memarg)) }
        ensures { visits self.old
            (Atomic (AtomicRmw (Whole IntegerType.I32) AtomicRmwOp.And memarg)) result self.new };

    /// `i64.atomic.rmw.and`: `[a i64] -> [i64]`, where a is the address type of the memory. Proposal:
    /// threads. Refuses a memory that isn't there, an array, an alignment that isn't the natural one, and
    /// an offset of 2^32 or more where a is `i32`.
    fn visit_i64_atomic_rmw_and(&mut self, memarg: MemArg) -> Self::Output
        requires { can_visit self.old (Atomic (AtomicRmw (Whole IntegerType.I64) AtomicRmwOp.And memarg)) }
        ensures { visits self.old
            (Atomic (AtomicRmw (Whole IntegerType.I64) AtomicRmwOp.And memarg)) result self.new };

    /// `i32.atomic.rmw8.and_u`: `[a i32] -> [i32]`, where a is the address type of the memory. Proposal:
    /// threads. Refuses a memory that isn't there, an array, an alignment that isn't the natural one, and
    /// an offset of 2^32 or more where a is `i32`.
    fn visit_i32_atomic_rmw8_and_u(&mut self, memarg: MemArg) -> Self::Output
        requires { can_visit self.old (Atomic (AtomicRmw (Packed I32Bits8) AtomicRmwOp.And memarg)) }
        ensures { visits self.old
            (Atomic (AtomicRmw (Packed I32Bits8) AtomicRmwOp.And memarg)) result self.new };

    /// `i32.atomic.rmw16.and_u`: `[a i32] -> [i32]`, where a is the address type of the memory. Proposal:
    /// threads. Refuses a memory that isn't there, an array, an alignment that isn't the natural one, and
    /// an offset of 2^32 or more where a is `i32`.
    fn visit_i32_atomic_rmw16_and_u(&mut self, memarg: MemArg) -> Self::Output
        requires { can_visit self.old (Atomic (AtomicRmw (Packed I32Bits16) AtomicRmwOp.And memarg)) }
        ensures { visits self.old
            (Atomic (AtomicRmw (Packed I32Bits16) AtomicRmwOp.And memarg)) result self.new };

    /// `i64.atomic.rmw8.and_u`: `[a i64] -> [i64]`, where a is the address type of the memory. Proposal:
    /// threads. Refuses a memory that isn't there, an array, an alignment that isn't the natural one, and
    /// an offset of 2^32 or more where a is `i32`.
    fn visit_i64_atomic_rmw8_and_u(&mut self, memarg: MemArg) -> Self::Output
        requires { can_visit self.old (Atomic (AtomicRmw (Packed I64Bits8) AtomicRmwOp.And memarg)) }
        ensures { visits self.old
            (Atomic (AtomicRmw (Packed I64Bits8) AtomicRmwOp.And memarg)) result self.new };

    /// `i64.atomic.rmw16.and_u`: `[a i64] -> [i64]`, where a is the address type of the memory. Proposal:
    /// threads. Refuses a memory that isn't there, an array, an alignment that isn't the natural one, and
    /// an offset of 2^32 or more where a is `i32`.
    fn visit_i64_atomic_rmw16_and_u(&mut self, memarg: MemArg) -> Self::Output
        requires { can_visit self.old (Atomic (AtomicRmw (Packed I64Bits16) AtomicRmwOp.And memarg)) }
        ensures { visits self.old
            (Atomic (AtomicRmw (Packed I64Bits16) AtomicRmwOp.And memarg)) result self.new };

    /// `i64.atomic.rmw32.and_u`: `[a i64] -> [i64]`, where a is the address type of the memory. Proposal:
    /// threads. Refuses a memory that isn't there, an array, an alignment that isn't the natural one, and
    /// an offset of 2^32 or more where a is `i32`.
    fn visit_i64_atomic_rmw32_and_u(&mut self, memarg: MemArg) -> Self::Output
        requires { can_visit self.old (Atomic (AtomicRmw (Packed I64Bits32) AtomicRmwOp.And memarg)) }
        ensures { visits self.old
            (Atomic (AtomicRmw (Packed I64Bits32) AtomicRmwOp.And memarg)) result self.new };

    /// `i32.atomic.rmw.or`: `[a i32] -> [i32]`, where a is the address type of the memory. Proposal:
    /// threads. Refuses a memory that isn't there, an array, an alignment that isn't the natural one, and
    /// an offset of 2^32 or more where a is `i32`.
    fn visit_i32_atomic_rmw_or(&mut self, memarg: MemArg) -> Self::Output
        requires { can_visit self.old (Atomic (AtomicRmw (Whole IntegerType.I32) AtomicRmwOp.Or memarg)) }
        ensures { visits self.old
            (Atomic (AtomicRmw (Whole IntegerType.I32) AtomicRmwOp.Or memarg)) result self.new };

    /// `i64.atomic.rmw.or`: `[a i64] -> [i64]`, where a is the address type of the memory. Proposal:
    /// threads. Refuses a memory that isn't there, an array, an alignment that isn't the natural one, and
    /// an offset of 2^32 or more where a is `i32`.
    fn visit_i64_atomic_rmw_or(&mut self, memarg: MemArg) -> Self::Output
        requires { can_visit self.old (Atomic (AtomicRmw (Whole IntegerType.I64) AtomicRmwOp.Or memarg)) }
        ensures { visits self.old
            (Atomic (AtomicRmw (Whole IntegerType.I64) AtomicRmwOp.Or memarg)) result self.new };

    /// `i32.atomic.rmw8.or_u`: `[a i32] -> [i32]`, where a is the address type of the memory. Proposal:
    /// threads. Refuses a memory that isn't there, an array, an alignment that isn't the natural one, and
    /// an offset of 2^32 or more where a is `i32`.
    fn visit_i32_atomic_rmw8_or_u(&mut self, memarg: MemArg) -> Self::Output
        requires { can_visit self.old (Atomic (AtomicRmw (Packed I32Bits8) AtomicRmwOp.Or memarg)) }
        ensures { visits self.old
            (Atomic (AtomicRmw (Packed I32Bits8) AtomicRmwOp.Or memarg)) result self.new };

    /// `i32.atomic.rmw16.or_u`: `[a i32] -> [i32]`, where a is the address type of the memory. Proposal:
    /// threads. Refuses a memory that isn't there, an array, an alignment that isn't the natural one, and
    /// an offset of 2^32 or more where a is `i32`.
    fn visit_i32_atomic_rmw16_or_u(&mut self, memarg: MemArg) -> Self::Output
        requires { can_visit self.old (Atomic (AtomicRmw (Packed I32Bits16) AtomicRmwOp.Or memarg)) }
        ensures { visits self.old
            (Atomic (AtomicRmw (Packed I32Bits16) AtomicRmwOp.Or memarg)) result self.new };

    /// `i64.atomic.rmw8.or_u`: `[a i64] -> [i64]`, where a is the address type of the memory. Proposal:
    /// threads. Refuses a memory that isn't there, an array, an alignment that isn't the natural one, and
    /// an offset of 2^32 or more where a is `i32`.
    fn visit_i64_atomic_rmw8_or_u(&mut self, memarg: MemArg) -> Self::Output
        requires { can_visit self.old (Atomic (AtomicRmw (Packed I64Bits8) AtomicRmwOp.Or memarg)) }
        ensures { visits self.old
            (Atomic (AtomicRmw (Packed I64Bits8) AtomicRmwOp.Or memarg)) result self.new };

    /// `i64.atomic.rmw16.or_u`: `[a i64] -> [i64]`, where a is the address type of the memory. Proposal:
    /// threads. Refuses a memory that isn't there, an array, an alignment that isn't the natural one, and
    /// an offset of 2^32 or more where a is `i32`.
    fn visit_i64_atomic_rmw16_or_u(&mut self, memarg: MemArg) -> Self::Output
        requires { can_visit self.old (Atomic (AtomicRmw (Packed I64Bits16) AtomicRmwOp.Or memarg)) }
        ensures { visits self.old
            (Atomic (AtomicRmw (Packed I64Bits16) AtomicRmwOp.Or memarg)) result self.new };

    /// `i64.atomic.rmw32.or_u`: `[a i64] -> [i64]`, where a is the address type of the memory. Proposal:
    /// threads. Refuses a memory that isn't there, an array, an alignment that isn't the natural one, and
    /// an offset of 2^32 or more where a is `i32`.
    fn visit_i64_atomic_rmw32_or_u(&mut self, memarg: MemArg) -> Self::Output
        requires { can_visit self.old (Atomic (AtomicRmw (Packed I64Bits32) AtomicRmwOp.Or memarg)) }
        ensures { visits self.old
            (Atomic (AtomicRmw (Packed I64Bits32) AtomicRmwOp.Or memarg)) result self.new };

    /// `i32.atomic.rmw.xor`: `[a i32] -> [i32]`, where a is the address type of the memory. Proposal:
    /// threads. Refuses a memory that isn't there, an array, an alignment that isn't the natural one, and
    /// an offset of 2^32 or more where a is `i32`.
    fn visit_i32_atomic_rmw_xor(&mut self, memarg: MemArg) -> Self::Output
        requires { can_visit self.old (Atomic (AtomicRmw (Whole IntegerType.I32) AtomicRmwOp.Xor memarg)) }
        ensures { visits self.old
            (Atomic (AtomicRmw (Whole IntegerType.I32) AtomicRmwOp.Xor memarg)) result self.new };

    /// `i64.atomic.rmw.xor`: `[a i64] -> [i64]`, where a is the address type of the memory. Proposal:
    /// threads. Refuses a memory that isn't there, an array, an alignment that isn't the natural one, and
    /// an offset of 2^32 or more where a is `i32`.
    fn visit_i64_atomic_rmw_xor(&mut self, memarg: MemArg) -> Self::Output
        requires { can_visit self.old (Atomic (AtomicRmw (Whole IntegerType.I64) AtomicRmwOp.Xor memarg)) }
        ensures { visits self.old
            (Atomic (AtomicRmw (Whole IntegerType.I64) AtomicRmwOp.Xor memarg)) result self.new };

    /// `i32.atomic.rmw8.xor_u`: `[a i32] -> [i32]`, where a is the address type of the memory. Proposal:
    /// threads. Refuses a memory that isn't there, an array, an alignment that isn't the natural one, and
    /// an offset of 2^32 or more where a is `i32`.
    fn visit_i32_atomic_rmw8_xor_u(&mut self, memarg: MemArg) -> Self::Output
        requires { can_visit self.old (Atomic (AtomicRmw (Packed I32Bits8) AtomicRmwOp.Xor memarg)) }
        ensures { visits self.old
            (Atomic (AtomicRmw (Packed I32Bits8) AtomicRmwOp.Xor memarg)) result self.new };

    /// `i32.atomic.rmw16.xor_u`: `[a i32] -> [i32]`, where a is the address type of the memory. Proposal:
    /// threads. Refuses a memory that isn't there, an array, an alignment that isn't the natural one, and
    /// an offset of 2^32 or more where a is `i32`.
    fn visit_i32_atomic_rmw16_xor_u(&mut self, memarg: MemArg) -> Self::Output
        requires { can_visit self.old (Atomic (AtomicRmw (Packed I32Bits16) AtomicRmwOp.Xor memarg)) }
        ensures { visits self.old
            (Atomic (AtomicRmw (Packed I32Bits16) AtomicRmwOp.Xor memarg)) result self.new };

    /// `i64.atomic.rmw8.xor_u`: `[a i64] -> [i64]`, where a is the address type of the memory. Proposal:
    /// threads. Refuses a memory that isn't there, an array, an alignment that isn't the natural one, and
    /// an offset of 2^32 or more where a is `i32`.
    fn visit_i64_atomic_rmw8_xor_u(&mut self, memarg: MemArg) -> Self::Output
        requires { can_visit self.old (Atomic (AtomicRmw (Packed I64Bits8) AtomicRmwOp.Xor memarg)) }
        ensures { visits self.old
            (Atomic (AtomicRmw (Packed I64Bits8) AtomicRmwOp.Xor memarg)) result self.new };

    /// `i64.atomic.rmw16.xor_u`: `[a i64] -> [i64]`, where a is the address type of the memory. Proposal:
    /// threads. Refuses a memory that isn't there, an array, an alignment that isn't the natural one, and
    /// an offset of 2^32 or more where a is `i32`.
    fn visit_i64_atomic_rmw16_xor_u(&mut self, memarg: MemArg) -> Self::Output
        requires { can_visit self.old (Atomic (AtomicRmw (Packed I64Bits16) AtomicRmwOp.Xor memarg)) }
        ensures { visits self.old
            (Atomic (AtomicRmw (Packed I64Bits16) AtomicRmwOp.Xor memarg)) result self.new };

    /// `i64.atomic.rmw32.xor_u`: `[a i64] -> [i64]`, where a is the address type of the memory. Proposal:
    /// threads. Refuses a memory that isn't there, an array, an alignment that isn't the natural one, and
    /// an offset of 2^32 or more where a is `i32`.
    fn visit_i64_atomic_rmw32_xor_u(&mut self, memarg: MemArg) -> Self::Output
        requires { can_visit self.old (Atomic (AtomicRmw (Packed I64Bits32) AtomicRmwOp.Xor memarg)) }
        ensures { visits self.old
            (Atomic (AtomicRmw (Packed I64Bits32) AtomicRmwOp.Xor memarg)) result self.new };

    /// `i32.atomic.rmw.xchg`: `[a i32] -> [i32]`, where a is the address type of the memory. Proposal:
    /// threads. Refuses a memory that isn't there, an array, an alignment that isn't the natural one, and
    /// an offset of 2^32 or more where a is `i32`.
    fn visit_i32_atomic_rmw_xchg(&mut self, memarg: MemArg) -> Self::Output
        requires { can_visit self.old (Atomic (AtomicRmw (Whole IntegerType.I32) AtomicRmwOp.Xchg memarg)) }
        ensures { visits self.old
            (Atomic (AtomicRmw (Whole IntegerType.I32) AtomicRmwOp.Xchg memarg)) result self.new };

    /// `i64.atomic.rmw.xchg`: `[a i64] -> [i64]`, where a is the address type of the memory. Proposal:
    /// threads. Refuses a memory that isn't there, an array, an alignment that isn't the natural one, and
    /// an offset of 2^32 or more where a is `i32`.
    fn visit_i64_atomic_rmw_xchg(&mut self, memarg: MemArg) -> Self::Output
        requires { can_visit self.old (Atomic (AtomicRmw (Whole IntegerType.I64) AtomicRmwOp.Xchg memarg)) }
        ensures { visits self.old
            (Atomic (AtomicRmw (Whole IntegerType.I64) AtomicRmwOp.Xchg memarg)) result self.new };

    /// `i32.atomic.rmw8.xchg_u`: `[a i32] -> [i32]`, where a is the address type of the memory. Proposal:
    /// threads. Refuses a memory that isn't there, an array, an alignment that isn't the natural one, and
    /// an offset of 2^32 or more where a is `i32`.
    fn visit_i32_atomic_rmw8_xchg_u(&mut self, memarg: MemArg) -> Self::Output
        requires { can_visit self.old (Atomic (AtomicRmw (Packed I32Bits8) AtomicRmwOp.Xchg memarg)) }
        ensures { visits self.old
            (Atomic (AtomicRmw (Packed I32Bits8) AtomicRmwOp.Xchg memarg)) result self.new };

    /// `i32.atomic.rmw16.xchg_u`: `[a i32] -> [i32]`, where a is the address type of the memory.
    /// Proposal: threads. Refuses a memory that isn't there, an array, an alignment that isn't the
    /// natural one, and an offset of 2^32 or more where a is `i32`.
    fn visit_i32_atomic_rmw16_xchg_u(&mut self, memarg: MemArg) -> Self::Output
        requires { can_visit self.old (Atomic (AtomicRmw (Packed I32Bits16) AtomicRmwOp.Xchg memarg)) }
        ensures { visits self.old
            (Atomic (AtomicRmw (Packed I32Bits16) AtomicRmwOp.Xchg memarg)) result self.new };

    /// `i64.atomic.rmw8.xchg_u`: `[a i64] -> [i64]`, where a is the address type of the memory. Proposal:
    /// threads. Refuses a memory that isn't there, an array, an alignment that isn't the natural one, and
    /// an offset of 2^32 or more where a is `i32`.
    fn visit_i64_atomic_rmw8_xchg_u(&mut self, memarg: MemArg) -> Self::Output
        requires { can_visit self.old (Atomic (AtomicRmw (Packed I64Bits8) AtomicRmwOp.Xchg memarg)) }
        ensures { visits self.old
            (Atomic (AtomicRmw (Packed I64Bits8) AtomicRmwOp.Xchg memarg)) result self.new };

    /// `i64.atomic.rmw16.xchg_u`: `[a i64] -> [i64]`, where a is the address type of the memory.
    /// Proposal: threads. Refuses a memory that isn't there, an array, an alignment that isn't the
    /// natural one, and an offset of 2^32 or more where a is `i32`.
    fn visit_i64_atomic_rmw16_xchg_u(&mut self, memarg: MemArg) -> Self::Output
        requires { can_visit self.old (Atomic (AtomicRmw (Packed I64Bits16) AtomicRmwOp.Xchg memarg)) }
        ensures { visits self.old
            (Atomic (AtomicRmw (Packed I64Bits16) AtomicRmwOp.Xchg memarg)) result self.new };

    /// `i64.atomic.rmw32.xchg_u`: `[a i64] -> [i64]`, where a is the address type of the memory.
    /// Proposal: threads. Refuses a memory that isn't there, an array, an alignment that isn't the
    /// natural one, and an offset of 2^32 or more where a is `i32`.
    fn visit_i64_atomic_rmw32_xchg_u(&mut self, memarg: MemArg) -> Self::Output
        requires { can_visit self.old (Atomic (AtomicRmw (Packed I64Bits32) AtomicRmwOp.Xchg memarg)) }
        ensures { visits self.old
            (Atomic (AtomicRmw (Packed I64Bits32) AtomicRmwOp.Xchg memarg)) result self.new };

    /// `i32.atomic.rmw.cmpxchg`: `[a i32 i32] -> [i32]`, where a is the address type of the memory.
    /// Proposal: threads. Refuses a memory that isn't there, an array, an alignment that isn't the
    /// natural one, and an offset of 2^32 or more where a is `i32`.
    fn visit_i32_atomic_rmw_cmpxchg(&mut self, memarg: MemArg) -> Self::Output
        requires { can_visit self.old (Atomic (AtomicCmpxchg (Whole IntegerType.I32) memarg)) }
        ensures { visits self.old (Atomic (AtomicCmpxchg (Whole IntegerType.I32) memarg)) result self.new };

    /// `i64.atomic.rmw.cmpxchg`: `[a i64 i64] -> [i64]`, where a is the address type of the memory.
    /// Proposal: threads. Refuses a memory that isn't there, an array, an alignment that isn't the
    /// natural one, and an offset of 2^32 or more where a is `i32`.
    fn visit_i64_atomic_rmw_cmpxchg(&mut self, memarg: MemArg) -> Self::Output
        requires { can_visit self.old (Atomic (AtomicCmpxchg (Whole IntegerType.I64) memarg)) }
        ensures { visits self.old (Atomic (AtomicCmpxchg (Whole IntegerType.I64) memarg)) result self.new };

    /// `i32.atomic.rmw8.cmpxchg_u`: `[a i32 i32] -> [i32]`, where a is the address type of the memory.
    /// Proposal: threads. Refuses a memory that isn't there, an array, an alignment that isn't the
    /// natural one, and an offset of 2^32 or more where a is `i32`.
    fn visit_i32_atomic_rmw8_cmpxchg_u(&mut self, memarg: MemArg) -> Self::Output
        requires { can_visit self.old (Atomic (AtomicCmpxchg (Packed I32Bits8) memarg)) }
        ensures { visits self.old (Atomic (AtomicCmpxchg (Packed I32Bits8) memarg)) result self.new };

    /// `i32.atomic.rmw16.cmpxchg_u`: `[a i32 i32] -> [i32]`, where a is the address type of the memory.
    /// Proposal: threads. Refuses a memory that isn't there, an array, an alignment that isn't the
    /// natural one, and an offset of 2^32 or more where a is `i32`.
    fn visit_i32_atomic_rmw16_cmpxchg_u(&mut self, memarg: MemArg) -> Self::Output
        requires { can_visit self.old (Atomic (AtomicCmpxchg (Packed I32Bits16) memarg)) }
        ensures { visits self.old (Atomic (AtomicCmpxchg (Packed I32Bits16) memarg)) result self.new };

    /// `i64.atomic.rmw8.cmpxchg_u`: `[a i64 i64] -> [i64]`, where a is the address type of the memory.
    /// Proposal: threads. Refuses a memory that isn't there, an array, an alignment that isn't the
    /// natural one, and an offset of 2^32 or more where a is `i32`.
    fn visit_i64_atomic_rmw8_cmpxchg_u(&mut self, memarg: MemArg) -> Self::Output
        requires { can_visit self.old (Atomic (AtomicCmpxchg (Packed I64Bits8) memarg)) }
        ensures { visits self.old (Atomic (AtomicCmpxchg (Packed I64Bits8) memarg)) result self.new };

    /// `i64.atomic.rmw16.cmpxchg_u`: `[a i64 i64] -> [i64]`, where a is the address type of the memory.
    /// Proposal: threads. Refuses a memory that isn't there, an array, an alignment that isn't the
    /// natural one, and an offset of 2^32 or more where a is `i32`.
    fn visit_i64_atomic_rmw16_cmpxchg_u(&mut self, memarg: MemArg) -> Self::Output
        requires { can_visit self.old (Atomic (AtomicCmpxchg (Packed I64Bits16) memarg)) }
        ensures { visits self.old (Atomic (AtomicCmpxchg (Packed I64Bits16) memarg)) result self.new };

    /// `i64.atomic.rmw32.cmpxchg_u`: `[a i64 i64] -> [i64]`, where a is the address type of the memory.
    /// Proposal: threads. Refuses a memory that isn't there, an array, an alignment that isn't the
    /// natural one, and an offset of 2^32 or more where a is `i32`.
    fn visit_i64_atomic_rmw32_cmpxchg_u(&mut self, memarg: MemArg) -> Self::Output
        requires { can_visit self.old (Atomic (AtomicCmpxchg (Packed I64Bits32) memarg)) }
        ensures { visits self.old (Atomic (AtomicCmpxchg (Packed I64Bits32) memarg)) result self.new };

    /// `pause`: `[] -> []`. Proposal: acquire-release atomics.
    fn visit_pause(&mut self) -> Self::Output
        requires { can_visit self.old (Atomic Pause) }
        ensures { visits self.old (Atomic Pause) result self.new };

    /// `ref.null ht`: `[] -> [(ref null ht)]`. Proposal: reference types. Refuses a heap type that isn't
    /// there or whose proposal is off.
    fn visit_ref_null(&mut self, heap_type: HeapType) -> Self::Output
        requires { can_visit self.old (Op.Reference (ReferenceOp.RefNull heap_type)) }
        ensures { visits self.old (Op.Reference (ReferenceOp.RefNull heap_type)) result self.new };

    /// `ref.is_null`: `[(ref null ht)] -> [i32]`, where ht is any heap type. Proposal: reference types.
    fn visit_ref_is_null(&mut self) -> Self::Output
        requires { can_visit self.old (Op.Reference ReferenceOp.RefIsNull) }
        ensures { visits self.old (Op.Reference ReferenceOp.RefIsNull) result self.new };

    /// `ref.func`: `[] -> [(ref N)]`, where N is the type of the function. Proposal: reference types.
    /// Refuses a function that isn't there, and one that the module doesn't let be referred to
    /// (`is_function_referenced`).
    fn visit_ref_func(&mut self, function_index: u32) -> Self::Output
        requires { can_visit self.old (Op.Reference (ReferenceOp.RefFunc function_index)) }
        ensures { visits self.old (Op.Reference (ReferenceOp.RefFunc function_index)) result self.new };

    /// `ref.as_non_null`: `[(ref null ht)] -> [(ref ht)]`, where ht is any heap type. Proposal: function
    /// references.
    fn visit_ref_as_non_null(&mut self) -> Self::Output
        requires { can_visit self.old (Op.Reference ReferenceOp.RefAsNonNull) }
        ensures { visits self.old (Op.Reference ReferenceOp.RefAsNonNull) result self.new };

    /// `br_on_null`: `[t* (ref null ht)] -> [t* (ref ht)]`, where t* are the types of the label, and ht
    /// is any heap type. Proposal: function references. Refuses a label that isn't there.
    fn visit_br_on_null(&mut self, relative_depth: u32) -> Self::Output
        requires { can_visit self.old (Op.Reference (ReferenceOp.BrOnNull relative_depth)) }
        ensures { visits self.old (Op.Reference (ReferenceOp.BrOnNull relative_depth)) result self.new };

    /// `br_on_non_null`: `[t* (ref null ht)] -> [t*]`, where the types of the label are t* and a
    /// reference to ht. Proposal: function references. Refuses a label that isn't there, and one whose
    /// last type isn't a reference.
    fn visit_br_on_non_null(&mut self, relative_depth: u32) -> Self::Output
        requires { can_visit self.old (Op.Reference (ReferenceOp.BrOnNonNull relative_depth)) }
        ensures { visits self.old (Op.Reference (ReferenceOp.BrOnNonNull relative_depth)) result self.new };

    /// `table.get`: `[a] -> [t]`, where a is the address type of the table and t the type of its
    /// elements. Proposal: reference types. Refuses a table that isn't there.
    fn visit_table_get(&mut self, table: u32) -> Self::Output
        requires { can_visit self.old (Op.Table (TableOp.TableGet table)) }
        ensures { visits self.old (Op.Table (TableOp.TableGet table)) result self.new };

    /// `table.set`: `[a t] -> []`, where a is the address type of the table and t the type of its
    /// elements. Proposal: reference types. Refuses a table that isn't there.
    fn visit_table_set(&mut self, table: u32) -> Self::Output
        requires { can_visit self.old (Op.Table (TableOp.TableSet table)) }
        ensures { visits self.old (Op.Table (TableOp.TableSet table)) result self.new };

    /// `table.grow`: `[t a] -> [a]`, where a is the address type of the table and t the type of its
    /// elements. Proposal: reference types. Refuses a table that isn't there.
    fn visit_table_grow(&mut self, table: u32) -> Self::Output
        requires { can_visit self.old (Op.Table (TableOp.TableGrow table)) }
        ensures { visits self.old (Op.Table (TableOp.TableGrow table)) result self.new };

    /// `table.size`: `[] -> [a]`, where a is the address type of the table. Proposal: reference types.
    /// Refuses a table that isn't there.
    fn visit_table_size(&mut self, table: u32) -> Self::Output
        requires { can_visit self.old (Op.Table (TableOp.TableSize table)) }
        ensures { visits self.old (Op.Table (TableOp.TableSize table)) result self.new };

    /// `table.fill`: `[a t a] -> []`, where a is the address type of the table and t the type of its
    /// elements. Proposal: reference types. Refuses a table that isn't there.
    fn visit_table_fill(&mut self, table: u32) -> Self::Output
        requires { can_visit self.old (Op.Table (TableOp.TableFill table)) }
        ensures { visits self.old (Op.Table (TableOp.TableFill table)) result self.new };

    /// `table.init`: `[a i32 i32] -> []`, where a is the address type of the table. Proposal: bulk
    /// memory. Refuses a table that isn't there, an element segment that isn't there, and one whose type
    /// isn't below that of the table's elements.
    fn visit_table_init(&mut self, elem_index: u32, table: u32) -> Self::Output
        requires { can_visit self.old (Op.Table (TableOp.TableInit elem_index table)) }
        ensures { visits self.old (Op.Table (TableOp.TableInit elem_index table)) result self.new };

    /// `elem.drop`: `[] -> []`. Proposal: bulk memory. Refuses an element segment that isn't there.
    fn visit_elem_drop(&mut self, elem_index: u32) -> Self::Output
        requires { can_visit self.old (Op.Table (TableOp.ElemDrop elem_index)) }
        ensures { visits self.old (Op.Table (TableOp.ElemDrop elem_index)) result self.new };

    /// `table.copy`: `[a b c] -> []`, where a and b are the address types of the tables that are written
    /// and read, and c is `i32` if either is, else `i64`. Proposal: bulk memory. Refuses a table that
    /// isn't there, and one that is read whose element type isn't below that of the other.
    fn visit_table_copy(&mut self, dst_table: u32, src_table: u32) -> Self::Output
        requires { can_visit self.old (Op.Table (TableOp.TableCopy dst_table src_table)) }
        ensures { visits self.old (Op.Table (TableOp.TableCopy dst_table src_table)) result self.new };

    /// `ref.eq`: `[(ref null eq) (ref null eq)] -> [i32]`, of shared references too. Proposal: gc.
    /// Refuses a shared reference beside an unshared one.
    fn visit_ref_eq(&mut self) -> Self::Output
        requires { can_visit self.old (Op.Reference ReferenceOp.RefEq) }
        ensures { visits self.old (Op.Reference ReferenceOp.RefEq) result self.new };

    /// `ref.test (ref ht)`: `[(ref null top)] -> [i32]`, where top is the top type above ht. Proposal:
    /// gc. Refuses a heap type that isn't there or whose proposal is off, and one of continuations.
    fn visit_ref_test_non_null(&mut self, heap_type: HeapType) -> Self::Output
        requires { can_visit self.old (Op.Reference (ReferenceOp.RefTestNonNull heap_type)) }
        ensures { visits self.old (Op.Reference (ReferenceOp.RefTestNonNull heap_type)) result self.new };

    /// `ref.test (ref null ht)`: `[(ref null top)] -> [i32]`, where top is the top type above ht.
    /// Proposal: gc. Refuses a heap type that isn't there or whose proposal is off, and one of
    /// continuations.
    fn visit_ref_test_nullable(&mut self, heap_type: HeapType) -> Self::Output
        requires { can_visit self.old (Op.Reference (ReferenceOp.RefTestNullable heap_type)) }
        ensures { visits self.old (Op.Reference (ReferenceOp.RefTestNullable heap_type)) result self.new };

    /// `ref.cast (ref ht)`: `[(ref null top)] -> [(ref ht)]`, where top is the top type above ht.
    /// Proposal: gc. Refuses a heap type that isn't there or whose proposal is off, and one of
    /// continuations.
    fn visit_ref_cast_non_null(&mut self, heap_type: HeapType) -> Self::Output
        requires { can_visit self.old (Op.Reference (ReferenceOp.RefCastNonNull heap_type)) }
        ensures { visits self.old (Op.Reference (ReferenceOp.RefCastNonNull heap_type)) result self.new };

    /// `ref.cast (ref null ht)`: `[(ref null top)] -> [(ref null ht)]`, where top is the top type above
    /// ht. Proposal: gc. Refuses a heap type that isn't there or whose proposal is off, and one of
    /// continuations.
    fn visit_ref_cast_nullable(&mut self, heap_type: HeapType) -> Self::Output
        requires { can_visit self.old (Op.Reference (ReferenceOp.RefCastNullable heap_type)) }
        ensures { visits self.old (Op.Reference (ReferenceOp.RefCastNullable heap_type)) result self.new };

    /// `br_on_cast`: `[t* A] -> [t* C]`, from A to B, where the types of the label are t* and one above
    /// B, and C is A, without null if B has null. Proposal: gc. Refuses types that aren't valid, a B that
    /// isn't below A or is of continuations, and a label without such types.
    fn visit_br_on_cast(
        &mut self,
        relative_depth: u32,
        from_ref_type: RefType,
        to_ref_type: RefType,
    ) -> Self::Output
        requires { can_visit self.old (Op.Reference (ReferenceOp.BrOnCast (record {
          relative_depth =
              relative_depth;
          from_ref_type = from_ref_type;
          to_ref_type = to_ref_type;
        }))) }
        ensures { visits self.old (Op.Reference (ReferenceOp.BrOnCast (record {
          relative_depth =
              relative_depth;
          from_ref_type = from_ref_type;
          to_ref_type = to_ref_type;
        }))) result self.new };

    /// `br_on_cast_fail`: `[t* A] -> [t* B]`, from A to B, where the types of the label are t* and one
    /// above A, which is without null there if B has null. Proposal: gc. Refuses types that aren't valid,
    /// a B that isn't below A or is of continuations, and a label without such types.
    fn visit_br_on_cast_fail(
        &mut self,
        relative_depth: u32,
        from_ref_type: RefType,
        to_ref_type: RefType,
    ) -> Self::Output
        requires { can_visit self.old (Op.Reference (ReferenceOp.BrOnCastFail (record {
          relative_depth =
              relative_depth;
          from_ref_type = from_ref_type;
          to_ref_type = to_ref_type;
        }))) }
        ensures { visits self.old (Op.Reference (ReferenceOp.BrOnCastFail (record {
          relative_depth =
              relative_depth;
          from_ref_type = from_ref_type;
          to_ref_type = to_ref_type;
        }))) result self.new };

    /// `ref.get_desc`: `[(ref null N)] -> [(ref D)]`, where D is the type of the descriptors of the type N; exact
    /// where the operand is exact in N, or may be anything. Proposal: custom descriptors. Refuses an index that
    /// names no type with descriptors.
    fn visit_ref_get_desc(&mut self, type_index: u32) -> Self::Output
        requires { can_visit self.old (Op.Reference (ReferenceOp.RefGetDesc type_index)) }
        ensures { visits self.old (Op.Reference (ReferenceOp.RefGetDesc type_index)) result self.new };

    /// `ref.cast_desc_eq (ref ht)`: `[(ref null top) (ref null D)] -> [(ref ht)]`, where top is the top type above
    /// ht, and D the type of the descriptors of ht. Proposal: custom descriptors. Refuses a heap type that isn't
    /// one of the module with descriptors, and, where it is exact, a descriptor that isn't.
    fn visit_ref_cast_desc_eq_non_null(&mut self, heap_type: HeapType) -> Self::Output
        requires { can_visit self.old (Op.Reference (ReferenceOp.RefCastDescEqNonNull heap_type)) }
        ensures { visits self.old (Op.Reference (ReferenceOp.RefCastDescEqNonNull heap_type)) result
            self.new };

    /// `ref.cast_desc_eq (ref null ht)`: `[(ref null top) (ref null D)] -> [(ref null ht)]`, with top and D as
    /// above. Proposal: custom descriptors. Refuses as that does.
    fn visit_ref_cast_desc_eq_nullable(&mut self, heap_type: HeapType) -> Self::Output
        requires { can_visit self.old (Op.Reference (ReferenceOp.RefCastDescEqNullable heap_type)) }
        ensures { visits self.old (Op.Reference (ReferenceOp.RefCastDescEqNullable heap_type)) result
            self.new };

    /// `br_on_cast_desc_eq`: `[t* A (ref null D)] -> [t* C]`, as `br_on_cast` from A to B, where D is the type of
    /// the descriptors of B. Proposal: custom descriptors. Refuses as `br_on_cast` and `ref.cast_desc_eq` do.
    fn visit_br_on_cast_desc_eq(
        &mut self,
        relative_depth: u32,
        from_ref_type: RefType,
        to_ref_type: RefType,
    ) -> Self::Output
        requires { can_visit self.old (Op.Reference (ReferenceOp.BrOnCastDescEq (record {
          relative_depth =
              relative_depth;
          from_ref_type = from_ref_type;
          to_ref_type = to_ref_type;
        }))) }
        ensures { visits self.old (Op.Reference (ReferenceOp.BrOnCastDescEq (record {
          relative_depth =
              relative_depth;
          from_ref_type = from_ref_type;
          to_ref_type = to_ref_type;
        }))) result self.new };

    /// `br_on_cast_desc_eq_fail`: `[t* A (ref null D)] -> [t* B]`, as `br_on_cast_fail` from A to B, where D is the
    /// type of the descriptors of B. Proposal: custom descriptors. Refuses as `br_on_cast_fail` and
    /// `ref.cast_desc_eq` do.
    fn visit_br_on_cast_desc_eq_fail(
        &mut self,
        relative_depth: u32,
        from_ref_type: RefType,
        to_ref_type: RefType,
    ) -> Self::Output
        requires { can_visit self.old (Op.Reference (ReferenceOp.BrOnCastDescEqFail (record {
          relative_depth =
              relative_depth;
          from_ref_type = from_ref_type;
          to_ref_type = to_ref_type;
        }))) }
        ensures { visits self.old (Op.Reference (ReferenceOp.BrOnCastDescEqFail (record {
          relative_depth =
              relative_depth;
          from_ref_type = from_ref_type;
          to_ref_type = to_ref_type;
        }))) result self.new };

    /// `any.convert_extern`: `[(ref null extern)] -> [(ref null any)]`, without null if the operand is,
    /// and shared if it is. Proposal: gc.
    fn visit_any_convert_extern(&mut self) -> Self::Output
        requires { can_visit self.old (Op.Reference ReferenceOp.AnyConvertExtern) }
        ensures { visits self.old (Op.Reference ReferenceOp.AnyConvertExtern) result self.new };

    /// `extern.convert_any`: `[(ref null any)] -> [(ref null extern)]`, without null if the operand is,
    /// and shared if it is. Proposal: gc.
    fn visit_extern_convert_any(&mut self) -> Self::Output
        requires { can_visit self.old (Op.Reference ReferenceOp.ExternConvertAny) }
        ensures { visits self.old (Op.Reference ReferenceOp.ExternConvertAny) result self.new };

    /// `ref.i31`: `[i32] -> [(ref i31)]`. Proposal: gc.
    fn visit_ref_i31(&mut self) -> Self::Output
        requires { can_visit self.old (Op.Reference ReferenceOp.RefI31) }
        ensures { visits self.old (Op.Reference ReferenceOp.RefI31) result self.new };

    /// `i31.get_s`: `[(ref null i31)] -> [i32]`, of a shared reference too. Proposal: gc.
    fn visit_i31_get_s(&mut self) -> Self::Output
        requires { can_visit self.old (Op.Reference (ReferenceOp.I31Get Signed)) }
        ensures { visits self.old (Op.Reference (ReferenceOp.I31Get Signed)) result self.new };

    /// `i31.get_u`: `[(ref null i31)] -> [i32]`, of a shared reference too. Proposal: gc.
    fn visit_i31_get_u(&mut self) -> Self::Output
        requires { can_visit self.old (Op.Reference (ReferenceOp.I31Get Unsigned)) }
        ensures { visits self.old (Op.Reference (ReferenceOp.I31Get Unsigned)) result self.new };

    /// `struct.new`: `[t*] -> [(ref N)]`, where t* are the unpacked types of the fields of the struct
    /// type N; the reference is exact where references can be, as are those of all that is allocated.
    /// Proposal: gc. Refuses an index that names no struct type, and one with descriptors.
    fn visit_struct_new(&mut self, struct_type_index: u32) -> Self::Output
        requires { can_visit self.old (Op.Struct (StructOp.StructNew struct_type_index)) }
        ensures { visits self.old (Op.Struct (StructOp.StructNew struct_type_index)) result self.new };

    /// `struct.new_default`: `[] -> [(ref N)]`, where N is the struct type. Proposal: gc. Refuses an
    /// index that names no struct type, and a field without a default value (a reference without null).
    fn visit_struct_new_default(&mut self, struct_type_index: u32) -> Self::Output
        requires { can_visit self.old (Op.Struct (StructOp.StructNewDefault struct_type_index)) }
        ensures { visits self.old (Op.Struct (StructOp.StructNewDefault struct_type_index)) result self.new };

    /// `struct.new_desc`: `[t* (ref null exact D)] -> [(ref N)]`, where t* are the unpacked types of the fields of
    /// the struct type N, and D the type of its descriptors; the reference is exact. Proposal: custom descriptors.
    /// Refuses an index that names no struct type with descriptors.
    fn visit_struct_new_desc(&mut self, struct_type_index: u32) -> Self::Output
        requires { can_visit self.old (Op.Struct (StructOp.StructNewDesc struct_type_index)) }
        ensures { visits self.old (Op.Struct (StructOp.StructNewDesc struct_type_index)) result self.new };

    /// `struct.new_default_desc`: `[(ref null exact D)] -> [(ref N)]`, where N is the struct type, and D the type of
    /// its descriptors; the reference is exact. Proposal: custom descriptors. Refuses an index that names no struct
    /// type with descriptors, and a field without a default value.
    fn visit_struct_new_default_desc(&mut self, struct_type_index: u32) -> Self::Output
        requires { can_visit self.old (Op.Struct (StructOp.StructNewDefaultDesc struct_type_index)) }
        ensures { visits self.old (Op.Struct (StructOp.StructNewDefaultDesc struct_type_index)) result
            self.new };

    /// `struct.get`: `[(ref null N)] -> [t]`, where t is the type of the field of the struct type N.
    /// Proposal: gc. Refuses an index that names no struct type, a field that isn't there, and a packed
    /// one.
    fn visit_struct_get(&mut self, struct_type_index: u32, field_index: u32) -> Self::Output
        requires { can_visit self.old (Op.Struct (StructOp.StructGet (record {
          struct_type_index =
              struct_type_index;
          field_index = field_index;
        }))) }
        ensures { visits self.old (Op.Struct (StructOp.StructGet (record {
          struct_type_index =
              struct_type_index;
          field_index = field_index;
        }))) result self.new };

    /// `struct.get_s`: `[(ref null N)] -> [i32]`, where N is the struct type. Proposal: gc. Refuses an
    /// index that names no struct type, a field that isn't there, and one that isn't packed.
    fn visit_struct_get_s(&mut self, struct_type_index: u32, field_index: u32) -> Self::Output
        requires { can_visit self.old (Op.Struct (StructOp.StructGetPacked Signed (record {
          struct_type_index = struct_type_index;
          field_index = field_index;
        }))) }
        ensures { visits self.old (Op.Struct (StructOp.StructGetPacked Signed (record {
          struct_type_index =
              struct_type_index;
          field_index = field_index;
        }))) result self.new };

    /// `struct.get_u`: `[(ref null N)] -> [i32]`, where N is the struct type. Proposal: gc. Refuses an
    /// index that names no struct type, a field that isn't there, and one that isn't packed.
    fn visit_struct_get_u(&mut self, struct_type_index: u32, field_index: u32) -> Self::Output
        requires { can_visit self.old (Op.Struct (StructOp.StructGetPacked Unsigned (record {
          struct_type_index = struct_type_index;
          field_index = field_index;
        }))) }
        ensures { visits self.old (Op.Struct (StructOp.StructGetPacked Unsigned (record {
          struct_type_index
              = struct_type_index;
          field_index = field_index;
        }))) result self.new };

    /// `struct.set`: `[(ref null N) t] -> []`, where t is the unpacked type of the field of the struct
    /// type N. Proposal: gc. Refuses an index that names no struct type, a field that isn't there, and
    /// one that isn't mutable.
    fn visit_struct_set(&mut self, struct_type_index: u32, field_index: u32) -> Self::Output
        requires { can_visit self.old (Op.Struct (StructOp.StructSet (record {
          struct_type_index =
              struct_type_index;
          field_index = field_index;
        }))) }
        ensures { visits self.old (Op.Struct (StructOp.StructSet (record {
          struct_type_index =
              struct_type_index;
          field_index = field_index;
        }))) result self.new };

    /// `array.new`: `[t i32] -> [(ref N)]`, where t is the unpacked type of the elements of the array
    /// type N. Proposal: gc. Refuses an index that names no array type.
    fn visit_array_new(&mut self, array_type_index: u32) -> Self::Output
        requires { can_visit self.old (Op.Array (ArrayOp.ArrayNew array_type_index)) }
        ensures { visits self.old (Op.Array (ArrayOp.ArrayNew array_type_index)) result self.new };

    /// `array.new_default`: `[i32] -> [(ref N)]`, where N is the array type. Proposal: gc. Refuses an
    /// index that names no array type, and elements without a default value (references without null).
    fn visit_array_new_default(&mut self, array_type_index: u32) -> Self::Output
        requires { can_visit self.old (Op.Array (ArrayOp.ArrayNewDefault array_type_index)) }
        ensures { visits self.old (Op.Array (ArrayOp.ArrayNewDefault array_type_index)) result self.new };

    /// `array.new_fixed`: `[t*] -> [(ref N)]`, where t* are `array_size` times the unpacked type of the
    /// elements of the array type N. Proposal: gc. Refuses an index that names no array type.
    fn visit_array_new_fixed(&mut self, array_type_index: u32, array_size: u32) -> Self::Output
        requires { can_visit self.old (Op.Array (ArrayOp.ArrayNewFixed array_type_index array_size)) }
        ensures { visits self.old (Op.Array (ArrayOp.ArrayNewFixed array_type_index array_size)) result
            self.new };

    /// `array.new_data`: `[i32 i32] -> [(ref N)]`, where N is the array type. Proposal: gc. Refuses an
    /// index that names no array type, elements that are references, a data segment that isn't there, and
    /// a module without a count of its data segments.
    fn visit_array_new_data(&mut self, array_type_index: u32, array_data_index: u32) -> Self::Output
        requires { can_visit self.old (Op.Array (ArrayOp.ArrayNewData array_type_index array_data_index)) }
        ensures { visits self.old (Op.Array (ArrayOp.ArrayNewData array_type_index array_data_index)) result
            self.new };

    /// `array.new_elem`: `[i32 i32] -> [(ref N)]`, where N is the array type. Proposal: gc. Refuses an
    /// index that names no array type, an element segment that isn't there, and one whose type isn't
    /// below that of the array's elements.
    fn visit_array_new_elem(&mut self, array_type_index: u32, array_elem_index: u32) -> Self::Output
        requires { can_visit self.old (Op.Array (ArrayOp.ArrayNewElem array_type_index array_elem_index)) }
        ensures { visits self.old (Op.Array (ArrayOp.ArrayNewElem array_type_index array_elem_index)) result
            self.new };

    /// `array.get`: `[(ref null N) i32] -> [t]`, where t is the type of the elements of the array type N.
    /// Proposal: gc. Refuses an index that names no array type, and packed elements.
    fn visit_array_get(&mut self, array_type_index: u32) -> Self::Output
        requires { can_visit self.old (Op.Array (ArrayOp.ArrayGet array_type_index)) }
        ensures { visits self.old (Op.Array (ArrayOp.ArrayGet array_type_index)) result self.new };

    /// `array.get_s`: `[(ref null N) i32] -> [i32]`, where N is the array type. Proposal: gc. Refuses an
    /// index that names no array type, and elements that aren't packed.
    fn visit_array_get_s(&mut self, array_type_index: u32) -> Self::Output
        requires { can_visit self.old (Op.Array (ArrayOp.ArrayGetPacked Signed array_type_index)) }
        ensures { visits self.old (Op.Array (ArrayOp.ArrayGetPacked Signed array_type_index)) result
            self.new };

    /// `array.get_u`: `[(ref null N) i32] -> [i32]`, where N is the array type. Proposal: gc. Refuses an
    /// index that names no array type, and elements that aren't packed.
    fn visit_array_get_u(&mut self, array_type_index: u32) -> Self::Output
        requires { can_visit self.old (Op.Array (ArrayOp.ArrayGetPacked Unsigned array_type_index)) }
        ensures { visits self.old (Op.Array (ArrayOp.ArrayGetPacked Unsigned array_type_index)) result
            self.new };

    /// `array.set`: `[(ref null N) i32 t] -> []`, where t is the unpacked type of the elements of the
    /// array type N. Proposal: gc. Refuses an index that names no array type, and elements that aren't
    /// mutable.
    fn visit_array_set(&mut self, array_type_index: u32) -> Self::Output
        requires { can_visit self.old (Op.Array (ArrayOp.ArraySet array_type_index)) }
        ensures { visits self.old (Op.Array (ArrayOp.ArraySet array_type_index)) result self.new };

    /// `array.len`: `[(ref null array)] -> [i32]`, of a shared reference too. Proposal: gc.
    fn visit_array_len(&mut self) -> Self::Output
        requires { can_visit self.old (Op.Array ArrayOp.ArrayLen) }
        ensures { visits self.old (Op.Array ArrayOp.ArrayLen) result self.new };

    /// `array.fill`: `[(ref null N) i32 t i32] -> []`, where t is the unpacked type of the elements of
    /// the array type N. Proposal: gc. Refuses an index that names no array type, and elements that
    /// aren't mutable.
    fn visit_array_fill(&mut self, array_type_index: u32) -> Self::Output
        requires { can_visit self.old (Op.Array (ArrayOp.ArrayFill array_type_index)) }
        ensures { visits self.old (Op.Array (ArrayOp.ArrayFill array_type_index)) result self.new };

    /// `array.copy`: `[(ref null M) i32 (ref null N) i32 i32] -> []`, where the array type M is written
    /// and N is read. Proposal: gc. Refuses an index that names no array type, elements of M that aren't
    /// mutable, and elements of N that don't fit those of M.
    fn visit_array_copy(
        &mut self,
        array_type_index_dst: u32,
        array_type_index_src: u32,
    ) -> Self::Output
        requires { can_visit self.old (Op.Array (ArrayOp.ArrayCopy array_type_index_dst
            array_type_index_src)) }
        ensures { visits self.old (Op.Array (ArrayOp.ArrayCopy array_type_index_dst array_type_index_src))
            result self.new };

    /// `array.init_data`: `[(ref null N) i32 i32 i32] -> []`, where N is the array type. Proposal: gc.
    /// Refuses an index that names no array type, elements that aren't mutable or are references, a data
    /// segment that isn't there, and a module without a count of its data segments.
    fn visit_array_init_data(
        &mut self,
        array_type_index: u32,
        array_data_index: u32,
    ) -> Self::Output
        requires { can_visit self.old (Op.Array (ArrayOp.ArrayInitData array_type_index array_data_index)) }
        ensures { visits self.old (Op.Array (ArrayOp.ArrayInitData array_type_index array_data_index))
            result self.new };

    /// `array.init_elem`: `[(ref null N) i32 i32 i32] -> []`, where N is the array type. Proposal: gc.
    /// Refuses an index that names no array type, elements that aren't mutable, an element segment that
    /// isn't there, and one whose type isn't below that of the array's elements.
    fn visit_array_init_elem(
        &mut self,
        array_type_index: u32,
        array_elem_index: u32,
    ) -> Self::Output
        requires { can_visit self.old (Op.Array (ArrayOp.ArrayInitElem array_type_index array_elem_index)) }
        ensures { visits self.old (Op.Array (ArrayOp.ArrayInitElem array_type_index array_elem_index))
            result self.new };

    /// `try_table`: `[t*] -> [u*]`, the block type, as `block`. Proposal: exceptions. Refuses as `block`,
    /// a tag that isn't there or gives results, and a label of a clause, counted outside the `try_table`,
    /// that isn't there or doesn't take just what the clause carries.
    fn visit_try_table(&mut self, ty: TryTable<'a>) -> Self::Output
        requires { can_visit self.old (Op.Exception (ExceptionOp.TryTable ty)) }
        ensures { visits self.old (Op.Exception (ExceptionOp.TryTable ty.entry)) result self.new };

    /// `throw`: `[t* u*] -> [v*]`, where u* are the parameters of the tag, and t* and v* any types: the
    /// code after it is dead. Proposal: exceptions. Refuses a tag that isn't there or gives results.
    fn visit_throw(&mut self, tag_index: u32) -> Self::Output
        requires { can_visit self.old (Op.Exception (ExceptionOp.Throw tag_index)) }
        ensures { visits self.old (Op.Exception (ExceptionOp.Throw tag_index)) result self.new };

    /// `throw_ref`: `[t* (ref null exn)] -> [v*]`, where t* and v* are any types: the code after it is
    /// dead. Proposal: exceptions.
    fn visit_throw_ref(&mut self) -> Self::Output
        requires { can_visit self.old (Op.Exception ExceptionOp.ThrowRef) }
        ensures { visits self.old (Op.Exception ExceptionOp.ThrowRef) result self.new };

    /// `try`: `[t*] -> [u*]`, the block type, as `block`. Proposal: legacy exceptions. Refuses as
    /// `block`.
    fn visit_try(&mut self, ty: BlockType) -> Self::Output
        requires { can_visit self.old (Op.Exception (ExceptionOp.Try ty)) }
        ensures { visits self.old (Op.Exception (ExceptionOp.Try ty)) result self.new };

    /// `catch`: `[u*] -> [t*]`, where u* are the results of the innermost frame, of which it begins a
    /// part, and t* the parameters of the tag. Proposal: legacy exceptions. Refuses a tag that isn't
    /// there or gives results, operands left below u*, and a frame that isn't of a `try` or a `catch`.
    fn visit_catch(&mut self, tag_index: u32) -> Self::Output
        requires { can_visit self.old (Op.Exception (ExceptionOp.Catch tag_index)) }
        ensures { visits self.old (Op.Exception (ExceptionOp.Catch tag_index)) result self.new };

    /// `catch_all`: `[u*] -> []`, where u* are the results of the innermost frame, of which it begins a
    /// part. Proposal: legacy exceptions. Refuses operands left below u*, and a frame that isn't of a
    /// `try` or a `catch`.
    fn visit_catch_all(&mut self) -> Self::Output
        requires { can_visit self.old (Op.Exception ExceptionOp.CatchAll) }
        ensures { visits self.old (Op.Exception ExceptionOp.CatchAll) result self.new };

    /// `delegate`: `[u*] -> [u*]`, where u* are the results of the innermost frame, which it closes.
    /// Proposal: legacy exceptions. Refuses operands left below u*, a frame that isn't the body of a
    /// `try`, and a label, counted outside it, that isn't there.
    fn visit_delegate(&mut self, relative_depth: u32) -> Self::Output
        requires { can_visit self.old (Op.Exception (ExceptionOp.Delegate relative_depth)) }
        ensures { visits self.old (Op.Exception (ExceptionOp.Delegate relative_depth)) result self.new };

    /// `rethrow`: `[t*] -> [v*]`, where t* and v* are any types: the code after it is dead. Proposal:
    /// legacy exceptions. Refuses a label that isn't there or isn't that of a `catch` or a `catch_all`.
    fn visit_rethrow(&mut self, relative_depth: u32) -> Self::Output
        requires { can_visit self.old (Op.Exception (ExceptionOp.Rethrow relative_depth)) }
        ensures { visits self.old (Op.Exception (ExceptionOp.Rethrow relative_depth)) result self.new };

    /// `cont.new`: `[(ref null F)] -> [(ref N)]`, where F is the function type of the continuation type
    /// N. Proposal: stack switching. Refuses an index that names no continuation type.
    fn visit_cont_new(&mut self, type_index: u32) -> Self::Output
        requires { can_visit self.old (Op.Continuation (ContinuationOp.ContNew type_index)) }
        ensures { visits self.old (Op.Continuation (ContinuationOp.ContNew type_index)) result self.new };

    /// `cont.bind`: `[t* (ref null A)] -> [(ref B)]`, where t* are the parameters of the continuation
    /// type A that B doesn't take. Proposal: stack switching. Refuses an index that names no continuation
    /// type, and a B that doesn't fit what is left of A.
    fn visit_cont_bind(&mut self, argument_index: u32, result_index: u32) -> Self::Output
        requires { can_visit self.old (Op.Continuation (ContinuationOp.ContBind argument_index result_index)) }
        ensures { visits self.old (Op.Continuation (ContinuationOp.ContBind argument_index result_index)) result self.new };

    /// `suspend`: `[t*] -> [u*]`, the type of the tag. Proposal: stack switching. Refuses a tag that
    /// isn't there.
    fn visit_suspend(&mut self, tag_index: u32) -> Self::Output
        requires { can_visit self.old (Op.Continuation (ContinuationOp.Suspend tag_index)) }
        ensures { visits self.old (Op.Continuation (ContinuationOp.Suspend tag_index)) result self.new };

    /// `resume`: `[t* (ref null N)] -> [u*]`, where the continuation type N is of `[t*] -> [u*]`.
    /// Proposal: stack switching. Refuses an index that names no continuation type, and handlers that
    /// don't fit.
    fn visit_resume(&mut self, cont_type_index: u32, resume_table: ResumeTable<'a>) -> Self::Output
        requires { can_visit self.old (Op.Continuation (ContinuationOp.Resume cont_type_index resume_table)) }
        ensures { visits self.old (Op.Continuation (ContinuationOp.Resume cont_type_index resume_table.entry)) result self.new };

    /// `resume_throw`: `[t* (ref null N)] -> [u*]`, where t* are the parameters of the tag, and u* the
    /// results of the continuation type N. Proposal: stack switching. Refuses an index that names no
    /// continuation type, a tag that isn't there or gives results, and handlers that don't fit.
    fn visit_resume_throw(
        &mut self,
        cont_type_index: u32,
        tag_index: u32,
        resume_table: ResumeTable<'a>,
    ) -> Self::Output
        requires { can_visit self.old (Op.Continuation (ContinuationOp.ResumeThrow cont_type_index tag_index resume_table)) }
        ensures { visits self.old (Op.Continuation (ContinuationOp.ResumeThrow cont_type_index tag_index resume_table.entry)) result self.new };

    /// `resume_throw_ref`: `[(ref null exn) (ref null N)] -> [u*]`, where u* are the results of the
    /// continuation type N. Proposal: stack switching. Refuses an index that names no continuation type,
    /// and handlers that don't fit.
    fn visit_resume_throw_ref(
        &mut self,
        cont_type_index: u32,
        resume_table: ResumeTable<'a>,
    ) -> Self::Output
        requires { can_visit self.old (Op.Continuation (ContinuationOp.ResumeThrowRef cont_type_index resume_table)) }
        ensures { visits self.old (Op.Continuation (ContinuationOp.ResumeThrowRef cont_type_index resume_table.entry)) result self.new };

    /// `switch`: `[t* (ref null N)] -> [u*]`, where the continuation type N takes t* and a continuation
    /// that takes u*. Proposal: stack switching. Refuses an N that isn't so, a tag that isn't there or
    /// takes parameters, and results that don't fit the tag's.
    fn visit_switch(&mut self, cont_type_index: u32, tag_index: u32) -> Self::Output
        requires { can_visit self.old (Op.Continuation (ContinuationOp.Switch cont_type_index tag_index)) }
        ensures { visits self.old (Op.Continuation (ContinuationOp.Switch cont_type_index tag_index)) result self.new };

    /// `global.atomic.get`: `[] -> [t]`, where t is the type of the global. Proposal:
    /// shared-everything-threads. Refuses a global that isn't there, and a type that isn't `i32`, `i64`
    /// or below `(ref null any)`.
    fn visit_global_atomic_get(&mut self, ordering: Ordering, global_index: u32) -> Self::Output
        requires { can_visit self.old (Op.Shared (SharedOp.Global (Update.Value Exchange.Get) ordering global_index)) }
        ensures { visits self.old (Op.Shared (SharedOp.Global (Update.Value Exchange.Get) ordering global_index)) result self.new };

    /// `global.atomic.set`: `[t] -> []`, where t is the type of the global. Proposal:
    /// shared-everything-threads. Refuses a global that isn't there, one that isn't mutable, and a type
    /// that isn't `i32`, `i64` or below `(ref null any)`.
    fn visit_global_atomic_set(&mut self, ordering: Ordering, global_index: u32) -> Self::Output
        requires { can_visit self.old (Op.Shared (SharedOp.Global (Update.Value Exchange.Set) ordering global_index)) }
        ensures { visits self.old (Op.Shared (SharedOp.Global (Update.Value Exchange.Set) ordering global_index)) result self.new };

    /// `global.atomic.rmw.add`: `[t] -> [t]`, where t is the type of the global. Proposal:
    /// shared-everything-threads. Refuses a global that isn't there, one that isn't mutable, and a type
    /// that isn't `i32` or `i64`.
    fn visit_global_atomic_rmw_add(&mut self, ordering: Ordering, global_index: u32) -> Self::Output
        requires { can_visit self.old (Op.Shared (SharedOp.Global (Update.Rmw SharedRmwOp.Add) ordering global_index)) }
        ensures { visits self.old (Op.Shared (SharedOp.Global (Update.Rmw SharedRmwOp.Add) ordering global_index)) result self.new };

    /// `global.atomic.rmw.sub`: `[t] -> [t]`, where t is the type of the global. Proposal:
    /// shared-everything-threads. Refuses a global that isn't there, one that isn't mutable, and a type
    /// that isn't `i32` or `i64`.
    fn visit_global_atomic_rmw_sub(&mut self, ordering: Ordering, global_index: u32) -> Self::Output
        requires { can_visit self.old (Op.Shared (SharedOp.Global (Update.Rmw SharedRmwOp.Sub) ordering global_index)) }
        ensures { visits self.old (Op.Shared (SharedOp.Global (Update.Rmw SharedRmwOp.Sub) ordering global_index)) result self.new };

    /// `global.atomic.rmw.and`: `[t] -> [t]`, where t is the type of the global. Proposal:
    /// shared-everything-threads. Refuses a global that isn't there, one that isn't mutable, and a type
    /// that isn't `i32` or `i64`.
    fn visit_global_atomic_rmw_and(&mut self, ordering: Ordering, global_index: u32) -> Self::Output
        requires { can_visit self.old (Op.Shared (SharedOp.Global (Update.Rmw SharedRmwOp.And) ordering global_index)) }
        ensures { visits self.old (Op.Shared (SharedOp.Global (Update.Rmw SharedRmwOp.And) ordering global_index)) result self.new };

    /// `global.atomic.rmw.or`: `[t] -> [t]`, where t is the type of the global. Proposal:
    /// shared-everything-threads. Refuses a global that isn't there, one that isn't mutable, and a type
    /// that isn't `i32` or `i64`.
    fn visit_global_atomic_rmw_or(&mut self, ordering: Ordering, global_index: u32) -> Self::Output
        requires { can_visit self.old (Op.Shared (SharedOp.Global (Update.Rmw SharedRmwOp.Or) ordering global_index)) }
        ensures { visits self.old (Op.Shared (SharedOp.Global (Update.Rmw SharedRmwOp.Or) ordering global_index)) result self.new };

    /// `global.atomic.rmw.xor`: `[t] -> [t]`, where t is the type of the global. Proposal:
    /// shared-everything-threads. Refuses a global that isn't there, one that isn't mutable, and a type
    /// that isn't `i32` or `i64`.
    fn visit_global_atomic_rmw_xor(&mut self, ordering: Ordering, global_index: u32) -> Self::Output
        requires { can_visit self.old (Op.Shared (SharedOp.Global (Update.Rmw SharedRmwOp.Xor) ordering global_index)) }
        ensures { visits self.old (Op.Shared (SharedOp.Global (Update.Rmw SharedRmwOp.Xor) ordering global_index)) result self.new };

    /// `global.atomic.rmw.xchg`: `[t] -> [t]`, where t is the type of the global. Proposal:
    /// shared-everything-threads. Refuses a global that isn't there, one that isn't mutable, and a type
    /// that isn't `i32`, `i64` or below `(ref null any)`.
    fn visit_global_atomic_rmw_xchg(
        &mut self,
        ordering: Ordering,
        global_index: u32,
    ) -> Self::Output
        requires { can_visit self.old (Op.Shared (SharedOp.Global (Update.Value Exchange.Xchg) ordering global_index)) }
        ensures { visits self.old (Op.Shared (SharedOp.Global (Update.Value Exchange.Xchg) ordering global_index)) result self.new };

    /// `global.atomic.rmw.cmpxchg`: `[t t] -> [t]`, where t is the type of the global. Proposal:
    /// shared-everything-threads. Refuses a global that isn't there, one that isn't mutable, and a type
    /// that isn't `i32`, `i64` or below `(ref null eq)`.
    fn visit_global_atomic_rmw_cmpxchg(
        &mut self,
        ordering: Ordering,
        global_index: u32,
    ) -> Self::Output
        requires { can_visit self.old (Op.Shared (SharedOp.Global (Update.Value Exchange.Cmpxchg) ordering global_index)) }
        ensures { visits self.old (Op.Shared (SharedOp.Global (Update.Value Exchange.Cmpxchg) ordering global_index)) result self.new };

    /// `table.atomic.get`: `[a] -> [t]`, where a is the address type of the table and t the type of its
    /// elements. Proposal: shared-everything-threads. Refuses a table that isn't there, and elements that
    /// aren't below `(ref null (shared any))`.
    fn visit_table_atomic_get(&mut self, ordering: Ordering, table: u32) -> Self::Output
        requires { can_visit self.old (Op.Shared (SharedOp.Table Exchange.Get ordering table)) }
        ensures { visits self.old (Op.Shared (SharedOp.Table Exchange.Get ordering table)) result self.new };

    /// `table.atomic.set`: `[a t] -> []`, where a is the address type of the table and t the type of its
    /// elements. Proposal: shared-everything-threads. Refuses a table that isn't there, and elements that
    /// aren't below `(ref null (shared any))`.
    fn visit_table_atomic_set(&mut self, ordering: Ordering, table: u32) -> Self::Output
        requires { can_visit self.old (Op.Shared (SharedOp.Table Exchange.Set ordering table)) }
        ensures { visits self.old (Op.Shared (SharedOp.Table Exchange.Set ordering table)) result self.new };

    /// `table.atomic.rmw.xchg`: `[a t] -> [t]`, where a is the address type of the table and t the type
    /// of its elements. Proposal: shared-everything-threads. Refuses a table that isn't there, and
    /// elements that aren't below `(ref null (shared any))`.
    fn visit_table_atomic_rmw_xchg(&mut self, ordering: Ordering, table: u32) -> Self::Output
        requires { can_visit self.old (Op.Shared (SharedOp.Table Exchange.Xchg ordering table)) }
        ensures { visits self.old (Op.Shared (SharedOp.Table Exchange.Xchg ordering table)) result self.new };

    /// `table.atomic.rmw.cmpxchg`: `[a t t] -> [t]`, where a is the address type of the table and t the
    /// type of its elements. Proposal: shared-everything-threads. Refuses a table that isn't there, and
    /// elements that aren't below `(ref null (shared eq))`.
    fn visit_table_atomic_rmw_cmpxchg(&mut self, ordering: Ordering, table: u32) -> Self::Output
        requires { can_visit self.old (Op.Shared (SharedOp.Table Exchange.Cmpxchg ordering table)) }
        ensures { visits self.old (Op.Shared (SharedOp.Table Exchange.Cmpxchg ordering table)) result self.new };

    /// `struct.atomic.get`: `[(ref null N)] -> [t]`, where t is the type of the field of N. Proposal:
    /// shared-everything-threads. Refuses an index that names no such field, and a type that isn't `i32`,
    /// `i64` or below `(ref null (shared any))`.
    fn visit_struct_atomic_get(
        &mut self,
        ordering: Ordering,
        struct_type_index: u32,
        field_index: u32,
    ) -> Self::Output
        requires { can_visit self.old (Op.Shared (SharedOp.Struct (FieldAccess.Whole (Update.Value Exchange.Get)) ordering (record { struct_type_index = struct_type_index; field_index = field_index }))) }
        ensures { visits self.old (Op.Shared (SharedOp.Struct (FieldAccess.Whole (Update.Value Exchange.Get)) ordering (record { struct_type_index = struct_type_index; field_index = field_index }))) result self.new };

    /// `struct.atomic.get_s`: `[(ref null N)] -> [i32]`, where N is the struct type. Proposal:
    /// shared-everything-threads. Refuses an index that names no such field, and one that isn't packed.
    fn visit_struct_atomic_get_s(
        &mut self,
        ordering: Ordering,
        struct_type_index: u32,
        field_index: u32,
    ) -> Self::Output
        requires { can_visit self.old (Op.Shared (SharedOp.Struct (FieldAccess.GetPacked Signed) ordering (record { struct_type_index = struct_type_index; field_index = field_index }))) }
        ensures { visits self.old (Op.Shared (SharedOp.Struct (FieldAccess.GetPacked Signed) ordering (record { struct_type_index = struct_type_index; field_index = field_index }))) result self.new };

    /// `struct.atomic.get_u`: `[(ref null N)] -> [i32]`, where N is the struct type. Proposal:
    /// shared-everything-threads. Refuses an index that names no such field, and one that isn't packed.
    fn visit_struct_atomic_get_u(
        &mut self,
        ordering: Ordering,
        struct_type_index: u32,
        field_index: u32,
    ) -> Self::Output
        requires { can_visit self.old (Op.Shared (SharedOp.Struct (FieldAccess.GetPacked Unsigned) ordering (record { struct_type_index = struct_type_index; field_index = field_index }))) }
        ensures { visits self.old (Op.Shared (SharedOp.Struct (FieldAccess.GetPacked Unsigned) ordering (record { struct_type_index = struct_type_index; field_index = field_index }))) result self.new };

    /// `struct.atomic.set`: `[(ref null N) t] -> []`, where t is the unpacked type of the field of N.
    /// Proposal: shared-everything-threads. Refuses an index that names no such field, one that isn't
    /// mutable, and what isn't `i8`, `i16`, `i32`, `i64` or below `(ref null (shared any))`.
    fn visit_struct_atomic_set(
        &mut self,
        ordering: Ordering,
        struct_type_index: u32,
        field_index: u32,
    ) -> Self::Output
        requires { can_visit self.old (Op.Shared (SharedOp.Struct (FieldAccess.Whole (Update.Value Exchange.Set)) ordering (record { struct_type_index = struct_type_index; field_index = field_index }))) }
        ensures { visits self.old (Op.Shared (SharedOp.Struct (FieldAccess.Whole (Update.Value Exchange.Set)) ordering (record { struct_type_index = struct_type_index; field_index = field_index }))) result self.new };

    /// `struct.atomic.rmw.add`: `[(ref null N) t] -> [t]`, where t is the type of the field of N.
    /// Proposal: shared-everything-threads. Refuses an index that names no such field, one that isn't
    /// mutable, and a type that isn't `i32` or `i64`.
    fn visit_struct_atomic_rmw_add(
        &mut self,
        ordering: Ordering,
        struct_type_index: u32,
        field_index: u32,
    ) -> Self::Output
        requires { can_visit self.old (Op.Shared (SharedOp.Struct (FieldAccess.Whole (Update.Rmw SharedRmwOp.Add)) ordering (record { struct_type_index = struct_type_index; field_index = field_index }))) }
        ensures { visits self.old (Op.Shared (SharedOp.Struct (FieldAccess.Whole (Update.Rmw SharedRmwOp.Add)) ordering (record { struct_type_index = struct_type_index; field_index = field_index }))) result self.new };

    /// `struct.atomic.rmw.sub`: `[(ref null N) t] -> [t]`, where t is the type of the field of N.
    /// Proposal: shared-everything-threads. Refuses an index that names no such field, one that isn't
    /// mutable, and a type that isn't `i32` or `i64`.
    fn visit_struct_atomic_rmw_sub(
        &mut self,
        ordering: Ordering,
        struct_type_index: u32,
        field_index: u32,
    ) -> Self::Output
        requires { can_visit self.old (Op.Shared (SharedOp.Struct (FieldAccess.Whole (Update.Rmw SharedRmwOp.Sub)) ordering (record { struct_type_index = struct_type_index; field_index = field_index }))) }
        ensures { visits self.old (Op.Shared (SharedOp.Struct (FieldAccess.Whole (Update.Rmw SharedRmwOp.Sub)) ordering (record { struct_type_index = struct_type_index; field_index = field_index }))) result self.new };

    /// `struct.atomic.rmw.and`: `[(ref null N) t] -> [t]`, where t is the type of the field of N.
    /// Proposal: shared-everything-threads. Refuses an index that names no such field, one that isn't
    /// mutable, and a type that isn't `i32` or `i64`.
    fn visit_struct_atomic_rmw_and(
        &mut self,
        ordering: Ordering,
        struct_type_index: u32,
        field_index: u32,
    ) -> Self::Output
        requires { can_visit self.old (Op.Shared (SharedOp.Struct (FieldAccess.Whole (Update.Rmw SharedRmwOp.And)) ordering (record { struct_type_index = struct_type_index; field_index = field_index }))) }
        ensures { visits self.old (Op.Shared (SharedOp.Struct (FieldAccess.Whole (Update.Rmw SharedRmwOp.And)) ordering (record { struct_type_index = struct_type_index; field_index = field_index }))) result self.new };

    /// `struct.atomic.rmw.or`: `[(ref null N) t] -> [t]`, where t is the type of the field of N.
    /// Proposal: shared-everything-threads. Refuses an index that names no such field, one that isn't
    /// mutable, and a type that isn't `i32` or `i64`.
    fn visit_struct_atomic_rmw_or(
        &mut self,
        ordering: Ordering,
        struct_type_index: u32,
        field_index: u32,
    ) -> Self::Output
        requires { can_visit self.old (Op.Shared (SharedOp.Struct (FieldAccess.Whole (Update.Rmw SharedRmwOp.Or)) ordering (record { struct_type_index = struct_type_index; field_index = field_index }))) }
        ensures { visits self.old (Op.Shared (SharedOp.Struct (FieldAccess.Whole (Update.Rmw SharedRmwOp.Or)) ordering (record { struct_type_index = struct_type_index; field_index = field_index }))) result self.new };

    /// `struct.atomic.rmw.xor`: `[(ref null N) t] -> [t]`, where t is the type of the field of N.
    /// Proposal: shared-everything-threads. Refuses an index that names no such field, one that isn't
    /// mutable, and a type that isn't `i32` or `i64`.
    fn visit_struct_atomic_rmw_xor(
        &mut self,
        ordering: Ordering,
        struct_type_index: u32,
        field_index: u32,
    ) -> Self::Output
        requires { can_visit self.old (Op.Shared (SharedOp.Struct (FieldAccess.Whole (Update.Rmw SharedRmwOp.Xor)) ordering (record { struct_type_index = struct_type_index; field_index = field_index }))) }
        ensures { visits self.old (Op.Shared (SharedOp.Struct (FieldAccess.Whole (Update.Rmw SharedRmwOp.Xor)) ordering (record { struct_type_index = struct_type_index; field_index = field_index }))) result self.new };

    /// `struct.atomic.rmw.xchg`: `[(ref null N) t] -> [t]`, where t is the type of the field of N.
    /// Proposal: shared-everything-threads. Refuses an index that names no such field, one that isn't
    /// mutable, and a type that isn't `i32`, `i64` or below `(ref null (shared any))`.
    fn visit_struct_atomic_rmw_xchg(
        &mut self,
        ordering: Ordering,
        struct_type_index: u32,
        field_index: u32,
    ) -> Self::Output
        requires { can_visit self.old (Op.Shared (SharedOp.Struct (FieldAccess.Whole (Update.Value Exchange.Xchg)) ordering (record { struct_type_index = struct_type_index; field_index = field_index }))) }
        ensures { visits self.old (Op.Shared (SharedOp.Struct (FieldAccess.Whole (Update.Value Exchange.Xchg)) ordering (record { struct_type_index = struct_type_index; field_index = field_index }))) result self.new };

    /// `struct.atomic.rmw.cmpxchg`: `[(ref null N) t t] -> [t]`, where t is the type of the field of N.
    /// Proposal: shared-everything-threads. Refuses an index that names no such field, one that isn't
    /// mutable, and a type that isn't `i32`, `i64` or below `(ref null (shared eq))`.
    fn visit_struct_atomic_rmw_cmpxchg(
        &mut self,
        ordering: Ordering,
        struct_type_index: u32,
        field_index: u32,
    ) -> Self::Output
        requires { can_visit self.old (Op.Shared (SharedOp.Struct (FieldAccess.Whole (Update.Value Exchange.Cmpxchg)) ordering (record { struct_type_index = struct_type_index; field_index = field_index }))) }
        ensures { visits self.old (Op.Shared (SharedOp.Struct (FieldAccess.Whole (Update.Value Exchange.Cmpxchg)) ordering (record { struct_type_index = struct_type_index; field_index = field_index }))) result self.new };

    /// `array.atomic.get`: `[(ref null N) i32] -> [t]`, where t is the type of the elements of N.
    /// Proposal: shared-everything-threads. Refuses an index that names no array type, and a type that
    /// isn't `i32`, `i64` or below `(ref null (shared any))`.
    fn visit_array_atomic_get(&mut self, ordering: Ordering, type_index: u32) -> Self::Output
        requires { can_visit self.old (Op.Shared (SharedOp.Array (FieldAccess.Whole (Update.Value Exchange.Get)) ordering type_index)) }
        ensures { visits self.old (Op.Shared (SharedOp.Array (FieldAccess.Whole (Update.Value Exchange.Get)) ordering type_index)) result self.new };

    /// `array.atomic.get_s`: `[(ref null N) i32] -> [i32]`, where N is the array type. Proposal:
    /// shared-everything-threads. Refuses an index that names no array type, and elements that aren't
    /// packed.
    fn visit_array_atomic_get_s(&mut self, ordering: Ordering, type_index: u32) -> Self::Output
        requires { can_visit self.old (Op.Shared (SharedOp.Array (FieldAccess.GetPacked Signed) ordering type_index)) }
        ensures { visits self.old (Op.Shared (SharedOp.Array (FieldAccess.GetPacked Signed) ordering type_index)) result self.new };

    /// `array.atomic.get_u`: `[(ref null N) i32] -> [i32]`, where N is the array type. Proposal:
    /// shared-everything-threads. Refuses an index that names no array type, and elements that aren't
    /// packed.
    fn visit_array_atomic_get_u(&mut self, ordering: Ordering, type_index: u32) -> Self::Output
        requires { can_visit self.old (Op.Shared (SharedOp.Array (FieldAccess.GetPacked Unsigned) ordering type_index)) }
        ensures { visits self.old (Op.Shared (SharedOp.Array (FieldAccess.GetPacked Unsigned) ordering type_index)) result self.new };

    /// `array.atomic.set`: `[(ref null N) i32 t] -> []`, where t is the unpacked type of the elements of
    /// N. Proposal: shared-everything-threads. Refuses an index that names no array type, elements that
    /// aren't mutable, and what isn't `i8`, `i16`, `i32`, `i64` or below `(ref null (shared any))`.
    fn visit_array_atomic_set(&mut self, ordering: Ordering, type_index: u32) -> Self::Output
        requires { can_visit self.old (Op.Shared (SharedOp.Array (FieldAccess.Whole (Update.Value Exchange.Set)) ordering type_index)) }
        ensures { visits self.old (Op.Shared (SharedOp.Array (FieldAccess.Whole (Update.Value Exchange.Set)) ordering type_index)) result self.new };

    /// `array.atomic.rmw.add`: `[(ref null N) i32 t] -> [t]`, where t is the type of the elements of N.
    /// Proposal: shared-everything-threads. Refuses an index that names no array type, elements that
    /// aren't mutable, and a type that isn't `i32` or `i64`.
    fn visit_array_atomic_rmw_add(&mut self, ordering: Ordering, type_index: u32) -> Self::Output
        requires { can_visit self.old (Op.Shared (SharedOp.Array (FieldAccess.Whole (Update.Rmw SharedRmwOp.Add)) ordering type_index)) }
        ensures { visits self.old (Op.Shared (SharedOp.Array (FieldAccess.Whole (Update.Rmw SharedRmwOp.Add)) ordering type_index)) result self.new };

    /// `array.atomic.rmw.sub`: `[(ref null N) i32 t] -> [t]`, where t is the type of the elements of N.
    /// Proposal: shared-everything-threads. Refuses an index that names no array type, elements that
    /// aren't mutable, and a type that isn't `i32` or `i64`.
    fn visit_array_atomic_rmw_sub(&mut self, ordering: Ordering, type_index: u32) -> Self::Output
        requires { can_visit self.old (Op.Shared (SharedOp.Array (FieldAccess.Whole (Update.Rmw SharedRmwOp.Sub)) ordering type_index)) }
        ensures { visits self.old (Op.Shared (SharedOp.Array (FieldAccess.Whole (Update.Rmw SharedRmwOp.Sub)) ordering type_index)) result self.new };

    /// `array.atomic.rmw.and`: `[(ref null N) i32 t] -> [t]`, where t is the type of the elements of N.
    /// Proposal: shared-everything-threads. Refuses an index that names no array type, elements that
    /// aren't mutable, and a type that isn't `i32` or `i64`.
    fn visit_array_atomic_rmw_and(&mut self, ordering: Ordering, type_index: u32) -> Self::Output
        requires { can_visit self.old (Op.Shared (SharedOp.Array (FieldAccess.Whole (Update.Rmw SharedRmwOp.And)) ordering type_index)) }
        ensures { visits self.old (Op.Shared (SharedOp.Array (FieldAccess.Whole (Update.Rmw SharedRmwOp.And)) ordering type_index)) result self.new };

    /// `array.atomic.rmw.or`: `[(ref null N) i32 t] -> [t]`, where t is the type of the elements of N.
    /// Proposal: shared-everything-threads. Refuses an index that names no array type, elements that
    /// aren't mutable, and a type that isn't `i32` or `i64`.
    fn visit_array_atomic_rmw_or(&mut self, ordering: Ordering, type_index: u32) -> Self::Output
        requires { can_visit self.old (Op.Shared (SharedOp.Array (FieldAccess.Whole (Update.Rmw SharedRmwOp.Or)) ordering type_index)) }
        ensures { visits self.old (Op.Shared (SharedOp.Array (FieldAccess.Whole (Update.Rmw SharedRmwOp.Or)) ordering type_index)) result self.new };

    /// `array.atomic.rmw.xor`: `[(ref null N) i32 t] -> [t]`, where t is the type of the elements of N.
    /// Proposal: shared-everything-threads. Refuses an index that names no array type, elements that
    /// aren't mutable, and a type that isn't `i32` or `i64`.
    fn visit_array_atomic_rmw_xor(&mut self, ordering: Ordering, type_index: u32) -> Self::Output
        requires { can_visit self.old (Op.Shared (SharedOp.Array (FieldAccess.Whole (Update.Rmw SharedRmwOp.Xor)) ordering type_index)) }
        ensures { visits self.old (Op.Shared (SharedOp.Array (FieldAccess.Whole (Update.Rmw SharedRmwOp.Xor)) ordering type_index)) result self.new };

    /// `array.atomic.rmw.xchg`: `[(ref null N) i32 t] -> [t]`, where t is the type of the elements of N.
    /// Proposal: shared-everything-threads. Refuses an index that names no array type, elements that
    /// aren't mutable, and a type that isn't `i32`, `i64` or below `(ref null (shared any))`.
    fn visit_array_atomic_rmw_xchg(&mut self, ordering: Ordering, type_index: u32) -> Self::Output
        requires { can_visit self.old (Op.Shared (SharedOp.Array (FieldAccess.Whole (Update.Value Exchange.Xchg)) ordering type_index)) }
        ensures { visits self.old (Op.Shared (SharedOp.Array (FieldAccess.Whole (Update.Value Exchange.Xchg)) ordering type_index)) result self.new };

    /// `array.atomic.rmw.cmpxchg`: `[(ref null N) i32 t t] -> [t]`, where t is the type of the elements
    /// of N. Proposal: shared-everything-threads. Refuses an index that names no array type, elements
    /// that aren't mutable, and a type that isn't `i32`, `i64` or below `(ref null (shared eq))`.
    fn visit_array_atomic_rmw_cmpxchg(
        &mut self,
        ordering: Ordering,
        type_index: u32,
    ) -> Self::Output
        requires { can_visit self.old (Op.Shared (SharedOp.Array (FieldAccess.Whole (Update.Value Exchange.Cmpxchg)) ordering type_index)) }
        ensures { visits self.old (Op.Shared (SharedOp.Array (FieldAccess.Whole (Update.Value Exchange.Cmpxchg)) ordering type_index)) result self.new };

    /// `ref.i31_shared`: `[i32] -> [(ref (shared i31))]`. Proposal: shared-everything-threads.
    fn visit_ref_i31_shared(&mut self) -> Self::Output
        requires { can_visit self.old (Op.Shared (SharedOp.RefI31Shared)) }
        ensures { visits self.old (Op.Shared (SharedOp.RefI31Shared)) result self.new };

    /// The visit that `op` names, with its immediates. Refuses as that visit does.
    fn visit_operator(&mut self, op: Op<'a>) -> Self::Output
        requires { can_visit self.old op }
        ensures { visits self.old op.entry result self.new };
}
