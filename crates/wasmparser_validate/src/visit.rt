//! Operators as data, the frames that they open and close, the order of a list, and the visitor of
//! operators.

pub use validate_visit::{
    ArrayOp, AtomicAccess, AtomicOp, AtomicRmwOp, BlockType, BodyKind, BrTable, BrTableTargets,
    BranchCast, Catch, ContinuationOp, ControlOp, ConvertOp, ExceptionOp, Exchange, FieldAccess,
    FieldIndex, FloatBinaryOp, FloatComparisonOp, FloatType, FloatUnaryOp, Frame, FrameKind,
    FrameStack, Handle, Ieee32, Ieee64, IncompleteTable, IntegerBinaryOp, IntegerComparisonOp,
    IntegerType, IntegerUnaryOp, LocalGroup, MemArg, MemArgTarget, MemoryOp, ModuleArity,
    NumberType, NumericOp, Op, OperatorChecks, Ordering, PackedInteger, ReferenceOp, ResumeTable,
    SharedOp, SharedRmwOp, Sign, StructOp, TableOp, TryTable, Update, has_module_immediates,
    is_well_ordered,
};
pub use validate_visitor::VisitOperator;
