//! Operators as data with the tables of their branches, the frames that they open and close, who knows
//! what they name, and the test of a list's order.
#![tactic(auto)]

mod body;
mod br_table;
mod catch;
mod frame;
mod frame_stack;
mod gates;
mod ieee;
mod immediates;
mod memory;
mod module_arity;
mod numbers;
mod numeric;
mod op;
mod operator_checks;
mod order;
mod resume;
mod shared;

pub use crate::body::{BodyKind, LocalGroup};
pub use crate::br_table::{BrTable, BrTableTargets, IncompleteTable};
pub use crate::catch::{Catch, TryTable};
pub use crate::frame::{BlockType, Frame, FrameKind};
pub use crate::frame_stack::FrameStack;
pub use crate::ieee::{Ieee32, Ieee64};
pub use crate::immediates::has_module_immediates;
pub use crate::memory::{AtomicAccess, AtomicRmwOp, MemArg, MemArgTarget, Ordering};
pub use crate::module_arity::ModuleArity;
pub use crate::numbers::{FloatType, IntegerType, NumberType, PackedInteger, Sign};
pub use crate::numeric::{
    FloatBinaryOp, FloatComparisonOp, FloatUnaryOp, IntegerBinaryOp, IntegerComparisonOp,
    IntegerUnaryOp,
};
pub use crate::op::{
    ArrayOp, AtomicOp, BranchCast, ContinuationOp, ControlOp, ConvertOp, ExceptionOp, FieldIndex,
    MemoryOp, NumericOp, Op, ReferenceOp, StructOp, TableOp,
};
pub use crate::operator_checks::OperatorChecks;
pub use crate::order::is_well_ordered;
pub use crate::resume::{Handle, ResumeTable};
pub use crate::shared::{Exchange, FieldAccess, SharedOp, SharedRmwOp, Update};
