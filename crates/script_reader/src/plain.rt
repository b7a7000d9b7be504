//! Operators without immediates by their names.
//!
//! `.ci/generate` writes the table from `operators.tsv`.

use validate_visit::Op::{Array, Atomic, Control, Exception, Reference, Shared};
use validate_visit::{
    ArrayOp, AtomicOp, BlockType, ControlOp, ExceptionOp, Op, ReferenceOp, SharedOp, Sign,
};

/// The operators that may stand without immediates, but for those on numbers. A block is of the empty type then.
pub static PLAIN: [(&str, Op<'static>); 24] = [
    ("unreachable", Control(ControlOp::Unreachable)),
    ("nop", Control(ControlOp::Nop)),
    ("block", Control(ControlOp::Block(BlockType::Empty))),
    ("loop", Control(ControlOp::Loop(BlockType::Empty))),
    ("if", Control(ControlOp::If(BlockType::Empty))),
    ("else", Control(ControlOp::Else)),
    ("end", Control(ControlOp::End)),
    ("return", Control(ControlOp::Return)),
    ("drop", Control(ControlOp::Drop)),
    ("select", Control(ControlOp::Select)),
    ("ref.is_null", Reference(ReferenceOp::RefIsNull)),
    ("ref.as_non_null", Reference(ReferenceOp::RefAsNonNull)),
    ("ref.eq", Reference(ReferenceOp::RefEq)),
    ("ref.i31", Reference(ReferenceOp::RefI31)),
    ("ref.i31_shared", Shared(SharedOp::RefI31Shared)),
    ("i31.get_s", Reference(ReferenceOp::I31Get(Sign::Signed))),
    ("i31.get_u", Reference(ReferenceOp::I31Get(Sign::Unsigned))),
    (
        "any.convert_extern",
        Reference(ReferenceOp::AnyConvertExtern),
    ),
    (
        "extern.convert_any",
        Reference(ReferenceOp::ExternConvertAny),
    ),
    ("array.len", Array(ArrayOp::ArrayLen)),
    ("legacy_try", Exception(ExceptionOp::Try(BlockType::Empty))),
    ("catch_all", Exception(ExceptionOp::CatchAll)),
    ("throw_ref", Exception(ExceptionOp::ThrowRef)),
    ("pause", Atomic(AtomicOp::Pause)),
];
