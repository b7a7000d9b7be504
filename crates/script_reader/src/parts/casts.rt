//! Tests of references, and casts.

ghost use Rattle.std.specs.Prelude.{◌≡◌, IfSome, map};
ghost use Rattle.script_reader.specs.Casts.{IsBranchCast, cast_by_descriptor_to, cast_to, test_for};

use crate::parts::numbers::read_index;
use crate::parts::references::read_reference;
use validate_types::RefType;
use validate_visit::{BranchCast, ReferenceOp};

/// The `ref.test` for this type.
pub fn ref_test(ty: RefType) -> ReferenceOp
    ensures { result ≡ test_for ty }
{
    if ty.nullable {
        ReferenceOp::RefTestNullable(ty.heap_type)
    } else {
        ReferenceOp::RefTestNonNull(ty.heap_type)
    }
}

/// The `ref.cast` to this type.
pub fn ref_cast(ty: RefType) -> ReferenceOp
    ensures { result ≡ cast_to ty }
{
    if ty.nullable {
        ReferenceOp::RefCastNullable(ty.heap_type)
    } else {
        ReferenceOp::RefCastNonNull(ty.heap_type)
    }
}

/// The `ref.cast_desc_eq` to this type.
pub fn ref_cast_desc_eq(ty: RefType) -> ReferenceOp
    ensures { result ≡ cast_by_descriptor_to ty }
{
    if ty.nullable {
        ReferenceOp::RefCastDescEqNullable(ty.heap_type)
    } else {
        ReferenceOp::RefCastDescEqNonNull(ty.heap_type)
    }
}

/// The branch by a cast that these words write, if they do: its label, the type of the operand, and the
/// one that it is cast to.
pub fn read_branch_cast(words: &[&str]) -> Option<BranchCast>
    ensures { IfSome result (λ cast. IsBranchCast (map (λ word. word.now) words.now) cast) }
{
    let [label, from, to] = *words else {
        return None;
    };
    Some(BranchCast {
        relative_depth: read_index(label)?,
        from_ref_type: read_reference(from)?,
        to_ref_type: read_reference(to)?,
    })
}
