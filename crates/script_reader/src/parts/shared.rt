//! Operators of shared-everything threads: what they do, an ordering, and then indices.

ghost use Rattle.std.specs.Prelude.{◌≡◌, [], ◌∷◌, IfSome, drop, map};
ghost use Rattle.std.specs.Str.Parse.{digits_value};
ghost use Rattle.script_reader.specs.Indices.{shared_indices};

use crate::parts::names::named_in;
use crate::parts::numbers::read_index;
use validate_visit::{Exchange, FieldAccess, FieldIndex, Ordering, SharedOp, Update};

/// What such an operator does, and to what.
#[derive(Clone, Copy)]
pub enum SharedAccess {
    /// To a global.
    Global(Update),
    /// To a place of a table.
    Table(Exchange),
    /// To a field of a struct.
    Struct(FieldAccess),
    /// To an element of an array.
    Array(FieldAccess),
}

/// The orderings by their names.
const ORDERINGS: &[(&str, Ordering)] = &[
    ("seq_cst", Ordering::SeqCst),
    ("acq_rel", Ordering::AcqRel),
];

/// The ordering that a word names, if it names one.
pub fn read_ordering(word: &str) -> Option<Ordering> {
    named_in(ORDERINGS, word)
}

/// The operator that does this, with the ordering and the indices that these words write, if it has so many.
pub fn read_shared(access: SharedAccess, words: &[&str]) -> Option<SharedOp>
    ensures { IfSome result (λ op. map (λ word. digits_value 10 word.now) (drop 1 words.now)
        ≡ shared_indices op) }
{
    match *words {
        [ordering, index] => with_index(access, read_ordering(ordering)?, read_index(index)?),
        [ordering, ty, field] => {
            let field = FieldIndex {
                struct_type_index: read_index(ty)?,
                field_index: read_index(field)?,
            };
            with_field(access, read_ordering(ordering)?, field)
        }
        _ => None,
    }
}

/// The operator with this ordering and index, if it has one index alone.
fn with_index(access: SharedAccess, ordering: Ordering, index: u32) -> Option<SharedOp>
    ensures { IfSome result (λ op. shared_indices op ≡ index ∷ []) }
{
    match access {
        SharedAccess::Global(access) => Some(SharedOp::Global {
            access,
            ordering,
            global_index: index,
        }),
        SharedAccess::Table(access) => Some(SharedOp::Table {
            access,
            ordering,
            table_index: index,
        }),
        SharedAccess::Array(access) => Some(SharedOp::Array {
            access,
            ordering,
            type_index: index,
        }),
        SharedAccess::Struct(_) => None,
    }
}

/// The operator with this ordering and field, if it has one.
fn with_field(access: SharedAccess, ordering: Ordering, field: FieldIndex) -> Option<SharedOp>
    ensures { IfSome result (λ op. shared_indices op ≡ field.struct_type_index ∷ field.field_index ∷ []) }
{
    match access {
        SharedAccess::Struct(access) => Some(SharedOp::Struct {
            access,
            ordering,
            field,
        }),
        _ => None,
    }
}
