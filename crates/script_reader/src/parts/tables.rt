//! The tables that a script declares.

ghost use Rattle.std.specs.Prelude.{◌≡◌, ◌≢◌, IfNone, IfSome, map};
ghost use Rattle.validate_types.specs.declared.types.TableType.{TableType};
ghost use Rattle.script_reader.specs.Tables.{table_marks};

use validate_types::{RefType, TableType};

/// The type of a table of such references, with these marks, if they are those of one.
pub fn read_table_type(element_type: RefType, marks: &[&str]) -> Option<TableType>
    ensures element { IfSome result (λ ty. ty.element_type ≡ element_type) }
    ensures read { IfSome result (λ ty. map (λ mark. mark.now) marks.now ≡ table_marks ty) }
    ensures other { IfNone result ((ty : TableType) → map (λ mark. mark.now) marks.now ≢ table_marks ty) }
{
    let (table64, shared) = match *marks {
        [] => (false, false),
        ["64"] => (true, false),
        ["shared"] => (false, true),
        ["64", "shared"] => (true, true),
        _ => return None,
    };
    Some(TableType {
        element_type,
        table64,
        shared,
    })
}
