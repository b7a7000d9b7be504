//! The globals that a script declares.

ghost use Rattle.std.specs.Prelude.{◌≡◌, ◌≢◌, IfNone, IfSome, map};
ghost use Rattle.validate_types.specs.declared.types.GlobalType.{GlobalType};
ghost use Rattle.script_reader.specs.Globals.{global_marks};

use validate_types::{GlobalType, ValType};

/// The type of a global that holds such a value, with these marks, if they are those of one.
pub fn read_global_type(content_type: ValType, marks: &[&str]) -> Option<GlobalType>
    ensures content { IfSome result (λ ty. ty.content_type ≡ content_type) }
    ensures read { IfSome result (λ ty. map (λ mark. mark.now) marks.now ≡ global_marks ty) }
    ensures other { IfNone result ((ty : GlobalType) → map (λ mark. mark.now) marks.now ≢ global_marks ty) }
{
    let (mutable, shared) = match *marks {
        [] => (false, false),
        ["mut"] => (true, false),
        ["shared"] => (false, true),
        ["mut", "shared"] => (true, true),
        _ => return None,
    };
    Some(GlobalType {
        content_type,
        mutable,
        shared,
    })
}
