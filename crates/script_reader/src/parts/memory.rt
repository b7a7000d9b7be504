//! The memories that a script declares.

ghost use Rattle.std.specs.Prelude.{◌≡◌, ◌≢◌, IfNone, IfSome, map};
ghost use Rattle.validate_types.specs.declared.types.MemoryType.{MemoryType};
ghost use Rattle.script_reader.specs.Memory.{memory_marks};

use validate_types::MemoryType;

/// The type of a memory with these marks, if they are those of one.
pub fn read_memory_type(marks: &[&str]) -> Option<MemoryType>
    ensures read { IfSome result (λ ty. map (λ mark. mark.now) marks.now ≡ memory_marks ty) }
    ensures other { IfNone result ((ty : MemoryType) → map (λ mark. mark.now) marks.now ≢ memory_marks ty) }
{
    let (memory64, shared) = match *marks {
        [] => (false, false),
        ["64"] => (true, false),
        ["shared"] => (false, true),
        ["64", "shared"] => (true, true),
        _ => return None,
    };
    Some(MemoryType { memory64, shared })
}
