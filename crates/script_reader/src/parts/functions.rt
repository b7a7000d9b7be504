//! The functions that a script declares.

ghost use Rattle.std.specs.Prelude.{◌≡◌, ◌≢◌, IfNone, IfSome, map};
ghost use Rattle.validate_resources.specs.declared.lists.FuncDecl.{FuncDecl};
ghost use Rattle.script_reader.specs.Functions.{function_marks};

use validate_resources::FuncDecl;

/// A function of this type with these marks, if they are those of one.
pub fn read_function(type_index: u32, marks: &[&str]) -> Option<FuncDecl>
    ensures type_index { IfSome result (λ f. f.type_index ≡ type_index) }
    ensures read { IfSome result (λ f. map (λ mark. mark.now) marks.now ≡ function_marks f) }
    ensures other { IfNone result ((f : FuncDecl) → map (λ mark. mark.now) marks.now ≢ function_marks f) }
{
    let (referenced, exact) = match *marks {
        [] => (false, false),
        ["ref"] => (true, false),
        ["exact"] => (false, true),
        ["ref", "exact"] => (true, true),
        _ => return None,
    };
    Some(FuncDecl {
        type_index,
        referenced,
        exact,
    })
}
