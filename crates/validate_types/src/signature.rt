//! The order on function types (WebAssembly core specification, "Matching: Function Types").

ghost use Rattle.std.specs.Prelude.{◌≡◌, Bool};
ghost use Rattle.validate_types.specs.Signatures.{AnswersBy, is_each_below, is_signature_below};
ghost use Rattle.validate_types.specs.declared.types.ValType.{ValType};

use crate::types::ValType;

/// Whether `[p1] -> [r1]` is below `[p2] -> [r2]`, where `sub` answers whether a value type is below
/// another: they take as many and give as many, each of `p2` is below its place in `p1`, and each of
/// `r1` below its place in `r2`.
pub fn func_signature_matches<F: Fn(ValType, ValType) -> bool>(
    p1: &[ValType],
    r1: &[ValType],
    p2: &[ValType],
    r2: &[ValType],
    sub: F,
) -> bool
    requires { F.IsAlwaysCallable sub }
    ensures { (below : ValType → ValType → Bool) → AnswersBy (F.post sub) below p2.now p1.now
        → AnswersBy (F.post sub) below r1.now r2.now → result
        ≡ is_signature_below below p1.now r1.now p2.now r2.now }
{
    are_below(p2, p1, &sub) && are_below(r1, r2, &sub)
}

/// Whether the types are as many as those above them, and each is below its place.
fn are_below<F: Fn(ValType, ValType) -> bool>(types: &[ValType], above: &[ValType], sub: &F) -> bool
    requires { F.IsAlwaysCallable sub.now }
    ensures { (below : ValType → ValType → Bool) → AnswersBy (F.post sub.now) below types.now above.now
        → result ≡ is_each_below below types.now above.now }
{
    if types.len() != above.len() {
        return false;
    }
    for index in 0..types.len() {
        if !sub(types[index], above[index]) {
            return false;
        }
    }
    true
}
