//! The law of type safety.

ghost use Rattle.std.specs.Prelude.{List, ℕ};
ghost use Rattle.validate_visit.specs.declared.op.Op.{Op};
ghost use Rattle.validate_stacks.specs.State.{BodyState, IsStarting};
ghost use Rattle.validate_operators.specs.Runs.{IsAcceptedBody, IsSafe};

use validate_resources::WasmModuleResources;

/// Type safety, for this lookup: from every starting state, over every list whose rows all hold and which
/// leaves no frame open, no run of the typed machine gets stuck, and what it returns fits the results. Such
/// a list is well ordered (`order_law`), so nothing is asked of its order. It does nothing: its contract is
/// the law.
pub fn safety_law<R: WasmModuleResources>(_resources: &R)
    ensures { (v : BodyState) → (ops : List (Op × ℕ)) → IsStarting (R.context _resources.now) v
        → IsAcceptedBody (R.context _resources.now) v ops → IsSafe (R.context _resources.now) v ops }
{}
