//! The laws of the rules, each as the contract of a function that does nothing.

ghost use Rattle.std.specs.Prelude.{◌≡◌};
ghost use Rattle.validation_rules.specs.Context.{Context};
ghost use Rattle.validation_rules.specs.Order.{RowsAreOrdered, BodiesAreOrdered};
ghost use Rattle.validation_rules.specs.Pops.{PopsAreWhole};
ghost use Rattle.validation_rules.specs.Valid.{RowsKeepValid};

use validate_resources::WasmModuleResources;

/// Pops are the row: popping an expected list one operand at a time, from the top, passes exactly where
/// the list taken whole fits the operands that are found, those of a dead frame being padded, and it
/// leaves what lies below them.
pub fn pops_law()
    ensures { (cx : Context) → PopsAreWhole cx }
{}

/// Order comes with the rows: a list of operators whose rows all hold is well ordered, and so is a
/// body of operators of the table. Type safety therefore needs no premise on the order.
pub fn order_law()
    ensures rows { (cx : Context) → RowsAreOrdered cx }
    ensures bodies { (cx : Context) → BodiesAreOrdered cx }
{}

/// Validity is kept: each step by an operator of the table keeps the state valid.
pub fn validity_law<R: WasmModuleResources>(resources: &R)
    ensures { RowsKeepValid (R.context resources.now) }
{}
