//! What a body answers, as the answer of a check.

ghost use Rattle.std.specs.Prelude.{◌≡◌, false, Ok, is_ok, IfOk, IfErr};
ghost use Rattle.validate_types.specs.Told.{IsRowRefused};
ghost use Rattle.validation_rules.specs.Context.{Context};
ghost use Rattle.validation_rules.specs.Rows.{Operator};
ghost use Rattle.validate_stacks.specs.Attempts.{Stacked};

use validate_resources::WasmModuleResources;
use validate_stacks::OperatorContext;
use validate_types::{Error, Told};

/// What a look-up answers, with the text and the place of a refusal.
pub fn placed<R: WasmModuleResources, T>(
    context: &OperatorContext<'_, '_, R>,
    offset: u64,
    answer: Result<T, Told>,
) -> Result<T, Error>
    ensures found { IfOk answer (λ t. result ≡ Ok t) }
    ensures refused { IfErr answer (λ told. IfErr result (λ e. e.wants_memory ≡ false → IsRowRefused told)) }
    ensures same { is_ok result ≡ is_ok answer }
    ensures offset { IfErr result (λ e. e.offset ≡ offset) }
{
    match answer {
        Ok(found) => Ok(found),
        Err(told) => Err(context.stacks.refusal(context.resources, told, offset)),
    }
}
