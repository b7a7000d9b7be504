//! References that are found, and their null (WebAssembly core specification, "Reference Instructions").

ghost use Rattle.std.specs.Prelude.{◌≡◌};
ghost use Rattle.validation_rules.specs.References.{operand_without_null};

use validate_types::{MaybeType, ValType};

/// An operand without its null, where it is a reference.
#[inline(always)]
pub fn without_null(found: MaybeType) -> Option<MaybeType>
    ensures { result ≡ operand_without_null found }
{
    match found {
        MaybeType::Bottom => Some(MaybeType::UnknownRef(None)),
        MaybeType::UnknownRef(ty) => Some(MaybeType::UnknownRef(ty)),
        MaybeType::Known(ValType::Ref(ty)) => Some(MaybeType::Known(ValType::Ref(
            ty.as_non_null(),
        ))),
        MaybeType::Known(_) => None,
    }
}
