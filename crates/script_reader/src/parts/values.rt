//! Value types by their names.

ghost use Rattle.std.specs.Prelude.{◌≡◌, List, IfNone, IfOk, IfSome, IsErrOf, map, true};
ghost use Rattle.std.specs.List.{AllZip, list_all};
ghost use Rattle.validate_types.specs.declared.types.ValType.{ValType};
ghost use Rattle.script_reader.specs.Values.{IsValueName, fits_value};
ghost use Rattle.script_reader.specs.declared.parts.failure.LineError.{LineError};

use crate::parts::failure::LineError;
use crate::parts::references::read_reference;
use std::alloc::Global;
use validate_types::ValType;

/// The value type that a word names, if it does.
pub fn read_value_type(word: &str) -> Option<ValType>
    ensures named { IfSome result (λ ty. IsValueName word.now ty) }
    ensures other { IfNone result ((ty : ValType) → fits_value ty ≡ true → ¬ (IsValueName word.now ty)) }
{
    Some(match word {
        "i32" => ValType::I32,
        "i64" => ValType::I64,
        "f32" => ValType::F32,
        "f64" => ValType::F64,
        "v128" => ValType::V128,
        _ => ValType::Ref(read_reference(word)?),
    })
}

/// The value types that these words name, if each of them does.
pub fn read_value_types(alloc: Global, words: &[&str]) -> Result<Vec<ValType>, LineError>
    ensures named { IfOk result (λ types. AllZip IsValueName (map (λ word. word.now) words.now)
        types.items) }
    ensures bad { IsErrOf result LineError.Bad → (types : List ValType) → list_all fits_value types ≡ true
        → ¬ (AllZip IsValueName (map (λ word. word.now) words.now) types) }
{
    let mut types = Vec::new(alloc);
    for word in words {
        types.push(read_value_type(word).ok_or(LineError::Bad)?)?;
    }
    Ok(types)
}
