//! The fields of structs and arrays.

ghost use Rattle.std.specs.Prelude.{◌≡◌, List, IfNone, IfOk, IfSome, IsErrOf, map, true};
ghost use Rattle.std.specs.List.{AllZip, list_all};
ghost use Rattle.validate_types.specs.Types.{unpacked_type};
ghost use Rattle.validate_types.specs.declared.types.FieldType.{FieldType};
ghost use Rattle.validate_types.specs.declared.types.StorageType.{StorageType};
ghost use Rattle.script_reader.specs.Fields.{IsFieldName, IsStorageName, fits_field};
ghost use Rattle.script_reader.specs.Values.{fits_value};
ghost use Rattle.script_reader.specs.declared.parts.failure.LineError.{LineError};

use crate::parts::failure::LineError;
use crate::parts::values::read_value_type;
use std::alloc::Global;
use validate_types::{FieldType, StorageType};

/// The field that a word writes, if it does: what it holds, behind `mut:` where it can be written.
pub fn read_field(word: &str) -> Option<FieldType>
    ensures named { IfSome result (λ field. IsFieldName word.now field) }
    ensures other { IfNone result ((field : FieldType) → fits_field field ≡ true
        → ¬ (IsFieldName word.now field)) }
{
    match word.strip_prefix("mut:") {
        Some(name) => Some(FieldType {
            element_type: read_storage_type(name)?,
            mutable: true,
        }),
        None => Some(FieldType {
            element_type: read_storage_type(word)?,
            mutable: false,
        }),
    }
}

/// The fields that these words write, if each of them does.
pub fn read_fields(alloc: Global, words: &[&str]) -> Result<Vec<FieldType>, LineError>
    ensures named { IfOk result (λ fields. AllZip IsFieldName (map (λ word. word.now) words.now)
        fields.items) }
    ensures bad { IsErrOf result LineError.Bad → (fields : List FieldType)
        → list_all fits_field fields ≡ true
        → ¬ (AllZip IsFieldName (map (λ word. word.now) words.now) fields) }
{
    let mut fields = Vec::new(alloc);
    for word in words {
        fields.push(read_field(word).ok_or(LineError::Bad)?)?;
    }
    Ok(fields)
}

/// What a field holds, by its name: a packed integer or a value type.
fn read_storage_type(name: &str) -> Option<StorageType>
    ensures named { IfSome result (λ ty. IsStorageName name.now ty) }
    ensures other { IfNone result ((ty : StorageType) → fits_value (unpacked_type ty) ≡ true
        → ¬ (IsStorageName name.now ty)) }
{
    Some(match name {
        "i8" => StorageType::I8,
        "i16" => StorageType::I16,
        _ => StorageType::Val(read_value_type(name)?),
    })
}
