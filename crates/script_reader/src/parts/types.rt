//! The types that a script declares.

ghost use Rattle.std.specs.Prelude.{◌≡◌, ◌↔◌, [], ◌∷◌, IfNone, IfOk, IfSome, IsErrOf, IsSome, OnOk, map, true};
ghost use Rattle.std.specs.List.{AllZip};
ghost use Rattle.validate_types.specs.declared.types.ArrayType.{ArrayType};
ghost use Rattle.validate_types.specs.declared.types.ContType.{ContType};
ghost use Rattle.validate_types.specs.Types.{Signature};
ghost use Rattle.validate_types.specs.declared.types.CompositeInnerType.{CompositeInnerType};
ghost use Rattle.script_reader.specs.Access as rule;
ghost use Rattle.script_reader.specs.Fields.{IsFieldName, fits_field};
ghost use Rattle.std.specs.Option.{SomeIff};
ghost use Rattle.std.specs.Str.Parse.{digits_value};
ghost use Rattle.validate_types.specs.declared.heap.UnpackedIndex.{UnpackedIndex};
ghost use Rattle.script_reader.specs.Types.{AreMarks, IsPackedIndex, index_in_mark, descriptor_in, described_in, IsContName, IsComposite, IsSignature, is_kind, is_marked_shared, type_marks, kind_onwards, supertype_in, fits_composite, fits_signature};
ghost use Rattle.script_reader.specs.declared.parts.failure.LineError.{LineError};

use crate::parts::access::text_after;
use crate::parts::failure::LineError;
use crate::parts::fields::{read_field, read_fields};
use crate::parts::numbers::read_index;
use crate::parts::values::read_value_types;
use std::alloc::Global;
use validate_types::{
    ArrayType, CompositeInnerType, CompositeType, ContType, FuncType, PackedIndex, StructType,
    SubType, UnpackedIndex,
};

/// The type that a `type` line declares, from the words after `type`: the marks, the kind, and what it is
/// made of.
pub fn read_type(alloc: Global, words: &[&str]) -> Result<SubType, LineError>
    ensures shared { IfOk result (λ ty. ty.composite_type.shared
        ≡ is_marked_shared (type_marks (map (λ word. word.now) words.now))) }
    ensures supertype { IfOk result (λ ty. ty.supertype_idx
        ≡ supertype_in (type_marks (map (λ word. word.now) words.now))) }
    ensures descriptor { IfOk result (λ ty. ty.composite_type.descriptor_idx
        ≡ descriptor_in (type_marks (map (λ word. word.now) words.now))) }
    ensures described { IfOk result (λ ty. ty.composite_type.describes_idx
        ≡ described_in (type_marks (map (λ word. word.now) words.now))) }
    ensures inner { IfOk result (λ ty. IsComposite (kind_onwards (map (λ word. word.now) words.now))
        ty.composite_type.inner) }
    ensures marks { OnOk result (AreMarks (type_marks (map (λ word. word.now) words.now))) }
    ensures bad { IsErrOf result LineError.Bad → AreMarks (type_marks (map (λ word. word.now) words.now))
        → (inner : CompositeInnerType) → fits_composite inner ≡ true
        → ¬ (IsComposite (kind_onwards (map (λ word. word.now) words.now)) inner) }
{
    let kind = words
        .iter()
        .position(|word| is_kind(word))
        .ok_or(LineError::Bad)?;
    let marks = read_marks(&words[..kind]).ok_or(LineError::Bad)?;
    Ok(SubType {
        is_final: true,
        supertype_idx: marks.supertype_idx,
        composite_type: CompositeType {
            inner: read_composite(alloc, &words[kind..])?,
            shared: marks.shared,
            descriptor_idx: marks.descriptor_idx,
            describes_idx: marks.describes_idx,
        },
    })
}

/// Whether the word says what kind of type a line declares.
fn is_kind(word: &str) -> bool
    ensures { result ≡ is_kind word.now }
{
    matches!(word, "func" | "struct" | "array" | "cont")
}

/// What the marks of a type say.
#[derive(Clone, Copy)]
struct Marks {
    shared: bool,
    supertype_idx: Option<PackedIndex>,
    descriptor_idx: Option<PackedIndex>,
    describes_idx: Option<PackedIndex>,
}

/// The index that a mark of a type gives after this prefix, if there is one and it is packed. None of a mark
/// that gives no such index.
fn marked_index(marks: &[&str], prefix: &str) -> Option<Option<PackedIndex>>
    ensures known { IsSome result ↔ IfSome (rule.text_after prefix.now (map (λ mark. mark.now) marks.now))
        IsPackedIndex }
    ensures index { IfSome result (λ i. i
        ≡ index_in_mark prefix.now (map (λ mark. mark.now) marks.now)) }
{
    match text_after(marks, prefix) {
        Some(digits) => {
            let index = read_packed_index(digits)?;
            Some(Some(index))
        }
        None => Some(None),
    }
}

/// What these marks of a type say, if they are those of one: `shared`, and `sub=N`, `desc=N` and `describes=N` at
/// most once each, in any order.
fn read_marks(marks: &[&str]) -> Option<Marks>
    ensures known { IsSome result ↔ AreMarks (map (λ mark. mark.now) marks.now) }
    ensures shared { IfSome result (λ said. said.shared
        ≡ is_marked_shared (map (λ mark. mark.now) marks.now)) }
    ensures supertype { IfSome result (λ said. said.supertype_idx
        ≡ supertype_in (map (λ mark. mark.now) marks.now)) }
    ensures descriptor { IfSome result (λ said. said.descriptor_idx
        ≡ descriptor_in (map (λ mark. mark.now) marks.now)) }
    ensures described { IfSome result (λ said. said.describes_idx
        ≡ described_in (map (λ mark. mark.now) marks.now)) }
{
    let supertype_idx = marked_index(marks, "sub=")?;
    let descriptor_idx = marked_index(marks, "desc=")?;
    let describes_idx = marked_index(marks, "describes=")?;
    let others = marks.iter().filter(|mark| **mark != "shared").count();
    let given = usize::from(supertype_idx.is_some())
        + usize::from(descriptor_idx.is_some())
        + usize::from(describes_idx.is_some());
    if others != given {
        return None;
    }
    Some(Marks {
        shared: marks.iter().any(|mark| *mark == "shared"),
        supertype_idx,
        descriptor_idx,
        describes_idx,
    })
}

/// The index of a type that these digits write, if they do.
fn read_packed_index(digits: &str) -> Option<PackedIndex>
    ensures { SomeIff result (IsPackedIndex digits.now) (UnpackedIndex.Module (digits_value 10 digits.now)) }
{
    UnpackedIndex::Module(read_index(digits)?).pack()
}

/// What a type is made of, from its kind and the words after it: the signature of functions, the fields
/// of a struct, the one field of an array, or the function type of a continuation.
fn read_composite(alloc: Global, words: &[&str]) -> Result<CompositeInnerType, LineError>
    ensures read { IfOk result (λ inner. IsComposite (map (λ word. word.now) words.now) inner) }
    ensures bad { IsErrOf result LineError.Bad → (inner : CompositeInnerType) → fits_composite inner ≡ true
        → ¬ (IsComposite (map (λ word. word.now) words.now) inner) }
{
    let (kind, rest) = words.split_first().ok_or(LineError::Bad)?;
    match *kind {
        "func" => Ok(CompositeInnerType::Func(read_signature(alloc, rest)?)),
        "struct" => {
            let fields = read_fields(alloc, rest)?;
            Ok(CompositeInnerType::Struct(StructType { fields }))
        }
        "array" => Ok(CompositeInnerType::Array(read_array(rest).ok_or(LineError::Bad)?)),
        "cont" => Ok(CompositeInnerType::Cont(read_cont(rest).ok_or(LineError::Bad)?)),
        _ => Err(LineError::Bad),
    }
}

/// An array type: its one field.
fn read_array(words: &[&str]) -> Option<ArrayType>
    ensures read { IfSome result (λ ty. AllZip IsFieldName (map (λ word. word.now) words.now) (ty.0 ∷ [])) }
    ensures other { IfNone result ((ty : ArrayType) → fits_field ty.0 ≡ true
        → ¬ (AllZip IsFieldName (map (λ word. word.now) words.now) (ty.0 ∷ []))) }
{
    match *words {
        [word] => Some(ArrayType(read_field(word)?)),
        _ => None,
    }
}

/// A continuation type: the index of its function type.
fn read_cont(words: &[&str]) -> Option<ContType>
    ensures read { IfSome result (λ ty. AllZip IsContName (map (λ word. word.now) words.now) (ty ∷ [])) }
    ensures other { IfNone result ((ty : ContType)
        → ¬ (AllZip IsContName (map (λ word. word.now) words.now) (ty ∷ []))) }
{
    match *words {
        [word] => Some(ContType(read_packed_index(word)?)),
        _ => None,
    }
}

/// A function type: its parameters, an arrow, and its results.
fn read_signature(alloc: Global, words: &[&str]) -> Result<FuncType, LineError>
    ensures read { IfOk result (λ ty. IsSignature (map (λ word. word.now) words.now) ty) }
    ensures bad { IsErrOf result LineError.Bad → (ty : Signature) → fits_signature ty ≡ true
        → ¬ (IsSignature (map (λ word. word.now) words.now) ty) }
{
    let arrow = words
        .iter()
        .position(|word| *word == "->")
        .ok_or(LineError::Bad)?;
    let params = read_value_types(alloc, &words[..arrow])?;
    let results = read_value_types(alloc, &words[arrow + 1..])?;
    Ok(FuncType::new(params, results))
}
