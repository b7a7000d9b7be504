//! Reference types by their names.

ghost use Rattle.std.specs.Prelude.{◌≡◌, ◌≢◌, ◌++◌, IfNone, IfSome, codes, true};
ghost use Rattle.validate_types.specs.Abstract.{heap_name};
ghost use Rattle.validate_types.specs.declared.heap.AbstractHeapType.{AbstractHeapType};
ghost use Rattle.validate_types.specs.declared.heap.HeapType.{HeapType};
ghost use Rattle.validate_types.specs.declared.refs.RefType.{RefType};
ghost use Rattle.validate_types.specs.Refs.{fits_reference};
ghost use Rattle.script_reader.specs.References.{IsHeapName, IsReferenceName};

use crate::parts::numbers::read_index;
use validate_types::{AbstractHeapType, HeapType, RefType, UnpackedIndex};

/// The reference type that a word names, if it does: by its short name, or as `ref:H` or `refnull:H`.
pub fn read_reference(word: &str) -> Option<RefType>
    ensures named { IfSome result (λ ty. IsReferenceName word.now ty) }
    ensures other { IfNone result ((ty : RefType) → fits_reference ty.heap_type ≡ true
        → ¬ (IsReferenceName word.now ty)) }
{
    if let Some(ty) = abstract_of_reference(word) {
        return RefType::new(true, HeapType::Abstract { shared: false, ty });
    }
    match word.strip_prefix("refnull:") {
        Some(name) => RefType::new(true, read_heap_type(name)?),
        None => RefType::new(false, read_heap_type(word.strip_prefix("ref:")?)?),
    }
}

/// The heap type that a word names, if it does: an abstract type, the shared copy of one, or the type of
/// the module at this index, exact or not.
pub fn read_heap_type(word: &str) -> Option<HeapType>
    ensures named { IfSome result (λ ty. IsHeapName word.now ty) }
    ensures other { IfNone result ((ty : HeapType) → ¬ (IsHeapName word.now ty)) }
{
    if let Some(ty) = abstract_named(word, false) {
        return Some(HeapType::Abstract { shared: false, ty });
    }
    if let Some(name) = word.strip_prefix("shared-") {
        let ty = abstract_named(name, false)?;
        return Some(HeapType::Abstract { shared: true, ty });
    }
    if let Some(digits) = word.strip_prefix("exact-") {
        let index = read_index(digits)?;
        return Some(HeapType::Exact(UnpackedIndex::Module(index)));
    }
    let index = read_index(word)?;
    Some(HeapType::Concrete(UnpackedIndex::Module(index)))
}

/// The abstract heap types.
const ABSTRACT: &[AbstractHeapType] = &[
    AbstractHeapType::Func,
    AbstractHeapType::Extern,
    AbstractHeapType::Any,
    AbstractHeapType::None,
    AbstractHeapType::NoExtern,
    AbstractHeapType::NoFunc,
    AbstractHeapType::Eq,
    AbstractHeapType::Struct,
    AbstractHeapType::Array,
    AbstractHeapType::I31,
    AbstractHeapType::Exn,
    AbstractHeapType::NoExn,
    AbstractHeapType::Cont,
    AbstractHeapType::NoCont,
];

/// The abstract heap type that has this name in the text of a reference, of a nullable one or of another.
fn abstract_named(name: &str, nullable: bool) -> Option<AbstractHeapType>
    ensures named { IfSome result (λ ty. name.now ≡ heap_name nullable ty) }
    ensures other { IfNone result ((ty : AbstractHeapType) → name.now ≢ heap_name nullable ty) }
{
    for ty in ABSTRACT {
        if ty.as_str(nullable) == name {
            return Some(*ty);
        }
    }
    None
}

/// The abstract heap type that the nullable reference of this short name points to.
fn abstract_of_reference(name: &str) -> Option<AbstractHeapType>
    ensures named { IfSome result (λ ty. name.now ≡ heap_name true ty ++ codes "ref") }
    ensures other { IfNone result ((ty : AbstractHeapType) → name.now ≢ heap_name true ty ++ codes "ref") }
{
    abstract_named(name.strip_suffix("ref")?, true)
}
