//! Types (WebAssembly core specification, "Binary Format: Types"; exact types are of a proposal, "Custom
//! Descriptors").

ghost use Rattle.std.specs.Prelude.{◌≡◌, ◌-◌, ◌^◌, length, min, slice_get, unwrap_or, Some, None, IfOk};
ghost use Rattle.std.specs.Prelude.{IfErr, OnErr};
ghost use Rattle.binary_operators.specs.declared.types.GroupNames.TheVariants.{Indices};
ghost use Rattle.validate_types.specs.declared.heap.HeapType.TheVariants.{Concrete};
ghost use Rattle.binary_operators.specs.Types.{named, type_name, abstract_type, type_number, heap_type};
ghost use Rattle.binary_operators.specs.Types.{reference_type, ref_type, value_type};
ghost use Rattle.binary_operators.specs.Vectors.{IsNoVector};

use crate::error::{Fault, ReadError};
use crate::reader::BinaryReader;
use validate_types::{AbstractHeapType, CoreTypeId, HeapType, RefType, UnpackedIndex, ValType};

/// Which type stands for each: the first of those that are equal (WebAssembly core specification, "Defined
/// Types").
#[derive(Clone, Copy)]
pub struct CanonicalTypes<'a> {
    /// Of each type that was read, the index of the one that stands for it.
    canonical: &'a [u32],
    /// How the types behind these are named.
    group: GroupNames,
}

/// How the types of the recursion group that is being read are named in it.
#[derive(Clone, Copy)]
pub enum GroupNames {
    /// By their places in the group, as ids: the recursive type indices of the standard.
    Places,
    /// By indices, the first by this one.
    Indices(u32),
}

impl<'a> CanonicalTypes<'a> {
    /// The types of a list that says which type stands for each, where no group is being read.
    pub fn new(canonical: &'a [u32]) -> CanonicalTypes<'a>
        ensures { result
            ≡ record { canonical = canonical.entry; group = Indices (min (length canonical.now) (2 ^ 32 - 1)) } }
    {
        let count = u32::try_from(canonical.len()).unwrap_or(u32::MAX);
        CanonicalTypes {
            canonical,
            group: GroupNames::Indices(count),
        }
    }

    /// The same, while the group behind these types is read.
    pub fn in_group(canonical: &'a [u32], group: GroupNames) -> CanonicalTypes<'a>
        ensures { result ≡ record { canonical = canonical.entry; group = group } }
    {
        CanonicalTypes { canonical, group }
    }

    /// The index of the type that stands for this one. An index past the end stands for itself, so whoever
    /// looks it up doesn't find it.
    pub fn of(self, index: u32) -> u32
        ensures { result ≡ unwrap_or (slice_get self.entry.canonical.now index) index }
    {
        match self.canonical.get(index as usize) {
            Some(first) => *first,
            None => index,
        }
    }

    /// What names the type at this index.
    pub fn name(self, index: u32) -> UnpackedIndex
        ensures { result ≡ type_name self.entry index }
    {
        if let Some(first) = self.canonical.get(index as usize) {
            return UnpackedIndex::Module(*first);
        }
        let count = u32::try_from(self.canonical.len()).unwrap_or(u32::MAX);
        let place = index.saturating_sub(count);
        match self.group {
            GroupNames::Places => UnpackedIndex::Id(CoreTypeId::from_index(place)),
            GroupNames::Indices(first) => UnpackedIndex::Module(first.saturating_add(place)),
        }
    }
}

/// The abstract types, from code 0x68 to code 0x75.
static ABSTRACT: [AbstractHeapType; 14] = [
    AbstractHeapType::Cont,
    AbstractHeapType::Exn,
    AbstractHeapType::Array,
    AbstractHeapType::Struct,
    AbstractHeapType::I31,
    AbstractHeapType::Eq,
    AbstractHeapType::Any,
    AbstractHeapType::Extern,
    AbstractHeapType::Func,
    AbstractHeapType::None,
    AbstractHeapType::NoExtern,
    AbstractHeapType::NoFunc,
    AbstractHeapType::NoExn,
    AbstractHeapType::NoCont,
];

/// The number and vector types, from code 0x7b to code 0x7f.
static NUMBERS: [ValType; 5] = [
    ValType::V128,
    ValType::F64,
    ValType::F32,
    ValType::I64,
    ValType::I32,
];

/// The abstract type of this code, if it is one's.
fn abstract_type(code: u8) -> Option<AbstractHeapType>
    ensures { result ≡ abstract_type code }
{
    let place = code.checked_sub(0x68)?;
    ABSTRACT.get(usize::from(place)).copied()
}

/// Reads the index of a type as an integer of 33 bits, which is no negative one.
pub fn read_type_number(reader: &mut BinaryReader<'_>) -> Result<u32, ReadError>
    ensures read { IfOk result (λ i. type_number reader.old.left ≡ Some (i, reader.new.left)) }
    ensures refused { OnErr result (type_number reader.old.left ≡ None) }
    ensures covered { IfErr result IsNoVector }
{
    let offset = reader.offset();
    match reader.read_var_s33()? {
        Some(index) => Ok(index),
        None => Err(ReadError::malformed(Fault::InvalidHeapType, offset)),
    }
}

/// Reads a heap type. It refuses `invalid abstract heap type`, `invalid heap type` for a number that is
/// neither a type's code nor an index, and what the reads of numbers refuse.
#[tactic(auto, unfolding(crate::specs::Types::heap_type))]
pub fn read_heap_type(
    reader: &mut BinaryReader<'_>,
    canonical: CanonicalTypes<'_>,
) -> Result<HeapType, ReadError>
    ensures read { IfOk result (λ ty. heap_type canonical.entry reader.old.left
        ≡ Some (ty, reader.new.left)) }
    ensures refused { OnErr result (heap_type canonical.entry reader.old.left ≡ None) }
    ensures covered { IfErr result IsNoVector }
{
    let shared = reader.read_if(0x65)?;
    let offset = reader.offset();
    let code = reader.peek()?;
    if let Some(ty) = abstract_type(code) {
        reader.skip();
        return Ok(HeapType::Abstract { shared, ty });
    }
    if shared {
        return Err(ReadError::malformed(Fault::InvalidAbstractHeapType, offset));
    }
    if code == 0x62 {
        reader.skip();
        return Ok(HeapType::Exact(canonical.name(reader.read_var_u32()?)));
    }
    read_concrete(reader, canonical)
}

/// Reads a type of the module by its index.
fn read_concrete(
    reader: &mut BinaryReader<'_>,
    canonical: CanonicalTypes<'_>,
) -> Result<HeapType, ReadError>
    ensures read { IfOk result (λ ty. named Concrete canonical.entry (type_number reader.old.left)
        ≡ Some (ty, reader.new.left)) }
    ensures refused { OnErr result (named Concrete canonical.entry (type_number reader.old.left) ≡ None) }
    ensures covered { IfErr result IsNoVector }
{
    Ok(HeapType::Concrete(canonical.name(read_type_number(reader)?)))
}

/// Reads a heap type, and answers the reference to it, unless its index is too large: that is refused at the
/// offset.
#[tactic(auto, unfolding(crate::specs::Types::reference_type))]
pub fn read_reference_to(
    reader: &mut BinaryReader<'_>,
    canonical: CanonicalTypes<'_>,
    nullable: bool,
    offset: u64,
) -> Result<RefType, ReadError>
    ensures read { IfOk result (λ ty. reference_type canonical.entry nullable reader.old.left
        ≡ Some (ty, reader.new.left)) }
    ensures refused { OnErr result (reference_type canonical.entry nullable reader.old.left ≡ None) }
    ensures covered { IfErr result IsNoVector }
{
    match RefType::new(nullable, read_heap_type(reader, canonical)?) {
        Some(ty) => Ok(ty),
        None => Err(ReadError::malformed(Fault::TypeIndexTooLarge, offset)),
    }
}

/// Reads a reference type: a code and a heap type, or an abstract heap type alone, which is that of a
/// nullable one.
#[tactic(auto, unfolding(crate::specs::Types::ref_type))]
pub fn read_ref_type(
    reader: &mut BinaryReader<'_>,
    canonical: CanonicalTypes<'_>,
) -> Result<RefType, ReadError>
    ensures read { IfOk result (λ ty. ref_type canonical.entry reader.old.left ≡ Some (ty, reader.new.left)) }
    ensures refused { OnErr result (ref_type canonical.entry reader.old.left ≡ None) }
    ensures covered { IfErr result IsNoVector }
{
    let offset = reader.offset();
    let code = reader.peek()?;
    if code == 0x63 || code == 0x64 {
        reader.skip();
    } else if code != 0x65 && abstract_type(code).is_none() {
        return Err(ReadError::malformed(Fault::InvalidValueType, offset));
    }
    read_reference_to(reader, canonical, code != 0x64, offset)
}

/// Reads a value type.
#[tactic(auto, unfolding(crate::specs::Types::value_type))]
pub fn read_value_type(
    reader: &mut BinaryReader<'_>,
    canonical: CanonicalTypes<'_>,
) -> Result<ValType, ReadError>
    ensures read { IfOk result (λ ty. value_type canonical.entry reader.old.left
        ≡ Some (ty, reader.new.left)) }
    ensures refused { OnErr result (value_type canonical.entry reader.old.left ≡ None) }
    ensures covered { IfErr result IsNoVector }
{
    let code = reader.peek()?;
    if 0x7b <= code && code <= 0x7f {
        reader.skip();
        return Ok(NUMBERS[(code - 0x7b) as usize]);
    }
    Ok(ValType::Ref(read_ref_type(reader, canonical)?))
}
