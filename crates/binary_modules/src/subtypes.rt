//! The types that a module declares (WebAssembly core specification, "Binary Format: Types", "Recursive Types";
//! descriptors are of a proposal, "Custom Descriptors").

ghost use Rattle.std.specs.Prelude.{◌≡◌, ◌≢◌, true, Some, None, IfOk, IfErr, OnErr};
ghost use Rattle.binary_operators.specs.Types.{type_name};
ghost use Rattle.binary_operators.specs.declared.error.Cause.TheVariants.{OutOfMemory};
ghost use Rattle.validate_types.specs.Heap.{packed_index};
ghost use Rattle.binary_modules.specs.Parts.{marked};
ghost use Rattle.binary_modules.specs.SubTypes.{type_index, storage_type, mutability, field_type, func_type, struct_type};
ghost use Rattle.binary_modules.specs.SubTypes.{array_type, cont_type, inner_behind, composite_inner_type};
ghost use Rattle.binary_modules.specs.SubTypes.{marked_index, composite_type, supertype_of, supertype};
ghost use Rattle.binary_modules.specs.SubTypes.{with_supertype, below_supertype, sub_type};

use crate::lists::read_list;
use binary_operators::{
    BinaryReader, CanonicalTypes, Fault, ReadError, read_type_number, read_value_type,
};
use std::alloc::Global;
use validate_types::{
    ArrayType, CompositeInnerType, CompositeType, ContType, FieldType, FuncType, PackedIndex,
    StorageType, StructType, SubType,
};

/// What names the type at this index, in the form that types pack, or the refusal of an index that is too large.
fn packed(canonical: CanonicalTypes<'_>, index: u32, offset: u64) -> Result<PackedIndex, ReadError>
    ensures named { IfOk result (λ name. packed_index (type_name canonical.entry index) ≡ Some name) }
    ensures refused { OnErr result (packed_index (type_name canonical.entry index) ≡ None) }
{
    match canonical.name(index).pack() {
        Some(packed) => Ok(packed),
        None => Err(ReadError::malformed(Fault::TypeIndexTooLarge, offset)),
    }
}

/// Reads a type by its index.
#[tactic(auto, unfolding(crate::specs::SubTypes::type_index))]
fn read_type_index(
    reader: &mut BinaryReader<'_>,
    canonical: CanonicalTypes<'_>,
    offset: u64,
) -> Result<PackedIndex, ReadError>
    ensures read { IfOk result (λ name. type_index canonical.entry reader.old.left
        ≡ Some (name, reader.new.left)) }
    ensures refused { OnErr result (type_index canonical.entry reader.old.left ≡ None) }
{
    let index = reader.read_var_u32()?;
    packed(canonical, index, offset)
}

#[tactic(auto, unfolding(crate::specs::SubTypes::storage_type))]
fn read_storage_type(
    reader: &mut BinaryReader<'_>,
    canonical: CanonicalTypes<'_>,
) -> Result<StorageType, ReadError>
    ensures read { IfOk result (λ ty. storage_type canonical.entry reader.old.left
        ≡ Some (ty, reader.new.left)) }
    ensures refused { OnErr result (storage_type canonical.entry reader.old.left ≡ None) }
{
    let code = reader.peek()?;
    if code == 0x78 {
        reader.skip();
        return Ok(StorageType::I8);
    }
    if code == 0x77 {
        reader.skip();
        return Ok(StorageType::I16);
    }
    Ok(StorageType::Val(read_value_type(reader, canonical)?))
}

/// Reads whether a field can be written.
fn read_mutability(reader: &mut BinaryReader<'_>) -> Result<bool, ReadError>
    ensures read { IfOk result (λ mutable. mutability reader.old.left ≡ Some (mutable, reader.new.left)) }
    ensures refused { OnErr result (mutability reader.old.left ≡ None) }
{
    let offset = reader.offset();
    match reader.read_u8()? {
        0 => Ok(false),
        1 => Ok(true),
        _ => Err(ReadError::malformed(Fault::MalformedMutability, offset)),
    }
}

/// Reads the type of a field. It refuses `malformed mutability`, and what the read of a value type refuses.
#[tactic(auto, unfolding(crate::specs::SubTypes::field_type))]
pub(crate) fn read_field(
    reader: &mut BinaryReader<'_>,
    canonical: CanonicalTypes<'_>,
) -> Result<FieldType, ReadError>
    ensures read { IfOk result (λ field. field_type canonical.entry reader.old.left
        ≡ Some (field, reader.new.left)) }
    ensures refused { OnErr result (field_type canonical.entry reader.old.left ≡ None) }
{
    let element_type = read_storage_type(reader, canonical)?;
    let mutable = read_mutability(reader)?;
    Ok(FieldType {
        element_type,
        mutable,
    })
}

#[tactic(auto, unfolding(crate::specs::SubTypes::func_type))]
fn read_func_type(
    alloc: Global,
    reader: &mut BinaryReader<'_>,
    canonical: CanonicalTypes<'_>,
) -> Result<CompositeInnerType, ReadError>
    ensures read { IfOk result (λ ty. func_type canonical.entry reader.old.left
        ≡ Some (ty, reader.new.left)) }
    ensures refused { IfErr result (λ e. e.cause ≢ OutOfMemory
        → func_type canonical.entry reader.old.left ≡ None) }
{
    let params = read_list(alloc, reader, canonical)?;
    let results = read_list(alloc, reader, canonical)?;
    Ok(CompositeInnerType::Func(FuncType::new(params, results)))
}

#[tactic(auto, unfolding(crate::specs::SubTypes::struct_type))]
fn read_struct_type(
    alloc: Global,
    reader: &mut BinaryReader<'_>,
    canonical: CanonicalTypes<'_>,
) -> Result<CompositeInnerType, ReadError>
    ensures read { IfOk result (λ ty. struct_type canonical.entry reader.old.left
        ≡ Some (ty, reader.new.left)) }
    ensures refused { IfErr result (λ e. e.cause ≢ OutOfMemory
        → struct_type canonical.entry reader.old.left ≡ None) }
{
    let fields = read_list(alloc, reader, canonical)?;
    Ok(CompositeInnerType::Struct(StructType { fields }))
}

#[tactic(auto, unfolding(crate::specs::SubTypes::array_type))]
fn read_array_type(
    reader: &mut BinaryReader<'_>,
    canonical: CanonicalTypes<'_>,
) -> Result<CompositeInnerType, ReadError>
    ensures read { IfOk result (λ ty. array_type canonical.entry reader.old.left
        ≡ Some (ty, reader.new.left)) }
    ensures refused { OnErr result (array_type canonical.entry reader.old.left ≡ None) }
{
    let field = read_field(reader, canonical)?;
    Ok(CompositeInnerType::Array(ArrayType(field)))
}

#[tactic(auto, unfolding(crate::specs::SubTypes::cont_type))]
fn read_cont_type(
    reader: &mut BinaryReader<'_>,
    canonical: CanonicalTypes<'_>,
    offset: u64,
) -> Result<CompositeInnerType, ReadError>
    ensures read { IfOk result (λ ty. cont_type canonical.entry reader.old.left
        ≡ Some (ty, reader.new.left)) }
    ensures refused { OnErr result (cont_type canonical.entry reader.old.left ≡ None) }
{
    let index = read_type_number(reader)?;
    let index = packed(canonical, index, offset)?;
    Ok(CompositeInnerType::Cont(ContType(index)))
}

/// Reads what a type with this code is made of.
fn read_inner_behind(
    alloc: Global,
    reader: &mut BinaryReader<'_>,
    canonical: CanonicalTypes<'_>,
    code: u8,
    offset: u64,
) -> Result<CompositeInnerType, ReadError>
    ensures read { IfOk result (λ ty. inner_behind code canonical.entry reader.old.left
        ≡ Some (ty, reader.new.left)) }
    ensures refused { IfErr result (λ e. e.cause ≢ OutOfMemory
        → inner_behind code canonical.entry reader.old.left ≡ None) }
{
    match code {
        0x60 => read_func_type(alloc, reader, canonical),
        0x5f => read_struct_type(alloc, reader, canonical),
        0x5e => read_array_type(reader, canonical),
        0x5d => read_cont_type(reader, canonical, offset),
        _ => Err(ReadError::malformed(Fault::InvalidTypeCode(code), offset)),
    }
}

/// Reads the type behind what it declares of supertypes, sharedness and descriptors: of a function, a struct, an array
/// or a continuation.
#[tactic(auto, unfolding(crate::specs::SubTypes::composite_inner_type))]
fn read_composite_inner_type(
    alloc: Global,
    reader: &mut BinaryReader<'_>,
    canonical: CanonicalTypes<'_>,
) -> Result<CompositeInnerType, ReadError>
    ensures read { IfOk result (λ ty. composite_inner_type canonical.entry reader.old.left
        ≡ Some (ty, reader.new.left)) }
    ensures refused { IfErr result (λ e. e.cause ≢ OutOfMemory
        → composite_inner_type canonical.entry reader.old.left ≡ None) }
{
    let offset = reader.offset();
    let code = reader.read_u8()?;
    read_inner_behind(alloc, reader, canonical, code, offset)
}

/// Reads this code if it stands there, and answers whether it does. It refuses where no byte is left: `unexpected end`.
pub(crate) fn read_mark(reader: &mut BinaryReader<'_>, code: u8) -> Result<bool, ReadError>
    ensures read { IfOk result (λ mark. marked code reader.old.left ≡ Some (mark, reader.new.left)) }
    ensures refused { OnErr result (marked code reader.old.left ≡ None) }
{
    reader.read_if(code)
}

/// Reads the index of a type behind this code, if the code stands there.
#[tactic(auto, unfolding(crate::specs::SubTypes::marked_index))]
fn read_marked_index(
    reader: &mut BinaryReader<'_>,
    canonical: CanonicalTypes<'_>,
    code: u8,
) -> Result<Option<PackedIndex>, ReadError>
    ensures read { IfOk result (λ name. marked_index code canonical.entry reader.old.left
        ≡ Some (name, reader.new.left)) }
    ensures refused { OnErr result (marked_index code canonical.entry reader.old.left ≡ None) }
{
    if !read_mark(reader, code)? {
        return Ok(None);
    }
    let offset = reader.offset();
    Ok(Some(read_type_index(reader, canonical, offset)?))
}

#[tactic(auto, unfolding(crate::specs::SubTypes::composite_type))]
fn read_composite_type(
    alloc: Global,
    reader: &mut BinaryReader<'_>,
    canonical: CanonicalTypes<'_>,
) -> Result<CompositeType, ReadError>
    ensures read { IfOk result (λ ty. composite_type canonical.entry reader.old.left
        ≡ Some (ty, reader.new.left)) }
    ensures refused { IfErr result (λ e. e.cause ≢ OutOfMemory
        → composite_type canonical.entry reader.old.left ≡ None) }
{
    let shared = read_mark(reader, 0x65)?;
    let describes_idx = read_marked_index(reader, canonical, 0x4c)?;
    let descriptor_idx = read_marked_index(reader, canonical, 0x4d)?;
    let inner = read_composite_inner_type(alloc, reader, canonical)?;
    Ok(CompositeType {
        inner,
        shared,
        descriptor_idx,
        describes_idx,
    })
}

/// Reads the supertype of a type that has so many, which stands at the offset.
fn read_supertype_of(
    reader: &mut BinaryReader<'_>,
    canonical: CanonicalTypes<'_>,
    count: u32,
    offset: u64,
) -> Result<Option<PackedIndex>, ReadError>
    ensures read { IfOk result (λ name. supertype_of count canonical.entry reader.old.left
        ≡ Some (name, reader.new.left)) }
    ensures refused { OnErr result (supertype_of count canonical.entry reader.old.left ≡ None) }
{
    match count {
        0 => Ok(None),
        1 => Ok(Some(read_type_index(reader, canonical, offset)?)),
        _ => Err(ReadError::malformed(Fault::SeveralSupertypes, offset)),
    }
}

#[tactic(auto, unfolding(crate::specs::SubTypes::supertype))]
fn read_supertype(
    reader: &mut BinaryReader<'_>,
    canonical: CanonicalTypes<'_>,
) -> Result<Option<PackedIndex>, ReadError>
    ensures read { IfOk result (λ name. supertype canonical.entry reader.old.left
        ≡ Some (name, reader.new.left)) }
    ensures refused { OnErr result (supertype canonical.entry reader.old.left ≡ None) }
{
    let offset = reader.offset();
    let count = reader.read_var_u32()?;
    read_supertype_of(reader, canonical, count, offset)
}

/// Reads a type that is final or not, and is declared below this one.
#[tactic(auto, unfolding(crate::specs::SubTypes::with_supertype))]
fn read_with_supertype(
    alloc: Global,
    reader: &mut BinaryReader<'_>,
    canonical: CanonicalTypes<'_>,
    is_final: bool,
    supertype_idx: Option<PackedIndex>,
) -> Result<SubType, ReadError>
    ensures read { IfOk result (λ ty. with_supertype is_final supertype_idx canonical.entry reader.old.left
        ≡ Some (ty, reader.new.left)) }
    ensures refused { IfErr result (λ e. e.cause ≢ OutOfMemory
        → with_supertype is_final supertype_idx canonical.entry reader.old.left ≡ None) }
{
    let composite_type = read_composite_type(alloc, reader, canonical)?;
    Ok(SubType {
        is_final,
        supertype_idx,
        composite_type,
    })
}

/// Reads a type that is final or not, behind its supertype.
#[tactic(auto, unfolding(crate::specs::SubTypes::below_supertype))]
fn read_below_supertype(
    alloc: Global,
    reader: &mut BinaryReader<'_>,
    canonical: CanonicalTypes<'_>,
    is_final: bool,
) -> Result<SubType, ReadError>
    ensures read { IfOk result (λ ty. below_supertype is_final canonical.entry reader.old.left
        ≡ Some (ty, reader.new.left)) }
    ensures refused { IfErr result (λ e. e.cause ≢ OutOfMemory
        → below_supertype is_final canonical.entry reader.old.left ≡ None) }
{
    let supertype_idx = read_supertype(reader, canonical)?;
    read_with_supertype(alloc, reader, canonical, is_final, supertype_idx)
}

/// Reads a type. It refuses what the reads of its parts refuse, `more than one supertype`, `invalid leading byte (0xNN)
/// for type`, and `type index greater than implementation limits`.
#[tactic(auto, unfolding(crate::specs::SubTypes::sub_type))]
pub(crate) fn read_sub_type(
    alloc: Global,
    reader: &mut BinaryReader<'_>,
    canonical: CanonicalTypes<'_>,
) -> Result<SubType, ReadError>
    ensures read { IfOk result (λ ty. sub_type canonical.entry reader.old.left
        ≡ Some (ty, reader.new.left)) }
    ensures refused { IfErr result (λ e. e.cause ≢ OutOfMemory
        → sub_type canonical.entry reader.old.left ≡ None) }
{
    let code = reader.peek()?;
    if code == 0x50 || code == 0x4f {
        reader.skip();
        return read_below_supertype(alloc, reader, canonical, code == 0x4f);
    }
    read_with_supertype(alloc, reader, canonical, true, None)
}
