//! The types of functions, globals and tags, and exports (WebAssembly core specification, "Binary Format: Modules").

ghost use Rattle.std.specs.Prelude.{◌≡◌, ◌≢◌, Some, None, IfOk, IfErr, OnErr, slice_get};
ghost use Rattle.binary_operators.specs.declared.error.Cause.TheVariants.{OutOfMemory};
ghost use Rattle.binary_modules.specs.Items.{function, global_type, tag_type, external_kinds, export};

use crate::limits::has_flag;
use crate::parts::read_name;
use binary_operators::{BinaryReader, CanonicalTypes, Fault, ReadError, read_value_type};
use module_rules::{DeclaredFunction, DeclaredGlobal, DeclaredTag, Export, ExternalKind};
use std::alloc::Global;
use validate_types::GlobalType;

/// Reads the type of a function that stands at this offset. A reference to it is exact or not.
#[tactic(auto, unfolding(crate::specs::Items::function))]
pub(crate) fn read_function(
    reader: &mut BinaryReader<'_>,
    canonical: CanonicalTypes<'_>,
    exact: bool,
    offset: u64,
) -> Result<DeclaredFunction, ReadError>
    ensures read { IfOk result (λ f. function exact canonical.entry reader.old.left
        ≡ Some (record f { offset = 0 }, reader.new.left)) }
    ensures refused { OnErr result (function exact canonical.entry reader.old.left ≡ None) }
{
    let index = reader.read_var_u32()?;
    Ok(DeclaredFunction {
        type_index: canonical.of(index),
        exact,
        offset,
    })
}

/// Reads the type of a global that stands at this offset. It refuses `malformed mutability`, and what the read of a
/// value type refuses.
#[tactic(auto, unfolding(crate::specs::Items::global_type))]
pub(crate) fn read_global_type(
    reader: &mut BinaryReader<'_>,
    canonical: CanonicalTypes<'_>,
    offset: u64,
) -> Result<DeclaredGlobal, ReadError>
    ensures read { IfOk result (λ g. global_type canonical.entry reader.old.left
        ≡ Some (record g { offset = 0 }, reader.new.left)) }
    ensures refused { OnErr result (global_type canonical.entry reader.old.left ≡ None) }
{
    let content_type = read_value_type(reader, canonical)?;
    let flags_offset = reader.offset();
    let flags = reader.read_u8()?;
    if flags > 3 {
        return Err(ReadError::malformed(Fault::MalformedMutability, flags_offset));
    }
    Ok(DeclaredGlobal {
        ty: GlobalType {
            content_type,
            mutable: has_flag(1, flags),
            shared: has_flag(2, flags),
        },
        offset,
    })
}

/// Reads the type of a tag that stands at this offset. It refuses an attribute that isn't that of exceptions, `invalid
/// tag attributes`.
#[tactic(auto, unfolding(crate::specs::Items::tag_type))]
pub(crate) fn read_tag_type(
    reader: &mut BinaryReader<'_>,
    canonical: CanonicalTypes<'_>,
    offset: u64,
) -> Result<DeclaredTag, ReadError>
    ensures read { IfOk result (λ t. tag_type canonical.entry reader.old.left
        ≡ Some (record t { offset = 0 }, reader.new.left)) }
    ensures refused { OnErr result (tag_type canonical.entry reader.old.left ≡ None) }
{
    let attribute_offset = reader.offset();
    let attribute = reader.read_u8()?;
    let index = reader.read_var_u32()?;
    if attribute != 0 {
        return Err(ReadError::malformed(Fault::InvalidTagAttributes, attribute_offset));
    }
    Ok(DeclaredTag {
        func_type_idx: canonical.of(index),
        offset,
    })
}

/// What an export with this code is of.
fn external_kind(code: u8) -> Option<ExternalKind>
    ensures { result ≡ slice_get external_kinds code }
{
    match code {
        0 => Some(ExternalKind::Func),
        1 => Some(ExternalKind::Table),
        2 => Some(ExternalKind::Memory),
        3 => Some(ExternalKind::Global),
        4 => Some(ExternalKind::Tag),
        _ => None,
    }
}

/// Reads an export. It refuses a code that is none, `invalid leading byte (0xNN) for external kind`, what the reads of its
/// name and of numbers refuse, and want of memory.
#[tactic(auto, unfolding(crate::specs::Items::export))]
pub(crate) fn read_export(alloc: Global, reader: &mut BinaryReader<'_>) -> Result<Export, ReadError>
    ensures read { IfOk result (λ e. export reader.old.left
        ≡ Some (record e { offset = 0 }, reader.new.left)) }
    ensures refused { IfErr result (λ e. e.cause ≢ OutOfMemory → export reader.old.left ≡ None) }
{
    let offset = reader.offset();
    let Ok(name) = String::from_str(alloc, read_name(reader)?) else {
        return Err(ReadError::out_of_memory(offset));
    };
    let kind_offset = reader.offset();
    let code = reader.read_u8()?;
    let Some(kind) = external_kind(code) else {
        return Err(ReadError::malformed(Fault::InvalidExternalKind(code), kind_offset));
    };
    let index = reader.read_var_u32()?;
    Ok(Export {
        name,
        kind,
        index,
        offset,
    })
}
