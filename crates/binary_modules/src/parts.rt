//! Parts of a module of which the number of bytes is written, and names (WebAssembly core specification, "Binary
//! Format: Values", "Names").

ghost use Rattle.std.specs.Prelude.{◌≡◌, true, false, Some, None, IfOk, OnOk, OnErr};
ghost use Rattle.std.specs.Str.{is_utf8};
ghost use Rattle.binary_modules.specs.Parts.{sized, name};

use binary_operators::{BinaryReader, Fault, ReadError};
use std::str;

/// Reads how many bytes there are, and the bytes. It refuses what the read of a number refuses, and where fewer bytes
/// are left: `unexpected end`.
#[tactic(auto, unfolding(crate::specs::Parts::sized))]
pub(crate) fn read_sized<'a>(reader: &mut BinaryReader<'a>) -> Result<&'a [u8], ReadError>
    ensures read { IfOk result (λ bytes. sized reader.old.left ≡ Some (bytes.now, reader.new.left)) }
    ensures refused { OnErr result (sized reader.old.left ≡ None) }
{
    let count = reader.read_var_u32()?;
    reader.read_bytes(count as usize)
}

/// The text of these bytes, which stand at this offset. It refuses `malformed UTF-8 encoding`.
#[tactic(auto, using(crate::proofs::Named::is_text, crate::proofs::Named::is_no_text))]
fn text_of<'a>(bytes: &'a [u8], offset: u64) -> Result<&'a str, ReadError>
    ensures read { IfOk result (λ text. text.now ≡ bytes.now) }
    ensures encoded { OnOk result (is_utf8 bytes.now ≡ true) }
    ensures refused { OnErr result (is_utf8 bytes.now ≡ false) }
{
    match str::from_utf8(bytes) {
        Ok(text) => Ok(text),
        Err(_) => Err(ReadError::malformed(Fault::MalformedUtf8Encoding, offset)),
    }
}

/// Reads a name. It refuses what the reads of its length and of its bytes refuse, and `malformed UTF-8 encoding`.
#[tactic(auto, unfolding(crate::specs::Parts::name, crate::specs::Parts::sized))]
pub(crate) fn read_name<'a>(reader: &mut BinaryReader<'a>) -> Result<&'a str, ReadError>
    ensures read { IfOk result (λ text. name reader.old.left ≡ Some (text.now, reader.new.left)) }
    ensures refused { OnErr result (name reader.old.left ≡ None) }
{
    let count = reader.read_var_u32()?;
    let offset = reader.offset();
    let bytes = reader.read_bytes(count as usize)?;
    text_of(bytes, offset)
}
