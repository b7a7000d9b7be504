//! Reading the whole input.

ghost use Rattle.std.specs.Prelude.{◌≡◌, IfOk, IfSome};

use crate::failure::{BadScript, Failure};
use std::alloc::Global;
use std::io::{ErrorKind, Read};

/// The bytes of the whole input.
pub fn read_input<R: Read>(alloc: Global, reader: &mut R) -> Result<Vec<u8>, Failure>
    ensures { IfOk result (λ input. IfSome (R.remaining reader.old) (λ bytes. input.items ≡ bytes)) }
{
    let mut input = Vec::new(alloc);
    match reader.read_to_end(&mut input) {
        Ok(_) => Ok(input),
        Err(error) if error.kind() == ErrorKind::OutOfMemory => Err(Failure::OutOfMemory),
        Err(_) => Err(Failure::BadScript(BadScript::Input)),
    }
}
