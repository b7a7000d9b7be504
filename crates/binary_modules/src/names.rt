//! The names of functions (WebAssembly core specification, appendix "Custom Sections", "Name Section"). They say
//! nothing of whether a module is valid, so what can't be read of them is left out.

use crate::parts::read_name;
use binary_operators::{BinaryReader, Cause, ReadError};
use std::alloc::Global;
use std::collections::BTreeMap;

/// The names of functions, by their indices.
#[derive(Drop)]
pub struct FunctionNames<'a> {
    names: BTreeMap<u32, &'a str>,
}

impl<'a> FunctionNames<'a> {
    /// No names. It takes no memory.
    pub fn new(alloc: Global) -> FunctionNames<'a> {
        FunctionNames {
            names: BTreeMap::new(alloc),
        }
    }

    /// The name of the function at this index, or None where it has none.
    pub fn of(&self, function: u32) -> Option<&'a str> {
        self.names.get(&function).copied()
    }

    /// Reads the names of a subsection of functions.
    fn read(&mut self, reader: &mut BinaryReader<'a>) -> Result<(), ReadError> {
        let count = reader.read_var_u32()?;
        for _ in 0..count {
            let function = reader.read_var_u32()?;
            let name = read_name(reader)?;
            let _former = self.names.insert(function, name)?;
        }
        Ok(())
    }

    /// Reads a name section.
    fn read_section(&mut self, reader: &mut BinaryReader<'a>) -> Result<(), ReadError> {
        for _ in 0..reader.bytes_left() {
            if reader.is_at_end() {
                return Ok(());
            }
            let id = reader.read_u8()?;
            let mut part = reader.sized_part()?;
            if id == 1 {
                self.read(&mut part)?;
            }
        }
        Ok(())
    }
}

/// Reads the names of the functions in a module's name section, up to the first that can't be read. It refuses
/// want of memory alone.
pub fn read_function_names<'a>(
    alloc: Global,
    section: &BinaryReader<'a>,
) -> Result<FunctionNames<'a>, ReadError> {
    let mut names = FunctionNames::new(alloc);
    let mut reader = section.duplicate();
    if let Err(error) = names.read_section(&mut reader) {
        if matches!(error.cause, Cause::OutOfMemory) {
            return Err(error);
        }
    }
    Ok(names)
}
