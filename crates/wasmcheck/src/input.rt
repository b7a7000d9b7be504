//! The bytes of a file, by its name.

use std::{fs, io, str};

/// What is said of a name that the system may know, but that no call of `std` takes.
const NO_TEXT: &str = "a file whose name isn't UTF-8 can only be read from standard input";

/// Reads the file of this name. It refuses one that isn't UTF-8, since a path is text.
pub fn read_file(rt: &HostRuntime, name: &[u8]) -> io::Result<Vec<u8>> {
    match str::from_utf8(name) {
        Ok(path) => fs::read(rt, path),
        Err(_) => Err(io::Error::new(io::ErrorKind::InvalidFilename, NO_TEXT)),
    }
}
