//! The words of the command line, which are bytes: a file's name needn't be text.

use std::env::FillError;
use std::io;
use std::rt::Env;

/// Most words fit in so many bytes.
const ROOM: usize = 256;

/// Reads the word at this place, if it fits in so many bytes.
fn read_within(
    rt: &HostRuntime,
    place: usize,
    room: usize,
) -> io::Result<Result<Vec<u8>, FillError>> {
    let mut word = Vec::new(rt.alloc());
    word.resize(room, 0u8)?;
    match rt.arg(place, word.as_mut_slice()) {
        Ok(length) => {
            word.truncate(length);
            Ok(Ok(word))
        }
        Err(error) => Ok(Err(error)),
    }
}

/// Reads the word at this place, the program's name at 0; None past the last.
fn read_word(rt: &HostRuntime, place: usize) -> io::Result<Option<Vec<u8>>> {
    let mut room = ROOM;
    for _ in 0..usize::BITS {
        match read_within(rt, place, room)? {
            Ok(word) => return Ok(Some(word)),
            Err(FillError::NotPresent) => return Ok(None),
            Err(FillError::TooLong) => room = room.saturating_add(room),
        }
    }
    Err(io::Error::from(io::ErrorKind::OutOfMemory))
}

/// Reads the words behind the program's name.
pub fn read_words(rt: &HostRuntime) -> io::Result<Vec<Vec<u8>>> {
    let mut words = Vec::new(rt.alloc());
    for place in 1..usize::MAX {
        match read_word(rt, place)? {
            Some(word) => words.push(word)?,
            None => break,
        }
    }
    Ok(words)
}
