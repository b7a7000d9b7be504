//! A text as it is made, in memory.

use std::alloc::Global;
use std::fmt::Display;
use std::io;
use std::io::Write;

/// What is written so far. If memory runs out, it is cut, and that is told in the end: so what writes to it needn't look
/// after each word.
#[derive(Drop)]
pub struct Written {
    alloc: Global,
    text: String,
    is_cut: bool,
}

impl Written {
    /// Nothing. It takes no memory.
    pub fn new(alloc: Global) -> Written {
        Written {
            alloc,
            text: String::new(alloc),
            is_cut: false,
        }
    }

    /// Whether nothing is written.
    pub fn is_empty(&self) -> bool {
        self.text.is_empty()
    }

    /// Another text, with nothing in it.
    pub fn empty(&self) -> Written {
        Written::new(self.alloc)
    }

    /// Adds a text.
    pub fn add(&mut self, text: &str) {
        if self.text.push_str(text).is_err() {
            self.is_cut = true;
        }
    }

    /// Adds a letter.
    pub fn add_letter(&mut self, letter: char) {
        if self.text.push(letter).is_err() {
            self.is_cut = true;
        }
    }

    /// Adds what is shown so.
    pub fn show<D: Display + Drop>(&mut self, shown: D) {
        if write!(self.text, "{shown}").is_err() {
            self.is_cut = true;
        }
    }

    /// Adds a number in hexadecimal digits, with so many at least.
    pub fn add_hexadecimal(&mut self, number: u64, digits: usize) {
        if write!(self.text, "{number:0digits$x}").is_err() {
            self.is_cut = true;
        }
    }

    /// Adds an offset.
    pub fn add_offset(&mut self, offset: u64) {
        self.add("0x");
        self.add_hexadecimal(offset, 1);
    }

    /// Adds what was written elsewhere.
    pub fn add_written(&mut self, other: &Written) {
        self.add(&other.text);
        if other.is_cut {
            self.is_cut = true;
        }
    }

    /// The text so far.
    pub fn as_str(&self) -> &str {
        &self.text
    }

    /// Hands the text over, unless it is cut: then memory ran out.
    pub fn write_to<W: Write>(&self, out: &mut W) -> io::Result<()> {
        if self.is_cut {
            return Err(io::Error::from(io::ErrorKind::OutOfMemory));
        }
        out.write_all(self.text.as_bytes())
    }
}
