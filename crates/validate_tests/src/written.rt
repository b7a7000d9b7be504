//! A text as it is made, in memory.

use crate::expectations::expect_memory;
use std::alloc::Global;
use std::fmt::Display;
use std::process::Abort;
use wasmparser_validate::types::Error;

/// What is written so far, and whether memory was wanting, for it or for an operator. Then nothing is added: what writes
/// needn't look after each word, and what the operator left can be looked at before the test ends.
#[derive(Drop)]
pub struct Written {
    text: String,
    is_wanting: bool,
}

impl Written {
    /// Nothing. It takes no memory.
    pub fn new(alloc: Global) -> Written {
        Written {
            text: String::new(alloc),
            is_wanting: false,
        }
    }

    /// Adds what is shown so.
    pub fn add<D: Display + Drop>(&mut self, shown: D) {
        if !self.is_wanting {
            self.is_wanting = write!(self.text, "{shown}").is_err();
        }
    }

    /// Adds the words of a refusal, and this behind them. Want of memory has none.
    pub fn add_refusal(&mut self, refusal: &Error, behind: &str) {
        if refusal.is_out_of_memory() {
            self.is_wanting = true;
        }
        self.add(refusal.message());
        self.add(behind);
    }

    /// Adds the words of an answer, where it is a refusal.
    pub fn add_words(&mut self, answer: &Result<(), Error>) {
        if let Err(refusal) = answer {
            self.add_refusal(refusal, "; ");
        }
    }

    /// Ends the test if memory was wanting.
    pub fn expect_memory(&self, rt: &impl Abort) {
        expect_memory(rt, self.is_wanting);
    }

    /// The text so far.
    pub fn as_str(&self) -> &str {
        &self.text
    }
}
