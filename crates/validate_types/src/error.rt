//! Why something was refused, and where.

ghost use Rattle.std.specs.Prelude.{◌≡◌, true, false, codes, IfOk, OnErr};
ghost use Rattle.std.specs.String.{string_bytes};

use crate::refusal::Refusal;
use std::alloc::{AllocError, AllocFailed};
use std::marker::Model;

/// A growth was refused: there was no memory for it.
#[derive(Clone, Copy, Debug, PartialEq, Eq)]
pub struct OutOfMemory;

impl From<AllocError> for OutOfMemory {
    fn from(_e: AllocError) -> OutOfMemory {
        OutOfMemory
    }
}

impl<T: Drop> From<AllocFailed<T>> for OutOfMemory {
    fn from(_e: AllocFailed<T>) -> OutOfMemory {
        OutOfMemory
    }
}

#[derive(Debug, Drop)]
enum Message {
    Fixed(&'static str),
    Owned(String),
    OutOfMemory,
}

/// Why a call failed: a refusal, or that memory ran out. It has a text, and the offset that the call was given.
/// Contracts see an `ErrorValue` of `specs/`, which leaves the reason out. No call takes memory.
///
/// wasmparser's `BinaryReaderError`, there named `Error` inside the validator.
#[derive(Debug, Drop)]
pub struct Error {
    // In this order of the fields an answer is copied faster.
    message: Message,
    offset: u64,
    reason: Option<Refusal>,
}

impl Model for Error {
    ghost use Rattle.validate_types.specs.ErrorValue.{ErrorValue};

    ghost Value = { ErrorValue };

    ghost use Rattle.validate_types.specs.Messages.{text_of, wants_memory};

    ghost view = { λ e. record {
      offset = e.offset;
      text = text_of e.message;
      wants_memory = wants_memory e.message;
    } };
}

impl Error {
    /// A refusal with this text, at this offset.
    pub fn new(message: &'static str, offset: u64) -> Error
        ensures { result ≡ record { offset = offset; text = message.now; wants_memory = false } }
    {
        Error {
            offset,
            message: Message::Fixed(message),
            reason: None,
        }
    }

    /// A refusal with a text that was made for it, at this offset.
    pub fn with_text(text: String, offset: u64) -> Error
        ensures { result ≡ record { offset = offset; text = string_bytes text; wants_memory = false } }
    {
        Error {
            offset,
            message: Message::Owned(text),
            reason: None,
        }
    }

    /// A refusal with a text that was made for it, at this offset; or want of memory, where there was none for
    /// the text.
    pub fn from_text(text: Result<String, AllocError>, offset: u64) -> Error
        ensures made { IfOk text (λ t. result
            ≡ record { offset = offset; text = string_bytes t; wants_memory = false }) }
        ensures unmade { OnErr text (result
            ≡ record { offset = offset; text = codes "out of memory"; wants_memory = true }) }
        ensures offset { result.offset ≡ offset }
    {
        match text {
            Ok(text) => Error::with_text(text, offset),
            Err(_) => Error::out_of_memory(offset),
        }
    }

    /// Want of memory, at this offset. Its text is `out of memory`.
    pub fn out_of_memory(offset: u64) -> Error
        ensures { result ≡ record { offset = offset; text = codes "out of memory"; wants_memory = true } }
    {
        Error {
            offset,
            message: Message::OutOfMemory,
            reason: None,
        }
    }

    /// The same refusal, at this offset.
    pub fn at(self, offset: u64) -> Error
        ensures { result ≡ record self { offset = offset } }
    {
        Error { offset, ..self }
    }

    /// The same refusal, and why it is one.
    pub fn because(self, reason: Refusal) -> Error
        ensures { result ≡ self }
    {
        Error {
            reason: Some(reason),
            ..self
        }
    }

    /// Why an operator was refused: match on this, not on the text. `None` if no rule of an operator refused: memory
    /// ran out, or a lookup of the caller's own refused.
    pub fn reason(&self) -> Option<Refusal> {
        self.reason
    }

    /// The offset that was handed in to the call that refused.
    pub fn offset(&self) -> u64
        ensures { result ≡ self.now.offset }
    {
        self.offset
    }

    /// Whether memory ran out. Then it says nothing of the operator's row.
    pub fn is_out_of_memory(&self) -> bool
        ensures { result ≡ self.now.wants_memory }
    {
        matches!(&self.message, Message::OutOfMemory)
    }

    /// The text of the refusal.
    pub fn message(&self) -> &str
        ensures { result.now ≡ self.now.text }
    {
        match &self.message {
            Message::Fixed(text) => text,
            Message::Owned(text) => text.as_str(),
            Message::OutOfMemory => "out of memory",
        }
    }
}
