//! What the check of a body or a constant expression comes to.

ghost use Rattle.std.specs.Prelude.{◌≡◌, ◌≢◌, ◌↔◌, ◌⊎◌, ℕ, true, false, drop, IsOk, IfErr};
ghost use Rattle.binary_operators.specs.Vectors.{BeginVector};
ghost use Rattle.binary_operators.specs.declared.error.Cause.TheVariants.{Malformed as OfFault, OutOfMemory as NoMemory, VectorOperator};
ghost use Rattle.binary_operators.specs.declared.error.Fault.{Fault};
ghost use Rattle.module_check.specs.Refusals.{IsRefusal, IsInvalid, IsMalformed, IsVector, error_offset};
ghost use Rattle.module_check.specs.Verdicts.{kind_of, index_of, verdict_offset};
ghost use Rattle.module_check.specs.declared.verdict.Verdict.TheVariants.{Accepted, Refused, Malformed, NotCovered, OutOfMemory};
ghost use Rattle.validate_types.specs.Features.{has, simd};
ghost use Rattle.validate_types.specs.declared.error.Error.{Error};

use crate::reasons::reason_number;
use binary_operators::{BinaryReader, Cause, Fault, ReadError};
use module_rules::Place;
use std::alloc::Global;
use std::fmt;
use validate_types::{Error, WasmFeatures};

/// What is checked.
#[derive(Clone, Copy)]
pub enum Item {
    /// The body of the function at this index.
    Function(u32),
    /// A constant expression for this.
    Expression(Place),
}

/// How an item is named: what it belongs to, the index of that, and which part of it.
#[derive(Clone, Copy)]
pub struct ItemName {
    /// The number of its kind, for callers in C.
    pub kind: u32,
    /// What it belongs to.
    pub word: &'static str,
    /// The index of that.
    pub index: u32,
    /// Which part of it, behind a space.
    pub part: &'static str,
}

impl ItemName {
    fn new(kind: u32, word: &'static str, index: u32, part: &'static str) -> ItemName
        ensures kind { result.kind ≡ kind }
        ensures index { result.index ≡ index }
    {
        ItemName {
            kind,
            word,
            index,
            part,
        }
    }
}

impl Item {
    /// How it is named.
    pub fn named(self) -> ItemName
        ensures kind { result.kind ≡ kind_of self }
        ensures index { result.index ≡ index_of self }
    {
        match self {
            Item::Function(index) => ItemName::new(0, "func", index, ""),
            Item::Expression(Place::Table(index)) => ItemName::new(1, "table", index, " init"),
            Item::Expression(Place::Global(index)) => ItemName::new(2, "global", index, " init"),
            Item::Expression(Place::ElementOffset(index)) => {
                ItemName::new(3, "elem", index, " offset")
            }
            Item::Expression(Place::Element(index)) => ItemName::new(4, "elem", index, " item"),
            Item::Expression(Place::DataOffset(index)) => {
                ItemName::new(5, "data", index, " offset")
            }
        }
    }
}

impl fmt::Display for Item {
    fn fmt<W: fmt::Write>(&self, f: &mut fmt::Formatter<W>) -> fmt::Result {
        let ItemName {
            word,
            index,
            part,
            ..
        } = self.named();
        write!(f, "{word} {index}{part}")
    }
}

/// What the check comes to.
#[derive(Drop)]
pub enum Verdict {
    /// Each operator is accepted, and the last closes the body.
    Accepted,
    /// It isn't valid, for this reason.
    Refused(Error),
    /// Its bytes can't be read: they aren't of the binary format.
    Malformed(Error),
    /// It has a vector operator at this offset, which isn't covered, and nothing before is refused.
    NotCovered(u64),
    /// Memory ran out.
    OutOfMemory,
}

/// Why a body isn't accepted.
#[derive(Drop)]
pub enum CheckError {
    /// It can't be read.
    Unread(ReadError),
    /// The validator refuses it, or has no memory for it.
    Refused(Error),
}

impl CheckError {
    /// A refusal with this text, at the offset.
    pub(crate) fn refused(message: &'static str, offset: u64) -> CheckError
        ensures invalid { IsInvalid result }
        ensures offset { error_offset result ≡ offset }
    {
        CheckError::Refused(Error::new(message, offset))
    }
}

impl From<ReadError> for CheckError {
    ghost use Rattle.module_check.specs.declared.verdict.CheckError.TheVariants.{Unread};

    ghost from_gives = { λ error refusal. refusal ≡ Unread error };

    fn from(error: ReadError) -> CheckError {
        CheckError::Unread(error)
    }
}

impl From<Error> for CheckError {
    ghost use Rattle.module_check.specs.declared.verdict.CheckError.TheVariants.{Refused};

    ghost from_gives = { λ error refusal. refusal ≡ Refused error };

    fn from(error: Error) -> CheckError {
        CheckError::Refused(error)
    }
}

/// Whether the prefix of vector operators stands at this offset.
fn has_vector_at(bytes: &[u8], offset: u64) -> bool
    ensures { result ≡ true → BeginVector (drop offset bytes.now) }
{
    let mut reader = BinaryReader::new(bytes);
    match reader.read_bytes(offset as usize) {
        Ok(_) => matches!(reader.peek(), Ok(0xfd)),
        Err(_) => false,
    }
}

impl Verdict {
    /// The verdict of a body that was checked: it is accepted, or it isn't for this.
    pub fn of_check(checked: Result<(), CheckError>) -> Verdict
        ensures accepted { (result ≡ Accepted) ↔ IsOk checked }
        ensures refused { result ≢ Accepted → result ≢ OutOfMemory → IfErr checked IsRefusal }
        ensures uncovered { (offset : ℕ) → result ≡ NotCovered offset → IfErr checked IsVector }
        ensures malformed { (e : Error) → result ≡ Malformed e → IfErr checked IsMalformed }
        ensures offset { result ≢ OutOfMemory → IfErr checked (λ e. error_offset e ≡ verdict_offset result) }
    {
        match checked {
            Ok(()) => Verdict::Accepted,
            Err(CheckError::Unread(error)) => Verdict::of_read_error(error),
            Err(CheckError::Refused(refusal)) => Verdict::of_error(refusal),
        }
    }

    /// [`Verdict::of_check`], with the number that the text of a fault has; or there is no memory for that.
    pub fn of_check_in(alloc: Global, checked: Result<(), CheckError>) -> Verdict
        ensures accepted { (result ≡ Accepted) ↔ IsOk checked }
        ensures refused { result ≢ Accepted → result ≢ OutOfMemory → IfErr checked IsRefusal }
        ensures uncovered { (offset : ℕ) → result ≡ NotCovered offset → IfErr checked IsVector }
        ensures malformed { (e : Error) → result ≡ Malformed e → IfErr checked IsMalformed }
        ensures offset { result ≢ OutOfMemory → IfErr checked (λ e. error_offset e ≡ verdict_offset result) }
    {
        match checked {
            Ok(()) => Verdict::Accepted,
            Err(CheckError::Unread(error)) => Verdict::of_read_error_in(alloc, error),
            Err(CheckError::Refused(refusal)) => Verdict::of_error(refusal),
        }
    }

    /// The verdict on an error of the validator: `Refused`, unless memory ran out.
    pub fn of_error(error: Error) -> Verdict
        ensures not_accepted { result ≢ Accepted }
        ensures refused { (e : Error) → result ≡ Refused e → error.wants_memory ≡ false }
        ensures memory { result ≢ OutOfMemory → error.wants_memory ≡ false }
        ensures offset { result ≢ OutOfMemory → error.offset ≡ verdict_offset result }
        ensures covered { (offset : ℕ) → result ≢ NotCovered offset }
        ensures malformed { (e : Error) → result ≢ Malformed e }
    {
        if error.is_out_of_memory() {
            Verdict::OutOfMemory
        } else {
            Verdict::Refused(error)
        }
    }

    /// The offset that it tells, or 0.
    pub fn offset(&self) -> u64
        ensures { result ≡ verdict_offset self.now }
    {
        match self {
            Verdict::Refused(refusal) | Verdict::Malformed(refusal) => refusal.offset(),
            Verdict::NotCovered(offset) => *offset,
            Verdict::Accepted | Verdict::OutOfMemory => 0,
        }
    }

    /// What it says, in words: nothing of what is accepted.
    pub fn message(&self) -> &str {
        match self {
            Verdict::Accepted => "",
            Verdict::Refused(refusal) | Verdict::Malformed(refusal) => refusal.message(),
            Verdict::NotCovered(_) => "a vector operator",
            Verdict::OutOfMemory => "out of memory",
        }
    }

    /// The number of the reason, where an operator's rule refuses, or 0.
    pub(crate) fn reason(&self) -> u32 {
        match self {
            Verdict::Refused(refusal) => reason_number(refusal),
            _ => 0,
        }
    }

    /// Whether it is that of a vector operator, which isn't covered.
    pub fn is_not_covered(&self) -> bool
        ensures uncovered { result ≡ true → (offset : ℕ) × (self.now ≡ NotCovered offset) }
        ensures others { result ≡ false → (offset : ℕ) → self.now ≢ NotCovered offset }
    {
        matches!(self, Verdict::NotCovered(_))
    }

    /// The verdict under these proposals: vector operators are refused where theirs is off.
    pub fn under(self, features: &WasmFeatures) -> Verdict
        ensures accepted { (result ≡ Accepted) ↔ (self ≡ Accepted) }
        ensures memory { (result ≡ OutOfMemory) ↔ (self ≡ OutOfMemory) }
        ensures proposal { (offset : ℕ) → result ≡ NotCovered offset → has features.now simd ≡ true }
        ensures same { has features.now simd ≡ true → result ≡ self }
        ensures malformed { (e : Error) → result ≡ Malformed e → self ≡ Malformed e }
        ensures offset { verdict_offset result ≡ verdict_offset self }
    {
        match self {
            Verdict::NotCovered(offset) if !features.simd() => {
                Verdict::Refused(Error::new("SIMD support is not enabled", offset))
            }
            verdict => verdict,
        }
    }

    /// The verdict on these bytes: it is *not covered* only where a vector operator begins at the offset that it tells.
    /// Elsewhere they end before what was read.
    pub(crate) fn within(self, bytes: &[u8]) -> Verdict
        ensures accepted { (result ≡ Accepted) ↔ (self ≡ Accepted) }
        ensures memory { (result ≡ OutOfMemory) ↔ (self ≡ OutOfMemory) }
        ensures same { (offset : ℕ) → result ≡ NotCovered offset → self ≡ NotCovered offset }
        ensures uncovered { (offset : ℕ) → result ≡ NotCovered offset → BeginVector (drop offset bytes.now) }
        ensures malformed { (e : Error) → result ≡ Malformed e
            → (self ≡ Malformed e) ⊎ ((offset : ℕ) × (self ≡ NotCovered offset)) }
        ensures invalid { (e : Error) → result ≡ Refused e → self ≡ Refused e }
    {
        match self {
            Verdict::NotCovered(offset) if !has_vector_at(bytes, offset) => {
                let text = Fault::UnexpectedEnd.text();
                Verdict::Malformed(Error::new(text, bytes.len() as u64))
            }
            verdict => verdict,
        }
    }

    /// The verdict where bytes can't be read for this, which is told so. Some of what the reader refuses is of the binary
    /// format, but not valid: an index of 2^20 or more, and several supertypes.
    fn of_fault(fault: Fault, refusal: Error) -> Verdict
        ensures not_accepted { result ≢ Accepted }
        ensures offset { verdict_offset result ≡ refusal.offset }
        ensures memory { result ≢ OutOfMemory }
        ensures covered { (offset : ℕ) → result ≢ NotCovered offset }
    {
        match fault {
            Fault::TypeIndexTooLarge | Fault::SeveralSupertypes => Verdict::Refused(refusal),
            _ => Verdict::Malformed(refusal),
        }
    }

    /// The verdict where bytes can't be read. Its text has no numbers.
    pub fn of_read_error(error: ReadError) -> Verdict
        ensures not_accepted { result ≢ Accepted }
        ensures memory { result ≢ OutOfMemory → error.cause ≢ NoMemory }
        ensures uncovered { (offset : ℕ) → result ≡ NotCovered offset → error.cause ≡ VectorOperator }
        ensures malformed { (e : Error) → result ≡ Malformed e → (fault : Fault) × (error.cause ≡ OfFault fault) }
        ensures offset { result ≢ OutOfMemory → error.offset ≡ verdict_offset result }
    {
        match error.cause {
            Cause::Malformed(fault) => {
                Verdict::of_fault(fault, Error::new(fault.text(), error.offset))
            }
            Cause::VectorOperator => Verdict::NotCovered(error.offset),
            Cause::OutOfMemory => Verdict::OutOfMemory,
        }
    }

    /// [`Verdict::of_read_error`], with the number that the text of a fault has; or there is no memory for that.
    pub fn of_read_error_in(alloc: Global, error: ReadError) -> Verdict
        ensures not_accepted { result ≢ Accepted }
        ensures memory { result ≢ OutOfMemory → error.cause ≢ NoMemory }
        ensures uncovered { (offset : ℕ) → result ≡ NotCovered offset → error.cause ≡ VectorOperator }
        ensures malformed { (e : Error) → result ≡ Malformed e → (fault : Fault) × (error.cause ≡ OfFault fault) }
        ensures offset { result ≢ OutOfMemory → error.offset ≡ verdict_offset result }
    {
        match error.cause {
            Cause::Malformed(fault) if fault.has_number() => {
                match format!(in alloc; "{fault}") {
                    Ok(text) => Verdict::of_fault(fault, Error::with_text(text, error.offset)),
                    Err(_) => Verdict::OutOfMemory,
                }
            }
            _ => Verdict::of_read_error(error),
        }
    }
}
