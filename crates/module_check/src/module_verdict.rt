//! What the check of a module comes to.

ghost use Rattle.std.specs.Prelude.{◌≡◌, ◌≢◌, ◌⊎◌, ◌<◌, ◌≤◌, ◌+◌, ◌-◌, ◌^◌, ℕ, length, take};
ghost use Rattle.module_check.specs.declared.verdict.Verdict.TheVariants.{Accepted, Refused, Malformed, NotCovered, OutOfMemory};
ghost use Rattle.validate_types.specs.declared.error.Error.{Error};
ghost use Rattle.module_check.specs.Verdicts.{IsConsistent, SaysNo, status_of, item_kind, item_index, Reports, counted_with, total};

use crate::outcome::{Outcome, VALID};
use crate::verdict::{Item, Verdict};

/// The kind of what is reported where it is the module as a whole.
const MODULE: u32 = 6;

/// The verdict on a module, as C lays it out. It reports one finding: the first of the gravest kind, as
/// [`Outcome::is_graver`] has these.
#[repr(C)]
#[derive(Drop)]
pub struct ModuleVerdict {
    /// The status: what it comes to, as [`crate::Outcome`] has it.
    pub status: u32,
    /// What is reported: 0 the body of a function; 1 to 5 a constant expression, that of a table or a global, the
    /// offset of an element segment, an item of one, the offset of a data segment; 6 the module.
    pub kind: u32,
    /// Why, as a number, where an operator's rule refuses; else 0.
    pub reason: u32,
    /// The index of the function, table, global or segment.
    pub index: u64,
    /// The offset in the bytes.
    pub offset: u64,
    /// How many bytes of the text were written.
    pub text_length: usize,
    /// How many bytes the whole text has.
    pub text_needed: usize,
    /// How many bodies and constant expressions are accepted.
    pub accepted: u64,
    /// How many are refused, as malformed or not valid; the module as a whole counts for one.
    pub refused: u64,
    /// How many aren't covered.
    pub not_covered: u64,
}

/// The kind and the index of what is reported.
fn kind_and_index(item: Option<Item>) -> (u32, u64)
    ensures kind { result.0 ≡ item_kind item }
    ensures index { result.1 ≡ item_index item }
{
    match item {
        Some(item) => {
            let named = item.named();
            (named.kind, u64::from(named.index))
        }
        None => (MODULE, 0),
    }
}

/// Writes the bytes, as many as there is room for, and answers how many.
pub fn write_text(message: &[u8], text: &mut [u8]) -> usize
    ensures fits { result ≤ length text.new }
    ensures written { take result text.new ≡ take result message.now }
    ensures room { length text.new ≡ length text.old }
{
    let count = message.len().min(text.len());
    text[..count].copy_from_slice(&message[..count]);
    count
}

impl ModuleVerdict {
    /// The verdict before anything is checked.
    pub fn new() -> ModuleVerdict
        ensures accepted { result.status ≡ 0 }
        ensures refused { result.refused ≡ 0 }
        ensures not_covered { result.not_covered ≡ 0 }
        ensures counted { total result ≡ 0 }
        ensures text { result.text_length ≡ 0 }
        ensures needed { result.text_needed ≡ 0 }
    {
        ModuleVerdict {
            status: VALID,
            kind: MODULE,
            reason: 0,
            index: 0,
            offset: 0,
            text_length: 0,
            text_needed: 0,
            accepted: 0,
            refused: 0,
            not_covered: 0,
        }
    }

    /// Reports this of the item, or of the module.
    pub fn report(
        &mut self,
        status: u32,
        item: Option<Item>,
        offset: u64,
        message: &str,
        text: &mut [u8],
    )
        ensures status { self.new.status ≡ status }
        ensures accepted { self.new.accepted ≡ self.old.accepted }
        ensures refused { self.new.refused ≡ self.old.refused }
        ensures not_covered { self.new.not_covered ≡ self.old.not_covered }
        ensures reported { Reports item self.new }
        ensures offset { self.new.offset ≡ offset }
        ensures fits { self.new.text_length ≤ length text.new }
        ensures needed { self.new.text_needed ≡ length message.now }
    {
        let (kind, index) = kind_and_index(item);
        self.status = status;
        self.kind = kind;
        self.reason = 0;
        self.index = index;
        self.offset = offset;
        self.text_length = write_text(message.as_bytes(), text);
        self.text_needed = message.len();
    }

    /// Counts what a verdict is about.
    fn count(&mut self, verdict: &Verdict)
        ensures { self.new ≡ counted_with verdict.now self.old }
    {
        match verdict {
            Verdict::Accepted => self.accepted = self.accepted.saturating_add(1),
            Verdict::Refused(_) | Verdict::Malformed(_) => {
                self.refused = self.refused.saturating_add(1);
            }
            Verdict::NotCovered(_) => self.not_covered = self.not_covered.saturating_add(1),
            Verdict::OutOfMemory => {}
        }
    }

    /// Counts a verdict on the item, or on the module, and reports it where it is graver than what is reported. If memory ran
    /// out, nothing is counted.
    pub fn note(&mut self, verdict: &Verdict, item: Option<Item>, text: &mut [u8])
        requires { IsConsistent (length text.old) self.old }
        ensures consistent { IsConsistent (length text.new) self.new }
        ensures accepted { self.new.status ≡ 0 → (self.old.status ≡ 0) × (verdict.now ≡ Accepted) }
        ensures refused { SaysNo self.new.status → SaysNo self.old.status
            ⊎ ((verdict.now ≢ Accepted) × (verdict.now ≢ OutOfMemory)) }
        ensures first { self.old.status ≡ 0 → self.new.status ≡ status_of verdict.now }
        ensures reported { self.old.status ≡ 0 → self.new.status ≢ 0 → Reports item self.new }
        ensures known { self.old.status ≤ 4 → self.new.status ≤ 4 }
        ensures counted { self.new.status ≢ 3 → (self.old.status ≢ 3)
            × (total self.old < 2 ^ 64 - 1 → total self.new ≡ total self.old + 1) }
        ensures uncovered { self.new.status ≡ 4 → (self.old.status ≡ 4)
            ⊎ ((offset : ℕ) × (verdict.now ≡ NotCovered offset)) }
        ensures malformed { self.new.status ≡ 2 → (self.old.status ≡ 2)
            ⊎ ((e : Error) × (verdict.now ≡ Malformed e)) }
        ensures invalid { self.new.status ≡ 1 → (self.old.status ≡ 1)
            ⊎ ((e : Error) × (verdict.now ≡ Refused e) × (self.new.offset ≡ e.offset)) }
    {
        self.count(verdict);
        let outcome = Outcome::of(verdict);
        if !outcome.is_graver(Outcome::of_status(self.status)) {
            return;
        }
        self.report(
            outcome.status(),
            item,
            verdict.offset(),
            verdict.message(),
            text,
        );
        self.reason = verdict.reason();
    }
}
