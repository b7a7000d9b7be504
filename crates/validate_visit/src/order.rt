//! Which lists of operators are well ordered.

ghost use Rattle.std.specs.Prelude.{◌≡◌, ◌≢◌, ℕ, ◌+◌, ◌-◌, ◌<◌, ◌≤◌, ◌^◌, ◌++◌, [], ◌∷◌, List, None, true, map, drop, cond};
ghost use Rattle.std.specs.Int.{bit_at};
ghost use Rattle.validate_visit.specs.Order.{is_well_ordered_list, is_part_opener, is_part_closer, may_stand_anywhere, may_catch, part_begun, nesting};
ghost use Rattle.validate_visit.specs.Parts.{outermost, parts_left, is_first_part, may_stand_in, most_noted, is_noted_at, NotesAt, AreNoted};
ghost use Rattle.validate_visit.specs.Order.{parts_after};
ghost use Rattle.validate_visit.specs.declared.frame.FrameKind.{FrameKind};
ghost use Rattle.validate_visit.specs.declared.op.Op.{Op};
ghost use Rattle.validate_visit.specs.declared.op.ControlOp.{ControlOp};

use crate::frame::FrameKind;
use crate::op::{ControlOp, ExceptionOp, Op};

/// How many words hold a bit for each of the innermost parts.
const WORDS: usize = 1024;

/// Of how many parts it can be noted what they are.
const MOST_NOTED: usize = 64 * WORDS;

/// Whether the operators stand in an order that a body can have, reading from an open outermost frame.
/// `block`, `loop`, `if`, `try_table` and `try` open a part, and `end` closes the innermost one, whatever
/// it is. `else` stands in the first part of an `if`, and begins its other part. `catch` and `catch_all`
/// stand in the body of a legacy `try`, or in the part of a `catch` before, and begin a part of their own.
/// `delegate` closes the body of a legacy `try`. Nothing follows the outermost `end`. The list may stop
/// early, and the empty list is well ordered. The offsets don't matter.
///
/// It takes no memory: it counts the open parts, and notes of the innermost 65,536 what may stand in
/// them. Only where the list comes up from deeper does it look back for the next ones.
pub fn is_well_ordered(ops: &[(Op<'_>, u64)]) -> bool
    ensures { result ≡ is_well_ordered_list (map (λ (p : _). p.0) ops.now) }
{
    let mut parts = OpenParts {
        depth: 1,
        noted: 0,
        notes: Notes {
            firsts: [0; WORDS],
            catching: [0; WORDS],
        },
    };
    for (index, pair) in ops.iter().enumerate() {
        let (op, _) = *pair;
        if parts.depth == 0 || !parts.may_follow(op, &ops[..index]) {
            return false;
        }
        parts.read(op);
    }
    true
}

/// The parts that are open, and what is noted of the innermost.
#[derive(Drop)]
struct OpenParts {
    /// How many are open.
    depth: usize,
    /// How many of the innermost are noted.
    noted: usize,
    /// What is noted of those.
    notes: Notes,
}

/// What is noted of parts: for each two bits, at its depth in a ring.
#[derive(Drop)]
struct Notes {
    /// Whether it is the first part of an `if` or of a legacy `try`.
    firsts: [u64; WORDS],
    /// Whether a `catch` may follow it.
    catching: [u64; WORDS],
}

impl OpenParts {
    /// Whether the operator may follow these, which a `nop` may follow.
    #[inline(always)]
    fn may_follow(&mut self, op: Op<'_>, before: &[(Op<'_>, u64)]) -> bool
        requires nop { is_well_ordered_list (map (λ (p : _). p.0) before.now
            ++ (Op.Control ControlOp.Nop) ∷ []) ≡ true }
        requires noted { AreNoted self.old.depth self.old.noted self.old.notes
            (parts_left (map (λ (p : _). p.0) before.now)) }
        requires some { 0 < self.old.depth }
        ensures answer { result ≡ is_well_ordered_list (map (λ (p : _). p.0) before.now ++ op.entry ∷ []) }
        ensures noted { AreNoted self.new.depth self.new.noted self.new.notes
            (parts_left (map (λ (p : _). p.0) before.now)) }
        ensures depth { self.new.depth ≡ self.old.depth }
    {
        if may_stand_anywhere(op) {
            return true;
        }
        self.look_back(before);
        self.noted > 0 && self.notes.may_stand(op, self.depth)
    }

    /// Reads an operator that may stand there.
    #[inline(always)]
    fn read(&mut self, op: Op<'_>)
        requires some { 0 < self.old.depth }
        requires within_limit { self.old.depth < 2 ^ 63 }
        ensures at_most { self.new.depth ≤ self.old.depth + 1 }
        ensures noted { (kinds : List FrameKind) → AreNoted self.old.depth self.old.noted self.old.notes
            kinds → AreNoted self.new.depth self.new.noted self.new.notes
            (parts_after kinds (nesting op.entry)) }
    {
        if closes(op) {
            self.depth -= 1;
            self.noted = self.noted.saturating_sub(1);
        } else if let Some(kind) = begins(op) {
            let opened = usize::from(opens(op));
            self.depth += opened;
            self.noted = self.noted.saturating_add(opened).min(MOST_NOTED);
            self.notes.note(self.depth, kind);
        }
    }

    /// Where none is noted, notes the innermost parts that these operators leave open, as many as can be
    /// found and noted.
    #[inline(never)]
    fn look_back(&mut self, before: &[(Op<'_>, u64)])
        requires noted { AreNoted self.old.depth self.old.noted self.old.notes
            (parts_left (map (λ (p : _). p.0) before.now)) }
        requires some { 0 < self.old.depth }
        ensures noted { AreNoted self.new.depth self.new.noted self.new.notes
            (parts_left (map (λ (p : _). p.0) before.now)) }
        ensures none { self.new.noted ≡ 0 → parts_left (map (λ (p : _). p.0) before.now) ≡ outermost }
        ensures depth { self.new.depth ≡ self.old.depth }
    {
        if self.noted > 0 {
            return;
        }
        let expected = self.depth.min(MOST_NOTED);
        let mut under: usize = 0;
        for index in (0..before.len()).rev() {
            if self.noted == expected {
                return;
            }
            let (op, _) = before[index];
            under = self.take_back(op, under);
        }
    }

    /// Takes an operator back: notes the part that it begins, where that is the next to be noted. That
    /// one is under so many parts of those after the operator, and the next is under so many of those
    /// before it.
    #[inline(always)]
    fn take_back(&mut self, op: Op<'_>, under: usize) -> usize
        requires deeper { self.old.noted < self.old.depth }
        requires room { self.old.noted < most_noted }
        requires within_limit { under < 2 ^ 63 }
        ensures depth { self.new.depth ≡ self.old.depth }
        ensures at_most { result ≤ under + 1 }
        ensures noted { (kinds whole : List FrameKind) → AreNoted self.old.depth self.old.noted
            self.old.notes whole → drop under (parts_after kinds (nesting op.entry))
            ≡ drop self.old.noted whole → AreNoted self.new.depth self.new.noted self.new.notes whole
            × (drop result kinds ≡ drop self.new.noted whole) }
    {
        if let Some(kind) = begins_under(op, under) {
            self.notes.note(self.depth - self.noted, kind);
            self.noted += 1;
            return usize::from(!opens(op));
        }
        if closes(op) {
            under + 1
        } else if opens(op) {
            under.saturating_sub(1)
        } else {
            under
        }
    }
}

impl Notes {
    /// Whether the operator may stand in the part at this depth, by what is noted of it.
    #[inline(always)]
    fn may_stand(&self, op: Op<'_>, depth: usize) -> bool
        ensures { result ≡ may_stand_in (is_noted_at self.now.firsts depth)
            (is_noted_at self.now.catching depth) (nesting op.entry) }
    {
        let is_first = is_noted(&self.firsts, depth);
        let may_catch = is_noted(&self.catching, depth);
        match op {
            Op::Control(ControlOp::Else) => is_first && !may_catch,
            Op::Exception(ExceptionOp::Catch(_) | ExceptionOp::CatchAll) => may_catch,
            Op::Exception(ExceptionOp::Delegate(_)) => is_first && may_catch,
            _ => true,
        }
    }

    /// Notes that the part at this depth is of this kind, and leaves what is noted of the others that can
    /// be noted beside it.
    #[inline(always)]
    fn note(&mut self, depth: usize, kind: FrameKind)
        ensures firsts { NotesAt depth (is_first_part kind) self.old.firsts self.new.firsts }
        ensures catching { NotesAt depth (may_catch kind) self.old.catching self.new.catching }
    {
        note(&mut self.firsts, depth, is_first_part(kind));
        note(&mut self.catching, depth, may_catch(kind));
    }
}

/// Whether the bit for the part at this depth is set.
#[inline(always)]
fn is_noted(words: &[u64; WORDS], depth: usize) -> bool
    ensures { result ≡ is_noted_at words.now depth }
{
    (words[depth / 64 % WORDS] >> (depth % 64)) & 1 == 1
}

/// Sets the bit for the part at this depth, or clears it, and leaves those of the others that can be noted
/// beside it.
#[inline(always)]
fn note(words: &mut [u64; WORDS], depth: usize, is_set: bool)
    ensures { NotesAt depth is_set words.old words.new }
{
    let place = depth / 64 % WORDS;
    words[place] = with_bit(words[place], depth % 64, is_set);
}

/// The word with this bit set, or not.
#[inline(always)]
fn with_bit(word: u64, bit: usize, is_set: bool) -> u64
    requires { bit < 64 }
    ensures same { bit_at result bit ≡ cond is_set 1 0 }
    ensures others { (other : ℕ) → other < 64 → other ≢ bit → bit_at result other ≡ bit_at word other }
{
    if is_set {
        word | (1 << bit)
    } else {
        word & !(1 << bit)
    }
}

/// Whether it is the first part of an `if` or of a legacy `try`.
#[inline(always)]
fn is_first_part(kind: FrameKind) -> bool
    ensures { result ≡ is_first_part kind }
{
    matches!(kind, FrameKind::If | FrameKind::LegacyTry)
}

/// Whether a legacy `catch` may follow the part.
#[inline(always)]
fn may_catch(kind: FrameKind) -> bool
    ensures { result ≡ may_catch kind }
{
    matches!(kind, FrameKind::LegacyTry | FrameKind::LegacyCatch)
}

/// The kind of the part that the operator begins, under no others.
#[inline(always)]
fn begins_under(op: Op<'_>, under: usize) -> Option<FrameKind>
    ensures innermost { under ≡ 0 → result ≡ part_begun (nesting op.entry) }
    ensures none { under ≢ 0 → result ≡ None }
{
    if under == 0 { begins(op) } else { None }
}

/// The kind of the part that the operator begins, if it begins one.
#[inline(always)]
fn begins(op: Op<'_>) -> Option<FrameKind>
    ensures { result ≡ part_begun (nesting op.entry) }
{
    match op {
        Op::Control(ControlOp::Block(_)) => Some(FrameKind::Block),
        Op::Control(ControlOp::Loop(_)) => Some(FrameKind::Loop),
        Op::Control(ControlOp::If(_)) => Some(FrameKind::If),
        Op::Control(ControlOp::Else) => Some(FrameKind::Else),
        Op::Exception(ExceptionOp::TryTable(_)) => Some(FrameKind::TryTable),
        Op::Exception(ExceptionOp::Try(_)) => Some(FrameKind::LegacyTry),
        Op::Exception(ExceptionOp::Catch(_)) => Some(FrameKind::LegacyCatch),
        Op::Exception(ExceptionOp::CatchAll) => Some(FrameKind::LegacyCatchAll),
        _ => None,
    }
}

/// Whether the operator opens a part.
#[inline(always)]
fn opens(op: Op<'_>) -> bool
    ensures { result ≡ is_part_opener (nesting op.entry) }
{
    match op {
        Op::Control(op) => matches!(
            op,
            ControlOp::Block(_) | ControlOp::Loop(_) | ControlOp::If(_)
        ),
        Op::Exception(op) => matches!(op, ExceptionOp::TryTable(_) | ExceptionOp::Try(_)),
        _ => false,
    }
}

/// Whether the operator closes the innermost part.
#[inline(always)]
fn closes(op: Op<'_>) -> bool
    ensures { result ≡ is_part_closer (nesting op.entry) }
{
    matches!(
        op,
        Op::Control(ControlOp::End) | Op::Exception(ExceptionOp::Delegate(_))
    )
}

/// Whether the operator may stand in any part.
#[inline(always)]
fn may_stand_anywhere(op: Op<'_>) -> bool
    ensures { result ≡ may_stand_anywhere (nesting op.entry) }
{
    match op {
        Op::Control(op) => !matches!(op, ControlOp::Else),
        Op::Exception(op) => !matches!(
            op,
            ExceptionOp::Catch(_) | ExceptionOp::CatchAll | ExceptionOp::Delegate(_)
        ),
        _ => true,
    }
}
