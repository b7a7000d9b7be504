//! The moves of operators: each is made whole, or changes nothing.

ghost use Rattle.std.specs.Prelude.{◌≡◌, ◌≢◌, ◌<◌, ◌≤◌, [], None, true, length, IfErr, IsOk, MatchResult};
ghost use Rattle.validation_rules.specs.Fits.{Known};
ghost use Rattle.validate_stacks.specs.AtOnce.{body_dropped};
ghost use Rattle.validate_stacks.specs.Attempts.{may_frame, may_set, may_unset};
ghost use Rattle.validate_stacks.specs.Pops.{body_pushed_each};
ghost use Rattle.validate_stacks.specs.Steps.{innermost_operands, body_pushed, body_unreachable, body_with_frame, body_with_local_set, body_without_frame};

use crate::change::Change;
use crate::stacks::Stacks;
use validate_types::{MaybeType, Operand, Refused, ValType};
use validate_visit::{BlockType, FrameKind};

impl Stacks {
    /// The fast lane of [`Stacks::exchange_any`]: where no attempt is pending and one operand comes at most,
    /// it is put in place. Takes so many own operands of the innermost frame, which has as many, and gives
    /// one of each of these types, the last on top. Want of memory changes nothing, and there is none where
    /// no attempt is pending and no more come than go.
    #[inline(always)]
    pub fn exchange<A: Refused>(&mut self, popped: usize, pushed: &[ValType]) -> Result<(), A>
        requires { popped ≤ length (innermost_operands self.old.body.present.frames) }
        ensures exact { MatchResult result
            (λ _. self.new.body ≡ body_pushed_each pushed.now (body_dropped popped self.old.body))
            (λ _. self.new ≡ self.old) }
        ensures told { IfErr result (λ e. A.tells e → ⊥) }
        ensures idle { self.old.body.undone ≡ None → length pushed.now ≤ popped → IsOk result }
    {
        // Where no attempt is pending, and one comes at most, it is put in place.
        if !self.is_pending() && pushed.len() <= 1 {
            let Some(ty) = pushed.first() else {
                self.drop_operands(popped);
                return Ok(());
            };
            if self.replace_own(popped, Operand::known(*ty)) {
                return Ok(());
            }
        }
        self.exchange_any(popped, pushed)
    }

    /// [`Stacks::exchange`], of any number of operands, and recorded where an attempt is pending.
    #[inline(never)]
    fn exchange_any<A: Refused>(&mut self, popped: usize, pushed: &[ValType]) -> Result<(), A>
        requires { popped ≤ length (innermost_operands self.old.body.present.frames) }
        ensures exact { MatchResult result
            (λ _. self.new.body ≡ body_pushed_each pushed.now (body_dropped popped self.old.body))
            (λ _. self.new ≡ self.old) }
        ensures told { IfErr result (λ e. A.tells e → ⊥) }
        ensures idle { self.old.body.undone ≡ None → length pushed.now ≤ popped → IsOk result }
    {
        self.change(Change {
            popped,
            closes: false,
            sets: None,
            opens: None,
            pushed,
            top: None,
        })
    }

    /// The fast lane of [`Stacks::replace_any`]: where no attempt is pending, the operand is put in place. It
    /// is [`Stacks::exchange`] with one operand that comes, of which less may be known.
    #[inline(always)]
    pub fn replace<A: Refused>(&mut self, popped: usize, ty: MaybeType) -> Result<(), A>
        requires { popped ≤ length (innermost_operands self.old.body.present.frames) }
        ensures exact { MatchResult result
            (λ _. self.new.body ≡ body_pushed ty (body_dropped popped self.old.body))
            (λ _. self.new ≡ self.old) }
        ensures told { IfErr result (λ e. A.tells e → ⊥) }
        ensures idle { self.old.body.undone ≡ None → 0 < popped → IsOk result }
    {
        if !self.is_pending() {
            if self.replace_own(popped, Operand::of(ty)) {
                return Ok(());
            }
        }
        self.replace_any(popped, ty)
    }

    /// [`Stacks::replace`], recorded where an attempt is pending.
    #[inline(never)]
    fn replace_any<A: Refused>(&mut self, popped: usize, ty: MaybeType) -> Result<(), A>
        requires { popped ≤ length (innermost_operands self.old.body.present.frames) }
        ensures exact { MatchResult result
            (λ _. self.new.body ≡ body_pushed ty (body_dropped popped self.old.body))
            (λ _. self.new ≡ self.old) }
        ensures told { IfErr result (λ e. A.tells e → ⊥) }
        ensures idle { self.old.body.undone ≡ None → 0 < popped → IsOk result }
    {
        self.change(Change {
            popped,
            closes: false,
            sets: None,
            opens: None,
            pushed: &[],
            top: Some(ty),
        })
    }

    /// The fast lane of [`Stacks::exchange_topped_any`]: where nothing is given but the top, it is
    /// [`Stacks::replace`]. It is [`Stacks::exchange`], and above what is given comes one operand more, of
    /// which less may be known.
    #[inline(always)]
    pub fn exchange_topped<A: Refused>(
        &mut self,
        popped: usize,
        pushed: &[ValType],
        top: MaybeType,
    ) -> Result<(), A>
        requires { popped ≤ length (innermost_operands self.old.body.present.frames) }
        ensures exact { MatchResult result
            (λ _. self.new.body ≡ body_pushed top (body_pushed_each pushed.now (body_dropped popped self.old.body)))
            (λ _. self.new ≡ self.old) }
        ensures told { IfErr result (λ e. A.tells e → ⊥) }
    {
        if pushed.is_empty() {
            return self.replace(popped, top);
        }
        self.exchange_topped_any(popped, pushed, top)
    }

    /// [`Stacks::exchange_topped`], whatever is given, and recorded where an attempt is pending.
    #[inline(never)]
    fn exchange_topped_any<A: Refused>(
        &mut self,
        popped: usize,
        pushed: &[ValType],
        top: MaybeType,
    ) -> Result<(), A>
        requires { popped ≤ length (innermost_operands self.old.body.present.frames) }
        ensures exact { MatchResult result
            (λ _. self.new.body ≡ body_pushed top (body_pushed_each pushed.now (body_dropped popped self.old.body)))
            (λ _. self.new ≡ self.old) }
        ensures told { IfErr result (λ e. A.tells e → ⊥) }
    {
        self.change(Change {
            popped,
            closes: false,
            sets: None,
            opens: None,
            pushed,
            top: Some(top),
        })
    }

    /// [`Stacks::exchange`], and a declared local is set: where it wasn't, it joins those first set in the innermost frame.
    /// Want of memory changes nothing.
    #[inline(always)]
    pub fn set_local<A: Refused>(
        &mut self,
        local_index: u32,
        popped: usize,
        pushed: &[ValType],
    ) -> Result<(), A>
        requires open_frame { self.old.body.present.frames ≢ [] }
        requires own { popped ≤ length (innermost_operands self.old.body.present.frames) }
        requires declared { local_index < length self.old.body.locals }
        requires set { may_set self.old ≡ true }
        ensures exact { MatchResult result (λ _. self.new.body
            ≡ body_pushed_each pushed.now (body_with_local_set local_index (body_dropped popped self.old.body)))
            (λ _. self.new ≡ self.old) }
        ensures told { IfErr result (λ e. A.tells e → ⊥) }
    {
        self.change(Change {
            popped,
            closes: false,
            sets: Some(local_index),
            opens: None,
            pushed,
            top: None,
        })
    }

    /// The fast lane of [`Stacks::open_any`]: where no attempt is pending, one operand goes at most, and
    /// nothing is given, the frame is put in place. Takes so many own operands of the innermost frame, which
    /// has as many, and opens a frame that owns one of each of these types, the last on top. Want of memory
    /// changes nothing.
    #[inline(always)]
    pub fn open<A: Refused>(
        &mut self,
        popped: usize,
        kind: FrameKind,
        block_type: BlockType,
        pushed: &[ValType],
    ) -> Result<(), A>
        requires own { popped ≤ length (innermost_operands self.old.body.present.frames) }
        requires frames { may_frame self.old ≡ true }
        ensures exact { MatchResult result (λ _. self.new.body
            ≡ body_pushed_each pushed.now (body_with_frame kind block_type (body_dropped popped self.old.body)))
            (λ _. self.new ≡ self.old) }
        ensures told { IfErr result (λ e. A.tells e → ⊥) }
    {
        // Where no attempt is pending, one goes at most, and nothing is given, the frame is put in place.
        if pushed.is_empty() {
            if popped == 0 && self.open_at_once(kind, block_type) {
                return Ok(());
            }
            if popped == 1 && self.open_over_top(kind, block_type) {
                return Ok(());
            }
        }
        self.open_any(popped, kind, block_type, pushed)
    }

    /// [`Stacks::open`], over any number of operands, and recorded where an attempt is pending.
    #[inline(never)]
    fn open_any<A: Refused>(
        &mut self,
        popped: usize,
        kind: FrameKind,
        block_type: BlockType,
        pushed: &[ValType],
    ) -> Result<(), A>
        requires own { popped ≤ length (innermost_operands self.old.body.present.frames) }
        requires frames { may_frame self.old ≡ true }
        ensures exact { MatchResult result (λ _. self.new.body
            ≡ body_pushed_each pushed.now (body_with_frame kind block_type (body_dropped popped self.old.body)))
            (λ _. self.new ≡ self.old) }
        ensures told { IfErr result (λ e. A.tells e → ⊥) }
    {
        self.change(Change {
            popped,
            closes: false,
            sets: None,
            opens: Some((kind, block_type)),
            pushed,
            top: None,
        })
    }

    /// The fast lane of [`Stacks::close_any`]: where no attempt is pending, and one operand comes at most for
    /// as many that go, what lies there passes over. Closes the innermost frame with its own operands, so
    /// many, and gives the next outer one an operand of each of these types, the last on top: the locals that
    /// were first set in the frame aren't set any more. Want of memory changes nothing, and there is none
    /// where no attempt is pending and no more come than go.
    #[inline(always)]
    pub fn close<A: Refused>(&mut self, popped: usize, pushed: &[ValType]) -> Result<(), A>
        requires own { popped ≡ length (innermost_operands self.old.body.present.frames) }
        requires open_frame { self.old.body.present.frames ≢ [] }
        requires frames { may_frame self.old ≡ true }
        requires unsets { may_unset self.old ≡ true }
        ensures exact { MatchResult result
            (λ _. self.new.body ≡ body_pushed_each pushed.now (body_without_frame self.old.body))
            (λ _. self.new ≡ self.old) }
        ensures told { IfErr result (λ e. A.tells e → ⊥) }
        ensures idle { self.old.body.undone ≡ None → length pushed.now ≤ popped → IsOk result }
    {
        // Where no attempt is pending, and one comes at most for as many that go, what lies there passes over.
        if pushed.len() <= 1 && popped == pushed.len() && !self.is_pending() {
            if let Some(ty) = pushed.first() {
                self.replace_operand(Operand::known(*ty));
            }
            self.close_over_operands();
            return Ok(());
        }
        self.close_any(popped, pushed)
    }

    /// [`Stacks::close`], over any number of operands, and recorded where an attempt is pending.
    #[inline(never)]
    fn close_any<A: Refused>(&mut self, popped: usize, pushed: &[ValType]) -> Result<(), A>
        requires own { popped ≡ length (innermost_operands self.old.body.present.frames) }
        requires open_frame { self.old.body.present.frames ≢ [] }
        requires frames { may_frame self.old ≡ true }
        requires unsets { may_unset self.old ≡ true }
        ensures exact { MatchResult result
            (λ _. self.new.body ≡ body_pushed_each pushed.now (body_without_frame self.old.body))
            (λ _. self.new ≡ self.old) }
        ensures told { IfErr result (λ e. A.tells e → ⊥) }
        ensures idle { self.old.body.undone ≡ None → length pushed.now ≤ popped → IsOk result }
    {
        self.change(Change {
            popped,
            closes: true,
            sets: None,
            opens: None,
            pushed,
            top: None,
        })
    }

    /// The fast lane of [`Stacks::reopen_any`]: where no attempt is pending, and nothing is given, the frame
    /// is put in the place of the other. Closes the innermost frame as [`Stacks::close`] does, and opens one
    /// in its place that owns an operand of each of these types, the last on top. Want of memory changes
    /// nothing.
    #[inline(always)]
    pub fn reopen_with<A: Refused>(
        &mut self,
        popped: usize,
        kind: FrameKind,
        block_type: BlockType,
        pushed: &[ValType],
    ) -> Result<(), A>
        requires own { popped ≡ length (innermost_operands self.old.body.present.frames) }
        requires open_frame { self.old.body.present.frames ≢ [] }
        requires frames { may_frame self.old ≡ true }
        requires unsets { may_unset self.old ≡ true }
        ensures exact { MatchResult result (λ _. self.new.body
            ≡ body_pushed_each pushed.now (body_with_frame kind block_type (body_without_frame self.old.body)))
            (λ _. self.new ≡ self.old) }
        ensures told { IfErr result (λ e. A.tells e → ⊥) }
    {
        // Where no attempt is pending, and nothing is given, the frame is put in the place of the other.
        if pushed.is_empty() && !self.is_pending() {
            self.drop_operands(popped);
            self.reopen(kind, block_type);
            return Ok(());
        }
        self.reopen_any(popped, kind, block_type, pushed)
    }

    /// [`Stacks::reopen_with`], with any number of operands, and recorded where an attempt is pending.
    #[inline(never)]
    fn reopen_any<A: Refused>(
        &mut self,
        popped: usize,
        kind: FrameKind,
        block_type: BlockType,
        pushed: &[ValType],
    ) -> Result<(), A>
        requires own { popped ≡ length (innermost_operands self.old.body.present.frames) }
        requires open_frame { self.old.body.present.frames ≢ [] }
        requires frames { may_frame self.old ≡ true }
        requires unsets { may_unset self.old ≡ true }
        ensures exact { MatchResult result (λ _. self.new.body
            ≡ body_pushed_each pushed.now (body_with_frame kind block_type (body_without_frame self.old.body)))
            (λ _. self.new ≡ self.old) }
        ensures told { IfErr result (λ e. A.tells e → ⊥) }
    {
        self.change(Change {
            popped,
            closes: true,
            sets: None,
            opens: Some((kind, block_type)),
            pushed,
            top: None,
        })
    }

    /// Ends the live part of the innermost frame: it is dead from here on, and its own operands go. Want of memory changes
    /// nothing, and there is none where no attempt is pending.
    #[inline(always)]
    pub fn mark_unreachable<A: Refused>(&mut self) -> Result<(), A>
        ensures exact { MatchResult result (λ _. self.new.body ≡ body_unreachable self.old.body)
            (λ _. self.new ≡ self.old) }
        ensures told { IfErr result (λ e. A.tells e → ⊥) }
        ensures idle { self.old.body.undone ≡ None → IsOk result }
    {
        self.exchange(self.own_operand_count(), &[])?;
        self.mark();
        Ok(())
    }
}
