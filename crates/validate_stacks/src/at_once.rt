//! Operands and frames, moved at once where that needs no log and no memory.

ghost use Rattle.std.specs.Prelude.{◌≡◌, ◌<◌, ◌≤◌, [], ◌∷◌, true, None, Some, length, reverse, IsSome, MatchBool};
ghost use Rattle.std.specs.List.{AllByRecursion};
ghost use Rattle.std.specs.Option.{option_map};
ghost use Rattle.validate_resources.specs.Context.{Valid};
ghost use Rattle.validation_rules.specs.Context.{block_signature};
ghost use Rattle.validation_rules.specs.Fits.{Bottom, Known};
ghost use Rattle.validation_rules.specs.Valid.{IsValidBlock};
ghost use Rattle.validate_stacks.specs.Attempts.{phase_moved};
ghost use Rattle.validate_stacks.specs.AtOnce.{body_dropped, pushed_list};
ghost use Rattle.validate_stacks.specs.Blocks.{body_with_block};
ghost use Rattle.validate_stacks.specs.Pops.{body_popped_each, body_pushed_each};
ghost use Rattle.validate_stacks.specs.State.{IsValidBody};
ghost use Rattle.validate_stacks.specs.Steps.{innermost_operands, found_in_body, found_after_pops_in_body, body_popped, body_pushed};

use crate::blocks::params;
use crate::pops::is_same_number;
use crate::stacks::Stacks;
use validate_resources::WasmModuleResources;
use validate_types::{LocalType, Operand, ValType};
use validate_visit::{BlockType, FrameKind};

impl Stacks {
    /// The fast lane of [`OperatorContext::exchange_types`] for number and vector types alone, of which some are
    /// expected, where no attempt is pending. The innermost frame has as many own operands, known to be of
    /// these very types, or is dead and has none. False, with nothing changed, where that isn't so. In live
    /// code it makes no call, so it is short where it is inlined.
    #[inline(always)]
    pub fn exchange_numbers_at_once<R: WasmModuleResources>(
        &mut self,
        resources: &R,
        expected: &[ValType],
        pushed: Option<ValType>,
    ) -> bool
        requires types { AllByRecursion (Valid (R.context resources.now)) expected.now }
        requires state { IsValidBody (R.context resources.now) self.old.body }
        ensures exact { MatchBool result
            (option_map (body_pushed_each (pushed_list pushed))
            (body_popped_each (R.context resources.now) (reverse expected.now) self.old.body) ≡ Some self.new.body)
            (self.new ≡ self.old) }
        ensures phase { phase_moved self.new.phase ≡ phase_moved self.old.phase }
    {
        let count = expected.len();
        if count == 0 || self.is_pending() {
            return false;
        }
        if !self.has_own(count) {
            return self.exchange_in_dead_code(resources, expected, pushed);
        }
        if !self.has_same_numbers(resources, expected) {
            return false;
        }
        match pushed {
            Some(ty) => {
                self.drop_operands(count - 1);
                // The lowest is often of the pushed type, and stays.
                if !is_same_number(ty, expected[0]) {
                    self.replace_operand(Operand::known(ty));
                }
            }
            None => self.drop_operands(count),
        }
        true
    }

    /// The fast lane of [`OperatorContext::exchange_types`] for types that are known, of which some are expected, where
    /// no attempt is pending. The innermost frame has as many own operands, known to be of these types, be it
    /// that a reference is exact in its type or without null, or is dead and has none. False, with nothing
    /// changed, where that isn't so. In live code it makes no call.
    #[inline(always)]
    pub fn exchange_known_at_once<R: WasmModuleResources>(
        &mut self,
        resources: &R,
        expected: &[ValType],
        pushed: Option<ValType>,
    ) -> bool
        requires types { AllByRecursion (Valid (R.context resources.now)) expected.now }
        requires state { IsValidBody (R.context resources.now) self.old.body }
        ensures exact { MatchBool result
            (option_map (body_pushed_each (pushed_list pushed))
            (body_popped_each (R.context resources.now) (reverse expected.now) self.old.body) ≡ Some self.new.body)
            (self.new ≡ self.old) }
        ensures phase { phase_moved self.new.phase ≡ phase_moved self.old.phase }
    {
        let count = expected.len();
        if count == 0 || self.is_pending() {
            return false;
        }
        if !self.has_own(count) {
            return self.exchange_in_dead_code(resources, expected, pushed);
        }
        if !self.has_known(resources, expected) {
            return false;
        }
        match pushed {
            Some(ty) => {
                self.drop_operands(count - 1);
                self.replace_operand(Operand::known(ty));
            }
            None => self.drop_operands(count),
        }
        true
    }

    /// The fast lane of [`OperatorContext::exchange_types`] from the type of a local to itself: whether the operand that is
    /// found is an own one of the innermost frame, and known to be of this number or vector type, while no
    /// attempt is pending. Then a pop and a push of the type leave what there is.
    #[inline(always)]
    pub fn has_local_at_once<R: WasmModuleResources>(&self, resources: &R, ty: LocalType) -> bool
        requires valid { Valid (R.context resources.now) ty }
        requires state { IsValidBody (R.context resources.now) self.now.body }
        ensures { result ≡ true → option_map (body_pushed_each (ty ∷ []))
            (body_popped_each (R.context resources.now) (ty ∷ []) self.now.body) ≡ Some self.now.body }
    {
        // The contract alone reads it.
        let _resources = resources;
        self.has_local(ty)
    }

    /// The fast lane of moves of a local asks this: whether the operand that is found is an own one of the innermost
    /// frame, and known to be of this number or vector type, while no attempt is pending.
    #[inline(always)]
    fn has_local(&self, ty: LocalType) -> bool
        ensures idle { result ≡ true → self.now.body.undone ≡ None }
        ensures own { result ≡ true → 0 < length (innermost_operands self.now.body.present.frames) }
        ensures found { result ≡ true → found_after_pops_in_body 0 self.now.body ≡ Some (Known ty) }
    {
        if self.is_pending() || !self.has_own(1) {
            return false;
        }
        match self.own_operand(0) {
            Some(operand) => operand.is_same_number(ty.operand()),
            None => false,
        }
    }

    /// The fast lane of [`OperatorContext::exchange_types`] from the type of a local to nothing: takes the operand that is
    /// found, where [`Stacks::has_local_at_once`] is so. False, with nothing changed, where it isn't.
    #[inline(always)]
    pub fn pop_local_at_once<R: WasmModuleResources>(
        &mut self,
        resources: &R,
        ty: LocalType,
    ) -> bool
        requires valid { Valid (R.context resources.now) ty }
        requires state { IsValidBody (R.context resources.now) self.old.body }
        ensures exact { MatchBool result
            (option_map (body_pushed_each [])
            (body_popped_each (R.context resources.now) (ty ∷ []) self.old.body) ≡ Some self.new.body)
            (self.new ≡ self.old) }
        ensures phase { phase_moved self.new.phase ≡ phase_moved self.old.phase }
    {
        // The contract alone reads it.
        let _resources = resources;
        if !self.has_local(ty) {
            return false;
        }
        self.drop_operands(1);
        true
    }

    /// The fast lane of [`OperatorContext::exchange_types`] in dead code, where an operand is given: the innermost
    /// frame has no own operands, and there is room. Whatever is expected is found there. False, with nothing
    /// changed, where that isn't so.
    #[inline(always)]
    fn exchange_in_dead_code<R: WasmModuleResources>(
        &mut self,
        resources: &R,
        expected: &[ValType],
        pushed: Option<ValType>,
    ) -> bool
        ensures exact { MatchBool result
            (option_map (body_pushed_each (pushed_list pushed))
            (body_popped_each (R.context resources.now) (reverse expected.now) self.old.body) ≡ Some self.new.body)
            (self.new ≡ self.old) }
        ensures phase { phase_moved self.new.phase ≡ phase_moved self.old.phase }
    {
        // The contract alone reads them.
        let (_resources, _expected) = (resources, expected);
        match pushed {
            Some(ty) => self.push_in_dead_code(ty),
            None => false,
        }
    }

    /// [`Stacks::exchange_in_dead_code`] where an operand of this type is given.
    #[inline(never)]
    fn push_in_dead_code(&mut self, ty: ValType) -> bool
        ensures exact { MatchBool result (self.new.body ≡ body_pushed (Known ty) self.old.body)
            (self.new ≡ self.old) }
        ensures bare { result ≡ true → innermost_operands self.old.body.present.frames ≡ [] }
        ensures dead { result ≡ true → found_in_body self.old.body ≡ Some Bottom }
        ensures phase { phase_moved self.new.phase ≡ phase_moved self.old.phase }
    {
        if self.own_operand_count() > 0 {
            return false;
        }
        match self.operand_found(0) {
            Some(found) => found.is_bottom() && self.push_at_once(Operand::known(ty)),
            None => false,
        }
    }

    /// The fast lane of [`Stacks::replace_any`]: takes so many own operands of the innermost frame, while no
    /// attempt is pending, and pushes one, where there is room, if none goes. False, with nothing changed,
    /// where there is none. It takes no memory.
    #[inline(always)]
    pub(crate) fn replace_own(&mut self, count: usize, pushed: Operand) -> bool
        requires idle { self.old.body.undone ≡ None }
        requires own { count ≤ length (innermost_operands self.old.body.present.frames) }
        ensures exact { MatchBool result
            (self.new.body ≡ body_pushed pushed (body_dropped count self.old.body))
            (self.new ≡ self.old) }
        ensures phase { phase_moved self.new.phase ≡ phase_moved self.old.phase }
    {
        if count == 0 {
            return self.push_at_once(pushed);
        }
        self.drop_operands(count - 1);
        self.replace_operand(pushed);
        true
    }

    /// The fast lane of [`OperatorContext::expect_operands`] and then [`Stacks::open`]: takes the parameters of a block
    /// type, and opens a frame over them. No attempt is pending, there is room, and the innermost frame has
    /// own operands that are known to be of these number or vector types. False, with nothing changed, where
    /// that isn't so. It takes no memory.
    #[inline(always)]
    pub fn open_over_params_at_once<R: WasmModuleResources>(
        &mut self,
        resources: &R,
        kind: FrameKind,
        block_type: BlockType,
    ) -> bool
        requires block { IsValidBlock (R.context resources.now) self.old.body.shared block_type }
        requires state { IsValidBody (R.context resources.now) self.old.body }
        ensures { MatchBool result (option_map (body_with_block (R.context resources.now) kind block_type)
            (body_popped_each (R.context resources.now)
            (reverse (block_signature (R.context resources.now) block_type).params) self.old.body)
            ≡ Some self.new.body) (self.new ≡ self.old) }
    {
        let popped = params(resources, &block_type);
        if !self.has_own(popped.len()) || !self.has_same_numbers(resources, popped) {
            return false;
        }
        self.open_over_own(kind, block_type, popped.len())
    }
}
