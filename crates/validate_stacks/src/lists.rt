//! Whether operands fit a list of types.

ghost use Rattle.std.specs.Prelude.{◌≡◌, ◌<◌, ◌≤◌, true, Some, length, slice_get, ◌-◌};
ghost use Rattle.std.specs.List.{AllByRecursion};
ghost use Rattle.std.specs.Option.{option_map};
ghost use Rattle.validate_resources.specs.Context.{Valid};
ghost use Rattle.validation_rules.specs.Fits.{Known};
ghost use Rattle.validate_stacks.specs.AtOnce.{body_dropped};
ghost use Rattle.validate_stacks.specs.State.{IsValidBody, body_context};
ghost use Rattle.validate_stacks.specs.Pops.{body_pushed_each, has_operands_fitting, may_pop};
ghost use Rattle.validate_stacks.specs.Steps.{innermost_operands, found_after_pops_in_body};

use crate::pops::fits_at_once;
use crate::stacks::Stacks;
use validate_resources::WasmModuleResources;
use validate_types::ValType;

impl Stacks {
    /// The fast lane of [`OperatorContext::exchange_types`] asks this: whether the top own operands of the innermost
    /// frame, which has so many at least, are known to be of these number or vector types, the last of the
    /// list on top. Nothing else is asked, so that no call is made.
    #[inline(always)]
    pub(crate) fn has_same_numbers<R: WasmModuleResources>(
        &self,
        resources: &R,
        expected: &[ValType],
    ) -> bool
        requires own { length expected.now ≤ length (innermost_operands self.now.body.present.frames) }
        requires types { AllByRecursion (Valid (R.context resources.now)) expected.now }
        requires state { IsValidBody (R.context resources.now) self.now.body }
        ensures fitting { result ≡ true → has_operands_fitting
            (body_context (R.context resources.now) self.now.body) expected.now self.now.body ≡ true }
        ensures known { result ≡ true
            → body_pushed_each expected.now (body_dropped (length expected.now) self.now.body) ≡ self.now.body }
        ensures lowest { result ≡ true → 0 < length expected.now
            → found_after_pops_in_body (length expected.now - 1) self.now.body
            ≡ option_map Known (slice_get expected.now 0) }
    {
        // The contract alone reads it.
        let _resources = resources;
        let mut left = expected.len();
        while left > 0 {
            left -= 1;
            if !self.is_same_number_at(expected.len() - 1 - left, expected[left]) {
                return false;
            }
        }
        true
    }

    /// The fast lane of [`Stacks::expect_among`] for own operands: whether the top ones of the innermost frame,
    /// which has so many at least, are known to be of these types, be it that a reference is exact in its
    /// type or without null; the last of the list on top. No call is made.
    #[inline(always)]
    pub(crate) fn has_known<R: WasmModuleResources>(
        &self,
        resources: &R,
        expected: &[ValType],
    ) -> bool
        requires own { length expected.now ≤ length (innermost_operands self.now.body.present.frames) }
        requires types { AllByRecursion (Valid (R.context resources.now)) expected.now }
        ensures { result ≡ true → has_operands_fitting
            (body_context (R.context resources.now) self.now.body) expected.now self.now.body ≡ true }
    {
        let mut left = expected.len();
        while left > 0 {
            left -= 1;
            if !self.is_known_at(resources, expected.len() - 1 - left, &expected[left]) {
                return false;
            }
        }
        true
    }

    /// The fast lane of [`Stacks::is_fitting_at`] for an own operand: whether that of the innermost frame at
    /// this depth is known to be of this type, be it that a reference is exact in its type or without null.
    #[inline(always)]
    fn is_known_at<R: WasmModuleResources>(
        &self,
        resources: &R,
        depth: usize,
        expected: &ValType,
    ) -> bool
        requires own { depth < length (innermost_operands self.now.body.present.frames) }
        requires expected { Valid (R.context resources.now) expected.now }
        ensures { result ≡ true → may_pop (body_context (R.context resources.now) self.now.body)
            (found_after_pops_in_body depth self.now.body) (Some expected.now) ≡ true }
    {
        // The contract alone reads it.
        let _resources = resources;
        match self.own_operand(depth) {
            Some(operand) => operand.is_known_as(*expected),
            None => false,
        }
    }

    /// The fast lane of [`OperatorContext::exchange_types`] asks this of each operand: whether the own one of the
    /// innermost frame at this depth is known to be of this number or vector type.
    #[inline(always)]
    fn is_same_number_at(&self, depth: usize, expected: ValType) -> bool
        requires { depth < length (innermost_operands self.now.body.present.frames) }
        ensures { result ≡ true → found_after_pops_in_body depth self.now.body ≡ Some (Known expected) }
    {
        match self.own_operand(depth) {
            Some(operand) => operand.is_number(expected),
            None => false,
        }
    }

    /// The fast lane of [`Stacks::is_fitting_by_order`]: whether the operand that a pop finds after so many
    /// others fits the expected type, where the innermost frame has so many own operands. Equal numbers and
    /// vectors fit without a call.
    #[inline(always)]
    pub(crate) fn is_fitting_at<R: WasmModuleResources>(
        &self,
        resources: &R,
        own: usize,
        depth: usize,
        expected: &ValType,
    ) -> bool
        requires own { own ≡ length (innermost_operands self.now.body.present.frames) }
        requires expected { Valid (R.context resources.now) expected.now }
        requires state { IsValidBody (R.context resources.now) self.now.body }
        ensures { result ≡ may_pop (body_context (R.context resources.now) self.now.body)
            (found_after_pops_in_body depth self.now.body) (Some expected.now) }
    {
        if self.is_number_at(resources, own, depth, expected) {
            return true;
        }
        self.is_fitting_by_order(resources, depth, expected)
    }

    /// The fast lane of [`Stacks::is_fitting_by_order`], without that itself: whether the operand that a pop
    /// finds after so many others isn't known at all, or is known to be of this number or vector type, where
    /// the innermost frame has so many own operands.
    #[inline(always)]
    pub(crate) fn is_number_at<R: WasmModuleResources>(
        &self,
        resources: &R,
        own: usize,
        depth: usize,
        expected: &ValType,
    ) -> bool
        requires own { own ≡ length (innermost_operands self.now.body.present.frames) }
        requires expected { Valid (R.context resources.now) expected.now }
        ensures { result ≡ true → may_pop (body_context (R.context resources.now) self.now.body)
            (found_after_pops_in_body depth self.now.body) (Some expected.now) ≡ true }
    {
        // The contract alone reads it.
        let _resources = resources;
        match self.operand_found_of(own, depth) {
            Some(found) => fits_at_once(found, *expected),
            None => false,
        }
    }

    /// Whether the operand that a pop finds after so many others fits the expected type, by the order of
    /// types. It looks for the operand again, so that nothing is copied where it isn't called.
    #[inline(never)]
    pub(crate) fn is_fitting_by_order<R: WasmModuleResources>(
        &self,
        resources: &R,
        depth: usize,
        expected: &ValType,
    ) -> bool
        requires expected { Valid (R.context resources.now) expected.now }
        requires state { IsValidBody (R.context resources.now) self.now.body }
        ensures { result ≡ may_pop (body_context (R.context resources.now) self.now.body)
            (found_after_pops_in_body depth self.now.body) (Some expected.now) }
    {
        let Some(found) = self.operand_found(depth) else {
            return false;
        };
        // Most references are of the very type: then no look-up is asked.
        found.is_known_as(*expected) || self.is_fitting(resources, found.ty(), *expected)
    }
}
