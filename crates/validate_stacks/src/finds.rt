//! What operators look for before anything moves: each look answers what it found, or why it refuses. None takes memory.

ghost use Rattle.std.specs.Prelude.{◌≡◌, ◌≢◌, ◌<◌, ◌≤◌, [], ◌∷◌, ◌++◌, true, false, None, Some, length, slice_get, OnOk, OnErr, IfOk};
ghost use Rattle.std.specs.List.{AllByRecursion};
ghost use Rattle.std.specs.Option.{ForSome};
ghost use Rattle.validate_resources.specs.Context.{Valid};
ghost use Rattle.validate_types.specs.Types.{unpacked_fields};
ghost use Rattle.validation_rules.specs.Context.{block_signature};
ghost use Rattle.validation_rules.specs.Static.{is_local_set, locals_set};
ghost use Rattle.validate_stacks.specs.AtOnce.{body_dropped};
ghost use Rattle.validate_stacks.specs.Blocks.{closed_body};
ghost use Rattle.validate_stacks.specs.Bodies.{context_of};
ghost use Rattle.validate_stacks.specs.Pops.{has_operands_fitting};
ghost use Rattle.validate_stacks.specs.State.{IsValidBody, body_context};
ghost use Rattle.validate_stacks.specs.Steps.{body_without_frame, found_after_pops_in_body, frame_at, innermost_operands, label_at};

use crate::context::OperatorContext;
use crate::pops::unknown_reference;
use crate::stacks::Stacks;
use validate_resources::WasmModuleResources;
use validate_types::{FieldType, LocalType, MaybeType, Refusal, Refused, ValType};
use validate_visit::{BlockType, FrameKind};

impl<R: WasmModuleResources> OperatorContext<'_, '_, R> {
    /// The fast lane of [`Stacks::expect_by_call`]: numbers and vectors are found without a call. That pops of
    /// these types would pass, the last of the list first, after one other pop or none. It refuses where an
    /// operand isn't found, or doesn't fit.
    #[inline(always)]
    pub fn expect_operands<A: Refused>(&self, above: usize, expected: &[ValType]) -> Result<(), A>
        requires above { above ≤ 1 }
        requires types { AllByRecursion (Valid (R.context self.now.resources.now)) expected.now }
        requires state { IsValidBody (R.context self.now.resources.now) self.now.stacks.now.body }
        ensures fit { OnOk result (has_operands_fitting (context_of R.context self.now) expected.now
            (body_dropped above self.now.stacks.now.body) ≡ true) }
        ensures unfit { OnErr result (has_operands_fitting (context_of R.context self.now) expected.now
            (body_dropped above self.now.stacks.now.body) ≡ false) }
    {
        if self.stacks.has_numbers(self.resources, above, expected) {
            return Ok(());
        }
        self.stacks.expect_by_call(self.resources, above, expected)
    }

    /// [`OperatorContext::expect_operands`] of the types of a list, and of one more on top of them.
    pub fn expect_with_top<A: Refused>(
        &self,
        above: usize,
        under: &[ValType],
        top: ValType,
    ) -> Result<(), A>
        requires above { above ≤ 1 }
        requires under { AllByRecursion (Valid (R.context self.now.resources.now)) under.now }
        requires top { Valid (R.context self.now.resources.now) top }
        requires state { IsValidBody (R.context self.now.resources.now) self.now.stacks.now.body }
        ensures fit { OnOk result (has_operands_fitting (context_of R.context self.now)
            (under.now ++ top ∷ []) (body_dropped above self.now.stacks.now.body) ≡ true) }
        ensures unfit { OnErr result (has_operands_fitting (context_of R.context self.now)
            (under.now ++ top ∷ []) (body_dropped above self.now.stacks.now.body) ≡ false) }
    {
        let own = self.stacks.own_operand_count();
        self.stacks
            .expect_among(self.resources, own, above, &[top])?;
        self.stacks
            .expect_among(self.resources, own, above + 1, under)
    }

    /// How many own operands the innermost frame has, where they are its results: pops of these types would pass, and leave
    /// none of them. It refuses where one isn't found, or doesn't fit, or is left over.
    #[inline(always)]
    pub fn find_results<A: Refused>(&self, results: &[ValType]) -> Result<usize, A>
        requires open_frame { self.now.stacks.now.body.present.frames ≢ [] }
        requires results { ForSome (frame_at self.now.stacks.now.body 0)
            (λ f. results.now ≡ (block_signature (R.context self.now.resources.now) f.block_type).results) }
        requires state { IsValidBody (R.context self.now.resources.now) self.now.stacks.now.body }
        ensures own { IfOk result (λ own. own ≡ length (innermost_operands self.now.stacks.now.body.present.frames)) }
        ensures closes { OnOk result (closed_body (R.context self.now.resources.now)
            self.now.stacks.now.body ≡ Some (body_without_frame self.now.stacks.now.body)) }
        ensures stays { OnErr result (closed_body (R.context self.now.resources.now)
            self.now.stacks.now.body ≡ None) }
    {
        let own = self.stacks.own_operand_count();
        self.stacks.expect_among(self.resources, own, 0, results)?;
        if own > results.len() {
            return Err(A::of(Refusal::OperandsLeft));
        }
        Ok(own)
    }

    /// [`OperatorContext::expect_operands`] of the values of these fields, the last on top.
    pub fn expect_fields<A: Refused>(&self, above: usize, fields: &[FieldType]) -> Result<(), A>
        requires above { above ≤ 1 }
        requires types { AllByRecursion (Valid (R.context self.now.resources.now))
            (unpacked_fields fields.now) }
        requires state { IsValidBody (R.context self.now.resources.now) self.now.stacks.now.body }
        ensures fit { OnOk result (has_operands_fitting (context_of R.context self.now)
            (unpacked_fields fields.now) (body_dropped above self.now.stacks.now.body) ≡ true) }
        ensures unfit { OnErr result (has_operands_fitting (context_of R.context self.now)
            (unpacked_fields fields.now) (body_dropped above self.now.stacks.now.body) ≡ false) }
    {
        let own = self.stacks.own_operand_count();
        let mut left = fields.len();
        while left > 0 {
            left -= 1;
            let expected = fields[left].element_type.unpack();
            let depth = fields.len() - 1 - left + above;
            if !self
                .stacks
                .is_fitting_at(self.resources, own, depth, &expected)
            {
                return Err(self.stacks.mismatch(self.resources, depth, &expected));
            }
        }
        Ok(())
    }
}

impl Stacks {
    /// [`OperatorContext::expect_operands`] of any types.
    #[inline(never)]
    fn expect_by_call<A: Refused, R: WasmModuleResources>(
        &self,
        resources: &R,
        above: usize,
        expected: &[ValType],
    ) -> Result<(), A>
        requires above { above ≤ 1 }
        requires types { AllByRecursion (Valid (R.context resources.now)) expected.now }
        requires state { IsValidBody (R.context resources.now) self.now.body }
        ensures fit { OnOk result (has_operands_fitting (body_context (R.context resources.now) self.now.body)
            expected.now (body_dropped above self.now.body) ≡ true) }
        ensures unfit { OnErr result (has_operands_fitting
            (body_context (R.context resources.now) self.now.body) expected.now
            (body_dropped above self.now.body) ≡ false) }
    {
        self.expect_among(resources, self.own_operand_count(), above, expected)
    }

    /// The fast lane of [`Stacks::expect_among`]: whether pops of these types would pass after so many others,
    /// since each finds an operand that isn't known at all, or is known to be of the expected number or
    /// vector type.
    #[inline(always)]
    fn has_numbers<R: WasmModuleResources>(
        &self,
        resources: &R,
        above: usize,
        expected: &[ValType],
    ) -> bool
        requires above { above ≤ 1 }
        requires types { AllByRecursion (Valid (R.context resources.now)) expected.now }
        ensures { result ≡ true → has_operands_fitting (body_context (R.context resources.now) self.now.body)
            expected.now (body_dropped above self.now.body) ≡ true }
    {
        let own = self.own_operand_count();
        let mut left = expected.len();
        while left > 0 {
            left -= 1;
            let depth = expected.len() - 1 - left + above;
            if !self.is_number_at(resources, own, depth, &expected[left]) {
                return false;
            }
        }
        true
    }

    /// [`OperatorContext::expect_operands`], where the innermost frame has so many own operands.
    #[inline(always)]
    pub(crate) fn expect_among<A: Refused, R: WasmModuleResources>(
        &self,
        resources: &R,
        own: usize,
        above: usize,
        expected: &[ValType],
    ) -> Result<(), A>
        requires own { own ≡ length (innermost_operands self.now.body.present.frames) }
        requires above { above ≤ 2 }
        requires types { AllByRecursion (Valid (R.context resources.now)) expected.now }
        requires state { IsValidBody (R.context resources.now) self.now.body }
        ensures fit { OnOk result (has_operands_fitting (body_context (R.context resources.now) self.now.body)
            expected.now (body_dropped above self.now.body) ≡ true) }
        ensures unfit { OnErr result (has_operands_fitting
            (body_context (R.context resources.now) self.now.body) expected.now
            (body_dropped above self.now.body) ≡ false) }
    {
        let mut left = expected.len();
        while left > 0 {
            left -= 1;
            let depth = expected.len() - 1 - left + above;
            if !self.is_fitting_at(resources, own, depth, &expected[left]) {
                return Err(self.mismatch(resources, depth, &expected[left]));
            }
        }
        Ok(())
    }

    /// The refusal where an operand of this type isn't found below so many others. It is made here, so that nothing of it
    /// lies where it isn't called.
    #[cold]
    #[inline(never)]
    pub(crate) fn mismatch<A: Refused, R: WasmModuleResources>(
        &self,
        resources: &R,
        depth: usize,
        expected: &ValType,
    ) -> A
        requires { Valid (R.context resources.now) expected.now }
    {
        let expected = *expected;
        A::of(match (self.type_found(depth), expected) {
            (None, _) => Refusal::NothingFound(Some(expected)),
            (Some(MaybeType::UnknownRef(Some(ty))), ValType::Ref(reference)) => {
                Refusal::Mismatch {
                    depth,
                    expected,
                    found: MaybeType::Known(unknown_reference(resources, ty, reference)),
                }
            }
            (Some(found), _) => Refusal::Mismatch {
                depth,
                expected,
                found,
            },
        })
    }

    /// What a pop finds after so many others. It refuses where it finds nothing.
    #[inline(always)]
    pub fn find_any<A: Refused>(&self, depth: usize) -> Result<MaybeType, A>
        ensures found { IfOk result (λ ty. found_after_pops_in_body depth self.now.body ≡ Some ty) }
        ensures missing { OnErr result (found_after_pops_in_body depth self.now.body ≡ None) }
    {
        match self.operand_found(depth) {
            Some(operand) => Ok(operand.ty()),
            None => Err(A::of(Refusal::NothingFound(None))),
        }
    }

    /// The block type and the kind of the frame that a label names, counted from the innermost. It refuses where there is none.
    #[inline(always)]
    pub fn find_label<A: Refused>(&self, relative_depth: u32) -> Result<(BlockType, FrameKind), A>
        ensures found { IfOk result (λ label. label_at self.now.body relative_depth ≡ Some label) }
        ensures missing { OnErr result (label_at self.now.body relative_depth ≡ None) }
    {
        match self.jump(relative_depth) {
            Some(label) => Ok(label),
            None => Err(A::of(Refusal::UnknownLabel)),
        }
    }

    /// The declared type of a local. It refuses an index past the end.
    #[inline(always)]
    pub fn find_local<A: Refused>(&self, local_index: u32) -> Result<LocalType, A>
        ensures found { IfOk result (λ ty. slice_get self.now.body.locals local_index ≡ Some ty) }
        ensures missing { OnErr result (slice_get self.now.body.locals local_index ≡ None) }
    {
        match self.locals().find(local_index) {
            Some(ty) => Ok(*ty),
            None => Err(A::of(Refusal::UnknownLocal(local_index))),
        }
    }

    /// The same, as a [`ValType`].
    pub fn find_local_type<A: Refused>(&self, local_index: u32) -> Result<ValType, A>
        ensures found { IfOk result (λ ty. slice_get self.now.body.locals local_index ≡ Some ty) }
        ensures missing { OnErr result (slice_get self.now.body.locals local_index ≡ None) }
    {
        let ty = self.find_local(local_index)?;
        Ok(ty.ty())
    }

    /// That a declared local is set. It refuses one that isn't.
    #[inline(always)]
    pub fn expect_set<A: Refused>(&self, local_index: u32) -> Result<(), A>
        requires { local_index < length self.now.body.locals }
        ensures set { OnOk result (is_local_set self.now.body.set_at_entry
            (locals_set self.now.body.present.frames) local_index ≡ true) }
        ensures unset { OnErr result (is_local_set self.now.body.set_at_entry
            (locals_set self.now.body.present.frames) local_index ≡ false) }
    {
        if self.is_uninit(local_index) {
            return Err(A::of(Refusal::UninitializedLocal(local_index)));
        }
        Ok(())
    }
}
