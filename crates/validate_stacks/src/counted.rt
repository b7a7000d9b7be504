//! Runs of pops of one type, and how many pops they tried.

ghost use Rattle.std.specs.Prelude.{◌≡◌, ◌+◌, ◌^◌, ◌<◌, ◌≤◌, [], true, false, None, Some, length, replicate, OnOk, OnErr};
ghost use Rattle.validate_resources.specs.Context.{Valid};
ghost use Rattle.validate_stacks.specs.Bodies.{CanCheck};
ghost use Rattle.validate_stacks.specs.Counted.{pops_of_run};
ghost use Rattle.validate_stacks.specs.Moves.{Exchanges};
ghost use Rattle.validate_stacks.specs.Pops.{body_popped_each, has_operands_fitting, may_pop};
ghost use Rattle.validate_stacks.specs.State.{IsValidBody, body_context};
ghost use Rattle.validate_stacks.specs.Steps.{innermost_operands, found_after_pops_in_body};

use crate::context::OperatorContext;
use crate::stacks::Stacks;
use std::marker::Model;
use validate_resources::WasmModuleResources;
use validate_types::{Refused, ValType};

/// How many pops were tried.
#[derive(Drop)]
pub struct Pops {
    count: u64,
}

impl Model for Pops {
    ghost use Rattle.std.specs.Prelude.{ℕ};

    ghost Value = { ℕ };

    ghost view = { λ p. p.count };
}

impl Pops {
    /// None yet. It takes no memory.
    pub fn new() -> Self
        ensures { result ≡ 0 }
    {
        Pops { count: 0 }
    }

    /// One more was tried.
    #[inline(always)]
    pub(crate) fn tick(&mut self)
        requires { self.old + 1 < 2 ^ 64 }
        ensures { self.new ≡ self.old + 1 }
    {
        self.count += 1;
    }

    /// How many were tried.
    pub fn count(&self) -> u64
        ensures { result ≡ self.now }
    {
        self.count
    }
}

impl<R: WasmModuleResources> OperatorContext<'_, '_, R> {
    /// Pops `n` operands of this type, one by one, and pushes one of each of the other types, the last on top. `pops`
    /// counts each pop that it tries, also one that finds nothing that fits, which is the last. It refuses as
    /// [`OperatorContext::exchange_types`] does. It takes the time of the innermost frame's own operands at most: below those of a
    /// dead frame one pop passes as any number of them would, and is the last.
    #[inline(always)]
    pub fn pop_run<A: Refused>(
        self,
        elem: ValType,
        n: u32,
        pushed: &[ValType],
        pops: &mut Pops,
    ) -> Result<(), A>
        requires visit { CanCheck R.context self }
        requires element { Valid (R.context self.resources.now) elem }
        requires countable { pops.old + n < 2 ^ 64 }
        ensures exchanged { Exchanges (R.context self.entry.resources.now) A.tells (replicate n elem)
            pushed.now self.entry.stacks.now result self.exit.0.now }
        ensures counted { OnOk result (pops.new ≡ pops.old + pops_of_run n self.entry.stacks.now.body) }
        ensures bounded { pops.new ≤ pops.old + pops_of_run n self.entry.stacks.now.body }
        ensures tried { 0 < n → OnErr result (pops.old < pops.new) }
        ensures idle { self.entry.stacks.now.body.undone ≡ None → pushed.now ≡ [] → OnErr result
            (body_popped_each (R.context self.entry.resources.now) (replicate n elem)
            self.entry.stacks.now.body ≡ None) }
    {
        let OperatorContext { stacks, resources } = self;
        let own = stacks.own_operand_count();
        stacks.expect_run(resources, own, elem, n as usize, pops)?;
        stacks.exchange((n as usize).min(own), pushed)
    }
}

impl Stacks {
    /// [`OperatorContext::expect_operands`] of so many operands of one type, where the innermost frame has so many own operands. Each
    /// is looked for as a pop would find it, from the top, and counted. Below the own operands each pop finds the same,
    /// so one is tried there.
    #[inline(always)]
    fn expect_run<A: Refused, R: WasmModuleResources>(
        &self,
        resources: &R,
        own: usize,
        elem: ValType,
        count: usize,
        pops: &mut Pops,
    ) -> Result<(), A>
        requires own { own ≡ length (innermost_operands self.now.body.present.frames) }
        requires element { Valid (R.context resources.now) elem }
        requires state { IsValidBody (R.context resources.now) self.now.body }
        requires countable { pops.old + count < 2 ^ 64 }
        ensures fit { OnOk result (has_operands_fitting (body_context (R.context resources.now) self.now.body)
            (replicate count elem) self.now.body ≡ true) }
        ensures unfit { OnErr result (has_operands_fitting
            (body_context (R.context resources.now) self.now.body) (replicate count elem) self.now.body
            ≡ false) }
        ensures counted { OnOk result (pops.new ≡ pops.old + pops_of_run count self.now.body) }
        ensures bounded { pops.new ≤ pops.old + pops_of_run count self.now.body }
        ensures tried { OnErr result (pops.old < pops.new) }
    {
        self.expect_own_run(resources, elem, count.min(own), pops)?;
        if own < count {
            pops.tick();
            if !self.is_fitting_at(resources, own, own, &elem) {
                return Err(self.mismatch(resources, own, &elem));
            }
        }
        Ok(())
    }

    /// The same of so many own operands of the innermost frame.
    #[inline(always)]
    fn expect_own_run<A: Refused, R: WasmModuleResources>(
        &self,
        resources: &R,
        elem: ValType,
        count: usize,
        pops: &mut Pops,
    ) -> Result<(), A>
        requires own { count ≤ length (innermost_operands self.now.body.present.frames) }
        requires element { Valid (R.context resources.now) elem }
        requires state { IsValidBody (R.context resources.now) self.now.body }
        requires countable { pops.old + count < 2 ^ 64 }
        ensures fit { OnOk result (has_operands_fitting (body_context (R.context resources.now) self.now.body)
            (replicate count elem) self.now.body ≡ true) }
        ensures unfit { OnErr result (has_operands_fitting
            (body_context (R.context resources.now) self.now.body) (replicate count elem) self.now.body
            ≡ false) }
        ensures counted { OnOk result (pops.new ≡ pops.old + count) }
        ensures bounded { pops.new ≤ pops.old + count }
        ensures tried { OnErr result (pops.old < pops.new) }
    {
        let operands = self.top_operands(count);
        let mut left = count;
        while left > 0 {
            left -= 1;
            pops.tick();
            let depth = count - 1 - left;
            if !operands[left].is_number(elem)
                && !self.is_element_fitting(resources, depth, &elem)
            {
                return Err(self.mismatch(resources, depth, &elem));
            }
        }
        Ok(())
    }

    /// [`Stacks::is_fitting_by_order`], called where it lies out of the way of a run of known numbers.
    #[cold]
    #[inline(never)]
    fn is_element_fitting<R: WasmModuleResources>(
        &self,
        resources: &R,
        depth: usize,
        expected: &ValType,
    ) -> bool
        requires expected { Valid (R.context resources.now) expected.now }
        requires state { IsValidBody (R.context resources.now) self.now.body }
        ensures { result ≡ may_pop (body_context (R.context resources.now) self.now.body)
            (found_after_pops_in_body depth self.now.body) (Some expected.now) }
    {
        self.is_fitting_by_order(resources, depth, expected)
    }
}
