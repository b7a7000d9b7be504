//! Operands exchanged: found, then moved.

ghost use Rattle.std.specs.Prelude.{◌<◌, [], ◌∷◌, ◌++◌, length};
ghost use Rattle.std.specs.List.{AllByRecursion};
ghost use Rattle.validate_resources.specs.Context.{Valid};
ghost use Rattle.validate_types.specs.Types.{unpacked_fields};
ghost use Rattle.validate_stacks.specs.Bodies.{CanCheck};
ghost use Rattle.validate_stacks.specs.Moves.{Exchanges, Takes, body_set_then};

use crate::context::OperatorContext;
use validate_resources::WasmModuleResources;
use validate_types::{FieldType, Refused, ValType};

impl<R: WasmModuleResources> OperatorContext<'_, '_, R> {
    /// Pops an operand of each of the expected types, and pushes one of each of the others, the last on top. It refuses
    /// where an operand isn't found or doesn't fit, and for want of memory; then nothing is changed.
    #[inline(always)]
    pub fn exchange_types<A: Refused>(
        self,
        expected: &[ValType],
        pushed: &[ValType],
    ) -> Result<(), A>
        requires visit { CanCheck R.context self }
        requires types { AllByRecursion (Valid (R.context self.resources.now)) expected.now }
        ensures { Exchanges (R.context self.entry.resources.now) A.tells expected.now pushed.now
            self.entry.stacks.now result self.exit.0.now }
    {
        let OperatorContext { stacks, resources } = self;
        let own = stacks.own_operand_count();
        stacks.expect_among(resources, own, 0, expected)?;
        stacks.exchange(expected.len().min(own), pushed)
    }

    /// [`OperatorContext::exchange_types`], where the values of these fields are expected.
    #[inline(always)]
    pub fn exchange_fields<A: Refused>(
        self,
        fields: &[FieldType],
        pushed: &[ValType],
    ) -> Result<(), A>
        requires visit { CanCheck R.context self }
        requires types { AllByRecursion (Valid (R.context self.resources.now)) (unpacked_fields fields.now) }
        ensures { Exchanges (R.context self.entry.resources.now) A.tells (unpacked_fields fields.now)
            pushed.now self.entry.stacks.now result self.exit.0.now }
    {
        self.expect_fields(0, fields)?;
        let own = self.stacks.own_operand_count();
        self.stacks.exchange(fields.len().min(own), pushed)
    }

    /// [`OperatorContext::exchange_types`], where the types of a list are expected, and one more above them.
    pub fn exchange_with_top<A: Refused>(
        self,
        under: &[ValType],
        above: ValType,
        pushed: &[ValType],
    ) -> Result<(), A>
        requires visit { CanCheck R.context self }
        requires under { AllByRecursion (Valid (R.context self.resources.now)) under.now }
        requires above { Valid (R.context self.resources.now) above }
        ensures { Exchanges (R.context self.entry.resources.now) A.tells (under.now ++ above ∷ []) pushed.now
            self.entry.stacks.now result self.exit.0.now }
    {
        self.expect_with_top(0, under, above)?;
        let own = self.stacks.own_operand_count();
        self.stacks
            .exchange(under.len().saturating_add(1).min(own), pushed)
    }

    /// Takes an operand of this type, sets a declared local, and gives an operand of each of the given types, the last on top.
    /// It refuses as [`OperatorContext::exchange_types`] does.
    pub fn exchange_setting<A: Refused>(
        self,
        local_index: u32,
        ty: ValType,
        pushed: &[ValType],
    ) -> Result<(), A>
        requires visit { CanCheck R.context self }
        requires ty { Valid (R.context self.resources.now) ty }
        requires declared { local_index < length self.stacks.now.body.locals }
        ensures { Takes (R.context self.entry.resources.now) A.tells (ty ∷ []) (body_set_then local_index
            pushed.now) self.entry.stacks.now result self.exit.0.now }
    {
        let OperatorContext { stacks, resources } = self;
        let own = stacks.own_operand_count();
        stacks.expect_among(resources, own, 0, &[ty])?;
        stacks.set_local(local_index, own.min(1), pushed)
    }
}
