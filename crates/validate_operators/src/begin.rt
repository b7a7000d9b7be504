//! Bodies as they begin: a function's, or a constant expression's, and their locals.

ghost use Rattle.std.specs.Prelude.{◌≡◌, false, None, IfOk, IfErr, OnOk, OnErr};
ghost use Rattle.validate_stacks.specs.State.{IsStarting};
ghost use Rattle.validate_stacks.specs.Steps.{empty_body};
ghost use Rattle.validate_operators.specs.Begin.{IsExpressionStart, IsBodyStart, CannotStart, HasLocals, CannotBegin, without_places};
ghost use Rattle.validate_operators.specs.Validator.{state};

use crate::validator::OperatorValidator;
use validate_resources::WasmModuleResources;
use validate_resources::uses::laws;
use validate_stacks::OperatorValidatorAllocations;
use validate_types::{Error, ValType, WasmFeatures};
use validate_visit::{BodyKind, LocalGroup};

/// A validator of a body of this kind, with all its locals. It refuses what [`OperatorValidator::start_body`] refuses,
/// at this offset, and what [`OperatorValidator::define_locals`] refuses, at the offset of the group. Or memory ran
/// out.
pub fn begin_body<R: WasmModuleResources>(
    resources: &R,
    features: &WasmFeatures,
    kind: BodyKind,
    offset: u64,
    locals: &[LocalGroup],
    allocs: OperatorValidatorAllocations,
) -> Result<OperatorValidator, Error>
    ensures starting { IfOk result (λ validator. IsStarting (R.context resources.now) (state validator)) }
    ensures locals { IfOk result (λ validator. HasLocals (R.context resources.now) features.now kind
        (without_places locals.now) (state validator)) }
    ensures refused { IfErr result (λ e. e.wants_memory ≡ false
        → CannotBegin (R.context resources.now) features.now kind offset locals.now e.offset) }
{
    let mut validator = OperatorValidator::new(features, allocs);
    start_with_locals(&mut validator, resources, features, kind, offset, locals)?;
    Ok(validator)
}

/// Begins a body of this kind, with all its locals, in the buffers of the body before.
fn start_with_locals<R: WasmModuleResources>(
    v: &mut OperatorValidator,
    resources: &R,
    features: &WasmFeatures,
    kind: BodyKind,
    offset: u64,
    locals: &[LocalGroup],
) -> Result<(), Error>
    ensures starting { OnOk result (IsStarting (R.context resources.now) (state v.new)) }
    ensures locals { OnOk result (HasLocals (R.context resources.now) features.now kind
        (without_places locals.now) (state v.new)) }
    ensures refused { IfErr result (λ e. e.wants_memory ≡ false
        → CannotBegin (R.context resources.now) features.now kind offset locals.now e.offset) }
{
    v.start_body(resources, features, kind, offset)?;
    for local in locals {
        v.define_locals(local.offset, local.count, local.ty, resources)?;
    }
    Ok(())
}

impl OperatorValidator {
    /// Begins a body of this kind, without locals but for the parameters of a function, in the buffers of the body before. It
    /// refuses what [`OperatorValidator::start_func`] refuses, and for a constant expression a type that the lookup refuses, at
    /// this offset; or there is no memory. An attempt that is pending is given up. A refusal leaves no body, as
    /// [`OperatorValidator::new`] does.
    pub fn start_body<R: WasmModuleResources>(
        &mut self,
        resources: &R,
        features: &WasmFeatures,
        kind: BodyKind,
        offset: u64,
    ) -> Result<(), Error>
        ensures starting { OnOk result (IsStarting (R.context resources.now) (state self.new)) }
        ensures made { OnOk result (IsBodyStart (R.context resources.now) features.now kind (state self.new)) }
        ensures refused { IfErr result (λ e. e.wants_memory ≡ false
            → CannotStart (R.context resources.now) features.now kind) }
        ensures left { OnErr result (state self.new ≡ empty_body features.now) }
        ensures offset { IfErr result (λ e. e.wants_memory ≡ false → e.offset ≡ offset) }
    {
        match kind {
            BodyKind::Function(ty) => self.start_func(ty, offset, features, resources),
            BodyKind::Expression(ty) => self.start_expression(resources, features, ty, offset),
        }
    }

    /// Begins a constant expression of this type, which is checked first.
    fn start_expression<R: WasmModuleResources>(
        &mut self,
        resources: &R,
        features: &WasmFeatures,
        ty: ValType,
        offset: u64,
    ) -> Result<(), Error>
        ensures starting { OnOk result (IsStarting (R.context resources.now) (state self.new)) }
        ensures made { OnOk result (IsExpressionStart (R.context resources.now) features.now ty (state self.new)) }
        ensures refused { IfErr result (λ e. e.wants_memory ≡ false
            → (R.context resources.now).canonical_type features.now ty ≡ None) }
        ensures left { OnErr result (state self.new ≡ empty_body features.now) }
        ensures offset { IfErr result (λ e. e.wants_memory ≡ false → e.offset ≡ offset) }
    {
        self.stacks.restart(*features);
        laws(resources);
        let mut canonical = ty;
        resources.check_value_type(&mut canonical, features, offset)?;
        self.start_const_expr(features, canonical)
    }
}
