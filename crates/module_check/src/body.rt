//! The check of one body.

ghost use Rattle.std.specs.Prelude.{◌≡◌, ◌≢◌, ◌⊎◌, ℕ, true, OnOk, IfErr};
ghost use Rattle.validate_operators.specs.Validator.{state};
ghost use Rattle.validate_stacks.specs.State.{IsStarting};
ghost use Rattle.validate_operators.specs.Begin.{IsBodyStart, CannotStart};
ghost use Rattle.module_check.specs.Accepted.{IsAcceptedCode};
ghost use Rattle.module_check.specs.Constant.{may_stand};
ghost use Rattle.module_check.specs.Faults.{HasFirstFault, IsMalformedCode, IsRefusedCode, end_of};
ghost use Rattle.module_check.specs.Refusals.{IsRefusal};
ghost use Rattle.module_check.specs.Safe.{IsSafeCode};
ghost use Rattle.module_check.specs.Uncovered.{HasVector};
ghost use Rattle.module_check.specs.declared.verdict.Verdict.TheVariants.{Accepted, Refused, Malformed, NotCovered, OutOfMemory};
ghost use Rattle.validate_types.specs.declared.error.Error.{Error};
ghost use Rattle.validate_types.specs.Features.{has, simd};
ghost use Rattle.validate_types.specs.declared.features.WasmFeatures.{WasmFeatures};

use crate::buffers::BodyBuffers;
use crate::constant::ConstantPlace;
use crate::operators::{OpenBody, check_operators, define_locals, end_of};
use crate::verdict::{CheckError, Verdict};
use binary_operators::{BinaryReader, CanonicalTypes, OperatorLists};
use validate_operators::OperatorValidator;
use validate_resources::WasmModuleResources;
use validate_types::WasmFeatures;
use validate_visit::BodyKind;

/// What a body is checked in.
#[derive(Drop)]
pub struct BodyContext<'m, R> {
    /// The lookup.
    pub resources: &'m R,
    /// The proposals that are on.
    pub features: &'m WasmFeatures,
    /// The types by which indices are read.
    pub types: CanonicalTypes<'m>,
    /// The place of a constant expression, in which each operator is to be constant.
    pub constant: Option<ConstantPlace<'m>>,
}

/// Reads the locals of a body of this kind, if it has some, and its operators up to the end of the bytes, and
/// checks them by its validator, which is new.
fn check_body_from<R: WasmModuleResources>(
    v: &mut OperatorValidator,
    context: &BodyContext<'_, R>,
    reader: &mut BinaryReader<'_>,
    lists: &mut OperatorLists,
    kind: BodyKind,
) -> Result<(), CheckError>
    requires { IsStarting (R.context context.now.resources.now) (state v.old) }
    ensures accepted { OnOk result ((features : WasmFeatures)
        → IsBodyStart (R.context context.now.resources.now) features kind (state v.old)
        → IsSafeCode (R.context context.now.resources.now) features context.now.types kind
        (may_stand context.now.constant) reader.old.left) }
    ensures fault { IfErr result (λ e. IsRefusal e → (features : WasmFeatures)
        → IsBodyStart (R.context context.now.resources.now) features kind (state v.old)
        → HasFirstFault (R.context context.now.resources.now) features context.now.types kind
        (may_stand context.now.constant) (end_of reader.old) reader.old.left e) }
{
    let body = OpenBody {
        context,
        end: end_of(reader),
    };
    match kind {
        BodyKind::Function(_) => {
            define_locals(v, context.resources, reader, context.types)?;
            check_operators(v, &body, reader, lists)?;
            Ok(())
        }
        BodyKind::Expression(_) => {
            check_operators(v, &body, reader, lists)?;
            Ok(())
        }
    }
}

/// Reads a body of this kind, up to the end of the bytes, and checks it as it is read: that of a function, or a
/// constant expression in the place that the context has.
///
/// - `Accepted`: all of the bytes were read, each operator is accepted, and the last closes the body. Then no run of
///   these operators gets stuck, from the start that the kind and the locals make, and what it returns fits the
///   results. In a constant expression each operator is constant.
/// - `Refused`: the validator refuses an operator; or a frame is open at the end; or a byte stands after the operator
///   that closes the body; or an operator isn't constant; or it is one on vectors, and their proposal is off. The offset is
///   where that begins, but for what is refused as it is read.
/// - `Malformed`: it can't be read.
/// - `NotCovered`: a vector operator stands after operators that are accepted, and its proposal is on.
/// - `OutOfMemory`: memory ran out.
///
/// Unless memory runs out, a body is accepted exactly if its bytes are locals and operators whose rules all hold. Vector
/// operators have no rule here.
pub fn check_body<R: WasmModuleResources>(
    context: &BodyContext<'_, R>,
    kind: BodyKind,
    reader: &mut BinaryReader<'_>,
    buffers: &mut BodyBuffers,
) -> Verdict
    ensures accepted { result ≡ Accepted → IsSafeCode (R.context context.now.resources.now)
        context.now.features.now context.now.types kind (may_stand context.now.constant) reader.old.left }
    ensures refused { result ≢ Accepted → result ≢ OutOfMemory
        → ¬ IsAcceptedCode (R.context context.now.resources.now) context.now.features.now context.now.types
        kind (may_stand context.now.constant) reader.old.left }
    ensures proposal { (offset : ℕ) → result ≡ NotCovered offset → has context.now.features.now simd ≡ true }
    ensures uncovered { (offset : ℕ) → result ≡ NotCovered offset
        → HasVector (R.context context.now.resources.now) context.now.features.now context.now.types kind
        (may_stand context.now.constant) reader.old.left }
    ensures malformed { (e : Error) → result ≡ Malformed e
        → IsMalformedCode (R.context context.now.resources.now) context.now.features.now context.now.types kind
        (may_stand context.now.constant) reader.old }
    ensures invalid { (e : Error) → result ≡ Refused e
        → CannotStart (R.context context.now.resources.now) context.now.features.now kind
        ⊎ IsRefusedCode (R.context context.now.resources.now) context.now.features.now context.now.types kind
        (may_stand context.now.constant) reader.old e.offset }
{
    let alloc = buffers.allocator();
    let BodyBuffers {
        validator,
        lists,
        ..
    } = buffers;
    match validator.start_body(context.resources, context.features, kind, reader.offset()) {
        Ok(()) => {
            let checked = check_body_from(validator, context, reader, lists, kind);
            Verdict::of_check_in(alloc, checked).under(context.features)
        }
        Err(refusal) => Verdict::of_error(refusal),
    }
}
