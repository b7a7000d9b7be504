//! Checking a script that was read.

ghost use Rattle.std.specs.Prelude.{◌≡◌, ◌⊎◌, true, length, None, Some, IfOk, IfErr};
ghost use Rattle.validate_resources.specs.Kept.{declared_lists};
ghost use Rattle.validate_resources.specs.Lists.{module_of};
ghost use Rattle.validate_resources.specs.Named.{declared_in};
ghost use Rattle.opcheck_script.specs.Reports.{ChecksScript, script_body};
ghost use Rattle.script_reader.specs.Written.{may_all_be_attempted};
ghost use Rattle.opcheck_script.specs.declared.failure.BadScript.{BadScript};
ghost use Rattle.opcheck_script.specs.declared.failure.Failure.{Failure};

use crate::body::run_operators;
use crate::failure::{BadScript, Failure};
use crate::report::{Answers, Report};
use script_reader::{BodyLine, Operators, Script};
use std::alloc::Global;
use validate_operators::begin_body;
use validate_resources::{ModuleDeclarations, ModuleLists};
use validate_stacks::OperatorValidatorAllocations;
use validate_types::WasmFeatures;
use validate_visit::{LocalGroup, Op, is_well_ordered};

/// Checks a script: first its order, then its module, then its body.
pub fn check_script(alloc: Global, script: Script<'_>) -> Result<Report, Failure>
    ensures { ChecksScript (declared_in script.entry.declarations) (script_body script.entry) result }
{
    let Script {
        features,
        shows,
        declarations,
        body,
        locals,
        operators,
    } = script;
    let Operators { ops, attempts } = operators;
    check_operators(
        alloc,
        features,
        declarations,
        body,
        &locals,
        &ops,
        &attempts,
        shows,
    )
}

/// Checks the operators of a body, some of them attempted, in the module of these declarations, with these
/// proposals on. It notes the types of the operands where the script shows them.
fn check_operators(
    alloc: Global,
    features: WasmFeatures,
    declarations: ModuleDeclarations,
    line: BodyLine,
    locals: &[LocalGroup],
    ops: &[(Op<'_>, u64)],
    attempts: &[bool],
    shows: bool,
) -> Result<Report, Failure>
    requires each { length attempts.now ≡ length ops.now }
    requires allowed { may_all_be_attempted ops.now attempts.now ≡ true }
    ensures { ChecksScript (declared_in declarations) (record {
      features = features;
      shows = shows;
      line = line;
      locals = locals.now;
      operators = record { ops = ops.now; attempts = attempts.now };
    }) result }
{
    if !is_well_ordered(ops) {
        return Err(Failure::BadScript(BadScript::Order));
    }
    let module = module_lists(alloc, declarations)?;
    let allocs = OperatorValidatorAllocations::new(alloc);
    match begin_body(&module, &features, line.kind, line.offset, locals, allocs) {
        Ok(validator) => Ok(run_operators(alloc, validator, ops, attempts, shows, &module)),
        Err(refusal) => Ok(Report {
            answers: Answers::Heights(Vec::new(alloc)),
            outcome: Err(refusal),
        }),
    }
}

/// The module of these declarations, in its canonical form.
pub fn module_lists(alloc: Global, declarations: ModuleDeclarations) -> Result<ModuleLists, Failure>
    ensures kept { IfOk result (λ lists. module_of (declared_in declarations) ≡ Some (declared_lists lists)) }
    ensures cause { IfErr result (λ failure. (failure ≡ Failure.OutOfMemory)
        ⊎ ((failure ≡ Failure.BadScript BadScript.Module)
        × (module_of (declared_in declarations) ≡ None))) }
{
    ModuleLists::from_declarations(alloc, declarations).map_err(|error| {
        if error.is_out_of_memory() {
            Failure::OutOfMemory
        } else {
            Failure::BadScript(BadScript::Module)
        }
    })
}
