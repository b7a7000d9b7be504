//! Modules: what the first lines of a script declare; and bodies that begin in them.

ghost use Rattle.validate_stacks.specs.State.{IsStarting};
ghost use Rattle.wasmparser_validate.specs.Validator.{state};

use crate::expectations::ample;
use script_reader::{Script, read_script};
use std::process::Abort;
use validate_operators::begin_body;
use wasmparser_validate::operators::{OperatorValidator, OperatorValidatorAllocations};
use wasmparser_validate::resources::{ModuleDeclarations, ModuleLists, WasmModuleResources};
use wasmparser_validate::types::{Flags, ValType, WasmFeatures};
use wasmparser_validate::visit::BodyKind;

/// What these lines declare.
pub fn declared(rt: &(impl Abort + AllocGlobal), lines: &str) -> ModuleDeclarations {
    let text = ample(rt, format!(in rt.alloc(); "{lines}\nexpr i32\n"));
    let mut listed = Vec::new(rt.alloc());
    let Script { declarations, .. } = ample(rt, read_script(rt.alloc(), &mut listed, &text));
    declarations
}

/// The lookup over what these lines declare.
pub fn lists_of(rt: &(impl Abort + AllocGlobal), lines: &str) -> ModuleLists {
    let declarations = declared(rt, lines);
    ample(rt, ModuleLists::from_declarations(rt.alloc(), declarations))
}

/// A validator of a function of this type, in these buffers.
pub fn function_of<R: WasmModuleResources>(
    rt: &impl Abort,
    lists: &R,
    ty: u32,
    allocs: OperatorValidatorAllocations,
) -> OperatorValidator
    ensures { IsStarting (R.context lists.now) (state result) }
{
    ample(
        rt,
        OperatorValidator::new_func(ty, 0, &WasmFeatures::all(), lists, allocs),
    )
}

/// A validator that was made without a body, in these buffers, and begins one of a function of type 0.
pub fn begun_anew<R: WasmModuleResources>(
    rt: &impl Abort,
    lists: &R,
    allocs: OperatorValidatorAllocations,
) -> OperatorValidator
    ensures { IsStarting (R.context lists.now) (state result) }
{
    let mut v = OperatorValidator::new(&WasmFeatures::all(), allocs);
    ample(rt, v.start_func(0, 1, &WasmFeatures::all(), lists));
    v
}

/// A validator of a constant expression of type i32, in these buffers.
pub fn constant<R: WasmModuleResources>(
    rt: &impl Abort,
    lists: &R,
    allocs: OperatorValidatorAllocations,
) -> OperatorValidator
    ensures { IsStarting (R.context lists.now) (state result) }
{
    let _lists = lists;
    let begun = OperatorValidator::new_const_expr(&WasmFeatures::all(), ValType::I32, allocs);
    ample(rt, begun)
}

/// A validator of an expression of type i32, in these buffers, with every proposal on but tail calls.
pub fn expression<R: WasmModuleResources>(
    rt: &impl Abort,
    lists: &R,
    allocs: OperatorValidatorAllocations,
) -> OperatorValidator
    ensures { IsStarting (R.context lists.now) (state result) }
{
    let features = WasmFeatures::all().difference(WasmFeatures::TAIL_CALL);
    let kind = BodyKind::Expression(ValType::I32);
    ample(rt, begin_body(lists, &features, kind, 0, &[], allocs))
}
