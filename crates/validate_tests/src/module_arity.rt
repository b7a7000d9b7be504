//! What can be asked of a validator through the traits: what the operators of a body name, and which frame is open.

ghost use Rattle.std.specs.Prelude.{◌<◌, ◌^◌};
ghost use Rattle.validate_stacks.specs.State.{IsStarting};
ghost use Rattle.wasmparser_validate.specs.Validator.{state};

use crate::examples::{Example, expect_example};
use crate::expectations::{expect, expect_same};
use std::process::Abort;
use wasmparser_validate::operators::OperatorValidator;
use wasmparser_validate::resources::{ModuleLists, WasmModuleResources};
use wasmparser_validate::types::{ContType, RefType, UnpackedIndex};
use wasmparser_validate::visit::{BlockType, FrameKind, FrameStack, ModuleArity};

/// Function 0 is of type 1, `[i32] -> [i64 i64]`; tags 0 and 1 are of types 0 and 1.
pub const MODULE: &str = "type func ->\ntype func i32 -> i64 i64\nfn 1\ntag 0\ntag 1";

/// What is asked of the module.
fn expect_names<M: ModuleArity>(rt: &impl Abort, body: &M) {
    expect_same(rt, body.type_index_of_function(0), Some(1));
    expect_same(rt, body.tag_type_arity(0), Some((0, 0)));
    expect_same(rt, body.tag_type_arity(1), Some((1, 2)));
    expect_same(rt, body.tag_type_arity(2), None);
    expect(rt, body.sub_type_at(1).is_some());
    expect(rt, body.sub_type_at(2).is_none());
    let label = Some((BlockType::FuncType(0), FrameKind::Block));
    expect_same(rt, body.label_block(0), label);
    expect_same(rt, body.label_block(1), None);
}

/// A reference by its module's index has no id, and so names no type.
fn expect_no_types<M: ModuleArity>(rt: &impl Abort, body: &M) {
    expect(rt, body.sub_type_of_ref_type(&RefType::FUNCREF).is_none());
    if let Some(index) = UnpackedIndex::Module(0).pack() {
        expect(rt, body.func_type_of_cont_type(&ContType(index)).is_none());
    }
}

/// One frame is open, a block.
fn expect_one_frame<M: ModuleArity + FrameStack>(rt: &impl Abort, body: &M)
    requires { M.open_frames body.now < 2 ^ 32 }
{
    expect_same(rt, body.control_stack_height(), 1);
    expect_same(rt, body.current_frame(), Some(FrameKind::Block));
}

/// What a new body answers.
pub fn expect_answers(rt: &impl Abort, v: &mut OperatorValidator, lists: &ModuleLists)
    requires { IsStarting (⟦<ModuleLists as WasmModuleResources>⟧.context lists.now) (state v.old) }
{
    let body = v.with_resources(lists, 7);
    expect_names(rt, &body);
    expect_no_types(rt, &body);
    expect_one_frame(rt, &body);
}

#[test]
fn what_a_new_body_answers(rt: HostRuntime) {
    expect_example(&rt, Example::Names);
}
