//! The calls of C that show what lies on the stacks of a function in progress, and its locals.

ghost use Rattle.std.specs.Prelude.{◌≡◌, ◌≢◌, length, slice_get, option_map, None, Some, IfSome};
ghost use Rattle.c_api.specs.FunctionCalls.{OnFunction, OfFunction};
ghost use Rattle.c_api.specs.Handle.{held_in};
ghost use Rattle.c_api.specs.Shown.{shown_type, shown_operand, shown_frame};
ghost use Rattle.wasmparser_validate.specs.Functions.{body_state};
ghost use Rattle.validate_stacks.specs.Steps.{type_at_depth, frame_at};
ghost use Rattle.validation_rules.specs.Static.{operand_count, frame_count};

use crate::found::function_in;
use crate::handle::Handle;
use crate::kept::Kept;
use crate::shown::{ShownFrame, ShownType};
use std::alloc::Global;

/// How many operands there are, in all frames, or 0 where there is no function.
fn operands_of(kept: &Option<Box<Kept>>) -> u64
    ensures { OfFunction (held_in kept.now) (λ f. result ≡ operand_count f.present) }
{
    match function_in(kept) {
        Some(function) => function.operand_stack_height() as u64,
        None => 0,
    }
}

/// The same of a handle.
pub fn operands(alloc: Global, handle: &mut Handle) -> u64
    ensures shown { OfFunction handle.old.held (λ f. result ≡ operand_count f.present) }
    ensures kept { handle.new.held ≡ handle.old.held }
{
    let kept = handle.take(alloc);
    let count = operands_of(&kept);
    handle.put_back(alloc, kept);
    count
}

/// How many frames are open, or 0 where there is no function.
fn frames_of(kept: &Option<Box<Kept>>) -> u64
    ensures { OfFunction (held_in kept.now) (λ f. result ≡ frame_count f.present) }
{
    match function_in(kept) {
        Some(function) => function.control_stack_height() as u64,
        None => 0,
    }
}

/// The same of a handle.
pub fn frames(alloc: Global, handle: &mut Handle) -> u64
    ensures shown { OfFunction handle.old.held (λ f. result ≡ frame_count f.present) }
    ensures kept { handle.new.held ≡ handle.old.held }
{
    let kept = handle.take(alloc);
    let count = frames_of(&kept);
    handle.put_back(alloc, kept);
    count
}

/// How many locals there are, with the parameters, or 0 where there is no function.
fn locals_of(kept: &Option<Box<Kept>>) -> u32
    ensures { OfFunction (held_in kept.now) (λ f. result ≡ length f.starting.locals) }
{
    match function_in(kept) {
        Some(function) => function.len_locals(),
        None => 0,
    }
}

/// The same of a handle.
pub fn locals(alloc: Global, handle: &mut Handle) -> u32
    ensures shown { OfFunction handle.old.held (λ f. result ≡ length f.starting.locals) }
    ensures kept { handle.new.held ≡ handle.old.held }
{
    let kept = handle.take(alloc);
    let count = locals_of(&kept);
    handle.put_back(alloc, kept);
    count
}

/// Writes what is shown, if it is there, and answers 1 where it is, else 0.
fn show<T: Drop>(found: Option<T>, place: &mut T) -> u32
    ensures found { result ≢ 0 → found ≡ Some place.new }
    ensures missing { result ≡ 0 → (found ≡ None) × (place.new ≡ place.old) }
{
    match found {
        Some(shown) => {
            *place = shown;
            1
        }
        None => 0,
    }
}

/// The type of the operand at this depth, the top at 0.
fn operand_of(kept: &Option<Box<Kept>>, depth: u64) -> Option<ShownType>
    ensures found { IfSome result (λ s. OnFunction (held_in kept.now) (λ f.
        option_map shown_operand (type_at_depth (body_state f) depth) ≡ Some s)) }
    ensures missing { result ≡ None → OfFunction (held_in kept.now) (λ f. type_at_depth (body_state f) depth ≡ None) }
{
    match function_in(kept) {
        Some(function) => function.shown_operand(depth as usize),
        None => None,
    }
}

/// The same of a handle. Answers 1 where there is one, which is written.
pub fn operand(alloc: Global, handle: &mut Handle, depth: u64, shown: &mut ShownType) -> u32
    ensures found { result ≢ 0 → OnFunction handle.old.held (λ f.
        option_map shown_operand (type_at_depth (body_state f) depth) ≡ Some shown.new) }
    ensures missing { result ≡ 0 → OfFunction handle.old.held (λ f. type_at_depth (body_state f) depth ≡ None) }
    ensures unchanged { result ≡ 0 → shown.new ≡ shown.old }
    ensures kept { handle.new.held ≡ handle.old.held }
{
    let kept = handle.take(alloc);
    let found = operand_of(&kept, depth);
    handle.put_back(alloc, kept);
    show(found, shown)
}

/// The frame at this depth, the innermost at 0.
fn frame_of(kept: &Option<Box<Kept>>, depth: u64) -> Option<ShownFrame>
    ensures found { IfSome result (λ s. OnFunction (held_in kept.now) (λ f.
        option_map shown_frame (frame_at (body_state f) depth) ≡ Some s)) }
    ensures missing { result ≡ None → OfFunction (held_in kept.now) (λ f. frame_at (body_state f) depth ≡ None) }
{
    match function_in(kept) {
        Some(function) => function.shown_frame(depth as usize),
        None => None,
    }
}

/// The same of a handle. Answers 1 where there is one, which is written.
pub fn frame(alloc: Global, handle: &mut Handle, depth: u64, shown: &mut ShownFrame) -> u32
    ensures found { result ≢ 0 → OnFunction handle.old.held (λ f.
        option_map shown_frame (frame_at (body_state f) depth) ≡ Some shown.new) }
    ensures missing { result ≡ 0 → OfFunction handle.old.held (λ f. frame_at (body_state f) depth ≡ None) }
    ensures unchanged { result ≡ 0 → shown.new ≡ shown.old }
    ensures kept { handle.new.held ≡ handle.old.held }
{
    let kept = handle.take(alloc);
    let found = frame_of(&kept, depth);
    handle.put_back(alloc, kept);
    show(found, shown)
}

/// The type of the local at this index.
fn local_of(kept: &Option<Box<Kept>>, index: u32) -> Option<ShownType>
    ensures found { IfSome result (λ s. OnFunction (held_in kept.now) (λ f.
        option_map shown_type (slice_get f.starting.locals index) ≡ Some s)) }
    ensures missing { result ≡ None → OfFunction (held_in kept.now) (λ f. slice_get f.starting.locals index ≡ None) }
{
    match function_in(kept) {
        Some(function) => function.shown_local(index),
        None => None,
    }
}

/// The same of a handle. Answers 1 where there is one, which is written.
pub fn local(alloc: Global, handle: &mut Handle, index: u32, shown: &mut ShownType) -> u32
    ensures found { result ≢ 0 → OnFunction handle.old.held (λ f.
        option_map shown_type (slice_get f.starting.locals index) ≡ Some shown.new) }
    ensures missing { result ≡ 0 → OfFunction handle.old.held (λ f. slice_get f.starting.locals index ≡ None) }
    ensures unchanged { result ≡ 0 → shown.new ≡ shown.old }
    ensures kept { handle.new.held ≡ handle.old.held }
{
    let kept = handle.take(alloc);
    let found = local_of(&kept, index);
    handle.put_back(alloc, kept);
    show(found, shown)
}
