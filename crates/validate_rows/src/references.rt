//! Operators on references, and branches that look whether one is null (WebAssembly core specification,
//! "Reference Instructions" and "Control Instructions").
#![tactic(auto, using(crate::proofs::Sets::references))]

ghost use Rattle.std.specs.Prelude.{◌≡◌, true, false, [], ◌∷◌, None, Some, IfOk, OnOk, OnErr, IfErr};
ghost use Rattle.validate_resources.specs.Context.{ModuleContext, Valid};
ghost use Rattle.validate_types.specs.declared.heap.UnpackedIndex.{UnpackedIndex};
ghost use Rattle.validation_rules.specs.Exact as exact_rule;
ghost use Rattle.std.specs.Option.{option_and_then};
ghost use Rattle.validation_rules.specs.References.{is_null_gate_open, operand_without_null, ref_null_row, ref_func_row, null_test_pushes, non_null_pushes, br_on_null_row, br_on_non_null_row};
ghost use Rattle.validation_rules.specs.References as reference_rule;
ghost use Rattle.validation_rules.specs.Operators.{looking_row, plain_row, row_operator, staying_operator};
ghost use Rattle.validate_stacks.specs.Bodies.{context_of, CanCheck, Checks};
ghost use Rattle.validate_stacks.specs.State.{body_context};
ghost use Rattle.validate_stacks.specs.Steps.{found_in_body};

use validate_resources::WasmModuleResources;
use validate_resources::uses::laws;
use validate_shapes::aggregates::declared_heap;
use validate_shapes::canonical::heap_reference;
use validate_shapes::plain::constant;
use validate_shapes::references::without_null;
use validate_stacks::blocks::label_types;
use validate_stacks::{OperatorContext, Stacks};
use validate_types::{
    CoreTypeId, HeapType, MaybeType, RefType, Refusal, Refused, UnpackedIndex, ValType,
};

/// The gate of the type of null. A type index of 2^20 or more, to which no reference can be made, has none:
/// a lookup of at most 1,000,000 types refuses it later on.
#[inline(always)]
fn expect_null_open<A: Refused>(stacks: &Stacks, heap_type: HeapType) -> Result<(), A>
    ensures open { OnOk result ((md : ModuleContext)
        → is_null_gate_open (body_context md stacks.now.body) heap_type ≡ true) }
    ensures closed { OnErr result ((md : ModuleContext)
        → is_null_gate_open (body_context md stacks.now.body) heap_type ≡ false) }
{
    let Some(ty) = RefType::new(true, heap_type) else {
        return Ok(());
    };
    match stacks.features().check_ref_type(ty) {
        Ok(()) => Ok(()),
        Err(text) => Err(A::of(Refusal::ReferenceOff(text))),
    }
}

/// The type of null, of a heap type whose gate is open and that is known.
#[inline(always)]
fn find_null_type<A: Refused, R: WasmModuleResources>(
    context: &OperatorContext<'_, '_, R>,
    heap_type: HeapType,
) -> Result<ValType, A>
    ensures found { IfOk result (λ t. ref_null_row (context_of R.context context.now) heap_type ≡ plain_row
        [] (t ∷ [])) }
    ensures valid { IfOk result (λ t. Valid (R.context context.now.resources.now) t) }
    ensures refused { IfErr result (λ e. A.tells e → (ref_null_row (context_of R.context context.now)
        heap_type).premise ≡ false) }
{
    expect_null_open(context.stacks, heap_type)?;
    heap_reference(context.resources, true, heap_type)
}

/// `ref.null`: `[] -> [(ref null h)]` of a heap type h whose gate is open and that is known.
#[inline(never)]
pub fn ref_null<A: Refused, R: WasmModuleResources>(
    context: OperatorContext<'_, '_, R>,
    heap_type: HeapType,
) -> Result<(), A>
    requires { CanCheck R.context context }
    ensures { Checks R.context A.tells (λ cx. row_operator (ref_null_row cx heap_type)) context.entry
        result context.exit }
{
    let ty = find_null_type(&context, heap_type)?;
    constant(context, ty)
}

/// What a reference to a function points to, whose type this id names.
fn function_heap<R: WasmModuleResources>(
    context: &OperatorContext<'_, '_, R>,
    function_index: u32,
    id: CoreTypeId,
) -> HeapType
    ensures { result ≡ exact_rule.function_heap (context_of R.context context.now) function_index
        (UnpackedIndex.Id id) }
{
    let exact = context.stacks.features().custom_descriptors()
        && context.resources.has_function_exact_type(function_index);
    declared_heap(exact, UnpackedIndex::Id(id))
}

/// `ref.func`: `[] -> [(ref t)]` of a function that the module lets be referred to, of the type t; exact, where
/// references can be and the module says so.
#[inline(never)]
pub fn ref_func<A: Refused, R: WasmModuleResources>(
    context: OperatorContext<'_, '_, R>,
    function_index: u32,
) -> Result<(), A>
    requires { CanCheck R.context context }
    ensures { Checks R.context A.tells (λ cx. row_operator (ref_func_row cx function_index)) context.entry
        result context.exit }
{
    laws(context.resources);
    let Some(id) = context.resources.type_id_of_function(function_index) else {
        return Err(A::of(Refusal::UnknownFunction(function_index)));
    };
    if !context.resources.is_function_referenced(function_index) {
        return Err(A::of(Refusal::UndeclaredFunction));
    }
    let heap_type = function_heap(&context, function_index, id);
    let Some(ty) = RefType::new(false, heap_type) else {
        unreachable!()
    };
    constant(context, ValType::Ref(ty))
}

/// The operand that a pop finds, without its null: it has to be a reference.
#[inline(always)]
fn find_reference<A: Refused>(stacks: &Stacks) -> Result<MaybeType, A>
    ensures pushed { IfOk result (λ t. option_and_then operand_without_null (found_in_body stacks.now.body)
        ≡ Some t) }
    ensures refused { OnErr result (option_and_then operand_without_null
        (found_in_body stacks.now.body) ≡ None) }
{
    let found = stacks.find_any(0)?;
    if let Some(reference) = without_null(found) {
        return Ok(reference);
    }
    match found {
        MaybeType::Known(ty) => Err(A::of(Refusal::NoReference(ty))),
        MaybeType::Bottom | MaybeType::UnknownRef(_) => unreachable!(),
    }
}

/// `ref.is_null`: `[r] -> [i32]` of any reference r.
#[inline(never)]
pub fn ref_is_null<A: Refused, R: WasmModuleResources>(
    context: OperatorContext<'_, '_, R>,
) -> Result<(), A>
    requires { CanCheck R.context context }
    ensures { Checks R.context A.tells (λ cx. row_operator (looking_row 1 null_test_pushes)) context.entry
        result context.exit }
{
    find_reference(context.stacks)?;
    let own = context.stacks.own_operand_count();
    context
        .stacks
        .replace(own.min(1), MaybeType::Known(ValType::I32))
}

/// `ref.as_non_null`: `[r] -> [r]` of any reference r, without its null.
#[inline(never)]
pub fn ref_as_non_null<A: Refused, R: WasmModuleResources>(
    context: OperatorContext<'_, '_, R>,
) -> Result<(), A>
    requires { CanCheck R.context context }
    ensures { Checks R.context A.tells (λ cx. row_operator (looking_row 1 (non_null_pushes cx []))) context.entry
        result context.exit }
{
    let reference = find_reference(context.stacks)?;
    let own = context.stacks.own_operand_count();
    context.stacks.replace(own.min(1), reference)
}

/// `br_on_null`: `[t r] -> [t r]` of any reference r, which goes on without its null, with the types t of
/// the label.
#[inline(never)]
pub fn br_on_null<A: Refused, R: WasmModuleResources>(
    context: OperatorContext<'_, '_, R>,
    relative_depth: u32,
) -> Result<(), A>
    requires { CanCheck R.context context }
    ensures { Checks R.context A.tells (λ cx. staying_operator (λ hs. br_on_null_row cx hs relative_depth))
        context.entry result context.exit }
{
    let reference = find_reference(context.stacks)?;
    let (block_type, kind) = context.stacks.find_label(relative_depth)?;
    let types = label_types(context.resources, &block_type, kind);
    context.expect_operands(1, types)?;
    let own = context.stacks.own_operand_count();
    context
        .stacks
        .exchange_topped(own.min(types.len() + 1), types, reference)
}

/// The types of a label but its last, and its last, which has to be a reference.
fn last_reference<A: Refused>(types: &[ValType]) -> Result<(&[ValType], RefType), A>
    ensures found { IfOk result (λ p. reference_rule.last_reference types.now ≡ Some (p.0.now, p.1)) }
    ensures refused { OnErr result (reference_rule.last_reference types.now ≡ None) }
{
    let Some((last, others)) = types.split_last() else {
        return Err(A::of(Refusal::NonNullLabelEmpty));
    };
    let ValType::Ref(ty) = *last else {
        return Err(A::of(Refusal::NonNullLabel));
    };
    Ok((others, ty))
}

/// `br_on_non_null`: `[t (ref null h)] -> [t]`, with the types t of the label but its last, which is a
/// reference to h.
#[inline(never)]
pub fn br_on_non_null<A: Refused, R: WasmModuleResources>(
    context: OperatorContext<'_, '_, R>,
    relative_depth: u32,
) -> Result<(), A>
    requires { CanCheck R.context context }
    ensures { Checks R.context A.tells (λ cx. staying_operator (λ hs. br_on_non_null_row cx hs relative_depth))
        context.entry result context.exit }
{
    let (block_type, kind) = context.stacks.find_label(relative_depth)?;
    let types = label_types(context.resources, &block_type, kind);
    let (others, last) = last_reference(types)?;
    context.exchange_with_top(others, ValType::Ref(last.nullable()), others)
}
