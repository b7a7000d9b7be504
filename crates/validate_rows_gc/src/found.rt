//! Operators that look for a reference below an abstract type, whatever its null and its sharedness, and
//! `ref.i31` (WebAssembly core specification, "Reference Instructions" and "Aggregate Instructions").

ghost use Rattle.std.specs.Prelude.{◌≡◌, true, false, None, Some, IfOk, OnErr};
ghost use Rattle.std.specs.Option.{option_and_then};
ghost use Rattle.validate_resources.specs.Context.{Valid};
ghost use Rattle.validate_types.specs.Refs.{nullable_reference};
ghost use Rattle.validation_rules.specs.Found.{abstract_beside, is_found_below, measure_row, converted_operand, convert_ref_row, ref_eq_row};
ghost use Rattle.validate_rows_gc.specs.Found.{operand_found_below};
ghost use Rattle.validation_rules.specs.Found as rule;
ghost use Rattle.validation_rules.specs.Operators.{row_operator, conversion_row};
ghost use Rattle.validation_rules.specs.References.{i31};
ghost use Rattle.validation_rules.specs.Valid.{IsValidOperand};
ghost use Rattle.validate_stacks.specs.Bodies.{CanCheck, Checks};
ghost use Rattle.validate_stacks.specs.State.{IsValidBody};
ghost use Rattle.validate_stacks.specs.Steps.{found_after_pops_in_body};

use validate_resources::WasmModuleResources;
use validate_shapes::plain::unary;
use validate_stacks::OperatorContext;
use validate_types::{AbstractHeapType, HeapType, MaybeType, RefType, Refusal, Refused, ValType};

/// The nullable references to this abstract type, of the sharedness of another.
#[inline(always)]
fn abstract_beside<R: WasmModuleResources>(
    resources: &R,
    expected: AbstractHeapType,
    ty: RefType,
) -> RefType
    requires { Valid (R.context resources.now) (ValType.Ref ty) }
    ensures { result ≡ nullable_reference (abstract_beside (R.context resources.now) ty expected) }
{
    RefType {
        nullable: true,
        heap_type: HeapType::Abstract {
            shared: resources.is_shared(ty),
            ty: expected,
        },
    }
}

/// Whether an operand lies below the nullable references to this abstract type, of its own sharedness.
#[inline(always)]
fn is_found_below<R: WasmModuleResources>(
    resources: &R,
    expected: AbstractHeapType,
    found: MaybeType,
) -> bool
    requires { IsValidOperand (R.context resources.now) found }
    ensures { result ≡ is_found_below (R.context resources.now) expected found }
{
    match found {
        MaybeType::Bottom | MaybeType::UnknownRef(None) => true,
        MaybeType::UnknownRef(Some(actual)) => actual.is_subtype_of(expected),
        MaybeType::Known(ValType::Ref(actual)) => {
            let upper = abstract_beside(resources, expected, actual);
            resources.is_subtype(ValType::Ref(actual), ValType::Ref(upper))
        }
        MaybeType::Known(_) => false,
    }
}

/// The refusal of an operand that doesn't.
#[cold]
#[inline(never)]
fn not_below<A: Refused>(expected: AbstractHeapType, found: MaybeType) -> A {
    A::of(match found {
        MaybeType::Known(ValType::Ref(_)) | MaybeType::UnknownRef(_) | MaybeType::Bottom => {
            Refusal::NotBelow { expected, found }
        }
        MaybeType::Known(ty) => Refusal::NoReference(ty),
    })
}

/// The operand that a pop finds after so many others, which has to lie below the nullable references to this abstract
/// type, of its own sharedness (wasmparser's `pop_maybe_shared_ref`).
#[inline(always)]
fn find_below<A: Refused, R: WasmModuleResources>(
    context: &OperatorContext<'_, '_, R>,
    depth: usize,
    expected: AbstractHeapType,
) -> Result<MaybeType, A>
    requires { IsValidBody (R.context context.now.resources.now) context.now.stacks.now.body }
    ensures found { IfOk result (λ t. found_after_pops_in_body depth context.now.stacks.now.body ≡ Some t) }
    ensures passed { IfOk result (λ t. is_found_below (R.context context.now.resources.now) expected t ≡ true) }
    ensures operand { IfOk result (λ t. IsValidOperand (R.context context.now.resources.now) t) }
    ensures refused { OnErr result (option_and_then (operand_found_below (R.context context.now.resources.now)
        expected) (found_after_pops_in_body depth context.now.stacks.now.body) ≡ None) }
{
    let found = context.stacks.find_any(depth)?;
    if is_found_below(context.resources, expected, found) {
        Ok(found)
    } else {
        Err(not_below(expected, found))
    }
}

/// `array.len`, `i31.get_s` and `i31.get_u`: `[r] -> [i32]` of a reference r below this abstract type.
#[inline(never)]
pub fn ref_to_i32<A: Refused, R: WasmModuleResources>(
    context: OperatorContext<'_, '_, R>,
    expected: AbstractHeapType,
) -> Result<(), A>
    requires { CanCheck R.context context }
    ensures { Checks R.context A.tells (λ cx. row_operator (measure_row cx expected)) context.entry
        result context.exit }
{
    find_below(&context, 0, expected)?;
    let own = context.stacks.own_operand_count();
    context
        .stacks
        .replace(own.min(1), MaybeType::Known(ValType::I32))
}

/// A reference to this abstract type, with null and sharedness as the found one has them.
fn converted<R: WasmModuleResources>(
    resources: &R,
    ty: AbstractHeapType,
    found: MaybeType,
) -> MaybeType
    requires { IsValidOperand (R.context resources.now) found }
    ensures exact { result ≡ converted_operand (R.context resources.now) ty found }
    ensures valid { IsValidOperand (R.context resources.now) result }
{
    match found {
        MaybeType::Known(ValType::Ref(found)) => {
            MaybeType::Known(ValType::Ref(RefType {
                nullable: found.is_nullable(),
                heap_type: HeapType::Abstract {
                    shared: resources.is_shared(found),
                    ty,
                },
            }))
        }
        _ => MaybeType::UnknownRef(Some(ty)),
    }
}

/// `any.convert_extern` and `extern.convert_any`: `[r] -> [r]` of a reference r below the one abstract
/// type, which becomes one to the other.
#[inline(never)]
pub fn convert_ref<A: Refused, R: WasmModuleResources>(
    context: OperatorContext<'_, '_, R>,
    from: AbstractHeapType,
    into: AbstractHeapType,
) -> Result<(), A>
    requires { CanCheck R.context context }
    ensures { Checks R.context A.tells (λ cx. row_operator (convert_ref_row cx from into)) context.entry
        result context.exit }
{
    let found = find_below(&context, 0, from)?;
    let made = converted(context.resources, into, found);
    let own = context.stacks.own_operand_count();
    context.stacks.replace(own.min(1), made)
}

/// Whether two operands are of the same sharedness, where both are known.
fn is_same_sharedness<R: WasmModuleResources>(resources: &R, a: MaybeType, b: MaybeType) -> bool
    requires first { IsValidOperand (R.context resources.now) a }
    requires second { IsValidOperand (R.context resources.now) b }
    ensures { result ≡ rule.is_same_sharedness (R.context resources.now) a b }
{
    match (a, b) {
        (MaybeType::Known(ValType::Ref(a)), MaybeType::Known(ValType::Ref(b))) => {
            resources.is_shared(a) == resources.is_shared(b)
        }
        _ => true,
    }
}

/// `ref.eq`: `[r r] -> [i32]` of two references below `eq`, of the same sharedness.
#[inline(never)]
pub fn ref_eq<A: Refused, R: WasmModuleResources>(
    context: OperatorContext<'_, '_, R>,
) -> Result<(), A>
    requires { CanCheck R.context context }
    ensures { Checks R.context A.tells (λ cx. row_operator (ref_eq_row cx)) context.entry result context.exit }
{
    let above = find_below(&context, 0, AbstractHeapType::Eq)?;
    let below = find_below(&context, 1, AbstractHeapType::Eq)?;
    if !is_same_sharedness(context.resources, below, above) {
        return Err(A::of(Refusal::OtherSharedness));
    }
    let own = context.stacks.own_operand_count();
    context
        .stacks
        .replace(own.min(2), MaybeType::Known(ValType::I32))
}

/// `ref.i31`: `[i32] -> [(ref i31)]`.
#[inline(never)]
pub fn ref_i31<A: Refused, R: WasmModuleResources>(
    context: OperatorContext<'_, '_, R>,
) -> Result<(), A>
    requires { CanCheck R.context context }
    ensures { Checks R.context A.tells (λ cx. row_operator (conversion_row i31 ValType.I32)) context.entry
        result context.exit }
{
    unary(context, ValType::I32, ValType::Ref(RefType::I31))
}
