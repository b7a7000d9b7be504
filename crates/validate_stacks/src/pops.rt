//! Whether an operand fits what is expected.

ghost use Rattle.std.specs.Prelude.{◌≡◌, true, false, None, Some};
ghost use Rattle.std.specs.Option.{ForSome};
ghost use Rattle.validate_resources.specs.Context.{Valid};
ghost use Rattle.validate_types.specs.Refs.{non_null_reference};
ghost use Rattle.validation_rules.specs.Fits.{Known, UnknownRef, fits};
ghost use Rattle.validation_rules.specs.Valid.{IsValidOperand};
ghost use Rattle.validate_stacks.specs.State.{body_context};
ghost use Rattle.validate_stacks.specs.Names.{place_of, type_name};
ghost use Rattle.validate_stacks.specs.Pops.{may_pop, FitsAtOnce};

use crate::stacks::Stacks;
use validate_resources::WasmModuleResources;
use validate_types::{AbstractHeapType, HeapType, MaybeType, Operand, RefType, ValType};

/// The name of a type in a refusal (wasmparser's `ty_to_str`).
pub fn ty_to_str(ty: ValType) -> &'static str
    ensures { result.now ≡ type_name ty }
{
    match ty {
        ValType::I32 => "i32",
        ValType::I64 => "i64",
        ValType::F32 => "f32",
        ValType::F64 => "f64",
        ValType::V128 => "v128",
        ValType::Ref(ty) => ty.wat(),
    }
}

/// An unknown reference of which this abstract type is known, with the sharedness of the expected one.
pub(crate) fn unknown_reference<R: WasmModuleResources>(
    resources: &R,
    ty: AbstractHeapType,
    expected: RefType,
) -> ValType
    requires { Valid (R.context resources.now) (ValType.Ref expected) }
    ensures { result ≡ ValType.Ref (non_null_reference
        (HeapType.Abstract ((R.context resources.now).is_shared expected) ty)) }
{
    let shared = resources.is_shared(expected);
    ValType::Ref(RefType {
        nullable: false,
        heap_type: HeapType::Abstract { shared, ty },
    })
}

/// The fast lane of [`Stacks::is_fitting`]: whether this operand isn't known at all, or is the expected number
/// or vector type.
#[inline(always)]
pub(crate) fn fits_at_once(found: Operand, expected: ValType) -> bool
    ensures { result ≡ true → FitsAtOnce found (Some expected) }
{
    found.is_bottom() || found.is_number(expected)
}

/// The fast lane of [`ValType::eq`]: whether this is twice the same number or vector type.
#[inline(always)]
pub(crate) fn is_same_number(found: ValType, expected: ValType) -> bool
    ensures { result ≡ true → found ≡ expected }
{
    let place = place_of(expected);
    place < 5 && place_of(found) == place
}

/// The fast lane of [`ValType::eq`] compares these: the place of a number or vector type among them, from 0;
/// 5 for every reference.
#[inline(always)]
fn place_of(ty: ValType) -> u8
    ensures { result ≡ place_of ty }
{
    match ty {
        ValType::I32 => 0,
        ValType::I64 => 1,
        ValType::F32 => 2,
        ValType::F64 => 3,
        ValType::V128 => 4,
        ValType::Ref(_) => 5,
    }
}

impl Stacks {
    /// Whether this operand fits the expected type, by the order of types.
    #[inline(always)]
    pub(crate) fn is_fitting<R: WasmModuleResources>(
        &self,
        resources: &R,
        found: MaybeType,
        expected: ValType,
    ) -> bool
        requires expected { Valid (R.context resources.now) expected }
        requires found { IsValidOperand (R.context resources.now) found }
        ensures { result ≡ may_pop (body_context (R.context resources.now) self.now.body) (Some found)
            (Some expected) }
    {
        match found {
            MaybeType::Bottom => true,
            MaybeType::UnknownRef(ty) => self.is_unknown_fitting(resources, ty, expected),
            MaybeType::Known(ty) => resources.is_subtype(ty, expected),
        }
    }

    /// Whether an unknown reference, of which an abstract type may be known, fits the expected type: with
    /// the sharedness of that.
    fn is_unknown_fitting<R: WasmModuleResources>(
        &self,
        resources: &R,
        found: Option<AbstractHeapType>,
        expected: ValType,
    ) -> bool
        requires { Valid (R.context resources.now) expected }
        ensures { result ≡ fits (body_context (R.context resources.now) self.now.body) (UnknownRef found)
            expected }
    {
        let ValType::Ref(reference) = expected else {
            return false;
        };
        let Some(ty) = found else {
            return true;
        };
        resources.is_subtype(unknown_reference(resources, ty, reference), expected)
    }
}
