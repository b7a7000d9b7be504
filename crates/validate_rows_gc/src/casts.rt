//! Casts, tests of casts, and branches by a cast (WebAssembly core specification, "Reference Instructions"
//! and "Control Instructions").
#![tactic(auto, using(crate::proofs::Sets::casts))]

ghost use Rattle.std.specs.Prelude.{◌≡◌, ◌≤◌, true, false, None, Some, IfOk, OnOk, OnErr, IfErr};
ghost use Rattle.validate_resources.specs.Context.{Valid};
ghost use Rattle.validation_rules.specs.Casts.{is_castable, cast_operand, ref_test_row, ref_cast_row, may_cast, cast_branch_row, br_on_cast_row, br_on_cast_fail_row};
ghost use Rattle.validation_rules.specs.Casts as rule;
ghost use Rattle.validation_rules.specs.Operators.{row_operator, staying_operator};
ghost use Rattle.validate_rows_gc.specs.Casts.{branch_row, branch_types, cast_types, MovesBelow};
ghost use Rattle.validate_stacks.specs.Bodies.{context_of, CanCheck, Checks};

use validate_resources::WasmModuleResources;
use validate_resources::uses::laws;
use validate_shapes::canonical::canonical_ref;
use validate_shapes::plain::one_for_one;
use validate_stacks::OperatorContext;
use validate_stacks::blocks::label_types;
use validate_types::{AbstractHeapType, HeapType, MaybeType, RefType, Refusal, Refused, ValType};
use validate_visit::BranchCast;

/// A reference type whose gates are open and whose indices are known, in canonical form (wasmparser's
/// `check_ref_type`).
#[inline(always)]
fn checked_ref<A: Refused, R: WasmModuleResources>(
    context: &OperatorContext<'_, '_, R>,
    ty: RefType,
) -> Result<RefType, A>
    ensures found { IfOk result (λ r. rule.checked_ref (context_of R.context context.now) ty ≡ Some r) }
    ensures valid { IfOk result (λ r. Valid (R.context context.now.resources.now) (ValType.Ref r)) }
    ensures refused { IfErr result (λ e. A.tells e → rule.checked_ref (context_of R.context context.now)
        ty ≡ None) }
{
    if let Err(text) = context.stacks.features().check_ref_type(ty) {
        return Err(A::of(Refusal::ReferenceOff(text)));
    }
    canonical_ref(context.resources, ty)
}

/// Refuses a type that no cast leads to (wasmparser's `check_cast_to_allowed`).
#[inline(always)]
fn check_castable<A: Refused, R: WasmModuleResources>(resources: &R, ty: RefType) -> Result<(), A>
    requires { Valid (R.context resources.now) (ValType.Ref ty) }
    ensures passed { OnOk result (is_castable (R.context resources.now) ty ≡ true) }
    ensures refused { OnErr result (is_castable (R.context resources.now) ty ≡ false) }
{
    match resources.top_type(&ty.heap_type()) {
        HeapType::Abstract {
            ty: AbstractHeapType::Cont,
            ..
        } => Err(A::of(Refusal::CastToContinuation)),
        _ => Ok(()),
    }
}

/// The type of a test or a cast to a heap type, which may be cast to (wasmparser's `check_downcast`).
#[inline(always)]
pub fn cast_type<A: Refused, R: WasmModuleResources>(
    context: &OperatorContext<'_, '_, R>,
    nullable: bool,
    heap_type: HeapType,
) -> Result<RefType, A>
    ensures found { IfOk result (λ r. rule.cast_type (context_of R.context context.now) nullable
        heap_type ≡ Some r) }
    ensures valid { IfOk result (λ r. Valid (R.context context.now.resources.now) (ValType.Ref r)) }
    ensures refused { IfErr result (λ e. A.tells e → rule.cast_type (context_of R.context context.now) nullable
        heap_type ≡ None) }
{
    let Some(ty) = RefType::new(nullable, heap_type) else {
        return Err(A::of(Refusal::TypeIndexTooLarge));
    };
    let checked = checked_ref(context, ty)?;
    check_castable(context.resources, checked)?;
    Ok(checked)
}

/// What is tested or cast: any reference of the hierarchy, or null.
#[inline(always)]
pub fn operand_of_cast<R: WasmModuleResources>(resources: &R, ty: RefType) -> ValType
    requires { Valid (R.context resources.now) (ValType.Ref ty) }
    ensures exact { result ≡ cast_operand (R.context resources.now) ty }
    ensures valid { Valid (R.context resources.now) result }
{
    laws(resources);
    ValType::Ref(RefType {
        nullable: true,
        heap_type: resources.top_type(&ty.heap_type()),
    })
}

/// `ref.test`: `[(ref null top)] -> [i32]`, with the top type of the hierarchy of the type tested.
#[inline(never)]
pub fn ref_test<A: Refused, R: WasmModuleResources>(
    context: OperatorContext<'_, '_, R>,
    nullable: bool,
    heap_type: &HeapType,
) -> Result<(), A>
    requires { CanCheck R.context context }
    ensures { Checks R.context A.tells (λ cx. row_operator (ref_test_row cx nullable heap_type.now)) context.entry
        result context.exit }
{
    let ty = cast_type(&context, nullable, *heap_type)?;
    let operand = operand_of_cast(context.resources, ty);
    one_for_one(context, operand, ValType::I32)
}

/// `ref.cast`: `[(ref null top)] -> [t]`, with the top type of the hierarchy of the type t cast to.
#[inline(never)]
pub fn ref_cast<A: Refused, R: WasmModuleResources>(
    context: OperatorContext<'_, '_, R>,
    nullable: bool,
    heap_type: &HeapType,
) -> Result<(), A>
    requires { CanCheck R.context context }
    ensures { Checks R.context A.tells (λ cx. row_operator (ref_cast_row cx nullable heap_type.now)) context.entry
        result context.exit }
{
    let ty = cast_type(&context, nullable, *heap_type)?;
    let operand = operand_of_cast(context.resources, ty);
    one_for_one(context, operand, ValType::Ref(ty))
}

/// Whether both are one abstract type, as top types are.
fn is_same_top(a: HeapType, b: HeapType) -> bool
    ensures { result ≡ rule.is_same_top a b }
{
    match (a, b) {
        (
            HeapType::Abstract { shared, ty },
            HeapType::Abstract {
                shared: shared_too,
                ty: other,
            },
        ) => shared == shared_too && (ty.is_subtype_of(other) && other.is_subtype_of(ty)),
        _ => false,
    }
}

/// Refuses a cast to a type that doesn't lie below the one cast from, or, where references can be exact, is of
/// another hierarchy; and one that no cast leads to (wasmparser's `check_br_on_cast_type_hierarchy`).
fn check_may_cast<A: Refused, R: WasmModuleResources>(
    context: &OperatorContext<'_, '_, R>,
    from: RefType,
    to: RefType,
) -> Result<(), A>
    requires from { Valid (R.context context.now.resources.now) (ValType.Ref from) }
    requires to { Valid (R.context context.now.resources.now) (ValType.Ref to) }
    ensures passed { OnOk result (may_cast (context_of R.context context.now) from to ≡ true) }
    ensures refused { OnErr result (may_cast (context_of R.context context.now) from to ≡ false) }
{
    check_castable(context.resources, to)?;
    if context.stacks.features().custom_descriptors() {
        let from_top = context.resources.top_type(&from.heap_type());
        let to_top = context.resources.top_type(&to.heap_type());
        if is_same_top(from_top, to_top) {
            Ok(())
        } else {
            Err(A::of(Refusal::OtherHierarchy { from, into: to }))
        }
    } else if context
        .resources
        .is_subtype(ValType::Ref(to), ValType::Ref(from))
    {
        Ok(())
    } else {
        Err(A::of(Refusal::CastNotBelow { from, into: to }))
    }
}

/// Both types of a branch by a cast, in canonical form; the one may be cast to the other.
pub fn checked_cast<A: Refused, R: WasmModuleResources>(
    context: &OperatorContext<'_, '_, R>,
    cast: BranchCast,
) -> Result<(RefType, RefType), A>
    ensures found { IfOk result (λ p. rule.checked_cast (context_of R.context context.now) cast ≡ Some p) }
    ensures from { IfOk result (λ p. Valid (R.context context.now.resources.now) (ValType.Ref p.0)) }
    ensures to { IfOk result (λ p. Valid (R.context context.now.resources.now) (ValType.Ref p.1)) }
    ensures refused { IfErr result (λ e. A.tells e → rule.checked_cast (context_of R.context context.now)
        cast ≡ None) }
{
    let from = checked_ref(context, cast.from_ref_type)?;
    let to = checked_ref(context, cast.to_ref_type)?;
    check_may_cast(context, from, to)?;
    Ok((from, to))
}

/// A branch by a cast: which of the two it is.
#[derive(Clone, Copy)]
pub(crate) enum CastBranch {
    /// `br_on_cast`, taken where the operand is of the type cast to.
    OnCast,
    /// `br_on_cast_fail`, taken where it isn't.
    OnCastFail,
}

/// The types of a branch by a cast.
#[derive(Clone, Copy)]
struct CastTypes {
    /// That of the operand.
    from: RefType,
    /// What is carried to the label.
    carried: RefType,
    /// What is left where the branch isn't taken.
    left: RefType,
}

impl CastBranch {
    /// Its types, by those of the cast.
    #[inline(always)]
    fn types(self, cast: (RefType, RefType)) -> CastTypes
        ensures { cast_types result ≡ branch_types self cast }
    {
        let (from, to) = cast;
        let rest = RefType::difference(from, to);
        match self {
            CastBranch::OnCast => CastTypes {
                from,
                carried: to,
                left: rest,
            },
            CastBranch::OnCastFail => CastTypes {
                from,
                carried: rest,
                left: to,
            },
        }
    }

    /// The types of its label but the last, and the last.
    #[inline(always)]
    fn last_type<A: Refused>(self, types: &[ValType]) -> Result<(&[ValType], ValType), A>
        ensures found { IfOk result (λ p. rule.split_last types.now ≡ Some (p.0.now, p.1)) }
        ensures refused { OnErr result (rule.split_last types.now ≡ None) }
    {
        match types.split_last() {
            Some((last, others)) => Ok((others, *last)),
            None => Err(A::of(match self {
                CastBranch::OnCast => Refusal::CastLabelEmpty,
                CastBranch::OnCastFail => Refusal::CastFailLabelEmpty,
            })),
        }
    }

    /// Refuses a label whose last type doesn't lie above what is carried there.
    #[inline(always)]
    fn check_carried<A: Refused, R: WasmModuleResources>(
        self,
        resources: &R,
        label: ValType,
        carried: RefType,
    ) -> Result<(), A>
        requires label { Valid (R.context resources.now) label }
        requires carried { Valid (R.context resources.now) (ValType.Ref carried) }
        ensures passed { OnOk result ((R.context resources.now).below (ValType.Ref carried) label ≡ true) }
        ensures refused { OnErr result ((R.context resources.now).below (ValType.Ref carried) label ≡ false) }
    {
        if resources.is_subtype(ValType::Ref(carried), label) {
            return Ok(());
        }
        Err(A::of(match self {
            CastBranch::OnCast => Refusal::CastLabel { label, carried },
            CastBranch::OnCastFail => Refusal::CastFailLabel { label, carried },
        }))
    }
}

/// A branch by a cast of types that are checked, below so many operands, which go too: `[t from] -> [t left]`, with the
/// types t of the label but its last, which lies above what is carried there.
#[inline(always)]
pub(crate) fn cast_branch<A: Refused, R: WasmModuleResources>(
    context: OperatorContext<'_, '_, R>,
    above: usize,
    branch: CastBranch,
    relative_depth: u32,
    cast: (RefType, RefType),
) -> Result<(), A>
    requires visit { CanCheck R.context context }
    requires above { above ≤ 1 }
    requires from { Valid (R.context context.resources.now) (ValType.Ref cast.0) }
    requires to { Valid (R.context context.resources.now) (ValType.Ref cast.1) }
    ensures { MovesBelow (R.context context.entry.resources.now) A.tells above
        (λ cx. staying_operator (λ hs. cast_branch_row cx hs relative_depth (branch_types branch cast)))
        context.entry.stacks.now result context.exit.0.now }
{
    let (block_type, kind) = context.stacks.find_label(relative_depth)?;
    let types = label_types(context.resources, &block_type, kind);
    let (others, last) = branch.last_type(types)?;
    let cast = branch.types(cast);
    branch.check_carried(context.resources, last, cast.carried)?;
    context.expect_with_top(above, others, ValType::Ref(cast.from))?;
    let popped = context
        .stacks
        .own_operand_count()
        .min(others.len() + 1 + above);
    context
        .stacks
        .exchange_topped(popped, others, MaybeType::Known(ValType::Ref(cast.left)))
}

/// A branch by a cast: what is carried to the label is of the type cast to, or isn't.
#[inline(always)]
fn branch_by_cast<A: Refused, R: WasmModuleResources>(
    context: OperatorContext<'_, '_, R>,
    branch: CastBranch,
    cast: BranchCast,
) -> Result<(), A>
    requires { CanCheck R.context context }
    ensures { Checks R.context A.tells (λ cx. staying_operator (λ hs. branch_row branch cx hs cast)) context.entry
        result context.exit }
{
    let types = checked_cast(&context, cast)?;
    cast_branch(context, 0, branch, cast.relative_depth, types)
}

/// `br_on_cast`: `[t from] -> [t left]`, with the types t of the label but its last. What is cast is carried
/// to the label, and goes on without what it was cast to.
#[inline(never)]
pub fn br_on_cast<A: Refused, R: WasmModuleResources>(
    context: OperatorContext<'_, '_, R>,
    cast: &BranchCast,
) -> Result<(), A>
    requires { CanCheck R.context context }
    ensures { Checks R.context A.tells (λ cx. staying_operator (λ hs. br_on_cast_row cx hs cast.now))
        context.entry result context.exit }
{
    branch_by_cast(context, CastBranch::OnCast, *cast)
}

/// `br_on_cast_fail`: `[t from] -> [t to]`, with the types t of the label but its last. What isn't cast is
/// carried to the label.
#[inline(never)]
pub fn br_on_cast_fail<A: Refused, R: WasmModuleResources>(
    context: OperatorContext<'_, '_, R>,
    cast: &BranchCast,
) -> Result<(), A>
    requires { CanCheck R.context context }
    ensures { Checks R.context A.tells (λ cx. staying_operator (λ hs. br_on_cast_fail_row cx hs cast.now))
        context.entry result context.exit }
{
    branch_by_cast(context, CastBranch::OnCastFail, *cast)
}
