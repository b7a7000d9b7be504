//! Atomic operators on globals, tables, structs and arrays, and `ref.i31_shared` (proposal
//! "shared-everything-threads").
#![tactic(auto, using(crate::proofs::Sets::places))]

ghost use Rattle.std.specs.Prelude.{◌≡◌, ◌≢◌, ◌||◌, true, false, IfOk, OnOk, OnErr, IfErr};
ghost use Rattle.std.specs.List.{AllByRecursion};
ghost use Rattle.validate_resources.specs.Context.{ModuleContext, Valid};
ghost use Rattle.validate_visit.specs.declared.shared.FieldAccess.{FieldAccess};
ghost use Rattle.validate_visit.specs.declared.shared.SharedOp.{SharedOp};
ghost use Rattle.validation_rules.specs.Context.{I32};
ghost use Rattle.validation_rules.specs.Operators.{row_operator, conversion_row};
ghost use Rattle.validation_rules.specs.Shared.{is_accessible, shared_global_row, shared_table_row, shared_struct_row, shared_array_row, shared_i31, shared_row};
ghost use Rattle.validation_rules.specs.Shared as rule;
ghost use Rattle.validation_rules.specs.Structs.{field_value};
ghost use Rattle.validate_stacks.specs.Bodies.{context_of, CanCheck, Checks};
ghost use Rattle.validate_stacks.specs.State.{IsValidBody};
ghost use Rattle.validate_shapes.specs.Operands.{few_types};
ghost use Rattle.validate_rows_gc.specs.Accesses.{AreValidTested, tested_row};

use crate::accesses::{PlaceOperands, expected_by, is_allowed, is_read, name_of, pushed_by};
use validate_resources::WasmModuleResources;
use validate_shapes::aggregates::{
    array_field_at, check_mutable_array, check_mutable_field, packing, struct_field_at,
    type_reference,
};
use validate_shapes::globals::find_global;
use validate_shapes::operands::{Few, Operands, Pushed, exchange_operands};
use validate_shapes::plain::unary;
use validate_shapes::tables::table_type_at;
use validate_stacks::OperatorContext;
use validate_types::{
    AbstractHeapType, FieldType, GlobalType, HeapType, RefType, Refusal, Refused, StorageType,
    ValType,
};
use validate_visit::{Exchange, FieldAccess, FieldIndex, SharedOp, Update};

/// What an operator takes and gives, and whether its place can be accessed so: where it can't, that is tested
/// after the operands.
#[derive(Clone, Copy)]
pub struct TestedOperands {
    /// What it takes.
    pub expected: Few,
    /// What it gives.
    pub pushed: Pushed<'static>,
    /// Whether its place can be accessed so.
    pub allowed: bool,
}

/// What holds a field.
#[derive(Clone, Copy)]
enum Aggregate {
    /// A struct.
    Struct,
    /// An array.
    Array,
}

/// The types that this can be done with, where a value is held as it is.
fn allowed_types(access: FieldAccess) -> &'static str {
    match access {
        FieldAccess::Whole(Update::Rmw(_)) => "`i32` and `i64`",
        FieldAccess::Whole(Update::Value(Exchange::Cmpxchg)) => {
            "`i32`, `i64` and subtypes of `eqref`"
        }
        FieldAccess::Whole(Update::Value(Exchange::Get | Exchange::Set | Exchange::Xchg))
        | FieldAccess::GetPacked(_) => "`i32`, `i64` and subtypes of `anyref`",
    }
}

/// The refusal of a global that doesn't allow this.
#[cold]
#[inline(never)]
fn global_not_allowed<A: Refused>(access: Update) -> A {
    let name = match access {
        Update::Rmw(_) => "rmw.*",
        Update::Value(_) => name_of(FieldAccess::Whole(access)),
    };
    A::of(Refusal::NotAllowed {
        place: "global",
        name,
        types: allowed_types(FieldAccess::Whole(access)),
    })
}

/// The refusal of a table that doesn't allow this.
#[cold]
#[inline(never)]
fn table_not_allowed<A: Refused>(access: Exchange) -> A {
    let types = match access {
        Exchange::Cmpxchg => "subtypes of `eqref`",
        Exchange::Get | Exchange::Set | Exchange::Xchg => "subtypes of `anyref`",
    };
    A::of(Refusal::NotAllowed {
        place: "table",
        name: name_of(FieldAccess::Whole(Update::Value(access))),
        types,
    })
}

/// The refusal of a field that doesn't allow this.
#[cold]
#[inline(never)]
fn field_not_allowed<A: Refused>(aggregate: Aggregate, access: FieldAccess) -> A {
    let place = match aggregate {
        Aggregate::Struct => "struct",
        Aggregate::Array => "array",
    };
    let types = match access {
        FieldAccess::Whole(Update::Value(Exchange::Set)) => {
            "`i8`, `i16`, `i32`, `i64` and subtypes of `anyref`"
        }
        FieldAccess::Whole(
            Update::Value(Exchange::Get | Exchange::Xchg | Exchange::Cmpxchg) | Update::Rmw(_),
        )
        | FieldAccess::GetPacked(_) => allowed_types(access),
    };
    A::of(Refusal::NotAllowed {
        place,
        name: name_of(access),
        types,
    })
}

/// The refusal where what doesn't allow this is known after the operands alone.
fn not_allowed_late<A: Refused>(op: SharedOp) -> A
    requires { op ≢ SharedOp.RefI31Shared }
{
    match op {
        SharedOp::RefI31Shared => unreachable!(),
        SharedOp::Global { access, .. } => global_not_allowed(access),
        SharedOp::Table { access, .. } => table_not_allowed(access),
        SharedOp::Struct { access, .. } => field_not_allowed(Aggregate::Struct, access),
        SharedOp::Array { access, .. } => field_not_allowed(Aggregate::Array, access),
    }
}

/// Whether what is held is tested after the operands: so do `get` and `set`, which are the plain forms with
/// one test more (wasmparser's order).
fn is_tested_late(access: FieldAccess) -> bool {
    matches!(
        access,
        FieldAccess::Whole(Update::Value(Exchange::Get | Exchange::Set))
    )
}

/// The name by which an operator that writes a global is refused.
fn writing_name(access: Update) -> &'static str {
    match access {
        Update::Value(Exchange::Xchg) => "global.atomic.rmw.xchg",
        Update::Value(Exchange::Cmpxchg) => "global.atomic.rmw.cmpxchg",
        Update::Value(_) => "global.set",
        Update::Rmw(_) => "global.atomic.rmw.*",
    }
}

/// A global that is written can be.
fn check_global_written<A: Refused>(access: Update, global: GlobalType) -> Result<(), A>
    ensures passed { OnOk result ((rule.is_read (FieldAccess.Whole access) || global.mutable) ≡ true) }
    ensures refused { OnErr result ((rule.is_read (FieldAccess.Whole access) || global.mutable) ≡ false) }
{
    if is_read(FieldAccess::Whole(access)) || global.mutable {
        Ok(())
    } else {
        Err(A::of(Refusal::ImmutableGlobal(writing_name(access))))
    }
}

/// What an operator on globals takes and gives.
fn global_access_types<A: Refused, R: WasmModuleResources>(
    context: &OperatorContext<'_, '_, R>,
    access: Update,
    global_index: u32,
) -> Result<TestedOperands, A>
    ensures row { IfOk result (λ t. shared_global_row (context_of R.context context.now) access
        global_index ≡ tested_row t) }
    ensures valid { IfOk result (AreValidTested (R.context context.now.resources.now)) }
    ensures refused { IfErr result (λ e. A.tells e → (shared_global_row (context_of R.context context.now) access
        global_index).premise ≡ false) }
{
    let global = find_global(context, global_index)?;
    let whole = FieldAccess::Whole(access);
    check_global_written(access, global)?;
    let value = global.content_type;
    let allowed = is_allowed(context.resources, false, whole, StorageType::Val(value));
    if !allowed && !is_tested_late(whole) {
        return Err(global_not_allowed(access));
    }
    Ok(TestedOperands {
        expected: expected_by(PlaceOperands::Named, whole, value),
        pushed: pushed_by(whole, value),
        allowed,
    })
}

/// What an operator on tables takes and gives.
fn table_access_types<A: Refused, R: WasmModuleResources>(
    context: &OperatorContext<'_, '_, R>,
    access: Exchange,
    table_index: u32,
) -> Result<TestedOperands, A>
    ensures row { IfOk result (λ t. shared_table_row (context_of R.context context.now) access
        table_index ≡ tested_row t) }
    ensures valid { IfOk result (AreValidTested (R.context context.now.resources.now)) }
    ensures refused { IfErr result (λ e. A.tells e → (shared_table_row (context_of R.context context.now) access
        table_index).premise ≡ false) }
{
    let table = table_type_at(context, table_index)?;
    let whole = FieldAccess::Whole(Update::Value(access));
    let value = ValType::Ref(table.element_type);
    let allowed = is_allowed(context.resources, true, whole, StorageType::Val(value));
    if !allowed && !is_tested_late(whole) {
        return Err(table_not_allowed(access));
    }
    Ok(TestedOperands {
        expected: expected_by(PlaceOperands::One(table.index_type()), whole, value),
        pushed: pushed_by(whole, value),
        allowed,
    })
}

/// A field isn't packed where it is read as it is, and is packed where so many bits of it are read.
fn check_packing<A: Refused>(
    aggregate: Aggregate,
    access: FieldAccess,
    held: StorageType,
) -> Result<(), A>
    ensures refused { (md : ModuleContext) → OnErr result (rule.is_allowed md true access held ≡ false) }
{
    let sign = match access {
        FieldAccess::Whole(Update::Value(Exchange::Get)) => None,
        FieldAccess::GetPacked(sign) => Some(sign),
        FieldAccess::Whole(_) => return Ok(()),
    };
    if held.is_packed() == sign.is_some() {
        return Ok(());
    }
    match aggregate {
        Aggregate::Struct => Err(A::of(Refusal::FieldPacking(packing(sign)))),
        Aggregate::Array => Err(A::of(Refusal::ArrayPacking(packing(sign)))),
    }
}

/// A field that is written can be.
fn check_written<A: Refused>(
    aggregate: Aggregate,
    access: FieldAccess,
    held: FieldType,
) -> Result<(), A>
    ensures passed { OnOk result ((rule.is_read access || held.mutable) ≡ true) }
    ensures refused { OnErr result ((rule.is_read access || held.mutable) ≡ false) }
{
    if is_read(access) {
        return Ok(());
    }
    match aggregate {
        Aggregate::Struct => check_mutable_field(held),
        Aggregate::Array => check_mutable_array(held),
    }
}

/// Whether a field can be accessed so, which is refused where it isn't tested after the operands.
fn check_field<A: Refused, R: WasmModuleResources>(
    resources: &R,
    aggregate: Aggregate,
    access: FieldAccess,
    held: FieldType,
) -> Result<bool, A>
    requires { Valid (R.context resources.now) (field_value held) }
    ensures known { IfOk result (λ b. is_accessible (R.context resources.now) true access held ≡ b) }
    ensures refused { OnErr result (is_accessible (R.context resources.now) true access held ≡ false) }
{
    check_packing(aggregate, access, held.element_type)?;
    check_written(aggregate, access, held)?;
    let allowed = is_allowed(resources, true, access, held.element_type);
    if allowed || is_tested_late(access) {
        Ok(allowed)
    } else {
        Err(field_not_allowed(aggregate, access))
    }
}

/// What an operator on structs takes and gives.
fn struct_access_types<A: Refused, R: WasmModuleResources>(
    context: &OperatorContext<'_, '_, R>,
    access: FieldAccess,
    field: FieldIndex,
) -> Result<TestedOperands, A>
    ensures row { IfOk result (λ t. shared_struct_row (context_of R.context context.now) access
        field ≡ tested_row t) }
    ensures valid { IfOk result (AreValidTested (R.context context.now.resources.now)) }
    ensures refused { IfErr result (λ e. A.tells e → (shared_struct_row (context_of R.context context.now) access
        field).premise ≡ false) }
{
    let held = struct_field_at(context, field)?;
    let allowed = check_field(context.resources, Aggregate::Struct, access, held)?;
    let holder = type_reference(context, true, field.struct_type_index)?;
    let value = held.element_type.unpack();
    Ok(TestedOperands {
        expected: expected_by(PlaceOperands::One(holder), access, value),
        pushed: pushed_by(access, value),
        allowed,
    })
}

/// What an atomic access of an array takes and gives.
fn array_access_types<A: Refused, R: WasmModuleResources>(
    context: &OperatorContext<'_, '_, R>,
    access: FieldAccess,
    type_index: u32,
) -> Result<TestedOperands, A>
    ensures row { IfOk result (λ t. shared_array_row (context_of R.context context.now) access
        type_index ≡ tested_row t) }
    ensures valid { IfOk result (AreValidTested (R.context context.now.resources.now)) }
    ensures refused { IfErr result (λ e. A.tells e → (shared_array_row (context_of R.context context.now) access
        type_index).premise ≡ false) }
{
    let held = array_field_at(context, type_index)?;
    let allowed = check_field(context.resources, Aggregate::Array, access, held)?;
    let holder = type_reference(context, true, type_index)?;
    let value = held.element_type.unpack();
    Ok(TestedOperands {
        expected: expected_by(PlaceOperands::Two(holder, ValType::I32), access, value),
        pushed: pushed_by(access, value),
        allowed,
    })
}

/// What an atomic operator takes and gives, by the place that it names.
fn access_types<A: Refused, R: WasmModuleResources>(
    context: &OperatorContext<'_, '_, R>,
    op: SharedOp,
) -> Result<TestedOperands, A>
    requires { op ≢ SharedOp.RefI31Shared }
    ensures row { IfOk result (λ t. shared_row (context_of R.context context.now) op ≡ tested_row t) }
    ensures valid { IfOk result (AreValidTested (R.context context.now.resources.now)) }
    ensures refused { IfErr result (λ e. A.tells e → (shared_row (context_of R.context context.now)
        op).premise ≡ false) }
{
    match op {
        SharedOp::RefI31Shared => unreachable!(),
        SharedOp::Global {
            access,
            global_index,
            ..
        } => global_access_types(context, access, global_index),
        SharedOp::Table {
            access,
            table_index,
            ..
        } => table_access_types(context, access, table_index),
        SharedOp::Struct { access, field, .. } => { struct_access_types(context, access, field) }
        SharedOp::Array {
            access,
            type_index,
            ..
        } => array_access_types(context, access, type_index),
    }
}

/// That pops of these types would pass, the last on top. It refuses as [`OperatorContext::expect_operands`] does.
fn expect_few<A: Refused, R: WasmModuleResources>(
    context: &OperatorContext<'_, '_, R>,
    expected: Few,
) -> Result<(), A>
    requires types { AllByRecursion (Valid (R.context context.now.resources.now)) (few_types expected) }
    requires state { IsValidBody (R.context context.now.resources.now) context.now.stacks.now.body }
{
    match expected {
        Few::Zero => Ok(()),
        Few::One(a) => context.expect_operands(0, &[a]),
        Few::Two(a, b) => context.expect_operands(0, &[a, b]),
        Few::Three(a, b, c) => context.expect_operands(0, &[a, b, c]),
        Few::Four(a, b, c, d) => context.expect_operands(0, &[a, b, c, d]),
        Few::Five(a, b, c, d, e) => context.expect_operands(0, &[a, b, c, d, e]),
    }
}

/// An atomic operator. What its place doesn't allow is refused after operands that aren't there or don't fit.
fn access<A: Refused, R: WasmModuleResources>(
    context: OperatorContext<'_, '_, R>,
    op: SharedOp,
) -> Result<(), A>
    requires visit { CanCheck R.context context }
    requires access { op ≢ SharedOp.RefI31Shared }
    ensures { Checks R.context A.tells (λ cx. row_operator (shared_row cx op)) context.entry result context.exit }
{
    let access = access_types(&context, op)?;
    if access.allowed {
        exchange_operands(context, Operands::few(access.expected, access.pushed))
    } else {
        expect_few(&context, access.expected)?;
        Err(not_allowed_late(op))
    }
}

/// `ref.i31_shared`: `[i32] -> [(ref (shared i31))]`.
fn ref_i31_shared<A: Refused, R: WasmModuleResources>(
    context: OperatorContext<'_, '_, R>,
) -> Result<(), A>
    requires { CanCheck R.context context }
    ensures { Checks R.context A.tells (λ cx. row_operator (conversion_row shared_i31 I32)) context.entry
        result context.exit }
{
    let made = RefType {
        nullable: false,
        heap_type: HeapType::Abstract {
            shared: true,
            ty: AbstractHeapType::I31,
        },
    };
    unary(context, ValType::I32, ValType::Ref(made))
}

/// An operator of shared-everything threads, its gate aside.
#[inline(never)]
pub fn shared_operator<A: Refused, R: WasmModuleResources>(
    context: OperatorContext<'_, '_, R>,
    op: SharedOp,
) -> Result<(), A>
    requires { CanCheck R.context context }
    ensures { Checks R.context A.tells (λ cx. row_operator (shared_row cx op)) context.entry result context.exit }
{
    match op {
        SharedOp::RefI31Shared => ref_i31_shared(context),
        _ => access(context, op),
    }
}
