//! The operators of a body, which are read and handed to its validator one by one.

ghost use Rattle.std.specs.Prelude.{◌≡◌, ◌≢◌, ℕ, ◌-◌, List, [], length, true, false, Ok, Some, None, OnOk, IfOk, OnErr, IfErr, IfSome, IsSome};
ghost use Rattle.binary_operators.specs.Functions.{locals};
ghost use Rattle.binary_operators.specs.Vectors.{IsNoVector};
ghost use Rattle.validate_stacks.specs.State.{BodyState, IsStarting, body_context};
ghost use Rattle.validate_stacks.specs.Visits.{step_body, MayVisit, Meets};
ghost use Rattle.validation_rules.specs.Static.{RowFails};
ghost use Rattle.validation_rules.specs.Operators.{operator};
ghost use Rattle.validate_operators.specs.Validator.{state, stacks_of};
ghost use Rattle.module_check.specs.Begin.{DefinesGroup, DefinesRead};
ghost use Rattle.module_check.specs.Constant.{may_stand};
ghost use Rattle.module_check.specs.Faults.{IsFault, ReachFault, end_of};
ghost use Rattle.module_check.specs.Refusals.{IsRefusal, IsInvalid, IsRefusedFor, IsVector, error_offset};
ghost use Rattle.module_check.specs.Safe.{AreSafeOperators};
ghost use Rattle.module_check.specs.Turns.{IsTurn};

use crate::body::BodyContext;
use crate::common::{Turn, common_turn};
use crate::expression::check_constant_operators;
use crate::told::passes_told;
use crate::verdict::CheckError;
use binary_operators::{
    BinaryReader, CanonicalTypes, OperatorLists, ReadError, read_operator_into, read_value_type,
};
use validate_operators::OperatorValidator;
use validate_resources::WasmModuleResources;
use validate_types::ValType;
use validate_visit::{NumericOp, Op};

/// Reads a group of locals: how many there are, and of which type.
#[tactic(auto, unfolding(binary_operators::specs::Functions::locals))]
pub(crate) fn read_group(
    reader: &mut BinaryReader<'_>,
    canonical: CanonicalTypes<'_>,
) -> Result<(u32, ValType), ReadError>
    ensures read { IfOk result (λ group. locals canonical.entry reader.old.left
        ≡ Some (group, reader.new.left)) }
    ensures refused { OnErr result (locals canonical.entry reader.old.left ≡ None) }
    ensures covered { IfErr result IsNoVector }
{
    let count = reader.read_var_u32()?;
    let ty = read_value_type(reader, canonical)?;
    Ok((count, ty))
}

/// Reads a group of locals, and defines them in a body that starts.
fn define_group<R: WasmModuleResources>(
    v: &mut OperatorValidator,
    resources: &R,
    reader: &mut BinaryReader<'_>,
    canonical: CanonicalTypes<'_>,
) -> Result<(), CheckError>
    requires { IsStarting (R.context resources.now) (state v.old) }
    ensures starting { OnOk result (IsStarting (R.context resources.now) (state v.new)) }
    ensures defined { OnOk result (DefinesGroup (R.context resources.now) canonical.entry reader.old.left
        reader.new.left (state v.old) (state v.new)) }
    ensures refused { IfErr result (λ e. IsRefusal e → (rest : List ℕ) → (w : BodyState)
        → ¬ DefinesGroup (R.context resources.now) canonical.entry reader.old.left rest (state v.old) w) }
    ensures covered { IfErr result (λ e. ¬ IsVector e) }
{
    let offset = reader.offset();
    let group = read_group(reader, canonical)?;
    v.define_locals(offset, group.0, group.1, resources)?;
    Ok(())
}

/// Reads the locals of a function, and defines them in its body, which starts.
#[tactic(auto, unfolding(binary_operators::specs::Values::list_of))]
pub(crate) fn define_locals<R: WasmModuleResources>(
    v: &mut OperatorValidator,
    resources: &R,
    reader: &mut BinaryReader<'_>,
    canonical: CanonicalTypes<'_>,
) -> Result<(), CheckError>
    requires { IsStarting (R.context resources.now) (state v.old) }
    ensures starting { OnOk result (IsStarting (R.context resources.now) (state v.new)) }
    ensures defined { OnOk result (DefinesRead (R.context resources.now) canonical.entry reader.old.left
        reader.new.left (state v.old) (state v.new)) }
    ensures refused { IfErr result (λ e. IsRefusal e → (rest : List ℕ) → (w : BodyState)
        → ¬ DefinesRead (R.context resources.now) canonical.entry reader.old.left rest (state v.old) w) }
    ensures covered { IfErr result (λ e. ¬ IsVector e) }
{
    let groups = reader.read_var_u32()?;
    for _ in 0..groups {
        define_group(v, resources, reader, canonical)?;
    }
    Ok(())
}

/// The offset behind what is left to read.
pub(crate) fn end_of(code: &BinaryReader<'_>) -> u64
    ensures { result ≡ end_of code.now }
{
    code.behind(code.bytes_left()).offset()
}

/// A body that is being checked.
#[derive(Drop)]
pub(crate) struct OpenBody<'b, 'm, R> {
    /// What it is checked in.
    pub(crate) context: &'b BodyContext<'m, R>,
    /// The offset behind it.
    pub(crate) end: u64,
}

impl<R> OpenBody<'_, '_, R> {
    /// The offset of what is left of it to read here. It is told by the end of the body: a contract says what a read
    /// leaves, and not where that stands.
    #[inline(always)]
    pub(crate) fn offset_of(&self, reader: &BinaryReader<'_>) -> u64
        ensures { result ≡ self.now.end - length reader.now.left }
    {
        self.end.saturating_sub(reader.bytes_left() as u64)
    }
}

/// The refusal of a body whose operators end while a frame is open, at this offset.
pub(crate) fn unclosed(offset: u64) -> CheckError
    ensures invalid { IsInvalid result }
    ensures offset { error_offset result ≡ offset }
{
    CheckError::refused(
        "control frames remain at end of function body or expression",
        offset,
    )
}

/// Reads an operator, and answers whether it is accepted. Where it can't be read, or isn't accepted, or none is left, the
/// place that is lent holds why.
#[inline(never)]
fn is_any_accepted<R: WasmModuleResources>(
    v: &mut OperatorValidator,
    body: &OpenBody<'_, '_, R>,
    reader: &mut BinaryReader<'_>,
    lists: &mut OperatorLists,
    refusal: &mut Option<CheckError>,
) -> bool
    requires { MayVisit (R.context body.now.context.now.resources.now) (stacks_of v.old) }
    ensures turn { result ≡ true → IsTurn (R.context body.now.context.now.resources.now) body.now.context.now.types
        reader.old.left reader.new.left (state v.old) (state v.new) }
    ensures untold { result ≡ true → refusal.new ≡ refusal.old }
    ensures told { result ≡ false → IsSome refusal.new }
    ensures fault { result ≡ false → IfSome refusal.new (IsFault
        (body_context (R.context body.now.context.now.resources.now) (state v.old)) body.now.context.now.types
        (may_stand None) body.now.end (state v.old).present reader.old.left) }
{
    let offset = body.offset_of(reader);
    if reader.is_at_end() {
        *refusal = Some(unclosed(offset));
        return false;
    }
    let mut op = Op::Numeric(NumericOp::I32Const(0));
    if let Err(error) = read_operator_into(reader, &body.context.types, lists, &mut op) {
        *refusal = Some(CheckError::Unread(error));
        return false;
    }
    is_accepted(v, body.context.resources, offset, &op, refusal)
}

/// [`is_any_accepted`], which tries first whether the first byte tells how the operator is read.
#[inline(always)]
fn is_read_accepted<R: WasmModuleResources>(
    v: &mut OperatorValidator,
    body: &OpenBody<'_, '_, R>,
    reader: &mut BinaryReader<'_>,
    lists: &mut OperatorLists,
    refusal: &mut Option<CheckError>,
) -> bool
    requires { MayVisit (R.context body.now.context.now.resources.now) (stacks_of v.old) }
    ensures turn { result ≡ true → IsTurn (R.context body.now.context.now.resources.now) body.now.context.now.types
        reader.old.left reader.new.left (state v.old) (state v.new) }
    ensures untold { result ≡ true → refusal.new ≡ refusal.old }
    ensures told { result ≡ false → IsSome refusal.new }
    ensures fault { result ≡ false → IfSome refusal.new (IsFault
        (body_context (R.context body.now.context.now.resources.now) (state v.old)) body.now.context.now.types
        (may_stand None) body.now.end (state v.old).present reader.old.left) }
{
    passes_told(v, body.context.resources, reader)
        || is_any_accepted(v, body, reader, lists, refusal)
}

/// [`is_read_accepted`] by another reader, so that this one needn't lie in memory. It is a function of its own, since what a
/// function declares is cleared where it begins.
#[inline(always)]
fn is_lent_accepted<R: WasmModuleResources>(
    v: &mut OperatorValidator,
    body: &OpenBody<'_, '_, R>,
    reader: &mut BinaryReader<'_>,
    lists: &mut OperatorLists,
    refusal: &mut Option<CheckError>,
) -> bool
    requires { MayVisit (R.context body.now.context.now.resources.now) (stacks_of v.old) }
    ensures turn { result ≡ true → IsTurn (R.context body.now.context.now.resources.now) body.now.context.now.types
        reader.old.left reader.new.left (state v.old) (state v.new) }
    ensures untold { result ≡ true → refusal.new ≡ refusal.old }
    ensures told { result ≡ false → IsSome refusal.new }
    ensures fault { result ≡ false → IfSome refusal.new (IsFault
        (body_context (R.context body.now.context.now.resources.now) (state v.old)) body.now.context.now.types
        (may_stand None) body.now.end (state v.old).present reader.old.left) }
{
    let mut lent = reader.duplicate();
    let is_accepted = is_read_accepted(v, body, &mut lent, lists, refusal);
    *reader = lent.duplicate();
    is_accepted
}

/// Reads the next operator, and answers whether it is accepted and a frame is open behind it. Where it isn't accepted, the
/// place that is lent holds why. One of those that most code is made of is tried first. The lookup is handed in, so that it
/// isn't looked up for each.
#[inline(always)]
fn is_open_behind<R: WasmModuleResources>(
    v: &mut OperatorValidator,
    resources: &R,
    body: &OpenBody<'_, '_, R>,
    reader: &mut BinaryReader<'_>,
    lists: &mut OperatorLists,
    refusal: &mut Option<CheckError>,
) -> bool
    requires visit { MayVisit (R.context body.now.context.now.resources.now) (stacks_of v.old) }
    requires same { resources.now ≡ body.now.context.now.resources.now }
    requires untold { refusal.old ≡ None }
    ensures untold { result ≡ true → refusal.new ≡ None }
    ensures turn { refusal.new ≡ None → IsTurn (R.context body.now.context.now.resources.now)
        body.now.context.now.types reader.old.left reader.new.left (state v.old) (state v.new) }
    ensures open { result ≡ true → (state v.new).present.frames ≢ [] }
    ensures closed { result ≡ false → refusal.new ≡ None → (state v.new).present.frames ≡ [] }
    ensures fault { IfSome refusal.new (IsFault
        (body_context (R.context body.now.context.now.resources.now) (state v.old)) body.now.context.now.types
        (may_stand None) body.now.end (state v.old).present reader.old.left) }
{
    match common_turn(v, resources, reader) {
        Turn::Open => true,
        Turn::Closed => false,
        Turn::NotPassed => {
            is_lent_accepted(v, body, reader, lists, refusal) && v.control_stack_height() > 0
        }
    }
}

/// [`check_operators`] of a function, in which any operator may stand.
fn check_function_operators<R: WasmModuleResources>(
    v: &mut OperatorValidator,
    body: &OpenBody<'_, '_, R>,
    code: &BinaryReader<'_>,
    lists: &mut OperatorLists,
) -> Result<(), CheckError>
    requires { IsStarting (R.context body.now.context.now.resources.now) (state v.old) }
    ensures accepted { OnOk result (AreSafeOperators (R.context body.now.context.now.resources.now) body.now.context.now.types
        (may_stand None) (state v.old) code.now.left) }
    ensures fault { IfErr result (ReachFault (R.context body.now.context.now.resources.now) body.now.context.now.types
        (may_stand None) body.now.end (state v.old) code.now.left) }
{
    let mut refusal = None;
    let resources = body.context.resources;
    let mut reader = code.duplicate();
    while is_open_behind(v, resources, body, &mut reader, lists, &mut refusal) {}
    match refusal {
        Some(error) => Err(error),
        None => {
            let end = body.offset_of(&reader);
            check_end(reader, end)
        }
    }
}

/// Reads operators up to the end of the bytes, and checks each by the validator of their body, which starts.
/// It refuses what their reads refuse; what the validator refuses; an operator behind the one that closes the
/// body; in a constant expression, one that isn't constant; and, at the end, a body that is open.
pub(crate) fn check_operators<R: WasmModuleResources>(
    v: &mut OperatorValidator,
    body: &OpenBody<'_, '_, R>,
    reader: &mut BinaryReader<'_>,
    lists: &mut OperatorLists,
) -> Result<(), CheckError>
    requires { IsStarting (R.context body.now.context.now.resources.now) (state v.old) }
    ensures accepted { OnOk result (AreSafeOperators (R.context body.now.context.now.resources.now) body.now.context.now.types
        (may_stand body.now.context.now.constant) (state v.old) reader.old.left) }
    ensures fault { IfErr result (ReachFault (R.context body.now.context.now.resources.now) body.now.context.now.types
        (may_stand body.now.context.now.constant) body.now.end (state v.old) reader.old.left) }
{
    match body.context.constant {
        None => check_function_operators(v, body, reader, lists),
        Some(place) => check_constant_operators(v, body, reader, lists, place),
    }
}

/// [`is_accepted`] of an operator that doesn't pass at once.
#[inline(never)]
fn is_accepted_by_check<R: WasmModuleResources>(
    v: &mut OperatorValidator,
    resources: &R,
    offset: u64,
    op: &Op,
    refusal: &mut Option<CheckError>,
) -> bool
    requires { MayVisit (R.context resources.now) (stacks_of v.old) }
    ensures row { result ≡ true → Meets (R.context resources.now) (λ cx. operator cx op.now) offset (state v.old)
        (Ok tt) (state v.new) }
    ensures untold { result ≡ true → refusal.new ≡ refusal.old }
    ensures told { result ≡ false → IsSome refusal.new }
    ensures refused { result ≡ false → IfSome refusal.new (IsRefusedFor
        (RowFails (step_body (R.context resources.now) (λ cx. operator cx op.now) (state v.old))) offset) }
{
    match v.check_slowly(resources, offset, op) {
        Ok(()) => true,
        Err(error) => {
            *refusal = Some(CheckError::Refused(error));
            false
        }
    }
}

/// Whether an operator is accepted. Where it isn't, the place that is lent holds why: an answer that is handed back would be
/// written for each operator.
#[inline(always)]
fn is_accepted<R: WasmModuleResources>(
    v: &mut OperatorValidator,
    resources: &R,
    offset: u64,
    op: &Op,
    refusal: &mut Option<CheckError>,
) -> bool
    requires { MayVisit (R.context resources.now) (stacks_of v.old) }
    ensures row { result ≡ true → Meets (R.context resources.now) (λ cx. operator cx op.now) offset (state v.old)
        (Ok tt) (state v.new) }
    ensures untold { result ≡ true → refusal.new ≡ refusal.old }
    ensures told { result ≡ false → IsSome refusal.new }
    ensures refused { result ≡ false → IfSome refusal.new (IsRefusedFor
        (RowFails (step_body (R.context resources.now) (λ cx. operator cx op.now) (state v.old))) offset) }
{
    if v.passes_at_once(resources, op) {
        return true;
    }
    is_accepted_by_check(v, resources, offset, op, refusal)
}

/// Whether nothing is left behind the operator that closes a body, at this offset. It refuses any byte that is, without
/// reading it: no operator makes such a body valid.
pub(crate) fn check_end(rest: BinaryReader<'_>, offset: u64) -> Result<(), CheckError>
    ensures ended { OnOk result (rest.entry.left ≡ []) }
    ensures refused { OnErr result (rest.entry.left ≢ []) }
    ensures invalid { IfErr result IsInvalid }
    ensures offset { IfErr result (λ e. error_offset e ≡ offset) }
{
    if rest.is_at_end() {
        return Ok(());
    }
    Err(CheckError::refused("operators remaining after end of function", offset))
}
