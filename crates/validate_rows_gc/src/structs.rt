//! Operators on structs (WebAssembly core specification, "Aggregate Instructions").
#![tactic(auto, using(validate_shapes::proofs::KnownRows::known_rows))]

ghost use Rattle.std.specs.Prelude.{◌≡◌, [], ◌∷◌, true, false, None, Some, is_none, OnOk, OnErr, IfOk, IfErr};
ghost use Rattle.std.specs.List.{list_all, AllByRecursion};
ghost use Rattle.std.specs.Option.{option_map};
ghost use Rattle.validate_resources.specs.Context.{Valid};
ghost use Rattle.validate_types.specs.Types.{is_defaultable, unpacked_fields};
ghost use Rattle.validation_rules.specs.Operators.{row_operator};
ghost use Rattle.validation_rules.specs.Descriptors as rule;
ghost use Rattle.validation_rules.specs.Rows.{guard};
ghost use Rattle.validation_rules.specs.Structs.{struct_type, struct_row, struct_new_row, struct_new_default_row};
ghost use Rattle.validation_rules.specs.Structs.{struct_new_desc_row, struct_new_default_desc_row};
ghost use Rattle.validation_rules.specs.Structs.{struct_read_row, struct_set_row};
ghost use Rattle.validation_rules.specs.Structs.{is_packed_field, is_whole_field};
ghost use Rattle.validate_stacks.specs.Bodies.{context_of, CanCheck, Checks};
ghost use Rattle.validate_stacks.specs.Pops.{has_operands_fitting};
ghost use Rattle.validate_stacks.specs.Steps.{found_in_body};
ghost use Rattle.validate_shapes.specs.Operands.{Finds};
ghost use Rattle.validate_visit.specs.declared.op.StructOp.{StructOp};
ghost use Rattle.validate_rows_gc.specs.Descriptors.{found_new_descriptor, defaults_row};

use validate_resources::WasmModuleResources;
use validate_shapes::aggregates::{
    allocated_reference, check_mutable_field, descriptor_at, packing, struct_field_at,
    struct_type_at, type_reference,
};
use validate_shapes::operands::{Expected, Few, Operands, Pushed, exchange_found};
use validate_stacks::OperatorContext;
use validate_types::{FieldType, RefType, Refusal, Refused, StructType, ValType};
use validate_visit::{FieldIndex, Sign, StructOp};

/// Refuses the first field without a default value, whichever operator asks, as `struct.new_default` does: ``invalid
/// `struct.new_default`: T field is not defaultable``.
#[inline(always)]
fn check_defaultable<A: Refused>(fields: &[FieldType]) -> Result<(), A>
    ensures passed { OnOk result (list_all is_defaultable (unpacked_fields fields.now) ≡ true) }
    ensures refused { OnErr result (list_all is_defaultable (unpacked_fields fields.now) ≡ false) }
{
    let mut rest = fields;
    while let Some((field, others)) = rest.split_first() {
        let ty = field.element_type.unpack();
        if !ty.is_defaultable() {
            return Err(A::of(Refusal::NotDefaultable {
                name: "struct.new_default",
                ty,
            }));
        }
        rest = others;
    }
    Ok(())
}

/// The struct type at an index, which has no descriptor: with one it is made by another operator.
#[inline(always)]
fn undescribed_struct_at<'a, A: Refused, R: WasmModuleResources>(
    context: &OperatorContext<'_, 'a, R>,
    type_index: u32,
    name: &'static str,
) -> Result<&'a StructType, A>
    ensures found { IfOk result (λ s. guard (is_none (rule.descriptor_at (R.context context.now.resources.now) type_index))
        (struct_type (context_of R.context context.now) type_index) ≡ Some s.now) }
    ensures valid { IfOk result (λ s. AllByRecursion (Valid (R.context context.now.resources.now))
        (unpacked_fields s.now)) }
    ensures refused { OnErr result (guard (is_none (rule.descriptor_at (R.context context.now.resources.now) type_index))
        (struct_type (context_of R.context context.now) type_index) ≡ None) }
{
    match descriptor_at(context.resources, type_index)? {
        None => struct_type_at(context, type_index),
        Some(_) => Err(A::of(Refusal::WantsDescriptor { type_index, name })),
    }
}

/// The type of the descriptor with which a struct of the type at an index is made: exact in that type, or null. It has to
/// lie on top. A type without descriptors is refused.
#[tactic(auto, using(crate::proofs::Sets::new_descriptors))]
fn expect_new_descriptor<A: Refused, R: WasmModuleResources>(
    context: &OperatorContext<'_, '_, R>,
    type_index: u32,
    name: &'static str,
) -> Result<ValType, A>
    requires { CanCheck R.context context.now }
    ensures described { IfOk result (λ t. option_map (rule.descriptor true)
        (rule.descriptor_at (R.context context.now.resources.now) type_index) ≡ Some t) }
    ensures valid { IfOk result (Valid (R.context context.now.resources.now)) }
    ensures fits { IfOk result (λ t. has_operands_fitting (context_of R.context context.now) (t ∷ [])
        context.now.stacks.now.body ≡ true) }
    ensures refused { OnErr result (found_new_descriptor (context_of R.context context.now)
        (rule.descriptor_at (R.context context.now.resources.now) type_index)
        (found_in_body context.now.stacks.now.body) ≡ false) }
{
    let Some(descriptor) = descriptor_at(context.resources, type_index)? else {
        return Err(A::of(Refusal::NotDescribed { type_index, name }));
    };
    let expected = ValType::Ref(RefType::exact(true, descriptor));
    context.expect_operands(0, &[expected])?;
    Ok(expected)
}

/// What `struct.new` takes and gives: a value for each field.
#[inline(always)]
fn new_types<'a, A: Refused, R: WasmModuleResources>(
    context: &OperatorContext<'_, 'a, R>,
    index: u32,
) -> Result<Operands<'a>, A>
    ensures { Finds (R.context context.now.resources.now) A.tells (λ cx. struct_new_row cx index)
        context.now.stacks.now.body result }
{
    let struct_type = undescribed_struct_at(context, index, "struct.new")?;
    let made = allocated_reference(context, index)?;
    Ok(Operands {
        expected: Expected::Fields(struct_type.fields.as_slice()),
        pushed: Pushed::One(made),
    })
}

/// What `struct.new_default` takes and gives.
#[inline(always)]
fn new_default_types<A: Refused, R: WasmModuleResources>(
    context: &OperatorContext<'_, '_, R>,
    index: u32,
) -> Result<Operands<'static>, A>
    ensures { Finds (R.context context.now.resources.now) A.tells (λ cx. struct_new_default_row cx index)
        context.now.stacks.now.body result }
{
    let struct_type = undescribed_struct_at(context, index, "struct.new_default")?;
    check_defaultable(struct_type.fields.as_slice())?;
    let made = allocated_reference(context, index)?;
    Ok(Operands::few(Few::Zero, Pushed::One(made)))
}

/// What `struct.new_default_desc` takes and gives, with a descriptor of this type.
fn new_default_desc_types<A: Refused, R: WasmModuleResources>(
    context: &OperatorContext<'_, '_, R>,
    index: u32,
    descriptor: ValType,
) -> Result<Operands<'static>, A>
    requires { Valid (R.context context.now.resources.now) descriptor }
    ensures { Finds (R.context context.now.resources.now) A.tells (λ cx. defaults_row cx index descriptor)
        context.now.stacks.now.body result }
{
    let struct_type = struct_type_at(context, index)?;
    check_defaultable(struct_type.fields.as_slice())?;
    let made = allocated_reference(context, index)?;
    Ok(Operands::few(Few::One(descriptor), Pushed::One(made)))
}

/// What `struct.get` takes and gives, of a field that holds a whole value.
#[inline(always)]
fn get_types<A: Refused, R: WasmModuleResources>(
    context: &OperatorContext<'_, '_, R>,
    index: FieldIndex,
) -> Result<Operands<'static>, A>
    ensures { Finds (R.context context.now.resources.now) A.tells (λ cx. struct_read_row cx is_whole_field index)
        context.now.stacks.now.body result }
{
    let field = struct_field_at(context, index)?;
    if field.element_type.is_packed() {
        return Err(A::of(Refusal::FieldPacking(packing(None))));
    }
    let from = type_reference(context, true, index.struct_type_index)?;
    Ok(Operands::few(Few::One(from), Pushed::One(field.element_type.unpack())))
}

/// What `struct.get_s` and `struct.get_u` take and give, of a field that holds a packed value.
fn get_packed_types<A: Refused, R: WasmModuleResources>(
    context: &OperatorContext<'_, '_, R>,
    sign: Sign,
    index: FieldIndex,
) -> Result<Operands<'static>, A>
    ensures { Finds (R.context context.now.resources.now) A.tells (λ cx. struct_read_row cx is_packed_field
        index) context.now.stacks.now.body result }
{
    let field = struct_field_at(context, index)?;
    if !field.element_type.is_packed() {
        return Err(A::of(Refusal::FieldPacking(packing(Some(sign)))));
    }
    let from = type_reference(context, true, index.struct_type_index)?;
    Ok(Operands::few(Few::One(from), Pushed::One(field.element_type.unpack())))
}

/// What `struct.set` takes.
#[inline(always)]
fn set_types<A: Refused, R: WasmModuleResources>(
    context: &OperatorContext<'_, '_, R>,
    index: FieldIndex,
) -> Result<Operands<'static>, A>
    ensures { Finds (R.context context.now.resources.now) A.tells (λ cx. struct_set_row cx index)
        context.now.stacks.now.body result }
{
    let field = struct_field_at(context, index)?;
    check_mutable_field(field)?;
    let into = type_reference(context, true, index.struct_type_index)?;
    Ok(Operands::few(Few::Two(into, field.element_type.unpack()), Pushed::Nothing))
}

/// `struct.new`: `[t*] -> [(ref s)]`.
#[inline(never)]
fn new<A: Refused, R: WasmModuleResources>(
    context: OperatorContext<'_, '_, R>,
    index: u32,
) -> Result<(), A>
    requires { CanCheck R.context context }
    ensures { Checks R.context A.tells (λ cx. row_operator (struct_new_row cx index)) context.entry
        result context.exit }
{
    let found = new_types(&context, index);
    exchange_found(context, found)
}

/// `struct.new_default`: `[] -> [(ref s)]`.
#[inline(never)]
fn new_default<A: Refused, R: WasmModuleResources>(
    context: OperatorContext<'_, '_, R>,
    index: u32,
) -> Result<(), A>
    requires { CanCheck R.context context }
    ensures { Checks R.context A.tells (λ cx. row_operator (struct_new_default_row cx index)) context.entry
        result context.exit }
{
    let found = new_default_types(&context, index);
    exchange_found(context, found)
}

/// `struct.new_desc`: `[t* (ref null d)] -> [(ref s)]`. The descriptor is looked for before anything else is asked of the
/// type (upstream's order).
#[inline(never)]
fn new_desc<A: Refused, R: WasmModuleResources>(
    context: OperatorContext<'_, '_, R>,
    index: u32,
) -> Result<(), A>
    requires { CanCheck R.context context }
    ensures { Checks R.context A.tells (λ cx. row_operator (struct_new_desc_row cx index)) context.entry
        result context.exit }
{
    expect_new_descriptor(&context, index, "struct.new_desc")?;
    let struct_type = struct_type_at(&context, index)?;
    let made = allocated_reference(&context, index)?;
    let fields = struct_type.fields.as_slice();
    context.expect_fields(1, fields)?;
    let popped = context.stacks.own_operand_count().min(fields.len() + 1);
    context.stacks.exchange(popped, &[made])
}

/// `struct.new_default_desc`: `[(ref null d)] -> [(ref s)]`. The descriptor is looked for first here too.
#[inline(never)]
fn new_default_desc<A: Refused, R: WasmModuleResources>(
    context: OperatorContext<'_, '_, R>,
    index: u32,
) -> Result<(), A>
    requires { CanCheck R.context context }
    ensures { Checks R.context A.tells (λ cx. row_operator (struct_new_default_desc_row cx index)) context.entry
        result context.exit }
{
    let descriptor = expect_new_descriptor(&context, index, "struct.new_default_desc")?;
    let found = new_default_desc_types(&context, index, descriptor);
    exchange_found(context, found)
}

/// `struct.get`: `[(ref null s)] -> [t]`.
#[inline(never)]
fn get<A: Refused, R: WasmModuleResources>(
    context: OperatorContext<'_, '_, R>,
    index: FieldIndex,
) -> Result<(), A>
    requires { CanCheck R.context context }
    ensures { Checks R.context A.tells (λ cx. row_operator (struct_read_row cx is_whole_field index))
        context.entry result context.exit }
{
    let found = get_types(&context, index);
    exchange_found(context, found)
}

/// `struct.get_s` and `struct.get_u`: `[(ref null s)] -> [i32]`.
#[inline(never)]
fn get_packed<A: Refused, R: WasmModuleResources>(
    context: OperatorContext<'_, '_, R>,
    sign: Sign,
    index: FieldIndex,
) -> Result<(), A>
    requires { CanCheck R.context context }
    ensures { Checks R.context A.tells (λ cx. row_operator (struct_read_row cx is_packed_field index))
        context.entry result context.exit }
{
    let found = get_packed_types(&context, sign, index);
    exchange_found(context, found)
}

/// `struct.set`: `[(ref null s) t] -> []`.
#[inline(never)]
fn set<A: Refused, R: WasmModuleResources>(
    context: OperatorContext<'_, '_, R>,
    index: FieldIndex,
) -> Result<(), A>
    requires { CanCheck R.context context }
    ensures { Checks R.context A.tells (λ cx. row_operator (struct_set_row cx index)) context.entry
        result context.exit }
{
    let found = set_types(&context, index);
    exchange_found(context, found)
}

/// An operator on structs, its gate aside.
#[inline(always)]
pub fn struct_operator<A: Refused, R: WasmModuleResources>(
    context: OperatorContext<'_, '_, R>,
    op: &StructOp,
) -> Result<(), A>
    requires { CanCheck R.context context }
    ensures { Checks R.context A.tells (λ cx. row_operator (struct_row cx op.now)) context.entry
        result context.exit }
{
    match *op {
        StructOp::StructNew(index) => new(context, index),
        StructOp::StructNewDefault(index) => new_default(context, index),
        StructOp::StructNewDesc(index) => new_desc(context, index),
        StructOp::StructNewDefaultDesc(index) => new_default_desc(context, index),
        StructOp::StructGet(index) => get(context, index),
        StructOp::StructGetPacked(sign, index) => get_packed(context, sign, index),
        StructOp::StructSet(index) => set(context, index),
    }
}
