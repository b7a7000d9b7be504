//! Operators on arrays (WebAssembly core specification, "Aggregate Instructions").
#![tactic(auto, using(validate_shapes::proofs::KnownRows::known_rows))]

ghost use Rattle.std.specs.Prelude.{◌≡◌, ◌≢◌, true, false, OnOk, OnErr};
ghost use Rattle.validate_resources.specs.Context.{Valid};
ghost use Rattle.validation_rules.specs.Arrays.{array_row, array_new_row, array_new_default_row};
ghost use Rattle.validation_rules.specs.Arrays.{array_new_fixed_row, array_new_data_row, array_new_elem_row};
ghost use Rattle.validation_rules.specs.Arrays.{array_read_row, array_set_row, array_fill_row};
ghost use Rattle.validation_rules.specs.Arrays.{array_copy_row, array_init_data_row, array_init_elem_row};
ghost use Rattle.validation_rules.specs.Arrays.{is_read_from_data, is_read_from_elements, may_be_copied};
ghost use Rattle.validation_rules.specs.Operators.{row_operator};
ghost use Rattle.validation_rules.specs.Structs.{field_value, is_whole_field, is_packed_field};
ghost use Rattle.validate_shapes.specs.Operands.{Finds};
ghost use Rattle.validate_visit.specs.declared.op.ArrayOp.{ArrayOp};
ghost use Rattle.validate_stacks.specs.Bodies.{CanCheck, Checks};

use crate::found::ref_to_i32;
use validate_resources::WasmModuleResources;
use validate_resources::uses::laws;
use validate_shapes::aggregates::{
    allocated_reference, array_field_at, check_mutable_array, packing, type_reference,
};
use validate_shapes::memories::check_data_segment;
use validate_shapes::operands::{Expected, Few, Operands, Pushed, exchange_found};
use validate_shapes::tables::element_type_at;
use validate_stacks::OperatorContext;
use validate_types::{AbstractHeapType, FieldType, Refusal, Refused, StorageType, ValType};
use validate_visit::{ArrayOp, Sign};

/// What a data segment holds can be read as values of the array, and the segment is there. An array of references is
/// refused for this reason.
fn check_data<A: Refused, R: WasmModuleResources>(
    resources: &R,
    data_index: u32,
    element: FieldType,
    references: Refusal,
) -> Result<(), A>
    ensures passed { OnOk result (is_read_from_data (R.context resources.now) data_index element ≡ true) }
    ensures refused { OnErr result (is_read_from_data (R.context resources.now) data_index element ≡ false) }
{
    match element.element_type.unpack() {
        ValType::Ref(_) => Err(A::of(references)),
        _ => check_data_segment(resources, data_index),
    }
}

/// What an element segment holds can be put into places of the array, and the segment is there. A refusal
/// names the operator.
fn check_element_segment<A: Refused, R: WasmModuleResources>(
    resources: &R,
    elem_index: u32,
    element: FieldType,
    name: &'static str,
) -> Result<(), A>
    requires { Valid (R.context resources.now) (field_value element) }
    ensures passed { OnOk result (is_read_from_elements (R.context resources.now) elem_index element ≡ true) }
    ensures refused { OnErr result (is_read_from_elements (R.context resources.now) elem_index element
        ≡ false) }
{
    laws(resources);
    let ValType::Ref(expected) = element.element_type.unpack() else {
        return Err(A::of(Refusal::NoReferences(name)));
    };
    let found = element_type_at(resources, elem_index)?;
    if resources.is_subtype(ValType::Ref(found), ValType::Ref(expected)) {
        Ok(())
    } else {
        Err(A::of(Refusal::OtherElements {
            name,
            segment: elem_index,
            expected,
            found,
        }))
    }
}

/// What the one array holds can be put into places of the other.
fn check_copied<A: Refused, R: WasmModuleResources>(
    resources: &R,
    from: FieldType,
    to: FieldType,
) -> Result<(), A>
    requires from { Valid (R.context resources.now) (field_value from) }
    requires to { Valid (R.context resources.now) (field_value to) }
    ensures passed { OnOk result (may_be_copied (R.context resources.now) from.element_type to.element_type
        ≡ true) }
    ensures refused { OnErr result (may_be_copied (R.context resources.now) from.element_type
        to.element_type ≡ false) }
{
    let fits = match (from.element_type, to.element_type) {
        (StorageType::I8, StorageType::I8) | (StorageType::I16, StorageType::I16) => true,
        (StorageType::Val(from), StorageType::Val(to)) => resources.is_subtype(from, to),
        _ => false,
    };
    if fits {
        Ok(())
    } else {
        Err(A::of(Refusal::OtherStorage {
            expected: to.element_type,
            found: from.element_type,
        }))
    }
}

/// What `array.new` takes and gives: one value for all places, and so many.
#[inline(always)]
fn new_types<A: Refused, R: WasmModuleResources>(
    context: &OperatorContext<'_, '_, R>,
    index: u32,
) -> Result<Operands<'static>, A>
    ensures { Finds (R.context context.now.resources.now) A.tells (λ cx. array_new_row cx index)
        context.now.stacks.now.body result }
{
    let value = array_field_at(context, index)?.element_type.unpack();
    let made = allocated_reference(context, index)?;
    Ok(Operands::few(Few::Two(value, ValType::I32), Pushed::One(made)))
}

/// What `array.new_default` takes and gives.
fn new_default_types<A: Refused, R: WasmModuleResources>(
    context: &OperatorContext<'_, '_, R>,
    index: u32,
) -> Result<Operands<'static>, A>
    ensures { Finds (R.context context.now.resources.now) A.tells (λ cx. array_new_default_row cx index)
        context.now.stacks.now.body result }
{
    let value = array_field_at(context, index)?.element_type.unpack();
    if !value.is_defaultable() {
        return Err(A::of(Refusal::NotDefaultable {
            name: "array.new_default",
            ty: value,
        }));
    }
    let made = allocated_reference(context, index)?;
    Ok(Operands::few(Few::One(ValType::I32), Pushed::One(made)))
}

/// What `array.new_fixed` takes and gives: a value for each place.
#[inline(always)]
fn new_fixed_types<A: Refused, R: WasmModuleResources>(
    context: &OperatorContext<'_, '_, R>,
    index: u32,
    size: u32,
) -> Result<Operands<'static>, A>
    ensures { Finds (R.context context.now.resources.now) A.tells (λ cx. array_new_fixed_row cx index size)
        context.now.stacks.now.body result }
{
    let value = array_field_at(context, index)?.element_type.unpack();
    let made = allocated_reference(context, index)?;
    Ok(Operands {
        expected: Expected::Run(value, size),
        pushed: Pushed::One(made),
    })
}

/// What `array.new_data` takes and gives: a place of the data segment, and so many.
fn new_data_types<A: Refused, R: WasmModuleResources>(
    context: &OperatorContext<'_, '_, R>,
    index: u32,
    data_index: u32,
) -> Result<Operands<'static>, A>
    ensures { Finds (R.context context.now.resources.now) A.tells (λ cx. array_new_data_row cx index data_index)
        context.now.stacks.now.body result }
{
    let element = array_field_at(context, index)?;
    check_data(context.resources, data_index, element, Refusal::NoNewData)?;
    let made = allocated_reference(context, index)?;
    Ok(Operands::few(Few::Two(ValType::I32, ValType::I32), Pushed::One(made)))
}

/// What `array.new_elem` takes and gives: a place of the element segment, and so many.
fn new_elem_types<A: Refused, R: WasmModuleResources>(
    context: &OperatorContext<'_, '_, R>,
    index: u32,
    elem_index: u32,
) -> Result<Operands<'static>, A>
    ensures { Finds (R.context context.now.resources.now) A.tells (λ cx. array_new_elem_row cx index elem_index)
        context.now.stacks.now.body result }
{
    let element = array_field_at(context, index)?;
    check_element_segment(context.resources, elem_index, element, "array.new_elem")?;
    let made = allocated_reference(context, index)?;
    Ok(Operands::few(Few::Two(ValType::I32, ValType::I32), Pushed::One(made)))
}

/// What `array.get` takes and gives, of an array whose places hold whole values.
#[inline(always)]
fn get_types<A: Refused, R: WasmModuleResources>(
    context: &OperatorContext<'_, '_, R>,
    index: u32,
) -> Result<Operands<'static>, A>
    ensures { Finds (R.context context.now.resources.now) A.tells (λ cx. array_read_row cx is_whole_field index)
        context.now.stacks.now.body result }
{
    let element = array_field_at(context, index)?;
    if element.element_type.is_packed() {
        return Err(A::of(Refusal::ArrayPacking(packing(None))));
    }
    let from = type_reference(context, true, index)?;
    Ok(Operands::few(
        Few::Two(from, ValType::I32),
        Pushed::One(element.element_type.unpack()),
    ))
}

/// What `array.get_s` and `array.get_u` take and give, of an array whose places hold packed values.
fn get_packed_types<A: Refused, R: WasmModuleResources>(
    context: &OperatorContext<'_, '_, R>,
    sign: Sign,
    index: u32,
) -> Result<Operands<'static>, A>
    ensures { Finds (R.context context.now.resources.now) A.tells (λ cx. array_read_row cx is_packed_field index)
        context.now.stacks.now.body result }
{
    let element = array_field_at(context, index)?;
    if !element.element_type.is_packed() {
        return Err(A::of(Refusal::ArrayPacking(packing(Some(sign)))));
    }
    let from = type_reference(context, true, index)?;
    Ok(Operands::few(
        Few::Two(from, ValType::I32),
        Pushed::One(element.element_type.unpack()),
    ))
}

/// What `array.set` takes.
#[inline(always)]
fn set_types<A: Refused, R: WasmModuleResources>(
    context: &OperatorContext<'_, '_, R>,
    index: u32,
) -> Result<Operands<'static>, A>
    ensures { Finds (R.context context.now.resources.now) A.tells (λ cx. array_set_row cx index)
        context.now.stacks.now.body result }
{
    let element = array_field_at(context, index)?;
    check_mutable_array(element)?;
    let into = type_reference(context, true, index)?;
    let value = element.element_type.unpack();
    Ok(Operands::few(Few::Three(into, ValType::I32, value), Pushed::Nothing))
}

/// What `array.fill` takes: from this place on, with this value, so many.
fn fill_types<A: Refused, R: WasmModuleResources>(
    context: &OperatorContext<'_, '_, R>,
    index: u32,
) -> Result<Operands<'static>, A>
    ensures { Finds (R.context context.now.resources.now) A.tells (λ cx. array_fill_row cx index)
        context.now.stacks.now.body result }
{
    let element = array_field_at(context, index)?;
    check_mutable_array(element)?;
    let into = type_reference(context, true, index)?;
    let value = element.element_type.unpack();
    Ok(Operands::few(
        Few::Four(into, ValType::I32, value, ValType::I32),
        Pushed::Nothing,
    ))
}

/// What `array.copy` takes: to a place, from a place, so many.
fn copy_types<A: Refused, R: WasmModuleResources>(
    context: &OperatorContext<'_, '_, R>,
    dst_index: u32,
    src_index: u32,
) -> Result<Operands<'static>, A>
    ensures { Finds (R.context context.now.resources.now) A.tells (λ cx. array_copy_row cx dst_index src_index)
        context.now.stacks.now.body result }
{
    let dst = array_field_at(context, dst_index)?;
    check_mutable_array(dst)?;
    let src = array_field_at(context, src_index)?;
    check_copied(context.resources, src, dst)?;
    let into = type_reference(context, true, dst_index)?;
    let from = type_reference(context, true, src_index)?;
    Ok(Operands::few(
        Few::Five(into, ValType::I32, from, ValType::I32, ValType::I32),
        Pushed::Nothing,
    ))
}

/// What `array.init_data` takes: to a place, from one of the data segment, so many.
fn init_data_types<A: Refused, R: WasmModuleResources>(
    context: &OperatorContext<'_, '_, R>,
    index: u32,
    data_index: u32,
) -> Result<Operands<'static>, A>
    ensures { Finds (R.context context.now.resources.now) A.tells (λ cx. array_init_data_row cx index data_index)
        context.now.stacks.now.body result }
{
    let element = array_field_at(context, index)?;
    check_mutable_array(element)?;
    check_data(context.resources, data_index, element, Refusal::NoInitData)?;
    let into = type_reference(context, true, index)?;
    Ok(Operands::few(
        Few::Four(into, ValType::I32, ValType::I32, ValType::I32),
        Pushed::Nothing,
    ))
}

/// What `array.init_elem` takes: to a place, from one of the element segment, so many.
fn init_elem_types<A: Refused, R: WasmModuleResources>(
    context: &OperatorContext<'_, '_, R>,
    index: u32,
    elem_index: u32,
) -> Result<Operands<'static>, A>
    ensures { Finds (R.context context.now.resources.now) A.tells (λ cx. array_init_elem_row cx index elem_index)
        context.now.stacks.now.body result }
{
    let element = array_field_at(context, index)?;
    check_mutable_array(element)?;
    check_element_segment(context.resources, elem_index, element, "array.init_elem")?;
    let into = type_reference(context, true, index)?;
    Ok(Operands::few(
        Few::Four(into, ValType::I32, ValType::I32, ValType::I32),
        Pushed::Nothing,
    ))
}

/// What an operator on arrays takes and gives, by the types and the segment that it names. `array.len`,
/// which names none, looks at its operand.
fn array_types<A: Refused, R: WasmModuleResources>(
    context: &OperatorContext<'_, '_, R>,
    op: ArrayOp,
) -> Result<Operands<'static>, A>
    requires { op ≢ ArrayOp.ArrayLen }
    ensures { Finds (R.context context.now.resources.now) A.tells (λ cx. array_row cx op)
        context.now.stacks.now.body result }
{
    match op {
        ArrayOp::ArrayLen => unreachable!(),
        ArrayOp::ArrayNew(index) => new_types(context, index),
        ArrayOp::ArrayNewDefault(index) => new_default_types(context, index),
        ArrayOp::ArrayNewFixed {
            array_type_index,
            array_size,
        } => { new_fixed_types(context, array_type_index, array_size) }
        ArrayOp::ArrayNewData {
            array_type_index,
            array_data_index,
        } => { new_data_types(context, array_type_index, array_data_index) }
        ArrayOp::ArrayNewElem {
            array_type_index,
            array_elem_index,
        } => { new_elem_types(context, array_type_index, array_elem_index) }
        ArrayOp::ArrayGet(index) => get_types(context, index),
        ArrayOp::ArrayGetPacked(sign, index) => get_packed_types(context, sign, index),
        ArrayOp::ArraySet(index) => set_types(context, index),
        ArrayOp::ArrayFill(index) => fill_types(context, index),
        ArrayOp::ArrayCopy {
            array_type_index_dst,
            array_type_index_src,
        } => { copy_types(context, array_type_index_dst, array_type_index_src) }
        ArrayOp::ArrayInitData {
            array_type_index,
            array_data_index,
        } => { init_data_types(context, array_type_index, array_data_index) }
        ArrayOp::ArrayInitElem {
            array_type_index,
            array_elem_index,
        } => { init_elem_types(context, array_type_index, array_elem_index) }
    }
}

/// `array.new`: `[t i32] -> [(ref a)]`.
#[inline(never)]
fn new<A: Refused, R: WasmModuleResources>(
    context: OperatorContext<'_, '_, R>,
    index: u32,
) -> Result<(), A>
    requires { CanCheck R.context context }
    ensures { Checks R.context A.tells (λ cx. row_operator (array_new_row cx index)) context.entry
        result context.exit }
{
    let found = new_types(&context, index);
    exchange_found(context, found)
}

/// `array.new_fixed`: `[t*] -> [(ref a)]`.
#[inline(never)]
fn new_fixed<A: Refused, R: WasmModuleResources>(
    context: OperatorContext<'_, '_, R>,
    index: u32,
    size: u32,
) -> Result<(), A>
    requires { CanCheck R.context context }
    ensures { Checks R.context A.tells (λ cx. row_operator (array_new_fixed_row cx index size)) context.entry
        result context.exit }
{
    let found = new_fixed_types(&context, index, size);
    exchange_found(context, found)
}

/// `array.get`: `[(ref null a) i32] -> [t]`.
#[inline(never)]
fn get<A: Refused, R: WasmModuleResources>(
    context: OperatorContext<'_, '_, R>,
    index: u32,
) -> Result<(), A>
    requires { CanCheck R.context context }
    ensures { Checks R.context A.tells (λ cx. row_operator (array_read_row cx is_whole_field index)) context.entry
        result context.exit }
{
    let found = get_types(&context, index);
    exchange_found(context, found)
}

/// `array.set`: `[(ref null a) i32 t] -> []`.
#[inline(never)]
fn set<A: Refused, R: WasmModuleResources>(
    context: OperatorContext<'_, '_, R>,
    index: u32,
) -> Result<(), A>
    requires { CanCheck R.context context }
    ensures { Checks R.context A.tells (λ cx. row_operator (array_set_row cx index)) context.entry
        result context.exit }
{
    let found = set_types(&context, index);
    exchange_found(context, found)
}

/// An operator on arrays that names a type.
#[inline(never)]
fn typed<A: Refused, R: WasmModuleResources>(
    context: OperatorContext<'_, '_, R>,
    op: ArrayOp,
) -> Result<(), A>
    requires visit { CanCheck R.context context }
    requires typed { op ≢ ArrayOp.ArrayLen }
    ensures { Checks R.context A.tells (λ cx. row_operator (array_row cx op)) context.entry result context.exit }
{
    let found = array_types(&context, op);
    exchange_found(context, found)
}

/// An operator on arrays, its gate aside. Those that come often have a body each, so that nothing of what they take and
/// give lies in memory.
#[inline(always)]
pub fn array_operator<A: Refused, R: WasmModuleResources>(
    context: OperatorContext<'_, '_, R>,
    op: &ArrayOp,
) -> Result<(), A>
    requires { CanCheck R.context context }
    ensures { Checks R.context A.tells (λ cx. row_operator (array_row cx op.now)) context.entry result context.exit }
{
    match *op {
        ArrayOp::ArrayLen => ref_to_i32(context, AbstractHeapType::Array),
        ArrayOp::ArrayNew(index) => new(context, index),
        ArrayOp::ArrayNewFixed {
            array_type_index,
            array_size,
        } => new_fixed(context, array_type_index, array_size),
        ArrayOp::ArrayGet(index) => get(context, index),
        ArrayOp::ArraySet(index) => set(context, index),
        _ => typed(context, *op),
    }
}
