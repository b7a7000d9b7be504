//! Constant expressions (WebAssembly core specification, "Validation: Instructions", "Constant Expressions").

ghost use Rattle.std.specs.Prelude.{◌≡◌, ℕ, is_ok, take, slice_get};
ghost use Rattle.module_rules.specs.Constants.{is_constant_binary, is_constant_numeric, is_constant_reference, is_constant_struct, is_constant_array, is_constant_operator, is_constant_in, is_immutable, may_name_global, known_globals, expression_type, element_address_type, data_address_type};
ghost use Rattle.module_rules.specs.Declarations.{declarations_of};
ghost use Rattle.module_rules.specs.declared.module.Place.{Place};

use crate::elements::item_type;
use crate::faults::RuleFault;
use crate::features::ModuleFeatures;
use crate::items::{DeclaredGlobal, DeclaredMemory, DeclaredTable};
use crate::module::{DeclaredModule, Place};
use crate::segments::{DataKind, ElementKind};
use validate_types::ValType;
use validate_visit::{
    ArrayOp, ControlOp, Exchange, IntegerBinaryOp, NumericOp, Op, ReferenceOp, SharedOp, StructOp,
    Update,
};

/// Where a constant expression stands.
#[derive(Clone, Copy)]
pub struct ConstantContext<'m> {
    /// The proposals that are on.
    pub features: ModuleFeatures,
    /// What the module declares.
    pub declared: &'m DeclaredModule,
    /// What the expression is for.
    pub place: Place,
}

/// Whether an operator on two integers is constant.
fn is_constant_binary(features: ModuleFeatures, op: IntegerBinaryOp) -> bool
    ensures { result ≡ is_constant_binary features op }
{
    match op {
        IntegerBinaryOp::Add | IntegerBinaryOp::Sub | IntegerBinaryOp::Mul => {
            features.extended_const
        }
        _ => false,
    }
}

/// Whether an operator on numbers is constant.
fn is_constant_numeric(features: ModuleFeatures, op: NumericOp) -> bool
    ensures { result ≡ is_constant_numeric features op }
{
    match op {
        NumericOp::I32Const(_)
        | NumericOp::I64Const(_)
        | NumericOp::F32Const(_)
        | NumericOp::F64Const(_) => true,
        NumericOp::IntegerBinary(_, op) => is_constant_binary(features, op),
        _ => false,
    }
}

/// Whether an operator on references is constant.
fn is_constant_reference(op: ReferenceOp) -> bool
    ensures { result ≡ is_constant_reference op }
{
    matches!(
        &op,
        ReferenceOp::RefNull(_)
            | ReferenceOp::RefFunc(_)
            | ReferenceOp::RefI31
            | ReferenceOp::AnyConvertExtern
            | ReferenceOp::ExternConvertAny
    )
}

/// Whether an operator on structs is constant.
fn is_constant_struct(op: StructOp) -> bool
    ensures { result ≡ is_constant_struct op }
{
    matches!(
        &op,
        StructOp::StructNew(_)
            | StructOp::StructNewDefault(_)
            | StructOp::StructNewDesc(_)
            | StructOp::StructNewDefaultDesc(_)
    )
}

/// Whether an operator on arrays is constant.
fn is_constant_array(op: ArrayOp) -> bool
    ensures { result ≡ is_constant_array op }
{
    matches!(
        &op,
        ArrayOp::ArrayNew(_) | ArrayOp::ArrayNewDefault(_) | ArrayOp::ArrayNewFixed { .. }
    )
}

/// There is a global at this index, among the first so many, and it can't be written.
fn check_immutable(globals: &[DeclaredGlobal], count: usize, index: u32) -> Result<(), RuleFault>
    ensures { is_ok result ≡ is_immutable (slice_get (take count globals.now) index) }
{
    if index as usize >= count {
        return Err(RuleFault::UnknownGlobal(index));
    }
    match globals.get(index as usize) {
        Some(global) if !global.ty.mutable => Ok(()),
        Some(_) => Err(RuleFault::WrittenGlobal),
        None => Err(RuleFault::UnknownGlobal(index)),
    }
}

/// A global is one of the first so many that can't be written, and is imported where collected types are off.
fn check_global(
    features: ModuleFeatures,
    declared: &DeclaredModule,
    count: usize,
    index: u32,
) -> Result<(), RuleFault>
    ensures { is_ok result ≡ may_name_global features (declarations_of declared.now) count index }
{
    check_immutable(&declared.globals, count, index)?;
    if index >= declared.imports.globals && !features.operators.gc() {
        return Err(RuleFault::OwnGlobal);
    }
    Ok(())
}

/// What doesn't name a global is constant.
fn check_constant(is_constant: bool) -> Result<(), RuleFault>
    ensures { is_ok result ≡ is_constant }
{
    if is_constant {
        return Ok(());
    }
    Err(RuleFault::NotConstant(None))
}

/// An operator is constant, where the first so many globals may be named.
fn check_operator(
    features: ModuleFeatures,
    declared: &DeclaredModule,
    count: usize,
    op: Op<'_>,
) -> Result<(), RuleFault>
    ensures { is_ok result ≡ is_constant_operator features
        (may_name_global features (declarations_of declared.now) count) op.entry }
{
    match op {
        Op::Control(ControlOp::GlobalGet(index)) => check_global(features, declared, count, index),
        Op::Shared(
            SharedOp::Global {
                access: Update::Value(Exchange::Get),
                global_index,
                ..
            },
        ) => check_global(features, declared, count, global_index),
        Op::Numeric(op) => check_constant(is_constant_numeric(features, op)),
        Op::Reference(op) => check_constant(is_constant_reference(op)),
        Op::Struct(op) => check_constant(is_constant_struct(op)),
        Op::Array(op) => check_constant(is_constant_array(op)),
        Op::Control(ControlOp::End) | Op::Shared(SharedOp::RefI31Shared) => Ok(()),
        _ => Err(RuleFault::NotConstant(None)),
    }
}

/// So many globals may be named by a constant expression in this place.
fn known_globals(declared: &DeclaredModule, place: Place) -> usize
    ensures { result ≡ known_globals (declarations_of declared.now) place }
{
    match place {
        Place::Table(_) => declared.imports.globals as usize,
        Place::Global(index) => index as usize,
        Place::ElementOffset(_) | Place::Element(_) | Place::DataOffset(_) => declared
            .globals
            .len(),
    }
}

/// An operator of the constant expression that stands there is constant. What refuses it doesn't tell the operator's name.
///
/// Where each operator of an expression is, the expression is constant. That its operators are valid, and its
/// value is of its type, is the validator's to say.
pub fn check_constant_operator(at: &ConstantContext<'_>, op: Op<'_>) -> Result<(), RuleFault>
    ensures { is_ok result ≡ is_constant_in at.now.features (declarations_of at.now.declared.now) at.now.place
        op.entry }
{
    let count = known_globals(at.declared, at.place);
    check_operator(at.features, at.declared, count, op)
}

/// The type of the addresses at which an element segment begins, if it goes to a table that is there.
fn element_address_type(tables: &[DeclaredTable], kind: ElementKind) -> Option<ValType>
    ensures { result ≡ element_address_type tables.now kind }
{
    let ElementKind::Active { table_index } = kind else {
        return None;
    };
    let table = tables.get(table_index as usize)?;
    Some(table.ty.index_type())
}

/// The type of the addresses at which a data segment begins, if it goes to a memory that is there.
fn data_address_type(memories: &[DeclaredMemory], kind: DataKind) -> Option<ValType>
    ensures { result ≡ data_address_type memories.now kind }
{
    let DataKind::Active { memory_index } = kind else {
        return None;
    };
    let memory = memories.get(memory_index as usize)?;
    Some(memory.ty.index_type())
}

/// The type of the addresses at which an element segment begins, if it is there.
fn element_offset_type(declared: &DeclaredModule, index: u32) -> Option<ValType>
    ensures { result ≡ expression_type (declarations_of declared.now) (Place.ElementOffset index) }
{
    let element = declared.elements.get(index as usize)?;
    element_address_type(&declared.tables, element.kind)
}

/// The type of the items of an element segment, if it is there.
fn element_value_type(declared: &DeclaredModule, index: u32) -> Option<ValType>
    ensures { result ≡ expression_type (declarations_of declared.now) (Place.Element index) }
{
    let element = declared.elements.get(index as usize)?;
    Some(ValType::Ref(item_type(&element.items)))
}

/// The type of the addresses at which a data segment begins, if it is there.
fn data_offset_type(declared: &DeclaredModule, index: u32) -> Option<ValType>
    ensures { result ≡ expression_type (declarations_of declared.now) (Place.DataOffset index) }
{
    let segment = declared.data_segments.get(index as usize)?;
    data_address_type(&declared.memories, segment.kind)
}

/// The type of the value of a constant expression in this place, if that is there.
pub fn expression_type(declared: &DeclaredModule, place: Place) -> Option<ValType>
    ensures { result ≡ expression_type (declarations_of declared.now) place }
{
    match place {
        Place::Table(index) => {
            let table = declared.tables.get(index as usize)?;
            Some(ValType::Ref(table.ty.element_type))
        }
        Place::Global(index) => {
            let global = declared.globals.get(index as usize)?;
            Some(global.ty.content_type)
        }
        Place::ElementOffset(index) => element_offset_type(declared, index),
        Place::Element(index) => element_value_type(declared, index),
        Place::DataOffset(index) => data_offset_type(declared, index),
    }
}
