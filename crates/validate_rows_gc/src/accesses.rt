//! What an atomic access asks of what is held, takes and gives (proposal "shared-everything-threads").

ghost use Rattle.std.specs.Prelude.{◌≡◌, ◌++◌};
ghost use Rattle.validate_resources.specs.Context.{Valid};
ghost use Rattle.validate_types.specs.Types.{unpacked_type};
ghost use Rattle.validation_rules.specs.Shared as rule;
ghost use Rattle.validate_shapes.specs.Operands.{few_types, pushed_types};
ghost use Rattle.validate_rows_gc.specs.Accesses.{place_operands};

use validate_resources::WasmModuleResources;
use validate_shapes::operands::{Few, Pushed};
use validate_types::{AbstractHeapType, HeapType, RefType, StorageType, ValType};
use validate_visit::{Exchange, FieldAccess, SharedRmwOp, Sign, Update};

/// The operands that name a place, beside the indices of its operator.
#[derive(Clone, Copy)]
pub enum PlaceOperands {
    /// None: a global.
    Named,
    /// One: an address of a table, or a reference to a struct.
    One(ValType),
    /// Two: a reference to an array, and how far it is from the first place.
    Two(ValType, ValType),
}

/// Whether it is an integer that is held as it is.
fn is_integer(held: StorageType) -> bool
    ensures { result ≡ rule.is_integer held }
{
    matches!(
        held,
        StorageType::Val(ValType::I32) | StorageType::Val(ValType::I64)
    )
}

/// Whether what is held is such an integer, or lies below the nullable references to this abstract type, of
/// this sharedness.
fn is_integer_or_below<R: WasmModuleResources>(
    resources: &R,
    shared: bool,
    ty: AbstractHeapType,
    held: StorageType,
) -> bool
    requires { Valid (R.context resources.now) (unpacked_type held) }
    ensures { result ≡ rule.is_integer_or_below (R.context resources.now) shared ty held }
{
    if is_integer(held) {
        return true;
    }
    match held {
        StorageType::I8 | StorageType::I16 => false,
        StorageType::Val(held) => {
            let above = RefType {
                nullable: true,
                heap_type: HeapType::Abstract { shared, ty },
            };
            resources.is_subtype(held, ValType::Ref(above))
        }
    }
}

/// Whether this can be done with what is held. References have to be of this sharedness.
pub fn is_allowed<R: WasmModuleResources>(
    resources: &R,
    shared: bool,
    access: FieldAccess,
    held: StorageType,
) -> bool
    requires { Valid (R.context resources.now) (unpacked_type held) }
    ensures { result ≡ rule.is_allowed (R.context resources.now) shared access held }
{
    match access {
        FieldAccess::GetPacked(_) => held.is_packed(),
        FieldAccess::Whole(Update::Rmw(_)) => is_integer(held),
        FieldAccess::Whole(Update::Value(access)) => match access {
            Exchange::Get | Exchange::Xchg => {
                is_integer_or_below(resources, shared, AbstractHeapType::Any, held)
            }
            Exchange::Set => {
                held.is_packed()
                    || is_integer_or_below(resources, shared, AbstractHeapType::Any, held)
            }
            Exchange::Cmpxchg => {
                is_integer_or_below(resources, shared, AbstractHeapType::Eq, held)
            }
        },
    }
}

/// Whether it leaves what is held as it is.
pub fn is_read(access: FieldAccess) -> bool
    ensures { result ≡ rule.is_read access }
{
    matches!(
        access,
        FieldAccess::Whole(Update::Value(Exchange::Get)) | FieldAccess::GetPacked(_)
    )
}

/// What it takes: the operands that name the place, and on them the values.
pub fn expected_by(place: PlaceOperands, access: FieldAccess, value: ValType) -> Few
    ensures { few_types result ≡ place_operands place ++ rule.expected_by access value }
{
    match access {
        FieldAccess::Whole(Update::Value(Exchange::Get)) | FieldAccess::GetPacked(_) => {
            match place {
                PlaceOperands::Named => Few::Zero,
                PlaceOperands::One(a) => Few::One(a),
                PlaceOperands::Two(a, b) => Few::Two(a, b),
            }
        }
        FieldAccess::Whole(Update::Value(Exchange::Cmpxchg)) => match place {
            PlaceOperands::Named => Few::Two(value, value),
            PlaceOperands::One(a) => Few::Three(a, value, value),
            PlaceOperands::Two(a, b) => Few::Four(a, b, value, value),
        },
        FieldAccess::Whole(_) => match place {
            PlaceOperands::Named => Few::One(value),
            PlaceOperands::One(a) => Few::Two(a, value),
            PlaceOperands::Two(a, b) => Few::Three(a, b, value),
        },
    }
}

/// What it gives.
pub fn pushed_by(access: FieldAccess, value: ValType) -> Pushed<'static>
    ensures { pushed_types result ≡ rule.pushed_by access value }
{
    match access {
        FieldAccess::Whole(Update::Value(Exchange::Set)) => Pushed::Nothing,
        _ => Pushed::One(value),
    }
}

/// Its name, after that of the place and `atomic`.
pub fn name_of(access: FieldAccess) -> &'static str {
    match access {
        FieldAccess::GetPacked(Sign::Signed) => "get_s",
        FieldAccess::GetPacked(Sign::Unsigned) => "get_u",
        FieldAccess::Whole(Update::Value(Exchange::Get)) => "get",
        FieldAccess::Whole(Update::Value(Exchange::Set)) => "set",
        FieldAccess::Whole(Update::Value(Exchange::Xchg)) => "rmw.xchg",
        FieldAccess::Whole(Update::Value(Exchange::Cmpxchg)) => "rmw.cmpxchg",
        FieldAccess::Whole(Update::Rmw(SharedRmwOp::Add)) => "rmw.add",
        FieldAccess::Whole(Update::Rmw(SharedRmwOp::Sub)) => "rmw.sub",
        FieldAccess::Whole(Update::Rmw(SharedRmwOp::And)) => "rmw.and",
        FieldAccess::Whole(Update::Rmw(SharedRmwOp::Or)) => "rmw.or",
        FieldAccess::Whole(Update::Rmw(SharedRmwOp::Xor)) => "rmw.xor",
    }
}
