//! Atomic operators on memories, by shape (the threads proposal).
#![tactic(auto, using(validate_shapes::proofs::KnownRows::known_rows))]

ghost use Rattle.std.specs.Prelude.{◌≡◌, true, false, OnOk, OnErr};
ghost use Rattle.validation_rules.specs.Access.{allows_ordering};
ghost use Rattle.validation_rules.specs.Atomic.{atomic_row};
ghost use Rattle.validation_rules.specs.Operators.{row_operator};
ghost use Rattle.validate_shapes.specs.Operands.{Finds};
ghost use Rattle.validate_stacks.specs.Bodies.{CanCheck, Checks};

use validate_resources::WasmModuleResources;
use validate_shapes::accesses::check_shared_memarg;
use validate_shapes::numbers::{accessed, integer};
use validate_shapes::operands::{Few, Operands, Pushed, exchange_found};
use validate_stacks::{OperatorContext, Stacks};
use validate_types::{Gate, Refusal, Refused, ValType, WasmFeatures};
use validate_visit::{AtomicOp, Ordering};

/// Whether an operator may be ordered so.
fn allows_ordering(features: WasmFeatures, ordering: Ordering) -> bool
    ensures { result ≡ allows_ordering features ordering }
{
    match ordering {
        Ordering::SeqCst => true,
        Ordering::AcqRel => Gate::AcquireReleaseAtomics.is_open(features),
    }
}

/// Refuses a fence that only acquires and releases where `acquire_release_atomics` is off.
fn check_ordering<A: Refused>(stacks: &Stacks, ordering: Ordering) -> Result<(), A>
    ensures allowed { OnOk result (allows_ordering stacks.now.body.features ordering ≡ true) }
    ensures refused { OnErr result (allows_ordering stacks.now.body.features ordering ≡ false) }
{
    if allows_ordering(stacks.features(), ordering) {
        Ok(())
    } else {
        Err(A::of(Refusal::AcquireReleaseOff))
    }
}

/// What an atomic operator takes and gives, by the memory that it names.
fn atomic_types<A: Refused, R: WasmModuleResources>(
    context: &OperatorContext<'_, '_, R>,
    op: AtomicOp,
) -> Result<Operands<'static>, A>
    ensures { Finds (R.context context.now.resources.now) A.tells (λ cx. atomic_row cx op)
        context.now.stacks.now.body result }
{
    let (expected, pushed) = match op {
        AtomicOp::AtomicNotify(memarg) => {
            let address = check_shared_memarg(context.resources, memarg)?;
            (Few::Two(address, ValType::I32), Pushed::One(ValType::I32))
        }
        AtomicOp::AtomicWait(ty, memarg) => {
            let address = check_shared_memarg(context.resources, memarg)?;
            (
                Few::Three(address, integer(ty), ValType::I64),
                Pushed::One(ValType::I32),
            )
        }
        AtomicOp::AtomicFence(ordering) => {
            check_ordering(context.stacks, ordering)?;
            (Few::Zero, Pushed::Nothing)
        }
        AtomicOp::AtomicLoad(access, memarg) => {
            let address = check_shared_memarg(context.resources, memarg)?;
            (Few::One(address), Pushed::One(accessed(access)))
        }
        AtomicOp::AtomicStore(access, memarg) => {
            let address = check_shared_memarg(context.resources, memarg)?;
            (Few::Two(address, accessed(access)), Pushed::Nothing)
        }
        AtomicOp::AtomicRmw(access, _, memarg) => {
            let address = check_shared_memarg(context.resources, memarg)?;
            let ty = accessed(access);
            (Few::Two(address, ty), Pushed::One(ty))
        }
        AtomicOp::AtomicCmpxchg(access, memarg) => {
            let address = check_shared_memarg(context.resources, memarg)?;
            let ty = accessed(access);
            (Few::Three(address, ty, ty), Pushed::One(ty))
        }
        AtomicOp::Pause => (Few::Zero, Pushed::Nothing),
    };
    Ok(Operands::few(expected, pushed))
}

/// An atomic operator, its gate aside.
#[inline(never)]
pub fn atomic_operator<A: Refused, R: WasmModuleResources>(
    context: OperatorContext<'_, '_, R>,
    op: AtomicOp,
) -> Result<(), A>
    requires { CanCheck R.context context }
    ensures { Checks R.context A.tells (λ cx. row_operator (atomic_row cx op)) context.entry result context.exit }
{
    let found = atomic_types(&context, op);
    exchange_found(context, found)
}
