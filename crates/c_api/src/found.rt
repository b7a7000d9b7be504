//! What a call took out of a handle.

ghost use Rattle.std.specs.Prelude.{◌≡◌, Some, MatchOption};
ghost use Rattle.c_api.specs.Calls.{HasNoModule};
ghost use Rattle.c_api.specs.FunctionCalls.{HasNoFunction};
ghost use Rattle.c_api.specs.Handle.{held_in};
ghost use Rattle.c_api.specs.Found.{Finds};
ghost use Rattle.c_api.specs.declared.kept.Kept.TheVariants.{Module, Function};

use crate::function::FunctionInProgress;
use crate::kept::Kept;
use crate::shared::{HeldModule, SharedModule};
use module_check::LoadedModule;

impl Kept {
    /// The share of a module that it is, if it is one.
    fn module(&self) -> Option<&SharedModule>
        ensures { MatchOption result (HasNoModule (Some self.now)) (λ s. self.now ≡ Module s.now) }
    {
        match self {
            Kept::Module(shared) => Some(shared),
            Kept::Function(_) => None,
        }
    }

    /// The function that it is, if it is one.
    fn function(&self) -> Option<&FunctionInProgress>
        ensures { MatchOption result (HasNoFunction (Some self.now)) (λ f. self.now ≡ Function f.now) }
    {
        match self {
            Kept::Module(_) => None,
            Kept::Function(function) => Some(function),
        }
    }
}

/// The share of a module that was taken, if one was.
pub(crate) fn module_in(taken: &Option<Box<Kept>>) -> Option<&SharedModule>
    ensures { MatchOption result (HasNoModule (held_in taken.now)) (λ s. held_in taken.now ≡ Some (Module s.now)) }
{
    match taken {
        Some(kept) => kept.module(),
        None => None,
    }
}

/// The function that was taken, if one was.
pub(crate) fn function_in(taken: &Option<Box<Kept>>) -> Option<&FunctionInProgress>
    ensures { MatchOption result (HasNoFunction (held_in taken.now)) (λ f. held_in taken.now ≡ Some (Function f.now)) }
{
    match taken {
        Some(kept) => kept.function(),
        None => None,
    }
}

/// What there is to check.
#[derive(Drop)]
pub(crate) enum Found<'a> {
    /// A module with its bodies.
    Bodies(&'a LoadedModule<'static>),
    /// What a module declares that has no bodies yet.
    NoBodies,
    /// No module.
    NoModule,
}

/// What there is to check in what was taken.
pub(crate) fn found_in(taken: &Option<Box<Kept>>) -> Found<'_>
    ensures { Finds (held_in taken.now) result }
{
    match module_in(taken) {
        Some(shared) => match &*shared.held {
            HeldModule::Whole(loaded) => Found::Bodies(loaded),
            HeldModule::Declared(_) => Found::NoBodies,
        },
        None => Found::NoModule,
    }
}
