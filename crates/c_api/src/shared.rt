//! A module as several handles share it.

ghost use Rattle.std.specs.Prelude.{◌≡◌, ◌-◌, ◌^◌, min};
ghost use Rattle.module_check.specs.Loaded.{declared, features_of};
ghost use Rattle.module_rules.specs.Declarations.{declarations_of};
ghost use Rattle.c_api.specs.Modules.{context_in, features_in, AreTypesIn};
ghost use Rattle.c_api.specs.Modules.{declared_in, functions_in, imported_functions_in};
ghost use Rattle.validate_resources.specs.Kept.{declared_lists};
ghost use Rattle.validate_resources.specs.Lists.{context_of};

use module_check::{CanonicalTypes, LoadedDeclarations, LoadedModule};
use module_rules::DeclaredModule;
use std::sync::Arc;
use validate_resources::ModuleLists;
use validate_types::WasmFeatures;

/// A module that was read, or what one declares that has no bodies yet.
#[derive(Drop)]
pub enum HeldModule {
    /// A module with its bodies.
    Whole(LoadedModule<'static>),
    /// What is declared alone.
    Declared(LoadedDeclarations),
}

impl HeldModule {
    /// The lookup in which bodies are checked.
    pub fn resources(&self) -> &ModuleLists
        ensures { context_of (declared_lists result.now) ≡ context_in self.now }
    {
        match self {
            HeldModule::Whole(loaded) => loaded.resources(),
            HeldModule::Declared(declarations) => declarations.resources(),
        }
    }

    /// The proposals that are on, as operators need them.
    pub fn features(&self) -> WasmFeatures
        ensures { result ≡ features_in self.now }
    {
        match self {
            HeldModule::Whole(loaded) => loaded.features().operator_features(),
            HeldModule::Declared(declarations) => declarations.features().operator_features(),
        }
    }

    /// What the module declares.
    fn declarations(&self) -> &DeclaredModule
        ensures { declarations_of result.now ≡ declared_in self.now }
    {
        match self {
            HeldModule::Whole(loaded) => loaded.declarations(),
            HeldModule::Declared(declarations) => declarations.declarations(),
        }
    }

    /// How many functions it has, the imported ones counted.
    pub fn function_count(&self) -> u32
        ensures { result ≡ min (functions_in self.now) (2 ^ 32 - 1) }
    {
        let declared = self.declarations();
        u32::try_from(declared.functions.len()).unwrap_or(u32::MAX)
    }

    /// How many of them are imported.
    pub fn imported_count(&self) -> u32
        ensures { result ≡ imported_functions_in self.now }
    {
        self.declarations().imports.functions
    }

    /// The types of the module, by which indices in bodies are read.
    pub fn types(&self) -> CanonicalTypes<'_>
        ensures { AreTypesIn self.now result }
    {
        match self {
            HeldModule::Whole(loaded) => loaded.types(),
            HeldModule::Declared(declarations) => declarations.types(),
        }
    }
}

/// What several handles share.
#[derive(Drop)]
pub struct SharedModule {
    /// The module.
    pub held: Arc<HeldModule>,
}
