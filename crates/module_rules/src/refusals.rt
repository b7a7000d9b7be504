//! What a caller is told where a module's declarations are refused.

ghost use Rattle.std.specs.Prelude.{◌≡◌, ◌≢◌, false};
ghost use Rattle.module_rules.specs.declared.refusals.ModuleRefusal.TheVariants.{Invalid, TooLarge};
ghost use Rattle.validate_types.specs.declared.error.Error.{Error};

use validate_types::Error;

/// Why the declarations of a module are refused.
#[derive(Debug, Drop)]
pub enum ModuleRefusal {
    /// They aren't valid.
    Invalid(Error),
    /// They are past a limit of this implementation. Whether they are valid isn't told.
    TooLarge(Error),
    /// Memory ran out.
    OutOfMemory,
}

impl ModuleRefusal {
    /// A rule doesn't hold, unless this is want of memory.
    pub(crate) fn invalid(error: Error) -> ModuleRefusal
        ensures invalid { (e : Error) → result ≡ Invalid e → error.wants_memory ≡ false }
        ensures rule { (e : Error) → result ≢ TooLarge e }
    {
        if error.is_out_of_memory() {
            return ModuleRefusal::OutOfMemory;
        }
        ModuleRefusal::Invalid(error)
    }

    /// A limit is passed, unless this is want of memory.
    pub(crate) fn too_large(error: Error) -> ModuleRefusal
        ensures { (e : Error) → result ≢ Invalid e }
    {
        if error.is_out_of_memory() {
            return ModuleRefusal::OutOfMemory;
        }
        ModuleRefusal::TooLarge(error)
    }
}
