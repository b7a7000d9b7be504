//! Why a module isn't loaded.

ghost use Rattle.std.specs.Prelude.{◌≡◌, ◌≢◌, ◌⊎◌, ℕ, drop};
ghost use Rattle.binary_operators.specs.Vectors.{BeginVector};
ghost use Rattle.module_check.specs.declared.load_refusal.LoadRefusal.TheVariants.{Judged, TooLarge};
ghost use Rattle.module_check.specs.declared.verdict.Verdict.TheVariants.{Accepted, Refused, Malformed, NotCovered, OutOfMemory};
ghost use Rattle.module_rules.specs.declared.refusals.ModuleRefusal.TheVariants.{Invalid, TooLarge as PastLimit};
ghost use Rattle.validate_types.specs.declared.error.Error.{Error};

use crate::verdict::Verdict;
use module_rules::ModuleRefusal;
use validate_types::Error;

/// Why a module isn't loaded.
#[derive(Drop)]
pub enum LoadRefusal {
    /// This is its verdict, which is never `Accepted`.
    Judged(Verdict),
    /// What it declares is past a limit of this implementation. Whether it is valid isn't told.
    TooLarge(Error),
}

impl LoadRefusal {
    /// Why a module isn't loaded whose declarations are refused.
    pub(crate) fn of_module(refusal: ModuleRefusal) -> LoadRefusal
        ensures refused { result ≢ Judged Accepted }
        ensures invalid { (e : Error) → result ≡ Judged (Refused e) → refusal ≡ Invalid e }
        ensures too_large { (e : Error) → result ≡ TooLarge e → refusal ≡ PastLimit e }
        ensures covered { (offset : ℕ) → result ≢ Judged (NotCovered offset) }
        ensures readable { (e : Error) → result ≢ Judged (Malformed e) }
    {
        match refusal {
            ModuleRefusal::Invalid(error) => LoadRefusal::Judged(Verdict::Refused(error)),
            ModuleRefusal::TooLarge(error) => LoadRefusal::TooLarge(error),
            ModuleRefusal::OutOfMemory => LoadRefusal::Judged(Verdict::OutOfMemory),
        }
    }

    /// The same on these bytes: a verdict is *not covered* only where a vector operator begins at the offset that it tells.
    pub(crate) fn within(self, bytes: &[u8]) -> LoadRefusal
        ensures refused { result ≡ Judged Accepted → self ≡ Judged Accepted }
        ensures same { (offset : ℕ) → result ≡ Judged (NotCovered offset)
            → self ≡ Judged (NotCovered offset) }
        ensures uncovered { (offset : ℕ) → result ≡ Judged (NotCovered offset)
            → BeginVector (drop offset bytes.now) }
        ensures malformed { (e : Error) → result ≡ Judged (Malformed e) → (self ≡ Judged (Malformed e))
            ⊎ ((offset : ℕ) × (self ≡ Judged (NotCovered offset))) }
        ensures invalid { (e : Error) → result ≡ Judged (Refused e) → self ≡ Judged (Refused e) }
        ensures too_large { (e : Error) → result ≡ TooLarge e → self ≡ TooLarge e }
        ensures memory { self ≡ Judged OutOfMemory → result ≡ Judged OutOfMemory }
    {
        match self {
            LoadRefusal::Judged(verdict) => LoadRefusal::Judged(verdict.within(bytes)),
            LoadRefusal::TooLarge(error) => LoadRefusal::TooLarge(error),
        }
    }
}
