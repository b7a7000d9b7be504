//! A number that is mixed from words. Things are looked for by it first, so that few of them are compared.

ghost use Rattle.std.specs.Prelude.{◌≡◌};
ghost use Rattle.module_rules.specs.Mixing.{mix};

/// What each sum is multiplied by. It is odd, so that no two sums become equal.
const FACTOR: u64 = 0x9e37_79b9_7f4a_7c15;

/// Mixes a word more into a number.
#[tactic(auto, unfolding(crate::specs::Mixing::mix))]
pub fn mix(mixed: u64, word: u64) -> u64
    ensures { result ≡ mix mixed word }
{
    mixed.wrapping_add(word).wrapping_mul(FACTOR)
}
