//! Numbers as a script writes them: decimal digits, in constants after an optional `-`.

ghost use Rattle.std.specs.Prelude.{◌≡◌, ◌≢◌, All, IfOk, IsErrOf, MatchOption, OnOk, map, slice_index};
ghost use Rattle.std.specs.Option.{SomeIff};
ghost use Rattle.std.specs.Str.Parse.{digits_value};
ghost use Rattle.std.specs.Int.{w32, w64};
ghost use Rattle.script_reader.specs.Numbers.{IsIndex, IsExponent, IsLongNumber, IsConstant, constant_value};
ghost use Rattle.script_reader.specs.declared.parts.failure.LineError.{LineError};

use crate::parts::failure::LineError;
use std::alloc::Global;

/// The token, if it has no `+` in front, which std's readers of numbers would allow.
fn without_plus(token: &str) -> Option<&str>
    ensures { MatchOption result (slice_index token.now 0 ≡ 43)
        (λ same. (same.now ≡ token.now) × (slice_index token.now 0 ≢ 43)) }
{
    if token.starts_with('+') {
        None
    } else {
        Some(token)
    }
}

/// The index or count that a token writes, if it does.
pub fn read_index(token: &str) -> Option<u32>
    ensures { SomeIff result (IsIndex token.now) (digits_value 10 token.now) }
{
    without_plus(token)?.parse().ok()
}

/// The indices that these tokens write, if each of them does.
pub fn read_indices(alloc: Global, tokens: &[&str]) -> Result<Vec<u32>, LineError>
    ensures read { IfOk result (λ indices. indices.items
        ≡ map (λ token. digits_value 10 token.now) tokens.now) }
    ensures good { OnOk result (All (λ token. IsIndex token.now) tokens.now) }
    ensures bad { IsErrOf result LineError.Bad → ¬ (All (λ token. IsIndex token.now) tokens.now) }
{
    let mut indices = Vec::new(alloc);
    for token in tokens {
        indices.push(read_index(token).ok_or(LineError::Bad)?)?;
    }
    Ok(indices)
}

/// The constant of type `i32` that a token writes, if it does.
pub fn read_i32(token: &str) -> Option<i32>
    ensures { SomeIff result (IsConstant w32 token.now) (constant_value token.now) }
{
    without_plus(token)?.parse().ok()
}

/// The constant of type `i64` that a token writes, if it does.
pub fn read_i64(token: &str) -> Option<i64>
    ensures { SomeIff result (IsConstant w64 token.now) (constant_value token.now) }
{
    without_plus(token)?.parse().ok()
}

/// The exponent of an alignment that a token writes, if it does.
pub fn read_u8(token: &str) -> Option<u8>
    ensures { SomeIff result (IsExponent token.now) (digits_value 10 token.now) }
{
    without_plus(token)?.parse().ok()
}

/// The bits of a float of 64 bits, or the offset of an access, that a token writes, if it does.
pub fn read_u64(token: &str) -> Option<u64>
    ensures { SomeIff result (IsLongNumber token.now) (digits_value 10 token.now) }
{
    without_plus(token)?.parse().ok()
}
