//! What a reader of integers computes of each byte (WebAssembly core specification, "Binary Format: Values",
//! "Integers").

ghost use Rattle.std.specs.Prelude.{◌≡◌, ◌≤◌, ◌<◌, ◌+◌, ◌*◌, ◌^◌, ◌-◌, nat_lt, IfSome};
ghost use Rattle.binary_operators.specs.Integers.{last_biased};

/// The integer of so many bits that a last byte is, with half of 2 to their power added, or None where it is
/// none.
#[inline(always)]
pub(crate) fn last_biased(byte: u8, bits: u32) -> Option<u64>
    requires some { 0 < bits }
    requires within { bits ≤ 64 }
    requires last { byte < 128 }
    ensures value { result ≡ last_biased bits byte }
    ensures below { IfSome result (λ value. value < 2 ^ bits) }
{
    let value = u64::from(byte);
    let half = half_of(bits);
    if byte < 64 {
        if value < half {
            Some(value + half)
        } else {
            None
        }
    } else if value + half < 128 {
        None
    } else {
        Some(value + half - 128)
    }
}

/// Half of 2 to the power of so many bits.
#[inline(always)]
fn half_of(bits: u32) -> u64
    requires some { 0 < bits }
    requires within { bits ≤ 64 }
    ensures value { result ≡ 2 ^ (bits - 1) }
    ensures half { 2 ^ bits ≡ result + result }
    ensures fits { result ≤ 2 ^ 63 }
{
    1 << (bits - 1)
}

/// Whether a number of 7 bits is one of so many.
#[inline(always)]
pub(crate) fn has_bits(byte: u8, bits: u32) -> bool
    requires { byte < 128 }
    ensures { result ≡ nat_lt byte (2 ^ bits) }
{
    bits >= 7 || byte < 1 << bits
}

/// The number of which these are the low bits, so many, and these, of another width, are above them.
#[inline(always)]
pub(crate) fn raised(high: u64, width: u32, low: u64, shift: u32) -> u64
    requires some { 0 < width }
    requires room { shift + width ≤ 64 }
    requires low { low < 2 ^ shift }
    requires high { high < 2 ^ width }
    ensures value { result ≡ high * 2 ^ shift + low }
    ensures below { result < 2 ^ (shift + width) }
{
    (high << shift) + low
}
