//! Floats by their bits.

ghost use Rattle.std.specs.Prelude.{◌≡◌};

/// A float of 32 bits, by its bits (wasmparser's `Ieee32`).
#[derive(Clone, Copy, Debug, PartialEq, Eq)]
pub struct Ieee32(pub u32);

/// A float of 64 bits, by its bits (wasmparser's `Ieee64`).
#[derive(Clone, Copy, Debug, PartialEq, Eq)]
pub struct Ieee64(pub u64);

impl Ieee32 {
    /// The bits, as IEEE 754 lays them out.
    pub fn bits(self) -> u32
        ensures { result ≡ self.0 }
    {
        self.0
    }
}

impl Ieee64 {
    /// The bits, as IEEE 754 lays them out.
    pub fn bits(self) -> u64
        ensures { result ≡ self.0 }
    {
        self.0
    }
}
