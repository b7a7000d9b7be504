//! Bytes and numbers of a module (WebAssembly core specification, "Binary Format: Values").

ghost use Rattle.std.specs.Prelude.{ℕ, ◌≡◌, ◌≢◌, ◌≤◌, ◌<◌, ◌+◌, ◌^◌, ◌↔◌, List, [], ◌∷◌, ◌++◌, Some, None, ◌-◌, length, take, drop, true, false, IsTrue, IfOk, OnOk, IfSome, IfErr, OnErr};
ghost use Rattle.binary_operators.specs.Integers.{unsigned, biased, signed, above};
ghost use Rattle.binary_operators.specs.Values.{float32, float64};
ghost use Rattle.binary_operators.specs.Types.{type_number};
ghost use Rattle.binary_operators.specs.Vectors.{IsNoVector};

use crate::error::{Fault, ReadError};
use crate::integers::{has_bits, last_biased, raised};
use std::marker::Model;

/// The bytes of a module up to some end, and how many of them were read (wasmparser's `BinaryReader`).
/// Contracts see what is left, an `Unread` of `specs/`.
#[derive(Drop)]
pub struct BinaryReader<'a> {
    bytes: &'a [u8],
    place: usize,
}

/// A number of several bytes, up to its last one.
#[derive(Clone, Copy)]
struct LongNumber {
    /// What the bytes before the last say: so many bits.
    low: u64,
    /// How many bits these are.
    shift: u32,
    /// The last byte.
    last: u8,
    /// Where it stands.
    offset: u64,
}

impl<'a> Model for BinaryReader<'a> {
    ghost use Rattle.std.specs.Prelude.{◌≤◌, length, drop};
    ghost use Rattle.binary_operators.specs.Unread.{Unread};

    ghost Value = { Unread };

    ghost view = { λ r. record { offset = r.place; left = drop r.place r.bytes.now } };

    ghost invariant = { λ r. r.place ≤ length r.bytes.now };
}

impl<'a> BinaryReader<'a> {
    /// A reader of these bytes, of which none is read.
    pub fn new(bytes: &'a [u8]) -> BinaryReader<'a>
        ensures { result ≡ record { offset = 0; left = bytes.now } }
    {
        BinaryReader { bytes, place: 0 }
    }

    /// Another reader of what is left.
    pub fn duplicate(&self) -> BinaryReader<'a>
        ensures { result ≡ self.now }
    {
        BinaryReader {
            bytes: self.bytes,
            place: self.place,
        }
    }

    /// The offset of the next byte.
    pub fn position(&self) -> usize
        ensures { result ≡ self.now.offset }
    {
        self.place
    }

    /// The same, as offsets are told.
    pub fn offset(&self) -> u64
        ensures { result ≡ self.now.offset }
    {
        self.place as u64
    }

    /// How many bytes are left.
    pub fn bytes_left(&self) -> usize
        ensures { result ≡ length self.now.left }
    {
        self.bytes.len() - self.place
    }

    /// Whether none is left.
    pub fn is_at_end(&self) -> bool
        ensures { IsTrue result ↔ (self.now.left ≡ []) }
    {
        self.place >= self.bytes.len()
    }

    /// The next byte, which isn't read yet. It refuses where none is left: `unexpected end`.
    pub fn peek(&self) -> Result<u8, ReadError>
        ensures next { IfOk result (λ byte. take 1 self.now.left ≡ byte ∷ []) }
        ensures ended { OnErr result (self.now.left ≡ []) }
        ensures covered { IfErr result IsNoVector }
    {
        if self.place < self.bytes.len() {
            Ok(self.bytes[self.place])
        } else {
            Err(self.ended())
        }
    }

    /// The next two bytes, which aren't read yet, or None where fewer are left.
    #[inline(always)]
    pub fn next_two(&self) -> Option<(u8, u8)>
        ensures next { IfSome result (λ two. self.now.left ≡ two.0 ∷ two.1 ∷ drop 2 self.now.left) }
        ensures ended { result ≡ None → length self.now.left < 2 }
    {
        let second = self.place + 1;
        if second < self.bytes.len() {
            return Some((self.bytes[self.place], self.bytes[second]));
        }
        None
    }

    /// A reader of what is behind the next bytes, so many.
    #[inline(always)]
    pub fn behind(&self, count: usize) -> BinaryReader<'a>
        requires { count ≤ length self.now.left }
        ensures { result ≡ record { offset = self.now.offset + count; left = drop count self.now.left } }
    {
        BinaryReader {
            bytes: self.bytes,
            place: self.place + count,
        }
    }

    /// Reads a byte. It refuses where none is left: `unexpected end`.
    #[inline(always)]
    pub fn read_u8(&mut self) -> Result<u8, ReadError>
        ensures read { IfOk result (λ byte. self.old.left ≡ byte ∷ self.new.left) }
        ensures ended { OnErr result (self.old.left ≡ []) }
        ensures kept { OnErr result (self.new ≡ self.old) }
        ensures covered { IfErr result IsNoVector }
    {
        let place = self.place;
        if place < self.bytes.len() {
            self.place = place + 1;
            Ok(self.bytes[place])
        } else {
            Err(self.ended())
        }
    }

    /// Passes over the next byte, if one is left.
    pub fn skip(&mut self)
        ensures { self.new.left ≡ drop 1 self.old.left }
    {
        match self.read_u8() {
            Ok(_) | Err(_) => {}
        }
    }

    /// Reads the next byte if it is this one, and answers whether it is. It refuses where none is left:
    /// `unexpected end`.
    pub fn read_if(&mut self, code: u8) -> Result<bool, ReadError>
        ensures read { IfOk result (λ is_code. IsTrue is_code → self.old.left ≡ code ∷ self.new.left) }
        ensures passed { IfOk result (λ is_code. is_code ≡ false → self.new ≡ self.old) }
        ensures other { IfOk result (λ is_code. is_code ≡ false → take 1 self.old.left ≢ code ∷ []) }
        ensures there { OnOk result (self.old.left ≢ []) }
        ensures ended { OnErr result (self.old.left ≡ []) }
        ensures kept { OnErr result (self.new ≡ self.old) }
        ensures covered { IfErr result IsNoVector }
    {
        if self.peek()? != code {
            return Ok(false);
        }
        self.place += 1;
        Ok(true)
    }

    /// Reads so many bytes. It refuses where fewer are left: `unexpected end`.
    pub fn read_bytes(&mut self, count: usize) -> Result<&'a [u8], ReadError>
        ensures read { IfOk result (λ s. s.now ≡ take count self.old.left) }
        ensures rest { OnOk result (self.new.left ≡ drop count self.old.left) }
        ensures there { OnOk result (count ≤ length self.old.left) }
        ensures ended { OnErr result (length self.old.left < count) }
        ensures kept { OnErr result (self.new ≡ self.old) }
        ensures covered { IfErr result IsNoVector }
    {
        if count > self.bytes_left() {
            return Err(self.ended());
        }
        let start = self.place;
        self.place = start + count;
        Ok(&self.bytes[start..start + count])
    }

    /// A reader of the next bytes, so many, which are read. It refuses where fewer are left: `unexpected end`.
    pub fn part(&mut self, count: usize) -> Result<BinaryReader<'a>, ReadError>
        ensures read { IfOk result (λ r. r ≡ record {
          offset = self.old.offset;
          left = take count self.old.left;
        }) }
        ensures rest { OnOk result (self.new.left ≡ drop count self.old.left) }
        ensures there { OnOk result (count ≤ length self.old.left) }
        ensures ended { OnErr result (length self.old.left < count) }
        ensures kept { OnErr result (self.new ≡ self.old) }
        ensures covered { IfErr result IsNoVector }
    {
        if count > self.bytes_left() {
            return Err(self.ended());
        }
        let start = self.place;
        self.place = start + count;
        Ok(BinaryReader {
            bytes: &self.bytes[..start + count],
            place: start,
        })
    }

    fn ended(&self) -> ReadError
        ensures { IsNoVector result }
    {
        ReadError::malformed(Fault::UnexpectedEnd, self.offset())
    }

    /// Reads a number below 2^32 (u32). It refuses `unexpected end`, `integer representation too long` for more
    /// bytes than such a number has, and `integer too large` for bits above.
    #[inline(always)]
    pub fn read_var_u32(&mut self) -> Result<u32, ReadError>
        ensures read { IfOk result (λ value. unsigned 32 self.old.left ≡ Some (value, self.new.left)) }
        ensures refused { OnErr result (unsigned 32 self.old.left ≡ None) }
        ensures covered { IfErr result IsNoVector }
    {
        if let Some(value) = self.read_two(32) {
            return Ok(value as u32);
        }
        let value = self.read_unsigned(32)?;
        Ok(value as u32)
    }

    /// The fast lane of [`BinaryReader::read_var_u32`] for a number that is two bytes or five. None, with nothing read,
    /// where it isn't.
    #[inline(always)]
    pub fn read_long_u32(&mut self) -> Option<u32>
        ensures read { IfSome result (λ value. unsigned 32 self.old.left ≡ Some (value, self.new.left)) }
        ensures kept { result ≡ None → self.new ≡ self.old }
    {
        let value = self.read_long_number(32)?;
        Some(value as u32)
    }

    /// The same of a number of so many bits.
    #[inline(always)]
    pub fn read_long_number(&mut self, bits: u32) -> Option<u64>
        requires some { 28 < bits }
        requires within { bits ≤ 64 }
        ensures below { IfSome result (λ value. value < 2 ^ bits) }
        ensures read { IfSome result (λ value. unsigned bits self.old.left ≡ Some (value, self.new.left)) }
        ensures kept { result ≡ None → self.new ≡ self.old }
    {
        if let Some(value) = self.read_two(bits) {
            return Some(value);
        }
        self.read_five(bits)
    }

    /// Reads a number below 2^64 (u64), as [`BinaryReader::read_var_u32`].
    pub fn read_var_u64(&mut self) -> Result<u64, ReadError>
        ensures read { IfOk result (λ value. unsigned 64 self.old.left ≡ Some (value, self.new.left)) }
        ensures refused { OnErr result (unsigned 64 self.old.left ≡ None) }
        ensures covered { IfErr result IsNoVector }
    {
        if let Some(value) = self.read_two(64) {
            return Ok(value);
        }
        self.read_unsigned(64)
    }

    /// Reads an integer of 32 bits (s32), as [`BinaryReader::read_var_u32`].
    #[inline(always)]
    pub fn read_var_i32(&mut self) -> Result<i32, ReadError>
        ensures read { IfOk result (λ value. signed 32 self.old.left ≡ Some (value, self.new.left)) }
        ensures refused { OnErr result (signed 32 self.old.left ≡ None) }
        ensures covered { IfErr result IsNoVector }
    {
        let value = self.read_biased(32)?;
        Ok((value as i64 - 0x8000_0000) as i32)
    }

    /// Reads an integer of 33 bits (s33), which is the index of a type, or None where it is negative.
    pub fn read_var_s33(&mut self) -> Result<Option<u32>, ReadError>
        ensures read { IfOk result (λ index. IfSome index (λ i. biased 33 self.old.left
            ≡ Some (i + 2 ^ 32, self.new.left))) }
        ensures negative { IfOk result (λ index. index ≡ None → type_number self.old.left ≡ None) }
        ensures refused { OnErr result (biased 33 self.old.left ≡ None) }
        ensures covered { IfErr result IsNoVector }
    {
        let value = self.read_biased(33)?;
        if value >= 0x1_0000_0000 {
            return Ok(Some((value - 0x1_0000_0000) as u32));
        }
        Ok(None)
    }

    /// Reads an integer of 64 bits (s64), as [`BinaryReader::read_var_u32`].
    pub fn read_var_i64(&mut self) -> Result<i64, ReadError>
        ensures read { IfOk result (λ value. signed 64 self.old.left ≡ Some (value, self.new.left)) }
        ensures refused { OnErr result (signed 64 self.old.left ≡ None) }
        ensures covered { IfErr result IsNoVector }
    {
        let value = self.read_biased(64)?;
        Ok((i128::from(value) - 0x8000_0000_0000_0000) as i64)
    }

    /// Reads the next byte if it ends a number, as the first byte of most numbers does.
    #[inline(always)]
    fn read_last(&mut self) -> Option<u8>
        ensures read { IfSome result (λ byte. self.old.left ≡ byte ∷ self.new.left) }
        ensures last { IfSome result (λ byte. byte < 0x80) }
        ensures kept { result ≡ None → self.new ≡ self.old }
    {
        let place = self.place;
        if place < self.bytes.len() && self.bytes[place] < 0x80 {
            self.place = place + 1;
            return Some(self.bytes[place]);
        }
        None
    }

    /// Reads a number of so many bits.
    #[inline(always)]
    fn read_unsigned(&mut self, bits: u32) -> Result<u64, ReadError>
        requires some { 0 < bits }
        requires within { bits ≤ 64 }
        ensures below { IfOk result (λ value. value < 2 ^ bits) }
        ensures read { IfOk result (λ value. unsigned bits self.old.left ≡ Some (value, self.new.left)) }
        ensures refused { OnErr result (unsigned bits self.old.left ≡ None) }
        ensures covered { IfErr result IsNoVector }
    {
        let offset = self.offset();
        match self.read_last() {
            Some(byte) if has_bits(byte, bits) => Ok(u64::from(byte)),
            Some(_) => Err(ReadError::malformed(Fault::IntegerTooLarge, offset)),
            None => self.read_long_unsigned(bits),
        }
    }

    /// Reads a number of so many bits, of any number of bytes.
    #[inline(never)]
    fn read_long_unsigned(&mut self, bits: u32) -> Result<u64, ReadError>
        requires some { 0 < bits }
        requires within { bits ≤ 64 }
        ensures below { IfOk result (λ value. value < 2 ^ bits) }
        ensures read { IfOk result (λ value. unsigned bits self.old.left ≡ Some (value, self.new.left)) }
        ensures refused { OnErr result (unsigned bits self.old.left ≡ None) }
        ensures covered { IfErr result IsNoVector }
    {
        if bits > 28 {
            if let Some(value) = self.read_five(bits) {
                return Ok(value);
            }
        }
        self.read_any_unsigned(bits)
    }

    /// The fast lane of [`BinaryReader::read_var_u64`] for a number of so many bits that is two bytes, as most long
    /// numbers are. None, with nothing read, where it isn't.
    #[inline(always)]
    fn read_two(&mut self, bits: u32) -> Option<u64>
        requires some { 7 < bits }
        requires within { bits ≤ 64 }
        ensures below { IfSome result (λ value. value < 2 ^ bits) }
        ensures read { IfSome result (λ value. unsigned bits self.old.left ≡ Some (value, self.new.left)) }
        ensures kept { result ≡ None → self.new ≡ self.old }
    {
        let (low, last) = self.next_two()?;
        if low < 0x80 || last >= 0x80 || !has_bits(last, bits - 7) {
            return None;
        }
        *self = self.behind(2);
        Some(raised(u64::from(last), bits - 7, u64::from(low - 0x80), 7))
    }

    /// The same of one that is five bytes, the room that a compiler leaves for a linker.
    #[inline(always)]
    fn read_five(&mut self, bits: u32) -> Option<u64>
        requires some { 28 < bits }
        requires within { bits ≤ 64 }
        ensures below { IfSome result (λ value. value < 2 ^ bits) }
        ensures read { IfSome result (λ value. unsigned bits self.old.left ≡ Some (value, self.new.left)) }
        ensures kept { result ≡ None → self.new ≡ self.old }
    {
        let (first, second) = self.next_two()?;
        if first < 0x80 || second < 0x80 {
            return None;
        }
        let behind = self.behind(2);
        let (third, fourth) = behind.next_two()?;
        if third < 0x80 || fourth < 0x80 {
            return None;
        }
        let mut behind = behind.behind(2);
        let last = behind.read_last()?;
        if !has_bits(last, bits - 28) {
            return None;
        }
        *self = behind;
        let high = raised(u64::from(last), bits - 28, u64::from(fourth - 0x80), 7);
        let high = raised(high, bits - 21, u64::from(third - 0x80), 7);
        let high = raised(high, bits - 14, u64::from(second - 0x80), 7);
        Some(raised(high, bits - 7, u64::from(first - 0x80), 7))
    }

    /// Reads a number of so many bits, byte by byte.
    #[inline(never)]
    fn read_any_unsigned(&mut self, bits: u32) -> Result<u64, ReadError>
        requires some { 0 < bits }
        requires within { bits ≤ 64 }
        ensures below { IfOk result (λ value. value < 2 ^ bits) }
        ensures read { IfOk result (λ value. unsigned bits self.old.left ≡ Some (value, self.new.left)) }
        ensures refused { OnErr result (unsigned bits self.old.left ≡ None) }
        ensures covered { IfErr result IsNoVector }
    {
        let long = self.read_long(bits)?;
        let width = bits - long.shift;
        if !has_bits(long.last, width) {
            return Err(ReadError::malformed(Fault::IntegerTooLarge, long.offset));
        }
        Ok(raised(u64::from(long.last), width, long.low, long.shift))
    }

    /// Reads the bytes of a number of so many bits, of any number of bytes, up to its last one.
    #[inline(always)]
    fn read_long(&mut self, bits: u32) -> Result<LongNumber, ReadError>
        requires some { 0 < bits }
        requires within { bits ≤ 64 }
        ensures shift { IfOk result (λ long. long.shift < bits) }
        ensures low { IfOk result (λ long. long.low < 2 ^ long.shift) }
        ensures last { IfOk result (λ long. long.last < 128) }
        ensures unsigned { IfOk result (λ long. unsigned bits self.old.left
            ≡ above long.shift long.low (unsigned (bits - long.shift) (long.last ∷ self.new.left))) }
        ensures biased { IfOk result (λ long. biased bits self.old.left
            ≡ above long.shift long.low (biased (bits - long.shift) (long.last ∷ self.new.left))) }
        ensures refused { OnErr result ((unsigned bits self.old.left ≡ None) × (biased bits self.old.left ≡ None)) }
        ensures covered { IfErr result IsNoVector }
    {
        let mut low = 0;
        let mut shift = 0;
        loop {
            let offset = self.offset();
            let last = self.read_u8()?;
            if last < 0x80 {
                return Ok(LongNumber {
                    low,
                    shift,
                    last,
                    offset,
                });
            }
            if bits - shift <= 7 {
                return Err(ReadError::malformed(Fault::IntegerTooLong, offset));
            }
            low = raised(u64::from(last - 0x80), 7, low, shift);
            shift += 7;
        }
    }

    /// Reads an integer of so many bits, and answers it with half of 2 to their power added, which is no
    /// negative number.
    #[inline(always)]
    fn read_biased(&mut self, bits: u32) -> Result<u64, ReadError>
        requires some { 0 < bits }
        requires within { bits ≤ 64 }
        ensures below { IfOk result (λ value. value < 2 ^ bits) }
        ensures read { IfOk result (λ value. biased bits self.old.left ≡ Some (value, self.new.left)) }
        ensures refused { OnErr result (biased bits self.old.left ≡ None) }
        ensures covered { IfErr result IsNoVector }
    {
        let offset = self.offset();
        let Some(byte) = self.read_last() else {
            return self.read_long_biased(bits);
        };
        match last_biased(byte, bits) {
            Some(value) => Ok(value),
            None => Err(ReadError::malformed(Fault::IntegerTooLarge, offset)),
        }
    }

    /// Reads an integer of so many bits, of any number of bytes, and answers it with half of 2 to their power
    /// added.
    #[inline(always)]
    fn read_long_biased(&mut self, bits: u32) -> Result<u64, ReadError>
        requires some { 0 < bits }
        requires within { bits ≤ 64 }
        ensures below { IfOk result (λ value. value < 2 ^ bits) }
        ensures read { IfOk result (λ value. biased bits self.old.left ≡ Some (value, self.new.left)) }
        ensures refused { OnErr result (biased bits self.old.left ≡ None) }
        ensures covered { IfErr result IsNoVector }
    {
        let long = self.read_long(bits)?;
        let width = bits - long.shift;
        match last_biased(long.last, width) {
            Some(value) => Ok(raised(value, width, long.low, long.shift)),
            None => Err(ReadError::malformed(Fault::IntegerTooLarge, long.offset)),
        }
    }

    /// Reads how many bytes there are, and answers a reader of these, which are read, as [`BinaryReader::part`].
    /// It refuses what [`BinaryReader::read_var_u32`] refuses, and where fewer bytes are left: `unexpected end`.
    pub fn sized_part(&mut self) -> Result<BinaryReader<'a>, ReadError>
        ensures read { IfOk result (λ r. unsigned 32 self.old.left ≡ Some (length r.left, r.left ++ self.new.left)) }
        ensures refused { OnErr result ((size : ℕ) (rest : List ℕ) → unsigned 32 self.old.left ≡ Some (size, rest)
            → length rest < size) }
        ensures covered { IfErr result IsNoVector }
    {
        let size = self.read_var_u32()?;
        self.part(size as usize)
    }

    /// Reads the bits of a float of 32 bits. It refuses where fewer bytes are left: `unexpected end`.
    #[tactic(auto, unfolding(crate::specs::Values::float32))]
    pub fn read_f32(&mut self) -> Result<u32, ReadError>
        ensures read { IfOk result (λ bits. float32 self.old.left ≡ Some (bits, self.new.left)) }
        ensures refused { OnErr result (float32 self.old.left ≡ None) }
        ensures covered { IfErr result IsNoVector }
    {
        match self.read_bytes(4)? {
            [a, b, c, d] => Ok(u32::from_le_bytes([*a, *b, *c, *d])),
            _ => Err(self.ended()),
        }
    }

    /// Reads the bits of a float of 64 bits. It refuses where fewer bytes are left: `unexpected end`.
    #[tactic(auto, unfolding(crate::specs::Values::float64))]
    pub fn read_f64(&mut self) -> Result<u64, ReadError>
        ensures read { IfOk result (λ bits. float64 self.old.left ≡ Some (bits, self.new.left)) }
        ensures refused { OnErr result (float64 self.old.left ≡ None) }
        ensures covered { IfErr result IsNoVector }
    {
        let low = self.read_f32()?;
        let high = self.read_f32()?;
        Ok(u64::from(high) * 0x1_0000_0000 + u64::from(low))
    }
}
