//! Why bytes aren't those of a module, and where.

ghost use Rattle.std.specs.Prelude.{◌≡◌};
ghost use Rattle.binary_operators.specs.Vectors.{IsNoVector};
ghost use Rattle.binary_operators.specs.declared.error.Cause.TheVariants.{OutOfMemory};

use std::alloc::{AllocError, AllocFailed};
use std::fmt;

/// What is wrong with bytes that are no module's.
#[derive(Clone, Copy)]
pub enum Fault {
    /// `invalid abstract heap type`
    InvalidAbstractHeapType,
    /// `invalid heap type`
    InvalidHeapType,
    /// `type index greater than implementation limits`
    TypeIndexTooLarge,
    /// `invalid value type`
    InvalidValueType,
    /// `invalid cast flags`
    InvalidCastFlags,
    /// `malformed mutability`
    MalformedMutability,
    /// `invalid leading byte (0xNN) for type`
    InvalidTypeCode(u8),
    /// `more than one supertype`
    SeveralSupertypes,
    /// `invalid catch`
    InvalidCatch,
    /// `invalid handler`
    InvalidHandler,
    /// `illegal opcode: 0xNN`, or behind a prefix `unknown 0xNN subopcode: 0xNN`
    IllegalOpcode {
        /// The prefix, if there is one.
        prefix: Option<u8>,
        /// The byte, or the number behind the prefix.
        code: u32,
    },
    /// `unexpected end`
    UnexpectedEnd,
    /// `integer too large`
    IntegerTooLarge,
    /// `integer too large: limit N has more than 32 bits`
    LimitTooLarge(u64),
    /// `integer representation too long`
    IntegerTooLong,
    /// `malformed UTF-8 encoding`
    MalformedUtf8Encoding,
    /// `invalid element kind`
    InvalidElementKind,
    /// `invalid flags of a segment`
    InvalidSegmentFlags,
    /// `invalid atomic ordering`
    InvalidAtomicOrdering,
    /// `invalid flags of limits`
    InvalidLimitsFlags,
    /// `invalid tag attributes`
    InvalidTagAttributes,
    /// `invalid table encoding`
    InvalidTableEncoding,
    /// `invalid leading byte (0xNN) for external kind`, of an import or an export.
    InvalidExternalKind(u8),
    /// `magic header not detected`
    NoMagicHeader,
    /// `unknown binary version (or a component)`
    UnknownVersion,
    /// `malformed section id`
    MalformedSectionId,
    /// `section out of order`
    SectionOutOfOrder,
    /// `section size mismatch`
    SectionSizeMismatch,
    /// `function and code section have inconsistent lengths`
    InconsistentCode,
    /// `data count and data section have inconsistent lengths`
    InconsistentData,
    /// `malformed memop alignment: alignment too large`
    AlignmentTooLarge,
}

impl Fault {
    /// The text of it, without the numbers that some have: `{}` writes these too.
    pub fn text(self) -> &'static str {
        match self {
            Fault::InvalidAbstractHeapType => "invalid abstract heap type",
            Fault::InvalidHeapType => "invalid heap type",
            Fault::TypeIndexTooLarge => "type index greater than implementation limits",
            Fault::InvalidValueType => "invalid value type",
            Fault::InvalidCastFlags => "invalid cast flags",
            Fault::MalformedMutability => "malformed mutability",
            Fault::InvalidTypeCode(_) => "invalid leading byte for type",
            Fault::SeveralSupertypes => "more than one supertype",
            Fault::InvalidCatch => "invalid catch",
            Fault::InvalidHandler => "invalid handler",
            Fault::IllegalOpcode { .. } => "illegal opcode",
            Fault::UnexpectedEnd => "unexpected end",
            Fault::IntegerTooLarge | Fault::LimitTooLarge(_) => "integer too large",
            Fault::IntegerTooLong => "integer representation too long",
            Fault::MalformedUtf8Encoding => "malformed UTF-8 encoding",
            Fault::InvalidElementKind => "invalid element kind",
            Fault::InvalidSegmentFlags => "invalid flags of a segment",
            Fault::InvalidAtomicOrdering => "invalid atomic ordering",
            Fault::InvalidLimitsFlags => "invalid flags of limits",
            Fault::InvalidTagAttributes => "invalid tag attributes",
            Fault::InvalidTableEncoding => "invalid table encoding",
            Fault::InvalidExternalKind(_) => "invalid leading byte for external kind",
            Fault::NoMagicHeader => "magic header not detected",
            Fault::UnknownVersion => "unknown binary version (or a component)",
            Fault::MalformedSectionId => "malformed section id",
            Fault::SectionOutOfOrder => "section out of order",
            Fault::SectionSizeMismatch => "section size mismatch",
            Fault::InconsistentCode => "function and code section have inconsistent lengths",
            Fault::InconsistentData => "data count and data section have inconsistent lengths",
            Fault::AlignmentTooLarge => "malformed memop alignment: alignment too large",
        }
    }

    /// Whether its text has a number.
    pub fn has_number(self) -> bool {
        matches!(
            self,
            Fault::InvalidTypeCode(_)
                | Fault::IllegalOpcode { .. }
                | Fault::LimitTooLarge(_)
                | Fault::InvalidExternalKind(_)
        )
    }
}

/// The text, with the number that it has.
impl fmt::Display for Fault {
    fn fmt<W: fmt::Write>(&self, f: &mut fmt::Formatter<W>) -> fmt::Result {
        match *self {
            Fault::InvalidTypeCode(byte) => write!(f, "invalid leading byte (0x{byte:x}) for type"),
            Fault::InvalidExternalKind(byte) => {
                write!(f, "invalid leading byte (0x{byte:x}) for external kind")
            }
            Fault::LimitTooLarge(limit) => {
                write!(f, "integer too large: limit {limit} has more than 32 bits")
            }
            Fault::IllegalOpcode { prefix: None, code } => write!(f, "illegal opcode: 0x{code:x}"),
            Fault::IllegalOpcode {
                prefix: Some(prefix),
                code,
            } => write!(f, "unknown 0x{prefix:x} subopcode: 0x{code:x}"),
            fault => f.write_str(fault.text()),
        }
    }
}

/// Why bytes are refused.
#[derive(Clone, Copy)]
pub enum Cause {
    /// They are no module's, for this reason.
    Malformed(Fault),
    /// They may be a module's, but have a vector operator, which isn't read here.
    VectorOperator,
    /// There was no memory for what was read.
    OutOfMemory,
}

/// Why bytes are refused, and the offset of the byte where it shows.
#[derive(Clone, Copy)]
pub struct ReadError {
    /// The reason.
    pub cause: Cause,
    /// The offset, from the first byte of the module.
    pub offset: u64,
}

impl ReadError {
    /// Bytes that are no module's.
    pub fn malformed(fault: Fault, offset: u64) -> ReadError
        ensures { IsNoVector result }
    {
        ReadError {
            cause: Cause::Malformed(fault),
            offset,
        }
    }

    /// The refusal of a number that no operator has behind this prefix, or of a byte that is none's where there is no
    /// prefix. The operator would begin at the offset.
    pub(crate) fn no_operator(prefix: Option<u8>, code: u32, offset: u64) -> ReadError
        ensures { IsNoVector result }
    {
        ReadError::malformed(Fault::IllegalOpcode { prefix, code }, offset)
    }

    /// The refusal of a whole code that no operator has, its prefix first. The operator would begin at the offset.
    pub(crate) fn illegal(code: u32, offset: u64) -> ReadError
        ensures { IsNoVector result }
    {
        match u8::try_from(code / 0x100) {
            Ok(0) | Err(_) => ReadError::no_operator(None, code, offset),
            Ok(prefix) => ReadError::no_operator(Some(prefix), code % 0x100, offset),
        }
    }

    /// Bytes that begin a vector operator.
    pub fn vector_operator(offset: u64) -> ReadError {
        ReadError {
            cause: Cause::VectorOperator,
            offset,
        }
    }

    /// Memory ran out.
    pub fn out_of_memory(offset: u64) -> ReadError
        ensures { result.cause ≡ OutOfMemory }
    {
        ReadError {
            cause: Cause::OutOfMemory,
            offset,
        }
    }
}

impl From<AllocError> for ReadError {
    fn from(_e: AllocError) -> ReadError {
        ReadError::out_of_memory(0)
    }
}

impl<T: Drop> From<AllocFailed<T>> for ReadError {
    fn from(_e: AllocFailed<T>) -> ReadError {
        ReadError::out_of_memory(0)
    }
}
