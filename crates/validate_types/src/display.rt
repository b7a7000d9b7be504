//! How types and refusals print.

ghost use Rattle.std.specs.Prelude.{Some};
ghost use Rattle.std.specs.Fmt.{DisplaysOnOk};
ghost use Rattle.validate_types.specs.Display.{index_text, reference_text, value_text, operand_text, storage_text, kind_text, refusal_text};

use crate::error::Error;
use crate::heap::{HeapType, UnpackedIndex};
use crate::refs::RefType;
use crate::types::{CompositeInnerType, MaybeType, StorageType, SubType, ValType};
use std::{error, fmt};

/// `(module N)` or `(id N)`.
impl fmt::Display for UnpackedIndex {
    ghost output = { λ i. Some (index_text i) };

    fn fmt<W: fmt::Write>(&self, f: &mut fmt::Formatter<W>) -> fmt::Result {
        match self {
            UnpackedIndex::Module(index) => {
                let index = *index;
                write!(f, "(module {index})")
            }
            UnpackedIndex::Id(id) => {
                let id = id.index();
                write!(f, "(id {id})")
            }
        }
    }
}

/// The text of `wat`, where a type of the module has its index, as in `(ref null (module 0))` and
/// `(ref (exact (id 0)))`.
impl fmt::Display for RefType {
    ghost output = { λ r. Some (reference_text r) };

    fn fmt<W: fmt::Write>(&self, f: &mut fmt::Formatter<W>) -> fmt::Result {
        match self.heap_type() {
            HeapType::Abstract { .. } => f.write_str(self.wat()),
            HeapType::Concrete(index) => {
                if self.is_nullable() {
                    write!(f, "(ref null {index})")
                } else {
                    write!(f, "(ref {index})")
                }
            }
            HeapType::Exact(index) => {
                if self.is_nullable() {
                    write!(f, "(ref null (exact {index}))")
                } else {
                    write!(f, "(ref (exact {index}))")
                }
            }
        }
    }
}

impl fmt::Display for ValType {
    ghost output = { λ t. Some (value_text t) };

    fn fmt<W: fmt::Write>(&self, f: &mut fmt::Formatter<W>) -> fmt::Result {
        match self {
            ValType::I32 => f.write_str("i32"),
            ValType::I64 => f.write_str("i64"),
            ValType::F32 => f.write_str("f32"),
            ValType::F64 => f.write_str("f64"),
            ValType::V128 => f.write_str("v128"),
            ValType::Ref(ty) => {
                let ty = *ty;
                write!(f, "{ty}")
            }
        }
    }
}

/// `bot`, `(ref shared? bot)`, `(ref shared? anybot)`, or the type that is known.
impl fmt::Display for MaybeType {
    ghost output = { λ m. Some (operand_text m) };

    fn fmt<W: fmt::Write>(&self, f: &mut fmt::Formatter<W>) -> fmt::Result {
        match self {
            MaybeType::Bottom => f.write_str("bot"),
            MaybeType::UnknownRef(None) => f.write_str("(ref shared? bot)"),
            MaybeType::UnknownRef(Some(ty)) => {
                let name = ty.as_str(true);
                write!(f, "(ref shared? {name}bot)")
            }
            MaybeType::Known(ty) => {
                let ty = *ty;
                write!(f, "{ty}")
            }
        }
    }
}

/// `i8`, `i16`, or the value type.
impl fmt::Display for StorageType {
    ghost output = { λ t. Some (storage_text t) };

    fn fmt<W: fmt::Write>(&self, f: &mut fmt::Formatter<W>) -> fmt::Result {
        match self {
            StorageType::I8 => f.write_str("i8"),
            StorageType::I16 => f.write_str("i16"),
            StorageType::Val(ty) => {
                let ty = *ty;
                write!(f, "{ty}")
            }
        }
    }
}

/// The kind of the type: `func`, `array`, `struct` or `cont`.
impl fmt::Display for SubType {
    ghost output = { λ s. Some (kind_text s.composite_type.inner) };

    fn fmt<W: fmt::Write>(&self, f: &mut fmt::Formatter<W>) -> fmt::Result {
        match &self.composite_type.inner {
            CompositeInnerType::Func(_) => f.write_str("func"),
            CompositeInnerType::Array(_) => f.write_str("array"),
            CompositeInnerType::Struct(_) => f.write_str("struct"),
            CompositeInnerType::Cont(_) => f.write_str("cont"),
        }
    }
}

/// The text of the refusal, and the offset in hexadecimal digits, as in `type mismatch (at offset 0x1f)`.
impl fmt::Display for Error {
    ghost output = { λ e. Some (refusal_text e) };

    fn fmt<W: fmt::Write>(&self, f: &mut fmt::Formatter<W>) -> fmt::Result {
        let message = self.message();
        let offset = self.offset();
        write!(f, "{message} (at offset 0x{offset:x})")
    }
}

impl error::Error for Error {}
