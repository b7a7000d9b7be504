//! Value types and frames as a caller in C is shown them.

ghost use Rattle.std.specs.Prelude.{◌≡◌, ◌≢◌, IfSome, IfOk};
ghost use Rattle.c_api.specs.Shown.{abstract_code, mark, plain, shown_reference, shown_type, shown_operand};
ghost use Rattle.c_api.specs.Shown.{Names, NamesHeap, kind_number, block_kind, block_index, block_value};
ghost use Rattle.c_api.specs.Shown.{shown_frame};
ghost use Rattle.validate_types.specs.Heap.{number_of};

use binary_operators::{CanonicalTypes, Fault};
use validate_types::{AbstractHeapType, HeapType, RefType, UnpackedIndex, ValType};
use validate_visit::{BlockType, Frame, FrameKind};

/// The code of a reference to a declared type.
const INDEX: u32 = 1;

/// A value type, as C lays it out.
#[repr(C)]
#[derive(Clone, Copy)]
pub struct ShownType {
    /// Its byte in the binary format, an abstract reference by that of its heap type; 1 for a reference to a declared type;
    /// 0 where it isn't known.
    pub code: u32,
    /// The index of the declared type.
    pub index: u32,
    /// Of a reference: 1 where null is one of its values.
    pub nullable: u8,
    /// 1 where it is to the shared copy of the abstract type.
    pub shared: u8,
    /// 1 where types declared below it are left out.
    pub exact: u8,
    /// 0
    pub reserved: u8,
}

/// An open frame, as C lays it out.
#[repr(C)]
#[derive(Clone, Copy)]
pub struct ShownFrame {
    /// How many operands lie below its own.
    pub height: u64,
    /// What opened it, or which part of it is open: a number in the order of [`FrameKind`].
    pub kind: u32,
    /// Its block type: 0 takes and gives nothing, 1 gives a value, 2 is a function type.
    pub block_kind: u32,
    /// The index of the function type.
    pub block_index: u32,
    /// 1 where its code is dead from here on.
    pub unreachable: u32,
    /// The type of the value.
    pub block_type: ShownType,
}

/// The byte of an abstract heap type.
fn abstract_code(ty: AbstractHeapType) -> u32
    ensures { result ≡ abstract_code ty }
{
    match ty {
        AbstractHeapType::Cont => 0x68,
        AbstractHeapType::Exn => 0x69,
        AbstractHeapType::Array => 0x6a,
        AbstractHeapType::Struct => 0x6b,
        AbstractHeapType::I31 => 0x6c,
        AbstractHeapType::Eq => 0x6d,
        AbstractHeapType::Any => 0x6e,
        AbstractHeapType::Extern => 0x6f,
        AbstractHeapType::Func => 0x70,
        AbstractHeapType::None => 0x71,
        AbstractHeapType::NoExtern => 0x72,
        AbstractHeapType::NoFunc => 0x73,
        AbstractHeapType::NoExn => 0x74,
        AbstractHeapType::NoCont => 0x75,
    }
}

/// The abstract heap type of this byte, if it is one's.
fn abstract_type(code: u32) -> Option<AbstractHeapType>
    ensures { IfSome result (λ ty. code ≡ abstract_code ty) }
{
    Some(match code {
        0x68 => AbstractHeapType::Cont,
        0x69 => AbstractHeapType::Exn,
        0x6a => AbstractHeapType::Array,
        0x6b => AbstractHeapType::Struct,
        0x6c => AbstractHeapType::I31,
        0x6d => AbstractHeapType::Eq,
        0x6e => AbstractHeapType::Any,
        0x6f => AbstractHeapType::Extern,
        0x70 => AbstractHeapType::Func,
        0x71 => AbstractHeapType::None,
        0x72 => AbstractHeapType::NoExtern,
        0x73 => AbstractHeapType::NoFunc,
        0x74 => AbstractHeapType::NoExn,
        0x75 => AbstractHeapType::NoCont,
        _ => return None,
    })
}

/// The number that names a declared type.
fn number(index: UnpackedIndex) -> u32
    ensures { result ≡ number_of index }
{
    match index {
        UnpackedIndex::Module(index) => index,
        UnpackedIndex::Id(id) => id.index(),
    }
}

impl ShownType {
    /// A type without index and marks.
    pub fn plain(code: u32) -> ShownType
        ensures { result ≡ plain code }
    {
        ShownType {
            code,
            index: 0,
            nullable: 0,
            shared: 0,
            exact: 0,
            reserved: 0,
        }
    }

    /// A reference to a declared type.
    fn declared(nullable: bool, index: UnpackedIndex, exact: bool) -> ShownType
        ensures { result ≡ record (plain 1) { index = number_of index; nullable = mark nullable; exact = mark exact } }
    {
        ShownType {
            index: number(index),
            nullable: u8::from(nullable),
            exact: u8::from(exact),
            ..ShownType::plain(INDEX)
        }
    }

    /// A reference.
    fn of_reference(ty: RefType) -> ShownType
        ensures { result ≡ shown_reference ty.nullable ty.heap_type }
    {
        let nullable = ty.is_nullable();
        match ty.heap_type() {
            HeapType::Abstract { shared, ty } => ShownType {
                nullable: u8::from(nullable),
                shared: u8::from(shared),
                ..ShownType::plain(abstract_code(ty))
            },
            HeapType::Concrete(index) => ShownType::declared(nullable, index, false),
            HeapType::Exact(index) => ShownType::declared(nullable, index, true),
        }
    }

    /// A value type.
    pub fn of(ty: ValType) -> ShownType
        ensures { result ≡ shown_type ty }
    {
        match ty {
            ValType::I32 => ShownType::plain(0x7f),
            ValType::I64 => ShownType::plain(0x7e),
            ValType::F32 => ShownType::plain(0x7d),
            ValType::F64 => ShownType::plain(0x7c),
            ValType::V128 => ShownType::plain(0x7b),
            ValType::Ref(ty) => ShownType::of_reference(ty),
        }
    }

    /// The type of an operand, which may be unknown.
    pub fn of_operand(ty: Option<ValType>) -> ShownType
        ensures { result ≡ shown_operand ty }
    {
        match ty {
            Some(ty) => ShownType::of(ty),
            None => ShownType::plain(0),
        }
    }

    /// The reference that it names, if it names one.
    fn reference(&self, types: CanonicalTypes<'_>) -> Result<RefType, Fault>
        ensures { IfOk result (λ ty. Names types.entry self.now (ValType.Ref ty)) }
    {
        let heap_type = self.heap_type(types).ok_or(Fault::InvalidValueType)?;
        RefType::new(self.nullable != 0, heap_type).ok_or(Fault::TypeIndexTooLarge)
    }

    /// The heap type that it names, if it names one.
    fn heap_type(&self, types: CanonicalTypes<'_>) -> Option<HeapType>
        ensures { IfSome result (NamesHeap types.entry self.now) }
    {
        if self.code == INDEX {
            let name = types.name(self.index);
            return Some(if self.exact == 0 {
                HeapType::Concrete(name)
            } else {
                HeapType::Exact(name)
            });
        }
        let ty = abstract_type(self.code)?;
        let shared = self.shared != 0;
        Some(HeapType::Abstract { shared, ty })
    }

    /// The value type that it names, where indices of types are read as these. It refuses a code that is no type's, and
    /// an index that is too large for a reference.
    pub fn value_type(&self, types: CanonicalTypes<'_>) -> Result<ValType, Fault>
        ensures { IfOk result (Names types.entry self.now) }
    {
        match self.code {
            0x7f => Ok(ValType::I32),
            0x7e => Ok(ValType::I64),
            0x7d => Ok(ValType::F32),
            0x7c => Ok(ValType::F64),
            0x7b => Ok(ValType::V128),
            _ => Ok(ValType::Ref(self.reference(types)?)),
        }
    }
}

/// What opened a frame, or which part of it is open, as a number.
fn kind_number(kind: FrameKind) -> u32
    ensures { result ≡ kind_number kind }
{
    match kind {
        FrameKind::Block => 0,
        FrameKind::If => 1,
        FrameKind::Else => 2,
        FrameKind::Loop => 3,
        FrameKind::TryTable => 4,
        FrameKind::LegacyTry => 5,
        FrameKind::LegacyCatch => 6,
        FrameKind::LegacyCatchAll => 7,
    }
}

/// A block type: how it is named, the index of a function type, and a value type.
fn block_parts(ty: BlockType) -> (u32, u32, ShownType)
    ensures kind { result.0 ≡ block_kind ty }
    ensures index { result.1 ≡ block_index ty }
    ensures value { result.2 ≡ block_value ty }
{
    match ty {
        BlockType::Empty => (0, 0, ShownType::plain(0)),
        BlockType::Val(ty) => (1, 0, ShownType::of(ty)),
        BlockType::FuncType(index) => (2, index, ShownType::plain(0)),
    }
}

impl ShownFrame {
    /// A frame.
    pub fn of(frame: &Frame) -> ShownFrame
        ensures { result ≡ shown_frame frame.now }
    {
        let (block_kind, block_index, block_type) = block_parts(frame.block_type);
        ShownFrame {
            height: frame.height as u64,
            kind: kind_number(frame.kind),
            block_kind,
            block_index,
            unreachable: u32::from(frame.unreachable),
            block_type,
        }
    }
}
