//! What follows the code of an operator (WebAssembly core specification, "Binary Format: Instructions", and
//! the proposals).
//!
//! `.ci/generate` writes the forms of codes from `operators.tsv`; by hand is how each is looked up.

ghost use Rattle.std.specs.Prelude.{◌≡◌, ◌<◌, ◌≤◌, ◌+◌, length, OnSome};
ghost use Rattle.binary_operators.specs.Forms.{from, forms, forms_behind};

use crate::forms::Form::{
    Access, Array, Atomic, Block, Cast, Clauses, Conversion, F32, F64, Fence, Field, Global,
    Handlers, Heap, I32, I64, Illegal, Index, Labels, Numeric, Plain, Prefix, Table, Thrown,
    TwoIndices, TwoTypes, TypeIndex, TypedIndex, Types, Vector,
};

/// What follows a code.
#[derive(Clone, Copy)]
pub enum Form {
    /// No operator has the code.
    Illegal,
    /// Nothing.
    Plain,
    /// The type of a block.
    Block,
    /// An index.
    Index,
    /// Two indices.
    TwoIndices,
    /// The index of a type.
    TypeIndex,
    /// The index of a type, and another index.
    TypedIndex,
    /// The indices of two types.
    TwoTypes,
    /// A heap type.
    Heap,
    /// A label and the two types of a cast.
    Cast,
    /// A place in a memory.
    Access,
    /// A place in a memory, for an atomic operator of seven kinds of access.
    Atomic,
    /// An integer of 32 bits.
    I32,
    /// An integer of 64 bits.
    I64,
    /// A float of 32 bits.
    F32,
    /// A float of 64 bits.
    F64,
    /// Nothing, of an operator on numbers of one type.
    Numeric,
    /// Nothing, of a conversion.
    Conversion,
    /// The labels of a `br_table`.
    Labels,
    /// The types of a `select`.
    Types,
    /// The type of a `try_table`, and its clauses.
    Clauses,
    /// The index of a type, and the handlers of a `resume`.
    Handlers,
    /// The index of a type, the tag of what is thrown, and the handlers of a `resume_throw`.
    Thrown,
    /// The order of a fence.
    Fence,
    /// The order of an atomic access, and the index of a global.
    Global,
    /// The order of an atomic access, and the index of a table.
    Table,
    /// The order of an atomic access, the index of a type and that of a field.
    Field,
    /// The order of an atomic access, and the index of an array type.
    Array,
    /// Another code.
    Prefix,
    /// What makes a vector operator.
    Vector,
}

/// Codes of one byte.
static FORMS: [Form; 256] = [
    // from 0x00 on
    Plain, Plain, Block, Block, Block, Plain, Block, Index, Index, Index, Plain, Plain, Index,
    Index, Labels, Plain,
    // from 0x10 on
    Index, TypedIndex, Index, TypedIndex, TypeIndex, TypeIndex, Illegal, Illegal, Index, Plain,
    Plain, Plain, Types, Illegal, Illegal, Clauses,
    // from 0x20 on
    Index, Index, Index, Index, Index, Index, Index, Illegal, Access, Access, Access, Access,
    Access, Access, Access, Access,
    // from 0x30 on
    Access, Access, Access, Access, Access, Access, Access, Access, Access, Access, Access, Access,
    Access, Access, Access, Index,
    // from 0x40 on
    Index, I32, I64, F32, F64, Numeric, Numeric, Numeric, Numeric, Numeric, Numeric, Numeric,
    Numeric, Numeric, Numeric, Numeric,
    // from 0x50 on
    Numeric, Numeric, Numeric, Numeric, Numeric, Numeric, Numeric, Numeric, Numeric, Numeric,
    Numeric, Numeric, Numeric, Numeric, Numeric, Numeric,
    // from 0x60 on
    Numeric, Numeric, Numeric, Numeric, Numeric, Numeric, Numeric, Numeric, Numeric, Numeric,
    Numeric, Numeric, Numeric, Numeric, Numeric, Numeric,
    // from 0x70 on
    Numeric, Numeric, Numeric, Numeric, Numeric, Numeric, Numeric, Numeric, Numeric, Numeric,
    Numeric, Numeric, Numeric, Numeric, Numeric, Numeric,
    // from 0x80 on
    Numeric, Numeric, Numeric, Numeric, Numeric, Numeric, Numeric, Numeric, Numeric, Numeric,
    Numeric, Numeric, Numeric, Numeric, Numeric, Numeric,
    // from 0x90 on
    Numeric, Numeric, Numeric, Numeric, Numeric, Numeric, Numeric, Numeric, Numeric, Numeric,
    Numeric, Numeric, Numeric, Numeric, Numeric, Numeric,
    // from 0xa0 on
    Numeric, Numeric, Numeric, Numeric, Numeric, Numeric, Numeric, Conversion, Conversion,
    Conversion, Conversion, Conversion, Conversion, Conversion, Conversion, Conversion,
    // from 0xb0 on
    Conversion, Conversion, Conversion, Conversion, Conversion, Conversion, Conversion, Conversion,
    Conversion, Conversion, Conversion, Conversion, Conversion, Conversion, Conversion, Conversion,
    // from 0xc0 on
    Conversion, Conversion, Conversion, Conversion, Conversion, Illegal, Illegal, Illegal, Illegal,
    Illegal, Illegal, Illegal, Illegal, Illegal, Illegal, Illegal,
    // from 0xd0 on
    Heap, Plain, Index, Plain, Plain, Index, Index, Illegal, Illegal, Illegal, Illegal, Illegal,
    Illegal, Illegal, Illegal, Illegal,
    // from 0xe0 on
    TypeIndex, TwoTypes, Index, Handlers, Thrown, Handlers, TypedIndex, Illegal, Illegal, Illegal,
    Illegal, Illegal, Illegal, Illegal, Illegal, Illegal,
    // from 0xf0 on
    Illegal, Illegal, Illegal, Illegal, Illegal, Illegal, Illegal, Illegal, Illegal, Illegal,
    Illegal, Prefix, Prefix, Vector, Prefix, Illegal,
];

/// Codes behind the prefix 0xfb.
static FORMS_FB: [Form; 39] = [
    // from 0x00 on
    TypeIndex, TypeIndex, TypedIndex, TypedIndex, TypedIndex, TypedIndex, TypeIndex, TypeIndex,
    TypedIndex, TypedIndex, TypedIndex, TypeIndex, TypeIndex, TypeIndex, TypeIndex, Plain,
    // from 0x10 on
    TypeIndex, TwoTypes, TypedIndex, TypedIndex, Heap, Heap, Heap, Heap, Cast, Cast, Plain, Plain,
    Plain, Plain, Plain, Illegal,
    // from 0x20 on
    TypeIndex, TypeIndex, TypeIndex, Heap, Heap, Cast, Cast,
];

/// Codes behind the prefix 0xfc.
static FORMS_FC: [Form; 23] = [
    // from 0x00 on
    Plain, Plain, Plain, Plain, Plain, Plain, Plain, Plain, TwoIndices, Index, TwoIndices, Index,
    TwoIndices, Index, TwoIndices, Index,
    // from 0x10 on
    Index, Index, Index, Plain, Plain, Plain, Plain,
];

/// Codes behind the prefix 0xfe.
static FORMS_FE: [Form; 115] = [
    // from 0x00 on
    Access, Access, Access, Fence, Plain, Illegal, Illegal, Illegal, Illegal, Illegal, Illegal,
    Illegal, Illegal, Illegal, Illegal, Illegal,
    // from 0x10 on
    Atomic, Atomic, Atomic, Atomic, Atomic, Atomic, Atomic, Atomic, Atomic, Atomic, Atomic, Atomic,
    Atomic, Atomic, Atomic, Atomic,
    // from 0x20 on
    Atomic, Atomic, Atomic, Atomic, Atomic, Atomic, Atomic, Atomic, Atomic, Atomic, Atomic, Atomic,
    Atomic, Atomic, Atomic, Atomic,
    // from 0x30 on
    Atomic, Atomic, Atomic, Atomic, Atomic, Atomic, Atomic, Atomic, Atomic, Atomic, Atomic, Atomic,
    Atomic, Atomic, Atomic, Atomic,
    // from 0x40 on
    Atomic, Atomic, Atomic, Atomic, Atomic, Atomic, Atomic, Atomic, Atomic, Atomic, Atomic, Atomic,
    Atomic, Atomic, Atomic, Global,
    // from 0x50 on
    Global, Global, Global, Global, Global, Global, Global, Global, Table, Table, Table, Table,
    Field, Field, Field, Field,
    // from 0x60 on
    Field, Field, Field, Field, Field, Field, Field, Array, Array, Array, Array, Array, Array,
    Array, Array, Array,
    // from 0x70 on
    Array, Array, Plain,
];

/// The item of this code, where the first item has that one, if there is one.
#[inline(always)]
pub(crate) fn item<T: Copy>(items: &[T], first: u32, code: u32) -> Option<T>
    ensures item { result ≡ from first items.now code }
    ensures within { OnSome result (code < first + length items.now) }
{
    if code < first {
        return None;
    }
    let place = (code - first) as usize;
    if place < items.len() {
        Some(items[place])
    } else {
        None
    }
}

/// What follows this code of one byte.
#[inline(always)]
pub fn form_of(code: u8) -> Option<Form>
    ensures { result ≡ from 0 forms code }
{
    item(&FORMS, 0, u32::from(code))
}

/// What follows codes behind this prefix, from 0 on.
#[tactic(auto, unfolding(crate::specs::Forms::forms_fb, crate::specs::Forms::forms_fc, crate::specs::Forms::forms_fe))]
fn forms_behind(prefix: u8) -> &'static [Form]
    ensures forms { result.now ≡ forms_behind prefix }
    ensures few { length result.now ≤ 0x100 }
{
    match prefix {
        0xfb => &FORMS_FB,
        0xfc => &FORMS_FC,
        0xfe => &FORMS_FE,
        _ => &[],
    }
}

/// What follows this code behind a prefix, if there is such an operator.
pub(crate) fn form_behind(prefix: u8, code: u32) -> Option<Form>
    ensures form { result ≡ from 0 (forms_behind prefix) code }
    ensures below { OnSome result (code < 0x100) }
{
    item(forms_behind(prefix), 0, code)
}
