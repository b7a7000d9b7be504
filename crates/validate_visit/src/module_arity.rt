//! Who knows what the operators of a body name: tags, types, functions and labels.

ghost use Rattle.std.specs.Prelude.{◌≡◌, ◌<◌, ◌^◌, ℕ, Option, IsSome, option_and_then};
ghost use Rattle.validate_types.specs.Types.{Signature};
ghost use Rattle.std.specs.Option.{option_copied, ForSome};
ghost use Rattle.validate_types.specs.declared.heap.CoreTypeId.{CoreTypeId};
ghost use Rattle.validate_types.specs.declared.types.SubType.{SubType};
ghost use Rattle.validate_types.specs.Heap.{id_of};
ghost use Rattle.validate_types.specs.Kinds.{signature_of};
ghost use Rattle.validate_visit.specs.Arity.{id_in, arity_of};
ghost use Rattle.validate_visit.specs.declared.frame.BlockType.{BlockType};
ghost use Rattle.validate_visit.specs.declared.frame.FrameKind.{FrameKind};

use crate::frame::{BlockType, FrameKind};
use validate_types::{ContType, FuncType, RefType, SubType};

/// Knows the types that the operators of a body name, and the open frames (wasmparser's `ModuleArity`). These say how
/// many operands an operator takes and gives.
pub trait ModuleArity {
    /// What the tag at this index carries, and what is given back for it.
    ghost tag_at: { Self → ℕ → Option Signature };

    /// The index of the type of the function at this index.
    ghost type_index_of: { Self → ℕ → Option ℕ };

    /// The type that the module declares at this index.
    ghost type_at: { Self → ℕ → Option SubType };

    /// The type that this id names, where the module knows the id.
    ghost type_of_id: { Self → CoreTypeId → Option SubType };

    /// How many frames are open.
    ghost open_frames: { Self → ℕ };

    /// The block type and the kind of the frame at this depth, the innermost at 0.
    ghost label_at: { Self → ℕ → Option (BlockType × FrameKind) };

    /// How many operands the tag at this index carries, and how many are given back for it; None past
    /// the end, and where either number doesn't fit.
    fn tag_type_arity(&self, tag_index: u32) -> Option<(u32, u32)>
        ensures { result ≡ option_and_then arity_of (tag_at self.now tag_index) };

    /// The index of the type of the function at this index, or None past the end.
    fn type_index_of_function(&self, function_index: u32) -> Option<u32>
        ensures { result ≡ type_index_of self.now function_index };

    /// The type declared at this index, or None past the end.
    fn sub_type_at(&self, type_index: u32) -> Option<&SubType>
        ensures { option_copied result ≡ type_at self.now type_index };

    /// The function type of a continuation, by the id in its type, which the module has to know; None where
    /// the index in it is none, and where the id names no function type.
    fn func_type_of_cont_type(&self, cont_type: &ContType) -> Option<&FuncType>
        requires { ForSome (id_of cont_type.now.0) (λ id. IsSome (type_of_id self.now id)) }
        ensures { option_copied result ≡ option_and_then signature_of
            (option_and_then (type_of_id self.now) (id_of cont_type.now.0)) };

    /// The type that the reference points to by its id, which the module has to know; None where it
    /// points to an abstract type, or to a type by its index.
    fn sub_type_of_ref_type(&self, ty: &RefType) -> Option<&SubType>
        requires { ForSome (id_in ty.now.heap_type) (λ id. IsSome (type_of_id self.now id)) }
        ensures { option_copied result ≡ option_and_then (type_of_id self.now) (id_in ty.now.heap_type) };

    /// How many frames are open. The number has to fit.
    fn control_stack_height(&self) -> u32
        requires { open_frames self.now < 2 ^ 32 }
        ensures { result ≡ open_frames self.now };

    /// The block type and the kind of the frame that a branch of this depth names, the innermost at 0,
    /// or None past the end.
    fn label_block(&self, depth: u32) -> Option<(BlockType, FrameKind)>
        ensures { result ≡ label_at self.now depth };
}
