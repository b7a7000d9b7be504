//! The refusals of operators, as a caller is told them: with a text and a place.

ghost use Rattle.std.specs.Prelude.{◌≡◌, ◌≤◌, false, length};
ghost use Rattle.validate_resources.specs.Context.{ModuleContext};
ghost use Rattle.validate_stacks.specs.Pops.{IsKept};
ghost use Rattle.validate_stacks.specs.State.{IsValidBody};
ghost use Rattle.validate_stacks.specs.Steps.{innermost_operands};
ghost use Rattle.validate_types.specs.Told.{IsRowRefused, IsTold};

use crate::blocks::label_types;
use crate::pops::ty_to_str;
use crate::stacks::Stacks;
use std::alloc::{AllocError, Global};
use validate_resources::WasmModuleResources;
use validate_resources::kinds::func_type_of;
use validate_types::{
    AbstractHeapType, Error, HeapType, MaybeType, RefType, Refusal, Told, ValType, Wording,
};

impl Stacks {
    /// The refusal, at this offset, with its text. The operands go that upstream takes before it refuses: those above one that
    /// doesn't fit, and that one; all of the frame where one isn't found; so many, where it refuses for another reason.
    #[cold]
    #[inline(never)]
    pub fn refuse<R: WasmModuleResources>(
        &mut self,
        resources: &R,
        told: Told,
        popped: usize,
        offset: u64,
    ) -> Error
        ensures offset { result.offset ≡ offset }
        ensures told { result.wants_memory ≡ false → IsRowRefused told }
        ensures valid { (md : ModuleContext) → IsValidBody md self.old.body → IsValidBody md self.new.body }
        ensures kept { IsKept self.old.body self.new.body }
    {
        let popped = self.count_popped(&told, popped);
        let error = self.refusal(resources, told, offset);
        if error.is_out_of_memory() {
            return error;
        }
        match self.exchange::<Told>(popped, &[]) {
            Ok(()) => error,
            Err(_) => Error::out_of_memory(offset),
        }
    }

    /// The refusal of a look-up, at this offset, with its text. Nothing is taken.
    #[cold]
    #[inline(never)]
    pub fn refusal<R: WasmModuleResources>(&self, resources: &R, told: Told, offset: u64) -> Error
        ensures offset { result.offset ≡ offset }
        ensures told { result.wants_memory ≡ false → IsRowRefused told }
    {
        match told {
            Told::LookUp(error) => error.at(offset),
            Told::Rule(refusal) => self.error(resources, refusal, offset),
        }
    }

    /// How many own operands of the innermost frame upstream has taken by then: so many, if an operand isn't the reason.
    fn count_popped(&self, told: &Told, popped: usize) -> usize
        ensures { result ≤ length (innermost_operands self.now.body.present.frames) }
    {
        let own = self.own_operand_count();
        match told {
            Told::Rule(Refusal::NothingFound(_)) => own,
            Told::Rule(Refusal::Mismatch { depth, .. }) => own.min(depth.saturating_add(1)),
            Told::Rule(_) | Told::LookUp(_) => own.min(popped),
        }
    }

    /// What a branch to the outermost frame carries: the results of the body; nothing, where no frame is open.
    fn body_results<'a, R: WasmModuleResources>(&'a self, resources: &'a R) -> &'a [ValType] {
        match self.get_frame(self.control_stack_height().saturating_sub(1)) {
            Some(frame) => label_types(resources, &frame.block_type, frame.kind),
            None => &[],
        }
    }

    /// The refusal of a rule, at this offset, with its text.
    fn error<R: WasmModuleResources>(&self, resources: &R, refusal: Refusal, offset: u64) -> Error
        ensures offset { result.offset ≡ offset }
        ensures told { result.wants_memory ≡ false → IsTold refusal }
    {
        if let Refusal::OutOfMemory = refusal {
            return Error::out_of_memory(offset);
        }
        match refusal.wording() {
            Wording::Fixed(text) => Error::new(text, offset).because(refusal),
            wording => match self.written(resources, wording) {
                Ok(text) => Error::with_text(text, offset).because(refusal),
                Err(_) => Error::out_of_memory(offset),
            },
        }
    }

    /// The text of a refusal, written with what stands in it.
    fn written<R: WasmModuleResources>(
        &self,
        resources: &R,
        wording: Wording,
    ) -> Result<String, AllocError> {
        let alloc = self.allocator();
        match wording {
            Wording::Fixed(text) => text.to_string(alloc),
            Wording::Index {
                before,
                index,
                behind,
            } => format!(in alloc; "{before}{index}{behind}"),
            Wording::Declared { kind, index } => declared_text(resources, alloc, kind, index),
            Wording::Results(index) => self.results_text(resources, index),
            Wording::Missing(ty) => {
                let ty = ty_to_str(ty);
                format!(in alloc; "type mismatch: expected {ty} but nothing on stack")
            }
            Wording::Mismatch { expected, found } => mismatch_text(alloc, expected, found),
            Wording::NotBelow { expected, found } => below_text(resources, alloc, expected, found),
            Wording::Named { before, ty } => {
                let ty = ty_to_str(ty);
                format!(in alloc; "{before}{ty}")
            }
            Wording::Operator {
                before,
                name,
                behind,
            } => format!(in alloc; "{before}{name}{behind}"),
            Wording::OperatorAndType {
                before,
                name,
                between,
                type_index,
                behind,
            } => format!(in alloc; "{before}{name}{between}{type_index}{behind}"),
            Wording::NotDefaultable { name, ty } => {
                format!(in alloc; "invalid `{name}`: {ty} field is not defaultable")
            }
            Wording::NotAllowed { place, name, types } => {
                format!(in alloc; "invalid type: `{place}.atomic.{name}` only allows {types}")
            }
            Wording::NoBytes(ty) => {
                format!(in alloc;
                    "array access instructions require a numeric, vector, or packed element type, found `{ty}`"
                )
            }
            Wording::OtherElements {
                name,
                segment,
                expected,
                found,
            } => {
                format!(in alloc;
                    "invalid {name} instruction: element segment {segment} type mismatch: expected {expected}, found {found}"
                )
            }
            Wording::OtherStorage { expected, found } => {
                format!(in alloc; "array types do not match: expected {expected}, found {found}")
            }
            Wording::Types {
                before,
                first,
                between,
                second,
                behind,
            } => format!(in alloc; "{before}{first}{between}{second}{behind}"),
        }
    }

    /// The text where a function of the type at this index is called last, and doesn't give what the body does.
    fn results_text<R: WasmModuleResources>(
        &self,
        resources: &R,
        type_index: u32,
    ) -> Result<String, AllocError> {
        let alloc = self.allocator();
        let expected = names_of(alloc, self.body_results(resources))?;
        let results = names_of(alloc, results_of(resources, type_index))?;
        format!(in alloc;
            "type mismatch: current function requires result type [{expected}] but callee returns [{results}]"
        )
    }
}

/// The text of a declared type of another kind than this.
fn declared_text<R: WasmModuleResources>(
    resources: &R,
    alloc: Global,
    kind: &'static str,
    type_index: u32,
) -> Result<String, AllocError> {
    match resources.sub_type_at(type_index) {
        Some(found) => {
            format!(in alloc; "expected {kind} type at index {type_index}, found {found}")
        }
        None => format!(in alloc; "unknown type: type index out of bounds"),
    }
}

/// The text of a reference that isn't below an abstract type of its own sharedness.
fn below_text<R: WasmModuleResources>(
    resources: &R,
    alloc: Global,
    expected: AbstractHeapType,
    found: MaybeType,
) -> Result<String, AllocError> {
    match found {
        MaybeType::Known(ValType::Ref(found)) => {
            let shared = resources.is_shared(found);
            let expected = RefType {
                nullable: true,
                heap_type: HeapType::Abstract {
                    shared,
                    ty: expected,
                },
            };
            format!(in alloc; "type mismatch: expected subtype of {expected}, found {found}")
        }
        MaybeType::UnknownRef(Some(found)) => {
            let expected = expected.as_str(false);
            let found = found.as_str(false);
            format!(in alloc; "type mismatch: expected subtype of {expected}, found {found}")
        }
        // Any of these fits, or is no reference.
        MaybeType::Known(_) | MaybeType::UnknownRef(None) | MaybeType::Bottom => {
            let expected = expected.as_str(false);
            format!(in alloc; "type mismatch: expected subtype of {expected}")
        }
    }
}

/// The results of the function type at this index; nothing, where there is none.
fn results_of<R: WasmModuleResources>(resources: &R, type_index: u32) -> &[ValType] {
    match resources.sub_type_at(type_index) {
        Some(sub_type) => match func_type_of(sub_type) {
            Some(func_type) => func_type.results(),
            None => &[],
        },
        None => &[],
    }
}

/// The names of types, parted by spaces.
fn names_of(alloc: Global, types: &[ValType]) -> Result<String, AllocError> {
    let mut names = String::new(alloc);
    for (index, ty) in types.iter().enumerate() {
        let parted = if index == 0 { "" } else { " " };
        write!(names, "{parted}{ty}")?;
    }
    Ok(names)
}

/// The text of an operand that doesn't fit.
fn mismatch_text(alloc: Global, expected: ValType, found: MaybeType) -> Result<String, AllocError> {
    let expected = ty_to_str(expected);
    match found {
        MaybeType::Known(found) => {
            let found = ty_to_str(found);
            format!(in alloc; "type mismatch: expected {expected}, found {found}")
        }
        MaybeType::Bottom | MaybeType::UnknownRef(_) => {
            format!(in alloc; "type mismatch: expected {expected}, found heap type")
        }
    }
}
