//! Types, features and refusals: a call of each function, with what the standard and the proposals say.

use crate::expectations::{ample, expect, expect_same};
use std::alloc::AllocError;
use std::process::Abort;
use wasmparser_validate::types::{
    AbstractHeapType, CoreTypeId, Error, Flags, FuncType, Gate, HeapType, MaybeType, MemoryType,
    NotDone, OutOfMemory, PackedIndex, RefType, Refusal, Refused, StorageType, TableType, Told,
    UnpackedIndex, ValType, WasmFeatures, Wording, func_signature_matches, grown,
};

/// Which flags are set, in the order of their bits, each by its own call.
fn flags_of(features: WasmFeatures) -> [bool; 21] {
    [
        features.multi_value(),
        features.floats(),
        features.simd(),
        features.reference_types(),
        features.bulk_memory(),
        features.bulk_memory_opt(),
        features.sign_extension(),
        features.saturating_float_to_int(),
        features.threads(),
        features.shared_everything_threads(),
        features.exceptions(),
        features.legacy_exceptions(),
        features.tail_call(),
        features.function_references(),
        features.gc(),
        features.custom_descriptors(),
        features.stack_switching(),
        features.memory_control(),
        features.wide_arithmetic(),
        features.acquire_release_atomics(),
        features.multibyte_array_access(),
    ]
}

/// Of one flag no other call says that it is set.
#[test]
fn each_flag_by_its_call(rt: HostRuntime) {
    for (place, flag) in WasmFeatures::flags().iter().enumerate() {
        for (other, is_set) in flags_of(*flag.value()).iter().enumerate() {
            expect_same(&rt, *is_set, other == place);
        }
    }
    expect_same(&rt, flags_of(WasmFeatures::all()), [true; 21]);
}

#[test]
fn types_whose_proposals_are_off(rt: HostRuntime) {
    let features = WasmFeatures::all().difference(WasmFeatures::SIMD);
    expect_same(&rt, features.check_value_type(ValType::F64), Ok(()));
    let simd_off = Err("SIMD support is not enabled");
    expect_same(&rt, features.check_value_type(ValType::V128), simd_off);
    let gc_off = Err("gc support is not enabled");
    let features = features.difference(WasmFeatures::GC);
    expect_same(&rt, features.check_ref_type(RefType::ANYREF), gc_off);
    expect_same(&rt, features.check_ref_type(RefType::FUNCREF), Ok(()));
    expect(
        &rt,
        Gate::Threads.is_open(features) && !Gate::Gc.is_open(features),
    );
    expect_same(&rt, Gate::Gc.refusal(), "gc support is not enabled");
}

/// An unshared abstract type.
fn abstract_type(ty: AbstractHeapType) -> HeapType {
    HeapType::Abstract { shared: false, ty }
}

#[test]
fn references_to_abstract_types(rt: HostRuntime) {
    let ty = RefType::new(true, abstract_type(AbstractHeapType::None));
    let ty = ty.unwrap_or(RefType::EXN);
    expect(
        &rt,
        ty.is_nullable() && ty.is_none_ref() && !ty.is_concrete_type_ref(),
    );
    expect_same(&rt, ty.wat(), "nullref");
    expect_same(&rt, ty.as_non_null().wat(), "(ref none)");
    expect_same(&rt, ty.as_non_null().nullable(), ty);
    expect_same(&rt, ty.heap_type(), abstract_type(AbstractHeapType::None));
    expect_same(&rt, ty.type_index(), None);
    expect_same(&rt, RefType::difference(ty, ty), ty.as_non_null());
    let shared = RefType::I31.shared().map(RefType::wat);
    expect_same(&rt, shared, Some("(ref (shared i31))"));
    expect(
        &rt,
        AbstractHeapType::I31.is_subtype_of(AbstractHeapType::Eq),
    );
    expect(
        &rt,
        !AbstractHeapType::Eq.is_subtype_of(AbstractHeapType::I31),
    );
    expect_same(&rt, AbstractHeapType::NoFunc.as_str(true), "nullfunc");
}

/// What is packed is below 2^20.
#[test]
fn references_to_types_of_a_module(rt: HostRuntime) {
    let id = CoreTypeId::from_index(3);
    expect_same(&rt, id.index(), 3);
    expect_same(&rt, UnpackedIndex::Module(1 << 20).pack(), None);
    expect_same(&rt, UnpackedIndex::Module(5).as_module_index(), Some(5));
    expect_same(&rt, UnpackedIndex::Module(5).as_core_type_id(), None);
    match UnpackedIndex::Id(id).pack() {
        Some(packed) => expect_packed(&rt, packed, id),
        None => expect(&rt, false),
    }
}

/// What is packed is the id, and the references to it.
fn expect_packed(rt: &impl Abort, packed: PackedIndex, id: CoreTypeId) {
    expect_same(rt, packed.unpack(), UnpackedIndex::Id(id));
    expect_same(rt, packed.as_core_type_id(), Some(id));
    let ty = RefType::concrete(false, packed);
    expect(rt, ty.is_concrete_type_ref() && !ty.is_exact_type_ref());
    expect_same(rt, ty.type_index(), Some(UnpackedIndex::Id(id)));
    let ty = RefType::exact(true, packed);
    expect(rt, ty.is_concrete_type_ref() && ty.is_exact_type_ref());
    expect_same(rt, ty.wat(), "(ref null (exact type))");
    expect_same(rt, ty.shared(), None);
}

#[test]
fn value_types_and_operands(rt: HostRuntime) {
    expect(&rt, ValType::FUNCREF.is_defaultable());
    expect(&rt, !ValType::from(RefType::I31).is_defaultable());
    let number: MaybeType = MaybeType::from(ValType::I32);
    expect_same(&rt, number, MaybeType::Known(ValType::I32));
    let reference: MaybeType = MaybeType::from(RefType::EXNREF);
    expect_same(&rt, reference, MaybeType::Known(ValType::EXNREF));
    let bottom: MaybeType<RefType> = MaybeType::Bottom;
    let operand: MaybeType = MaybeType::from(bottom);
    expect_same(&rt, operand, MaybeType::Bottom);
    expect(&rt, StorageType::I16.is_packed());
    expect_same(&rt, StorageType::I16.unpack(), ValType::I32);
    let wide = StorageType::Val(ValType::I64);
    expect(&rt, !wide.is_packed() && wide.unpack() == ValType::I64);
}

#[test]
fn types_of_addresses(rt: HostRuntime) {
    let memory = MemoryType {
        memory64: true,
        shared: false,
    };
    expect_same(&rt, memory.index_type(), ValType::I64);
    let table = TableType {
        element_type: RefType::FUNCREF,
        table64: false,
        shared: false,
    };
    expect_same(&rt, table.index_type(), ValType::I32);
}

/// A type that is the same, or, of two references, one whose abstract type lies below.
fn is_below(a: ValType, b: ValType) -> bool {
    match (a, b) {
        (ValType::Ref(a), ValType::Ref(b)) => a == RefType::EQREF || a == b,
        _ => a == b,
    }
}

/// It takes what is above, and gives what is below.
#[test]
fn the_order_of_signatures(rt: HostRuntime) {
    let any = ValType::Ref(RefType::ANYREF);
    let eq = ValType::Ref(RefType::EQREF);
    let ty = FuncType::new(
        ample(&rt, vec![in rt.alloc(); any]),
        ample(&rt, vec![in rt.alloc(); eq]),
    );
    let (takes, gives) = (ty.params(), ty.results());
    let is_lower = func_signature_matches(takes, gives, &[eq], &[any], is_below);
    let is_higher = func_signature_matches(&[eq], &[any], takes, gives, is_below);
    expect(&rt, is_lower && !is_higher);
}

/// A refusal with a text that was made for it, which is told elsewhere and for a reason.
fn expect_moved(rt: &(impl Abort + AllocGlobal)) {
    let told = ample(rt, "told".to_string(rt.alloc()));
    let refusal = Error::with_text(told, 5);
    expect_same(rt, refusal.message(), "told");
    expect(rt, refusal.offset() == 5 && !refusal.is_out_of_memory());
    let moved = refusal.at(6).because(Refusal::UnknownLabel);
    expect_same(rt, moved.offset(), 6);
    expect(rt, matches!(moved.reason(), Some(Refusal::UnknownLabel)));
}

/// A refusal for whose text there was no memory.
fn expect_unmade(rt: &impl Abort) {
    let unmade = Error::from_text(Err(AllocError), 7);
    expect(rt, unmade.is_out_of_memory());
    expect(rt, Error::out_of_memory(7).is_out_of_memory());
    expect_same(rt, unmade.message(), "out of memory");
}

#[test]
fn refusals_with_their_texts(rt: HostRuntime) {
    expect_moved(&rt);
    expect_unmade(&rt);
    let plain = Error::new("plain", 8);
    expect(&rt, plain.message() == "plain" && plain.reason().is_none());
    let arity = Refusal::SelectArity.wording();
    expect(&rt, matches!(arity, Wording::Fixed("invalid result arity")));
    let local = Refusal::UnknownLocal(7).wording();
    expect(&rt, matches!(local, Wording::Index { index: 7, .. }));
}

/// What a body answers if it refuses, told or not.
fn refused_by<A: Refused>() -> (A, A, bool) {
    let told = A::of(Refusal::UnknownLabel);
    let looked_up = A::by_look_up(Error::new("unknown", 9));
    (told, looked_up, A::may_allocate())
}

#[test]
fn refusals_of_bodies(rt: HostRuntime) {
    let (told, looked_up, may_allocate): (NotDone, NotDone, bool) = refused_by();
    expect(&rt, told == looked_up && !may_allocate);
    let (told, looked_up, may_allocate): (Told, Told, bool) = refused_by();
    expect(&rt, matches!(told, Told::Rule(Refusal::UnknownLabel)));
    expect(&rt, matches!(looked_up, Told::LookUp(_)) && may_allocate);
    let refused: Result<(), NotDone> = grown(Err(OutOfMemory));
    expect_same(&rt, refused, Err(NotDone));
}
