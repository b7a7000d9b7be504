//! Which locals are set: each call succeeds where there is memory.

use crate::expectations::{ample, expect, expect_same};
use wasmparser_validate::locals::LocalInits;
use wasmparser_validate::types::{AbstractHeapType, HeapType, NotDone, RefType, ValType};

/// `(ref func)`, of which there is no default value.
const FUNC: ValType = ValType::Ref(RefType {
    nullable: false,
    heap_type: HeapType::Abstract {
        shared: false,
        ty: AbstractHeapType::Func,
    },
});

/// Sets two new locals, the last first, and unsets them again: the indices come in the order in which they were set.
#[test]
fn locals_that_begin_unset(rt: HostRuntime) {
    let mut inits = LocalInits::new(rt.alloc());
    ample(&rt, inits.define_locals(2, FUNC));
    ample(&rt, inits.set_init(1));
    ample(&rt, inits.set_init(0));
    let unset = ample(&rt, inits.pop_ctrl(0));
    expect_same(&rt, unset.as_slice(), [1, 0].as_slice());
    expect_same(&rt, inits.height(), 0);
    expect(&rt, inits.is_uninit(0) && inits.is_uninit(1));
}

/// What was set is answered by the height, and goes by it.
#[test]
fn locals_that_are_set_in_order(rt: HostRuntime) {
    let mut inits = LocalInits::new(rt.alloc());
    ample(&rt, inits.define_locals(2, FUNC));
    ample(&rt, inits.set_init(1));
    ample(&rt, inits.set_init(0));
    expect_same(&rt, inits.set_since(0), [1, 0].as_slice());
    expect(&rt, inits.room() >= 2);
    inits.drop_ctrl(1);
    expect_same(&rt, inits.set_since(0), [1].as_slice());
}

/// Where nothing was unset, nothing is put back.
#[test]
fn nothing_is_put_back(rt: HostRuntime) {
    let mut inits = LocalInits::new(rt.alloc());
    inits.put_back(&[]);
    expect(&rt, inits.is_empty());
    expect_same(&rt, inits.height(), 0);
}

/// Parameters are set from the start, whatever their types.
#[test]
fn parameters_begin_set(rt: HostRuntime) {
    let mut inits = LocalInits::new(rt.alloc());
    expect(&rt, inits.is_empty());
    ample(&rt, inits.reserve(3));
    ample(&rt, inits.define_params(3));
    expect(&rt, !inits.is_uninit(2));
    inits.clear();
    expect(&rt, inits.is_empty());
}

/// Room to set a local is asked for, unless that may not be.
#[test]
fn room_to_set_a_local(rt: HostRuntime) {
    let mut inits = LocalInits::new(rt.alloc());
    let refused: Result<(), NotDone> = inits.take_room();
    expect_same(&rt, refused, Err(NotDone));
    let mut other = LocalInits::new(inits.allocator());
    ample(&rt, other.define_locals(1, FUNC));
    ample(&rt, other.set_init(0));
    expect_same(&rt, other.height(), 1);
}
