//! Declared locals: what they answer, and how their types are held.

use crate::expectations::{ample, expect_same, expect_text};
use crate::written::Written;
use std::process::Abort;
use wasmparser_validate::locals::Locals;
use wasmparser_validate::types::ValType;

/// Locals that are declared, and what comes of it.
struct Row {
    /// How many of which types, and whether they are within the limit.
    declared: &'static [(u32, ValType, bool)],
    /// The types at some indices.
    types: &'static [(u32, Option<ValType>)],
    /// How many of which types are held plainly.
    first: &'static [(u32, &'static str)],
    /// The runs behind them, each with the greatest index of the run.
    runs: &'static str,
    /// How many there are.
    count: u32,
}

const ROWS: &[Row] = &[
    Row {
        declared: &[(2, ValType::I32, true), (60, ValType::I64, true)],
        types: &[
            (1, Some(ValType::I32)),
            (2, Some(ValType::I64)),
            (61, Some(ValType::I64)),
            (62, None),
        ],
        first: &[(2, "I32"), (48, "I64")],
        runs: "[(61, I64)]",
        count: 62,
    },
    Row {
        declared: &[(49, ValType::I32, true), (3, ValType::I64, true)],
        types: &[
            (48, Some(ValType::I32)),
            (49, Some(ValType::I64)),
            (51, Some(ValType::I64)),
            (52, None),
        ],
        first: &[(49, "I32"), (1, "I64")],
        runs: "[(51, I64)]",
        count: 52,
    },
    Row {
        declared: &[
            (50, ValType::I32, true),
            (1, ValType::I64, true),
            (1, ValType::F32, true),
        ],
        types: &[
            (49, Some(ValType::I32)),
            (50, Some(ValType::I64)),
            (51, Some(ValType::F32)),
            (52, None),
        ],
        first: &[(50, "I32")],
        runs: "[(50, I64), (51, F32)]",
        count: 52,
    },
    Row {
        declared: &[
            (50_000, ValType::I32, true),
            (4_294_967_295, ValType::I32, false),
            (0, ValType::I32, true),
        ],
        types: &[(49_999, Some(ValType::I32)), (50_000, None)],
        first: &[(50, "I32")],
        runs: "[(49999, I32)]",
        count: 50_000,
    },
];

/// Declares the locals of a row.
fn declare(rt: &impl Abort, locals: &mut Locals, declared: &[(u32, ValType, bool)]) {
    for (count, ty, is_within) in declared {
        let is_declared = ample(rt, locals.define(*count, *ty));
        expect_same(rt, is_declared, *is_within);
    }
}

/// Adds so many types, parted by commas.
fn add_types(text: &mut Written, count: u32, name: &str) {
    for _ in 0..count {
        text.add(format_args!("{name}, "));
    }
}

/// How the types of a row are held, as far as the text of them goes.
fn expect_held(rt: &(impl Abort + AllocGlobal), locals: &Locals, row: &Row) {
    let mut first = Written::new(rt.alloc());
    for (count, name) in row.first {
        add_types(&mut first, *count, name);
    }
    first.expect_memory(rt);
    let first = first.as_str().trim_end_matches(", ");
    let expected = format!(in rt.alloc(); "first: [{first}], uncached: {} }}", row.runs);
    let expected = ample(rt, expected);
    let printed = ample(rt, format!(in rt.alloc(); "{locals:?}"));
    let (_, held) = printed.split_once("], ").unwrap_or(("", &printed));
    expect_text(rt, held, &expected, row.runs);
}

/// What the locals of a row answer, and how they are held.
fn expect_row(rt: &(impl Abort + AllocGlobal), row: &Row) {
    let mut locals = Locals::new(rt.alloc());
    declare(rt, &mut locals, row.declared);
    for (index, ty) in row.types {
        expect_same(rt, locals.get(*index), *ty);
        let found = match locals.find(*index) {
            Some(ty) => Some(ty.ty()),
            None => None,
        };
        expect_same(rt, found, *ty);
    }
    expect_same(rt, locals.len_locals(), row.count);
    expect_held(rt, &locals, row);
}

/// The first fifty are held plainly, and behind them equal types are one run, however many. No clause says how they are
/// held.
#[test]
fn further_locals_are_held_in_runs(rt: HostRuntime) {
    for row in ROWS {
        expect_row(&rt, row);
    }
}

/// Parameters are locals of which each has its own type; more than the limit isn't declared.
#[test]
fn parameters_are_the_first_locals(rt: HostRuntime) {
    let mut locals = Locals::new(rt.alloc());
    let is_declared = ample(&rt, locals.define_params(&[ValType::F32, ValType::V128]));
    expect_same(&rt, is_declared, true);
    expect_same(&rt, locals.get(1), Some(ValType::V128));
    expect_same(&rt, locals.may_define(49_998), true);
    expect_same(&rt, locals.may_define(49_999), false);
    locals.clear();
    expect_same(&rt, locals.len_locals(), 0);
}
