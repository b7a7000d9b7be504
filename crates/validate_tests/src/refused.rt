//! Modules that are refused, in which words, and which of two refusals comes first: a script says no more
//! than that its module is none.

use crate::expectations::{ample, expect_error};
use crate::modules::declared;
use std::process::Abort;
use wasmparser_validate::resources::ModuleLists;

/// Lines of a module, and the words in which it is refused, or that it is kept.
const MODULES: &[(&str, &str)] = &[
    ("fn 0", "unknown type"),
    ("type func ->\nfn 1", "unknown type"),
    ("tag 0", "unknown type"),
    ("type func ->\ntag 4294967295", "unknown type"),
    ("table refnull:0", "unknown type"),
    ("global ref:0", "unknown type"),
    ("elem ref:exact-0", "unknown type"),
    ("type func ref:1 ->", "unknown type"),
    ("type struct i8 mut:refnull:1", "unknown type"),
    ("type array ref:7", "unknown type"),
    ("type cont 1", "unknown type"),
    ("type sub=1 func ->", "unknown type"),
    ("type desc=1 struct", "unknown type"),
    ("type describes=1 struct", "unknown type"),
    ("type sub=0 func ->", "invalid supertype"),
    ("type sub=1 func ->\ntype func ->", "invalid supertype"),
    ("type func ->\ntype sub=0 struct", "invalid supertype"),
    ("type struct\ntype sub=0 array i8", "invalid supertype"),
    ("type struct\ntype sub=0 shared struct", "invalid supertype"),
    ("type shared struct\ntype sub=0 struct", "invalid supertype"),
    (
        "type func ->\ntype cont 0\ntype sub=1 func ->",
        "invalid supertype",
    ),
    ("type struct\nfn 0", "expected func type"),
    ("type array i8\ntag 0", "expected func type"),
    ("type struct\ntype cont 0", "expected func type"),
    ("type cont 0", "expected func type"),
    (
        "type desc=1 func ->\ntype struct",
        "descriptor on non-struct type",
    ),
    ("type desc=0 array i8", "descriptor on non-struct type"),
    // Two faults.
    ("type sub=0 func ref:1 ->", "unknown type"),
    ("type sub=0 struct\nfn 1", "unknown type"),
    ("type sub=0 struct\nfn 0", "invalid supertype"),
    ("type desc=0 array i8\nfn 0", "expected func type"),
    // None of these.
    ("fn 0\ntag 1\ntype func ->\ntype func i32 -> f64", "kept"),
    (
        "type struct i8\ntype sub=0 struct i8 refnull:2\ntype array ref:1",
        "kept",
    ),
    ("type shared struct\ntype sub=0 shared struct", "kept"),
    ("type cont 1\ntype func ->\ntype sub=0 cont 1", "kept"),
    ("type desc=1 struct\ntype describes=0 struct", "kept"),
];

/// What is said of a module of these lines.
fn expect_said(rt: &(impl Abort + AllocGlobal), lines: &str, said: &str) {
    let answer = ModuleLists::from_declarations(rt.alloc(), declared(rt, lines));
    if said == "kept" {
        ample(rt, answer);
    } else {
        expect_error(rt, answer, said, 0);
    }
}

#[test]
fn refused_modules(rt: HostRuntime) {
    for (lines, said) in MODULES {
        expect_said(&rt, lines, said);
    }
}
