//! What is shown of the operators of a body: all of them, or what stands behind a refusal.

ghost use Rattle.validate_resources.specs.Kept.{declared_lists};
ghost use Rattle.validate_resources.specs.Lists.{context_of};
ghost use Rattle.validate_operators.specs.Validator.{state};
ghost use Rattle.validate_stacks.specs.State.{IsStarting};

use crate::lines::Lines;
use crate::listing::Listing;
use crate::operators::{Code, Trail};
use crate::origins::Origins;
use crate::scene::Scene;
use crate::walk::{Stop, Walk, begin, walk_through};
use crate::written::Written;
use module_check::{LoadedModule, Verdict};
use std::io;
use validate_operators::OperatorValidator;
use validate_resources::ModuleLists;
use validate_stacks::OperatorValidatorAllocations;
use validate_types::{Error, WasmFeatures};

/// What is to be shown of a body that was checked.
#[derive(Clone, Copy)]
pub struct Asked<'o> {
    /// How lines are written.
    pub lines: Lines<'o>,
    /// Whether all its operators are listed.
    pub is_traced: bool,
    /// Whether a refusal is explained.
    pub is_explained: bool,
    /// What was found as it was read up to its refusal.
    pub trail: Trail,
    /// What it comes to.
    pub verdict: &'o Verdict,
}

/// The refusal that a verdict is, if it is one.
pub fn refusal_of(verdict: &Verdict) -> Option<&Error> {
    match verdict {
        Verdict::Refused(refusal) | Verdict::Malformed(refusal) => Some(refusal),
        Verdict::Accepted | Verdict::NotCovered(_) | Verdict::OutOfMemory => None,
    }
}

/// The offset at which a walk through a body ends: the refusal's, if there is one.
fn end_of(verdict: &Verdict) -> u64 {
    match verdict {
        Verdict::Refused(refusal) | Verdict::Malformed(refusal) => refusal.offset(),
        Verdict::NotCovered(offset) => *offset,
        Verdict::Accepted | Verdict::OutOfMemory => u64::MAX,
    }
}

impl Asked<'_> {
    /// Whether anything is to be shown.
    pub fn is_anything(&self) -> bool {
        match self.verdict {
            Verdict::Refused(_) | Verdict::Malformed(_) => self.is_traced || self.is_explained,
            Verdict::Accepted | Verdict::NotCovered(_) => self.is_traced,
            Verdict::OutOfMemory => false,
        }
    }

    /// The offset of the first operator that is listed.
    fn from(&self) -> u64 {
        if self.is_traced { 0 } else { self.trail.from }
    }
}

/// A walk that ended at a refusal is whole.
fn ended(walked: Result<(), Stop>) -> io::Result<()> {
    match walked {
        Ok(()) | Err(Stop::Refusal) => Ok(()),
        Err(Stop::OutOfMemory) => Err(io::Error::from(io::ErrorKind::OutOfMemory)),
    }
}

/// Adds what stands behind the refusal of a body, if that is asked for.
fn add_scene(
    v: &OperatorValidator,
    resources: &ModuleLists,
    code: &Code<'_>,
    asked: Asked<'_>,
    walk: &mut Walk<'_>,
) {
    if let (true, Some(refusal)) = (asked.is_explained, refusal_of(asked.verdict)) {
        let scene = Scene {
            v,
            resources,
            origins: &walk.origins,
            bytes: walk.bytes,
            kind: code.kind,
            operator: asked.trail.operator,
            reason: refusal.reason(),
        };
        scene.add(&mut walk.listing.written, asked.lines);
    }
}

/// Walks through a body by its validator, which is new, and adds its operators, and what is asked beside.
fn add_body(
    v: &mut OperatorValidator,
    resources: &ModuleLists,
    code: &mut Code<'_>,
    asked: Asked<'_>,
    walk: &mut Walk<'_>,
) -> Result<(), Stop>
    requires { IsStarting (context_of (declared_lists resources.now)) (state v.old) }
{
    let walked = walk_through(v, resources, &mut code.reader, walk);
    walk.listing.end();
    add_scene(v, resources, code, asked, walk);
    walked
}

/// Begins a body by its validator, which is new, and adds what is asked of it: nothing, where its locals are refused.
fn add_from_begin(
    v: &mut OperatorValidator,
    resources: &ModuleLists,
    features: &WasmFeatures,
    code: &mut Code<'_>,
    asked: Asked<'_>,
    walk: &mut Walk<'_>,
) -> Result<(), Stop> {
    begin(v, resources, features, code)?;
    add_body(v, resources, code, asked, walk)
}

/// Adds what is asked of a body, in a validator of its own.
fn add_code(
    resources: &ModuleLists,
    features: &WasmFeatures,
    code: &mut Code<'_>,
    asked: Asked<'_>,
    walk: &mut Walk<'_>,
) -> Result<(), Stop> {
    let buffers = OperatorValidatorAllocations::new(walk.alloc);
    let mut v = OperatorValidator::new(features, buffers);
    add_from_begin(&mut v, resources, features, code, asked, walk)
}

/// A walk through a body that begins at this offset of the module's bytes.
fn new_walk<'w>(bytes: &'w [u8], offset: u64, asked: Asked<'w>) -> io::Result<Walk<'w>> {
    let alloc = asked.lines.alloc;
    let Ok(origins) = Origins::new(alloc, offset) else {
        return Err(io::Error::from(io::ErrorKind::OutOfMemory));
    };
    Ok(Walk {
        alloc,
        bytes,
        end: end_of(asked.verdict),
        origins,
        listing: Listing {
            lines: asked.lines,
            written: Written::new(alloc),
            from: asked.from(),
            is_empty: true,
        },
    })
}

/// Adds to a walk what is asked of a body, whose code this is.
fn walk_code(
    module: &LoadedModule<'_>,
    code: &mut Code<'_>,
    asked: Asked<'_>,
    walk: &mut Walk<'_>,
) -> io::Result<()> {
    let features = module.features().operator_features();
    ended(add_code(module.resources(), &features, code, asked, walk))
}

/// What is asked of a body, whose code this is. It fails only if memory ran out.
pub fn shown_of(
    module: &LoadedModule<'_>,
    mut code: Code<'_>,
    asked: Asked<'_>,
) -> io::Result<Written> {
    let mut walk = new_walk(module.bytes(), code.reader.offset(), asked)?;
    match walk_code(module, &mut code, asked, &mut walk) {
        Ok(()) => Ok(walk.listing.written),
        Err(error) => Err(error),
    }
}
