//! Recursion groups, and chains of supertypes (WebAssembly core specification, "Validation: Types",
//! "Recursive Types").

ghost use Rattle.std.specs.Prelude.{◌≡◌, ◌≤◌, is_ok, length, nat_le};
ghost use Rattle.module_rules.specs.Types.{is_earlier, subtyping_depth, named_below, is_valid_group, are_valid_groups};
ghost use Rattle.module_rules.specs.Judged.{Judges};
ghost use Rattle.module_rules.specs.declared.limits.TheConstants.{MAX_WASM_SUBTYPING_DEPTH};

use crate::faults::{Fault, LimitFault, LocatedRule, RuleFault, locate};
use crate::features::ModuleFeatures;
use crate::indices::known_in_sub_types;
use crate::items::RecGroup;
use crate::limits::MAX_WASM_SUBTYPING_DEPTH;
use validate_resources::order::{number, supertype_of};
use validate_types::{PackedIndex, SubType};

/// Below which index the types of a group may name types, which begins and ends at these: its own need the proposal that
/// brings recursive types.
fn named_below(features: ModuleFeatures, first: usize, end: usize) -> usize
    ensures { result ≡ named_below features first end }
{
    if features.operators.gc() { end } else { first }
}

/// Why the types of a group that ends at this index can't name the one at that.
fn unknown_name(index: u32, end: usize) -> RuleFault {
    if (index as usize) < end {
        RuleFault::RecursiveTypeOff(index)
    } else {
        RuleFault::UnknownType(index)
    }
}

/// A group that begins at this index is valid.
fn check_group(
    features: ModuleFeatures,
    types: &[SubType],
    first: usize,
    group: &RecGroup,
) -> Result<(), RuleFault>
    requires { first ≤ length types.now }
    ensures { is_ok result ≡ is_valid_group features types.now first group.now }
{
    if group.explicit && !features.operators.gc() {
        return Err(RuleFault::GroupOff);
    }
    let end = first + group.count as usize;
    if end > types.len() {
        return Err(RuleFault::GroupPastTypes);
    }
    match known_in_sub_types(&types[first..end], named_below(features, first, end)) {
        Ok(()) => Ok(()),
        Err(index) => Err(unknown_name(index, end)),
    }
}

/// The groups are valid, and all of the types stand in them.
pub fn check_groups(
    features: ModuleFeatures,
    types: &[SubType],
    groups: &[RecGroup],
) -> Result<(), LocatedRule>
    ensures { is_ok result ≡ are_valid_groups features types.now 0 groups.now }
{
    let mut first = 0;
    let mut offset = 0;
    for group in groups {
        offset = group.offset;
        locate(check_group(features, types, first, group), offset)?;
        first += group.count as usize;
    }
    if first != types.len() {
        return Err(RuleFault::TypesOutsideGroups.at(offset));
    }
    Ok(())
}

/// Whether a type at this index has no supertype, or an earlier one.
fn is_earlier(index: usize, supertype: Option<PackedIndex>) -> bool
    ensures { result ≡ is_earlier index supertype }
{
    match supertype {
        None => true,
        Some(supertype) => (number(supertype.unpack()) as usize) < index,
    }
}

/// Whether no more supertypes lie above the type at this index than may be.
fn is_within_depth(types: &[SubType], index: usize) -> bool
    ensures { result ≡ nat_le (subtyping_depth types.now index) MAX_WASM_SUBTYPING_DEPTH }
{
    let mut at = index;
    let mut left = MAX_WASM_SUBTYPING_DEPTH;
    while let Some(supertype) = supertype_of(types, at) {
        if left == 0 {
            return false;
        }
        left -= 1;
        at = supertype;
    }
    true
}

/// The type at this index has no supertype or an earlier one, and no more than may be lie above it.
pub fn check_chain(types: &[SubType], index: usize, ty: &SubType) -> Result<(), Fault>
    ensures { Judges (is_earlier index ty.now.supertype_idx)
        (nat_le (subtyping_depth types.now index) MAX_WASM_SUBTYPING_DEPTH) result }
{
    if !is_earlier(index, ty.supertype_idx) {
        return Err(Fault::Rule(RuleFault::LaterSupertype));
    }
    if !is_within_depth(types, index) {
        return Err(Fault::Limit(LimitFault::TooDeep));
    }
    Ok(())
}
