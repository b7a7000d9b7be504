//! Whether the names of exports differ (WebAssembly core specification, "Modules": exports).

ghost use Rattle.std.specs.Prelude.{◌≡◌, true, false, map, nat_eq, IfErr, IfOk, OnOk};
ghost use Rattle.std.specs.List.{fold, IsDistinct};
ghost use Rattle.std.specs.List.Sorted.{IsStrictlyIncreasing};
ghost use Rattle.module_rules.specs.Exported.{Exported};
ghost use Rattle.module_rules.specs.Exports.{are_distinct, names_of};
ghost use Rattle.module_rules.specs.Mixing.{mix};
ghost use Rattle.module_rules.specs.Names.{mix_name, mix_words};

use crate::items::Export;
use crate::lookup::listed;
use crate::mixing::mix;
use std::alloc::Global;
use std::collections::BTreeSet;
use validate_types::{Error, OutOfMemory};

/// Two exports have this name.
fn duplicate(alloc: Global, export: &Export) -> Error {
    let name = export.name.as_str();
    Error::from_text(
        format!(in alloc; "duplicate export name `{name}` already defined"),
        export.offset,
    )
}

/// The number with eight bytes at a time mixed in.
fn mix_words(words: &[[u8; 8]]) -> u64
    ensures { result ≡ mix_words words.now }
{
    let mut mixed = 0;
    for word in words {
        mixed = mix(mixed, u64::from_le_bytes(*word));
    }
    mixed
}

/// The number with these bytes mixed in.
fn mix_bytes(number: u64, bytes: &[u8]) -> u64
    ensures { result ≡ fold mix number bytes.now }
{
    let mut mixed = number;
    for byte in bytes {
        mixed = mix(mixed, u64::from(*byte));
    }
    mixed
}

/// The number that is mixed from a name.
fn mix_name(name: &str) -> u64
    ensures { result ≡ mix_name name.now }
{
    let (words, bytes) = name.as_bytes().as_chunks::<8>();
    mix_bytes(mix_words(words), bytes)
}

/// The numbers that are mixed from the names of these exports.
fn mixed_names(alloc: Global, exports: &[Export]) -> Result<Vec<u64>, OutOfMemory>
    ensures { IfOk result (λ v. v.items ≡ map (λ (e : Exported). mix_name e.name) exports.now) }
{
    let mixed = exports.iter().map(|export| mix_name(export.name.as_str()));
    listed(alloc, mixed)
}

/// Whether each number is below the next.
fn is_increasing(numbers: &[u64]) -> bool
    ensures { result ≡ true → IsStrictlyIncreasing numbers.now }
{
    let mut next = 1;
    while next < numbers.len() {
        if numbers[next - 1] >= numbers[next] {
            return false;
        }
        next += 1;
    }
    true
}

/// Whether no two of these numbers are equal. They are put in order.
fn are_unlike(numbers: &mut [u64]) -> bool
    ensures { result ≡ true → IsDistinct nat_eq numbers.old }
{
    numbers.sort_unstable();
    is_increasing(numbers)
}

/// No two exports have one name. The numbers that are mixed from the names are compared first: where they differ, the names do.
/// It takes memory for these, and for the set of the names.
pub fn check_names(alloc: Global, exports: &[Export]) -> Result<(), Error>
    ensures valid { OnOk result (are_distinct (names_of exports.now) ≡ true) }
    ensures invalid { IfErr result (λ e. e.wants_memory ≡ false
        → are_distinct (names_of exports.now) ≡ false) }
{
    let Ok(mut numbers) = mixed_names(alloc, exports) else {
        return Err(Error::out_of_memory(0));
    };
    if are_unlike(&mut numbers) {
        return Ok(());
    }
    check_each_name(alloc, exports)
}

/// [`check_names`] by the set of the names.
#[cold]
fn check_each_name(alloc: Global, exports: &[Export]) -> Result<(), Error>
    ensures valid { OnOk result (are_distinct (names_of exports.now) ≡ true) }
    ensures invalid { IfErr result (λ e. e.wants_memory ≡ false
        → are_distinct (names_of exports.now) ≡ false) }
{
    let mut names = BTreeSet::new(alloc);
    for export in exports {
        match names.insert(export.name.as_str()) {
            Ok(true) => {}
            Ok(false) => return Err(duplicate(alloc, export)),
            Err(_) => return Err(Error::out_of_memory(export.offset)),
        }
    }
    Ok(())
}
