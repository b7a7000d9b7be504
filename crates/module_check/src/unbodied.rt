//! A module that has no bodies yet.

ghost use Rattle.std.specs.Prelude.{◌≡◌, ◌≢◌, ◌≤◌, ◌<◌, ◌+◌, ◌^◌, ◌++◌, ℕ, true, drop, length, Some, None, option_map, IfOk, OnOk, IfErr, OnErr};
ghost use Rattle.binary_modules.specs.Sections.{section, section_contents};
ghost use Rattle.module_rules.specs.Declarations.{declarations_of};
ghost use Rattle.module_rules.specs.Lookup.{lookup_lists};
ghost use Rattle.module_rules.specs.Validity.{IsValidModule};
ghost use Rattle.module_rules.specs.Within.{IsWithin};
ghost use Rattle.validate_resources.specs.Kept.{declared_lists};
ghost use Rattle.validate_resources.specs.Lists.{module_of};
ghost use Rattle.module_check.specs.EmptySections.{number_bytes, list_section, empty_segments, sections_behind};
ghost use Rattle.module_check.specs.EmptySections.{completed, count_in, functions_in, sections_begun, segments_in};
ghost use Rattle.module_check.specs.declared.load_refusal.LoadRefusal.TheVariants.{Judged, TooLarge};
ghost use Rattle.module_check.specs.declared.verdict.Verdict.TheVariants.{Accepted};

use crate::load_refusal::LoadRefusal;
use crate::loaded::LoadedModule;
use crate::verdict::Verdict;
use binary_operators::{BinaryReader, CanonicalTypes, ReadError};
use module_rules::{DeclaredModule, ModuleFeatures};
use std::alloc::{AllocError, Global};
use validate_resources::ModuleLists;

/// What a module declares that has no bodies yet, which is valid, and within the limits of this implementation.
#[derive(Drop)]
pub struct LoadedDeclarations {
    features: ModuleFeatures,
    declared: DeclaredModule,
    lists: ModuleLists,
    ghost valid: { IsValidModule features (declarations_of declared) },
    ghost within: { IsWithin (declarations_of declared) },
    ghost lookup: { module_of (lookup_lists (declarations_of declared)) ≡ Some (declared_lists lists) },
}

/// How many bodies fit into a code section whose size has 28 bits.
const MOST_FUNCTIONS: u32 = (1 << 28) - 5;

/// More data segments than a module may have.
const MOST_SEGMENTS: u32 = 1_000_001;

/// Reads a section: its id, and a reader of its contents.
#[tactic(auto, unfolding(binary_modules::specs::Parts::sized, binary_modules::specs::Sections::section))]
fn read_section<'a>(reader: &mut BinaryReader<'a>) -> Result<(u8, BinaryReader<'a>), ReadError>
    ensures read { IfOk result (λ s. section reader.old.left
        ≡ Some (record { id = s.0; contents = s.1.left }, reader.new.left)) }
    ensures refused { OnErr result (section reader.old.left ≡ None) }
{
    let id = reader.read_u8()?;
    let size = reader.read_var_u32()?;
    let contents = reader.part(size as usize)?;
    Ok((id, contents))
}

/// The contents of the first section with this id, if there is one before the first section that can't be read.
fn contents_of<'a>(bytes: &'a [u8], id: u8) -> Option<BinaryReader<'a>>
    ensures { option_map (λ r. r.left) result ≡ section_contents id (sections_begun bytes.now) }
{
    let mut reader = BinaryReader::new(bytes);
    let Ok(_header) = reader.read_bytes(8) else {
        return None;
    };
    for _ in 0..reader.bytes_left() {
        let Ok((this, contents)) = read_section(&mut reader) else {
            return None;
        };
        if this == id {
            return Some(contents);
        }
    }
    None
}

/// The count that contents begin with, or 0.
fn count_in(contents: &BinaryReader<'_>) -> u32
    ensures { result ≡ count_in contents.now.left }
{
    match contents.duplicate().read_var_u32() {
        Ok(count) => count,
        Err(_) => 0,
    }
}

/// How many functions of its own a module declares that begins so. There is no function for which there is no byte.
fn function_count(bytes: &[u8]) -> u32
    ensures count { result ≡ functions_in (section_contents 3 (sections_begun bytes.now)) }
    ensures most { result ≤ MOST_FUNCTIONS }
{
    match contents_of(bytes, 3) {
        Some(contents) if count_in(&contents) as usize <= contents.bytes_left() => {
            count_in(&contents).min(MOST_FUNCTIONS)
        }
        _ => 0,
    }
}

/// How many data segments a module counts that begins so.
fn segment_count(bytes: &[u8]) -> u32
    ensures count { result ≡ segments_in (section_contents 12 (sections_begun bytes.now)) }
    ensures most { result ≤ MOST_SEGMENTS }
{
    match contents_of(bytes, 12) {
        Some(contents) => count_in(&contents).min(MOST_SEGMENTS),
        None => 0,
    }
}

/// An integer of four bytes (WebAssembly core specification, "Binary Format: Values", integers).
fn number(value: u32) -> [u8; 4]
    requires { value < 2 ^ 28 }
    ensures { result ≡ number_bytes value }
{
    [
        (value % 0x80) as u8 + 0x80,
        (value / 0x80 % 0x80) as u8 + 0x80,
        (value / 0x4000 % 0x80) as u8 + 0x80,
        (value / 0x20_0000) as u8,
    ]
}

/// A section of this number with a list of so many items, which are these bytes.
fn list_section(alloc: Global, id: u8, count: u32, items: &[u8]) -> Result<Vec<u8>, AllocError>
    requires count { count < 2 ^ 28 }
    requires size { length items.now + 4 < 2 ^ 28 }
    ensures { IfOk result (λ section. section.items ≡ list_section id count items.now) }
{
    let mut section = Vec::new(alloc);
    section.push(id)?;
    section.extend_from_slice(&number(items.len() as u32 + 4))?;
    section.extend_from_slice(&number(count))?;
    section.extend_from_slice(items)?;
    Ok(section)
}

/// So many passive data segments that are empty.
fn empty_segments(alloc: Global, count: u32) -> Result<Vec<u8>, AllocError>
    ensures { IfOk result (λ segments. segments.items ≡ empty_segments count) }
{
    let mut segments = Vec::new(alloc);
    for _ in 0..count {
        segments.extend_from_slice([1, 0].as_slice())?;
    }
    Ok(segments)
}

/// These bytes, and behind them a code section with so many bodies that are empty, and a data section with so many data
/// segments that are.
fn with_sections(
    alloc: Global,
    bytes: &[u8],
    functions: u32,
    data_segments: u32,
) -> Result<Vec<u8>, AllocError>
    requires functions { functions ≤ MOST_FUNCTIONS }
    requires data_segments { data_segments ≤ MOST_SEGMENTS }
    ensures { IfOk result (λ whole. whole.items ≡ bytes.now ++ sections_behind functions data_segments) }
{
    let bodies = Vec::from_elem(alloc, 0u8, functions as usize)?;
    let code = list_section(alloc, 10, functions, &bodies)?;
    let segments = empty_segments(alloc, data_segments)?;
    let data = list_section(alloc, 11, data_segments, &segments)?;
    let mut whole = Vec::from_slice(alloc, bytes)?;
    whole.extend_from_slice(&code)?;
    whole.extend_from_slice(&data)?;
    Ok(whole)
}

/// These bytes, with as many empty bodies and data segments behind them as they count.
fn completed(alloc: Global, bytes: &[u8]) -> Result<Vec<u8>, AllocError>
    ensures { IfOk result (λ whole. whole.items ≡ completed bytes.now) }
{
    with_sections(alloc, bytes, function_count(bytes), segment_count(bytes))
}

impl LoadedDeclarations {
    ghost use Rattle.binary_operators.specs.Vectors.{BeginVector};
    ghost use Rattle.module_check.specs.Unbodied.{DeclaresInModule, declared_by, features_of, context_in};
    ghost use Rattle.module_check.specs.Unbodied.{AreTypesIn};
    ghost use Rattle.binary_modules.specs.Modules.{IsNoModule};
    ghost use Rattle.module_check.specs.Decoded.{AreTooLarge, DeclareValid};
    ghost use Rattle.module_check.specs.Unloaded.{AreUnloaded};
    ghost use Rattle.module_check.specs.declared.verdict.Verdict.TheVariants.{Refused, Malformed, NotCovered, OutOfMemory};
    ghost use Rattle.validate_types.specs.declared.error.Error.{Error};
    ghost use Rattle.module_rules.specs.Features.{operator_features};
    ghost use Rattle.validate_resources.specs.Lists.{context_of};
    ghost use Rattle.validate_types.specs.Features.{has, simd};

    /// Reads a module that has no bodies yet, of which these are all the bytes: one that ends before its code section, or
    /// has none. What it declares is checked as by [`LoadedModule::new`], whose errors these are, but for two things: there
    /// needn't be a body for each function, nor as many data segments as are counted. So it is checked with empty ones
    /// behind it, and loads exactly the bytes that are then those of a module whose declarations are valid and within the
    /// limits, unless memory runs out. The bytes aren't kept.
    pub fn new(
        alloc: Global,
        bytes: &[u8],
        features: ModuleFeatures,
    ) -> Result<LoadedDeclarations, LoadRefusal>
        ensures read { IfOk result (λ d. DeclaresInModule (completed bytes.now) (declared_by d)) }
        ensures features { IfOk result (λ d. features_of d ≡ features) }
        ensures valid { OnOk result (DeclareValid features (completed bytes.now)) }
        ensures complete { IfErr result (λ refusal. DeclareValid features (completed bytes.now)
            → refusal ≡ Judged OutOfMemory) }
        ensures refused { IfErr result (λ refusal. refusal ≢ Judged Accepted) }
        ensures proposal { IfErr result (λ refusal. (offset : ℕ) → refusal ≡ Judged (NotCovered offset)
            → has (operator_features features) simd ≡ true) }
        ensures uncovered { IfErr result (λ refusal. (offset : ℕ) → refusal ≡ Judged (NotCovered offset)
            → BeginVector (drop offset bytes.now)) }
        ensures malformed { IfErr result (λ refusal. (e : Error) → refusal ≡ Judged (Malformed e)
            → IsNoModule (completed bytes.now)) }
        ensures invalid { IfErr result (λ refusal. (e : Error) → refusal ≡ Judged (Refused e)
            → AreUnloaded features (completed bytes.now)) }
        ensures too_large { IfErr result (λ refusal. (e : Error) → refusal ≡ TooLarge e
            → AreTooLarge (completed bytes.now)) }
    {
        let Ok(whole) = completed(alloc, bytes) else {
            return Err(LoadRefusal::Judged(Verdict::OutOfMemory));
        };
        match LoadedDeclarations::of_whole(alloc, &whole, features) {
            Ok(declarations) => Ok(declarations),
            // Where a section is longer than these bytes, what stands behind them may begin with that prefix.
            Err(refusal) => Err(refusal.within(bytes)),
        }
    }

    /// What a module declares, of which these are all the bytes, with bodies.
    fn of_whole(
        alloc: Global,
        whole: &[u8],
        features: ModuleFeatures,
    ) -> Result<LoadedDeclarations, LoadRefusal>
        ensures read { IfOk result (λ d. DeclaresInModule whole.now (declared_by d)) }
        ensures features { IfOk result (λ d. features_of d ≡ features) }
        ensures valid { OnOk result (DeclareValid features whole.now) }
        ensures complete { IfErr result (λ refusal. DeclareValid features whole.now → refusal ≡ Judged OutOfMemory) }
        ensures refused { IfErr result (λ refusal. refusal ≢ Judged Accepted) }
        ensures proposal { IfErr result (λ refusal. (offset : ℕ) → refusal ≡ Judged (NotCovered offset)
            → has (operator_features features) simd ≡ true) }
        ensures unread { IfErr result (λ refusal. (offset : ℕ) → refusal ≡ Judged (NotCovered offset)
            → IsNoModule whole.now) }
        ensures malformed { IfErr result (λ refusal. (e : Error) → refusal ≡ Judged (Malformed e)
            → IsNoModule whole.now) }
        ensures invalid { IfErr result (λ refusal. (e : Error) → refusal ≡ Judged (Refused e)
            → AreUnloaded features whole.now) }
        ensures too_large { IfErr result (λ refusal. (e : Error) → refusal ≡ TooLarge e → AreTooLarge whole.now) }
    {
        match LoadedModule::new(alloc, whole, features) {
            Ok(module) => Ok(module.into_declarations()),
            Err(refusal) => Err(refusal),
        }
    }

    /// What these parts of a module say.
    pub(crate) fn of_parts(
        features: ModuleFeatures,
        declared: DeclaredModule,
        lists: ModuleLists,
    ) -> LoadedDeclarations
        requires valid { IsValidModule features (declarations_of declared) }
        requires within { IsWithin (declarations_of declared) }
        requires lookup { module_of (lookup_lists (declarations_of declared)) ≡ Some (declared_lists lists) }
        ensures features { features_of result ≡ features }
        ensures declared { declared_by result ≡ declarations_of declared }
    {
        LoadedDeclarations {
            features,
            declared,
            lists,
        }
    }

    /// What it declares, which is valid, and within the limits.
    pub fn declarations(&self) -> &DeclaredModule
        ensures declared { declarations_of result.now ≡ declared_by self.now }
        ensures valid { IsValidModule (features_of self.now) (declarations_of result.now) }
        ensures within { IsWithin (declarations_of result.now) }
    {
        &self.declared
    }

    /// The lookup in which bodies are checked: it is made of what it declares.
    pub fn resources(&self) -> &ModuleLists
        ensures context { context_of (declared_lists result.now) ≡ context_in self.now }
        ensures lookup { module_of (lookup_lists (declared_by self.now)) ≡ Some (declared_lists result.now) }
    {
        &self.lists
    }

    /// The proposals that are on.
    pub fn features(&self) -> ModuleFeatures
        ensures { result ≡ features_of self.now }
    {
        self.features
    }

    /// The types of the module, by which indices in bodies are read.
    pub fn types(&self) -> CanonicalTypes<'_>
        ensures { AreTypesIn self.now result }
    {
        CanonicalTypes::new(&self.declared.canonical)
    }

    /// How many functions it has, the imported ones counted, and how many of them are imported.
    pub fn function_counts(&self) -> (u32, u32) {
        let all = u32::try_from(self.declared.functions.len()).unwrap_or(u32::MAX);
        (all, self.declared.imports.functions)
    }
}
