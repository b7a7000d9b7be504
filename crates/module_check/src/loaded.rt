//! A module whose bodies are to be checked.

ghost use Rattle.std.specs.Prelude.{◌≡◌, ◌≢◌, ◌⊎◌, ◌≤◌, ◌<◌, ◌+◌, ◌-◌, ◌^◌, ℕ, true, false, drop, length, map, slice_get, Some, None, IfSome, OnSome, IfOk, IfErr, OnOk};
ghost use Rattle.binary_modules.specs.ContentsRead.{bytes_of as bytes_left};
ghost use Rattle.binary_modules.specs.Kept.{told};
ghost use Rattle.binary_modules.specs.Modules.{IsModule, IsNoModule};
ghost use Rattle.binary_operators.specs.Vectors.{BeginVector};
ghost use Rattle.binary_operators.specs.declared.error.Cause.TheVariants.{OutOfMemory as NoMemory};
ghost use Rattle.module_rules.specs.Declarations.{declarations_of};
ghost use Rattle.module_rules.specs.Lookup.{lookup_lists};
ghost use Rattle.module_rules.specs.Validity.{IsValidModule};
ghost use Rattle.module_rules.specs.Within.{IsWithin};
ghost use Rattle.validate_resources.specs.Kept.{declared_lists};
ghost use Rattle.validate_resources.specs.Lists.{context_of, module_of};
ghost use Rattle.module_check.specs.declared.load_refusal.LoadRefusal.TheVariants.{Judged, TooLarge};
ghost use Rattle.module_check.specs.declared.verdict.Verdict.TheVariants.{Accepted, NotCovered, OutOfMemory};
ghost use Rattle.validate_types.specs.Features.{has, simd};

use crate::body::{BodyContext, check_body};
use crate::buffers::BodyBuffers;
use crate::code::CodeReader;
use crate::constant::ConstantPlace;
use crate::load_refusal::LoadRefusal;
use crate::unbodied::LoadedDeclarations;
use crate::verdict::Verdict;
use binary_modules::{ConstantExpression, FunctionNames, Module, read_function_names, read_module};
use binary_operators::{BinaryReader, CanonicalTypes, ReadError};
use module_rules::{
    ConstantContext, DeclaredModule, ModuleFeatures, expression_type, valid_lookup,
};
use std::alloc::Global;
use validate_resources::{ModuleLists, WasmModuleResources};
use validate_types::{Error, WasmFeatures};
use validate_visit::BodyKind;

/// A module that was read, with its bytes. What it declares is valid, and within the limits of this implementation.
#[derive(Drop)]
pub struct LoadedModule<'a> {
    bytes: &'a [u8],
    features: ModuleFeatures,
    declared: DeclaredModule,
    lists: ModuleLists,
    merged: usize,
    bodies: Vec<BinaryReader<'a>>,
    expressions: Vec<ConstantExpression<'a>>,
    names: Option<BinaryReader<'a>>,
    ghost read: { IsModule bytes.now (declarations_of declared) (bytes_left bodies.items) (map told expressions.items) },
    ghost valid: { IsValidModule features (declarations_of declared) },
    ghost within: { IsWithin (declarations_of declared) },
    ghost counted: { declared.imports.functions + length bodies.items ≡ length declared.functions.items },
    ghost lookup: { module_of (lookup_lists (declarations_of declared)) ≡ Some (declared_lists lists) },
}

impl<'a> LoadedModule<'a> {
    ghost use Rattle.binary_operators.specs.declared.types.CanonicalTypes.{CanonicalTypes};
    ghost use Rattle.module_check.specs.Constant.{may_stand};
    ghost use Rattle.module_check.specs.Loaded.{declarations, features_of, bytes_of, declared};
    ghost use Rattle.module_check.specs.Loaded.{body_at, AreTypesOf};
    ghost use Rattle.module_check.specs.Decoded.{AreTooLarge, DeclareInvalid, DeclareValid};
    ghost use Rattle.module_check.specs.Accepted.{IsAcceptedCode};
    ghost use Rattle.module_check.specs.Unbodied.{DeclaresInModule, declared_by, features_of as features_alone};
    ghost use Rattle.module_check.specs.Loaded.{IsAcceptedFunction, IsAcceptedExpression};
    ghost use Rattle.module_check.specs.Loaded.{IsSafeFunction, IsSafeExpression};
    ghost use Rattle.module_check.specs.Safe.{IsSafeCode};
    ghost use Rattle.module_check.specs.Uncovered.{HasVector};
    ghost use Rattle.module_check.specs.UncoveredModule.{IsUncoveredFunction, IsUncoveredExpression};
    ghost use Rattle.module_check.specs.Faults.{IsMalformedCode, IsRefusedCode};
    ghost use Rattle.module_check.specs.FaultyModule.{IsMalformedFunction, IsRefusedFunction};
    ghost use Rattle.module_check.specs.FaultyModule.{IsMalformedExpression, IsRefusedExpression};
    ghost use Rattle.module_check.specs.Unloaded.{AreUnloaded};
    ghost use Rattle.module_check.specs.declared.verdict.Verdict.TheVariants.{Refused, Malformed};
    ghost use Rattle.validate_operators.specs.Begin.{CannotStart};
    ghost use Rattle.module_rules.specs.Features.{operator_features};
    ghost use Rattle.validate_types.specs.declared.error.Error.{Error};

    /// Reads a module, of which these are all the bytes, and checks that what it declares is valid under these
    /// proposals, and within the limits. A verdict on it is never `Accepted`. It is `Malformed` if the bytes aren't those
    /// of a module, `Refused` if what it declares isn't valid, or a constant expression has a vector operator other than
    /// `v128.const` and the proposal of these is off, `NotCovered` with the offset of that operator if it is on, or
    /// `OutOfMemory`. What is past a limit is told apart. So it loads exactly the bytes whose declarations are valid and
    /// within the limits, unless memory runs out.
    pub fn new(
        alloc: Global,
        bytes: &'a [u8],
        features: ModuleFeatures,
    ) -> Result<LoadedModule<'a>, LoadRefusal>
        ensures bytes { IfOk result (λ m. bytes_of m ≡ bytes.now) }
        ensures features { IfOk result (λ m. features_of m ≡ features) }
        ensures valid { OnOk result (DeclareValid features bytes.now) }
        ensures complete { IfErr result (λ refusal. DeclareValid features bytes.now → refusal ≡ Judged OutOfMemory) }
        ensures refused { IfErr result (λ refusal. refusal ≢ Judged Accepted) }
        ensures proposal { IfErr result (λ refusal. (offset : ℕ) → refusal ≡ Judged (NotCovered offset)
            → has (operator_features features) simd ≡ true) }
        ensures uncovered { IfErr result (λ refusal. (offset : ℕ) → refusal ≡ Judged (NotCovered offset)
            → BeginVector (drop offset bytes.now)) }
        ensures unread { IfErr result (λ refusal. (offset : ℕ) → refusal ≡ Judged (NotCovered offset)
            → IsNoModule bytes.now) }
        ensures malformed { IfErr result (λ refusal. (e : Error) → refusal ≡ Judged (Malformed e)
            → IsNoModule bytes.now) }
        ensures invalid { IfErr result (λ refusal. (e : Error) → refusal ≡ Judged (Refused e)
            → AreUnloaded features bytes.now) }
        ensures too_large { IfErr result (λ refusal. (e : Error) → refusal ≡ TooLarge e → AreTooLarge bytes.now) }
    {
        match read_module(alloc, bytes) {
            Ok(module) => LoadedModule::of_module(alloc, bytes, features, module),
            Err(error) => {
                let verdict = unread(alloc, error, bytes, &features.operator_features());
                Err(LoadRefusal::Judged(verdict))
            }
        }
    }

    /// The module that was read of these bytes, if what it declares is valid, and within the limits.
    fn of_module(
        alloc: Global,
        bytes: &'a [u8],
        features: ModuleFeatures,
        module: Module<'a>,
    ) -> Result<LoadedModule<'a>, LoadRefusal>
        requires read { IsModule bytes.now (declarations_of module.declared) (bytes_left module.bodies.items)
            (map told module.expressions.items) }
        requires counted { module.declared.imports.functions + length module.bodies.items
            ≡ length module.declared.functions.items }
        ensures bytes { IfOk result (λ m. bytes_of m ≡ bytes.now) }
        ensures features { IfOk result (λ m. features_of m ≡ features) }
        ensures declared { IfOk result (λ m. declarations m ≡ declarations_of module.entry.declared) }
        ensures refused { IfErr result (λ refusal. refusal ≢ Judged Accepted) }
        ensures invalid { IfErr result (λ refusal. (e : Error) → refusal ≡ Judged (Refused e)
            → DeclareInvalid features bytes.now) }
        ensures too_large { IfErr result (λ refusal. (e : Error) → refusal ≡ TooLarge e → AreTooLarge bytes.now) }
        ensures covered { IfErr result (λ refusal. (offset : ℕ) → refusal ≢ Judged (NotCovered offset)) }
        ensures readable { IfErr result (λ refusal. (e : Error) → refusal ≢ Judged (Malformed e)) }
    {
        let Module {
            declared,
            merged,
            bodies,
            expressions,
            names,
        } = module;
        match valid_lookup(alloc, &declared, features) {
            Ok(lists) => Ok(LoadedModule {
                bytes,
                features,
                declared,
                lists,
                merged,
                bodies,
                expressions,
                names,
            }),
            Err(refusal) => Err(LoadRefusal::of_module(refusal)),
        }
    }

    /// The bytes from which it was read.
    pub fn bytes(&self) -> &'a [u8]
        ensures { result.now ≡ bytes_of self.now }
    {
        self.bytes
    }

    /// What it declares, which is valid, and within the limits.
    pub fn declarations(&self) -> &DeclaredModule
        ensures declared { declarations_of result.now ≡ declarations self.now }
        ensures valid { IsValidModule (features_of self.now) (declarations_of result.now) }
        ensures within { IsWithin (declarations_of result.now) }
    {
        &self.declared
    }

    /// The lookup in which its bodies are checked: it is made of what it declares.
    pub fn resources(&self) -> &ModuleLists
        ensures context { context_of (declared_lists result.now) ≡ declared self.now }
        ensures lookup { module_of (lookup_lists (declarations self.now)) ≡ Some (declared_lists result.now) }
    {
        &self.lists
    }

    /// The proposals that are on.
    pub fn features(&self) -> ModuleFeatures
        ensures { result ≡ features_of self.now }
    {
        self.features
    }

    /// How many bodies it has.
    pub fn body_count(&self) -> usize
        ensures { result ≡ length self.now.bodies.items }
    {
        self.bodies.len()
    }

    /// Its constant expressions.
    pub fn expressions(&self) -> &[ConstantExpression<'a>]
        ensures { result.now ≡ self.now.expressions.items }
    {
        &self.expressions
    }

    /// How many types are merged into an earlier, equal one.
    pub fn merged(&self) -> usize {
        self.merged
    }

    /// The index of the function that has this body. Bodies count from 0; functions count with the imported ones.
    pub fn function_of(&self, body: usize) -> u32
        ensures { self.now.declared.imports.functions + body < 2 ^ 32
            → result ≡ self.now.declared.imports.functions + body }
    {
        let imported = self.declared.imports.functions as usize;
        u32::try_from(imported.saturating_add(body)).unwrap_or(u32::MAX)
    }

    /// A reader of the body of the function at this index, or None where the module has none for it.
    pub fn body_of(&self, function: u32) -> Option<&BinaryReader<'a>>
        ensures is_body { IfSome result (λ body. body_at self.now function ≡ Some body.now) }
        ensures is_own { OnSome result (self.now.declared.imports.functions ≤ function) }
        ensures missing { result ≡ None → self.now.declared.imports.functions ≤ function
            → body_at self.now function ≡ None }
    {
        body_in(&self.bodies, self.declared.imports.functions, function)
    }

    /// The names of its functions, as far as they can be read. It fails only if memory ran out.
    pub fn names(&self, alloc: Global) -> Result<FunctionNames<'a>, ReadError> {
        match &self.names {
            Some(section) => read_function_names(alloc, section),
            None => Ok(FunctionNames::new(alloc)),
        }
    }

    /// The index of the type of the function at this index, or None where the module has no such function.
    pub fn type_of(&self, function: u32) -> Option<u32>
        ensures { result ≡ (declared self.now).type_index_of function }
    {
        self.lists.type_index_of_function(function)
    }

    /// A reader of the code of the function at this index, or None where the module has none for it.
    pub fn code_of(&self, function: u32) -> Option<CodeReader<'_>>
        ensures body { IfSome result (λ code. body_at self.now function ≡ Some code.reader) }
        ensures own { OnSome result (self.now.declared.imports.functions ≤ function) }
        ensures types { IfSome result (λ code. AreTypesOf self.now code.types) }
    {
        let body = self.body_of(function)?;
        Some(CodeReader::new(body.duplicate(), self.types()))
    }

    /// A reader of the code of a constant expression of this module.
    pub fn code_of_expression<'m>(&'m self, expression: &ConstantExpression<'m>) -> CodeReader<'m>
        ensures code { result.reader ≡ expression.now.bytes }
        ensures types { AreTypesOf self.now result.types }
    {
        CodeReader::new(expression.bytes.duplicate(), self.types())
    }

    /// What it declares alone: its bytes aren't kept.
    pub(crate) fn into_declarations(self) -> LoadedDeclarations
        ensures read { DeclaresInModule (bytes_of self.entry) (declared_by result) }
        ensures features { features_alone result ≡ features_of self.entry }
    {
        let LoadedModule {
            bytes: _,
            features,
            declared,
            lists,
            merged: _,
            bodies: _,
            expressions: _,
            names: _,
        } = self;
        LoadedDeclarations::of_parts(features, declared, lists)
    }

    /// The types of the module, by which indices in its bodies are read.
    pub fn types(&self) -> CanonicalTypes<'_>
        ensures { AreTypesOf self.now result }
    {
        CanonicalTypes::new(&self.declared.canonical)
    }

    /// Checks a body of this kind that these bytes are, as [`check_body`] does.
    fn check_bytes(
        &self,
        kind: BodyKind,
        constant: Option<ConstantPlace<'_>>,
        bytes: &BinaryReader<'_>,
        buffers: &mut BodyBuffers,
    ) -> Verdict
        ensures accepted { result ≡ Accepted → (types : CanonicalTypes) × AreTypesOf self.now types
            × IsSafeCode (declared self.now) (operator_features self.now.features) types kind
            (may_stand constant.entry) bytes.now.left }
        ensures refused { result ≢ Accepted → result ≢ OutOfMemory → (types : CanonicalTypes)
            → AreTypesOf self.now types
            → ¬ IsAcceptedCode (declared self.now) (operator_features self.now.features) types kind
            (may_stand constant.entry) bytes.now.left }
        ensures proposal { (offset : ℕ) → result ≡ NotCovered offset
            → has (operator_features self.now.features) simd ≡ true }
        ensures uncovered { (offset : ℕ) → result ≡ NotCovered offset → (types : CanonicalTypes)
            × AreTypesOf self.now types
            × HasVector (declared self.now) (operator_features self.now.features) types kind
            (may_stand constant.entry) bytes.now.left }
        ensures malformed { (e : Error) → result ≡ Malformed e → (types : CanonicalTypes)
            × AreTypesOf self.now types
            × IsMalformedCode (declared self.now) (operator_features self.now.features) types kind
            (may_stand constant.entry) bytes.now }
        ensures invalid { (e : Error) → result ≡ Refused e → (types : CanonicalTypes)
            × AreTypesOf self.now types
            × (CannotStart (declared self.now) (operator_features self.now.features) kind
            ⊎ IsRefusedCode (declared self.now) (operator_features self.now.features) types kind
            (may_stand constant.entry) bytes.now e.offset) }
    {
        let mut reader = bytes.duplicate();
        let features = self.features.operator_features();
        let types = self.types();
        let context = BodyContext {
            resources: &self.lists,
            features: &features,
            types,
            constant,
        };
        check_body(&context, kind, &mut reader, buffers)
    }

    /// Checks the body of the function at this index, as it stands in the bytes of this module. If the module has no
    /// body for it, the verdict is `Refused`; otherwise it is that of [`check_body`].
    ///
    /// `Accepted`: all of the bytes are locals and operators. In the lookup over the module's declarations, the
    /// operators are type safe from the start that the function's type and the locals make.
    ///
    /// Any other verdict but `OutOfMemory`: it has no such body, or the bytes aren't locals and operators that are
    /// accepted. Vector operators never are.
    pub fn check_function(&self, function: u32, buffers: &mut BodyBuffers) -> Verdict
        ensures safe { result ≡ Accepted → IsSafeFunction self.now function }
        ensures refused { result ≢ Accepted → result ≢ OutOfMemory → ¬ IsAcceptedFunction self.now function }
        ensures proposal { (offset : ℕ) → result ≡ NotCovered offset
            → has (operator_features (features_of self.now)) simd ≡ true }
        ensures uncovered { (offset : ℕ) → result ≡ NotCovered offset → IsUncoveredFunction self.now function }
        ensures malformed { (e : Error) → result ≡ Malformed e → IsMalformedFunction self.now function }
        ensures invalid { (e : Error) → result ≡ Refused e → IsRefusedFunction self.now function e.offset }
    {
        let Some(body) = self.body_of(function) else {
            return Verdict::Refused(unknown_function(0));
        };
        match self.type_of(function) {
            Some(ty) => self.check_bytes(BodyKind::Function(ty), None, body, buffers),
            None => Verdict::Refused(unknown_function(body.offset())),
        }
    }

    /// Checks a constant expression of this module, as it stands in the bytes, as [`check_body`] does. If the module
    /// doesn't have its place, the verdict is `Refused`.
    ///
    /// `Accepted`: all of the bytes are operators. In the lookup over the module's declarations they are type safe,
    /// and give a value of the type that the place asks for. Each is constant there.
    ///
    /// Any other verdict but `OutOfMemory`: the bytes aren't operators that are accepted so.
    pub fn check_expression(
        &self,
        expression: &ConstantExpression<'_>,
        buffers: &mut BodyBuffers,
    ) -> Verdict
        ensures safe { result ≡ Accepted → IsSafeExpression self.now expression.now }
        ensures refused { result ≢ Accepted → result ≢ OutOfMemory
            → ¬ IsAcceptedExpression self.now expression.now }
        ensures proposal { (offset : ℕ) → result ≡ NotCovered offset
            → has (operator_features (features_of self.now)) simd ≡ true }
        ensures uncovered { (offset : ℕ) → result ≡ NotCovered offset
            → IsUncoveredExpression self.now expression.now }
        ensures malformed { (e : Error) → result ≡ Malformed e → IsMalformedExpression self.now expression.now }
        ensures invalid { (e : Error) → result ≡ Refused e
            → IsRefusedExpression self.now expression.now e.offset }
    {
        let place = expression.place;
        let Some(ty) = expression_type(&self.declared, place) else {
            return Verdict::Refused(unknown_place(expression.bytes.offset()));
        };
        let constant = ConstantPlace {
            alloc: buffers.allocator(),
            context: ConstantContext {
                features: self.features,
                declared: &self.declared,
                place,
            },
            bytes: self.bytes,
        };
        self.check_bytes(
            BodyKind::Expression(ty),
            Some(constant),
            &expression.bytes,
            buffers,
        )
    }
}

/// The verdict on bytes that aren't read as a module's, under these proposals.
fn unread(alloc: Global, error: ReadError, bytes: &[u8], features: &WasmFeatures) -> Verdict
    ensures refused { result ≢ Accepted }
    ensures memory { result ≢ OutOfMemory → error.cause ≢ NoMemory }
    ensures proposal { (offset : ℕ) → result ≡ NotCovered offset → has features.now simd ≡ true }
    ensures uncovered { (offset : ℕ) → result ≡ NotCovered offset → BeginVector (drop offset bytes.now) }
{
    let verdict = Verdict::of_read_error_in(alloc, error);
    verdict.under(features).within(bytes)
}

/// Of these bodies that of the function at this index, where so many functions are imported: those have none.
fn body_in<'m, 'a>(
    bodies: &'m [BinaryReader<'a>],
    imported: u32,
    function: u32,
) -> Option<&'m BinaryReader<'a>>
    ensures is_body { IfSome result (λ body. slice_get bodies.now (function - imported) ≡ Some body.now) }
    ensures is_own { OnSome result (imported ≤ function) }
    ensures missing { result ≡ None → imported ≤ function → slice_get bodies.now (function - imported) ≡ None }
{
    let body = function.checked_sub(imported)?;
    bodies.get(body as usize)
}

/// The refusal of a function that the module hasn't, or has no body for.
fn unknown_function(offset: u64) -> Error {
    Error::new("unknown function: function index out of bounds", offset)
}

/// The refusal of a constant expression in a place that the module hasn't.
fn unknown_place(offset: u64) -> Error {
    Error::new("the module has no place for a constant expression", offset)
}
