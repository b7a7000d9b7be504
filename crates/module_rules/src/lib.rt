//! Whether what a module declares is valid: the declarations as data, the proposals that they need, and the
//! limits of an implementation. The rules are the definitions of `specs/`.
#![tactic(auto)]

mod constants;
mod descriptors;
mod elements;
mod exports;
mod faults;
mod features;
mod functions;
mod globals;
mod groups;
mod indices;
mod items;
pub mod limits;
mod lookup;
mod matching;
mod memories;
mod mixing;
mod module;
mod names;
mod refusals;
mod segments;
mod sizes;
mod tables;
mod texts;
mod types;
mod validity;

pub use crate::constants::{ConstantContext, check_constant_operator, expression_type};
pub use crate::faults::{Fault, LimitFault, Located, LocatedRule, RuleFault, VisitName};
pub use crate::features::{DECLARATION_FLAGS, ModuleFeatures};
pub use crate::items::{
    DeclaredFunction, DeclaredGlobal, DeclaredMemory, DeclaredTable, DeclaredTag, Export,
    ExternalKind, Limits, RecGroup, Start, TableInit,
};
pub use crate::mixing::mix;
pub use crate::module::{DeclaredModule, Imports, Place};
pub use crate::refusals::ModuleRefusal;
pub use crate::segments::{
    Data, DataCount, DataKind, Element, ElementItems, ElementKind, FunctionItems,
};
pub use crate::validity::{valid_lookup, validate_module};
