//! Checks of operators on structs and arrays, of casts, of operators that look for a reference below an abstract
//! type, of those of shared-everything threads, and of operators on exceptions, of both kinds, and on continuations (a
//! proposal, "Stack Switching"): each answers by the row of its operators.
#![tactic(auto)]

mod accesses;
pub mod arrays;
pub mod casts;
pub mod clauses;
pub mod continuations;
pub mod descriptors;
pub mod found;
mod handlers;
pub mod legacy;
mod lookups;
pub mod places;
pub mod structs;
pub mod throws;
