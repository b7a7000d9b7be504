//! The rules of validation: what each operator wants and pushes, one static step, and the run over a
//! list. Its definitions, in `specs/`, are what the contracts of the layers above cite; its functions
//! do nothing, and their contracts are laws of these rules.
#![tactic(auto)]

pub mod laws;
