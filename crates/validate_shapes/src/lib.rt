//! What the checks of operators are made of: plain rows, look-ups with their refusals, labels, and
//! references that are found.
#![tactic(auto)]

pub mod accesses;
pub mod aggregates;
pub mod blocks;
pub mod canonical;
pub mod checked;
pub mod functions;
pub mod globals;
pub mod matching;
pub mod memories;
pub mod numbers;
pub mod operands;
pub mod plain;
pub mod references;
pub mod tables;
pub mod tags;
