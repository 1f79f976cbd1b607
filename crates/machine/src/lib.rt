// The register machine: its endings, arithmetic, built-in functions and instructions.
#![tactic(auto)]

pub mod arith;
pub mod builtin;
pub mod ending;
pub mod instruction;
pub mod laws;
