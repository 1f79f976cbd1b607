// From a text to the one tree that it has, standing in a lent node table, or the refusal of it.
#![tactic(auto)]

pub mod apart;
pub mod class;
pub mod expression;
pub mod leaves;
pub mod limits;
pub mod names;
pub mod number;
pub mod read;
pub mod rule;
pub mod sight;
pub mod size;
pub mod source;
pub mod table;
