// Trees and classes in lent tables, and the refusals of texts.
#![tactic(auto)]

pub mod node;
pub mod refusal;
