// Lent text: spans into lent bytes, the equality of names, and the search for the first equal entry.
#![tactic(auto)]

pub mod search;
pub mod span;
