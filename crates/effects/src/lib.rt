// Strings made and output printed: what a run spends, in lent memory.
#![tactic(auto)]

pub mod copying;
pub mod literals;
pub mod output;
pub mod spent;
pub mod strings;
