// The instructions that stay in their frame, at work in lent memory.
#![tactic(auto)]

pub mod execute;
