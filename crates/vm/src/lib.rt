// The machine at work in lent memory, step by step.
#![tactic(auto)]

pub mod dispatch;
pub mod run;
