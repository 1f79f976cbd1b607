// Calls: the machine's own functions, and frames for all others.
#![tactic(auto)]

pub mod builtins;
pub mod calling;
pub mod entering;
pub mod frame;
pub mod passed;
pub mod program;
pub mod returning;
