// What instructions read: registers, globals and tables.
#![tactic(auto)]

pub mod answer;
pub mod globals;
pub mod operand;
pub mod registers;
pub mod tables;
