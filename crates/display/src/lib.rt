// What programs print: bytes that show each of them, forms with their parts, refusals; and the tables that they print.
#![tactic(auto)]

pub mod bytes;
pub mod forms;
pub mod refused;
pub mod tables;
