// Code in a lent table: laid while it is open, run once it is sealed.
#![tactic(auto)]

pub mod table;
