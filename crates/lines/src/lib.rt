// The text of the lines that the programs print.
#![tactic(auto)]

pub mod fault;
pub mod graph;
mod line;
pub mod role;
pub mod write;
