// The layout of a listing: row starts and entries, for a store that holds a program by its rows.
#![tactic(auto)]

pub mod fault;
pub mod layout;
mod passed;
mod wires;
