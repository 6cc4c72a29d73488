// The order in which the blocks of a pattern are proposed to be matched.
#![tactic(auto)]

pub mod fault;
mod joined;
pub mod order;
mod rank;
