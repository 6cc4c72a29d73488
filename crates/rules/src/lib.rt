// The label rules: subset, band and exact.
#![tactic(auto)]

pub mod band;
pub mod exact;
pub mod subset;
