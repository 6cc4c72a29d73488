// What the finder is told: stores, label rules, and the matching problem that they make.
#![tactic(auto)]

pub mod among;
pub mod block;
pub mod count;
pub mod problem;
pub mod row;
pub mod rule;
pub mod store;
pub mod task;
