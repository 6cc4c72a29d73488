// The label classes of a pattern: a small number for each block and each pair of blocks, in place of its label.
#![tactic(auto)]

mod alike;
pub mod class_tables;
pub mod fault;
mod label;
