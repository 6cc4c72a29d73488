// The stores: what holds a pattern or a program for the finder.
#![tactic(auto)]

pub mod entry;
pub mod fault;
pub mod listing_store;
pub mod row_store;
