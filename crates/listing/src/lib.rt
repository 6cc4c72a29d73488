// The listing format: which words are a listing, and where the first fault is.
#![tactic(auto)]

pub mod check;
pub mod counts;
pub mod fault;
pub mod file;
pub mod listing_words;
pub mod word;
