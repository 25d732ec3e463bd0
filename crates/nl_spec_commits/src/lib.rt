//! A volume between two calls: who holds its live pages, for the metadata as it runs and for what is committed of it.
#![tactic(auto)]

pub mod laws;
pub mod rows;
