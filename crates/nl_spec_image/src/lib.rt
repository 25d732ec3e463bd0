//! What an image represents.
#![tactic(auto)]

pub mod laws;
pub mod stops;
