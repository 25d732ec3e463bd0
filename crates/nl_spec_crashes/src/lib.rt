//! What a stop leaves of a volume that answers calls: definitions and laws over the calls of its core, no code.
#![tactic(auto)]

pub mod laws;
pub mod rows;
