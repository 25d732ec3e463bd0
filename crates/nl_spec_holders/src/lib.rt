//! Who holds the live pages of a volume, and what the committed metadata and a frozen transaction need of them.
#![tactic(auto)]

pub mod laws;
pub mod rows;
