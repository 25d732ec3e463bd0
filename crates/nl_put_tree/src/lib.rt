//! What putting a file does to a plain tree of files: it is written under a name of its own, and then renamed.
#![tactic(auto)]

pub mod laws;
pub mod rows;
