//! Prints what lines were answered that were run: the answers of a script, and the summary of a soak.
#![tactic(auto)]

mod answers;
mod gathered;
pub mod laws;
mod summary;

pub use answers::print_answers;
pub use summary::print_summary;
