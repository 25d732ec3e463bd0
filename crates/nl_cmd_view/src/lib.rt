//! The commands that only look at the volume of a medium: every path of its tree, the report of its counts, and the bytes of a file.
#![tactic(auto)]

mod getting;
pub mod laws;
mod printing;
mod refusing;
mod reports;
mod trees;

pub use getting::get;
pub use refusing::refused;
pub use reports::report;
pub use trees::tree;
