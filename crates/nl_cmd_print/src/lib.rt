//! Prints what a volume shows: every path of its tree, and the report of its counts.
#![tactic(auto)]

pub mod laws;
mod paths;
mod report;

pub use paths::{Shown, print_tree};
pub use report::print_report;
