//! The nodes of a volume: their records in the running pages, and which numbers and addresses are free.
#![tactic(auto)]

mod answer;
mod free_set;
pub mod laws;
mod loading;
mod nodes;

pub use answer::Fetch;
pub use loading::fetch;
pub use nodes::{Nodes, taken};
