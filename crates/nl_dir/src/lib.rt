//! Directories: maps from names to entries, in the running pages. Each call needs the pages of its directory to be resident, and they
//! stay so.
#![tactic(auto)]

mod change;
pub mod laws;
mod look;
mod page;

pub use change::{insert, remove};
pub use look::{entry_at, find, name_at};
