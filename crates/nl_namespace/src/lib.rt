//! Paths: what a chain of names leads to, and what a directory lists, in the running pages over a device.
#![tactic(auto)]

mod answer;
mod changing;
mod entering;
mod finding;
mod free;
mod hold;
mod kinds;
pub mod laws;
mod making;
mod names;
mod naming;
mod ordering;
mod place;
mod removing;
mod renaming;
mod same_paths;
pub mod taking_rows;
mod walk;

pub use answer::{Change, Listing, Look};
pub use changing::change;
pub use hold::hold_entries;
pub use making::make;
pub use names::list;
pub use nl_meta_running::Stop;
pub use removing::remove;
pub use renaming::rename;
pub use walk::look;
