//! A new volume on any device that is idle, and the core over it.
#![tactic(auto)]

mod beginning;
mod making;

pub use making::open_new;
