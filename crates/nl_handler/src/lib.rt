//! What a file system does when the device moved a page: the pointer of its write sequence number gets the new name.
#![tactic(auto)]

mod answer;
mod handling;
pub mod laws;
mod metadata;

pub use answer::Handled;
pub use handling::handle;
