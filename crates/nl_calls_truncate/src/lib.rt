//! The file call that sets a file's size, on the core of a volume.
#![tactic(auto)]

mod cutting;
mod truncating;

pub use truncating::truncate_call;
