//! The file calls that only look, on the core of a volume: reading a file, what stands at a path, and the names of a directory.
#![tactic(auto)]

mod answer;
mod calls;
mod listing;
mod reading;
mod spots;
mod stating;

pub use answer::Looked;
pub use calls::look_call;
