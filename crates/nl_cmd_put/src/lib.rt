//! The command that puts a file of a source at a path: it is written under a name of its own, renamed over the path, and synced.
#![tactic(auto)]

mod asking;
mod creating;
mod cutting;
mod ending;
mod finishing;
pub mod laws;
mod naming;
mod on_volume;
mod putting;
pub mod rows;
mod writing;

pub use ending::End;
pub use putting::put;
