//! Where the pages lie that had to move: pairs of an old name and a target.
#![tactic(auto)]

mod links;
mod pairs;
mod remap;

pub use remap::Remap;
pub use std::alloc::AllocError as Memory;
