//! States and wear of the blocks of one segment, and the states of their pages.
#![tactic(auto)]

mod blocks;
mod row;
mod states;
mod tournament;

pub use blocks::Blocks;
pub use states::{BlockState, PageState};
pub use std::alloc::AllocError as Memory;
