//! Pages by virtual address: each write goes to a new page, and the segment cleans its own blocks.
#![tactic(auto)]

mod copy;
pub mod laws;
mod open;
mod pages;
mod place;
mod read;
mod room;
mod state;
mod used;
mod victim;
mod vseg;
mod write;

pub use vseg::VSeg;
