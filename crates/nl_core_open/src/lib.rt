//! The opening of a volume: a core over a medium whose image is sound.
#![tactic(auto)]

mod beginning;
pub mod laws;
mod opening;
mod wear;

pub use beginning::begin;
pub use opening::{Figures, Opened, open};
