//! A core over the second device: a new volume is written into a memory whose pages never move, and a core is begun over it.
#![tactic(auto)]

mod opening;

pub use opening::{open, open_least};
