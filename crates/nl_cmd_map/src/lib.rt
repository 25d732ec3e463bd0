//! The commands that print the map of a medium, as text and as a picture.
#![tactic(auto)]

pub mod laws;
mod mapping;

pub use mapping::{map, map_svg};
