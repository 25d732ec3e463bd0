//! Draws the map of a medium: what is found on each page of each block, and how many pages there are of each kind.
#![tactic(auto)]

mod drawing;
mod form;
mod heading;
mod judging;
pub mod laws;
mod live;
mod pieces;
mod svg;
mod text;

pub use drawing::{Drawn, draw};
pub use form::Form;
pub use heading::Heading;
