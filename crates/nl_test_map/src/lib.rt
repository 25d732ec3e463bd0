//! Rows of the map of a medium, evaluated from its definitions.
#![tactic(auto)]

pub mod damaged;
pub mod pictures;
pub mod rows;
