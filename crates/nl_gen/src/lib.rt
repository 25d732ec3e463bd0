//! Makes a large valid script from a number.
#![tactic(auto)]

mod drawn;
mod draws;
mod line;
mod soak;

pub use soak::soak_script;
