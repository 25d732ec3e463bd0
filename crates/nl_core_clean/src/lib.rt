//! One victim of a device is cleaned whole: its live pages are moved, and then it is erased.
#![tactic(auto)]

mod cleaning;
pub mod laws;

pub use cleaning::{Cleaned, clean};
