//! A new volume on a medium: its two pages, and what a stop leaves while they are written.
#![tactic(auto)]

pub mod laws;
mod making;
mod pages;

pub use making::{Made, make};
