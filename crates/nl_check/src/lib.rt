//! A check of an image: whether it is sound, and if not, which phases of an opening's walk have a fault.
#![tactic(auto)]

mod check;
mod held;
mod judging;
mod reading;

pub use check::{Checked, findings};
