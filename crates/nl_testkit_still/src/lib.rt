//! A second device: a memory whose pages are written once and never move. It meets each trait of a device, so that what stands on the
//! traits stands over it too.
#![tactic(auto)]

mod counts;
mod moving_pages;
mod named_pages;
mod still;
mod virtual_pages;

pub use still::{Label, Still};
