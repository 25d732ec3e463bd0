//! The bytes and the pages of one file, over any device.
#![tactic(auto)]

mod answer;
mod cutting;
mod gathering;
mod installing;
pub mod laws;
mod pages;
mod reading;

pub use answer::{CountPages, FileAnswer};
pub use cutting::cut;
pub use gathering::{count_pages, gather};
pub use installing::install;
pub use pages::prepare;
pub use reading::read;
