//! Pages of an owner: one is read for its owner and its write sequence number, or programmed with them.
#![tactic(auto)]

mod pages;

pub use pages::{program_page, read_page};
