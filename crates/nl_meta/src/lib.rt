//! The metadata of a volume: the pages of virtual addresses, and what they stand for.
#![tactic(auto)]

mod addresses;
pub mod laws;
mod meta;

pub use meta::Meta;
