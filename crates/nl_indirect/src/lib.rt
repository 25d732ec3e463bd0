//! Where the pointers of a file stand: 8 in the record of its node, and 256 in each of up to 16 pages.
#![tactic(auto)]

mod answer;
pub mod laws;
mod page;
mod pointers;
mod truncating;

pub use answer::Stored;
pub use pointers::{INDEXES, lookup, page_address, store};
pub use truncating::truncate;
