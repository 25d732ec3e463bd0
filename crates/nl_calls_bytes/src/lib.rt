//! The bytes that a call writes, the pages of the file in which they lie, and what these need of a volume: definitions, laws, and what
//! needs no core.
#![tactic(auto)]

mod counting;
pub mod laws;
mod laying;
mod lining;

pub use counting::{count_pointers, count_ranges, has_free};
pub use laying::{lay_over, length_of, offset_of, path_written};
pub use lining::{all_of_file, has_index};
