//! Two volumes over media in memory that answer the same calls, one after the other: one whose device moves pages and keeps pairs of old
//! names, and one whose device leads numbers to pages by a map. What is told is how large the tables of both become.
#![tactic(auto)]

mod asking;
mod comparing;
mod comparison;
pub mod laws;
mod making;
mod running;

pub use asking::ask;
pub use comparing::compare;
pub use comparison::{Comparison, Numbers, Replies};
pub use making::new_volume;
pub use running::answer_all;
