//! Old names of pages that had to move: where they lead, and how many stand in each block.
#![tactic(auto)]

mod old_names;

pub use old_names::OldNames;
