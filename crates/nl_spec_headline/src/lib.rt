//! What a call of the store says of a run: its answers in one order, its syncs, what a stop leaves, and how the medium ends.
#![tactic(auto)]

mod lists;
pub mod rows;

pub use lists::{OrderList, Ordered, SyncList, Synced};
