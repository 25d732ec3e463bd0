//! The parts of a commit: the units of a transaction, one by one or all that are left, and the pages that it gives up.
#![tactic(auto)]

mod changes;
mod committing;
mod completing;
mod freeing;
pub mod laws;
mod stepping;
mod super_page;

pub use changes::commit_changes;
pub use committing::{Committed, commit};
pub use completing::{Completed, complete};
pub use freeing::free_first;
pub use stepping::{UnitTaken, take_unit};
pub use super_page::store_count;
