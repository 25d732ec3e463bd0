//! A ticket lock over one value, and the history of its turns.
#![tactic(auto)]

mod bells;
mod boxed;
mod entry;
mod kept;
mod plays;
pub mod rows;
mod seat;
mod served;
mod steps;
mod table;
mod turns;

pub use entry::{Entry, FaultMark, SyncMark};
pub use kept::{Kept, Opens};
pub use seat::{Turn, TurnSeat};
pub use served::Served;
pub use turns::Turns;
