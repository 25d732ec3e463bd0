//! The core of a volume that runs: commits of all calls so far, at once or unit by unit, after which what they gave up is freed, callbacks
//! that are handled, pages that are programmed, lines of workers that are dropped, rounds of reclaiming, and background tasks.
#![tactic(auto)]

mod changes;
mod cleaning;
mod committing;
mod dropping;
mod duties;
mod handling;
pub mod laws;
mod programming;
mod rounds;
pub mod rows;
mod state;
mod units;

pub use programming::Programmed;
pub use rounds::Rounded;
pub use state::Core;
