//! Runs the lines of a script on a volume in turns of a lock, and closes it.
#![tactic(auto)]

mod charging;
mod rounds;

pub use rounds::{Ran, run_lines};
