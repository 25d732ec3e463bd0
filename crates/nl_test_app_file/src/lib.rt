//! Tests of the words of a command line on image files, and on stores in memory with a kill or a failure in each write.
#![tactic(auto)]

mod killed;

pub use killed::{Killed, Trouble};

#[cfg(test)]
mod kills;
#[cfg(test)]
mod program;
