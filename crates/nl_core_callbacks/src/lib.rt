//! Between the handler of callbacks and those who commit: each pending callback is handled, and marked with the transaction that did it.
#![tactic(auto)]

mod draining;
pub mod laws;

pub use draining::{Drained, handle_one};
