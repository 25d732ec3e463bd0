//! The metadata of a volume that runs over a device: the pages in memory, and else those of the device.
#![tactic(auto)]

mod answer;
mod holding;
pub mod laws;

pub use answer::Stop;
pub use holding::{hold, node};
