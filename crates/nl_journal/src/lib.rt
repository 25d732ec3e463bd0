//! The journal of a volume: it makes a set of changed metadata pages take effect at once.
#![tactic(auto)]

mod answers;
mod due;
mod journal;
pub mod laws;
mod put;
mod reading;

pub use answers::{Committing, Phase, ReadBack, Unit};
pub use due::frozen_len;
pub use journal::Journal;
