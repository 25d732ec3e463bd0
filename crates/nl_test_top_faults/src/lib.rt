//! Tests of the top call on media in memory, with a source, a sink or a medium that fails, and with a medium of which a read gives the
//! record of another page, so that a page is lost.
#![tactic(auto)]

mod medium;

pub use medium::{Lie, Untold};

#[cfg(test)]
mod asserting;
#[cfg(test)]
mod gets;
#[cfg(test)]
mod lost;
#[cfg(test)]
mod puts;
#[cfg(test)]
mod reads;
#[cfg(test)]
mod saved;
#[cfg(test)]
mod streams;
#[cfg(test)]
mod told;
#[cfg(test)]
mod writes;
