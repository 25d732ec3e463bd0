//! Lines of workers whose effect is still to come, and the pages that were programmed for them.
#![tactic(auto)]

mod flight;
mod laws;
mod line;
mod page;

pub use flight::Flight;
pub use nl_field::Memory;
