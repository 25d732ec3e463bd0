//! How each page of a medium is found: erased, uncorrectable, or written, and then whether an opening reads it.
#![tactic(auto)]

mod judge;
mod look;
mod looking;
mod virtuals;

pub use judge::Live;
pub use look::{Look, Mark};
pub use looking::{Stopped, looks};
pub use virtuals::{spare_of, virtual_pages};
