//! The phases of the walk of an opening that look at the pointers of files against the pages that a scan saw.
#![tactic(auto)]

mod blank;
mod charges;
mod copies;
mod crowded;
mod earlier;
mod held;
mod names;
mod numbers;
mod owners;
mod pages;
mod places;
mod pointers;
mod spare;

pub use charges::charge_fault;
pub use crowded::crowded_fault;
pub use held::{HeldList, HeldPointer};
pub use names::name_fault;
pub use pointers::pointer_fault;
