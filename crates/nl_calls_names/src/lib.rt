//! The calls of files that change names, on the core of a volume.
#![tactic(auto)]

mod answer;
mod changing;
mod dropping;
mod finding;
mod gathering;
mod settling;

pub use answer::Naming;
pub use changing::change_names;
