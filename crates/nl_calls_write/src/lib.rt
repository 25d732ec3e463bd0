//! The file calls that write pages, on the core of a volume.
#![tactic(auto)]

mod answer;
mod fitting;
mod paging;
mod putting;
mod writing;

pub use writing::write_call;
