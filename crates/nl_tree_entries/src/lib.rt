//! A tree of files as the list of its entries in the order of their paths, each path and file shared: what is at a path, and the
//! lists that are made of it.
#![tactic(auto)]

mod entries;
mod listing;
mod merge;
mod names;
mod rename;
mod shared;

pub use entries::{Entry, copy, count_entries, find, put, run, without};
pub use listing::push_names;
pub use names::{are_equal, is_under};
pub use rename::renamed;
pub use shared::SharedNode;
