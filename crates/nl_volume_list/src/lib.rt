//! A walk over all paths of a tree, in the order in which they are printed, and what the tree takes of the volume.
#![tactic(auto)]

mod counting;
mod entries;
mod item;
pub mod laws;
mod next;
mod places;
pub mod rows;
mod walk;

pub use counting::{Taken, count_taken};
pub use item::TreeItem;
pub use next::next_path;
pub use walk::TreeWalk;
