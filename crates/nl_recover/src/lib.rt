//! The walk of an opening: it reads the metadata of a volume, and tells the first place at fault, or what a volume is begun with.
#![tactic(auto)]

mod addresses;
mod entries;
mod free;
mod held;
pub mod laws;
mod loading;
mod look;
mod metadata;
mod nodes;
mod opening;
mod reach;
mod stamps;
mod walk;

pub use addresses::pages_fault;
pub use entries::entry_fault;
pub use free::free_lists;
pub use held::held_pointers;
pub use loading::load;
pub use metadata::{Metadata, ReadPages, read_pages};
pub use nodes::{inode_fault, super_fault};
pub use opening::{Recovered, Walked, recover};
pub use reach::reach_fault;
pub use stamps::stamp_fault;
pub use walk::{Outcome, walk_pages};
