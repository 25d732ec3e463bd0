//! Numbers under which pages are kept: which of them are in use, and on which page of the medium each one's page is. And the blocks of
//! these pages: how many pages of each can be tried.
#![tactic(auto)]

mod entry;
mod table;
mod untried;

pub use entry::Entry;
pub use table::Numbers;
pub use untried::Untried;
