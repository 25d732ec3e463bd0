//! Numbers, pages, records and lists of bytes that every other crate names.
#![tactic(auto)]

mod address_list;
mod answers;
mod commit;
mod entry;
mod fail_list;
mod findings;
mod header;
mod inode;
pub mod laws;
mod limits;
mod name;
pub mod numbers;
mod page_buf;
mod place;
mod pointer;
mod pointer_list;
mod seen;
mod shape;
mod spare;
mod super_page;
mod text;

pub use address_list::AddressList;
pub use answers::{Named, NamedRead, VirtualRead, VirtualWrite};
pub use commit::CommitRec;
pub use entry::EntryRec;
pub use fail_list::FailList;
pub use findings::Findings;
pub use header::HeaderRec;
pub use inode::{InodeRec, Kind};
pub use limits::{MAX_BYTES, MAX_ENTRIES, MAX_FILE_SIZE, MAX_NAME};
pub use name::Name;
pub use page_buf::PageBuf;
pub use place::{Place, What};
pub use pointer::{Pointer, Tag};
pub use pointer_list::PointerList;
pub use seen::Seen;
pub use shape::{Shape, shape_of};
pub use spare::{SpareRec, spare_into, spare_of};
pub use std::alloc::AllocError as Memory;
pub use super_page::SuperRec;
pub use text::Text;
