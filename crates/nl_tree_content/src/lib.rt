//! Paths, the bytes of a reply, and what a file holds: pages by index, which several contents share.
#![tactic(auto)]

pub mod content_laws;
mod file_buf;
mod file_ops;
mod pages;
mod path;
mod reply_buf;
mod shared_page;
mod shared_path;

pub use file_buf::FileBuf;
pub use file_ops::{cut, read, written};
pub use path::Path;
pub use reply_buf::ReplyBuf;
pub use shared_path::{SharedPath, behind, copied_path, joined};
