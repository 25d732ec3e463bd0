//! The callbacks that the device has posted and whose transaction was not acknowledged yet.
#![tactic(auto)]

mod entry;
mod links;
mod lists;
mod notices;
mod pending;
mod stamped;

pub use nl_field::Memory;
pub use notices::{NoticeLog, NoticePass, Notices};
pub use pending::Pending;
