//! Pages whose place the device picks: each is named by the page that was programmed, and read by its name and its write
//! sequence number.
#![tactic(auto)]

mod begin;
mod clean;
mod cleaned;
mod copy;
mod erase;
mod find;
mod give_back;
mod held;
mod names;
mod open;
mod pseg;
mod read;
mod room;
mod state;
mod write;

pub use cleaned::{Copied, Erasure};
pub use held::Held;
pub use pseg::PSeg;
