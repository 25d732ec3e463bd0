//! The top call of a flash store: it answers the words of a command line on a flash medium.
#![tactic(auto)]

pub mod laws;
mod on_path;
mod running;
mod soaking;
mod telling;
mod top;

pub use nl_cmd_words::{Command, Done, command_of};
pub use nl_spec_headline::{OrderList, Ordered, SyncList, Synced};
pub use nl_workers::{Gate, GatePlace, NoGate};
pub use top::nameless;
