//! Calls and replies as data, and what a plain tree of files answers.
#![tactic(auto)]

mod call;
pub mod laws;
mod lengths;
mod lines;
mod names;
mod reply;
mod turn;
mod walk_path;

pub use call::{Call, Line};
pub use lengths::is_long;
pub use lines::Lines;
pub use names::Names;
pub use nl_tree_content::{Path, ReplyBuf};
pub use reply::{FaultReply, Refusal, Reply, Space};
pub use turn::{Answered, Duty, DutyAnswer, Stage};
pub use walk_path::WalkPath;
