//! The words of a command line, answered on a store of bytes: an image file, or any other.
#![tactic(auto)]

mod on_store;
mod program;

pub use nl_app_process::Notice;
pub use on_store::{Ending, OnStore, answer_on};
pub use program::answer;
