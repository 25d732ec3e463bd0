//! The commands of the store as far as they need no volume: a command line's words, the reading of a script, what is printed of answers,
//! the making of a volume and the check of an image.
#![tactic(auto)]

mod checking;
mod command;
mod forming;
mod input;
pub mod laws;
mod paths;
pub mod rows;
mod script;
mod status;
mod word;

pub use checking::check;
pub use command::{Command, command_of};
pub use forming::format;
pub use input::{Input, read_all};
pub use paths::path_word;
pub use script::{Script, drawn_lines, read_script};
pub use status::{
    Done, Faults, carried_out, ended, faults_of, has_failed, status_of, without_lines,
};
