//! Reads a script: its lines, or the first refusal.
#![tactic(auto)]

mod command;
mod cut;
mod fault;
mod grammar;
mod reading;
mod refusal;
pub mod rows;
mod said;
mod script;
mod spelling;
mod why;
mod words;

pub use refusal::ScriptRefusal;
pub use script::script_of;
pub use why::Why;
