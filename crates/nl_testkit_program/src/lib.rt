//! The top call on media in memory, as tests of it call it, and texts that they share.
#![tactic(auto)]

pub mod built;
pub mod note;
pub mod play;
pub mod program;
