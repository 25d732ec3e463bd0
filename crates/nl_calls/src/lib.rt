//! The effect of a file call on the core of a volume, and its reply.
#![tactic(auto)]

mod answer;
mod calls;
mod cleaning;
mod looking;
mod naming;
pub mod rows;
mod syncing;
mod writing;

pub use answer::Answer;
pub use calls::answer_call;
