//! A volume in its turns: for which opening and history a core stands, what refuses a line before it is tried, the staging of pages and
//! units ahead of the effect of their line, and the last commit.
#![tactic(auto)]

mod closing;
mod next;
mod numbers;
mod refusing;
pub mod rows;
mod staging;

pub use closing::{Last, commit_last, is_fault, is_lost};
pub use numbers::{counts, is_worn};
pub use refusing::refusal;
pub use staging::{leave_other, stage_line};
