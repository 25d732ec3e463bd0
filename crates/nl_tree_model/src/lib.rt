//! The plain tree of files as a program, for tests: what it answers and becomes is what the definitions say.
#![tactic(auto)]

mod plain;

pub use plain::Plain;
