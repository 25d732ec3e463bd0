//! Where a script is read from and where answers are printed to: streams with a count of faults, which tell their
//! bytes where they are kept in memory.
#![tactic(auto)]

mod mem_sink;
mod mem_source;
mod sink;
mod source;
mod standard;
mod words;

pub use mem_sink::MemSink;
pub use mem_source::MemSource;
pub use sink::{Sink, SinkAnswer};
pub use source::{Source, SourceAnswer};
pub use standard::{StdSink, StdSource};
pub use words::Words;
