//! The calls that a worker may give.
use crate::Path;
use nl_field::Text;

/// A file call. Offsets, lengths and sizes are in bytes.
#[derive(Debug, Drop)]
pub enum Call {
    Mkdir(Path),
    Rmdir(Path),
    Create(Path),
    Unlink(Path),
    /// From, and to.
    Rename(Path, Path),
    /// Offset and bytes.
    Write(Path, u64, Text),
    /// Offset, length and the byte.
    Fill(Path, u64, u32, u8),
    /// Offset and length.
    Read(Path, u64, u32),
    /// The size afterwards.
    Truncate(Path, u64),
    Stat(Path),
    List(Path),
    /// Commits, so that a stop can lose no call that came before.
    Sync,
    /// Does one garbage-collection pass.
    Clean,
}

/// A call of a script: the number of its line, from 1, its epoch between barriers, from 0, and its worker, 0 to 7.
#[derive(Debug, Drop)]
pub struct Line {
    pub line: u32,
    pub round: u32,
    pub worker: u8,
    pub call: Call,
}
