use nl_field::InodeRec;
use nl_tree::{Refusal, Reply};

/// How a call that only looks ended.
#[derive(Clone, Copy, Debug, PartialEq, Eq)]
pub enum Looked {
    Replied(Reply),
    /// A page does not hold the sequence number under which it was written.
    Lost { wanted: u64, found: u64 },
    /// A read failed.
    Fault,
}

/// What stands at a path: a file or a directory with its record, or why there is nothing.
#[derive(Clone, Copy, Debug)]
pub(crate) enum Spot {
    File(u32, InodeRec),
    Dir(u32, InodeRec),
    No(Refusal),
    Lost { wanted: u64, found: u64 },
    Fault,
}
