//! What the turns of a volume report: a staging, an effect, and a task in the background.
use crate::Reply;

/// What one staging did.
#[derive(Clone, Copy, Debug, PartialEq, Eq)]
pub enum Stage {
    /// One whole page of the line is programmed and in flight, or one unit of a sync is done.
    Staged,
    /// No whole page of the line is left to stage, and no unit of a sync.
    Whole,
    /// The volume is read-only or worn.
    Stopped,
    /// A page that was read does not hold the wanted stamp. The stamp found is 0 for none.
    Lost { wanted: u64, found: u64 },
    /// An operation of the medium failed.
    Fault,
}

/// What a line's effect answered, and its place in the order of all calls.
#[derive(Clone, Copy, Debug, PartialEq, Eq)]
pub struct Answered {
    /// The count of calls with this one. It stands at 2^64 - 1, so places alone do not always tell the order.
    pub place: u64,
    /// The effects since the opening, this one included, at most 2^64 - 1.
    pub ordinal: u64,
    pub reply: Reply,
}

/// A background task of the volume.
#[derive(Clone, Copy, Debug, PartialEq, Eq)]
pub enum Duty {
    /// Moves one live page of the block that is being cleaned.
    Copy,
    /// Erases that block.
    Erase,
    /// Handles the pending callback of this number.
    Handle(u64),
    Commit,
    /// Chooses the coldest block for cleaning.
    Level,
}

/// What a background task did.
#[derive(Clone, Copy, Debug, PartialEq, Eq)]
pub enum DutyAnswer {
    Did,
    Nothing,
    /// An operation of the medium failed.
    Fault,
    /// A page that was read does not hold the wanted stamp. The stamp found is 0 for none.
    Lost { wanted: u64, found: u64 },
}
