// The answers of the calls of cleaning.
use nl_field::Tag;

/// What a move answers.
#[derive(Clone, Copy, Debug, PartialEq, Eq)]
pub enum Copied {
    /// The live page `before` of the victim is at `after` now, under the same owner and number.
    Moved {
        before: u32,
        after: u32,
        tag: Tag,
        stamp: u64,
    },
    /// No victim with a live page is in hand.
    Nothing,
    /// The page that was read does not hold the wanted number: `found` is another one, 0 where it holds none.
    Lost {
        wanted: u64,
        found: u64,
    },
    /// The medium failed.
    Fault,
}

/// What an erase of the victim answers.
#[derive(Clone, Copy, Debug, PartialEq, Eq)]
pub enum Erasure {
    Done,
    /// No victim without live pages is in hand.
    Nothing,
    /// The medium failed.
    Fault,
}
