//! The answers of the calls that move pages.

/// What a copy answers.
#[derive(Clone, Copy, Debug, PartialEq, Eq)]
pub enum Copying {
    /// A page of the victim was moved, or a victim was begun that has none to move.
    Did,
    /// There is nothing to copy.
    Nothing,
    /// The page that was read does not hold the wanted number: `found` is another one, 0 where it holds none.
    Lost { wanted: u64, found: u64 },
    /// The medium failed.
    Fault,
}

/// What an erase of the victim answers.
#[derive(Clone, Copy, Debug, PartialEq, Eq)]
pub enum Erasing {
    Done,
    /// No victim without live pages is in hand.
    Nothing,
    /// The medium failed.
    Fault,
}
