//! What is seen of a page.

/// How a page is found.
#[derive(Clone, Copy, Debug, PartialEq, Eq)]
pub enum Mark {
    Erased,
    /// Written, and nothing reads it.
    Dead,
    /// An opening reads it under its address, or for a pointer of a file.
    Live,
    /// It holds what a live page holds, and is not read.
    OldCopy,
    Uncorrectable,
    /// Written, on a medium whose volume does not open.
    Unjudged,
}

/// What is seen of a page: how it is found, and the count of erases with which it was written, 0 where it tells none.
#[derive(Clone, Copy, Debug, PartialEq, Eq)]
pub struct Look {
    pub mark: Mark,
    pub wear: u32,
}
