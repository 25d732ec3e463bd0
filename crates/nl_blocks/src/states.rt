//! The states of blocks and of pages.

/// What a block is used for now.
#[derive(Clone, Copy, Debug, PartialEq, Eq)]
pub enum BlockState {
    /// No page of it is in use.
    Free,
    /// New pages are written to the block.
    Active,
    /// Pages that the cleaner copies are written to the block.
    Target,
    /// The block takes no more pages.
    Sealed,
    /// The cleaner moves the live pages of the block away.
    Victim,
    /// The block is erased, and not given out until this many names of its pages have gone out of use; at least one.
    Retired(u32),
}

/// Whether a page holds content that is in use.
#[derive(Clone, Copy, Debug, PartialEq, Eq)]
pub enum PageState {
    Dead,
    Live,
}

/// A page of a block.
#[derive(Clone, Copy, Debug, PartialEq, Eq)]
pub struct Page {
    pub state: PageState,
    /// Whether it was marked live or dead since its block was taken.
    pub marked: bool,
}
