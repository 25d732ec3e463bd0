//! The answers of the calls of a medium.

/// What a forming answers.
#[derive(Clone, Copy, Debug, PartialEq, Eq)]
pub enum FormAnswer {
    /// The medium has that geometry, and each page is erased.
    Done,
    Failed,
    /// Memory was wanting. The medium is as before.
    Memory,
}

/// What a read answers of a page.
#[derive(Clone, Copy, Debug, PartialEq, Eq)]
pub enum ReadAnswer {
    Erased,
    /// The buffer holds the page.
    Written,
    Uncorrectable,
    Failed,
}

/// What a program or an erase answers.
#[derive(Clone, Copy, Debug, PartialEq, Eq)]
pub enum WriteAnswer {
    Done,
    Failed,
}
