//! What the calls of a store answer.

/// What a write, or a change of the length, answers.
#[derive(Clone, Copy, Debug, PartialEq, Eq)]
pub enum StoreAnswer {
    Done,
    Failed,
}

/// What a read answers.
#[derive(Clone, Copy, Debug, PartialEq, Eq)]
pub enum FetchAnswer {
    Done,
    /// The store ends before the last of the bytes.
    Short,
    Failed,
}
