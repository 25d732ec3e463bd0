use nl_tree::Refusal;

/// What a path leads to, of a call on a file.
#[derive(Clone, Copy, Debug, PartialEq, Eq)]
pub enum Found {
    File(u32),
    No(Refusal),
}

/// How a call that writes ended.
#[derive(Clone, Copy, Debug, PartialEq, Eq)]
pub enum Written {
    /// The files have so many pages now.
    Done(u32),
    No(Refusal),
    /// A page does not hold the write sequence number under which it is looked for: `found` is another one, 0 where it holds none.
    Lost { wanted: u64, found: u64 },
    /// The medium failed.
    Fault,
}
