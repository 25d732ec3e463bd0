//! What a look at a path, and the listing of a directory, answer.
use nl_tree::Refusal;

/// What a path leads to.
#[derive(Clone, Copy, Debug, PartialEq, Eq)]
pub enum Look {
    /// The path leads to the node of this number.
    At(u32),
    /// The last name is missing, and no other.
    Missing,
    /// The path leads nowhere, for this cause.
    No(Refusal),
    /// A read failed.
    Fault,
    /// A page does not hold the sequence number under which its address was written.
    Lost { wanted: u64, found: u64 },
}

/// How the names of a directory were listed.
#[derive(Clone, Copy, Debug, PartialEq, Eq)]
pub enum Listing {
    /// So many names were listed.
    Listed(u32),
    /// A read failed.
    Fault,
    /// A page does not hold the sequence number under which its address was written.
    Lost { wanted: u64, found: u64 },
}

/// How the names were changed.
#[derive(Clone, Copy, Debug, PartialEq, Eq)]
pub enum Change {
    /// Done, and the node that lost its name, if one did.
    Changed { gone: Option<u32> },
    /// Nothing changed, for this cause.
    No(Refusal),
    /// A read failed.
    Fault,
    /// A page does not hold the sequence number under which its address was written.
    Lost { wanted: u64, found: u64 },
}
