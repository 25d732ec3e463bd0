//! The first fault of an opening: where it is, and what is at fault.

/// What an opening finds at fault, by the phases of its walk in their order.
#[derive(Clone, Copy, Debug, PartialEq, Eq)]
pub enum What {
    /// The super page.
    Super,
    /// A page with the sequence number of a lower page, which differs from it.
    Stamp,
    /// The record of a node.
    Inode,
    /// The address of a metadata page.
    Pages,
    /// An entry of a directory, or a node that is not reached.
    Entry,
    /// A pointer of a file.
    Pointer,
    /// A pointer whose named page holds another sequence number.
    Names,
    /// More pages of files than there may be.
    Charges,
    /// A segment without a spare block, or too many stale pointers.
    Crowded,
}

/// The first place at fault of an opening: a page, node, address or name, by what is at fault.
#[derive(Clone, Copy, Debug, PartialEq, Eq)]
pub struct Place {
    pub place: u64,
    pub what: What,
}
