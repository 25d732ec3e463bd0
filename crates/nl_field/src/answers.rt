//! The answers of reads and writes of a device.
use crate::Pointer;

/// The answer of a read by a virtual address.
#[derive(Clone, Copy, Debug, PartialEq, Eq)]
pub enum VirtualRead {
    /// The buffer holds the page.
    Done,
    /// The address was never written.
    Unmapped,
    /// The page read does not hold the wanted sequence number. Found is 0 where it is not readable.
    Lost { wanted: u64, found: u64 },
    /// The medium failed.
    Fault,
}

/// The answer of a write by a virtual address.
#[derive(Clone, Copy, Debug, PartialEq, Eq)]
pub enum VirtualWrite {
    /// The address holds the page.
    Done,
    /// A page that was read to clean a block does not hold the wanted sequence number. Found is 0 where it is not readable.
    Lost { wanted: u64, found: u64 },
    /// The medium failed.
    Fault,
}

/// The answer of a write whose place the device picks.
#[derive(Clone, Copy, Debug, PartialEq, Eq)]
pub enum Named {
    /// The page's name and sequence number.
    Placed(Pointer),
    /// The old pointer leads to no live page of its sequence number.
    NotLive,
    /// No page is free.
    NoPage,
    /// The medium failed.
    Fault,
}

/// The answer of a read by a pointer.
#[derive(Clone, Copy, Debug, PartialEq, Eq)]
pub enum NamedRead {
    /// The buffer holds the page.
    Done,
    /// The pointer leads to no live page of its sequence number.
    NotLive,
    /// The page read does not hold the wanted sequence number. Found is 0 where it is not readable.
    Lost { wanted: u64, found: u64 },
    /// The medium failed.
    Fault,
}
