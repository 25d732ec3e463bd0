//! What the calls on files answer.
use nl_field::Pointer;

/// How a call on a file ended.
#[derive(Clone, Copy, Debug, PartialEq, Eq)]
pub enum FileAnswer {
    Done,
    /// A read failed.
    Fault,
    /// A page read does not hold the wanted sequence number.
    Lost { wanted: u64, found: u64 },
}

/// How many page indexes of a file have a pointer.
#[derive(Clone, Copy, Debug, PartialEq, Eq)]
pub enum CountPages {
    /// So many page indexes have a pointer.
    Pages(u32),
    /// A read failed.
    Fault,
    /// A page read does not hold the wanted sequence number.
    Lost { wanted: u64, found: u64 },
}

/// What a look at one page index finds.
#[derive(Clone, Copy, Debug, PartialEq, Eq)]
pub(crate) enum Looked {
    /// The pointer of the index, if it has one.
    At(Option<Pointer>),
    Fault,
    Lost { wanted: u64, found: u64 },
}
