//! A readable page as a scan lists it.
use crate::spare::SpareRec;

/// A readable page: one whose spare bytes spell a record.
#[derive(Clone, Copy, Debug, PartialEq, Eq)]
pub struct Seen {
    pub page: u32,
    /// What its spare bytes spell.
    pub rec: SpareRec,
    /// The least offset from which its main bytes are zero, at most 4096.
    pub zeros: u32,
    /// False exactly where it is a page of its segment, and a lower page of that segment has its write sequence number and
    /// other main bytes, or another record apart from wear.
    pub agrees: bool,
}
