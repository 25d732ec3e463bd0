//! The record of one page in flight.
use nl_field::{Pointer, Tag};

/// A page that is programmed and stands in no file yet: its index in the file, its name with its write sequence number,
/// and its owner.
#[derive(Clone, Copy, Debug, PartialEq, Eq)]
pub(crate) struct FlightPage {
    pub index: u32,
    pub at: Pointer,
    pub tag: Tag,
}
