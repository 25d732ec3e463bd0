// The entry of a number.
use nl_field::Tag;

/// Where the page of a number is: its page of the medium, and the owner and the write sequence number that it was written with.
#[derive(Clone, Copy, Debug, PartialEq, Eq)]
pub struct Entry {
    pub page: u32,
    pub tag: Tag,
    pub stamp: u64,
}
