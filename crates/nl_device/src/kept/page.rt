// A page as it is kept of a scan.
use nl_field::Tag;

/// A readable page of the physical segment.
#[derive(Clone, Copy, Debug, PartialEq, Eq)]
pub struct KeptPage {
    pub page: u32,
    pub stamp: u64,
    pub tag: Tag,
}
