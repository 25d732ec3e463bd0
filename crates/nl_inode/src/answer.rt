/// How a page was fetched.
#[derive(Clone, Copy, Debug, PartialEq, Eq)]
pub enum Fetch {
    Ready,
    /// A read failed.
    Fault,
    /// The page does not hold the sequence number under which the address was written.
    Lost { wanted: u64, found: u64 },
}
