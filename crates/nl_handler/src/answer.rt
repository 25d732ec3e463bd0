/// How a callback was handled.
#[derive(Clone, Copy, Debug, PartialEq, Eq)]
pub enum Handled {
    /// The pointer of the callback's sequence number has the name of the page's new place.
    Renamed,
    /// No pointer has the sequence number.
    Gone,
    /// A page of the metadata has the pointer, and cannot be made dirty.
    NoRoom,
    /// A read failed.
    Fault,
    /// A page does not hold the sequence number under which its address was written.
    Lost { wanted: u64, found: u64 },
}
