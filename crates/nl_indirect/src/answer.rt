/// What a pointer that was stored means for the page of its range.
#[derive(Clone, Copy, Debug, PartialEq, Eq)]
pub enum Stored {
    Done,
    /// The range lost its last pointer: the page of this address is the file's no longer.
    Emptied(u32),
}
