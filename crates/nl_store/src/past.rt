//! What a store in memory keeps of the calls that changed it.

/// A call that changes a store in memory: bytes at a place, or a length in bytes.
#[derive(Drop)]
pub enum Change {
    Put { at: u64, from: Vec<u8> },
    Resize { size: u64 },
}

/// A call that was begun in a moment, the bytes that stood there before, and the moment since when they did.
#[derive(Drop)]
pub struct Past {
    pub call: Change,
    pub moment: u64,
    pub bytes: Vec<u8>,
    pub since: u64,
}
