// The fault of a line.
use crate::Why;

// Why a line is refused, and at which of its columns, from 1.
#[derive(Clone, Copy)]
pub(crate) struct Fault {
    pub(crate) column: u32,
    pub(crate) why: Why,
}
