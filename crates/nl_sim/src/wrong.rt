// Why a trial is not right.
use nl_field::Memory;

/// Why a trial is not right.
#[derive(Clone, Copy)]
pub(crate) enum Wrong {
    /// There was not enough memory to tell.
    Memory,
    /// Something differs, and what.
    Differs(&'static str),
}

impl From<Memory> for Wrong {
    fn from(_value: Memory) -> Wrong {
        Wrong::Memory
    }
}
