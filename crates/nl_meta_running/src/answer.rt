/// Why a call that reads pages ends early.
#[derive(Clone, Copy, Debug, PartialEq, Eq)]
pub enum Stop {
    /// A read failed.
    Fault,
    /// A page does not hold the sequence number under which its address was written.
    Lost { wanted: u64, found: u64 },
}
