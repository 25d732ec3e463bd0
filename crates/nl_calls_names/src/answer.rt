ghost use Rattle.std.specs.Prelude.{◌≡◌};
ghost use Rattle.nl_calls_names.specs.Naming.{stopped_by};

use nl_meta_running::Stop;
use nl_tree::Refusal;

/// How a call that changes names ended.
#[derive(Clone, Copy, Debug, PartialEq, Eq)]
pub enum Naming {
    Done,
    No(Refusal),
    /// A read failed.
    Fault,
    /// A page does not hold the sequence number under which its address was written.
    Lost { wanted: u64, found: u64 },
}

// The answer of a call that ended early.
pub(crate) fn stopped(stop: Stop) -> Naming
    ensures { result ≡ stopped_by stop }
{
    match stop {
        Stop::Fault => Naming::Fault,
        Stop::Lost { wanted, found } => Naming::Lost { wanted, found },
    }
}
