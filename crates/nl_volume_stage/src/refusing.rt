ghost use Rattle.std.specs.Prelude.{◌≡◌, ◌<◌};
ghost use Rattle.nl_tree.specs.Causes.{fault_due, is_changing};
ghost use Rattle.nl_volume_stage.specs.Serving.{refusing_of, some_number, staged_fault};

use crate::numbers::is_worn;
use nl_core::Core;
use nl_iface::MovingPages;
use nl_tree::{Call, FaultReply};

/// The fault that refuses a line before it is tried: its staging failed; or it changes something, and the volume is read-only or worn.
pub fn refusal<D: MovingPages>(
    core: &Core<D>,
    worker: u8,
    line: u32,
    call: &Call,
) -> Option<FaultReply>
    requires known { worker < 8 }
    ensures { result ≡ fault_due (refusing_of D.Counts core.now worker line) call.now }
{
    let staged = staged_fault(core, worker, line);
    if staged != 0 {
        return Some(FaultReply::Eio(staged));
    }
    if !is_changing(call) {
        return None;
    }
    if core.stopped != 0 {
        return Some(FaultReply::Erofs(core.stopped));
    }
    if is_worn(core) {
        return Some(FaultReply::Eworn);
    }
    None
}

// The number with which a staging of the worker's line failed, 0 for none.
fn staged_fault<D: MovingPages>(core: &Core<D>, worker: u8, line: u32) -> u64
    requires known { worker < 8 }
    ensures { some_number result ≡ staged_fault core.now.flight worker line }
{
    if core.flight.line(worker) == line {
        core.flight.fault(worker)
    } else {
        0
    }
}

// All calls but those that only look.
fn is_changing(call: &Call) -> bool
    ensures { result ≡ is_changing call.now }
{
    match call {
        Call::Read(..) | Call::Stat(_) | Call::List(_) => false,
        _ => true,
    }
}
