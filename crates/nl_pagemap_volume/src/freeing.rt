// Pages that await their free are freed behind a call.
ghost use Rattle.std.specs.Prelude.{◌≡◌, ◌<◌, ◌^◌, [], None, is_some, true};
ghost use Rattle.nl_calls_steps.specs.Calls.{counts_of};
ghost use Rattle.nl_core.specs.Core.{IsCore};
ghost use Rattle.nl_core.specs.Goes.{PreservesVolume};
ghost use Rattle.nl_tree.specs.Causes.{FaultRose, fault_in};

use nl_core::Core;
use nl_iface::MovingPages;
use nl_tree::Reply;

/// The next write sequence number from which on nothing is written.
pub(crate) const LAST_STAMP: u64 = 1 << 62;

/// Commits behind a call where a page awaits its free and the core can be written to: then none does, unless the medium fails. Behind a fault
/// the core stays as it is.
pub(crate) fn free_due<D: MovingPages>(core: &mut Core<D>, reply: &Reply)
    requires core { IsCore D.Counts core.old }
    ensures core { IsCore D.Counts core.new }
    ensures goes { PreservesVolume D.Counts 512 core.old core.new }
    ensures flight { core.new.flight ≡ core.old.flight }
    ensures faulty { is_some (fault_in reply.now) ≡ true → core.new ≡ core.old }
    ensures freed { D.tells → fault_in reply.now ≡ None
        → (FaultRose (counts_of D.Counts core.old.device) (counts_of D.Counts core.new.device) → ⊥) → core.old.stopped ≡ 0
        → D.next_stamp core.old.device < 2 ^ 62 → core.new.freeing.items ≡ [] }
{
    if is_fault(reply) || core.freeing.len() == 0 {
        return;
    }
    if core.stopped != 0 || LAST_STAMP <= core.device.next_stamp() {
        return;
    }
    let _ = core.commit();
}

fn is_fault(reply: &Reply) -> bool
    ensures { result ≡ is_some (fault_in reply.now) }
{
    matches!(reply, Reply::Fault(_))
}
