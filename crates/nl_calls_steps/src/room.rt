ghost use Rattle.std.specs.Prelude.{◌≡◌, ◌≤◌, ◌+◌, ◌^◌, IfOk, length};
ghost use Rattle.nl_meta.specs.Pages.{besides_0, most};
ghost use Rattle.nl_meta_running.specs.Reading.{stop_of};
ghost use Rattle.nl_core.specs.Core.{IsCore};
ghost use Rattle.nl_core.specs.Goes.{PreservesVolume};
ghost use Rattle.nl_calls_steps.specs.Answers.{EndsEarly};

use nl_core::Core;
use nl_iface::MovingPages;
use nl_journal::Committing;
use nl_meta_running::Stop;

// How many pages may be dirty before a call makes up to four more so.
const FEW: u32 = 59;

/// Commits where fewer than four more pages may become dirty. Where four more may, all stays as it is.
pub fn make_room<D: MovingPages>(core: &mut Core<D>) -> Result<(), Stop>
    requires core { IsCore D.Counts core.old }
    requires writes { core.old.stopped ≡ 0 }
    requires stamp { D.next_stamp core.old.device + 512 ≤ 2 ^ 63 }
    ensures core { IsCore D.Counts core.new }
    ensures goes { PreservesVolume D.Counts 512 core.old core.new }
    ensures flight { core.new.flight ≡ core.old.flight }
    ensures room { IfOk result (λ _. length (besides_0 core.new.meta.dirty) + 4 ≤ most) }
    ensures kept { length core.old.meta.dirty + 4 ≤ most → core.new ≡ core.old }
    ensures early { EndsEarly D.Counts core.old core.new (stop_of result) }
{
    if core.meta.dirty() <= FEW {
        return Ok(());
    }
    match core.commit() {
        Committing::Done(_) => Ok(()),
        Committing::Lost { wanted, found } => Err(Stop::Lost { wanted, found }),
        Committing::Fault => Err(Stop::Fault),
    }
}
