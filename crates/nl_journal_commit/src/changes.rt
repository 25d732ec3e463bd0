//! The dirty pages are frozen, and their transaction is completed.
ghost use Rattle.std.specs.Prelude.{◌≡◌, ◌≤◌, ◌+◌, ◌^◌, length, MatchOption};
ghost use Rattle.nl_iface.specs.Answers.{LosesStamp};
ghost use Rattle.nl_iface.specs.Calls.{CallCounted};
ghost use Rattle.nl_journal.specs.Left.{FinishWrites};
ghost use Rattle.nl_journal.specs.Passes.{ChangesAddressesOnly};
ghost use Rattle.nl_journal.specs.Progress.{HasNumber};
ghost use Rattle.nl_journal.specs.Units.{Finishes};
ghost use Rattle.nl_meta.specs.Pages.{dirty_pages};
ghost use Rattle.nl_journal_commit.specs.Completing.{DecidesAt, StillAwaitsCommitPage};
ghost use Rattle.nl_journal_commit.specs.Counting.{with_frozen};
ghost use Rattle.nl_journal_commit.specs.Standing.{CanFreeze, IsJournaled, PreservesGraph};

use crate::completing::{Completed, complete};
use nl_field::VirtualWrite;
use nl_iface::VirtualPages;
use nl_journal::Journal;
use nl_meta::Meta;

/// Makes the dirty pages take effect at once, where nothing is frozen: it freezes them and completes their transaction. The metadata
/// stands on as it runs. Of the committed pages a stop leaves those of before, or those with the dirty ones, and these from the moment
/// on at which the commit page was finished. After `Lost` and `Fault` they are frozen.
pub fn commit_changes<D: VirtualPages>(
    device: &mut D,
    journal: &mut Journal,
    meta: &mut Meta,
) -> Completed
    requires formed { D.formed device.old }
    requires spare { D.keeps_spare device.old }
    requires stamp { D.next_stamp device.old + 256 ≤ 2 ^ 63 }
    requires journaled { IsJournaled D.Counts device.old journal.old meta.old }
    requires changes { CanFreeze (D.shape device.old).vaddrs journal.old meta.old }
    ensures formed { D.formed device.new }
    ensures stands { PreservesGraph D.Counts device.old meta.old device.new journal.new meta.new }
    ensures finishes { Finishes 0 (result.answer ≡ VirtualWrite.Done) journal.old journal.new (with_frozen meta.old) meta.new }
    ensures decided { MatchOption result.decided (StillAwaitsCommitPage journal.old journal.new (dirty_pages meta.old) meta.new.frozen)
        (DecidesAt D.Counts device.old device.new journal.old journal.new (with_frozen meta.old) meta.new.frozen) }
    ensures writes { D.tells → HasNumber journal.old (length meta.old.dirty) → FinishWrites D.Counts
        (result.answer ≡ VirtualWrite.Done) journal.old journal.new (with_frozen meta.old) meta.new device.old device.new }
    ensures passes { ChangesAddressesOnly D.Counts (result.answer ≡ VirtualWrite.Done) 256 device.old device.new }
    ensures lost { LosesStamp D.tells (D.stamps device.new) result.answer }
    ensures clock { D.clock device.old ≤ D.clock device.new }
    ensures faults { CallCounted D.Counts (result.answer ≡ VirtualWrite.Fault) device.old device.new }
{
    meta.stands();
    meta.freeze();
    complete(device, journal, meta)
}
