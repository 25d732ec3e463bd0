//! The units that are left of a frozen transaction are done.
ghost use Rattle.std.specs.Prelude.{◌≡◌, ◌≤◌, ◌+◌, ◌^◌, length, MatchOption};
ghost use Rattle.nl_iface.specs.Answers.{LosesStamp};
ghost use Rattle.nl_iface.specs.Calls.{CallCounted};
ghost use Rattle.nl_journal.specs.Left.{FinishWrites};
ghost use Rattle.nl_journal.specs.Passes.{ChangesAddressesOnly};
ghost use Rattle.nl_journal.specs.Progress.{HasNumber};
ghost use Rattle.nl_journal.specs.Units.{Finishes};
ghost use Rattle.nl_journal_commit.specs.Completing.{DecidesAt, StillAwaitsCommitPage};
ghost use Rattle.nl_journal_commit.specs.Standing.{IsJournaled, PreservesGraph};

use nl_field::VirtualWrite;
use nl_iface::VirtualPages;
use nl_journal::{Journal, frozen_len};
use nl_meta::Meta;

/// What completing a transaction answers.
#[derive(Clone, Copy, Debug, PartialEq, Eq)]
pub struct Completed {
    pub answer: VirtualWrite,
    /// The clock as the commit page was finished, where that was now.
    pub decided: Option<u64>,
}

/// Does the units that are left of the frozen transaction, where there is one. The metadata stands on, and of the committed pages a
/// stop leaves those of before, or those with the frozen ones, and these from the moment on at which the commit page was finished. After
/// `Lost` and `Fault` the next unit is still to be done.
pub fn complete<D: VirtualPages>(
    device: &mut D,
    journal: &mut Journal,
    meta: &mut Meta,
) -> Completed
    requires formed { D.formed device.old }
    requires spare { D.keeps_spare device.old }
    requires stamp { D.next_stamp device.old + 256 ≤ 2 ^ 63 }
    requires journaled { IsJournaled D.Counts device.old journal.old meta.old }
    ensures formed { D.formed device.new }
    ensures stands { PreservesGraph D.Counts device.old meta.old device.new journal.new meta.new }
    ensures finishes { Finishes 0 (result.answer ≡ VirtualWrite.Done) journal.old journal.new meta.old meta.new }
    ensures decided { MatchOption result.decided (StillAwaitsCommitPage journal.old journal.new meta.old.frozen meta.new.frozen)
        (DecidesAt D.Counts device.old device.new journal.old journal.new meta.old meta.new.frozen) }
    ensures writes { D.tells → HasNumber journal.old (length meta.old.frozen.addresses)
        → FinishWrites D.Counts (result.answer ≡ VirtualWrite.Done) journal.old journal.new meta.old meta.new device.old device.new }
    ensures passes { ChangesAddressesOnly D.Counts (result.answer ≡ VirtualWrite.Done) 256 device.old device.new }
    ensures lost { LosesStamp D.tells (D.stamps device.new) result.answer }
    ensures clock { D.clock device.old ≤ D.clock device.new }
    ensures faults { CallCounted D.Counts (result.answer ≡ VirtualWrite.Fault) device.old device.new }
{
    let pages = frozen_len(meta);
    if journal.left(meta) <= pages {
        let answer = journal.finish(device, meta, 0);
        return Completed {
            answer,
            decided: None,
        };
    }
    match journal.finish(device, meta, pages) {
        VirtualWrite::Done => {
            let moment = device.clock();
            let answer = journal.finish(device, meta, 0);
            Completed {
                answer,
                decided: Some(moment),
            }
        }
        answer => Completed {
            answer,
            decided: None,
        },
    }
}
