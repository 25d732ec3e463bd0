//! One unit of a frozen transaction is done.
ghost use Rattle.std.specs.Prelude.{◌≡◌, ◌<◌, ◌≤◌, ◌^◌, length};
ghost use Rattle.nl_iface.specs.Answers.{LosesStamp};
ghost use Rattle.nl_iface.specs.Calls.{CallCounted, Ticks};
ghost use Rattle.nl_journal.specs.Left.{UnitWrites};
ghost use Rattle.nl_journal.specs.Passes.{ChangesAddressesOnly};
ghost use Rattle.nl_journal.specs.Progress.{HasNumber};
ghost use Rattle.nl_journal_commit.specs.Standing.{IsJournaled, PreservesGraph};
ghost use Rattle.nl_journal_commit.specs.Stepping.{GoesOneUnit, TellsCommitPage};

use nl_field::VirtualWrite;
use nl_iface::VirtualPages;
use nl_journal::{Journal, Unit};
use nl_meta::Meta;

/// What a unit answers.
#[derive(Clone, Copy, Debug, PartialEq, Eq)]
pub struct UnitTaken {
    pub answer: VirtualWrite,
    /// The number of the transaction whose commit page it finished, where it did.
    pub decided: Option<u64>,
}

/// Does one unit of the frozen transaction: its header, an image, its commit page, or a page copied home. The metadata stands on. Of the
/// committed pages a stop leaves those of before or, where the commit page is due, those with the frozen ones, and these once it is done.
/// After `Lost` and `Fault` the same unit is still to be done.
pub fn take_unit<D: VirtualPages>(
    device: &mut D,
    journal: &mut Journal,
    meta: &mut Meta,
) -> UnitTaken
    requires formed { D.formed device.old }
    requires spare { D.keeps_spare device.old }
    requires stamp { D.next_stamp device.old < 2 ^ 63 }
    requires journaled { IsJournaled D.Counts device.old journal.old meta.old }
    requires some { 1 ≤ length meta.old.frozen.addresses }
    ensures formed { D.formed device.new }
    ensures stands { PreservesGraph D.Counts device.old meta.old device.new journal.new meta.new }
    ensures goes { GoesOneUnit (result.answer ≡ VirtualWrite.Done) journal.old journal.new meta.old meta.new }
    ensures decided { TellsCommitPage (result.answer ≡ VirtualWrite.Done) journal.old result.decided }
    ensures writes { D.tells → HasNumber journal.old (length meta.old.frozen.addresses)
        → UnitWrites D.Counts (result.answer ≡ VirtualWrite.Done) journal.old journal.new meta.old meta.new device.old device.new }
    ensures passes { ChangesAddressesOnly D.Counts (result.answer ≡ VirtualWrite.Done) 1 device.old device.new }
    ensures lost { LosesStamp D.tells (D.stamps device.new) result.answer }
    ensures clock { Ticks D.Counts (result.answer ≡ VirtualWrite.Done) device.old device.new }
    ensures faults { CallCounted D.Counts (result.answer ≡ VirtualWrite.Fault) device.old device.new }
{
    match journal.unit(device, meta) {
        Unit::Decided(number) => UnitTaken {
            answer: VirtualWrite::Done,
            decided: Some(number),
        },
        Unit::Lost { wanted, found } => UnitTaken {
            answer: VirtualWrite::Lost { wanted, found },
            decided: None,
        },
        Unit::Fault => UnitTaken {
            answer: VirtualWrite::Fault,
            decided: None,
        },
        _ => UnitTaken {
            answer: VirtualWrite::Done,
            decided: None,
        },
    }
}
