//! A whole commit: what was frozen is completed, and then the dirty pages under a count of calls.
ghost use Rattle.std.specs.Prelude.{◌≡◌, ◌<◌, ◌≤◌, ◌+◌, ◌^◌, length, IfSome};
ghost use Rattle.nl_iface.specs.Answers.{LosesStamp};
ghost use Rattle.nl_iface.specs.Calls.{CallCounted};
ghost use Rattle.nl_journal.specs.Left.{CommitWrites};
ghost use Rattle.nl_journal.specs.Passes.{ChangesAddressesOnly};
ghost use Rattle.nl_journal.specs.Progress.{HasNumber};
ghost use Rattle.nl_journal_commit.specs.Committing.{ChangesAt, CommitsWhole, EarlierAt};
ghost use Rattle.nl_journal_commit.specs.Counting.{with_count};
ghost use Rattle.nl_journal_commit.specs.Standing.{IsJournaled, PreservesGraph};

use crate::changes::commit_changes;
use crate::completing::complete;
use crate::super_page::store_count;
use nl_field::{Shape, VirtualWrite};
use nl_iface::VirtualPages;
use nl_journal::Journal;
use nl_meta::Meta;

/// What a commit answers.
#[derive(Clone, Copy, Debug, PartialEq, Eq)]
pub struct Committed {
    pub answer: VirtualWrite,
    /// Whether the dirty pages were frozen: what was frozen before is home then.
    pub froze: bool,
    /// The clock as the commit page of the transaction that was frozen before was finished, where that was now.
    pub earlier: Option<u64>,
    /// The clock as the commit page of the dirty pages was finished, where it was.
    pub decided: Option<u64>,
}

/// Makes the metadata as it runs take effect at once, under this count of calls: it completes what is frozen, and then freezes the dirty
/// pages and completes them. The metadata stands on. Of the committed pages a stop leaves those of before, or those with the frozen ones,
/// or those with the dirty ones too; from each moment that is told on those of the commit page that was finished then, or of a later one.
/// After `Lost` and `Fault` the pages in memory are as before, or the dirty ones are frozen, and the next commit goes on from there.
pub fn commit<D: VirtualPages>(
    device: &mut D,
    journal: &mut Journal,
    meta: &mut Meta,
    shape: &Shape,
    count: u64,
) -> Committed
    requires formed { D.formed device.old }
    requires spare { D.keeps_spare device.old }
    requires stamp { D.next_stamp device.old + 512 ≤ 2 ^ 63 }
    requires journaled { IsJournaled D.Counts device.old journal.old meta.old }
    requires count { count < 2 ^ 63 }
    ensures formed { D.formed device.new }
    ensures stands { PreservesGraph D.Counts device.old meta.old device.new journal.new meta.new }
    ensures commits { CommitsWhole D.Counts (result.answer ≡ VirtualWrite.Done) result.froze result.earlier result.decided device.old
        journal.old (with_count shape.now count meta.old) device.new journal.new meta.new }
    ensures earlier { IfSome result.earlier
        (EarlierAt D.Counts device.old device.new journal.old journal.new (with_count shape.now count meta.old) meta.new) }
    ensures decided { IfSome result.decided
        (ChangesAt D.Counts device.old device.new journal.old journal.new (with_count shape.now count meta.old) meta.new) }
    ensures writes { D.tells → HasNumber journal.new (length meta.new.frozen.addresses) → CommitWrites D.Counts
        (result.answer ≡ VirtualWrite.Done) journal.old journal.new (with_count shape.now count meta.old) meta.new device.old device.new }
    ensures passes { ChangesAddressesOnly D.Counts (result.answer ≡ VirtualWrite.Done) 512 device.old device.new }
    ensures lost { LosesStamp D.tells (D.stamps device.new) result.answer }
    ensures clock { D.clock device.old ≤ D.clock device.new }
    ensures faults { CallCounted D.Counts (result.answer ≡ VirtualWrite.Fault) device.old device.new }
{
    store_count(meta, shape, count);
    let first = complete(device, journal, meta);
    match first.answer {
        VirtualWrite::Done => {
            meta.stands();
            let rest = commit_changes(device, journal, meta);
            Committed {
                answer: rest.answer,
                froze: true,
                earlier: first.decided,
                decided: rest.decided,
            }
        }
        answer => Committed {
            answer,
            froze: false,
            earlier: first.decided,
            decided: None,
        },
    }
}
