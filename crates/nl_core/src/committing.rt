//! The commit of a core: all calls so far take effect at once, and what they gave up is freed.
ghost use Rattle.std.specs.Prelude.{◌≡◌, ◌≤◌, ◌+◌, ◌^◌};
ghost use Rattle.nl_iface.specs.Calls.{StoresPages};
ghost use Rattle.nl_iface.specs.Device.{IsVolumeShape};
ghost use Rattle.nl_iface.specs.Names.{IsNames};
ghost use Rattle.nl_core.specs.Calls.{CommitsByAnswer, FailureIsCounted};
ghost use Rattle.nl_core.specs.Core.{IsCore};
ghost use Rattle.nl_core.specs.Goes.{PreservesVolume};
ghost use Rattle.nl_meta.specs.Pages.{IsPages};
ghost use Rattle.nl_core.specs.Writing.{HasTable, Settles, WritesAll, noted};

use crate::state::Core;
use nl_field::VirtualWrite;
use nl_iface::MovingPages;
use nl_journal::Committing;
use nl_journal_commit::{Committed, commit, free_first};
use nl_spec_commits::laws::device_stands;

// The greatest count of calls and the greatest number of a transaction that are spelled.
pub(crate) const LAST: u64 = (1 << 63) - 1;

impl<D: MovingPages> Core<D> {
    /// Makes all calls so far take effect at once. Once that is done, the pages are freed that awaited it, and the callbacks are
    /// acknowledged that were handled before. What is frozen is finished first, with its pages copied home. A stop within leaves what was
    /// committed before, or was frozen, or all calls; from the moment of the last commit page on nothing earlier than what that one
    /// committed. After `Lost` and `Fault` the next commit goes on from there.
    pub fn commit(&mut self) -> Committing
        requires core { IsCore D.Counts self.old }
        requires writes { self.old.stopped ≡ 0 }
        requires stamp { D.next_stamp self.old.device + 512 ≤ 2 ^ 63 }
        ensures core { IsCore D.Counts self.new }
        ensures goes { PreservesVolume D.Counts 512 self.old self.new }
        ensures commits { CommitsByAnswer D.Counts self.old self.new result }
        ensures faults { FailureIsCounted D.Counts (result ≡ Committing.Fault) self.old self.new }
    {
        let mark = self.mark();
        match self.write_all() {
            VirtualWrite::Done => {
                let due = self.freeing.len();
                self.settle(due, mark);
                Committing::Done(mark.min(LAST))
            }
            VirtualWrite::Lost { wanted, found } => Committing::Lost { wanted, found },
            VirtualWrite::Fault => Committing::Fault,
        }
    }

    // Writes what is frozen and then what is dirty, and notes the counts and moments of the commit pages that were finished.
    fn write_all(&mut self) -> VirtualWrite
        requires core { IsCore D.Counts self.old }
        requires writes { self.old.stopped ≡ 0 }
        requires stamp { D.next_stamp self.old.device + 512 ≤ 2 ^ 63 }
        ensures formed { D.formed self.new.device }
        ensures pages { IsPages self.old.meta }
        ensures volume { IsVolumeShape (D.shape self.old.device) }
        ensures stores { D.tells → StoresPages D.Counts self.new.device }
        ensures written { WritesAll D.Counts self.old self.new result }
    {
        self.meta.stands();
        device_stands(&self.device);
        let faults = self.device.write_faults();
        let count = self.count.min(LAST);
        let done = commit(
            &mut self.device,
            &mut self.journal,
            &mut self.meta,
            &self.shape,
            count,
        );
        device_stands(&self.device);
        self.note_fault(faults);
        self.note_commit(&done);
        done.answer
    }

    // The counts and the moments of the commit pages that were finished, and what is frozen then and gives up.
    fn note_commit(&mut self, done: &Committed)
        ensures { self.new ≡ noted self.old done.now.froze done.now.earlier done.now.decided }
    {
        if let Some(moment) = done.earlier {
            self.committed = self.frozen;
            self.moment = moment;
            self.leaving = 0;
        }
        if done.froze {
            self.frozen = self.count;
            self.leaving = self.freeing.len();
        }
        if let Some(moment) = done.decided {
            self.committed = self.count;
            self.moment = moment;
            self.leaving = 0;
        }
    }

    // What awaited a commit page is freed after it, the first so many, and what was handled up to this mark is acknowledged. No transaction
    // gives up a page then.
    pub(crate) fn settle(&mut self, due: u32, mark: u64)
        requires formed { D.formed self.old.device }
        ensures formed { D.formed self.new.device }
        ensures table { HasTable D.Counts self.old.device }
        ensures stores { D.tells → StoresPages D.Counts self.new.device }
        ensures numbers { IsNames (D.shape self.new.device) (D.next_stamp self.new.device) (D.names self.new.device) }
        ensures settled { Settles D.Counts due mark self.old self.new }
    {
        device_stands(&self.device);
        let due = due.min(self.freeing.len());
        free_first(&mut self.device, &mut self.freeing, due);
        self.device.acknowledge(mark);
        self.leaving = 0;
        device_stands(&self.device);
    }
}
