//! The state of a core: a device, the metadata that runs over it, the pages in flight, and the pointers that await their free.
ghost use Rattle.std.specs.Prelude.{◌≡◌, ◌+◌, ◌≤◌, ◌^◌, nat_le};
ghost use Rattle.nl_field.specs.CrashStates.{saturated};
ghost use Rattle.nl_core.specs.Core.{begun_of};
ghost use Rattle.nl_core.specs.Writing.{stopped_on};

use nl_field::{PointerList, Shape};
use nl_flight::Flight;
use nl_iface::MovingPages;
use nl_inode::Nodes;
use nl_journal::Journal;
use nl_meta::Meta;

/// A device with the metadata that runs over it, the pages in flight, and the pointers that await their free.
#[derive(Drop)]
pub struct Core<D: MovingPages> {
    pub device: D,
    pub shape: Shape,
    pub journal: Journal,
    pub meta: Meta,
    pub nodes: Nodes,
    pub flight: Flight,
    /// The pointers that await their free, with room for every page of the physical segment.
    pub freeing: PointerList,
    /// How many of them, from the front on, the frozen transaction gives up: its commit page frees these alone.
    pub leaving: u32,
    /// How many calls the volume has answered.
    pub count: u64,
    /// After how many calls the metadata is committed.
    pub committed: u64,
    /// After how many calls it will be once the commit page of the frozen transaction is written, and the same where none is to be.
    pub frozen: u64,
    /// The clock as the commit page of the last transaction was finished, or at the opening where none was committed since.
    pub moment: u64,
    /// The sum of both fault counts after the failure that made the volume read-only, 0 before it.
    pub stopped: u64,
}

impl<D: MovingPages> Core<D> {
    // The volume is read-only from the first failed program or erase on.
    pub(crate) fn note_fault(&mut self, writes_before: u64)
        ensures { self.new ≡ record self.old { stopped = stopped_on D.Counts writes_before self.old self.old } }
    {
        if self.stopped == 0 && rose(writes_before, self.device.write_faults()) {
            self.stopped = self.faults();
        }
    }

    /// The sum of both fault counts.
    pub fn faults(&self) -> u64
        ensures { result ≡ saturated (D.read_faults self.now.device + D.write_faults self.now.device) }
    {
        self.device
            .read_faults()
            .saturating_add(self.device.write_faults())
    }

    // The number that counts for what is handled now: it is above that of the frozen transaction.
    pub(crate) fn mark(&self) -> u64
        ensures mark { result ≡ begun_of self.now + 1 }
        ensures most { begun_of self.now ≤ 2 ^ 63 }
    {
        self.journal.begun(&self.meta) + 1
    }
}

// A count rose, or stands at its end.
fn rose(before: u64, now: u64) -> bool
    ensures { result ≡ nat_le (saturated (before + 1)) now }
{
    before.saturating_add(1) <= now
}
