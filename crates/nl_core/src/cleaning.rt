//! One victim of a core's device is cleaned.
ghost use Rattle.std.specs.Prelude.{◌≡◌};
ghost use Rattle.nl_core.specs.Calls.{FailureIsCounted};
ghost use Rattle.nl_core.specs.Core.{IsCore};
ghost use Rattle.nl_core.specs.Goes.{PreservesVolume};
ghost use Rattle.nl_core.specs.Cleaning.{CleansDevice};

use crate::state::Core;
use nl_core_clean::{Cleaned, clean};
use nl_iface::MovingPages;
use nl_spec_commits::laws::device_stands;

impl<D: MovingPages> Core<D> {
    /// Cleans one victim of the device, the one in hand or else the block with the most dead pages: its live pages are moved, and it is
    /// erased. Whoever holds a page holds it as before, also in what a stop within leaves.
    pub fn clean(&mut self) -> Cleaned
        requires core { IsCore D.Counts self.old }
        requires writes { self.old.stopped ≡ 0 }
        ensures core { IsCore D.Counts self.new }
        ensures goes { PreservesVolume D.Counts 0 self.old self.new }
        ensures cleans { CleansDevice D.Counts D.MovingPages.own self.old self.new result }
        ensures faults { FailureIsCounted D.Counts (result ≡ Cleaned.Fault) self.old self.new }
    {
        let faults = self.device.write_faults();
        device_stands(&self.device);
        let answer = clean(&mut self.device);
        device_stands(&self.device);
        self.note_fault(faults);
        answer
    }
}
