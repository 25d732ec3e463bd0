//! The line of a worker is dropped, and the pages that were programmed for it are freed.
ghost use Rattle.std.specs.Prelude.{◌≡◌, ◌<◌};
ghost use Rattle.nl_flight.specs.Flight.{IsFlight, of_worker};
ghost use Rattle.nl_iface.specs.Calls.{KeepsMedium};
ghost use Rattle.nl_journal_commit.specs.Freeing.{FreesEach};
ghost use Rattle.nl_core.specs.Core.{IsCore};
ghost use Rattle.nl_core.specs.Dropping.{DropsLine, FreesAt, pointers_of};
ghost use Rattle.nl_core.specs.Goes.{PreservesVolume};

use crate::state::Core;
use nl_flight::Flight;
use nl_iface::MovingPages;
use nl_spec_commits::laws::device_stands;

impl<D: MovingPages> Core<D> {
    /// Frees the pages in flight of a worker's line, and the worker has no line from now on.
    pub fn drop_line(&mut self, worker: u8)
        requires core { IsCore D.Counts self.old }
        requires known { worker < 8 }
        ensures core { IsCore D.Counts self.new }
        ensures goes { PreservesVolume D.Counts 0 self.old self.new }
        ensures dropped { DropsLine D.Counts worker self.old self.new }
    {
        device_stands(&self.device);
        free_line(&mut self.device, &self.flight, worker);
        device_stands(&self.device);
        self.flight.clear(worker);
    }
}

// Frees the pages in flight of a worker's line, one after the other.
fn free_line<D: MovingPages>(device: &mut D, flight: &Flight, worker: u8)
    requires formed { D.formed device.old }
    requires known { worker < 8 }
    requires flight { IsFlight flight.now }
    ensures formed { D.formed device.new }
    ensures freed { FreesEach (pointers_of (of_worker flight.now worker)) (D.names device.old) (D.names device.new) }
    ensures kept { KeepsMedium D.Counts device.old device.new }
    ensures read_faults { D.read_faults device.new ≡ D.read_faults device.old }
{
    for i in 0..18 {
        free_at(device, flight, worker, i);
    }
}

// Frees the page of that place of a worker's line, where it has one.
fn free_at<D: MovingPages>(device: &mut D, flight: &Flight, worker: u8, i: u32)
    requires formed { D.formed device.old }
    requires known { worker < 8 }
    ensures formed { D.formed device.new }
    ensures freed { FreesAt (pointers_of (of_worker flight.now worker)) i (D.names device.old) (D.names device.new) }
    ensures kept { KeepsMedium D.Counts device.old device.new }
    ensures read_faults { D.read_faults device.new ≡ D.read_faults device.old }
{
    if let Some((_, at, _)) = flight.get(worker, i) {
        let _ = device.free(at);
    }
}
