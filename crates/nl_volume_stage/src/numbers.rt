ghost use Rattle.std.specs.Prelude.{◌≤◌, ◌^◌, ◌↔◌, IsTrue};
ghost use Rattle.nl_volume_stage.specs.Turns.{AreCounts};

use nl_core::Core;
use nl_iface::MovingPages;

/// The write sequence number from which on a volume is worn.
const WORN: u64 = 1 << 62;

/// Whether the write sequence numbers are used up: the next one has reached 2^62.
pub fn is_worn<D: MovingPages>(core: &Core<D>) -> bool
    ensures { IsTrue result ↔ 2 ^ 62 ≤ D.next_stamp core.now.device }
{
    core.device.next_stamp() >= WORN
}

/// Clock and count of failed writes are numbers of a `u64`.
pub fn counts<D: MovingPages>(core: &Core<D>)
    ensures { AreCounts D.Counts core.now }
{
    let _clock = core.device.clock();
    let _faults = core.device.write_faults();
}
