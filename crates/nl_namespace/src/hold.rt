//! The pages of a directory are made resident.
ghost use Rattle.std.specs.Prelude.{IfOk};
ghost use Rattle.nl_namespace.specs.Holding.{HasEntries};
ghost use Rattle.nl_meta_running.specs.Reading.{ReadsExplainStop, stop_of};
ghost use Rattle.nl_meta_running.specs.Running.{IsDirectoryOf, RunningIsRight, PreservesRunning};

use nl_field::InodeRec;
use nl_iface::VirtualPages;
use nl_meta::Meta;
use nl_meta_running::{Stop, hold};

/// The pages of a directory are resident.
pub fn hold_entries<D: VirtualPages>(
    device: &mut D,
    meta: &mut Meta,
    rec: &InodeRec,
) -> Result<(), Stop>
    requires formed { D.formed device.old }
    requires runs { RunningIsRight D.Counts device.old meta.old }
    requires directory { IsDirectoryOf D.Counts device.old meta.old rec.now }
    ensures formed { D.formed device.new }
    ensures kept { PreservesRunning D.Counts device.old meta.old device.new meta.new }
    ensures reads { ReadsExplainStop D.Counts device.old device.new (stop_of result) }
    ensures there { IfOk result (λ u. HasEntries D.Counts device.old meta.old meta.new rec.now) }
{
    let rows = rec.size.div_ceil(64) as usize;
    for row in 0..rows {
        match hold(device, meta, rec.addresses[row]) {
            Ok(()) => {}
            Err(stop) => return Err(stop),
        }
    }
    Ok(())
}
