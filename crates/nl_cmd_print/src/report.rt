// Prints the report of a volume, which tells its counts.
ghost use Rattle.std.specs.Prelude.{◌≡◌, ◌≤◌, length};
ghost use Rattle.nl_journal_commit.specs.Holding.{running_holders};
ghost use Rattle.nl_core.specs.Core.{IsCore};
ghost use Rattle.nl_field.specs.CrashStates.{Rose};
ghost use Rattle.nl_cmd_print.specs.Showing.{PrintsReport};

use nl_core::Core;
use nl_iface::MovingPages;
use nl_io::{Sink, SinkAnswer};
use nl_print::report_lines;
use nl_volume_list::count_taken;
use nl_volume_list::laws::files_are_charged;

/// Prints the report of a volume, by its core, how many pages its files have, and the least and the greatest wear of the pages that were
/// readable at its opening: its count of calls, the blocks of the segments, how much of the volume its tree takes, how many pairs its
/// device has, that wear, and its next write sequence number.
pub fn print_report<K: Sink, D: MovingPages>(
    sink: &mut K,
    core: &Core<D>,
    files: u32,
    least: u32,
    greatest: u32,
) -> SinkAnswer
    requires core { IsCore D.Counts core.now }
    requires files { files ≡ length (running_holders D.Counts core.now.device core.now.meta) }
    ensures reports { PrintsReport D.Counts core.now least greatest (K.taken sink.old) (K.taken sink.new) result }
    ensures never_falls { K.faults sink.old ≤ K.faults sink.new }
    ensures cause { result ≡ SinkAnswer.Failed → Rose (K.faults sink.old) (K.faults sink.new) }
{
    files_are_charged::<D>();
    let taken = count_taken(core);
    report_lines(
        sink,
        &core.shape,
        core.count,
        u64::from(files),
        taken.nodes,
        taken.meta,
        core.device.pairs(),
        least,
        greatest,
        core.device.next_stamp(),
    )
}
