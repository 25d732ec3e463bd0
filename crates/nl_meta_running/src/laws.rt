//! Laws of a volume that runs over a device: what a call leaves of it, and the change of one file. A function stands for each law.
ghost use Rattle.nl_meta_running.specs.FileLaws.{OneFileChanges};
ghost use Rattle.nl_meta_running.specs.RunningLaws.{RunningStaysRight};

use nl_iface::VirtualPages;

/// Where a call leaves a volume as it was, its nodes can be read again, and it runs on through the next call too.
pub fn runs_stay<D: VirtualPages>()
    ensures { RunningStaysRight D.Counts }
{}

/// Where one file has another record and other pages of its own, all is right again, and every other node has what it had.
pub fn one_file_changes()
    ensures { OneFileChanges }
{}
