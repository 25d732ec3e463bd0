//! Laws of the definitions. Each function stands for the laws that its contract names.
ghost use Rattle.nl_calls_files.specs.FileRuns.{CutHasPages, FileRunsOn, HeldLeadOnce, InstalledHasPages};
ghost use Rattle.nl_calls_files.specs.FileTrees.{FileChangesTree, FileStaysRight};
ghost use Rattle.nl_calls_files.specs.Fits.{FilesLead, FilesOfPool, FilesReadRun, FilesAreAtHand, FreeFilePages};
ghost use Rattle.nl_calls_files.specs.Holders.{CuttingHolds, InstallingHolds};
ghost use Rattle.nl_calls_files.specs.Landing.{PagesLand};
ghost use Rattle.nl_calls_files.specs.LinePages.{LinesWriteOver};

use nl_iface::NamedPages;

/// Where one file of a volume changes and has its pages, the metadata stays right. The tree has what the file holds now under its path, and
/// all else stays.
pub fn files_change_trees()
    ensures right { FileStaysRight }
    ensures tree { FileChangesTree }
{}

/// The pages of a worker's line leave the flight one after the other, as a file takes them.
pub fn pages_land()
    ensures { PagesLand }
{}

/// The pages of a write make of a file's content what the write makes of it, and hold nothing behind its size.
pub fn lines_write_over()
    ensures { LinesWriteOver }
{}

/// A page in flight that a file takes is held by the file, and what the file had there awaits its free. What a cut takes away from a file
/// awaits its free too.
pub fn files_hold<D: NamedPages>()
    ensures installing { InstallingHolds D.Counts }
    ensures cutting { CuttingHolds D.Counts }
{}

/// A file of a volume that runs can be read, prepared, written and cut: its pages of pointers are at hand, its pointers lead, a call that
/// reads it leaves the volume as it was, and free addresses may become new pages of it.
pub fn files_fit<D: NamedPages>()
    ensures stand { FilesAreAtHand D.Counts }
    ensures lead { FilesLead D.Counts }
    ensures run { FilesReadRun D.Counts }
    ensures pool { FilesOfPool D.Counts }
    ensures free { FreeFilePages D.Counts }
{}

/// Where one file changes and has its pages, the volume's pages stand for the tree with what the file holds now. A file that took a page
/// that is there has its pages, and so has one that was cut. The pointers of all files lead, where each live page is held once.
pub fn files_run_on<D: NamedPages>()
    ensures lead { HeldLeadOnce D.Counts }
    ensures file { FileRunsOn }
    ensures installed { InstalledHasPages }
    ensures cut { CutHasPages }
{}
