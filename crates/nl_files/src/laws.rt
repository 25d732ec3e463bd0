//! Laws of files: they stand on after calls, and what a pointer that is installed, and a cut, make of a volume. A function stands for each.
ghost use Rattle.nl_files.specs.CutLaws.{OneFileIsCut};
ghost use Rattle.nl_files.specs.Contents.{CuttingCuts, InstallingWrites, PagesByPointers};
ghost use Rattle.nl_files.specs.CutRuns.{CutRuns, OneCutIsWritten};
ghost use Rattle.nl_files.specs.InstallLaws.{OneFileIsInstalled};
ghost use Rattle.nl_files.specs.InstalledRuns.{InstalledRuns};
ghost use Rattle.nl_files.specs.Laws.{AllAreOfNode, CutPreservesFile, FilesArePreserved, GoodAddressesHavePages, InstallPreservesFile};
ghost use Rattle.nl_files.specs.PageLaws.{CuttingChangesPages, InstallingChangesPages, ReadingChangesPages};

use nl_iface::NamedPages;

/// What calls need of a file's pages holds where its addresses are good.
pub fn good_addresses_have_pages()
    ensures { GoodAddressesHavePages }
{}

/// The pointers of a file by index are those of its node.
pub fn all_are_of_node()
    ensures { AllAreOfNode }
{}

/// A file stands on after each call of this crate that only reads, with the pointers that it had.
pub fn files_stand_on<D: NamedPages>()
    ensures { FilesArePreserved D.Counts }
{}

/// A file stands on after `install` and `cut`, over any device.
pub fn written_files_stand_on<D: NamedPages>()
    ensures installed { InstallPreservesFile D.Counts }
    ensures cut { CutPreservesFile D.Counts }
{}

/// Once the record is written back, one file has the pointers that a cut left, no other node changed, and what is free of the pool is
/// exactly what no node has.
pub fn one_file_is_cut()
    ensures { OneFileIsCut }
{}

/// The calls lose no page of those in memory, and thaw none.
pub fn calls_change_pages<D: NamedPages>()
    ensures reading { ReadingChangesPages D.Counts }
    ensures installing { InstallingChangesPages }
    ensures cutting { CuttingChangesPages }
{}

/// Once a pointer is installed and the record written back, the volume is right again: one pointer of one file changed, no other node, and
/// what is free is exactly what no node has.
pub fn one_file_is_installed()
    ensures { OneFileIsInstalled }
{}

/// A volume that runs over a device runs on where a pointer is installed, whatever the device tells.
pub fn installed_runs<D: NamedPages>()
    ensures { InstalledRuns D.Counts }
{}

/// A volume that runs over a device runs on where a file is cut, and that one file is cut.
pub fn cut_runs<D: NamedPages>()
    ensures written { OneCutIsWritten }
    ensures runs { CutRuns D.Counts }
{}

/// A file has at each index the page of its pointer there: that of the pointer that was installed, and after a cut those before the size.
pub fn contents_by_pointers()
    ensures pages { PagesByPointers }
    ensures installing { InstallingWrites }
    ensures cutting { CuttingCuts }
{}
