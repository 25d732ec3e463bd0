//! Laws of the definitions. Each function stands for the laws that its contract names.
ghost use Rattle.nl_volume_list.specs.Counts.{FilesAreCharged};
ghost use Rattle.nl_volume_list.specs.Laws.{FewItems, ItemsAreCounted, ItemsInTurn, ReadsRunOn};
ghost use Rattle.nl_volume_list.specs.Next.{WalksBegin};

use nl_iface::MovingPages;

/// A tree has as many items as nodes. They come in the order of their paths: a directory, and then what is under each of its entries in the
/// order of their names.
pub fn items_in_turn()
    ensures count { ItemsAreCounted }
    ensures order { ItemsInTurn }
{}

/// A walk that was made for a core is one over it, before the root, and its tree has no more paths than the volume may have nodes. It stays
/// the same tree while pages are read.
pub fn walks_begin<D: MovingPages>()
    ensures begin { WalksBegin D.Counts }
    ensures few { FewItems D.Counts }
    ensures runs { ReadsRunOn D.Counts }
{}

/// The pages of the files of a core's tree are those that are held for them.
pub fn files_are_charged<D: MovingPages>()
    ensures { FilesAreCharged D.Counts }
{}
