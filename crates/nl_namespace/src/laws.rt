//! Laws of paths and names: what the calls that look and change answer is what the step of the tree does. A function stands for each law.
ghost use Rattle.nl_namespace.specs.Calls.{ChangesInTree};
ghost use Rattle.nl_namespace.specs.ChangeLaws.{MakesInTree, RemovesInTree, RenamesInTree, RmdirsInTree, UnlinksInTree};
ghost use Rattle.nl_namespace.specs.LeavingLaws.{NamesKeepAround};
ghost use Rattle.nl_namespace.specs.PathLaws.{ListsInTree, LooksInTree};
ghost use Rattle.nl_namespace.specs.RoomLaws.{NoneFreeIsCrowded};

use nl_iface::VirtualPages;

/// A path is answered as the tree answers it for which the nodes stand.
pub fn looks_in_tree()
    ensures { LooksInTree }
{}

/// What is listed stands in the tree under the path of the directory, and nothing else does.
pub fn lists_in_tree()
    ensures { ListsInTree }
{}

/// A node is made in the tree for which the nodes stand, under the same refusals.
pub fn makes_in_tree()
    ensures { MakesInTree }
{}

/// A name that is taken away is gone from the tree, and the refusals are those of the tree.
pub fn removes_in_tree()
    ensures removed { RemovesInTree }
    ensures unlinked { UnlinksInTree }
    ensures rmdir { RmdirsInTree }
{}

/// What is under a path that is renamed is under the other, and the refusals are those of the tree.
pub fn renames_in_tree()
    ensures { RenamesInTree }
{}

/// A call that changes names answers exactly as the step of the tree for which the pages stand, also where there is no room and of what,
/// and leaves the nodes of the tree that the step leaves.
pub fn changes_in_tree()
    ensures { ChangesInTree }
{}

/// Where no number of a node is free, each node is used, and where no address is free, each address of the pool is.
pub fn none_free_is_crowded()
    ensures { NoneFreeIsCrowded }
{}

/// However a call that changes names answers, it loses no page of those in memory, and leaves the pointers of all files.
pub fn names_keep_around<D: VirtualPages>()
    ensures { NamesKeepAround D.Counts }
{}
