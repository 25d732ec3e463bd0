//! Laws of directories: when a record is one, what it lists after a change, and which pages change. A function stands for each law.
ghost use Rattle.nl_dir.specs.AfterLaws.{AddressesOfChanged, ListsInserted, ListsRemoved};
ghost use Rattle.nl_dir.specs.DirectoryLaws.{ChangeTakesRoom, ChangedPagesRun, EmptyIsDirectory, EntriesInOrder, OnlyOwnPages, ResidentIsRunning, RightIsDirectory};
ghost use Rattle.nl_dir.specs.ListLaws.{EntriesByLists};
ghost use Rattle.nl_dir.specs.PageLaws.{ChangedPagesAreKept, InsertingChangesPages, RemovingChangesPages};

/// A directory of metadata that is right is one for the calls of this crate.
pub fn right_is_directory()
    ensures { RightIsDirectory }
{}

/// A record of a directory without entries is one for the calls of this crate.
pub fn empty_is_directory()
    ensures { EmptyIsDirectory }
{}

/// Only its own pages say what a directory has.
pub fn only_own_pages()
    ensures { OnlyOwnPages }
{}

/// A directory whose pages are resident is one in memory and over any device alike.
pub fn resident_is_running()
    ensures { ResidentIsRunning }
{}

/// The list of entries has those of the places, in order.
pub fn entries_in_order()
    ensures { EntriesInOrder }
{}

/// The entries of a volume are right exactly where the lists of its directories are.
pub fn entries_by_lists()
    ensures { EntriesByLists }
{}

/// What the pages that change mean for the map over any device, and for the room of further ones.
pub fn changed_pages()
    ensures run { ChangedPagesRun }
    ensures room { ChangeTakesRoom }
{}

/// What a directory lists after a change, and which addresses its record has.
pub fn after_changes()
    ensures inserted { ListsInserted }
    ensures removed { ListsRemoved }
    ensures addresses { AddressesOfChanged }
{}

/// The calls lose no page of those in memory, and thaw none.
pub fn calls_change_pages()
    ensures any { ChangedPagesAreKept }
    ensures inserting { InsertingChangesPages }
    ensures removing { RemovingChangesPages }
{}
