//! Laws of metadata pages: when they are consistent, and what a change of a slot or of pages in memory means. A function stands for each.
ghost use Rattle.nl_meta.specs.FindingsLaw.{NoFindings, PlacesAreTaken};
ghost use Rattle.nl_meta.specs.PageLaws.{CallsChangePages};
ghost use Rattle.nl_meta.specs.PointerLists.{OnePointerChanges};
ghost use Rattle.nl_meta.specs.RightLaws.{ImageIsRight};
ghost use Rattle.nl_meta.specs.Running.{AdmitsPage, MissesPage, RunningMap};
ghost use Rattle.nl_meta.specs.SlotLaws.{ByIndexAndName, OneSlot};
ghost use Rattle.nl_meta.specs.WalkLaw.{ListsAgree, WalkIsConsistency, WalkIsConsistencyOver};

/// The walk finds no fault exactly where the volume is consistent, also over pages and a list that are no image's.
pub fn walk_is_consistency()
    ensures image { WalkIsConsistency }
    ensures any { WalkIsConsistencyOver }
{}

/// That each page of an image's list agrees says that pages of one write sequence number are the same.
pub fn lists_agree()
    ensures { ListsAgree }
{}

/// Metadata of an image that is right is right with the pages by stamp that the image has.
pub fn image_is_right()
    ensures { ImageIsRight }
{}

/// A check finds nothing exactly where the image is consistent.
pub fn no_findings()
    ensures { NoFindings }
{}

/// The place of a pointer is the one that a device takes.
pub fn places_are_taken()
    ensures { PlacesAreTaken }
{}

/// One slot of a page that changes is one node, one entry or one pointer that changes.
pub fn one_slot()
    ensures { OneSlot }
{}

/// Pointers by index and entries by name are those that stand in lists.
pub fn by_index_and_name()
    ensures { ByIndexAndName }
{}

/// Where one pointer of one file changes, one place of the list of all pointers changes.
pub fn one_pointer_changes()
    ensures { OnePointerChanges }
{}

/// What each call of `Meta` means for what the addresses have over any device.
pub fn running_map()
    ensures calls { RunningMap }
    ensures admits { AdmitsPage }
    ensures misses { MissesPage }
{}

/// Where pages are loaded, changed or touched, no frozen page changes, and each resident page stays so; and so it is of one call after the
/// other.
pub fn calls_change_pages()
    ensures { CallsChangePages }
{}
