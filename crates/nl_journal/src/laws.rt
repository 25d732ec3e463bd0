//! Laws of the journal between two calls: what is stored, and that it stays in order. A function stands for each law.
ghost use Rattle.nl_journal.specs.Laws.{DirtyPagesAreTransaction, FreezesInOrder, FreezingStays, OpenedInOrder, StaysInOrder, StoredPages};

use nl_iface::VirtualPages;

/// What is stored between two calls has the committed pages, or those that a commit page puts in place whose write failed.
pub fn stored_pages<D: VirtualPages>()
    ensures { StoredPages D.Counts }
{}

/// A call that leaves the addresses as they were leaves the journal in order, and the committed pages.
pub fn stays_in_order<D: VirtualPages>()
    ensures { StaysInOrder D.Counts }
{}

/// A journal that was read back is in order.
pub fn opened_in_order<D: VirtualPages>()
    ensures { OpenedInOrder D.Counts }
{}

/// Where nothing is frozen, the journal stays in order as pages are.
pub fn freezes_in_order<D: VirtualPages>()
    ensures { FreezesInOrder D.Counts }
{}

/// The running pages stay what they are as the dirty ones are frozen.
pub fn freezing_stays()
    ensures { FreezingStays }
{}

/// Dirty pages are a transaction where address 0 is one of them, and none of the journal's addresses.
pub fn dirty_pages_are_a_transaction()
    ensures { DirtyPagesAreTransaction }
{}
