//! Laws of a commit: the metadata stands on, and each live page is held once as pages are freed. A function stands for each law.
ghost use Rattle.nl_journal_commit.specs.Freeing.{FreeingKeeps, FreesAll};
ghost use Rattle.nl_journal_commit.specs.Holding.{HoldersArePreserved};
ghost use Rattle.nl_journal_commit.specs.Standing.{AddressesPreserveGraph, ChangesCanFreeze, FreezingPreservesGraph, ReadsPreserveGraph, SuperPagePreservesGraph, WritingPreservesGraph};

use nl_iface::VirtualPages;

/// Where each live page is held once and the first of the pages that await their free are due, they are live, and once they are freed
/// each live page is held once again, and what is committed leads.
pub fn freeing_keeps()
    ensures keeps { FreeingKeeps }
    ensures all { FreesAll }
{}

/// A commit leaves the metadata as it runs: writes of the journal, the freezing of the dirty pages, which can be frozen where the super
/// page is one of them, another super page, what leaves the addresses as they were, and reads.
pub fn metadata_stands<D: VirtualPages>()
    ensures writing { WritingPreservesGraph D.Counts }
    ensures changes { ChangesCanFreeze D.Counts }
    ensures freezing { FreezingPreservesGraph D.Counts }
    ensures super_page { SuperPagePreservesGraph D.Counts }
    ensures addresses { AddressesPreserveGraph D.Counts }
    ensures reads { ReadsPreserveGraph D.Counts }
{}

/// Where the metadata stands on and no name changes, each live page is held as before, and what is committed leads.
pub fn holders_stand<D: VirtualPages>()
    ensures { HoldersArePreserved D.Counts }
{}
