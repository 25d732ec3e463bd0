//! The tables that a scan leaves.
ghost use Rattle.std.specs.Prelude.{◌≡◌, ◌<◌, ◌+◌, length, slice_get, slice_index_or, Some, false};
ghost use Rattle.nl_scan.specs.Tables.{IsSeenTable, greatest_stamp};

use nl_field::Seen;
use std::marker::Model;

/// What a scan tells: the readable pages in rising order, of each block whether it is erased, and the version on the super
/// page.
#[derive(Debug, Drop)]
pub struct ScanTables {
    seen: Vec<Seen>,
    erased: Vec<bool>,
    version: u32,
    greatest: u64,
}

impl Model for ScanTables {
    ghost use Rattle.nl_scan.specs.Tables.{ScanTable, IsSeenTable};

    ghost Value = { ScanTable };

    ghost view = { λ t. record { seen = t.seen.items; erased = t.erased.items; version = t.version } };

    ghost invariant = { λ t. IsSeenTable t.seen.items t.greatest };
}

impl ScanTables {
    /// What a pass over all pages gathered. The last is the greatest write sequence number of the pages, or 0.
    pub(crate) fn of_pass(
        seen: Vec<Seen>,
        erased: Vec<bool>,
        version: u32,
        greatest: u64,
    ) -> ScanTables
        requires { IsSeenTable seen.items greatest }
        ensures { result ≡ record { seen = seen.items; erased = erased.items; version = version } }
    {
        ScanTables {
            seen,
            erased,
            version,
            greatest,
        }
    }

    /// The number of readable pages.
    pub fn len(&self) -> u32
        ensures { result ≡ length self.now.seen }
    {
        self.seen.len() as u32
    }

    /// The readable page at a place below the length.
    pub fn get(&self, at: u32) -> &Seen
        requires { at < length self.now.seen }
        ensures { slice_get self.now.seen at ≡ Some result.now }
    {
        &self.seen[at as usize]
    }

    /// One more than the greatest write sequence number on a readable page, or 1.
    pub fn next_stamp(&self) -> u64
        ensures { result ≡ 1 + greatest_stamp self.now.seen }
    {
        self.greatest + 1
    }

    /// Whether this is a block of the medium, and each of its pages read as erased.
    pub fn erased(&self, block: u32) -> bool
        ensures { result ≡ slice_index_or self.now.erased block false }
    {
        match self.erased.get(block as usize) {
            Some(erased) => *erased,
            None => false,
        }
    }

    /// The version of the super record that the super page spells, 0 where there is none. The super page is the least of the
    /// greatest write sequence number among the readable pages with a virtual record of address 0.
    pub fn super_version(&self) -> u32
        ensures { result ≡ self.now.version }
    {
        self.version
    }
}
