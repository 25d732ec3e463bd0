//! The super record of a volume, beside the medium that it was read from.
#![tactic(auto)]

ghost use Rattle.std.specs.Prelude.{◌≡◌};
ghost use Rattle.nl_super.specs.Layout.{is_layout_of};

use nl_field::{SuperRec, shape_of};
use nl_nand::Geometry;

/// Whether the record's blocks and pages are the medium's, and legal: 32 to 4096 blocks of 32 to 256 pages, together at
/// most 262,144 pages. A medium that was never formed has no such record. Version and count are not looked at.
pub fn check_super(rec: &SuperRec, geometry: Geometry) -> bool
    ensures { result ≡ is_layout_of geometry rec.now }
{
    rec.blocks == geometry.blocks
        && rec.pages == geometry.pages
        && shape_of(rec.blocks, rec.pages).is_some()
}

/// The number of calls behind the volume's state.
pub fn count(rec: &SuperRec) -> u64
    ensures { result ≡ rec.now.count }
{
    rec.count
}
