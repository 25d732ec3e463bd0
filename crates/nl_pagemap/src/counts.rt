// What is seen of the device, and its counts.
ghost use Rattle.std.specs.Prelude.{◌≡◌, ◌+◌, ⊤, []};
ghost use Rattle.nl_field.specs.CrashStates.{saturated};
ghost use Rattle.nl_iface.specs.Stored.{Stored};
ghost use Rattle.nl_pagemap.specs.Mapped.{bytes_at, names_of, seen, stored_in};
ghost use Rattle.nl_pagemap.specs.Stands.{IsMapped};
ghost use Rattle.nl_vseg.specs.Places.{map_of, stamp_for};
ghost use Rattle.nl_vseg.specs.Segment.{SegmentHasUnmapped};

use crate::pagemap::Pagemap;
use nl_iface::Counts;
use nl_nand::Nand;

/// What is stored is what the table leads to, and what a stop leaves is what there is now. An erase that is refused counts as a write that
/// failed.
impl<M: Nand> Counts for Pagemap<M> {
    ghost tells = { M.tells };

    ghost clock = { λ d. M.clock d.media };

    ghost read_faults = { λ d. M.read_faults d.media };

    ghost write_faults = { λ d. saturated (M.write_faults d.media + d.refused) };

    ghost Crash = { Stored };

    ghost stored_of = { λ c. c };

    ghost contents = { λ d. stored_in (seen M.contents d) };

    ghost left = { λ d m c. (m ≡ M.clock d.media) × (c ≡ stored_in (seen M.contents d)) };

    ghost formed = { λ d. IsMapped M.tells (M.geometry d.media) (seen M.contents d) };

    ghost shape = { λ d. d.shape };

    ghost stamps = { λ d v. stamp_for d.vseg.places v };

    ghost map = { λ d v. map_of d.vseg.places (M.contents d.media) v };

    ghost failed = { λ d v x. ⊥ };

    ghost keeps_spare = { λ d. SegmentHasUnmapped d.vseg };

    ghost next_stamp = { λ d. d.next };

    ghost names = { λ d. names_of (seen M.contents d) };

    ghost bytes = { λ d n. bytes_at (seen M.contents d) n };

    ghost found = { λ d. [] };

    ghost clean = { λ d. ⊤ };

    fn clock(&self) -> u64 {
        self.media.clock()
    }

    fn read_faults(&self) -> u64 {
        self.media.read_faults()
    }

    fn write_faults(&self) -> u64 {
        self.failures()
    }
}
