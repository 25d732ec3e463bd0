// The memory as a device: its clock, its failures and its contents.
ghost use Rattle.std.specs.Prelude.{◌≡◌, ⊤, []};
ghost use Rattle.nl_iface.specs.Stored.{Stored};
ghost use Rattle.nl_testkit_still.specs.Stands.{IsStill};
ghost use Rattle.nl_testkit_still.specs.Still.{bytes_at, map_at, names_of, stamp_at, stored_in};

use crate::still::Still;
use nl_iface::Counts;

impl Counts for Still {
    ghost tells = { Unit {0} };

    ghost clock = { λ s. s.clock };

    ghost read_faults = { λ s. 0 };

    ghost write_faults = { λ s. s.failed };

    ghost Crash = { Stored };

    ghost stored_of = { λ c. c };

    ghost contents = { λ s. stored_in s };

    ghost left = { λ s m c. (m ≡ s.clock) × (c ≡ stored_in s) };

    ghost formed = { λ s. IsStill s };

    ghost shape = { λ s. s.shape };

    ghost stamps = { λ s v. stamp_at s.stamps.items v };

    ghost map = { λ s v. map_at s.stamps.items s.values.items v };

    ghost failed = { λ s v x. ⊥ };

    ghost keeps_spare = { λ s. ⊤ };

    ghost next_stamp = { λ s. s.next };

    ghost names = { λ s. names_of s };

    ghost bytes = { λ s p. bytes_at s.pages.items p };

    ghost found = { λ s. [] };

    ghost clean = { λ s. ⊤ };

    fn clock(&self) -> u64 {
        self.clock
    }

    fn read_faults(&self) -> u64 {
        0
    }

    fn write_faults(&self) -> u64 {
        self.failed
    }
}
