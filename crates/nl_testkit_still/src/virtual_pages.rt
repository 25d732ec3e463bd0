// The memory as a device whose caller gives the addresses of pages.
ghost use Rattle.std.specs.Prelude.{refl};
ghost use Rattle.nl_testkit_still.specs.Laws.{at_most_now, none_from, none_lost, shows_map, stamp_of_value};

use crate::still::{Still, later};
use nl_field::{PageBuf, VirtualRead, VirtualWrite};
use nl_iface::VirtualPages;

impl VirtualPages for Still {
    ghost numbers = { λ s f. f.volume };

    ghost stamps_of_map = { λ s v. stamp_of_value s.stamps.items s.values.items v };

    ghost next = { λ s f. f.some };

    ghost next_above = { λ s v t f is. f.addresses v t is };

    ghost beyond = { λ s v f past. none_from s f v past };

    ghost stores = { λ s t f. record { shows = shows_map s; beyond = none_lost s f; failed_below = λ v x no. absurd no } };

    ghost now_left = { λ s. (refl, refl) };

    ghost no_later = { λ s m c l. at_most_now s m l.0 };

    fn virtual_read(&mut self, vaddr: u32, buf: &mut PageBuf) -> VirtualRead {
        match self.stamp_of(vaddr) {
            Some(_) => {
                self.read_value(vaddr, buf);
                VirtualRead::Done
            }
            None => VirtualRead::Unmapped,
        }
    }

    fn virtual_write(&mut self, vaddr: u32, from: &PageBuf) -> VirtualWrite {
        let at = vaddr as usize;
        self.stamps[at] = Some(self.next);
        self.values[at].copy_from(from);
        self.next += 1;
        self.clock = later(self.clock);
        VirtualWrite::Done
    }
}
