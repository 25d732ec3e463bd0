// The device reads and writes pages by virtual address.
ghost use Rattle.nl_device.specs.Laws.{failed_below, stamp_in_map};

use crate::device::Device;
use crate::stamps::{stamp_after, takes_stamp};
use nl_field::{PageBuf, VirtualRead, VirtualWrite};
use nl_iface::VirtualPages;
use nl_nand::Nand;

impl<M: Nand> VirtualPages for Device<M> {
    ghost numbers = { λ s f. f.legal };

    ghost stamps_of_map = { λ s v. stamp_in_map s.vseg.places (M.contents s.media) v };

    ghost next = { λ s f. f.stamp.some };

    ghost next_above = { λ s v t f is. f.stamp.addresses v t is };

    ghost beyond = { λ s v f past. f.unwritten v past };

    ghost stores = { λ s t f. record {
      shows = (f.medium t).shown;
      beyond = (f.medium t).beyond;
      failed_below = λ v x stray. failed_below (f.medium t) v x stray;
    } };

    ghost now_left = { λ s. M.now_left s.media };

    ghost no_later = { λ s m c l. M.no_later s.media m c l };

    fn virtual_read(&mut self, vaddr: u32, buf: &mut PageBuf) -> VirtualRead {
        self.vseg.virtual_read(&mut self.media, vaddr, buf)
    }

    fn virtual_write(&mut self, vaddr: u32, from: &PageBuf) -> VirtualWrite {
        let faults = self.media.write_faults();
        let answer = self
            .vseg
            .virtual_write(&mut self.media, vaddr, from, self.next);
        let taken = takes_stamp(&answer, faults, self.media.write_faults());
        self.next = stamp_after(self.next, taken);
        answer
    }
}
