// The device reads, writes and frees pages under names that it picks.
ghost use Rattle.nl_device.specs.Laws.{leaves_as, names_as, state_is};

use crate::callbacks::cancel_gone;
use crate::device::Device;
use crate::stamps::{is_placed, is_tried, stamp_after};
use nl_field::{Named, NamedRead, PageBuf, Pointer, Tag};
use nl_iface::NamedPages;
use nl_nand::Nand;

impl<M: Nand> NamedPages for Device<M> {
    ghost state = { λ s f. state_is (Self.bytes s) (Self.map s) f };

    ghost tables = { λ s f. names_as s.pseg s.pending f.called.numbers f.names };

    ghost stores_pages = { λ s t f. record {
      holds = (f.medium t).holds;
      pages = leaves_as s.pseg s.pending (f.medium t).pages;
      named_below = (f.medium t).named_below;
    } };

    fn nameless_write(&mut self, tag: Tag, from: &PageBuf) -> Named {
        let answer = self
            .pseg
            .nameless_write(&mut self.media, tag, from, self.next);
        let tried = is_tried(&answer);
        self.kept.forget_after(tried);
        self.next = stamp_after(self.next, tried);
        answer
    }

    fn nameless_overwrite(&mut self, old: Pointer, tag: Tag, from: &PageBuf) -> Named {
        let answer = self
            .pseg
            .nameless_overwrite(&mut self.media, old, tag, from, self.next);
        let taken = is_tried(&answer);
        let gone = is_placed(&answer);
        cancel_gone(&mut self.pending, old.stamp, gone);
        self.kept.forget_after(taken);
        self.next = stamp_after(self.next, taken);
        answer
    }

    fn physical_read(&mut self, at: Pointer, tag: Tag, buf: &mut PageBuf) -> NamedRead {
        self.pseg.physical_read(&mut self.media, at, tag, buf)
    }

    fn free(&mut self, at: Pointer) -> bool {
        let freed = self.pseg.free(at);
        cancel_gone(&mut self.pending, at.stamp, freed);
        freed
    }

    fn resolve(&self, name: u32) -> u32 {
        self.pseg.resolve(name)
    }
}
