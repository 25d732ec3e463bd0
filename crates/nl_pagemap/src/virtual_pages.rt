// The device reads and writes pages by virtual address.
ghost use Rattle.std.specs.Prelude.{◌≡◌, ◌↔◌, ◌⊎◌, ◌+◌, ◌<◌, ◌^◌, IsTrue, cond, refl};
ghost use Rattle.nl_field.specs.CrashStates.{Rose};
ghost use Rattle.nl_pagemap.specs.Laws.{at_most_now, none_from, none_stored, shows_map, stamp_in_map};

use crate::pagemap::Pagemap;
use nl_field::{PageBuf, VirtualRead, VirtualWrite};
use nl_iface::VirtualPages;
use nl_nand::Nand;

impl<M: Nand> VirtualPages for Pagemap<M> {
    ghost numbers = { λ d f. f.volume };

    ghost stamps_of_map = { λ d v. stamp_in_map d.vseg.places (M.contents d.media) v };

    ghost next = { λ d f. f.some };

    ghost next_above = { λ d v t f is. f.addresses v t is };

    ghost beyond = { λ d v f past. none_from f v past };

    ghost stores = { λ d t f. record {
      shows = shows_map f;
      beyond = none_stored f;
      failed_below = λ v x no. absurd no;
    } };

    ghost now_left = { λ d. (refl, refl) };

    ghost no_later = { λ d m c l. at_most_now l.0 };

    fn virtual_read(&mut self, vaddr: u32, buf: &mut PageBuf) -> VirtualRead {
        self.vseg.virtual_read(&mut self.media, vaddr, buf)
    }

    fn virtual_write(&mut self, vaddr: u32, from: &PageBuf) -> VirtualWrite {
        let before = self.failures();
        let answer = self
            .vseg
            .virtual_write(&mut self.media, vaddr, from, self.next);
        let taken = takes_stamp(&answer, before, self.failures());
        self.next = stamp_after(self.next, taken);
        answer
    }
}

/// The next stamp after one that was taken, or not.
fn stamp_after(next: u64, taken: bool) -> u64
    requires { next < 2 ^ 63 }
    ensures { result ≡ next + cond taken 1 0 }
{
    if taken { next + 1 } else { next }
}

/// Whether a count of failures rose, or stands at its end.
fn rose(before: u64, now: u64) -> bool
    ensures { IsTrue result ↔ Rose before now }
{
    before < now || now == u64::MAX
}

/// Whether a write may have programmed its page.
fn takes_stamp(answer: &VirtualWrite, before: u64, now: u64) -> bool
    ensures { IsTrue result ↔ ((answer.now ≡ VirtualWrite.Done) ⊎ Rose before now) }
{
    match *answer {
        VirtualWrite::Done => true,
        VirtualWrite::Lost { .. } | VirtualWrite::Fault => rose(before, now),
    }
}
