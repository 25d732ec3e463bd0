// The device moves pages to other places so that a block can be erased, and keeps a callback of each move.
ghost use Rattle.nl_device.specs.Laws.{in_hand, none_bad, unpaired};
ghost use Rattle.nl_field.specs.Page.{erased, page_at};
ghost use Rattle.nl_pseg.specs.Cleaning.{IsChosen};
ghost use Rattle.std.specs.Prelude.{◌≡◌, true, false};

use crate::callbacks::drop_over;
use crate::device::Device;
use nl_field::Pointer;
use nl_iface::{Callback, Copying, Erasing, MovingPages};
use nl_nand::Nand;
use nl_pseg::{Copied, Erasure};

impl<M: Nand> MovingPages for Device<M> {
    ghost victim = { λ d. d.pseg.victim };

    ghost most_dead = { λ d block. IsChosen false d.pseg block };

    ghost coldest = { λ d block. IsChosen true d.pseg block };

    ghost blank = { λ d p. page_at (M.contents d.media) p ≡ erased };

    ghost in_hand = { λ d. in_hand d.pseg };

    ghost unpaired = { λ d f none c has. unpaired f none c has };

    ghost none_bad = { λ d. none_bad d.pseg };

    fn level(&mut self) -> bool {
        self.pseg.begin(true)
    }

    fn copy(&mut self) -> Copying {
        let began = self.pseg.begin(false);
        let answer = self.pseg.copy_one(&mut self.media, &mut self.buf);
        match answer {
            Copied::Moved {
                before,
                after,
                tag,
                stamp,
            } => {
                let _ = self.pending.posted();
                self.pending.post(before, after, tag, stamp);
                self.kept.forget_after(true);
                Copying::Did
            }
            Copied::Nothing => {
                if began {
                    Copying::Did
                } else {
                    Copying::Nothing
                }
            }
            Copied::Lost { wanted, found } => {
                self.kept.forget_after(true);
                Copying::Lost { wanted, found }
            }
            Copied::Fault => {
                self.kept.forget_after(true);
                Copying::Fault
            }
        }
    }

    fn erase(&mut self) -> Erasing {
        let _ = self.media.clock();
        let erased = self.pseg.erase_victim(&mut self.media);
        match erased {
            Erasure::Done => {
                self.kept.forget_after(true);
                Erasing::Done
            }
            Erasure::Nothing => Erasing::Nothing,
            Erasure::Fault => {
                self.kept.forget_after(true);
                Erasing::Fault
            }
        }
    }

    fn callback(&self, number: u64) -> Option<Callback> {
        self.pending.get(number)
    }

    fn posted(&self) -> u64 {
        self.pending.posted()
    }

    fn least(&self) -> Option<u64> {
        let _ = self.pending.room();
        self.pending.least()
    }

    fn handled(&mut self, number: u64, transaction: u64) -> bool {
        self.pending.handled(number, transaction)
    }

    fn acknowledge(&mut self, upto: u64) {
        drop_over(&mut self.pending, &mut self.pseg, upto);
    }

    fn pairs(&self) -> u32 {
        self.pseg.pairs()
    }

    fn next_stamp(&self) -> u64 {
        self.next
    }

    fn is_live(&self, at: Pointer) -> bool {
        self.pseg.is_live(at)
    }

    fn free_blocks(&self) -> u32 {
        self.pseg.free_blocks()
    }

    fn stands(&self) {}
}
