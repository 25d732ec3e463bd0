ghost use Rattle.std.specs.Prelude.{refl, Some};
ghost use Rattle.nl_testkit_still.specs.Still.{last_block};

use crate::still::Still;
use nl_field::Pointer;
use nl_iface::{Callback, Copying, Erasing, MovingPages};

/// The last block is in hand for good, since its erase fails: so nothing is moved, and no block is gained.
impl MovingPages for Still {
    ghost victim = { λ s. Some (last_block s.shape) };

    ghost most_dead = { λ s block. ⊥ };

    ghost coldest = { λ s block. ⊥ };

    ghost blank = { λ s p. ⊥ };

    ghost in_hand = { λ s. refl };

    ghost unpaired = { λ s f none c has. has };

    ghost none_bad = { λ s. refl };

    fn level(&mut self) -> bool {
        false
    }

    fn copy(&mut self) -> Copying {
        Copying::Nothing
    }

    fn erase(&mut self) -> Erasing {
        self.failed = self.failed.saturating_add(1);
        Erasing::Fault
    }

    fn callback(&self, number: u64) -> Option<Callback> {
        let _ = number;
        None
    }

    fn posted(&self) -> u64 {
        0
    }

    fn least(&self) -> Option<u64> {
        None
    }

    fn handled(&mut self, number: u64, transaction: u64) -> bool {
        let _ = (number, transaction);
        false
    }

    fn acknowledge(&mut self, upto: u64) {
        let _ = upto;
    }

    fn pairs(&self) -> u32 {
        0
    }

    fn next_stamp(&self) -> u64 {
        self.next
    }

    fn is_live(&self, at: Pointer) -> bool {
        match self.live_page(at.name) {
            Some(label) => label.stamp == at.stamp,
            None => false,
        }
    }

    fn free_blocks(&self) -> u32 {
        self.free
    }

    fn stands(&self) {}
}
