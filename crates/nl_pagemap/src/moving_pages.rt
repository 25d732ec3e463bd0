// No name of the device ever leads elsewhere, so it has nothing to move: the block of numbers that stays unused is in hand for good.
ghost use Rattle.std.specs.Prelude.{refl, Some};
ghost use Rattle.nl_pagemap.specs.Mapped.{last_block};

use crate::pagemap::Pagemap;
use nl_field::Pointer;
use nl_iface::{Callback, Copying, Erasing, MovingPages};
use nl_nand::Nand;

/// The last block of numbers is in hand for good, and none of its numbers is in use: nothing is copied, and its erase is refused. No
/// callback is ever posted.
impl<M: Nand> MovingPages for Pagemap<M> {
    ghost victim = { λ d. Some (last_block d.shape) };

    ghost most_dead = { λ d block. ⊥ };

    ghost coldest = { λ d block. ⊥ };

    ghost blank = { λ d p. ⊥ };

    ghost in_hand = { λ d. refl };

    ghost unpaired = { λ d f none c has. has };

    ghost none_bad = { λ d. refl };

    fn level(&mut self) -> bool {
        false
    }

    fn copy(&mut self) -> Copying {
        Copying::Nothing
    }

    fn erase(&mut self) -> Erasing {
        self.refused = self.refused.saturating_add(1);
        Erasing::Fault
    }

    fn callback(&self, number: u64) -> Option<Callback> {
        let _ = number;
        None
    }

    fn posted(&self) -> u64 {
        0
    }

    fn least(&self) -> Option<u64> {
        None
    }

    fn handled(&mut self, number: u64, transaction: u64) -> bool {
        let _ = (number, transaction);
        false
    }

    fn acknowledge(&mut self, upto: u64) {
        let _ = upto;
    }

    fn pairs(&self) -> u32 {
        0
    }

    fn next_stamp(&self) -> u64 {
        self.next
    }

    fn is_live(&self, at: Pointer) -> bool {
        self.leads(at)
    }

    fn free_blocks(&self) -> u32 {
        self.free
    }

    fn stands(&self) {}
}
