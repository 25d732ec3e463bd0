// Serves an opening: makes the pages of listed pointers live, and all other pages under names free.
ghost use Rattle.std.specs.Prelude.{◌≡◌, ◌+◌, ◌^◌, ◌<◌, ℕ, [], length, None};
ghost use Rattle.nl_iface.specs.Moves.{Retains};
ghost use Rattle.nl_device.specs.Retain.{CanRetain, HasAllFree, HasPosted, IsReopened, SameMedium, calls_for, kept_of, moved_among, needed_blocks, retained_at};

use crate::device::Device;
use nl_field::PointerList;
use nl_iface::Counts;
use nl_nand::Nand;

impl<M: Nand> Device<M> {
    /// Serves an opening, while no page is live and no block is in hand: exactly the listed pointers are live afterwards, each at
    /// its place. This is its name, where that page has its stamp and is outside the spare block of the segment, and else the
    /// least page of its stamp outside it. Where that is not its name, the pointer has a pair and a pending callback. These are
    /// posted in the order of the list. A block in which none has its place is Free, and is erased before use where it was in use,
    /// or waits for its names. Needs a spare block for the stamps of the pointers, a place of each among the pages that the
    /// device keeps of its scan, that no two share a stamp or a name, that they own their names, and that the page of a name has
    /// another stamp, or none, for at most three blocks of them. Those pages it keeps until a page is programmed under a name. It
    /// takes no memory, and the medium is not touched.
    pub fn retain(&mut self, kept: &PointerList)
        requires formed { ⟦<Device<M> as Counts>⟧.formed self.old }
        requires idle { (⟦<Device<M> as Counts>⟧.names self.old).space.victim ≡ 0 }
        requires no_live { (p : ℕ) → (⟦<Device<M> as Counts>⟧.names self.old).live p ≡ None }
        requires can { CanRetain (kept_of self.old) kept.now.items }
        ensures formed { ⟦<Device<M> as Counts>⟧.formed self.new }
        ensures retained { Retains kept.now.items (retained_at (kept_of self.old) kept.now.items)
            (⟦<Device<M> as Counts>⟧.found self.old) (⟦<Device<M> as Counts>⟧.names self.new) }
        ensures posted { let posted = (⟦<Device<M> as Counts>⟧.names self.old).posted in posted + length
            (moved_among (kept_of self.old) kept.now.items) < 2 ^ 64
            → HasPosted (calls_for (kept_of self.old) kept.now.items posted) posted (⟦<Device<M> as Counts>⟧.names self.new) }
        ensures space { IsReopened (⟦<Device<M> as Counts>⟧.shape self.old).pblocks
            (needed_blocks (kept_of self.old) kept.now.items) (length (moved_among (kept_of self.old) kept.now.items))
            (⟦<Device<M> as Counts>⟧.names self.new).space }
        ensures none { HasAllFree (⟦<Device<M> as Counts>⟧.shape self.old) (⟦<Device<M> as Counts>⟧.names self.old)
            → kept.now.items ≡ [] → ⟦<Device<M> as Counts>⟧.names self.new ≡ ⟦<Device<M> as Counts>⟧.names self.old }
        ensures clean { HasAllFree (⟦<Device<M> as Counts>⟧.shape self.old) (⟦<Device<M> as Counts>⟧.names self.old)
            → ⟦<Device<M> as Counts>⟧.clean self.old → ⟦<Device<M> as Counts>⟧.clean self.new }
        ensures medium { SameMedium ⟦<Device<M> as Counts>⟧ self.old self.new }
    {
        self.pseg.give_back();
        self.kept.retain(&mut self.pseg, &mut self.pending, kept);
    }
}
