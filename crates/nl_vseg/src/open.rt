// Serves an opening: takes over what a scan found of addresses and of blocks.
ghost use Rattle.std.specs.Prelude.{◌≡◌, ◌⊎◌, ℕ, ◌+◌, ◌*◌, ◌/◌, ◌^◌, ◌<◌, ◌≤◌, true, length, slice_set, None, Some, IsTrue};
ghost use Rattle.nl_field.specs.Spelling.{is_stamp};
ghost use Rattle.nl_vseg.specs.Places.{place_of};
ghost use Rattle.nl_vseg.specs.Layout.{bound};
ghost use Rattle.nl_vseg.specs.Segment.{SameSize, is_taken_as_erased, wear_of};
ghost use Rattle.nl_vseg.specs.Seen.{seen, segment_of, IsVirtualFormed};

use crate::place::Place;
use crate::room::set_wear;
use crate::state::State;

impl State {
    /// Serves an opening: the page holds the address, which had no page, under this write sequence number. No page of its block is
    /// taken as erased any more.
    pub fn load(&mut self, page: u32, vaddr: u32, stamp: u64)
        requires formed { IsVirtualFormed self.old }
        requires page { page < bound (seen self.old) }
        requires vaddr { vaddr < length self.old.places.items }
        requires unmapped { place_of self.old.places.items vaddr ≡ None }
        requires stamp { IsTrue (is_stamp stamp) }
        ensures formed { IsVirtualFormed self.new }
        ensures places { self.new.places.items ≡ slice_set self.old.places.items vaddr (Some (record { page = page; stamp = stamp })) }
        ensures numbers { SameSize (segment_of self.old) (segment_of self.new) }
        ensures erased { (p : ℕ) → is_taken_as_erased (segment_of self.new) p ≡ true
            → (is_taken_as_erased (segment_of self.old) p ≡ true) × (p / self.old.blocks.size ≡ page / self.old.blocks.size → ⊥) }
        ensures still { (p : ℕ) → is_taken_as_erased (segment_of self.old) p ≡ true
            → (p / self.old.blocks.size ≡ page / self.old.blocks.size → ⊥) → is_taken_as_erased (segment_of self.new) p ≡ true }
        ensures wear { (block : ℕ) → wear_of (segment_of self.new) block ≡ wear_of (segment_of self.old) block }
    {
        let block = page / self.blocks.pages();
        self.blocks.seal(block);
        self.places[vaddr as usize] = Some(Place { page, stamp });
    }

    /// Serves an opening: the block was erased so often, and no page of it is taken as erased any more.
    pub fn soil(&mut self, block: u32, wear: u32)
        requires formed { IsVirtualFormed self.old }
        requires within { block * self.old.blocks.size + self.old.blocks.size ≤ bound (seen self.old) }
        ensures formed { IsVirtualFormed self.new }
        ensures places { self.new.places.items ≡ self.old.places.items }
        ensures numbers { SameSize (segment_of self.old) (segment_of self.new) }
        ensures wear { wear_of (segment_of self.new) block ≡ wear }
        ensures others { (other : ℕ) → (other ≡ block → ⊥) → wear_of (segment_of self.new) other ≡ wear_of (segment_of self.old) other }
        ensures erased { (p : ℕ) → is_taken_as_erased (segment_of self.new) p ≡ true
            → (is_taken_as_erased (segment_of self.old) p ≡ true) × (p / self.old.blocks.size ≡ block → ⊥) }
        ensures still { (p : ℕ) → is_taken_as_erased (segment_of self.old) p ≡ true → (p / self.old.blocks.size ≡ block → ⊥)
            → is_taken_as_erased (segment_of self.new) p ≡ true }
    {
        set_wear(&mut self.blocks, block, wear);
        self.soiled[block as usize] = true;
    }
}
