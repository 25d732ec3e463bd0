// Serves an opening: takes over live pages with their old names, and blocks that were written to.
ghost use Rattle.std.specs.Prelude.{◌≡◌, ◌⊎◌, ◌+◌, ◌/◌, ◌<◌, ◌^◌, None, IsSome, IsTrue};
ghost use Rattle.nl_field.specs.Spelling.{is_stamp};
ghost use Rattle.nl_blocks.specs.Table.{HasBlock, block_at, names_of};
ghost use Rattle.nl_remap.specs.Table.{IsOld};
ghost use Rattle.nl_pseg.specs.Kept.{kept};
ghost use Rattle.nl_pseg.specs.Opened.{LoadsPage, Soils};
ghost use Rattle.nl_pseg.specs.Segment.{CanLead, IsDead, held_at};
ghost use Rattle.nl_pseg.specs.Seen.{seen, IsPhysicalFormed, IsTied};
ghost use Rattle.nl_pseg.specs.Steps.{IsAside, LeadsFrom, LoadsHeldPage};

use crate::held::Held;
use crate::state::State;
use nl_field::{Pointer, Tag};
use nl_pseg_blocks::{mark, set_aside, shut, tell};

impl State {
    /// The page holds what the pointer and the owner say.
    pub fn load_as(&mut self, page: u32, at: Pointer, tag: Tag)
        requires formed { IsPhysicalFormed (kept self.old) }
        requires tied { IsTied (kept self.old) }
        requires none { self.old.victim ≡ None }
        requires dead { IsDead (seen (kept self.old)) page }
        requires stamp { IsTrue (is_stamp at.stamp) }
        requires away { (at.name ≡ page → ⊥) → CanLead (seen (kept self.old)) at.name }
        ensures formed { IsPhysicalFormed (kept self.new) }
        ensures tied { IsTied (kept self.new) }
        ensures loads { LoadsHeldPage page at tag (seen (kept self.old)) (seen (kept self.new)) }
    {
        self.load(page, at.stamp, tag);
        if at.name == page {
            return;
        }
        self.lead_from(at.name, page);
    }

    /// The page holds the number and the owner.
    fn load(&mut self, page: u32, stamp: u64, tag: Tag)
        requires formed { IsPhysicalFormed (kept self.old) }
        requires tied { IsTied (kept self.old) }
        requires none { self.old.victim ≡ None }
        requires dead { IsDead (seen (kept self.old)) page }
        requires stamp { IsTrue (is_stamp stamp) }
        ensures formed { IsPhysicalFormed (kept self.new) }
        ensures tied { IsTied (kept self.new) }
        ensures names { self.new.names ≡ self.old.names }
        ensures loads { LoadsPage page (record { tag = tag; stamp = stamp }) (seen (kept self.old)) (seen (kept self.new)) }
    {
        let block = page / self.blocks.pages();
        shut(&mut self.blocks, block);
        mark(&mut self.blocks, page, true);
        self.held[page as usize] = Some(Held { tag, stamp });
    }

    /// Nothing more is programmed in the block of an old name, which waits for it where it is Free.
    fn set_aside(&mut self, block: u32)
        requires formed { IsPhysicalFormed (kept self.old) }
        requires tied { IsTied (kept self.old) }
        requires few { HasBlock self.old.blocks block → names_of (block_at self.old.blocks block).state + 1 < 2 ^ 32 }
        ensures formed { IsPhysicalFormed (kept self.new) }
        ensures aside { ((HasBlock self.old.blocks block → ⊥) × (kept self.new ≡ kept self.old))
            ⊎ (HasBlock self.old.blocks block × IsAside block (kept self.old) (kept self.new)) }
    {
        if block < self.blocks.first() || block - self.blocks.first() >= self.blocks.count() {
            return;
        }
        set_aside(&mut self.blocks, block);
    }

    /// The name leads to this page.
    fn lead_from(&mut self, name: u32, page: u32)
        requires formed { IsPhysicalFormed (kept self.old) }
        requires tied { IsTied (kept self.old) }
        requires none { self.old.victim ≡ None }
        requires room { 0 < self.old.names.room }
        requires fresh { IsOld self.old.names.pairs name → ⊥ }
        requires dead { held_at (seen (kept self.old)) name ≡ None }
        requires there { IsSome (held_at (seen (kept self.old)) page) }
        ensures formed { IsPhysicalFormed (kept self.new) }
        ensures tied { IsTied (kept self.new) }
        ensures led { LeadsFrom name page (seen (kept self.old)) (seen (kept self.new)) }
    {
        let _ = self.names.len();
        let block = name / self.blocks.pages();
        self.set_aside(block);
        self.names.add(name, page);
    }

    /// The block does not read as erased, and was erased so often.
    pub fn soil(&mut self, block: u32, wear: u32)
        requires formed { IsPhysicalFormed (kept self.old) }
        requires tied { IsTied (kept self.old) }
        requires none { self.old.victim ≡ None }
        requires within { HasBlock self.old.blocks block }
        ensures formed { IsPhysicalFormed (kept self.new) }
        ensures tied { IsTied (kept self.new) }
        ensures names { self.new.names ≡ self.old.names }
        ensures soils { Soils block wear (seen (kept self.old)) (seen (kept self.new)) }
    {
        tell(&mut self.blocks, block, wear);
        self.soiled[block as usize] = Some(wear);
    }
}
