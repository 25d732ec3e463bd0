// Serves an opening: gives blocks back that are in use while no page is live.
ghost use Rattle.std.specs.Prelude.{◌≡◌, ◌/◌, ℕ, length, None, Some};
ghost use Rattle.nl_blocks.specs.Table.{HasBlock};
ghost use Rattle.nl_pseg.specs.Kept.{kept};
ghost use Rattle.nl_pseg.specs.Segment.{held_at};
ghost use Rattle.nl_pseg.specs.Seen.{seen, IsPhysicalFormed, IsTied};
ghost use Rattle.nl_pseg.specs.Steps.{AreGivenBack, IsGivenBack};

use crate::state::State;
use nl_pseg_blocks::{give_back, is_free};

impl State {
    /// The block is Free. Where it was in use, it is erased before use.
    fn give_back(&mut self, block: u32)
        requires formed { IsPhysicalFormed (kept self.old) }
        requires tied { IsTied (kept self.old) }
        requires within { HasBlock self.old.blocks block }
        requires none { (page : ℕ) → held_at (seen (kept self.old)) page ≡ None }
        requires no_victim { self.old.victim ≡ None }
        ensures formed { IsPhysicalFormed (kept self.new) }
        ensures tied { IsTied (kept self.new) }
        ensures given { IsGivenBack block (seen (kept self.old)) (seen (kept self.new)) }
    {
        if is_free(&self.blocks, block) {
            return;
        }
        let wear = self.blocks.wear(block);
        give_back(&mut self.blocks, block);
        self.soiled[block as usize] = Some(wear);
    }

    /// Every block is Free. One that was in use is erased before use.
    pub fn give_back_all(&mut self)
        requires formed { IsPhysicalFormed (kept self.old) }
        requires tied { IsTied (kept self.old) }
        requires none { (page : ℕ) → held_at (seen (kept self.old)) page ≡ None }
        requires no_victim { self.old.victim ≡ None }
        ensures formed { IsPhysicalFormed (kept self.new) }
        ensures tied { IsTied (kept self.new) }
        ensures given { AreGivenBack (seen (kept self.old)).blocks (seen (kept self.old)) (seen (kept self.new)) }
    {
        let first = self.blocks.first();
        for block in first..first + self.blocks.count() {
            self.give_back(block);
        }
    }
}
