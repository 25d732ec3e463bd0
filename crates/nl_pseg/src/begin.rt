// Takes a block to be cleaned.
ghost use Rattle.std.specs.Prelude.{◌≡◌, ◌↔◌, ℕ, ◌*◌, ◌<◌, ◌≤◌, length, Some, None, IsTrue, IfSome, IfNone};
ghost use Rattle.std.specs.Bool.{OnTrue, OnFalse};
ghost use Rattle.nl_blocks.specs.Table.{HasBlock, IsBlockTable, block_at, free_count};
ghost use Rattle.nl_pseg.specs.Kept.{kept};
ghost use Rattle.nl_pseg.specs.Cleaning.{BeginsBlock, CannotBegin, IsChosen, NoneChosen};
ghost use Rattle.nl_pseg.specs.Seen.{IsPhysicalFormed, IsTied, seen};
ghost use Rattle.nl_pseg.specs.Space.{HasFewPairs, IsWhole};

use crate::state::State;
use nl_blocks::BlockState;
use nl_pseg_blocks::choose;
use nl_victim::{coldest, most_dead};

impl State {
    /// Whether a victim can be begun, where there is one.
    fn may_begin(&self) -> bool
        requires tied { IsTied (kept self.now) }
        ensures { IsTrue result
            ↔ ((self.now.victim ≡ None) × (length self.now.names.pairs ≤ 2 * self.now.blocks.size) × (0 < free_count self.now.blocks)) }
    {
        let pairs = self.names.len();
        self.victim.is_none() && pairs <= 2 * self.blocks.pages() && self.blocks.free() > 0
    }

    /// The block that is cleaned next.
    fn pick(&self, cold: bool) -> Option<u32>
        ensures some { IfSome result (IsChosen cold (seen (kept self.now))) }
        ensures here { IfSome result
            (λ block. HasBlock self.now.blocks block × ((block_at self.now.blocks block).state ≡ BlockState.Sealed)) }
        ensures none { IfNone result (NoneChosen cold (seen (kept self.now))) }
    {
        if cold {
            coldest(&self.blocks)
        } else {
            most_dead(&self.blocks)
        }
    }

    /// Makes the coldest block, or that with the most dead pages, the victim.
    pub fn begin(&mut self, cold: bool) -> bool
        requires formed { IsPhysicalFormed (kept self.old) }
        requires tied { IsTied (kept self.old) }
        requires few { HasFewPairs (seen (kept self.old)) }
        ensures formed { IsPhysicalFormed (kept self.new) }
        ensures tied { IsTied (kept self.new) }
        ensures few { HasFewPairs (seen (kept self.new)) }
        ensures table { IsBlockTable self.new.blocks }
        ensures begun { OnTrue result
            ((block : ℕ) × IsChosen cold (seen (kept self.old)) block × BeginsBlock block (seen (kept self.old)) (seen (kept self.new))) }
        ensures none { OnFalse result (seen (kept self.new) ≡ seen (kept self.old)) }
        ensures cannot { IsTrue result ↔ (CannotBegin cold (seen (kept self.old)) → ⊥) }
    {
        let _ = self.blocks.count();
        if !self.may_begin() {
            return false;
        }
        let Some(block) = self.pick(cold) else {
            return false;
        };
        self.choose(block);
        true
    }

    /// The block is the victim.
    fn choose(&mut self, block: u32)
        requires formed { IsPhysicalFormed (kept self.old) }
        requires tied { IsTied (kept self.old) }
        requires none { self.old.victim ≡ None }
        requires few { length self.old.names.pairs ≤ 2 * self.old.blocks.size }
        requires some { 0 < free_count self.old.blocks }
        requires has { HasBlock self.old.blocks block }
        requires sealed { (block_at self.old.blocks block).state ≡ BlockState.Sealed }
        ensures formed { IsPhysicalFormed (kept self.new) }
        ensures tied { IsTied (kept self.new) }
        ensures few { HasFewPairs (seen (kept self.new)) }
        ensures table { IsBlockTable self.new.blocks }
        ensures begins { BeginsBlock block (seen (kept self.old)) (seen (kept self.new)) }
    {
        let _ = self.blocks.count();
        choose(&mut self.blocks, block);
        let _ = self.blocks.count();
        self.victim = Some(block);
        self.looked = 0;
    }
}
