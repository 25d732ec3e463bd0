// Where names lead, and what is done when one goes.
ghost use Rattle.std.specs.Prelude.{◌≡◌, ◌↔◌, ◌+◌, ℕ, length, remove, true, false, IsTrue, IfSome, IfNone};
ghost use Rattle.std.specs.Bool.{OnTrue, OnFalse};
ghost use Rattle.nl_blocks.specs.Table.{HasBlock, block_at, is_retired_state};
ghost use Rattle.nl_remap.specs.Links.{HasLink};
ghost use Rattle.nl_remap.specs.Table.{IsOld, beside, led, pair, place_of};
ghost use Rattle.nl_pseg.specs.Kept.{kept};
ghost use Rattle.nl_pseg.specs.Seen.{IsPhysicalFormed, IsTied, seen};
ghost use Rattle.nl_pseg.specs.Steps.{NamesGoneFromSegment};

use crate::state::State;
use nl_blocks::BlockState;
use nl_pseg_blocks::end_name;

impl State {
    /// The page to which the name leads.
    pub fn resolve(&self, name: u32) -> u32
        ensures { result ≡ led self.now.names.pairs name }
    {
        self.names.resolve(name)
    }

    /// The least old name of the page.
    pub fn name_of(&self, target: u32) -> Option<u32>
        ensures some { IfSome result (λ name. HasLink self.now.names.pairs (pair name target)) }
        ensures none { IfNone result ((name : ℕ) → HasLink self.now.names.pairs (pair name target) → ⊥) }
        ensures beside { IfNone result (beside self.now.names.pairs target ≡ self.now.names.pairs) }
    {
        self.names.name_of(target)
    }

    /// The number of pairs.
    pub fn pairs(&self) -> u32
        ensures { result ≡ length self.now.names.pairs }
    {
        self.names.len()
    }

    /// The block is one of the segment that waits for its names.
    fn is_waiting(&self, block: u32) -> bool
        ensures yes { result ≡ true → HasBlock self.now.blocks block × (is_retired_state (block_at self.now.blocks block).state ≡ true) }
        ensures no { result ≡ false → HasBlock self.now.blocks block → is_retired_state (block_at self.now.blocks block).state ≡ false }
    {
        if block < self.blocks.first() || block - self.blocks.first() >= self.blocks.count() {
            return false;
        }
        matches!(self.blocks.state(block), BlockState::Retired(_))
    }

    /// The name is an old name no longer. A block that waited for it alone is Free.
    pub fn drop_name(&mut self, name: u32) -> bool
        requires formed { IsPhysicalFormed (kept self.old) }
        requires tied { IsTied (kept self.old) }
        ensures formed { IsPhysicalFormed (kept self.new) }
        ensures tied { IsTied (kept self.new) }
        ensures found { IsTrue result ↔ IsOld self.old.names.pairs name }
        ensures pairs { OnTrue result (self.new.names.pairs ≡ remove self.old.names.pairs (place_of self.old.names.pairs name)) }
        ensures room { OnTrue result (self.new.names.room ≡ self.old.names.room + 1) }
        ensures beside { OnTrue result
            (let target = led self.old.names.pairs name in beside self.new.names.pairs target ≡ beside self.old.names.pairs target) }
        ensures held { self.new.held ≡ self.old.held }
        ensures gone { NamesGoneFromSegment (seen (kept self.old)) (seen (kept self.new)) }
        ensures kept { OnFalse result (seen (kept self.new) ≡ seen (kept self.old)) }
    {
        if !self.names.drop_name(name) {
            return false;
        }
        let block = name / self.blocks.pages();
        if self.is_waiting(block) {
            end_name(&mut self.blocks, block);
        }
        true
    }

    /// No name leads to the page any more.
    pub fn drop_names(&mut self, target: u32)
        requires formed { IsPhysicalFormed (kept self.old) }
        requires tied { IsTied (kept self.old) }
        ensures formed { IsPhysicalFormed (kept self.new) }
        ensures tied { IsTied (kept self.new) }
        ensures pairs { self.new.names.pairs ≡ beside self.old.names.pairs target }
        ensures none { (name : ℕ) → HasLink self.new.names.pairs (pair name target) → ⊥ }
        ensures held { self.new.held ≡ self.old.held }
        ensures gone { NamesGoneFromSegment (seen (kept self.old)) (seen (kept self.new)) }
    {
        while let Some(name) = self.name_of(target) {
            self.drop_name(name);
        }
    }
}
