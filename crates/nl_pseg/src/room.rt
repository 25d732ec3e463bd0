// Sees to it that the block that is written to has a page that is not used.
ghost use Rattle.std.specs.Prelude.{◌≡◌, ◌⊎◌, ℕ, ◌+◌, ◌*◌, ◌/◌, ◌<◌, ◌≤◌, ◌↔◌, Some, IsTrue, length};
ghost use Rattle.nl_blocks.specs.Table.{HasBlock, block_at};
ghost use Rattle.nl_nand.specs.Nand.{FaultsCounted};
ghost use Rattle.nl_blocks.specs.Used.{is_active_state, used_in};
ghost use Rattle.nl_pseg.specs.Kept.{all_used, kept};
ghost use Rattle.nl_pseg.specs.Segment.{IsPhysicalOf, NeedsNoErase, held_at, is_soiled, room};
ghost use Rattle.nl_pseg.specs.Seen.{seen, FitsPhysical, IsPhysicalFormed, IsTied};
ghost use Rattle.nl_pseg.specs.Steps.{IsTaking, OpensForProgram, OpeningOn, opened_at};
ghost use Rattle.nl_pseg.specs.declared.held.Held.{Held as HeldOf};

use crate::state::State;
use nl_blocks::BlockState;
use nl_nand::{Nand, WriteAnswer};
use nl_pseg_blocks::{give_back, next_page, take, wear_out};

impl State {
    /// Whether a page can be programmed for a new name.
    pub fn has_room(&self) -> bool
        requires formed { IsPhysicalFormed (kept self.now) }
        ensures { IsTrue result ↔ (0 < room (seen (kept self.now))) }
    {
        next_page(&self.blocks, self.active).is_some() || self.blocks.free() >= 2
    }

    /// Whether the block is erased before use.
    pub fn is_soiled(&self, block: u32) -> bool
        requires { block < length self.now.soiled.items }
        ensures { result ≡ is_soiled (seen (kept self.now)) block }
    {
        self.soiled[block as usize].is_some()
    }

    /// The block is written to from now on. No page of it is used.
    fn write_to(&mut self, block: u32)
        requires formed { IsPhysicalFormed (all_used (kept self.old)) }
        requires has { HasBlock self.old.blocks block }
        requires active { (block_at self.old.blocks block).state ≡ BlockState.Active }
        requires unused { used_in is_active_state self.old.blocks block ≡ 0 }
        requires taking { IsTaking (all_used (kept self.old)) block }
        requires in_use { (p : ℕ) (h : HeldOf) → held_at (seen (kept self.old)) p ≡ Some h → p / self.old.blocks.size ≡ block → ⊥ }
        ensures formed { IsPhysicalFormed (kept self.new) }
        ensures tied { IsTied (kept self.new) }
        ensures opened { seen (kept self.new) ≡ opened_at (seen (kept self.old)) block }
        ensures used { (kept self.new).used ≡ 0 }
        ensures pages { self.new.blocks.size ≡ self.old.blocks.size }
    {
        self.soiled[block as usize] = None;
        self.active = block;
    }

    /// Sees to it that the block that is written to has a page that is not used: where it is full, takes a Free block, and erases
    /// it first where it is soiled. Where that fails, the block is Free again.
    pub fn start<M: Nand>(&mut self, media: &mut M) -> WriteAnswer
        requires formed { IsPhysicalFormed (kept self.old) }
        requires tied { IsTied (kept self.old) }
        requires fits { FitsPhysical (M.geometry media.old) (seen (kept self.old)) }
        requires room { 0 < room (seen (kept self.old)) }
        requires segment { M.tells → IsPhysicalOf (M.contents media.old) (seen (kept self.old)) }
        ensures formed { IsPhysicalFormed (kept self.new) }
        ensures tied { IsTied (kept self.new) }
        ensures left { result ≡ WriteAnswer.Done → (kept self.new).used < self.new.blocks.size }
        ensures opening { OpensForProgram result (seen (kept self.old)) (seen (kept self.new)) }
        ensures medium { M.tells → OpeningOn M.clock M.contents M.left result (seen (kept self.old))
            (seen (kept self.new)) media.old media.new }
        ensures geometry { M.geometry media.new ≡ M.geometry media.old }
        ensures ready { NeedsNoErase (seen (kept self.old)) → (result ≡ WriteAnswer.Done) × (M.clock media.new ≡ M.clock media.old) }
        ensures clock { (M.clock media.old ≤ M.clock media.new) × (M.clock media.new ≤ M.clock media.old + 1) }
        ensures read_faults { M.read_faults media.new ≡ M.read_faults media.old }
        ensures write_faults { FaultsCounted (M.write_faults media.old) (M.write_faults media.new) (result ≡ WriteAnswer.Failed) }
    {
        if next_page(&self.blocks, self.active).is_some() {
            return WriteAnswer::Done;
        }
        let block = take(&mut self.blocks);
        if !self.is_soiled(block) {
            self.write_to(block);
            return WriteAnswer::Done;
        }
        match media.erase(block) {
            WriteAnswer::Done => {
                wear_out(&mut self.blocks, block);
                self.write_to(block);
                WriteAnswer::Done
            }
            WriteAnswer::Failed => {
                give_back(&mut self.blocks, block);
                WriteAnswer::Failed
            }
        }
    }
}
