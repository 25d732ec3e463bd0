// Moves live pages of the victim.
ghost use Rattle.std.specs.Prelude.{◌≡◌, ◌⊎◌, ◌↔◌, ℕ, ◌+◌, ◌*◌, ◌/◌, ◌<◌, ◌≤◌, Some, None, IfNone, IfSome, IsSome, IsTrue};
ghost use Rattle.nl_field.specs.CrashStates.{Rose, saturated};
ghost use Rattle.nl_field.specs.Page.{page_at};
ghost use Rattle.nl_field.specs.Spelling.{is_stamp};
ghost use Rattle.nl_nand.specs.Nand.{FaultsCounted};
ghost use Rattle.nl_blocks.specs.Table.{HasBlock, IsBlockTable, block_at};
ghost use Rattle.nl_blocks.specs.Used.{is_target_state, used_in};
ghost use Rattle.nl_pseg_pages.specs.Pages.{shown_by};
ghost use Rattle.nl_pseg.specs.Cleaning.{CountedMove, IsMoved, programmed_by};
ghost use Rattle.nl_pseg.specs.Copies.{CopiesOn, CopiesPage};
ghost use Rattle.nl_pseg.specs.Kept.{all_filled, kept};
ghost use Rattle.nl_pseg.specs.Moving.{IsConsistent, LandsPage, MovesOn, MovesPageOrNone};
ghost use Rattle.nl_pseg.specs.Seen.{seen, FitsPhysical, IsPhysicalFormed, IsTied};
ghost use Rattle.nl_pseg.specs.Segment.{CanSpareBlock, InVictim, IsClean, IsPhysicalOf, IsUnspent, held_at};
ghost use Rattle.nl_pseg.specs.Space.{HasRoomForVictim, landing, left_in_victim};
ghost use Rattle.nl_pseg.specs.Steps.{IsCopyUsed, IsLed, IsReadied, IsTargeted, ReadiedOn, aimed_at};
ghost use Rattle.nl_pseg.specs.Tries.{CopyNeedsNoErase, SpendsTriedCopy};
ghost use Rattle.nl_pseg.specs.Writes.{ProgramsOn};
ghost use Rattle.nl_pseg.specs.declared.held.Held.{Held as HeldOf};

use crate::cleaned::Copied;
use crate::held::Held;
use crate::state::State;
use nl_blocks::BlockState;
use nl_field::{NamedRead, PageBuf};
use nl_nand::{Nand, WriteAnswer};
use nl_pseg_blocks::{give_back, mark, next_copy, seal_filled, take_target, wear_out};
use nl_pseg_pages::{program_page, read_page};

impl State {
    /// A live page of a block: the first one from the place on where the last one was found, or else the first one.
    pub fn first_live(&self, block: u32) -> Option<u32>
        requires formed { IsPhysicalFormed (kept self.now) }
        requires has { HasBlock self.now.blocks block }
        ensures some { IfSome result (λ page. (page / self.now.blocks.size ≡ block) × IsSome (held_at (seen (kept self.now)) page)) }
        ensures none { IfNone result ((page : ℕ) → page / self.now.blocks.size ≡ block → held_at (seen (kept self.now)) page ≡ None) }
    {
        let pages = self.blocks.pages();
        match self.live_among(block, self.looked, pages) {
            Some(page) => Some(page),
            None => self.live_among(block, 0, pages),
        }
    }

    /// The first live page of a block from one place on up to another.
    fn live_among(&self, block: u32, from: u32, to: u32) -> Option<u32>
        requires formed { IsPhysicalFormed (kept self.now) }
        requires has { HasBlock self.now.blocks block }
        requires within { to ≤ self.now.blocks.size }
        ensures some { IfSome result (λ page. (page / self.now.blocks.size ≡ block) × IsSome (held_at (seen (kept self.now)) page)) }
        ensures none { IfNone result
            ((at : ℕ) → from ≤ at → at < to → held_at (seen (kept self.now)) (block * self.now.blocks.size + at) ≡ None) }
    {
        let pages = self.blocks.pages();
        for at in from..to {
            let page = block * pages + at;
            if self.held[page as usize].is_some() {
                return Some(page);
            }
        }
        None
    }

    /// Sees to it that the block for copies has a page that is not used: where it is full, takes a Free block, and erases it first
    /// where it is soiled. Where that fails, the block is Free again.
    fn ready<M: Nand>(&mut self, media: &mut M) -> WriteAnswer
        requires formed { IsPhysicalFormed (kept self.old) }
        requires tied { IsTied (kept self.old) }
        requires fits { FitsPhysical (M.geometry media.old) (seen (kept self.old)) }
        requires lands { 0 < landing (seen (kept self.old)) }
        requires segment { M.tells → IsPhysicalOf (M.contents media.old) (seen (kept self.old)) }
        ensures formed { IsPhysicalFormed (kept self.new) }
        ensures tied { IsTied (kept self.new) }
        ensures left { result ≡ WriteAnswer.Done → (kept self.new).filled < self.new.blocks.size }
        ensures readied { IsReadied (seen (kept self.old)) (seen (kept self.new)) }
        ensures medium { M.tells → ReadiedOn M.clock M.contents M.left result (seen (kept self.old))
            (seen (kept self.new)) media.old media.new }
        ensures geometry { M.geometry media.new ≡ M.geometry media.old }
        ensures clean { IsClean (seen (kept self.old)) → (result ≡ WriteAnswer.Done) × (M.clock media.new ≡ M.clock media.old) }
        ensures clock { (M.clock media.old ≤ M.clock media.new) × (M.clock media.new ≤ M.clock media.old + 1) }
        ensures read_faults { M.read_faults media.new ≡ M.read_faults media.old }
        ensures write_faults { FaultsCounted (M.write_faults media.old) (M.write_faults media.new) (result ≡ WriteAnswer.Failed) }
        ensures failed { result ≡ WriteAnswer.Failed → IsUnspent (seen (kept self.old)) (seen (kept self.new))
            × (CopyNeedsNoErase (seen (kept self.old)) → ⊥) }
    {
        if next_copy(&self.blocks, self.target).is_some() {
            return WriteAnswer::Done;
        }
        let _ = self.blocks.count();
        let block = take_target(&mut self.blocks);
        let _ = self.blocks.count();
        if !self.is_soiled(block) {
            self.aim(block);
            return WriteAnswer::Done;
        }
        match media.erase(block) {
            WriteAnswer::Done => {
                wear_out(&mut self.blocks, block);
                let _ = self.blocks.count();
                self.aim(block);
                WriteAnswer::Done
            }
            WriteAnswer::Failed => {
                give_back(&mut self.blocks, block);
                let _ = self.blocks.count();
                WriteAnswer::Failed
            }
        }
    }

    /// Copies are written to this block. No page of it is used.
    fn aim(&mut self, block: u32)
        requires formed { IsPhysicalFormed (all_filled (kept self.old)) }
        requires has { HasBlock self.old.blocks block }
        requires target { (block_at self.old.blocks block).state ≡ BlockState.Target }
        requires unused { used_in is_target_state self.old.blocks block ≡ 0 }
        requires targeted { IsTargeted (all_filled (kept self.old)) block }
        requires in_use { (p : ℕ) (h : HeldOf) → held_at (seen (kept self.old)) p ≡ Some h → p / self.old.blocks.size ≡ block → ⊥ }
        ensures formed { IsPhysicalFormed (kept self.new) }
        ensures tied { IsTied (kept self.new) }
        ensures aimed { seen (kept self.new) ≡ aimed_at (seen (kept self.old)) block }
        ensures filled { (kept self.new).filled ≡ 0 }
        ensures pages { self.new.blocks.size ≡ self.old.blocks.size }
    {
        self.soiled[block as usize] = None;
        self.target = block;
    }

    /// Uses the next page for copies: it holds this. A block that is full is Sealed.
    fn use_copy(&mut self, page: u32, held: Option<Held>)
        requires formed { IsPhysicalFormed (kept self.old) }
        requires tied { IsTied (kept self.old) }
        requires room { (kept self.old).filled < self.old.blocks.size }
        requires next { page ≡ (seen (kept self.old)).copy_next }
        requires spelled { IfSome held (λ h. IsTrue (is_stamp h.stamp)) }
        ensures formed { IsPhysicalFormed (kept self.new) }
        ensures tied { IsTied (kept self.new) }
        ensures used { IsCopyUsed held (seen (kept self.old)) (seen (kept self.new)) }
    {
        let _ = self.blocks.count();
        mark(&mut self.blocks, page, held.is_some());
        self.held[page as usize] = held;
        seal_filled(&mut self.blocks, self.target);
        let _ = self.blocks.count();
    }

    /// The live page of the victim is at the other page now.
    fn lead(&mut self, before: u32, after: u32)
        requires formed { IsPhysicalFormed (kept self.old) }
        requires tied { IsTied (kept self.old) }
        requires victim { self.old.victim ≡ Some (before / self.old.blocks.size) }
        requires live { IsSome (held_at (seen (kept self.old)) before) }
        requires there { IsSome (held_at (seen (kept self.old)) after) }
        requires apart { before ≡ after → ⊥ }
        requires room { 0 < self.old.names.room }
        ensures formed { IsPhysicalFormed (kept self.new) }
        ensures tied { IsTied (kept self.new) }
        ensures table { IsBlockTable self.new.blocks }
        ensures led { IsLed before after (seen (kept self.old)) (seen (kept self.new)) }
    {
        let _ = self.blocks.count();
        mark(&mut self.blocks, before, false);
        self.held[before as usize] = None;
        self.names.add(before, after);
        let _ = self.blocks.count();
    }

    /// Programs the buffer as the copy of a live page of the victim.
    fn land<M: Nand>(&mut self, media: &mut M, before: u32, held: Held, buf: &mut PageBuf) -> Copied
        requires consistent { IsConsistent (kept self.old) }
        requires fits { FitsPhysical (M.geometry media.old) (seen (kept self.old)) }
        requires room { (kept self.old).filled < self.old.blocks.size }
        requires victim { InVictim (seen (kept self.old)) before }
        requires live { held_at (seen (kept self.old)) before ≡ Some held }
        requires segment { M.tells → IsPhysicalOf (M.contents media.old) (seen (kept self.old)) }
        ensures consistent { IsConsistent (kept self.new) }
        ensures lands { LandsPage before held result (seen (kept self.old)) (seen (kept self.new)) }
        ensures medium { M.tells → ProgramsOn M.clock M.contents M.left held.tag held.stamp buf.old.main (programmed_by result)
            (seen (kept self.old)) (seen (kept self.new)) media.old media.new }
        ensures spare { M.tells → shown_by (page_at (M.contents media.old) before) ≡ Some (held.tag, held.stamp, buf.old.main)
            → CanSpareBlock (M.contents media.old) (seen (kept self.old)) → CanSpareBlock (M.contents media.new) (seen (kept self.new)) }
        ensures geometry { M.geometry media.new ≡ M.geometry media.old }
        ensures later { M.clock media.old ≤ M.clock media.new }
        ensures clock { (IsMoved result → M.clock media.new ≡ saturated (M.clock media.old + 1))
            × ((IsMoved result → ⊥) → M.clock media.new ≡ M.clock media.old) }
        ensures read_faults { M.read_faults media.new ≡ M.read_faults media.old }
        ensures write_faults { FaultsCounted (M.write_faults media.old) (M.write_faults media.new) (result ≡ Copied.Fault) }
    {
        let Some(after) = next_copy(&self.blocks, self.target) else {
            unreachable!();
        };
        let wear = self.blocks.wear(self.target);
        match program_page(media, after, buf, held.tag, held.stamp, wear) {
            WriteAnswer::Failed => {
                self.use_copy(after, None);
                Copied::Fault
            }
            WriteAnswer::Done => {
                self.use_copy(after, Some(held));
                self.lead(before, after);
                Copied::Moved {
                    before,
                    after,
                    tag: held.tag,
                    stamp: held.stamp,
                }
            }
        }
    }

    /// Moves the page, which is live and in the victim.
    fn move_page<M: Nand>(
        &mut self,
        media: &mut M,
        before: u32,
        held: Held,
        buf: &mut PageBuf,
    ) -> Copied
        requires consistent { IsConsistent (kept self.old) }
        requires fits { FitsPhysical (M.geometry media.old) (seen (kept self.old)) }
        requires victim { InVictim (seen (kept self.old)) before }
        requires live { held_at (seen (kept self.old)) before ≡ Some held }
        requires room { 0 < landing (seen (kept self.old)) }
        requires segment { M.tells → IsPhysicalOf (M.contents media.old) (seen (kept self.old)) }
        ensures consistent { IsConsistent (kept self.new) }
        ensures nothing { result ≡ Copied.Nothing → ⊥ }
        ensures moves { MovesPageOrNone before held result (seen (kept self.old)) (seen (kept self.new)) }
        ensures lands { HasRoomForVictim (seen (kept self.old))
            → Rose (M.write_faults media.old) (M.write_faults media.new) ⊎ HasRoomForVictim (seen (kept self.new)) }
        ensures medium { M.tells → MovesOn M.clock M.contents M.left before held result (seen (kept self.old))
            (seen (kept self.new)) media.old media.new }
        ensures geometry { M.geometry media.new ≡ M.geometry media.old }
        ensures tried { SpendsTriedCopy result (M.write_faults media.old < M.write_faults media.new) (seen (kept self.old)) (seen (kept self.new)) }
        ensures counts { CountedMove M.clock M.read_faults M.write_faults (IsClean (seen (kept self.old))) media.old media.new result }
    {
        match read_page(media, before, held.tag, held.stamp, buf) {
            NamedRead::Done => {}
            NamedRead::Lost { wanted, found } => return Copied::Lost { wanted, found },
            NamedRead::Fault => return Copied::Fault,
            NamedRead::NotLive => unreachable!(),
        }
        match self.ready(media) {
            WriteAnswer::Failed => Copied::Fault,
            WriteAnswer::Done => self.land(media, before, held, buf),
        }
    }

    /// Moves one live page of the victim.
    pub fn copy_one<M: Nand>(&mut self, media: &mut M, buf: &mut PageBuf) -> Copied
        requires consistent { IsConsistent (kept self.old) }
        requires fits { FitsPhysical (M.geometry media.old) (seen (kept self.old)) }
        requires lands { HasRoomForVictim (seen (kept self.old)) }
        requires segment { M.tells → IsPhysicalOf (M.contents media.old) (seen (kept self.old)) }
        ensures consistent { IsConsistent (kept self.new) }
        ensures nothing { result ≡ Copied.Nothing ↔ left_in_victim (seen (kept self.old)) ≡ 0 }
        ensures refused { result ≡ Copied.Nothing → (seen (kept self.new) ≡ seen (kept self.old)) × (media.new ≡ media.old) }
        ensures copies { CopiesPage result (seen (kept self.old)) (seen (kept self.new)) }
        ensures lands { Rose (M.write_faults media.old) (M.write_faults media.new) ⊎ HasRoomForVictim (seen (kept self.new)) }
        ensures medium { M.tells → CopiesOn M.clock M.contents M.left result (seen (kept self.old))
            (seen (kept self.new)) media.old media.new }
        ensures geometry { M.geometry media.new ≡ M.geometry media.old }
        ensures tried { SpendsTriedCopy result (M.write_faults media.old < M.write_faults media.new) (seen (kept self.old)) (seen (kept self.new)) }
        ensures counts { CountedMove M.clock M.read_faults M.write_faults (IsClean (seen (kept self.old))) media.old media.new result }
    {
        let _ = self.blocks.count();
        let Some(victim) = self.victim else {
            return Copied::Nothing;
        };
        let Some(before) = self.first_live(victim) else {
            return Copied::Nothing;
        };
        let Some(held) = self.live_on(before) else {
            return Copied::Nothing;
        };
        self.looked = before % self.blocks.pages();
        self.move_page(media, before, held, buf)
    }
}
