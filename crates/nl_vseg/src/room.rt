// Sees to it that a page can be programmed, and that one block holds no page of the map.
ghost use Rattle.std.specs.Prelude.{◌≡◌, ℕ, ◌/◌, ◌<◌, ◌≤◌, length, slice_set, true, false};
ghost use Rattle.nl_field.specs.Page.{erased, page_at};
ghost use Rattle.nl_blocks.specs.Table.{block_at, free_count};
ghost use Rattle.nl_vseg.specs.Places.{IsUnmapped};
ghost use Rattle.nl_vseg.specs.Layout.{IsLayoutOf, LayoutHasUnmapped, LayoutTakesAsErased, block_is_free, closed, is_soiled, room, wears_of};
ghost use Rattle.nl_vseg.specs.Seen.{seen, IsVirtualFormed, FitsLayout};
ghost use Rattle.nl_vseg.specs.Cleaning.{FreesBlock, GivesBackActive, KeepsValues, LosesUntold, OpensActiveBlock, IsStateOfMedium, Vacates};
ghost use Rattle.nl_vseg.specs.Copying.{HasHole, SetsFree, SameFreeBlocks, StaysOrErased};
ghost use Rattle.nl_vseg.specs.Used.{IsClosed, IsUnusedBlock, KeepsUsed};
ghost use Rattle.nl_vseg.specs.Operations.{wears_after};
ghost use Rattle.nl_vseg.specs.Tries.{OpensNext, TakesNoOther};

use crate::copy::{clear, copy_block};
use crate::state::State;
use crate::used::has_room;
use crate::victim::{choose, seal_used};
use nl_blocks::{BlockState, Blocks};
use nl_field::VirtualWrite;
use nl_nand::{Nand, WriteAnswer};

/// Gives out the least worn Free block. There is one.
#[tactic(auto, using(crate::proofs::Wears::wears_kept))]
fn take(blocks: &mut Blocks) -> u32
    requires first { blocks.old.first ≡ 0 }
    requires free { 1 ≤ free_count blocks.old }
    ensures within { result < length blocks.old.blocks }
    ensures was_free { block_is_free blocks.old result ≡ true }
    ensures taken { SetsFree result false blocks.old blocks.new }
    ensures used { IsUnusedBlock result blocks.old blocks.new }
    ensures wears { wears_of blocks.new ≡ wears_of blocks.old }
{
    let taken = if blocks.free() < 2 {
        blocks.take_reserve()
    } else {
        blocks.take_free()
    };
    match taken {
        Some(block) => block,
        None => unreachable!(),
    }
}

/// The block is Free: it was erased, or it is soiled.
fn free_block(blocks: &mut Blocks, block: u32, soiled: bool)
    requires first { blocks.old.first ≡ 0 }
    requires within { block < length blocks.old.blocks }
    ensures states { SetsFree block true blocks.old blocks.new }
    ensures used { IsClosed block blocks.old blocks.new }
    ensures kept { soiled ≡ true → wears_of blocks.new ≡ wears_of blocks.old }
    ensures worn { soiled ≡ false → wears_of blocks.new ≡ wears_after WriteAnswer.Done block (wears_of blocks.old) }
{
    if soiled {
        blocks.freed(block, 0);
        return;
    }
    blocks.erased(block, 0);
}

/// A block in use was erased before its pages are used.
fn wear_out(blocks: &mut Blocks, block: u32)
    requires first { blocks.old.first ≡ 0 }
    requires within { block < length blocks.old.blocks }
    ensures states { SameFreeBlocks blocks.old blocks.new }
    ensures used { KeepsUsed blocks.old blocks.new }
    ensures worn { wears_of blocks.new ≡ wears_after WriteAnswer.Done block (wears_of blocks.old) }
{
    blocks.reerased(block);
}

fn is_free(blocks: &Blocks, block: u32) -> bool
    requires first { blocks.now.first ≡ 0 }
    requires within { block < length blocks.now.blocks }
    ensures { result ≡ block_is_free blocks.now block }
{
    matches!(blocks.state(block), BlockState::Free)
}

/// Sets the wear of a block.
pub fn set_wear(blocks: &mut Blocks, block: u32, wear: u32)
    requires first { blocks.old.first ≡ 0 }
    requires within { block < length blocks.old.blocks }
    ensures states { SameFreeBlocks blocks.old blocks.new }
    ensures used { IsClosed block blocks.old blocks.new }
    ensures wear { (block_at blocks.new block).wear ≡ wear }
    ensures others { (other : ℕ) → (other ≡ block → ⊥) → (block_at blocks.new other).wear ≡ (block_at blocks.old other).wear }
{
    if is_free(blocks, block) {
        blocks.found(block, wear, 0);
        return;
    }
    blocks.freed(block, 0);
    blocks.found(block, wear, 0);
    blocks.seal(block);
}

impl State {
    /// A block that holds no page of the map is Free. It was erased, or it is soiled and erased before use.
    fn set_free(&mut self, block: u32, soiled: bool)
        requires formed { IsVirtualFormed self.old }
        requires within { block < length self.old.blocks.blocks }
        requires unmapped { IsUnmapped self.old.blocks.size self.old.places.items block }
        ensures formed { IsVirtualFormed self.new }
        ensures free { FreesBlock block self.old self.new }
        ensures kept { soiled ≡ true → wears_of self.new.blocks ≡ wears_of self.old.blocks }
        ensures worn { soiled ≡ false → wears_of self.new.blocks ≡ wears_after WriteAnswer.Done block (wears_of self.old.blocks) }
        ensures soiled { is_soiled (seen self.new) block ≡ soiled }
        ensures marks { self.new.soiled.items ≡ slice_set self.old.soiled.items block soiled }
        ensures erased { (p : ℕ) → LayoutTakesAsErased (seen self.new) p
            → (p / self.old.blocks.size ≡ block → soiled ≡ false)
            × ((p / self.old.blocks.size ≡ block → ⊥) → LayoutTakesAsErased (seen self.old) p) }
    {
        free_block(&mut self.blocks, block, soiled);
        self.soiled[block as usize] = soiled;
    }

    /// Erases a block that holds no page of the map. It is Free.
    fn erase<M: Nand>(&mut self, media: &mut M, block: u32) -> WriteAnswer
        requires stands { IsStateOfMedium M.Nand self.old media.old }
        requires within { block < length self.old.blocks.blocks }
        requires unmapped { IsUnmapped self.old.blocks.size self.old.places.items block }
        ensures keeps { KeepsValues M.Nand (result ≡ WriteAnswer.Failed) self.old self.new media.old media.new }
        ensures free { FreesBlock block self.old self.new }
        ensures blank { M.tells → result ≡ WriteAnswer.Done → (p : ℕ) → p / self.old.blocks.size ≡ block
            → page_at (M.contents media.new) p ≡ erased }
        ensures others { M.tells → (p : ℕ) → (p / self.old.blocks.size ≡ block → ⊥)
            → page_at (M.contents media.new) p ≡ page_at (M.contents media.old) p }
    {
        match media.erase(block) {
            WriteAnswer::Done => {
                self.set_free(block, false);
                WriteAnswer::Done
            }
            WriteAnswer::Failed => {
                self.set_free(block, true);
                WriteAnswer::Failed
            }
        }
    }

    /// A block that is in use and holds no page of the map was erased.
    fn set_worn(&mut self, block: u32)
        requires formed { IsVirtualFormed self.old }
        requires within { block < length self.old.blocks.blocks }
        ensures formed { IsVirtualFormed self.new }
        ensures places { self.new.places.items ≡ self.old.places.items }
        ensures used { (seen self.new).used ≡ (seen self.old).used }
        ensures active { self.new.active ≡ self.old.active }
        ensures states { SameFreeBlocks self.old.blocks self.new.blocks }
        ensures worn { wears_of self.new.blocks ≡ wears_after WriteAnswer.Done block (wears_of self.old.blocks) }
        ensures marks { self.new.soiled.items ≡ slice_set self.old.soiled.items block false }
        ensures erased { (p : ℕ) → LayoutTakesAsErased (seen self.new) p → (p / self.old.blocks.size ≡ block → ⊥)
            → LayoutTakesAsErased (seen self.old) p }
    {
        wear_out(&mut self.blocks, block);
        self.soiled[block as usize] = false;
    }

    /// Erases the active block before its pages are used. It stays in use; where the erase fails, it is Free.
    fn erase_active<M: Nand>(&mut self, media: &mut M) -> WriteAnswer
        requires formed { IsVirtualFormed self.old }
        requires fits { FitsLayout (M.geometry media.old) (seen self.old) }
        requires unmapped { IsUnmapped self.old.blocks.size self.old.places.items self.old.active }
        requires segment { M.tells → IsLayoutOf (M.contents media.old) (closed (seen self.old)) }
        ensures keeps { KeepsValues M.Nand (result ≡ WriteAnswer.Failed) self.old self.new media.old media.new }
        ensures places { self.new.places.items ≡ self.old.places.items }
        ensures active { self.new.active ≡ self.old.active }
        ensures kept { result ≡ WriteAnswer.Done → SameFreeBlocks self.old.blocks self.new.blocks }
        ensures used { result ≡ WriteAnswer.Done → (seen self.new).used ≡ (seen self.old).used }
        ensures given { result ≡ WriteAnswer.Failed → GivesBackActive self.old self.new }
        ensures cleaned { result ≡ WriteAnswer.Done → self.new.soiled.items ≡ slice_set self.old.soiled.items self.old.active false }
        ensures soiled { result ≡ WriteAnswer.Failed → self.new.soiled.items ≡ slice_set self.old.soiled.items self.old.active true }
        ensures blank { M.tells → result ≡ WriteAnswer.Done → (p : ℕ) → p / self.old.blocks.size ≡ self.old.active
            → page_at (M.contents media.new) p ≡ erased }
        ensures others { M.tells → (p : ℕ) → (p / self.old.blocks.size ≡ self.old.active → ⊥)
            → page_at (M.contents media.new) p ≡ page_at (M.contents media.old) p }
    {
        let block = self.active;
        match media.erase(block) {
            WriteAnswer::Done => {
                self.set_worn(block);
                WriteAnswer::Done
            }
            WriteAnswer::Failed => {
                self.set_free(block, true);
                WriteAnswer::Failed
            }
        }
    }

    /// Makes a Free block the active one, and erases it first where it is soiled.
    fn start<M: Nand>(&mut self, media: &mut M) -> WriteAnswer
        requires stands { IsStateOfMedium M.Nand self.old media.old }
        requires closed { (seen self.old).used ≡ self.old.blocks.size }
        requires free { 1 ≤ free_count self.old.blocks }
        ensures keeps { KeepsValues M.Nand (result ≡ WriteAnswer.Failed) self.old self.new media.old media.new }
        ensures places { self.new.places.items ≡ self.old.places.items }
        ensures same { result ≡ WriteAnswer.Failed → SameFreeBlocks self.old.blocks self.new.blocks }
        ensures closed { result ≡ WriteAnswer.Failed → (seen self.new).used ≡ self.new.blocks.size }
        ensures opened { result ≡ WriteAnswer.Done → OpensActiveBlock self.old self.new }
        ensures takes { TakesNoOther (seen self.old) (seen self.new) }
        ensures failed { result ≡ WriteAnswer.Failed → (block : ℕ) × (is_soiled (seen self.old) block ≡ true) }
        ensures others { M.tells → result ≡ WriteAnswer.Done
            → StaysOrErased self.old.blocks.size self.new.active (M.contents media.old) (M.contents media.new) }
    {
        let block = take(&mut self.blocks);
        self.active = block;
        if !self.soiled[block as usize] {
            return WriteAnswer::Done;
        }
        self.erase_active(media)
    }

    /// Leaves the active block, which holds no page of the map. It is Free, and erased before use.
    fn give_back(&mut self)
        requires formed { IsVirtualFormed self.old }
        requires unmapped { IsUnmapped self.old.blocks.size self.old.places.items self.old.active }
        ensures formed { IsVirtualFormed self.new }
        ensures given { GivesBackActive self.old self.new }
        ensures wears { wears_of self.new.blocks ≡ wears_of self.old.blocks }
        ensures erased { (p : ℕ) → LayoutTakesAsErased (seen self.new) p
            → LayoutTakesAsErased (seen self.old) p × (p / self.old.blocks.size ≡ self.old.active → ⊥) }
    {
        let block = self.active;
        self.set_free(block, true);
    }

    /// Copies the pages of the victim that addresses have to the active block. The map has the copies once all are made.
    fn move_pages<M: Nand>(&mut self, media: &mut M, victim: u32) -> VirtualWrite
        requires stands { IsStateOfMedium M.Nand self.old media.old }
        requires begins { (seen self.old).used ≡ 0 }
        requires unmapped { IsUnmapped self.old.blocks.size self.old.places.items self.old.active }
        requires other { self.old.active ≡ victim → ⊥ }
        requires hole { HasHole self.old.blocks.size victim self.old.places.items }
        ensures keeps { KeepsValues M.Nand (result ≡ VirtualWrite.Fault) self.old self.new media.old media.new }
        ensures moved { result ≡ VirtualWrite.Done → Vacates victim self.old self.new }
        ensures given { (result ≡ VirtualWrite.Done → ⊥) → GivesBackActive self.old self.new }
        ensures lost { LosesUntold M.tells self.old.places.items result }
    {
        let wear = self.blocks.wear(self.active);
        let pages = self.blocks.pages();
        self.copies.copy_from_slice(&self.places);
        clear(&mut self.targets);
        match copy_block(
            media,
            &mut self.buf,
            &mut self.copies,
            &mut self.targets,
            victim,
            pages,
            self.active,
            wear,
            &mut self.blocks,
        ) {
            VirtualWrite::Done => {
                std::mem::swap(&mut self.places, &mut self.copies);
                VirtualWrite::Done
            }
            VirtualWrite::Lost { wanted, found } => {
                self.give_back();
                VirtualWrite::Lost { wanted, found }
            }
            VirtualWrite::Fault => {
                self.give_back();
                VirtualWrite::Fault
            }
        }
    }

    /// Cleans the block with the most pages that no address has. One block is Free.
    fn clean<M: Nand>(&mut self, media: &mut M) -> VirtualWrite
        requires stands { IsStateOfMedium M.Nand self.old media.old }
        requires closed { (seen self.old).used ≡ self.old.blocks.size }
        requires free { free_count self.old.blocks ≡ 1 }
        ensures keeps { KeepsValues M.Nand (result ≡ VirtualWrite.Fault) self.old self.new media.old media.new }
        ensures spare { 1 ≤ free_count self.new.blocks }
        ensures room { result ≡ VirtualWrite.Done → (seen self.new).used < self.new.blocks.size }
        ensures lost { LosesUntold M.tells self.old.places.items result }
    {
        let victim = choose(&mut self.blocks, &self.places);
        match self.start(media) {
            WriteAnswer::Done => {}
            WriteAnswer::Failed => return VirtualWrite::Fault,
        }
        match self.move_pages(media, victim) {
            VirtualWrite::Done => {}
            VirtualWrite::Lost { wanted, found } => return VirtualWrite::Lost { wanted, found },
            VirtualWrite::Fault => return VirtualWrite::Fault,
        }
        match self.erase(media, victim) {
            WriteAnswer::Done => VirtualWrite::Done,
            WriteAnswer::Failed => VirtualWrite::Fault,
        }
    }

    /// Sees to it that a block is Free. Where none is, some block in use holds no page of the map.
    fn free_one<M: Nand>(&mut self, media: &mut M) -> WriteAnswer
        requires stands { IsStateOfMedium M.Nand self.old media.old }
        requires closed { (seen self.old).used ≡ self.old.blocks.size }
        requires spare { LayoutHasUnmapped (seen self.old) }
        ensures keeps { KeepsValues M.Nand (result ≡ WriteAnswer.Failed) self.old self.new media.old media.new }
        ensures places { self.new.places.items ≡ self.old.places.items }
        ensures closed { (seen self.new).used ≡ self.new.blocks.size }
        ensures free { 1 ≤ free_count self.new.blocks }
        ensures same { 1 ≤ free_count self.old.blocks → seen self.new ≡ seen self.old }
        ensures ready { 1 ≤ free_count self.old.blocks → result ≡ WriteAnswer.Done }
        ensures still { 1 ≤ free_count self.old.blocks → M.contents media.new ≡ M.contents media.old }
    {
        if self.blocks.free() > 0 {
            return WriteAnswer::Done;
        }
        let block = choose(&mut self.blocks, &self.places);
        self.erase(media, block)
    }

    /// Sees to it that the active block has a page that is not used, and another block is Free.
    pub fn make_room<M: Nand>(&mut self, media: &mut M) -> VirtualWrite
        requires stands { IsStateOfMedium M.Nand self.old media.old }
        requires spare { LayoutHasUnmapped (seen self.old) }
        ensures keeps { KeepsValues M.Nand (result ≡ VirtualWrite.Fault) self.old self.new media.old media.new }
        ensures spare { LayoutHasUnmapped (seen self.new) }
        ensures room { result ≡ VirtualWrite.Done → ((seen self.new).used < self.new.blocks.size) × (1 ≤ free_count self.new.blocks) }
        ensures direct { 0 < room (seen self.old) → result ≡ VirtualWrite.Done
            → (room (seen self.new) ≡ room (seen self.old)) × (self.new.places.items ≡ self.old.places.items) }
        ensures opens { 0 < room (seen self.old) → OpensNext result (seen self.old) (seen self.new) }
        ensures others { M.tells → 0 < room (seen self.old) → result ≡ VirtualWrite.Done
            → StaysOrErased self.old.blocks.size self.new.active (M.contents media.old) (M.contents media.new) }
        ensures lost { LosesUntold M.tells self.old.places.items result }
    {
        if has_room(&self.blocks, self.active) && self.blocks.free() > 0 {
            return VirtualWrite::Done;
        }
        // The active block is left, whether or not each of its pages is used.
        seal_used(&mut self.blocks, self.active);
        match self.free_one(media) {
            WriteAnswer::Done => {}
            WriteAnswer::Failed => return VirtualWrite::Fault,
        }
        if self.blocks.free() < 2 {
            return self.clean(media);
        }
        match self.start(media) {
            WriteAnswer::Done => VirtualWrite::Done,
            WriteAnswer::Failed => VirtualWrite::Fault,
        }
    }
}
