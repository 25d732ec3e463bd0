//! The table of the blocks of one segment.
ghost use Rattle.std.specs.Prelude.{◌≡◌, ◌⊎◌, ℕ, ◌+◌, ◌-◌, ◌*◌, ◌/◌, ◌^◌, ◌<◌, ◌≤◌, ◌↔◌, length, true, cond, IfOk, IfSome, IfNone, IsNone, IsSome, IsTrue};
ghost use Rattle.nl_blocks.specs.Table.{BestOf, HasBlock, HasPage, IsLeastWornFree, IsNextPage, IsBlockTable, after_erase, block_at, dead_count, erased_row, free_count, in_state, is_free, is_retired_state, is_sealed_state, is_free_state, names_of, new_table, page_at, taken, wear_of, with_block, with_page, worn_row};

use crate::Memory;
use crate::row::{Block, state_with};
use crate::states::{BlockState, PageState};
use crate::tournament::Tournament;
use std::alloc::Global;
use std::marker::Model;

/// The blocks of one segment: the state and the wear of each, and the state of each page. Blocks and pages go by
/// their numbers on the medium. No call but `new` takes memory.
#[derive(Drop)]
pub struct Blocks {
    first: u32,
    size: u32,
    blocks: Vec<Block>,
    /// The number of Free blocks.
    free: usize,
    /// The wear of each Free block.
    waiting: Tournament,
}

impl Model for Blocks {
    ghost use Rattle.nl_blocks.specs.Table.{Table, IsTableSummary};

    ghost Value = { Table };

    ghost view = { λ b. record { first = b.first; size = b.size; blocks = b.blocks.items } };

    ghost invariant = { λ b. IsTableSummary (record { first = b.first; size = b.size; blocks = b.blocks.items }) b.free b.waiting };
}

impl Blocks {
    /// `count` blocks of `pages` pages, the first of them number `first`. Every block is Free with wear 0, every
    /// page Dead and not marked. The number behind the last page is below 2^32.
    pub fn new(alloc: Global, first: u32, count: u32, pages: u32) -> Result<Blocks, Memory>
        requires some { 0 < pages }
        requires numbers { (first + count) * pages < 2 ^ 32 }
        ensures { IfOk result (λ b. b ≡ new_table first count pages) }
    {
        let mut blocks = Vec::with_capacity(alloc, count as usize)?;
        let mut waiting = Tournament::new(alloc, count)?;
        'made: for at in 0..count {
            blocks.push(Block::new(alloc, pages)?)?;
            waiting.set(at, Some(0));
        }
        Ok(Blocks {
            first,
            size: pages,
            blocks,
            free: count as usize,
            waiting,
        })
    }

    /// The number of the first block.
    pub fn first(&self) -> u32
        ensures { result ≡ self.now.first }
    {
        self.first
    }

    /// The number of blocks.
    pub fn count(&self) -> u32
        ensures value { result ≡ length self.now.blocks }
        ensures table { IsBlockTable self.now }
    {
        self.blocks.len() as u32
    }

    /// The number of pages of a block.
    pub fn pages(&self) -> u32
        ensures { result ≡ self.now.size }
    {
        self.size
    }

    /// What a block is used for now.
    pub fn state(&self, block: u32) -> BlockState
        requires { HasBlock self.now block }
        ensures { result ≡ (block_at self.now block).state }
    {
        self.blocks[(block - self.first) as usize].state()
    }

    /// The state of a page, by its number on the medium.
    pub fn page_state(&self, page: u32) -> PageState
        requires { HasPage self.now page }
        ensures { result ≡ (page_at self.now page).state }
    {
        self.blocks[(page / self.size - self.first) as usize].page_state(page % self.size)
    }

    /// How often the block was erased; it stands at 2^32 - 1.
    pub fn wear(&self, block: u32) -> u32
        requires { HasBlock self.now block }
        ensures { result ≡ (block_at self.now block).wear }
    {
        self.blocks[(block - self.first) as usize].wear()
    }

    /// The number of the block's dead pages.
    pub fn dead(&self, block: u32) -> u32
        requires { HasBlock self.now block }
        ensures { result ≡ dead_count (block_at self.now block) }
    {
        self.blocks[(block - self.first) as usize].dead()
    }

    /// The number of Free blocks.
    #[tactic(auto, using(crate::proofs::TableProofs::free_fits))]
    pub fn free(&self) -> u32
        ensures { result ≡ free_count self.now }
    {
        self.free as u32
    }

    /// The index of the Free block with the least wear, of equals the first.
    fn least_worn(&self) -> Option<u32>
        ensures best { BestOf is_free wear_of self.now.blocks (length self.now.blocks) result }
        ensures some { IfSome result (λ _. 1 ≤ free_count self.now) }
        ensures none { IfNone result (free_count self.now ≡ 0) }
    {
        self.waiting.least()
    }

    /// Gives out the Free block with the least wear, of equals the one with the least number; it becomes Active, with
    /// no page marked. None exactly where fewer than 2 blocks are Free: one is kept for the cleaner.
    pub fn take_free(&mut self) -> Option<u32>
        ensures few { IsNone result ↔ (free_count self.old < 2) }
        ensures chosen { IfSome result (λ block. IsLeastWornFree self.old block) }
        ensures taken { IfSome result (λ block. self.new ≡ with_block self.old block (taken (block_at self.old block) BlockState.Active)) }
        ensures none { IfNone result (self.new ≡ self.old) }
    {
        if self.free() < 2 {
            return None;
        }
        let at = self.least_worn()?;
        self.blocks[at as usize].take(BlockState::Active);
        self.free -= 1;
        self.waiting.set(at, None);
        Some(self.first + at)
    }

    /// Gives out the Free block with the least wear, of equals the one with the least number, to the cleaner; it
    /// becomes Target, with no page marked. None exactly where no block is Free.
    pub fn take_reserve(&mut self) -> Option<u32>
        ensures few { IsNone result ↔ (free_count self.old ≡ 0) }
        ensures chosen { IfSome result (λ block. IsLeastWornFree self.old block) }
        ensures taken { IfSome result (λ block. self.new ≡ with_block self.old block (taken (block_at self.old block) BlockState.Target)) }
        ensures none { IfNone result (self.new ≡ self.old) }
    {
        let at = self.least_worn()?;
        self.blocks[at as usize].take(BlockState::Target);
        self.free -= 1;
        self.waiting.set(at, None);
        Some(self.first + at)
    }

    /// The first page of the block that was not marked since the block was taken, or since `new` where it never was.
    /// None exactly where the block is full: each page was marked since.
    pub fn next_page(&self, block: u32) -> Option<u32>
        requires { HasBlock self.now block }
        ensures some { IfSome result (λ page. IsNextPage self.now block page) }
        ensures full { IsNone result ↔ ((page : ℕ) → page / self.now.size ≡ block → (page_at self.now page).marked ≡ true) }
    {
        let at = self.blocks[(block - self.first) as usize].next()?;
        Some(block * self.size + at)
    }

    /// The page is Live, and marked.
    pub fn mark_live(&mut self, page: u32)
        requires { HasPage self.old page }
        ensures { self.new ≡ with_page self.old page PageState.Live }
    {
        self.blocks[(page / self.size - self.first) as usize].mark(
            page % self.size,
            PageState::Live,
        );
    }

    /// The page is Dead, and marked.
    pub fn mark_dead(&mut self, page: u32)
        requires { HasPage self.old page }
        ensures { self.new ≡ with_page self.old page PageState.Dead }
    {
        self.blocks[(page / self.size - self.first) as usize].mark(
            page % self.size,
            PageState::Dead,
        );
    }

    /// The block is Sealed.
    #[tactic(auto, using(crate::proofs::TableProofs::free_fits))]
    pub fn seal(&mut self, block: u32)
        requires { HasBlock self.old block }
        ensures { self.new ≡ with_block self.old block (in_state (block_at self.old block) BlockState.Sealed) }
    {
        let at = block - self.first;
        let i = at as usize;
        let was = self.blocks[i].is_free();
        self.blocks[i].set_state(BlockState::Sealed);
        self.free = recounted(self.free, was, false);
        self.waiting.set(at, None);
    }

    /// Makes a Sealed block the Victim.
    pub fn choose(&mut self, block: u32)
        requires has { HasBlock self.old block }
        requires sealed { is_sealed_state (block_at self.old block).state ≡ true }
        ensures { self.new ≡ with_block self.old block (in_state (block_at self.old block) BlockState.Victim) }
    {
        self.blocks[(block - self.first) as usize].set_state(BlockState::Victim);
    }

    /// The block was erased: it is Free where no name of its pages is in use, and else Retired with that many names.
    /// Its wear is one more. Its pages keep their states.
    #[tactic(auto, using(crate::proofs::TableProofs::free_fits))]
    pub fn erased(&mut self, block: u32, names: u32)
        requires { HasBlock self.old block }
        ensures { self.new ≡ with_block self.old block (erased_row (block_at self.old block) names) }
    {
        let at = block - self.first;
        let i = at as usize;
        let was = self.blocks[i].is_free();
        self.blocks[i].erased(names);
        self.free = recounted(self.free, was, names == 0);
        self.waiting.set(at, self.blocks[i].wear_if_free());
    }

    /// A block in use was erased again before its pages are used: its wear is one more, and its state and its pages stay.
    pub fn reerased(&mut self, block: u32)
        requires { HasBlock self.old block }
        ensures { self.new ≡ with_block self.old block (worn_row (block_at self.old block)) }
    {
        let at = block - self.first;
        let i = at as usize;
        self.blocks[i].reerased();
        self.waiting.set(at, self.blocks[i].wear_if_free());
    }

    /// Gives the block back as it is, without an erase: it is Free where no name of its pages is in use, and else Retired
    /// with that many names. Its wear and its pages stay.
    #[tactic(auto, using(crate::proofs::TableProofs::free_fits))]
    pub fn freed(&mut self, block: u32, names: u32)
        requires { HasBlock self.old block }
        ensures { self.new ≡ with_block self.old block (in_state (block_at self.old block) (after_erase names)) }
    {
        let at = block - self.first;
        let i = at as usize;
        let was = self.blocks[i].is_free();
        self.blocks[i].set_state(state_with(names));
        self.free = recounted(self.free, was, names == 0);
        self.waiting.set(at, self.blocks[i].wear_if_free());
    }

    /// Takes one name from a Retired block; on the last name it is Free.
    #[tactic(auto, using(crate::proofs::TableProofs::free_fits))]
    pub fn name_gone(&mut self, block: u32)
        requires has { HasBlock self.old block }
        requires retired { is_retired_state (block_at self.old block).state ≡ true }
        ensures { let row = block_at self.old block in self.new
            ≡ with_block self.old block (in_state row (after_erase (names_of row.state - 1))) }
    {
        let at = block - self.first;
        let i = at as usize;
        if let BlockState::Retired(names) = self.blocks[i].state() {
            self.blocks[i].set_state(state_with(names.saturating_sub(1)));
            self.free = recounted(self.free, false, names == 1);
            self.waiting.set(at, self.blocks[i].wear_if_free());
        }
    }

    /// Serves an opening: sets the wear of a block that is Free or Retired, and leaves it Free where no name of its
    /// pages is in use, and else Retired with that many names.
    #[tactic(auto, using(crate::proofs::TableProofs::free_fits))]
    pub fn found(&mut self, block: u32, wear: u32, names: u32)
        requires has { HasBlock self.old block }
        requires idle { (is_free_state (block_at self.old block).state ≡ true) ⊎ (is_retired_state (block_at self.old block).state ≡ true) }
        ensures { self.new ≡ with_block self.old block
            (record { state = after_erase names; wear = wear; pages = (block_at self.old block).pages }) }
    {
        let at = block - self.first;
        let i = at as usize;
        let was = self.blocks[i].is_free();
        self.blocks[i].found(wear, names);
        self.free = recounted(self.free, was, names == 0);
        self.waiting.set(at, self.blocks[i].wear_if_free());
    }
}

/// The number of Free blocks, where one block was Free or not, and is Free now or not.
fn recounted(free: usize, was: bool, is: bool) -> usize
    requires some { IsTrue was → 1 ≤ free }
    requires fits { free < 2 ^ 32 }
    ensures { result + cond was 1 0 ≡ free + cond is 1 0 }
{
    let others = if was { free - 1 } else { free };
    if is { others + 1 } else { others }
}
