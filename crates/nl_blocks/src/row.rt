//! One row of the table of blocks.
ghost use Rattle.std.specs.Prelude.{◌≡◌, ℕ, ◌^◌, ◌<◌, ◌≤◌, ◌↔◌, length, map, true, false, IfOk, IfSome, IsNone, slice_index_or};
ghost use Rattle.nl_blocks.specs.Table.{AreMarkedBefore, IsFirstUnmarked, after_erase, dead_count, erased_row, in_state, is_free, new_page, new_row, taken, unmarked, wear_if_free, with_mark, worn_row};

use crate::Memory;
use crate::states::{BlockState, Page, PageState};
use std::alloc::Global;
use std::marker::Model;

/// What the table keeps of one block.
#[derive(Drop)]
pub struct Block {
    state: BlockState,
    wear: u32,
    /// The number of its dead pages.
    dead: u32,
    /// The first page that is not marked, or the number of pages.
    next: u32,
    pages: Vec<Page>,
}

impl Model for Block {
    ghost use Rattle.std.specs.Prelude.{◌≡◌, ◌<◌, ◌^◌, length, count_by};
    ghost use Rattle.nl_blocks.specs.Table.{BlockRow, IsFirstUnmarked, is_dead};

    ghost Value = { BlockRow };

    ghost view = { λ b. record { state = b.state; wear = b.wear; pages = b.pages.items } };

    ghost invariant = { λ b. (b.dead ≡ count_by is_dead b.pages.items) × (length b.pages.items < 2 ^ 32)
        × IsFirstUnmarked b.pages.items b.next };
}

impl Block {
    /// A block of so many pages that was never used.
    pub fn new(alloc: Global, size: u32) -> Result<Self, Memory>
        ensures { IfOk result (λ b. b ≡ new_row size) }
    {
        let page = Page {
            state: PageState::Dead,
            marked: false,
        };
        let pages = vec![in alloc; page; size as usize]?;
        Ok(Block {
            state: BlockState::Free,
            wear: 0,
            dead: size,
            next: 0,
            pages,
        })
    }

    /// What the block is used for now.
    pub fn state(&self) -> BlockState
        ensures { result ≡ self.now.state }
    {
        self.state
    }

    /// How often the block was erased.
    pub fn wear(&self) -> u32
        ensures { result ≡ self.now.wear }
    {
        self.wear
    }

    /// How many pages of the block are dead.
    pub fn dead(&self) -> u32
        ensures value { result ≡ dead_count self.now }
        ensures few { result ≤ length self.now.pages }
    {
        self.dead
    }

    /// The state of a page, by its place in the block from 0.
    pub fn page_state(&self, at: u32) -> PageState
        requires { at < length self.now.pages }
        ensures { result ≡ (slice_index_or self.now.pages at new_page).state }
    {
        self.pages[at as usize].state
    }

    /// The first page that was not marked.
    pub fn next(&self) -> Option<u32>
        ensures some { IfSome result (λ at. at < length self.now.pages) }
        ensures unmarked { IfSome result (λ at. (slice_index_or self.now.pages at new_page).marked ≡ false) }
        ensures earlier { IfSome result (λ at. (k : ℕ) → k < at → (slice_index_or self.now.pages k new_page).marked ≡ true) }
        ensures none { IsNone result ↔ ((k : ℕ) → k < length self.now.pages → (slice_index_or self.now.pages k new_page).marked ≡ true) }
    {
        if (self.next as usize) < self.pages.len() {
            Some(self.next)
        } else {
            None
        }
    }

    /// The block is used for this from now on. Its wear and its pages stay.
    pub fn set_state(&mut self, state: BlockState)
        ensures { self.new ≡ in_state self.old state }
    {
        self.state = state;
    }

    /// The block was erased so often. It is Free where no name is waited for, and else waits for so many. Its pages stay.
    pub fn found(&mut self, wear: u32, names: u32)
        ensures { self.new ≡ record { state = after_erase names; wear = wear; pages = self.old.pages } }
    {
        self.wear = wear;
        self.state = state_with(names);
    }

    /// Whether the block is Free.
    pub fn is_free(&self) -> bool
        ensures { result ≡ is_free self.now }
    {
        matches!(self.state, BlockState::Free)
    }

    /// The wear of the block where it is Free, else None.
    pub fn wear_if_free(&self) -> Option<u32>
        ensures { result ≡ wear_if_free self.now }
    {
        if self.is_free() {
            Some(self.wear)
        } else {
            None
        }
    }

    /// One more erase; the wear stands at the end of its type.
    pub fn erased(&mut self, names: u32)
        ensures { self.new ≡ erased_row self.old names }
    {
        self.reerased();
        self.state = state_with(names);
    }

    /// One more erase of a block in use.
    pub fn reerased(&mut self)
        ensures { self.new ≡ worn_row self.old }
    {
        self.wear = self.wear.saturating_add(1);
    }

    /// Gives the block out with no page marked.
    pub fn take(&mut self, state: BlockState)
        ensures { self.new ≡ taken self.old state }
    {
        self.state = state;
        self.next = 0;
        unmark(&mut self.pages);
    }

    /// Gives a page, by its place in the block from 0, a state.
    pub fn mark(&mut self, at: u32, state: PageState)
        requires { at < length self.old.pages }
        ensures { self.new ≡ with_mark self.old at state }
    {
        let at = at as usize;
        match (self.pages[at].state, state) {
            (PageState::Dead, PageState::Live) => self.dead -= 1,
            (PageState::Live, PageState::Dead) => self.dead += 1,
            _ => {}
        }
        self.pages[at] = Page {
            state,
            marked: true,
        };
        if at == self.next as usize {
            self.next = first_unmarked(&self.pages, self.next + 1);
        }
    }
}

/// The state of an erased block of which so many names are in use.
pub fn state_with(names: u32) -> BlockState
    ensures { result ≡ after_erase names }
{
    if names == 0 {
        BlockState::Free
    } else {
        BlockState::Retired(names)
    }
}

/// The first page from one on that is not marked, where those before it are marked.
fn first_unmarked(pages: &[Page], from: u32) -> u32
    requires fits { length pages.now < 2 ^ 32 }
    requires within { from ≤ length pages.now }
    requires before { AreMarkedBefore pages.now from }
    ensures { IsFirstUnmarked pages.now result }
{
    for at in from as usize..pages.len() {
        if !pages[at].marked {
            return at as u32;
        }
    }
    pages.len() as u32
}

fn unmark(pages: &mut Vec<Page>)
    ensures { pages.new.items ≡ map unmarked pages.old.items }
{
    for at in 0..pages.len() {
        let page = pages[at];
        pages[at] = Page {
            state: page.state,
            marked: false,
        };
    }
}
