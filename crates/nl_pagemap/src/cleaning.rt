// A block whose pages were all tried is cleaned: its pages that are in use are copied, and it is erased.
ghost use Rattle.std.specs.Prelude.{◌≡◌, ◌↔◌, ◌+◌, ◌/◌, ◌≤◌, ℕ, IfNone, IfSome, Some, false, true};
ghost use Rattle.nl_iface.specs.Calls.{CallCounted, OnlyReads, stored};
ghost use Rattle.nl_iface.specs.Moves.{ErasesAtCrashes, KeepsCleaning, LeavesErased};
ghost use Rattle.nl_iface.specs.Names.{SameTables};
ghost use Rattle.nl_pagemap.specs.Cleaning.{CanBeCleaned, ChangesRoom, CleansFirst, CopiesFrom, GainsDead, IsCleanedFirst, IsFull, KeepsNumbers, medium_of};
ghost use Rattle.nl_pagemap.specs.Mapped.{in_use, seen, untried_in};
ghost use Rattle.nl_pagemap.specs.Stands.{IsMapped};
ghost use Rattle.nl_pagemap_names.specs.Table.{ForgetsReleased, entry_at, live_at};
ghost use Rattle.nl_pagemap_names.specs.Untried.{is_in};
ghost use Rattle.nl_pagemap_names.specs.declared.entry.Entry.{Entry as EntryOf};

use crate::pagemap::Pagemap;
use nl_iface::Counts;
use nl_nand::{Nand, WriteAnswer};

/// What a cleaning answers.
#[derive(Clone, Copy, Debug, PartialEq, Eq)]
pub enum Cleaning {
    /// A block was cleaned.
    Done,
    /// No block whose pages were all tried has one that is not in use.
    Nothing,
    /// The medium failed, or no page was left to copy to.
    Fault,
}

impl<M: Nand> Pagemap<M> {
    /// Cleans the block with the fewest pages in use, of those whose pages were all tried and of which one is not in use: it copies the
    /// pages that are in use, and erases the block. Each number keeps its owner, its stamp and its bytes. What numbers have that are
    /// not in use may be gone. After `Fault` some pages may be copied, and the block is not erased.
    pub fn clean(&mut self) -> Cleaning
        requires { ⟦<Pagemap<M> as Counts>⟧.formed self.old }
        ensures formed { ⟦<Pagemap<M> as Counts>⟧.formed self.new }
        ensures nothing { result ≡ Cleaning.Nothing ↔ ((block : ℕ) → CanBeCleaned (seen M.contents self.old) block → ⊥) }
        ensures none { result ≡ Cleaning.Nothing → OnlyReads ⟦<Pagemap<M> as Counts>⟧ self.old self.new }
        ensures gains { result ≡ Cleaning.Done → GainsDead (seen M.contents self.old) (seen M.contents self.new) }
        ensures spent { result ≡ Cleaning.Fault
            → (⟦<Pagemap<M> as Counts>⟧.names self.new).space.room ≤ (⟦<Pagemap<M> as Counts>⟧.names self.old).space.room }
        ensures tables { SameTables (⟦<Pagemap<M> as Counts>⟧.names self.old) (⟦<Pagemap<M> as Counts>⟧.names self.new) }
        ensures space { ChangesRoom (⟦<Pagemap<M> as Counts>⟧.names self.old).space (⟦<Pagemap<M> as Counts>⟧.names self.new).space }
        ensures now { M.tells
            → LeavesErased (⟦<Pagemap<M> as Counts>⟧.names self.old) (⟦<Pagemap<M> as Counts>⟧.bytes self.old)
            (stored ⟦<Pagemap<M> as Counts>⟧ self.old) (stored ⟦<Pagemap<M> as Counts>⟧ self.new) }
        ensures left { M.tells → ErasesAtCrashes ⟦<Pagemap<M> as Counts>⟧ self.old self.new }
        ensures kept { KeepsCleaning ⟦<Pagemap<M> as Counts>⟧ self.old self.new }
        ensures faults { CallCounted ⟦<Pagemap<M> as Counts>⟧ (result ≡ Cleaning.Fault) self.old self.new }
    {
        self.clean_next()
    }

    /// Cleans the block that is cleaned first.
    fn clean_next(&mut self) -> Cleaning
        requires formed { IsMapped M.tells (M.geometry self.old.media) (seen M.contents self.old) }
        ensures formed { IsMapped M.tells (M.geometry self.new.media) (seen M.contents self.new) }
        ensures nothing { result ≡ Cleaning.Nothing ↔ ((block : ℕ) → CanBeCleaned (seen M.contents self.old) block → ⊥) }
        ensures same { result ≡ Cleaning.Nothing → self.new ≡ self.old }
        ensures gained { result ≡ Cleaning.Done → CleansFirst (seen M.contents self.old) (seen M.contents self.new) }
        ensures spent { result ≡ Cleaning.Fault → untried_in (seen M.contents self.new) ≤ untried_in (seen M.contents self.old) }
        ensures kept { KeepsNumbers M.tells (seen M.contents self.old) (seen M.contents self.new) }
        ensures clock { M.clock self.old.media ≤ M.clock self.new.media }
        ensures counted { CallCounted ⟦<Pagemap<M> as Counts>⟧ (result ≡ Cleaning.Fault) self.old self.new }
    {
        let Some(block) = self.cleaned_first() else {
            return Cleaning::Nothing;
        };
        if self.clean_block(block) {
            Cleaning::Done
        } else {
            Cleaning::Fault
        }
    }

    /// The block that is cleaned first. None exactly where none can be cleaned.
    fn cleaned_first(&mut self) -> Option<u32>
        requires formed { IsMapped M.tells (M.geometry self.old.media) (seen M.contents self.old) }
        ensures same { self.new ≡ self.old }
        ensures some { IfSome result (IsCleanedFirst (seen M.contents self.old)) }
        ensures none { IfNone result ((block : ℕ) → CanBeCleaned (seen M.contents self.old) block → ⊥) }
    {
        let first = self.shape.vblocks;
        match self
            .untried
            .fewest_used(&self.table, self.shape.pages, first)
        {
            Some(block) => Some(first + block),
            None => None,
        }
    }

    /// Copies the pages of a block that are in use, and erases it. False exactly where that failed.
    fn clean_block(&mut self, block: u32) -> bool
        requires formed { IsMapped M.tells (M.geometry self.old.media) (seen M.contents self.old) }
        requires full { IsFull (seen M.contents self.old) block }
        ensures formed { IsMapped M.tells (M.geometry self.new.media) (seen M.contents self.new) }
        ensures kept { KeepsNumbers M.tells (seen M.contents self.old) (seen M.contents self.new) }
        ensures gained { result ≡ true
            → untried_in (seen M.contents self.new) + in_use (seen M.contents self.old) block
            ≡ untried_in (seen M.contents self.old) + self.old.shape.pages }
        ensures spent { result ≡ false → untried_in (seen M.contents self.new) ≤ untried_in (seen M.contents self.old) }
        ensures clock { M.clock self.old.media ≤ M.clock self.new.media }
        ensures counted { CallCounted ⟦<Pagemap<M> as Counts>⟧ (result ≡ false) self.old self.new }
    {
        if !self.empty_block(block) {
            return false;
        }
        self.forget_released();
        self.erase_block(block)
    }

    /// Copies the pages of a block that are in use. False where that failed.
    fn empty_block(&mut self, block: u32) -> bool
        requires formed { IsMapped M.tells (M.geometry self.old.media) (seen M.contents self.old) }
        requires full { IsFull (seen M.contents self.old) block }
        ensures formed { IsMapped M.tells (M.geometry self.new.media) (seen M.contents self.new) }
        ensures kept { KeepsNumbers M.tells (seen M.contents self.old) (seen M.contents self.new) }
        ensures full { IsFull (seen M.contents self.new) block }
        ensures empty { result ≡ true → (n : ℕ) → is_in self.new.shape.pages block (live_at self.new.table n) ≡ false }
        ensures copied { result ≡ true → CopiesFrom block (seen M.contents self.old) (seen M.contents self.new) }
        ensures spent { untried_in (seen M.contents self.new) ≤ untried_in (seen M.contents self.old) }
        ensures clock { M.clock self.old.media ≤ M.clock self.new.media }
        ensures counted { CallCounted ⟦<Pagemap<M> as Counts>⟧ (result ≡ false) self.old self.new }
    {
        let first = self.table.first();
        let last = self.table.last();
        for number in first..last {
            if !self.move_off(number, block) {
                return false;
            }
        }
        true
    }

    /// The numbers that are not in use keep no entry.
    fn forget_released(&mut self)
        requires formed { IsMapped M.tells (M.geometry self.old.media) (seen M.contents self.old) }
        ensures formed { IsMapped M.tells (M.geometry self.new.media) (seen M.contents self.new) }
        ensures forgets { ForgetsReleased self.old.table self.new.table }
        ensures rest { self.new ≡ record self.old { table = self.new.table } }
    {
        self.table.forget_released();
    }

    /// Erases a block under which no number has its page. False exactly where that failed.
    fn erase_block(&mut self, block: u32) -> bool
        requires formed { IsMapped M.tells (M.geometry self.old.media) (seen M.contents self.old) }
        requires full { IsFull (seen M.contents self.old) block }
        requires empty { (n : ℕ) (e : EntryOf) → entry_at self.old.table n ≡ Some e → e.page / self.old.shape.pages ≡ block → ⊥ }
        ensures formed { IsMapped M.tells (M.geometry self.new.media) (seen M.contents self.new) }
        ensures kept { KeepsNumbers M.tells (seen M.contents self.old) (seen M.contents self.new) }
        ensures gained { result ≡ true
            → untried_in (seen M.contents self.new) ≡ untried_in (seen M.contents self.old) + self.old.shape.pages }
        ensures same { result ≡ false → untried_in (seen M.contents self.new) ≡ untried_in (seen M.contents self.old) }
        ensures clock { M.clock self.old.media ≤ M.clock self.new.media }
        ensures counted { CallCounted ⟦<Pagemap<M> as Counts>⟧ (result ≡ false) self.old self.new }
    {
        match self.media.erase(block) {
            WriteAnswer::Failed => false,
            WriteAnswer::Done => {
                self.untried
                    .refill(block - self.shape.vblocks, self.shape.pages);
                self.room = self.untried.total().saturating_sub(self.shape.pages);
                self.free = 1 + self.room / self.shape.pages;
                true
            }
        }
    }

    /// How many pages can be programmed under new numbers before a block is cleaned.
    pub fn pages_left(&self) -> u32
        ensures { result ≡ (⟦<Pagemap<M> as Counts>⟧.names self.now).space.room }
    {
        self.room
    }

    /// Gives the medium back.
    pub fn into_media(self) -> M
        ensures { result ≡ medium_of self }
    {
        let Pagemap {
            media,
            vseg,
            table,
            untried,
            buf,
            ..
        } = self;
        drop(vseg);
        drop(table);
        drop(untried);
        drop(buf);
        media
    }
}
