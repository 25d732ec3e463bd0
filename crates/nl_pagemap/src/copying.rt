// A page of a number in use is copied to the next page that was not tried.
ghost use Rattle.std.specs.Prelude.{◌≡◌, ◌+◌, ◌/◌, ◌≤◌, ℕ, Some, false, true};
ghost use Rattle.nl_field.specs.CrashStates.{saturated};
ghost use Rattle.nl_field.specs.Page.{page_at};
ghost use Rattle.nl_iface.specs.Calls.{CallCounted};
ghost use Rattle.nl_pagemap.specs.Cleaning.{CopiesFrom, IsFull, KeepsNumbers};
ghost use Rattle.nl_pagemap.specs.Mapped.{seen, untried_in};
ghost use Rattle.nl_pagemap.specs.Stands.{IsMapped};
ghost use Rattle.nl_pagemap_names.specs.Table.{entry_at, live_at};
ghost use Rattle.nl_pagemap_names.specs.Untried.{is_in};
ghost use Rattle.nl_pseg_pages.specs.Pages.{main_of};

use crate::pagemap::Pagemap;
use nl_field::NamedRead;
use nl_iface::Counts;
use nl_nand::{Nand, WriteAnswer};
use nl_pagemap_names::Entry;
use nl_pseg_pages::read_page;

impl<M: Nand> Pagemap<M> {
    /// Copies the page of a number in use where it is in this block. False where that failed.
    pub(crate) fn move_off(&mut self, number: u32, block: u32) -> bool
        requires formed { IsMapped M.tells (M.geometry self.old.media) (seen M.contents self.old) }
        requires full { IsFull (seen M.contents self.old) block }
        ensures formed { IsMapped M.tells (M.geometry self.new.media) (seen M.contents self.new) }
        ensures kept { KeepsNumbers M.tells (seen M.contents self.old) (seen M.contents self.new) }
        ensures full { IsFull (seen M.contents self.new) block }
        ensures off { result ≡ true → is_in self.new.shape.pages block (live_at self.new.table number) ≡ false }
        ensures others { (n : ℕ) → (n ≡ number → ⊥) → live_at self.new.table n ≡ live_at self.old.table n }
        ensures copied { result ≡ true → CopiesFrom block (seen M.contents self.old) (seen M.contents self.new) }
        ensures spent { untried_in (seen M.contents self.new) ≤ untried_in (seen M.contents self.old) }
        ensures clock { M.clock self.old.media ≤ M.clock self.new.media }
        ensures counted { CallCounted ⟦<Pagemap<M> as Counts>⟧ (result ≡ false) self.old self.new }
    {
        match self.table.get(number) {
            Some(entry) if entry.page / self.shape.pages == block => {
                self.copy_page(number, entry, block)
            }
            _ => true,
        }
    }

    /// Copies the page of a number in use that is in this block. False where that failed.
    fn copy_page(&mut self, number: u32, entry: Entry, block: u32) -> bool
        requires formed { IsMapped M.tells (M.geometry self.old.media) (seen M.contents self.old) }
        requires full { IsFull (seen M.contents self.old) block }
        requires live { live_at self.old.table number ≡ Some entry }
        requires here { entry.page / self.old.shape.pages ≡ block }
        ensures formed { IsMapped M.tells (M.geometry self.new.media) (seen M.contents self.new) }
        ensures kept { KeepsNumbers M.tells (seen M.contents self.old) (seen M.contents self.new) }
        ensures full { IsFull (seen M.contents self.new) block }
        ensures off { result ≡ true → is_in self.new.shape.pages block (live_at self.new.table number) ≡ false }
        ensures others { (n : ℕ) → (n ≡ number → ⊥) → live_at self.new.table n ≡ live_at self.old.table n }
        ensures copied { result ≡ true → CopiesFrom block (seen M.contents self.old) (seen M.contents self.new) }
        ensures spent { untried_in (seen M.contents self.new) ≤ untried_in (seen M.contents self.old) }
        ensures clock { M.clock self.old.media ≤ M.clock self.new.media }
        ensures counted { CallCounted ⟦<Pagemap<M> as Counts>⟧ (result ≡ false) self.old self.new }
    {
        if !self.read_entry(number, entry) {
            return false;
        }
        let Some(to) = self.open_block() else {
            self.refuse();
            return false;
        };
        let page = self.next_page(to);
        let tag = entry.tag;
        let stamp = entry.stamp;
        match self.try_page(to, tag, stamp) {
            WriteAnswer::Failed => false,
            WriteAnswer::Done => {
                self.table.give(number, Entry { page, tag, stamp });
                true
            }
        }
    }

    /// Reads the page of a number into the device's buffer. False where that failed, or the page holds another one: that counts as a
    /// write that failed.
    fn read_entry(&mut self, number: u32, entry: Entry) -> bool
        requires formed { IsMapped M.tells (M.geometry self.old.media) (seen M.contents self.old) }
        requires entry { entry_at self.old.table number ≡ Some entry }
        ensures same { seen M.contents self.new ≡ seen M.contents self.old }
        ensures geometry { M.geometry self.new.media ≡ M.geometry self.old.media }
        ensures bytes { M.tells → result ≡ true → self.new.buf.main ≡ main_of (page_at (M.contents self.old.media) entry.page) }
        ensures clock { M.clock self.new.media ≡ M.clock self.old.media }
        ensures counted { CallCounted ⟦<Pagemap<M> as Counts>⟧ (result ≡ false) self.old self.new }
    {
        let _ = number;
        let media = &mut self.media;
        match read_page(media, entry.page, entry.tag, entry.stamp, &mut self.buf) {
            NamedRead::Done => true,
            NamedRead::Fault => false,
            NamedRead::NotLive | NamedRead::Lost { .. } => {
                self.refuse();
                false
            }
        }
    }

    /// Counts a call that is refused as a write that failed.
    fn refuse(&mut self)
        ensures { self.new ≡ record self.old { refused = saturated (self.old.refused + 1) } }
    {
        self.refused = self.refused.saturating_add(1);
    }
}
