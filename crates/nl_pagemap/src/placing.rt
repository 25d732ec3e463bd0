// How a page is programmed under a new number, and how a number is taken out of use.
ghost use Rattle.std.specs.Prelude.{◌≡◌, ◌<◌, ◌≤◌, ◌^◌, IfNone, IfSome, IsTrue, Some, false};
ghost use Rattle.nl_field.specs.Page.{page_at, written};
ghost use Rattle.nl_field.specs.Spelling.{is_stamp};
ghost use Rattle.nl_iface.specs.Names.{leads};
ghost use Rattle.nl_nand.specs.Nand.{OperationCounted};
ghost use Rattle.nl_pagemap.specs.Mapped.{names_of, seen, untried_in};
ghost use Rattle.nl_pagemap.specs.Placing.{ChangesNext, HasNext, IsNewPointer, next_of, spent, spent_stamp};
ghost use Rattle.nl_pagemap.specs.Stands.{IsMapped};
ghost use Rattle.nl_pagemap_names.specs.Table.{live_at};
ghost use Rattle.nl_pseg_pages.specs.Pages.{page_with, shown_by};

use crate::pagemap::Pagemap;
use nl_field::{PageBuf, Pointer, Tag};
use nl_nand::{Nand, WriteAnswer};
use nl_pagemap_names::Entry;
use nl_pseg_pages::program_page;

impl<M: Nand> Pagemap<M> {
    /// The pointer of the next page that is written: the least number that is not in use, and the next stamp.
    pub(crate) fn new_pointer(&self) -> Pointer
        requires formed { IsMapped M.tells (M.geometry self.now.media) (seen M.contents self.now) }
        requires room { 0 < self.now.room }
        ensures { IsNewPointer (seen M.contents self.now) result }
    {
        match self.table.first_free() {
            Some(name) => Pointer {
                name,
                stamp: self.next,
            },
            None => unreachable!(),
        }
    }

    /// Whether the pointer leads to a page of its stamp that is in use.
    pub(crate) fn leads(&self, at: Pointer) -> bool
        ensures { result ≡ leads (names_of (seen M.contents self.now)) at }
    {
        match self.table.get(at.name) {
            Some(entry) => entry.stamp == at.stamp,
            None => false,
        }
    }

    /// The entry to which the pointer leads.
    pub(crate) fn entry_of(&self, at: Pointer) -> Option<Entry>
        ensures some { IfSome result (λ e. (live_at self.now.table at.name ≡ Some e) × (e.stamp ≡ at.stamp)) }
        ensures none { IfNone result (leads (names_of (seen M.contents self.now)) at ≡ false) }
    {
        match self.table.get(at.name) {
            Some(entry) if entry.stamp == at.stamp => Some(entry),
            _ => None,
        }
    }

    /// A block of the physical segment of which a page was not tried. None exactly where there is none.
    pub(crate) fn open_block(&self) -> Option<u32>
        requires formed { IsMapped M.tells (M.geometry self.now.media) (seen M.contents self.now) }
        ensures some { IfSome result (HasNext (seen M.contents self.now)) }
        ensures none { IfNone result (untried_in (seen M.contents self.now) ≡ 0) }
    {
        match self.untried.next_block() {
            Some(block) => Some(self.shape.vblocks + block),
            None => None,
        }
    }

    /// The block of which the next page is programmed.
    pub(crate) fn next_block(&self) -> u32
        requires formed { IsMapped M.tells (M.geometry self.now.media) (seen M.contents self.now) }
        requires room { 0 < self.now.room }
        ensures { HasNext (seen M.contents self.now) result }
    {
        match self.open_block() {
            Some(block) => block,
            None => unreachable!(),
        }
    }

    /// The next page of a block.
    pub(crate) fn next_page(&self, block: u32) -> u32
        requires formed { IsMapped M.tells (M.geometry self.now.media) (seen M.contents self.now) }
        requires next { HasNext (seen M.contents self.now) block }
        ensures { result ≡ next_of (seen M.contents self.now) block }
    {
        let end = block * self.shape.pages + self.shape.pages;
        end - self.untried.count(block - self.shape.vblocks)
    }

    /// Programs the next page of a block for this owner, under this stamp, with the bytes of the device's buffer. The page is spent, also
    /// where the program fails.
    pub(crate) fn try_page(&mut self, block: u32, tag: Tag, stamp: u64) -> WriteAnswer
        requires formed { IsMapped M.tells (M.geometry self.old.media) (seen M.contents self.old) }
        requires next { HasNext (seen M.contents self.old) block }
        requires spelled { IsTrue (is_stamp stamp) }
        ensures spends { seen M.contents self.new ≡ spent block (M.contents self.new.media) (seen M.contents self.old) }
        ensures others { ChangesNext M.tells block (seen M.contents self.old) (M.contents self.new.media) }
        ensures refused { self.new.refused ≡ self.old.refused }
        ensures programmed { M.tells → result ≡ WriteAnswer.Done
            → page_at (M.contents self.new.media) (next_of (seen M.contents self.old) block)
            ≡ written (page_with self.old.buf.main tag stamp 0) }
        ensures shows { shown_by (written (page_with self.old.buf.main tag stamp 0)) ≡ Some (tag, stamp, self.old.buf.main) }
        ensures later { M.clock self.old.media ≤ M.clock self.new.media }
        ensures counted { OperationCounted M.geometry M.clock M.read_faults M.write_faults self.old.media self.new.media result }
    {
        let page = self.next_page(block);
        let answer = program_page(&mut self.media, page, &mut self.buf, tag, stamp, 0);
        self.untried.spend(block - self.shape.vblocks);
        self.room = self.room.saturating_sub(1);
        self.free = 1 + self.room / self.shape.pages;
        answer
    }

    /// Programs the next page of a block for this owner, under the next stamp. Both are spent, also where the program fails.
    pub(crate) fn program(&mut self, block: u32, tag: Tag, from: &PageBuf) -> WriteAnswer
        requires formed { IsMapped M.tells (M.geometry self.old.media) (seen M.contents self.old) }
        requires next { HasNext (seen M.contents self.old) block }
        requires stamp { self.old.next < 2 ^ 63 }
        ensures spends { seen M.contents self.new ≡ spent_stamp block (M.contents self.new.media) (seen M.contents self.old) }
        ensures others { ChangesNext M.tells block (seen M.contents self.old) (M.contents self.new.media) }
        ensures refused { self.new.refused ≡ self.old.refused }
        ensures programmed { M.tells → result ≡ WriteAnswer.Done
            → page_at (M.contents self.new.media) (next_of (seen M.contents self.old) block)
            ≡ written (page_with from.now.main tag self.old.next 0) }
        ensures shows { shown_by (written (page_with from.now.main tag self.old.next 0)) ≡ Some (tag, self.old.next, from.now.main) }
        ensures later { M.clock self.old.media ≤ M.clock self.new.media }
        ensures counted { OperationCounted M.geometry M.clock M.read_faults M.write_faults self.old.media self.new.media result }
    {
        self.buf.copy_from(from);
        let answer = self.try_page(block, tag, self.next);
        self.next += 1;
        answer
    }
}
