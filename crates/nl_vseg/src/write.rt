// Writes an address to a new page.
ghost use Rattle.std.specs.Prelude.{◌≡◌, ◌<◌, ◌≤◌, length, true, IsTrue};
ghost use Rattle.nl_field.specs.Spelling.{is_stamp};
ghost use Rattle.nl_blocks.specs.Table.{block_at, free_count, is_sealed};
ghost use Rattle.nl_vseg.specs.Layout.{room};
ghost use Rattle.nl_vseg.specs.Segment.{FitsSegment, IsSegmentOf, SegmentHasUnmapped};
ghost use Rattle.nl_vseg.specs.Seen.{seen, segment_of, IsVirtualFormed};
ghost use Rattle.nl_vseg.specs.Cleaning.{LosesUntold, IsStateOfMedium};
ghost use Rattle.nl_vseg.specs.Putting.{PutsAtAddress};
ghost use Rattle.nl_vseg.specs.Tries.{SpendsTriedPage};
ghost use Rattle.nl_vseg.specs.Writes.{StillServes, WritesValueAt, WritesDirectly};

use crate::pages::program_page;
use crate::place::Place;
use crate::state::State;
use crate::used::use_next;
use crate::victim::seal_full;
use nl_field::{PageBuf, VirtualWrite};
use nl_nand::{Nand, WriteAnswer};

impl State {
    /// Programs the next page of the active block as that of an address.
    fn program<M: Nand>(
        &mut self,
        media: &mut M,
        vaddr: u32,
        from: &PageBuf,
        stamp: u64,
    ) -> WriteAnswer
        requires stands { IsStateOfMedium M.Nand self.old media.old }
        requires vaddr { vaddr < length self.old.places.items }
        requires stamp { IsTrue (is_stamp stamp) }
        requires room { (seen self.old).used < self.old.blocks.size }
        requires free { 1 ≤ free_count self.old.blocks }
        ensures puts { PutsAtAddress M.Nand vaddr stamp from.now.main result self.old self.new media.old media.new }
    {
        let wear = self.blocks.wear(self.active);
        let page = use_next(&mut self.blocks, self.active);
        self.buf.copy_from(from);
        match program_page(media, page, &mut self.buf, vaddr, stamp, wear) {
            WriteAnswer::Failed => WriteAnswer::Failed,
            WriteAnswer::Done => {
                self.places[vaddr as usize] = Some(Place { page, stamp });
                WriteAnswer::Done
            }
        }
    }

    /// Programs the next page of the active block as that of an address. The block is Sealed once it is full.
    fn put<M: Nand>(&mut self, media: &mut M, vaddr: u32, from: &PageBuf, stamp: u64) -> WriteAnswer
        requires stands { IsStateOfMedium M.Nand self.old media.old }
        requires vaddr { vaddr < length self.old.places.items }
        requires stamp { IsTrue (is_stamp stamp) }
        requires room { (seen self.old).used < self.old.blocks.size }
        requires free { 1 ≤ free_count self.old.blocks }
        ensures puts { PutsAtAddress M.Nand vaddr stamp from.now.main result self.old self.new media.old media.new }
        ensures sealed { (seen self.new).used ≡ self.new.blocks.size → is_sealed (block_at self.new.blocks self.new.active) ≡ true }
    {
        let answer = self.program(media, vaddr, from, stamp);
        seal_full(&mut self.blocks, self.active);
        answer
    }

    /// Writes an address under this write sequence number, and makes room first where there is none.
    pub fn write<M: Nand>(
        &mut self,
        media: &mut M,
        vaddr: u32,
        from: &PageBuf,
        stamp: u64,
    ) -> VirtualWrite
        requires formed { IsVirtualFormed self.old }
        requires fits { FitsSegment (M.geometry media.old) (segment_of self.old) }
        requires vaddr { vaddr < length self.old.places.items }
        requires stamp { IsTrue (is_stamp stamp) }
        requires spare { SegmentHasUnmapped (segment_of self.old) }
        requires segment { M.tells → IsSegmentOf (M.contents media.old) (segment_of self.old) }
        ensures formed { IsVirtualFormed self.new }
        ensures serves { StillServes M.Nand (segment_of self.old) (segment_of self.new) media.new }
        ensures writes { WritesValueAt M.Nand vaddr stamp from.now.main (result ≡ VirtualWrite.Done) (result ≡ VirtualWrite.Fault)
            (segment_of self.old) (segment_of self.new) media.old media.new }
        ensures direct { 0 < room (seen self.old) → result ≡ VirtualWrite.Done
            → WritesDirectly M.Nand vaddr stamp from.now.main (segment_of self.old) (segment_of self.new) media.old media.new }
        ensures spends { 0 < room (seen self.old) → SpendsTriedPage (result ≡ VirtualWrite.Done) (segment_of self.old) (segment_of self.new) }
        ensures lost { LosesUntold M.tells self.old.places.items result }
    {
        match self.make_room(media) {
            VirtualWrite::Done => {}
            VirtualWrite::Lost { wanted, found } => return VirtualWrite::Lost { wanted, found },
            VirtualWrite::Fault => return VirtualWrite::Fault,
        }
        match self.put(media, vaddr, from, stamp) {
            WriteAnswer::Done => VirtualWrite::Done,
            WriteAnswer::Failed => VirtualWrite::Fault,
        }
    }
}
