// A virtual segment as its users see it.
ghost use Rattle.std.specs.Prelude.{◌≡◌, ℕ, ◌+◌, ◌*◌, ◌/◌, ◌<◌, ◌≤◌, length, slice_set, replicate, true, None, Some, IsTrue, IfOk};
ghost use Rattle.nl_field.specs.Numbers.{is_legal, shape_for};
ghost use Rattle.nl_field.specs.Spelling.{is_stamp};
ghost use Rattle.nl_nand.specs.Nand.{FaultsCounted, MediumOnlyRead};
ghost use Rattle.nl_vseg.specs.Places.{map_of, place_of, stamp_for};
ghost use Rattle.nl_vseg.specs.Segment.{FitsSegment, IsSegmentOf, SegmentHasUnmapped, SameSize, is_taken_as_erased, wear_of};
ghost use Rattle.nl_vseg.specs.Answers.{ReadsStampInto, ReadsValueInto, TellsStampFound};
ghost use Rattle.nl_vseg.specs.Cleaning.{LosesUntold};
ghost use Rattle.nl_vseg.specs.Tries.{SpendsTriedPage};
ghost use Rattle.nl_vseg.specs.Writes.{StillServes, WritesValueAt, WritesDirectly};

use crate::state::State;
use nl_field::{Memory, PageBuf, Shape, VirtualRead, VirtualWrite};
use nl_nand::Nand;
use std::alloc::Global;
use std::marker::Model;

/// Pages by virtual address, in the first blocks of a medium. A write goes to an erased page, and the address has the old page
/// until the new one is programmed. One block holds no page of the map, so that the segment can always clean.
#[derive(Drop)]
pub struct VSeg {
    state: State,
}

impl Model for VSeg {
    ghost use Rattle.nl_vseg.specs.Segment.{Segment};

    ghost Value = { Segment };

    ghost use Rattle.nl_vseg.specs.Seen.{segment_of, IsVirtualFormed};

    ghost view = { λ s. segment_of s.state };

    ghost invariant = { λ s. IsVirtualFormed s.state };
}

impl VSeg {
    /// No address was written, and every page of the segment is taken as erased.
    pub fn new(alloc: Global, shape: &Shape) -> Result<VSeg, Memory>
        requires legal { IsTrue (is_legal shape.now.blocks shape.now.pages) }
        requires numbers { shape.now ≡ shape_for shape.now.blocks shape.now.pages }
        ensures places { IfOk result (λ s. s.places ≡ replicate shape.now.vaddrs None) }
        ensures pages { IfOk result (λ s. s.pages ≡ shape.now.pages) }
        ensures bound { IfOk result (λ s. s.bound ≡ shape.now.vblocks * shape.now.pages) }
        ensures erased { IfOk result (λ s. (p : ℕ) → p < s.bound → is_taken_as_erased s p ≡ true) }
        ensures within { IfOk result (λ s. (p : ℕ) → is_taken_as_erased s p ≡ true → p < s.bound) }
        ensures wear { IfOk result (λ s. (block : ℕ) → wear_of s block ≡ 0) }
        ensures spare { IfOk result SegmentHasUnmapped }
        ensures room { IfOk result (λ s. s.room + shape.now.pages ≡ shape.now.vblocks * shape.now.pages) }
    {
        Ok(VSeg {
            state: State::new(alloc, shape)?,
        })
    }

    /// Serves an opening: gives an address without a page this one. Nothing more is programmed in its block before that is
    /// erased.
    pub fn load(&mut self, page: u32, vaddr: u32, stamp: u64)
        requires page { page < self.old.bound }
        requires vaddr { vaddr < length self.old.places }
        requires unmapped { place_of self.old.places vaddr ≡ None }
        requires stamp { IsTrue (is_stamp stamp) }
        ensures places { self.new.places ≡ slice_set self.old.places vaddr (Some (record { page = page; stamp = stamp })) }
        ensures numbers { SameSize self.old self.new }
        ensures erased { (p : ℕ) → is_taken_as_erased self.new p ≡ true
            → (is_taken_as_erased self.old p ≡ true) × (p / self.old.pages ≡ page / self.old.pages → ⊥) }
        ensures still { (p : ℕ) → is_taken_as_erased self.old p ≡ true → (p / self.old.pages ≡ page / self.old.pages → ⊥)
            → is_taken_as_erased self.new p ≡ true }
        ensures wear { (block : ℕ) → wear_of self.new block ≡ wear_of self.old block }
    {
        self.state.load(page, vaddr, stamp);
    }

    /// Serves an opening: the pages of this block, which was erased so often, do not all read as erased. Where it holds no
    /// page of the map, it is erased before use.
    pub fn soiled(&mut self, block: u32, wear: u32)
        requires within { block * self.old.pages + self.old.pages ≤ self.old.bound }
        ensures places { self.new.places ≡ self.old.places }
        ensures numbers { SameSize self.old self.new }
        ensures wear { wear_of self.new block ≡ wear }
        ensures others { (other : ℕ) → (other ≡ block → ⊥) → wear_of self.new other ≡ wear_of self.old other }
        ensures erased { (p : ℕ) → is_taken_as_erased self.new p ≡ true → (is_taken_as_erased self.old p ≡ true) × (p / self.old.pages ≡ block → ⊥) }
        ensures still { (p : ℕ) → is_taken_as_erased self.old p ≡ true → (p / self.old.pages ≡ block → ⊥) → is_taken_as_erased self.new p ≡ true }
    {
        self.state.soil(block, wear);
    }

    /// Reads the page of an address. It answers `Unmapped` exactly where the address was never written, and `Lost` only where
    /// the page does not hold the number that the address was written under.
    pub fn virtual_read<M: Nand>(
        &mut self,
        media: &mut M,
        vaddr: u32,
        buf: &mut PageBuf,
    ) -> VirtualRead
        requires fits { FitsSegment (M.geometry media.old) self.old }
        requires vaddr { vaddr < length self.old.places }
        requires segment { M.tells → IsSegmentOf (M.contents media.old) self.old }
        ensures segment { self.new ≡ self.old }
        ensures answer { ReadsStampInto (stamp_for self.old.places vaddr) buf.new result }
        ensures found { TellsStampFound buf.new result }
        ensures value { M.tells → ReadsValueInto (map_of self.old.places (M.contents media.old) vaddr) buf.new result }
        ensures only_reads { MediumOnlyRead M.geometry M.contents M.clock M.write_faults M.left media.old media.new }
        ensures read_faults { FaultsCounted (M.read_faults media.old) (M.read_faults media.new) (result ≡ VirtualRead.Fault) }
    {
        self.state.read(media, vaddr, buf)
    }

    /// Gives an address these main bytes under a write sequence number from 1 and below 2^63. Cleans a block first where no
    /// page can be programmed. After `Fault` and `Lost` the segment has the map that it had. The page whose program failed is not
    /// programmed again before its block is erased.
    pub fn virtual_write<M: Nand>(
        &mut self,
        media: &mut M,
        vaddr: u32,
        from: &PageBuf,
        stamp: u64,
    ) -> VirtualWrite
        requires fits { FitsSegment (M.geometry media.old) self.old }
        requires vaddr { vaddr < length self.old.places }
        requires stamp { IsTrue (is_stamp stamp) }
        requires spare { SegmentHasUnmapped self.old }
        requires segment { M.tells → IsSegmentOf (M.contents media.old) self.old }
        ensures serves { StillServes M.Nand self.old self.new media.new }
        ensures writes { WritesValueAt M.Nand vaddr stamp from.now.main (result ≡ VirtualWrite.Done)
            (result ≡ VirtualWrite.Fault) self.old self.new media.old media.new }
        ensures direct { 0 < self.old.room → result ≡ VirtualWrite.Done
            → WritesDirectly M.Nand vaddr stamp from.now.main self.old self.new media.old media.new }
        ensures spends { 0 < self.old.room → SpendsTriedPage (result ≡ VirtualWrite.Done) self.old self.new }
        ensures lost { LosesUntold M.tells self.old.places result }
    {
        self.state.write(media, vaddr, from, stamp)
    }
}
