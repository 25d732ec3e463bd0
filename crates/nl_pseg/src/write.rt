// Writes pages whose place the segment picks, also in place of a live page.
ghost use Rattle.std.specs.Prelude.{◌≡◌, ◌⊎◌, ◌<◌, ◌↔◌, slice_set, Some, IsTrue};
ghost use Rattle.nl_field.specs.Live.{resolve};
ghost use Rattle.nl_field.specs.Spelling.{is_stamp};
ghost use Rattle.nl_pseg.specs.Answers.{IfPlaced, ReachedMedium};
ghost use Rattle.nl_pseg.specs.Effects.{WriteCounted};
ghost use Rattle.nl_pseg.specs.Kept.{kept};
ghost use Rattle.nl_pseg.specs.Seen.{seen, FitsPhysical, IsPhysicalFormed, IsTied};
ghost use Rattle.nl_pseg.specs.Segment.{IsLive, IsPhysicalOf, NeedsNoErase, room};
ghost use Rattle.nl_pseg.specs.Steps.{Placing, WritesOver};
ghost use Rattle.nl_pseg.specs.Writes.{ProgramsOn, WritesOn};

use crate::held::Held;
use crate::state::State;
use nl_field::{Named, PageBuf, Pointer, Tag};
use nl_nand::{Nand, WriteAnswer};
use nl_pseg_blocks::next_page;
use nl_pseg_pages::program_page;

impl State {
    /// Programs the next page of the block that is written to.
    fn put<M: Nand>(&mut self, media: &mut M, tag: Tag, from: &PageBuf, stamp: u64) -> Named
        requires formed { IsPhysicalFormed (kept self.old) }
        requires tied { IsTied (kept self.old) }
        requires fits { FitsPhysical (M.geometry media.old) (seen (kept self.old)) }
        requires stamp { IsTrue (is_stamp stamp) }
        requires room { (kept self.old).used < self.old.blocks.size }
        requires segment { M.tells → IsPhysicalOf (M.contents media.old) (seen (kept self.old)) }
        ensures formed { IsPhysicalFormed (kept self.new) }
        ensures tied { IsTied (kept self.new) }
        ensures tried { ReachedMedium result }
        ensures placing { Placing stamp
            (λ at. slice_set self.old.held.items at.name (Some (record { tag = tag; stamp = stamp }))) result (seen (kept self.old))
            (seen (kept self.new)) }
        ensures next { IfPlaced result (λ at. at.name ≡ (seen (kept self.old)).next) }
        ensures medium { M.tells → ProgramsOn M.clock M.contents M.left tag stamp from.now.main result (seen (kept self.old))
            (seen (kept self.new)) media.old media.new }
        ensures geometry { M.geometry media.new ≡ M.geometry media.old }
        ensures counts { WriteCounted M.clock M.read_faults M.write_faults (NeedsNoErase (seen (kept self.old))) media.old media.new result }
    {
        let Some(page) = next_page(&self.blocks, self.active) else {
            unreachable!();
        };
        let wear = self.blocks.wear(self.active);
        self.buf.copy_from(from);
        match program_page(media, page, &mut self.buf, tag, stamp, wear) {
            WriteAnswer::Failed => {
                self.use_next(page, None);
                Named::Fault
            }
            WriteAnswer::Done => {
                self.use_next(page, Some(Held { tag, stamp }));
                Named::Placed(Pointer { name: page, stamp })
            }
        }
    }

    /// Programs a page for a new name, where there is room.
    fn place<M: Nand>(&mut self, media: &mut M, tag: Tag, from: &PageBuf, stamp: u64) -> Named
        requires formed { IsPhysicalFormed (kept self.old) }
        requires tied { IsTied (kept self.old) }
        requires fits { FitsPhysical (M.geometry media.old) (seen (kept self.old)) }
        requires stamp { IsTrue (is_stamp stamp) }
        requires room { 0 < room (seen (kept self.old)) }
        requires segment { M.tells → IsPhysicalOf (M.contents media.old) (seen (kept self.old)) }
        ensures formed { IsPhysicalFormed (kept self.new) }
        ensures tied { IsTied (kept self.new) }
        ensures tried { ReachedMedium result }
        ensures placing { Placing stamp
            (λ at. slice_set self.old.held.items at.name (Some (record { tag = tag; stamp = stamp }))) result (seen (kept self.old))
            (seen (kept self.new)) }
        ensures medium { M.tells → WritesOn M.clock M.contents M.left tag stamp from.now.main result (seen (kept self.old))
            (seen (kept self.new)) media.old media.new }
        ensures geometry { M.geometry media.new ≡ M.geometry media.old }
        ensures counts { WriteCounted M.clock M.read_faults M.write_faults (NeedsNoErase (seen (kept self.old))) media.old media.new result }
    {
        match self.start(media) {
            WriteAnswer::Failed => Named::Fault,
            WriteAnswer::Done => self.put(media, tag, from, stamp),
        }
    }

    /// Writes a page of this owner, under this write sequence number, to a page that the segment picks.
    pub fn write<M: Nand>(&mut self, media: &mut M, tag: Tag, from: &PageBuf, stamp: u64) -> Named
        requires formed { IsPhysicalFormed (kept self.old) }
        requires tied { IsTied (kept self.old) }
        requires fits { FitsPhysical (M.geometry media.old) (seen (kept self.old)) }
        requires stamp { IsTrue (is_stamp stamp) }
        requires segment { M.tells → IsPhysicalOf (M.contents media.old) (seen (kept self.old)) }
        ensures formed { IsPhysicalFormed (kept self.new) }
        ensures tied { IsTied (kept self.new) }
        ensures live { result ≡ Named.NotLive → ⊥ }
        ensures full { result ≡ Named.NoPage ↔ room (seen (kept self.old)) ≡ 0 }
        ensures refused { result ≡ Named.NoPage → (seen (kept self.new) ≡ seen (kept self.old)) × (media.new ≡ media.old) }
        ensures placing { Placing stamp
            (λ at. slice_set self.old.held.items at.name (Some (record { tag = tag; stamp = stamp }))) result (seen (kept self.old))
            (seen (kept self.new)) }
        ensures medium { M.tells → WritesOn M.clock M.contents M.left tag stamp from.now.main result (seen (kept self.old))
            (seen (kept self.new)) media.old media.new }
        ensures geometry { M.geometry media.new ≡ M.geometry media.old }
        ensures counts { WriteCounted M.clock M.read_faults M.write_faults (NeedsNoErase (seen (kept self.old))) media.old media.new result }
    {
        if !self.has_room() {
            return Named::NoPage;
        }
        self.place(media, tag, from, stamp)
    }

    /// Writes a page in place of the one to which a pointer leads, which is dead once the new one is placed, and only then.
    pub fn overwrite<M: Nand>(
        &mut self,
        media: &mut M,
        old: Pointer,
        tag: Tag,
        from: &PageBuf,
        stamp: u64,
    ) -> Named
        requires formed { IsPhysicalFormed (kept self.old) }
        requires tied { IsTied (kept self.old) }
        requires fits { FitsPhysical (M.geometry media.old) (seen (kept self.old)) }
        requires stamp { IsTrue (is_stamp stamp) }
        requires segment { M.tells → IsPhysicalOf (M.contents media.old) (seen (kept self.old)) }
        ensures formed { IsPhysicalFormed (kept self.new) }
        ensures tied { IsTied (kept self.new) }
        ensures live { result ≡ Named.NotLive ↔ (IsLive (seen (kept self.old)) old → ⊥) }
        ensures full { result ≡ Named.NoPage ↔ (IsLive (seen (kept self.old)) old × (room (seen (kept self.old)) ≡ 0)) }
        ensures refused { (result ≡ Named.NotLive) ⊎ (result ≡ Named.NoPage)
            → (seen (kept self.new) ≡ seen (kept self.old)) × (media.new ≡ media.old) }
        ensures over { WritesOver (resolve (seen (kept self.old)).pairs old.name) stamp
            (λ at. slice_set self.old.held.items at.name (Some (record { tag = tag; stamp = stamp }))) result (seen (kept self.old))
            (seen (kept self.new)) }
        ensures medium { M.tells → WritesOn M.clock M.contents M.left tag stamp from.now.main result (seen (kept self.old))
            (seen (kept self.new)) media.old media.new }
        ensures geometry { M.geometry media.new ≡ M.geometry media.old }
        ensures counts { WriteCounted M.clock M.read_faults M.write_faults (NeedsNoErase (seen (kept self.old))) media.old media.new result }
    {
        let Some(place) = self.place_of(old) else {
            return Named::NotLive;
        };
        if !self.has_room() {
            return Named::NoPage;
        }
        match self.place(media, tag, from, stamp) {
            Named::Placed(at) => {
                self.end_all(place);
                Named::Placed(at)
            }
            Named::Fault => Named::Fault,
            Named::NotLive | Named::NoPage => unreachable!(),
        }
    }
}
