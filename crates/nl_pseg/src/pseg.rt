// A physical segment as its users see it.
ghost use Rattle.std.specs.Prelude.{◌≡◌, ◌⊎◌, ℕ, ◌+◌, ◌<◌, ◌≤◌, ◌↔◌, length, slice_set, None, Some, Contains, IsTrue, IfOk, IfSome, IfNone};
ghost use Rattle.std.specs.Bool.{OnTrue, OnFalse};
ghost use Rattle.nl_field.specs.Live.{resolve};
ghost use Rattle.nl_field.specs.Numbers.{is_legal, shape_for};
ghost use Rattle.nl_field.specs.Page.{Image, page_at, written};
ghost use Rattle.nl_field.specs.Spelling.{is_stamp};
ghost use Rattle.nl_nand.specs.Nand.{FaultsCounted, SameCrashStates};
ghost use Rattle.nl_pseg.specs.Answers.{ReadsHeld};
ghost use Rattle.nl_pseg.specs.Cleaning.{without_name};
ghost use Rattle.nl_pseg.specs.Effects.{WriteCounted};
ghost use Rattle.nl_pseg.specs.Opened.{GivesAllBack, IsNewSegment, Soils};
ghost use Rattle.nl_pseg.specs.Seen.{FitsPhysical};
ghost use Rattle.nl_pseg.specs.Segment.{CanLead, CanSpareBlock, IsClean, IsDead, IsLive, IsNewStamp, IsOldName, IsPhysicalOf, NeedsNoErase, KeepsBlock, KeptAreDead, SameBlocksAndPages, held_at, room, without_target};
ghost use Rattle.nl_pseg.specs.Space.{GivesBackBlocks, IsWhole, Lessens, reach, waiting};
ghost use Rattle.nl_pseg.specs.Steps.{LoadsHeldPage};
ghost use Rattle.nl_pseg.specs.Writes.{AddsPage, ReplacesPage, WritesOn};
ghost use Rattle.nl_pseg_pages.specs.Pages.{TellsFound, stamp_at, stamp_found};

use crate::state::State;
use nl_field::{Memory, Named, NamedRead, PageBuf, Pointer, Shape, Tag};
use nl_nand::Nand;
use std::alloc::Global;
use std::marker::Model;

/// Pages of files, in the last blocks of a medium. The segment picks the place of a new page, and the page's number is its name.
/// A name and a write sequence number lead to the page until it is freed or written over. One block is kept for the cleaner.
/// No call but `new` takes memory.
#[derive(Drop)]
pub struct PSeg {
    pub(crate) state: State,
}

impl Model for PSeg {
    ghost use Rattle.nl_pseg.specs.Segment.{Physical};

    ghost Value = { Physical };

    ghost use Rattle.nl_blocks.specs.Table.{IsBlockTable};
    ghost use Rattle.nl_pseg.specs.Kept.{kept};
    ghost use Rattle.nl_pseg.specs.Seen.{seen, IsPhysicalFormed, IsTied};
    ghost use Rattle.nl_pseg.specs.Space.{HasFewPairs};

    ghost view = { λ s. seen (kept s.state) };

    ghost invariant = { λ s. IsPhysicalFormed (kept s.state) × IsTied (kept s.state) × HasFewPairs (seen (kept s.state)) × IsBlockTable s.state.blocks };
}

impl PSeg {
    /// Every block is Free, no page is live, there is no pair, and every page is taken as erased.
    pub fn new(alloc: Global, shape: &Shape) -> Result<PSeg, Memory>
        requires legal { IsTrue (is_legal shape.now.blocks shape.now.pages) }
        requires numbers { shape.now ≡ shape_for shape.now.blocks shape.now.pages }
        ensures { IfOk result (IsNewSegment shape.now) }
    {
        let state = State::new(alloc, shape)?;
        state.table();
        state.whole();
        Ok(PSeg { state })
    }

    /// Serves an opening, while no victim is in hand: this page holds what the pointer and the owner say. Nothing more is programmed
    /// in its block before that is erased. Where the pointer's name is another page, that name leads to this page, and nothing more is
    /// programmed in the block of the name either while it stands there: where that block was Free, it waits.
    pub fn load(&mut self, page: u32, at: Pointer, tag: Tag)
        requires none { self.old.victim ≡ None }
        requires dead { IsDead self.old page }
        requires stamp { IsTrue (is_stamp at.stamp) }
        requires new_stamp { IsNewStamp self.old at.stamp }
        requires away { (at.name ≡ page → ⊥) → CanLead self.old at.name }
        ensures whole { IsWhole self.new }
        ensures loads { LoadsHeldPage page at tag self.old self.new }
        ensures victim { self.new.victim ≡ None }
        ensures kept { (1 ≤ self.new.free + waiting self.new) → KeepsBlock self.new }
        ensures spare { (image : Image) → 1 ≤ self.new.free + waiting self.new → CanSpareBlock image self.new }
    {
        self.state.load_as(page, at, tag);
        self.state.table();
        self.state.whole();
    }

    /// Serves an opening: the pages of this block, which was erased so often, do not all read as erased. Where no page of it is
    /// live, it is erased before use.
    pub fn soiled(&mut self, block: u32, wear: u32)
        requires none { self.old.victim ≡ None }
        requires from { self.old.first ≤ block }
        requires below { block < self.old.blocks }
        ensures whole { IsWhole self.new }
        ensures soils { Soils block wear self.old self.new }
        ensures victim { self.new.victim ≡ None }
        ensures kept { KeepsBlock self.old → KeepsBlock self.new }
        ensures spare { (image : Image) → CanSpareBlock image self.old → CanSpareBlock image self.new }
    {
        self.state.soil(block, wear);
        self.state.table();
        self.state.whole();
    }

    /// Serves an opening, while no page is live: every block is Free. One that was in use is erased before use. Where every
    /// block was Free, nothing changes.
    pub fn give_back(&mut self)
        requires none { (page : ℕ) → held_at self.old page ≡ None }
        requires no_victim { self.old.victim ≡ None }
        ensures whole { IsWhole self.new }
        ensures given { GivesAllBack self.old self.new }
        ensures victim { self.new.victim ≡ None }
        ensures kept { 1 ≤ self.new.free → KeepsBlock self.new }
        ensures spare { (image : Image) → CanSpareBlock image self.new }
    {
        self.state.give_back_all();
        self.state.table();
        self.state.whole();
    }

    /// The page to which the name leads: the target of the pair of that old name, else the name itself.
    pub fn resolve(&self, name: u32) -> u32
        ensures { result ≡ resolve self.now.pairs name }
    {
        self.state.resolve(name)
    }

    /// An old name of the page: one that leads to it. None exactly where no pair leads to it.
    pub fn name_of(&self, target: u32) -> Option<u32>
        ensures some { IfSome result (λ name. Contains self.now.pairs (name, target)) }
        ensures none { IfNone result ((name : ℕ) → Contains self.now.pairs (name, target) → ⊥) }
    {
        self.state.name_of(target)
    }

    /// The name is an old name no longer. False exactly where it was none. A block that waited for it alone is Free.
    pub fn drop_name(&mut self, name: u32) -> bool
        ensures whole { IsWhole self.new }
        ensures found { IsTrue result ↔ IsOldName self.old name }
        ensures pairs { OnTrue result (self.new.pairs ≡ without_name name self.old.pairs) }
        ensures room { OnTrue result (self.new.pair_room ≡ self.old.pair_room + 1) }
        ensures kept { OnFalse result (self.new ≡ self.old) }
        ensures live { self.new.held ≡ self.old.held }
        ensures pages { SameBlocksAndPages self.old self.new }
        ensures space { Lessens 0 self.old self.new }
        ensures reach { reach self.new ≡ reach self.old }
        ensures back { GivesBackBlocks self.old self.new }
        ensures segment { (image : Image) → IsPhysicalOf image self.old → IsPhysicalOf image self.new }
        ensures spare { (image : Image) → CanSpareBlock image self.old → CanSpareBlock image self.new }
        ensures clean { IsClean self.old → IsClean self.new }
        ensures kept_block { KeepsBlock self.old → KeepsBlock self.new }
    {
        let dropped = self.state.drop_name(name);
        self.state.table();
        self.state.whole();
        dropped
    }

    /// Whether the pointer leads to a live page of its write sequence number.
    pub fn is_live(&self, at: Pointer) -> bool
        ensures { IsTrue result ↔ IsLive self.now at }
    {
        self.state.place_of(at).is_some()
    }

    /// The number of Free blocks.
    pub fn free_blocks(&self) -> u32
        ensures { result ≡ self.now.free }
    {
        self.state.free_blocks()
    }

    /// The number of pairs.
    pub fn pairs(&self) -> u32
        ensures { result ≡ length self.now.pairs }
    {
        self.state.pairs()
    }

    /// The page to which the pointer leads is dead, and every pair to it is gone. False exactly where it leads to no live page of
    /// its write sequence number, and then nothing changes.
    pub fn free(&mut self, at: Pointer) -> bool
        ensures found { IsTrue result ↔ IsLive self.old at }
        ensures freed { OnTrue result (self.new.held ≡ slice_set self.old.held (resolve self.old.pairs at.name) None) }
        ensures pairs { OnTrue result (self.new.pairs ≡ without_target (resolve self.old.pairs at.name) self.old.pairs) }
        ensures pages { SameBlocksAndPages self.old self.new }
        ensures whole { IsWhole self.new }
        ensures space { Lessens 1 self.old self.new }
        ensures back { GivesBackBlocks self.old self.new }
        ensures segment { (image : Image) → IsPhysicalOf image self.old → IsPhysicalOf image self.new }
        ensures spare { (image : Image) → CanSpareBlock image self.old → CanSpareBlock image self.new }
        ensures kept { OnFalse result (self.new ≡ self.old) }
        ensures clean { IsClean self.old → IsClean self.new }
        ensures kept_block { KeepsBlock self.old → KeepsBlock self.new }
        ensures kept_dead { KeptAreDead self.new }
    {
        let freed = self.state.free(at);
        self.state.table();
        self.state.whole();
        freed
    }

    /// Reads the page to which the pointer leads, for an owner. It answers `NotLive` exactly where the pointer leads to no live
    /// page of its write sequence number. It answers `Lost` only where the page read is not that of the owner and the number, or
    /// the live page has another owner: found is then another number, 0 where the page has none.
    pub fn physical_read<M: Nand>(
        &mut self,
        media: &mut M,
        at: Pointer,
        tag: Tag,
        buf: &mut PageBuf,
    ) -> NamedRead
        requires fits { FitsPhysical (M.geometry media.old) self.old }
        requires segment { M.tells → IsPhysicalOf (M.contents media.old) self.old }
        ensures segment { self.new ≡ self.old }
        ensures answer { ReadsHeld (held_at self.old (resolve self.old.pairs at.name)) tag at.stamp buf.new result }
        ensures value { M.tells → result ≡ NamedRead.Done
            → page_at (M.contents media.old) (resolve self.old.pairs at.name) ≡ written buf.new }
        ensures found { TellsFound (stamp_found buf.new) result }
        ensures told { M.tells → TellsFound (stamp_at (page_at (M.contents media.old) (resolve self.old.pairs at.name))) result }
        ensures kept { M.tells → held_at self.old (resolve self.old.pairs at.name) ≡ Some (record { tag = tag; stamp = at.stamp })
            → (result ≡ NamedRead.Done) ⊎ (result ≡ NamedRead.Fault) }
        ensures geometry { M.geometry media.new ≡ M.geometry media.old }
        ensures contents { M.contents media.new ≡ M.contents media.old }
        ensures left { SameCrashStates M.left media.old media.new }
        ensures clock { M.clock media.new ≡ M.clock media.old }
        ensures write_faults { M.write_faults media.new ≡ M.write_faults media.old }
        ensures read_faults { FaultsCounted (M.read_faults media.old) (M.read_faults media.new) (result ≡ NamedRead.Fault) }
    {
        self.state.read(media, at, tag, buf)
    }

    /// Programs a page for an owner under a write sequence number from 1 and below 2^63, and names it. It answers `NoPage`
    /// exactly where neither the block that is written to nor a Free block beyond the one kept for the cleaner has room, and
    /// `Fault` only where the medium failed; the page whose program failed is not given out again before its block is erased.
    pub fn nameless_write<M: Nand>(
        &mut self,
        media: &mut M,
        tag: Tag,
        from: &PageBuf,
        stamp: u64,
    ) -> Named
        requires fits { FitsPhysical (M.geometry media.old) self.old }
        requires stamp { IsTrue (is_stamp stamp) }
        requires segment { M.tells → IsPhysicalOf (M.contents media.old) self.old }
        ensures live { result ≡ Named.NotLive → ⊥ }
        ensures full { result ≡ Named.NoPage ↔ room self.old ≡ 0 }
        ensures refused { result ≡ Named.NoPage → (self.new ≡ self.old) × (media.new ≡ media.old) }
        ensures adds { AddsPage tag stamp result self.old self.new }
        ensures whole { IsWhole self.new }
        ensures medium { M.tells → WritesOn M.clock M.contents M.left tag stamp from.now.main result self.old self.new media.old media.new }
        ensures spare { M.tells → CanSpareBlock (M.contents media.old) self.old → CanSpareBlock (M.contents media.new) self.new }
        ensures geometry { M.geometry media.new ≡ M.geometry media.old }
        ensures counts { WriteCounted M.clock M.read_faults M.write_faults (NeedsNoErase self.old) media.old media.new result }
    {
        let named = self.state.write(media, tag, from, stamp);
        self.state.table();
        self.state.whole();
        named
    }

    /// Writes a page in place of the one to which a pointer leads: that is dead once the new one is placed, and only then.
    /// `NotLive` is answered exactly where the pointer leads to no live page of its write sequence number, and that before
    /// `NoPage`.
    pub fn nameless_overwrite<M: Nand>(
        &mut self,
        media: &mut M,
        old: Pointer,
        tag: Tag,
        from: &PageBuf,
        stamp: u64,
    ) -> Named
        requires fits { FitsPhysical (M.geometry media.old) self.old }
        requires stamp { IsTrue (is_stamp stamp) }
        requires segment { M.tells → IsPhysicalOf (M.contents media.old) self.old }
        ensures live { result ≡ Named.NotLive ↔ (IsLive self.old old → ⊥) }
        ensures full { result ≡ Named.NoPage ↔ (IsLive self.old old × (room self.old ≡ 0)) }
        ensures refused { (result ≡ Named.NotLive) ⊎ (result ≡ Named.NoPage) → (self.new ≡ self.old) × (media.new ≡ media.old) }
        ensures replaces { ReplacesPage (resolve self.old.pairs old.name) tag stamp result self.old self.new }
        ensures whole { IsWhole self.new }
        ensures medium { M.tells → WritesOn M.clock M.contents M.left tag stamp from.now.main result self.old self.new media.old media.new }
        ensures spare { M.tells → CanSpareBlock (M.contents media.old) self.old → CanSpareBlock (M.contents media.new) self.new }
        ensures geometry { M.geometry media.new ≡ M.geometry media.old }
        ensures counts { WriteCounted M.clock M.read_faults M.write_faults (NeedsNoErase self.old) media.old media.new result }
    {
        let named = self.state.overwrite(media, old, tag, from, stamp);
        self.state.table();
        self.state.whole();
        named
    }
}
