// Looks up what a segment keeps: where a pointer leads, and what is live on a page.
ghost use Rattle.std.specs.Prelude.{◌≡◌, ◌↔◌, ◌<◌, ℕ, slice_set, slice_index_or, None, IsSome, IfSome, IsTrue};
ghost use Rattle.std.specs.Bool.{OnTrue, OnFalse};
ghost use Rattle.nl_field.specs.Live.{resolve};
ghost use Rattle.nl_blocks.specs.Table.{IsBlockTable, free_count};
ghost use Rattle.nl_remap.specs.Links.{HasLink};
ghost use Rattle.nl_remap.specs.Table.{pair};
ghost use Rattle.nl_pseg.specs.Kept.{kept};
ghost use Rattle.nl_pseg.specs.Segment.{InSegment, IsLive, IsUnspent, SameNames, SameBlocksAndPages, held_at};
ghost use Rattle.nl_pseg.specs.Seen.{seen, IsPhysicalFormed, IsTied};
ghost use Rattle.nl_pseg.specs.Space.{HasFewPairs, IsWhole};
ghost use Rattle.nl_pseg.specs.Steps.{EndsPage};

use crate::held::Held;
use crate::state::State;
use nl_field::Pointer;
use nl_pseg_blocks::mark;

impl State {
    /// What holds of each table of blocks.
    pub fn table(&self)
        ensures { IsBlockTable self.now.blocks }
    {
        let _ = self.blocks.count();
    }

    /// What holds of each segment.
    pub fn whole(&self)
        requires formed { IsPhysicalFormed (kept self.now) }
        requires tied { IsTied (kept self.now) }
        requires few { HasFewPairs (seen (kept self.now)) }
        ensures table { IsBlockTable self.now.blocks }
        ensures few { HasFewPairs (seen (kept self.now)) }
        ensures whole { IsWhole (seen (kept self.now)) }
    {
        let _ = self.blocks.count();
    }

    /// How many blocks are Free.
    pub fn free_blocks(&self) -> u32
        ensures { result ≡ free_count self.now.blocks }
    {
        self.blocks.free()
    }

    /// What is live on a page.
    pub fn live_on(&self, page: u32) -> Option<Held>
        ensures { result ≡ slice_index_or self.now.held.items page None }
    {
        if page as usize >= self.held.len() {
            return None;
        }
        self.held[page as usize]
    }

    /// The page to which the pointer leads, where it is live under the pointer's number.
    pub fn place_of(&self, at: Pointer) -> Option<u32>
        requires { IsPhysicalFormed (kept self.now) }
        ensures some { IfSome result (λ place. place ≡ resolve (seen (kept self.now)).pairs at.name) }
        ensures within { IfSome result (λ place. InSegment (seen (kept self.now)) place) }
        ensures held { IfSome result (λ place. IsSome (held_at (seen (kept self.now)) place)) }
        ensures live { IsSome result ↔ IsLive (seen (kept self.now)) at }
    {
        let place = self.resolve(at.name);
        match self.live_on(place) {
            None => None,
            Some(held) => {
                if held.stamp == at.stamp {
                    Some(place)
                } else {
                    None
                }
            }
        }
    }

    /// A live page is dead. No pair leads to it.
    pub fn end(&mut self, page: u32)
        requires formed { IsPhysicalFormed (kept self.old) }
        requires tied { IsTied (kept self.old) }
        requires alone { (name : ℕ) → HasLink self.old.names.pairs (pair name page) → ⊥ }
        requires within { InSegment (seen (kept self.old)) page }
        requires live { IsSome (held_at (seen (kept self.old)) page) }
        ensures formed { IsPhysicalFormed (kept self.new) }
        ensures tied { IsTied (kept self.new) }
        ensures held { self.new.held.items ≡ slice_set self.old.held.items page None }
        ensures pages { SameBlocksAndPages (seen (kept self.old)) (seen (kept self.new)) }
        ensures space { IsUnspent (seen (kept self.old)) (seen (kept self.new)) }
        ensures names { self.new.names ≡ self.old.names }
        ensures same { SameNames (seen (kept self.old)) (seen (kept self.new)) }
    {
        mark(&mut self.blocks, page, false);
        self.held[page as usize] = None;
    }

    /// The page to which the pointer leads is dead. False exactly where it leads to no live page of its number.
    pub fn free(&mut self, at: Pointer) -> bool
        requires formed { IsPhysicalFormed (kept self.old) }
        requires tied { IsTied (kept self.old) }
        ensures formed { IsPhysicalFormed (kept self.new) }
        ensures tied { IsTied (kept self.new) }
        ensures found { IsTrue result ↔ IsLive (seen (kept self.old)) at }
        ensures ended { OnTrue result (EndsPage (resolve (seen (kept self.old)).pairs at.name) (seen (kept self.old)) (seen (kept self.new))) }
        ensures kept { OnFalse result (seen (kept self.new) ≡ seen (kept self.old)) }
    {
        let Some(place) = self.place_of(at) else {
            return false;
        };
        self.end_all(place);
        true
    }

    /// A live page is dead, and no pair leads to it any more.
    pub fn end_all(&mut self, page: u32)
        requires formed { IsPhysicalFormed (kept self.old) }
        requires tied { IsTied (kept self.old) }
        requires within { InSegment (seen (kept self.old)) page }
        requires live { IsSome (held_at (seen (kept self.old)) page) }
        ensures formed { IsPhysicalFormed (kept self.new) }
        ensures tied { IsTied (kept self.new) }
        ensures ended { EndsPage page (seen (kept self.old)) (seen (kept self.new)) }
    {
        self.drop_names(page);
        self.end(page);
    }
}
