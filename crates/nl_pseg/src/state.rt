// The state of a physical segment.
ghost use Rattle.std.specs.Prelude.{◌≡◌, ◌<◌, IfOk, IfSome, IsTrue};
ghost use Rattle.nl_field.specs.Numbers.{is_legal, shape_for};
ghost use Rattle.nl_field.specs.Spelling.{is_stamp};
ghost use Rattle.nl_blocks.specs.Table.{block_at};
ghost use Rattle.nl_pseg.specs.Kept.{kept};
ghost use Rattle.nl_pseg.specs.Seen.{new_segment, seen, IsPhysicalFormed, IsTied};
ghost use Rattle.nl_pseg.specs.Steps.{UsesNextPage};

use crate::held::{Held, no_marks, no_pages};
use nl_blocks::{BlockState, Blocks};
use nl_field::{Memory, PageBuf, Shape};
use nl_pseg_blocks::{mark, seal_full};
use nl_pseg_names::OldNames;
use std::alloc::Global;

/// What a segment keeps.
#[derive(Drop)]
pub struct State {
    /// What each page of the medium holds that is live.
    pub held: Vec<Option<Held>>,
    pub blocks: Blocks,
    /// How often a block was erased that was told to be soiled, and not erased since.
    pub soiled: Vec<Option<u32>>,
    /// The block that is written to, where it is Active. The pages that are marked in it are used.
    pub active: u32,
    /// The block that copies are written to, where it is a Target. The pages that are marked in it are used.
    pub target: u32,
    /// The block whose live pages are moved away.
    pub victim: Option<u32>,
    /// The place in the victim where its last live page was found: the search for the next one begins there.
    pub looked: u32,
    pub names: OldNames,
    pub buf: PageBuf,
}

impl State {
    /// A segment with no live page and no old name. An error where memory is refused.
    pub fn new(alloc: Global, shape: &Shape) -> Result<State, Memory>
        requires legal { IsTrue (is_legal shape.now.blocks shape.now.pages) }
        requires numbers { shape.now ≡ shape_for shape.now.blocks shape.now.pages }
        ensures formed { IfOk result (λ s. IsPhysicalFormed (kept s)) }
        ensures tied { IfOk result (λ s. IsTied (kept s)) }
        ensures seen { IfOk result (λ s. seen (kept s) ≡ new_segment shape.now) }
    {
        Ok(State {
            held: no_pages(alloc, shape.blocks * shape.pages)?,
            soiled: no_marks(alloc, shape.blocks)?,
            buf: PageBuf::new(alloc)?,
            blocks: Blocks::new(alloc, shape.vblocks, shape.pblocks, shape.pages)?,
            names: OldNames::new(alloc, 4 * shape.pages, shape.pages, shape.blocks)?,
            active: shape.vblocks,
            target: shape.vblocks,
            victim: None,
            looked: 0,
        })
    }

    /// Uses the next page of the block that is written to: it holds this. A block that is full is Sealed.
    pub fn use_next(&mut self, page: u32, held: Option<Held>)
        requires formed { IsPhysicalFormed (kept self.old) }
        requires tied { IsTied (kept self.old) }
        requires room { (kept self.old).used < self.old.blocks.size }
        requires next { page ≡ (seen (kept self.old)).next }
        requires spelled { IfSome held (λ h. IsTrue (is_stamp h.stamp)) }
        ensures formed { IsPhysicalFormed (kept self.new) }
        ensures tied { IsTied (kept self.new) }
        ensures used { UsesNextPage held (seen (kept self.old)) (seen (kept self.new)) }
        ensures sealed { (kept self.new).used ≡ self.new.blocks.size
            → (block_at self.new.blocks self.old.active).state ≡ BlockState.Sealed }
    {
        mark(&mut self.blocks, page, held.is_some());
        self.held[page as usize] = held;
        seal_full(&mut self.blocks, self.active);
    }
}
