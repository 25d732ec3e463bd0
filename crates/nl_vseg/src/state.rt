// The state of a virtual segment.
ghost use Rattle.std.specs.Prelude.{◌≡◌, ◌<◌, IfOk, IsTrue, length, replicate, false, None};
ghost use Rattle.nl_field.specs.Numbers.{is_legal, shape_for};
ghost use Rattle.nl_blocks.specs.Table.{new_table};
ghost use Rattle.nl_vseg.specs.Layout.{IsLayout};
ghost use Rattle.nl_vseg.specs.Seen.{seen, IsVirtualFormed};

use crate::place::{Place, no_places};
use nl_blocks::Blocks;
use nl_field::{Memory, PageBuf, Shape};
use std::alloc::Global;

/// What a segment keeps. `copies` is the map that a cleaning makes, until it takes the place of `places`.
#[derive(Drop)]
pub struct State {
    pub places: Vec<Option<Place>>,
    pub copies: Vec<Option<Place>>,
    pub blocks: Blocks,
    /// Where a cleaning has copied each page of its victim to.
    pub targets: Vec<Option<u32>>,
    /// Blocks that are erased before use where they are Free.
    pub soiled: Vec<bool>,
    /// The block that is written to, where the table has it as Active or as Target. Its marked pages are used.
    pub active: u32,
    pub buf: PageBuf,
}

fn no_marks(alloc: Global, count: usize) -> Result<Vec<bool>, Memory>
    ensures { IfOk result (λ v. v.items ≡ replicate count false) }
{
    Ok(vec![in alloc; false; count]?)
}

fn no_targets(alloc: Global, count: usize) -> Result<Vec<Option<u32>>, Memory>
    ensures { IfOk result (λ v. v.items ≡ replicate count None) }
{
    Ok(vec![in alloc; None; count]?)
}

impl State {
    /// A segment no address of which was written. An error where memory is refused.
    pub fn new(alloc: Global, shape: &Shape) -> Result<State, Memory>
        requires legal { IsTrue (is_legal shape.now.blocks shape.now.pages) }
        requires numbers { shape.now ≡ shape_for shape.now.blocks shape.now.pages }
        ensures formed { IfOk result IsVirtualFormed }
        ensures seen { IfOk result (λ s. seen s ≡ record {
          places = replicate shape.now.vaddrs None;
          table = new_table 0 shape.now.vblocks shape.now.pages;
          soiled = replicate shape.now.vblocks false;
          active = 0;
          used = shape.now.pages;
        }) }
    {
        Ok(State {
            places: no_places(alloc, shape.vaddrs)?,
            copies: no_places(alloc, shape.vaddrs)?,
            targets: no_targets(alloc, shape.pages as usize)?,
            blocks: Blocks::new(alloc, 0, shape.vblocks, shape.pages)?,
            soiled: no_marks(alloc, shape.vblocks as usize)?,
            active: 0,
            buf: PageBuf::new(alloc)?,
        })
    }
}
