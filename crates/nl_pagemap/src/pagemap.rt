// The device, and what it is seen as.
ghost use Rattle.std.specs.Prelude.{◌≡◌, ◌+◌};
ghost use Rattle.nl_field.specs.CrashStates.{saturated};

use nl_field::{PageBuf, Shape};
use nl_nand::Nand;
use nl_pagemap_names::{Numbers, Untried};
use nl_vseg::VSeg;

/// A flash medium with its two segments: pages by virtual address in the first blocks, and pages under numbers in the last. Of each block
/// these are programmed one after the other. What the table says is lost with the memory: nothing is promised of what a stop leaves.
#[derive(Drop)]
pub struct Pagemap<M: Nand> {
    pub(crate) media: M,
    pub(crate) shape: Shape,
    pub(crate) vseg: VSeg,
    pub(crate) table: Numbers,
    /// By block of the physical segment, how many of its pages were not tried since it was erased last.
    pub(crate) untried: Untried,
    /// How many pages can be programmed under numbers: those that were not tried, but one block's.
    pub(crate) room: u32,
    /// The blocks that they fill, and that one.
    pub(crate) free: u32,
    /// How many numbers are in use.
    pub(crate) count: u32,
    /// The stamp of the next page.
    pub(crate) next: u64,
    /// How many erases of the block of numbers that stays unused were refused.
    pub(crate) refused: u64,
    /// The page that a write programs.
    pub(crate) buf: PageBuf,
}

impl<M: Nand> Pagemap<M> {
    /// How many programs and erases failed or were refused.
    pub(crate) fn failures(&self) -> u64
        ensures { result ≡ saturated (M.write_faults self.now.media + self.now.refused) }
    {
        self.media.write_faults().saturating_add(self.refused)
    }
}
