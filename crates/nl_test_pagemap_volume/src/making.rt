// A volume in a memory, and the lines of scripts on it.
ghost use Rattle.std.specs.Prelude.{◌≡◌, ◌≤◌, ◌<◌, IfOk};
ghost use Rattle.nl_field.specs.CrashStates.{top};
ghost use Rattle.nl_field.specs.Numbers.{ShapeBounds, shape_for};
ghost use Rattle.nl_nand.specs.Memory.{contents_of, geometry_of, write_faults_of};
ghost use Rattle.nl_nand.specs.Nand.{IsBlank};
ghost use Rattle.nl_pagemap_volume.specs.Volume.{Stands};
ghost use Rattle.nl_tree.specs.Calls.{IsLine};

use nl_field::{FailList, Memory, Shape, shape_of};
use nl_iface::Counts;
use nl_nand::{FormAnswer, MemNand, Nand};
use nl_pagemap::Pagemap;
use nl_pagemap_volume::MapVolume;
use nl_tree::{Line, Reply, ReplyBuf};
use std::alloc::Global;

/// A blank medium of 32 blocks of 32 pages, whose program or erase of this number fails, where it is not zero.
fn blank(alloc: Global, fails: u64) -> Result<MemNand, Memory>
    ensures numbers { IfOk result (λ m. geometry_of m ≡ record { blocks = 32; pages = 32 }) }
    ensures erased { IfOk result (λ m. IsBlank (contents_of m)) }
    ensures faults { IfOk result (λ m. write_faults_of m < top) }
{
    let mut writes = FailList::new(alloc);
    if 0 < fails {
        writes.push(fails)?;
    }
    let mut media = MemNand::new(alloc, FailList::new(alloc), writes, None);
    match media.form(32, 32) {
        FormAnswer::Done => Ok(media),
        FormAnswer::Failed | FormAnswer::Memory => Err(Memory),
    }
}

/// The numbers of the least volume.
fn least() -> Result<Shape, Memory>
    ensures numbers { IfOk result (λ shape. shape ≡ shape_for 32 32) }
    ensures bounds { IfOk result ShapeBounds }
{
    match shape_of(32, 32) {
        Some(shape) => Ok(shape),
        None => Err(Memory),
    }
}

/// A new volume, whose program or erase of this number fails, where it is not zero.
pub fn made(alloc: Global, fails: u64) -> Result<MapVolume<MemNand>, Memory>
    ensures { IfOk result (Stands ⟦<Pagemap<MemNand> as Counts>⟧) }
{
    let media = blank(alloc, fails)?;
    let shape = least()?;
    match MapVolume::make(alloc, media, shape) {
        Ok(volume) => Ok(volume),
        Err(media) => {
            drop(media);
            Err(Memory)
        }
    }
}

/// The reply to the call of a line.
pub fn step<M: Nand>(volume: &mut MapVolume<M>, line: &Line, out: &mut ReplyBuf) -> Reply
    requires stands { Stands ⟦<Pagemap<M> as Counts>⟧ volume.old }
    requires line { IsLine line.now }
    ensures stands { Stands ⟦<Pagemap<M> as Counts>⟧ volume.new }
{
    volume.step(line.worker, &line.call, out)
}
