// The making of a device over a medium that holds nothing.
ghost use Rattle.std.specs.Prelude.{◌≡◌, ◌+◌, ◌-◌, ◌*◌, ◌^◌, ◌<◌, ℕ, false, length, replicate, true, IfErr, IfOk, IsTrue, None};
ghost use Rattle.nl_field.specs.CrashStates.{saturated};
ghost use Rattle.nl_field.specs.Numbers.{ShapeBounds, is_legal, shape_for};
ghost use Rattle.nl_iface.specs.Device.{IsVolumeShape};
ghost use Rattle.nl_nand.specs.Nand.{IsBlank};
ghost use Rattle.nl_pagemap.specs.Made.{IsFreshDevice};
ghost use Rattle.nl_vseg.specs.Segment.{SegmentHasUnmapped, is_taken_as_erased};

use crate::pagemap::Pagemap;
use nl_field::{Memory, PageBuf, Shape};
use nl_iface::Counts;
use nl_nand::Nand;
use nl_pagemap_names::{Numbers, Untried};
use nl_vseg::VSeg;
use std::alloc::Global;

/// What a device has beside its medium.
#[derive(Drop)]
struct Parts {
    vseg: VSeg,
    table: Numbers,
    untried: Untried,
    buf: PageBuf,
}

/// A segment without an address, a table without a number in use, and blocks of which no page was tried.
fn fresh_parts(
    alloc: Global,
    shape: &Shape,
    first: u32,
    last: u32,
    count: u32,
) -> Result<Parts, Memory>
    requires legal { IsTrue (is_legal shape.now.blocks shape.now.pages) }
    requires few { shape.now.pblocks * shape.now.pages < 2 ^ 32 }
    requires numbers { shape.now ≡ shape_for shape.now.blocks shape.now.pages }
    ensures places { IfOk result (λ p. p.vseg.places ≡ replicate shape.now.vaddrs None) }
    ensures pages { IfOk result (λ p. p.vseg.pages ≡ shape.now.pages) }
    ensures bound { IfOk result (λ p. p.vseg.bound ≡ shape.now.vblocks * shape.now.pages) }
    ensures within { IfOk result (λ p. (page : ℕ) → is_taken_as_erased p.vseg page ≡ true → page < p.vseg.bound) }
    ensures spare { IfOk result (λ p. SegmentHasUnmapped p.vseg) }
    ensures table { IfOk result
        (λ p. p.table ≡ record { first = first; last = last; entries = replicate count None; used = replicate count false }) }
    ensures untried { IfOk result (λ p. p.untried ≡ replicate shape.now.pblocks shape.now.pages) }
{
    let vseg = VSeg::new(alloc, shape)?;
    let table = Numbers::new(alloc, first, last, count)?;
    let untried = Untried::new(alloc, shape.pblocks, shape.pages)?;
    let buf = PageBuf::new(alloc)?;
    Ok(Parts {
        vseg,
        table,
        untried,
        buf,
    })
}

impl<M: Nand> Pagemap<M> {
    /// A device over a medium whose pages are all erased: no address was written, and no number is in use. The numbers are those of the
    /// pages of the physical segment, and those of its last block stay unused; one block of pages is kept back. The medium comes back
    /// where memory is refused.
    pub fn make(alloc: Global, media: M, shape: Shape) -> Result<Pagemap<M>, M>
        requires volume { IsVolumeShape shape }
        requires bounds { ShapeBounds shape }
        requires geometry { M.geometry media ≡ record { blocks = shape.blocks; pages = shape.pages } }
        requires blank { M.tells → IsBlank (M.contents media) }
        ensures formed { IfOk result (λ d. ⟦<Pagemap<M> as Counts>⟧.formed d) }
        ensures fresh { IfOk result (λ d. IsFreshDevice ⟦<Pagemap<M> as Counts>⟧ shape d) }
        ensures counts { IfOk result
            (λ d. (⟦<Pagemap<M> as Counts>⟧.clock d ≡ M.clock media)
            × (⟦<Pagemap<M> as Counts>⟧.read_faults d ≡ M.read_faults media)
            × (⟦<Pagemap<M> as Counts>⟧.write_faults d ≡ saturated (M.write_faults media))) }
        ensures back { IfErr result (λ m. m ≡ media) }
    {
        let all = shape.blocks * shape.pages;
        let first = shape.vblocks * shape.pages;
        let room = all - shape.pages - first;
        match fresh_parts(alloc, &shape, first, all - shape.pages, all) {
            Ok(
                Parts {
                    vseg,
                    table,
                    untried,
                    buf,
                },
            ) => Ok(Pagemap {
                media,
                shape,
                vseg,
                table,
                untried,
                room,
                free: 1 + room / shape.pages,
                count: 0,
                next: 1,
                refused: 0,
                buf,
            }),
            Err(Memory) => Err(media),
        }
    }

    /// How many numbers are in use.
    pub fn entries(&self) -> u32
        requires { ⟦<Pagemap<M> as Counts>⟧.formed self.now }
        ensures { result ≡ (⟦<Pagemap<M> as Counts>⟧.names self.now).space.live }
    {
        self.count
    }
}
