// Both segments as they are after a scan.
ghost use Rattle.std.specs.Prelude.{◌≡◌, length, IfOk, IsTrue};
ghost use Rattle.nl_field.specs.Numbers.{is_legal, shape_for};
ghost use Rattle.nl_device.specs.Opening.{FitsShape, IsOpenedPhysical, IsOpenedVirtual};

use crate::opening::fill::{load, picks};
use crate::opening::own::{greatest, needed, owns, spreads};
use crate::opening::soil::{soil_physical, soil_virtual, wears};
use crate::opening::spare::least_spare;
use nl_field::{Memory, Shape};
use nl_pseg::PSeg;
use nl_scan::ScanTables;
use nl_vseg::VSeg;
use std::alloc::Global;

/// The virtual segment: each address has its newest page, outside the spare block where that can be.
pub fn open_virtual(
    alloc: Global,
    shape: &Shape,
    tables: &ScanTables,
    wears: &Vec<u32>,
) -> Result<VSeg, Memory>
    requires legal { IsTrue (is_legal shape.now.blocks shape.now.pages) }
    requires numbers { shape.now ≡ shape_for shape.now.blocks shape.now.pages }
    requires fits { FitsShape shape.now tables.now }
    requires wears { length wears.now.items ≡ shape.now.blocks }
    ensures { IfOk result (IsOpenedVirtual shape.now tables.now) }
{
    let owns = owns(alloc, tables, shape)?;
    let greatest = greatest(alloc, &owns, shape.vaddrs)?;
    let needed = needed(alloc, &owns, &greatest)?;
    let spreads = spreads(alloc, &needed, shape.pages, shape.vaddrs)?;
    let spare = least_spare(alloc, &spreads, 0, shape.vblocks)?;
    let picks = picks(alloc, &needed, shape.pages, spare, shape.vaddrs)?;
    let mut vseg = VSeg::new(alloc, shape)?;
    soil_virtual(&mut vseg, tables, wears, shape.vblocks);
    load(&mut vseg, &picks);
    Ok(vseg)
}

/// The physical segment: no page is live.
pub fn open_physical(
    alloc: Global,
    shape: &Shape,
    tables: &ScanTables,
    wears: &Vec<u32>,
) -> Result<PSeg, Memory>
    requires legal { IsTrue (is_legal shape.now.blocks shape.now.pages) }
    requires numbers { shape.now ≡ shape_for shape.now.blocks shape.now.pages }
    requires fits { FitsShape shape.now tables.now }
    requires wears { length wears.now.items ≡ shape.now.blocks }
    ensures { IfOk result (IsOpenedPhysical shape.now tables.now) }
{
    let mut pseg = PSeg::new(alloc, shape)?;
    soil_physical(&mut pseg, tables, wears, shape.vblocks, shape.blocks);
    Ok(pseg)
}

/// Both segments.
#[derive(Drop)]
pub struct Opened {
    pub vseg: VSeg,
    pub pseg: PSeg,
}

/// Both segments after a scan.
pub fn open(alloc: Global, shape: &Shape, tables: &ScanTables) -> Result<Opened, Memory>
    requires legal { IsTrue (is_legal shape.now.blocks shape.now.pages) }
    requires numbers { shape.now ≡ shape_for shape.now.blocks shape.now.pages }
    requires fits { FitsShape shape.now tables.now }
    ensures virtuals { IfOk result (λ o. IsOpenedVirtual shape.now tables.now o.vseg) }
    ensures physicals { IfOk result (λ o. IsOpenedPhysical shape.now tables.now o.pseg) }
{
    let wears = wears(alloc, tables, shape.pages, shape.blocks)?;
    let vseg = open_virtual(alloc, shape, tables, &wears)?;
    let pseg = open_physical(alloc, shape, tables, &wears)?;
    Ok(Opened { vseg, pseg })
}
