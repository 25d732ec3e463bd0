//! Which pages an opening reads, of a device whose pointers are live.
ghost use Rattle.std.specs.Prelude.{◌≡◌, ◌<◌, ◌==◌, ℕ, IfOk};
ghost use Rattle.nl_field.specs.Live.{resolve};
ghost use Rattle.nl_field.specs.ScanList.{on_list, virtual_seen};
ghost use Rattle.nl_field.specs.Space.{virtual_spare_among};
ghost use Rattle.nl_map_pages.specs.Judging.{ArePlaces, AreStamps, IsLiveBy};

use nl_device::Device;
use nl_field::{Memory, PointerList, Shape};
use nl_iface::{Counts, NamedPages};
use nl_map_pages::{Live, spare_of, virtual_pages};
use nl_nand::Nand;
use nl_scan::ScanTables;
use std::alloc::Global;
use std::collections::BTreeSet;

// The pages to which the names of the pointers lead.
fn places<M: Nand>(
    alloc: Global,
    device: &Device<M>,
    kept: &PointerList,
) -> Result<BTreeSet<u32>, Memory>
    ensures { IfOk result (ArePlaces (λ p. resolve (⟦<Device<M> as Counts>⟧.names device.now).pairs p.name) kept.now.items) }
{
    let mut places = BTreeSet::new(alloc);
    'kept: for at in 0..kept.len() {
        places.insert(device.resolve(kept.get(at).name))?;
    }
    Ok(places)
}

// The write sequence numbers of the pointers.
fn stamps(alloc: Global, kept: &PointerList) -> Result<BTreeSet<u64>, Memory>
    ensures { IfOk result (AreStamps kept.now.items) }
{
    let mut stamps = BTreeSet::new(alloc);
    'kept: for at in 0..kept.len() {
        stamps.insert(kept.get(at).stamp)?;
    }
    Ok(stamps)
}

/// Which pages an opening reads: those of the virtual segment that a scan saw, and those to which the names of live pointers lead.
pub fn live_of<M: Nand>(
    alloc: Global,
    device: &Device<M>,
    shape: &Shape,
    scan: &ScanTables,
    kept: &PointerList,
) -> Result<Live, Memory>
    requires { 0 < shape.now.pages }
    ensures { IfOk result (IsLiveBy shape.now scan.now.seen (λ p. resolve (⟦<Device<M> as Counts>⟧.names device.now).pairs p.name)
        kept.now.items) }
{
    let virtuals = virtual_pages(alloc, shape, scan)?;
    let spare = spare_of(&virtuals, shape.pages, shape.vblocks);
    let places = places(alloc, device, kept)?;
    let stamps = stamps(alloc, kept)?;
    Ok(Live {
        shape: *shape,
        virtuals,
        spare,
        places,
        stamps,
    })
}
