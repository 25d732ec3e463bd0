//! Which pages an opening reads, or why there is no volume.
ghost use Rattle.std.specs.Prelude.{◌≡◌, ◌<◌, ◌≤◌, ℕ, None, option_map};
ghost use Rattle.nl_core_open.specs.Opening.{OnlyReadsMedium};
ghost use Rattle.nl_device.specs.Kept.{kept_of_scan};
ghost use Rattle.nl_device.specs.Medium.{medium_of};
ghost use Rattle.nl_device.specs.Retain.{kept_of};
ghost use Rattle.nl_field.specs.CrashStates.{Rose};
ghost use Rattle.nl_field.specs.Medium.{shape_of_image};
ghost use Rattle.nl_field.specs.ScanList.{seen_in};
ghost use Rattle.nl_field.specs.Virtual.{newest};
ghost use Rattle.nl_iface.specs.Stored.{value_on};
ghost use Rattle.nl_map.specs.Drawing.{IsSized, Judges};

use crate::live::live_of;
use nl_device::Device;
use nl_device::formed_laws::formed_devices;
use nl_device::scan_laws::a_list_tells_what_can_be_retained;
use nl_field::{Memory, Place, Shape};
use nl_iface::Counts;
use nl_map_pages::Live;
use nl_nand::Nand;
use nl_recover::laws::kept_can_be_retained;
use nl_recover::{Recovered, recover};
use nl_scan::ScanTables;
use std::alloc::Global;

// What an opening tells of the pages of a medium.
#[derive(Drop)]
pub(crate) enum Judged {
    // The count of calls with which the volume opens, and which pages it reads.
    Opened(u64, Live),
    // The first place at fault.
    Damaged(Place),
    // A read failed.
    Fault,
    Memory,
}

// Opens the volume of a device that was started. The medium is only read.
pub(crate) fn judge<M: Nand>(
    alloc: Global,
    device: Device<M>,
    shape: &Shape,
    scan: &ScanTables,
) -> (Judged, M)
    requires formed { ⟦<Device<M> as Counts>⟧.formed device }
    requires shape { shape.now ≡ ⟦<Device<M> as Counts>⟧.shape device }
    requires size { 0 < shape.now.pages }
    requires idle { (⟦<Device<M> as Counts>⟧.names device).space.victim ≡ 0 }
    requires no_live { (p : ℕ) → (⟦<Device<M> as Counts>⟧.names device).live p ≡ None }
    requires scanned { kept_of device ≡ kept_of_scan shape.now scan.now.seen }
    requires image { M.tells → shape.now ≡ shape_of_image (M.contents (medium_of device)) }
    requires map { M.tells → (v : ℕ) → v < shape.now.vaddrs
        → ⟦<Device<M> as Counts>⟧.map device v ≡ option_map value_on (newest (M.contents (medium_of device)) v) }
    requires listed { M.tells → scan.now.seen ≡ seen_in (M.contents (medium_of device)) }
    ensures sized { IsSized result.0 }
    ensures told { M.tells → Judges (M.contents (medium_of device)) result.0 }
    ensures medium { OnlyReadsMedium M.tells M.contents M.clock M.write_faults M.left (medium_of device) result.1 }
    ensures fault { result.0 ≡ Judged.Fault → Rose (M.read_faults (medium_of device)) (M.read_faults result.1) }
    ensures no_fault { (result.0 ≡ Judged.Fault → ⊥) → M.read_faults result.1 ≡ M.read_faults (medium_of device) }
{
    formed_devices::<M>();
    kept_can_be_retained();
    a_list_tells_what_can_be_retained();
    let mut device = device;
    match recover(alloc, &mut device, shape, scan) {
        Recovered::Ready(walked) => {
            device.retain(&walked.kept);
            let live = live_of(alloc, &device, shape, scan, &walked.kept);
            let media = device.into_media();
            match live {
                Ok(live) => (Judged::Opened(walked.count, live), media),
                Err(Memory) => (Judged::Memory, media),
            }
        }
        Recovered::Damaged(place) => (Judged::Damaged(place), device.into_media()),
        Recovered::Fault => (Judged::Fault, device.into_media()),
        Recovered::Memory => (Judged::Memory, device.into_media()),
    }
}
