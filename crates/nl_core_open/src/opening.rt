//! The opening of a volume over a medium, and the figures that it tells.
ghost use Rattle.std.specs.Prelude.{◌≡◌, ◌*◌, ◌+◌, ◌<◌, ◌≤◌, ◌^◌, [], IfOk, IsTrue};
ghost use Rattle.nl_spec_commits.specs.Trees.{all_at};
ghost use Rattle.nl_core.specs.Core.{IsCore, begun_of};
ghost use Rattle.nl_core.specs.Trees.{CoreRepresents};
ghost use Rattle.nl_field.specs.CrashStates.{Rose};
ghost use Rattle.nl_field.specs.Medium.{shape_of_image};
ghost use Rattle.nl_field.specs.Virtual.{virtual_bytes};
ghost use Rattle.nl_field.specs.Numbers.{ShapeBounds, is_legal, shape_for};
ghost use Rattle.nl_field.specs.Scan.{next_stamp_of};
ghost use Rattle.nl_flight.specs.Flight.{nothing};
ghost use Rattle.nl_meta.specs.Committed.{next_number};
ghost use Rattle.nl_meta.specs.Consistent.{page_on};
ghost use Rattle.nl_core_open.specs.Figures.{ReportsWear, pairs_of};
ghost use Rattle.nl_core_open.specs.Opening.{IfCounted, IfCoreReady, IsBehindScan, IsCoreOpenFault, IsOpenedCore, OnlyReadsMedium, CoreOpensImage, opened_medium};
ghost use Rattle.nl_spec_image.specs.Stands.{ConsistentAs};
ghost use Rattle.nl_tree.specs.Tree.{Tree};

use crate::beginning::begin;
use crate::wear::{greatest, least};
use nl_core::Core;
use nl_device::formed_laws::formed_devices;
use nl_device::{Device, Started};
use nl_field::{Memory, Place, PointerList, Shape, shape_of};
use nl_flight::Flight;
use nl_iface::Counts;
use nl_meta::laws::walk_is_consistency;
use nl_nand::Nand;
use nl_recover::laws::openings_see_the_image;
use nl_recover::{Recovered, recover};
use std::alloc::Global;

/// What an opening tells of a volume in numbers: how many pages its files have, and the least and the greatest wear of the readable pages.
#[derive(Clone, Copy, Debug, PartialEq, Eq)]
pub struct Figures {
    pub files: u32,
    pub least: u32,
    pub greatest: u32,
}

/// What an opening answers.
#[derive(Drop)]
pub enum Opened<M: Nand> {
    /// The volume that the medium holds.
    Ready(Core<Device<M>>, Figures),
    /// No page is readable.
    Blank(M),
    /// The first place at fault.
    Damaged(Place, M),
    /// A read failed.
    Fault(M),
    /// Memory was wanted and not there.
    Memory(M),
}

impl<M: Nand> Opened<M> {
    /// Gives the medium back as it is.
    pub fn into_media(self) -> M
        ensures { result ≡ opened_medium self }
    {
        match self {
            Opened::Ready(core, _) => {
                let Core { device, .. } = core;
                device.into_media()
            }
            Opened::Blank(media) => media,
            Opened::Damaged(_, media) => media,
            Opened::Fault(media) => media,
            Opened::Memory(media) => media,
        }
    }
}

/// Opens the volume on a medium: one scan, the walk over its committed pages, and the pointers of its files made live, each at its place.
/// The medium is only read. Over one that tells what it stores it is blank exactly where no page is readable, and else ready exactly where
/// the image is consistent, or damaged at the walk's first fault; ready, it stands for the tree as which the image is sound, and its next
/// write sequence number, the number of its next transaction, and how many pairs it has are what the image tells. Ready, it tells how many
/// pages its files have, and the least and the greatest wear of the readable pages. Over any medium it has answered fewer than 2^63 calls,
/// and its next write sequence number is the one behind the greatest that its scan told.
pub fn open<M: Nand>(alloc: Global, media: M) -> Opened<M>
    ensures core { IfCoreReady result (λ v. IsCore ⟦<Device<M> as Counts>⟧ v) }
    ensures opened { IfCoreReady result (λ v. IsOpenedCore ⟦<Device<M> as Counts>⟧ v) }
    ensures files { IfCounted ⟦<Device<M> as Counts>⟧ result }
    ensures few { IfCoreReady result (λ v. v.count < 2 ^ 63) }
    ensures behind { IfCoreReady result (λ v. IsBehindScan (M.geometry media) (⟦<Device<M> as Counts>⟧.next_stamp v.device)) }
    ensures number { M.tells
        → IfCoreReady result (λ v. begun_of v + 1 ≡ next_number (shape_of_image (M.contents media)) (virtual_bytes (M.contents media))) }
    ensures told { M.tells → CoreOpensImage (M.contents media) result }
    ensures stands { M.tells → IfCoreReady result (λ v. (tree : Tree) × ConsistentAs (M.contents media) v.count tree
        × CoreRepresents ⟦<Device<M> as Counts>⟧ v (page_on (M.contents media)) (all_at v.count tree)) }
    ensures next_stamp { M.tells → IfCoreReady result (λ v. ⟦<Device<M> as Counts>⟧.next_stamp v.device ≡ next_stamp_of (M.contents media)) }
    ensures pairs { M.tells → IfCoreReady result (λ v. (⟦<Device<M> as Counts>⟧.names v.device).space.pairs ≡ pairs_of (M.contents media)) }
    ensures wear { M.tells → ReportsWear (M.contents media) result }
    ensures medium { OnlyReadsMedium M.tells M.contents M.clock M.write_faults M.left media (opened_medium result) }
    ensures fault { IsCoreOpenFault result → Rose (M.read_faults media) (M.read_faults (opened_medium result)) }
    ensures no_fault { (IsCoreOpenFault result → ⊥) → M.read_faults (opened_medium result) ≡ M.read_faults media }
{
    let geometry = media.geometry();
    match shape_of(geometry.blocks, geometry.pages) {
        Some(shape) => open_formed(alloc, media, shape),
        None => Opened::Blank(media),
    }
}

// Opens a medium that was formed.
fn open_formed<M: Nand>(alloc: Global, media: M, shape: Shape) -> Opened<M>
    requires legal { IsTrue (is_legal (M.geometry media).blocks (M.geometry media).pages) }
    requires shape { shape ≡ shape_for (M.geometry media).blocks (M.geometry media).pages }
    ensures core { IfCoreReady result (λ v. IsCore ⟦<Device<M> as Counts>⟧ v) }
    ensures opened { IfCoreReady result (λ v. IsOpenedCore ⟦<Device<M> as Counts>⟧ v) }
    ensures files { IfCounted ⟦<Device<M> as Counts>⟧ result }
    ensures few { IfCoreReady result (λ v. v.count < 2 ^ 63) }
    ensures behind { IfCoreReady result (λ v. IsBehindScan (M.geometry media) (⟦<Device<M> as Counts>⟧.next_stamp v.device)) }
    ensures number { M.tells
        → IfCoreReady result (λ v. begun_of v + 1 ≡ next_number (shape_of_image (M.contents media)) (virtual_bytes (M.contents media))) }
    ensures told { M.tells → CoreOpensImage (M.contents media) result }
    ensures stands { M.tells → IfCoreReady result (λ v. (tree : Tree) × ConsistentAs (M.contents media) v.count tree
        × CoreRepresents ⟦<Device<M> as Counts>⟧ v (page_on (M.contents media)) (all_at v.count tree)) }
    ensures next_stamp { M.tells → IfCoreReady result (λ v. ⟦<Device<M> as Counts>⟧.next_stamp v.device ≡ next_stamp_of (M.contents media)) }
    ensures pairs { M.tells → IfCoreReady result (λ v. (⟦<Device<M> as Counts>⟧.names v.device).space.pairs ≡ pairs_of (M.contents media)) }
    ensures wear { M.tells → ReportsWear (M.contents media) result }
    ensures medium { OnlyReadsMedium M.tells M.contents M.clock M.write_faults M.left media (opened_medium result) }
    ensures fault { IsCoreOpenFault result → Rose (M.read_faults media) (M.read_faults (opened_medium result)) }
    ensures no_fault { (IsCoreOpenFault result → ⊥) → M.read_faults (opened_medium result) ≡ M.read_faults media }
{
    match Device::start(alloc, media) {
        Started::Ready(device, scan) => {
            let mut device = device;
            if scan.len() == 0 {
                return Opened::Blank(device.into_media());
            }
            formed_devices::<M>();
            openings_see_the_image();
            walk_is_consistency();
            match recover(alloc, &mut device, &shape, &scan) {
                Recovered::Ready(walked) => match room_for(alloc, &shape) {
                    Ok(Room { flight, freeing }) => {
                        let figures = Figures {
                            files: walked.kept.len(),
                            least: least(&scan),
                            greatest: greatest(&scan),
                        };
                        Opened::Ready(
                            begin(device, shape, &scan, walked, flight, freeing),
                            figures,
                        )
                    }
                    Err(Memory) => Opened::Memory(device.into_media()),
                },
                Recovered::Damaged(place) => Opened::Damaged(place, device.into_media()),
                Recovered::Fault => Opened::Fault(device.into_media()),
                Recovered::Memory => Opened::Memory(device.into_media()),
            }
        }
        Started::Fault(media) => Opened::Fault(media),
        Started::Memory(media) => Opened::Memory(media),
    }
}

// The lines in flight of all workers, and a list with room for each page of files.
#[derive(Drop)]
struct Room {
    flight: Flight,
    freeing: PointerList,
}

fn room_for(alloc: Global, shape: &Shape) -> Result<Room, Memory>
    requires { ShapeBounds shape.now }
    ensures flight { IfOk result (λ r. r.flight ≡ nothing) }
    ensures freeing { IfOk result (λ r. r.freeing.items ≡ []) }
    ensures room { IfOk result (λ r. shape.now.pblocks * shape.now.pages ≤ r.freeing.room) }
{
    let flight = Flight::new(alloc)?;
    let mut freeing = PointerList::new(alloc);
    freeing.reserve(shape.pblocks * shape.pages)?;
    Ok(Room { flight, freeing })
}
