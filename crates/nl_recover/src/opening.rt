//! The opening of a volume over a started device: its metadata is read and walked, and what it is begun with is gathered.
ghost use Rattle.std.specs.Prelude.{◌≡◌, IfOk};
ghost use Rattle.nl_field.specs.Numbers.{ShapeBounds};
ghost use Rattle.nl_iface.specs.Calls.{OnlyReads, ReadsCounted};
ghost use Rattle.nl_meta.specs.Committed.{committed};
ghost use Rattle.nl_meta.specs.Nodes.{super_of_pages};
ghost use Rattle.nl_meta.specs.Pages.{page_of};
ghost use Rattle.nl_meta.specs.Walk.{walk_over};
ghost use Rattle.nl_recover.specs.Recovering.{FindsFault, IfDamaged, IfRecovered, IsRecoverFault, IsFirstFault, IsWalked, Walks, count_in};
ghost use Rattle.nl_meta_running.specs.Running.{stored_on};

use crate::free::free_lists;
use crate::look::super_rec;
use crate::metadata::{Metadata, ReadPages, read_pages};
use crate::walk::{Outcome, walk_pages};
use nl_field::{Memory, Place, PointerList, Shape};
use nl_iface::VirtualPages;
use nl_inode::Nodes;
use nl_journal::Journal;
use nl_meta::Meta;
use nl_scan::ScanTables;
use std::alloc::Global;

/// What a volume is begun with.
#[derive(Drop)]
pub struct Walked {
    pub journal: Journal,
    /// The committed pages, as far as they are resident. Those of the transaction that counts are frozen.
    pub meta: Meta,
    pub nodes: Nodes,
    /// How many calls the volume has answered.
    pub count: u64,
    /// The committed pointers, in the order of nodes and indexes.
    pub kept: PointerList,
}

/// What an opening answers.
#[derive(Drop)]
pub enum Recovered {
    /// The walk found no fault, and a volume can be begun with this.
    Ready(Walked),
    /// The first place at fault.
    Damaged(Place),
    /// A read failed.
    Fault,
    Memory,
}

/// Reads the journal and the metadata of a volume, and walks over its committed pages beside those that a scan saw. It is ready
/// exactly where the walk finds no fault, and else damaged at the first one. The device is only read, and no page twice that is there.
pub fn recover<D: VirtualPages>(
    alloc: Global,
    device: &mut D,
    shape: &Shape,
    scan: &ScanTables,
) -> Recovered
    requires formed { D.formed device.old }
    requires shape { shape.now ≡ D.shape device.old }
    ensures formed { D.formed device.new }
    ensures device { OnlyReads D.Counts device.old device.new }
    ensures faults { ReadsCounted D.Counts (IsRecoverFault result) device.old device.new }
    ensures walked { IfRecovered result (IsWalked D.Counts device.new scan.now.seen) }
    ensures damaged { IfDamaged result (IsFirstFault D.Counts device.new shape.now scan.now.seen) }
    ensures told { D.tells → FindsFault (walk_over shape.now (committed shape.now (stored_on D.Counts device.old)) scan.now.seen) result }
{
    match read_pages(alloc, device, shape) {
        ReadPages::Done(Metadata { journal, meta }) => {
            match walk_on(alloc, shape, journal, meta, scan) {
                Ok(recovered) => recovered,
                Err(Memory) => Recovered::Memory,
            }
        }
        ReadPages::Fault => Recovered::Fault,
        ReadPages::Memory => Recovered::Memory,
    }
}

// Walks over the pages that are resident.
fn walk_on(
    alloc: Global,
    shape: &Shape,
    journal: Journal,
    meta: Meta,
    scan: &ScanTables,
) -> Result<Recovered, Memory>
    requires { ShapeBounds shape.now }
    ensures { IfOk result (Walks shape.now scan.now.seen journal meta) }
{
    match walk_pages(alloc, shape, &meta, scan)? {
        Outcome::Damaged(place) => Ok(Recovered::Damaged(place)),
        Outcome::Sound(held) => {
            let nodes = free_lists(alloc, shape, &meta)?;
            let kept = held.pointers(alloc)?;
            let count = count(&meta);
            Ok(Recovered::Ready(Walked {
                journal,
                meta,
                nodes,
                count,
                kept,
            }))
        }
    }
}

// The count of calls that the super page tells, 0 where it spells none.
fn count(meta: &Meta) -> u64
    ensures { result ≡ count_in (super_of_pages (page_of meta.now)) }
{
    match super_rec(meta) {
        Some(rec) => rec.count,
        None => 0,
    }
}
