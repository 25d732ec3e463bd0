// A core is begun over a device that was walked, on which no page of a file is live and the root has no entry.
ghost use Rattle.std.specs.Prelude.{◌≡◌, ◌≤◌, ◌*◌, [], IfOk, IsSome, IsTrue, Some};
ghost use Rattle.nl_core.specs.Core.{IsCore};
ghost use Rattle.nl_core_new.specs.Idle.{IsAlwaysFirm, IsIdle};
ghost use Rattle.nl_core_new.specs.New.{HasNoEntries, IsNew, device_in};
ghost use Rattle.nl_field.specs.declared.inode.InodeRec.{InodeRec};
ghost use Rattle.nl_flight.specs.Flight.{IsFlight, nothing};
ghost use Rattle.nl_inode.specs.Nodes.{page_of_node};
ghost use Rattle.nl_meta.specs.Nodes.{inode_at};
ghost use Rattle.nl_meta.specs.Pages.{page_of};
ghost use Rattle.nl_recover.specs.Recovering.{IsWalked};

use nl_core::Core;
use nl_field::{PointerList, Shape};
use nl_flight::Flight;
use nl_iface::MovingPages;
use nl_inode::Nodes;
use nl_meta::Meta;
use nl_recover::Walked;
use nl_scan::ScanTables;
use nl_spec_commits::laws::device_stands;

/// The core over a device that was walked. The device comes back where the volume on it has a page of a file, an entry of the root, or a
/// call.
pub fn begun<D: MovingPages>(
    device: D,
    shape: Shape,
    scan: &ScanTables,
    walked: Walked,
    flight: Flight,
    freeing: PointerList,
) -> Result<Core<D>, D>
    requires idle { IsIdle D.Counts device }
    requires shape { shape ≡ D.shape device }
    requires firm { IsAlwaysFirm D.Counts }
    requires walked { IsWalked D.Counts device scan.now.seen walked }
    requires flight { flight ≡ nothing }
    requires freeing { freeing.items ≡ [] }
    requires room { shape.pblocks * shape.pages ≤ freeing.room }
    ensures core { IfOk result (IsCore D.Counts) }
    ensures new { IfOk result (IsNew D.Counts) }
    ensures same { device_in result ≡ device }
{
    device_stands(&device);
    if walked.kept.len() != 0 {
        return Err(device);
    }
    if walked.count != 0 {
        return Err(device);
    }
    if entries_of_root(&walked.nodes, &walked.meta) != 0 {
        return Err(device);
    }
    Ok(begin(device, shape, scan, walked, flight, freeing))
}

// How many entries the root has, whose page is there.
fn entries_of_root(nodes: &Nodes, meta: &Meta) -> u64
    requires there { IsSome (page_of meta.now (page_of_node 0)) }
    requires spelled { IsSome (inode_at (page_of meta.now) 0) }
    ensures { (rec : InodeRec) → inode_at (page_of meta.now) 0 ≡ Some rec → rec.size ≡ result }
{
    let root = nodes.get(meta, 0);
    root.size
}

// The core over a device that was walked, where files have no page, the root has no entry, and no call was answered.
fn begin<D: MovingPages>(
    device: D,
    shape: Shape,
    scan: &ScanTables,
    walked: Walked,
    flight: Flight,
    freeing: PointerList,
) -> Core<D>
    requires idle { IsIdle D.Counts device }
    requires shape { shape ≡ D.shape device }
    requires firm { IsAlwaysFirm D.Counts }
    requires walked { IsWalked D.Counts device scan.now.seen walked }
    requires kept { walked.kept.items ≡ [] }
    requires root { HasNoEntries walked.meta }
    requires count { walked.count ≡ 0 }
    requires flight { flight ≡ nothing }
    requires freeing { freeing.items ≡ [] }
    requires room { shape.pblocks * shape.pages ≤ freeing.room }
    ensures core { IsCore D.Counts result }
    ensures new { IsNew D.Counts result }
    ensures same { result.device ≡ device }
{
    let _ = scan.len();
    lines_stand(&flight);
    device_stands(&device);
    let moment = device.clock();
    let Walked {
        journal,
        meta,
        nodes,
        count,
        kept: _,
    } = walked;
    Core {
        device,
        shape,
        journal,
        meta,
        nodes,
        flight,
        freeing,
        leaving: 0,
        count,
        committed: count,
        frozen: count,
        moment,
        stopped: 0,
    }
}

// The lines in flight are in order.
fn lines_stand(flight: &Flight)
    ensures { IsFlight flight.now }
{
    let _ = flight.line(0);
}
