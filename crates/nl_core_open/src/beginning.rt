//! A core is begun over a device that was started and walked.
ghost use Rattle.std.specs.Prelude.{◌≡◌, ◌≤◌, ◌*◌, [], length};
ghost use Rattle.nl_journal_commit.specs.Holding.{running_holders};
ghost use Rattle.nl_spec_commits.specs.Trees.{all_at};
ghost use Rattle.nl_core.specs.Core.{IsCore};
ghost use Rattle.nl_core.specs.Trees.{CoreRepresents};
ghost use Rattle.nl_device.specs.Retain.{kept_of, moved_among};
ghost use Rattle.nl_field.specs.Page.{Image};
ghost use Rattle.nl_meta.specs.Consistent.{page_on};
ghost use Rattle.nl_tree.specs.Tree.{Tree};
ghost use Rattle.nl_flight.specs.Flight.{IsFlight, nothing};
ghost use Rattle.nl_recover.specs.Recovering.{IsWalked};
ghost use Rattle.nl_core_open.specs.Beginning.{BeginsCore, IsAsStarted, IsStartedOver, stopped_by};

use nl_core::Core;
use nl_device::Device;
use nl_device::scan_laws::a_list_tells_what_can_be_retained;
use nl_field::{PointerList, Shape};
use nl_flight::Flight;
use nl_iface::Counts;
use nl_nand::Nand;
use nl_recover::Walked;
use nl_recover::laws::kept_can_be_retained;
use nl_scan::ScanTables;
use nl_spec_commits::laws::device_stands;

/// Begins a core over a device that was started and walked: exactly the pointers of its files are live, each at its place, and nothing is
/// in flight or awaits its free. There is a pair for each of them whose place is not its name. Over an image that is sound as a tree it
/// stands for that tree. It is read-only where the count of failed writes stands at its end. The medium is not touched.
pub fn begin<M: Nand>(
    device: Device<M>,
    shape: Shape,
    scan: &ScanTables,
    walked: Walked,
    flight: Flight,
    freeing: PointerList,
) -> Core<Device<M>>
    requires formed { ⟦<Device<M> as Counts>⟧.formed device }
    requires shape { shape ≡ ⟦<Device<M> as Counts>⟧.shape device }
    requires can { IsAsStarted ⟦<Device<M> as Counts>⟧ device scan.now.seen }
    requires walked { IsWalked ⟦<Device<M> as Counts>⟧ device scan.now.seen walked }
    requires flight { flight ≡ nothing }
    requires freeing { freeing.items ≡ [] }
    requires room { shape.pblocks * shape.pages ≤ freeing.room }
    ensures core { IsCore ⟦<Device<M> as Counts>⟧ result }
    ensures stands { M.tells → (image : Image) (tree : Tree) → IsStartedOver ⟦<Device<M> as Counts>⟧ device walked image tree
        → CoreRepresents ⟦<Device<M> as Counts>⟧ result (page_on image) (all_at walked.count tree) }
    ensures pairs { (⟦<Device<M> as Counts>⟧.names result.device).space.pairs ≡ length (moved_among (kept_of device) walked.kept.items) }
    ensures files { length (running_holders ⟦<Device<M> as Counts>⟧ result.device result.meta) ≡ length walked.kept.items }
    ensures begins { BeginsCore ⟦<Device<M> as Counts>⟧ device walked result }
{
    kept_can_be_retained();
    a_list_tells_what_can_be_retained();
    lines_stand(&flight);
    let _count = count_of(&walked);
    let mut device = device;
    device_stands(&device);
    device.retain(&walked.kept);
    device_stands(&device);
    let moment = device.clock();
    let stopped = stopped_by(device.write_faults());
    let Walked {
        journal,
        meta,
        nodes,
        count,
        kept: _,
    } = walked;
    Core {
        device,
        shape,
        journal,
        meta,
        nodes,
        flight,
        freeing,
        leaving: 0,
        count,
        committed: count,
        frozen: count,
        moment,
        stopped,
    }
}

// The volume is begun read-only where its count of failed writes stands at its end.
fn stopped_by(write_faults: u64) -> u64
    ensures { result ≡ stopped_by write_faults }
{
    if write_faults < u64::MAX { 0 } else { u64::MAX }
}

// The calls that the walked image counts.
fn count_of(walked: &Walked) -> u64
    ensures { result ≡ walked.now.count }
{
    walked.count
}

// The lines in flight are in order.
fn lines_stand(flight: &Flight)
    ensures { IsFlight flight.now }
{
    let _ = flight.line(0);
}
