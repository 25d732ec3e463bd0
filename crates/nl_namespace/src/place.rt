//! Where the last name of a path stands, or would stand.
ghost use Rattle.std.specs.Prelude.{◌≡◌, ◌≢◌, [], IfOk};
ghost use Rattle.nl_namespace.specs.Placing.{Enters, IfEntered, IfHeld, IsParent, IsNameSpot};
ghost use Rattle.nl_meta_running.specs.Reading.{ReadsExplainStop, stop_of};
ghost use Rattle.nl_meta_running.specs.Running.{IsUsedNode, RunningIsRight, PreservesRunning};

use crate::hold::hold_entries;
use crate::walk::{Step, follow};
use nl_dir::find;
use nl_field::{EntryRec, InodeRec, Kind};
use nl_iface::VirtualPages;
use nl_inode::Nodes;
use nl_meta::Meta;
use nl_meta_running::{Stop, node};
use nl_tree::{Path, Refusal};

/// Where a name stands, or would stand: the directory and its record, and the entry of the name.
#[derive(Debug, Drop)]
pub(crate) struct Place {
    pub(crate) dir: u32,
    pub(crate) rec: InodeRec,
    pub(crate) entry: Option<EntryRec>,
}

/// Where a path leads but for its last name.
#[derive(Debug, Drop)]
pub(crate) enum Spot {
    At(Place),
    No(Refusal),
}

/// The node that the names before the last lead to.
#[derive(Clone, Copy, Debug, PartialEq, Eq)]
pub(crate) enum Parent {
    At(u32),
    No(Refusal),
}

/// Where the last name of a path that has one stands. The pages of the directory, and that of its record, are resident.
pub(crate) fn locate<D: VirtualPages>(
    device: &mut D,
    meta: &mut Meta,
    nodes: &Nodes,
    path: &Path,
) -> Result<Spot, Stop>
    requires formed { D.formed device.old }
    requires runs { RunningIsRight D.Counts device.old meta.old }
    requires not_root { path.now ≢ [] }
    ensures formed { D.formed device.new }
    ensures spot { IfOk result (IsNameSpot D.Counts device.old meta.old path.now) }
    ensures held { IfOk result (IfHeld D.Counts device.old meta.old meta.new) }
    ensures kept { PreservesRunning D.Counts device.old meta.old device.new meta.new }
    ensures reads { ReadsExplainStop D.Counts device.old device.new (stop_of result) }
{
    match walk_to_parent(device, meta, nodes, path) {
        Ok(Parent::At(dir)) => {
            let last = path.get(path.len() - 1);
            match enter(device, meta, nodes, dir, last.bytes()) {
                Ok(Some(place)) => Ok(Spot::At(place)),
                Ok(None) => Ok(Spot::No(Refusal::Enotdir)),
                Err(stop) => Err(stop),
            }
        }
        Ok(Parent::No(refusal)) => Ok(Spot::No(refusal)),
        Err(stop) => Err(stop),
    }
}

/// The node that the names before the last lead to.
fn walk_to_parent<D: VirtualPages>(
    device: &mut D,
    meta: &mut Meta,
    nodes: &Nodes,
    path: &Path,
) -> Result<Parent, Stop>
    requires formed { D.formed device.old }
    requires runs { RunningIsRight D.Counts device.old meta.old }
    requires not_root { path.now ≢ [] }
    ensures formed { D.formed device.new }
    ensures parent { IfOk result (IsParent D.Counts device.old meta.old path.now) }
    ensures kept { PreservesRunning D.Counts device.old meta.old device.new meta.new }
    ensures reads { ReadsExplainStop D.Counts device.old device.new (stop_of result) }
{
    let mut at = 0;
    for i in 0..path.len() - 1 {
        match follow(device, meta, nodes, at, path.get(i).bytes()) {
            Ok(Step::To(ino)) => at = ino,
            Ok(Step::Missing) => return Ok(Parent::No(Refusal::Enoent)),
            Ok(Step::File) => return Ok(Parent::No(Refusal::Enotdir)),
            Err(stop) => return Err(stop),
        }
    }
    Ok(Parent::At(at))
}

/// A used node as a directory, and its entry of a name. None where it is a file.
fn enter<D: VirtualPages>(
    device: &mut D,
    meta: &mut Meta,
    nodes: &Nodes,
    dir: u32,
    name: &[u8],
) -> Result<Option<Place>, Stop>
    requires formed { D.formed device.old }
    requires runs { RunningIsRight D.Counts device.old meta.old }
    requires used { IsUsedNode D.Counts device.old meta.old dir }
    ensures formed { D.formed device.new }
    ensures entered { IfOk result (Enters D.Counts device.old meta.old dir name.now) }
    ensures held { IfOk result (IfEntered D.Counts device.old meta.old meta.new) }
    ensures kept { PreservesRunning D.Counts device.old meta.old device.new meta.new }
    ensures reads { ReadsExplainStop D.Counts device.old device.new (stop_of result) }
{
    let rec = match node(device, meta, nodes, dir) {
        Ok(rec) => rec,
        Err(stop) => return Err(stop),
    };
    match rec.kind {
        Kind::Dir => {}
        _ => return Ok(None),
    }
    match hold_entries(device, meta, &rec) {
        Ok(()) => {
            let entry = find(&rec, meta, name);
            Ok(Some(Place { dir, rec, entry }))
        }
        Err(stop) => Err(stop),
    }
}
