//! What stands at a path: the directory that has its last name, the entry, and the node that it names.
ghost use Rattle.std.specs.Prelude.{◌≡◌, ◌≢◌, [], IfOk};
ghost use Rattle.nl_namespace.specs.Finding.{FoundIsResident, IsFoundName};
ghost use Rattle.nl_meta_running.specs.Reading.{ReadsExplainStop, stop_of};
ghost use Rattle.nl_meta_running.specs.Running.{RunningIsRight, PreservesRunning};

use crate::place::{Place, Spot, locate};
use nl_field::{EntryRec, InodeRec};
use nl_iface::VirtualPages;
use nl_inode::Nodes;
use nl_meta::Meta;
use nl_meta_running::{Stop, node};
use nl_tree::{Path, Refusal};

/// A name that stands in a directory: the directory and its record, the entry, and the record of the node that it names.
#[derive(Debug, Drop)]
pub(crate) struct There {
    pub(crate) dir: u32,
    pub(crate) rec: InodeRec,
    pub(crate) entry: EntryRec,
    pub(crate) node: InodeRec,
}

/// What stands at a path.
#[derive(Debug, Drop)]
pub(crate) enum Found {
    At(There),
    /// Nothing, and this is where its last name would stand.
    Free(Place),
    No(Refusal),
}

/// What stands at a path that has a last name. The pages of the directory, and that of its record, are resident.
pub(crate) fn find_node<D: VirtualPages>(
    device: &mut D,
    meta: &mut Meta,
    nodes: &Nodes,
    path: &Path,
) -> Result<Found, Stop>
    requires formed { D.formed device.old }
    requires runs { RunningIsRight D.Counts device.old meta.old }
    requires not_root { path.now ≢ [] }
    ensures formed { D.formed device.new }
    ensures found { IfOk result (IsFoundName D.Counts device.old meta.old path.now) }
    ensures held { IfOk result (FoundIsResident D.Counts device.old meta.old meta.new) }
    ensures kept { PreservesRunning D.Counts device.old meta.old device.new meta.new }
    ensures reads { ReadsExplainStop D.Counts device.old device.new (stop_of result) }
{
    match locate(device, meta, nodes, path) {
        Ok(Spot::At(place)) => {
            let Place { dir, rec, entry } = place;
            match entry {
                Some(entry) => match node(device, meta, nodes, entry.ino) {
                    Ok(node) => Ok(Found::At(There {
                        dir,
                        rec,
                        entry,
                        node,
                    })),
                    Err(stop) => Err(stop),
                },
                None => Ok(Found::Free(Place {
                    dir,
                    rec,
                    entry: None,
                })),
            }
        }
        Ok(Spot::No(refusal)) => Ok(Found::No(refusal)),
        Err(stop) => Err(stop),
    }
}
