//! A file, or an empty directory, loses its name.
ghost use Rattle.std.specs.Prelude.{◌≡◌, ◌≢◌, Some, false};
ghost use Rattle.nl_dir.specs.Directory.{HasRoomForDirty};
ghost use Rattle.nl_meta.specs.Nodes.{graph_of};
ghost use Rattle.nl_tree.specs.Step.{is_too_long};
ghost use Rattle.nl_namespace.specs.Changing.{FreeFits, ChangeLeaves};
ghost use Rattle.nl_namespace.specs.Naming.{RemovesName, refusal_of_record, root_refusal};
ghost use Rattle.nl_namespace.specs.Placing.{DirectoryIsResident, IsPlaceOfPath};
ghost use Rattle.nl_namespace.specs.Reading.{change_stop};
ghost use Rattle.nl_meta_running.specs.Reading.{ReadsExplainStop};
ghost use Rattle.nl_meta_running.specs.Running.{RunningIsRight, running_on};

use crate::answer::Change;
use crate::entering::take_out;
use crate::place::{Place, Spot, locate};
use nl_field::{EntryRec, InodeRec, Kind};
use nl_iface::VirtualPages;
use nl_inode::Nodes;
use nl_meta::Meta;
use nl_meta_running::{Stop, node};
use nl_tree::{Path, Refusal, is_long};

/// Takes its name from a file, or from an empty directory: the node at a path that is of that kind. Its record and its pages stay as they
/// are, and its number counts as used. A refusal, a read that failed and a page that is lost leave all as it was.
pub fn remove<D: VirtualPages>(
    device: &mut D,
    meta: &mut Meta,
    nodes: &mut Nodes,
    path: &Path,
    kind: Kind,
) -> Change
    requires formed { D.formed device.old }
    requires runs { RunningIsRight D.Counts device.old meta.old }
    requires free { FreeFits D.Counts device.old meta.old nodes.old }
    requires room { HasRoomForDirty 8 meta.old }
    requires used { kind ≢ Kind.Unused }
    ensures formed { D.formed device.new }
    ensures answer { RemovesName kind (graph_of (D.shape device.old) (running_on D.Counts device.old meta.old))
        (graph_of (D.shape device.new) (running_on D.Counts device.new meta.new)) path.now result }
    ensures left { ChangeLeaves D.Counts device.old meta.old nodes.old device.new meta.new nodes.new result }
    ensures reads { ReadsExplainStop D.Counts device.old device.new (change_stop result) }
{
    if is_long(path.names()) {
        return Change::No(Refusal::Enametoolong);
    }
    if path.len() == 0 {
        return Change::No(refused_root(kind));
    }
    match locate(device, meta, nodes, path) {
        Ok(Spot::At(place)) => match &place.entry {
            Some(entry) => remove_at(device, meta, nodes, path, &place, entry, kind),
            None => Change::No(Refusal::Enoent),
        },
        Ok(Spot::No(refusal)) => Change::No(refusal),
        Err(Stop::Fault) => Change::Fault,
        Err(Stop::Lost { wanted, found }) => Change::Lost { wanted, found },
    }
}

/// Removes an entry whose node is read first.
fn remove_at<D: VirtualPages>(
    device: &mut D,
    meta: &mut Meta,
    nodes: &mut Nodes,
    path: &Path,
    place: &Place,
    entry: &EntryRec,
    kind: Kind,
) -> Change
    requires formed { D.formed device.old }
    requires runs { RunningIsRight D.Counts device.old meta.old }
    requires free { FreeFits D.Counts device.old meta.old nodes.old }
    requires room { HasRoomForDirty 8 meta.old }
    requires place { IsPlaceOfPath D.Counts device.old meta.old path.now place.now }
    requires held { DirectoryIsResident D.Counts device.old meta.old meta.old place.now.dir place.now.rec }
    requires there { place.now.entry ≡ Some entry.now }
    requires short { is_too_long path.now ≡ false }
    requires used { kind ≢ Kind.Unused }
    ensures formed { D.formed device.new }
    ensures answer { RemovesName kind (graph_of (D.shape device.old) (running_on D.Counts device.old meta.old))
        (graph_of (D.shape device.new) (running_on D.Counts device.new meta.new)) path.now result }
    ensures left { ChangeLeaves D.Counts device.old meta.old nodes.old device.new meta.new nodes.new result }
    ensures reads { ReadsExplainStop D.Counts device.old device.new (change_stop result) }
{
    match node(device, meta, nodes, entry.ino) {
        Ok(target) => match refused_target(kind, &target) {
            Some(refusal) => Change::No(refusal),
            None => {
                take_out(meta, nodes, place.dir, entry.name.bytes());
                Change::Changed {
                    gone: Some(entry.ino),
                }
            }
        },
        Err(Stop::Fault) => Change::Fault,
        Err(Stop::Lost { wanted, found }) => Change::Lost { wanted, found },
    }
}

/// Why the root cannot lose its name.
fn refused_root(kind: Kind) -> Refusal
    ensures { result ≡ root_refusal kind }
{
    match kind {
        Kind::Dir => Refusal::Einval,
        _ => Refusal::Eisdir,
    }
}

/// Why a node cannot lose its name as one of a kind.
fn refused_target(kind: Kind, target: &InodeRec) -> Option<Refusal>
    ensures { result ≡ refusal_of_record kind target.now.kind target.now.size }
{
    match kind {
        Kind::Dir => match target.kind {
            Kind::Dir => {
                if target.size > 0 {
                    Some(Refusal::Enotempty)
                } else {
                    None
                }
            }
            _ => Some(Refusal::Enotdir),
        },
        _ => match target.kind {
            Kind::Dir => Some(Refusal::Eisdir),
            _ => None,
        },
    }
}
