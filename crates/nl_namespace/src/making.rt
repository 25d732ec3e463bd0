//! An empty directory, or an empty file, is made under a path.
ghost use Rattle.std.specs.Prelude.{◌≡◌, ◌≢◌, ◌-◌, ◌&&◌, nat_le, None, Some, IsTrue, length, slice_get};
ghost use Rattle.nl_dir.specs.Directory.{HasRoomForDirty};
ghost use Rattle.nl_meta.specs.Nodes.{graph_of};
ghost use Rattle.nl_tree.specs.Calls.{AreNames};
ghost use Rattle.nl_namespace.specs.Changing.{FreeFits, ChangeLeaves};
ghost use Rattle.nl_namespace.specs.Making.{empty_node};
ghost use Rattle.nl_field.specs.Names.{is_name};
ghost use Rattle.nl_field.specs.Numbers.{max_name};
ghost use Rattle.nl_namespace.specs.Naming.{MakesNode, refusal_of_name};
ghost use Rattle.nl_namespace.specs.Placing.{DirectoryIsResident, IsPlaceOfPath};
ghost use Rattle.nl_namespace.specs.Reading.{change_stop};
ghost use Rattle.nl_meta_running.specs.Reading.{ReadsExplainStop};
ghost use Rattle.nl_meta_running.specs.Running.{RunningIsRight, running_on};

use crate::answer::Change;
use crate::free::room_for;
use crate::naming::{name_node, name_of};
use crate::place::{Place, Spot, locate};
use nl_field::Kind;
use nl_iface::VirtualPages;
use nl_inode::Nodes;
use nl_meta::Meta;
use nl_meta_running::{Stop, hold};
use nl_tree::{Path, Refusal, is_long};

/// Makes an empty directory, or an empty file, under a path. The node has the least free number, and is of the generation after that of
/// the last node that had it; a new page of the directory has the least free address. A refusal, a read that failed and a page that is lost
/// leave all as it was.
pub fn make<D: VirtualPages>(
    device: &mut D,
    meta: &mut Meta,
    nodes: &mut Nodes,
    path: &Path,
    kind: Kind,
) -> Change
    requires formed { D.formed device.old }
    requires runs { RunningIsRight D.Counts device.old meta.old }
    requires free { FreeFits D.Counts device.old meta.old nodes.old }
    requires room { HasRoomForDirty 8 meta.old }
    requires names { AreNames path.now }
    requires used { kind ≢ Kind.Unused }
    ensures formed { D.formed device.new }
    ensures answer { MakesNode nodes.old (graph_of (D.shape device.old) (running_on D.Counts device.old meta.old))
        (graph_of (D.shape device.new) (running_on D.Counts device.new meta.new)) path.now (empty_node kind) result }
    ensures left { ChangeLeaves D.Counts device.old meta.old nodes.old device.new meta.new nodes.new result }
    ensures reads { ReadsExplainStop D.Counts device.old device.new (change_stop result) }
{
    if is_long(path.names()) {
        return Change::No(Refusal::Enametoolong);
    }
    if path.len() == 0 {
        return Change::No(Refusal::Eexist);
    }
    match locate(device, meta, nodes, path) {
        Ok(Spot::At(place)) => match place.entry {
            Some(_) => Change::No(Refusal::Eexist),
            None => {
                let last = path.get(path.len() - 1);
                make_at(device, meta, nodes, path, &place, last.bytes(), kind)
            }
        },
        Ok(Spot::No(refusal)) => Change::No(refusal),
        Err(Stop::Fault) => Change::Fault,
        Err(Stop::Lost { wanted, found }) => Change::Lost { wanted, found },
    }
}

/// Makes it in a directory without an entry of the last name.
fn make_at<D: VirtualPages>(
    device: &mut D,
    meta: &mut Meta,
    nodes: &mut Nodes,
    path: &Path,
    place: &Place,
    name: &[u8],
    kind: Kind,
) -> Change
    requires formed { D.formed device.old }
    requires runs { RunningIsRight D.Counts device.old meta.old }
    requires free { FreeFits D.Counts device.old meta.old nodes.old }
    requires room { HasRoomForDirty 8 meta.old }
    requires named { IsTrue (is_name name.now && nat_le (length name.now) max_name) }
    requires last { slice_get path.now (length path.now - 1) ≡ Some name.now }
    requires place { IsPlaceOfPath D.Counts device.old meta.old path.now place.now }
    requires held { DirectoryIsResident D.Counts device.old meta.old meta.old place.now.dir place.now.rec }
    requires absent { place.now.entry ≡ None }
    requires unrefused { refusal_of_name (graph_of (D.shape device.old) (running_on D.Counts device.old meta.old)) path.now ≡ None }
    requires used { kind ≢ Kind.Unused }
    ensures formed { D.formed device.new }
    ensures answer { MakesNode nodes.old (graph_of (D.shape device.old) (running_on D.Counts device.old meta.old))
        (graph_of (D.shape device.new) (running_on D.Counts device.new meta.new)) path.now (empty_node kind) result }
    ensures left { ChangeLeaves D.Counts device.old meta.old nodes.old device.new meta.new nodes.new result }
    ensures reads { ReadsExplainStop D.Counts device.old device.new (change_stop result) }
{
    match room_for(nodes, place.rec.size) {
        Ok(ino) => match hold(device, meta, 67 + ino / 16) {
            Ok(()) => {
                name_node(meta, nodes, place.dir, ino, kind, name_of(name));
                Change::Changed { gone: None }
            }
            Err(Stop::Fault) => Change::Fault,
            Err(Stop::Lost { wanted, found }) => Change::Lost { wanted, found },
        },
        Err(space) => Change::No(Refusal::Enospc(space)),
    }
}
