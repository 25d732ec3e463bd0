//! The calls that change names, each led to the function that does it.
ghost use Rattle.nl_dir.specs.Directory.{HasRoomForDirty};
ghost use Rattle.nl_meta.specs.Nodes.{graph_of};
ghost use Rattle.nl_namespace.specs.Calls.{ChangesNames, PathsHaveNames, IsOfNames};
ghost use Rattle.nl_namespace.specs.Changing.{FreeFits, ChangeLeaves};
ghost use Rattle.nl_namespace.specs.Reading.{change_stop};
ghost use Rattle.nl_meta_running.specs.Reading.{ReadsExplainStop};
ghost use Rattle.nl_meta_running.specs.Running.{RunningIsRight, running_on};

use crate::answer::Change;
use crate::making::make;
use crate::removing::remove;
use crate::renaming::rename;
use nl_field::Kind;
use nl_iface::VirtualPages;
use nl_inode::Nodes;
use nl_meta::Meta;
use nl_tree::Call;

/// Does a call that changes names: mkdir, rmdir, create, unlink or rename. It tells the node that lost its name, whose record and pages
/// stay as they are, and whose number counts as used. A new node has the least free number and the generation after the last one of that
/// number, a new page the least free address. A refusal, a read that failed and a page that is lost leave all as it was.
pub fn change<D: VirtualPages>(
    device: &mut D,
    meta: &mut Meta,
    nodes: &mut Nodes,
    call: &Call,
) -> Change
    requires formed { D.formed device.old }
    requires runs { RunningIsRight D.Counts device.old meta.old }
    requires free { FreeFits D.Counts device.old meta.old nodes.old }
    requires room { HasRoomForDirty 8 meta.old }
    requires names { PathsHaveNames call.now }
    requires of_names { IsOfNames call.now }
    ensures formed { D.formed device.new }
    ensures answer { ChangesNames nodes.old (graph_of (D.shape device.old) (running_on D.Counts device.old meta.old))
        (graph_of (D.shape device.new) (running_on D.Counts device.new meta.new)) call.now result }
    ensures left { ChangeLeaves D.Counts device.old meta.old nodes.old device.new meta.new nodes.new result }
    ensures reads { ReadsExplainStop D.Counts device.old device.new (change_stop result) }
{
    match call {
        Call::Mkdir(path) => make(device, meta, nodes, path, Kind::Dir),
        Call::Rmdir(path) => remove(device, meta, nodes, path, Kind::Dir),
        Call::Create(path) => make(device, meta, nodes, path, Kind::File),
        Call::Unlink(path) => remove(device, meta, nodes, path, Kind::File),
        Call::Rename(from, to) => rename(device, meta, nodes, from, to),
        _ => unreachable!(),
    }
}
