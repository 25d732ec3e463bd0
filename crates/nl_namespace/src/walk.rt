//! A path is walked from node 0, name by name.
ghost use Rattle.std.specs.Prelude.{◌≡◌, IfOk};
ghost use Rattle.nl_meta.specs.Nodes.{graph_of};
ghost use Rattle.nl_namespace.specs.Paths.{IfNodeAt, Looks};
ghost use Rattle.nl_namespace.specs.Reading.{look_stop};
ghost use Rattle.nl_meta_running.specs.Running.{IsUsedNode, RunningIsRight, PreservesRunning, running_on};
ghost use Rattle.nl_namespace.specs.Stepping.{StepsInto};
ghost use Rattle.nl_meta_running.specs.Reading.{ReadsExplainStop, stop_of};

use crate::answer::Look;
use crate::hold::hold_entries;
use nl_dir::find;
use nl_field::Kind;
use nl_iface::VirtualPages;
use nl_inode::Nodes;
use nl_meta::Meta;
use nl_meta_running::{Stop, node};
use nl_tree::{Path, Refusal};

/// What a name leads to in a node.
#[derive(Clone, Copy, Debug, PartialEq, Eq)]
pub(crate) enum Step {
    To(u32),
    Missing,
    File,
}

/// What a path leads to from node 0: the node; `Missing` exactly where only the last name is missing; and `No` with the refusal of
/// the first name before the last that is missing, or is a file's. `Fault` comes only of a read that failed, and `Lost` only of a
/// page that does not hold the wanted sequence number.
pub fn look<D: VirtualPages>(device: &mut D, meta: &mut Meta, nodes: &Nodes, path: &Path) -> Look
    requires formed { D.formed device.old }
    requires runs { RunningIsRight D.Counts device.old meta.old }
    ensures formed { D.formed device.new }
    ensures answer { Looks (graph_of (D.shape device.old) (running_on D.Counts device.old meta.old)) path.now result }
    ensures used { IfNodeAt result (IsUsedNode D.Counts device.old meta.old) }
    ensures kept { PreservesRunning D.Counts device.old meta.old device.new meta.new }
    ensures reads { ReadsExplainStop D.Counts device.old device.new (look_stop result) }
{
    let count = path.len();
    let mut at = 0;
    for i in 0..count {
        match follow(device, meta, nodes, at, path.get(i).bytes()) {
            Ok(Step::To(ino)) => at = ino,
            Ok(Step::Missing) => {
                return if i + 1 == count {
                    Look::Missing
                } else {
                    Look::No(Refusal::Enoent)
                };
            }
            Ok(Step::File) => return Look::No(Refusal::Enotdir),
            Err(Stop::Fault) => return Look::Fault,
            Err(Stop::Lost { wanted, found }) => return Look::Lost { wanted, found },
        }
    }
    Look::At(at)
}

/// What a name leads to in a used node.
pub(crate) fn follow<D: VirtualPages>(
    device: &mut D,
    meta: &mut Meta,
    nodes: &Nodes,
    at: u32,
    name: &[u8],
) -> Result<Step, Stop>
    requires formed { D.formed device.old }
    requires runs { RunningIsRight D.Counts device.old meta.old }
    requires used { IsUsedNode D.Counts device.old meta.old at }
    ensures formed { D.formed device.new }
    ensures answer { IfOk result (StepsInto D.Counts device.old meta.old at name.now) }
    ensures kept { PreservesRunning D.Counts device.old meta.old device.new meta.new }
    ensures reads { ReadsExplainStop D.Counts device.old device.new (stop_of result) }
{
    let rec = node(device, meta, nodes, at)?;
    match rec.kind {
        Kind::Dir => {}
        _ => return Ok(Step::File),
    }
    hold_entries(device, meta, &rec)?;
    match find(&rec, meta, name) {
        Some(entry) => Ok(Step::To(entry.ino)),
        None => Ok(Step::Missing),
    }
}
