ghost use Rattle.std.specs.Prelude.{ℕ, [], IfSome, OnErr, OnOk, Some};
ghost use Rattle.nl_core.specs.Core.{IsCore, running_of};
ghost use Rattle.nl_calls_files.specs.Fits.{IsFileOf};
ghost use Rattle.nl_files.specs.Spans.{pointers_from};
ghost use Rattle.nl_namespace.specs.Calls.{IsOfNames};
ghost use Rattle.nl_calls_names.specs.Gathering.{GathersOn, OpensNode, graph_on, node_lost, pointers_of_node};
ghost use Rattle.nl_meta_running.specs.Reading.{ReadsExplainStop, stop_of};
ghost use Rattle.nl_meta_running.specs.Running.{IsUsedNode};

use crate::finding::find_lost;
use nl_calls_steps::open_node;
use nl_core::Core;
use nl_field::{InodeRec, Kind};
use nl_files::{FileAnswer, gather};
use nl_iface::MovingPages;
use nl_meta_running::Stop;
use nl_spec_commits::laws::device_stands;
use nl_tree::Call;

/// Opens the node that loses its name where the call is done. Its pointers, if it is a file, stand behind those that await their free.
pub(crate) fn gather_lost<D: MovingPages>(core: &mut Core<D>, call: &Call) -> Result<(), Stop>
    requires core { IsCore D.Counts core.old }
    requires of_names { IsOfNames call.now }
    ensures formed { D.formed core.new.device }
    ensures done { OnOk result (GathersOn D.Counts core.old core.new
        (pointers_of_node (graph_on D.Counts core.old) (node_lost (graph_on D.Counts core.old) call.now))) }
    ensures opened { OnOk result (IfSome (node_lost (graph_on D.Counts core.old) call.now) (OpensNode D.Counts core.old core.new)) }
    ensures stopped { OnErr result (GathersOn D.Counts core.old core.new []) }
    ensures reads { ReadsExplainStop D.Counts core.old.device core.new.device (stop_of result) }
{
    device_stands(&core.device);
    match find_lost(core, call) {
        Ok(found) => match found {
            Some(ino) => gather_node(core, ino),
            None => Ok(()),
        },
        Err(stop) => Err(stop),
    }
}

/// Makes the page of a node's record resident. The pointers of the node, if it is a file, stand behind those that await their free.
pub(crate) fn gather_node<D: MovingPages>(core: &mut Core<D>, ino: u32) -> Result<(), Stop>
    requires core { IsCore D.Counts core.old }
    requires used { IsUsedNode D.Counts core.old.device core.old.meta ino }
    ensures formed { D.formed core.new.device }
    ensures done { OnOk result (GathersOn D.Counts core.old core.new (pointers_of_node (graph_on D.Counts core.old) (Some ino))) }
    ensures opened { OnOk result (OpensNode D.Counts core.old core.new ino) }
    ensures stopped { OnErr result (GathersOn D.Counts core.old core.new []) }
    ensures reads { ReadsExplainStop D.Counts core.old.device core.new.device (stop_of result) }
{
    device_stands(&core.device);
    match open_node(core, ino) {
        Ok(rec) => match rec.kind {
            Kind::File => gather_file(core, &rec),
            Kind::Dir => Ok(()),
            Kind::Unused => Ok(()),
        },
        Err(stop) => Err(stop),
    }
}

// The pointers of a file stand behind those that await their free.
pub(crate) fn gather_file<D: MovingPages>(core: &mut Core<D>, rec: &InodeRec) -> Result<(), Stop>
    requires core { IsCore D.Counts core.old }
    requires file { (n : ℕ) × IsFileOf D.Counts core.old.device core.old.meta n rec.now }
    ensures formed { D.formed core.new.device }
    ensures done { OnOk result (GathersOn D.Counts core.old core.new (pointers_from (running_of D.Counts core.old) rec.now 0)) }
    ensures stopped { OnErr result (GathersOn D.Counts core.old core.new []) }
    ensures reads { ReadsExplainStop D.Counts core.old.device core.new.device (stop_of result) }
{
    device_stands(&core.device);
    match gather(&mut core.device, &mut core.meta, rec, 0, &mut core.freeing) {
        FileAnswer::Done => Ok(()),
        FileAnswer::Fault => Err(Stop::Fault),
        FileAnswer::Lost { wanted, found } => Err(Stop::Lost { wanted, found }),
    }
}
