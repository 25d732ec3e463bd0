ghost use Rattle.std.specs.Prelude.{◌≡◌, ◌+◌, ◌^◌, ◌≤◌, []};
ghost use Rattle.nl_core.specs.Core.{IsCore};
ghost use Rattle.nl_flight.specs.Flight.{begun, of_worker};
ghost use Rattle.nl_tree.specs.declared.call.Call.TheVariants.{Clean};
ghost use Rattle.nl_calls.specs.Answering.{AnswersCall, RunsReclaimPass, pages_of_files};

use crate::answer::{Answer, failed};
use nl_core::laws::pages_stay_as_many;
use nl_core::{Core, Rounded};
use nl_iface::MovingPages;
use nl_spec_commits::laws::device_stands;
use nl_tree::{FaultReply, Reply};

// A round of reclaiming.
pub(crate) fn clean<D: MovingPages>(core: &mut Core<D>, worker: u8, files: u32) -> Answer
    requires core { IsCore D.Counts core.old }
    requires writes { core.old.stopped ≡ 0 }
    requires stamp { D.next_stamp core.old.device + 2 ^ 20 ≤ 2 ^ 63 }
    requires idle { of_worker core.old.flight worker ≡ begun 0 }
    requires files { files ≡ pages_of_files D.Counts core.old }
    ensures core { IsCore D.Counts core.new }
    ensures answers { AnswersCall D.Counts worker Clean core.old core.new result.reply [] result.files }
    ensures cleaned { result.reply ≡ Reply.Done → RunsReclaimPass D.Counts D.MovingPages.own core.old core.new }
{
    pages_stay_as_many();
    device_stands(&core.device);
    let rounded = core.round();
    device_stands(&core.device);
    let reply = match rounded {
        Rounded::Done => Reply::Done,
        Rounded::Lost { wanted, found } => Reply::Fault(FaultReply::Edamaged { wanted, found }),
        Rounded::Fault => failed(core),
    };
    Answer { reply, files }
}
