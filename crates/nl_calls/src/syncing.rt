ghost use Rattle.std.specs.Prelude.{◌≡◌, ◌+◌, ◌^◌, ◌<◌, ◌≤◌, []};
ghost use Rattle.nl_core.specs.Core.{IsCore};
ghost use Rattle.nl_core.specs.LastCommit.{LeavesMedium};
ghost use Rattle.nl_tree.specs.declared.call.Call.TheVariants.{Sync};
ghost use Rattle.nl_calls.specs.Answering.{AnswersCall, goal_now, pages_of_files};

use crate::answer::{Answer, failed};
use nl_core::Core;
use nl_core::laws::pages_stay_as_many;
use nl_field::VirtualWrite;
use nl_iface::MovingPages;
use nl_spec_commits::laws::device_stands;
use nl_tree::{FaultReply, Reply};

// A sync. It has the goal of its line, and all calls so far where none is fixed. Where the goal is reached, nothing is done to the medium.
pub(crate) fn sync<D: MovingPages>(core: &mut Core<D>, worker: u8, files: u32) -> Answer
    requires core { IsCore D.Counts core.old }
    requires known { worker < 8 }
    requires writes { core.old.stopped ≡ 0 }
    requires stamp { D.next_stamp core.old.device + 512 ≤ 2 ^ 63 }
    requires goal { goal_now core.old worker ≤ core.old.count }
    requires files { files ≡ pages_of_files D.Counts core.old }
    ensures core { IsCore D.Counts core.new }
    ensures answers { AnswersCall D.Counts worker Sync core.old core.new result.reply [] result.files }
    ensures at_once { goal_now core.old worker ≤ core.old.committed → LeavesMedium D.Counts core.old core.new }
{
    pages_stay_as_many();
    let goal = core.flight.goal(worker).unwrap_or(core.count);
    core.drop_line(worker);
    device_stands(&core.device);
    let reached = core.reach(goal);
    device_stands(&core.device);
    let reply = match reached {
        VirtualWrite::Done => Reply::Synced {
            upto: core.committed,
            moment: core.moment,
        },
        VirtualWrite::Lost { wanted, found } => {
            Reply::Fault(FaultReply::Edamaged { wanted, found })
        }
        VirtualWrite::Fault => failed(core),
    };
    Answer { reply, files }
}
