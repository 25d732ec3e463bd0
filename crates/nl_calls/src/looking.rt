ghost use Rattle.std.specs.Prelude.{◌≡◌, []};
ghost use Rattle.nl_core.specs.Core.{IsCore};
ghost use Rattle.nl_core.specs.LastCommit.{LeavesMedium};
ghost use Rattle.nl_flight.specs.Flight.{begun, of_worker};
ghost use Rattle.nl_calls_read.specs.Looking.{OnlyLooks};
ghost use Rattle.nl_tree.specs.Calls.{IsBounded};
ghost use Rattle.nl_calls.specs.Answering.{AnswersCall, pages_of_files};

use crate::answer::{Answer, failed};
use nl_calls_read::{Looked, look_call};
use nl_core::Core;
use nl_core::laws::pages_stay_as_many;
use nl_field::PageBuf;
use nl_iface::MovingPages;
use nl_spec_commits::laws::device_stands;
use nl_tree::{Call, FaultReply, Reply, ReplyBuf};

// A call that only looks.
pub(crate) fn look<D: MovingPages>(
    core: &mut Core<D>,
    worker: u8,
    call: &Call,
    files: u32,
    out: &mut ReplyBuf,
    page: &mut PageBuf,
) -> Answer
    requires core { IsCore D.Counts core.old }
    requires idle { of_worker core.old.flight worker ≡ begun 0 }
    requires looks { OnlyLooks call.now }
    requires bounded { IsBounded call.now }
    requires files { files ≡ pages_of_files D.Counts core.old }
    requires nothing { out.old ≡ [] }
    ensures core { IsCore D.Counts core.new }
    ensures answers { AnswersCall D.Counts worker call.now core.old core.new result.reply out.new result.files }
    ensures leaves { LeavesMedium D.Counts core.old core.new }
{
    pages_stay_as_many();
    device_stands(&core.device);
    let looked = look_call(core, call, out, page);
    device_stands(&core.device);
    let reply = match looked {
        Looked::Replied(reply) => reply,
        Looked::Lost { wanted, found } => Reply::Fault(FaultReply::Edamaged { wanted, found }),
        Looked::Fault => failed(core),
    };
    Answer { reply, files }
}
