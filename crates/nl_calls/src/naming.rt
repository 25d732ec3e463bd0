ghost use Rattle.std.specs.Prelude.{◌≡◌, ◌+◌, ◌-◌, ◌^◌, ◌≤◌, []};
ghost use Rattle.nl_core.specs.Core.{IsCore};
ghost use Rattle.nl_core.specs.LastCommit.{KeepsCommit};
ghost use Rattle.nl_flight.specs.Flight.{begun, of_worker};
ghost use Rattle.nl_dir.specs.Directory.{HasRoomForDirty};
ghost use Rattle.nl_namespace.specs.Calls.{PathsHaveNames, IsOfNames};
ghost use Rattle.nl_calls.specs.Answering.{AnswersCall, pages_of_files};
ghost use Rattle.nl_calls.specs.Commits.{NeedsNoCommit};

use crate::answer::{Answer, failed};
use nl_calls_names::{Naming, change_names};
use nl_core::Core;
use nl_core::laws::pages_stay_as_many;
use nl_iface::MovingPages;
use nl_journal::Committing;
use nl_spec_commits::laws::device_stands;
use nl_tree::{Call, FaultReply, Reply};

// How many pages may be dirty before a call makes up to nine more so.
const FEW: u32 = 54;

// A call that changes names, where nine more pages may become dirty, or else after a commit.
pub(crate) fn name<D: MovingPages>(
    core: &mut Core<D>,
    worker: u8,
    call: &Call,
    files: u32,
) -> Answer
    requires core { IsCore D.Counts core.old }
    requires writes { core.old.stopped ≡ 0 }
    requires stamp { D.next_stamp core.old.device + 512 ≤ 2 ^ 63 }
    requires idle { of_worker core.old.flight worker ≡ begun 0 }
    requires names { PathsHaveNames call.now }
    requires of_names { IsOfNames call.now }
    requires files { files ≡ pages_of_files D.Counts core.old }
    ensures core { IsCore D.Counts core.new }
    ensures answers { AnswersCall D.Counts worker call.now core.old core.new result.reply [] result.files }
    ensures commit { NeedsNoCommit D.Counts call.now core.old → KeepsCommit core.old core.new }
{
    if core.meta.dirty() <= FEW {
        return name_now(core, worker, call, files);
    }
    pages_stay_as_many();
    device_stands(&core.device);
    let committed = core.commit();
    device_stands(&core.device);
    match committed {
        Committing::Done(_) => name_now(core, worker, call, files),
        Committing::Lost { wanted, found } => Answer {
            reply: Reply::Fault(FaultReply::Edamaged { wanted, found }),
            files,
        },
        Committing::Fault => Answer {
            reply: failed(core),
            files,
        },
    }
}

// A call that changes names, where nine more pages may become dirty. Pages of a file that is gone await their free then.
fn name_now<D: MovingPages>(core: &mut Core<D>, worker: u8, call: &Call, files: u32) -> Answer
    requires core { IsCore D.Counts core.old }
    requires room { HasRoomForDirty 9 core.old.meta }
    requires idle { of_worker core.old.flight worker ≡ begun 0 }
    requires names { PathsHaveNames call.now }
    requires of_names { IsOfNames call.now }
    requires files { files ≡ pages_of_files D.Counts core.old }
    ensures core { IsCore D.Counts core.new }
    ensures answers { AnswersCall D.Counts worker call.now core.old core.new result.reply [] result.files }
    ensures commit { KeepsCommit core.old core.new }
{
    device_stands(&core.device);
    let before = core.freeing.len();
    let named = change_names(core, call);
    let held = held_after(files, before, core.freeing.len());
    device_stands(&core.device);
    let reply = match named {
        Naming::Done => Reply::Done,
        Naming::No(refusal) => Reply::No(refusal),
        Naming::Lost { wanted, found } => Reply::Fault(FaultReply::Edamaged { wanted, found }),
        Naming::Fault => failed(core),
    };
    Answer { reply, files: held }
}

// How many pages files have, once more await their free that were theirs.
fn held_after(files: u32, before: u32, after: u32) -> u32
    requires within { after ≤ files + before }
    requires few { files + before - after ≤ 4294967295 }
    ensures { result ≡ files + before - after }
{
    (u64::from(files) + u64::from(before) - u64::from(after)) as u32
}
