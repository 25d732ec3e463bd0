ghost use Rattle.std.specs.Prelude.{◌≡◌, ◌≢◌, ◌⊎◌, ◌<◌, ◌≤◌, false, [], ℕ, length};
ghost use Rattle.nl_core.specs.Core.{IsCore};
ghost use Rattle.nl_core.specs.LastCommit.{KeepsCommit, LeavesMedium};
ghost use Rattle.nl_core.specs.Programming.{HasLineOrNone};
ghost use Rattle.nl_calls_steps.specs.Lines.{worker_pages};
ghost use Rattle.nl_calls_steps.specs.Calls.{RepresentsSomeTree};
ghost use Rattle.nl_flight.specs.Flight.{begun, of_worker};
ghost use Rattle.nl_tree.specs.Calls.{IsBounded};
ghost use Rattle.nl_tree.specs.Causes.{is_changing};
ghost use Rattle.nl_tree.specs.declared.call.Call.TheVariants.{Clean, Sync};
ghost use Rattle.nl_calls_write.specs.Calls.{AreStaged};
ghost use Rattle.nl_calls_bytes.specs.Ranges.{IsWriting};
ghost use Rattle.nl_calls.specs.Answering.{AnswersCall, IsReachedSync, RunsReclaimPass, MayTry, goal_now, pages_of_files};
ghost use Rattle.nl_calls.specs.Commits.{NeedsNoCommit};

use crate::answer::Answer;
use crate::cleaning::clean;
use crate::looking::look;
use crate::naming::name;
use crate::syncing::sync;
use crate::writing::{truncate, write};
use nl_core::Core;
use nl_core::laws::pages_stay_as_many;
use nl_field::PageBuf;
use nl_iface::MovingPages;
use nl_spec_commits::laws::device_stands;
use nl_tree::{Call, Reply, ReplyBuf};

/// Does a file call, and tells its reply, with the bytes that belong to it in the buffer, and how many pages files have then. A call that
/// changes something comes only where the volume can be written to. Pages that were staged for a call that writes are those of its range
/// that are whole. While the medium tells its contents, the reply is that of the step of the tree as which the core runs, or a fault with
/// its cause, which leaves the tree. A call that changes names takes the least free number for a new node, and the least free address for a
/// new page. A call for cleaning that is done did a round of reclaiming. A sync goes on until its goal is committed, which is fixed by its
/// line in flight and is else all calls so far; where it is committed already, the medium and the last commit stay as they are, and so they
/// do of a call that only looks. Nothing is committed but by a sync, by a call for cleaning, and where there is no room for the pages that
/// the call makes dirty or programs. The worker has no line afterwards.
pub fn answer_call<D: MovingPages>(
    core: &mut Core<D>,
    worker: u8,
    line: u32,
    call: &Call,
    files: u32,
    out: &mut ReplyBuf,
    page: &mut PageBuf,
) -> Answer
    requires core { IsCore D.Counts core.old }
    requires known { worker < 8 }
    requires some { 0 < line }
    requires line { HasLineOrNone core.old.flight worker line }
    requires may { MayTry D.Counts call.now core.old }
    requires runs { RepresentsSomeTree D.Counts core.old }
    requires bounded { IsBounded call.now }
    requires files { files ≡ pages_of_files D.Counts core.old }
    requires staged { AreStaged D.Counts core.old call.now (worker_pages core.old worker) }
    requires others { (w : ℕ) → length (of_worker core.old.flight w).pages ≤ 16 }
    requires goal { goal_now core.old worker ≤ core.old.count }
    requires nothing { out.old ≡ [] }
    ensures core { IsCore D.Counts core.new }
    ensures answers { AnswersCall D.Counts worker call.now core.old core.new result.reply out.new result.files }
    ensures cleaned { call.now ≡ Clean → result.reply ≡ Reply.Done → RunsReclaimPass D.Counts D.MovingPages.own core.old core.new }
    ensures commit { NeedsNoCommit D.Counts call.now core.old → KeepsCommit core.old core.new }
    ensures leaves { (is_changing call.now ≡ false) ⊎ IsReachedSync call.now (goal_now core.old worker) core.old
        → LeavesMedium D.Counts core.old core.new }
{
    match call {
        Call::Write(..) | Call::Fill(..) => write(core, worker, line, call, files, page),
        Call::Sync => sync(core, worker, files),
        _ => {
            pages_stay_as_many();
            core.drop_line(worker);
            answer_other(core, worker, line, call, files, out, page)
        }
    }
}

// Does a file call that writes no bytes and is no sync, of a worker without a line, and tells its reply, and how many pages files have then.
fn answer_other<D: MovingPages>(
    core: &mut Core<D>,
    worker: u8,
    line: u32,
    call: &Call,
    files: u32,
    out: &mut ReplyBuf,
    page: &mut PageBuf,
) -> Answer
    requires core { IsCore D.Counts core.old }
    requires known { worker < 8 }
    requires some { 0 < line }
    requires idle { of_worker core.old.flight worker ≡ begun 0 }
    requires may { MayTry D.Counts call.now core.old }
    requires runs { RepresentsSomeTree D.Counts core.old }
    requires bounded { IsBounded call.now }
    requires files { files ≡ pages_of_files D.Counts core.old }
    requires nothing { out.old ≡ [] }
    requires other { IsWriting call.now → ⊥ }
    requires no_sync { call.now ≢ Sync }
    ensures core { IsCore D.Counts core.new }
    ensures answers { AnswersCall D.Counts worker call.now core.old core.new result.reply out.new result.files }
    ensures cleaned { call.now ≡ Clean → result.reply ≡ Reply.Done → RunsReclaimPass D.Counts D.MovingPages.own core.old core.new }
    ensures commit { NeedsNoCommit D.Counts call.now core.old → KeepsCommit core.old core.new }
    ensures leaves { is_changing call.now ≡ false → LeavesMedium D.Counts core.old core.new }
{
    match call {
        Call::Read(..) | Call::Stat(_) | Call::List(_) => look(
            core, worker, call, files, out, page,
        ),
        Call::Clean => clean(core, worker, files),
        Call::Truncate(path, size) => truncate(core, worker, line, path, *size, files, page),
        Call::Write(..) | Call::Fill(..) | Call::Sync => unreachable!(),
        _ => name(core, worker, call, files),
    }
}
