ghost use Rattle.std.specs.Prelude.{◌≡◌, ◌^◌, ◌<◌, []};
ghost use Rattle.nl_core.specs.Core.{IsCore};
ghost use Rattle.nl_core.specs.Goes.{PreservesVolume};
ghost use Rattle.nl_core.specs.LastCommit.{HasRoomAtOnce, KeepsCommit};
ghost use Rattle.nl_tree.specs.Calls.{IsBounded};
ghost use Rattle.nl_tree.specs.Causes.{fault_sum};
ghost use Rattle.nl_tree.specs.declared.call.Call.TheVariants.{Truncate};
ghost use Rattle.nl_calls_steps.specs.Calls.{RepresentsSomeTree, counts_of};
ghost use Rattle.nl_calls_write.specs.Calls.{CanWriteLine};
ghost use Rattle.nl_calls_bytes.specs.Ranges.{IsWriting};
ghost use Rattle.nl_calls.specs.Answering.{AnswersCall, EndsLine, pages_of_files};
ghost use Rattle.nl_calls.specs.Commits.{NeedsNoCommit};

use crate::answer::{Answer, failed};
use nl_calls_bytes::length_of;
use nl_calls_steps::Written;
use nl_calls_truncate::truncate_call;
use nl_calls_write::write_call;
use nl_core::Core;
use nl_core::laws::pages_stay_as_many;
use nl_field::PageBuf;
use nl_iface::MovingPages;
use nl_spec_commits::laws::device_stands;
use nl_tree::{Call, FaultReply, Path, Reply};

// A write or a fill.
pub(crate) fn write<D: MovingPages>(
    core: &mut Core<D>,
    worker: u8,
    line: u32,
    call: &Call,
    files: u32,
    page: &mut PageBuf,
) -> Answer
    requires core { IsCore D.Counts core.old }
    requires stamp { D.next_stamp core.old.device < 2 ^ 62 }
    requires can { CanWriteLine D.Counts core.old worker line call.now files }
    requires writing { IsWriting call.now }
    requires bounded { IsBounded call.now }
    ensures core { IsCore D.Counts core.new }
    ensures answers { AnswersCall D.Counts worker call.now core.old core.new result.reply [] result.files }
    ensures commit { NeedsNoCommit D.Counts call.now core.old → KeepsCommit core.old core.new }
{
    pages_stay_as_many();
    let written = write_call(core, worker, line, call, files, page);
    device_stands(&core.device);
    match written {
        Written::Done(files) => Answer {
            reply: Reply::Count(length_of(call)),
            files,
        },
        Written::No(refusal) => undone(core, worker, Reply::No(refusal), files),
        Written::Lost { wanted, found } => {
            let reply = Reply::Fault(FaultReply::Edamaged { wanted, found });
            undone(core, worker, reply, files)
        }
        Written::Fault => {
            let reply = failed(core);
            undone(core, worker, reply, files)
        }
    }
}

// A truncate.
pub(crate) fn truncate<D: MovingPages>(
    core: &mut Core<D>,
    worker: u8,
    line: u32,
    path: &Path,
    size: u64,
    files: u32,
    page: &mut PageBuf,
) -> Answer
    requires core { IsCore D.Counts core.old }
    requires writes { core.old.stopped ≡ 0 }
    requires stamp { D.next_stamp core.old.device < 2 ^ 62 }
    requires runs { RepresentsSomeTree D.Counts core.old }
    requires known { worker < 8 }
    requires some { 0 < line }
    requires files { files ≡ pages_of_files D.Counts core.old }
    ensures core { IsCore D.Counts core.new }
    ensures answers { AnswersCall D.Counts worker (Truncate path.now size) core.old core.new result.reply [] result.files }
    ensures commit { HasRoomAtOnce D.Counts 4 1 core.old → KeepsCommit core.old core.new }
{
    pages_stay_as_many();
    let written = truncate_call(core, worker, line, path, size, files, page);
    device_stands(&core.device);
    match written {
        Written::Done(files) => Answer {
            reply: Reply::Done,
            files,
        },
        Written::No(refusal) => undone(core, worker, Reply::No(refusal), files),
        Written::Lost { wanted, found } => {
            let reply = Reply::Fault(FaultReply::Edamaged { wanted, found });
            undone(core, worker, reply, files)
        }
        Written::Fault => {
            let reply = failed(core);
            undone(core, worker, reply, files)
        }
    }
}

// A call that was not done: pages in flight of the worker are freed.
fn undone<D: MovingPages>(core: &mut Core<D>, worker: u8, reply: Reply, files: u32) -> Answer
    requires core { IsCore D.Counts core.old }
    requires known { worker < 8 }
    ensures core { IsCore D.Counts core.new }
    ensures goes { PreservesVolume D.Counts 0 core.old core.new }
    ensures line { EndsLine worker core.old.flight core.new.flight }
    ensures faults { fault_sum (counts_of D.Counts core.new.device) ≡ fault_sum (counts_of D.Counts core.old.device) }
    ensures answer { (result.reply ≡ reply) × (result.files ≡ files) }
    ensures commit { KeepsCommit core.old core.new }
{
    core.drop_line(worker);
    Answer { reply, files }
}
