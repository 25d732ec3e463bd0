ghost use Rattle.std.specs.Prelude.{◌≡◌, ◌≤◌, ◌<◌, ◌+◌, ◌-◌, ◌/◌, ◌^◌, false, IfOk, OnErr, Some, length};
ghost use Rattle.nl_flight.specs.Flight.{of_worker};
ghost use Rattle.nl_tree.specs.Represents.{node_reached};
ghost use Rattle.nl_tree.specs.Step.{is_too_long};
ghost use Rattle.nl_tree.specs.declared.call.Call.TheVariants.{Truncate};
ghost use Rattle.nl_iface.specs.Calls.{StoresPages};
ghost use Rattle.nl_iface.specs.Device.{IsVolumeShape};
ghost use Rattle.nl_meta.specs.Pages.{besides_0, most};
ghost use Rattle.nl_meta_running.specs.Reading.{stop_of};
ghost use Rattle.nl_core.specs.Core.{IsCore};
ghost use Rattle.nl_core.specs.Goes.{PreservesVolume};
ghost use Rattle.nl_core.specs.LastCommit.{HasRoomAtOnce, KeepsCommit};
ghost use Rattle.nl_calls_steps.specs.Installing.{FilePointerIsResident};
ghost use Rattle.nl_calls_steps.specs.Steps.{ReadsOn};
ghost use Rattle.nl_calls_files.specs.Taking.{HasRoomToTake};
ghost use Rattle.nl_calls_steps.specs.Truncating.{CutsFileTo, HasPartial};
ghost use Rattle.nl_calls_steps.specs.Answers.{EndsEarly};
ghost use Rattle.nl_calls_steps.specs.Calls.{HasPagesOfFiles, IfWritten, IfUndone, OtherLinesStay, RepresentsSomeTree, TakesCall, stop_in};
ghost use Rattle.nl_calls_steps.specs.Finding.{IsFoundFile, IsSomeFile, nodes_of};
ghost use Rattle.nl_calls_truncate.specs.Truncating.{AnswersTruncate, CanCut, CanTruncate, CutsFile, IsCutInTree, IsUncut, Truncates};

use crate::cutting::{hold_end, open_file, put_cut};
use nl_calls_steps::{Found, Written, cut_file, find_file, make_room};
use nl_core::Core;
use nl_field::{InodeRec, PageBuf};
use nl_files::FileAnswer;
use nl_flight::Flight;
use nl_iface::MovingPages;
use nl_meta_running::Stop;
use nl_namespace::laws::looks_in_tree;
use nl_spec_commits::laws::device_stands;
use nl_tree::{Path, Refusal};

/// The greatest size of a file.
const MOST: u64 = 16_809_984;

/// Cuts a file to a size or lengthens it, on a volume that can be written and whose files have so many pages. The pages that the worker has
/// in flight are dropped. `Done` comes where the step of the tree is done, with how many pages files have then; `No` with its refusal,
/// which is never for want of room; `Fault` where a program, a read or a commit failed; and `Lost` where a page does not hold the write
/// sequence number under which it is looked for. But for `Done` the tree and the number of pages are as before, and a page may be in flight
/// for the line. Where four more pages of the metadata may become dirty and the device has room for a page, nothing is committed.
pub fn truncate_call<D: MovingPages>(
    core: &mut Core<D>,
    worker: u8,
    line: u32,
    path: &Path,
    size: u64,
    files: u32,
    page: &mut PageBuf,
) -> Written
    requires core { IsCore D.Counts core.old }
    requires writes { core.old.stopped ≡ 0 }
    requires stamp { D.next_stamp core.old.device < 2 ^ 62 }
    requires runs { RepresentsSomeTree D.Counts core.old }
    requires known { worker < 8 }
    requires some { 0 < line }
    requires files { HasPagesOfFiles D.Counts core.old files }
    ensures core { IsCore D.Counts core.new }
    ensures done { IfWritten result (λ now. TakesCall D.Counts worker (Truncate path.now size) core.old core.new
        × HasPagesOfFiles D.Counts core.new now) }
    ensures undone { IfUndone result (PreservesVolume D.Counts (2 ^ 40) core.old core.new × HasPagesOfFiles D.Counts core.new files) }
    ensures answer { AnswersTruncate D.Counts path.now size core.old result }
    ensures others { OtherLinesStay worker core.old.flight core.new.flight }
    ensures early { EndsEarly D.Counts core.old core.new (stop_in result) }
    ensures commit { HasRoomAtOnce D.Counts 4 1 core.old → KeepsCommit core.old core.new }
{
    core.drop_line(worker);
    truncate_alone(core, worker, line, path, size, files, page)
}

// Cuts a file to a size or lengthens it, for a worker without a line.
fn truncate_alone<D: MovingPages>(
    core: &mut Core<D>,
    worker: u8,
    line: u32,
    path: &Path,
    size: u64,
    files: u32,
    page: &mut PageBuf,
) -> Written
    requires core { IsCore D.Counts core.old }
    requires stamp { D.next_stamp core.old.device < 2 ^ 62 }
    requires can { CanTruncate D.Counts core.old worker line }
    requires files { HasPagesOfFiles D.Counts core.old files }
    ensures truncates { Truncates D.Counts worker path.now size core.old core.new result }
    ensures commit { HasRoomAtOnce D.Counts 4 1 core.old → KeepsCommit core.old core.new }
{
    match find_there(core, path) {
        Ok(Found::File(ino)) => truncate_found(core, worker, line, path, ino, size, files, page),
        Ok(Found::No(refusal)) => Written::No(refusal),
        Err(Stop::Fault) => Written::Fault,
        Err(Stop::Lost { wanted, found }) => Written::Lost { wanted, found },
    }
}

// The file that a path leads to, or why it leads to none.
fn find_there<D: MovingPages>(core: &mut Core<D>, path: &Path) -> Result<Found, Stop>
    requires core { IsCore D.Counts core.old }
    ensures core { IsCore D.Counts core.new }
    ensures volume { IsVolumeShape (D.shape core.old.device) }
    ensures stores { D.tells → StoresPages D.Counts core.new.device }
    ensures same { ReadsOn D.Counts core.old core.new }
    ensures found { IfOk result (IsFoundFile D.Counts core.old path.now) }
    ensures early { EndsEarly D.Counts core.old core.new (stop_of result) }
{
    device_stands(&core.device);
    let found = find_file(core, path);
    device_stands(&core.device);
    found
}

// Cuts the file to which the path leads to a size or lengthens it, for a worker without a line.
fn truncate_found<D: MovingPages>(
    core: &mut Core<D>,
    worker: u8,
    line: u32,
    path: &Path,
    ino: u32,
    size: u64,
    files: u32,
    page: &mut PageBuf,
) -> Written
    requires core { IsCore D.Counts core.old }
    requires stamp { D.next_stamp core.old.device < 2 ^ 62 }
    requires can { CanTruncate D.Counts core.old worker line }
    requires short { is_too_long path.now ≡ false }
    requires leads { node_reached (nodes_of D.Counts core.old) 0 path.now ≡ Some ino }
    requires file { IsSomeFile D.Counts core.old ino }
    requires files { HasPagesOfFiles D.Counts core.old files }
    ensures truncates { Truncates D.Counts worker path.now size core.old core.new result }
    ensures commit { HasRoomAtOnce D.Counts 4 1 core.old → KeepsCommit core.old core.new }
{
    looks_in_tree();
    if size > MOST {
        return Written::No(Refusal::Efbig);
    }
    match truncate_file(core, worker, line, ino, size, files, page) {
        Ok(now) => Written::Done(now),
        Err(Stop::Fault) => Written::Fault,
        Err(Stop::Lost { wanted, found }) => Written::Lost { wanted, found },
    }
}

// Cuts a file to a size that a file may have, and tells how many pages files have then.
fn truncate_file<D: MovingPages>(
    core: &mut Core<D>,
    worker: u8,
    line: u32,
    ino: u32,
    size: u64,
    files: u32,
    page: &mut PageBuf,
) -> Result<u32, Stop>
    requires core { IsCore D.Counts core.old }
    requires stamp { D.next_stamp core.old.device < 2 ^ 62 }
    requires can { CanTruncate D.Counts core.old worker line }
    requires file { IsSomeFile D.Counts core.old ino }
    requires size { size ≤ 16809984 }
    requires files { HasPagesOfFiles D.Counts core.old files }
    ensures core { IsCore D.Counts core.new }
    ensures cut { IfOk result (λ n. CutsFile D.Counts (2 ^ 31) worker ino size core.old core.new) }
    ensures files { IfOk result (HasPagesOfFiles D.Counts core.new) }
    ensures uncut { OnErr result (PreservesVolume D.Counts (2 ^ 31) core.old core.new) }
    ensures others { OtherLinesStay worker core.old.flight core.new.flight }
    ensures early { EndsEarly D.Counts core.old core.new (stop_of result) }
    ensures commit { HasRoomAtOnce D.Counts 4 1 core.old → KeepsCommit core.old core.new }
{
    put_cut(core, worker, line, ino, size, page)?;
    if core.stopped != 0 {
        return Err(Stop::Fault);
    }
    make_room(core)?;
    device_stands(&core.device);
    cut_now(core, worker, ino, size, files)
}

// Cuts a file where the page in which it ends then is in flight, if it needs one, and pages may become dirty.
fn cut_now<D: MovingPages>(
    core: &mut Core<D>,
    worker: u8,
    ino: u32,
    size: u64,
    files: u32,
) -> Result<u32, Stop>
    requires core { IsCore D.Counts core.old }
    requires known { worker < 8 }
    requires size { size ≤ 16809984 }
    requires ready { CanCut D.Counts core.old worker ino size }
    requires room { length (besides_0 core.old.meta.dirty) + 4 ≤ most }
    requires files { HasPagesOfFiles D.Counts core.old files }
    ensures core { IsCore D.Counts core.new }
    ensures cut { IfOk result (λ n. IsCutInTree D.Counts worker ino size core.old core.new) }
    ensures files { IfOk result (HasPagesOfFiles D.Counts core.new) }
    ensures uncut { OnErr result (IsUncut D.Counts core.old core.new) }
    ensures early { EndsEarly D.Counts core.old core.new (stop_of result) }
    ensures commit { KeepsCommit core.old core.new }
{
    let mut rec = open_file(core, ino)?;
    hold_end(core, &rec, size)?;
    cut_held(core, worker, ino, &mut rec, size, files)
}

// Cuts a file whose record is resident, and the page that has the pointer of the index in which it ends then.
fn cut_held<D: MovingPages>(
    core: &mut Core<D>,
    worker: u8,
    ino: u32,
    rec: &mut InodeRec,
    size: u64,
    files: u32,
) -> Result<u32, Stop>
    requires core { IsCore D.Counts core.old }
    requires known { worker < 8 }
    requires hand { FilePointerIsResident D.Counts core.old ino (size / 4096) rec.old }
    requires partial { HasPartial D.Counts core.old worker ino size rec.old }
    requires room { HasRoomToTake core.old.meta rec.old ino (size / 4096) }
    requires size { size ≤ 16809984 }
    requires files { HasPagesOfFiles D.Counts core.old files }
    ensures core { IsCore D.Counts core.new }
    ensures cut { IfOk result (λ n. CutsFileTo D.Counts worker ino size rec.old rec.new core.old core.new) }
    ensures files { IfOk result (HasPagesOfFiles D.Counts core.new) }
    ensures uncut { OnErr result (IsUncut D.Counts core.old core.new) }
    ensures early { EndsEarly D.Counts core.old core.new (stop_of result) }
    ensures commit { KeepsCommit core.old core.new }
{
    device_stands(&core.device);
    let landing = pages_of(&core.flight, worker);
    let awaited = core.freeing.len();
    match cut_file(core, worker, ino, rec, size) {
        FileAnswer::Done => Ok(files_after(files, landing, awaited, core.freeing.len())),
        FileAnswer::Fault => Err(Stop::Fault),
        FileAnswer::Lost { wanted, found } => Err(Stop::Lost { wanted, found }),
    }
}

// How many pages a worker has in flight, of which it has one at most.
fn pages_of(flight: &Flight, worker: u8) -> u32
    requires known { worker < 8 }
    requires one { length (of_worker flight.now worker).pages ≤ 1 }
    ensures { result ≡ length (of_worker flight.now worker).pages }
{
    match flight.get(worker, 0) {
        Some(_) => 1,
        None => 0,
    }
}

// How many pages files have, of those that they had, those that landed in them, and how many more await their free.
fn files_after(files: u32, landed: u32, before: u32, after: u32) -> u32
    requires enough { after ≤ files + landed + before }
    requires fits { files + landed + before < 2 ^ 32 + after }
    ensures { result + after ≡ files + landed + before }
{
    (u64::from(files) + u64::from(landed) + u64::from(before) - u64::from(after)) as u32
}
