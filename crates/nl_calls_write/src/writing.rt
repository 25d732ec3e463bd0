// The call that writes bytes to a file, and the parts of which it consists.
ghost use Rattle.std.specs.Prelude.{◌≡◌, ◌+◌, ◌≤◌, ◌<◌, ◌^◌, ℕ, false, nat_lt, length, Err, Some};
ghost use Rattle.nl_field.specs.Numbers.{max_bytes, max_file_size};
ghost use Rattle.nl_flight.specs.Flight.{of_worker};
ghost use Rattle.nl_iface.specs.Device.{IsVolumeShape};
ghost use Rattle.nl_journal_commit.specs.Holding.{running_holders};
ghost use Rattle.nl_meta.specs.Pages.{besides_0, most};
ghost use Rattle.nl_tree.specs.Calls.{IsBounded};
ghost use Rattle.nl_tree.specs.Represents.{node_reached};
ghost use Rattle.nl_tree.specs.Step.{is_too_long};
ghost use Rattle.nl_core.specs.Core.{IsCore};
ghost use Rattle.nl_core.specs.LastCommit.{KeepsCommit, KeepsRoom};
ghost use Rattle.nl_core.specs.Programming.{HasLineOrNone};
ghost use Rattle.nl_calls_steps.specs.Lines.{worker_pages};
ghost use Rattle.nl_calls_steps.specs.Calls.{HasPagesOfFiles, IfUndone, RepresentsSomeTree};
ghost use Rattle.nl_calls_steps.specs.Finding.{IsOfGeneration, IsSomeFile, nodes_of};
ghost use Rattle.nl_calls_write.specs.Calls.{AreStaged, CanWriteLine, EndsWrite, HasRoomToWrite, ended_as};
ghost use Rattle.nl_calls_bytes.specs.Contents.{count_indexes};
ghost use Rattle.nl_calls_bytes.specs.InFlight.{AreOfCall, HasAll};
ghost use Rattle.nl_calls_bytes.specs.Ranges.{IsSomeWrite, IsWriting, from_of, len_of, path_of};
ghost use Rattle.nl_calls_write.specs.Fitting.{FileIsReady};
ghost use Rattle.nl_calls_write.specs.Lines.{IsLineOfCall, KeepsLine, RepresentsWritten};

use crate::answer::Fits;
use crate::fitting::fits;
use crate::putting::put_pages;
use nl_calls_bytes::laws::looks_refuse;
use nl_calls_bytes::{all_of_file, length_of, offset_of, path_written};
use nl_calls_steps::{Found, Written, find_file, install_line, make_room};
use nl_core::Core;
use nl_core::laws::flight_leads;
use nl_field::{InodeRec, PageBuf};
use nl_iface::MovingPages;
use nl_meta_running::Stop;
use nl_spec_commits::laws::device_stands;
use nl_tree::{Call, Refusal};

const PAGE: u64 = 4096;

/// The greatest size of a file.
const MOST: u64 = 16_809_984;

/// Writes bytes to a file, on a volume that can be written and whose files have so many pages. Pages that are in flight for the line are
/// those of the range that lie wholly in it, from the first one on; the others are programmed here, and all of them become the file's at
/// once. `Done` comes where the step of the tree is done, with how many pages files have then; `No` with its refusal, also for want of
/// room; `Fault` where a program or a read failed, and `Lost` where a page does not hold the write sequence number under which it is looked
/// for. But for `Done` the tree and the number of pages are as before, and pages may be in flight for the line.
/// Where there is room for the call without a commit, none is made.
pub fn write_call<D: MovingPages>(
    core: &mut Core<D>,
    worker: u8,
    line: u32,
    call: &Call,
    files: u32,
    page: &mut PageBuf,
) -> Written
    requires core { IsCore D.Counts core.old }
    requires stamp { D.next_stamp core.old.device < 2 ^ 62 }
    requires can { CanWriteLine D.Counts core.old worker line call.now files }
    requires writing { IsWriting call.now }
    requires bounded { IsBounded call.now }
    ensures core { IsCore D.Counts core.new }
    ensures ends { EndsWrite D.Counts (2 ^ 40) worker call.now core.old core.new result }
    ensures files { IfUndone result (HasPagesOfFiles D.Counts core.new files) }
    ensures commit { HasRoomToWrite D.Counts call.now core.old → KeepsCommit core.old core.new }
{
    match write_path(core, worker, line, call, files, page) {
        Ok(written) => written,
        Err(stop) => ended_early(stop),
    }
}

// The answer of a call that ended early.
fn ended_early(stop: Stop) -> Written
    ensures { result ≡ ended_as (Err stop) }
{
    match stop {
        Stop::Fault => Written::Fault,
        Stop::Lost { wanted, found } => Written::Lost { wanted, found },
    }
}

// Writes the bytes of a call to what its path leads to, where reads and programs may end the call early.
fn write_path<D: MovingPages>(
    core: &mut Core<D>,
    worker: u8,
    line: u32,
    call: &Call,
    files: u32,
    page: &mut PageBuf,
) -> Result<Written, Stop>
    requires core { IsCore D.Counts core.old }
    requires stamp { D.next_stamp core.old.device < 2 ^ 62 }
    requires can { CanWriteLine D.Counts core.old worker line call.now files }
    requires writing { IsWriting call.now }
    requires few { len_of call.now ≤ max_bytes }
    ensures core { IsCore D.Counts core.new }
    ensures ends { EndsWrite D.Counts (2 ^ 40) worker call.now core.old core.new (ended_as result) }
    ensures commit { HasRoomToWrite D.Counts call.now core.old → KeepsCommit core.old core.new }
{
    let found = find_file(core, path_written(call));
    device_stands(&core.device);
    match found {
        Ok(at) => match at {
            Found::File(ino) => write_file(core, worker, line, call, ino, files, page),
            Found::No(refusal) => Ok(Written::No(refusal)),
        },
        Err(stop) => Err(stop),
    }
}

// Writes the bytes of a call to a file, where reads and programs may end the call early.
fn write_file<D: MovingPages>(
    core: &mut Core<D>,
    worker: u8,
    line: u32,
    call: &Call,
    ino: u32,
    files: u32,
    page: &mut PageBuf,
) -> Result<Written, Stop>
    requires core { IsCore D.Counts core.old }
    requires stamp { D.next_stamp core.old.device < 2 ^ 62 }
    requires can { CanWriteLine D.Counts core.old worker line call.now files }
    requires writing { IsWriting call.now }
    requires few { len_of call.now ≤ max_bytes }
    requires short { is_too_long (path_of call.now) ≡ false }
    requires leads { node_reached (nodes_of D.Counts core.old) 0 (path_of call.now) ≡ Some ino }
    requires file { IsSomeFile D.Counts core.old ino }
    ensures core { IsCore D.Counts core.new }
    ensures ends { EndsWrite D.Counts (2 ^ 36) worker call.now core.old core.new (ended_as result) }
    ensures commit { HasRoomToWrite D.Counts call.now core.old → KeepsCommit core.old core.new }
{
    looks_refuse();
    if length_of(call) == 0 {
        return Ok(write_none(core, worker, call, ino, files));
    }
    if ends_far(call) {
        return Ok(Written::No(Refusal::Efbig));
    }
    write_some(core, worker, line, call, ino, files, page)
}

// Whether a call writes behind the greatest size of a file.
fn ends_far(call: &Call) -> bool
    requires writing { IsWriting call.now }
    ensures { result ≡ nat_lt max_file_size (from_of call.now + len_of call.now) }
{
    let from = offset_of(call);
    from > MOST || length_of(call) > MOST - from
}

// No bytes are written: the file stays as it is.
fn write_none<D: MovingPages>(
    core: &mut Core<D>,
    worker: u8,
    call: &Call,
    ino: u32,
    files: u32,
) -> Written
    requires core { IsCore D.Counts core.old }
    requires known { worker < 8 }
    requires writing { IsWriting call.now }
    requires none { len_of call.now ≡ 0 }
    requires short { is_too_long (path_of call.now) ≡ false }
    requires leads { node_reached (nodes_of D.Counts core.old) 0 (path_of call.now) ≡ Some ino }
    requires file { IsSomeFile D.Counts core.old ino }
    requires files { HasPagesOfFiles D.Counts core.old files }
    ensures core { IsCore D.Counts core.new }
    ensures ends { EndsWrite D.Counts 0 worker call.now core.old core.new result }
    ensures commit { KeepsCommit core.old core.new }
{
    looks_refuse();
    core.drop_line(worker);
    device_stands(&core.device);
    Written::Done(files)
}

// Some bytes are written, which do not end behind the greatest size.
fn write_some<D: MovingPages>(
    core: &mut Core<D>,
    worker: u8,
    line: u32,
    call: &Call,
    ino: u32,
    files: u32,
    page: &mut PageBuf,
) -> Result<Written, Stop>
    requires core { IsCore D.Counts core.old }
    requires stamp { D.next_stamp core.old.device < 2 ^ 62 }
    requires can { CanWriteLine D.Counts core.old worker line call.now files }
    requires write { IsSomeWrite call.now }
    requires leads { node_reached (nodes_of D.Counts core.old) 0 (path_of call.now) ≡ Some ino }
    requires file { IsSomeFile D.Counts core.old ino }
    ensures core { IsCore D.Counts core.new }
    ensures ends { EndsWrite D.Counts (2 ^ 36) worker call.now core.old core.new (ended_as result) }
    ensures commit { HasRoomToWrite D.Counts call.now core.old → KeepsCommit core.old core.new }
{
    looks_refuse();
    let room = fits(core, ino, offset_of(call), length_of(call), files);
    device_stands(&core.device);
    match room {
        Ok(at) => match at {
            Fits::Fits(rec) => write_pages(
                core,
                worker,
                line,
                call,
                ino,
                rec.generation,
                files,
                page,
            ),
            Fits::No(refusal) => Ok(Written::No(refusal)),
        },
        Err(stop) => Err(stop),
    }
}

// There is room, as far as is seen by now, in the file of this generation.
fn write_pages<D: MovingPages>(
    core: &mut Core<D>,
    worker: u8,
    line: u32,
    call: &Call,
    ino: u32,
    generation: u32,
    files: u32,
    page: &mut PageBuf,
) -> Result<Written, Stop>
    requires core { IsCore D.Counts core.old }
    requires stamp { D.next_stamp core.old.device < 2 ^ 62 }
    requires can { CanWriteLine D.Counts core.old worker line call.now files }
    requires write { IsSomeWrite call.now }
    requires leads { node_reached (nodes_of D.Counts core.old) 0 (path_of call.now) ≡ Some ino }
    requires file { IsOfGeneration D.Counts core.old ino generation }
    ensures core { IsCore D.Counts core.new }
    ensures ends { EndsWrite D.Counts (2 ^ 36) worker call.now core.old core.new (ended_as result) }
    ensures commit { HasRoomToWrite D.Counts call.now core.old → KeepsCommit core.old core.new }
{
    keep_line(core, worker, line, call, ino, generation);
    match put_pages(core, worker, line, call, ino, generation, page) {
        Ok(()) => {
            if core.stopped != 0 {
                return Err(Stop::Fault);
            }
            install_pages(core, worker, call, ino, files)
        }
        Err(stop) => Err(stop),
    }
}

// The worker's pages in flight are dropped where they are none of this generation of the file.
fn keep_line<D: MovingPages>(
    core: &mut Core<D>,
    worker: u8,
    line: u32,
    call: &Call,
    ino: u32,
    generation: u32,
)
    requires core { IsCore D.Counts core.old }
    requires runs { RepresentsSomeTree D.Counts core.old }
    requires known { worker < 8 }
    requires line { HasLineOrNone core.old.flight worker line }
    requires writing { IsWriting call.now }
    requires some { 0 < len_of call.now }
    requires leads { node_reached (nodes_of D.Counts core.old) 0 (path_of call.now) ≡ Some ino }
    requires file { IsSomeFile D.Counts core.old ino }
    requires staged { AreStaged D.Counts core.old call.now (worker_pages core.old worker) }
    requires others { (w : ℕ) → length (of_worker core.old.flight w).pages ≤ 16 }
    ensures core { IsCore D.Counts core.new }
    ensures keeps { KeepsLine D.Counts ino generation worker line call.now core.old core.new }
    ensures room { KeepsRoom D.Counts 0 core.old core.new }
{
    flight_leads(core);
    device_stands(&core.device);
    if all_of_file(&core.flight, worker, ino, generation) {
        return;
    }
    core.drop_line(worker);
}

// All pages of the call are in flight.
fn install_pages<D: MovingPages>(
    core: &mut Core<D>,
    worker: u8,
    call: &Call,
    ino: u32,
    files: u32,
) -> Result<Written, Stop>
    requires core { IsCore D.Counts core.old }
    requires writes { core.old.stopped ≡ 0 }
    requires stamp { D.next_stamp core.old.device + 512 ≤ 2 ^ 63 }
    requires known { worker < 8 }
    requires write { IsSomeWrite call.now }
    requires leads { node_reached (nodes_of D.Counts core.old) 0 (path_of call.now) ≡ Some ino }
    requires line { IsLineOfCall D.Counts core.old ino worker call.now }
    requires files { HasPagesOfFiles D.Counts core.old files }
    requires all { HasAll call.now (worker_pages core.old worker) }
    requires written { RepresentsWritten D.Counts worker call.now core.old }
    ensures core { IsCore D.Counts core.new }
    ensures ends { EndsWrite D.Counts 512 worker call.now core.old core.new (ended_as result) }
    ensures commit { length core.old.meta.dirty + 4 ≤ most → KeepsCommit core.old core.new }
{
    match make_room(core) {
        Ok(()) => install(core, worker, call, ino, files),
        Err(stop) => Err(stop),
    }
}

// Gives the file the pages of the call, where four more pages of metadata may become dirty. Reclaiming may have moved pages since there was
// room for those of the file, so the room is seen again.
fn install<D: MovingPages>(
    core: &mut Core<D>,
    worker: u8,
    call: &Call,
    ino: u32,
    files: u32,
) -> Result<Written, Stop>
    requires core { IsCore D.Counts core.old }
    requires known { worker < 8 }
    requires write { IsSomeWrite call.now }
    requires leads { node_reached (nodes_of D.Counts core.old) 0 (path_of call.now) ≡ Some ino }
    requires line { IsLineOfCall D.Counts core.old ino worker call.now }
    requires files { HasPagesOfFiles D.Counts core.old files }
    requires all { HasAll call.now (worker_pages core.old worker) }
    requires written { RepresentsWritten D.Counts worker call.now core.old }
    requires room { length (besides_0 core.old.meta.dirty) + 4 ≤ most }
    ensures core { IsCore D.Counts core.new }
    ensures ends { EndsWrite D.Counts 0 worker call.now core.old core.new (ended_as result) }
    ensures commit { KeepsCommit core.old core.new }
{
    looks_refuse();
    let room = fits(core, ino, offset_of(call), length_of(call), files);
    device_stands(&core.device);
    match room {
        Ok(at) => match at {
            Fits::Fits(rec) => Ok(install_ready(core, worker, call, ino, rec, files)),
            Fits::No(refusal) => Ok(Written::No(refusal)),
        },
        Err(stop) => Err(stop),
    }
}

// The file takes the pages, for which it is ready.
fn install_ready<D: MovingPages>(
    core: &mut Core<D>,
    worker: u8,
    call: &Call,
    ino: u32,
    rec: InodeRec,
    files: u32,
) -> Written
    requires core { IsCore D.Counts core.old }
    requires known { worker < 8 }
    requires write { IsSomeWrite call.now }
    requires leads { node_reached (nodes_of D.Counts core.old) 0 (path_of call.now) ≡ Some ino }
    requires ready { FileIsReady D.Counts core.old ino (from_of call.now) (len_of call.now) files rec }
    requires files { HasPagesOfFiles D.Counts core.old files }
    requires pages { AreOfCall ino rec.generation call.now (worker_pages core.old worker) }
    requires all { HasAll call.now (worker_pages core.old worker) }
    requires written { RepresentsWritten D.Counts worker call.now core.old }
    requires room { length (besides_0 core.old.meta.dirty) + 4 ≤ most }
    ensures core { IsCore D.Counts core.new }
    ensures ends { EndsWrite D.Counts 0 worker call.now core.old core.new result }
    ensures commit { KeepsCommit core.old core.new }
{
    looks_refuse();
    flight_leads(core);
    device_stands(&core.device);
    let mut now = rec;
    let size = now.size.max(offset_of(call) + length_of(call));
    let waiting = core.freeing.len();
    install_line(core, worker, ino, &mut now, size);
    device_stands(&core.device);
    Written::Done(files_after(core, call, files, waiting))
}

// How many pages files have, once a file took the pages of the call: before it they had so many, and so many pointers awaited their free.
fn files_after<D: MovingPages>(core: &Core<D>, call: &Call, files: u32, waiting: u32) -> u32
    requires core { IsCore D.Counts core.now }
    requires volume { IsVolumeShape (D.shape core.now.device) }
    requires writing { IsWriting call.now }
    requires some { 0 < len_of call.now }
    requires within { from_of call.now + len_of call.now ≤ 16809984 }
    requires taken { length (running_holders D.Counts core.now.device core.now.meta) + length core.now.freeing.items
        ≡ files + waiting + count_indexes (from_of call.now) (len_of call.now) }
    ensures { HasPagesOfFiles D.Counts core.now result }
{
    let first = offset_of(call) / PAGE;
    let last = (offset_of(call) + length_of(call) - 1) / PAGE;
    let all = u64::from(files) + u64::from(waiting) + (last + 1 - first);
    (all - u64::from(core.freeing.len())) as u32
}
