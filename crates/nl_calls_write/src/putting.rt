// The pages of a call that writes, programmed and put in flight for the line of a worker.
ghost use Rattle.std.specs.Prelude.{◌≡◌, ◌≢◌, ◌+◌, ◌≤◌, ◌<◌, ◌*◌, ◌^◌, ℕ, true, OnErr, OnOk, length};
ghost use Rattle.nl_field.specs.Numbers.{max_bytes};
ghost use Rattle.nl_flight.specs.Flight.{HasFlightRoom, of_worker};
ghost use Rattle.nl_meta_running.specs.Reading.{stop_of};
ghost use Rattle.nl_core.specs.Calls.{KeepsLines};
ghost use Rattle.nl_core.specs.Core.{IsCore, names_of};
ghost use Rattle.nl_core.specs.LastCommit.{KeepsRoom};
ghost use Rattle.nl_core.specs.Programming.{last_stamp};
ghost use Rattle.nl_calls_steps.specs.Lines.{worker_pages};
ghost use Rattle.nl_calls_steps.specs.Answers.{EndsEarly};
ghost use Rattle.nl_calls_bytes.specs.Contents.{count_indexes};
ghost use Rattle.nl_calls_bytes.specs.InFlight.{AreOfCall, HasAll};
ghost use Rattle.nl_calls_bytes.specs.Ranges.{from_of, is_written, len_of};
ghost use Rattle.nl_calls_write.specs.Lines.{AddsFlightPage, CanPut, HasIndex, PutsOn};

use crate::paging::make_page;
use nl_calls_bytes::{has_index, length_of, offset_of};
use nl_core::{Core, Programmed};
use nl_field::{PageBuf, Tag};
use nl_iface::MovingPages;
use nl_meta_running::Stop;
use nl_spec_commits::laws::device_stands;
use nl_tree::Call;

const PAGE: u64 = 4096;

/// Puts in flight for a worker's line each page of a file in which bytes of a call lie and which is not in flight yet, as the call leaves
/// it.
pub(crate) fn put_pages<D: MovingPages>(
    core: &mut Core<D>,
    worker: u8,
    line: u32,
    call: &Call,
    ino: u32,
    generation: u32,
    page: &mut PageBuf,
) -> Result<(), Stop>
    requires core { IsCore D.Counts core.old }
    requires stamp { D.next_stamp core.old.device < 2 ^ 62 + 2 ^ 36 }
    requires can { CanPut D.Counts core.old worker line call.now ino }
    requires few { (0 < len_of call.now) × (len_of call.now ≤ max_bytes) }
    requires within { from_of call.now + len_of call.now ≤ 16809984 }
    requires pages { AreOfCall ino generation call.now (worker_pages core.old worker) }
    requires others { (w : ℕ) → length (of_worker core.old.flight w).pages ≤ 16 }
    ensures core { IsCore D.Counts core.new }
    ensures puts { PutsOn D.Counts (17 * 2 ^ 30) worker call.now core.old core.new }
    ensures pages { OnOk result (AreOfCall ino generation call.now (worker_pages core.new worker)
        × HasAll call.now (worker_pages core.new worker)) }
    ensures early { EndsEarly D.Counts core.old core.new (stop_of result) }
    ensures at_once { count_indexes (from_of call.now) (len_of call.now) ≤ (names_of D.Counts core.old).space.room
        → KeepsRoom D.Counts (count_indexes (from_of call.now) (len_of call.now)) core.old core.new }
{
    let first = (offset_of(call) / PAGE) as u32;
    let last = ((offset_of(call) + length_of(call) - 1) / PAGE) as u32;
    'indexes: for index in first..last + 1 {
        if core.stopped != 0 {
            return Err(Stop::Fault);
        }
        let tag = Tag {
            ino,
            generation,
            index,
        };
        match put_index(core, worker, line, call, tag, page) {
            Ok(()) => {}
            Err(stop) => return Err(stop),
        }
    }
    Ok(())
}

// Puts in flight for the line the page of one index, as the call leaves it, where it is not in flight yet.
fn put_index<D: MovingPages>(
    core: &mut Core<D>,
    worker: u8,
    line: u32,
    call: &Call,
    tag: Tag,
    page: &mut PageBuf,
) -> Result<(), Stop>
    requires core { IsCore D.Counts core.old }
    requires stamp { D.next_stamp core.old.device < last_stamp }
    requires can { CanPut D.Counts core.old worker line call.now tag.ino }
    requires few { len_of call.now ≤ max_bytes }
    requires written { is_written call.now tag.index ≡ true }
    requires within { tag.index < 4104 }
    requires pages { AreOfCall tag.ino tag.generation call.now (worker_pages core.old worker) }
    requires others { (w : ℕ) → w ≢ worker → length (of_worker core.old.flight w).pages ≤ 16 }
    ensures core { IsCore D.Counts core.new }
    ensures puts { PutsOn D.Counts (2 ^ 30) worker call.now core.old core.new }
    ensures has { OnOk result (HasIndex tag.ino tag.generation worker line call.now tag.index core.old core.new) }
    ensures early { EndsEarly D.Counts core.old core.new (stop_of result) }
    ensures at_once { 0 < (names_of D.Counts core.old).space.room → KeepsRoom D.Counts 1 core.old core.new }
{
    if has_index(&core.flight, worker, tag.index) {
        return Ok(());
    }
    put_page(core, worker, line, call, tag, page)
}

// Puts in flight for the line the page of one index that is not in flight, as the call leaves it.
fn put_page<D: MovingPages>(
    core: &mut Core<D>,
    worker: u8,
    line: u32,
    call: &Call,
    tag: Tag,
    page: &mut PageBuf,
) -> Result<(), Stop>
    requires core { IsCore D.Counts core.old }
    requires stamp { D.next_stamp core.old.device < last_stamp }
    requires can { CanPut D.Counts core.old worker line call.now tag.ino }
    requires place { HasFlightRoom core.old.flight worker }
    requires few { len_of call.now ≤ max_bytes }
    requires written { is_written call.now tag.index ≡ true }
    requires within { tag.index < 4104 }
    ensures core { IsCore D.Counts core.new }
    ensures puts { PutsOn D.Counts (2 ^ 30) worker call.now core.old core.new }
    ensures added { OnOk result (AddsFlightPage worker line tag core.old core.new) }
    ensures none { OnErr result (KeepsLines core.old core.new) }
    ensures early { EndsEarly D.Counts core.old core.new (stop_of result) }
    ensures at_once { 0 < (names_of D.Counts core.old).space.room → KeepsRoom D.Counts 1 core.old core.new }
{
    let made = make_page(core, tag.ino, call, tag.index, page);
    device_stands(&core.device);
    match made {
        Ok(()) => match core.program(worker, line, tag, page) {
            Programmed::InFlight => Ok(()),
            Programmed::Stopped => unreachable!(),
            Programmed::Lost { wanted, found } => Err(Stop::Lost { wanted, found }),
            Programmed::Fault => Err(Stop::Fault),
        },
        Err(stop) => Err(stop),
    }
}
