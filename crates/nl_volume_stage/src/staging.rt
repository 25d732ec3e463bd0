ghost use Rattle.std.specs.Prelude.{◌≡◌, ◌≢◌, ◌⊎◌, ◌↔◌, ◌≤◌, ◌<◌, ◌^◌, length};
ghost use Rattle.nl_core.specs.Core.{names_of};
ghost use Rattle.nl_core.specs.LastCommit.{KeepsCommit, KeepsRoom, LeavesMedium};
ghost use Rattle.nl_core.specs.Programming.{HasLineOrNone};
ghost use Rattle.nl_core.specs.Units.{goal_of};
ghost use Rattle.nl_flight.specs.Flight.{of_worker};
ghost use Rattle.nl_tree.specs.declared.call.Call.TheVariants.{Sync};
ghost use Rattle.nl_volume_stage.specs.StagedPages.{EndsTried, IsTagOfCall, KeepsLinePages, LeavesInFlight, StaysWritable};
ghost use Rattle.nl_volume_stage.specs.Staging.{IsNextTag, PassesOn, StagesOn, StagesTurn, RepresentsSome, RepresentsWithLine, TellsLeft, TellsRest, TellsUnit, staged_indexes};

use crate::next::{Next, fill_page, flying, next_of};
use crate::numbers::{counts, is_worn};
use nl_core::{Core, Programmed};
use nl_field::{PageBuf, Tag, VirtualWrite};
use nl_iface::MovingPages;
use nl_spec_commits::laws::device_stands;
use nl_tree::{Call, Stage};

/// Stages one whole page of a line ahead of its effect: it is programmed, and in flight from now on. Of a sync it does one unit instead:
/// its goal is fixed first, all calls so far, where it has none. `Stopped` comes exactly where the volume is read-only or worn. Pages in
/// flight of another line of the worker are freed first, and its goal is dropped. The page is one of the file to which the path of the call
/// leads now. `Staged`, `Whole` and `Lost` come only where no write failed. The page given has bytes of the call then. Where it is stopped
/// or none is left, the medium and the last commit stay as they are. But for a sync nothing is committed where the device has room for a
/// page.
pub fn stage_line<D: MovingPages>(
    core: &mut Core<D>,
    worker: u8,
    line: u32,
    call: &Call,
    page: &mut PageBuf,
) -> Stage
    requires stands { RepresentsWithLine D.Counts worker line call.now core.old }
    requires known { worker < 8 }
    requires some { 0 < line }
    ensures stages { StagesTurn D.Counts worker line call.now core.old core.new result }
    ensures left { TellsRest D.Counts worker line call.now core.old core.new result }
    ensures stopped { result ≡ Stage.Stopped ↔ (core.old.stopped ≢ 0) ⊎ (2 ^ 62 ≤ D.next_stamp core.old.device) }
    ensures in_flight { LeavesInFlight D.Counts worker line call.now (IsTagOfCall D.Counts core.old call.now) core.old core.new result }
    ensures unfailed { result ≢ Stage.Fault → result ≢ Stage.Stopped → StaysWritable D.Counts core.old core.new }
    ensures kept { (result ≡ Stage.Stopped) ⊎ (result ≡ Stage.Whole) → LeavesMedium D.Counts core.old core.new }
    ensures commit { call.now ≢ Sync → 0 < (names_of D.Counts core.old).space.room → KeepsCommit core.old core.new }
{
    leave_other(core, worker, line);
    if core.stopped != 0 || is_worn(core) {
        return Stage::Stopped;
    }
    match call {
        Call::Sync => stage_sync(core, worker, line),
        _ => stage_now(core, worker, line, call, page),
    }
}

// Does a unit of a sync on a volume that can be written, where the worker has this line or none. The line has a goal from now on.
fn stage_sync<D: MovingPages>(core: &mut Core<D>, worker: u8, line: u32) -> Stage
    requires stands { RepresentsWithLine D.Counts worker line Sync core.old }
    requires known { worker < 8 }
    requires some { 0 < line }
    requires line { HasLineOrNone core.old.flight worker line }
    requires writes { core.old.stopped ≡ 0 }
    requires stamp { D.next_stamp core.old.device < 2 ^ 62 }
    ensures stages { StagesTurn D.Counts worker line Sync core.old core.new result }
    ensures units { TellsUnit D.Counts worker line Sync core.old core.new result }
    ensures not_stopped { result ≢ Stage.Stopped }
    ensures line { HasLineOrNone core.new.flight worker line }
    ensures pages { KeepsLinePages worker line core.old.flight core.new.flight }
    ensures unfailed { result ≢ Stage.Fault → StaysWritable D.Counts core.old core.new }
    ensures kept { result ≡ Stage.Whole → LeavesMedium D.Counts core.old core.new }
{
    device_stands(&core.device);
    let goal = core.fix_goal(worker, line);
    counts(core);
    if core.committed >= goal {
        return Stage::Whole;
    }
    let done = core.unit();
    device_stands(&core.device);
    counts(core);
    match done {
        VirtualWrite::Done => end_tried(core, worker, line, Stage::Staged),
        VirtualWrite::Lost { wanted, found } => {
            end_tried(core, worker, line, Stage::Lost { wanted, found })
        }
        VirtualWrite::Fault => {
            core.note_failure(worker, line);
            Stage::Fault
        }
    }
}

// Stages a page of a line that is no sync on a volume that can be written, where the worker has this line or none.
fn stage_now<D: MovingPages>(
    core: &mut Core<D>,
    worker: u8,
    line: u32,
    call: &Call,
    page: &mut PageBuf,
) -> Stage
    requires stands { RepresentsWithLine D.Counts worker line call.now core.old }
    requires known { worker < 8 }
    requires some { 0 < line }
    requires line { HasLineOrNone core.old.flight worker line }
    requires writes { core.old.stopped ≡ 0 }
    requires stamp { D.next_stamp core.old.device < 2 ^ 62 }
    requires no_sync { call.now ≢ Sync }
    ensures stages { StagesOn D.Counts worker line call.now core.old core.new result }
    ensures left { TellsLeft D.Counts worker line call.now core.old core.new result }
    ensures not_stopped { result ≢ Stage.Stopped }
    ensures in_flight { LeavesInFlight D.Counts worker line call.now (IsTagOfCall D.Counts core.old call.now) core.old core.new result }
    ensures unfailed { result ≢ Stage.Fault → StaysWritable D.Counts core.old core.new }
    ensures kept { result ≡ Stage.Whole → LeavesMedium D.Counts core.old core.new }
    ensures commit { 0 < (names_of D.Counts core.old).space.room → KeepsCommit core.old core.new }
{
    device_stands(&core.device);
    let place = flying(&core.flight, worker);
    let next = next_of(core, call, place);
    device_stands(&core.device);
    counts(core);
    match next {
        Next::Page(tag) => stage_page(core, worker, line, call, tag, page),
        Next::Whole => Stage::Whole,
        Next::Lost { wanted, found } => Stage::Lost { wanted, found },
        Next::Fault => {
            core.note_failure(worker, line);
            Stage::Fault
        }
    }
}

// Programs the next page of a line.
fn stage_page<D: MovingPages>(
    core: &mut Core<D>,
    worker: u8,
    line: u32,
    call: &Call,
    tag: Tag,
    page: &mut PageBuf,
) -> Stage
    requires stands { RepresentsWithLine D.Counts worker line call.now core.old }
    requires known { worker < 8 }
    requires some { 0 < line }
    requires line { HasLineOrNone core.old.flight worker line }
    requires writes { core.old.stopped ≡ 0 }
    requires stamp { D.next_stamp core.old.device < 2 ^ 62 }
    requires next { IsNextTag call.now (length (of_worker core.old.flight worker).pages) tag }
    requires no_sync { call.now ≢ Sync }
    ensures stages { StagesOn D.Counts worker line call.now core.old core.new result }
    ensures not_stopped { result ≢ Stage.Stopped }
    ensures not_whole { result ≢ Stage.Whole }
    ensures in_flight { LeavesInFlight D.Counts worker line call.now (λ owner. owner ≡ tag) core.old core.new result }
    ensures unfailed { result ≢ Stage.Fault → StaysWritable D.Counts core.old core.new }
    ensures commit { 0 < (names_of D.Counts core.old).space.room → KeepsCommit core.old core.new }
{
    device_stands(&core.device);
    fill_page(page, call, tag.index);
    let programmed = core.program(worker, line, tag, page);
    device_stands(&core.device);
    counts(core);
    match programmed {
        Programmed::InFlight => end_tried(core, worker, line, Stage::Staged),
        Programmed::Stopped => unreachable!(),
        Programmed::Lost { wanted, found } => {
            end_tried(core, worker, line, Stage::Lost { wanted, found })
        }
        Programmed::Fault => {
            core.note_failure(worker, line);
            Stage::Fault
        }
    }
}

// The answer of a staging that has reached the device. A device may go on though a write failed on the way: then the volume cannot be
// written to any more, and the line keeps that as its failure.
fn end_tried<D: MovingPages>(core: &mut Core<D>, worker: u8, line: u32, answer: Stage) -> Stage
    requires known { worker < 8 }
    requires some { 0 < line }
    ensures { EndsTried D.Counts worker line answer core.old core.new result }
{
    if core.stopped != 0 {
        core.note_failure(worker, line);
        return Stage::Fault;
    }
    answer
}

/// Frees pages in flight of another line of the worker, and drops its goal. The medium and the last commit stay as they are.
pub fn leave_other<D: MovingPages>(core: &mut Core<D>, worker: u8, line: u32)
    requires stands { RepresentsSome D.Counts core.old }
    requires known { worker < 8 }
    requires some { 0 < line }
    ensures passes { PassesOn D.Counts worker line core.old core.new }
    ensures line { HasLineOrNone core.new.flight worker line }
    ensures staged { staged_indexes core.new.flight worker line ≡ staged_indexes core.old.flight worker line }
    ensures goal { goal_of core.new.flight worker line ≡ goal_of core.old.flight worker line }
    ensures stopped { core.new.stopped ≡ core.old.stopped }
    ensures stamp { D.next_stamp core.new.device ≡ D.next_stamp core.old.device }
    ensures pages { KeepsLinePages worker line core.old.flight core.new.flight }
    ensures write_faults { D.write_faults core.new.device ≡ D.write_faults core.old.device }
    ensures kept { LeavesMedium D.Counts core.old core.new }
    ensures others { core.new ≡ record core.old { device = core.new.device; flight = core.new.flight } }
    ensures room { KeepsRoom D.Counts 0 core.old core.new }
{
    let now = core.flight.line(worker);
    if now != 0 && now != line {
        device_stands(&core.device);
        core.drop_line(worker);
        counts(core);
    }
}
