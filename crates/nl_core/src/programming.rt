//! A page is programmed for the line of a worker, and is in flight from then on.
ghost use Rattle.std.specs.Prelude.{◌≡◌, ◌≢◌, ◌↔◌, ◌⊎◌, ◌+◌, ◌<◌, ◌≤◌, ◌^◌};
ghost use Rattle.nl_flight.specs.Flight.{HasFlightRoom, IsFlight, with_line};
ghost use Rattle.nl_iface.specs.Answers.{IfPlaced, IsPlaced};
ghost use Rattle.nl_iface.specs.Calls.{StoresMap, StoresPages};
ghost use Rattle.nl_iface.specs.Device.{IsVolumeShape};
ghost use Rattle.nl_iface.specs.Names.{IsNames};
ghost use Rattle.nl_core.specs.Calls.{FailureIsCounted};
ghost use Rattle.nl_core.specs.Core.{IsCore, names_of};
ghost use Rattle.nl_core.specs.Goes.{PreservesVolume};
ghost use Rattle.nl_core.specs.LastCommit.{KeepsRoom};
ghost use Rattle.nl_core.specs.Programming.{HasLineOrNone, ProgramsNewName, ProgramsFor, PutsNone, PutsPage, last_stamp, line_of, with_page};
ghost use Rattle.nl_core.specs.Writing.{stopped_on};

use crate::rounds::Rounded;
use crate::state::Core;
use nl_field::{Named, PageBuf, Pointer, Tag};
use nl_flight::Flight;
use nl_iface::MovingPages;
use nl_spec_commits::laws::device_stands;

/// What the programming of a page answers.
#[derive(Clone, Copy, Debug, PartialEq, Eq)]
pub enum Programmed {
    /// The page is programmed, and in flight.
    InFlight,
    /// The volume is read-only, or its write sequence numbers are nearly used up.
    Stopped,
    /// A page that was read does not hold the wanted number: `found` is another one, 0 where it holds none.
    Lost { wanted: u64, found: u64 },
    /// The medium failed.
    Fault,
}

// The write sequence number from which on no page is programmed.
const END: u64 = (1 << 62) + (1 << 40);

impl<D: MovingPages> Core<D> {
    /// Programs a page for a worker's line, which is this one or begins with it. The page is in flight from now on, behind the others of
    /// the line. Where the device has no room for it, rounds of reclaiming make some: they always do. Where it has room, no round is made,
    /// and nothing is committed. `Stopped` exactly where the volume is read-only or the next write sequence number has reached 2^62 + 2^40.
    pub fn program(&mut self, worker: u8, line: u32, tag: Tag, from: &PageBuf) -> Programmed
        requires core { IsCore D.Counts self.old }
        requires known { worker < 8 }
        requires some { 0 < line }
        requires line { HasLineOrNone self.old.flight worker line }
        requires place { HasFlightRoom self.old.flight worker }
        ensures core { IsCore D.Counts self.new }
        ensures goes { PreservesVolume D.Counts (2 ^ 30) self.old self.new }
        ensures stopped { result ≡ Programmed.Stopped ↔ (self.old.stopped ≢ 0) ⊎ (last_stamp ≤ D.next_stamp self.old.device) }
        ensures programs { ProgramsFor D.Counts worker line tag from.now.main self.old self.new result }
        ensures faults { FailureIsCounted D.Counts (result ≡ Programmed.Fault) self.old self.new }
        ensures at_once { 0 < (names_of D.Counts self.old).space.room → KeepsRoom D.Counts 1 self.old self.new }
    {
        if self.stopped != 0 || self.device.next_stamp() >= END {
            return Programmed::Stopped;
        }
        self.program_now(worker, line, tag, from)
    }

    // Programs a page on a volume that takes one: it tries, and makes room with rounds of reclaiming until it is placed.
    fn program_now(&mut self, worker: u8, line: u32, tag: Tag, from: &PageBuf) -> Programmed
        requires core { IsCore D.Counts self.old }
        requires writes { self.old.stopped ≡ 0 }
        requires stamp { D.next_stamp self.old.device + 2 ^ 30 ≤ 2 ^ 63 }
        requires known { worker < 8 }
        requires some { 0 < line }
        requires line { HasLineOrNone self.old.flight worker line }
        requires place { HasFlightRoom self.old.flight worker }
        ensures core { IsCore D.Counts self.new }
        ensures goes { PreservesVolume D.Counts (2 ^ 30) self.old self.new }
        ensures runs { result ≢ Programmed.Stopped }
        ensures programs { ProgramsFor D.Counts worker line tag from.now.main self.old self.new result }
        ensures faults { FailureIsCounted D.Counts (result ≡ Programmed.Fault) self.old self.new }
        ensures at_once { 0 < (names_of D.Counts self.old).space.room → KeepsRoom D.Counts 1 self.old self.new }
    {
        device_stands(&self.device);
        let mut answer = self.place_once(worker, line, tag, from);
        'rounds: loop {
            match answer {
                Named::Placed(_) => return Programmed::InFlight,
                Named::Fault | Named::NotLive => return Programmed::Fault,
                Named::NoPage => {}
            }
            device_stands(&self.device);
            match self.round() {
                Rounded::Done => {}
                Rounded::Lost { wanted, found } => return Programmed::Lost { wanted, found },
                Rounded::Fault => return Programmed::Fault,
            }
            if self.stopped != 0 {
                return Programmed::Fault;
            }
            device_stands(&self.device);
            answer = self.place_once(worker, line, tag, from);
        }
    }

    // One try. The page is in flight from now on, behind the others of the line. `NoPage` comes exactly where the device has no room for
    // it, and then nothing was written. A stop within leaves what was committed before.
    fn place_once(&mut self, worker: u8, line: u32, tag: Tag, from: &PageBuf) -> Named
        requires core { IsCore D.Counts self.old }
        requires writes { self.old.stopped ≡ 0 }
        requires stamp { D.next_stamp self.old.device < 2 ^ 63 }
        requires known { worker < 8 }
        requires some { 0 < line }
        requires line { HasLineOrNone self.old.flight worker line }
        requires place { HasFlightRoom self.old.flight worker }
        ensures core { IsCore D.Counts self.new }
        ensures goes { PreservesVolume D.Counts 1 self.old self.new }
        ensures no_page { result ≡ Named.NoPage ↔ (names_of D.Counts self.old).space.room ≡ 0 }
        ensures placed { IfPlaced result (PutsPage D.Counts worker line tag from.now.main self.old self.new) }
        ensures none { (IsPlaced result → ⊥) → PutsNone D.Counts result self.old self.new }
        ensures faults { FailureIsCounted D.Counts (result ≡ Named.Fault) self.old self.new }
        ensures at_once { KeepsRoom D.Counts 1 self.old self.new }
    {
        match self.place(tag, from) {
            Named::Placed(at) => {
                put_page(&mut self.flight, worker, line, tag, at);
                Named::Placed(at)
            }
            answer => answer,
        }
    }

    // Programs a page under a name that the device picks, and notes a write that failed.
    fn place(&mut self, tag: Tag, from: &PageBuf) -> Named
        requires formed { D.formed self.old.device }
        requires stamp { D.next_stamp self.old.device < 2 ^ 63 }
        ensures formed { D.formed self.new.device }
        ensures volume { IsVolumeShape (D.shape self.old.device) }
        ensures map { D.tells → StoresMap D.Counts self.old.device }
        ensures numbers { IsNames (D.shape self.old.device) (D.next_stamp self.old.device) (D.names self.old.device) }
        ensures stores { D.tells → StoresPages D.Counts self.new.device }
        ensures programs { ProgramsNewName D.Counts tag from.now.main result self.old.device self.new.device }
        ensures others { self.new ≡ record self.old { device = self.new.device; stopped = stopped_on D.Counts (D.write_faults self.old.device) self.old self.new } }
    {
        device_stands(&self.device);
        let faults = self.device.write_faults();
        let answer = self.device.nameless_write(tag, from);
        device_stands(&self.device);
        self.note_fault(faults);
        answer
    }
}

// The page is one of the worker's line, which begins where the worker has none.
fn put_page(flight: &mut Flight, worker: u8, line: u32, tag: Tag, at: Pointer)
    requires known { worker < 8 }
    requires some { 0 < line }
    requires place { HasFlightRoom flight.old worker }
    ensures put { flight.new ≡ with_page flight.old worker line tag at }
    ensures flight { IsFlight flight.new }
{
    start(flight, worker, line);
    flight.put(worker, tag.index, at, tag);
}

// The worker has its line, and else this one begins.
fn start(flight: &mut Flight, worker: u8, line: u32)
    requires known { worker < 8 }
    requires some { 0 < line }
    ensures started { flight.new ≡ with_line flight.old worker (line_of flight.old worker line) }
    ensures lines { IsFlight flight.old }
{
    if flight.line(worker) == 0 {
        flight.begin(worker, line);
    }
}
