//! The units of a transaction one by one, the goal of a sync, and as many units as it needs.
ghost use Rattle.std.specs.Prelude.{◌≡◌, ◌<◌, ◌≤◌, ◌+◌, ◌^◌, length};
ghost use Rattle.nl_flight.specs.Flight.{IsFlight, with_line};
ghost use Rattle.nl_core.specs.Calls.{FailureIsCounted};
ghost use Rattle.nl_core.specs.Core.{IsCore};
ghost use Rattle.nl_core.specs.Goes.{PreservesVolume};
ghost use Rattle.nl_core.specs.Lines.{fixes_goal, with_goal};
ghost use Rattle.nl_core.specs.Programming.{HasLineOrNone, line_of};
ghost use Rattle.nl_core.specs.Units.{DecidesCommit, DoesUnit, ReachesGoal, begun_unit, goal_or};

use crate::committing::LAST;
use crate::state::Core;
use nl_field::VirtualWrite;
use nl_flight::Flight;
use nl_iface::MovingPages;
use nl_journal::frozen_len;
use nl_journal_commit::{store_count, take_unit};
use nl_spec_commits::laws::device_stands;

impl<D: MovingPages> Core<D> {
    /// Does one unit of a transaction. Where nothing is frozen, the dirty pages are frozen under the count of all calls, and the header is
    /// written. Else it is the next page of what is frozen: an image, the commit page, or a page copied home. Once the commit page is
    /// finished, what was frozen is committed, at that clock; the pages are freed that its transaction gave up, and no other, and callbacks
    /// are acknowledged that it or an earlier one handled. After `Lost` and `Fault` the same unit is still to be done.
    pub fn unit(&mut self) -> VirtualWrite
        requires core { IsCore D.Counts self.old }
        requires writes { self.old.stopped ≡ 0 }
        requires stamp { D.next_stamp self.old.device < 2 ^ 63 }
        ensures core { IsCore D.Counts self.new }
        ensures goes { PreservesVolume D.Counts 1 self.old self.new }
        ensures does { DoesUnit D.Counts self.old self.new result }
        ensures faults { FailureIsCounted D.Counts (result ≡ VirtualWrite.Fault) self.old self.new }
    {
        self.begin_unit();
        self.write_unit()
    }

    /// Fixes the goal of the worker's line as a sync: all calls so far. The line begins where the worker has none, and a goal that it has
    /// stays. Answers the goal.
    pub fn fix_goal(&mut self, worker: u8, line: u32) -> u64
        requires core { IsCore D.Counts self.old }
        requires known { worker < 8 }
        requires some { 0 < line }
        requires line { HasLineOrNone self.old.flight worker line }
        ensures core { IsCore D.Counts self.new }
        ensures goes { PreservesVolume D.Counts 0 self.old self.new }
        ensures goal { result ≡ goal_or (line_of self.old.flight worker line).goal self.old.count }
        ensures fixed { self.new ≡ fixes_goal worker line self.old }
    {
        device_stands(&self.device);
        keep_goal(&mut self.flight, worker, line, self.count)
    }

    /// Does units until at least so many calls are committed. Where they are, it does none.
    pub fn reach(&mut self, goal: u64) -> VirtualWrite
        requires core { IsCore D.Counts self.old }
        requires writes { self.old.stopped ≡ 0 }
        requires stamp { D.next_stamp self.old.device + 256 ≤ 2 ^ 63 }
        requires goal { goal ≤ self.old.count }
        ensures core { IsCore D.Counts self.new }
        ensures goes { PreservesVolume D.Counts 256 self.old self.new }
        ensures reaches { ReachesGoal D.Counts goal self.old self.new result }
        ensures faults { FailureIsCounted D.Counts (result ≡ VirtualWrite.Fault) self.old self.new }
    {
        'units: while self.committed < goal {
            if self.stopped != 0 {
                return VirtualWrite::Fault;
            }
            match self.unit() {
                VirtualWrite::Done => {}
                answer => return answer,
            }
        }
        VirtualWrite::Done
    }

    // Where nothing is frozen, the dirty pages are, under the count of all calls.
    fn begin_unit(&mut self)
        requires core { IsCore D.Counts self.old }
        ensures core { IsCore D.Counts self.new }
        ensures goes { PreservesVolume D.Counts 0 self.old self.new }
        ensures begun { self.new ≡ begun_unit self.old }
        ensures some { 1 ≤ length self.new.meta.frozen.addresses }
    {
        device_stands(&self.device);
        if frozen_len(&self.meta) != 0 {
            return;
        }
        let _mark = self.mark();
        let count = self.count.min(LAST);
        store_count(&mut self.meta, &self.shape, count);
        self.meta.stands();
        self.meta.freeze();
        self.frozen = self.count;
        self.leaving = self.freeing.len();
    }

    // Does the unit that is due of what is frozen.
    fn write_unit(&mut self) -> VirtualWrite
        requires core { IsCore D.Counts self.old }
        requires writes { self.old.stopped ≡ 0 }
        requires stamp { D.next_stamp self.old.device < 2 ^ 63 }
        requires some { 1 ≤ length self.old.meta.frozen.addresses }
        ensures core { IsCore D.Counts self.new }
        ensures goes { PreservesVolume D.Counts 1 self.old self.new }
        ensures does { DoesUnit D.Counts self.old self.new result }
        ensures faults { FailureIsCounted D.Counts (result ≡ VirtualWrite.Fault) self.old self.new }
    {
        device_stands(&self.device);
        let faults = self.device.write_faults();
        let taken = take_unit(&mut self.device, &mut self.journal, &mut self.meta);
        device_stands(&self.device);
        self.note_fault(faults);
        if let Some(number) = taken.decided {
            self.decide(number);
        }
        taken.answer
    }

    // The commit page of the frozen transaction was finished just now: it is the last commit, and what it gave up is freed.
    fn decide(&mut self, number: u64)
        requires formed { D.formed self.old.device }
        ensures formed { D.formed self.new.device }
        ensures decided { DecidesCommit D.Counts number self.old self.new }
    {
        self.committed = self.frozen;
        self.moment = self.device.clock();
        let due = self.leaving;
        self.settle(due, number);
    }
}

// The worker's line, which begins where it has none, has a goal: this one, where it had none. Answers the goal.
fn keep_goal(flight: &mut Flight, worker: u8, line: u32, count: u64) -> u64
    requires known { worker < 8 }
    requires some { 0 < line }
    ensures goal { result ≡ goal_or (line_of flight.old worker line).goal count }
    ensures kept { flight.new ≡ with_line flight.old worker (with_goal (line_of flight.old worker line) count) }
    ensures lines { IsFlight flight.new }
{
    if flight.line(worker) == 0 {
        flight.begin(worker, line);
    }
    let goal = flight.goal(worker).unwrap_or(count);
    flight.set_goal(worker, goal);
    let _line = flight.line(worker);
    goal
}
